//! Before which place all section lines stand, kept under edits.

ghost use Rattle.std.specs.Prelude.{◌≡◌, ◌≤◌, ◌<◌, ◌+◌, ◌-◌, ◌^◌, ◌++◌, ◌∷◌, [], List};
ghost use Rattle.std.specs.Prelude.{length, slice_set};
ghost use Rattle.std.specs.List.{insert, remove};
ghost use Rattle.t1_parts.specs.declared.item.Item.{Item};
ghost use Rattle.t1_parts.specs.EntryKeys.{AreSectionsBefore};

use crate::entry_key::is_section;
use crate::item::Item;

/// Before which place the section lines stand, with an item more, by which there are so many.
pub(crate) fn end_pushed(end: usize, len: usize, item: &Item) -> usize
    ensures { (items : List Item)
        → len ≡ length items + 1
        → AreSectionsBefore end items
        → AreSectionsBefore result (items ++ item.now ∷ []) }
{
    if is_section(item) { len } else { end }
}

/// Before which place the section lines stand, with an item put in at a place.
pub(crate) fn end_inserted(end: usize, at: usize, item: &Item) -> usize
    requires end { end < 2 ^ 64 - 1 }
    requires at { at < 2 ^ 64 - 1 }
    ensures { (items : List Item)
        → at ≤ length items
        → AreSectionsBefore end items
        → AreSectionsBefore result (insert items at item.now) }
{
    if is_section(item) {
        return end.max(at) + 1;
    }
    if at < end { end + 1 } else { end }
}

/// Before which place the section lines stand, with the item of a place taken out.
pub(crate) fn end_removed(end: usize, at: usize) -> usize
    ensures { (items : List Item)
        → at < length items
        → AreSectionsBefore end items
        → AreSectionsBefore result (remove items at) }
{
    if at < end { end - 1 } else { end }
}

/// Before which place the section lines stand, with an item in the place of another.
pub(crate) fn end_put(end: usize, at: usize, item: &Item) -> usize
    requires { at < 2 ^ 64 - 1 }
    ensures { (items : List Item)
        → at < length items
        → AreSectionsBefore end items
        → AreSectionsBefore result (slice_set items at item.now) }
{
    if is_section(item) {
        end.max(at + 1)
    } else {
        end
    }
}
