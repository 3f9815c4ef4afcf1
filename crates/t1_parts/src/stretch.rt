//! A stretch of items: one of any kind, or plain lines.

ghost use Rattle.std.specs.Prelude.{◌≡◌, ◌<◌, ◌∷◌, [], ℕ, filter, IfOk, MatchOption, None, true};
ghost use Rattle.std.specs.Prelude.{length, take, drop, false, map};
ghost use Rattle.t1_parts.specs.Counts.{raised_item};
ghost use Rattle.std.specs.List.{find, list_any, slice_index_or};
ghost use Rattle.t1_parts.specs.declared.stretch.Stretch.TheVariants as stretches;
ghost use Rattle.t1_parts.specs.EntryKeys.{is_entry_of, is_of_kind};
ghost use Rattle.t1_parts.specs.LenIV.{says_lead};
ghost use Rattle.t1_parts.specs.declared.item.Item.{Item};
ghost use Rattle.t1_parts.specs.Items.{line_items, stretch_items};
ghost use Rattle.t1_parts.specs.Stretches.{stands_alone};
ghost use Rattle.t1_parts.specs.ItemRefs.{item_of};

use crate::alone_items::stands_alone;
use crate::entry_key::{EntryKey, ItemKind};
use crate::item::Item;
use crate::item_ref::ItemRef;
use crate::plain_lines::PlainLines;
use std::alloc::{AllocError, Global};

/// An item, or plain lines that follow one another.
#[derive(Drop)]
pub(crate) enum Stretch<'a> {
    /// One item.
    One(Item<'a>),
    /// Plain lines.
    Lines(PlainLines<'a>),
}

impl<'a> Stretch<'a> {
    /// How many items it has.
    pub(crate) fn len(&self) -> usize
        ensures value { result ≡ length (stretch_items self.now) }
        ensures some { 0 < result }
        ensures silent { (at : ℕ) (d : Item)
            → at < result
            → 1 < result
            → stands_alone (slice_index_or (stretch_items self.now) at d) ≡ false }
    {
        match self {
            Stretch::One(_item) => 1,
            Stretch::Lines(plain) => plain.len(),
        }
    }

    /// A copy. Only texts that are owned take memory.
    pub(crate) fn copied(&self, alloc: Global) -> Result<Stretch<'a>, AllocError>
        ensures { IfOk result (λ copy. copy ≡ self.now) }
    {
        Ok(match self {
            Stretch::One(item) => Stretch::One(item.copied(alloc)?),
            Stretch::Lines(plain) => Stretch::Lines(plain.copied()),
        })
    }

    /// Whether it isn't a section line with a lower count than what is needed.
    pub(crate) fn is_raised(&self, subrs: u64, glyphs: u64) -> bool
        ensures { result ≡ true
            → map (raised_item subrs glyphs) (stretch_items self.now) ≡ stretch_items self.now }
    {
        let item = match self {
            Stretch::One(item) => item,
            Stretch::Lines(_plain) => return true,
        };
        let needed = if item.as_ref().is_glyphs_line() {
            glyphs
        } else {
            subrs
        };
        match item {
            Item::Section(_, count, _) => needed <= *count,
            _ => true,
        }
    }

    /// The item, where it is one that says lenIV.
    pub(crate) fn saying(&self) -> Option<&Item<'a>>
        ensures { MatchOption result (find says_lead (stretch_items self.now) ≡ None)
            (λ item. (self.now ≡ stretches.One item.now) × (says_lead item.now ≡ true)) }
    {
        match self {
            Stretch::One(item) => {
                if item.as_ref().says_lead() {
                    Some(item)
                } else {
                    None
                }
            }
            Stretch::Lines(plain) => {
                let _len = plain.len();
                None
            }
        }
    }

    /// The item, where it is one that never stands among plain lines.
    pub(crate) fn alone(&self) -> Option<&Item<'a>>
        ensures { MatchOption result (filter stands_alone (stretch_items self.now) ≡ [])
            (λ item. filter stands_alone (stretch_items self.now) ≡ item.now ∷ []) }
    {
        match self {
            Stretch::One(item) => { if stands_alone(item) { Some(item) } else { None } }
            Stretch::Lines(plain) => {
                let _len = plain.len();
                None
            }
        }
    }

    /// The item, where it is the entry of a key.
    pub(crate) fn entry_of(&self, key: &EntryKey) -> Option<&Item<'a>>
        ensures { MatchOption result
            (list_any (is_entry_of key.now) (stretch_items self.now) ≡ false)
            (λ item.
            (self.now ≡ stretches.One item.now) × (is_entry_of key.now item.now ≡ true)) }
    {
        match self {
            Stretch::One(item) => { if key.is_of(item) { Some(item) } else { None } }
            Stretch::Lines(_plain) => None,
        }
    }

    /// The item, where it is of a kind.
    pub(crate) fn of_kind(&self, kind: ItemKind) -> Option<&Item<'a>>
        ensures { MatchOption result
            (list_any (is_of_kind kind) (stretch_items self.now) ≡ false)
            (λ item. (self.now ≡ stretches.One item.now) × (is_of_kind kind item.now ≡ true)) }
    {
        match self {
            Stretch::One(item) => { if kind.has(item) { Some(item) } else { None } }
            Stretch::Lines(_plain) => None,
        }
    }

    /// The item at a place.
    pub(crate) fn item(&self, at: usize) -> ItemRef<'_, 'a>
        requires { at < length (stretch_items self.now) }
        ensures { (d : Item) → slice_index_or (stretch_items self.now) at d ≡ item_of result }
    {
        match self {
            Stretch::One(item) => item.as_ref(),
            Stretch::Lines(plain) => ItemRef::Plain(plain.line(at)),
        }
    }

    /// The lines before a place, and those from it on, where there are some before it.
    pub(crate) fn cut(&self, at: usize) -> Option<(PlainLines<'a>, PlainLines<'a>)>
        requires { at < length (stretch_items self.now) }
        ensures { MatchOption result (at ≡ 0)
            (λ cut.
            (line_items cut.0 ≡ take at (stretch_items self.now))
            × (line_items cut.1 ≡ drop at (stretch_items self.now))
            × (0 < at)) }
    {
        match self {
            Stretch::Lines(plain) if 0 < at => Some(plain.cut(at)),
            _ => None,
        }
    }
}
