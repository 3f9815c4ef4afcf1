//! The items of a source after a change, while they stand in the one that is edited.
ghost use Rattle.std.specs.Prelude.{◌≡◌, IfOk};
ghost use Rattle.std.specs.List.{insert, list_any, remove, slice_set};
ghost use Rattle.t1_parts.specs.Counts.{glyphs_needed, subrs_needed};
ghost use Rattle.t1_parts.specs.ItemRefs.{item_of};
ghost use Rattle.t1_parts.specs.LenIV.{lead_among, says_lead};
ghost use Rattle.t1_parts.specs.Operator.{operator_among, reads_strings};
ghost use Rattle.t1_source.specs.EditedItems.{edited_items, items_after};

use crate::editing::Change;
use std::alloc::AllocError;
use std::cmp;
use t1_parts::{
    Item, ItemRef, Items, ItemsIter, glyphs_needed, holds, lead_of, operator_of, subrs_needed,
};

/// Items in three parts: those before the place of an edit, those that it puts there, and those
/// after it.
#[derive(Drop)]
pub struct EditedItems<'e, 'a> {
    pub before: ItemsIter<'e, 'a>,
    pub put: ItemsIter<'e, 'a>,
    pub after: ItemsIter<'e, 'a>,
}

/// Whether one of the items says lenIV. It stands alone.
fn say_lead(items: &ItemsIter) -> bool
    ensures { result ≡ list_any says_lead items.now }
{
    let mut alone = items.again().alone();
    alone.any(|item| item.as_ref().says_lead())
}

/// Whether an item is a plain line that holds `string currentfile`.
fn reads_strings(item: &ItemRef) -> bool
    ensures { result ≡ reads_strings (item_of item.now) }
{
    match item.plain_line() {
        Some(line) => holds(b"string currentfile", line),
        None => false,
    }
}

/// Whether one of the items decides about the operator.
fn read_strings(items: &ItemsIter) -> bool
    ensures { result ≡ list_any reads_strings items.now }
{
    let mut left = items.again();
    left.any(|item| reads_strings(&item))
}

impl<'e, 'a> EditedItems<'e, 'a> {
    /// All items of a source.
    pub fn all(items: &'e Items<'a>) -> Self
        ensures { edited_items result ≡ items.now }
    {
        EditedItems {
            before: items.iter(),
            put: items.none(),
            after: items.none(),
        }
    }

    /// An item in the place of another.
    fn with_put(items: &'e Items<'a>, at: usize, item: &'e Item<'a>) -> Self
        ensures { edited_items result ≡ slice_set items.now at item.now }
    {
        if items.len() <= at {
            return EditedItems::all(items);
        }
        EditedItems {
            before: items.split_at(at).0,
            put: items.one(item),
            after: items.split_at(at + 1).1,
        }
    }

    /// An item put in at a place.
    fn with_inserted(items: &'e Items<'a>, at: usize, item: &'e Item<'a>) -> Self
        ensures { edited_items result ≡ insert items.now at item.now }
    {
        let (before, after) = items.split_at(cmp::min(at, items.len()));
        EditedItems {
            before,
            put: items.one(item),
            after,
        }
    }

    /// The item at a place taken out.
    fn with_removed(items: &'e Items<'a>, at: usize) -> Self
        ensures { edited_items result ≡ remove items.now at }
    {
        if items.len() <= at {
            return EditedItems::all(items);
        }
        EditedItems {
            before: items.split_at(at).0,
            put: items.none(),
            after: items.split_at(at + 1).1,
        }
    }

    /// The items after a change, before their counts are raised.
    pub fn after(items: &'e Items<'a>, change: &'e Change<'a>) -> Self
        ensures { edited_items result ≡ items_after change.now items.now }
    {
        match change {
            Change::PutItem(at, item) => EditedItems::with_put(items, *at, item),
            Change::InsertItem(at, item) => EditedItems::with_inserted(items, *at, item),
            Change::RemoveItem(at) => EditedItems::with_removed(items, *at),
            Change::PutClear(_) => EditedItems::all(items),
            Change::PutPair(_, _) => EditedItems::all(items),
            Change::InsertPair(_, _) => EditedItems::all(items),
            Change::RemovePair(_) => EditedItems::all(items),
        }
    }

    /// The number of bytes that stand in front of a charstring: the first part that says it
    /// decides.
    pub fn lead(&self) -> u8
        ensures { result ≡ lead_among (edited_items self.now) }
    {
        if say_lead(&self.before) {
            return lead_of(self.before.again());
        }
        if say_lead(&self.put) {
            return lead_of(self.put.again());
        }
        lead_of(self.after.again())
    }

    /// The operator that reads a charstring: the first part with its line decides.
    pub fn operator(&self) -> &[u8]
        ensures { result.now ≡ operator_among (edited_items self.now) }
    {
        if read_strings(&self.before) {
            return operator_of(self.before.again());
        }
        if read_strings(&self.put) {
            return operator_of(self.put.again());
        }
        operator_of(self.after.again())
    }

    /// What the items need for their Subrs.
    pub fn subrs(&self) -> u64
        ensures { result ≡ subrs_needed (edited_items self.now) }
    {
        let put = subrs_needed(self.put.again());
        let after = subrs_needed(self.after.again());
        subrs_needed(self.before.again()).max(put.max(after))
    }

    /// What the items need for their glyphs. An error only where these are more than 2^64 - 1,
    /// which no memory holds.
    pub fn glyphs(&self) -> Result<u64, AllocError>
        ensures { IfOk result (λ glyphs. glyphs ≡ glyphs_needed (edited_items self.now)) }
    {
        let put = glyphs_needed(self.put.again());
        let after = glyphs_needed(self.after.again());
        let Some(later) = put.checked_add(after) else {
            return Err(AllocError);
        };
        let Some(glyphs) = glyphs_needed(self.before.again()).checked_add(later) else {
            return Err(AllocError);
        };
        Ok(glyphs)
    }
}
