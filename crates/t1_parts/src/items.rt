//! The items of a private part in memory.

ghost use Rattle.std.specs.Prelude.{◌≡◌, ◌<◌, ◌≤◌, ◌^◌, ◌++◌, ◌∷◌, ◌||◌, [], false, true, length};
ghost use Rattle.std.specs.Prelude.{map, take, drop, slice_set, IfOk, OnOk, OnErr};
ghost use Rattle.std.specs.Prelude.{option_map, IfSome};
ghost use Rattle.std.specs.List.{insert, list_any, position, remove, slice_get};
ghost use Rattle.std.specs.List.{slice_index_or};
ghost use Rattle.t1_parts.specs.declared.item.Item.{Item};
ghost use Rattle.t1_parts.specs.Counts.{raised_item, subrs_needed, glyphs_needed, raised};
ghost use Rattle.t1_parts.specs.EntryKeys.{is_entry_of, is_of_kind, is_section};
ghost use Rattle.t1_parts.specs.EntryKeys.{IsEntryAt, IsThrough};
ghost use Rattle.t1_parts.specs.Items.{items_in};
ghost use Rattle.t1_parts.specs.ItemRefs.{item_of};
ghost use Rattle.t1_parts.specs.LenIV.{lead_among, says_lead};
ghost use Rattle.t1_parts.specs.Stretches.{stretches_in};

use crate::blocks::Blocks;
use crate::entry_key::{EntryKey, ItemKind};
use crate::item::Item;
use crate::item_ref::ItemRef;
use crate::items_iter::ItemsIter;
use crate::section_ends::{end_inserted, end_pushed, end_put, end_removed};
use crate::starts::{
    Needs, ask_the_same, lead_after, lead_of, needs_after, needs_among, needs_of, needs_without,
    together,
};
use crate::stretch::Stretch;
use std::alloc::{AllocError, Global};
use std::marker::Model;

/// The items of a private part. Plain lines that follow one another may stand together, as the
/// bytes that were read. Their lenIV is kept, what they ask of the counts of their sections, and a
/// place behind which no section line stands. Contracts see the list of the items, with an item for
/// each plain line.
#[derive(Drop)]
pub struct Items<'a> {
    blocks: Blocks<'a>,
    len: usize,
    lead: u8,
    needs: Needs,
    sections_end: usize,
}

impl<'a> Model for Items<'a> {
    ghost use Rattle.std.specs.Prelude.{◌≡◌, ◌≤◌, List, drop, false, length};
    ghost use Rattle.std.specs.List.{list_any};
    ghost use Rattle.t1_parts.specs.declared.item.Item.{Item};
    ghost use Rattle.t1_parts.specs.Counts.{subrs_needed, glyphs_needed};
    ghost use Rattle.t1_parts.specs.EntryKeys.{is_section};
    ghost use Rattle.t1_parts.specs.LenIV.{lead_among};

    ghost Value = { List Item };

    ghost view = { λ items. items.blocks };

    ghost invariant = { λ items.
        (items.len ≡ length items.blocks)
        × (items.lead ≡ lead_among items.blocks)
        × (items.needs.subrs ≡ subrs_needed items.blocks)
        × (items.needs.glyphs ≡ glyphs_needed items.blocks)
        × (items.sections_end ≤ length items.blocks)
        × (list_any is_section (drop items.sections_end items.blocks)
        ≡ false) };
}

/// Whether an item says lenIV, or the one in whose place it comes.
fn says_either(old: &ItemRef, new: &Item) -> bool
    ensures { result ≡ (says_lead (item_of old.now) || says_lead new.now) }
{
    old.says_lead() || new.as_ref().says_lead()
}

impl<'a> Items<'a> {
    /// No items.
    pub fn new(alloc: Global) -> Self
        ensures { result ≡ [] }
    {
        Items {
            blocks: Blocks::new(alloc),
            len: 0,
            lead: 4,
            needs: Needs {
                subrs: 0,
                glyphs: 0,
            },
            sections_end: 0,
        }
    }

    /// The items of some stretches, of which each list becomes a block. None of them is moved.
    pub(crate) fn of_lists(lists: Vec<Vec<Stretch<'a>>>) -> Result<Items<'a>, AllocError>
        ensures { IfOk result (λ items. items ≡ items_in (stretches_in lists.entry.items)) }
    {
        let blocks = Blocks::of_lists(lists)?;
        let len = blocks.len()?;
        let lead = lead_of(blocks.iter(len));
        let needs = needs_among(blocks.iter(len));
        let sections_end = blocks.through_last(len, ItemKind::Sections);
        Ok(Items {
            blocks,
            len,
            lead,
            needs,
            sections_end,
        })
    }

    /// How many items they are.
    pub fn len(&self) -> usize
        ensures { result ≡ length self.now }
    {
        let Items { len, .. } = self;
        *len
    }

    /// The number of bytes that stand in front of a charstring, which is kept: 4 where no item says
    /// lenIV.
    pub fn lead(&self) -> u8
        ensures { result ≡ lead_among self.now }
    {
        let Items { lead, .. } = self;
        *lead
    }

    /// What the Subrs ask of the section's count, which is kept: the highest number plus one, 0
    /// where there is none.
    pub fn subrs_needed(&self) -> u64
        ensures { result ≡ subrs_needed self.now }
    {
        self.needs.subrs
    }

    /// What the glyphs ask of the section's count, which is kept: their number.
    #[tactic(auto, using(crate::proofs::NeedLaws::glyphs_within))]
    pub fn glyphs_needed(&self) -> u64
        ensures value { result ≡ glyphs_needed self.now }
        ensures within { result ≤ length self.now }
    {
        self.needs.glyphs
    }

    /// The items, one after another.
    pub fn iter(&self) -> ItemsIter<'_, 'a>
        ensures items { result ≡ self.now }
        ensures within { length self.now < 2 ^ 64 }
    {
        self.blocks.iter(self.len)
    }

    /// The items before a place, and those from it on.
    pub fn split_at(&self, at: usize) -> (ItemsIter<'_, 'a>, ItemsIter<'_, 'a>)
        requires { at ≤ length self.now }
        ensures front { result.0 ≡ take at self.now }
        ensures back { result.1 ≡ drop at self.now }
    {
        self.blocks.split_at(at, self.len)
    }

    /// The first of the items, behind which no section line stands.
    pub fn through_sections(&self) -> ItemsIter<'_, 'a>
        ensures front { result ≡ take (length result) self.now }
        ensures none { list_any is_section (drop (length result) self.now) ≡ false }
    {
        self.split_at(self.sections_end).0
    }

    /// None of the items.
    pub fn none(&self) -> ItemsIter<'_, 'a>
        ensures { result ≡ [] }
    {
        self.blocks.none()
    }

    /// An item that stands elsewhere, alone.
    pub fn one<'i>(&'i self, item: &'i Item<'a>) -> ItemsIter<'i, 'a>
        ensures { result ≡ item.now ∷ [] }
    {
        self.blocks.one(item)
    }

    /// A copy, which shares the items until they are changed.
    pub fn copied(&self) -> Result<Items<'a>, AllocError>
        ensures { IfOk result (λ copy. copy ≡ self.now) }
    {
        let len = self.len;
        let lead = self.lead;
        let blocks = self.blocks.copied()?;
        Ok(Items {
            blocks,
            len,
            lead,
            needs: self.needs,
            sections_end: self.sections_end,
        })
    }

    /// A copy that borrows nothing. Each plain line stands by itself in it.
    pub fn owned(&self, alloc: Global) -> Result<Items<'static>, AllocError>
        ensures { IfOk result (λ owned. owned ≡ self.now) }
    {
        let mut owned = Items::new(alloc);
        for item in self.iter() {
            owned.push(item.owned(alloc)?)?;
        }
        Ok(owned)
    }

    /// The item at a place.
    pub fn item(&self, at: usize) -> ItemRef<'_, 'a>
        requires { at < length self.now }
        ensures { (d : Item) → slice_index_or self.now at d ≡ item_of result }
    {
        self.blocks.item(at)
    }

    /// The item at a place, where there is one.
    pub fn get(&self, at: usize) -> Option<ItemRef<'_, 'a>>
        ensures { option_map item_of result ≡ slice_get self.now at }
    {
        if at < self.len() {
            Some(self.item(at))
        } else {
            None
        }
    }

    /// Where the entry of a key stands. Lines that stand together are passed over as a whole.
    pub fn entry_place(&self, key: &EntryKey) -> Option<usize>
        ensures value { result ≡ position (is_entry_of key.now) self.now }
        ensures within { IfSome result (λ at. at < length self.now) }
    {
        let _len = self.len();
        self.blocks.entry_place(key)
    }

    /// The place of the entry of a key, where it is one of the few items before an end that is told
    /// as if all items were entries: by how many entries stand from it on. Else nothing is said.
    pub fn entry_before(&self, end: usize, key: &EntryKey) -> Option<usize>
        ensures { IfSome result (IsEntryAt key.now self.now) }
    {
        let behind = self.len.saturating_sub(end);
        self.blocks.entry_before(behind, key)
    }

    /// How many items stand through the last one of a kind. They are gone over from the end.
    pub fn through_last(&self, kind: ItemKind) -> usize
        ensures { IsThrough (is_of_kind kind) self.now result }
    {
        self.blocks.through_last(self.len, kind)
    }

    /// Adds an item at the end. Where memory runs out, nothing has changed.
    pub fn push(&mut self, item: Item<'a>) -> Result<(), AllocError>
        ensures ok { OnOk result (self.new ≡ self.old ++ item.entry ∷ []) }
        ensures err { OnErr result (self.new ≡ self.old) }
    {
        let Some(len) = self.len.checked_add(1) else {
            drop(item);
            return Err(AllocError);
        };
        let is_said = item.as_ref().says_lead();
        let more = needs_of(&item.as_ref());
        let sections_end = end_pushed(self.sections_end, len, &item);
        self.blocks.push(item)?;
        self.len = len;
        self.needs = together(self.needs, more);
        self.sections_end = sections_end;
        self.lead = lead_after(self.blocks.iter(len), self.lead, is_said);
        Ok(())
    }

    /// Puts an item in at a place. Where memory runs out, nothing has changed.
    pub fn insert(&mut self, at: usize, item: Item<'a>) -> Result<(), AllocError>
        requires { at ≤ length self.old }
        ensures ok { OnOk result (self.new ≡ insert self.old at item.entry) }
        ensures err { OnErr result (self.new ≡ self.old) }
    {
        let Some(len) = self.len.checked_add(1) else {
            drop(item);
            return Err(AllocError);
        };
        let is_said = item.as_ref().says_lead();
        let more = needs_of(&item.as_ref());
        let sections_end = end_inserted(self.sections_end, at, &item);
        self.blocks.insert(at, self.len, item)?;
        self.len = len;
        self.needs = together(self.needs, more);
        self.sections_end = sections_end;
        self.lead = lead_after(self.blocks.iter(len), self.lead, is_said);
        Ok(())
    }

    /// Takes the item at a place out. Where memory runs out, nothing has changed.
    pub fn take_out(&mut self, at: usize) -> Result<(), AllocError>
        requires { at < length self.old }
        ensures ok { OnOk result (self.new ≡ remove self.old at) }
        ensures err { OnErr result (self.new ≡ self.old) }
    {
        let item = self.item(at);
        let is_said = item.says_lead();
        let gone = needs_of(&item);
        self.blocks.take_out(at)?;
        let len = self.len - 1;
        self.len = len;
        self.needs = needs_without(self.blocks.iter(len), self.needs, gone);
        self.sections_end = end_removed(self.sections_end, at);
        self.lead = lead_after(self.blocks.iter(len), self.lead, is_said);
        Ok(())
    }

    /// Puts an item in the place of another. Where memory runs out, nothing has changed.
    pub fn put(&mut self, at: usize, item: Item<'a>) -> Result<(), AllocError>
        requires { at < length self.old }
        ensures ok { OnOk result (self.new ≡ slice_set self.old at item.entry) }
        ensures err { OnErr result (self.new ≡ self.old) }
    {
        let _len = self.len();
        let old = self.item(at);
        let is_said = says_either(&old, &item);
        let is_same = ask_the_same(&old, &item);
        let sections_end = end_put(self.sections_end, at, &item);
        self.blocks.put(at, item)?;
        self.needs = needs_after(self.blocks.iter(self.len), self.needs, is_same);
        self.sections_end = sections_end;
        self.lead = lead_after(self.blocks.iter(self.len), self.lead, is_said);
        Ok(())
    }

    /// Raises the counts of the section lines to what is needed, in their places. Where memory runs
    /// out, nothing has changed.
    pub(crate) fn raise_counts(&mut self, subrs: u64, glyphs: u64) -> Result<(), AllocError>
        ensures ok { OnOk result (self.new ≡ map (raised_item subrs glyphs) self.old) }
        ensures err { OnErr result (self.new ≡ self.old) }
    {
        self.blocks
            .raise_counts(self.sections_end, self.len, subrs, glyphs)?;
        Ok(())
    }
}

/// Raises the counts of the section lines to what is needed, in their places. Where memory runs
/// out, nothing has changed.
pub fn raise(items: &mut Items) -> Result<(), AllocError>
    ensures ok { OnOk result (items.new ≡ raised items.old) }
    ensures err { OnErr result (items.new ≡ items.old) }
{
    let subrs = items.subrs_needed();
    let glyphs = items.glyphs_needed();
    items.raise_counts(subrs, glyphs)
}
