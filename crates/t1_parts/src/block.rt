//! Some of the items of a private part, which stand together in memory.

ghost use Rattle.std.specs.Prelude.{◌≡◌, ◌<◌, ◌≤◌, ◌^◌, ◌++◌, false, true, length, map};
ghost use Rattle.std.specs.Prelude.{take, drop, slice_set, IfOk, OnOk, OnErr, IfSome};
ghost use Rattle.std.specs.List.{insert, position, remove, slice_index_or};
ghost use Rattle.t1_text.specs.Lines.{lines};
ghost use Rattle.t1_parts.specs.declared.item.Item.{Item};
ghost use Rattle.t1_parts.specs.Counts.{raised_item};
ghost use Rattle.t1_parts.specs.EntryKeys.{is_entry_of, is_of_kind, IsEntryAt, IsThrough};
ghost use Rattle.t1_parts.specs.Items.{items_in, line_items};
ghost use Rattle.t1_parts.specs.ItemRefs.{item_of};
ghost use Rattle.t1_parts.specs.Starts.{IsEntryOnIts};
ghost use Rattle.t1_parts.specs.Stretches.{AreSingle, lines_say};

use crate::entry_key::{EntryKey, ItemKind};
use crate::item::Item;
use crate::item_ref::ItemRef;
use crate::starts::{EntryCounts, starts_of};
use crate::stretch::Stretch;
use crate::stretches::{Stretches, copied_stretches};
use std::alloc::{AllocError, Global};
use std::marker::Model;

/// How many stretches before an end are looked at for an entry that should stand there.
const FEW: usize = 32;

/// One or more items. Contracts see their list.
#[derive(Drop)]
pub(crate) struct Block<'a> {
    stretches: Stretches<'a>,
    len: usize,
}

impl<'a> Model for Block<'a> {
    ghost use Rattle.std.specs.Prelude.{◌≡◌, ◌<◌, List, length};
    ghost use Rattle.t1_parts.specs.declared.item.Item.{Item};
    ghost use Rattle.t1_parts.specs.Items.{items_in};

    ghost Value = { List Item };

    ghost view = { λ block. items_in block.stretches };

    ghost invariant = { λ block.
        (block.len ≡ length (items_in block.stretches))
        × (0 < length (items_in block.stretches)) };
}

/// The items of a block before a place, and those from it on: stretches, lines of a stretch that is
/// cut there, its further lines, and the stretches after it.
#[derive(Drop)]
pub(crate) struct CutBlock<'i, 'a> {
    pub(crate) before: &'i [Stretch<'a>],
    pub(crate) front: &'i [u8],
    pub(crate) back: &'i [u8],
    pub(crate) after: &'i [Stretch<'a>],
}

/// Where the entry of a key stands.
fn place_of_entry(stretches: &[Stretch], key: &EntryKey) -> Option<usize>
    requires { length (items_in stretches.now) < 2 ^ 64 }
    ensures value { result ≡ position (is_entry_of key.now) (items_in stretches.now) }
    ensures within { IfSome result (λ at. at < length (items_in stretches.now)) }
{
    let mut passed: usize = 0;
    for stretch in stretches {
        if let Some(_entry) = stretch.entry_of(key) {
            return Some(passed);
        }
        passed += stretch.len();
    }
    None
}

/// The index of the stretch that is the entry of a key, where it is one of the few before an end.
fn entry_before(stretches: &[Stretch], end: usize, key: &EntryKey) -> Option<usize>
    requires { end ≤ length stretches.now }
    ensures { IfSome result (IsEntryOnIts key.now stretches.now) }
{
    for back in 0..FEW {
        if end <= back {
            return None;
        }
        let index = end - back - 1;
        let stretch = &stretches[index];
        if let Some(_entry) = stretch.entry_of(key) {
            return Some(index);
        }
    }
    None
}

/// How many items stand through the last one of a kind, in stretches of so many items.
fn through_last(stretches: &[Stretch], len: usize, kind: ItemKind) -> usize
    requires { len ≡ length (items_in stretches.now) }
    ensures { IsThrough (is_of_kind kind) (items_in stretches.now) result }
{
    let mut through = len;
    let mut index = stretches.len();
    while 0 < index {
        index -= 1;
        let stretch = &stretches[index];
        if let Some(_last) = stretch.of_kind(kind) {
            return through;
        }
        through -= stretch.len();
    }
    0
}

/// Whether no section line of some stretches has a lower count than what is needed.
fn are_raised(stretches: &[Stretch], subrs: u64, glyphs: u64) -> bool
    ensures { result ≡ true
        → map (raised_item subrs glyphs) (items_in stretches.now) ≡ items_in stretches.now }
{
    for stretch in stretches {
        if !stretch.is_raised(subrs, glyphs) {
            return false;
        }
    }
    true
}

/// Whether each of some stretches is one item.
fn are_single(stretches: &[Stretch]) -> bool
    ensures { result ≡ true → AreSingle stretches.now }
{
    for stretch in stretches {
        if stretch.len() != 1 {
            return false;
        }
    }
    true
}

impl<'a> Clone for Block<'a> {
    ghost is_clone = { λ block copy. copy ≡ block };

    fn clone(&self) -> Result<Block<'a>, AllocError> {
        let len = self.len;
        let stretches = self.stretches.copied()?;
        Ok(Block { stretches, len })
    }
}

impl<'a> Block<'a> {
    /// The items of some stretches. None of them is copied.
    pub(crate) fn of(stretches: Vec<Stretch<'a>>) -> Result<Block<'a>, AllocError>
        requires { 0 < length stretches.items }
        ensures { IfOk result (λ block. block ≡ items_in stretches.entry.items) }
    {
        let alloc = *stretches.allocator();
        let _first = stretches[0].len();
        let are_single = are_single(stretches.as_slice());
        let (starts, len) = starts_of(alloc, stretches.as_slice(), are_single)?;
        let entries = EntryCounts::of(alloc, stretches.as_slice())?;
        Ok(Block {
            stretches: Stretches::started(stretches, starts, entries, are_single),
            len,
        })
    }

    /// The stretches.
    pub(crate) fn as_slice(&self) -> &[Stretch<'a>]
        ensures value { items_in result.now ≡ self.now }
        ensures some { 0 < length self.now }
    {
        self.stretches.as_slice()
    }

    /// How many items they are.
    pub(crate) fn len(&self) -> usize
        ensures value { result ≡ length self.now }
        ensures some { 0 < result }
    {
        let Block { len, .. } = self;
        *len
    }

    /// How many stretches they stand in. Time alone hangs on it.
    pub(crate) fn size(&self) -> usize {
        self.stretches.as_slice().len()
    }

    /// How many entries are among them. Time alone hangs on it.
    pub(crate) fn entry_count(&self) -> usize {
        self.stretches.entry_count()
    }

    /// The item at a place.
    pub(crate) fn item(&self, at: usize) -> ItemRef<'_, 'a>
        requires { at < length self.now }
        ensures { (d : Item) → slice_index_or self.now at d ≡ item_of result }
    {
        let (index, offset) = self.stretches.place_of(at);
        let stretches = self.stretches.as_slice();
        let stretch = &stretches[index];
        stretch.item(offset)
    }

    /// The items before a place, and those from it on.
    pub(crate) fn split_at(&self, at: usize) -> CutBlock<'_, 'a>
        requires { at ≤ length self.now }
        ensures before { items_in result.before.now ++ line_items (lines result.front.now)
            ≡ take at self.now }
        ensures after { line_items (lines result.back.now) ++ items_in result.after.now
            ≡ drop at self.now }
        ensures front { lines_say (lines result.front.now) ≡ false }
        ensures back { lines_say (lines result.back.now) ≡ false }
    {
        let (index, offset) = self.stretches.place_of(at);
        let stretches = self.stretches.as_slice();
        let (before, from) = stretches.split_at(index);
        if index == stretches.len() {
            return CutBlock {
                before,
                front: b"",
                back: b"",
                after: from,
            };
        }
        let Some((front, back)) = stretches[index].cut(offset) else {
            return CutBlock {
                before,
                front: b"",
                back: b"",
                after: from,
            };
        };
        CutBlock {
            before,
            front: front.as_bytes(),
            back: back.as_bytes(),
            after: stretches.split_at(index + 1).1,
        }
    }

    /// Where the entry of a key stands. Lines that stand together are passed over as a whole.
    pub(crate) fn entry_place(&self, key: &EntryKey) -> Option<usize>
        ensures value { result ≡ position (is_entry_of key.now) self.now }
        ensures within { IfSome result (λ at. at < length self.now) }
    {
        let _len = self.len();
        place_of_entry(self.stretches.as_slice(), key)
    }

    /// The place of the entry of a key, where it is one of the few items before the last so many
    /// entries. Else nothing is said.
    pub(crate) fn entry_before(&self, behind: usize, key: &EntryKey) -> Option<usize>
        ensures { IfSome result (IsEntryAt key.now self.now) }
    {
        let end = self.stretches.with_entries_behind(behind);
        let Some(index) = entry_before(self.stretches.as_slice(), end, key) else {
            return None;
        };
        Some(self.stretches.start(index))
    }

    /// How many items stand through the last one of a kind. They are gone over from the end.
    pub(crate) fn through_last(&self, kind: ItemKind) -> usize
        ensures { IsThrough (is_of_kind kind) self.now result }
    {
        through_last(self.stretches.as_slice(), self.len, kind)
    }

    /// Copies of the two halves, where there are two stretches or more.
    pub(crate) fn halves(&self, alloc: Global) -> Result<Option<(Block<'a>, Block<'a>)>, AllocError>
        ensures { IfOk result
            (λ halves. IfSome halves (λ halves. halves.0 ++ halves.1 ≡ self.now)) }
    {
        let stretches = self.as_slice();
        let half = stretches.len() / 2;
        if half == 0 {
            return Ok(None);
        }
        let (front, back) = stretches.split_at(half);
        let front = Block::of(copied_stretches(alloc, front)?)?;
        let back = Block::of(copied_stretches(alloc, back)?)?;
        Ok(Some((front, back)))
    }

    /// Puts an item in at a place. Where memory runs out, nothing has changed.
    pub(crate) fn insert(&mut self, at: usize, item: Item<'a>) -> Result<(), AllocError>
        requires { at ≤ length self.old }
        ensures ok { OnOk result (self.new ≡ insert self.old at item.entry) }
        ensures err { OnErr result (self.new ≡ self.old) }
    {
        let Some(len) = self.len.checked_add(1) else {
            drop(item);
            return Err(AllocError);
        };
        let index = match self.stretches.cut_before(at) {
            Ok(index) => index,
            Err(error) => {
                drop(item);
                return Err(error);
            }
        };
        self.stretches.insert(index, at, item)?;
        self.len = len;
        Ok(())
    }

    /// Takes the item at a place out, which isn't the only one. Only a plain line that says nothing
    /// of lenIV may take memory; where it runs out, nothing has changed.
    pub(crate) fn take_out(&mut self, at: usize) -> Result<(), AllocError>
        requires within { at < length self.old }
        requires others { 1 < length self.old }
        ensures ok { OnOk result (self.new ≡ remove self.old at) }
        ensures err { OnErr result (self.new ≡ self.old) }
    {
        let index = self.stretches.cut_before(at)?;
        self.stretches.drop_first(index);
        self.len -= 1;
        Ok(())
    }

    /// Puts an item in the place of another. Only in the place of a plain line that says nothing of
    /// lenIV it may take memory; where it runs out, nothing has changed.
    pub(crate) fn put(&mut self, at: usize, item: Item<'a>) -> Result<(), AllocError>
        requires { at < length self.old }
        ensures ok { OnOk result (self.new ≡ slice_set self.old at item.entry) }
        ensures err { OnErr result (self.new ≡ self.old) }
    {
        let _len = self.len();
        let index = match self.stretches.cut_before(at) {
            Ok(index) => index,
            Err(error) => {
                drop(item);
                return Err(error);
            }
        };
        self.stretches.put_first(index, at, item)?;
        Ok(())
    }

    /// Whether no section line has a lower count than what is needed.
    pub(crate) fn is_raised(&self, subrs: u64, glyphs: u64) -> bool
        ensures { result ≡ true → map (raised_item subrs glyphs) self.now ≡ self.now }
    {
        are_raised(self.stretches.as_slice(), subrs, glyphs)
    }

    /// Raises the counts of the section lines to what is needed, in their places.
    pub(crate) fn raise_counts(&mut self, subrs: u64, glyphs: u64)
        ensures { self.new ≡ map (raised_item subrs glyphs) self.old }
    {
        let end = self.stretches.as_slice().len();
        self.stretches.raise_counts(end, subrs, glyphs);
    }
}
