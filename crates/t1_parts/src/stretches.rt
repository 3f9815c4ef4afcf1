//! Stretches of items, and the places of their items.

ghost use Rattle.std.specs.Prelude.{◌≡◌, ◌<◌, ◌≤◌, ◌+◌, ◌-◌, ◌^◌, ◌++◌, ◌∷◌, [], length};
ghost use Rattle.std.specs.Prelude.{map, take, drop, slice_set, IfOk, OnOk, OnErr, IsOk};
ghost use Rattle.std.specs.List.{insert, remove, slice_index_or};
ghost use Rattle.t1_parts.specs.declared.stretch.Stretch.{Stretch};
ghost use Rattle.t1_parts.specs.declared.stretch.Stretch.TheVariants.{One};
ghost use Rattle.t1_parts.specs.Counts.{raised_item};
ghost use Rattle.t1_parts.specs.Items.{items_in, stretch_items};
ghost use Rattle.t1_parts.specs.Starts.{AreStarts, starts_from};
ghost use Rattle.t1_parts.specs.Stretches.{raised_stretch, StandsAloneAt, IsPlaceOfItem};

use crate::item::Item;
use crate::starts::{
    EntryCounts, copied_starts, is_entry_alone, last_start, lower_starts, raise_starts,
};
use crate::stretch::Stretch;
use std::alloc::{AllocError, Global};
use std::marker::Model;
use std::mem;

/// Stretches of items, with how many items stand before each, by which the item of a place is
/// found. Where each stretch is known to be one item that is its index, and is not kept. Contracts
/// see the list of the stretches.
#[derive(Drop)]
pub(crate) struct Stretches<'a> {
    stretches: Vec<Stretch<'a>>,
    starts: Vec<usize>,
    entries: EntryCounts,
    are_single: bool,
}

impl<'a> Model for Stretches<'a> {
    ghost use Rattle.std.specs.Prelude.{List};
    ghost use Rattle.t1_parts.specs.declared.stretch.Stretch.{Stretch};
    ghost use Rattle.t1_parts.specs.Starts.{AreStarts};

    ghost Value = { List Stretch };

    ghost view = { λ kept. kept.stretches.items };

    ghost invariant = { λ kept.
        AreStarts kept.are_single kept.starts.items kept.stretches.items };
}

/// Copies of some stretches.
pub(crate) fn copied_stretches<'a>(
    alloc: Global,
    stretches: &[Stretch<'a>],
) -> Result<Vec<Stretch<'a>>, AllocError>
    ensures { IfOk result (λ copies. copies.items ≡ stretches.now) }
{
    let mut copies = Vec::new(alloc);
    for stretch in stretches {
        copies.push(stretch.copied(alloc)?)?;
    }
    Ok(copies)
}

/// Where the item of a place stands: in which stretch, and how many items of it stand before. The
/// starts are halved.
fn started_place(stretches: &[Stretch], starts: &[usize], at: usize) -> (usize, usize)
    requires within { at ≤ length (items_in stretches.now) }
    requires starts { starts.now ≡ starts_from 0 stretches.now }
    ensures { IsPlaceOfItem at stretches.now result }
{
    if starts.is_empty() {
        return (0, 0);
    }
    let index = last_start(starts, at);
    let offset = at - starts[index];
    let stretch = &stretches[index];
    if offset < stretch.len() {
        return (index, offset);
    }
    (index + 1, 0)
}

/// Puts a stretch in the place of another.
fn put_stretch<'a>(stretches: &mut Vec<Stretch<'a>>, index: usize, stretch: Stretch<'a>)
    requires { index < length stretches.old.items }
    ensures { stretches.new.items ≡ slice_set stretches.old.items index stretch.entry }
{
    drop(mem::replace(&mut stretches[index], stretch));
}

/// Puts a stretch in. Where memory runs out, nothing has changed.
fn insert_stretch<'a>(
    stretches: &mut Vec<Stretch<'a>>,
    index: usize,
    stretch: Stretch<'a>,
) -> Result<(), AllocError>
    requires { index ≤ length stretches.old.items }
    ensures ok { OnOk result
        (stretches.new.items ≡ insert stretches.old.items index stretch.entry) }
    ensures err { OnErr result (stretches.new.items ≡ stretches.old.items) }
{
    stretches.insert(index, stretch)?;
    Ok(())
}

/// Takes a stretch out.
fn remove_stretch(stretches: &mut Vec<Stretch>, index: usize)
    requires { index < length stretches.old.items }
    ensures { stretches.new.items ≡ remove stretches.old.items index }
{
    drop(stretches.remove(index));
}

/// Raises the count of a section line to what is needed.
fn raise_item(item: &mut Item, subrs: u64, glyphs: u64)
    ensures { item.new ≡ raised_item subrs glyphs item.old }
{
    let needed = if item.as_ref().is_glyphs_line() {
        glyphs
    } else {
        subrs
    };
    if let Item::Section(_, count, _) = item {
        *count = (*count).max(needed);
    }
}

/// Raises the count of the section line that a stretch may be to what is needed.
fn raise_count(stretch: &mut Stretch, subrs: u64, glyphs: u64)
    ensures { stretch.new ≡ raised_stretch subrs glyphs stretch.old }
{
    if let Stretch::One(item) = stretch {
        raise_item(item, subrs, glyphs);
    }
}

/// Raises the counts of the section lines among the first of some stretches.
fn raise_stretches(stretches: &mut Vec<Stretch>, end: usize, subrs: u64, glyphs: u64)
    requires { end ≤ length stretches.old.items }
    ensures { stretches.new.items
        ≡ map (raised_stretch subrs glyphs) (take end stretches.old.items)
        ++ drop end stretches.old.items }
{
    for index in 0..end {
        let stretch = &mut stretches[index];
        raise_count(stretch, subrs, glyphs);
    }
}

impl<'a> Stretches<'a> {
    /// No stretches.
    pub(crate) fn new(alloc: Global) -> Self
        ensures { result ≡ [] }
    {
        Stretches {
            stretches: Vec::new(alloc),
            starts: Vec::new(alloc),
            entries: EntryCounts::new(alloc),
            are_single: true,
        }
    }

    /// Some stretches, with what is kept of them.
    pub(crate) fn started(
        stretches: Vec<Stretch<'a>>,
        starts: Vec<usize>,
        entries: EntryCounts,
        are_single: bool,
    ) -> Self
        requires { AreStarts are_single starts.items stretches.items }
        ensures { result ≡ stretches.entry.items }
    {
        Stretches {
            stretches,
            starts,
            entries,
            are_single,
        }
    }

    /// A copy. Only texts that are owned, the starts and the counts take memory.
    pub(crate) fn copied(&self) -> Result<Stretches<'a>, AllocError>
        ensures { IfOk result (λ copy. copy ≡ self.now) }
    {
        let alloc = *self.stretches.allocator();
        let are_single = self.are_single;
        let starts = copied_starts(alloc, self.starts.as_slice())?;
        let entries = self.entries.copied(alloc)?;
        let stretches = copied_stretches(alloc, self.stretches.as_slice())?;
        Ok(Stretches {
            stretches,
            starts,
            entries,
            are_single,
        })
    }

    /// The stretches.
    pub(crate) fn as_slice(&self) -> &[Stretch<'a>]
        ensures { result.now ≡ self.now }
    {
        self.stretches.as_slice()
    }

    /// Where the item of a place stands: in which stretch, and how many items of it stand before.
    /// Where each stretch is known to be one item it is found at once.
    pub(crate) fn place_of(&self, at: usize) -> (usize, usize)
        requires { at ≤ length (items_in self.now) }
        ensures { IsPlaceOfItem at self.now result }
    {
        if self.are_single {
            return (at, 0);
        }
        started_place(self.stretches.as_slice(), self.starts.as_slice(), at)
    }

    /// How many items stand before a stretch.
    pub(crate) fn start(&self, index: usize) -> usize
        requires { index < length self.now }
        ensures { result ≡ length (items_in (take index self.now)) }
    {
        if self.are_single {
            return index;
        }
        self.starts[index]
    }

    /// How many entries there are. Time alone hangs on it.
    pub(crate) fn entry_count(&self) -> usize {
        self.entries.len()
    }

    /// The index of a stretch from which on so many entries stand. Time alone hangs on it.
    pub(crate) fn with_entries_behind(&self, behind: usize) -> usize
        ensures { result ≤ length self.now }
    {
        self.entries.with_behind(behind, self.stretches.len())
    }

    /// How many stretches have the first items up to a place.
    pub(crate) fn through(&self, at: usize) -> usize
        requires { at ≤ length (items_in self.now) }
        ensures within { result ≤ length self.now }
        ensures covered { at ≤ length (items_in (take result self.now)) }
    {
        let _ = &self.stretches;
        let (index, offset) = self.place_of(at);
        if offset == 0 {
            return index;
        }
        index + 1
    }

    /// Adds an item at the end, behind so many. Where memory runs out, nothing has changed.
    pub(crate) fn push(&mut self, item: Item<'a>, len: usize) -> Result<(), AllocError>
        requires { len ≡ length (items_in self.old) }
        ensures ok { OnOk result (self.new ≡ self.old ++ One item.entry ∷ []) }
        ensures err { OnErr result (self.new ≡ self.old) }
    {
        let is_entry = item.as_ref().is_entry();
        if let Err(error) = self.entries.reserve() {
            drop(item);
            return Err(error);
        }
        if self.are_single {
            self.stretches.push(Stretch::One(item))?;
            let _counted = self.entries.push(is_entry);
            return Ok(());
        }
        if let Err(error) = self.starts.reserve(1) {
            drop(item);
            return Err(error);
        }
        self.stretches.push(Stretch::One(item))?;
        let _room_was_reserved = self.starts.push(len);
        let _counted = self.entries.push(is_entry);
        Ok(())
    }

    /// Puts an item in, at an index before which so many items stand. Where memory runs out,
    /// nothing has changed.
    pub(crate) fn insert(
        &mut self,
        index: usize,
        at: usize,
        item: Item<'a>,
    ) -> Result<(), AllocError>
        requires within { index ≤ length self.old }
        requires at { at ≡ length (items_in (take index self.old)) }
        requires small { length (items_in self.old) < 2 ^ 64 - 1 }
        ensures ok { OnOk result (self.new ≡ insert self.old index (One item.entry)) }
        ensures err { OnErr result (self.new ≡ self.old) }
    {
        let is_entry = item.as_ref().is_entry();
        if let Err(error) = self.entries.reserve() {
            drop(item);
            return Err(error);
        }
        if self.are_single {
            insert_stretch(&mut self.stretches, index, Stretch::One(item))?;
            self.entries.insert(index, is_entry);
            return Ok(());
        }
        if let Err(error) = self.starts.reserve(1) {
            drop(item);
            return Err(error);
        }
        insert_stretch(&mut self.stretches, index, Stretch::One(item))?;
        let _room_was_reserved = self.starts.insert(index, at);
        raise_starts(&mut self.starts, index + 1);
        self.entries.insert(index, is_entry);
        Ok(())
    }

    /// Puts two stretches in the place of one of as many items, the second of which starts at a
    /// place. Where memory runs out, nothing has changed.
    fn split(
        &mut self,
        index: usize,
        cut: usize,
        front: Stretch<'a>,
        back: Stretch<'a>,
    ) -> Result<(), AllocError>
        requires within { index < length self.old }
        requires some { (0 < length (stretch_items front)) × (0 < length (stretch_items back)) }
        requires whole { (d : Stretch)
            → length (stretch_items (slice_index_or self.old index d))
            ≡ length (stretch_items front) + length (stretch_items back) }
        requires cut { cut
            ≡ length (items_in (take index self.old)) + length (stretch_items front) }
        ensures ok { OnOk result
            (self.new ≡ slice_set (insert self.old index front.entry) (index + 1) back.entry) }
        ensures err { OnErr result (self.new ≡ self.old) }
    {
        if let Err(error) = self.starts.reserve(1) {
            drop(front);
            drop(back);
            return Err(error);
        }
        if let Err(error) = self.entries.reserve() {
            drop(front);
            drop(back);
            return Err(error);
        }
        let is_entry = is_entry_alone(&front);
        if let Err(error) = insert_stretch(&mut self.stretches, index, front) {
            drop(back);
            return Err(error);
        }
        put_stretch(&mut self.stretches, index + 1, back);
        let _room_was_reserved = self.starts.insert(index + 1, cut);
        self.entries.insert(index, is_entry);
        Ok(())
    }

    /// Cuts the stretch in which the item of a place stands, so that it is the first of its
    /// stretch, whose index is given.
    pub(crate) fn cut_before(&mut self, at: usize) -> Result<usize, AllocError>
        requires { at ≤ length (items_in self.old) }
        ensures same { items_in self.new ≡ items_in self.old }
        ensures within { IfOk result (λ index. index ≤ length self.new) }
        ensures before { IfOk result (λ index. length (items_in (take index self.new)) ≡ at) }
        ensures still { at < length (items_in self.old)
            → StandsAloneAt (items_in self.old) at
            → IsOk result }
    {
        let (index, offset) = self.place_of(at);
        if index == self.stretches.len() {
            return Ok(index);
        }
        let stretch = &self.stretches[index];
        let _len = stretch.len();
        let Some((front, back)) = stretch.cut(offset) else {
            return Ok(index);
        };
        self.split(index, at, Stretch::Lines(front), Stretch::Lines(back))?;
        Ok(index + 1)
    }

    /// Takes the first item of a stretch out.
    pub(crate) fn drop_first(&mut self, index: usize)
        requires { index < length self.old }
        ensures { items_in self.new
            ≡ items_in (take index self.old) ++ drop 1 (items_in (drop index self.old)) }
    {
        let was_entry = is_entry_alone(&self.stretches[index]);
        if self.are_single {
            remove_stretch(&mut self.stretches, index);
            self.entries.remove(index, was_entry);
            return;
        }
        let stretch = &self.stretches[index];
        if stretch.len() == 1 {
            remove_stretch(&mut self.stretches, index);
            let _start = self.starts.remove(index);
            lower_starts(&mut self.starts, index);
            self.entries.remove(index, was_entry);
            return;
        }
        let Some((_first, rest)) = stretch.cut(1) else {
            return;
        };
        put_stretch(&mut self.stretches, index, Stretch::Lines(rest));
        lower_starts(&mut self.starts, index + 1);
    }

    /// Puts an item in the place of the first one of a stretch, before which so many items stand.
    /// Where that is a plain line among others it takes memory; where it runs out, nothing has
    /// changed.
    pub(crate) fn put_first(
        &mut self,
        index: usize,
        at: usize,
        item: Item<'a>,
    ) -> Result<(), AllocError>
        requires within { index < length self.old }
        requires at { at ≡ length (items_in (take index self.old)) }
        requires small { length (items_in self.old) < 2 ^ 64 }
        ensures ok { OnOk result
            (items_in self.new
            ≡ items_in (take index self.old)
            ++ (item.entry ∷ drop 1 (items_in (drop index self.old)))) }
        ensures err { OnErr result (items_in self.new ≡ items_in self.old) }
        ensures still { StandsAloneAt (items_in (drop index self.old)) 0 → IsOk result }
    {
        let stretch = &self.stretches[index];
        let was_entry = is_entry_alone(stretch);
        if stretch.len() == 1 {
            let is_entry = item.as_ref().is_entry();
            put_stretch(&mut self.stretches, index, Stretch::One(item));
            self.entries.put(index, was_entry, is_entry);
            return Ok(());
        }
        let Some((_first, rest)) = stretch.cut(1) else {
            drop(item);
            return Ok(());
        };
        self.split(index, at + 1, Stretch::One(item), Stretch::Lines(rest))?;
        Ok(())
    }

    /// Raises the counts of the section lines among the first stretches.
    pub(crate) fn raise_counts(&mut self, end: usize, subrs: u64, glyphs: u64)
        requires { end ≤ length self.old }
        ensures { self.new
            ≡ map (raised_stretch subrs glyphs) (take end self.old) ++ drop end self.old }
    {
        raise_stretches(&mut self.stretches, end, subrs, glyphs);
    }
}
