//! What is kept of some stretches: how many items, and how many entries, stand before each, their
//! lenIV, and what their entries ask of the counts of their sections.

ghost use Rattle.std.specs.Prelude.{◌≡◌, ◌<◌, ◌≤◌, ◌+◌, ◌-◌, ◌^◌, ◌∷◌, [], ℕ, true, length};
ghost use Rattle.std.specs.Prelude.{false, max, option_map, IfOk};
ghost use Rattle.std.specs.List.{find, slice_index_or};
ghost use Rattle.t1_parts.specs.Counts.{subrs_needed, glyphs_needed};
ghost use Rattle.t1_parts.specs.ItemRefs.{item_of};
ghost use Rattle.t1_parts.specs.Items.{items_in};
ghost use Rattle.t1_parts.specs.LenIV.{lead_among, says_lead};
ghost use Rattle.t1_parts.specs.Needs.{AreNeeded};
ghost use Rattle.t1_parts.specs.Starts.{starts_from, raised_from, lowered_from};
ghost use Rattle.t1_parts.specs.Starts.{AreStarts, IsLastStart};
ghost use Rattle.t1_parts.specs.Stretches.{AreSingle};

use crate::item::Item;
use crate::item_ref::ItemRef;
use crate::items_iter::ItemsIter;
use crate::len_iv::lead_on;
use crate::stretch::Stretch;
use std::alloc::{AllocError, Global};

/// Where each of some stretches starts, and how many items they have. The stretches are counted
/// through.
fn counted_starts(alloc: Global, stretches: &[Stretch]) -> Result<(Vec<usize>, usize), AllocError>
    ensures starts { IfOk result (λ counted. counted.0.items ≡ starts_from 0 stretches.now) }
    ensures len { IfOk result (λ counted. counted.1 ≡ length (items_in stretches.now)) }
{
    let mut starts = Vec::with_capacity(alloc, stretches.len())?;
    let mut count: usize = 0;
    for stretch in stretches {
        let Some(next) = count.checked_add(stretch.len()) else {
            return Err(AllocError);
        };
        starts.push(count)?;
        count = next;
    }
    Ok((starts, count))
}

/// The starts that are kept of some stretches, and how many items they have. Where each stretch is
/// known to be one item none is looked at, and no start is kept.
pub(crate) fn starts_of(
    alloc: Global,
    stretches: &[Stretch],
    are_single: bool,
) -> Result<(Vec<usize>, usize), AllocError>
    requires { are_single ≡ true → AreSingle stretches.now }
    ensures starts { IfOk result (λ kept. AreStarts are_single kept.0.items stretches.now) }
    ensures len { IfOk result (λ kept. kept.1 ≡ length (items_in stretches.now)) }
{
    if are_single {
        return Ok((Vec::new(alloc), stretches.len()));
    }
    counted_starts(alloc, stretches)
}

/// The same starts in memory of their own.
pub(crate) fn copied_starts(alloc: Global, starts: &[usize]) -> Result<Vec<usize>, AllocError>
    ensures { IfOk result (λ copy. copy.items ≡ starts.now) }
{
    let mut copy = Vec::new(alloc);
    copy.extend_from_slice(starts)?;
    Ok(copy)
}

/// The index of the last start that is at most a place. The starts are halved.
pub(crate) fn last_start(starts: &[usize], at: usize) -> usize
    requires some { 0 < length starts.now }
    requires first { slice_index_or starts.now 0 0 ≤ at }
    ensures { IsLastStart at starts.now result }
{
    let mut from = 0;
    let mut end = starts.len();
    while 1 < end - from {
        let middle = from + (end - from) / 2;
        if starts[middle] <= at {
            from = middle;
        } else {
            end = middle;
        }
    }
    from
}

/// Raises the starts from an index on by one.
pub(crate) fn raise_starts(starts: &mut [usize], from: usize)
    requires { (i : ℕ) → i < length starts.old → slice_index_or starts.old i 0 < 2 ^ 64 - 1 }
    ensures { starts.new ≡ raised_from from starts.old }
{
    for index in from..starts.len() {
        starts[index] += 1;
    }
}

/// Lowers the starts from an index on by one.
pub(crate) fn lower_starts(starts: &mut [usize], from: usize)
    requires { (i : ℕ) → from ≤ i → i < length starts.old → 0 < slice_index_or starts.old i 0 }
    ensures { starts.new ≡ lowered_from from starts.old }
{
    for index in from..starts.len() {
        starts[index] -= 1;
    }
}

/// How many Subrs and glyphs stand before each of some stretches, and how many there are in all.
/// They tell near which stretch an entry stands. Time alone hangs on them.
#[derive(Drop)]
pub(crate) struct EntryCounts {
    before: Vec<usize>,
    count: usize,
}

/// Whether a stretch is a Subr or a glyph.
pub(crate) fn is_entry_alone(stretch: &Stretch) -> bool {
    match stretch {
        Stretch::One(item) => item.as_ref().is_entry(),
        Stretch::Lines(_) => false,
    }
}

/// The index of the first of some counts, which grow, that is not less than another.
fn first_from(counts: &[usize], count: usize) -> usize
    ensures { result ≤ length counts.now }
{
    counts.partition_point(|other| *other < count)
}

/// Raises the counts from an index on by one.
fn raise(counts: &mut [usize], from: usize) {
    for index in from..counts.len() {
        counts[index] = counts[index].wrapping_add(1);
    }
}

/// Lowers the counts from an index on by one.
fn lower(counts: &mut [usize], from: usize) {
    for index in from..counts.len() {
        counts[index] = counts[index].wrapping_sub(1);
    }
}

impl EntryCounts {
    /// Those of no stretches.
    pub(crate) fn new(alloc: Global) -> Self {
        EntryCounts {
            before: Vec::new(alloc),
            count: 0,
        }
    }

    /// Those of some stretches.
    pub(crate) fn of(alloc: Global, stretches: &[Stretch]) -> Result<EntryCounts, AllocError> {
        let mut counts = EntryCounts::new(alloc);
        counts.before.reserve_exact(stretches.len())?;
        for stretch in stretches {
            counts.push(is_entry_alone(stretch))?;
        }
        Ok(counts)
    }

    /// The same in memory of their own.
    pub(crate) fn copied(&self, alloc: Global) -> Result<EntryCounts, AllocError> {
        Ok(EntryCounts {
            before: copied_starts(alloc, self.before.as_slice())?,
            count: self.count,
        })
    }

    /// How many entries there are in all.
    pub(crate) fn len(&self) -> usize {
        self.count
    }

    /// The index of a stretch from which on so many entries stand, which is at most an end.
    pub(crate) fn with_behind(&self, behind: usize, end: usize) -> usize
        ensures { result ≤ end }
    {
        let count = self.count.saturating_sub(behind);
        first_from(self.before.as_slice(), count).min(end)
    }

    /// Makes room for one more stretch.
    pub(crate) fn reserve(&mut self) -> Result<(), AllocError> {
        self.before.reserve(1)
    }

    /// Counts a stretch that is added at the end.
    pub(crate) fn push(&mut self, is_entry: bool) -> Result<(), AllocError> {
        self.before.push(self.count)?;
        self.count = self.count.wrapping_add(usize::from(is_entry));
        Ok(())
    }

    /// Counts a stretch that is put in at an index, where there is room for it.
    pub(crate) fn insert(&mut self, index: usize, is_entry: bool) {
        let count = match self.before.get(index) {
            Some(count) => *count,
            None => self.count,
        };
        if index <= self.before.len() {
            let _room_was_reserved = self.before.insert(index, count);
        }
        self.put(index, false, is_entry);
    }

    /// Counts a stretch no more that is taken out at an index.
    pub(crate) fn remove(&mut self, index: usize, was_entry: bool) {
        self.put(index, was_entry, false);
        if index < self.before.len() {
            let _count = self.before.remove(index);
        }
    }

    /// Counts a stretch that takes the place of the one at an index.
    pub(crate) fn put(&mut self, index: usize, was_entry: bool, is_entry: bool) {
        let after = index.saturating_add(1);
        if is_entry && !was_entry {
            self.count = self.count.wrapping_add(1);
            raise(&mut self.before, after);
        }
        if was_entry && !is_entry {
            self.count = self.count.wrapping_sub(1);
            lower(&mut self.before, after);
        }
    }
}

/// The first item that says lenIV. It stands alone.
fn first_saying<'i, 'a>(items: ItemsIter<'i, 'a>) -> Option<&'i Item<'a>>
    ensures { option_map (λ item. item.now) result ≡ find says_lead items.entry }
{
    let mut alone = items.alone();
    alone.find(|item| item.as_ref().says_lead())
}

/// The lenIV of some items.
#[tactic(auto, using(crate::proofs::LeadLaws::said_there, crate::proofs::LeadLaws::said_nowhere))]
pub fn lead_of(items: ItemsIter) -> u8
    ensures { result ≡ lead_among items.entry }
{
    match first_saying(items) {
        Some(item) => lead_on(item).unwrap_or(4),
        None => 4,
    }
}

/// The lenIV of some items after an edit: the one before it, where nothing that was put in or taken
/// out says lenIV.
pub(crate) fn lead_after(items: ItemsIter, lead: u8, is_said: bool) -> u8
    requires { is_said ≡ false → lead ≡ lead_among items }
    ensures { result ≡ lead_among items.entry }
{
    if is_said {
        return lead_of(items);
    }
    lead
}

/// What the Subrs of these items ask of the section's count: the highest number plus one, 0 where
/// there is none.
#[tactic(auto, using(crate::proofs::AloneLaws::subrs_alone))]
pub fn subrs_needed(items: ItemsIter) -> u64
    ensures { result ≡ subrs_needed items.entry }
{
    let mut needed = 0;
    for item in items.alone() {
        if let Item::Subr(number, _, _) = item {
            needed = (u64::from(*number) + 1).max(needed);
        }
    }
    needed
}

/// What the glyphs of these items ask of the section's count: their number.
#[tactic(auto, using(crate::proofs::AloneLaws::glyphs_alone, crate::proofs::AloneLaws::length_alone))]
pub fn glyphs_needed(items: ItemsIter) -> u64
    ensures value { result ≡ glyphs_needed items.entry }
    ensures within { result ≤ length items.entry }
{
    let _len = items.len();
    let mut needed = 0;
    for item in items.alone() {
        if let Item::Glyph(_, _, _) = item {
            needed += 1;
        }
    }
    needed
}

/// What items ask of the counts of their sections: the highest Subr number plus one, 0 where there
/// is none, and the number of glyphs.
#[derive(Clone, Copy)]
pub(crate) struct Needs {
    pub(crate) subrs: u64,
    pub(crate) glyphs: u64,
}

/// What one item asks.
pub(crate) fn needs_of(item: &ItemRef) -> Needs
    ensures needs { AreNeeded result (item_of item.now ∷ []) }
    ensures one { result.glyphs ≤ 1 }
{
    match item {
        ItemRef::Subr(number, _, _) => Needs {
            subrs: u64::from(*number) + 1,
            glyphs: 0,
        },
        ItemRef::Glyph(_, _, _) => Needs {
            subrs: 0,
            glyphs: 1,
        },
        _ => Needs {
            subrs: 0,
            glyphs: 0,
        },
    }
}

/// What some items ask.
pub(crate) fn needs_among(items: ItemsIter) -> Needs
    ensures { AreNeeded result items.entry }
{
    Needs {
        subrs: subrs_needed(items.again()),
        glyphs: glyphs_needed(items),
    }
}

/// What some items and others ask together.
pub(crate) fn together(some: Needs, others: Needs) -> Needs
    requires { some.glyphs + others.glyphs < 2 ^ 64 }
    ensures subrs { result.subrs ≡ max some.subrs others.subrs }
    ensures glyphs { result.glyphs ≡ some.glyphs + others.glyphs }
{
    Needs {
        subrs: some.subrs.max(others.subrs),
        glyphs: some.glyphs + others.glyphs,
    }
}

/// What some items ask after one was taken out. They are gone over only where that was the Subr of
/// the highest number.
pub(crate) fn needs_without(items: ItemsIter, needs: Needs, gone: Needs) -> Needs
    requires subrs { needs.subrs ≡ max gone.subrs (subrs_needed items) }
    requires glyphs { needs.glyphs ≡ gone.glyphs + glyphs_needed items }
    ensures { AreNeeded result items.entry }
{
    let glyphs = needs.glyphs - gone.glyphs;
    if gone.subrs == 0 || gone.subrs < needs.subrs {
        return Needs {
            subrs: needs.subrs,
            glyphs,
        };
    }
    Needs {
        subrs: subrs_needed(items),
        glyphs,
    }
}

/// What some items ask after one came in the place of another: what they asked before, where both
/// ask the same.
pub(crate) fn needs_after(items: ItemsIter, needs: Needs, is_same: bool) -> Needs
    requires { is_same ≡ true → AreNeeded needs items }
    ensures { AreNeeded result items.entry }
{
    if is_same {
        return needs;
    }
    needs_among(items)
}

/// Whether an item asks what another asks, in whose place it comes.
pub(crate) fn ask_the_same(old: &ItemRef, new: &Item) -> bool
    ensures { result ≡ true
        → (subrs_needed (item_of old.now ∷ []) ≡ subrs_needed (new.now ∷ []))
        × (glyphs_needed (item_of old.now ∷ []) ≡ glyphs_needed (new.now ∷ [])) }
{
    let before = needs_of(old);
    let after = needs_of(&new.as_ref());
    before.subrs == after.subrs && before.glyphs == after.glyphs
}
