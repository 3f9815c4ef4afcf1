//! The items of a private part, gathered from its lines, and what is judged of them as a whole.

ghost use Rattle.std.specs.Prelude.{◌≡◌, ◌<◌, ◌+◌, ◌^◌, ◌∷◌, [], ◌++◌, length, IfOk, OnOk};
ghost use Rattle.std.specs.Prelude.{option_map, filter_map};
ghost use Rattle.t1_frac.specs.Outcome.{Gives};
ghost use Rattle.t1_text.specs.Lines.{lines};
ghost use Rattle.t1_parts.specs.Sections.{is_subrs_line, is_glyphs_line};
ghost use Rattle.t1_parts.specs.Entries.{has_numbered, is_subr, is_glyph};
ghost use Rattle.t1_parts.specs.EntryNames.{glyph_name};
ghost use Rattle.std.specs.List.{find};
ghost use Rattle.t1_parts.specs.declared.stretch.Stretch.TheVariants as kinds;
ghost use Rattle.t1_parts.specs.Gathered.{KeepsNames, KeepsNumbers};
ghost use Rattle.t1_parts.specs.LenIV.{says_lead, said_with_line, lead_check};
ghost use Rattle.t1_parts.specs.NumberedStretches.{numbered_in, numbered_lines};
ghost use Rattle.t1_parts.specs.Private.{items_of, private_items};
ghost use Rattle.t1_parts.specs.Reading.{unnumbered, whole_check};

use crate::gathered_stretches::GatheredStretches;
use crate::item::Item;
use crate::items::Items;
use crate::len_iv::lead_on;
use crate::plain_lines::{PlainLines, next_line};
use crate::private::read_front;
use crate::stretch::Stretch;
use indexmap::IndexSet;
use std::alloc::{AllocError, Global};
use std::collections::BTreeSet;
use std::marker::Model;
use t1_frac::{Code, Fault, Refusal, SourceText};
use t1_text::fault_on;

/// As many plain lines that follow one another stand together at least. Where fewer do, they stand
/// one by one, so that a font of entries with a few lines between them has no lines that stand
/// together, and the item of a place is found at once.
const FEWEST_TOGETHER: usize = 64;

/// How many bytes an item is taken to have, where room is made for the numbers of those to come.
const BYTES_OF_AN_ITEM: usize = 256;

/// The items read so far, each with the number of its first line, and what later lines ask of them;
/// the glyphs' names are kept where they stand in the source. Contracts see the list of the items.
#[derive(Drop)]
pub struct Gathered<'a> {
    numbers: Vec<u64>,
    stretches: GatheredStretches<'a>,
    has_subrs_line: bool,
    has_glyphs_line: bool,
    subrs: BTreeSet<u16>,
    glyphs: IndexSet<&'a [u8]>,
}

impl<'a> Model for Gathered<'a> {
    ghost use Rattle.std.specs.Prelude.{◌≡◌, List, true, length};
    ghost use Rattle.t1_parts.specs.Sections.{is_subrs_line, is_glyphs_line};
    ghost use Rattle.t1_parts.specs.Entries.{NumberedItem, has_numbered};
    ghost use Rattle.t1_parts.specs.Gathered.{HasNumbers, AreGlyphsNames};
    ghost use Rattle.t1_parts.specs.NumberedStretches.{numbered_in};

    ghost Value = { List NumberedItem };

    ghost view = { λ g. numbered_in g.numbers.items g.stretches };

    ghost invariant = { λ g.
        (g.has_subrs_line
        ≡ has_numbered is_subrs_line (numbered_in g.numbers.items g.stretches))
        × (g.has_glyphs_line
        ≡ has_numbered is_glyphs_line (numbered_in g.numbers.items g.stretches))
        × HasNumbers g.subrs.keys (numbered_in g.numbers.items g.stretches)
        × AreGlyphsNames g.glyphs.keys (numbered_in g.numbers.items g.stretches)
        × (length g.numbers.items ≡ length g.stretches) };
}

/// Keeps the number of a further item, where it is a Subr.
fn keep_number(subrs: &mut BTreeSet<u16>, item: &Item) -> Result<(), AllocError>
    ensures { OnOk result (KeepsNumbers subrs.old.keys subrs.new.keys item.now) }
{
    if let Item::Subr(number, _, _) = item {
        subrs.insert(*number)?;
    }
    Ok(())
}

/// Keeps the name of a further item, where it is a glyph.
fn keep_name<'a>(glyphs: &mut IndexSet<&'a [u8]>, name: Option<&'a [u8]>) -> Result<(), AllocError>
    ensures { OnOk result
        (KeepsNames glyphs.old.keys glyphs.new.keys (option_map (λ n. n.now) name.entry)) }
{
    if let Some(name) = name {
        glyphs.insert(name)?;
    }
    Ok(())
}

/// Adds a stretch, with the number of its first line.
fn push_numbered<'a>(
    numbers: &mut Vec<u64>,
    stretches: &mut GatheredStretches<'a>,
    number: u64,
    stretch: Stretch<'a>,
) -> Result<(), AllocError>
    ensures number { OnOk result (numbers.new.items ≡ numbers.old.items ++ number ∷ []) }
    ensures stretch { OnOk result
        (stretches.new ≡ stretches.old ++ stretch.entry ∷ []) }
{
    stretches.push(stretch)?;
    numbers.push(number)?;
    Ok(())
}

/// Adds an item, with the number of its first line and its name where it is a glyph, and keeps what
/// later lines ask of it.
fn push_item<'a>(
    numbers: &mut Vec<u64>,
    stretches: &mut GatheredStretches<'a>,
    subrs: &mut BTreeSet<u16>,
    glyphs: &mut IndexSet<&'a [u8]>,
    number: u64,
    item: Item<'a>,
    name: Option<&'a [u8]>,
) -> Result<(), AllocError>
    ensures number { OnOk result (numbers.new.items ≡ numbers.old.items ++ number ∷ []) }
    ensures stretch { OnOk result
        (stretches.new ≡ stretches.old ++ kinds.One item.entry ∷ []) }
    ensures subrs { OnOk result (KeepsNumbers subrs.old.keys subrs.new.keys item.entry) }
    ensures glyphs { OnOk result
        (KeepsNames glyphs.old.keys glyphs.new.keys (option_map (λ n. n.now) name.entry)) }
{
    let kept = keep_number(subrs, &item);
    push_numbered(numbers, stretches, number, Stretch::One(item))?;
    kept?;
    keep_name(glyphs, name)?;
    Ok(())
}

impl<'a> Gathered<'a> {
    /// No items, with room for the numbers of those that so many bytes may have. An entry of a font
    /// takes some 256 bytes or more; where the items are more, the room grows.
    pub fn for_bytes(alloc: Global, len: usize) -> Result<Self, AllocError>
        ensures { IfOk result (λ g. g ≡ []) }
    {
        let room = len / BYTES_OF_AN_ITEM;
        Ok(Gathered {
            numbers: Vec::with_capacity(alloc, room)?,
            stretches: GatheredStretches::new(alloc),
            has_subrs_line: false,
            has_glyphs_line: false,
            subrs: BTreeSet::new(alloc),
            glyphs: IndexSet::new(alloc),
        })
    }

    /// Whether a Subrs line came before.
    pub fn has_subrs_line(&self) -> bool
        ensures { result ≡ has_numbered is_subrs_line self.now }
    {
        self.has_subrs_line
    }

    /// Whether a CharStrings line came before.
    pub fn has_glyphs_line(&self) -> bool
        ensures { result ≡ has_numbered is_glyphs_line self.now }
    {
        self.has_glyphs_line
    }

    /// Whether the Subr of this number came before.
    pub fn has_subr(&self, number: u16) -> bool
        ensures { result ≡ has_numbered (is_subr number) self.now }
    {
        self.subrs.contains(&number)
    }

    /// Whether the glyph of this name came before.
    pub fn has_glyph(&self, name: &[u8]) -> bool
        ensures { result ≡ has_numbered (is_glyph name.now) self.now }
    {
        self.glyphs.contains(name)
    }

    /// The first item that says lenIV, with its number. Lines that stand together say nothing of
    /// it.
    pub fn first_saying(&self) -> Option<(u64, &Item<'a>)>
        ensures { option_map (λ i. (i.0, i.1.now)) result ≡ find (λ i. says_lead i.1) self.now }
    {
        self.stretches.first_saying(self.numbers.as_slice())
    }

    /// The items without their numbers. None of them is copied. Want of memory is answered where
    /// they are 2^64 or more, which no memory holds.
    pub fn into_items(self) -> Result<Items<'a>, AllocError>
        ensures { IfOk result (λ items. items ≡ unnumbered self.entry) }
    {
        let Gathered {
            numbers: _numbers,
            stretches,
            has_subrs_line: _,
            has_glyphs_line: _,
            subrs: _subrs,
            glyphs: _glyphs,
        } = self;
        Items::of_lists(stretches.into_lists()?)
    }

    /// The items and some plain lines that stand together, of which the first has this number.
    fn with_together(self, number: u64, plain: PlainLines<'a>) -> Result<Self, AllocError>
        ensures { IfOk result (λ g. g ≡ self.entry ++ numbered_lines number plain.entry) }
    {
        let Gathered {
            mut numbers,
            mut stretches,
            has_subrs_line,
            has_glyphs_line,
            subrs,
            glyphs,
        } = self;
        push_numbered(&mut numbers, &mut stretches, number, Stretch::Lines(plain))?;
        Ok(Gathered {
            numbers,
            stretches,
            has_subrs_line,
            has_glyphs_line,
            subrs,
            glyphs,
        })
    }

    /// The items and the lines of some bytes as plain ones that stand one by one, of which the
    /// first has this number.
    fn with_each(self, number: u64, bytes: &'a [u8]) -> Result<Self, AllocError>
        requires { number + length (lines bytes.now) < 2 ^ 64 }
        ensures { IfOk result (λ g. g ≡ self.entry ++ numbered_lines number (lines bytes.now)) }
    {
        let mut items = self;
        let mut next = number;
        let mut rest = bytes;
        while !rest.is_empty() {
            let (line, after) = next_line(rest);
            let more = items.with(next, Item::Plain(SourceText::borrowed(line)), None)?;
            items = more;
            next += 1;
            rest = after;
        }
        Ok(items)
    }

    /// The items and some plain lines, of which the first has this number. Only many of them stand
    /// together.
    pub(crate) fn with_lines(self, number: u64, plain: PlainLines<'a>) -> Result<Self, AllocError>
        requires { number + length plain < 2 ^ 64 }
        ensures { IfOk result (λ g. g ≡ self.entry ++ numbered_lines number plain.entry) }
    {
        if plain.len() < FEWEST_TOGETHER {
            return self.with_each(number, plain.as_bytes());
        }
        self.with_together(number, plain)
    }

    /// The items and a further one, which begins on the line of this number. Where it is a glyph,
    /// its name comes with it.
    pub fn with(
        self,
        number: u64,
        item: Item<'a>,
        name: Option<&'a [u8]>,
    ) -> Result<Self, AllocError>
        requires { option_map (λ n. n.now) name ≡ glyph_name item }
        ensures { IfOk result (λ g. g ≡ self.entry ++ (number, item.entry) ∷ []) }
    {
        let Gathered {
            mut numbers,
            mut stretches,
            has_subrs_line,
            has_glyphs_line,
            mut subrs,
            mut glyphs,
        } = self;
        let has_subrs_line = has_subrs_line | item.as_ref().is_subrs_line();
        let has_glyphs_line = has_glyphs_line | item.as_ref().is_glyphs_line();
        push_item(
            &mut numbers,
            &mut stretches,
            &mut subrs,
            &mut glyphs,
            number,
            item,
            name,
        )?;
        Ok(Gathered {
            numbers,
            stretches,
            has_subrs_line,
            has_glyphs_line,
            subrs,
            glyphs,
        })
    }
}

/// The items of some bytes, of which the first line has this number, each with the number of its
/// first line; and the number that a further line has.
fn items_of(alloc: Global, number: u64, bytes: &[u8]) -> Result<(Gathered<'_>, u64), Refusal>
    requires { number + length bytes.now < 2 ^ 64 }
    ensures value { Gives (λ read. read.0) result (items_of number (lines bytes.now)) }
    ensures number { IfOk result (λ read. read.1 ≡ number + length (lines bytes.now)) }
{
    let mut items = Gathered::for_bytes(alloc, bytes.len())?;
    let mut first = number;
    let mut rest = bytes;
    while !rest.is_empty() {
        let (more, next, after) = read_front(alloc, items, first, rest)?;
        items = more;
        first = next;
        rest = after;
    }
    Ok((items, first))
}

/// The items of a private part, of which the last line opens nothing. The first of its lines has
/// this number.
#[tactic(auto, using(crate::proofs::ItemLaws::last_refused))]
pub(crate) fn private_items<'a>(
    alloc: Global,
    number: u64,
    bytes: &'a [u8],
    last: &'a [u8],
) -> Result<Gathered<'a>, Refusal>
    requires { number + length bytes.now < 2 ^ 64 }
    ensures { Gives (λ items. items) result
        (private_items number (lines bytes.now ++ last.now ∷ [])) }
{
    let (items, further) = items_of(alloc, number, bytes)?;
    let last = Item::Plain(SourceText::borrowed(last));
    Ok(items.with(further, last, None)?)
}

/// The lenIV of some items with their lines, or its fault.
#[tactic(auto, using(crate::proofs::LeadLaws::checked_well, crate::proofs::LeadLaws::checked_ill, crate::proofs::LeadLaws::checked_nowhere))]
fn check_lead(items: &Gathered) -> Result<u8, Fault>
    ensures { result ≡ lead_check (filter_map said_with_line items.now) }
{
    let Some((number, item)) = items.first_saying() else {
        return Ok(4);
    };
    let Some(lead) = lead_on(item) else {
        return Err(fault_on(number, Code::F11));
    };
    Ok(lead)
}

/// Judges the items of a private part as a whole.
#[tactic(auto, unfolding(crate::specs::Reading::whole_check))]
pub(crate) fn check_whole(items: &Gathered) -> Result<(), Fault>
    ensures { result ≡ whole_check items.now }
{
    if !items.has_glyphs_line() {
        return Err(Fault::from(Code::F3));
    }
    let _lead = check_lead(items)?;
    Ok(())
}
