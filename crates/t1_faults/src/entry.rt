//! The entries of a source where they stand.

ghost use Rattle.std.specs.Prelude.{◌≡◌, ◌<◌, ◌+◌, ◌^◌, ◌++◌, ◌∷◌, List, length, map, IfOk};
ghost use Rattle.t1_text.specs.Lines.{lines};
ghost use Rattle.t1_parts.specs.ItemRefs.{item_of};
ghost use Rattle.t1_parts.specs.declared.item.Item.{Item as ItemOf};
ghost use Rattle.t1_faults.specs.Entries.{entries_from, place_in, placed_words};
ghost use Rattle.t1_faults.specs.CodeForms.{entry_in_text};

use crate::entry_text::EntryText;
use crate::placed::{PlacedWord, push_opened_words};
use std::alloc::{AllocError, Global};
use t1_frac::{Bytes, Place};
use t1_parts::{ItemRef, Items, opened_body};
use t1_text::first_line;

impl<'a> EntryText<'a> {
    /// The words of its body where they stand.
    pub fn words(&self, alloc: Global) -> Result<Vec<PlacedWord<'a>>, AllocError>
        ensures { IfOk result (λ words. words.items ≡ placed_words (entry_in_text self.now)) }
    {
        let mut words = Vec::new(alloc);
        push_opened_words(&mut words, self.number, self.line, self.later)?;
        Ok(words)
    }
}

/// Whose an item is, where it is an entry.
fn place_of(alloc: Global, item: &ItemRef) -> Result<Option<Place>, AllocError>
    ensures { IfOk result (λ place. place ≡ place_in (item_of item.now)) }
{
    match item {
        ItemRef::Subr(number, _, _) => Ok(Some(Place::Subr(*number))),
        ItemRef::Glyph(name, _, _) => Ok(Some(Place::Glyph(Bytes::copied(alloc, name)?))),
        ItemRef::Plain(_) => Ok(None),
        ItemRef::Section(_, _, _) => Ok(None),
    }
}

/// Adds an item that begins at the front of some bytes, where it is an entry. The number of the
/// line after it, and the bytes from there on.
fn push_entry<'a>(
    alloc: Global,
    entries: &mut Vec<EntryText<'a>>,
    number: u64,
    bytes: &'a [u8],
    item: &ItemRef,
) -> Result<(u64, &'a [u8]), AllocError>
    requires some { 0 < length bytes.now }
    requires fits { number + length (lines bytes.now) < 2 ^ 64 }
    ensures fits { IfOk result (λ left. left.0 + length (lines left.1.now) < 2 ^ 64) }
    ensures entries { IfOk result (λ left. (items : List ItemOf) →
        map entry_in_text entries.new.items ++ entries_from left.0 (lines left.1.now) items
        ≡ map entry_in_text entries.old.items
        ++ entries_from number (lines bytes.now) (item_of item.now ∷ items)) }
{
    let (line, later) = first_line(bytes);
    let Some(place) = place_of(alloc, item)? else {
        return Ok((number + 1, later));
    };
    entries.push(EntryText {
        place,
        number,
        line,
        later,
    })?;
    match opened_body(alloc, line, bytes)? {
        Some((body, after)) => Ok((number + 1 + body.more as u64, after)),
        None => Ok((number + 1, later)),
    }
}

/// The entries among some items, which begin on the lines of some bytes one after another, the
/// first on the line of this number.
#[tactic(auto, using(t1_text::proofs::CutLaws::lines_within))]
pub(crate) fn entries_of<'a>(
    alloc: Global,
    number: u64,
    bytes: &'a [u8],
    items: &Items,
) -> Result<Vec<EntryText<'a>>, AllocError>
    requires { number + length bytes.now < 2 ^ 64 }
    ensures { IfOk result (λ entries.
        map entry_in_text entries.items ≡ entries_from number (lines bytes.now) items.now) }
{
    let mut entries = Vec::new(alloc);
    let mut first = number;
    let mut rest = bytes;
    for item in items.iter() {
        if rest.is_empty() {
            return Ok(entries);
        }
        let (next, after) = push_entry(alloc, &mut entries, first, rest, &item)?;
        first = next;
        rest = after;
    }
    Ok(entries)
}
