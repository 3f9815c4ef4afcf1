//! How long a private text is: the sum of what stands in its lines. No line is made.
ghost use Rattle.std.specs.Prelude.{◌≡◌, ◌^◌, ◌-◌, [], ◌∷◌, ◌++◌, List, ℕ, decimal, length, min};
ghost use Rattle.t1_frac.specs.Ascii.{line_feed};
ghost use Rattle.t1_frac.specs.Outcome.{Gives, reported_at};
ghost use Rattle.t1_frac.specs.declared.fault.Place.TheVariants as places;
ghost use Rattle.t1_parts.specs.ItemRefs.{item_of};
ghost use Rattle.t1_code.specs.Pfb.{closing_text, entry_text};
ghost use Rattle.t1_font.specs.Lengths.{charstring_length, line_length, private_length};

use itoa::Buffer;
use std::alloc::Global;
use t1_code::assemble_onto;
use t1_frac::{Refusal, Words};
use t1_parts::{ItemRef, Items};

/// How long a closing text is with the space before it.
fn closing_len(closing: &[u8]) -> usize
    ensures { result ≡ min (length (closing_text closing.now)) (2 ^ 64 - 1) }
{
    if closing.is_empty() {
        0
    } else {
        closing.len().saturating_add(1)
    }
}

/// How long the line of an entry is, up to 2^64 - 1, whose head (`dup N` or `/NAME`) and whose
/// encrypted charstring have so many bytes.
pub fn entry_line_len(operator: &[u8], head: usize, charstring: usize, closing: &[u8]) -> usize
    ensures { (h code : List ℕ)
        → min (length h) (2 ^ 64 - 1) ≡ head
        → length code ≡ charstring
        → result ≡ min (length (entry_text h operator.now code closing.now)) (2 ^ 64 - 1) }
{
    let digits = Buffer::new().format(charstring).len();
    // Three spaces and the line's end.
    digits
        .saturating_add(4)
        .saturating_add(head)
        .saturating_add(operator.len())
        .saturating_add(charstring)
        .saturating_add(closing_len(closing))
}

/// How long a section line is, up to 2^64 - 1.
pub fn section_line_len(before: &[u8], count: u64, after: &[u8]) -> usize
    ensures { result
        ≡ min (length (before.now ++ decimal count ++ after.now ++ line_feed ∷ [])) (2 ^ 64 - 1) }
{
    let digits = Buffer::new().format(count).len();
    digits
        .saturating_add(1)
        .saturating_add(before.len())
        .saturating_add(after.len())
}

/// How long the encrypted charstring of a body is, with its leading bytes, or the fault of its
/// words. `code` is a buffer for the charstring; what it holds doesn't matter.
fn charstring_len(code: &mut Vec<u8>, lead: u8, words: &Words) -> Result<usize, Refusal>
    ensures { Gives (λ len. len) result
        (reported_at places.Nowhere (charstring_length lead words.now)) }
{
    code.clear();
    assemble_onto(code, words)?;
    Ok(usize::from(lead).saturating_add(code.len()))
}

/// The same for a Subr, with the fault at it.
fn subr_len(code: &mut Vec<u8>, lead: u8, number: u16, words: &Words) -> Result<usize, Refusal>
    ensures { Gives (λ len. len) result
        (reported_at (places.Subr number) (charstring_length lead words.now)) }
{
    match charstring_len(code, lead, words) {
        Err(refusal) => Err(refusal.at_subr(number)),
        len => len,
    }
}

/// The same for a glyph, with the fault at it.
#[tactic(auto, using(t1_frac::proofs::OutcomeLaws::refuses_at))]
fn glyph_len(
    alloc: Global,
    code: &mut Vec<u8>,
    lead: u8,
    name: &[u8],
    words: &Words,
) -> Result<usize, Refusal>
    ensures { Gives (λ len. len) result
        (reported_at (places.Glyph name.now) (charstring_length lead words.now)) }
{
    match charstring_len(code, lead, words) {
        Err(refusal) => Err(refusal.at_glyph(alloc, name)),
        len => len,
    }
}

/// How long the line of an item is, up to 2^64 - 1, or the fault of its body, at its entry.
fn line_len(
    alloc: Global,
    code: &mut Vec<u8>,
    lead: u8,
    operator: &[u8],
    item: &ItemRef,
) -> Result<usize, Refusal>
    ensures { Gives (λ len. len) result (line_length lead operator.now (item_of item.now)) }
{
    match item {
        ItemRef::Plain(line) => Ok(line.len().saturating_add(1)),
        ItemRef::Section(before, count, after) => Ok(section_line_len(before, *count, after)),
        ItemRef::Subr(number, words, closing) => {
            let head = 4 + Buffer::new().format(*number).len();
            let charstring = subr_len(code, lead, *number, words)?;
            Ok(entry_line_len(operator, head, charstring, closing))
        }
        ItemRef::Glyph(name, words, closing) => {
            let head = name.len().saturating_add(1);
            let charstring = glyph_len(alloc, code, lead, name, words)?;
            Ok(entry_line_len(operator, head, charstring, closing))
        }
    }
}

/// How long the private text of the items is, up to 2^64 - 1, or the first fault of a body, at its
/// entry.
pub(crate) fn private_len(
    alloc: Global,
    lead: u8,
    operator: &[u8],
    items: &Items,
) -> Result<usize, Refusal>
    ensures { Gives (λ len. len) result (private_length lead operator.now items.now) }
{
    let mut code = Vec::new(alloc);
    let mut total: usize = 0;
    for item in items.iter() {
        total = total.saturating_add(line_len(alloc, &mut code, lead, operator, &item)?);
    }
    Ok(total)
}
