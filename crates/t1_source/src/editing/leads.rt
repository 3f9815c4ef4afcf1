//! Editing lenIV.

ghost use Rattle.std.specs.Prelude.{◌≡◌, ◌+◌, ◌<◌, ◌≤◌, ◌^◌, List, length, IfOk, IfSome};
ghost use Rattle.std.specs.Prelude.{option_map};
ghost use Rattle.std.specs.List.{position, position_or_len};
ghost use Rattle.t1_text.specs.Tokens.{places_from};
ghost use Rattle.t1_parts.specs.ItemRefs.{item_of};
ghost use Rattle.t1_source.specs.Changes.{changed, Fits};
ghost use Rattle.t1_source.specs.Editing.{beside_pairs, lead_edited};
ghost use Rattle.t1_source.specs.EditOutcomes.{Edits};
ghost use Rattle.t1_source.specs.Leads.{first_place, is_section_line, lead_line, line_at, line_of};
ghost use Rattle.t1_source.specs.Leads.{line_with_lead, place_after, says_lead};
ghost use Rattle.t1_pairs.specs.declared.pairs.Pair.{Pair};

use crate::edit::Cause;
use crate::editing::Change;
use crate::editing::rules::number_up_to;
use crate::source::Source;
use std::alloc::{AllocError, Global};
use t1_frac::SourceText;
use t1_parts::{Item, ItemRef, Items, push_decimal};
use t1_text::{next_place, same};

/// Where the first plain line with a token `/lenIV` stands.
fn lead_at(items: &Items) -> Option<usize>
    ensures value { result ≡ position says_lead items.now }
    ensures within { IfSome result (λ at. at < length items.now) }
{
    let mut left = items.iter();
    left.position(|item| item.says_lead())
}

/// Whether an item is a section line.
fn is_section_line(item: &ItemRef) -> bool
    ensures { result ≡ is_section_line (item_of item.now) }
{
    item.is_subrs_line() || item.is_glyphs_line()
}

/// Where the first section line stands.
fn section_at(items: &Items) -> Option<usize>
    ensures value { result ≡ position is_section_line items.now }
    ensures within { IfSome result (λ at. at < length items.now) }
{
    let mut left = items.iter();
    left.position(|item| is_section_line(&item))
}

/// How many items stand before the first section line.
fn before_sections(items: &Items) -> usize
    ensures value { result ≡ position_or_len is_section_line items.now }
    ensures within { result ≤ length items.now }
{
    section_at(items).unwrap_or(items.len())
}

/// The bytes of a plain line.
fn line_of<'i>(item: &ItemRef<'i, '_>) -> &'i [u8]
    ensures { result.now ≡ line_of (item_of item.now) }
{
    match item {
        ItemRef::Plain(line) => line,
        _ => b"",
    }
}

/// The line at a place.
fn line_at<'i>(at: usize, items: &'i Items) -> &'i [u8]
    requires { at < length items.now }
    ensures { result.now ≡ line_at at items.now }
{
    line_of(&items.item(at))
}

/// The first token of a line that begins at a place, with its place.
fn first_place(place: usize, line: &[u8]) -> Option<(usize, &[u8])>
    requires { place + length line.now < 2 ^ 63 }
    ensures value { option_map (λ found. (found.0, found.1.now)) result
        ≡ first_place (places_from place line.now) }
    ensures within { IfSome result
        (λ found. found.0 + length found.1.now ≤ place + length line.now) }
{
    match next_place(place, line) {
        Some((at, token, _after)) => Some((at, token)),
        None => None,
    }
}

/// The token after the first token of some text on a line, with its place.
fn place_after<'a>(key: &[u8], line: &'a [u8]) -> Option<(usize, &'a [u8])>
    requires { length line.now < 2 ^ 63 }
    ensures value { option_map (λ found. (found.0, found.1.now)) result
        ≡ place_after key.now (places_from 0 line.now) }
    ensures within { IfSome result (λ found. found.0 + length found.1.now ≤ length line.now) }
{
    let mut place = 0;
    let mut rest = line;
    while let Some((at, token, after)) = next_place(place, rest) {
        place = at + token.len();
        rest = after;
        if same(token, key) {
            return first_place(place, rest);
        }
    }
    None
}

/// A line with a number in the place of the token after its first `/lenIV`.
#[tactic(auto, unfolding(crate::specs::Leads::line_with_lead))]
fn line_with_lead<'a>(alloc: Global, lead: u16, line: &[u8]) -> Result<SourceText<'a>, AllocError>
    ensures { IfOk result (λ made. made ≡ line_with_lead lead line.now) }
{
    let Some((at, token)) = place_after(b"/lenIV", line) else {
        return SourceText::copy_of(alloc, line);
    };
    let mut made = Vec::new(alloc);
    made.extend_from_slice(line.split_at(at).0)?;
    push_decimal(&mut made, u64::from(lead))?;
    made.extend_from_slice(line.split_at(at + token.len()).1)?;
    Ok(SourceText::owned(made))
}

/// The line of a new lenIV.
fn lead_line<'a>(alloc: Global, lead: u16) -> Result<SourceText<'a>, AllocError>
    ensures { IfOk result (λ line. line ≡ lead_line lead) }
{
    let mut line = Vec::new(alloc);
    line.extend_from_slice(b"/lenIV ")?;
    push_decimal(&mut line, u64::from(lead))?;
    line.extend_from_slice(b" def")?;
    Ok(SourceText::owned(line))
}

/// lenIV put into the line that says it, or into a new one.
#[tactic(auto, unfolding(crate::specs::Editing::lead_edited, crate::specs::Leads::items_with_lead))]
pub fn putting_lead<'a>(source: &Source<'a>, number: i64) -> Result<Change<'a>, Cause>
    ensures change { (k : List Pair)
        → Edits (λ change. changed change source.now k) result
        (beside_pairs k (lead_edited source.now number)) }
    ensures fits { (k : List Pair) → IfOk result (λ change. Fits change source.now k) }
{
    let lead = number_up_to(64, number)?;
    let alloc = source.alloc();
    let items = source.items();
    let Some(at) = lead_at(items) else {
        let line = lead_line(alloc, lead)?;
        return Ok(Change::InsertItem(before_sections(items), Item::Plain(line)));
    };
    let line = line_with_lead(alloc, lead, line_at(at, items))?;
    Ok(Change::PutItem(at, Item::Plain(line)))
}
