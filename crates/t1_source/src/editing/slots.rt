//! Editing the array of an encoding.

ghost use Rattle.std.specs.Prelude.{◌≡◌, ◌++◌, ◌<◌, ◌≤◌, List, length, Ok, Err, not, filter};
ghost use Rattle.std.specs.Prelude.{reverse, IfOk, IfSome, MatchResult};
ghost use Rattle.std.specs.List.{list_any, position};
ghost use Rattle.t1_source.specs.Changes.{changed, Fits};
ghost use Rattle.t1_source.specs.Editing.{array_parts, beside_pairs, is_slot, is_slot_of};
ghost use Rattle.t1_source.specs.EditOutcomes.{Edits};
ghost use Rattle.t1_source.specs.Editing.{through_last, slot_line, encoded_lines, encoded};
ghost use Rattle.t1_source.specs.Editing.{unencoded};
ghost use Rattle.t1_pairs.specs.declared.pairs.Pair.{Pair};

use crate::edit::{Cause, Rule};
use crate::editing::rules::{good_name, keeps, number_up_to};
use crate::editing::{Change, through};
use crate::source::Source;
use std::alloc::{AllocError, Global};
use t1_frac::Bytes;
use t1_parts::{array_len, encoding_at, has_standard, push_decimal, slot_of};
use t1_text::copied_bytes;

/// The clear lines before those of an array, those of the array, and those after them.
#[derive(Drop)]
struct ArrayParts<'a> {
    front: &'a [Bytes],
    lines: &'a [Bytes],
    back: &'a [Bytes],
}

/// The array among the clear lines.
#[tactic(auto, unfolding(crate::specs::Editing::array_parts))]
fn array_parts(clear: &[Bytes]) -> Result<ArrayParts<'_>, Rule>
    ensures { MatchResult result
        (λ parts.
        array_parts clear.now
        ≡ Ok
        (record
        { front = parts.front.now; lines = parts.lines.now; back = parts.back.now }))
        (λ rule. array_parts clear.now ≡ Err rule) }
{
    keeps(Rule::E5, !has_standard(clear))?;
    let Some(at) = encoding_at(clear) else {
        return Err(Rule::E5);
    };
    let (front, later) = clear.split_at(at + 1);
    let (lines, back) = later.split_at(array_len(clear[at].as_slice(), later));
    Ok(ArrayParts { front, lines, back })
}

/// Whether a line is a slot.
#[tactic(auto, unfolding(crate::specs::Editing::is_slot))]
fn is_slot(line: &[u8]) -> bool
    ensures { result ≡ is_slot line.now }
{
    match slot_of(line) {
        Some(_slot) => true,
        None => false,
    }
}

/// Whether a line is a slot of the code.
#[tactic(auto, unfolding(crate::specs::Editing::is_slot_of))]
fn is_slot_of(code: u16, line: &[u8]) -> bool
    ensures { result ≡ is_slot_of code line.now }
{
    match slot_of(line) {
        Some((other, _name)) => u16::from(other) == code,
        None => false,
    }
}

/// Whether one of the lines is a slot of the code.
fn has_slot_of(code: u16, lines: &[Bytes]) -> bool
    ensures { result ≡ list_any (is_slot_of code) lines.now }
{
    lines.iter().any(|line| is_slot_of(code, line.as_slice()))
}

/// How many lines stand after the last slot.
fn after_slots(lines: &[Bytes]) -> Option<usize>
    ensures value { result ≡ position is_slot (reverse lines.now) }
    ensures within { IfSome result (λ after. after < length lines.now) }
{
    lines.iter().rev().position(|line| is_slot(line.as_slice()))
}

/// How many lines stand through the last slot.
fn through_slots(lines: &[Bytes]) -> usize
    ensures within { result ≤ length lines.now }
    ensures value { result ≡ through_last is_slot lines.now }
{
    through(lines.len(), after_slots(lines))
}

/// How many lines stand after the last slot of the code.
fn after_slots_of(code: u16, lines: &[Bytes]) -> Option<usize>
    ensures value { result ≡ position (is_slot_of code) (reverse lines.now) }
    ensures within { IfSome result (λ after. after < length lines.now) }
{
    lines
        .iter()
        .rev()
        .position(|line| is_slot_of(code, line.as_slice()))
}

/// How many lines stand through the last slot of the code.
fn through_slots_of(code: u16, lines: &[Bytes]) -> usize
    ensures within { result ≤ length lines.now }
    ensures value { result ≡ through_last (is_slot_of code) lines.now }
{
    through(lines.len(), after_slots_of(code, lines))
}

/// The line of a new slot.
fn slot_line(alloc: Global, code: u16, name: &[u8]) -> Result<Bytes, AllocError>
    ensures { IfOk result (λ line. line ≡ slot_line code name.now) }
{
    let mut line = Vec::new(alloc);
    line.extend_from_slice(b"dup ")?;
    push_decimal(&mut line, u64::from(code))?;
    line.extend_from_slice(b" /")?;
    line.extend_from_slice(name)?;
    line.extend_from_slice(b" put")?;
    Ok(Bytes::new(line))
}

/// The lines of an array with a code encoded.
fn encoded_lines(
    alloc: Global,
    code: u16,
    name: &[u8],
    lines: &[Bytes],
) -> Result<Vec<Bytes>, AllocError>
    ensures { IfOk result (λ made. made.items ≡ encoded_lines code name.now lines.now) }
{
    let line = slot_line(alloc, code, name)?;
    let mut made = copied_bytes(alloc, lines)?;
    let of_code = through_slots_of(code, lines);
    let of_any = through_slots(lines);
    if 1 <= of_code {
        made[of_code - 1] = line;
    } else if 1 <= of_any {
        made.insert(of_any, line)?;
    } else {
        made.push(line)?;
    }
    Ok(made)
}

/// The clear lines with others in the place of those of the array.
fn with_lines(
    alloc: Global,
    array: &ArrayParts,
    mut lines: Vec<Bytes>,
) -> Result<Vec<Bytes>, AllocError>
    ensures { IfOk result
        (λ clear. clear.items ≡ array.now.front.now ++ lines.items ++ array.now.back.now) }
{
    let mut clear = copied_bytes(alloc, array.front)?;
    clear.append(&mut lines)?;
    let mut back = copied_bytes(alloc, array.back)?;
    clear.append(&mut back)?;
    Ok(clear)
}

/// A code encoded.
#[tactic(auto, unfolding(crate::specs::Editing::encoded))]
pub fn encoding_code<'a>(source: &Source<'a>, code: i64, name: &[u8]) -> Result<Change<'a>, Cause>
    ensures change { (k : List Pair)
        → Edits (λ change. changed change source.now k) result
        (beside_pairs k (encoded source.now code name.now)) }
    ensures fits { (k : List Pair) → IfOk result (λ change. Fits change source.now k) }
{
    good_name(name)?;
    let code = number_up_to(255, code)?;
    let array = array_parts(source.clear())?;
    let alloc = source.alloc();
    let lines = encoded_lines(alloc, code, name, array.lines)?;
    let clear = with_lines(alloc, &array, lines)?;
    Ok(Change::PutClear(clear))
}

/// Copies of the lines that are no slots of the code.
fn unencoded_lines(alloc: Global, code: u16, lines: &[Bytes]) -> Result<Vec<Bytes>, AllocError>
    ensures { IfOk result (λ made. made.items ≡ filter (λ l. not (is_slot_of code l)) lines.now) }
{
    let mut made = Vec::new(alloc);
    let mut rest = lines;
    while let Some((line, after)) = rest.split_first() {
        if !is_slot_of(code, line.as_slice()) {
            made.push(Bytes::copied(alloc, line.as_slice())?)?;
        }
        rest = after;
    }
    Ok(made)
}

/// The slots of a code taken out.
#[tactic(auto, unfolding(crate::specs::Editing::unencoded))]
pub fn unencoding_code<'a>(source: &Source<'a>, code: i64) -> Result<Change<'a>, Cause>
    ensures change { (k : List Pair)
        → Edits (λ change. changed change source.now k) result
        (beside_pairs k (unencoded source.now code)) }
    ensures fits { (k : List Pair) → IfOk result (λ change. Fits change source.now k) }
{
    let code = number_up_to(255, code)?;
    let array = array_parts(source.clear())?;
    keeps(Rule::E10, has_slot_of(code, array.lines))?;
    let alloc = source.alloc();
    let lines = unencoded_lines(alloc, code, array.lines)?;
    let clear = with_lines(alloc, &array, lines)?;
    Ok(Change::PutClear(clear))
}
