//! Cutting a text into lines.

ghost use Rattle.std.specs.Prelude.{◌≡◌, ◌<◌, ◌≤◌, ◌-◌, ◌+◌, ℕ, true, false, List, [], ◌∷◌, ◌++◌};
ghost use Rattle.std.specs.Prelude.{◌==◌, count_by, length, take, drop, IfOk, OnOk, reverse};
ghost use Rattle.std.specs.List.{prefix_len, position_or_len};
ghost use Rattle.t1_frac.specs.declared.fault.Place.TheVariants as places;
ghost use Rattle.t1_frac.specs.Ascii.{line_feed};
ghost use Rattle.t1_frac.specs.Outcome.{fault_at};
ghost use Rattle.t1_frac.specs.Words.{is_blank};
ghost use Rattle.t1_text.specs.Delimiters.{is_safe};
ghost use Rattle.t1_text.specs.Lines.{begins_with, lines, is_line, is_line_end};
ghost use Rattle.t1_text.specs.LineEnds.{line_ends};
ghost use Rattle.t1_text.specs.Lines.{after_end, trimmed};

use memchr::{memchr, memchr2, memchr3, memrchr2};
use std::alloc::{AllocError, Global};
use t1_frac::{Bytes, Code, Fault, Place, is_blank, skip_blanks};

/// The fault on the line of this number.
pub fn fault_on(number: u64, code: Code) -> Fault
    ensures { result ≡ fault_at (places.Line number) code }
{
    Fault {
        code,
        place: Place::Line(number),
    }
}

/// Adds a copy of some bytes.
fn push_copy(alloc: Global, copies: &mut Vec<Bytes>, bytes: &[u8]) -> Result<(), AllocError>
    ensures { OnOk result (copies.new.items ≡ copies.old.items ++ bytes.now ∷ []) }
{
    copies.push(Bytes::copied(alloc, bytes)?)?;
    Ok(())
}

/// Copies of some runs of bytes.
pub fn copied_bytes(alloc: Global, lines: &[Bytes]) -> Result<Vec<Bytes>, AllocError>
    ensures { IfOk result (λ copies. copies.items ≡ lines.now) }
{
    let mut copies = Vec::new(alloc);
    for line in lines {
        push_copy(alloc, &mut copies, line.as_slice())?;
    }
    Ok(copies)
}

/// The length of the first line.
fn line_len(bytes: &[u8]) -> usize
    ensures within { result ≤ length bytes.now }
    ensures value { result ≡ position_or_len is_line_end bytes.now }
{
    memchr2(b'\n', b'\r', bytes).unwrap_or(bytes.len())
}

/// The bytes after a line end, of which CR LF is one.
fn after_end(bytes: &[u8]) -> &[u8]
    ensures { result.now ≡ after_end bytes.now }
{
    match bytes {
        [b'\r', b'\n', rest @ ..] | [_, rest @ ..] => rest,
        [] => bytes,
    }
}

/// The bytes before the first line end, and the bytes after it.
pub fn cut_line(bytes: &[u8]) -> (&[u8], &[u8])
    ensures line { result.0.now ≡ take (position_or_len is_line_end bytes.now) bytes.now }
    ensures after { result.1.now
        ≡ after_end (drop (position_or_len is_line_end bytes.now) bytes.now) }
{
    let (line, end) = bytes.split_at(line_len(bytes));
    (line, after_end(end))
}

/// The first line of some bytes, and the bytes after its end.
#[tactic(auto, using(crate::proofs::LineLaws::first_line_lem, crate::proofs::CutLaws::cut_after, crate::proofs::CutLaws::line_gone, crate::proofs::CutLaws::line_before, crate::proofs::CutLaws::line_after))]
pub fn first_line(bytes: &[u8]) -> (&[u8], &[u8])
    requires { 0 < length bytes.now }
    ensures lines { lines bytes.now ≡ result.0.now ∷ lines result.1.now }
    ensures shorter { length result.1.now < length bytes.now }
    ensures front { result.0.now ≡ take (length result.0.now) bytes.now }
    ensures back { result.1.now ≡ drop (length bytes.now - length result.1.now) bytes.now }
    ensures cut { (j : ℕ)
        → lines (take (length bytes.now - length result.1.now + j) bytes.now)
        ≡ result.0.now ∷ lines (take j result.1.now) }
{
    cut_line(bytes)
}

/// Where the last line of some bytes begins, whose end doesn't stand there.
pub fn last_line_start(bytes: &[u8]) -> usize
    ensures within { result ≤ length bytes.now }
    ensures line { is_line (drop result bytes.now) ≡ true }
    ensures cut { (back : List ℕ)
        → begins_with line_feed back ≡ false
        → lines (take result bytes.now ++ back) ≡ lines (take result bytes.now) ++ lines back }
{
    match memrchr2(b'\n', b'\r', bytes) {
        Some(end) => end + 1,
        None => 0,
    }
}

/// Where the first brace of some bytes stands or a comment begins, or their length.
pub fn first_delimiter(bytes: &[u8]) -> usize
    ensures within { result ≤ length bytes.now }
    ensures value { result ≡ prefix_len is_safe bytes.now }
{
    memchr3(b'{', b'}', b'%', bytes).unwrap_or(bytes.len())
}

/// Copies of the lines of a text, without their ends.
pub fn copied_lines(alloc: Global, text: &[u8]) -> Result<Vec<Bytes>, AllocError>
    ensures { IfOk result (λ copies. copies.items ≡ lines text.now) }
{
    let mut copies = Vec::new(alloc);
    let mut rest = text;
    while !rest.is_empty() {
        let (line, after) = first_line(rest);
        push_copy(alloc, &mut copies, line)?;
        rest = after;
    }
    Ok(copies)
}

/// How many line ends stand in a text, of which CR LF is one.
pub fn line_ends(text: &[u8]) -> usize
    ensures value { result ≡ line_ends text.now }
    ensures within { result ≤ length text.now }
{
    match memchr(b'\r', text) {
        None => line_feeds(text),
        Some(_) => mixed_line_ends(text),
    }
}

/// The most bytes whose line feeds a byte can count.
const COUNTED_AT_ONCE: usize = 255;

/// How many LF stand in so few bytes. The count is a byte too, so that the compiler counts in many
/// bytes at once.
fn few_line_feeds(text: &[u8]) -> u8
    requires { length text.now ≤ 255 }
    ensures { result ≡ count_by (λ c. c == line_feed) text.now }
{
    let mut feeds: u8 = 0;
    for byte in text {
        if *byte == b'\n' {
            feeds += 1;
        }
    }
    feeds
}

/// How many LF stand in a text.
fn line_feeds(text: &[u8]) -> usize
    ensures { result ≡ count_by (λ c. c == line_feed) text.now }
{
    let mut count = 0;
    let mut rest = text;
    while !rest.is_empty() {
        let (front, after) = rest.split_at(rest.len().min(COUNTED_AT_ONCE));
        count += usize::from(few_line_feeds(front));
        rest = after;
    }
    count
}

/// How many line ends stand in a text, counted one by one.
fn mixed_line_ends(text: &[u8]) -> usize
    ensures value { result ≡ line_ends text.now }
    ensures within { result ≤ length text.now }
{
    let mut count = 0;
    let mut rest = text;
    let mut at = line_len(rest);
    while at < rest.len() {
        count += 1;
        rest = after_end(rest.split_at(at).1);
        at = line_len(rest);
    }
    count
}

/// How many blanks stand at the end.
fn blank_tail_len(line: &[u8]) -> usize
    ensures within { result ≤ length line.now }
    ensures value { result ≡ prefix_len is_blank (reverse line.now) }
{
    line.iter()
        .rev()
        .take_while(|byte| is_blank(**byte))
        .count()
}

/// A line without the blanks at both ends.
#[tactic(auto, using(crate::proofs::TrimLaws::cut_at_end))]
pub fn trimmed(line: &[u8]) -> &[u8]
    ensures { result.now ≡ trimmed line.now }
{
    let rest = skip_blanks(line);
    rest.split_at(rest.len() - blank_tail_len(rest)).0
}
