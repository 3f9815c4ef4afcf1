//! The private part, read from its front: plain lines, section lines and entries. What a line is.

ghost use Rattle.std.specs.Prelude.{◌≡◌, ◌+◌, ◌≤◌, ◌<◌, ◌^◌, ◌++◌, ◌∷◌, ℕ, List, None, Ok, false};
ghost use Rattle.std.specs.Prelude.{Err, codes, length, option_map, take, IfErr, IfOk, IfSome};
ghost use Rattle.std.specs.Prelude.{MatchOption, MatchResult, IsTrue};
ghost use Rattle.t1_frac.specs.Ascii.{slash};
ghost use Rattle.t1_frac.specs.declared.fault.Place.TheVariants as places;
ghost use Rattle.t1_frac.specs.Outcome.{Gives, Refuses, reported_at};
ghost use Rattle.t1_text.specs.Lines.{begins_with, lines};
ghost use Rattle.t1_text.specs.Names.{is_count};
ghost use Rattle.t1_text.specs.Tokens.{tokens, places_from};
ghost use Rattle.t1_parts.specs.Entries.{has_numbered, opens_subr, opens_glyph};
ghost use Rattle.t1_parts.specs.EntryNames.{glyph_name};
ghost use Rattle.t1_parts.specs.Stretches.{line_says, IsCutAfter};
ghost use Rattle.t1_parts.specs.Pieces.{AreLinesAfter};
ghost use Rattle.t1_parts.specs.PlainRuns.{may_open_entry, read_from, AreAmong};
ghost use Rattle.t1_parts.specs.LineKinds.{IsCountOf, IsOfKind};
ghost use Rattle.t1_parts.specs.NumberedStretches.{numbered_lines};
ghost use Rattle.t1_parts.specs.Sections.{is_subrs_line, is_glyphs_line, count_between};
ghost use Rattle.t1_parts.specs.Private.{line_read, item_in_front};

use crate::body::{glyph_entry, subr_entry};
use crate::gathered::Gathered;
use crate::item::{Item, Taken};
use crate::plain_lines::{PlainLines, next_line};
use crate::sections::section_at;
use std::alloc::{AllocError, Global};
use t1_frac::{Code, Fault, Refusal, SourceText};
use t1_text::{after_token, fault_on, first_line, is_count, next_place, next_token, same};

/// What a line of the private part is.
#[derive(Clone, Copy)]
enum LineKind<'a> {
    /// A plain line that says nothing of lenIV: it may stand among others.
    Among,
    /// It opens the entry of a Subr: the token of its number.
    Subr(&'a [u8]),
    /// It opens the entry of a glyph: the token of its name.
    Glyph(&'a [u8]),
    /// A line by itself: its count as a Subrs line and as a CharStrings line, with their places.
    Alone(Option<(usize, &'a [u8])>, Option<(usize, &'a [u8])>),
}

/// The token between `dup` and `{`, where the line begins so.
pub fn opens_subr(line: &[u8]) -> Option<&[u8]>
    ensures { option_map (λ token. token.now) result ≡ opens_subr (tokens line.now) }
{
    let Some((first, after)) = next_token(line) else {
        return None;
    };
    let Some((token, after)) = next_token(after) else {
        return None;
    };
    let Some((brace, _)) = next_token(after) else {
        return None;
    };
    if same(first, b"dup") && same(brace, b"{") {
        Some(token)
    } else {
        None
    }
}

/// Whether a token begins with `/`.
fn begins_name(token: &[u8]) -> bool
    ensures { result ≡ begins_with slash token.now }
{
    match token {
        [first, ..] => b'/' == *first,
        [] => false,
    }
}

/// The token before `{`, where the line begins with a token of a name and `{`.
pub fn opens_glyph(line: &[u8]) -> Option<&[u8]>
    ensures { option_map (λ token. token.now) result ≡ opens_glyph (tokens line.now) }
{
    let Some((token, after)) = next_token(line) else {
        return None;
    };
    let Some((brace, _)) = next_token(after) else {
        return None;
    };
    if begins_name(token) && same(brace, b"{") {
        Some(token)
    } else {
        None
    }
}

/// The count of the first key, count and word in a row on a line, with its place.
pub fn count_between<'a>(key: &[u8], word: &[u8], line: &'a [u8]) -> Option<(usize, &'a [u8])>
    requires { length line.now < 2 ^ 63 }
    ensures value { option_map (λ n. (n.0, n.1.now)) result
        ≡ count_between key.now word.now (places_from 0 line.now) }
    ensures within { IfSome result (λ n. n.0 + length n.1.now ≤ length line.now) }
    ensures digits { IfSome result (λ n. IsTrue (is_count n.1.now)) }
{
    let Some((at, token, after)) = next_place(0, line) else {
        return None;
    };
    let mut first_at = at;
    let mut first = token;
    let Some((at, token, after)) = next_place(at + token.len(), after) else {
        return None;
    };
    let mut count_at = at;
    let mut count = token;
    let mut place = at + token.len();
    let mut rest = after;
    while let Some((at, token, after)) = next_place(place, rest) {
        if same(first, key) && is_count(count) && same(token, word) {
            return Some((count_at, count));
        }
        first_at = count_at;
        first = count;
        count_at = at;
        count = token;
        place = at + token.len();
        rest = after;
    }
    None
}

/// The count of a line as a Subrs line.
fn subrs_count(line: &[u8]) -> Option<(usize, &[u8])>
    ensures { IsCountOf (codes "/Subrs") (codes "array") line.now result }
{
    count_between(b"/Subrs", b"array", line)
}

/// The count of a line as a CharStrings line.
fn glyphs_count(line: &[u8]) -> Option<(usize, &[u8])>
    ensures { IsCountOf (codes "/CharStrings") (codes "dict") line.now result }
{
    count_between(b"/CharStrings", b"dict", line)
}

/// The entry that a line opens.
fn entry_opened<'a>(earlier: &Gathered, line: &'a [u8]) -> Option<LineKind<'a>>
    ensures { MatchOption result
        (may_open_entry (has_numbered is_subrs_line earlier.now)
        (has_numbered is_glyphs_line earlier.now) line.now ≡ false)
        (IsOfKind (has_numbered is_subrs_line earlier.now)
        (has_numbered is_glyphs_line earlier.now) line.now) }
{
    if earlier.has_glyphs_line() {
        return match opens_glyph(line) {
            Some(token) => Some(LineKind::Glyph(token)),
            None => None,
        };
    }
    if earlier.has_subrs_line() {
        return match opens_subr(line) {
            Some(token) => Some(LineKind::Subr(token)),
            None => None,
        };
    }
    None
}

/// Whether a line has a token `/lenIV`.
#[tactic(auto, unfolding(crate::specs::Stretches::line_says))]
pub(crate) fn line_says(line: &[u8]) -> bool
    ensures { result ≡ line_says line.now }
{
    after_token(b"/lenIV", line).is_some()
}

/// What a line is, after the earlier items.
#[tactic(auto, using(crate::proofs::LineKindLaws::among))]
fn kind_of<'a>(earlier: &Gathered, line: &'a [u8]) -> LineKind<'a>
    ensures { IsOfKind (has_numbered is_subrs_line earlier.now)
        (has_numbered is_glyphs_line earlier.now) line.now result }
{
    if let Some(kind) = entry_opened(earlier, line) {
        return kind;
    }
    let subrs = subrs_count(line);
    let glyphs = glyphs_count(line);
    if subrs.is_some() || glyphs.is_some() || line_says(line) {
        return LineKind::Alone(subrs, glyphs);
    }
    LineKind::Among
}

/// The section line or the plain line, of these counts.
#[tactic(auto, unfolding(crate::specs::Private::line_item))]
fn line_at<'a>(
    earlier: &Gathered,
    number: u64,
    line: &'a [u8],
    subrs: Option<(usize, &'a [u8])>,
    glyphs: Option<(usize, &'a [u8])>,
) -> Result<Item<'a>, Fault>
    requires subrs { IsCountOf (codes "/Subrs") (codes "array") line.now subrs }
    requires glyphs { IsCountOf (codes "/CharStrings") (codes "dict") line.now glyphs }
    ensures value { MatchResult
        result
        (λ item. reported_at (places.Line number) (line_read earlier.now line.now) ≡ Ok (item, 0))
        (λ fault. reported_at (places.Line number) (line_read earlier.now line.now) ≡ Err fault) }
    ensures unnamed { IfOk result (λ item. glyph_name item ≡ None) }
{
    let item = match (subrs, glyphs) {
        (None, None) => Item::Plain(SourceText::borrowed(line)),
        (Some((at, count)), None) if !earlier.has_subrs_line() && !earlier.has_glyphs_line() => {
            section_at(line, at, count)
        }
        (None, Some((at, count))) if !earlier.has_glyphs_line() => section_at(line, at, count),
        _ => return Err(fault_on(number, Code::F4)),
    };
    Ok(item)
}

/// The item at the front of some bytes, of which the first line has this number and is of this
/// kind.
#[tactic(auto, unfolding(crate::specs::Private::item_in_front))]
fn item_at<'a>(
    alloc: Global,
    earlier: &Gathered,
    number: u64,
    kind: LineKind<'a>,
    bytes: &'a [u8],
) -> Result<Taken<'a>, Refusal>
    requires some { 0 < length bytes.now }
    requires kind { (l : List ℕ) (ls : List (List ℕ)) → lines bytes.now ≡ l ∷ ls
        → IsOfKind (has_numbered is_subrs_line earlier.now)
        (has_numbered is_glyphs_line earlier.now) l kind }
    ensures value { (l : List ℕ) (ls : List (List ℕ)) → lines bytes.now ≡ l ∷ ls → Gives
        (λ taken. (taken.item, taken.more))
        result
        (reported_at (places.Line number) (item_in_front earlier.now l ls)) }
    ensures named { IfOk result
        (λ taken. option_map (λ n. n.now) taken.name ≡ glyph_name taken.item) }
    ensures after { IfOk result
        (λ taken. AreLinesAfter (taken.more + 1) bytes.now taken.after.now) }
{
    let (line, after) = first_line(bytes);
    let item = match kind {
        LineKind::Subr(token) => return subr_entry(alloc, earlier, number, token, line, bytes),
        LineKind::Glyph(token) => return glyph_entry(alloc, earlier, number, token, line, bytes),
        LineKind::Alone(subrs, glyphs) => line_at(earlier, number, line, subrs, glyphs)?,
        LineKind::Among => Item::Plain(SourceText::borrowed(line)),
    };
    Ok(Taken {
        item,
        name: None,
        more: 0,
        after,
    })
}

/// The number of the lines at the front of some bytes that may stand among plain lines, the bytes
/// after them, and what the next line is, where there is one.
fn past_plain<'a>(earlier: &Gathered, bytes: &'a [u8]) -> (usize, &'a [u8], Option<LineKind<'a>>)
    ensures cut { IsCutAfter result.0 bytes.now result.1.now }
    ensures among { AreAmong (has_numbered is_subrs_line earlier.now)
        (has_numbered is_glyphs_line earlier.now) (take result.0 (lines bytes.now)) }
    ensures next { MatchOption result.2 (length result.1.now ≡ 0)
        (λ kind. (0 < length result.1.now) × ((l : List ℕ) (ls : List (List ℕ))
        → lines result.1.now ≡ l ∷ ls
        → IsOfKind (has_numbered is_subrs_line earlier.now)
        (has_numbered is_glyphs_line earlier.now) l kind)) }
{
    let mut count = 0;
    let mut rest = bytes;
    while !rest.is_empty() {
        let (line, after) = next_line(rest);
        match kind_of(earlier, line) {
            LineKind::Among => {
                count += 1;
                rest = after;
            }
            kind => return (count, rest, Some(kind)),
        }
    }
    (count, rest, None)
}

/// The earlier items and the lines at the front of some bytes, which are so many and may stand
/// among plain lines.
fn with_plain<'a>(
    earlier: Gathered<'a>,
    number: u64,
    count: usize,
    bytes: &'a [u8],
    rest: &'a [u8],
) -> Result<Gathered<'a>, AllocError>
    requires fits { number + length (lines bytes.now) < 2 ^ 64 }
    requires cut { IsCutAfter count bytes.now rest.now }
    requires among { AreAmong (has_numbered is_subrs_line earlier)
        (has_numbered is_glyphs_line earlier) (take count (lines bytes.now)) }
    ensures { IfOk result
        (λ items. items ≡ earlier.entry ++ numbered_lines number (take count (lines bytes.now))) }
{
    if count == 0 {
        return Ok(earlier);
    }
    let front = bytes.split_at(bytes.len() - rest.len()).0;
    earlier.with_lines(number, PlainLines::counted(front, count))
}

/// The earlier items and the one at the front of some bytes, of which the first line has this
/// number and is of this kind; the number of the next line; and the bytes from it on.
fn read_item<'a>(
    alloc: Global,
    earlier: Gathered<'a>,
    number: u64,
    kind: LineKind<'a>,
    bytes: &'a [u8],
) -> Result<(Gathered<'a>, u64, &'a [u8]), Refusal>
    requires some { 0 < length bytes.now }
    requires fits { number + length (lines bytes.now) < 2 ^ 64 }
    requires kind { (l : List ℕ) (ls : List (List ℕ)) → lines bytes.now ≡ l ∷ ls
        → IsOfKind (has_numbered is_subrs_line earlier)
        (has_numbered is_glyphs_line earlier) l kind }
    ensures read { IfOk result
        (λ read.
        read_from earlier.entry number (lines bytes.now)
        ≡ read_from read.0 read.1 (lines read.2.now)) }
    ensures number { IfOk result
        (λ read. read.1 + length (lines read.2.now) ≡ number + length (lines bytes.now)) }
    ensures shorter { IfOk result (λ read. length (lines read.2.now) < length (lines bytes.now)) }
    ensures refused { IfErr result
        (λ refusal. Refuses refusal (read_from earlier.entry number (lines bytes.now))) }
{
    let taken = item_at(alloc, &earlier, number, kind, bytes)?;
    let items = earlier.with(number, taken.item, taken.name)?;
    Ok((items, number + (taken.more as u64 + 1), taken.after))
}

/// The earlier items and those at the front of some bytes, of which the first line has this number:
/// plain lines that follow one another, and the item after them; the number of the next line; and
/// the bytes from it on. Each line is asked once what it is.
pub(crate) fn read_front<'a>(
    alloc: Global,
    earlier: Gathered<'a>,
    number: u64,
    bytes: &'a [u8],
) -> Result<(Gathered<'a>, u64, &'a [u8]), Refusal>
    requires some { 0 < length bytes.now }
    requires fits { number + length (lines bytes.now) < 2 ^ 64 }
    ensures read { IfOk result
        (λ read.
        read_from earlier.entry number (lines bytes.now)
        ≡ read_from read.0 read.1 (lines read.2.now)) }
    ensures number { IfOk result
        (λ read. read.1 + length (lines read.2.now) ≡ number + length (lines bytes.now)) }
    ensures shorter { IfOk result (λ read. length (lines read.2.now) < length (lines bytes.now)) }
    ensures refused { IfErr result
        (λ refusal. Refuses refusal (read_from earlier.entry number (lines bytes.now))) }
{
    let (count, rest, next) = past_plain(&earlier, bytes);
    let items = with_plain(earlier, number, count, bytes, rest)?;
    let further = number + count as u64;
    let Some(kind) = next else {
        return Ok((items, further, rest));
    };
    read_item(alloc, items, further, kind, rest)
}
