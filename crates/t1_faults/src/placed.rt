//! Words of a body where they stand in the source.

ghost use Rattle.std.specs.Prelude.{◌≡◌, ◌==◌, ◌<◌, ◌≤◌, ◌+◌, ◌^◌, ◌++◌, ◌∷◌, [], length};
ghost use Rattle.std.specs.Prelude.{IfSome, MatchOption, OnOk};
ghost use Rattle.std.specs.List.{position_or_len, before_first, after_first};
ghost use Rattle.t1_frac.specs.Ascii.{open_brace};
ghost use Rattle.t1_frac.specs.Words.{is_blank};
ghost use Rattle.t1_text.specs.Delimiters.{is_brace};
ghost use Rattle.t1_text.specs.Lines.{lines};
ghost use Rattle.t1_faults.specs.Placed.{columns_from, placed_line, placed_body, opened_words};

use std::alloc::AllocError;
use t1_frac::{SourceText, blank_len, is_blank};
use t1_parts::{has_brace, uncommented};
use t1_text::first_line;

/// A word of a body, where it stands in the source.
#[derive(Drop)]
pub struct PlacedWord<'a> {
    /// The number of its line, from 1.
    pub line: u64,
    /// The column of its first byte: bytes of the line, from 1.
    pub column: usize,
    pub word: SourceText<'a>,
}

/// How many bytes stand before the first blank.
fn word_len(text: &[u8]) -> usize
    ensures within { result ≤ length text.now }
    ensures value { result ≡ position_or_len is_blank text.now }
{
    text.iter().take_while(|byte| !is_blank(**byte)).count()
}

/// The first word of a text, whose first byte has this column, with the column of the word, and the
/// bytes after the word.
#[tactic(auto, using(crate::proofs::ColumnLaws::column_at, crate::proofs::ColumnLaws::no_column_at, t1_frac::proofs::WordLaws::word_shortens))]
fn next_column(column: usize, text: &[u8]) -> Option<(usize, &[u8], &[u8])>
    requires { column + length text.now < 2 ^ 64 }
    ensures within { IfSome
        result
        (λ found. found.0 + length found.1.now + length found.2.now ≡ column + length text.now) }
    ensures shorter { IfSome result (λ found. length found.2.now < length text.now) }
    ensures value { MatchOption
        result
        (columns_from column text.now ≡ [])
        (λ found. columns_from column text.now
        ≡ (found.0, found.1.now) ∷ columns_from (found.0 + length found.1.now) found.2.now) }
{
    let count = blank_len(text);
    let rest = text.split_at(count).1;
    if rest.is_empty() {
        return None;
    }
    let (word, after) = rest.split_at(word_len(rest));
    Some((column + count, word, after))
}

/// Adds the words of a part of the line of this number, of which the first byte has this column.
fn push_line_words<'a>(
    placed: &mut Vec<PlacedWord<'a>>,
    line: u64,
    column: usize,
    text: &'a [u8],
) -> Result<(), AllocError>
    requires { column + length text.now < 2 ^ 64 }
    ensures { OnOk result (placed.new.items
        ≡ placed.old.items ++ placed_line line column text.now) }
{
    let mut from = column;
    let mut rest = text;
    while let Some((place, word, after)) = next_column(from, rest) {
        placed.push(PlacedWord {
            line,
            column: place,
            word: SourceText::borrowed(word),
        })?;
        from = place + word.len();
        rest = after;
    }
    Ok(())
}

/// Whether a byte is a brace.
fn is_brace(byte: u8) -> bool
    ensures { result ≡ is_brace byte }
{
    byte == b'{' || byte == b'}'
}

/// Where the first brace of a line stands, or its length.
fn brace_start(line: &[u8]) -> usize
    ensures within { result ≤ length line.now }
    ensures value { result ≡ position_or_len is_brace line.now }
{
    line.iter().take_while(|byte| !is_brace(**byte)).count()
}

/// A line before its first brace.
fn before_brace(line: &[u8]) -> &[u8]
    ensures { result.now ≡ before_first is_brace line.now }
{
    line.split_at(brace_start(line)).0
}

/// Adds the words of the body that goes from this column of a line to the first brace outside
/// comments. The rest of the line is given, and the bytes after it.
fn push_body_words<'a>(
    placed: &mut Vec<PlacedWord<'a>>,
    number: u64,
    column: usize,
    line: &'a [u8],
    later: &'a [u8],
) -> Result<(), AllocError>
    requires lines { number + length (lines later.now) < 2 ^ 64 }
    requires columns { column + length line.now < 2 ^ 64 }
    ensures { OnOk result (placed.new.items
        ≡ placed.old.items ++ placed_body number column (line.now ∷ lines later.now)) }
{
    let mut current = number;
    let mut from = column;
    let mut text = line;
    let mut rest = later;
    while !has_brace(text) {
        push_line_words(placed, current, from, uncommented(text))?;
        if rest.is_empty() {
            return Ok(());
        }
        let (next, after) = first_line(rest);
        current += 1;
        from = 1;
        text = next;
        rest = after;
    }
    push_line_words(placed, current, from, before_brace(text))
}

/// Where the first `{` of a line stands, or its length.
fn opening_start(line: &[u8]) -> usize
    ensures within { result ≤ length line.now }
    ensures value { result ≡ position_or_len (λ c. c == open_brace) line.now }
{
    line.iter().take_while(|byte| **byte != b'{').count()
}

/// The part of a line after its first `{`, which stands at this place.
#[tactic(auto, using(t1_parts::proofs::OpeningLaws::past_brace, t1_parts::proofs::OpeningLaws::past_line))]
fn after_opening(line: &[u8], start: usize) -> &[u8]
    requires within { start ≤ length line.now }
    requires value { start ≡ position_or_len (λ c. c == open_brace) line.now }
    ensures value { result.now ≡ after_first (λ c. c == open_brace) line.now }
    ensures shorter { length result.now ≤ length line.now }
{
    if start < line.len() {
        line.split_at(start + 1).1
    } else {
        line.split_at(start).1
    }
}

/// Adds the words of the body that opens on a line of this number. The bytes after the line are
/// given.
pub(crate) fn push_opened_words<'a>(
    placed: &mut Vec<PlacedWord<'a>>,
    number: u64,
    line: &'a [u8],
    later: &'a [u8],
) -> Result<(), AllocError>
    requires { number + length (lines later.now) < 2 ^ 64 }
    ensures { OnOk result (placed.new.items
        ≡ placed.old.items ++ opened_words number line.now (lines later.now)) }
{
    let start = opening_start(line);
    push_body_words(placed, number, start + 2, after_opening(line, start), later)
}
