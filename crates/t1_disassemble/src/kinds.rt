//! Fonts of kinds that aren't read.
ghost use Rattle.std.specs.Prelude.{◌≡◌, ◌<◌, ◌≤◌, ◌||◌, Ok, Err, if◌then◌else◌, List, ℕ};
ghost use Rattle.std.specs.Prelude.{[], ◌∷◌, ◌^◌, true, false, None, filter, length, IfSome};
ghost use Rattle.std.specs.Prelude.{MatchOption, MatchResult};
ghost use Rattle.std.specs.List.{list_all, prefix_len};
ghost use Rattle.t1_text.specs.Lines.{lines};
ghost use Rattle.t1_parts.specs.Sections.{subrs_line, glyphs_line};
ghost use Rattle.t1_disassemble.specs.Kinds.{without, plain_kind, is_line_of};
ghost use Rattle.t1_disassemble.specs.CutWords.{slashless};
ghost use Rattle.t1_disassemble.specs.Kinds.{has_second};
ghost use Rattle.t1_disassemble.specs.Kinds.{single_sections};

use crate::fault::{FontCode, FontFault, FontPlace};
use crate::settings::{is_glyphs_line, is_subrs_line};
use memchr::memchr;
use t1_parts::text_place;
use t1_text::{first_line, last_line_start, next_place};

/// Bytes that hold a text are refused where it first stands.
fn check_without(text: &[u8], code: FontCode, bytes: &[u8]) -> Result<(), FontFault>
    ensures { MatchResult
        result
        (λ _. without text.now code bytes.now ≡ Ok bytes.now)
        (λ fault. without text.now code bytes.now ≡ Err fault) }
{
    let place = text_place(text, bytes);
    if place < bytes.len() {
        return Err(FontFault {
            code,
            place: FontPlace::Byte(place as u64),
        });
    }
    Ok(())
}

/// The clear text of a multiple master or CID-keyed font is refused where it first says so.
#[tactic(auto, unfolding(crate::specs::Kinds::plain_kind))]
pub(crate) fn check_kind(clear: &[u8]) -> Result<(), FontFault>
    ensures { MatchResult
        result
        (λ _. plain_kind clear.now ≡ Ok clear.now)
        (λ fault. plain_kind clear.now ≡ Err fault) }
{
    check_without(b"/WeightVector", FontCode::D12, clear)?;
    check_without(b"/CIDFontName", FontCode::D13, clear)
}

/// One for the Subrs line of a source, none for any other line.
fn subrs_count(line: &[u8]) -> usize
    ensures { result ≡ (if is_line_of subrs_line line.now then 1 else 0) }
{
    if line.first() == Some(&b'\t') || !is_subrs_line(line) {
        return 0;
    }
    1
}

/// One for the CharStrings line of a source, none for any other line.
fn glyphs_count(line: &[u8]) -> usize
    ensures { result ≡ (if is_line_of glyphs_line line.now then 1 else 0) }
{
    if line.first() == Some(&b'\t') || !is_glyphs_line(line) {
        return 0;
    }
    1
}

/// Whether a line has three tokens, without which it is no section line.
fn has_three_tokens(line: &[u8]) -> bool
    requires { length line.now < 2 ^ 63 }
    ensures subrs { result ≡ false → subrs_line line.now ≡ None }
    ensures glyphs { result ≡ false → glyphs_line line.now ≡ None }
{
    let Some((at, token, after)) = next_place(0, line) else {
        return false;
    };
    let Some((at, token, after)) = next_place(at + token.len(), after) else {
        return false;
    };
    next_place(at + token.len(), after).is_some()
}

/// How many Subrs lines and how many CharStrings lines of a source a line is.
fn counts(line: &[u8]) -> (usize, usize)
    requires { length line.now < 2 ^ 63 }
    ensures subrs { result.0 ≡ (if is_line_of subrs_line line.now then 1 else 0) }
    ensures glyphs { result.1 ≡ (if is_line_of glyphs_line line.now then 1 else 0) }
{
    if !has_three_tokens(line) {
        return (0, 0);
    }
    (subrs_count(line), glyphs_count(line))
}

/// How many bytes stand before the first slash.
fn slash_place(bytes: &[u8]) -> usize
    ensures within { result ≤ length bytes.now }
    ensures value { result ≡ prefix_len slashless bytes.now }
{
    memchr(b'/', bytes).unwrap_or(bytes.len())
}

/// Whether a slash stands in a line, as in each section line and each glyph's head.
#[tactic(auto, using(crate::proofs::SlashLaws::all_slashless))]
pub(crate) fn has_slash(line: &[u8]) -> bool
    ensures { result ≡ false → list_all slashless line.now ≡ true }
{
    slash_place(line) < line.len()
}

/// The next line with a slash in it, and the bytes after it. Each section line has one.
#[tactic(auto, using(crate::proofs::SlashLaws::subrs_none, crate::proofs::SlashLaws::glyphs_none))]
fn next_slashed(bytes: &[u8]) -> Option<(&[u8], &[u8])>
    ensures subrs { MatchOption
        result
        (filter (is_line_of subrs_line) (lines bytes.now) ≡ [])
        (λ found. filter (is_line_of subrs_line) (lines bytes.now)
        ≡ filter (is_line_of subrs_line) (found.0.now ∷ lines found.1.now)) }
    ensures glyphs { MatchOption
        result
        (filter (is_line_of glyphs_line) (lines bytes.now) ≡ [])
        (λ found. filter (is_line_of glyphs_line) (lines bytes.now)
        ≡ filter (is_line_of glyphs_line) (found.0.now ∷ lines found.1.now)) }
    ensures shorter { IfSome result (λ found. length found.1.now < length bytes.now) }
{
    let place = slash_place(bytes);
    if place == bytes.len() {
        return None;
    }
    let start = last_line_start(bytes.split_at(place).0);
    Some(first_line(bytes.split_at(start).1))
}

/// How many Subrs lines and how many CharStrings lines a text has. Lines without a slash aren't
/// looked at, which are most.
#[tactic(auto, using(crate::proofs::KindLaws::lines_counted))]
pub(crate) fn section_counts(text: &[u8]) -> (usize, usize)
    ensures subrs { result.0 ≡ length (filter (is_line_of subrs_line) (lines text.now)) }
    ensures glyphs { result.1 ≡ length (filter (is_line_of glyphs_line) (lines text.now)) }
{
    let mut subrs = 0;
    let mut glyphs = 0;
    let mut rest = text;
    while let Some((line, after)) = next_slashed(rest) {
        let (some_subrs, some_glyphs) = counts(line);
        subrs += some_subrs;
        glyphs += some_glyphs;
        rest = after;
    }
    (subrs, glyphs)
}

/// Whether a text has two Subrs lines or two CharStrings lines.
fn has_second(text: &[u8]) -> bool
    ensures { result
        ≡ (has_second subrs_line (lines text.now) || has_second glyphs_line (lines text.now)) }
{
    let (subrs, glyphs) = section_counts(text);
    1 < subrs || 1 < glyphs
}

/// The lines of a private text with two Subrs lines or two CharStrings lines are refused.
#[tactic(auto, unfolding(crate::specs::Kinds::single_sections))]
pub(crate) fn check_sections(text: &[u8]) -> Result<(), FontFault>
    ensures { MatchResult
        result
        (λ _. single_sections text.now ≡ Ok text.now)
        (λ fault. single_sections text.now ≡ Err fault) }
{
    if has_second(text) {
        return Err(FontFault {
            code: FontCode::D11,
            place: FontPlace::Nowhere,
        });
    }
    Ok(())
}
