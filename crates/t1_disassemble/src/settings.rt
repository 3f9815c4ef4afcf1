//! What the private text says before its first section: the reading operator and lenIV.
ghost use Rattle.std.specs.Prelude.{◌≡◌, ◌≤◌, ◌<◌, ◌^◌, length, is_some, option_map};
ghost use Rattle.std.specs.Char.{is_ascii_digit};
ghost use Rattle.std.specs.List.{suffix_len};
ghost use Rattle.t1_text.specs.Lines.{lines};
ghost use Rattle.t1_parts.specs.Sections.{subrs_line, glyphs_line};
ghost use Rattle.t1_disassemble.specs.Settings.{heads_section, undigited, ends_in_key};
ghost use Rattle.t1_disassemble.specs.Settings.{begins_section, is_section_name, name_place};
ghost use Rattle.t1_disassemble.specs.Settings.{before_section, operator_said};
ghost use Rattle.t1_disassemble.specs.PrivateText.{says_settings};
ghost use Rattle.t1_text.specs.Tokens.{places_from};
ghost use Rattle.t1_disassemble.specs.Settings.{opens_section, lead_said, reading_operator};
ghost use Rattle.t1_disassemble.specs.Settings.{leading_bytes};

use crate::fault::FontCode;
use t1_parts::{count_between, ends_in, holds, operator_on, uncommented};
use t1_text::{after_token, decimal_up_to, first_line, next_place, same, trimmed};

/// Whether a line is the Subrs line.
pub(crate) fn is_subrs_line(line: &[u8]) -> bool
    requires { length line.now < 2 ^ 63 }
    ensures { result ≡ is_some (subrs_line line.now) }
{
    count_between(b"/Subrs", b"array", line).is_some()
}

/// Whether a line is the CharStrings line.
pub(crate) fn is_glyphs_line(line: &[u8]) -> bool
    requires { length line.now < 2 ^ 63 }
    ensures { result ≡ is_some (glyphs_line line.now) }
{
    count_between(b"/CharStrings", b"dict", line).is_some()
}

/// Whether a line is the Subrs line or the CharStrings line.
pub(crate) fn is_section(line: &[u8]) -> bool
    requires { length line.now < 2 ^ 63 }
    ensures { result ≡ heads_section line.now }
{
    is_subrs_line(line) || is_glyphs_line(line)
}

/// How many digits stand at the end of a line.
fn last_digits(line: &[u8]) -> usize
    ensures within { result ≤ length line.now }
    ensures value { result ≡ suffix_len is_ascii_digit line.now }
{
    line.iter()
        .rev()
        .take_while(|byte| byte.is_ascii_digit())
        .count()
}

/// A line without the digits at its end.
fn undigited(line: &[u8]) -> &[u8]
    ensures { result.now ≡ undigited line.now }
{
    line.split_at(line.len() - last_digits(line)).0
}

/// Whether a line ends in a section's name.
fn ends_in_key(line: &[u8]) -> bool
    ensures { result ≡ ends_in_key line.now }
{
    ends_in(b"/Subrs", line) || ends_in(b"/CharStrings", line)
}

/// Whether a line ends in a section's name, or in that and digits.
fn begins_section(line: &[u8]) -> bool
    ensures { result ≡ begins_section line.now }
{
    ends_in_key(line) || ends_in_key(undigited(trimmed(line)))
}

/// Whether a section begins on a line.
fn opens_section(line: &[u8]) -> bool
    requires { length line.now < 2 ^ 63 }
    ensures { result ≡ opens_section line.now }
{
    is_section(line) || begins_section(uncommented(line))
}

/// Whether a token is a section's name.
fn is_section_name(token: &[u8]) -> bool
    ensures { result ≡ is_section_name token.now }
{
    same(token, b"/Subrs") || same(token, b"/CharStrings")
}

/// Where the first section's name stands on a line, or how many bytes the line has.
fn name_place(line: &[u8]) -> usize
    requires { length line.now < 2 ^ 63 }
    ensures value { result ≡ name_place (length line.now) (places_from 0 line.now) }
    ensures within { result ≤ length line.now }
{
    let mut place = 0;
    let mut rest = line;
    while let Some((at, token, after)) = next_place(place, rest) {
        if is_section_name(token) {
            return at;
        }
        place = at + token.len();
        rest = after;
    }
    line.len()
}

/// What stands on a line before the first section's name.
pub(crate) fn before_section(line: &[u8]) -> &[u8]
    requires { length line.now < 2 ^ 63 }
    ensures value { result.now ≡ before_section line.now }
    ensures within { length result.now ≤ length line.now }
{
    line.split_at(name_place(line)).0
}

/// Whether a line says something of the reading operator or of lenIV.
pub(crate) fn says_settings(line: &[u8]) -> bool
    ensures { result ≡ says_settings line.now }
{
    holds(b"string currentfile", line) || after_token(b"/lenIV", line).is_some()
}

/// The operator that a line defines, else RD.
fn operator_said(line: &[u8]) -> &[u8]
    ensures { result.now ≡ operator_said line.now }
{
    if !holds(b"string currentfile", line) {
        return b"RD";
    }
    match operator_on(line) {
        Some(name) => name,
        None => b"RD",
    }
}

/// The operator that reads charstrings, as the lines before the first section define it.
pub(crate) fn reading_operator(private: &[u8]) -> &[u8]
    ensures { result.now ≡ reading_operator (lines private.now) }
{
    let mut rest = private;
    while !rest.is_empty() {
        let (line, after) = first_line(rest);
        if opens_section(line) {
            return operator_said(before_section(line));
        }
        if holds(b"string currentfile", line) {
            return operator_said(line);
        }
        rest = after;
    }
    b"RD"
}

/// The number from 0 to 64 that is said of lenIV.
fn lead_said(said: Option<&[u8]>) -> Result<u8, FontCode>
    ensures { result ≡ lead_said (option_map (λ token. token.now) said.entry) }
{
    let Some(token) = said else {
        return Err(FontCode::D9);
    };
    if same(token, b"-1") {
        return Err(FontCode::D10);
    }
    match decimal_up_to(64, token) {
        Some(lead) => Ok(lead as u8),
        None => Err(FontCode::D9),
    }
}

/// How many bytes stand in front of each charstring, as the lines before the first section say it;
/// 4 where they don't.
pub(crate) fn leading_bytes(private: &[u8]) -> Result<u8, FontCode>
    ensures { result ≡ leading_bytes (lines private.now) }
{
    let mut rest = private;
    while !rest.is_empty() {
        let (line, after) = first_line(rest);
        if opens_section(line) {
            return match after_token(b"/lenIV", before_section(line)) {
                Some(said) => lead_said(said),
                None => Ok(4),
            };
        }
        if let Some(said) = after_token(b"/lenIV", line) {
            return lead_said(said);
        }
        rest = after;
    }
    Ok(4)
}
