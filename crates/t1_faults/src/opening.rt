//! The first entry of a number or of a name.

ghost use Rattle.std.specs.Prelude.{◌≡◌, false, option_map};
ghost use Rattle.t1_text.specs.Lines.{lines};
ghost use Rattle.t1_faults.specs.Openings.{begins_section_of, detail_on, first_line_opening};
ghost use Rattle.t1_faults.specs.Openings.{glyph_opened};
ghost use Rattle.t1_faults.specs.Openings.{is_this_number, key_opened, line_told};
ghost use Rattle.t1_text.specs.Tokens.{is_token};
ghost use Rattle.t1_faults.specs.CodeForms.{key_found};
ghost use Rattle.t1_faults.specs.Openings.{opens_entry_at, subr_opened};

use t1_chain::Detail;
use t1_frac::Code;
use t1_parts::{count_between, opens_glyph, opens_subr};
use t1_text::{decimal_up_to, first_line, name_of_token, same};

/// What a line opens: the Subr of a number, or the glyph of a name.
#[derive(Clone, Copy)]
enum Opened<'a> {
    Subr(u32),
    Glyph(&'a [u8]),
}

/// The number of the Subr that a line opens.
fn subr_opened(line: &[u8]) -> Option<u32>
    ensures { result ≡ subr_opened line.now }
{
    match opens_subr(line) {
        None => None,
        Some(token) => decimal_up_to(32000, token),
    }
}

/// The name of the glyph that a line opens.
fn glyph_opened(line: &[u8]) -> Option<&[u8]>
    ensures { option_map (λ name. name.now) result ≡ glyph_opened line.now }
{
    match opens_glyph(line) {
        None => None,
        Some(token) => name_of_token(token),
    }
}

/// What a line opens a second time, by the code of its fault.
fn key_opened(code: Code, line: &[u8]) -> Option<Opened<'_>>
    ensures { option_map key_found result ≡ key_opened code line.now }
{
    match code {
        Code::F9 => match subr_opened(line) {
            None => None,
            Some(number) => Some(Opened::Subr(number)),
        },
        Code::F10 => match glyph_opened(line) {
            None => None,
            Some(name) => Some(Opened::Glyph(name)),
        },
        _ => None,
    }
}

/// Whether a line opens the Subr of this number.
fn opens_number(number: u32, line: &[u8]) -> bool
    ensures { result ≡ is_this_number number (subr_opened line.now) }
{
    match subr_opened(line) {
        None => false,
        Some(other) => number == other,
    }
}

/// Whether a line opens the glyph of this name.
fn opens_name(name: &[u8], line: &[u8]) -> bool
    ensures { result ≡ is_token name.now (glyph_opened line.now) }
{
    match glyph_opened(line) {
        None => false,
        Some(other) => same(name, other),
    }
}

/// Whether a line opens this.
fn opens(key: &Opened, line: &[u8]) -> bool
    ensures { result ≡ opens_entry_at (key_found key.now) line.now }
{
    match key {
        Opened::Subr(number) => opens_number(*number, line),
        Opened::Glyph(name) => opens_name(name, line),
    }
}

/// Whether a line begins the section in which this stands.
fn begins_section(key: &Opened, line: &[u8]) -> bool
    ensures { result ≡ begins_section_of (key_found key.now) line.now }
{
    match key {
        Opened::Subr(_number) => count_between(b"/Subrs", b"array", line).is_some(),
        Opened::Glyph(_name) => count_between(b"/CharStrings", b"dict", line).is_some(),
    }
}

/// The number of the first line that opens this in its section.
#[tactic(auto, using(t1_text::proofs::CutLaws::lines_within))]
fn first_opening(key: &Opened, bytes: &[u8]) -> Option<u64>
    ensures { result ≡ first_line_opening (key_found key.now) false 1 (lines bytes.now) }
{
    let mut number = 1;
    let mut begun = false;
    let mut rest = bytes;
    while !rest.is_empty() {
        let (line, after) = first_line(rest);
        if begun && opens(key, line) {
            return Some(number);
        }
        let begins = begins_section(key, line);
        begun = begun || begins;
        number += 1;
        rest = after;
    }
    None
}

/// A line that is told, where there is one.
fn line_told(number: Option<u64>) -> Detail
    ensures { result ≡ line_told number }
{
    match number {
        None => Detail::Nothing,
        Some(number) => Detail::Line(number),
    }
}

/// What a fault on a line says beside its code: of an entry that is there twice, the line of the
/// first one.
pub(crate) fn detail_on(bytes: &[u8], code: Code, line: &[u8]) -> Detail
    ensures { result ≡ detail_on (lines bytes.now) code line.now }
{
    match key_opened(code, line) {
        None => Detail::Nothing,
        Some(key) => line_told(first_opening(&key, bytes)),
    }
}
