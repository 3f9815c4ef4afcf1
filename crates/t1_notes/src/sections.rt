//! The sections of a text: where each begins, and what opens its entries.

ghost use Rattle.std.specs.Prelude.{◌≡◌, ◌≤◌, length, option_map, IfSome, IsTrue};
ghost use Rattle.std.specs.List.{position_or_len};
ghost use Rattle.t1_text.specs.Names.{is_count};
ghost use Rattle.t1_notes.specs.LineSections.{section_count, is_line_of_section, opens_entry_of};

use crate::line::Line;
use t1_parts::{count_between, opens_glyph, opens_subr};

/// Which entries a section has.
#[derive(Clone, Copy)]
pub enum Section {
    Subrs,
    Glyphs,
}

/// The count of a section line, with its place.
pub fn section_count(section: Section, line: &[u8]) -> Option<(usize, &[u8])>
    ensures value { option_map (λ n. (n.0, n.1.now)) result ≡ section_count section line.now }
    ensures within { IfSome result (λ n. n.0 ≤ length line.now) }
    ensures digits { IfSome result (λ n. IsTrue (is_count n.1.now)) }
{
    match section {
        Section::Subrs => count_between(b"/Subrs", b"array", line),
        Section::Glyphs => count_between(b"/CharStrings", b"dict", line),
    }
}

/// Whether a line is that of the section.
fn is_section(section: Section, line: &[u8]) -> bool
    ensures { result ≡ is_line_of_section section line.now }
{
    section_count(section, line).is_some()
}

/// Whether a line opens an entry of the section.
pub fn opens(section: Section, line: &[u8]) -> bool
    ensures { result ≡ opens_entry_of section line.now }
{
    match section {
        Section::Subrs => opens_subr(line).is_some(),
        Section::Glyphs => opens_glyph(line).is_some(),
    }
}

/// How many lines stand before that of the section.
pub fn section_place(section: Section, lines: &[Line]) -> usize
    ensures within { result ≤ length lines.now }
    ensures value { result ≡ position_or_len (λ l. is_line_of_section section l.text) lines.now }
{
    lines
        .iter()
        .take_while(|line| !is_section(section, line.bytes()))
        .count()
}
