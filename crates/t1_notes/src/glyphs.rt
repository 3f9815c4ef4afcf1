//! The section of the glyphs.

ghost use Rattle.std.specs.Prelude.{◌≡◌, ◌++◌, ◌≤◌, length, OnOk};
ghost use Rattle.std.specs.List.{position_or_len};
ghost use Rattle.t1_notes.specs.Tables.{is_among_names};
ghost use Rattle.t1_notes.specs.Notes.{is_end, is_bare, is_stray, stray_note};
ghost use Rattle.t1_notes.specs.StraysByLine.{stray_after};
ghost use Rattle.t1_notes.specs.Notes.{stray_notes, late_notes, notdef_notes, glyph_notes};

use crate::bodies::push_where;
use crate::counts::{glyphs_need, push_count};
use crate::line::Line;
use crate::names::is_among;
use crate::note::{Note, NoteKind};
use crate::sections::{Section, opens};
use indexmap::IndexSet;
use std::alloc::AllocError;
use t1_text::{first_is, next_token};

/// Whether a line ends the glyphs.
fn is_end(line: &[u8]) -> bool
    ensures { result ≡ is_end line.now }
{
    first_is(b"end", line)
}

/// How many lines stand before the one that ends the glyphs.
pub fn end_place(heads: &[Line]) -> usize
    ensures within { result ≤ length heads.now }
    ensures value { result ≡ position_or_len (λ l. is_end l.text) heads.now }
{
    heads
        .iter()
        .take_while(|line| !is_end(line.bytes()))
        .count()
}

/// Whether a line has nothing but blanks and a comment.
fn is_bare(line: &[u8]) -> bool
    ensures { result ≡ is_bare line.now }
{
    next_token(line).is_none()
}

/// Adds the note that `.notdef` isn't among the names.
fn push_notdef(
    notes: &mut Vec<Note>,
    section: &Line,
    names: &IndexSet<&[u8]>,
) -> Result<(), AllocError>
    ensures { OnOk result (notes.new.items ≡ notes.old.items ++ notdef_notes (is_among_names
        names.now.keys) section.now) }
{
    let note = section.note(NoteKind::NoNotdef);
    push_where(notes, !is_among(names, b".notdef"), note)
}

/// Whether a line belongs to no glyph, and isn't bare.
fn is_stray(line: &[u8]) -> bool
    ensures { result ≡ is_stray line.now }
{
    !(opens(Section::Glyphs, line) || is_bare(line))
}

/// Whether the nearest line that isn't bare is stray after this one.
fn stray_after(follows: bool, line: &[u8]) -> bool
    ensures { result ≡ stray_after follows line.now }
{
    if is_bare(line) {
        follows
    } else {
        is_stray(line)
    }
}

/// Adds the note on a line that belongs to no glyph, unless it follows another.
fn push_stray(notes: &mut Vec<Note>, follows: bool, line: &Line) -> Result<(), AllocError>
    ensures { OnOk result (notes.new.items ≡ notes.old.items ++ stray_note follows line.now) }
{
    let note = line.note(NoteKind::NoEntry);
    push_where(notes, is_stray(line.bytes()) && !follows, note)
}

/// Adds the notes on lines that belong to no glyph: on the first of those that follow one another.
fn push_strays(notes: &mut Vec<Note>, heads: &[Line]) -> Result<(), AllocError>
    ensures { OnOk result (notes.new.items ≡ notes.old.items ++ stray_notes heads.now) }
{
    let mut follows = false;
    for line in heads {
        push_stray(notes, follows, line)?;
        follows = stray_after(follows, line.bytes());
    }
    Ok(())
}

/// Adds the notes on glyphs after the line that ends the glyphs.
fn push_late(notes: &mut Vec<Note>, heads: &[Line]) -> Result<(), AllocError>
    ensures { OnOk result (notes.new.items ≡ notes.old.items ++ late_notes heads.now) }
{
    for line in heads {
        if opens(Section::Glyphs, line.bytes()) {
            notes.push(line.note(NoteKind::AfterEnd))?;
        }
    }
    Ok(())
}

/// Adds the notes on the section of the glyphs of these names, by its line, its lines to the one
/// that ends the glyphs, and those from there on.
pub fn push_glyphs(
    notes: &mut Vec<Note>,
    names: &IndexSet<&[u8]>,
    section: &Line,
    heads: &[Line],
    late: &[Line],
) -> Result<(), AllocError>
    ensures { OnOk result (notes.new.items ≡ notes.old.items ++ glyph_notes (is_among_names
        names.now.keys)
        section.now heads.now late.now) }
{
    push_notdef(notes, section, names)?;
    push_count(notes, Section::Glyphs, section, glyphs_need(heads))?;
    push_strays(notes, heads)?;
    push_late(notes, late)
}
