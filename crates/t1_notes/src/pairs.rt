//! The notes on a kerning file.

ghost use Rattle.std.specs.Prelude.{◌≡◌, ◌<◌, ◌^◌, ◌++◌, IfOk, OnOk};
ghost use Rattle.t1_text.specs.Tokens.{places_from};
ghost use Rattle.t1_notes.specs.GlyphNames.{has_line_of_glyph};
ghost use Rattle.t1_notes.specs.Tables.{is_among_names};
ghost use Rattle.t1_notes.specs.declared.sections.Section.TheVariants.{Glyphs};
ghost use Rattle.t1_notes.specs.Heads.{heads};
ghost use Rattle.t1_notes.specs.Notes.{is_end};
ghost use Rattle.t1_notes.specs.NumberedLines.{before};
ghost use Rattle.t1_notes.specs.PairNotes.{name_note, kpx_notes, lines_notes, paired_notes};
ghost use Rattle.t1_notes.specs.PairNotes.{pair_notes};

use crate::bodies::push_where;
use crate::glyphs::end_place;
use crate::heads::section_heads;
use crate::line::{Line, numbered_lines};
use crate::names::{glyph_names, is_among};
use crate::note::{Note, NoteKind};
use crate::sections::{Section, section_place};
use indexmap::IndexSet;
use std::alloc::{AllocError, Global};
use t1_text::{next_place, same};

/// Adds the note on a name at a place of a line, where it isn't among the names.
fn push_name(
    notes: &mut Vec<Note>,
    names: &IndexSet<&[u8]>,
    line: u64,
    place: usize,
    name: &[u8],
) -> Result<(), AllocError>
    requires { place < 2 ^ 63 }
    ensures { OnOk result
        (notes.new.items
        ≡ notes.old.items ++ name_note (is_among_names names.now.keys) line (place, name.now)) }
{
    let note = Note {
        kind: NoteKind::NoSuchGlyph,
        line,
        column: place as u64 + 1,
    };
    push_where(notes, !is_among(names, name), note)
}

/// Adds the notes on the line of this number of a kerning file.
fn push_pair(
    notes: &mut Vec<Note>,
    names: &IndexSet<&[u8]>,
    number: u64,
    line: &[u8],
) -> Result<(), AllocError>
    ensures { OnOk result
        (notes.new.items
        ≡ notes.old.items
        ++ kpx_notes (is_among_names names.now.keys) number (places_from 0 line.now)) }
{
    let Some((at, kpx, after)) = next_place(0, line) else {
        return Ok(());
    };
    let Some((left_at, left, after)) = next_place(at + kpx.len(), after) else {
        return Ok(());
    };
    let Some((right_at, right, _)) = next_place(left_at + left.len(), after) else {
        return Ok(());
    };
    if !same(kpx, b"KPX") {
        return Ok(());
    }
    push_name(notes, names, number, left_at, left)?;
    push_name(notes, names, number, right_at, right)
}

/// Adds the notes on the lines of a kerning file, where these are the names of the glyphs.
fn push_pairs(
    notes: &mut Vec<Note>,
    names: &IndexSet<&[u8]>,
    lines: &[Line],
) -> Result<(), AllocError>
    ensures { OnOk result (notes.new.items ≡ notes.old.items ++ lines_notes (is_among_names
        names.now.keys)
        lines.now) }
{
    for line in lines {
        push_pair(notes, names, line.number, line.bytes())?;
    }
    Ok(())
}

/// Adds the notes on the lines of a kerning file, whose pairs are to be of glyphs that these lines
/// open.
fn push_lines(
    alloc: Global,
    notes: &mut Vec<Note>,
    heads: &[Line],
    lines: &[Line],
) -> Result<(), AllocError>
    ensures { OnOk result
        (notes.new.items
        ≡ notes.old.items ++ lines_notes (has_line_of_glyph heads.now) lines.now) }
{
    let names = glyph_names(alloc, heads)?;
    push_pairs(notes, &names, lines)
}

/// Adds the notes on the lines of a kerning file, whose pairs are to be of glyphs that these lines
/// open before the one that ends the glyphs.
fn push_ended(
    alloc: Global,
    notes: &mut Vec<Note>,
    heads: &[Line],
    lines: &[Line],
) -> Result<(), AllocError>
    ensures { OnOk result (notes.new.items ≡ notes.old.items ++ lines_notes
        (has_line_of_glyph (before is_end heads.now)) lines.now) }
{
    push_lines(alloc, notes, heads.split_at(end_place(heads)).0, lines)
}

/// Adds the notes on the lines of a kerning file, whose pairs are to be of glyphs of a section with
/// these lines.
fn push_section(
    alloc: Global,
    notes: &mut Vec<Note>,
    later: &[Line],
    lines: &[Line],
) -> Result<(), AllocError>
    ensures { OnOk result (notes.new.items ≡ notes.old.items ++ lines_notes
        (has_line_of_glyph (before is_end (heads Glyphs later.now))) lines.now) }
{
    let heads = section_heads(alloc, Section::Glyphs, later)?;
    push_ended(alloc, notes, &heads, lines)
}

/// Adds the notes on the lines of a kerning file, by the lines of a source from that of its glyphs
/// on, without which nothing is noted.
fn push_source(
    alloc: Global,
    notes: &mut Vec<Note>,
    from: &[Line],
    lines: &[Line],
) -> Result<(), AllocError>
    ensures { OnOk result (notes.new.items ≡ notes.old.items ++ paired_notes from.now lines.now) }
{
    match from.split_first() {
        Some((_, later)) => push_section(alloc, notes, later, lines),
        None => Ok(()),
    }
}

/// The notes on a kerning file whose pairs are to be of glyphs of a source, in the order of their
/// places, which are lines and columns of the kerning file. Neither text need be one that can be
/// read; without a section of glyphs in the source nothing is noted.
#[tactic(auto, unfolding(crate::specs::PairNotes::pair_notes))]
pub fn pair_notes(alloc: Global, source: &[u8], pairs: &[u8]) -> Result<Vec<Note>, AllocError>
    ensures { IfOk result (λ notes. notes.items ≡ pair_notes source.now pairs.now) }
{
    let source_lines = numbered_lines(alloc, source)?;
    let pair_lines = numbered_lines(alloc, pairs)?;
    let place = section_place(Section::Glyphs, &source_lines);
    let from = source_lines.split_at(place).1;
    let mut notes = Vec::new(alloc);
    push_source(alloc, &mut notes, from, &pair_lines)?;
    Ok(notes)
}
