//! Glyphs that reach past ±16,000.

ghost use Rattle.std.specs.Prelude.{◌≡◌, ◌++◌, ◌||◌, ◌&&◌, ℕ, List, IfOk, OnOk};
ghost use Rattle.std.specs.Str.{bytes_eq};
ghost use Rattle.t1_notes.specs.declared.note.NoteKind.TheVariants.{WideGlyph};
ghost use Rattle.t1_notes.specs.GlyphNames.{opened_name};
ghost use Rattle.t1_notes.specs.Tables.{is_among_names};
ghost use Rattle.t1_notes.specs.Notes.{noted};
ghost use Rattle.t1_measured_notes.specs.MeasuredNotes.{is_wide_side, is_wide_box, is_wide};
ghost use Rattle.t1_measured_notes.specs.MeasuredNotes.{is_name_that, wide_notes};

use indexmap::IndexSet;
use std::alloc::{AllocError, Global};
use t1_afm::BBox;
use t1_font::GlyphMetrics;
use t1_notes::{
    Line, Note, NoteKind, Section, is_among, opened_name, past, put_name, section_heads,
    section_place,
};

/// Whether a side of a box lies past ±16,000.
fn is_wide_side(side: i32) -> bool
    ensures { result ≡ is_wide_side side }
{
    !(-16000 <= side && side <= 16000)
}

/// Whether one of two sides of a box lies past ±16,000.
fn is_one_wide(low: i32, high: i32) -> bool
    ensures { result ≡ (is_wide_side low || is_wide_side high) }
{
    is_wide_side(low) || is_wide_side(high)
}

/// Whether a side of the box around a glyph, where it draws, lies past ±16,000.
fn is_wide_box(bounds: Option<BBox>) -> bool
    ensures { result ≡ is_wide_box bounds }
{
    let Some(bounds) = bounds else {
        return false;
    };
    is_one_wide(bounds.left, bounds.right) || is_one_wide(bounds.bottom, bounds.top)
}

/// Adds the name of a glyph to others, where it reaches past ±16,000.
fn put_wide<'g>(names: &mut IndexSet<&'g [u8]>, glyph: &'g GlyphMetrics) -> Result<(), AllocError>
    ensures { OnOk result
        ((name : List ℕ)
        → is_among_names names.new.keys name
        ≡ (is_among_names names.old.keys name ||
        (is_wide_box glyph.entry.now.bbox && bytes_eq name glyph.entry.now.name))) }
{
    if is_wide_box(glyph.bbox) {
        put_name(names, glyph.name.as_slice())
    } else {
        Ok(())
    }
}

/// The names of the glyphs that reach past ±16,000, each once.
pub(crate) fn wide_names<'g>(
    alloc: Global,
    glyphs: &'g [GlyphMetrics],
) -> Result<IndexSet<&'g [u8]>, AllocError>
    ensures { IfOk result
        (λ names. (name : List ℕ) → is_among_names names.keys name ≡ is_wide glyphs.now name) }
{
    let mut names = IndexSet::new(alloc);
    for glyph in glyphs {
        put_wide(&mut names, glyph)?;
    }
    Ok(names)
}

/// Whether a line opens a glyph of one of these names.
fn opens_wide(names: &IndexSet<&[u8]>, line: &[u8]) -> bool
    ensures { result ≡ is_name_that (is_among_names names.now.keys) (opened_name line.now) }
{
    match opened_name(line) {
        Some(name) => is_among(names, name),
        None => false,
    }
}

/// Adds the notes on lines that open a glyph of one of these names.
fn push_heads(
    notes: &mut Vec<Note>,
    names: &IndexSet<&[u8]>,
    heads: &[Line],
) -> Result<(), AllocError>
    ensures { OnOk result (notes.new.items ≡ notes.old.items ++ noted WideGlyph
        (λ l. is_name_that (is_among_names names.now.keys) (opened_name l)) heads.now) }
{
    for line in heads {
        if opens_wide(names, line.bytes()) {
            notes.push(line.note(NoteKind::WideGlyph))?;
        }
    }
    Ok(())
}

/// Adds the notes on the lines of the section of the glyphs that open a glyph of one of these
/// names.
pub(crate) fn push_wide(
    alloc: Global,
    notes: &mut Vec<Note>,
    names: &IndexSet<&[u8]>,
    lines: &[Line],
) -> Result<(), AllocError>
    ensures { OnOk result (notes.new.items ≡ notes.old.items ++ wide_notes (is_among_names
        names.now.keys) lines.now) }
{
    let later = past(lines, section_place(Section::Glyphs, lines));
    let heads = section_heads(alloc, Section::Glyphs, later)?;
    push_heads(notes, names, &heads)
}
