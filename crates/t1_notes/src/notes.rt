//! The notes on a text.

ghost use Rattle.std.specs.Prelude.{◌≡◌, ◌++◌, IfOk, OnOk};
ghost use Rattle.t1_notes.specs.declared.sections.Section.TheVariants.{Glyphs};
ghost use Rattle.t1_notes.specs.GlyphNames.{has_line_of_glyph};
ghost use Rattle.t1_notes.specs.Tables.{is_among_names};
ghost use Rattle.t1_notes.specs.BodyWords.{body_notes};
ghost use Rattle.t1_notes.specs.Heads.{heads};
ghost use Rattle.t1_notes.specs.LineSections.{is_line_of_section};
ghost use Rattle.t1_notes.specs.NumberedLines.{lines_past};
ghost use Rattle.t1_notes.specs.Notes.{glyph_parts_notes, section_notes, line_notes, word_notes};
ghost use Rattle.t1_notes.specs.Notes.{notes_of};

use crate::bodies::push_bodies;
use crate::encoding::push_encoding;
use crate::glyphs::{end_place, push_glyphs};
use crate::heads::section_heads;
use crate::line::{Line, numbered_lines, past};
use crate::merging::push_merged;
use crate::names::glyph_names;
use crate::note::Note;
use crate::opening::push_opening;
use crate::sections::{Section, section_place};
use crate::subrs::push_subrs;
use indexmap::IndexSet;
use std::alloc::{AllocError, Global};

/// Adds the notes on the lines of a text with glyphs of these names, by the lines before them, the
/// line of their section, its lines to the one that ends the glyphs, and those from there on.
fn push_parts(
    alloc: Global,
    notes: &mut Vec<Note>,
    names: &IndexSet<&[u8]>,
    front: &[Line],
    section: &Line,
    heads: &[Line],
    late: &[Line],
) -> Result<(), AllocError>
    ensures { OnOk result (notes.new.items ≡ notes.old.items ++ glyph_parts_notes
        (is_among_names names.now.keys) front.now section.now heads.now late.now) }
{
    let mut slots = Vec::new(alloc);
    push_encoding(&mut slots, front, names)?;
    let mut subrs = Vec::new(alloc);
    push_subrs(alloc, &mut subrs, front)?;
    push_merged(notes, &slots, &subrs)?;
    push_glyphs(notes, names, section, heads, late)
}

/// Adds the notes on the lines of a text with glyphs, by the lines before them, the line of their
/// section, its lines to the one that ends the glyphs, and those from there on.
fn push_ended(
    alloc: Global,
    notes: &mut Vec<Note>,
    front: &[Line],
    section: &Line,
    heads: &[Line],
    late: &[Line],
) -> Result<(), AllocError>
    ensures { OnOk result (notes.new.items ≡ notes.old.items ++ glyph_parts_notes
        (has_line_of_glyph heads.now) front.now section.now heads.now late.now) }
{
    let names = glyph_names(alloc, heads)?;
    push_parts(alloc, notes, &names, front, section, heads, late)
}

/// Adds the notes on the lines of a text with glyphs, by the lines before them, the line of their
/// section, and its lines that stand inside no glyph.
fn push_section(
    alloc: Global,
    notes: &mut Vec<Note>,
    front: &[Line],
    section: &Line,
    heads: &[Line],
) -> Result<(), AllocError>
    ensures { OnOk result (notes.new.items ≡ notes.old.items ++ section_notes front.now section.now
        heads.now) }
{
    let (before, late) = heads.split_at(end_place(heads));
    push_ended(alloc, notes, front, section, before, late)
}

/// Adds the notes on the lines of a text with glyphs, by the lines before them, the line of their
/// section, and those after it.
fn push_later(
    alloc: Global,
    notes: &mut Vec<Note>,
    front: &[Line],
    section: &Line,
    later: &[Line],
) -> Result<(), AllocError>
    ensures { OnOk result (notes.new.items ≡ notes.old.items ++ section_notes front.now section.now
        (heads Glyphs later.now)) }
{
    let heads = section_heads(alloc, Section::Glyphs, later)?;
    push_section(alloc, notes, front, section, &heads)
}

/// Adds the notes on the lines of a text.
fn push_lines(alloc: Global, notes: &mut Vec<Note>, lines: &[Line]) -> Result<(), AllocError>
    ensures { OnOk result (notes.new.items ≡ notes.old.items ++ line_notes lines.now) }
{
    let (front, from) = lines.split_at(section_place(Section::Glyphs, lines));
    match from.split_first() {
        Some((section, later)) => push_later(alloc, notes, front, section, later),
        None => Ok(()),
    }
}

/// Adds the notes on the bodies of a section.
fn push_section_words(
    notes: &mut Vec<Note>,
    section: Section,
    lines: &[Line],
) -> Result<(), AllocError>
    ensures { OnOk result
        (notes.new.items
        ≡ notes.old.items ++ body_notes (lines_past (is_line_of_section section) lines.now)) }
{
    push_bodies(notes, past(lines, section_place(section, lines)))
}

/// Adds the notes on the bodies of both sections.
fn push_words(notes: &mut Vec<Note>, lines: &[Line]) -> Result<(), AllocError>
    ensures { OnOk result (notes.new.items ≡ notes.old.items ++ word_notes lines.now) }
{
    let front = lines.split_at(section_place(Section::Glyphs, lines)).0;
    push_section_words(notes, Section::Subrs, front)?;
    push_section_words(notes, Section::Glyphs, lines)
}

/// The notes on a text, in the order of their places. The text need not be one that can be read.
#[tactic(auto, unfolding(crate::specs::Notes::notes_of))]
pub fn notes_of(alloc: Global, text: &[u8]) -> Result<Vec<Note>, AllocError>
    ensures { IfOk result (λ notes. notes.items ≡ notes_of text.now) }
{
    let lines = numbered_lines(alloc, text)?;
    let mut on_lines = Vec::new(alloc);
    push_opening(&mut on_lines, text)?;
    push_lines(alloc, &mut on_lines, &lines)?;
    let mut on_words = Vec::new(alloc);
    push_words(&mut on_words, &lines)?;
    let mut notes = Vec::new(alloc);
    push_merged(&mut notes, &on_lines, &on_words)?;
    Ok(notes)
}
