//! The notes that stand on runs of the glyphs, and all notes.

ghost use Rattle.std.specs.Prelude.{◌≡◌, ◌++◌, IfOk, OnOk};
ghost use Rattle.t1_frac.specs.Outcome.{◌>>=◌ as and_then};
ghost use Rattle.t1_parts.specs.Reading.{reads};
ghost use Rattle.t1_font.specs.SourceChecks.{measured_source};
ghost use Rattle.t1_notes.specs.LineSections.{is_line_of_section};
ghost use Rattle.t1_notes.specs.NumberedLines.{before};
ghost use Rattle.t1_notes.specs.declared.sections.Section.TheVariants.{Glyphs};
ghost use Rattle.t1_measured_notes.specs.MeasuredNotes.{is_entered, font_notes};
ghost use Rattle.t1_run.specs.RunKeys.{has_number};
ghost use Rattle.t1_measured_notes.specs.MeasuredNotes.{is_wide, wide_notes, sound_notes};
ghost use Rattle.t1_measured_notes.specs.MeasuredNotes.{measured_notes, all_notes};

use crate::boxes::push_boxes;
use crate::entered::entered_numbers;
use crate::subrs::push_unused;
use crate::wide::{push_wide, wide_names};
use indexmap::IndexSet;
use std::alloc::{AllocError, Global};
use t1_afm::BBox;
use t1_font::{MeasuredGlyphs, measured_glyphs};
use t1_frac::Refusal;
use t1_notes::{Line, Note, Section, notes_of, numbered_lines, push_merged, section_place};
use t1_source::{Source, read_source};

/// Adds the notes on the lines before the glyphs, by the box of the glyphs and the Subrs that they
/// enter.
fn push_font(
    alloc: Global,
    notes: &mut Vec<Note>,
    bounds: &BBox,
    entered: &IndexSet<u64>,
    lines: &[Line],
) -> Result<(), AllocError>
    ensures { OnOk result (notes.new.items ≡ notes.old.items ++ font_notes bounds.now (has_number
        entered.now.keys) lines.now) }
{
    let mut boxes = Vec::new(alloc);
    push_boxes(&mut boxes, bounds, lines)?;
    let mut unused = Vec::new(alloc);
    push_unused(alloc, &mut unused, entered, lines)?;
    push_merged(notes, &boxes, &unused)
}

/// Adds the notes on the lines before the glyphs, by what is measured of these.
fn push_measured(
    alloc: Global,
    notes: &mut Vec<Note>,
    font: &MeasuredGlyphs,
    lines: &[Line],
) -> Result<(), AllocError>
    ensures { OnOk result (notes.new.items ≡ notes.old.items ++ font_notes font.now.font_box
        (is_entered font.now.metrics) lines.now) }
{
    let entered = entered_numbers(alloc, font.metrics())?;
    push_font(alloc, notes, &font.font_box(), &entered, lines)
}

/// Adds the notes on the lines that open glyphs, by what is measured of these.
fn push_reach(
    alloc: Global,
    notes: &mut Vec<Note>,
    font: &MeasuredGlyphs,
    lines: &[Line],
) -> Result<(), AllocError>
    ensures { OnOk result (notes.new.items ≡ notes.old.items ++ wide_notes (is_wide
        font.now.metrics) lines.now) }
{
    let names = wide_names(alloc, font.metrics())?;
    push_wide(alloc, notes, &names, lines)
}

/// Adds the notes on the lines of a source, by what is measured of its glyphs.
fn push_sound(
    alloc: Global,
    notes: &mut Vec<Note>,
    font: &MeasuredGlyphs,
    lines: &[Line],
) -> Result<(), AllocError>
    ensures { OnOk result
        (notes.new.items
        ≡ notes.old.items
        ++ (font_notes font.now.font_box (is_entered font.now.metrics)
        (before (is_line_of_section Glyphs) lines.now)
        ++ wide_notes (is_wide font.now.metrics) lines.now)) }
{
    let front = lines.split_at(section_place(Section::Glyphs, lines)).0;
    push_measured(alloc, notes, font, front)?;
    push_reach(alloc, notes, font, lines)
}

/// Adds the notes on the lines of a source that was read, where it has no fault.
fn push_source(
    alloc: Global,
    notes: &mut Vec<Note>,
    source: &Source,
    lines: &[Line],
) -> Result<(), AllocError>
    ensures { OnOk result (notes.new.items ≡ notes.old.items ++ sound_notes lines.now
        (measured_source source.now)) }
{
    match measured_glyphs(alloc, source) {
        Ok(font) => push_sound(alloc, notes, &font, lines),
        Err(Refusal::Fault(_fault)) => Ok(()),
        Err(Refusal::Memory) => Err(AllocError),
    }
}

/// Adds the notes on the lines of a text, where it is a source without a fault.
fn push_text(
    alloc: Global,
    notes: &mut Vec<Note>,
    text: &[u8],
    lines: &[Line],
) -> Result<(), AllocError>
    ensures { OnOk result (notes.new.items ≡ notes.old.items ++ sound_notes lines.now (and_then
        (reads text.now) (λ source. measured_source source))) }
{
    match read_source(alloc, text) {
        Ok(source) => push_source(alloc, notes, &source, lines),
        Err(Refusal::Fault(_fault)) => Ok(()),
        Err(Refusal::Memory) => Err(AllocError),
    }
}

/// The notes on a text that stand on runs of its glyphs, in the order of their places. A text that
/// isn't a source, or has a fault, has none.
#[tactic(auto, unfolding(crate::specs::MeasuredNotes::measured_notes))]
pub fn measured_notes(alloc: Global, text: &[u8]) -> Result<Vec<Note>, AllocError>
    ensures { IfOk result (λ notes. notes.items ≡ measured_notes text.now) }
{
    let lines = numbered_lines(alloc, text)?;
    let mut notes = Vec::new(alloc);
    push_text(alloc, &mut notes, text, &lines)?;
    Ok(notes)
}

/// All notes on a text, in the order of their places. The text need not be one that can be read;
/// those that stand on runs of the glyphs are told of a source without a fault alone.
#[tactic(auto, unfolding(crate::specs::MeasuredNotes::all_notes))]
pub fn all_notes(alloc: Global, text: &[u8]) -> Result<Vec<Note>, AllocError>
    ensures { IfOk result (λ notes. notes.items ≡ all_notes text.now) }
{
    let on_text = notes_of(alloc, text)?;
    let on_font = measured_notes(alloc, text)?;
    let mut notes = Vec::new(alloc);
    push_merged(&mut notes, &on_text, &on_font)?;
    Ok(notes)
}
