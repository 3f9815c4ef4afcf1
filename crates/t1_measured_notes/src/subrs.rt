//! Subrs that no glyph enters.

ghost use Rattle.std.specs.Prelude.{◌≡◌, ◌++◌, OnOk};
ghost use Rattle.t1_notes.specs.declared.note.NoteKind.TheVariants.{UnusedSubr};
ghost use Rattle.t1_notes.specs.BodyWords.{note_where};
ghost use Rattle.t1_notes.specs.NumberedLines.{note_on};
ghost use Rattle.t1_measured_notes.specs.MeasuredNotes.{is_unused, unused_among};
ghost use Rattle.t1_run.specs.RunKeys.{has_number};
ghost use Rattle.t1_measured_notes.specs.MeasuredNotes.{unused_notes};

use crate::entered::is_among;
use indexmap::IndexSet;
use std::alloc::{AllocError, Global};
use t1_notes::{Line, Note, NoteKind, Section, past, section_heads, section_place, subr_need};

/// Whether a line opens a Subr, past those for flex and hint replacement, whose number isn't among
/// these.
fn is_unused(entered: &IndexSet<u64>, line: &[u8]) -> bool
    ensures { result ≡ is_unused (has_number entered.now.keys) line.now }
{
    let need = subr_need(line);
    5 < need && !is_among(entered, need - 1)
}

/// Adds the note on a line, where it opens such a Subr and follows no other.
fn push_head(notes: &mut Vec<Note>, holds: bool, line: &Line) -> Result<(), AllocError>
    ensures { OnOk result (notes.new.items ≡ notes.old.items ++ note_where holds (note_on UnusedSubr
        line.now)) }
{
    if holds {
        notes.push(line.note(NoteKind::UnusedSubr))?;
    }
    Ok(())
}

/// Adds the notes on the first of those lines that follow one another and open a Subr whose number
/// isn't among these.
fn push_heads(
    notes: &mut Vec<Note>,
    entered: &IndexSet<u64>,
    heads: &[Line],
) -> Result<(), AllocError>
    ensures { OnOk result (notes.new.items ≡ notes.old.items ++ unused_among (has_number
        entered.now.keys) heads.now) }
{
    let mut follows = false;
    for line in heads {
        let unused = is_unused(entered, line.bytes());
        push_head(notes, unused && !follows, line)?;
        follows = unused;
    }
    Ok(())
}

/// Adds the notes on the Subrs of some lines whose numbers aren't among these.
pub(crate) fn push_unused(
    alloc: Global,
    notes: &mut Vec<Note>,
    entered: &IndexSet<u64>,
    lines: &[Line],
) -> Result<(), AllocError>
    ensures { OnOk result (notes.new.items ≡ notes.old.items ++ unused_notes (has_number
        entered.now.keys) lines.now) }
{
    let later = past(lines, section_place(Section::Subrs, lines));
    let heads = section_heads(alloc, Section::Subrs, later)?;
    push_heads(notes, entered, &heads)
}
