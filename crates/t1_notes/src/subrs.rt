//! The section of the Subrs.

ghost use Rattle.std.specs.Prelude.{◌≡◌, ◌++◌, OnOk};
ghost use Rattle.t1_notes.specs.Notes.{is_plain_entry, plain_notes, section_entry, lost_notes};
ghost use Rattle.t1_notes.specs.Notes.{subrs_from, subr_notes};

use crate::bodies::push_where;
use crate::counts::{push_count, subrs_need};
use crate::heads::{goes_on, has_open, section_heads};
use crate::line::Line;
use crate::note::{Note, NoteKind};
use crate::sections::{Section, opens, section_place};
use std::alloc::{AllocError, Global};
use t1_text::{first_is, last_is};

/// Whether a line looks like an entry, and opens none.
fn is_plain_entry(line: &[u8]) -> bool
    ensures { result ≡ is_plain_entry line.now }
{
    !opens(Section::Subrs, line) && (first_is(b"dup", line) || has_open(line))
}

/// Adds the notes on lines that look like entries.
fn push_plain(notes: &mut Vec<Note>, heads: &[Line]) -> Result<(), AllocError>
    ensures { OnOk result (notes.new.items ≡ notes.old.items ++ plain_notes heads.now) }
{
    for line in heads {
        if is_plain_entry(line.bytes()) {
            notes.push(line.note(NoteKind::PlainEntry))?;
        }
    }
    Ok(())
}

/// Adds the note on the line of the section, where an entry begins at its end.
fn push_section_entry(notes: &mut Vec<Note>, section: &Line) -> Result<(), AllocError>
    ensures { OnOk result (notes.new.items ≡ notes.old.items ++ section_entry section.now) }
{
    let note = section.note(NoteKind::PlainEntry);
    push_where(notes, last_is(b"{", section.bytes()), note)
}

/// Adds the notes on lines that open a Subr which goes on, where no section has them.
fn push_lost(notes: &mut Vec<Note>, lines: &[Line]) -> Result<(), AllocError>
    ensures { OnOk result (notes.new.items ≡ notes.old.items ++ lost_notes lines.now) }
{
    for line in lines {
        if goes_on(Section::Subrs, line.bytes()) {
            notes.push(line.note(NoteKind::PlainEntry))?;
        }
    }
    Ok(())
}

/// Adds the notes on the lines before the section of the Subrs and on those from its line on,
/// without which the first are all.
fn push_from(
    alloc: Global,
    notes: &mut Vec<Note>,
    early: &[Line],
    from: &[Line],
) -> Result<(), AllocError>
    ensures { OnOk result (notes.new.items ≡ notes.old.items ++ subrs_from early.now from.now) }
{
    let Some((section, later)) = from.split_first() else {
        return push_lost(notes, early);
    };
    let heads = section_heads(alloc, Section::Subrs, later)?;
    push_section_entry(notes, section)?;
    push_count(notes, Section::Subrs, section, subrs_need(&heads))?;
    push_plain(notes, &heads)
}

/// Adds the notes on the Subrs of the lines before the glyphs.
pub fn push_subrs(alloc: Global, notes: &mut Vec<Note>, lines: &[Line]) -> Result<(), AllocError>
    ensures { OnOk result (notes.new.items ≡ notes.old.items ++ subr_notes lines.now) }
{
    let (early, from) = lines.split_at(section_place(Section::Subrs, lines));
    push_from(alloc, notes, early, from)
}
