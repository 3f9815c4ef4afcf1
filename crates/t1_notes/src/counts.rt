//! What section lines say of their entries.

ghost use Rattle.std.specs.Prelude.{◌≡◌, ◌++◌, OnOk};
ghost use Rattle.t1_notes.specs.Notes.{subr_need, subrs_need, glyphs_need, count_notes};

use crate::line::Line;
use crate::note::{Note, NoteKind};
use crate::sections::{Section, opens, section_count};
use std::alloc::AllocError;
use t1_parts::opens_subr;
use t1_text::{count_of, decimal_up_to};

/// The number of the Subr that a line opens plus one; 0 where it opens none.
pub fn subr_need(line: &[u8]) -> u64
    ensures { result ≡ subr_need line.now }
{
    let Some(token) = opens_subr(line) else {
        return 0;
    };
    match decimal_up_to(32000, token) {
        Some(number) => u64::from(number) + 1,
        None => 0,
    }
}

/// The highest number of a Subr plus one.
pub fn subrs_need(heads: &[Line]) -> u64
    ensures { result ≡ subrs_need heads.now }
{
    let mut need = 0;
    for line in heads {
        need = subr_need(line.bytes()).max(need);
    }
    need
}

/// How many glyphs there are.
pub fn glyphs_need(heads: &[Line]) -> u64
    ensures { result ≡ glyphs_need heads.now }
{
    let mut need = 0;
    for line in heads {
        if opens(Section::Glyphs, line.bytes()) {
            need += 1;
        }
    }
    need
}

/// Adds the note on a section line that promises more entries than are needed.
pub fn push_count(
    notes: &mut Vec<Note>,
    section: Section,
    line: &Line,
    need: u64,
) -> Result<(), AllocError>
    ensures { OnOk result (notes.new.items ≡ notes.old.items ++ count_notes section line.now need) }
{
    let Some((place, digits)) = section_count(section, line.bytes()) else {
        return Ok(());
    };
    if count_of(digits) <= need {
        return Ok(());
    }
    notes.push(Note {
        kind: NoteKind::Count,
        line: line.number,
        column: place as u64 + 1,
    })?;
    Ok(())
}
