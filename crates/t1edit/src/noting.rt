//! The notes on sources and on a kerning file.
ghost use Rattle.std.specs.Prelude.{◌≡◌, ◌++◌, IfOk};
ghost use Rattle.t1_notes.specs.NoteTexts.{notes_text};
ghost use Rattle.t1edit.specs.Noting.{has_notes, notes_on};

use crate::reporting::{Report, Told};
use std::alloc::{AllocError, Global};
use t1_measured_notes::all_notes;
use t1_notes::{Note, notes_text, pair_notes};

/// The notes on sources, and on one kerning file beside each.
#[derive(Clone, Copy)]
pub struct Notes<'a> {
    /// The name of the kerning file.
    pub kern: &'a str,
    /// The bytes of the kerning file; none where there is none.
    pub pairs: &'a [u8],
}

/// The lines of the notes on a source, and after them those of the notes on the kerning file.
fn lines_of_notes(
    alloc: Global,
    path: &str,
    notes: &[Note],
    kern: &str,
    of_pairs: &[Note],
) -> Result<Vec<u8>, AllocError>
    ensures { IfOk result (λ text. text.items ≡ notes_text path.now notes.now ++ notes_text kern.now
        of_pairs.now) }
{
    let mut text = notes_text(alloc, path.as_bytes(), notes)?;
    let pair_lines = notes_text(alloc, kern.as_bytes(), of_pairs)?;
    text.extend_from_slice(&pair_lines)?;
    Ok(text)
}

/// The notes on the source of a file of this name, and on the kerning file, a line each.
fn notes_on(
    alloc: Global,
    report: &Notes<'_>,
    path: &str,
    source: &[u8],
) -> Result<Told, AllocError>
    ensures text { IfOk result (λ told. told.text.items ≡ notes_on report.now.kern.now
        report.now.pairs.now path.now source.now) }
    ensures finds { IfOk result
        (λ told. told.has_found ≡ has_notes report.now.pairs.now source.now) }
{
    let notes = all_notes(alloc, source)?;
    let of_pairs = pair_notes(alloc, source, report.pairs)?;
    let text = lines_of_notes(alloc, path, &notes, report.kern, &of_pairs)?;
    let has_found = !notes.is_empty() || !of_pairs.is_empty();
    Ok(Told { text, has_found })
}

impl Report for Notes<'_> {
    ghost says = { λ notes. notes_on notes.kern.now notes.pairs.now };

    ghost finds = { λ notes. has_notes notes.pairs.now };

    fn told(&self, alloc: Global, path: &str, source: &[u8]) -> Result<Told, AllocError> {
        notes_on(alloc, self, path, source)
    }
}
