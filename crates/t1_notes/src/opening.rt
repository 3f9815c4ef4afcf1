//! How a text begins.

ghost use Rattle.std.specs.Prelude.{◌≡◌, ◌++◌, OnOk};
ghost use Rattle.t1_notes.specs.Notes.{is_font, opening_kind, opening_notes};

use crate::note::{Note, NoteKind};
use std::alloc::AllocError;

/// Whether a text begins as programs know a Type 1 font.
fn is_font(text: &[u8]) -> bool
    ensures { result ≡ is_font text.now }
{
    text.starts_with(b"%!PS-AdobeFont") || text.starts_with(b"%!FontType1")
}

/// What is to note of a text that begins otherwise.
fn opening_kind(text: &[u8]) -> NoteKind
    ensures { result ≡ opening_kind text.now }
{
    match text {
        [0xEF, 0xBB, 0xBF, ..] => NoteKind::ByteOrderMark,
        _ => NoteKind::FirstLine,
    }
}

/// Adds the note on how a text begins, where there is one.
pub fn push_opening(notes: &mut Vec<Note>, text: &[u8]) -> Result<(), AllocError>
    ensures { OnOk result (notes.new.items ≡ notes.old.items ++ opening_notes text.now) }
{
    if is_font(text) {
        return Ok(());
    }
    notes.push(Note {
        kind: opening_kind(text),
        line: 1,
        column: 1,
    })?;
    Ok(())
}
