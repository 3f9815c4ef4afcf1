//! Notes as lines of text.

ghost use Rattle.std.specs.Prelude.{◌≡◌, ◌++◌, IfOk, OnOk};
ghost use Rattle.t1_notes.specs.NoteTexts.{kind_name, kind_text, note_place_text, note_text};
ghost use Rattle.t1_notes.specs.NoteTexts.{notes_text};

use crate::note::{Note, NoteKind};
use itoa::Buffer;
use std::alloc::{AllocError, Global};

/// The name of a kind of notes.
fn kind_name(kind: NoteKind) -> &'static [u8]
    ensures { result.now ≡ kind_name kind }
{
    match kind {
        NoteKind::ByteOrderMark => b"byte-order-mark",
        NoteKind::FirstLine => b"first-line",
        NoteKind::EncodedName => b"encoded-name",
        NoteKind::Count => b"count",
        NoteKind::PlainEntry => b"plain-entry",
        NoteKind::NoNotdef => b"no-notdef",
        NoteKind::NoEntry => b"no-entry",
        NoteKind::AfterEnd => b"after-end",
        NoteKind::ValuesLeft => b"values-left",
        NoteKind::WideCoordinate => b"wide-coordinate",
        NoteKind::NegativeWidth => b"negative-width",
        NoteKind::OpenPath => b"open-path",
        NoteKind::NoSuchGlyph => b"no-such-glyph",
        NoteKind::UnusedSubr => b"unused-subr",
        NoteKind::FontBox => b"font-box",
        NoteKind::WideGlyph => b"wide-glyph",
    }
}

/// What a kind of notes says, in a few words.
fn kind_text(kind: NoteKind) -> &'static [u8]
    ensures { result.now ≡ kind_text kind }
{
    match kind {
        NoteKind::ByteOrderMark => b"a byte order mark, at which programs refuse the font",
        NoteKind::FirstLine => b"the text begins with neither %!PS-AdobeFont nor %!FontType1",
        NoteKind::EncodedName => b"the encoding names a glyph that isn't there",
        NoteKind::Count => b"the count is higher than the entries need",
        NoteKind::PlainEntry => b"a line that looks like an entry and opens none",
        NoteKind::NoNotdef => b"no glyph is called .notdef",
        NoteKind::NoEntry =>
            b"a line that belongs to no glyph; a glyph begins with /NAME { on one line",
        NoteKind::AfterEnd => b"a glyph after the end of the glyphs, where no program looks for it",
        NoteKind::ValuesLeft => b"a command has more values in front of it than it takes",
        NoteKind::WideCoordinate =>
            b"a command has a value past 16000, which old interpreters may not take",
        NoteKind::NegativeWidth => b"the width is below 0",
        NoteKind::OpenPath => b"a path isn't closed before a move or the end of the glyph",
        NoteKind::NoSuchGlyph => b"a pair names a glyph that isn't there",
        NoteKind::UnusedSubr => b"no glyph's run enters the Subr",
        NoteKind::FontBox => b"FontBBox isn't the box around the glyphs",
        NoteKind::WideGlyph => b"the glyph reaches past 16000, which old interpreters may not take",
    }
}

/// Adds where a note on a file of this name stands, `FILE:LINE:COLUMN`.
fn push_place(text: &mut Vec<u8>, file: &[u8], note: &Note) -> Result<(), AllocError>
    ensures { OnOk result (text.new.items ≡ text.old.items ++ note_place_text file.now note.now) }
{
    let mut line = Buffer::new();
    let mut column = Buffer::new();
    text.extend_from_slice(file)?;
    text.extend_from_slice(b":")?;
    text.extend_from_slice(line.format(note.line).as_bytes())?;
    text.extend_from_slice(b":")?;
    text.extend_from_slice(column.format(note.column).as_bytes())?;
    Ok(())
}

/// Adds a note on a file of this name as a line, `FILE:LINE:COLUMN: note NAME: TEXT`.
fn push_note(text: &mut Vec<u8>, file: &[u8], note: &Note) -> Result<(), AllocError>
    ensures { OnOk result (text.new.items ≡ text.old.items ++ note_text file.now note.now) }
{
    push_place(text, file, note)?;
    text.extend_from_slice(b": note ")?;
    text.extend_from_slice(kind_name(note.kind))?;
    text.extend_from_slice(b": ")?;
    text.extend_from_slice(kind_text(note.kind))?;
    text.extend_from_slice(b"\n")?;
    Ok(())
}

/// Notes on a file of this name, a line each.
pub fn notes_text(alloc: Global, file: &[u8], notes: &[Note]) -> Result<Vec<u8>, AllocError>
    ensures { IfOk result (λ text. text.items ≡ notes_text file.now notes.now) }
{
    let mut text = Vec::new(alloc);
    for note in notes {
        push_note(&mut text, file, note)?;
    }
    Ok(text)
}
