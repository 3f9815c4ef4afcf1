//! The slots of an encoding array.

ghost use Rattle.std.specs.Prelude.{◌≡◌, ◌++◌, ◌≤◌, length, OnOk};
ghost use Rattle.std.specs.List.{position_or_len};
ghost use Rattle.t1_parts.specs.Encoding.{ends_array};
ghost use Rattle.t1_notes.specs.Notes.{opens_array, encoding_lines, is_lost};
ghost use Rattle.t1_notes.specs.Notes.{encoding_notes};
ghost use Rattle.t1_notes.specs.Tables.{is_among_names};

use crate::line::{Line, past};
use crate::names::is_among;
use crate::note::{Note, NoteKind};
use indexmap::IndexSet;
use std::alloc::AllocError;
use t1_parts::{count_between, slot_of};
use t1_text::{last_is, same};

/// Whether a line opens an encoding array.
fn opens_array(line: &[u8]) -> bool
    ensures { result ≡ opens_array line.now }
{
    count_between(b"/Encoding", b"array", line).is_some()
}

/// Whether a line ends an encoding array.
fn ends_array(line: &[u8]) -> bool
    ensures { result ≡ ends_array line.now }
{
    last_is(b"def", line)
}

/// How many lines stand before the one that opens an encoding array.
fn array_place(lines: &[Line]) -> usize
    ensures within { result ≤ length lines.now }
    ensures value { result ≡ position_or_len (λ l. opens_array l.text) lines.now }
{
    lines
        .iter()
        .take_while(|line| !opens_array(line.bytes()))
        .count()
}

/// How many lines stand before the one that ends an encoding array.
fn end_place(lines: &[Line]) -> usize
    ensures within { result ≤ length lines.now }
    ensures value { result ≡ position_or_len (λ l. ends_array l.text) lines.now }
{
    lines
        .iter()
        .take_while(|line| !ends_array(line.bytes()))
        .count()
}

/// The lines of the encoding array.
fn array_lines<'l, 'a>(lines: &'l [Line<'a>]) -> &'l [Line<'a>]
    ensures { result.now ≡ encoding_lines lines.now }
{
    let later = past(lines, array_place(lines));
    later.split_at(end_place(later)).0
}

/// Whether a line is a slot whose glyph is neither among these names nor `.notdef`.
fn is_lost(names: &IndexSet<&[u8]>, line: &[u8]) -> bool
    ensures { result ≡ is_lost (is_among_names names.now.keys) line.now }
{
    match slot_of(line) {
        Some((_, glyph)) => !same(glyph, b".notdef") && !is_among(names, glyph),
        None => false,
    }
}

/// Adds the notes on the slots of the encoding array whose glyphs aren't among these names.
pub fn push_encoding(
    notes: &mut Vec<Note>,
    lines: &[Line],
    names: &IndexSet<&[u8]>,
) -> Result<(), AllocError>
    ensures { OnOk result (notes.new.items ≡ notes.old.items ++ encoding_notes (is_among_names
        names.now.keys) lines.now) }
{
    let array = array_lines(lines);
    for line in array {
        if is_lost(names, line.bytes()) {
            notes.push(line.note(NoteKind::EncodedName))?;
        }
    }
    Ok(())
}
