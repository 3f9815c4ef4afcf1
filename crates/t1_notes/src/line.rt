//! The lines of a text, each with its number.

ghost use Rattle.std.specs.Prelude.{◌≡◌, ◌≤◌, drop, length, IfOk};
ghost use Rattle.t1_text.specs.Lines.{lines};
ghost use Rattle.t1_notes.specs.NumberedLines.{numbered, note_on};

use crate::note::{Note, NoteKind};
use std::alloc::{AllocError, Global};
use t1_frac::{SourceText, blank_len};
use t1_text::first_line;

/// A line, where it stands in its text, and its number, counted from 1.
#[derive(Drop)]
pub struct Line<'a> {
    pub number: u64,
    pub text: SourceText<'a>,
}

impl<'a> Line<'a> {
    /// The bytes of the line.
    pub fn bytes(&self) -> &[u8]
        ensures { result.now ≡ self.now.text }
    {
        self.text.as_slice()
    }

    /// A copy. It takes no memory where the line stands in its text.
    pub fn copied(&self, alloc: Global) -> Result<Line<'a>, AllocError>
        ensures { IfOk result (λ copy. copy ≡ self.now) }
    {
        let text = self.text.copied(alloc)?;
        Ok(Line {
            number: self.number,
            text,
        })
    }

    /// A note of this kind on the first byte of the line that isn't blank.
    pub fn note(&self, kind: NoteKind) -> Note
        ensures { result ≡ note_on kind self.now }
    {
        let column = blank_len(self.bytes()) as u64 + 1;
        Note {
            kind,
            line: self.number,
            column,
        }
    }
}

/// The lines of a text.
pub fn numbered_lines(alloc: Global, text: &[u8]) -> Result<Vec<Line<'_>>, AllocError>
    ensures { IfOk result (λ found. found.items ≡ numbered 1 (lines text.now)) }
{
    let mut found = Vec::new(alloc);
    let mut number: u64 = 1;
    let mut rest = text;
    while !rest.is_empty() {
        let (line, after) = first_line(rest);
        let text = SourceText::borrowed(line);
        found.push(Line { number, text })?;
        number += 1;
        rest = after;
    }
    Ok(found)
}

/// The lines after the one at a place.
pub fn past<'l, 'a>(lines: &'l [Line<'a>], at: usize) -> &'l [Line<'a>]
    requires { at ≤ length lines.now }
    ensures { result.now ≡ drop 1 (drop at lines.now) }
{
    let from = lines.split_at(at).1;
    match from.split_first() {
        Some((_, later)) => later,
        None => from,
    }
}
