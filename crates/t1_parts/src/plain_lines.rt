//! Plain lines that follow one another, as the bytes that were read.

ghost use Rattle.std.specs.Prelude.{◌≡◌, ◌<◌, ◌≤◌, ◌+◌, ◌-◌, ◌∷◌, ◌++◌, ℕ, List, false, length};
ghost use Rattle.std.specs.Prelude.{take, drop};
ghost use Rattle.std.specs.List.{slice_index_or};
ghost use Rattle.t1_text.specs.Lines.{lines};
ghost use Rattle.t1_parts.specs.Stretches.{IsCutAfter, lines_say};

use std::marker::Model;
use t1_text::first_line;

/// One or more whole lines as they were read, with their ends, and how many they are. None of them
/// says lenIV. Contracts see the list of the lines.
#[derive(Drop)]
pub(crate) struct PlainLines<'a> {
    bytes: &'a [u8],
    count: usize,
}

impl<'a> Model for PlainLines<'a> {
    ghost use Rattle.std.specs.Prelude.{◌≡◌, ◌<◌, List, ℕ, false, length};
    ghost use Rattle.t1_text.specs.Lines.{lines};

    ghost Value = { List (List ℕ) };

    ghost use Rattle.t1_parts.specs.Stretches.{lines_say};

    ghost view = { λ plain. lines plain.bytes.now };

    ghost invariant = { λ plain.
        (0 < length plain.bytes.now)
        × (plain.count ≡ length (lines plain.bytes.now))
        × (lines_say (lines plain.bytes.now) ≡ false) };
}

/// The first line of some bytes, and the bytes after its end. An empty line is told by its first
/// byte.
pub(crate) fn next_line(bytes: &[u8]) -> (&[u8], &[u8])
    requires { 0 < length bytes.now }
    ensures lines { lines bytes.now ≡ result.0.now ∷ lines result.1.now }
    ensures shorter { length result.1.now < length bytes.now }
    ensures cut { (j : ℕ)
        → lines (take (length bytes.now - length result.1.now + j) bytes.now)
        ≡ result.0.now ∷ lines (take j result.1.now) }
{
    if let Some((first, after)) = bytes.split_first() {
        if *first == b'\n' {
            return (b"", after);
        }
    }
    first_line(bytes)
}

/// The bytes after so many lines.
fn after_lines(bytes: &[u8], count: usize) -> &[u8]
    requires { count ≤ length (lines bytes.now) }
    ensures { IsCutAfter count bytes.now result.now }
{
    let mut rest = bytes;
    for _turn in 0..count {
        let (_line, after) = next_line(rest);
        rest = after;
    }
    rest
}

impl<'a> PlainLines<'a> {
    /// The lines of some bytes, which are so many.
    pub(crate) fn counted(bytes: &'a [u8], count: usize) -> Self
        requires some { 0 < length bytes.now }
        requires count { count ≡ length (lines bytes.now) }
        requires silent { lines_say (lines bytes.now) ≡ false }
        ensures { result ≡ lines bytes.now }
    {
        PlainLines { bytes, count }
    }

    /// How many lines they are.
    pub(crate) fn len(&self) -> usize
        ensures value { result ≡ length self.now }
        ensures some { 0 < result }
        ensures silent { lines_say self.now ≡ false }
    {
        self.count
    }

    /// The bytes of the lines.
    pub(crate) fn as_bytes(&self) -> &'a [u8]
        ensures lines { lines result.now ≡ self.now }
        ensures some { 0 < length result.now }
        ensures silent { lines_say self.now ≡ false }
    {
        self.bytes
    }

    /// The same lines again. It takes no memory.
    pub(crate) fn copied(&self) -> PlainLines<'a>
        ensures { result ≡ self.now }
    {
        PlainLines {
            bytes: self.bytes,
            count: self.count,
        }
    }

    /// The line at a place.
    pub(crate) fn line(&self, at: usize) -> &'a [u8]
        requires { at < length self.now }
        ensures { (d : List ℕ) → slice_index_or self.now at d ≡ result.now }
    {
        let rest = after_lines(self.bytes, at);
        let (line, _after) = next_line(rest);
        line
    }

    /// The lines before a place, and those from it on.
    pub(crate) fn cut(&self, at: usize) -> (PlainLines<'a>, PlainLines<'a>)
        requires some { 0 < at }
        requires within { at < length self.now }
        ensures front { result.0 ≡ take at self.now }
        ensures back { result.1 ≡ drop at self.now }
        ensures silent { lines_say self.now ≡ false }
    {
        let rest = after_lines(self.bytes, at);
        let front = self.bytes.split_at(self.bytes.len() - rest.len()).0;
        (
            PlainLines::counted(front, at),
            PlainLines::counted(rest, self.count - at),
        )
    }
}
