//! An entry where it stands in the source.

ghost use Rattle.std.specs.Prelude.{◌<◌, ◌+◌, ◌^◌, length};
ghost use Rattle.t1_text.specs.Lines.{lines};

use t1_frac::Place;

/// An entry where it stands in the source.
#[derive(Drop)]
pub struct EntryText<'a> {
    /// Whose entry it is: a Subr's or a glyph's.
    pub place: Place,
    /// The number of its first line, from 1.
    pub number: u64,
    /// Its first line.
    pub line: &'a [u8],
    /// The bytes after its first line.
    pub later: &'a [u8],
    ghost fits: { number + length (lines later.now) < 2 ^ 64 },
}
