//! What a session is asked.

use t1_frac::Bytes;

/// What a query shows.
#[derive(Drop)]
pub enum Show {
    /// The words of the glyph of this name.
    Glyph(Bytes),
    /// The words of the Subr of this number.
    Subr(i64),
    /// The line of the glyph of this name in the AFM file.
    Metrics(Bytes),
    /// The outline of the glyph of this name, with its parts.
    Outline(Bytes),
    /// The names of the codes.
    Encoding,
    /// Where the edit or the commit that was refused last has its fault.
    Refusal,
}
