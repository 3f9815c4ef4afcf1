//! Where and why a run fails.

use t1_frac::{Bytes, Code, Frac};

/// A call of a Subr on the way of a run to its fault.
#[derive(Clone, Copy)]
pub struct Call {
    /// Which word of the calling body its callsubr is, from 0.
    pub word: usize,
    /// The number of the Subr that it enters.
    pub subr: u16,
}

/// What a fault says beside its code.
#[derive(Drop)]
pub enum Detail {
    Nothing,
    /// The value that is refused: of F32 the number of the Subr, of F37 the operand, of F42 the
    /// number of the othersubr, of F44 the code without a name.
    Number(Frac),
    /// The quotient that is refused, of F37 at a div: its numerator and denominator in lowest
    /// terms, which are past the limits of a value.
    Quotient(i128, u128),
    /// The glyph that the font lacks, of F45.
    Glyph(Bytes),
    /// How many values there are, and how many are wanted, of F30.
    Values(usize, usize),
    /// How many points the open flex has recorded, of F41 where a flex is open.
    Points(usize),
    /// The line of the first entry with this number or name, of F9 and F10; no run has it.
    Line(u64),
}

/// Where and why a run fails.
#[derive(Drop)]
pub struct Failure {
    pub code: Code,
    /// The calls of Subrs on the way, from the glyph's own body on.
    pub calls: Vec<Call>,
    /// Which word of the last body entered, from 0; the number of its words where the glyph's own
    /// body ends too soon.
    pub word: usize,
    pub detail: Detail,
}
