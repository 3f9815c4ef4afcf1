//! Notes that stand on runs of a font's glyphs: a Subr that no run enters, a box that isn't that of
//! the glyphs, and a glyph that reaches past ±16,000.
//!
//! [`measured_notes`] finds them in a source without a fault; [`all_notes`] has those of `t1_notes`
//! too. Both are for the program. [`laws`] says what the notes mean.
#![tactic(auto)]

mod boxes;
mod entered;
pub mod laws;
mod measured;
mod subrs;
mod wide;

pub use measured::{all_notes, measured_notes};
