#![tactic(auto)]
//! The outline of a glyph with its parts, as text.
//!
//! [`glyph_outline`] runs a glyph and its parts by their stored bodies, and gives the text of the
//! outline; [`outline_text`] is the text of any outline. [`laws`] say that this is what the source
//! shows whose bodies are stored, where it has no fault.
//!
//! Contracts see the list of an outline's segments, and its text as the list of their lines; the
//! outline of `t1_run`, or its first fault, at the glyph; and a meter's count, with one run for
//! each glyph that is run.
//!
//! All of it is for the crates above.
//!
//! What is proved, beside what the comment at each call says:
//!
//! - `glyph_outline`: the text of the outline with its parts, exact, or its first fault, at the
//!   glyph; nothing where there is no such glyph; one run for each glyph that is run
//!   (`outline_runs`). `outline_text`: the text of any outline.
//! - `laws`: over the bodies of a source without a fault this is what the source shows from scratch
//!   (`StoredOutlineLaw`); a glyph of it is shown without a fault (`GlyphShownLaw`), another name
//!   isn't (`OtherShownLaw`).

pub mod laws;
mod outlining;
mod showing;
mod text;

pub use showing::glyph_outline;
pub use text::outline_text;
