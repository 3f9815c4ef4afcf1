#![tactic(auto)]
//! A whole font: its bodies compiled, its glyphs run once each and measured, its PFB and AFM files
//! written.
//!
//! [`compiled`] gives the bodies of a private part, or the first fault of one; [`checked_bodies`]
//! also judges the length of the PFB file, as [`check_parts`] does by the length of the private
//! text, and the counts ([`check_counts`]). [`entry_line_len`] and [`section_line_len`] are the
//! lengths of two kinds of lines of that text. [`measured_glyphs`] compiles, runs and measures the
//! glyphs one after another, and [`metrics`] is what the AFM file of a source and its pairs says.
//! [`runs_of`] and [`glyph_metrics_of`] run and measure glyphs whose bodies are stored.
//! [`write_source_pfb`] and [`write_source_afm`] write the files, whose plain parts are
//! [`clear_text`] and [`trailer`]. [`header`], [`CharsByCode`] and [`afm_text`] are for an AFM file
//! that is made of kept runs.
//!
//! All of it is for the crates above. Users take the same from `t1_session`, whose calls read the
//! source too.
//!
//! What is proved, beside what the comment at each call says:
//!
//! - `compiled`: for each number and each name the first body (`bodies`), or the first fault of
//!   one, at its entry (`bodies_check`). `checked_bodies` judges the file too (`file_check`), by
//!   lengths and counts.
//! - `measured_glyphs`: name, width, parts and box of each glyph in order, and the font's box; or
//!   the first fault: of a body, F23, or of a glyph, at the glyph: of its own run, else of a part,
//!   else of the join (`measured_source`). Each glyph's turn counts one run.
//! - `metrics`: glyphs by their codes and then in the source's order, the pairs whose both glyphs
//!   are there, the composites with the move of their accents (`metrics_of`). `header`: its values
//!   about the whole font. `CharsByCode`: for each code its glyphs, in the order in which they came
//!   (`by_code`). `afm_text`: the file as a text.
//! - `write_source_pfb`, `write_source_pfa`, `write_source_afm`: `Prints` of the source's files.
//!   `usage_text`: `usage_table`.
//! - `runs_of`: the meter's count on every outcome; each kept run is numbered above the count
//!   before the call.
//! - `laws`: a glyph's fault is the first of the outlines (`outlines`). A source without a fault
//!   reads back from its text (`faultless_source_reads_back`). A file is judged over the bodies of
//!   Subrs, then over those of glyphs, then by F23 (`subrs_are_judged_first`).

mod afm_file;
mod assembly;
mod bodies;
mod chars;
mod chars_by_code;
mod codes;
mod compiler;
mod composites;
mod font_metrics;
mod glyph_metrics;
mod glyph_parts;
mod glyphs;
mod glyphs_of_code;
mod in_turn;
mod kern;
pub mod laws;
mod lengths;
mod line_lengths;
mod numbers;
mod owned_key;
mod reported;
mod runs;
mod source_bodies;
mod standard_names;
mod subr_bodies;
mod turns;
mod usage;

pub use afm_file::{afm_text, write_source_afm};
pub use assembly::{clear_text, trailer, write_source_pfa, write_source_pfb};
pub use bodies::compiled;
pub use chars_by_code::CharsByCode;
pub use compiler::{Compiler, WordsCompiler};
pub use font_metrics::{header, metrics};
pub use glyph_metrics::{GlyphMetrics, PlacedParts, glyph_metrics_of, metrics_of_run};
pub use glyph_parts::GlyphParts;
pub use glyphs::{MeasuredGlyphs, glyph_names};
pub use lengths::{TEN_DIGITS, check_counts, check_parts, checked_bodies};
pub use line_lengths::{entry_line_len, section_line_len};
pub use numbers::SubrNumbers;
pub use owned_key::OwnedKey;
pub use runs::{Runs, runs_of};
pub use turns::{measured_glyphs, measured_glyphs_by};
pub use usage::usage_text;
