//! What is told of a source that is refused.
//!
//! [`refusal_text`] gives the text of the first fault of a source, as a session shows it: its code
//! and place, the word that has it, and the Subrs that the run had entered. Where the fault is
//! known and the bodies are there, [`run_fault_text`] gives the same at the cost of the run that
//! fails, and [`body_fault_text`] where a body has a fault. [`glyph_named`], [`subr_of`] and
//! [`entry_words`] find the entries of a source.
//!
//! All of it is for `t1_session`.
//!
//! What is proved: `refusal_text`: what a session tells of a refused source: its first fault, the
//! word at fault, and the way of the run.
#![tactic(auto)]

mod entries;
mod met;
mod telling;
mod way;
mod word;

pub use entries::{entry_words, glyph_named, subr_of};
pub use telling::{body_fault_text, refusal_text, run_fault_text};
