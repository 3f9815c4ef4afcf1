//! Where a run fails: the word, and the calls of Subrs on the way to it.
//!
//! [`failure_of`] follows the run of a glyph's own body word by word, up to its fault, and answers
//! a [`Failure`]: which word of which body is refused, by which [`Call`]s of Subrs it was reached,
//! and what the fault says beside its code ([`Detail`]). It takes more time and memory than the
//! run, and is for runs that have failed. [`laws`] has what a failure has to do with the run.
//!
//! What is proved: `failure_of`: where and why the run of a glyph's own body fails (`failure_in`).
//! `laws`: a run has a failure exactly where it has a fault, with its code (`failures_are_faults`);
//! the calls lead to the word (`calls_lead_there`).
#![tactic(auto)]

mod detail;
mod ending;
mod failure;
mod following;
pub mod laws;
mod noted;
mod quotient;
mod step;

pub use failure::{Call, Detail, Failure};
pub use following::failure_of;
