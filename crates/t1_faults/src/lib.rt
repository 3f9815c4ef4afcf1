//! Every fault of a source, each where it stands in its bytes.
//!
//! [`source_faults`] gives the list, of which each [`FoundFault`] has its code, its place, its
//! line and its column, the word that stands there, what it says beside its code
//! (`t1_chain::Detail`), the [`CallChains`] of calls through which runs met it in a Subr, and the
//! [`GlyphNames`] of the composites that stand on the glyphs that it names.
//! [`laws`] says what the list has to do with what `check` reports. Where a source has no fault,
//! the list costs what `check` costs.
//!
//! What is proved: `laws` say of the list of `source_faults`, which `t1edit faults` writes
//! (`faults_on`): it is empty exactly where `check` passes; what `check` reports is in it, or its
//! glyph stands on one that is, or its run met one in a Subr; that glyph is named in it, and so is
//! each one that fails, or a Subr that it misses; each fault stands in the entry of its place, and
//! each word that is told at its line and column, that of a run by its number in the entry; each
//! composite that is told stands on a glyph that the fault names.
#![tactic(auto)]

mod call_chains;
mod composites;
mod entry;
mod entry_text;
mod failed_run;
mod failing;
mod found;
mod glyph_names;
mod glyph_runs;
mod hint;
mod joins;
mod judging;
pub mod laws;
mod met;
mod met_at_words;
mod opening;
mod placed;
mod reading;
mod run_fault;
mod to_run;

pub use call_chains::{CallChain, CallChains};
pub use found::FoundFault;
pub use glyph_names::GlyphNames;
pub use hint::hint_of;
pub use judging::source_faults;
pub use reading::reading_fault;
