#![tactic(auto)]
//! The records of a font, from scratch and after an edit that is judged by the glyphs that it makes
//! stale.
//!
//! [`opened_records`] gives the records of a source, or its first fault, [`measured_records`] the
//! metrics of the font by them, and [`recorded_metrics`] what its AFM file says.
//!
//! [`prepare_changes`] and [`settle_ready`] bring them to those of an edited source in two steps,
//! for the entries that its edits name: the glyphs that these make stale are run, each once, and
//! measured by their newest runs ([`rerun`]), over the bodies of the records under the changes
//! ([`EditedBodies`]); [`make_ready`] makes all that the change of the records takes; and
//! [`settle`] changes them, which takes no memory. There is no pass over the font: the order of the
//! glyphs is asked for ([`GlyphOrder`] of the edited source) only where one has a fault. The entry
//! that one edit names [`change_of_edit`] gives, and [`change_alone`] the list of it.
//!
//! All of it is for the crates above.
//!
//! What is proved: `opened_records`, the records of a source from scratch. `prepare_changes` judges
//! the edited source by the records' bodies under the changes (`edited_bodies`), runs the stale
//! glyphs alone, each once (`rerun`, `counted`), and makes all allocations; it answers the first
//! fault, and what contracts see of the records stays (`same`). `settle_ready` makes the change,
//! takes no memory and can't fail: the records are right for the edited source (`right`), and those
//! that aren't stale keep the numbers of their runs (`renews`). `measured_records`,
//! `recorded_metrics`: the metrics by right records, and what the file says by them, are those from
//! scratch.

mod changing;
mod coded;
mod edit_change;
mod entry_change;
mod judging;
mod measured;
mod newest;
mod opening;
mod order;
mod recorded;
mod reruns;
mod settling;

pub use changing::{EditedBodies, Renewal, edited_bodies, make_ready, prepare_changes, rerun};
pub use edit_change::{change_alone, change_of_edit};
pub use entry_change::EntryChange;
pub use measured::measured_records;
pub use newest::Newest;
pub use opening::opened_records;
pub use order::GlyphOrder;
pub use recorded::recorded_metrics;
pub use settling::{Ready, settle, settle_ready};
