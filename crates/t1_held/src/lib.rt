#![tactic(auto)]
//! What is held of a font under edits: the records of its Subrs and glyphs, their encrypted
//! charstrings, and the length of its private text.
//!
//! [`held_of`] gives what is held of a source, or the source's first fault. Edits go in two steps:
//! [`prepare_edit`] and, for a batch of them, [`prepare_batch`] judge the source that they make,
//! run the glyphs that they make stale, and make all that takes memory; [`settle`] puts it in
//! place, and can't fail. Between the two the source and its pairs are changed. [`held_metrics`]
//! gives the metrics of the glyphs; [`write_held_file`] writes a file.
//!
//! The edits of an open batch gather in a [`Batch`], which is a source of its own until its commit.
//!
//! All of it is for `t1_session`.
//!
//! What is proved, beside what the comment at each call says:
//!
//! - `held_of`, all of it together (`IsHeld`), or the source's first fault. `prepare_edit` and
//!   `prepare_batch` judge what an edit or a batch makes, run the stale glyphs, and make all that
//!   takes memory (`IsReadyHeld`), while what is held stays; unless lenIV was set, only entries
//!   that the edits name are encrypted (`EncryptsAt`). `settle` takes no memory and can't fail;
//!   what is held then is that of the edited source from scratch. `held_metrics`,
//!   `write_held_file`: metrics and files by it.
//! - A batch: `Batch::of`, `edit` (`Drafts`): the source and the pairs after the edits so far, and
//!   the entries that they name; a broken rule, or out of memory, changes nothing. `batch_changes`:
//!   what became of these entries, or the first fault of one (`AreBatchChanges`).

mod batch;
mod files;
mod held;
mod hints;
pub mod laws;
mod preparing;

pub use batch::{AfterEdit, Batch, BatchEdits, EditedEntry, batch_changes};
pub use files::write_held_file;
pub use held::{Held, ReadyHeld, held_metrics, held_of, settle};
pub use hints::hint_of;
pub use preparing::{prepare_batch, prepare_edit};
