#![tactic(auto)]
//! Whole fonts: a readable source assembled to its PFB file or measured for its AFM file, and a
//! session that edits and prints one.
//!
//! All of it is for users: [`serve`] answers commands from a reader, a [`Session`] has the same
//! commands as calls, [`assemble_source`], [`assemble_blocks`], [`assemble_pfa`] and
//! [`measure_source`] write the files of a source in one call, and [`check_source`] judges one.
//! They take types of other crates: sources and edits of `t1_source`, pairs of `t1_pairs`, readers
//! and writers as `Counted` of `t1_code`, and faults of `t1_frac`.
//!
//! The metrics of a source from which a glyph is removed:
//!
//! ```
//! let source = read_source(alloc, text)?;
//! let pairs = read_pairs(alloc, b"")?;
//! let mut session = Session::open(alloc, source, pairs)?;
//! let name = Bytes::copied(alloc, name)?;
//! session.apply(Edit::RemoveGlyph(name))?;
//! session.print_afm(out)?;
//! ```
//!
//! What is proved, beside what the comment at each call says:
//!
//! - `assemble_source`, `assemble_blocks`, `assemble_pfa`, `measure_source`: `Delivers` of the file
//!   of the source's bytes. A fault is that of reading, else of the pairs, else the first of a body
//!   at its entry, else F23, else of a glyph. `laws`: a source without a fault has each file; past
//!   reading, an AFM file is refused by `source_check` and by nothing else. `measure_source_by`:
//!   the same file, whatever the compiler knows of the bodies. `check_source`: `verdict`.
//! - `Session`: what each call answers and leaves (`Takes`, `Took`), which runs it makes and which
//!   records it keeps (`Reruns`, `Renews`, `Spends`), and what each print writes. What it holds is
//!   that of its source from scratch at any time (its invariant, `IsHeld`). The batch that is open
//!   is seen as a source and pairs with the keys of the entries that edits named (`Draft`), whether
//!   these are the session's own, what one edit would make of them, or copies (`OpenBatch`,
//!   `open_draft`).
//! - `serve`: `Serves`, by whole lists of commands; what was written by then if reading, writing or
//!   memory failed; nothing if the source or the pairs are refused. `takes_body`: the value of the
//!   definition of this name in `t1_commands`.

mod assembling;
mod checking;
mod dialogue;
mod encoding;
mod entries;
mod error;
pub mod laws;
mod measuring;
mod metrics_line;
mod open_batch;
mod refused;
mod session;

pub use assembling::{assemble_blocks, assemble_pfa, assemble_source};
pub use checking::check_source;
pub use dialogue::{serve, takes_body};
pub use error::ServeError;
pub use measuring::{measure_source, measure_source_by};
pub use session::Session;
