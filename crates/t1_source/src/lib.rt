#![tactic(auto)]
//! The readable source of a Type 1 font: read, printed and edited, and its kerning pairs edited
//! with it.
//!
//! [`read_source`] gives the [`Source`] of some bytes, or the first fault with its line.
//! [`Source::prepared`] gives the [`Change`] that an [`Edit`] makes of the source and its pairs, or
//! the first [`Rule`] that it breaks, and [`Source::commit`] puts it in place; [`Source::edited`]
//! does both on copies.
//!
//! For users: [`read_source`]; a [`Source`], its text and its parts, with [`Item`];
//! [`Source::edited`], with [`Edit`], [`Rule`] and [`Cause`]. For the crates above:
//! [`Source::prepared`], [`Source::prepared_near`] with [`Hint`], [`Source::commit`] and
//! [`Change`], [`EditedSource`] with [`EditedItems`], [`Source::names_by_code`], and
//! [`body_words`]. The pairs that an edit takes are those of `t1_pairs`.
//!
//! What is proved, beside what the comment at each call says:
//!
//! - `read_source`: the source of the bytes, or the first fault with its line (`reads`). The
//!   definition is over lines; the code cuts the parts (`IsCut`) and the bodies (`IsPiece`) from
//!   the bytes.
//! - `Source::text`, `header`, `code_of`, `lead`, `operator`, `standard`, `names_by_code`: the
//!   values of the definitions of these names (`name_of_code` for the last).
//! - `Source::prepared`, `prepared_near`, `commit`: an edit in two steps. `prepared` gives what the
//!   edit changes, or the first rule that it breaks (`edited`), and changes nothing;
//!   `prepared_near` gives the same, by a hint: whatever place that tells to look near; that a
//!   glyph is new is asked of it (`IsTrueOfEdit`), and `hint_of` of `t1_held` answers it. `commit`
//!   makes the change in place; it can run out of memory only if an item or a pair is put in, and
//!   then nothing has changed. `Source::edited` is both on copies.
//! - `EditedItems`: the items after a change, before counts are raised (`items_after`), while they
//!   stand in the source that is edited; their lenIV, their operator, and what they ask of counts.
//! - `EditedSource`: of a source and a change that was prepared for it, the parts are those of the
//!   source that the change makes (`made_of`), without a change those of the source.
//! - `laws`: every source that was read is well formed (`IsWellFormed`), every edit keeps it so,
//!   and it reads back from its text if its counts have at most nine digits
//!   (`printed_source_read`). No Subr stands after a glyph (`subrs_stand_first`). A set lenIV is
//!   said (`edited_lead_is_said`).

mod codes;
mod edit;
mod editing;
pub mod laws;
mod source;

pub use edit::{Cause, Edit, Rule};
pub use editing::{Change, EditedItems, EditedSource, Hint, body_words};
pub use source::{Source, read_source};
pub use t1_parts::Item;
