//! What is kept of a font's glyphs under edits: which of them an edit makes stale, and their
//! records renewed.
//!
//! [`found`] gives the names of the glyphs that edits make stale, by the users that the records
//! list. [`renew`] and [`renew_by_name`] put new runs and boxes into records, [`put_subr`] and the
//! functions beside it change the record of one Subr or glyph, and [`move_users`] takes glyphs out
//! of the users of Subrs and glyphs and puts others in, in the room that [`make_room`] made, or
//! that [`users_of_subr`] and [`users_of_glyph`] made by the joins that [`count_joins`] counted.
//! [`laws`] say why this is enough: all else is as it would be from scratch.
//!
//! All of it is for the crates above.
//!
//! What is proved: which glyphs edits touch (`found`); records renewed, added and taken out in
//! place; room made among users before any of it (`make_room`); and the laws by which renewed
//! records are those from scratch.
#![tactic(auto)]

mod boxed;
mod changed;
pub mod laws;
mod records;
mod room;
mod stale;
mod users;
mod uses;

pub use boxed::BoxedRecord;
pub use changed::{
    insert_glyph, insert_subr, put_glyph, put_in_subr, put_last_glyph, put_subr, remove_glyph,
    remove_glyphs, remove_subr,
};
pub use records::{GlyphRecord, Names, NewRun, NewRuns, Records, Rerun, SubrRecord};
pub use room::{Counts, count_joins, make_room, users_of_glyph, users_of_subr};
pub use stale::found;
pub use users::{move_users, renew, renew_by_name};
pub use uses::{joins_of, leaves_of};
