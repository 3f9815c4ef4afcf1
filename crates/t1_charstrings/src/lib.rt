#![tactic(auto)]
//! The encrypted charstrings of a font's entries, kept under edits.
//!
//! [`charstrings_of`] encrypts the charstrings of a source, or gives the first fault of its bodies.
//! [`write_kept_file`] writes its files with them: nothing is compiled or encrypted anew.
//! [`private_len`] is the length of the private text, and [`check_length`] judges by it whether a
//! part of a file is too long; [`laws`] say what an edit makes of it.
//!
//! Edits go in two steps. [`put_fresh_subr`] and [`put_fresh_glyph`] fill the fresh charstrings of
//! [`EditedEntries`]: those of the entries that were replaced or added; beside them stand the keys
//! of those that are gone. With these [`prepare_lines`] makes ready what changes of the
//! charstrings and of the length of the private text, or gives the first fault of the edited
//! source, an `EditedSource` of `t1_source`; where lenIV may have been edited [`prepare_anew`] does
//! so, and encrypts all charstrings anew. Each edit of a batch goes through [`len_beside`], so that
//! the length costs by the edited entries alone. [`settle_lines`] puts what is ready in its place,
//! which can't fail. Nothing of a source is copied.
//!
//! All of it is for the crates above.
//!
//! What is proved: `charstrings_of`, the encrypted charstrings of a source (`AreEncrypted`), or the
//! first fault of a body. `write_kept_file`: the same file as `t1_font`'s by them (`file_in`).
//! `check_length`: F23 by the length of the private text (`length_check`), which `laws` give after
//! an edit. `prepare_lines` and `prepare_anew` judge the file of the edited source and make ready
//! what changes (`IsReadyLines`): the one the charstrings of the named entries alone, where lenIV
//! wasn't set, the other all of them. `settle_lines` puts it in place. `len_beside` keeps what a
//! batch makes of the length beside the charstrings (`IsKeptBeside`).

mod anew;
mod batch;
mod beside;
mod edited;
mod edited_lines;
mod encrypted;
mod encrypted_items;
mod entries;
mod files;
pub mod laws;
mod lengths;
mod lines;
mod raising;
mod settling;

pub use anew::prepare_anew;
pub use batch::batch_len;
pub use beside::len_beside;
pub use edited::EditedEntries;
pub use encrypted::{
    charstrings_of, encrypted_glyph, encrypted_subr, put_fresh_glyph, put_fresh_subr,
};
pub use entries::{Charstrings, Entry, insert_glyph, insert_subr, make_room, no_charstrings};
pub use files::write_kept_file;
pub use lengths::{check_length, line_len, prepare_lines, private_len, sections_len};
pub use settling::{ReadyCharstrings, ReadyLines, settle_lines};
