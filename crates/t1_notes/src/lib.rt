//! Notes on a readable source: what is no fault and is most likely a mistake, each at its line and
//! column.
//!
//! [`notes_of`] finds them by lines and tokens, also in a text that can't be read, since a brace
//! that is lost is often what made its fault; [`pair_notes`] finds those on the kerning file of a
//! source. [`notes_text`] has a line for each [`Note`].
//!
//! These three and the notes are for the program. Lines, sections and lists of notes as one are for
//! the crate above, whose notes stand on runs of the glyphs.
//!
//! What is proved: `notes_of`: the notes of a text, by its lines, whether or not it can be read;
//! `notes_text`: their lines. `laws`: what a note on the encoding or on a count says of the text
//! holds.
#![tactic(auto)]

mod bodies;
mod commands;
mod counts;
mod encoding;
mod glyphs;
mod heads;
mod kept;
pub mod laws;
mod line;
mod merging;
mod names;
mod note;
mod notes;
mod opening;
mod pairs;
mod printing;
mod sections;
mod subrs;

pub use counts::subr_need;
pub use heads::section_heads;
pub use line::{Line, numbered_lines, past};
pub use merging::push_merged;
pub use names::{is_among, opened_name, put_name};
pub use note::{Note, NoteKind};
pub use notes::notes_of;
pub use pairs::pair_notes;
pub use printing::notes_text;
pub use sections::{Section, section_place};
