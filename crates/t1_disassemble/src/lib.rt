//! A font read back: the segments of its file, its encryption undone, its charstrings as words.
//!
//! What is proved: the source of a font's file, or its first fault with its place, is the one that
//! is defined (`disassembled`). [`CodedBodies`] compiles each body of that source as `compile_onto`
//! of `t1_code` does, by the charstring that its words were made of. That the file is assembled
//! again of the source are laws of `t1_round_trip`; docs/DISASSEMBLE.md says what is laid out anew.
#![tactic(auto)]

mod charstring;
mod cipher;
mod coded_bodies;
mod coded_text;
mod digits;
mod disassembly;
mod fault;
mod front;
mod heads;
mod kinds;
mod known;
mod known_command;
mod known_number;
mod known_word;
pub mod laws;
mod layouts;
mod lines;
mod opening;
mod packed;
mod packing;
mod places;
mod private;
mod segments;
mod settings;
mod standing;
mod waiting;

pub use coded_bodies::CodedBodies;
pub use coded_text::CodedText;
pub use disassembly::{disassemble, disassemble_in_place};
pub use fault::{FontCode, FontFault, FontPlace, FontRefusal};
pub use packing::{FontSource, read_font};
