#![tactic(auto)]
//! Charstring code, its encryption, and the PFB and PFA files of an assembled font.
//!
//! For users: [`compile`], [`assemble`] and [`encrypt`], with [`Body`], [`Command`] and
//! [`standard_name`]; [`Counted`], in which every reader and writer is lent, and [`OutError`];
//! [`Parts`] and [`Piece`] with [`write_pfb`], whole ([`WHOLE_PARTS`]) or in blocks, and
//! [`write_pfa`]; [`BlockSize`], which `blocks_of` of `t1_calls` takes. The rest is for the crates
//! above: code added to what is there, bodies whose faults have an entry's place
//! ([`compiled_subr`], [`compiled_glyph`]), a writer with its chunk ([`Outlet`]), lengths of files
//! ([`FileLen`]), and both forms of a file as one ([`FileForm`]).
//!
//! What is proved, beside what the comment at each call says:
//!
//! - `compile`, `assemble`: the commands of the words and their code; or F22; else, at the first
//!   faulty word, F20 or F21 (`commands`, `charstring_of_words`). `compile_onto`, `assemble_onto`
//!   add them behind what stands there; `encrypt_words` encrypts them.
//! - `encrypt`, `encrypted_charstring`: `cipher` of the leading zeros and the bytes;
//!   `laws::cipher_by_places` says what that is, byte by byte. `laws` on spellings: none begins
//!   another's, bytes spell at most one list, compiled code spells its commands and has at most
//!   five bytes a word.
//! - `Counted`: what each call did to the known bytes, and the count of failures. `put_all`,
//!   `write_slices`: all bytes, or a beginning and one failure.
//! - `write_pfb`, `write_pfa`, `write_file`: `Prints` of the file in segments of so many bytes
//!   (`file_of`), in hexadecimal (`hexadecimal_file_of`), in any `FileForm`; F23 with nothing
//!   written. `pfb_len`, `pfa_len`: the lengths of these files (`length_of`). `laws`: a part that
//!   the limit allows is one segment of the largest block length, and blocks hold the part.
//! - `standard_name`, `is_standard_name`, `standard_table`: the 149 names of StandardEncoding.

mod block_size;
mod body;
mod charstring;
mod chunk;
mod command;
mod counted;
mod eexec;
mod encoding;
mod file_len;
mod form;
mod hexadecimal;
pub mod laws;
mod outlet;
mod parts;
mod pfa;
mod segments;
mod words;

pub use block_size::BlockSize;
pub use body::Body;
pub use charstring::{encrypt, encrypted_charstring};
pub use command::Command;
pub use counted::{Counted, MAX_PUT};
pub use encoding::{is_standard_name, standard_name, standard_table};
pub use file_len::{FileLen, pfa_len, pfb_len};
pub use form::{EEXEC_LEAD, FileForm, MAX_PART, Pfb, WHOLE_PARTS, write_file, write_pfb};
pub use outlet::{Outlet, write_slices};
pub use parts::{OutError, Parts, Piece};
pub use pfa::{Pfa, write_pfa};
pub use words::{
    assemble, assemble_onto, compile, compile_onto, compiled_glyph, compiled_subr, encrypt_words,
};
