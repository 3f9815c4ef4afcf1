//! A source assembled, and its file read back: laws of two crates that don't know each other.
//!
//! What is proved: of what is read back of a PFB file, a PFA file or the parts without segments
//! that very file is assembled (`file_is_assembled_again`, `hexadecimal_file_is_assembled_again`,
//! `raw_file_is_assembled_again`).
#![tactic(auto)]

pub mod laws;
