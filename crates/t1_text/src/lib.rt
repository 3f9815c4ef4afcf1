//! The text of a readable source: its lines, the tokens of a line, names and decimal numbers.
//!
//! All of it is for the crates above, which read sources and kerning files by it.
//!
//! What is proved: the lines, tokens and names of a text are those of `lines`, `tokens` and
//! `is_name`.
#![tactic(auto)]

mod lines;
mod names;
mod tokens;

pub use lines::{
    copied_bytes, copied_lines, cut_line, fault_on, first_delimiter, first_line, last_line_start,
    line_ends, trimmed,
};
pub use names::{count_of, decimal_up_to, is_count, is_decimal, is_name, name_of_token};
pub use tokens::{
    after_token, first_is, first_token, is_regular, last_is, next_place, next_token, same,
};
