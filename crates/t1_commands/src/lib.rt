//! The commands of a session, by the words of their lines, and what they are answered.
//!
//! [`line_command`] and [`body_command`] make the [`SessionCommand`] of a line, and of a line with
//! its body. [`put_answer`] writes an [`Answer`], [`put_fault`] a fault as answers have it;
//! [`push_fault`] and [`push_rule`] add these to a text. [`Data`] is the form of a font file that
//! is an answer, and not made in memory.
//!
//! All of it is for `t1_refusal` and `t1_session`, and for the program, which takes [`put_fault`]
//! and [`block_size_of_word`].
//!
//! What is proved, beside what the comment at each call says:
//!
//! - `line_command`, `body_command`, `open_command`: the command of a line's words, with its body,
//!   or with one that the input left open; or out of memory, only for an edit that holds bytes
//!   (`Makes`). `ends_body`, `is_blank_line`: the values of the definitions `ends_body` and
//!   `is_wordless`. `block_size`, `block_size_of_word`: a number word from 1 to 2147483647.
//! - `put_answer`: `answer_text` is written, whole or up to a failed write. `Data`: a file as an
//!   answer's data, after its length.
#![tactic(auto)]

mod answer;
mod command;
mod data;
mod numbers;
mod print;
mod show;

pub use answer::{Answer, answer_of, push_fault, push_rule, push_slices, put_answer, put_fault};
pub use command::{
    SessionCommand, body_command, ends_body, is_blank_line, line_command, open_command,
};
pub use data::Data;
pub use numbers::{block_size, block_size_of_word};
pub use print::Print;
pub use show::Show;
