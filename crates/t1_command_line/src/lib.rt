//! What the program says of itself: its command line, its helps, and what each code, rule and exit
//! status means.
//!
//! [`command`] is the command line with its helps. [`all_sections`] is the one table of all codes;
//! [`explanation`] is what it says of one, or its list, and [`meaning`] what it says in a few
//! words.
//!
//! All of it is for the program.
//!
//! What is proved, beside what the comment at each call says:
//!
//! - `command`: the commands, their arguments, which of these must be there, and their letters
//!   (`program`).
//! - `all_sections`: the codes of each section in their order (`of_program`).
//! - `explanation`: the text of the first topic with the code (`before_space`, `topic_of`,
//!   `whole_text`), the list of all without one (`list_text`). `meaning`: what it says of a code in
//!   a few words. The words of these texts aren't proved: a test tries each example that the table
//!   shows.
#![tactic(auto)]

mod command_line;
mod help;
mod table;
mod topic;

pub use command_line::command;
pub use table::all_sections;
pub use topic::{Topic, TopicGroup, explanation, meaning};
