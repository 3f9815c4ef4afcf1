//! The kerning pairs of a font: read, printed, found and changed.
//!
//! [`read_pairs`] gives the [`Pairs`] of a kerning file, or its first fault with its line. They
//! stand in printed order, each once: [`Pairs::place_of`] finds two names by bisection, and
//! [`Pairs::put`], [`Pairs::insert`] and [`Pairs::remove`] change them in place.
//!
//! For users: [`read_pairs`], and of [`Pairs`] the pairs one after another, their number, the text
//! and the copy. What changes pairs in place is for `t1_source`: its caller has to know that they
//! stay in order.
//!
//! What is proved: `read_pairs` and `Pairs::text` are `pairs` and `kern`, and printed pairs read
//! back as themselves. `place_of` finds where two names stand, or would; `put`, `insert` and
//! `remove` keep printed order, each pair once (`are_pairs`).
#![tactic(auto)]

pub mod laws;
mod pairs;
mod search;

pub use pairs::{Pair, Pairs, read_pairs};
