//! What all layers of the assembler share: exact fractions, number words, bytes and words as
//! contracts see them, faults and places.
//!
//! For users: [`Frac`]; [`Code`], [`Place`], [`Fault`] and [`Refusal`], in which the calls of all
//! crates answer what is wrong; [`Bytes`], [`SourceText`], [`Words`] and [`OwnedWords`], which
//! calls take and give. The functions on number words and blanks are for the crates above.
//!
//! What is proved, beside what the comment at each call says:
//!
//! - `Frac::add`, `sub`, `div`: the exact result in lowest terms, or the first fault of its order
//!   (`coordinate_sum`, `coordinate_difference`, `quotient`); `floor`, `ceil`, `nearest`, `cmp` are
//!   exact. `laws`: lowest terms are the same number, and those of equal fractions are equal; equal
//!   fractions round alike; a whole number that is added moves what they round to by itself.
//! - `next_word`, `Words::of`, `OwnedWords::push_line`: the longest runs between blanks (`words`),
//!   wherever their bytes stand.
//! - `number_word`: the number of a number word, as far as it fits 64 bits.
#![tactic(auto)]

mod bytes;
mod division;
mod fault;
mod frac;
mod gcd;
pub mod laws;
mod number;
mod source_text;
mod terms;
mod words;

pub use bytes::Bytes;
pub use fault::{Code, Fault, Place, Refusal};
pub use frac::Frac;
pub use number::{
    are_digits, digits_of_word, is_number_word, leading_number, leading_short_number, magnitude,
    number_word,
};
pub use source_text::SourceText;
pub use words::{OwnedWords, Words, blank_len, is_blank, next_word, skip_blanks};
