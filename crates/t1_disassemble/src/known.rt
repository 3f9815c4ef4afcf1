//! What is known of charstrings' bytes before they are read.

use crate::known_number::{KnownNumber, known_numbers};
use crate::known_word::{KnownWord, known_words};
use std::alloc::{AllocError, Global};

/// The words of single bytes, and the numbers of two.
#[derive(Drop)]
pub(crate) struct Known {
    pub(crate) words: Vec<KnownWord>,
    pub(crate) numbers: Vec<KnownNumber>,
}

impl Known {
    /// All of them.
    pub(crate) fn new(alloc: Global) -> Result<Known, AllocError> {
        Ok(Known {
            words: known_words(alloc)?,
            numbers: known_numbers(alloc)?,
        })
    }
}
