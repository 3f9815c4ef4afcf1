//! What is noted of a run before a word.

use std::alloc::Global;
use t1_frac::Frac;

/// What is noted of a run before a word, by which a fault of the word is told.
#[derive(Drop)]
pub struct Noted {
    /// The operand stack, its lowest value first.
    pub stack: Vec<Frac>,
    /// How many points the open flex has recorded; none where no flex is open.
    pub points: Option<usize>,
}

impl Noted {
    /// Nothing noted yet.
    pub fn new(alloc: Global) -> Self {
        Noted {
            stack: Vec::new(alloc),
            points: None,
        }
    }
}
