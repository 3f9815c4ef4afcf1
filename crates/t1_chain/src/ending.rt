//! How a list of commands stops.

use crate::failure::Failure;

/// How a list of commands stops, and where.
#[derive(Drop)]
pub enum Ending {
    /// After its last word.
    OutOfWords,
    /// By the return that is this word of it.
    Returned(usize),
    /// By endchar or seac.
    Completed,
    Failed(Failure),
}

/// What a word asks of the run.
#[derive(Drop)]
pub enum Asked {
    /// The next word.
    Word,
    /// The body of this Subr, which is there and may be active.
    Subr(u16),
    /// No more.
    Over(Ending),
}
