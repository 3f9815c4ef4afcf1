//! What the calls answer.

/// What was asked for was done.
pub const DONE: u32 = 0;

/// The source, the pairs or the font's file have a fault.
pub const REFUSED: u32 = 1;

/// There wasn't memory enough; nothing was done.
pub const MEMORY: u32 = 2;

/// The command was performed, and there wasn't memory enough to tell its answer, which is kept.
pub const UNTOLD: u32 = 3;

/// There is no session, or the texts aren't one command's, or a length of blocks is out of its
/// range; nothing was done.
pub const MISUSED: u32 = 4;
