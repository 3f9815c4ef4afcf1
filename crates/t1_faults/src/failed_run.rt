//! A run that fails.

use t1_chain::Failure;
use t1_frac::Bytes;

/// A glyph whose run fails, and where and why.
#[derive(Drop)]
pub(crate) struct FailedRun {
    pub glyph: Bytes,
    pub failure: Failure,
}
