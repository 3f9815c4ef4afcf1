//! What a handle holds.
use t1_calls::Talk;

/// A session.
#[derive(Drop)]
pub struct HandleContents {
    pub talk: Talk,
}
