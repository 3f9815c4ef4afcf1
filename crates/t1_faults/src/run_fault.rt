//! A fault that runs met.

use crate::call_chains::CallChains;
use t1_chain::Detail;
use t1_frac::Code;

/// A fault that runs met in a body.
#[derive(Drop)]
pub(crate) struct RunFault {
    /// Which word of the body, from 0; the number of the words or more where no word is at fault.
    pub word: usize,
    pub code: Code,
    pub detail: Detail,
    pub chains: CallChains,
}
