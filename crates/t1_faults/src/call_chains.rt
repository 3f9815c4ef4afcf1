//! The calls through which runs met a fault.

ghost use Rattle.std.specs.Prelude.{◌≡◌, ◌++◌, ◌∷◌, [], IfOk, OnOk};

use std::alloc::{AllocError, Global};
use std::marker::Model;
use t1_font::SubrNumbers;
use t1_frac::Bytes;

/// A glyph whose run met a fault in a Subr, and the Subrs that it had entered, in turn. The fault
/// stands in the last of them.
#[derive(Drop)]
pub struct CallChain {
    pub glyph: Bytes,
    pub subrs: SubrNumbers,
}

impl CallChain {
    /// A copy of this chain.
    pub fn copied(&self, alloc: Global) -> Result<CallChain, AllocError>
        ensures { IfOk result (λ copy. copy ≡ self.now) }
    {
        Ok(CallChain {
            glyph: Bytes::copied(alloc, self.glyph.as_slice())?,
            subrs: SubrNumbers::copied(alloc, self.subrs.as_slice())?,
        })
    }
}

/// Copies of some chains.
fn copied_chains(alloc: Global, chains: &[CallChain]) -> Result<Vec<CallChain>, AllocError>
    ensures { IfOk result (λ copies. copies.items ≡ chains.now) }
{
    let mut copies = Vec::new(alloc);
    for chain in chains {
        copies.push(chain.copied(alloc)?)?;
    }
    Ok(copies)
}

/// The chains of a fault, in the order of the glyphs in the source. Contracts see their list.
#[derive(Drop)]
pub struct CallChains {
    chains: Vec<CallChain>,
}

impl Model for CallChains {
    ghost use Rattle.std.specs.Prelude.{List};
    ghost use Rattle.t1_faults.specs.declared.call_chains.CallChain.{CallChain};

    ghost Value = { List CallChain };

    ghost view = { λ c. c.chains.items };
}

impl CallChains {
    /// No chains.
    pub fn new(alloc: Global) -> Self
        ensures { result ≡ [] }
    {
        CallChains {
            chains: Vec::new(alloc),
        }
    }

    /// Adds a chain.
    pub fn push(&mut self, chain: CallChain) -> Result<(), AllocError>
        ensures { OnOk result (self.new ≡ self.old ++ chain ∷ []) }
    {
        self.chains.push(chain)?;
        Ok(())
    }

    /// A copy of these chains.
    pub fn copied(&self, alloc: Global) -> Result<CallChains, AllocError>
        ensures { IfOk result (λ copy. copy ≡ self.now) }
    {
        let chains = copied_chains(alloc, self.chains.as_slice())?;
        Ok(CallChains { chains })
    }

    pub fn as_slice(&self) -> &[CallChain]
        ensures { result.now ≡ self.now }
    {
        self.chains.as_slice()
    }
}
