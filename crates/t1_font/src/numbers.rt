//! Lists of Subr numbers.
ghost use Rattle.std.specs.Prelude.{◌≡◌, IfOk};

use smallvec::SmallVec;
use std::alloc::{AllocError, Global};
use std::marker::Model;

/// Numbers of Subrs that own their memory, of which as many as most glyphs enter take no block.
/// Contracts see the list of the numbers.
#[derive(Drop)]
pub struct SubrNumbers {
    numbers: SmallVec<u16, 8>,
}

impl Model for SubrNumbers {
    ghost use Rattle.std.specs.Prelude.{List, ℕ};

    ghost Value = { List ℕ };

    ghost view = { λ n. n.numbers.items };
}

impl SubrNumbers {
    /// A copy of these numbers.
    pub fn copied(alloc: Global, numbers: &[u16]) -> Result<Self, AllocError>
        ensures { IfOk result (λ copy. copy ≡ numbers.now) }
    {
        let numbers = SmallVec::from_slice(alloc, numbers)?;
        Ok(SubrNumbers { numbers })
    }

    pub fn as_slice(&self) -> &[u16]
        ensures { result.now ≡ self.now }
    {
        self.numbers.as_slice()
    }
}
