//! The block length of a PFB file.
ghost use Rattle.std.specs.Prelude.{◌≡◌, ◌≤◌, ◌-◌, ◌^◌};

use std::marker::Model;

/// How many bytes a segment of a PFB file has, the last of a part the rest: from 1 to 2147483647.
#[derive(Clone, Copy)]
pub struct BlockSize {
    len: usize,
}

impl Model for BlockSize {
    ghost use Rattle.std.specs.Prelude.{ℕ, ◌≤◌, ◌-◌, ◌^◌};

    ghost Value = { ℕ };

    ghost view = { λ size. size.len };

    ghost invariant = { λ size. (1 ≤ size.len) × (size.len ≤ 2 ^ 31 - 1) };

    ghost inverse = { λ len. record { len = len } };
}

impl BlockSize {
    /// The block length of so many bytes.
    pub fn new(len: usize) -> BlockSize
        requires some { 1 ≤ len }
        requires short { len ≤ 2 ^ 31 - 1 }
        ensures { result ≡ len }
    {
        BlockSize { len }
    }

    /// How many bytes that are.
    pub fn get(self) -> usize
        ensures value { result ≡ self }
        ensures some { 1 ≤ result }
        ensures short { result ≤ 2 ^ 31 - 1 }
    {
        self.len
    }

    /// It is of some bytes.
    pub(crate) fn has_bytes(self)
        ensures { 1 ≤ self }
    {
        let _ = self.len;
    }
}
