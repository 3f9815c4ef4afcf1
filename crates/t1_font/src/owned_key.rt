//! The keys of entries.
ghost use Rattle.std.specs.Prelude.{◌≡◌, IfOk};
ghost use Rattle.t1_font.specs.OwnedKeys.{key_of};

use std::alloc::{AllocError, Global};
use t1_frac::Bytes;

/// What an entry is known by: a Subr by its number, a glyph by its name.
#[derive(Debug, Drop)]
pub enum OwnedKey {
    Subr(u16),
    Glyph(Bytes),
}

impl OwnedKey {
    /// A copy.
    pub fn copied(&self, alloc: Global) -> Result<OwnedKey, AllocError>
        ensures { IfOk result (λ copy. key_of copy ≡ key_of self.now) }
    {
        match self {
            OwnedKey::Subr(number) => Ok(OwnedKey::Subr(*number)),
            OwnedKey::Glyph(name) => Ok(OwnedKey::Glyph(Bytes::copied(alloc, name.as_slice())?)),
        }
    }
}
