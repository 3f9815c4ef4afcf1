//! Names of glyphs.

ghost use Rattle.std.specs.Prelude.{◌≡◌, ◌++◌, ◌∷◌, [], IfOk, OnOk};

use std::alloc::{AllocError, Global};
use std::marker::Model;
use t1_frac::Bytes;

/// Copies of some names.
fn copied_names(alloc: Global, names: &[Bytes]) -> Result<Vec<Bytes>, AllocError>
    ensures { IfOk result (λ copies. copies.items ≡ names.now) }
{
    let mut copies = Vec::new(alloc);
    for name in names {
        copies.push(Bytes::copied(alloc, name.as_slice())?)?;
    }
    Ok(copies)
}

/// Names of glyphs. Contracts see their list.
#[derive(Drop)]
pub struct GlyphNames {
    names: Vec<Bytes>,
}

impl Model for GlyphNames {
    ghost use Rattle.std.specs.Prelude.{List, ℕ};

    ghost Value = { List (List ℕ) };

    ghost view = { λ n. n.names.items };
}

impl GlyphNames {
    /// No names.
    pub fn new(alloc: Global) -> Self
        ensures { result ≡ [] }
    {
        GlyphNames {
            names: Vec::new(alloc),
        }
    }

    /// Adds a name.
    pub fn push(&mut self, name: Bytes) -> Result<(), AllocError>
        ensures { OnOk result (self.new ≡ self.old ++ name ∷ []) }
    {
        self.names.push(name)?;
        Ok(())
    }

    /// A copy of these names.
    pub fn copied(&self, alloc: Global) -> Result<GlyphNames, AllocError>
        ensures { IfOk result (λ copy. copy ≡ self.now) }
    {
        let names = copied_names(alloc, self.names.as_slice())?;
        Ok(GlyphNames { names })
    }

    pub fn as_slice(&self) -> &[Bytes]
        ensures { result.now ≡ self.now }
    {
        self.names.as_slice()
    }
}
