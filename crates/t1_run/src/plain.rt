//! Bodies in two maps.

use crate::bodies::{Bodies, StoredBodies};
use indexmap::IndexMap;
use t1_code::{Body, Command};

/// Bodies in two maps, from the number of a Subr and from the name of a glyph.
#[derive(Drop)]
pub struct Plain {
    pub subrs: IndexMap<u16, Body>,
    pub glyphs: IndexMap<Vec<u8>, Body>,
}

impl Bodies for Plain {
    ghost use Rattle.std.specs.Prelude.{nat_eq};
    ghost use Rattle.std.specs.Map.{lookup};
    ghost use Rattle.std.specs.Str.{bytes_eq};

    ghost subrs = { λ plain n. lookup (nat_eq n) plain.subrs.entries };

    ghost glyphs = { λ plain name. lookup (λ key. bytes_eq name key.items) plain.glyphs.entries };

    fn subr(&self, n: u16) -> Option<&[Command]> {
        match self.subrs.get(&n) {
            None => None,
            Some(body) => Some(body.commands()),
        }
    }

    fn has_glyph(&self, name: &[u8]) -> bool {
        self.glyphs.contains_key(name)
    }
}

impl StoredBodies for Plain {
    fn glyph(&self, name: &[u8]) -> Option<&[Command]> {
        match self.glyphs.get(name) {
            None => None,
            Some(body) => Some(body.commands()),
        }
    }
}
