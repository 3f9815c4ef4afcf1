//! The names of StandardEncoding, to be looked up.
ghost use Rattle.std.specs.Prelude.{◌≡◌, ℕ, List};
ghost use Rattle.t1_code.specs.Encoding.{is_standard_name};
ghost use Rattle.t1_font.specs.Names.{is_name_kept};

use crate::kern::add_name;
use indexmap::IndexSet;
use std::alloc::{AllocError, Global};
use t1_code::standard_table;

/// The names of StandardEncoding.
#[derive(Drop)]
pub(crate) struct StandardNames {
    names: IndexSet<&'static [u8]>,
    ghost all: { (g : List ℕ) → is_name_kept names.keys g ≡ is_standard_name g },
}

impl StandardNames {
    pub(crate) fn new(alloc: Global) -> Result<StandardNames, AllocError> {
        let table = standard_table();
        let mut names = IndexSet::with_capacity(alloc, table.len())?;
        for (_, name) in table {
            add_name(&mut names, name.as_bytes())?;
        }
        Ok(StandardNames { names })
    }

    /// Whether it is among them.
    pub(crate) fn contain(&self, name: &[u8]) -> bool
        ensures { result ≡ is_standard_name name.now }
    {
        self.names.contains(name)
    }
}
