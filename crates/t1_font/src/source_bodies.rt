//! A source while its glyphs are compiled and run one after another.
ghost use Rattle.std.specs.Prelude.{◌≡◌, is_some, ℕ, List};
ghost use Rattle.t1_font.specs.ToRun.{glyph_to_run};
ghost use Rattle.t1_font.specs.StoredSubrs.{subr_stored};
ghost use Rattle.t1_font.specs.Names.{is_name_kept};

use crate::subr_bodies::SubrBodies;
use indexmap::IndexSet;
use t1_code::Command;
use t1_parts::Items;
use t1_run::Bodies;

/// What the run of a glyph asks of a source: the Subrs, which were compiled, and the names of all
/// glyphs.
#[derive(Drop)]
pub(crate) struct SourceBodies<'s, 'n, 'i> {
    pub(crate) subrs: &'s SubrBodies,
    pub(crate) names: &'s IndexSet<&'n [u8]>,
    /// The items of the source. No code reads them; contracts see the bodies of its glyphs in them.
    pub(crate) items: &'s Items<'i>,
    ghost known: { (g : List ℕ)
        → is_name_kept names.now.keys g ≡ is_some (glyph_to_run items.now g) },
}

impl Bodies for SourceBodies<'_, '_, '_> {
    ghost use Rattle.t1_font.specs.ToRun.{glyph_to_run};
    ghost use Rattle.t1_font.specs.StoredSubrs.{subr_stored};

    ghost subrs = { λ source n. subr_stored source.subrs.now n };

    ghost glyphs = { λ source g. glyph_to_run source.items.now g };

    fn subr(&self, n: u16) -> Option<&[Command]> {
        self.subrs.get(n)
    }

    fn has_glyph(&self, name: &[u8]) -> bool {
        self.names.contains(name)
    }
}
