//! What is kept of a font's entries.

ghost use Rattle.std.specs.Prelude.{Option};

use crate::boxed::BoxedRecord;
use indexmap::{IndexMap, IndexSet};
use t1_afm::BBox;
use t1_code::{Body, Command};
use t1_extent::KeptRun;
use t1_run::{Bodies, StoredBodies};

/// Names of glyphs, each once.
pub type Names = IndexSet<Vec<u8>>;

/// A Subr: its compiled body, and the glyphs whose own run enters it.
#[derive(Drop)]
pub struct SubrRecord {
    pub body: Body,
    pub users: Names,
}

/// A glyph: the box of its outline where it draws, its compiled body, its own run, and the
/// composites on it. What a line of an AFM file says stands at the front, near each other.
#[derive(Drop)]
pub struct GlyphRecord {
    pub bbox: Option<BBox>,
    pub body: Body,
    pub run: KeptRun,
    pub users: Names,
}

/// The records of a font's Subrs and glyphs.
#[derive(Drop)]
pub struct Records {
    pub subrs: IndexMap<u16, SubrRecord>,
    pub glyphs: IndexMap<Vec<u8>, BoxedRecord>,
}

/// The bodies of the Subrs and glyphs that have a record.
impl Bodies for Records {
    ghost use Rattle.t1_cache.specs.Bodies.{glyph_body, subr_body};

    ghost subrs = { λ records n. subr_body records.subrs.entries n };

    ghost glyphs = { λ records name. glyph_body records.glyphs.entries name };

    fn subr(&self, n: u16) -> Option<&[Command]> {
        match self.subrs.get(&n) {
            None => None,
            Some(record) => Some(record.body.commands()),
        }
    }

    fn has_glyph(&self, name: &[u8]) -> bool {
        self.glyphs.contains_key(name)
    }
}

impl StoredBodies for Records {
    fn glyph(&self, name: &[u8]) -> Option<&[Command]> {
        match self.glyphs.get(name) {
            None => None,
            Some(glyph) => Some(glyph.record().body.commands()),
        }
    }
}

/// A glyph that was run again: its new run, and the box of its outline where it draws.
#[derive(Drop)]
pub struct Rerun {
    pub name: Vec<u8>,
    pub run: KeptRun,
    pub bbox: Option<BBox>,
}

/// The new run of a glyph, and the box of its outline where it draws.
#[derive(Drop)]
pub struct NewRun {
    pub run: KeptRun,
    pub bbox: Option<BBox>,
}

/// New runs, by the names of their glyphs.
pub type NewRuns = IndexMap<Vec<u8>, NewRun>;
