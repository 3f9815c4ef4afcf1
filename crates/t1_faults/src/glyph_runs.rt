//! The runs of the glyphs of a source.

ghost use Rattle.std.specs.Prelude.{◌≡◌};
ghost use Rattle.t1_run.specs.Run.{own};
ghost use Rattle.t1_font.specs.KeptBodies.{plain_bodies};
ghost use Rattle.t1_font.specs.Runs.{drawing_in};

use indexmap::IndexSet;
use t1_font::Runs;
use t1_run::Plain;

/// The runs of the glyphs of a source, and the bodies that they were made with.
#[derive(Drop)]
pub(crate) struct GlyphRuns<'a> {
    /// The commands of the entries' words; of a glyph whose words have a fault none, and no such
    /// Subr.
    pub bodies: Plain,
    /// The runs of the glyphs' own bodies, or their first faults.
    pub runs: Runs<'a>,
    /// The numbers of the Subrs whose words have a fault.
    pub faulty: IndexSet<u64>,
    ghost own: { drawing_in runs ≡ own (plain_bodies bodies) },
}
