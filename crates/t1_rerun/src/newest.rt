//! The newest runs of an edited font.
ghost use Rattle.std.specs.Prelude.{◌≡◌, true};
ghost use Rattle.t1_cache.specs.Kept.{keep_traces};

use t1_cache::Records;
use t1_extent::{KeptRun, KeptRuns};
use t1_font::Runs;
use t1_frac::Code;

/// Runs that were made again, and the runs of the records for all other glyphs.
#[derive(Drop)]
pub struct Newest<'a> {
    pub runs: &'a Runs<'a>,
    pub records: &'a Records,
    ghost traced: { keep_traces records.now ≡ true },
}

impl<'a> KeptRuns for Newest<'a> {
    ghost use Rattle.t1_rerun.specs.Newest.{newest};

    ghost drawn = { λ n. newest n.runs.now n.records.now };

    fn run_of(&self, name: &[u8]) -> Option<Result<&KeptRun, Code>> {
        if let Some(run) = self.runs.run_of(name) {
            return Some(run);
        }
        match self.records.glyphs.get(name) {
            None => None,
            Some(glyph) => Some(Ok(&glyph.record().run)),
        }
    }
}
