//! Runs that are kept by the names of their glyphs.

ghost use Rattle.std.specs.Prelude.{◌≡◌, List, ℕ, Option, Result, option_map};
ghost use Rattle.t1_frac.specs.declared.fault.Code.{Code};
ghost use Rattle.t1_run.specs.Run.{Drawing};
ghost use Rattle.t1_extent.specs.Traces.{drawing_lent, IsTraced};

use crate::kept_run::KeptRun;
use t1_frac::Code;

/// Runs that are kept by the names of their glyphs. Contracts see a map from a name to what the run
/// draws, or to its first fault; and that the trace of a run is kept where its glyph may be a part
/// of a composite.
pub trait KeptRuns {
    ghost drawn: { Self → List ℕ → Option (Result Drawing Code) };

    /// What is kept of the run of the glyph of this name, or its first fault.
    fn run_of(&self, name: &[u8]) -> Option<Result<&KeptRun, Code>>
        ensures drawn { option_map drawing_lent result ≡ drawn self.now name.now }
        ensures traced { IsTraced name.now result };
}
