//! Judging a source without writing its metrics.
ghost use Rattle.std.specs.Prelude.{◌≡◌};
ghost use Rattle.t1_frac.specs.Outcome.{Gives};
ghost use Rattle.t1_session.specs.Files.{verdict};
ghost use Rattle.t1_session.specs.LiftedErrors.{judged_by};

use crate::error::ServeError;
use crate::measuring::measure_source;
use std::alloc::Global;
use std::io;
use t1_code::Counted;
use t1_frac::Refusal;

/// Judges a source and a kerning file as measuring them does, and writes nothing: `Ok` where they
/// have an AFM file, else the fault that measuring reports.
pub fn check_source(alloc: Global, source: &[u8], pairs: &[u8]) -> Result<(), Refusal>
    ensures { Gives (λ _. tt) result (verdict source.now pairs.now) }
{
    judged_by(measure_source(alloc, source, pairs, &mut Counted::new(io::sink())))
}

/// What judging answers where measuring answers this.
fn judged_by(answer: Result<(), ServeError>) -> Result<(), Refusal>
    ensures { result ≡ judged_by answer }
{
    match answer {
        Ok(()) | Err(ServeError::Write) => Ok(()),
        Err(ServeError::Load(fault)) => Err(Refusal::Fault(fault)),
        Err(ServeError::Read | ServeError::Memory) => Err(Refusal::Memory),
    }
}
