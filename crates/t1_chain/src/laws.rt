//! What failures have to do with runs.

ghost use Rattle.t1_chain.specs.Failing.{FailureLaw, LeadsLaw};

/// A run has a failure exactly where it has a fault, and the failure's code is that of the fault.
pub fn failures_are_faults()
    ensures { FailureLaw }
{}

/// The calls of a failure are at words of the bodies, enter Subrs that are there, and lead to the
/// body that has the failure's word; a glyph's own body alone may fail past its last word.
pub fn calls_lead_there()
    ensures { LeadsLaw }
{}
