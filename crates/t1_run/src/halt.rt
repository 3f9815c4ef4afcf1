//! Why a step isn't made.

use std::alloc::AllocError;
use t1_frac::{Code, Refusal};

/// Why a step isn't made: its fault, which a run reports at no place, or out of memory. A step's
/// answer is looked at after each word, so it is kept small.
#[derive(Clone, Copy)]
pub enum Halt {
    Fault(Code),
    Memory,
}

impl From<Code> for Halt {
    ghost use Rattle.std.specs.Prelude.{◌≡◌};
    ghost use Rattle.t1_run.specs.declared.halt.Halt.TheVariants as halts;

    ghost from_gives = { λ code halt. halt ≡ halts.Fault code };

    fn from(code: Code) -> Halt {
        Halt::Fault(code)
    }
}

impl From<AllocError> for Halt {
    ghost use Rattle.std.specs.Prelude.{◌≡◌};
    ghost use Rattle.t1_run.specs.declared.halt.Halt.TheVariants.{Memory};

    ghost from_gives = { λ _ halt. halt ≡ Memory };

    fn from(_error: AllocError) -> Halt {
        Halt::Memory
    }
}

impl From<Halt> for Refusal {
    ghost use Rattle.std.specs.Prelude.{◌≡◌};
    ghost use Rattle.t1_run.specs.Machine.{refusal_by};

    ghost from_gives = { λ halt refused. refused ≡ refusal_by halt };

    /// The refusal of the run.
    fn from(halt: Halt) -> Refusal {
        match halt {
            Halt::Fault(code) => Refusal::from(code),
            Halt::Memory => Refusal::Memory,
        }
    }
}
