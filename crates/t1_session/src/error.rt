use std::alloc::{AllocError, AllocFailed};
use std::io;
use t1_code::OutError;
use t1_frac::{Fault, Refusal};
use thiserror::Error;

/// Why a call over whole files stopped before its end.
#[derive(Debug, Drop, Error)]
pub enum ServeError {
    /// The source or the pairs have a fault; nothing was written.
    #[error("refused")]
    Load(Fault),
    #[error("read failed")]
    Read,
    /// A write failed; what was written is a beginning of what was to be written.
    #[error("write failed")]
    Write,
    #[error("out of memory")]
    Memory,
}

impl From<Refusal> for ServeError {
    ghost use Rattle.std.specs.Prelude.{◌≡◌};
    ghost use Rattle.t1_session.specs.LiftedErrors.{reported_by_refusal};

    ghost from_gives = { λ refused error. error ≡ reported_by_refusal refused };

    fn from(refused: Refusal) -> ServeError {
        match refused {
            Refusal::Fault(fault) => ServeError::Load(fault),
            Refusal::Memory => ServeError::Memory,
        }
    }
}

impl From<OutError> for ServeError {
    ghost use Rattle.std.specs.Prelude.{◌≡◌};
    ghost use Rattle.t1_session.specs.LiftedErrors.{reported_by_writing};

    ghost from_gives = { λ failed error. error ≡ reported_by_writing failed };

    fn from(failed: OutError) -> ServeError {
        match failed {
            OutError::Fault(fault) => ServeError::Load(fault),
            OutError::Write => ServeError::Write,
            OutError::Memory => ServeError::Memory,
        }
    }
}

impl From<AllocError> for ServeError {
    ghost use Rattle.std.specs.Prelude.{◌≡◌};
    ghost use Rattle.t1_session.specs.declared.error.ServeError.TheVariants.{Memory};

    ghost from_gives = { λ _ error. error ≡ Memory };

    fn from(_error: AllocError) -> ServeError {
        ServeError::Memory
    }
}

impl<T: Drop> From<AllocFailed<T>> for ServeError {
    ghost use Rattle.std.specs.Prelude.{◌≡◌};
    ghost use Rattle.t1_session.specs.declared.error.ServeError.TheVariants.{Memory};

    ghost from_gives = { λ _ error. error ≡ Memory };

    fn from(_error: AllocFailed<T>) -> ServeError {
        ServeError::Memory
    }
}

impl From<io::Error> for ServeError {
    ghost use Rattle.std.specs.Prelude.{◌≡◌};
    ghost use Rattle.t1_session.specs.declared.error.ServeError.TheVariants.{Write};

    ghost from_gives = { λ _ error. error ≡ Write };

    /// The error of a writer.
    fn from(_error: io::Error) -> ServeError {
        ServeError::Write
    }
}
