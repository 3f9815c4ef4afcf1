//! The parts of a PFB file, and the file.

use std::alloc::AllocError;
use std::io;
use t1_frac::{Code, Fault, Place, Refusal};
use thiserror::Error;

/// A piece of the private text.
#[derive(Clone, Copy)]
pub enum Piece<'a> {
    /// Bytes as they stand.
    Plain(&'a [u8]),
    /// A line of its own: `head LEN operator charstring closing`.
    Entry {
        /// `dup N` or `/NAME`.
        head: &'a [u8],
        /// The name of the operator that reads the charstring.
        operator: &'a [u8],
        /// The encrypted charstring, its leading bytes included.
        charstring: &'a [u8],
        /// What stands after the charstring; it may be empty.
        closing: &'a [u8],
    },
}

/// What a PFB file is made of. The parts are borrowed.
#[derive(Clone, Copy)]
pub struct Parts<'a> {
    /// The text up to the line that ends in `eexec`.
    pub clear: &'a [u8],
    /// The private text, before it is encrypted.
    pub pieces: &'a [Piece<'a>],
    /// The text after the encrypted part: the zeros and the lines after them.
    pub trailer: &'a [u8],
}

/// Why a text wasn't written, or not to its end.
#[derive(Debug, Drop, Error)]
pub enum OutError {
    #[error("refused")]
    Fault(Fault),
    #[error("write failed")]
    Write,
    #[error("out of memory")]
    Memory,
}

impl From<io::Error> for OutError {
    ghost use Rattle.std.specs.Prelude.{◌≡◌};
    ghost use Rattle.t1_code.specs.declared.parts.OutError.TheVariants.{Write};

    ghost from_gives = { λ _ error. error ≡ Write };

    fn from(_error: io::Error) -> OutError {
        OutError::Write
    }
}

impl From<Refusal> for OutError {
    ghost use Rattle.std.specs.Prelude.{◌≡◌};
    ghost use Rattle.t1_code.specs.Parts.{not_written};

    ghost from_gives = { λ refused error. error ≡ not_written refused };

    fn from(refused: Refusal) -> OutError {
        match refused {
            Refusal::Fault(fault) => OutError::Fault(fault),
            Refusal::Memory => OutError::Memory,
        }
    }
}

impl From<AllocError> for OutError {
    ghost use Rattle.std.specs.Prelude.{◌≡◌};
    ghost use Rattle.t1_code.specs.declared.parts.OutError.TheVariants.{Memory};

    ghost from_gives = { λ _ error. error ≡ Memory };

    fn from(_error: AllocError) -> OutError {
        OutError::Memory
    }
}

impl From<Code> for OutError {
    ghost use Rattle.std.specs.Prelude.{◌≡◌};
    ghost use Rattle.t1_code.specs.declared.parts.OutError.TheVariants.{Fault};
    ghost use Rattle.t1_frac.specs.Outcome.{fault_at};
    ghost use Rattle.t1_frac.specs.declared.fault.Place.TheVariants.{Nowhere};

    ghost from_gives = { λ code error. error ≡ Fault (fault_at Nowhere code) };

    /// The fault of a whole file, which has no place.
    fn from(code: Code) -> OutError {
        OutError::Fault(Fault {
            code,
            place: Place::Nowhere,
        })
    }
}
