use crate::bytes::Bytes;
use std::alloc::{AllocError, AllocFailed, Global};
use thiserror::Error;

/// Why a source, a body or a run is refused, by the code that is printed.
#[derive(Clone, Copy, Debug, PartialEq, Eq)]
pub enum Code {
    /// No line ends in `currentfile eexec`.
    F1,
    /// No line ends in `mark currentfile closefile`.
    F2,
    /// No CharStrings section.
    F3,
    /// A second section of a kind, or sections in the wrong order.
    F4,
    /// An encoding of another kind.
    F5,
    /// An encoding line that isn't understood.
    F6,
    /// An entry without its end.
    F7,
    /// A bad name or number in an entry.
    F8,
    /// A Subr twice.
    F9,
    /// A glyph twice.
    F10,
    /// LenIV isn't 0 to 64.
    F11,
    /// A bad KPX line.
    F12,
    /// A kerning form that is left out.
    F13,
    /// An unknown word.
    F20,
    /// A number that doesn't fit 32 bits.
    F21,
    /// A body past 65,535 words.
    F22,
    /// A segment past 2^31 - 1 bytes.
    F23,
    /// Too few operands.
    F30,
    /// More than 24 values.
    F31,
    /// No such Subr.
    F32,
    /// Calls nested past ten.
    F33,
    /// Return outside a Subr.
    F34,
    /// No endchar.
    F35,
    /// The side bearing is missing or set twice.
    F36,
    /// An operand or a quotient is too large.
    F37,
    /// Division by zero.
    F38,
    /// A fraction is too fine.
    F39,
    /// A coordinate is too large.
    F40,
    /// Flex out of order.
    F41,
    /// An othersubr that isn't supported, or another count of arguments.
    F42,
    /// Pop without a value.
    F43,
    /// A seac code without a name.
    F44,
    /// A seac glyph is missing.
    F45,
    /// Seac of a seac.
    F46,
    /// Too many steps.
    F47,
    /// A whole number is wanted.
    F48,
}

/// Where a fault stands.
#[derive(Debug, Drop)]
pub enum Place {
    Nowhere,
    Line(u64),
    Subr(u16),
    Glyph(Bytes),
}

#[derive(Debug, Drop)]
pub struct Fault {
    pub code: Code,
    pub place: Place,
}

/// Why a call gives no value: a fault of what it was given, or out of memory.
#[derive(Debug, Drop, Error)]
pub enum Refusal {
    #[error("refused")]
    Fault(Fault),
    #[error("out of memory")]
    Memory,
}

impl Refusal {
    ghost use Rattle.std.specs.Prelude.{◌≡◌};
    ghost use Rattle.t1_frac.specs.Refusals.{placed, IsPlaced};
    ghost use Rattle.t1_frac.specs.declared.fault.Place.TheVariants.{Glyph, Subr};

    /// The same refusal, its fault at this place.
    pub fn at(self, place: Place) -> Refusal
        ensures { result ≡ placed place self }
    {
        match self {
            Refusal::Fault(fault) => Refusal::Fault(Fault {
                code: fault.code,
                place,
            }),
            Refusal::Memory => Refusal::Memory,
        }
    }

    /// The same refusal, its fault at the Subr of this number. It takes no memory.
    pub fn at_subr(self, number: u16) -> Refusal
        ensures { result ≡ placed (Subr number) self }
    {
        self.at(Place::Subr(number))
    }

    /// The same refusal, its fault at the glyph of this name; or out of memory for a copy of the
    /// name.
    pub fn at_glyph(self, alloc: Global, name: &[u8]) -> Refusal
        ensures { IsPlaced (Glyph name.now) self result }
    {
        match Bytes::copied(alloc, name) {
            Ok(name) => self.at(Place::Glyph(name)),
            Err(error) => Refusal::from(error),
        }
    }
}

impl From<Code> for Fault {
    ghost use Rattle.std.specs.Prelude.{◌≡◌};
    ghost use Rattle.t1_frac.specs.declared.fault.Place.TheVariants as places;
    ghost use Rattle.t1_frac.specs.Outcome.{fault_at};

    ghost from_gives = { λ code fault. fault ≡ fault_at places.Nowhere code };

    /// The fault of a call that knows no place.
    fn from(code: Code) -> Fault {
        Fault {
            code,
            place: Place::Nowhere,
        }
    }
}

impl From<Fault> for Refusal {
    ghost use Rattle.std.specs.Prelude.{◌≡◌};
    ghost use Rattle.t1_frac.specs.declared.fault.Refusal.TheVariants as refusals;

    ghost from_gives = { λ fault refused. refused ≡ refusals.Fault fault };

    fn from(fault: Fault) -> Refusal {
        Refusal::Fault(fault)
    }
}

impl From<Code> for Refusal {
    ghost use Rattle.std.specs.Prelude.{◌≡◌};
    ghost use Rattle.t1_frac.specs.Refusals.{refusal};

    ghost from_gives = { λ code refused. refused ≡ refusal code };

    /// The fault of a call that knows no place.
    fn from(code: Code) -> Refusal {
        Refusal::Fault(Fault::from(code))
    }
}

impl From<AllocError> for Refusal {
    ghost use Rattle.std.specs.Prelude.{◌≡◌};
    ghost use Rattle.t1_frac.specs.declared.fault.Refusal.TheVariants.{Memory};

    ghost from_gives = { λ _ refused. refused ≡ Memory };

    fn from(_error: AllocError) -> Refusal {
        Refusal::Memory
    }
}

impl<T: Drop> From<AllocFailed<T>> for Refusal {
    ghost use Rattle.std.specs.Prelude.{◌≡◌};
    ghost use Rattle.t1_frac.specs.declared.fault.Refusal.TheVariants.{Memory};

    ghost from_gives = { λ _ refused. refused ≡ Memory };

    fn from(_error: AllocFailed<T>) -> Refusal {
        Refusal::Memory
    }
}
