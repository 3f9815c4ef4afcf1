use std::alloc::{AllocError, AllocFailed};
use t1_frac::Bytes;
use thiserror::Error;

/// Why a file isn't read back as a font, by the code that is printed.
#[derive(Clone, Copy, Debug, PartialEq, Eq)]
pub enum FontCode {
    /// No line of the clear text ends in `currentfile eexec`.
    D1,
    /// A segment that is cut off, or of no type.
    D2,
    /// Another byte among hexadecimal digits, before the private text's end.
    D3,
    /// No line of the private text ends in `mark currentfile closefile`.
    D4,
    /// An entry whose length goes past the encrypted part.
    D5,
    /// A charstring shorter than lenIV.
    D6,
    /// Bytes of a charstring that are no command.
    D7,
    /// A number of a charstring that is cut off.
    D8,
    /// LenIV isn't 0 to 64.
    D9,
    /// LenIV is -1: the charstrings aren't encrypted.
    D10,
    /// A second Subrs line or a second CharStrings line.
    D11,
    /// A multiple master font.
    D12,
    /// A CID-keyed font.
    D13,
    /// An entry that the source would lose, or a line that it would have as an entry.
    D14,
    /// The Subrs line's count is over 0, and no Subr stands behind it.
    D15,
    /// The CharStrings line's count is over 0, and no glyph stands behind it.
    D16,
    /// The source would say another reading operator or lenIV than the font was read by.
    D17,
}

/// Where a fault of a file stands.
#[derive(Debug, Drop)]
pub enum FontPlace {
    Nowhere,
    /// This many bytes after the file's first.
    Byte(u64),
    /// At the entry whose line begins so, as `dup 5` or `/A`.
    Entry(Bytes),
}

#[derive(Debug, Drop)]
pub struct FontFault {
    pub code: FontCode,
    pub place: FontPlace,
}

/// Why a call gives no value: a fault of the file, or out of memory.
#[derive(Debug, Drop, Error)]
pub enum FontRefusal {
    #[error("refused")]
    Fault(FontFault),
    #[error("out of memory")]
    Memory,
}

impl From<FontFault> for FontRefusal {
    ghost use Rattle.std.specs.Prelude.{◌≡◌};
    ghost use Rattle.t1_disassemble.specs.declared.fault.FontRefusal.TheVariants as refusals;

    ghost from_gives = { λ fault refused. refused ≡ refusals.Fault fault };

    fn from(fault: FontFault) -> FontRefusal {
        FontRefusal::Fault(fault)
    }
}

impl From<AllocError> for FontRefusal {
    ghost use Rattle.std.specs.Prelude.{◌≡◌};
    ghost use Rattle.t1_disassemble.specs.declared.fault.FontRefusal.TheVariants.{Memory};

    ghost from_gives = { λ _ refused. refused ≡ Memory };

    fn from(_error: AllocError) -> FontRefusal {
        FontRefusal::Memory
    }
}

impl<T: Drop> From<AllocFailed<T>> for FontRefusal {
    ghost use Rattle.std.specs.Prelude.{◌≡◌};
    ghost use Rattle.t1_disassemble.specs.declared.fault.FontRefusal.TheVariants.{Memory};

    ghost from_gives = { λ _ refused. refused ≡ Memory };

    fn from(_error: AllocFailed<T>) -> FontRefusal {
        FontRefusal::Memory
    }
}

impl From<FontCode> for FontRefusal {
    ghost use Rattle.std.specs.Prelude.{◌≡◌};
    ghost use Rattle.t1_disassemble.specs.declared.fault.FontRefusal.TheVariants as refusals;
    ghost use Rattle.t1_disassemble.specs.declared.fault.FontPlace.TheVariants.{Nowhere};
    ghost use Rattle.t1_disassemble.specs.Outcome.{font_fault_at};

    ghost from_gives = { λ code refused. refused ≡ refusals.Fault (font_fault_at Nowhere code) };

    /// The fault of a call that knows no place.
    fn from(code: FontCode) -> FontRefusal {
        FontRefusal::Fault(FontFault {
            code,
            place: FontPlace::Nowhere,
        })
    }
}
