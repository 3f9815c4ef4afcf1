//! Edits of a source and its pairs, and the rules that they keep.

ghost use Rattle.std.specs.Prelude.{◌≡◌, IfOk};

use std::alloc::{AllocError, AllocFailed, Global};
use t1_frac::{Bytes, Fault};
use thiserror::Error;

/// One edit. Names and bodies are bytes; a body is cut into words, without its comments.
#[derive(Drop)]
pub enum Edit {
    /// A name and a body.
    ReplaceGlyph(Bytes, Bytes),
    /// A name and a body.
    AddGlyph(Bytes, Bytes),
    RemoveGlyph(Bytes),
    /// A number and a body.
    ReplaceSubr(i64, Bytes),
    /// A number and a body.
    AddSubr(i64, Bytes),
    RemoveSubr(i64),
    /// A code and a name.
    Encode(i64, Bytes),
    Unencode(i64),
    /// The number of bytes in front of each charstring.
    LenIv(i64),
    /// The left name, the right name and the value.
    Kern(Bytes, Bytes, i64),
    Unkern(Bytes, Bytes),
}

/// Copies of two texts.
fn copied_both(alloc: Global, first: &Bytes, second: &Bytes) -> Result<(Bytes, Bytes), AllocError>
    ensures { IfOk result (λ copies. copies ≡ (first.now, second.now)) }
{
    let first = Bytes::copied(alloc, first.as_slice())?;
    let second = Bytes::copied(alloc, second.as_slice())?;
    Ok((first, second))
}

impl Edit {
    /// A copy.
    pub fn copied(&self, alloc: Global) -> Result<Edit, AllocError>
        ensures { IfOk result (λ copy. copy ≡ self.now) }
    {
        match self {
            Edit::ReplaceGlyph(name, body) => {
                let (name, body) = copied_both(alloc, name, body)?;
                Ok(Edit::ReplaceGlyph(name, body))
            }
            Edit::AddGlyph(name, body) => {
                let (name, body) = copied_both(alloc, name, body)?;
                Ok(Edit::AddGlyph(name, body))
            }
            Edit::RemoveGlyph(name) => Ok(Edit::RemoveGlyph(Bytes::copied(
                alloc,
                name.as_slice(),
            )?)),
            Edit::ReplaceSubr(number, body) => {
                let body = Bytes::copied(alloc, body.as_slice())?;
                Ok(Edit::ReplaceSubr(*number, body))
            }
            Edit::AddSubr(number, body) => {
                Ok(Edit::AddSubr(*number, Bytes::copied(alloc, body.as_slice())?))
            }
            Edit::RemoveSubr(number) => Ok(Edit::RemoveSubr(*number)),
            Edit::Encode(code, name) => {
                Ok(Edit::Encode(*code, Bytes::copied(alloc, name.as_slice())?))
            }
            Edit::Unencode(code) => Ok(Edit::Unencode(*code)),
            Edit::LenIv(number) => Ok(Edit::LenIv(*number)),
            Edit::Kern(left, right, value) => {
                let (left, right) = copied_both(alloc, left, right)?;
                Ok(Edit::Kern(left, right, *value))
            }
            Edit::Unkern(left, right) => {
                let (left, right) = copied_both(alloc, left, right)?;
                Ok(Edit::Unkern(left, right))
            }
        }
    }
}

/// The rule that an edit breaks, by the code that is printed.
#[derive(Clone, Copy, Debug, PartialEq, Eq)]
pub enum Rule {
    /// Replace or remove: no such glyph or Subr.
    E1,
    /// Add: already there.
    E2,
    /// A bad name.
    E3,
    /// Not a number word, or out of range.
    E4,
    /// The encoding is StandardEncoding.
    E5,
    /// `{` or `}` in a body, outside comments.
    E6,
    /// The input ended inside a body.
    E7,
    /// An unknown command or a wrong number of words.
    E8,
    /// The font has no Subrs section.
    E9,
    /// No such pair or slot.
    E10,
    /// A batch is open already.
    E11,
    /// No batch is open.
    E12,
}

/// Why an edit is refused: the first rule that it breaks, a fault of the font that it would make,
/// or out of memory.
#[derive(Debug, Drop, Error)]
pub enum Cause {
    #[error("a rule is broken")]
    Rule(Rule),
    #[error("a fault")]
    Fault(Fault),
    #[error("out of memory")]
    Memory,
}

impl From<Rule> for Cause {
    ghost use Rattle.std.specs.Prelude.{◌≡◌};
    ghost use Rattle.t1_source.specs.declared.edit.Cause.TheVariants as causes;

    ghost from_gives = { λ rule cause. cause ≡ causes.Rule rule };

    fn from(rule: Rule) -> Cause {
        Cause::Rule(rule)
    }
}

impl From<AllocError> for Cause {
    ghost use Rattle.std.specs.Prelude.{◌≡◌};
    ghost use Rattle.t1_source.specs.declared.edit.Cause.TheVariants as causes;

    ghost from_gives = { λ _ cause. cause ≡ causes.Memory };

    fn from(_error: AllocError) -> Cause {
        Cause::Memory
    }
}

impl<T: Drop> From<AllocFailed<T>> for Cause {
    ghost use Rattle.std.specs.Prelude.{◌≡◌};
    ghost use Rattle.t1_source.specs.declared.edit.Cause.TheVariants as causes;

    ghost from_gives = { λ _ cause. cause ≡ causes.Memory };

    fn from(_error: AllocFailed<T>) -> Cause {
        Cause::Memory
    }
}
