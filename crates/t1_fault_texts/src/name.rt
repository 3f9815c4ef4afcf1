//! A fault of a source, of its pairs or of a run, by its code and its place.
ghost use Rattle.std.specs.Prelude.{◌≡◌, ◌++◌, IfOk, OnOk, decimal};
ghost use Rattle.t1_commands.specs.AnswerTexts.{code_name, fault_text, place_text};

use itoa::Buffer;
use std::alloc::{AllocError, Global};
use t1_code::Counted;
use t1_commands::put_fault;
use t1_frac::{Code, Fault, Place};

/// The text of a fault: its code and, where it has one, its place.
pub fn fault_text(alloc: Global, fault: &Fault) -> Result<Vec<u8>, AllocError>
    ensures { IfOk result (λ text. text.items ≡ fault_text fault.now) }
{
    let mut text = Counted::new(Vec::new(alloc));
    match put_fault(&mut text, b"", fault, b"") {
        Ok(()) => Ok(text.into_inner()),
        // A vector fails to take bytes only where it can't grow.
        Err(_) => Err(AllocError),
    }
}

/// The printed code of a fault.
#[tactic(auto, unfolding(t1_commands::specs::AnswerTexts::fault_text))]
pub fn code_name(alloc: Global, code: Code) -> Result<Vec<u8>, AllocError>
    ensures { IfOk result (λ name. name.items ≡ code_name code) }
{
    fault_text(alloc, &Fault::from(code))
}

/// Adds a kind of places, and a number.
fn push_number(text: &mut Vec<u8>, kind: &[u8], number: u64) -> Result<(), AllocError>
    ensures { OnOk result (text.new.items ≡ text.old.items ++ (kind.now ++ decimal number)) }
{
    let mut digits = Buffer::new();
    text.extend_from_slice(kind)?;
    text.extend_from_slice(digits.format(number).as_bytes())?;
    Ok(())
}

/// Adds a place as `check` says it, after a space: ` line 5`, ` subr 7`, ` glyph A`; nothing where
/// it is nowhere.
pub fn push_place(text: &mut Vec<u8>, place: &Place) -> Result<(), AllocError>
    ensures { OnOk result (text.new.items ≡ text.old.items ++ place_text place.now) }
{
    match place {
        Place::Nowhere => Ok(()),
        Place::Line(number) => push_number(text, b" line ", *number),
        Place::Subr(number) => push_number(text, b" subr ", u64::from(*number)),
        Place::Glyph(name) => {
            text.extend_from_slice(b" glyph ")?;
            text.extend_from_slice(name.as_slice())?;
            Ok(())
        }
    }
}
