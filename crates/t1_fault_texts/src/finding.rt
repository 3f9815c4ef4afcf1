//! The fault of a kerning file, where it stands.
ghost use Rattle.std.specs.Prelude.{◌≡◌, ◌∷◌, [], IfOk};
ghost use Rattle.t1_fault_texts.specs.Finding.{pairs_faults};

use std::alloc::{AllocError, Global};
use t1_faults::{FoundFault, reading_fault};
use t1_frac::Refusal;
use t1_pairs::read_pairs;

/// A list of one fault.
fn one_fault<'a>(alloc: Global, fault: FoundFault<'a>) -> Result<Vec<FoundFault<'a>>, AllocError>
    ensures { IfOk result (λ found. found.items ≡ fault.entry ∷ []) }
{
    let mut found = Vec::new(alloc);
    found.push(fault)?;
    Ok(found)
}

/// The fault of reading a kerning file, where it has one: its first.
pub fn pairs_faults(alloc: Global, bytes: &[u8]) -> Result<Vec<FoundFault<'_>>, AllocError>
    ensures { IfOk result (λ found. found.items ≡ pairs_faults bytes.now) }
{
    match read_pairs(alloc, bytes) {
        Ok(_) => Ok(Vec::new(alloc)),
        Err(Refusal::Fault(fault)) => one_fault(alloc, reading_fault(alloc, bytes, fault)),
        Err(Refusal::Memory) => Err(AllocError),
    }
}
