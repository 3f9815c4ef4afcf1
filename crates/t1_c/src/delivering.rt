//! Files told in buffers of the caller's.
ghost use Rattle.std.specs.Prelude.{◌≡◌, ℕ, List, pos, IfOk, Result};
ghost use Rattle.t1_frac.specs.declared.fault.Fault.{Fault};
ghost use Rattle.t1_frac.specs.Outcome.{Gives};
ghost use Rattle.t1_disassemble.specs.declared.fault.FontFault.{FontFault};
ghost use Rattle.t1_disassemble.specs.Outcome.{GivesFont};
ghost use Rattle.t1_commands.specs.Blocks.{block_size};
ghost use Rattle.t1_c.specs.Calls.{Delivered, DeliveredFont, Judged, Listed};

use crate::status::{DONE, MEMORY, REFUSED};
use crate::texts::{put, tell_fault, tell_font_fault};
use std::alloc::{AllocError, Global};
use t1_code::BlockSize;
use t1_disassemble::FontRefusal;
use t1_frac::Refusal;

/// The length of segments, from 1 to 2147483647 bytes.
pub fn segment_length(size: usize) -> Option<BlockSize>
    ensures { result ≡ block_size (pos size) }
{
    if 1 <= size && size <= 2_147_483_647 {
        Some(BlockSize::new(size))
    } else {
        None
    }
}

/// Tells a file, or the fault that refuses it.
pub fn deliver(
    alloc: Global,
    made: Result<Vec<u8>, Refusal>,
    out: &mut [u8],
    length: &mut usize,
) -> u32
    ensures { (given : Result (List ℕ) Fault) → Gives (λ file. file.items) made given →
        Delivered result given out.old out.new length.old length.new }
{
    match made {
        Ok(file) => {
            *length = put(&file, out);
            DONE
        }
        Err(Refusal::Fault(fault)) => match tell_fault(alloc, &fault, out, length) {
            Ok(()) => REFUSED,
            Err(_) => MEMORY,
        },
        Err(Refusal::Memory) => MEMORY,
    }
}

/// Tells the source of a font's file, or the fault that refuses the file.
pub fn deliver_source(
    alloc: Global,
    made: Result<Vec<u8>, FontRefusal>,
    out: &mut [u8],
    length: &mut usize,
) -> u32
    ensures { (given : Result (List ℕ) FontFault) → GivesFont (λ file. file.items) made given →
        DeliveredFont result given out.old out.new length.old length.new }
{
    match made {
        Ok(source) => {
            *length = put(&source, out);
            DONE
        }
        Err(FontRefusal::Fault(fault)) => match tell_font_fault(alloc, &fault, out, length) {
            Ok(()) => REFUSED,
            Err(_) => MEMORY,
        },
        Err(FontRefusal::Memory) => MEMORY,
    }
}

/// Tells how a source was judged: nothing, or its first fault.
pub fn tell_judgement(
    alloc: Global,
    judged: Result<(), Refusal>,
    out: &mut [u8],
    length: &mut usize,
) -> u32
    ensures { (given : Result (Unit {0}) Fault) → Gives (λ _. tt) judged given →
        Judged result given out.old out.new length.old length.new }
{
    match judged {
        Ok(()) => DONE,
        Err(Refusal::Fault(fault)) => match tell_fault(alloc, &fault, out, length) {
            Ok(()) => REFUSED,
            Err(_) => MEMORY,
        },
        Err(Refusal::Memory) => MEMORY,
    }
}

/// Tells the lines of faults: where there are none, nothing is refused.
pub fn tell_faults(made: Result<Vec<u8>, AllocError>, out: &mut [u8], length: &mut usize) -> u32
    ensures { (given : List ℕ) → IfOk made (λ text. text.items ≡ given) →
        Listed result given out.old out.new length.old length.new }
{
    match made {
        Ok(text) => {
            *length = put(&text, out);
            if text.is_empty() { DONE } else { REFUSED }
        }
        Err(_) => MEMORY,
    }
}
