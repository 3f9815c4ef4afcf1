//! The engine for C: sessions by handles, and the files of a source or of a font in buffers.
//!
//! `include/t1edit.h` has the calls as C sees them, and docs/LIBRARY.md what C owes. Each of them
//! answers a status of `status.rt`, and tells a text as much of it as there is room for in a
//! buffer, and its length.
#![tactic(auto)]

mod delivering;
mod handle;
mod kept;
mod loose;
mod status;
mod telling;
mod texts;

ghost use Rattle.std.specs.Prelude.{◌≡◌, ◌==◌, ◌∷◌, [], true, None, pos, is_none, IfSome};
ghost use Rattle.t1_frac.specs.Words.{words};
ghost use Rattle.t1_code.specs.Pfb.{whole_file};
ghost use Rattle.t1_commands.specs.Blocks.{block_size};
ghost use Rattle.t1_commands.specs.Commands.{takes_body};
ghost use Rattle.t1_disassemble.specs.Disassembly.{disassembled};
ghost use Rattle.t1_session.specs.Files.{assembled, assembled_pfa, metrics_file, verdict};
ghost use Rattle.t1_session.specs.Machine.{scratch};
ghost use Rattle.t1_fault_texts.specs.Rows.{fault_rows};
ghost use Rattle.t1_c.specs.Calls.{answer_in, is_status_among, is_misuse};
ghost use Rattle.t1_c.specs.Calls.{Delivered, DeliveredFont, IsTurned, Judged, Listed};
ghost use Rattle.t1_c.specs.Calls.{NothingTold, Opens, RefusesWithText, Told};

use crate::delivering::{deliver, deliver_source, segment_length, tell_faults, tell_judgement};
use crate::handle::Handle;
use crate::kept::HandleContents;
use crate::status::{DONE, MEMORY, MISUSED, REFUSED};
use crate::telling::{perform, tell_answer};
use crate::texts::tell_fault;
use std::alloc::Global;
use std::mem;
use t1_calls::{Talk, afm_of, blocks_of, pfa_of, pfb_of};
use t1_disassemble::disassemble;
use t1_fault_texts::fault_rows;
use t1_frac::Refusal;
use t1_session::check_source;

/// The version of these calls.
const VERSION: u32 = 1;

/// The version of these calls.
#[unsafe(no_mangle)]
pub extern "C" fn t1edit_version() -> u32
    ensures { result ≡ 1 }
{
    VERSION
}

/// Opens a session on a source and its pairs, of which nothing is read again once it is open; or
/// tells the first fault. A session that is open there is closed first.
#[unsafe(no_mangle)]
pub extern "C" fn t1edit_open(
    alloc: Global,
    source: &[u8],
    pairs: &[u8],
    at: &mut Handle,
    out: &mut [u8],
    length: &mut usize,
) -> u32
    ensures done { result ≡ 0 → Opens (scratch source.now pairs.now) at.new.value }
    ensures refused { result ≡ 1 → RefusesWithText (scratch source.now pairs.now) out.old out.new
        length.new }
    ensures closed { is_status_among (1 ∷ 2 ∷ []) result ≡ true → at.new.value ≡ None }
    ensures silent { is_status_among (0 ∷ 2 ∷ []) result ≡ true
        → NothingTold out.old out.new length.old length.new }
    ensures known { is_status_among (0 ∷ 1 ∷ 2 ∷ []) result ≡ true }
{
    t1edit_close(alloc, at);
    match Talk::open(alloc, source, pairs) {
        Ok(talk) => match Box::new(alloc, HandleContents { talk }) {
            Ok(kept) => {
                *at = Handle::give(kept);
                DONE
            }
            Err(_) => MEMORY,
        },
        Err(Refusal::Fault(fault)) => match tell_fault(alloc, &fault, out, length) {
            Ok(()) => REFUSED,
            Err(_) => MEMORY,
        },
        Err(Refusal::Memory) => MEMORY,
    }
}

/// Performs the command of a line, with the body where the line takes one, and tells its answer.
#[unsafe(no_mangle)]
pub extern "C" fn t1edit_perform(
    alloc: Global,
    at: &mut Handle,
    line: &[u8],
    body: &[u8],
    out: &mut [u8],
    length: &mut usize,
) -> u32
    ensures done { result ≡ 0 → IsTurned at.old.value at.new.value line.now body.now }
    ensures told { result ≡ 0 → Told (answer_in at.new.value) out.old out.new length.new }
    ensures untold { result ≡ 3 → IsTurned at.old.value at.new.value line.now body.now }
    ensures misused { (result == 4) ≡ is_misuse at.old.value line.now body.now }
    ensures memory { result ≡ 2 → takes_body (words line.now) ≡ true }
    ensures same { is_status_among (2 ∷ 4 ∷ []) result ≡ true → at.new.value ≡ at.old.value }
    ensures silent { is_status_among (2 ∷ 3 ∷ 4 ∷ []) result ≡ true → NothingTold out.old out.new
        length.old length.new }
    ensures known { is_status_among (0 ∷ 2 ∷ 3 ∷ 4 ∷ []) result ≡ true }
{
    match mem::replace(at, Handle::none(alloc)).take() {
        None => MISUSED,
        Some(mut kept) => {
            let status = perform(&mut kept.talk, line, body, out, length);
            *at = Handle::give(kept);
            status
        }
    }
}

/// Tells the last answer again.
#[unsafe(no_mangle)]
pub extern "C" fn t1edit_answer(
    alloc: Global,
    at: &mut Handle,
    out: &mut [u8],
    length: &mut usize,
) -> u32
    ensures told { result ≡ 0 → Told (answer_in at.old.value) out.old out.new length.new }
    ensures misused { (result == 4) ≡ is_none at.old.value }
    ensures same { at.new.value ≡ at.old.value }
    ensures silent { is_status_among (2 ∷ 4 ∷ []) result ≡ true
        → NothingTold out.old out.new length.old length.new }
    ensures known { is_status_among (0 ∷ 2 ∷ 4 ∷ []) result ≡ true }
{
    match mem::replace(at, Handle::none(alloc)).take() {
        None => MISUSED,
        Some(kept) => {
            let told = tell_answer(&kept.talk, out, length);
            *at = Handle::give(kept);
            match told {
                Ok(()) => DONE,
                Err(_) => MEMORY,
            }
        }
    }
}

/// Closes a session: its memory is given back.
#[unsafe(no_mangle)]
pub extern "C" fn t1edit_close(alloc: Global, at: &mut Handle)
    ensures { at.new.value ≡ None }
{
    *at = Handle::none(alloc);
}

/// Tells the PFB file of a source, or the source's first fault.
#[unsafe(no_mangle)]
pub extern "C" fn t1edit_assemble(
    alloc: Global,
    source: &[u8],
    out: &mut [u8],
    length: &mut usize,
) -> u32
    ensures { Delivered result (assembled whole_file source.now) out.old out.new length.old
        length.new }
{
    deliver(alloc, pfb_of(alloc, source), out, length)
}

/// The same, each part in segments of so many bytes, from 1 to 2147483647.
#[unsafe(no_mangle)]
pub extern "C" fn t1edit_assemble_blocks(
    alloc: Global,
    source: &[u8],
    size: usize,
    out: &mut [u8],
    length: &mut usize,
) -> u32
    ensures done { IfSome (block_size (pos size)) (λ segment. Delivered result
        (assembled segment source.now) out.old out.new length.old length.new) }
    ensures misused { block_size (pos size) ≡ None → result ≡ 4 }
    ensures silent { block_size (pos size) ≡ None → NothingTold out.old out.new length.old
        length.new }
{
    match segment_length(size) {
        Some(segment) => deliver(alloc, blocks_of(alloc, source, segment), out, length),
        None => MISUSED,
    }
}

/// Tells the PFA file of a source, or the source's first fault.
#[unsafe(no_mangle)]
pub extern "C" fn t1edit_assemble_pfa(
    alloc: Global,
    source: &[u8],
    out: &mut [u8],
    length: &mut usize,
) -> u32
    ensures { Delivered result (assembled_pfa source.now) out.old out.new length.old
        length.new }
{
    deliver(alloc, pfa_of(alloc, source), out, length)
}

/// Tells the AFM file of a source and its pairs, or the first fault.
#[unsafe(no_mangle)]
pub extern "C" fn t1edit_measure(
    alloc: Global,
    source: &[u8],
    pairs: &[u8],
    out: &mut [u8],
    length: &mut usize,
) -> u32
    ensures { Delivered result (metrics_file source.now pairs.now) out.old out.new length.old
        length.new }
{
    deliver(alloc, afm_of(alloc, source, pairs), out, length)
}

/// Judges a source and its pairs as measuring them does, and tells the first fault where there is
/// one.
#[unsafe(no_mangle)]
pub extern "C" fn t1edit_check(
    alloc: Global,
    source: &[u8],
    pairs: &[u8],
    out: &mut [u8],
    length: &mut usize,
) -> u32
    ensures { Judged result (verdict source.now pairs.now) out.old out.new length.old
        length.new }
{
    tell_judgement(alloc, check_source(alloc, source, pairs), out, length)
}

/// Tells every fault of a source and its pairs, a line each.
#[unsafe(no_mangle)]
pub extern "C" fn t1edit_faults(
    alloc: Global,
    source: &[u8],
    pairs: &[u8],
    out: &mut [u8],
    length: &mut usize,
) -> u32
    ensures { Listed result (fault_rows source.now pairs.now) out.old out.new length.old
        length.new }
{
    tell_faults(fault_rows(alloc, source, pairs), out, length)
}

/// Tells the readable source of a font's file, or the file's first fault.
#[unsafe(no_mangle)]
pub extern "C" fn t1edit_disassemble(
    alloc: Global,
    font: &[u8],
    out: &mut [u8],
    length: &mut usize,
) -> u32
    ensures { DeliveredFont result (disassembled font.now) out.old out.new length.old
        length.new }
{
    deliver_source(alloc, disassemble(alloc, font), out, length)
}
