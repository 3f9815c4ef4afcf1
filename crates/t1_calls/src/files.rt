//! The files of a source, in memory.
ghost use Rattle.std.specs.Prelude.{◌≡◌};
ghost use Rattle.t1_code.specs.Pfb.{whole_file};
ghost use Rattle.t1_frac.specs.Outcome.{Gives};
ghost use Rattle.t1_session.specs.Files.{assembled, assembled_pfa, metrics_file};
ghost use Rattle.t1_calls.specs.Refusing.{refused_by};

use std::alloc::Global;
use t1_code::{BlockSize, Counted};
use t1_frac::Refusal;
use t1_session::{ServeError, assemble_blocks, assemble_pfa, assemble_source, measure_source};

/// The refusal of a call that wrote to memory: its fault, or out of memory, for which alone a
/// vector takes no bytes.
fn refusal(error: ServeError) -> Refusal
    ensures { result ≡ refused_by error }
{
    match error {
        ServeError::Load(fault) => Refusal::Fault(fault),
        ServeError::Read | ServeError::Write | ServeError::Memory => Refusal::Memory,
    }
}

/// The PFB file of a source, a segment a part, or the first fault of reading, of the bodies, or
/// F23.
pub fn pfb_of(alloc: Global, source: &[u8]) -> Result<Vec<u8>, Refusal>
    ensures { Gives (λ file. file.items) result (assembled whole_file source.now) }
{
    let mut out = Counted::new(Vec::new(alloc));
    match assemble_source(alloc, source, &mut out) {
        Ok(()) => Ok(out.into_inner()),
        Err(error) => Err(refusal(error)),
    }
}

/// The same, each part in segments of so many bytes, the last with the rest.
pub fn blocks_of(alloc: Global, source: &[u8], size: BlockSize) -> Result<Vec<u8>, Refusal>
    ensures { Gives (λ file. file.items) result (assembled size source.now) }
{
    let mut out = Counted::new(Vec::new(alloc));
    match assemble_blocks(alloc, source, size.get(), &mut out) {
        Ok(()) => Ok(out.into_inner()),
        Err(error) => Err(refusal(error)),
    }
}

/// The PFA file of a source, or the first fault.
pub fn pfa_of(alloc: Global, source: &[u8]) -> Result<Vec<u8>, Refusal>
    ensures { Gives (λ file. file.items) result (assembled_pfa source.now) }
{
    let mut out = Counted::new(Vec::new(alloc));
    match assemble_pfa(alloc, source, &mut out) {
        Ok(()) => Ok(out.into_inner()),
        Err(error) => Err(refusal(error)),
    }
}

/// The AFM file of a source and a kerning file, or the first fault: of reading the source, of the
/// pairs, of the bodies, F23, or of a glyph.
pub fn afm_of(alloc: Global, source: &[u8], pairs: &[u8]) -> Result<Vec<u8>, Refusal>
    ensures { Gives (λ file. file.items) result (metrics_file source.now pairs.now) }
{
    let mut out = Counted::new(Vec::new(alloc));
    match measure_source(alloc, source, pairs, &mut out) {
        Ok(()) => Ok(out.into_inner()),
        Err(error) => Err(refusal(error)),
    }
}
