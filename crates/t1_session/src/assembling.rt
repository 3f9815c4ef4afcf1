//! The PFB and PFA files of a source's bytes.
ghost use Rattle.std.specs.Prelude.{◌≤◌, ◌-◌, ◌^◌};
ghost use Rattle.t1_code.specs.Pfb.{whole_file};
ghost use Rattle.t1_session.specs.Delivery.{Delivers};
ghost use Rattle.t1_session.specs.Files.{assembled, assembled_pfa};

use crate::error::ServeError;
use std::alloc::Global;
use std::io::Write;
use t1_code::{BlockSize, Counted, WHOLE_PARTS};
use t1_font::{write_source_pfa, write_source_pfb};
use t1_source::read_source;

/// Reads a source and writes its PFB file, a segment a part: the whole file at `Ok`, a beginning of
/// it at `Write`. `Load` has the first fault of reading, else of the bodies, Subrs first, at the
/// entry, else F23; nothing was written then, nor where memory ran out. `Read` is never answered.
pub fn assemble_source<W: Write>(
    alloc: Global,
    source: &[u8],
    out: &mut Counted<W>,
) -> Result<(), ServeError>
    ensures { Delivers W.contents out.old out.new (assembled whole_file source.now) result }
{
    assemble_blocks(alloc, source, WHOLE_PARTS, out)
}

/// The same, with each part in segments of so many bytes, the last with the rest.
#[tactic(auto, unfolding(crate::specs::Files::assembled))]
pub fn assemble_blocks<W: Write>(
    alloc: Global,
    source: &[u8],
    size: usize,
    out: &mut Counted<W>,
) -> Result<(), ServeError>
    requires some { 1 ≤ size }
    requires short { size ≤ 2 ^ 31 - 1 }
    ensures { Delivers W.contents out.old out.new (assembled size source.now) result }
{
    let size = BlockSize::new(size);
    let source = read_source(alloc, source)?;
    Ok(write_source_pfb(alloc, &source, size, out)?)
}

/// Reads a source and writes its PFA file, with the answers of `assemble_source`.
#[tactic(auto, unfolding(crate::specs::Files::assembled_pfa))]
pub fn assemble_pfa<W: Write>(
    alloc: Global,
    source: &[u8],
    out: &mut Counted<W>,
) -> Result<(), ServeError>
    ensures { Delivers W.contents out.old out.new (assembled_pfa source.now) result }
{
    let source = read_source(alloc, source)?;
    Ok(write_source_pfa(alloc, &source, out)?)
}
