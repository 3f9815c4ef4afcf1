//! A font's AFM file.
ghost use Rattle.std.specs.Prelude.{◌≡◌, [], Ok, IfOk};
ghost use Rattle.t1_code.specs.Parts.{Prints};
ghost use Rattle.t1_afm.specs.Afm.{afm};
ghost use Rattle.t1_font.specs.FontMetrics.{metrics_of};

use crate::font_metrics::metrics;
use crate::glyphs::MeasuredGlyphs;
use std::alloc::{AllocError, Global};
use std::io::Write;
use t1_afm::{Metrics, write_afm};
use t1_code::{Counted, OutError};
use t1_pairs::Pairs;
use t1_source::Source;

/// Writes the AFM file of a source, its pairs and its measured glyphs: the whole file at `Ok`, a
/// beginning of it at `Write`, nothing where memory runs out. No fault is answered.
pub fn write_source_afm<W: Write>(
    alloc: Global,
    source: &Source,
    pairs: &Pairs,
    glyphs: &MeasuredGlyphs,
    out: &mut Counted<W>,
) -> Result<(), OutError>
    ensures { Prints W.contents out.old out.new
        (Ok (afm (metrics_of source.now pairs.now glyphs.now))) result }
{
    let metrics = metrics(alloc, source, pairs, glyphs)?;
    write_afm(&metrics, out)
}

/// What the most lines take of an AFM file.
const LINE: usize = 48;

/// A vector that takes the AFM file of most fonts without growing.
fn room_for(alloc: Global, metrics: &Metrics) -> Result<Vec<u8>, AllocError>
    ensures { IfOk result (λ room. room.items ≡ []) }
{
    Vec::with_capacity(alloc, metrics.chars.len().saturating_mul(LINE))
}

/// The AFM file that says this of a source.
pub fn afm_text(alloc: Global, metrics: &Metrics) -> Result<Vec<u8>, AllocError>
    ensures { IfOk result (λ file. file.items ≡ afm metrics.now) }
{
    let mut out = Counted::new(room_for(alloc, metrics)?);
    match write_afm(metrics, &mut out) {
        Ok(()) => Ok(out.into_inner()),
        // A vector fails to take bytes only where it can't grow.
        Err(_) => Err(AllocError),
    }
}
