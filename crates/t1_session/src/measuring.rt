//! The AFM file of a source's bytes.
ghost use Rattle.std.specs.Prelude.{Ok};
ghost use Rattle.t1_frac.specs.Outcome.{◌>>=◌ as and_then};
ghost use Rattle.t1_afm.specs.Afm.{afm};
ghost use Rattle.t1_font.specs.FontMetrics.{metrics_of};
ghost use Rattle.t1_font.specs.SourceChecks.{measured_source};
ghost use Rattle.t1_session.specs.Delivery.{Delivers};
ghost use Rattle.t1_session.specs.Files.{metrics_file};

use crate::error::ServeError;
use std::alloc::Global;
use std::io::Write;
use t1_code::Counted;
use t1_font::{Compiler, WordsCompiler, measured_glyphs_by, write_source_afm};
use t1_pairs::{Pairs, read_pairs};
use t1_source::{Source, read_source};

/// Reads a source and a kerning file, and writes the AFM file of the font: the whole file at `Ok`,
/// a beginning of it at `Write`. `Load` has the first fault: of reading the source, of the pairs,
/// of the bodies, F23, or of a glyph, in this order; nothing was written then, nor where memory ran
/// out. `Read` is never answered.
pub fn measure_source<W: Write>(
    alloc: Global,
    source: &[u8],
    pairs: &[u8],
    out: &mut Counted<W>,
) -> Result<(), ServeError>
    ensures { Delivers W.contents out.old out.new (metrics_file source.now pairs.now) result }
{
    measure_source_by(alloc, &mut WordsCompiler, source, pairs, out)
}

/// The same, where the bodies are compiled by what is known of them.
#[tactic(auto, unfolding(crate::specs::Files::metrics_file))]
pub fn measure_source_by<C: Compiler, W: Write>(
    alloc: Global,
    compiler: &mut C,
    source: &[u8],
    pairs: &[u8],
    out: &mut Counted<W>,
) -> Result<(), ServeError>
    ensures { Delivers W.contents out.old out.new (metrics_file source.now pairs.now) result }
{
    let source = read_source(alloc, source)?;
    let pairs = read_pairs(alloc, pairs)?;
    write_metrics(alloc, compiler, &source, &pairs, out)
}

/// Writes the AFM file of a source and its pairs, which were read.
fn write_metrics<C: Compiler, W: Write>(
    alloc: Global,
    compiler: &mut C,
    source: &Source,
    pairs: &Pairs,
    out: &mut Counted<W>,
) -> Result<(), ServeError>
    ensures { Delivers W.contents out.old out.new
        (and_then (measured_source source.now)
        (λ glyphs. Ok (afm (metrics_of source.now pairs.now glyphs)))) result }
{
    let glyphs = measured_glyphs_by(alloc, compiler, source)?;
    Ok(write_source_afm(alloc, source, pairs, &glyphs, out)?)
}
