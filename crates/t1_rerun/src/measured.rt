//! The metrics of a font whose records are kept.
ghost use Rattle.std.specs.Prelude.{map};
ghost use Rattle.t1_frac.specs.Outcome.{Gives, reported_at};
ghost use Rattle.t1_frac.specs.declared.fault.Place.TheVariants.{Nowhere};
ghost use Rattle.t1_parts.specs.SourceParts.{SourceParts};
ghost use Rattle.t1_font.specs.SourceChecks.{measured_source};
ghost use Rattle.t1_cache.specs.Recorded.{kept_of};
ghost use Rattle.t1_rerun.specs.Measured.{kept_metrics};
ghost use Rattle.t1_rerun.specs.Right.{IsRight};

use std::alloc::Global;
use t1_cache::Records;
use t1_font::{GlyphMetrics, MeasuredGlyphs, metrics_of_run};
use t1_frac::Refusal;

/// What is reported of each glyph that has a record, in their order.
fn kept_glyphs(alloc: Global, records: &Records) -> Result<Vec<GlyphMetrics<'_>>, Refusal>
    ensures { Gives (λ metrics. metrics.items) result
        (reported_at Nowhere (kept_metrics (map kept_of records.now.glyphs.entries))) }
{
    let mut metrics = Vec::with_capacity(alloc, records.glyphs.len())?;
    for at in 0..records.glyphs.len() {
        let Some((name, glyph)) = records.glyphs.get_index(at) else {
            break;
        };
        let record = glyph.record();
        metrics.push(metrics_of_run(alloc, name.as_slice(), &record.run, record.bbox)?)?;
    }
    Ok(metrics)
}

/// The metrics of the glyphs of a source whose records are right. No glyph is run.
pub fn measured_records(alloc: Global, records: &Records) -> Result<MeasuredGlyphs<'_>, Refusal>
    ensures { (s : SourceParts)
        → IsRight s records.now
        → Gives (λ font. font) result (measured_source s) }
{
    let metrics = kept_glyphs(alloc, records)?;
    Ok(MeasuredGlyphs::of(metrics))
}
