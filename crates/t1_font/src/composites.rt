//! The composites of an AFM file.
ghost use Rattle.std.specs.Prelude.{◌≡◌, IfOk};
ghost use Rattle.t1_font.specs.Metrics.{composite_data, composites};

use crate::glyph_metrics::GlyphMetrics;
use std::alloc::{AllocError, Global};
use t1_afm::{CompositeMetric, Text};

/// The parts of a composite.
fn composite_metric<'a>(glyph: &'a GlyphMetrics) -> Option<CompositeMetric<'a>>
    ensures { result ≡ composite_data glyph.now }
{
    let Some(parts) = glyph.parts.get() else {
        return None;
    };
    Some(CompositeMetric {
        name: Text::new(glyph.name.as_slice()),
        base: Text::new(parts.base.as_slice()),
        accent: Text::new(parts.accent.as_slice()),
        dx: parts.by.x.nearest(),
        dy: parts.by.y.nearest(),
    })
}

/// The composites in the order of the source.
pub fn composite_metrics<'a>(
    alloc: Global,
    metrics: &'a [GlyphMetrics],
) -> Result<Vec<CompositeMetric<'a>>, AllocError>
    ensures { IfOk result (λ found. found.items ≡ composites metrics.now) }
{
    let mut found = Vec::new(alloc);
    for glyph in metrics {
        let Some(metric) = composite_metric(glyph) else {
            continue;
        };
        found.push(metric)?;
    }
    Ok(found)
}
