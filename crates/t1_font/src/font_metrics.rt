//! What an AFM file says of a source.
ghost use Rattle.std.specs.Prelude.{◌≡◌, IfOk};
ghost use Rattle.t1_parts.specs.Header.{header as header_of};
ghost use Rattle.t1_font.specs.FontMetrics.{header_values, metrics_of};

use crate::chars::char_metrics;
use crate::composites::composite_metrics;
use crate::glyphs::MeasuredGlyphs;
use crate::kern::kern_metrics;
use std::alloc::{AllocError, Global};
use t1_afm::{Header, Metrics, Text};
use t1_pairs::Pairs;
use t1_source::Source;

/// The value of a header key.
fn value<'a>(source: &'a Source, key: &str) -> Option<Text<'a>>
    ensures { result ≡ header_of source.now key.now }
{
    let Some(bytes) = source.header(key) else {
        return None;
    };
    Some(Text::new(bytes))
}

/// The values about the whole font.
pub fn header<'a>(source: &'a Source) -> Header<'a>
    ensures { result ≡ header_values source.now }
{
    Header {
        font_name: value(source, "FontName"),
        full_name: value(source, "FullName"),
        family_name: value(source, "FamilyName"),
        weight: value(source, "Weight"),
        italic_angle: value(source, "ItalicAngle"),
        is_fixed_pitch: value(source, "isFixedPitch"),
        underline_position: value(source, "UnderlinePosition"),
        underline_thickness: value(source, "UnderlineThickness"),
        version: value(source, "version"),
        notice: value(source, "Notice"),
    }
}

/// What the AFM file of a source and its pairs says, by what is measured of the glyphs.
pub fn metrics<'a>(
    alloc: Global,
    source: &'a Source,
    pairs: &'a Pairs,
    glyphs: &'a MeasuredGlyphs,
) -> Result<Metrics<'a>, AllocError>
    ensures { IfOk result (λ metrics. metrics ≡ metrics_of source.now pairs.now glyphs.now) }
{
    let metrics = glyphs.metrics();
    let chars = char_metrics(alloc, source, metrics)?;
    let pairs = kern_metrics(alloc, metrics, pairs)?;
    let composites = composite_metrics(alloc, metrics)?;
    Ok(Metrics {
        header: header(source),
        standard: source.standard(),
        font_box: glyphs.font_box(),
        chars,
        pairs,
        composites,
    })
}
