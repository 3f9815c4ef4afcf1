//! What is measured of glyphs.
ghost use Rattle.std.specs.Prelude.{◌≡◌, map, Ok, Err, MatchResult};
ghost use Rattle.t1_frac.specs.Outcome.{Gives, reported_at};
ghost use Rattle.t1_frac.specs.declared.fault.Place.TheVariants as places;
ghost use Rattle.t1_afm.specs.Box.{united};
ghost use Rattle.t1_font.specs.Glyphs.{placed_parts_of};
ghost use Rattle.t1_extent.specs.FoundRuns.{run_there};
ghost use Rattle.t1_font.specs.MeasuredGlyphs.{glyph_metrics_at};
ghost use Rattle.t1_font.specs.MetricsByRuns.{glyph_metrics_among, glyph_metrics_by};

use crate::glyph_parts::GlyphParts;
use crate::numbers::SubrNumbers;
use std::alloc::Global;
use t1_afm::{BBox, unite};
use t1_extent::{KeptRun, KeptRuns, box_of};
use t1_frac::{Bytes, Code, Refusal, SourceText};
use t1_run::{Point, accent_move};

/// The parts of a composite, and how far its accent is moved.
#[derive(Drop)]
pub struct PlacedParts {
    pub base: Bytes,
    pub accent: Bytes,
    pub by: Point,
}

/// What is measured of a glyph. Its name isn't copied, but borrowed from where it stands.
#[derive(Drop)]
pub struct GlyphMetrics<'a> {
    pub name: SourceText<'a>,
    pub width: Point,
    /// The Subrs that its own run entered, ascending and each once.
    pub entered: SubrNumbers,
    /// The parts of a composite.
    pub parts: GlyphParts,
    /// The box around its outline, where it draws.
    pub bbox: Option<BBox>,
}

/// The parts of a composite, and how far its accent is moved.
fn placed_parts(alloc: Global, run: &KeptRun) -> Result<GlyphParts, Refusal>
    ensures { Gives (λ parts. parts) result
        (reported_at places.Nowhere
        (placed_parts_of run.now.drawing.bearing run.now.drawing.composite)) }
{
    let Some(parts) = run.composite() else {
        return Ok(GlyphParts::none());
    };
    let by = accent_move(&run.side_bearing(), parts)?;
    let placed = PlacedParts {
        base: Bytes::copied(alloc, parts.base.as_slice())?,
        accent: Bytes::copied(alloc, parts.accent.as_slice())?,
        by,
    };
    Ok(GlyphParts::of(alloc, placed)?)
}

/// The run of a glyph, or its first fault.
fn run_of<'a, R: KeptRuns>(runs: &'a R, name: &[u8]) -> Result<&'a KeptRun, Code>
    ensures { MatchResult
        result
        (λ run. run_there (R.drawn runs.now name.now) ≡ Ok run.now.drawing)
        (λ code. run_there (R.drawn runs.now name.now) ≡ Err code) }
{
    match runs.run_of(name) {
        None => Err(Code::F45),
        Some(run) => run,
    }
}

/// What is measured of a glyph whose run and box are known, or the fault of the move of its accent,
/// at no place.
pub fn metrics_of_run<'a>(
    alloc: Global,
    name: &'a [u8],
    run: &KeptRun,
    bbox: Option<BBox>,
) -> Result<GlyphMetrics<'a>, Refusal>
    ensures { Gives
        (λ glyph. glyph)
        result
        (reported_at places.Nowhere (glyph_metrics_by name.now run.now.drawing bbox)) }
{
    Ok(GlyphMetrics {
        name: SourceText::borrowed(name),
        width: run.width(),
        entered: SubrNumbers::copied(alloc, run.entered())?,
        parts: placed_parts(alloc, run)?,
        bbox,
    })
}

/// What is measured of a glyph, or its first fault, at no place.
#[tactic(auto, unfolding(crate::specs::MeasuredGlyphs::glyph_metrics_at))]
fn unplaced_metrics<'a, R: KeptRuns>(
    alloc: Global,
    runs: &R,
    name: &'a [u8],
) -> Result<GlyphMetrics<'a>, Refusal>
    ensures { Gives
        (λ glyph. glyph)
        result
        (reported_at places.Nowhere (glyph_metrics_at (R.drawn runs.now) name.now)) }
{
    let run = run_of(runs, name)?;
    let bbox = box_of(alloc, runs, name)?;
    metrics_of_run(alloc, name, run, bbox)
}

/// What is measured of a glyph, or its first fault, at the glyph.
#[tactic(auto, using(t1_frac::proofs::OutcomeLaws::refuses_at))]
pub(crate) fn placed_metrics<'a, R: KeptRuns>(
    alloc: Global,
    runs: &R,
    name: &'a [u8],
) -> Result<GlyphMetrics<'a>, Refusal>
    ensures { Gives
        (λ glyph. glyph)
        result
        (reported_at (places.Glyph name.now) (glyph_metrics_at (R.drawn runs.now) name.now)) }
{
    match unplaced_metrics(alloc, runs, name) {
        Err(refusal) => Err(refusal.at_glyph(alloc, name)),
        glyph => glyph,
    }
}

/// What is measured of these glyphs, in their order, or the first fault of a glyph.
#[tactic(auto, unfolding(crate::specs::MetricsByRuns::glyph_metrics_among))]
pub fn glyph_metrics_of<'a, R: KeptRuns>(
    alloc: Global,
    runs: &R,
    names: &[&'a [u8]],
) -> Result<Vec<GlyphMetrics<'a>>, Refusal>
    ensures { Gives
        (λ metrics. metrics.items)
        result
        (glyph_metrics_among (R.drawn runs.now) (map (λ name. name.now) names.now)) }
{
    let mut metrics = Vec::new(alloc);
    for name in names {
        metrics.push(placed_metrics(alloc, runs, name)?)?;
    }
    Ok(metrics)
}

/// The box around all glyphs that draw; 0 0 0 0 where none does.
pub fn font_box(metrics: &[GlyphMetrics]) -> BBox
    ensures { result ≡ united (map (λ glyph. glyph.bbox) metrics.now) }
{
    let mut extent: Option<BBox> = None;
    for glyph in metrics {
        extent = unite(extent, glyph.bbox);
    }
    extent.unwrap_or(BBox::EMPTY)
}
