//! A glyph's box.

ghost use Rattle.std.specs.Prelude.{◌≡◌, All, IfOk, IsOk, Some};
ghost use Rattle.t1_run.specs.Composite.{moved_outline, IsWithin};
ghost use Rattle.t1_afm.specs.Points.{points_of};
ghost use Rattle.t1_afm.specs.Box.{box as box_of, outline_box, around, unite as unite_of};

use crate::bbox::{BBox, spanned};
use crate::cubic::Cubic;
use crate::span::Line;
use t1_run::{Point, Segment, moved_segment};

/// The box around a segment's points.
#[tactic(auto, using(crate::proofs::Boxes::line_box, crate::proofs::Boxes::curve_box))]
fn segment_box(segment: &Segment) -> BBox
    requires { IsWithin segment.now }
    ensures { result ≡ box_of (points_of segment.now) }
{
    match segment {
        Segment::Line(a, b) => {
            let x = Line {
                start: a.x,
                end: b.x,
            };
            let y = Line {
                start: a.y,
                end: b.y,
            };
            spanned(x.span(), y.span())
        }
        Segment::Curve(a, b, c, d) => {
            let x = Cubic {
                start: a.x,
                first: b.x,
                second: c.x,
                end: d.x,
            };
            let y = Cubic {
                start: a.y,
                first: b.y,
                second: c.y,
                end: d.y,
            };
            spanned(x.span(), y.span())
        }
    }
}

/// The box around another one and a segment's points.
#[tactic(auto, using(crate::proofs::Boxes::line_box, crate::proofs::Boxes::curve_box))]
fn box_with(bbox: &BBox, segment: &Segment) -> BBox
    requires { IsWithin segment.now }
    ensures { result ≡ around bbox.now (box_of (points_of segment.now)) }
{
    let across = bbox.horizontal();
    let upward = bbox.vertical();
    match segment {
        Segment::Line(a, b) => {
            let x = Line {
                start: a.x,
                end: b.x,
            };
            let y = Line {
                start: a.y,
                end: b.y,
            };
            spanned(x.span_with(&across), y.span_with(&upward))
        }
        Segment::Curve(a, b, c, d) => {
            let x = Cubic {
                start: a.x,
                first: b.x,
                second: c.x,
                end: d.x,
            };
            let y = Cubic {
                start: a.y,
                first: b.y,
                second: c.y,
                end: d.y,
            };
            spanned(x.span_with(&across), y.span_with(&upward))
        }
    }
}

/// The box of what was drawn so far, with the points of a segment.
fn extended(extent: Option<BBox>, segment: &Segment) -> Option<BBox>
    requires { IsWithin segment.now }
    ensures { result ≡ unite_of extent (Some (box_of (points_of segment.now))) }
{
    match extent {
        None => Some(segment_box(segment)),
        Some(bbox) => Some(box_with(&bbox, segment)),
    }
}

/// The box around an outline: over both ends of each line and 65 points of each curve, rounded
/// outward; 0 0 0 0 where it has no segment. Each point is within the limits.
pub fn bounding_box(segments: &[Segment]) -> BBox
    requires { All IsWithin segments.now }
    ensures { result ≡ outline_box segments.now }
{
    let mut extent: Option<BBox> = None;
    for segment in segments {
        extent = extended(extent, segment);
    }
    extent.unwrap_or(BBox::EMPTY)
}

/// The box around an outline, moved before it is rounded. Each moved point is within the limits.
pub fn measure(segments: &[Segment], offset: &Point) -> BBox
    requires { IsOk (moved_outline offset.now segments.now) }
    ensures { IfOk (moved_outline offset.now segments.now)
        (λ outline. result ≡ outline_box outline) }
{
    let mut extent: Option<BBox> = None;
    for segment in segments {
        let Ok(segment) = moved_segment(segment, offset) else {
            unreachable!()
        };
        extent = extended(extent, &segment);
    }
    extent.unwrap_or(BBox::EMPTY)
}
