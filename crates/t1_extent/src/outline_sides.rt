//! The extremes of an outline whose coordinates are whole, in one walk over its segments, which
//! also finds whether they are.

ghost use Rattle.std.specs.Prelude.{◌≡◌, [], ◌∷◌, All, Some, MatchOption, option_map, true, false};
ghost use Rattle.t1_run.specs.Composite.{IsPoint, IsWithin};
ghost use Rattle.t1_extent.specs.Ends.{ends as ends_of_all, ends_of, inner as inner_of_all};
ghost use Rattle.t1_extent.specs.Ends.{inner_of};
ghost use Rattle.t1_extent.specs.Extremes.{IsWhole, IsWholeSegment, corners as corners_of_all};
ghost use Rattle.t1_extent.specs.Extremes.{extremes, is_whole_outline, unite_extremes as unite_of};
ghost use Rattle.t1_extent.specs.Sides.{whole_extremes};

use crate::sides::WholeSides;
use crate::wholes::is_whole_segment;
use t1_run::{Point, Segment};

/// The extremes of the ends of an outline's segments, and those of all its points.
#[derive(Clone, Copy)]
pub(crate) struct OutlineSides {
    pub(crate) ends: WholeSides,
    pub(crate) corners: WholeSides,
}

/// The extremes of both ends of a segment.
#[inline(always)]
fn segment_ends(segment: &Segment) -> WholeSides
    requires within { IsWithin segment.now }
    requires whole { IsWholeSegment segment.now }
    ensures { Some (whole_extremes result) ≡ extremes (ends_of segment.now) }
{
    match segment {
        Segment::Line(a, b) => WholeSides::of(a).reaching(&WholeSides::of(b)),
        Segment::Curve(a, _, _, d) => WholeSides::of(a).reaching(&WholeSides::of(d)),
    }
}

/// Extremes with those of two points, one after the other.
#[inline(always)]
fn with_both(sides: &WholeSides, a: &Point, b: &Point) -> WholeSides
    requires within_a { IsPoint a.now }
    requires within_b { IsPoint b.now }
    requires whole_a { IsWhole a.now }
    requires whole_b { IsWhole b.now }
    ensures { Some (whole_extremes result)
        ≡ unite_of (Some (whole_extremes sides.now)) (extremes (a.now ∷ b.now ∷ [])) }
{
    sides
        .reaching(&WholeSides::of(a))
        .reaching(&WholeSides::of(b))
}

/// Extremes with those of both ends of a segment.
#[inline(always)]
fn with_ends(ends: &WholeSides, segment: &Segment) -> WholeSides
    requires within { IsWithin segment.now }
    requires whole { IsWholeSegment segment.now }
    ensures { Some (whole_extremes result)
        ≡ unite_of (Some (whole_extremes ends.now)) (extremes (ends_of segment.now)) }
{
    match segment {
        Segment::Line(a, b) => with_both(ends, a, b),
        Segment::Curve(a, _, _, d) => with_both(ends, a, d),
    }
}

/// Extremes with those of the two points between the ends of a segment, where it is a curve.
#[inline(always)]
fn with_inner(inner: &WholeSides, segment: &Segment) -> WholeSides
    requires within { IsWithin segment.now }
    requires whole { IsWholeSegment segment.now }
    ensures { Some (whole_extremes result)
        ≡ unite_of (Some (whole_extremes inner.now)) (extremes (inner_of segment.now)) }
{
    match segment {
        Segment::Line(_, _) => *inner,
        Segment::Curve(_, b, c, _) => with_both(inner, b, c),
    }
}

/// The extremes of the ends of segments, and those of all their points, each with what was found
/// before; nothing where some coordinate has a fraction. No point of a line is looked at twice.
fn sides_onto(
    ends_before: &WholeSides,
    inner_before: &WholeSides,
    segments: &[Segment],
) -> Option<OutlineSides>
    requires { All IsWithin segments.now }
    ensures whole { MatchOption result (is_whole_outline segments.now ≡ false)
        (λ _. is_whole_outline segments.now ≡ true) }
    ensures ends { MatchOption result (is_whole_outline segments.now ≡ false)
        (λ s.
        Some (whole_extremes s.ends)
        ≡ unite_of (Some (whole_extremes ends_before.now))
        (extremes (ends_of_all segments.now))) }
    ensures corners { MatchOption result (is_whole_outline segments.now ≡ false)
        (λ s.
        Some (whole_extremes s.corners)
        ≡ unite_of
        (unite_of (Some (whole_extremes ends_before.now))
        (extremes (ends_of_all segments.now)))
        (unite_of (Some (whole_extremes inner_before.now))
        (extremes (inner_of_all segments.now)))) }
{
    let mut ends = *ends_before;
    let mut inner = *inner_before;
    for segment in segments {
        if !is_whole_segment(segment) {
            return None;
        }
        ends = with_ends(&ends, segment);
        inner = with_inner(&inner, segment);
    }
    Some(OutlineSides {
        ends,
        corners: ends.reaching(&inner),
    })
}

/// The extremes of the ends and of all points of an outline, where it has any; nothing where some
/// coordinate has a fraction, and then no segment past the first such one is looked at.
pub(crate) fn outline_sides(segments: &[Segment]) -> Option<Option<OutlineSides>>
    requires { All IsWithin segments.now }
    ensures { MatchOption result (is_whole_outline segments.now ≡ false)
        (λ sides.
        (is_whole_outline segments.now ≡ true)
        × (option_map (λ s. whole_extremes s.ends) sides
        ≡ extremes (ends_of_all segments.now))
        × (option_map (λ s. whole_extremes s.corners) sides
        ≡ extremes (corners_of_all segments.now))) }
{
    let Some((first, rest)) = segments.split_first() else {
        return Some(None);
    };
    if !is_whole_segment(first) {
        return None;
    }
    let ends = segment_ends(first);
    let inner = with_inner(&ends, first);
    Some(Some(sides_onto(&ends, &inner, rest)?))
}
