//! Outlines whose coordinates are all whole, as most fonts have.

ghost use Rattle.std.specs.Prelude.{◌≡◌, ◌<◌, ◌≤◌, ◌+◌, ◌^◌, pos, true};
ghost use Rattle.t1_extent.specs.Extremes.{IsWhole, IsWholeSegment, is_whole_point as is_whole_of};
ghost use Rattle.t1_extent.specs.Extremes.{is_whole_segment as segment_is_whole};

use t1_run::{Point, Segment};

/// Whether both coordinates are whole.
pub fn is_whole(point: &Point) -> bool
    ensures value { result ≡ is_whole_of point.now }
    ensures whole { result ≡ true → IsWhole point.now }
{
    point.x.is_whole() && point.y.is_whole()
}

/// The two denominators of a point together, each of which is 1 or more.
#[inline(always)]
fn denominators(point: &Point) -> i64
    ensures value { result ≡ pos (point.now.x.den + point.now.y.den) }
    ensures x { 0 < point.now.x.den }
    ensures y { 0 < point.now.y.den }
    ensures fine { point.now.x.den + point.now.y.den ≤ 2 ^ 21 }
{
    point.x.den() + point.y.den()
}

/// Whether all coordinates of a line or a curve are whole: where its denominators add up to their
/// count. So one comparison tells.
#[inline(always)]
pub(crate) fn is_whole_segment(segment: &Segment) -> bool
    ensures value { result ≡ segment_is_whole segment.now }
    ensures whole { result ≡ true → IsWholeSegment segment.now }
{
    match segment {
        Segment::Line(a, b) => denominators(a) + denominators(b) == 4,
        Segment::Curve(a, b, c, d) => {
            denominators(a) + denominators(b) + denominators(c) + denominators(d) == 8
        }
    }
}
