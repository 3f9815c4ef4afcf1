//! Points and segments moved.

ghost use Rattle.std.specs.Prelude.{◌≡◌, IfOk};
ghost use Rattle.t1_run.specs.Composite.{moved_point as point_by, moved_segment as segment_by};
ghost use Rattle.t1_run.specs.Composite.{IsPoint, IsWithin};

use crate::outline::{Point, Segment};
use t1_frac::Code;

/// The point, moved. It is refused as a sum of coordinates is, x before y.
pub fn moved_point(point: &Point, by: &Point) -> Result<Point, Code>
    ensures moved { result ≡ point_by by.now point.now }
    ensures within { IfOk result IsPoint }
{
    let x = point.x.add(&by.x)?;
    let y = point.y.add(&by.y)?;
    Ok(Point { x, y })
}

/// The segment, moved point by point.
pub fn moved_segment(segment: &Segment, by: &Point) -> Result<Segment, Code>
    ensures moved { result ≡ segment_by by.now segment.now }
    ensures within { IfOk result IsWithin }
{
    match segment {
        Segment::Line(start, end) => {
            let start = moved_point(start, by)?;
            let end = moved_point(end, by)?;
            Ok(Segment::Line(start, end))
        }
        Segment::Curve(start, first, second, end) => {
            let start = moved_point(start, by)?;
            let first = moved_point(first, by)?;
            let second = moved_point(second, by)?;
            let end = moved_point(end, by)?;
            Ok(Segment::Curve(start, first, second, end))
        }
    }
}
