//! Points and segments that are moved by several moves, one after another.

ghost use Rattle.std.specs.Prelude.{◌≡◌, IfOk, IsOk};
ghost use Rattle.t1_run.specs.Composite.{IsPoint, IsWithin};
ghost use Rattle.t1_extent.specs.Reached.{ReportsAtOnce};
ghost use Rattle.t1_extent.specs.Turns.{in_turn, through, point_through as point_through_of};
ghost use Rattle.t1_extent.specs.Turns.{segment_through as segment_through_of};

use crate::reached::Reached;
use t1_frac::Code;
use t1_run::{Point, Segment, moved_point, moved_segment};

/// The point, moved by the moves in turn and then by the last.
pub(crate) fn point_through(point: &Point, moves: &[Point], last: &Point) -> Result<Point, Code>
    ensures moved { result ≡ point_through_of moves.now last.now point.now }
    ensures within { IfOk result IsPoint }
{
    let mut moved = *point;
    for by in moves {
        moved = moved_point(&moved, by)?;
    }
    moved_point(&moved, last)
}

/// The segment, moved by the moves in turn and then by the last.
pub(crate) fn segment_through(
    segment: &Segment,
    moves: &[Point],
    last: &Point,
) -> Result<Segment, Code>
    ensures moved { result ≡ segment_through_of moves.now last.now segment.now }
    ensures within { IfOk result IsWithin }
{
    let mut moved = *segment;
    for by in moves {
        moved = moved_segment(&moved, by)?;
    }
    moved_segment(&moved, last)
}

/// How far segments reach that are moved so. Without the last move none of them is refused.
pub(crate) fn segments_through(
    segments: &[Segment],
    moves: &[Point],
    last: &Point,
) -> Result<Reached, Code>
    requires { IsOk (in_turn moves.now segments.now) }
    ensures { ReportsAtOnce result (through moves.now last.now segments.now) }
{
    let mut reached = Reached::nothing();
    for segment in segments {
        let moved = segment_through(segment, moves, last)?;
        reached = reached.united(&Reached::of_segment(&moved));
    }
    Ok(reached)
}
