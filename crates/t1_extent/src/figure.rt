//! Outlines whose coordinates are all whole.

ghost use Rattle.std.specs.Prelude.{◌^◌};
ghost use Rattle.t1_run.specs.Composite.{IsPoint};
ghost use Rattle.t1_extent.specs.Exacts.{AreFine};
ghost use Rattle.t1_extent.specs.Extremes.{IsWhole};

use crate::distance::Distance;
use crate::drawn::drawn_within;
use crate::extent::Extent;
use crate::outline_sides::{OutlineSides, outline_sides};
use crate::reached::{Drawn, Reached};
use crate::turns::point_through;
use t1_frac::Code;
use t1_run::{Point, Segment};

/// An outline whose coordinates are all whole: where it starts, and how far its drawn points and
/// all its points reach.
#[derive(Clone, Copy)]
pub struct Figure {
    start: Point,
    drawn: Extent,
    corners: Extent,
    ghost place: { IsPoint start },
    ghost whole: { IsWhole start },
    ghost drawn_fine: { AreFine (2 ^ 20) drawn },
    ghost corners_fine: { AreFine 1 corners },
}

impl Figure {
    ghost use Rattle.std.specs.Prelude.{◌≡◌, true, false, List, All, IfSome, IsOk, MatchOption};
    ghost use Rattle.std.specs.Prelude.{option_map};
    ghost use Rattle.t1_run.specs.declared.outline.Segment.{Segment};
    ghost use Rattle.t1_run.specs.Composite.{IsWithin};
    ghost use Rattle.t1_extent.specs.Ends.{ends as ends_of_all};
    ghost use Rattle.t1_extent.specs.Extremes.{IsWholeSegment, corners as corners_of_all, extremes};
    ghost use Rattle.t1_extent.specs.Extremes.{is_whole_outline};
    ghost use Rattle.t1_extent.specs.Figures.{first_point as first_point_of, IsFigureOf};
    ghost use Rattle.t1_extent.specs.Figures.{IsWholeFigure};
    ghost use Rattle.t1_extent.specs.Laws.{IsDistance};
    ghost use Rattle.t1_extent.specs.Reached.{IsReach, ReportsAtOnce};
    ghost use Rattle.t1_extent.specs.Sides.{whole_extremes};
    ghost use Rattle.t1_extent.specs.Turns.{in_turn, through as through_of};

    /// The first point of an outline.
    fn first_point(segments: &[Segment]) -> Option<Point>
        requires within { All IsWithin segments.now }
        requires whole { All IsWholeSegment segments.now }
        ensures value { result ≡ first_point_of segments.now }
        ensures place { IfSome result IsPoint }
        ensures whole { IfSome result IsWhole }
    {
        match segments.first() {
            None => None,
            Some(Segment::Line(start, _)) => Some(*start),
            Some(Segment::Curve(start, _, _, _)) => Some(*start),
        }
    }

    /// The figure of an outline whose coordinates are whole, by the extremes of its ends and of all
    /// its points, where it draws.
    fn with_sides(segments: &[Segment], sides: Option<OutlineSides>) -> Option<Figure>
        requires within { All IsWithin segments.now }
        requires whole { All IsWholeSegment segments.now }
        requires ends { option_map (λ s. whole_extremes s.ends) sides
            ≡ extremes (ends_of_all segments.now) }
        requires corners { option_map (λ s. whole_extremes s.corners) sides
            ≡ extremes (corners_of_all segments.now) }
        ensures { IsFigureOf result segments.now }
    {
        let start = Figure::first_point(segments)?;
        let sides = sides?;
        Some(Figure {
            start,
            drawn: drawn_within(segments, &sides),
            corners: sides.corners.extent(),
        })
    }

    /// The figure of an outline, where it draws; nothing where some coordinate has a fraction.
    pub(crate) fn if_whole(segments: &[Segment]) -> Option<Option<Figure>>
        requires { All IsWithin segments.now }
        ensures { MatchOption
            result
            (is_whole_outline segments.now ≡ false)
            (λ figure. (is_whole_outline segments.now ≡ true) × IsFigureOf figure segments.now) }
    {
        let sides = outline_sides(segments)?;
        Some(Figure::with_sides(segments, sides))
    }

    /// How far an outline reaches whose coordinates are whole.
    pub fn reach(figure: Option<Figure>) -> Reached
        ensures { (outline : List Segment) → IsWholeFigure figure outline → IsReach result outline }
    {
        match figure {
            None => Reached::nothing(),
            Some(figure) => Reached {
                drawn: Drawn::Whole(Some(figure.drawn)),
                corners: Some(figure.corners),
            },
        }
    }

    /// How far such an outline reaches, moved by the moves in turn and then by the last. Without
    /// the last it isn't refused.
    pub(crate) fn through(
        figure: Option<Figure>,
        moves: &[Point],
        last: &Point,
    ) -> Result<Reached, Code>
        requires moves { All IsDistance moves.now }
        requires last { IsDistance last.now }
        ensures { (outline : List Segment)
            → IsWholeFigure figure outline
            → IsOk (in_turn moves.now outline)
            → ReportsAtOnce result (through_of moves.now last.now outline) }
    {
        let Some(figure) = figure else {
            return Ok(Reached::nothing());
        };
        let place = point_through(&figure.start, moves, last)?;
        let by = Distance::between(&figure.start, &place);
        let corners = figure.corners.displaced(&by)?;
        let drawn = figure.drawn.displaced(&by)?;
        Ok(Reached {
            drawn: Drawn::Mixed(Some(drawn.rounded())),
            corners: Some(corners),
        })
    }
}
