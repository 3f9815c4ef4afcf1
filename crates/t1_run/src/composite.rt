//! The outline of a composite.

ghost use Rattle.std.specs.Prelude.{◌≡◌, All, IfOk, MatchResult, OnOk};
ghost use Rattle.t1_frac.specs.Outcome.{Gives, Refuses, reported_at};
ghost use Rattle.t1_run.specs.Composite.{accent_move as move_of, moved_outline, joined_outline};
ghost use Rattle.t1_run.specs.Composite.{IsWithin};
ghost use Rattle.t1_run.specs.Machine.{AppendsMoved};

use crate::moving::moved_segment;
use crate::outcome::Run;
use crate::outline::{Composite, Point, Segment};
use std::alloc::Global;
use t1_frac::{Code, Place, Refusal};

/// How far a composite moves its accent, by its own side bearing: the bearing's x and adx less asb,
/// and ady. Sum and difference are refused as those of coordinates are.
pub fn accent_move(bearing: &Point, composite: &Composite) -> Result<Point, Code>
    ensures { result ≡ move_of bearing.now composite.now }
{
    let right = bearing.x.add(&composite.adx)?;
    let x = right.sub(&composite.asb)?;
    Ok(Point {
        x,
        y: composite.ady,
    })
}

/// Adds the segments, moved.
fn push_moved(outline: &mut Vec<Segment>, segments: &[Segment], by: &Point) -> Result<(), Refusal>
    ensures moved { MatchResult result
        (λ _.
        AppendsMoved (moved_outline by.now segments.now) outline.old.items
        outline.new.items)
        (λ refused.
        Refuses refused (reported_at Place.Nowhere (moved_outline by.now segments.now))) }
    ensures within { OnOk result (All IsWithin outline.old.items → All IsWithin outline.new.items) }
{
    for segment in segments {
        outline.push(moved_segment(segment, by)?)?;
    }
    Ok(())
}

/// The outline of a glyph from its own run and the outlines of its base and accent: its own
/// segments, the base's, and the accent's moved. A glyph that is no composite has its own segments
/// alone. Its points are within the limits where those of the base are.
#[tactic(auto, unfolding(crate::specs::Composite::joined_outline))]
pub fn join(
    alloc: Global,
    own: &Run,
    base: &[Segment],
    accent: &[Segment],
) -> Result<Vec<Segment>, Refusal>
    ensures joined { Gives
        (λ outline. outline.items)
        result
        (reported_at Place.Nowhere (joined_outline own.now.drawing base.now accent.now)) }
    ensures within { IfOk result (λ outline. All IsWithin base.now → All IsWithin outline.items) }
{
    let Some(parts) = own.composite() else {
        return Ok(Vec::from_slice(alloc, own.segments())?);
    };
    let by = accent_move(&own.side_bearing(), parts)?;
    let mut outline = Vec::from_slice(alloc, own.segments())?;
    outline.extend_from_slice(base)?;
    push_moved(&mut outline, accent, &by)?;
    Ok(outline)
}
