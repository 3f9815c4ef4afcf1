//! How far an outline reaches, without its segments.

ghost use Rattle.std.specs.Prelude.{◌≡◌, ℕ, ◌^◌, List, ◌++◌, [], ◌∷◌, Ok, Err, MatchResult, IfOk};
ghost use Rattle.std.specs.Prelude.{IfSome, option_map, true};
ghost use Rattle.t1_run.specs.declared.outline.Segment.{Segment};
ghost use Rattle.t1_run.specs.Composite.{IsWithin, moved_outline};
ghost use Rattle.t1_afm.specs.Box.{drawn_box};
ghost use Rattle.t1_extent.specs.Extremes.{rounded, limit_check, move_check, shifted_by};
ghost use Rattle.t1_extent.specs.Extremes.{moved_box as moved_box_of, IsWhole};
ghost use Rattle.t1_extent.specs.Exacts.{extremes_of, AreFine};
ghost use Rattle.t1_extent.specs.Laws.{IsDistance};
ghost use Rattle.t1_extent.specs.Reached.{IsExact, IsNear, IsReach, IsReachOfSome, MovesReach};
ghost use Rattle.t1_extent.specs.Reached.{ReportsAtOnce};

use crate::boxes::moved_box;
use crate::corners::{corners_extent, unite};
use crate::extent::Extent;
use crate::wholes::is_whole;
use t1_afm::{BBox, bounding_box, unite as unite_boxes};
use t1_frac::Code;
use t1_run::{Point, Segment};

/// How far the drawn points of an outline reach.
#[derive(Clone, Copy)]
pub enum Drawn {
    /// Exactly, where all coordinates are whole.
    Whole(Option<Extent>),
    /// Rounded, where some may have fractions.
    Mixed(Option<BBox>),
}

/// How far an outline reaches: what its box, its moves and their faults need of it.
#[derive(Clone, Copy)]
pub struct Reached {
    pub drawn: Drawn,
    /// The extremes of all its points.
    pub corners: Option<Extent>,
}

/// The box around extremes within the limits, where there are any.
pub(crate) fn rounded_extent(extent: Option<Extent>) -> Option<BBox>
    requires { limit_check (option_map extremes_of extent) ≡ Ok tt }
    ensures { result ≡ option_map rounded (option_map extremes_of extent) }
{
    match extent {
        None => None,
        Some(extent) => Some(extent.rounded()),
    }
}

/// Extremes moved, where there are any, or F40.
fn moved_extent(extent: Option<Extent>, by: &Point) -> Result<Option<Extent>, Code>
    requires fine { IfSome extent (AreFine (2 ^ 20)) }
    ensures outcome { MatchResult
        result
        (λ _. move_check by.now (option_map extremes_of extent) ≡ Ok tt)
        (λ code. move_check by.now (option_map extremes_of extent) ≡ Err code) }
    ensures value { IfOk result
        (λ e.
        option_map extremes_of e
        ≡ option_map (shifted_by by.now) (option_map extremes_of extent)) }
    ensures within { IfOk result (λ e. limit_check (option_map extremes_of e) ≡ Ok tt) }
    ensures fine { IfOk result
        (λ e. (n : ℕ) → IsWhole by.now → IfSome extent (AreFine n) → IfSome e (AreFine n)) }
    ensures whole { IfOk result
        (λ e. IsDistance by.now → IfSome extent (AreFine 1) → IfSome e (AreFine (2 ^ 20))) }
{
    match extent {
        None => Ok(None),
        Some(extent) => Ok(Some(extent.shifted(by)?)),
    }
}

/// A box moved by a whole distance, where there is one.
fn moved_bbox(bbox: Option<BBox>, by: &Point) -> Option<BBox>
    requires whole { IsWhole by.now }
    requires size { IfSome bbox (IsNear by.now) }
    ensures { result ≡ option_map (moved_box_of by.now) bbox }
{
    match bbox {
        None => None,
        Some(bbox) => Some(moved_box(&bbox, by)),
    }
}

impl Reached {
    /// That of an outline without segments.
    pub fn nothing() -> Reached
        ensures reach { IsReach result [] }
        ensures exact { IsExact result.drawn }
    {
        Reached {
            drawn: Drawn::Whole(None),
            corners: None,
        }
    }

    /// That of an outline of one segment.
    pub(crate) fn of_segment(segment: &Segment) -> Reached
        requires { IsWithin segment.now }
        ensures { IsReach result (segment.now ∷ []) }
    {
        let one = [*segment];
        Reached {
            drawn: Drawn::Mixed(Some(bounding_box(&one))),
            corners: corners_extent(&one),
        }
    }

    /// The box around the drawn points, where there are any.
    pub fn bbox(&self) -> Option<BBox>
        requires { IsReachOfSome self.now }
        ensures { (outline : List Segment) → IsReach self.now outline → result ≡ drawn_box outline }
    {
        match self.drawn {
            Drawn::Whole(extent) => rounded_extent(extent),
            Drawn::Mixed(bbox) => bbox,
        }
    }

    /// Whether all coordinates of the outline are known to be whole.
    pub fn is_whole(&self) -> bool
        ensures exact { result ≡ true → IsExact self.now.drawn }
        ensures reported { IsExact self.now.drawn → result ≡ true }
    {
        match self.drawn {
            Drawn::Whole(_) => true,
            Drawn::Mixed(_) => false,
        }
    }

    /// That of both outlines in one.
    pub fn united(&self, other: &Reached) -> Reached
        requires one { IsReachOfSome self.now }
        requires other { IsReachOfSome other.now }
        ensures { (a b : List Segment)
            → IsReach self.now a
            → IsReach other.now b
            → IsReach result (a ++ b) }
    {
        let corners = unite(self.corners, other.corners);
        if let (Drawn::Whole(one), Drawn::Whole(other)) = (self.drawn, other.drawn) {
            let drawn = Drawn::Whole(unite(one, other));
            return Reached { drawn, corners };
        }
        let drawn = Drawn::Mixed(unite_boxes(self.bbox(), other.bbox()));
        Reached { drawn, corners }
    }

    /// That of the outline, moved, or F40. The distance is whole, or all coordinates of the outline
    /// are.
    pub fn moved(&self, by: &Point) -> Result<Reached, Code>
        requires reach { IsReachOfSome self.now }
        requires distance { IsDistance by.now }
        requires easy { MovesReach by.now self.now }
        ensures { (outline : List Segment)
            → IsReach self.now outline
            → ReportsAtOnce result (moved_outline by.now outline) }
    {
        let corners = moved_extent(self.corners, by)?;
        match self.drawn {
            Drawn::Mixed(bbox) => {
                let drawn = Drawn::Mixed(moved_bbox(bbox, by));
                Ok(Reached { drawn, corners })
            }
            Drawn::Whole(extent) => {
                let moved = moved_extent(extent, by)?;
                let drawn = if is_whole(by) {
                    Drawn::Whole(moved)
                } else {
                    Drawn::Mixed(rounded_extent(moved))
                };
                Ok(Reached { drawn, corners })
            }
        }
    }
}
