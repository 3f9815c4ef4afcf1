//! How far an outline reaches.

ghost use Rattle.std.specs.Prelude.{◌≡◌, ℕ, ◌⊎◌, ◌^◌, IfOk, MatchResult, Some, Ok, Err, false};
ghost use Rattle.t1_extent.specs.Extremes.{reaching as reaching_of, rounded as rounded_of};
ghost use Rattle.t1_extent.specs.Extremes.{shifted_by, limit_check, move_check, IsWhole};
ghost use Rattle.t1_extent.specs.Exacts.{exact_value, extremes_of, AreFine};
ghost use Rattle.t1_extent.specs.Figures.{distance_of, IsFineDistance};
ghost use Rattle.t1_extent.specs.Laws.{IsDistance};
ghost use Rattle.t1_frac.specs.Fraction.{floor_of, ceiling_of};
ghost use Rattle.t1_frac.specs.Limits.{exceeds};

use crate::distance::Distance;
use crate::exact::Exact;
use t1_afm::BBox;
use t1_frac::Code;
use t1_run::Point;

/// The exact extremes of points.
#[derive(Clone, Copy)]
pub struct Extent {
    pub left: Exact,
    pub bottom: Exact,
    pub right: Exact,
    pub top: Exact,
}

/// A side within the limits, rounded down.
fn rounded_down(side: &Exact) -> i32
    requires { exceeds (2 ^ 20) (exact_value side.now) ≡ false }
    ensures { result ≡ floor_of (exact_value side.now) }
{
    side.floor() as i32
}

/// A side within the limits, rounded up.
fn rounded_up(side: &Exact) -> i32
    requires { exceeds (2 ^ 20) (exact_value side.now) ≡ false }
    ensures { result ≡ ceiling_of (exact_value side.now) }
{
    side.ceil() as i32
}

impl Extent {
    /// The extremes of both.
    pub fn reaching(&self, other: &Extent) -> Extent
        ensures value { extremes_of result
            ≡ reaching_of (extremes_of self.now) (extremes_of other.now) }
        ensures fine { (n : ℕ) → AreFine n self.now → AreFine n other.now → AreFine n result }
    {
        Extent {
            left: self.left.lesser(&other.left),
            bottom: self.bottom.lesser(&other.bottom),
            right: self.right.greater(&other.right),
            top: self.top.greater(&other.top),
        }
    }

    /// The box around the extremes, rounded outward. They are within the limits of coordinates.
    #[tactic(auto, using(crate::proofs::Exacts::four_sides))]
    pub fn rounded(&self) -> BBox
        requires { limit_check (Some (extremes_of self.now)) ≡ Ok tt }
        ensures { result ≡ rounded_of (extremes_of self.now) }
    {
        BBox {
            left: rounded_down(&self.left),
            bottom: rounded_down(&self.bottom),
            right: rounded_up(&self.right),
            top: rounded_up(&self.top),
        }
    }

    /// The extremes, moved, or F40 where one of them is past 1,048,576. Their denominators are at
    /// most 1,048,576, as those of an outline's own extremes, or the distance is whole.
    pub fn shifted(&self, by: &Point) -> Result<Extent, Code>
        requires { AreFine (2 ^ 20) self.now ⊎ IsWhole by.now }
        ensures outcome { MatchResult
            result
            (λ _. move_check by.now (Some (extremes_of self.now)) ≡ Ok tt)
            (λ code. move_check by.now (Some (extremes_of self.now)) ≡ Err code) }
        ensures value { IfOk result
            (λ e. extremes_of e ≡ shifted_by by.now (extremes_of self.now)) }
        ensures within { IfOk result (λ e. limit_check (Some (extremes_of e)) ≡ Ok tt) }
        ensures fine { IfOk result
            (λ e. (n : ℕ) → IsWhole by.now → AreFine n self.now → AreFine n e) }
        ensures whole { IfOk result
            (λ e. IsDistance by.now → AreFine 1 self.now → AreFine (2 ^ 20) e) }
    {
        let left = self.left.shifted(&by.x)?;
        let bottom = self.bottom.shifted(&by.y)?;
        let right = self.right.shifted(&by.x)?;
        let top = self.top.shifted(&by.y)?;
        Ok(Extent {
            left,
            bottom,
            right,
            top,
        })
    }

    /// The extremes, moved by a distance that may be past the limit, or F40 where one of them comes
    /// to be past it.
    pub fn displaced(&self, by: &Distance) -> Result<Extent, Code>
        requires fine { AreFine (2 ^ 20) self.now }
        requires by { IsFineDistance by.now }
        ensures outcome { MatchResult
            result
            (λ _. move_check (distance_of by.now) (Some (extremes_of self.now)) ≡ Ok tt)
            (λ code. move_check (distance_of by.now) (Some (extremes_of self.now)) ≡ Err code) }
        ensures value { IfOk result
            (λ e. extremes_of e ≡ shifted_by (distance_of by.now) (extremes_of self.now)) }
        ensures within { IfOk result (λ e. limit_check (Some (extremes_of e)) ≡ Ok tt) }
        ensures fine { IfOk result (λ e. AreFine 1 self.now → AreFine (2 ^ 20) e) }
    {
        let left = self.left.displaced(&by.x)?;
        let bottom = self.bottom.displaced(&by.y)?;
        let right = self.right.displaced(&by.x)?;
        let top = self.top.displaced(&by.y)?;
        Ok(Extent {
            left,
            bottom,
            right,
            top,
        })
    }
}
