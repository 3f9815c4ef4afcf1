//! Extremes that have one denominator, by their numerators.

ghost use Rattle.std.specs.Prelude.{◌≡◌, ◌≤◌, ◌^◌};
ghost use Rattle.std.specs.Int.RustNames.{unsigned_abs};

use crate::exact::Exact;
use crate::extent::Extent;
use crate::reach::Reach;
use t1_afm::numerator;
use t1_run::Point;

/// The numerators of extremes, each over the same denominator and at most 2^BITS in size.
#[derive(Clone, Copy)]
pub struct Sides<const BITS: u32> {
    pub(crate) left: i64,
    pub(crate) bottom: i64,
    pub(crate) right: i64,
    pub(crate) top: i64,
    ghost left_size: { unsigned_abs left ≤ 2 ^ BITS },
    ghost bottom_size: { unsigned_abs bottom ≤ 2 ^ BITS },
    ghost right_size: { unsigned_abs right ≤ 2 ^ BITS },
    ghost top_size: { unsigned_abs top ≤ 2 ^ BITS },
}

/// The extremes of points whose coordinates are whole.
pub(crate) type WholeSides = Sides<20>;

/// Extremes by their numerators over 64^3.
pub(crate) type CubeSides = Sides<38>;

impl Sides<20> {
    ghost use Rattle.std.specs.Prelude.{true};
    ghost use Rattle.t1_run.specs.Composite.{IsPoint};
    ghost use Rattle.t1_extent.specs.Exacts.{extremes_of, AreFine};
    ghost use Rattle.t1_extent.specs.Extremes.{IsWhole, point_extremes, reaching as reaching_of};
    ghost use Rattle.t1_extent.specs.Sides.{extremes_over, whole_extremes};

    /// The extremes of one point.
    pub(crate) fn of(point: &Point) -> WholeSides
        requires within { IsPoint point.now }
        requires whole { IsWhole point.now }
        ensures { whole_extremes result ≡ point_extremes point.now }
    {
        let x = point.x.num();
        let y = point.y.num();
        WholeSides {
            left: x,
            bottom: y,
            right: x,
            top: y,
        }
    }

    /// The extremes of both.
    #[tactic(auto, using(crate::proofs::Sums::lesser_over, crate::proofs::Sums::greater_over))]
    pub(crate) fn reaching(&self, other: &WholeSides) -> WholeSides
        ensures { whole_extremes result
            ≡ reaching_of (whole_extremes self.now) (whole_extremes other.now) }
    {
        WholeSides {
            left: self.left.min(other.left),
            bottom: self.bottom.min(other.bottom),
            right: self.right.max(other.right),
            top: self.top.max(other.top),
        }
    }

    /// Whether these are the same as others.
    pub(crate) fn are(&self, others: &WholeSides) -> bool
        ensures same { result ≡ true → whole_extremes self.now ≡ whole_extremes others.now }
        ensures reported { self.now ≡ others.now → result ≡ true }
    {
        self.left == others.left
            && self.bottom == others.bottom
            && self.right == others.right
            && self.top == others.top
    }

    /// These, as fractions.
    pub(crate) fn extent(&self) -> Extent
        ensures value { extremes_of result ≡ whole_extremes self.now }
        ensures fine { AreFine 1 result }
    {
        Extent {
            left: Exact::over_one(self.left),
            bottom: Exact::over_one(self.bottom),
            right: Exact::over_one(self.right),
            top: Exact::over_one(self.top),
        }
    }

    /// Their numerators over 64^3.
    pub(crate) fn numerators(&self) -> CubeSides
        ensures { extremes_over 262144 result ≡ whole_extremes self.now }
    {
        Sides {
            left: numerator(self.left),
            bottom: numerator(self.bottom),
            right: numerator(self.right),
            top: numerator(self.top),
        }
    }
}

impl Sides<38> {
    ghost use Rattle.t1_extent.specs.Exacts.{extremes_of, AreFine};
    ghost use Rattle.t1_extent.specs.Sides.{extremes_over};

    /// The extremes of both axes.
    pub(crate) fn of_axes(x: &Reach, y: &Reach) -> CubeSides
        ensures left { result.left ≡ x.now.low }
        ensures bottom { result.bottom ≡ y.now.low }
        ensures right { result.right ≡ x.now.high }
        ensures top { result.top ≡ y.now.high }
    {
        Sides {
            left: x.low,
            bottom: y.low,
            right: x.high,
            top: y.high,
        }
    }

    /// Those from left to right.
    pub(crate) fn horizontal(&self) -> Reach
        ensures low { result.low ≡ self.now.left }
        ensures high { result.high ≡ self.now.right }
    {
        Reach {
            low: self.left,
            high: self.right,
        }
    }

    /// Those from the bottom to the top.
    pub(crate) fn vertical(&self) -> Reach
        ensures low { result.low ≡ self.now.bottom }
        ensures high { result.high ≡ self.now.top }
    {
        Reach {
            low: self.bottom,
            high: self.top,
        }
    }

    /// The extremes whose numerators over 64^3 these are.
    pub(crate) fn over_cube(&self) -> Extent
        ensures value { extremes_of result ≡ extremes_over 262144 self.now }
        ensures fine { AreFine (2 ^ 20) result }
    {
        Extent {
            left: Exact::over_cube(self.left),
            bottom: Exact::over_cube(self.bottom),
            right: Exact::over_cube(self.right),
            top: Exact::over_cube(self.top),
        }
    }
}
