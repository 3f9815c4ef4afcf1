//! How far a point is moved from one place to another.

ghost use Rattle.std.specs.Prelude.{◌≡◌};
ghost use Rattle.t1_run.specs.Composite.{IsPoint};
ghost use Rattle.t1_extent.specs.Extremes.{IsWhole};
ghost use Rattle.t1_extent.specs.Figures.{apart, distance_of, IsFineDistance};

use crate::exact::Exact;
use t1_run::Point;

/// A distance along each axis. It may be past the limit of coordinates.
#[derive(Clone, Copy)]
pub struct Distance {
    pub x: Exact,
    pub y: Exact,
}

impl Distance {
    /// The distance from a place in whole coordinates.
    pub fn between(from: &Point, to: &Point) -> Distance
        requires from { IsPoint from.now }
        requires to { IsPoint to.now }
        requires whole { IsWhole from.now }
        ensures value { distance_of result ≡ apart from.now to.now }
        ensures fine { IsFineDistance result }
    {
        Distance {
            x: Exact::between(&from.x, &to.x),
            y: Exact::between(&from.y, &to.y),
        }
    }
}
