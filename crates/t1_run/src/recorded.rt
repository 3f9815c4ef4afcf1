//! The points of an open flex.

ghost use Rattle.std.specs.Prelude.{◌≡◌, [], ◌∷◌, ◌++◌, ◌≤◌, ◌<◌, length, IsTrue, ◌↔◌};
ghost use Rattle.t1_run.specs.OtherSubrs.{flex_curves};

use crate::outline::{Point, Segment};
use std::marker::Model;
use t1_frac::Frac;

/// The points that a flex recorded, seven at most, the first one first.
#[derive(Drop)]
pub struct Recorded {
    points: [Point; 7],
    len: usize,
}

impl Model for Recorded {
    ghost use Rattle.std.specs.Prelude.{List, take, ◌≤◌};
    ghost use Rattle.t1_run.specs.declared.outline.Point.{Point};

    ghost Value = { List Point };

    ghost view = { λ r. take r.len r.points };

    ghost invariant = { λ r. r.len ≤ 7 };
}

impl Recorded {
    pub fn new() -> Recorded
        ensures { result ≡ [] }
    {
        let zero = Frac::whole(0);
        Recorded {
            points: [Point { x: zero, y: zero }; 7],
            len: 0,
        }
    }

    /// The two curves of a flex that started at this point, where all seven points are recorded.
    pub fn curves(&self, before: Point) -> Option<[Segment; 2]>
        ensures { result ≡ flex_curves before self.now }
    {
        match &self.points[..self.len] {
            [_, p2, p3, p4, p5, p6, p7] => Some([
                Segment::Curve(before, *p2, *p3, *p4),
                Segment::Curve(*p4, *p5, *p6, *p7),
            ]),
            _ => None,
        }
    }

    /// How many points are recorded.
    pub fn len(&self) -> usize
        ensures { result ≡ length self.now }
    {
        self.points[..self.len].len()
    }

    pub fn is_full(&self) -> bool
        ensures { IsTrue result ↔ (7 ≤ length self.now) }
    {
        self.len() >= 7
    }

    pub fn clear(&mut self)
        ensures { self.new ≡ [] }
    {
        self.len = 0;
    }

    pub fn push(&mut self, point: Point)
        requires { length self.old < 7 }
        ensures { self.new ≡ self.old ++ point ∷ [] }
    {
        self.points[self.len] = point;
        self.len += 1;
    }
}
