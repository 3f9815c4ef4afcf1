//! The segments that a run draws.

ghost use Rattle.std.specs.Prelude.{◌≡◌, ◌<◌, [], ◌∷◌, ◌++◌, length, take, OnOk};

use crate::outline::{Point, Segment};
use std::alloc::{AllocError, Global};
use std::marker::Model;
use t1_frac::Frac;

/// The segments that a run has drawn so far. They stand at the front of memory that serves one run
/// after another, so that most are written where another run's stood. Contracts see the list of
/// the segments.
#[derive(Drop)]
pub struct Segments {
    room: Vec<Segment>,
    drawn: usize,
}

impl Model for Segments {
    ghost use Rattle.std.specs.Prelude.{List, take, length, ◌≤◌};
    ghost use Rattle.t1_run.specs.declared.outline.Segment.{Segment};

    ghost Value = { List Segment };

    ghost view = { λ s. take s.drawn s.room.items };

    ghost invariant = { λ s. s.drawn ≤ length s.room.items };
}

/// Adds a segment, in whose place another will be written. It stands apart, so that the other one
/// need not wait in memory.
#[inline(never)]
fn lengthen(room: &mut Vec<Segment>) -> Result<(), AllocError>
    ensures longer { OnOk result (length room.old.items < length room.new.items) }
    ensures front { take (length room.old.items) room.new.items ≡ room.old.items }
{
    let start = Point {
        x: Frac::whole(0),
        y: Frac::whole(0),
    };
    let end = start;
    room.push(Segment::Line(start, end))?;
    Ok(())
}

impl Segments {
    /// No segments. It takes no memory.
    pub fn new(alloc: Global) -> Segments
        ensures { result ≡ [] }
    {
        Segments {
            room: Vec::new(alloc),
            drawn: 0,
        }
    }

    /// The segments.
    pub fn as_slice(&self) -> &[Segment]
        ensures { result.now ≡ self.now }
    {
        &self.room[..self.drawn]
    }

    /// Makes room for so many segments more.
    pub(crate) fn reserve(&mut self, count: usize) -> Result<(), AllocError>
        ensures { self.new ≡ self.old }
    {
        let free = self.room.len() - self.drawn;
        self.room.reserve(count.saturating_sub(free))
    }

    /// Adds a segment.
    #[inline(always)]
    pub(crate) fn add(&mut self, segment: Segment) -> Result<(), AllocError>
        ensures { OnOk result (self.new ≡ self.old ++ segment ∷ []) }
    {
        if self.drawn == self.room.len() {
            lengthen(&mut self.room)?;
        }
        self.room[self.drawn] = segment;
        self.drawn += 1;
        Ok(())
    }

    /// Takes all segments away. Their memory stays.
    pub(crate) fn clear(&mut self)
        ensures { self.new ≡ [] }
    {
        self.drawn = 0;
    }
}
