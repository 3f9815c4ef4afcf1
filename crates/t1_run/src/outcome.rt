//! What a run answers.

ghost use Rattle.std.specs.Prelude.{◌≡◌, All, IfSome, Option};
ghost use Rattle.std.specs.Option.{option_copied};
ghost use Rattle.t1_run.specs.Composite.{HasStandardParts, IsWithin};

use crate::entered::Entered;
use crate::outline::{Composite, Metric, Point, Segment};
use crate::segments::Segments;
use std::marker::Model;

/// What the run of a glyph's own body answered. It is made by `run` and `run_of_body` alone, and
/// can't be cloned.
#[derive(Drop)]
pub struct Run {
    pub(crate) metric: Metric,
    pub(crate) segments: Segments,
    pub(crate) composite: Option<Composite>,
    pub(crate) entered: Entered,
    pub(crate) steps: u32,
    pub(crate) serial: u64,
}

impl Model for Run {
    ghost use Rattle.t1_run.specs.Run.{NumberedRun};

    ghost Value = { NumberedRun };

    ghost view = { λ r. record {
      drawing = record {
        width = r.metric.width;
        bearing = r.metric.bearing;
        segments = r.segments;
        composite = r.composite;
        entered = r.entered;
        steps = r.steps;
      };
      serial = r.serial;
    } };

    ghost use Rattle.t1_run.specs.Composite.{HasStandardParts, IsWithin};
    ghost use Rattle.std.specs.Prelude.{All, IfSome};

    ghost invariant = { λ r. All IsWithin r.segments × IfSome r.composite HasStandardParts };
}

impl Run {
    /// The width of the glyph, in x and y.
    pub fn width(&self) -> Point
        ensures { result ≡ self.now.drawing.width }
    {
        self.metric.width
    }

    /// The side bearing point.
    pub fn side_bearing(&self) -> Point
        ensures { result ≡ self.now.drawing.bearing }
    {
        self.metric.bearing
    }

    /// What the glyph itself draws, without its parts. Its points are within the limits.
    pub fn segments(&self) -> &[Segment]
        ensures value { result.now ≡ self.now.drawing.segments }
        ensures within { All IsWithin result.now }
    {
        self.segments.as_slice()
    }

    /// The parts of a glyph that ended by seac.
    pub fn composite(&self) -> Option<&Composite>
        ensures parts { option_copied result ≡ self.now.drawing.composite }
        ensures names { IfSome self.now.drawing.composite HasStandardParts }
    {
        self.composite.as_ref()
    }

    /// The numbers of the Subrs that the run entered, ascending and each once.
    pub fn entered(&self) -> &[u16]
        ensures { result.now ≡ self.now.drawing.entered }
    {
        self.entered.as_slice()
    }

    /// The parts of a glyph that ended by seac, the numbers of the Subrs that the run entered, and
    /// its segments. It takes no memory.
    pub fn into_parts(self) -> (Option<Composite>, Entered, Segments)
        ensures parts { result.0 ≡ self.drawing.composite }
        ensures entered { result.1 ≡ self.drawing.entered }
        ensures segments { result.2 ≡ self.drawing.segments }
    {
        (self.composite, self.entered, self.segments)
    }

    /// How many words were executed.
    pub fn steps(&self) -> u32
        ensures { result ≡ self.now.drawing.steps }
    {
        self.steps
    }

    /// The meter's count after this run.
    pub fn serial(&self) -> u64
        ensures { result ≡ self.now.serial }
    {
        self.serial
    }
}
