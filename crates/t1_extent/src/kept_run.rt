//! What is kept of a glyph's run: of its segments no more than moves by fractions need.

ghost use Rattle.std.specs.Prelude.{◌≡◌, ◌||◌, true, All, IfOk, IfSome, option_map};
ghost use Rattle.std.specs.Option.{option_copied};
ghost use Rattle.t1_code.specs.Encoding.{is_standard_name as is_standard};
ghost use Rattle.t1_run.specs.Composite.{HasStandardParts, IsWithin};
ghost use Rattle.t1_afm.specs.Box.{drawn_box};
ghost use Rattle.t1_extent.specs.Extremes.{is_whole_outline as is_whole};
ghost use Rattle.t1_extent.specs.Kept.{has_trace, traces};
ghost use Rattle.t1_extent.specs.Traces.{IsShape, IsTrace, kept_as, segments_kept};
ghost use Rattle.t1_extent.specs.Reached.{IsReach};

use crate::boxes::drawn_bbox;
use crate::corners::corners_extent;
use crate::figure::Figure;
use crate::reached::{Drawn, Reached};
use crate::shadow::Shadow;
use std::alloc::{AllocError, Global};
use std::marker::Model;
use t1_afm::BBox;
use t1_code::is_standard_name;
use t1_run::{Composite, Entered, Point, Run, Segment, Segments};

/// An outline of which some coordinates have fractions.
#[derive(Drop)]
pub struct Mixed {
    pub reached: Reached,
    pub segments: Vec<Segment>,
}

/// What memory holds of an outline.
#[derive(Drop)]
pub enum Shape {
    /// Its figure where it draws; all its coordinates are whole.
    Whole(Option<Figure>),
    Mixed(Mixed),
    /// The box around what it draws; some of its coordinates have fractions, and neither its
    /// segments nor the extremes of its points are kept.
    Boxed(Option<BBox>),
}

/// What moves of an outline need of it.
#[derive(Clone, Copy)]
pub enum Trace<'a> {
    Whole(Option<Figure>),
    Segments(&'a [Segment]),
}

/// How far an outline reaches whose coordinates may have fractions.
fn mixed_reach(segments: &[Segment]) -> Reached
    requires within { All IsWithin segments.now }
    ensures { IsReach result segments.now }
{
    Reached {
        drawn: Drawn::Mixed(drawn_bbox(segments)),
        corners: corners_extent(segments),
    }
}

impl Shape {
    /// What is kept of what a glyph of this name draws. Only under a name of StandardEncoding can
    /// it be a part of a composite, and only a part is moved; of any other outline with fractions
    /// its box alone is asked for.
    fn of(alloc: Global, name: &[u8], segments: &[Segment]) -> Result<Shape, AllocError>
        requires { All IsWithin segments.now }
        ensures shape { IfOk result (λ shape. IsShape shape segments.now) }
        ensures trace { IfOk result
            (λ shape. has_trace shape ≡ (is_whole segments.now || is_standard name.now)) }
    {
        if let Some(figure) = Figure::if_whole(segments) {
            return Ok(Shape::Whole(figure));
        }
        if !is_standard_name(name) {
            return Ok(Shape::Boxed(drawn_bbox(segments)));
        }
        Ok(Shape::Mixed(Mixed {
            reached: mixed_reach(segments),
            segments: Vec::from_slice(alloc, segments)?,
        }))
    }
}

/// A run of which memory holds what can be asked of it. Contracts see the whole run; its segments
/// are in memory only where some of their coordinates have fractions and its glyph may be a part of
/// a composite.
#[derive(Drop)]
pub struct KeptRun {
    width: Point,
    bearing: Point,
    composite: Option<Composite>,
    entered: Entered,
    steps: u32,
    serial: u64,
    shape: Shape,
    run: Shadow<Run>,
}

impl Model for KeptRun {
    ghost use Rattle.std.specs.Prelude.{◌≡◌, All, IfSome};
    ghost use Rattle.t1_run.specs.Composite.{HasStandardParts, IsWithin};
    ghost use Rattle.t1_extent.specs.Kept.{TracedRun, has_trace};
    ghost use Rattle.t1_extent.specs.Traces.{IsShape};

    ghost Value = { TracedRun };

    ghost view = { λ r. record {
      drawing = r.run.value.drawing;
      serial = r.run.value.serial;
      is_traced = has_trace r.shape;
    } };

    ghost invariant = { λ r. (r.width ≡ r.run.value.drawing.width)
        × (r.bearing ≡ r.run.value.drawing.bearing)
        × (r.composite ≡ r.run.value.drawing.composite)
        × (r.entered ≡ r.run.value.drawing.entered)
        × (r.steps ≡ r.run.value.drawing.steps)
        × (r.serial ≡ r.run.value.serial)
        × All IsWithin r.run.value.drawing.segments
        × IfSome r.run.value.drawing.composite HasStandardParts
        × IsShape r.shape r.run.value.drawing.segments };
}

impl KeptRun {
    /// What is kept of the run of a glyph of this name. The room gets the run's outline, for its
    /// memory; no contract says so, since only memory and time are at stake.
    pub fn of(
        alloc: Global,
        name: &[u8],
        run: Run,
        room: &mut Segments,
    ) -> Result<KeptRun, AllocError>
        ensures kept { IfOk result (λ kept. kept ≡ kept_as name.now run) }
        ensures traced { IfOk result (λ kept. traces name.now kept ≡ true) }
    {
        let shape = Shape::of(alloc, name, run.segments())?;
        let width = run.width();
        let bearing = run.side_bearing();
        let steps = run.steps();
        let serial = run.serial();
        let shadow = Shadow::of(&run);
        let (composite, entered, segments) = run.into_parts();
        *room = segments;
        Ok(KeptRun {
            width,
            bearing,
            composite,
            entered,
            steps,
            serial,
            shape,
            run: shadow,
        })
    }

    /// The width of the glyph, in x and y.
    pub fn width(&self) -> Point
        ensures { result ≡ self.now.drawing.width }
    {
        self.width
    }

    /// The side bearing point.
    pub fn side_bearing(&self) -> Point
        ensures { result ≡ self.now.drawing.bearing }
    {
        self.bearing
    }

    /// The parts of a glyph that ended by seac.
    pub fn composite(&self) -> Option<&Composite>
        ensures parts { option_copied result ≡ self.now.drawing.composite }
        ensures names { IfSome self.now.drawing.composite HasStandardParts }
    {
        self.composite.as_ref()
    }

    /// The numbers of the Subrs that the run entered, ascending and each once.
    pub fn entered(&self) -> &[u16]
        ensures { result.now ≡ self.now.drawing.entered }
    {
        self.entered.as_slice()
    }

    /// How many words were executed.
    pub fn steps(&self) -> u32
        ensures { result ≡ self.now.drawing.steps }
    {
        self.steps
    }

    /// The meter's count after this run.
    pub fn serial(&self) -> u64
        ensures { result ≡ self.now.serial }
    {
        self.serial
    }

    /// What the glyph itself draws, without its parts, where some of its coordinates have fractions
    /// and its trace is kept.
    pub fn segments(&self) -> Option<&[Segment]>
        ensures { option_map (λ segments. segments.now) result
            ≡ segments_kept self.now.is_traced self.now.drawing.segments }
    {
        match &self.shape {
            Shape::Whole(_) => None,
            Shape::Mixed(mixed) => Some(mixed.segments.as_slice()),
            Shape::Boxed(_) => None,
        }
    }

    /// What moves of what the glyph itself draws need of it.
    pub fn trace(&self) -> Trace<'_>
        requires { self.now.is_traced ≡ true }
        ensures trace { IsTrace result self.now.drawing.segments }
        ensures within { All IsWithin self.now.drawing.segments }
    {
        match &self.shape {
            Shape::Whole(figure) => Trace::Whole(*figure),
            Shape::Mixed(mixed) => Trace::Segments(mixed.segments.as_slice()),
            Shape::Boxed(_) => unreachable!(),
        }
    }

    /// How far the glyph itself reaches, without its parts.
    pub(crate) fn reached(&self) -> Reached
        requires { self.now.is_traced ≡ true }
        ensures { IsReach result self.now.drawing.segments }
    {
        match &self.shape {
            Shape::Whole(figure) => Figure::reach(*figure),
            Shape::Mixed(mixed) => mixed.reached,
            Shape::Boxed(_) => unreachable!(),
        }
    }

    /// The box around what the glyph itself draws, where it draws.
    pub fn bbox(&self) -> Option<BBox>
        ensures { result ≡ drawn_box self.now.drawing.segments }
    {
        match &self.shape {
            Shape::Whole(figure) => Figure::reach(*figure).bbox(),
            Shape::Mixed(mixed) => mixed.reached.bbox(),
            Shape::Boxed(bbox) => *bbox,
        }
    }
}
