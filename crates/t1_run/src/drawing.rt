//! Moves, lines, curves and metrics.

ghost use Rattle.std.specs.Prelude.{◌≡◌, ◌≤◌, true, length};
ghost use Rattle.t1_code.specs.declared.command.Command.TheVariants as Commands;
ghost use Rattle.t1_run.specs.Dispatch.{sets_point};
ghost use Rattle.t1_run.specs.Machine.{state_of, going_on, answered, MakesStep};
ghost use Rattle.t1_run.specs.Operands.{takes, topmost};
ghost use Rattle.t1_run.specs.Step.{moved as moved_by, move_by as move_of, line_by as line_of};
ghost use Rattle.t1_run.specs.Step.{curve_by as curve_of, set_metric as metric_of, Next, cleared};
ghost use Rattle.t1_run.specs.Step.{at_point};
ghost use Rattle.t1_run.specs.Words.{rule, draws as draws_of};

use crate::halt::Halt;
use crate::outline::{Metric, Point, Segment};
use crate::state::State;
use t1_code::Command;
use t1_frac::{Code, Frac};

/// The point at this distance from another.
#[inline(always)]
pub fn moved(point: &Point, dx: &Frac, dy: &Frac) -> Result<Point, Code>
    ensures { result ≡ moved_by point.now dx.now dy.now }
{
    let x = point.x.add(dx)?;
    let y = point.y.add(dy)?;
    Ok(Point { x, y })
}

impl State {
    /// Moves the current point, and draws nothing.
    #[inline(always)]
    fn move_by(&mut self, dx: Frac, dy: Frac) -> Result<(), Code>
        ensures reported { move_of dx dy (state_of self.old)
            ≡ answered going_on result (state_of self.new) }
        ensures steps { self.new.steps ≡ self.old.steps }
    {
        self.current = moved(&self.current, &dx, &dy)?;
        self.operands.clear();
        Ok(())
    }

    /// Draws a line from the current point.
    #[inline(always)]
    fn line_by(&mut self, dx: Frac, dy: Frac) -> Result<(), Halt>
        ensures reported { MakesStep going_on (line_of dx dy (state_of self.old)) result self.new }
        ensures steps { self.new.steps ≡ self.old.steps }
    {
        let start = self.current;
        let end = &moved(&start, &dx, &dy)?;
        self.segments.add(Segment::Line(start, *end))?;
        self.current = *end;
        self.operands.clear();
        Ok(())
    }

    /// Draws a curve from the current point, by the steps to its other points.
    #[inline(always)]
    fn curve_by(
        &mut self,
        first: (Frac, Frac),
        second: (Frac, Frac),
        third: (Frac, Frac),
    ) -> Result<(), Halt>
        ensures reported { MakesStep going_on
            (curve_of first.0 first.1 second.0 second.1 third.0 third.1 (state_of self.old))
            result self.new }
        ensures steps { self.new.steps ≡ self.old.steps }
    {
        let start = self.current;
        let one = moved(&start, &first.0, &first.1)?;
        let two = moved(&one, &second.0, &second.1)?;
        let end = &moved(&two, &third.0, &third.1)?;
        self.segments.add(Segment::Curve(start, one, two, *end))?;
        self.current = *end;
        self.operands.clear();
        Ok(())
    }

    /// Sets the side bearing and the width.
    #[inline(always)]
    fn set_metric(&mut self, sbx: Frac, sby: Frac, wx: Frac, wy: Frac)
        ensures reported { metric_of sbx sby wx wy (state_of self.old) ≡ Next (state_of self.new) }
        ensures steps { self.new.steps ≡ self.old.steps }
    {
        self.current = Point { x: sbx, y: sby };
        let width = Point { x: wx, y: wy };
        self.metric = Some(Metric {
            bearing: self.current,
            width,
        });
        self.operands.clear();
    }

    /// Sets the current point.
    #[inline(always)]
    fn set_point(&mut self, x: Frac, y: Frac)
        ensures reported { cleared (at_point (record { x = x; y = y }) (state_of self.old))
            ≡ state_of self.new }
        ensures steps { self.new.steps ≡ self.old.steps }
    {
        self.current = Point { x, y };
        self.operands.clear();
    }

    /// A line in both directions.
    #[inline(always)]
    pub fn rlineto(&mut self) -> Result<(), Halt>
        requires enough { takes Commands.RLineTo ≤ length self.old.operands }
        ensures reported { MakesStep going_on
            (rule Commands.RLineTo (topmost (takes Commands.RLineTo) self.old.operands)
            (state_of self.old))
            result self.new }
        ensures steps { self.new.steps ≡ self.old.steps }
    {
        let (dx, dy) = self.operands.top_two();
        self.line_by(dx, dy)
    }

    /// A line in x.
    #[inline(always)]
    pub fn hlineto(&mut self) -> Result<(), Halt>
        requires enough { takes Commands.HLineTo ≤ length self.old.operands }
        ensures reported { MakesStep going_on
            (rule Commands.HLineTo (topmost (takes Commands.HLineTo) self.old.operands)
            (state_of self.old))
            result self.new }
        ensures steps { self.new.steps ≡ self.old.steps }
    {
        let dx = self.operands.top();
        self.line_by(dx, Frac::whole(0))
    }

    /// A line in y.
    #[inline(always)]
    pub fn vlineto(&mut self) -> Result<(), Halt>
        requires enough { takes Commands.VLineTo ≤ length self.old.operands }
        ensures reported { MakesStep going_on
            (rule Commands.VLineTo (topmost (takes Commands.VLineTo) self.old.operands)
            (state_of self.old))
            result self.new }
        ensures steps { self.new.steps ≡ self.old.steps }
    {
        let dy = self.operands.top();
        self.line_by(Frac::whole(0), dy)
    }

    /// A curve.
    #[inline(always)]
    pub fn rrcurveto(&mut self) -> Result<(), Halt>
        requires enough { takes Commands.RRCurveTo ≤ length self.old.operands }
        ensures reported { MakesStep going_on
            (rule Commands.RRCurveTo (topmost (takes Commands.RRCurveTo) self.old.operands)
            (state_of self.old))
            result self.new }
        ensures steps { self.new.steps ≡ self.old.steps }
    {
        let [dx1, dy1, dx2, dy2, dx3, dy3] = self.operands.topmost::<6>();
        self.curve_by((dx1, dy1), (dx2, dy2), (dx3, dy3))
    }

    /// A curve that begins in y and ends in x.
    #[inline(always)]
    pub fn vhcurveto(&mut self) -> Result<(), Halt>
        requires enough { takes Commands.VHCurveTo ≤ length self.old.operands }
        ensures reported { MakesStep going_on
            (rule Commands.VHCurveTo (topmost (takes Commands.VHCurveTo) self.old.operands)
            (state_of self.old))
            result self.new }
        ensures steps { self.new.steps ≡ self.old.steps }
    {
        let zero = Frac::whole(0);
        let [dy1, dx2, dy2, dx3] = self.operands.topmost::<4>();
        self.curve_by((zero, dy1), (dx2, dy2), (dx3, zero))
    }

    /// A curve that begins in x and ends in y.
    #[inline(always)]
    pub fn hvcurveto(&mut self) -> Result<(), Halt>
        requires enough { takes Commands.HVCurveTo ≤ length self.old.operands }
        ensures reported { MakesStep going_on
            (rule Commands.HVCurveTo (topmost (takes Commands.HVCurveTo) self.old.operands)
            (state_of self.old))
            result self.new }
        ensures steps { self.new.steps ≡ self.old.steps }
    {
        let zero = Frac::whole(0);
        let [dx1, dx2, dy2, dy3] = self.operands.topmost::<4>();
        self.curve_by((dx1, zero), (dx2, dy2), (zero, dy3))
    }

    /// A line or a curve. It stands apart: the commands that fonts have most are told apart before.
    #[inline(never)]
    pub fn draw(&mut self, command: Command) -> Result<(), Halt>
        requires kind { draws_of command ≡ true }
        requires enough { takes command ≤ length self.old.operands }
        ensures reported { MakesStep going_on
            (rule command (topmost (takes command) self.old.operands) (state_of self.old))
            result self.new }
        ensures steps { self.new.steps ≡ self.old.steps }
    {
        match command {
            Command::RLineTo => self.rlineto(),
            Command::HLineTo => self.hlineto(),
            Command::VLineTo => self.vlineto(),
            Command::RRCurveTo => self.rrcurveto(),
            Command::VHCurveTo => self.vhcurveto(),
            Command::HVCurveTo => self.hvcurveto(),
            _ => unreachable!(),
        }
    }

    /// A command that sets the current point and draws nothing.
    #[inline(always)]
    pub fn place(&mut self, command: Command) -> Result<(), Code>
        requires kind { sets_point command ≡ true }
        requires enough { takes command ≤ length self.old.operands }
        ensures reported { rule command (topmost (takes command) self.old.operands)
            (state_of self.old)
            ≡ answered going_on result (state_of self.new) }
        ensures steps { self.new.steps ≡ self.old.steps }
    {
        let zero = Frac::whole(0);
        match command {
            Command::RMoveTo => {
                let (dx, dy) = self.operands.top_two();
                self.move_by(dx, dy)
            }
            Command::HMoveTo => {
                let dx = self.operands.top();
                self.move_by(dx, zero)
            }
            Command::VMoveTo => {
                let dy = self.operands.top();
                self.move_by(zero, dy)
            }
            Command::Hsbw => {
                let (sbx, wx) = self.operands.top_two();
                self.set_metric(sbx, zero, wx, zero);
                Ok(())
            }
            Command::Sbw => {
                let [sbx, sby, wx, wy] = self.operands.topmost::<4>();
                self.set_metric(sbx, sby, wx, wy);
                Ok(())
            }
            Command::SetCurrentPoint => {
                let (x, y) = self.operands.top_two();
                self.set_point(x, y);
                Ok(())
            }
            _ => unreachable!(),
        }
    }
}
