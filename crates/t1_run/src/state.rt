//! The state of a run.

ghost use Rattle.std.specs.Prelude.{◌≡◌, [], OnOk};
ghost use Rattle.t1_run.specs.Machine.{state_of};
ghost use Rattle.t1_run.specs.Run.{entering};
ghost use Rattle.t1_run.specs.State.{initial};

use crate::entered::Entered;
use crate::operands::Operands;
use crate::outline::{Accent, Metric, Point};
use crate::recorded::Recorded;
use crate::results::Results;
use crate::segments::Segments;
use std::alloc::{AllocError, Global};
use t1_frac::Frac;

/// What a word asks of the run, where it asks for more than the next one.
#[derive(Clone, Copy)]
pub enum Control {
    Call(u16),
    Back,
    End,
    Compose(Accent),
}

/// The state of a run.
#[derive(Drop)]
pub struct State {
    pub operands: Operands,
    pub results: Results,
    pub current: Point,
    pub metric: Option<Metric>,
    /// The current point before the flex that is open.
    pub flex: Option<Point>,
    pub recorded: Recorded,
    pub segments: Segments,
    pub steps: u32,
    pub entered: Entered,
}

impl State {
    /// The state before the first word. Segments go into the memory of these.
    pub fn new(alloc: Global, segments: Segments) -> State
        requires { segments ≡ [] }
        ensures { state_of result ≡ initial }
    {
        let zero = Frac::whole(0);
        State {
            operands: Operands::new(),
            results: Results::new(),
            current: Point { x: zero, y: zero },
            metric: None,
            flex: None,
            recorded: Recorded::new(),
            segments,
            steps: 0,
            entered: Entered::new(alloc),
        }
    }

    /// Counts a Subr among those entered.
    pub fn enter(&mut self, n: u16) -> Result<(), AllocError>
        ensures entered { OnOk result (state_of self.new ≡ entering n (state_of self.old)) }
        ensures steps { OnOk result (self.new.steps ≡ self.old.steps) }
    {
        self.entered.add(n)
    }
}
