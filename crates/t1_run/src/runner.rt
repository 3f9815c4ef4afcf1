//! The run of a glyph's own body.

ghost use Rattle.std.specs.Prelude.{◌≡◌, ◌+◌, ◌-◌, ◌^◌, ◌<◌, ◌≤◌, [], ℕ, List, Some, Ok, All};
ghost use Rattle.std.specs.Prelude.{IfOk, IfSome, IsSome, min};
ghost use Rattle.t1_frac.specs.Outcome.{Gives, reported_at};
ghost use Rattle.t1_code.specs.declared.command.Command.{Command as CommandOf};
ghost use Rattle.t1_run.specs.Composite.{HasStandardParts, IsWithin};
ghost use Rattle.t1_run.specs.Continuing.{Comes, Continues};
ghost use Rattle.t1_run.specs.Machine.{state_of, Ends};
ghost use Rattle.t1_run.specs.OwnRuns.{GivesOwn};
ghost use Rattle.t1_run.specs.Run.{FontBodies, body_stop, drawing_of, outcome_of, own, font};
ghost use Rattle.t1_run.specs.State.{initial};

use crate::bodies::{Bodies, StoredBodies};
use crate::meter::Meter;
use crate::outcome::Run;
use crate::outline::{Composite, Metric};
use crate::returns::ReturnStack;
use crate::seac::find_parts;
use crate::segments::Segments;
use crate::state::{Control, State};
use std::alloc::Global;
use t1_code::Command;
use t1_frac::{Code, Place, Refusal};

/// Executes commands up to the first that asks for more than the next one: what it asks for, and
/// the commands after it; nothing after the last command. It stands apart from what asks a font for
/// its bodies, so that a step is compiled once, whatever the font is.
#[inline(never)]
fn run_commands<'a>(
    state: &mut State,
    body: &'a [Command],
) -> Result<Option<(Control, &'a [Command])>, Refusal>
    ensures comes { (m : FontBodies) (own : List CommandOf) (waiting : List (List CommandOf))
        → Continues m own body.now waiting (state_of state.old)
        → Comes m own waiting result state.new }
    ensures counted { IfOk result (λ asked. IfSome asked (λ _. state.old.steps < state.new.steps)) }
    ensures kept { IfOk result (λ _. state.old.steps ≤ state.new.steps) }
    ensures bounded { IfOk result (λ asked. IfSome asked (λ _. state.new.steps ≤ 100000)) }
{
    let mut rest = body;
    'commands: loop {
        let others = state.push_values(rest);
        let Some((command, tail)) = others.split_first() else {
            return Ok(None);
        };
        match command {
            // one past the limits of the stack or of a run
            Command::Num(number) => state.step_by_number(*number)?,
            Command::CallSubr | Command::Return | Command::Seac | Command::EndChar => {
                let control = state.step_asking(*command)?;
                return Ok(Some((control, tail)));
            }
            _ => state.step_on(*command)?,
        }
        rest = tail;
    }
}

/// Executes a body, and the Subrs that it calls, up to its endchar or seac: the parts of a glyph
/// that ends by seac. The state isn't owned here, so that no way out of the loop has to drop it.
fn run_words<'a, B: Bodies>(
    alloc: Global,
    bodies: &'a B,
    body: &'a [Command],
    state: &mut State,
) -> Result<Option<Composite>, Refusal>
    requires { state_of state.old ≡ initial }
    ensures ends { Ends
        (outcome_of (body_stop (font (B.subrs bodies.now) (B.glyphs bodies.now)) body.now))
        result state.new }
    ensures parts { IfOk result (λ composite. IfSome composite HasStandardParts) }
{
    let mut returns = ReturnStack::new();
    let mut rest = body;
    'words: loop {
        let Some((control, tail)) = run_commands(state, rest)? else {
            rest = returns.pop().ok_or(Code::F35)?;
            continue;
        };
        match control {
            Control::Call(n) => {
                let called = bodies.subr(n).ok_or(Code::F32)?;
                if returns.is_full() {
                    return Err(Refusal::from(Code::F33));
                }
                state.enter(n)?;
                returns.push(tail);
                rest = called;
            }
            Control::Back => rest = returns.pop().ok_or(Code::F34)?,
            Control::End => return Ok(None),
            Control::Compose(accent) => {
                let parts = find_parts(alloc, bodies, &accent)?;
                return Ok(Some(parts));
            }
        }
    }
}

/// The run that ended in this state, with this metric.
fn ended(state: State, metric: Metric, composite: Option<Composite>, serial: u64) -> Run
    requires within { All IsWithin state.segments }
    requires parts { IfSome composite HasStandardParts }
    ensures drawing { drawing_of (Some metric) composite (state_of state) ≡ Ok result.drawing }
    ensures serial { result.serial ≡ serial }
{
    let State {
        segments,
        entered,
        steps,
        ..
    } = state;
    Run {
        metric,
        segments,
        composite,
        entered,
        steps,
        serial,
    }
}

/// Runs a body to its endchar or seac.
fn run_body<B: Bodies>(
    alloc: Global,
    bodies: &B,
    body: &[Command],
    segments: Segments,
    serial: u64,
) -> Result<Run, Refusal>
    requires { segments ≡ [] }
    ensures drawing { Gives (λ run. run.drawing) result
        (reported_at Place.Nowhere
        (outcome_of
        (body_stop (font (B.subrs bodies.now) (B.glyphs bodies.now)) body.now))) }
    ensures serial { IfOk result (λ run. run.serial ≡ serial) }
{
    let mut state = State::new(alloc, segments);
    let composite = run_words(alloc, bodies, body, &mut state)?;
    let metric = state.metric.ok_or(Code::F36)?;
    Ok(ended(state, metric, composite, serial))
}

/// Runs the own body of a glyph of the font, exactly. The answer is what it draws, or its first
/// fault, at no place. Of a body that is no glyph's of the font nothing is said but the counts. The
/// meter counts the run either way, and the run's serial is its new count. Its segments are drawn
/// into the room, which is emptied first, so that the memory of one run serves the next.
#[tactic(auto, unfolding(crate::specs::Run::own))]
pub fn run_of_body<B: Bodies>(
    alloc: Global,
    bodies: &B,
    body: &[Command],
    room: Segments,
    meter: &mut Meter,
) -> Result<Run, Refusal>
    ensures outcome { (name : List ℕ)
        → B.glyphs bodies.now name ≡ Some body.now
        → GivesOwn result (own (font (B.subrs bodies.now) (B.glyphs bodies.now)) name) }
    ensures serial { IfOk result (λ run. run.serial ≡ meter.new) }
    ensures counted { meter.new ≡ min (meter.old + 1) (2 ^ 64 - 1) }
{
    meter.tick();
    let mut segments = room;
    segments.clear();
    segments.reserve(body.len() / 4)?;
    run_body(alloc, bodies, body, segments, meter.count())
}

/// The same for a glyph whose body the font has stored, by its name, into room of its own.
pub fn run<B: StoredBodies>(
    alloc: Global,
    bodies: &B,
    name: &[u8],
    meter: &mut Meter,
) -> Result<Run, Refusal>
    requires { IsSome (B.glyphs bodies.now name.now) }
    ensures outcome { GivesOwn result
        (own (font (B.subrs bodies.now) (B.glyphs bodies.now)) name.now) }
    ensures serial { IfOk result (λ run. run.serial ≡ meter.new) }
    ensures counted { meter.new ≡ min (meter.old + 1) (2 ^ 64 - 1) }
{
    let Some(body) = bodies.glyph(name) else {
        unreachable!()
    };
    run_of_body(alloc, bodies, body, Segments::new(alloc), meter)
}
