//! One word of a run.

ghost use Rattle.std.specs.Prelude.{◌≡◌, IfOk, OnOk, Result};
ghost use Rattle.std.specs.Result.{result_err};
ghost use Rattle.t1_frac.specs.Outcome.{Gives, reported_at};
ghost use Rattle.t1_frac.specs.declared.fault.Code.{Code as CodeOf};
ghost use Rattle.t1_run.specs.Machine.{state_of, MakesStep};
ghost use Rattle.t1_run.specs.Run.{font};
ghost use Rattle.t1_run.specs.Words.{step as step_of};
ghost use Rattle.t1_run.specs.declared.outline.Composite.{Composite as CompositeOf};
ghost use Rattle.t1_chain.specs.Details.{detail_of as detail_of_word, recorded_in};
ghost use Rattle.t1_chain.specs.Failing.{failure_at as failure_at_word};
ghost use Rattle.t1_chain.specs.Machine.{asked_by, asking, refused_call, refused_control};
ghost use Rattle.t1_chain.specs.Machine.{failure_seen};
ghost use Rattle.t1_chain.specs.Machine.{Acts, MayEnter, Notes};

use crate::detail::detail_of;
use crate::ending::{Asked, Ending};
use crate::failure::Failure;
use crate::noted::Noted;
use std::alloc::{AllocError, Global};
use t1_code::Command;
use t1_frac::{Code, Place, Refusal};
use t1_run::{Bodies, Composite, Control, Halt, State, find_parts};

/// The step of a command: what it asks for, where it asks for more than the next word.
fn take_step(state: &mut State, command: Command) -> Result<Option<Control>, Halt>
    ensures { MakesStep asking (step_of command (state_of state.old)) result state.new }
{
    match command {
        Command::Num(number) => {
            state.step_by_number(number)?;
            Ok(None)
        }
        Command::CallSubr | Command::Return | Command::Seac | Command::EndChar => {
            let control = state.step_asking(command)?;
            Ok(Some(control))
        }
        _ => {
            state.step_on(command)?;
            Ok(None)
        }
    }
}

/// The failure at a word of a body, by what was noted before it.
fn failure_at<B: Bodies>(
    alloc: Global,
    bodies: &B,
    word: usize,
    command: Command,
    noted: &Noted,
    code: Code,
) -> Result<Failure, AllocError>
    ensures { IfOk result (λ failure.
        failure_seen failure ≡ failure_at_word word
        (detail_of_word (B.glyphs bodies.now) code command noted.now.stack.items
        noted.now.points) code) }
{
    let detail = detail_of(alloc, bodies, code, command, noted)?;
    Ok(Failure {
        code,
        calls: Vec::new(alloc),
        word,
        detail,
    })
}

/// The fault by which parts aren't found.
fn parts_fault(parts: Result<Composite, Refusal>) -> Result<Option<Code>, AllocError>
    ensures { (given : Result CompositeOf CodeOf) →
        Gives (λ found. found) parts (reported_at Place.Nowhere given) →
        IfOk result (λ code. code ≡ result_err given) }
{
    match parts {
        Ok(_parts) => Ok(None),
        Err(Refusal::Fault(fault)) => Ok(Some(fault.code)),
        Err(Refusal::Memory) => Err(AllocError),
    }
}

/// The fault of a call, where so many Subrs more may be active.
fn call_fault<B: Bodies>(bodies: &B, levels: u8, n: u16) -> Option<Code>
    ensures { result ≡ refused_call levels (B.subrs bodies.now n) }
{
    if bodies.subr(n).is_none() {
        return Some(Code::F32);
    }
    if levels == 0 {
        return Some(Code::F33);
    }
    None
}

/// The fault of what a word asks for.
fn control_fault<B: Bodies>(
    alloc: Global,
    bodies: &B,
    levels: u8,
    control: &Control,
) -> Result<Option<Code>, AllocError>
    ensures { IfOk result (λ code.
        code
        ≡ refused_control (font (B.subrs bodies.now) (B.glyphs bodies.now)) levels control.now) }
{
    match control {
        Control::Call(n) => Ok(call_fault(bodies, levels, *n)),
        Control::Compose(accent) => parts_fault(find_parts(alloc, bodies, accent)),
        Control::Back | Control::End => Ok(None),
    }
}

/// What a word asks of the run that has no fault.
fn asked(word: usize, control: Control) -> Asked
    ensures { result ≡ asked_by word control }
{
    match control {
        Control::Call(n) => Asked::Subr(n),
        Control::Back => Asked::Over(Ending::Returned(word)),
        Control::End | Control::Compose(_) => Asked::Over(Ending::Completed),
    }
}

/// How many points the open flex has recorded.
fn recorded_points(state: &State) -> Option<usize>
    ensures { result ≡ recorded_in (state_of state.now).flex }
{
    match &state.flex {
        Some(_before) => Some(state.recorded.len()),
        None => None,
    }
}

/// Notes a run before a word, in the place of what was noted.
fn note(noted: &mut Noted, state: &State) -> Result<(), AllocError>
    ensures { OnOk result (Notes noted.new (state_of state.now)) }
{
    noted.points = recorded_points(state);
    noted.stack.clear();
    noted.stack.extend_from_slice(state.operands.as_slice())
}

/// What a word of a body asks of the run, where so many Subrs more may be active. What was noted
/// before is overwritten.
pub fn follow_word<B: Bodies>(
    alloc: Global,
    bodies: &B,
    levels: u8,
    word: usize,
    command: Command,
    noted: &mut Noted,
    state: &mut State,
) -> Result<Asked, AllocError>
    ensures acts { IfOk result (λ asked.
        Acts (font (B.subrs bodies.now) (B.glyphs bodies.now)) levels word command asked
        (state_of state.old) (state_of state.new)) }
    ensures entered { IfOk result (λ asked. MayEnter levels (B.subrs bodies.now) asked) }
{
    note(noted, state)?;
    let control = match take_step(state, command) {
        Ok(None) => return Ok(Asked::Word),
        Ok(Some(control)) => control,
        Err(Halt::Memory) => return Err(AllocError),
        Err(Halt::Fault(code)) => {
            let failure = failure_at(alloc, bodies, word, command, noted, code)?;
            return Ok(Asked::Over(Ending::Failed(failure)));
        }
    };
    if let Some(code) = control_fault(alloc, bodies, levels, &control)? {
        let failure = failure_at(alloc, bodies, word, command, noted, code)?;
        return Ok(Asked::Over(Ending::Failed(failure)));
    }
    Ok(asked(word, control))
}
