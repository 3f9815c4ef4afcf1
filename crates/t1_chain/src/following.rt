//! A run, followed word by word.

ghost use Rattle.std.specs.Prelude.{◌≡◌, ◌∷◌, is_some, IfOk, option_map};
ghost use Rattle.t1_run.specs.Machine.{state_of};
ghost use Rattle.t1_run.specs.Run.{font};
ghost use Rattle.t1_run.specs.State.{State as StateOf};
ghost use Rattle.t1_chain.specs.Failing.{endings, failure_at, failure_by, failure_in};
ghost use Rattle.t1_chain.specs.Failing.{caller_goes_on};
ghost use Rattle.t1_chain.specs.Failing.{within_call, Follower};
ghost use Rattle.t1_chain.specs.Machine.{ending_of, ending_or, failure_seen};

use crate::ending::{Asked, Ending};
use crate::failure::{Call, Detail, Failure};
use crate::noted::Noted;
use crate::step::follow_word;
use std::alloc::{AllocError, Global};
use t1_code::Command;
use t1_frac::Code;
use t1_run::{Bodies, Segments, State};

/// How many Subrs may be active at once.
const MAX_ACTIVE: u8 = 10;

/// A failure in the Subr that a call entered.
fn in_call(call: Call, failure: Failure) -> Result<Failure, AllocError>
    ensures { IfOk result (λ outer. failure_seen outer ≡ within_call call (failure_seen failure)) }
{
    let mut calls = failure.calls;
    calls.insert(0, call)?;
    Ok(Failure {
        code: failure.code,
        calls,
        word: failure.word,
        detail: failure.detail,
    })
}

/// How the run stops where the Subr that a call entered stops so; nothing where the caller goes on.
fn after_call(call: Call, ending: Ending) -> Result<Option<Ending>, AllocError>
    ensures { IfOk result (λ left. (next : Follower) (s : StateOf) →
        caller_goes_on call next (ending_of ending s) ≡ ending_or next left s) }
{
    match ending {
        Ending::OutOfWords | Ending::Returned(_) => Ok(None),
        Ending::Completed => Ok(Some(Ending::Completed)),
        Ending::Failed(failure) => Ok(Some(Ending::Failed(in_call(call, failure)?))),
    }
}

/// How a list of commands stops, where so many Subrs may be active at once.
fn follow<B: Bodies>(
    alloc: Global,
    bodies: &B,
    levels: u8,
    body: &[Command],
    state: &mut State,
) -> Result<Ending, AllocError>
    ensures { IfOk result (λ ending.
        endings (font (B.subrs bodies.now) (B.glyphs bodies.now))
        levels body.now (state_of state.old)
        ≡ ending_of ending (state_of state.new)) }
{
    let mut noted = Noted::new(alloc);
    let mut next = 0;
    let mut rest = body;
    'words: while let Some((command, tail)) = rest.split_first() {
        let word = next;
        let asked = follow_word(alloc, bodies, levels, word, *command, &mut noted, state)?;
        next += 1;
        rest = tail;
        match asked {
            Asked::Word => {}
            Asked::Over(ending) => return Ok(ending),
            Asked::Subr(subr) => {
                let Some(called) = bodies.subr(subr) else {
                    unreachable!()
                };
                state.enter(subr)?;
                let ending = follow(alloc, bodies, levels - 1, called, state)?;
                if let Some(ending) = after_call(Call { word, subr }, ending)? {
                    return Ok(ending);
                }
            }
        }
    }
    Ok(Ending::OutOfWords)
}

/// A failure of a glyph's own body that has no detail.
fn own_failure(alloc: Global, word: usize, code: Code) -> Failure
    ensures { failure_seen result ≡ failure_at word Detail.Nothing code }
{
    Failure {
        code,
        calls: Vec::new(alloc),
        word,
        detail: Detail::Nothing,
    }
}

/// Where and why a glyph's own body of so many words fails that stops so, by whether the side
/// bearing is set.
fn own_ending(alloc: Global, count: usize, measured: bool, ending: Ending) -> Option<Failure>
    ensures { (s : StateOf) → is_some s.metric ≡ measured →
        option_map failure_seen result ≡ failure_by count (ending_of ending s) }
{
    match ending {
        Ending::OutOfWords => Some(own_failure(alloc, count, Code::F35)),
        Ending::Returned(word) => Some(own_failure(alloc, word, Code::F34)),
        Ending::Completed => {
            if measured {
                return None;
            }
            Some(own_failure(alloc, count, Code::F36))
        }
        Ending::Failed(failure) => Some(failure),
    }
}

/// Where and why the run of a glyph's own body fails; nothing where it has no fault.
#[tactic(auto, unfolding(crate::specs::Failing::failure_in))]
pub fn failure_of<B: Bodies>(
    alloc: Global,
    bodies: &B,
    body: &[Command],
) -> Result<Option<Failure>, AllocError>
    ensures { IfOk result (λ failure.
        option_map failure_seen failure
        ≡ failure_in (font (B.subrs bodies.now) (B.glyphs bodies.now)) body.now) }
{
    let mut state = State::new(alloc, Segments::new(alloc));
    let ending = follow(alloc, bodies, MAX_ACTIVE, body, &mut state)?;
    Ok(own_ending(alloc, body.len(), state.metric.is_some(), ending))
}
