//! Commands performed on a session, each with its answer in memory.
ghost use Rattle.t1_commands.specs.MadeCommands.{Makes};
ghost use Rattle.t1_calls.specs.Performing.{IsCallAnswered, IsAnswerTo};

use crate::prints::{print_answer, show_answer};
use std::alloc::{AllocError, Global};
use t1_commands::{Answer, SessionCommand, answer_of};
use t1_session::Session;

/// Performs a command. Where memory runs out the session is as before, but for the batch of a
/// commit.
#[tactic(auto, using(crate::proofs::PerformingLaws::taken, crate::proofs::PerformingLaws::print_answered, crate::proofs::PerformingLaws::show_answered))]
fn perform(
    alloc: Global,
    session: &mut Session,
    command: SessionCommand,
) -> Result<Answer, AllocError>
    ensures { IsCallAnswered session.old.state session.new.state command result }
{
    match command {
        SessionCommand::Edit(edit) => answer_of(session.apply(edit)),
        SessionCommand::Begin => answer_of(session.begin()),
        SessionCommand::Commit => answer_of(session.commit()),
        SessionCommand::Abort => answer_of(session.abort()),
        SessionCommand::Print(print) => print_answer(alloc, session, print),
        SessionCommand::Show(show) => show_answer(session, &show),
        SessionCommand::Broken(rule) => Ok(Answer::Broken(rule)),
    }
}

/// Performs the command that was made, where there was the memory for it, and gives its answer,
/// also where memory ran out.
#[tactic(auto, using(crate::proofs::PerformingLaws::answered, crate::proofs::PerformingLaws::unanswered, crate::proofs::PerformingLaws::not_made))]
pub fn answer_to(
    alloc: Global,
    session: &mut Session,
    made: Result<SessionCommand, AllocError>,
) -> Answer
    ensures { (wanted : SessionCommand) → Makes made wanted →
        IsAnswerTo session.old.state session.new.state wanted result }
{
    match made {
        Ok(command) => match perform(alloc, session, command) {
            Ok(answer) => answer,
            Err(_) => Answer::OutOfMemory,
        },
        Err(_) => Answer::OutOfMemory,
    }
}
