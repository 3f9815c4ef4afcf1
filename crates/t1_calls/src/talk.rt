//! A session of which each call is a command.
use std::alloc::Global;
use std::marker::Model;
use t1_commands::Answer;
use t1_session::Session;

/// A session, and the answer to its last command. The texts of its source are its own, so that it
/// borrows nothing of the bytes that it was opened on.
#[derive(Drop)]
pub struct Talk {
    alloc: Global,
    session: Session<'static>,
    answer: Option<Answer>,
}

impl Model for Talk {
    ghost use Rattle.t1_calls.specs.Talking.{kept_answer_text, Spoken};

    ghost Value = { Spoken };

    ghost view = { λ talk.
        record { state = talk.session.state; answer = kept_answer_text talk.answer } };
}

/// Why a call performed nothing.
#[derive(Debug, Drop)]
pub enum Unperformed {
    /// Its texts aren't one command's (`is_call`).
    Misframed,
    /// There wasn't memory enough for a copy of the body.
    Memory,
}

ghost use Rattle.std.specs.Prelude.{◌≡◌, [], true, IfOk};
ghost use Rattle.t1_frac.specs.Outcome.{Gives};
ghost use Rattle.t1_frac.specs.Words.{words};
ghost use Rattle.t1_commands.specs.AnswerTexts.{answer_text};
ghost use Rattle.t1_commands.specs.Commands.{takes_body};
ghost use Rattle.t1_session.specs.Machine.{scratch};
ghost use Rattle.t1_calls.specs.Framing.{is_call};
ghost use Rattle.t1_calls.specs.Talking.{kept_answer_text, Speaks};

use crate::framing::{body_text, is_call};
use crate::performing::answer_to;
use std::alloc::AllocError;
use t1_code::Counted;
use t1_commands::{body_command, is_blank_line, line_command, put_answer};
use t1_frac::{Bytes, Refusal};
use t1_pairs::read_pairs;
use t1_session::takes_body;
use t1_source::read_source;

/// The text of an answer.
fn text_of(alloc: Global, answer: &Answer) -> Result<Vec<u8>, AllocError>
    ensures { IfOk result (λ text. text.items ≡ answer_text answer.now) }
{
    let mut text = Counted::new(Vec::new(alloc));
    match put_answer(&mut text, answer) {
        Ok(()) => Ok(text.into_inner()),
        // A vector fails to take bytes only where it can't grow.
        Err(_) => Err(AllocError),
    }
}

/// The text of the answer that is kept.
fn kept_text(alloc: Global, answer: &Option<Answer>) -> Result<Vec<u8>, AllocError>
    ensures { IfOk result (λ text. text.items ≡ kept_answer_text answer.now) }
{
    match answer {
        None => Ok(Vec::new(alloc)),
        Some(answer) => text_of(alloc, answer),
    }
}

impl Talk {
    /// The session of the bytes of a source and of a kerning file, or the first fault: of reading
    /// the source, of the pairs, of the source. It has a copy of the source's texts, and no answer
    /// is kept yet.
    #[tactic(auto, unfolding(t1_session::specs::Machine::scratch))]
    pub fn open(alloc: Global, source: &[u8], pairs: &[u8]) -> Result<Talk, Refusal>
        ensures state { Gives (λ talk. talk.state) result (scratch source.now pairs.now) }
        ensures answer { IfOk result (λ talk. talk.answer ≡ []) }
    {
        let source = read_source(alloc, source)?;
        let pairs = read_pairs(alloc, pairs)?;
        let session = Session::open(alloc, source.owned()?, pairs)?;
        Ok(Talk {
            alloc,
            session,
            answer: None,
        })
    }

    /// Performs the command of a line, with the body where the line takes one, and keeps its
    /// answer. A line without words is no command, and has none. Where nothing is performed, the
    /// answer before is kept.
    pub fn perform(&mut self, line: &[u8], body: &[u8]) -> Result<(), Unperformed>
        ensures { Speaks self.old self.new line.now body.now result }
    {
        if !is_call(line, body) {
            return Err(Unperformed::Misframed);
        }
        if takes_body(line) {
            return self.perform_with(line, body);
        }
        if is_blank_line(line) {
            self.answer = None;
            return Ok(());
        }
        let made = line_command(self.alloc, line);
        self.answer = Some(answer_to(self.alloc, &mut self.session, made));
        Ok(())
    }

    /// Performs the command of a line and its body, and keeps its answer.
    fn perform_with(&mut self, line: &[u8], body: &[u8]) -> Result<(), Unperformed>
        requires takes { takes_body (words line.now) ≡ true }
        requires call { is_call line.now body.now ≡ true }
        ensures { Speaks self.old self.new line.now body.now result }
    {
        let Ok(text) = body_text(self.alloc, body) else {
            return Err(Unperformed::Memory);
        };
        let made = body_command(self.alloc, line, Bytes::new(text));
        self.answer = Some(answer_to(self.alloc, &mut self.session, made));
        Ok(())
    }

    /// The text of the answer that is kept. It may be asked for again, where there isn't memory
    /// enough for it.
    pub fn answer(&self) -> Result<Vec<u8>, AllocError>
        ensures { IfOk result (λ text. text.items ≡ self.now.answer) }
    {
        kept_text(self.alloc, &self.answer)
    }
}
