//! A session over a reader and a writer, in the midst of its input.
ghost use Rattle.std.specs.Str.{bytes_eq};
ghost use Rattle.std.specs.Prelude.{◌≡◌, ◌||◌, true, ◌∷◌, [], None, Some};
ghost use Rattle.t1_frac.specs.Outcome.{Gives};
ghost use Rattle.t1_frac.specs.Words.{words};
ghost use Rattle.t1_commands.specs.Commands.{takes_body};
ghost use Rattle.t1_session.specs.Conversation.{is_unbroken};
ghost use Rattle.t1_session.specs.LineEnds.{ends_line};
ghost use Rattle.t1_session.specs.Machine.{scratch};
ghost use Rattle.t1_session.specs.Serving.{streams, Serves};

use crate::error::ServeError;
use crate::session::{Performer, Session, answer_command};
use std::alloc::Global;
use std::io::{Read, Write};
use std::mem;
use t1_code::Counted;
use t1_commands::{body_command, ends_body, is_blank_line, line_command, open_command};
use t1_frac::{Bytes, Refusal, next_word};
use t1_pairs::read_pairs;
use t1_source::read_source;

/// A command whose body is being read: the line that opened it, and its body so far.
#[derive(Drop)]
struct CommandBegun {
    heading: Vec<u8>,
    body: Vec<u8>,
}

/// A session in the midst of its input: fed pieces of it, it answers each command as soon as its
/// last line ends.
#[derive(Drop)]
struct Dialogue<'a> {
    session: Performer<'a>,
    opening: Option<CommandBegun>,
    line: Vec<u8>,
    after_return: bool,
    ghost unbroken: { is_unbroken line.items ≡ true },
}

/// The session of the bytes of a source and of a kerning file, or the first fault: of reading the
/// source, of the pairs, of the source.
#[tactic(auto, unfolding(crate::specs::Machine::scratch))]
fn loaded<'a>(alloc: Global, source: &'a [u8], pairs: &[u8]) -> Result<Performer<'a>, Refusal>
    ensures { Gives (λ session. session) result (scratch source.now pairs.now) }
{
    let source = read_source(alloc, source)?;
    let pairs = read_pairs(alloc, pairs)?;
    Ok(Performer::of(Session::open(alloc, source, pairs)?))
}

/// Runs a session over a source and its pairs: reads commands to the end of the input, and answers
/// each before the next read.
pub fn serve<R: Read, W: Write>(
    alloc: Global,
    source: &[u8],
    pairs: &[u8],
    reader: &mut Counted<R>,
    writer: &mut Counted<W>,
) -> Result<(), ServeError>
    ensures { Serves R.remaining W.contents (scratch source.now pairs.now)
        (streams reader.old writer.old) (streams reader.new writer.new) result }
{
    match loaded(alloc, source, pairs) {
        Ok(session) => {
            let mut dialogue = Dialogue::new(alloc, session);
            let answered = dialogue.converse(alloc, reader, writer);
            drop(dialogue);
            answered
        }
        Err(Refusal::Fault(fault)) => Err(ServeError::Load(fault)),
        Err(Refusal::Memory) => Err(ServeError::Memory),
    }
}

/// Whether a byte ends a line. An LF after a CR belongs to it.
fn ends_line(after_return: bool, byte: u8) -> bool
    ensures { result ≡ ends_line after_return byte }
{
    byte == b'\r' || (byte == b'\n' && !after_return)
}

/// Whether a word is one of two.
fn is_either(word: &[u8], one: &[u8], other: &[u8]) -> bool
    ensures { result ≡ bytes_eq word.now one.now || bytes_eq word.now other.now }
{
    word == one || word == other
}

/// Whether a line takes a body, by its first two words.
#[tactic(auto, unfolding(t1_commands::specs::Commands::takes_body))]
pub fn takes_body(line: &[u8]) -> bool
    ensures { result ≡ takes_body (words line.now) }
{
    let Some((verb, rest)) = next_word(line) else {
        return false;
    };
    let Some((kind, _)) = next_word(rest) else {
        return false;
    };
    is_either(verb, b"replace", b"add") && is_either(kind, b"glyph", b"subr")
}

impl<'a> Dialogue<'a> {
    ghost use Rattle.t1_session.specs.Conversation.{fresh, EndsCommandLine, EndsLine, Feeds};
    ghost use Rattle.t1_session.specs.Conversation.{AnswersTheEnd};
    ghost use Rattle.t1_session.specs.Dialogues.{conversation_of, opening_seen};
    ghost use Rattle.t1_session.specs.Serving.{Converses};

    /// A session before its first byte.
    fn new(alloc: Global, session: Performer<'a>) -> Dialogue<'a>
        ensures { conversation_of result ≡ fresh session.entry }
    {
        Dialogue {
            session,
            opening: None,
            line: Vec::new(alloc),
            after_return: false,
        }
    }

    /// Answers the input to its end, from before its first byte.
    fn converse<R: Read, W: Write>(
        &mut self,
        alloc: Global,
        reader: &mut Counted<R>,
        writer: &mut Counted<W>,
    ) -> Result<(), ServeError>
        requires { conversation_of self.old ≡ fresh self.old.session }
        ensures { Converses R.remaining W.contents self.old.session (streams reader.old writer.old)
            (streams reader.new writer.new) result }
    {
        let mut buffer = [0; 4096];
        'pieces: loop {
            let count = match reader.take(&mut buffer) {
                Ok(count) => count,
                Err(_) => return Err(ServeError::Read),
            };
            if count == 0 {
                return self.finish(alloc, writer);
            }
            self.feed(alloc, buffer.split_at(count).0, writer)?;
        }
    }

    /// Takes a piece of the input, and answers each command that it ends.
    fn feed<W: Write>(
        &mut self,
        alloc: Global,
        piece: &[u8],
        writer: &mut Counted<W>,
    ) -> Result<(), ServeError>
        ensures { Feeds W.contents (conversation_of self.old) (conversation_of self.new) writer.old
            writer.new piece.now result }
    {
        for byte in piece {
            self.push(alloc, *byte, writer)?;
        }
        Ok(())
    }

    /// Takes one byte of the input.
    fn push<W: Write>(
        &mut self,
        alloc: Global,
        byte: u8,
        writer: &mut Counted<W>,
    ) -> Result<(), ServeError>
        ensures { Feeds W.contents (conversation_of self.old) (conversation_of self.new) writer.old
            writer.new (byte ∷ []) result }
    {
        let is_end = ends_line(self.after_return, byte);
        self.after_return = byte == b'\r';
        if is_end {
            return self.end_line(alloc, writer);
        }
        if byte == b'\n' {
            return Ok(());
        }
        self.line.push(byte)?;
        Ok(())
    }

    /// Ends the line.
    fn end_line<W: Write>(
        &mut self,
        alloc: Global,
        writer: &mut Counted<W>,
    ) -> Result<(), ServeError>
        ensures { EndsLine W.contents (conversation_of self.old) (conversation_of self.new)
            writer.old writer.new result }
    {
        match self.opening.take() {
            None => self.end_command_line(alloc, writer),
            Some(opening) => self.end_body_line(alloc, opening, writer),
        }
    }

    /// Ends a line that begins a command, or that has no words. Want of memory is answered as any
    /// command is.
    fn end_command_line<W: Write>(
        &mut self,
        alloc: Global,
        writer: &mut Counted<W>,
    ) -> Result<(), ServeError>
        requires { self.old.opening ≡ None }
        ensures { EndsCommandLine W.contents (conversation_of self.old) (conversation_of self.new)
            writer.old writer.new result }
    {
        let line = mem::replace(&mut self.line, Vec::new(alloc));
        if takes_body(&line) {
            self.opening = Some(CommandBegun {
                heading: line,
                body: Vec::new(alloc),
            });
            return Ok(());
        }
        if is_blank_line(&line) {
            return Ok(());
        }
        let made = line_command(alloc, &line);
        answer_command(&mut self.session, made, writer)
    }

    /// Ends a line of a body.
    fn end_body_line<W: Write>(
        &mut self,
        alloc: Global,
        opening: CommandBegun,
        writer: &mut Counted<W>,
    ) -> Result<(), ServeError>
        requires { self.old.opening ≡ None }
        ensures { EndsLine W.contents
            (record (conversation_of self.old) { opening = Some (opening_seen opening) })
            (conversation_of self.new) writer.old writer.new result }
    {
        let CommandBegun { heading, mut body } = opening;
        if ends_body(&self.line) {
            self.line.clear();
            let made = body_command(alloc, &heading, Bytes::new(body));
            return answer_command(&mut self.session, made, writer);
        }
        body.extend_from_slice(&self.line)?;
        body.push(b'\n')?;
        self.line.clear();
        self.opening = Some(CommandBegun { heading, body });
        Ok(())
    }

    /// Ends the input. A last line without its end counts where it isn't empty; a body that is open
    /// then is a command too. Want of memory is answered as any command is.
    fn finish<W: Write>(&mut self, alloc: Global, writer: &mut Counted<W>) -> Result<(), ServeError>
        ensures { AnswersTheEnd W.contents (conversation_of self.old) writer.old writer.new result }
    {
        match self.opening.take() {
            None => self.finish_command_line(alloc, writer),
            Some(opening) => self.finish_body(alloc, opening, writer),
        }
    }

    /// Ends the input in a line that begins a command, or that has no words.
    fn finish_command_line<W: Write>(
        &mut self,
        alloc: Global,
        writer: &mut Counted<W>,
    ) -> Result<(), ServeError>
        requires { self.old.opening ≡ None }
        ensures { AnswersTheEnd W.contents (conversation_of self.old) writer.old writer.new result }
    {
        if takes_body(&self.line) {
            let made = Ok(open_command(&self.line));
            return answer_command(&mut self.session, made, writer);
        }
        if is_blank_line(&self.line) {
            return Ok(());
        }
        let made = line_command(alloc, &self.line);
        answer_command(&mut self.session, made, writer)
    }

    /// Ends the input in a line of a body, which may be the line that ends it.
    fn finish_body<W: Write>(
        &mut self,
        alloc: Global,
        opening: CommandBegun,
        writer: &mut Counted<W>,
    ) -> Result<(), ServeError>
        requires { self.old.opening ≡ None }
        ensures { AnswersTheEnd W.contents
            (record (conversation_of self.old) { opening = Some (opening_seen opening) })
            writer.old writer.new result }
    {
        let CommandBegun { heading, body } = opening;
        if ends_body(&self.line) {
            let made = body_command(alloc, &heading, Bytes::new(body));
            return answer_command(&mut self.session, made, writer);
        }
        let made = Ok(open_command(&heading));
        answer_command(&mut self.session, made, writer)
    }
}
