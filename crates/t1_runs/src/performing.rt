//! A script performed on a session, a command a line.

use crate::calls::{
    abort, apply, begin, commit, open, print_afm, print_blocks, print_kern, print_pfa, print_pfb,
    print_source, print_uses, try_apply,
};
use crate::stop::Stop;
use std::alloc::{AllocError, Global};
use std::io::{Stdout, Write};
use t1_code::{Counted, OutError};
use t1_commands::{Print, SessionCommand, answer_of, body_command, line_command, put_answer};
use t1_frac::{Bytes, Refusal, next_word};
use t1_pairs::read_pairs;
use t1_session::{Session, takes_body};
use t1_source::{Cause, Edit, read_source};
use t1_text::first_line;

/// The line that says that an edit ran out of memory.
const WANTED: &[u8] = b"wanted memory\n";

/// The prints of a session.
const PRINTS: [Print; 7] = [
    Print::Source,
    Print::Kern,
    Print::Pfb,
    Print::Blocks(40),
    Print::Pfa,
    Print::Afm,
    Print::Uses,
];

/// What stands after the first word of a line.
fn after_word(line: &[u8]) -> &[u8] {
    match next_word(line) {
        Some((_, rest)) => rest,
        None => line,
    }
}

/// The command of a line. The body of one that takes it stands on the same line, after its three
/// words.
fn command_of(alloc: Global, line: &[u8]) -> Result<SessionCommand, AllocError> {
    if !takes_body(line) {
        return line_command(alloc, line);
    }
    let body = after_word(after_word(after_word(line)));
    let heading = line.strip_suffix(body).unwrap_or(line);
    body_command(alloc, heading, Bytes::copied(alloc, body)?)
}

/// Writes a print as it is.
fn put_text(session: &Session, print: Print, out: &mut Counted<Stdout>) -> Result<(), OutError> {
    match print {
        Print::Source => print_source(session, out),
        Print::Kern => print_kern(session, out),
        Print::Pfb => print_pfb(session, out),
        Print::Blocks(_) => print_blocks(session, out),
        Print::Pfa => print_pfa(session, out),
        Print::Afm => print_afm(session, out),
        Print::Uses => print_uses(session, out),
    }
}

/// Writes a print, and a line end.
fn put_print(session: &Session, print: Print, out: &mut Counted<Stdout>) -> Result<(), Stop> {
    put_text(session, print, out)?;
    out.put_all(b"\n")?;
    Ok(())
}

/// Writes that an edit ran out of memory, and all prints.
fn put_wanted(session: &Session, out: &mut Counted<Stdout>) -> Result<(), Stop> {
    out.put_all(WANTED)?;
    for print in &PRINTS {
        put_print(session, *print, out)?;
    }
    Ok(())
}

/// Takes an edit. Where memory ran out, that is written, and the edit that came back is taken.
fn edited(
    session: &mut Session,
    edit: Edit,
    out: &mut Counted<Stdout>,
) -> Result<Result<(), Cause>, Stop> {
    match try_apply(session, edit) {
        Ok(()) => Ok(Ok(())),
        Err((Cause::Memory, edit)) => {
            put_wanted(session, out)?;
            Ok(apply(session, edit))
        }
        Err((cause, _)) => Ok(Err(cause)),
    }
}

/// How it is written whether a batch is open.
fn batch(session: &Session) -> &'static str {
    if session.in_batch() {
        "in a batch: "
    } else {
        ""
    }
}

/// Writes how many runs there were by now, and whether a batch is open.
fn put_state(alloc: Global, session: &Session, out: &mut Counted<Stdout>) -> Result<(), Stop> {
    let (runs, batch) = (session.runs(), batch(session));
    let mut text = Vec::new(alloc);
    write!(text, "{runs} {batch}")?;
    out.put_all(&text)?;
    Ok(())
}

/// Writes how many runs there were by now, whether a batch is open, and what a call is answered.
fn put_answered(
    alloc: Global,
    performed: Result<(), Cause>,
    session: &Session,
    out: &mut Counted<Stdout>,
) -> Result<(), Stop> {
    let answer = answer_of(performed)?;
    put_state(alloc, session, out)?;
    put_answer(out, &answer)?;
    Ok(())
}

/// Takes an edit, and writes what came of it.
fn edit(
    alloc: Global,
    session: &mut Session,
    edit: Edit,
    out: &mut Counted<Stdout>,
) -> Result<(), Stop> {
    let performed = edited(session, edit, out)?;
    put_answered(alloc, performed, session, out)
}

/// Performs a command, and writes what came of it.
fn perform(
    alloc: Global,
    session: &mut Session,
    command: SessionCommand,
    out: &mut Counted<Stdout>,
) -> Result<(), Stop> {
    match command {
        SessionCommand::Edit(it) => edit(alloc, session, it, out),
        SessionCommand::Begin => put_answered(alloc, begin(session), session, out),
        SessionCommand::Commit => put_answered(alloc, commit(session), session, out),
        SessionCommand::Abort => put_answered(alloc, abort(session), session, out),
        SessionCommand::Print(print) => put_print(session, print, out),
        SessionCommand::Show(_) => Err(Stop::NoStep),
        SessionCommand::Broken(_) => Err(Stop::NoStep),
    }
}

/// Performs the command of a line.
fn perform_line(
    alloc: Global,
    session: &mut Session,
    line: &[u8],
    out: &mut Counted<Stdout>,
) -> Result<(), Stop> {
    let command = command_of(alloc, line)?;
    perform(alloc, session, command, out)
}

/// The session of the bytes of a source, without pairs.
pub fn opened(alloc: Global, source: &[u8]) -> Result<Session<'_>, Refusal> {
    let source = read_source(alloc, source)?;
    let pairs = read_pairs(alloc, b"")?;
    open(alloc, source, pairs)
}

/// Performs the commands of a script.
fn perform_lines(
    alloc: Global,
    session: &mut Session,
    script: &[u8],
    out: &mut Counted<Stdout>,
) -> Result<(), Stop> {
    let mut rest = script;
    while !rest.is_empty() {
        let (line, after) = first_line(rest);
        perform_line(alloc, session, line, out)?;
        rest = after;
    }
    Ok(())
}

/// Writes that a session is open, and performs the commands of a script.
fn perform_opened(
    alloc: Global,
    session: &mut Session,
    script: &[u8],
    out: &mut Counted<Stdout>,
) -> Result<(), Stop> {
    put_state(alloc, session, out)?;
    out.put_all(b"opened\n")?;
    perform_lines(alloc, session, script, out)
}

/// Opens a session on a source, and performs the commands of a script.
pub fn perform_script(
    alloc: Global,
    source: &[u8],
    script: &[u8],
    out: &mut Counted<Stdout>,
) -> Result<(), Stop> {
    let mut session = opened(alloc, source)?;
    perform_opened(alloc, &mut session, script, out)
}
