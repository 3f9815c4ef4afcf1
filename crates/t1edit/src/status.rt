//! How the program ends.
ghost use Rattle.std.specs.Prelude.{◌≡◌, IfErr};
ghost use Rattle.t1_code.specs.Writing.{Writes};
ghost use Rattle.t1edit.specs.FileErrors.{error_text, status_of, status_of_file};
ghost use Rattle.t1edit.specs.Status.{error_line, line_with, misuse_line};
ghost use Rattle.t1edit.specs.Status.{status_of_misuse, status_of_stop, status_of_run};
ghost use Rattle.t1edit.specs.Status.{IsWritten, ReportsStop, ReportsRun};

use crate::file_error::{FileError, put_file_error, status_of_file};
use crate::line::put_line;
use crate::unopened::Unopened;
use std::io::{self, Write};
use t1_code::Counted;
use t1_commands::put_fault;
use t1_disassemble::FontRefusal;
use t1_session::ServeError;

/// The status of a fault.
pub const FAULT: u8 = 1;

/// The status of a read or a write that failed.
pub const FAILED: u8 = 3;

/// What each line begins with that isn't of one file of several.
const NAME: &[u8] = b"t1edit: ";

/// The status of a command line that isn't accepted.
const USAGE: u8 = 2;

/// What is wrong with a command line that has the words of one.
#[derive(Clone, Copy, Debug, PartialEq, Eq)]
pub enum Misuse {
    /// Standard input can't be the source and the kerning file at once.
    InputTwice,
    /// A session has its commands from standard input.
    InputOfSession,
    /// There is no such code, rule or status.
    UnknownCode,
    /// An argument is no text in UTF-8.
    NoText,
    /// A block can't have this length.
    BlockLength,
    /// The output would be written over the source.
    OutputOverSource,
    /// The output would be written over the kerning file.
    OutputOverPairs,
    /// The output would be written over the font's file.
    OutputOverFont,
}

impl Misuse {
    /// The line that reports it.
    fn line(self) -> &'static [u8]
        ensures { result.now ≡ misuse_line self }
    {
        match self {
            Misuse::InputTwice => b"t1edit: only one of SOURCE and FILE can be standard input\n",
            Misuse::InputOfSession => {
                b"t1edit: a session has its commands from standard input, so neither SOURCE nor FILE can be -\n"
            }
            Misuse::UnknownCode => b"t1edit: no such code; 't1edit explain' lists all of them\n",
            Misuse::NoText => b"t1edit: an argument is no UTF-8 text\n",
            Misuse::BlockLength => b"t1edit: a block has 1 to 2147483647 bytes\n",
            Misuse::OutputOverSource => b"t1edit: -o would write over SOURCE\n",
            Misuse::OutputOverPairs => b"t1edit: -o would write over the kerning file\n",
            Misuse::OutputOverFont => b"t1edit: -o would write over FONT\n",
        }
    }
}

/// Why a run ends before its work is done.
#[derive(Debug, Drop)]
pub enum Stop {
    /// The command line isn't one of the program's, and what is wrong with it was written.
    Rejected,
    Misused(Misuse),
    /// A call over the bytes of a file stopped.
    Failed(FileError),
    /// Of several sources some are refused, and the line of each was written; this is the worst
    /// status.
    Told(u8),
}

impl From<Misuse> for Stop {
    ghost use Rattle.std.specs.Prelude.{◌≡◌};
    ghost use Rattle.t1edit.specs.declared.status.Stop.TheVariants.{Misused};

    ghost from_gives = { λ misuse stop. stop ≡ Misused misuse };

    fn from(misuse: Misuse) -> Stop {
        Stop::Misused(misuse)
    }
}

impl From<ServeError> for Stop {
    ghost use Rattle.std.specs.Prelude.{◌≡◌};
    ghost use Rattle.t1edit.specs.Stopping.{stop_of_serving};

    ghost from_gives = { λ error stop. stop ≡ stop_of_serving error };

    fn from(error: ServeError) -> Stop {
        Stop::Failed(FileError::Served(error))
    }
}

impl From<Unopened> for Stop {
    ghost use Rattle.std.specs.Prelude.{◌≡◌};
    ghost use Rattle.t1edit.specs.Stopping.{stop_of_unopened};

    ghost from_gives = { λ unopened stop. stop ≡ stop_of_unopened unopened };

    fn from(unopened: Unopened) -> Stop {
        match unopened {
            Unopened::Refused => Stop::from(ServeError::Write),
            Unopened::Memory(_) => Stop::from(ServeError::Memory),
        }
    }
}

impl From<FileError> for Stop {
    ghost use Rattle.std.specs.Prelude.{◌≡◌};
    ghost use Rattle.t1edit.specs.declared.status.Stop.TheVariants.{Failed};

    ghost from_gives = { λ error stop. stop ≡ Failed error };

    fn from(error: FileError) -> Stop {
        Stop::Failed(error)
    }
}

impl From<FontRefusal> for Stop {
    ghost use Rattle.std.specs.Prelude.{◌≡◌};
    ghost use Rattle.t1edit.specs.Status.{stop_of_font};

    ghost from_gives = { λ refused stop. stop ≡ stop_of_font refused };

    fn from(refused: FontRefusal) -> Stop {
        Stop::Failed(FileError::from(refused))
    }
}

/// Writes the line that reports an error, after a text that begins it. It takes no memory.
pub fn report<W: Write>(front: &[u8], error: &ServeError, writer: &mut Counted<W>) -> io::Result<()>
    ensures { Writes W.contents writer.old writer.new
        (line_with front.now (error_text error.now)) result }
{
    match error {
        ServeError::Load(fault) => put_fault(writer, front, fault, b"\n"),
        ServeError::Read => put_line(front, b"read failed", writer),
        ServeError::Write => put_line(front, b"write failed", writer),
        ServeError::Memory => put_line(front, b"out of memory", writer),
    }
}

/// The exit status of an error.
pub fn status_of(error: &ServeError) -> u8
    ensures { result ≡ status_of error.now }
{
    match error {
        ServeError::Load(_) => FAULT,
        ServeError::Read | ServeError::Write => FAILED,
        ServeError::Memory => 4,
    }
}

/// The exit status of an error, whose line is written; a write that fails changes no status.
#[tactic(auto, using(crate::proofs::Lines::is_written))]
fn ending<W: Write>(error: &FileError, writer: &mut Counted<W>) -> u8
    ensures status { result ≡ status_of_file error.now }
    ensures line { IsWritten W.contents writer.old writer.new (error_line error.now) }
{
    let _written = put_file_error(NAME, error, writer);
    status_of_file(error)
}

/// The exit status of a misuse, whose line is written; a write that fails changes no status.
#[tactic(auto, using(crate::proofs::Lines::is_written))]
fn misused<W: Write>(misuse: Misuse, writer: &mut Counted<W>) -> u8
    ensures status { result ≡ status_of_misuse }
    ensures line { IsWritten W.contents writer.old writer.new (misuse_line misuse) }
{
    let _written = writer.put_all(misuse.line());
    USAGE
}

/// The exit status of a run that stopped, whose line is written.
fn stopped<W: Write>(stop: &Stop, writer: &mut Counted<W>) -> u8
    ensures status { result ≡ status_of_stop stop.now }
    ensures line { ReportsStop W.contents writer.old writer.new stop.now }
{
    match stop {
        Stop::Rejected => USAGE,
        Stop::Misused(misuse) => misused(*misuse, writer),
        Stop::Failed(error) => ending(error, writer),
        Stop::Told(status) => *status,
    }
}

/// That sources were checked in turn, and each that is refused was told of, with the worst of their
/// statuses.
pub fn told(worst: u8) -> Result<(), Stop>
    ensures status { status_of_run result ≡ worst }
    ensures told { IfErr result (λ stop. stop ≡ Stop.Told worst) }
{
    if worst == 0 {
        Ok(())
    } else {
        Err(Stop::Told(worst))
    }
}

/// The exit status of a run, whose line is written where it stopped.
pub fn run_ending<W: Write>(outcome: &Result<(), Stop>, writer: &mut Counted<W>) -> u8
    ensures status { result ≡ status_of_run outcome.now }
    ensures line { ReportsRun W.contents writer.old writer.new outcome.now }
{
    match outcome {
        Ok(()) => 0,
        Err(stop) => stopped(stop, writer),
    }
}
