//! Several files, checked in turn.

ghost use Rattle.std.specs.Prelude.{◌≡◌};
ghost use Rattle.t1_code.specs.Writing.{Writes};
ghost use Rattle.t1edit.specs.FileErrors.{file_error_text};
ghost use Rattle.t1edit.specs.Several.{AreWritten, Becomes, ChecksAll};
ghost use Rattle.t1edit.specs.Several.{answer_lines, front_of, status_of_answer};
ghost use Rattle.t1edit.specs.Status.{line_with};

use crate::file_error::{FileError, put_file_error, status_of_file};
use crate::input::read_file;
use crate::source_file::{Kind, check_file};
use crate::unread::{Unread, error_of};
use std::alloc::Global;
use std::io::{self, Write};
use t1_code::Counted;

/// Where files are read by their paths.
pub trait Files {
    ghost use Rattle.std.specs.Prelude.{ℕ, List, IfErr, IfOk};
    ghost use Rattle.t1edit.specs.declared.unread.Unread.{Unread};

    /// What a file may have.
    ghost holds: { Self → List ℕ → List ℕ → Type 0 };

    /// Why a file may not be read.
    ghost fails: { Self → List ℕ → Unread → Type 0 };

    /// The bytes of the file at a path.
    fn read(&self, path: &str) -> Result<Vec<u8>, Unread>
        ensures bytes { IfOk result (λ bytes. holds self.now path.now bytes.items) }
        ensures unread { IfErr result (λ unread. fails self.now path.now unread) };
}

/// The files of the system, of which nothing is known.
impl Files for HostRuntime {
    ghost holds = { λ _ _ _. Unit {0} };

    ghost fails = { λ _ _ _. Unit {0} };

    fn read(&self, path: &str) -> Result<Vec<u8>, Unread> {
        read_file(self, path)
    }
}

/// Reads a file, and judges its source.
fn check_path<F: Files>(
    alloc: Global,
    files: &F,
    kind: Kind,
    path: &str,
    pairs: &[u8],
) -> Result<(), FileError>
    ensures { Becomes F.holds F.fails files.now kind pairs.now path.now result }
{
    let file = match files.read(path) {
        Ok(file) => file,
        Err(unread) => return Err(FileError::Served(error_of(&unread))),
    };
    check_file(alloc, kind, file, pairs)
}

/// Writes the line of a file that is refused, which begins with the file's name.
fn put_refused<W: Write>(path: &str, error: &FileError, writer: &mut Counted<W>) -> io::Result<()>
    ensures { Writes W.contents writer.old writer.new
        (line_with (front_of path.now) (file_error_text error.now)) result }
{
    writer.put_all(path.as_bytes())?;
    put_file_error(b": ", error, writer)
}

/// The exit status of a file that was checked, whose line is written where it is refused; a write
/// that fails changes no status.
pub fn tell<W: Write>(path: &str, answer: &Result<(), FileError>, writer: &mut Counted<W>) -> u8
    ensures status { result ≡ status_of_answer answer.now }
    ensures line { AreWritten W.contents writer.old writer.new (answer_lines path.now answer.now) }
{
    match answer {
        Ok(()) => 0,
        Err(error) => {
            let _written = put_refused(path, error, writer);
            status_of_file(error)
        }
    }
}

/// Checks files in turn, whatever becomes of those before. Of each that is refused a line is
/// written, and the worst status is answered.
pub fn check_files<F: Files, W: Write>(
    alloc: Global,
    files: &F,
    kind: Kind,
    paths: &[&str],
    pairs: &[u8],
    writer: &mut Counted<W>,
) -> u8
    ensures { ChecksAll (Becomes F.holds F.fails files.now kind pairs.now)
        W.contents paths.now writer.old writer.new result }
{
    let mut worst = 0;
    for path in paths {
        let answer = check_path(alloc, files, kind, path, pairs);
        worst = tell(path, &answer, writer).max(worst);
    }
    worst
}
