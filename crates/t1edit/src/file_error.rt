//! Why a call over the bytes of a file stops.
ghost use Rattle.std.specs.Prelude.{◌≡◌};
ghost use Rattle.t1_code.specs.Writing.{Writes};
ghost use Rattle.t1edit.specs.FileErrors.{file_error_text, status_of_file};
ghost use Rattle.t1edit.specs.Status.{line_with};

use crate::line::put_text_line;
use crate::status::{FAILED, FAULT, report, status_of};
use std::io::{self, Write};
use t1_code::Counted;
use t1_disassemble::{FontFault, FontRefusal};
use t1_fault_texts::put_font_fault;
use t1_frac::Bytes;
use t1_session::ServeError;

/// Why a call over the bytes of a file stops before its end.
#[derive(Debug, Drop)]
pub enum FileError {
    /// A fault of the source or the pairs, a read or a write that failed, or out of memory.
    Served(ServeError),
    /// A file can't be read, for this reason, where reasons are told.
    Unread(Bytes),
    /// The file of a font has a fault.
    Font(FontFault),
}

impl From<ServeError> for FileError {
    ghost use Rattle.std.specs.Prelude.{◌≡◌};
    ghost use Rattle.t1edit.specs.declared.file_error.FileError.TheVariants.{Served};

    ghost from_gives = { λ error told. told ≡ Served error };

    fn from(error: ServeError) -> FileError {
        FileError::Served(error)
    }
}

impl From<FontRefusal> for FileError {
    ghost use Rattle.std.specs.Prelude.{◌≡◌};
    ghost use Rattle.t1edit.specs.FileErrors.{told_of_font};

    ghost from_gives = { λ refused told. told ≡ told_of_font refused };

    fn from(refused: FontRefusal) -> FileError {
        match refused {
            FontRefusal::Fault(fault) => FileError::Font(fault),
            FontRefusal::Memory => FileError::Served(ServeError::Memory),
        }
    }
}

/// Writes the line of an error of a file, after a text that begins it. It takes no memory.
pub fn put_file_error<W: Write>(
    front: &[u8],
    error: &FileError,
    writer: &mut Counted<W>,
) -> io::Result<()>
    ensures { Writes W.contents writer.old writer.new
        (line_with front.now (file_error_text error.now)) result }
{
    match error {
        FileError::Served(error) => report(front, error, writer),
        FileError::Unread(words) => {
            put_text_line(front, b"read failed: ", words.as_slice(), writer)
        }
        FileError::Font(fault) => put_font_fault(writer, front, fault, b"\n"),
    }
}

/// The exit status of an error of a file.
pub fn status_of_file(error: &FileError) -> u8
    ensures { result ≡ status_of_file error.now }
{
    match error {
        FileError::Served(error) => status_of(error),
        FileError::Unread(_) => FAILED,
        FileError::Font(_) => FAULT,
    }
}
