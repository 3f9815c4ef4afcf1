//! Why a file can't be read, and how that is told.
ghost use Rattle.std.specs.Prelude.{◌≡◌, IfOk};
ghost use Rattle.std.specs.IoError.{error_kind};
ghost use Rattle.t1edit.specs.Reading.{IsReason, TellsUnread, error_of};

use crate::file_error::FileError;
use std::alloc::{AllocError, Global};
use std::io::{self, ErrorKind};
use t1_frac::Bytes;
use t1_session::ServeError;

/// Why a file can't be read.
#[derive(Debug, Drop)]
pub enum Unread {
    /// The system refused to open it, or a read.
    Refused(io::Error),
    Memory,
}

impl From<AllocError> for Unread {
    ghost use Rattle.std.specs.Prelude.{◌≡◌};
    ghost use Rattle.t1edit.specs.declared.unread.Unread.TheVariants.{Memory};

    ghost from_gives = { λ _ unread. unread ≡ Memory };

    fn from(_error: AllocError) -> Unread {
        Unread::Memory
    }
}

/// The same as an error of a call over whole files, which tells no reason.
pub fn error_of(unread: &Unread) -> ServeError
    ensures { result ≡ error_of unread.now }
{
    match unread {
        Unread::Refused(_error) => ServeError::Read,
        Unread::Memory => ServeError::Memory,
    }
}

/// Why the system refused, in words: of what isn't mostly met its own.
fn reason(alloc: Global, error: &io::Error) -> Result<Bytes, AllocError>
    ensures { IfOk result (λ words. IsReason (error_kind error.now) words) }
{
    if error.kind() == ErrorKind::NotFound {
        return Bytes::copied(alloc, b"not found");
    }
    if error.kind() == ErrorKind::PermissionDenied {
        return Bytes::copied(alloc, b"permission denied");
    }
    if error.kind() == ErrorKind::IsADirectory {
        return Bytes::copied(alloc, b"is a folder");
    }
    let words = error.to_string(alloc)?;
    Bytes::copied(alloc, words.as_bytes())
}

/// Why a file can't be read, as it is told with the reason.
pub fn with_reason(alloc: Global, unread: &Unread) -> FileError
    ensures { TellsUnread unread.now result }
{
    match unread {
        Unread::Memory => FileError::Served(ServeError::Memory),
        Unread::Refused(error) => match reason(alloc, error) {
            Ok(words) => FileError::Unread(words),
            Err(_error) => FileError::Served(ServeError::Memory),
        },
    }
}
