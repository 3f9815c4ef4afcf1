//! What the program reads: files, or standard input in their place, read whole.
ghost use Rattle.std.specs.Prelude.{◌≡◌, Err, IfOk, IfErr};
ghost use Rattle.std.specs.declared.io.Error.{Error as ErrorOf};
ghost use Rattle.std.specs.Io.KnownBytes.{Consumes, IsAtEnd};
ghost use Rattle.t1_code.specs.Counted.{one_more};
ghost use Rattle.t1edit.specs.Reading.{FailsToRead};

use crate::unread::{Unread, error_of};
use std::alloc::Global;
use std::fs::{File, OpenFile};
use std::io::Read;
use t1_code::Counted;
use t1_session::ServeError;

/// How many bytes a reader is asked for at a time.
const BUFFER_LEN: usize = 8_192;

/// The word that names standard input in place of a file.
const STANDARD_INPUT: &str = "-";

/// Whether a word of the command line names standard input.
pub fn is_standard_input(path: &str) -> bool {
    path == STANDARD_INPUT
}

/// How long a file says that it is; 0 where it doesn't say, as a device.
fn stated_len(file: &File) -> usize {
    match file.metadata() {
        Ok(metadata) => metadata.len() as usize,
        Err(_) => 0,
    }
}

/// All bytes that a reader gives up to its end, for which there is room at first for so many.
fn read_whole<R: Read>(
    alloc: Global,
    reader: &mut Counted<R>,
    room: usize,
) -> Result<Vec<u8>, Unread>
    ensures ok { IfOk result
        (λ bytes.
        Consumes (R.remaining reader.old.inner) (R.remaining reader.new.inner)
        bytes.items) }
    ensures at_end { IfOk result (λ _. IsAtEnd (R.remaining reader.new.inner)) }
    ensures memory { result ≡ Err Unread.Memory → reader.new.failures ≡ reader.old.failures }
    ensures read_failed { (error : ErrorOf) → result ≡ Err (Unread.Refused error)
        → reader.new.failures ≡ one_more reader.old.failures }
{
    let mut bytes = Vec::with_capacity(alloc, room)?;
    let mut buffer = [0; BUFFER_LEN];
    'pieces: loop {
        let count = match reader.take(&mut buffer) {
            Ok(count) => count,
            Err(error) => return Err(Unread::Refused(error)),
        };
        if count == 0 {
            return Ok(bytes);
        }
        bytes.extend_from_slice(buffer.split_at(count).0)?;
    }
}

/// The bytes of a file, or of standard input where the path is `-`; or why it can't be read.
pub fn read_file(rt: &HostRuntime, path: &str) -> Result<Vec<u8>, Unread> {
    if is_standard_input(path) {
        return read_whole(rt.alloc(), &mut Counted::new(rt.stdin()), 0);
    }
    match File::open(rt, path) {
        Ok(file) => {
            let room = stated_len(&file);
            read_whole(rt.alloc(), &mut Counted::new(file), room)
        }
        Err(error) => Err(Unread::Refused(error)),
    }
}

/// The same, without the reason.
pub fn read_input(rt: &HostRuntime, path: &str) -> Result<Vec<u8>, ServeError>
    ensures { IfErr result FailsToRead }
{
    match read_file(rt, path) {
        Ok(bytes) => Ok(bytes),
        Err(unread) => Err(error_of(&unread)),
    }
}
