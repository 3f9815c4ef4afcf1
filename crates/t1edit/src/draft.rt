//! A file beside the one whose place it takes once it is whole.
ghost use Rattle.std.specs.Prelude.{◌≡◌, IfErr, IfOk, IsOk};
ghost use Rattle.std.specs.Io.{WritesAtMost};
ghost use Rattle.t1edit.specs.Stopping.{stop_of_serving};
ghost use Rattle.t1edit.specs.Writing.{HandsOn};

mod steps;

use crate::status::Stop;
use crate::unopened::Unopened;
use std::alloc::{AllocError, Global};
use std::fs::{self, File, OpenOptions};
use std::io::{self, ErrorKind, Write};
use std::os::unix::fs::{OpenOptionsExt, PermissionsExt};
use std::process;
pub use steps::Stood;
use steps::{allow, settle, stand};
use t1_session::ServeError;

/// The permissions of a draft, which its owner alone may read.
const PRIVATE: u32 = 0o600;

/// What a new file is asked to have, of which the system takes what the process's mask has.
const ASKED_OF_NEW_FILES: u32 = 0o666;

/// What is kept of a mode: who may read, write and run the file.
pub const PERMISSIONS: u32 = 0o777;

/// How many bytes of a file's name stand in that of its draft, which has 29 more at most, so that
/// it has at most 255.
const NAME_FRONT: usize = 226;

/// A file beside the one whose place it takes.
#[derive(Drop)]
pub struct Draft {
    file: File,
    path: String,
    place: String,
    mode: u32,
}

impl Write for Draft {
    fn write(&mut self, buf: &[u8]) -> io::Result<usize>
        ensures bound { WritesAtMost result buf.now }
    {
        self.file.write(buf)
    }

    fn flush(&mut self) -> io::Result<()> {
        self.file.flush()
    }
}

impl Draft {
    /// A new draft beside a place. It takes the place with these permissions, or with those of a
    /// new file.
    pub fn beside(
        rt: &HostRuntime,
        place: String,
        permissions: Option<u32>,
    ) -> Result<Draft, Unopened> {
        let process = process::id(rt.process());
        for number in 0..u32::MAX {
            let path = draft_name(rt.alloc(), &place, process, number)?;
            if let Some((file, mode)) = made(rt, &path, permissions)? {
                return Ok(Draft {
                    file,
                    path,
                    place,
                    mode,
                });
            }
        }
        Err(Unopened::Refused)
    }

    /// Ends the draft of a call that has answered: it takes its place where the call wrote all, and
    /// is removed where it did not, or where it cannot take its place.
    pub fn finish(self, rt: &HostRuntime, answer: Result<(), Stop>) -> Result<Stood, Stop>
        ensures ok { IfOk result (λ _. IsOk answer) }
        ensures err { HandsOn answer result }
    {
        let stood = match answer {
            Ok(()) => self.placed(rt),
            Err(stop) => Err(stop),
        };
        if stood.is_err() {
            let _removed = fs::remove_file(rt, &self.path);
        }
        stood
    }

    /// Takes its place, or is why the run stops.
    fn placed(&self, rt: &HostRuntime) -> Result<Stood, Stop>
        ensures { IfErr result (λ stop. stop ≡ stop_of_serving ServeError.Write) }
    {
        Ok(self.in_place(rt)?)
    }

    /// Takes its place, by each step in turn.
    fn in_place(&self, rt: &HostRuntime) -> Result<Stood, ServeError>
        ensures { IfErr result (λ e. e ≡ ServeError.Write) }
    {
        let allowed = allow(&self.file, self.mode)?;
        let settled = settle(&self.file, allowed)?;
        Ok(stand(rt, &self.path, &self.place, settled)?)
    }
}

/// The front of a path whose file's name has not more bytes than a draft's name has of it.
fn front_of(place: &str) -> &str {
    let name = match place.rfind('/') {
        Some(slash) => slash.saturating_add(1),
        None => 0,
    };
    place
        .split_at(place.floor_char_boundary(name.saturating_add(NAME_FRONT)))
        .0
}

/// The name of a process's draft beside a place; of a further one, should a draft of that name be
/// left there.
fn draft_name(alloc: Global, place: &str, process: u32, number: u32) -> Result<String, AllocError> {
    let front = front_of(place);
    if number == 0 {
        return format!(in alloc; "{front}.t1edit-{process}");
    }
    format!(in alloc; "{front}.t1edit-{process}-{number}")
}

/// A new file, which has what the process's mask leaves of a mode; none where the name is taken.
fn new_file(rt: &HostRuntime, path: &str, mode: u32) -> io::Result<Option<File>> {
    let mut options = OpenOptions::new();
    options.write(true).create_new(true).mode(mode);
    match options.open(rt, path) {
        Ok(file) => Ok(Some(file)),
        Err(error) if error.kind() == ErrorKind::AlreadyExists => Ok(None),
        Err(error) => Err(error),
    }
}

/// The permissions that the system gives a new file here: those of one that is made at this name
/// and removed again; none where the name is taken.
fn permissions_of_a_new_file(rt: &HostRuntime, path: &str) -> io::Result<Option<u32>> {
    let Some(file) = new_file(rt, path, ASKED_OF_NEW_FILES)? else {
        return Ok(None);
    };
    let metadata = file.metadata();
    fs::remove_file(rt, path)?;
    Ok(Some(metadata?.permissions().mode() & PERMISSIONS))
}

/// A draft's file, and the permissions that it is to have at its end; none where the name is taken.
fn made(rt: &HostRuntime, path: &str, permissions: Option<u32>) -> io::Result<Option<(File, u32)>> {
    let mode = match permissions {
        Some(mode) => mode,
        None => match permissions_of_a_new_file(rt, path)? {
            Some(mode) => mode,
            None => return Ok(None),
        },
    };
    match new_file(rt, path, PRIVATE)? {
        Some(file) => Ok(Some((file, mode))),
        None => Ok(None),
    }
}
