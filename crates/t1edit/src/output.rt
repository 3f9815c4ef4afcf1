//! Where the bytes of a run go: to standard output, to what stands at a path, or to a file that
//! stands whole or not at all.
ghost use Rattle.std.specs.Prelude.{◌≡◌, ◌↔◌, codes, IfOk, IsOk, IsTrue, option_map};
ghost use Rattle.std.specs.Io.{WritesAtMost};
ghost use Rattle.t1edit.specs.Writing.{HandsOn, EndsAs, OpensByWord};

use crate::draft::{Draft, PERMISSIONS, Stood};
use crate::identity::Descriptor;
use crate::links::{End, end_of};
use crate::status::Stop;
use crate::unopened::Unopened;
use std::fs::{self, File, Metadata, OpenOptions};
use std::io::{self, ErrorKind, Stderr, Stdout, Write};
use std::os::unix::fs::PermissionsExt;
use t1_code::Counted;

/// The word that names standard output in place of a file.
const STANDARD_OUTPUT: &str = "-";

/// Whether a word of the command line names standard output.
pub fn is_standard_output(path: &str) -> bool
    ensures { IsTrue result ↔ (path.now ≡ codes "-") }
{
    path == STANDARD_OUTPUT
}

/// What takes the bytes.
#[derive(Drop)]
pub enum Destination {
    Standard(Stdout),
    Error(Stderr),
    /// What stands at a path and is written as it stands.
    There(File),
    Draft(Draft),
}

impl Write for Destination {
    fn write(&mut self, buf: &[u8]) -> io::Result<usize>
        ensures bound { WritesAtMost result buf.now }
    {
        match self {
            Destination::Standard(out) => out.write(buf),
            Destination::Error(out) => out.write(buf),
            Destination::There(file) => file.write(buf),
            Destination::Draft(draft) => draft.write(buf),
        }
    }

    fn flush(&mut self) -> io::Result<()> {
        match self {
            Destination::Standard(out) => out.flush(),
            Destination::Error(out) => out.flush(),
            Destination::There(file) => file.flush(),
            Destination::Draft(draft) => draft.flush(),
        }
    }
}

/// How an output ended that took all bytes.
#[derive(Drop)]
pub enum Ended {
    /// What was written as it stands has them.
    AsItStands,
    Drafted(Stood),
}

/// An output that is open.
#[derive(Drop)]
pub struct Output {
    pub out: Counted<Destination>,
}

impl Output {
    /// The output at this path, or standard output where there is no path or it is `-`. What stands
    /// at the path stays as it is.
    pub fn open(rt: &HostRuntime, path: Option<&str>) -> Result<Output, Unopened>
        ensures standard { OpensByWord (option_map (λ word. word.now) path.entry) result }
    {
        let Some(path) = path else {
            return Ok(Output::to(Destination::Standard(rt.stdout())));
        };
        if is_standard_output(path) {
            return Ok(Output::to(Destination::Standard(rt.stdout())));
        }
        Ok(Output::to(at_path(rt, path)?))
    }

    /// The output to what takes the bytes.
    fn to(destination: Destination) -> Output
        ensures inner { result.out.inner ≡ destination }
        ensures failures { result.out.failures ≡ 0 }
    {
        Output {
            out: Counted::new(destination),
        }
    }

    /// Ends the output of a call that has answered: a draft takes its place where the call wrote
    /// all, and is removed where it did not, or where it cannot take its place.
    pub fn finish(self, rt: &HostRuntime, answer: Result<(), Stop>) -> Result<Ended, Stop>
        ensures ok { IfOk result (λ _. IsOk answer) }
        ensures stood { IfOk result (EndsAs self.out.inner) }
        ensures err { HandsOn answer result }
    {
        match self.out.into_inner() {
            Destination::Draft(draft) => Ok(Ended::Drafted(draft.finish(rt, answer)?)),
            _ => {
                answer?;
                Ok(Ended::AsItStands)
            }
        }
    }
}

/// What takes the bytes at a path.
fn at_path(rt: &HostRuntime, path: &str) -> Result<Destination, Unopened> {
    match fs::metadata(rt, path) {
        Ok(there) => in_place_of(rt, path, &there),
        Err(error) if error.kind() == ErrorKind::NotFound => at_nothing(rt, path),
        Err(error) => Err(Unopened::from(error)),
    }
}

/// What takes the bytes at a path where something stands: a draft for a file, but what is one of
/// the process's own descriptors, and what is no file, is written as it stands.
fn in_place_of(rt: &HostRuntime, path: &str, there: &Metadata) -> Result<Destination, Unopened> {
    if Descriptor::Output.is_open_on(rt, there) {
        return Ok(Destination::Standard(rt.stdout()));
    }
    if Descriptor::Error.is_open_on(rt, there) {
        return Ok(Destination::Error(rt.stderr()));
    }
    if !there.is_file() {
        return as_it_stands(rt, path);
    }
    match end_of(rt, path)? {
        End::Place(place) => replacing(rt, place, there),
        End::Descriptor => at_the_end(rt, path),
    }
}

/// A draft at a path where nothing stands; a link that leads nowhere is refused.
fn at_nothing(rt: &HostRuntime, path: &str) -> Result<Destination, Unopened> {
    match fs::symlink_metadata(rt, path) {
        Ok(_) => Err(Unopened::Refused),
        Err(error) if error.kind() == ErrorKind::NotFound => {
            let place = String::from_str(rt.alloc(), path)?;
            Ok(Destination::Draft(Draft::beside(rt, place, None)?))
        }
        Err(error) => Err(Unopened::from(error)),
    }
}

/// What stands at a path and is no file, as a device.
fn as_it_stands(rt: &HostRuntime, path: &str) -> Result<Destination, Unopened> {
    let file = OpenOptions::new().write(true).open(rt, path)?;
    Ok(Destination::There(file))
}

/// The end of a file that a descriptor names.
fn at_the_end(rt: &HostRuntime, path: &str) -> Result<Destination, Unopened> {
    let file = OpenOptions::new().append(true).open(rt, path)?;
    Ok(Destination::There(file))
}

/// A draft that is to replace a file, with the permissions of that file, which must let it be
/// written.
fn replacing(rt: &HostRuntime, place: String, there: &Metadata) -> Result<Destination, Unopened> {
    let permissions = there.permissions();
    if permissions.readonly() {
        return Err(Unopened::Refused);
    }
    let mode = permissions.mode() & PERMISSIONS;
    Ok(Destination::Draft(Draft::beside(rt, place, Some(mode))?))
}
