//! Which file stands at a path: by its device and its number there.
use std::fs::{self, Metadata};
use std::os::unix::fs::MetadataExt;

/// The system's folder of the process's descriptors.
const DESCRIPTORS: &str = "/proc/self/fd";

/// A descriptor that each process begins with.
#[derive(Clone, Copy)]
pub enum Descriptor {
    Input,
    Output,
    Error,
}

impl Descriptor {
    /// The path by which the system names it.
    fn path(self) -> &'static str {
        match self {
            Descriptor::Input => "/proc/self/fd/0",
            Descriptor::Output => "/proc/self/fd/1",
            Descriptor::Error => "/proc/self/fd/2",
        }
    }

    /// Whether it is open on this file, or device, or pipe.
    pub fn is_open_on(self, rt: &HostRuntime, there: &Metadata) -> bool {
        stands_at(rt, self.path(), there)
    }
}

/// Whether this file stands at a path, whatever its name there is.
pub fn stands_at(rt: &HostRuntime, path: &str, there: &Metadata) -> bool {
    match fs::metadata(rt, path) {
        Ok(found) => found.dev() == there.dev() && found.ino() == there.ino(),
        Err(_) => false,
    }
}

/// Whether a link is one of the system's own, by which it names a descriptor: it stands on the
/// device of their folder.
pub fn names_a_descriptor(rt: &HostRuntime, link: &Metadata) -> bool {
    match fs::metadata(rt, DESCRIPTORS) {
        Ok(folder) => folder.dev() == link.dev(),
        Err(_) => false,
    }
}
