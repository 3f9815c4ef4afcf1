//! Why the program ends before its work is done.

use std::alloc::{AllocError, AllocFailed};
use std::io::{self, ErrorKind, Stderr, Write};
use t1_code::OutError;
use t1_frac::Refusal;
use t1_source::Cause;

/// Why the program ends before its work is done.
#[derive(Clone, Copy)]
pub enum Stop {
    /// The arguments are none of the usage.
    Usage,
    /// A read or a write failed.
    Failed,
    /// The source has a fault.
    Fault,
    /// An edit breaks a rule.
    Rule,
    /// A line of the script is no command that is performed.
    NoStep,
    Memory,
}

impl Stop {
    fn line(self) -> &'static [u8] {
        match self {
            Stop::Usage => b"usage: t1_runs [serve|without] SOURCE [NAME] < SCRIPT\n",
            Stop::Failed => b"t1_runs: a read or a write failed\n",
            Stop::Fault => b"t1_runs: the source has a fault\n",
            Stop::Rule => b"t1_runs: the edit breaks a rule\n",
            Stop::NoStep => b"t1_runs: a line of the script is no step\n",
            Stop::Memory => b"t1_runs: out of memory\n",
        }
    }
}

/// Writes why the program ends.
pub fn report(stop: Stop, writer: &mut Stderr) {
    let _written = writer.write_all(stop.line());
}

impl From<io::Error> for Stop {
    fn from(error: io::Error) -> Stop {
        match error.kind() {
            ErrorKind::OutOfMemory => Stop::Memory,
            _ => Stop::Failed,
        }
    }
}

impl From<AllocError> for Stop {
    fn from(_error: AllocError) -> Stop {
        Stop::Memory
    }
}

impl<T: Drop> From<AllocFailed<T>> for Stop {
    fn from(_error: AllocFailed<T>) -> Stop {
        Stop::Memory
    }
}

impl From<OutError> for Stop {
    fn from(error: OutError) -> Stop {
        match error {
            OutError::Fault(_) => Stop::Fault,
            OutError::Write => Stop::Failed,
            OutError::Memory => Stop::Memory,
        }
    }
}

impl From<Refusal> for Stop {
    fn from(refusal: Refusal) -> Stop {
        match refusal {
            Refusal::Fault(_) => Stop::Fault,
            Refusal::Memory => Stop::Memory,
        }
    }
}

impl From<Cause> for Stop {
    fn from(cause: Cause) -> Stop {
        match cause {
            Cause::Rule(_) => Stop::Rule,
            Cause::Fault(_) => Stop::Fault,
            Cause::Memory => Stop::Memory,
        }
    }
}
