//! Why an output isn't open.
ghost use Rattle.std.specs.Prelude.{◌≡◌, IfSome};

use std::alloc::AllocError;
use std::io::{self, ErrorKind};

/// That a call wanted memory. It is made of that call's error alone, so that no other failure is
/// told as out of memory.
#[derive(Debug, Drop)]
pub struct WantOfMemory {
    seal: (),
}

impl From<AllocError> for WantOfMemory {
    fn from(_error: AllocError) -> WantOfMemory {
        WantOfMemory { seal: () }
    }
}

/// Why an output isn't open.
#[derive(Debug, Drop)]
pub enum Unopened {
    /// The system refused what was asked of it.
    Refused,
    Memory(WantOfMemory),
}

impl From<AllocError> for Unopened {
    ghost use Rattle.t1edit.specs.Writing.{OutputWantsMemory};

    ghost from_gives = { λ _ unopened. OutputWantsMemory unopened };

    fn from(error: AllocError) -> Unopened {
        Unopened::Memory(WantOfMemory::from(error))
    }
}

impl From<io::Error> for Unopened {
    ghost use Rattle.t1edit.specs.Writing.{IsToldOf};

    ghost from_gives = { λ error unopened. IsToldOf error unopened };

    /// The error of a call of the system, which may have wanted memory.
    fn from(error: io::Error) -> Unopened {
        if error.kind() == ErrorKind::OutOfMemory {
            return Unopened::Memory(WantOfMemory { seal: () });
        }
        Unopened::Refused
    }
}
