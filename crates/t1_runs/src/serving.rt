//! A session served to a writer that shows when it is flushed.

use crate::stop::Stop;
use std::io::{self, Stdout, Write};
use t1_code::Counted;
use t1_session::serve;

/// Standard output, with a line wherever it is flushed.
#[derive(Drop)]
struct Flushed {
    out: Stdout,
}

impl Write for Flushed {
    fn write(&mut self, bytes: &[u8]) -> io::Result<usize> {
        self.out.write(bytes)
    }

    fn flush(&mut self) -> io::Result<()> {
        self.out.write_all(b"flushed\n")
    }
}

/// Serves the commands of standard input on a source.
pub fn serve_source(rt: &HostRuntime, source: &[u8]) -> Result<(), Stop> {
    let mut reader = Counted::new(rt.stdin());
    let mut writer = Counted::new(Flushed { out: rt.stdout() });
    match serve(rt.alloc(), source, b"", &mut reader, &mut writer) {
        Ok(()) => Ok(()),
        Err(_) => Err(Stop::Failed),
    }
}
