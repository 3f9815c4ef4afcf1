//! A writer, with the bytes that wait in front of it.
ghost use Rattle.std.specs.Prelude.{◌≡◌, ◌<◌, [], length, OnOk};
ghost use Rattle.t1_code.specs.Writing.{Puts, Writes};
ghost use Rattle.t1_code.specs.Parts.{slices_bytes};

use crate::chunk::Chunk;
use crate::counted::Counted;
use std::io::{self, Write};

/// A writer, with the bytes that wait in front of it until a whole chunk of them goes out.
#[derive(Drop)]
pub struct Outlet<'a, W> {
    out: &'a mut Counted<W>,
    chunk: Chunk,
}

impl<'a, W: Write> Outlet<'a, W> {
    /// No byte waits.
    pub fn new(out: &'a mut Counted<W>) -> Outlet<'a, W>
        ensures out { result.out ≡ out.entry }
        ensures waiting { result.chunk ≡ [] }
    {
        Outlet {
            out,
            chunk: Chunk::new(),
        }
    }

    /// Hands all that waits to the writer.
    pub fn send(&mut self) -> io::Result<()>
        ensures text { Puts W.contents self.old self.new [] result }
        ensures empty { OnOk result (self.new.chunk ≡ []) }
    {
        self.out.put_all(self.chunk.as_slice())?;
        self.chunk.clear();
        Ok(())
    }

    /// Sends what waits where no byte more goes in.
    fn make_room(&mut self) -> io::Result<()>
        ensures text { Puts W.contents self.old self.new [] result }
        ensures room { OnOk result (length self.new.chunk < 4096) }
    {
        if self.chunk.room() > 0 {
            return Ok(());
        }
        self.send()
    }

    /// Passes bytes on as they are, a chunk of them at a time.
    fn put_in_turns(&mut self, bytes: &[u8]) -> io::Result<()>
        ensures { Puts W.contents self.old self.new bytes.now result }
    {
        let mut rest = bytes;
        while !rest.is_empty() {
            self.make_room()?;
            let (front, after) = rest.split_at(rest.len().min(self.chunk.room()));
            self.chunk.keep(front);
            rest = after;
        }
        Ok(())
    }

    /// Passes bytes on as they are. Those that the chunk still takes only wait there.
    pub fn put(&mut self, bytes: &[u8]) -> io::Result<()>
        ensures { Puts W.contents self.old self.new bytes.now result }
    {
        if bytes.len() <= self.chunk.room() {
            self.chunk.keep(bytes);
            return Ok(());
        }
        self.put_in_turns(bytes)
    }

    /// Passes slices on, one after another, as `put` does.
    pub fn put_slices(&mut self, slices: &[&[u8]]) -> io::Result<()>
        ensures { Puts W.contents self.old self.new (slices_bytes slices.now) result }
    {
        for slice in slices {
            self.put(slice)?;
        }
        Ok(())
    }
}

/// Writes slices, one after another, by way of a chunk: one call of the writer takes up to 4,096
/// bytes of them.
pub fn write_slices<W: Write>(writer: &mut Counted<W>, slices: &[&[u8]]) -> io::Result<()>
    ensures { Writes W.contents writer.old writer.new (slices_bytes slices.now) result }
{
    let mut outlet = Outlet::new(writer);
    outlet.put_slices(slices)?;
    outlet.send()
}
