//! Readers and writers that count their calls.
ghost use Rattle.std.specs.Prelude.{◌≡◌, ◌≤◌, ◌<◌, true, false, [], length, IfOk, IsOk, IsErr};
ghost use Rattle.std.specs.Io.{ReadsAtMost};
ghost use Rattle.std.specs.Io.KnownBytes.{Keeps, ReadConsumes, WriteAppends};
ghost use Rattle.t1_code.specs.Counted.{Tally};
ghost use Rattle.t1_code.specs.Writing.{failures_after, turns_after, max_turns, Writes};

use std::io::{self, ErrorKind, Read, Write};
use std::marker::Model;

/// How often a reader may be asked.
const MAX_TURNS: u64 = (1 << 63) - 1;

/// The most bytes that one call of a writer is handed.
pub const MAX_PUT: usize = 4_096;

/// A reader or writer, with a count of its failed calls and one of its reads, and whether what was
/// written has been flushed.
#[derive(Drop)]
pub struct Counted<T> {
    inner: T,
    failures: u64,
    turns: u64,
    is_flushed: bool,
}

impl<T> Model for Counted<T> {
    ghost use Rattle.t1_code.specs.Counted.{Tally};

    ghost Value = { Tally T };

    ghost view = { λ counted.
        record {
          inner = counted.inner;
          failures = counted.failures;
          turns = counted.turns;
          is_flushed = counted.is_flushed;
        } };
}

impl<T> Counted<T> {
    pub fn new(inner: T) -> Self
        ensures inner { result.inner ≡ inner }
        ensures failures { result.failures ≡ 0 }
        ensures turns { result.turns ≡ 0 }
        ensures flushed { result.is_flushed ≡ true }
    {
        Counted {
            inner,
            failures: 0,
            turns: 0,
            is_flushed: true,
        }
    }

    /// How many calls failed, up to 2^64 - 1.
    pub fn failures(&self) -> u64
        ensures { result ≡ self.now.failures }
    {
        self.failures
    }

    /// The reader or writer.
    pub fn into_inner(self) -> T
        ensures { result ≡ self.inner }
    {
        let Counted { inner, .. } = self;
        inner
    }
}

impl<R: Read> Counted<R> {
    /// Reads once. That the buffer has room is the caller's.
    pub fn take(&mut self, buffer: &mut [u8]) -> io::Result<usize>
        requires { 0 < length buffer.old }
        ensures bound { ReadsAtMost result buffer.new }
        ensures bytes { ReadConsumes (R.remaining self.old.inner) (R.remaining self.new.inner)
            result buffer.new }
        ensures failures { self.new.failures ≡ failures_after result self.old.failures }
        ensures turns { self.new.turns ≡ turns_after self.old.turns }
        ensures spent { max_turns ≤ self.old.turns
            → IsErr result × (self.new.inner ≡ self.old.inner) }
    {
        if self.turns >= MAX_TURNS {
            self.failures = self.failures.saturating_add(1);
            return Err(ErrorKind::Other.into());
        }
        self.turns += 1;
        let result = self.inner.read(buffer);
        if result.is_err() {
            self.failures = self.failures.saturating_add(1);
        }
        result
    }
}

impl<W: Write> Counted<W> {
    /// Writes once. A write of no byte fails.
    pub fn put(&mut self, bytes: &[u8]) -> io::Result<usize>
        requires some { 0 < length bytes.now }
        requires short { length bytes.now ≤ 4096 }
        ensures taken { IfOk result (λ count. (0 < count) × (count ≤ length bytes.now)) }
        ensures bytes { WriteAppends (W.contents self.old.inner) (W.contents self.new.inner) result
            bytes.now }
        ensures failures { self.new.failures ≡ failures_after result self.old.failures }
        ensures turns { self.new.turns ≡ self.old.turns }
        ensures waits { IfOk result (λ count. self.new.is_flushed ≡ false) }
    {
        match self.inner.write(bytes) {
            Ok(count) if count > 0 => {
                self.is_flushed = false;
                Ok(count)
            }
            Ok(_) => {
                self.failures = self.failures.saturating_add(1);
                Err(ErrorKind::WriteZero.into())
            }
            Err(error) => {
                self.failures = self.failures.saturating_add(1);
                Err(error)
            }
        }
    }

    /// Hands on what the writer still holds.
    pub fn flush(&mut self) -> io::Result<()>
        ensures bytes { Keeps (W.contents self.old.inner) (W.contents self.new.inner) }
        ensures failures { self.new.failures ≡ failures_after result self.old.failures }
        ensures turns { self.new.turns ≡ self.old.turns }
        ensures flushed { IfOk result (λ done. self.new.is_flushed ≡ true) }
    {
        let result = self.inner.flush();
        match result {
            Ok(()) => self.is_flushed = true,
            Err(_) => self.failures = self.failures.saturating_add(1),
        }
        result
    }

    /// Writes all the bytes, at most 4,096 a call, or a beginning of them before a write that
    /// fails.
    pub fn put_all(&mut self, bytes: &[u8]) -> io::Result<()>
        ensures text { Writes W.contents self.old self.new bytes.now result }
        ensures none { bytes.now ≡ [] → IsOk result × (self.new ≡ self.old) }
    {
        let mut rest = bytes;
        while !rest.is_empty() {
            let count = self.put(rest.split_at(rest.len().min(MAX_PUT)).0)?;
            rest = rest.split_at(count).1;
        }
        Ok(())
    }
}
