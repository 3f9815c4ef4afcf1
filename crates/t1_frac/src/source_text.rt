ghost use Rattle.std.specs.Prelude.{◌≡◌, IfOk};

use std::alloc::{AllocError, Global};
use std::marker::Model;

/// Where the bytes are.
#[derive(Debug, Drop)]
enum Stored<'a> {
    Borrowed(&'a [u8]),
    Owned(Vec<u8>),
}

/// A line, a name or another run of bytes, where it stands in the source that it was read from, or
/// in memory of its own. Contracts see the list of the bytes.
#[derive(Debug, Drop)]
pub struct SourceText<'a> {
    run: Stored<'a>,
}

impl<'a> Model for SourceText<'a> {
    ghost use Rattle.std.specs.Prelude.{List, ℕ};
    ghost use Rattle.t1_frac.specs.Runs.{bytes_of};

    ghost Value = { List ℕ };

    ghost view = { λ text. bytes_of text.run };
}

impl<'a> SourceText<'a> {
    /// These bytes, where they stand. It takes no memory.
    pub fn borrowed(bytes: &'a [u8]) -> Self
        ensures { result ≡ bytes.now }
    {
        SourceText {
            run: Stored::Borrowed(bytes),
        }
    }

    /// The bytes of a vector. It takes no memory.
    pub fn owned(bytes: Vec<u8>) -> Self
        ensures { result ≡ bytes.items }
    {
        SourceText {
            run: Stored::Owned(bytes),
        }
    }

    /// A copy of these bytes, in memory of its own.
    pub fn copy_of(alloc: Global, bytes: &[u8]) -> Result<Self, AllocError>
        ensures { IfOk result (λ copy. copy ≡ bytes.now) }
    {
        Ok(SourceText::owned(Vec::from_slice(alloc, bytes)?))
    }

    /// The bytes as a slice.
    pub fn as_slice(&self) -> &[u8]
        ensures { result.now ≡ self.now }
    {
        match &self.run {
            Stored::Borrowed(bytes) => bytes,
            Stored::Owned(bytes) => bytes.as_slice(),
        }
    }

    /// A copy. It takes no memory where the bytes are borrowed.
    pub fn copied(&self, alloc: Global) -> Result<SourceText<'a>, AllocError>
        ensures { IfOk result (λ copy. copy ≡ self.now) }
    {
        match &self.run {
            Stored::Borrowed(bytes) => Ok(SourceText::borrowed(bytes)),
            Stored::Owned(bytes) => SourceText::copy_of(alloc, bytes.as_slice()),
        }
    }
}
