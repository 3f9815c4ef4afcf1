//! Bytes on their way to a writer, which is handed a chunk of them at a time.
ghost use Rattle.std.specs.Prelude.{◌≡◌, ◌≤◌, ◌+◌, [], ◌++◌, true, false, length, take};
ghost use Rattle.t1_code.specs.Cipher.{cipher as encrypted, key_after};
ghost use Rattle.t1_code.specs.Parts.{slices_bytes};

use crate::charstring::Cipher;
use crate::counted::MAX_PUT;
use crate::form::total_len;
use std::marker::Model;

/// Bytes that wait until a whole chunk of them goes out.
#[derive(Drop)]
pub(crate) struct Chunk {
    bytes: [u8; MAX_PUT],
    len: usize,
}

impl Model for Chunk {
    ghost use Rattle.std.specs.Prelude.{List, ℕ, take, ◌≤◌};

    ghost Value = { List ℕ };

    ghost view = { λ chunk. take chunk.len chunk.bytes };

    ghost invariant = { λ chunk. chunk.len ≤ 4096 };
}

/// Puts more bytes in the place of those that stand from there on.
fn put_at(bytes: &mut [u8], place: usize, more: &[u8])
    requires { place + length more.now ≤ length bytes.old }
    ensures len { length bytes.new ≡ length bytes.old }
    ensures front { take (place + length more.now) bytes.new ≡ take place bytes.old ++ more.now }
{
    bytes[place..place + more.len()].copy_from_slice(more);
}

/// Encrypts so many bytes at the front.
fn encrypt_front(bytes: &mut [u8], len: usize, cipher: &mut Cipher)
    requires { len ≤ length bytes.old }
    ensures len { length bytes.new ≡ length bytes.old }
    ensures front { take len bytes.new ≡ encrypted cipher.old (take len bytes.old) }
    ensures key { cipher.new ≡ key_after cipher.old (take len bytes.new) }
{
    cipher.encrypt(&mut bytes[..len]);
}

impl Chunk {
    /// No byte waits.
    pub(crate) fn new() -> Self
        ensures { result ≡ [] }
    {
        Chunk {
            bytes: [0; MAX_PUT],
            len: 0,
        }
    }

    /// Puts bytes after the others.
    pub(crate) fn keep(&mut self, bytes: &[u8])
        requires { length self.old + length bytes.now ≤ 4096 }
        ensures { self.new ≡ self.old ++ bytes.now }
    {
        put_at(&mut self.bytes, self.len, bytes);
        self.len += bytes.len();
    }

    /// Puts slices after the others, one after another, where it takes them all.
    pub(crate) fn keep_all(&mut self, slices: &[&[u8]]) -> bool
        ensures kept { result ≡ true → self.new ≡ self.old ++ slices_bytes slices.now }
        ensures left { result ≡ false → self.new ≡ self.old }
    {
        if total_len(slices) > self.room() {
            return false;
        }
        for slice in slices {
            self.keep(slice);
        }
        true
    }

    /// Encrypts the bytes that wait.
    pub(crate) fn encrypt(&mut self, cipher: &mut Cipher)
        ensures bytes { self.new ≡ encrypted cipher.old self.old }
        ensures key { cipher.new ≡ key_after cipher.old self.new }
    {
        encrypt_front(&mut self.bytes, self.len, cipher);
    }

    /// How many bytes more it takes.
    pub(crate) fn room(&self) -> usize
        ensures { length self.now + result ≡ 4096 }
    {
        MAX_PUT - self.len
    }

    pub(crate) fn as_slice(&self) -> &[u8]
        ensures { result.now ≡ self.now }
    {
        self.bytes.split_at(self.len).0
    }

    pub(crate) fn clear(&mut self)
        ensures { self.new ≡ [] }
    {
        self.len = 0;
    }
}
