//! Charstring and eexec encryption undone.
ghost use Rattle.std.specs.Prelude.{◌≡◌, ◌<◌, ◌≤◌, ◌+◌, ◌/◌, ◌%◌, ◌++◌, ℕ, List, length, take};
ghost use Rattle.std.specs.Prelude.{drop};
ghost use Rattle.std.specs.Prelude.{bit_xor, OnOk};
ghost use Rattle.t1_code.specs.Cipher.{next_key, cipher};
ghost use Rattle.t1_disassemble.specs.Decipher.{deciphered};

use std::alloc::AllocError;
use std::marker::Model;

/// The key that encryption of a charstring begins with.
const CHARSTRING_KEY: u16 = 4_330;

/// The key that eexec encryption begins with.
const EEXEC_KEY: u16 = 55_665;

/// Decrypts bytes one after another, with a key that each cipher byte changes. Contracts see the
/// key.
#[derive(Drop)]
struct Cipher {
    /// The key, in the low 16 bits. The others are left as products make them, so that no step
    /// between two keys takes them away.
    key: u32,
}

impl Model for Cipher {
    ghost use Rattle.std.specs.Prelude.{ℕ, ◌%◌};

    ghost Value = { ℕ };

    ghost view = { λ d. d.key % 65536 };
}

/// The high byte of a key, which is the low 16 bits.
#[inline(always)]
fn high_byte(key: u32) -> u8
    ensures { result ≡ key % 65536 / 256 }
{
    (key / 256 % 256) as u8
}

impl Cipher {
    /// Begins with this key.
    fn new(key: u16) -> Cipher
        ensures { result ≡ key }
    {
        Cipher {
            key: u32::from(key),
        }
    }

    /// The plain byte of a cipher byte.
    #[inline(always)]
    #[tactic(auto, using(crate::proofs::Deciphering::key_from))]
    fn byte(&mut self, cipher: u8) -> u8
        ensures byte { result ≡ bit_xor cipher (self.old / 256) }
        ensures key { self.new ≡ next_key self.old cipher }
    {
        let plain = cipher ^ high_byte(self.key);
        let added = u32::from(cipher) * 52_845 + 22_719;
        self.key = self.key.wrapping_mul(52_845).wrapping_add(added);
        plain
    }

    /// The plain bytes of two cipher bytes. The key after the second is made of the one before the
    /// first, with the key's factor squared, so that two bytes wait for one product and one sum.
    #[inline(always)]
    #[tactic(auto, using(crate::proofs::Deciphering::key_from, crate::proofs::Deciphering::key_past))]
    fn pair(&mut self, first: u8, second: u8) -> (u8, u8)
        ensures first { result.0 ≡ bit_xor first (self.old / 256) }
        ensures second { result.1 ≡ bit_xor second (next_key self.old first / 256) }
        ensures key { self.new ≡ next_key (next_key self.old first) second }
    {
        let added = u32::from(first) * 52_845 + 22_719;
        let middle = self.key.wrapping_mul(52_845).wrapping_add(added);
        let both = u32::from(first) * 39_529 + (u32::from(second) * 52_845 + 54_290);
        let pair = (first ^ high_byte(self.key), second ^ high_byte(middle));
        self.key = self.key.wrapping_mul(39_529).wrapping_add(both);
        pair
    }

    /// Puts the plain bytes in the place of the two cipher bytes that stand here.
    #[inline(always)]
    fn put_pair(&mut self, bytes: &mut [u8], at: usize)
        requires { at + 2 ≤ length bytes.now }
        ensures bytes { take (at + 2) bytes.new ++ deciphered self.new (drop (at + 2) bytes.new)
            ≡ take at bytes.old ++ deciphered self.old (drop at bytes.old) }
        ensures len { length bytes.new ≡ length bytes.old }
    {
        let (first, second) = self.pair(bytes[at], bytes[at + 1]);
        bytes[at] = first;
        bytes[at + 1] = second;
    }

    /// Puts the plain byte in the place of the cipher byte that stands here.
    fn put_one(&mut self, bytes: &mut [u8], at: usize)
        requires { at < length bytes.now }
        ensures bytes { take (at + 1) bytes.new ++ deciphered self.new (drop (at + 1) bytes.new)
            ≡ take at bytes.old ++ deciphered self.old (drop at bytes.old) }
        ensures len { length bytes.new ≡ length bytes.old }
    {
        bytes[at] = self.byte(bytes[at]);
    }

    /// The cipher byte of a plain byte.
    fn cipher_byte(&mut self, plain: u8) -> u8
        ensures byte { result ≡ bit_xor plain (self.old / 256) }
        ensures key { self.new ≡ next_key self.old result }
    {
        let cipher = plain ^ high_byte(self.key);
        self.byte(cipher);
        cipher
    }
}

/// Puts the plain bytes in the place of the cipher bytes.
#[tactic(auto, using(crate::proofs::Deciphering::length_deciphered))]
fn decipher(key: u16, bytes: &mut [u8])
    ensures bytes { bytes.new ≡ deciphered key bytes.old }
    ensures len { length bytes.new ≡ length bytes.old }
{
    let mut state = Cipher::new(key);
    let mut at = 0;
    while at + 1 < bytes.len() {
        state.put_pair(bytes, at);
        at += 2;
    }
    if at < bytes.len() {
        state.put_one(bytes, at);
    }
}

/// Puts the plain bytes of an encrypted charstring, its leading bytes too, in the place of what the
/// buffer holds.
pub(crate) fn decipher_charstring(buffer: &mut Vec<u8>, bytes: &[u8]) -> Result<(), AllocError>
    ensures bytes { OnOk result (buffer.new.items ≡ deciphered 4330 bytes.now) }
    ensures len { OnOk result (length buffer.new.items ≡ length bytes.now) }
{
    buffer.clear();
    buffer.extend_from_slice(bytes)?;
    decipher(CHARSTRING_KEY, buffer);
    Ok(())
}

/// Puts the plain bytes in the place of those of an encrypted part, its leading bytes too.
pub(crate) fn decipher_private(bytes: &mut [u8])
    ensures bytes { bytes.new ≡ deciphered 55665 bytes.old }
    ensures len { length bytes.new ≡ length bytes.old }
{
    decipher(EEXEC_KEY, bytes);
}

/// Puts the cipher bytes in the place of the plain bytes.
fn encipher(key: u16, bytes: &mut [u8])
    ensures { bytes.new ≡ cipher key bytes.old }
{
    let mut state = Cipher::new(key);
    for byte in bytes.iter_mut() {
        *byte = state.cipher_byte(*byte);
    }
}

/// Puts the encrypted bytes of a part back in the place of the plain ones that they were made.
#[tactic(auto, using(crate::proofs::Deciphering::cipher_deciphered))]
pub(crate) fn encipher_private(bytes: &mut [u8])
    ensures { (encrypted : List ℕ) → bytes.old ≡ deciphered 55665 encrypted
        → bytes.new ≡ encrypted }
{
    encipher(EEXEC_KEY, bytes);
}
