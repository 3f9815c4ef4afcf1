//! Words of a charstring that wait to go into a text: the first so many of some bytes. A byte costs
//! less here than at the end of the text, which has to be looked at for room.
ghost use Rattle.std.specs.Prelude.{◌≡◌, ◌<◌, ◌≤◌, ◌+◌, ◌%◌, [], ◌∷◌, ◌++◌, if◌then◌else◌, length};
ghost use Rattle.std.specs.Prelude.{take, IfOk};
ghost use Rattle.std.specs.Fmt.{decimal, signed_decimal};
ghost use Rattle.t1_frac.specs.Ascii.{space, tab};
ghost use Rattle.t1_disassemble.specs.WordsOnto.{sign_of};

use itoa::Buffer;
use std::alloc::AllocError;

/// How many bytes wait at most.
pub(crate) const ROOM: usize = 256;

/// How many bytes a word takes at most, with the blank before it and the end of its line.
pub(crate) const MOST_OF_A_WORD: usize = 24;

/// Puts a byte after those that wait, and answers how many wait then.
#[inline(always)]
pub(crate) fn put_byte(bytes: &mut [u8; ROOM], len: usize, byte: u8) -> usize
    requires { len < 256 }
    ensures size { length bytes.new ≡ 256 }
    ensures end { result ≡ len + 1 }
    ensures front { take result bytes.new ≡ take len bytes.old ++ byte ∷ [] }
{
    bytes[len] = byte;
    len + 1
}

/// Puts more bytes after those that wait, and answers how many wait then.
#[inline(always)]
pub(crate) fn put_bytes(bytes: &mut [u8; ROOM], len: usize, more: &[u8]) -> usize
    requires { len + length more.now ≤ 256 }
    ensures size { length bytes.new ≡ 256 }
    ensures end { result ≡ len + length more.now }
    ensures front { take result bytes.new ≡ take len bytes.old ++ more.now }
{
    bytes[len..len + more.len()].copy_from_slice(more);
    len + more.len()
}

/// Puts the first so many of 16 bytes after those that wait, and answers how many wait then. All 16
/// are copied, which costs less than as many as are wanted.
#[inline(always)]
pub(crate) fn put_front(bytes: &mut [u8; ROOM], len: usize, more: &[u8; 16], count: usize) -> usize
    requires room { len + 16 ≤ 256 }
    requires count { count ≤ 16 }
    ensures size { length bytes.new ≡ 256 }
    ensures end { result ≡ len + count }
    ensures front { take result bytes.new ≡ take len bytes.old ++ take count more.now }
    ensures all { take (len + 16) bytes.new ≡ take len bytes.old ++ more.now }
{
    let _end = put_bytes(bytes, len, more);
    len + count
}

/// Puts the blank before a word after those that wait, and answers how many wait then.
#[inline(always)]
pub(crate) fn put_blank(bytes: &mut [u8; ROOM], len: usize, is_open: bool) -> usize
    requires { len < 256 }
    ensures size { length bytes.new ≡ 256 }
    ensures end { result ≡ len + 1 }
    ensures front { take result bytes.new
        ≡ take len bytes.old ++ (if is_open then space else tab) ∷ [] }
{
    put_byte(bytes, len, if is_open { b' ' } else { b'\t' })
}

/// Puts the last digit of a number after those that wait, and answers how many wait then.
#[inline(always)]
fn put_digit(bytes: &mut [u8; ROOM], len: usize, number: u32) -> usize
    requires { len < 256 }
    ensures size { length bytes.new ≡ 256 }
    ensures end { result ≡ len + 1 }
    ensures front { take result bytes.new ≡ take len bytes.old ++ (48 + number % 10) ∷ [] }
{
    put_byte(bytes, len, b'0' + (number % 10) as u8)
}

/// Puts the digits of a number below 10,000 after those that wait, and answers how many wait then.
#[inline(always)]
#[tactic(auto, using(crate::proofs::SmallNumbers::one_digit))]
pub(crate) fn put_small(bytes: &mut [u8; ROOM], len: usize, number: u32) -> usize
    requires small { number < 10000 }
    requires room { len + 4 ≤ 256 }
    ensures size { length bytes.new ≡ 256 }
    ensures end { result ≤ len + 4 }
    ensures front { take result bytes.new ≡ take len bytes.old ++ decimal number }
{
    if number < 10 {
        return put_digit(bytes, len, number);
    }
    if number < 100 {
        let one = put_digit(bytes, len, number / 10);
        return put_digit(bytes, one, number);
    }
    if number < 1_000 {
        let one = put_digit(bytes, len, number / 100);
        let two = put_digit(bytes, one, number / 10);
        return put_digit(bytes, two, number);
    }
    let one = put_digit(bytes, len, number / 1_000);
    let two = put_digit(bytes, one, number / 100);
    let three = put_digit(bytes, two, number / 10);
    put_digit(bytes, three, number)
}

/// Puts the minus of a number below 0 after those that wait, and answers how many wait then.
#[inline(always)]
fn put_sign(bytes: &mut [u8; ROOM], len: usize, number: i32) -> usize
    requires { len < 256 }
    ensures size { length bytes.new ≡ 256 }
    ensures end { result ≤ len + 1 }
    ensures front { take result bytes.new ≡ take len bytes.old ++ sign_of number }
{
    if number < 0 {
        return put_byte(bytes, len, b'-');
    }
    len
}

/// Puts a number of any size after those that wait, and answers how many wait then.
fn put_large(bytes: &mut [u8; ROOM], len: usize, number: i32) -> usize
    requires { len + 11 ≤ 256 }
    ensures size { length bytes.new ≡ 256 }
    ensures end { result ≤ len + 11 }
    ensures front { take result bytes.new ≡ take len bytes.old ++ signed_decimal number }
{
    let mut buffer = Buffer::new();
    put_bytes(bytes, len, buffer.format(number).as_bytes())
}

/// Puts a number after those that wait, and answers how many wait then.
#[inline(always)]
#[tactic(auto, using(crate::proofs::SmallNumbers::signed_again))]
pub(crate) fn put_number(bytes: &mut [u8; ROOM], len: usize, number: i32) -> usize
    requires { len + 11 ≤ 256 }
    ensures size { length bytes.new ≡ 256 }
    ensures end { result ≤ len + 11 }
    ensures front { take result bytes.new ≡ take len bytes.old ++ signed_decimal number }
{
    let size = number.unsigned_abs();
    if size >= 10_000 {
        return put_large(bytes, len, number);
    }
    let after = put_sign(bytes, len, number);
    put_small(bytes, after, size)
}

/// Adds what waits to the text where there is no room for one more word, and answers how many bytes
/// wait then.
#[inline(always)]
pub(crate) fn make_room(
    text: &mut Vec<u8>,
    bytes: &[u8; ROOM],
    len: usize,
) -> Result<usize, AllocError>
    requires { len ≤ 256 }
    ensures same { IfOk result (λ left. text.new.items ++ take left bytes.now
        ≡ text.old.items ++ take len bytes.now) }
    ensures room { IfOk result (λ left. left + 24 ≤ 256) }
{
    if len + MOST_OF_A_WORD <= ROOM {
        return Ok(len);
    }
    text.extend_from_slice(bytes.split_at(len).0)?;
    Ok(0)
}
