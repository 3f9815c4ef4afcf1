//! Texts and numbers put into a buffer, one after another.
ghost use Rattle.std.specs.Prelude.{◌≡◌, ◌≤◌, ◌+◌, ◌++◌, length, take, decimal};
ghost use Rattle.std.specs.Fmt.{signed_decimal};

use itoa::{Buffer, write_digits};

/// How many bytes the buffer has.
pub(crate) const ROOM: usize = 4_096;

/// Puts a text from a place on, and answers where it ends. Where it is inlined the text's length is
/// known, and it is copied in a move or two.
#[inline(always)]
pub(crate) fn put_text(bytes: &mut [u8; ROOM], place: usize, text: &[u8]) -> usize
    requires { place + length text.now ≤ 4096 }
    ensures end { result ≡ place + length text.now }
    ensures front { take result bytes.new ≡ take place bytes.old ++ text.now }
{
    let end = place + text.len();
    bytes[place..end].copy_from_slice(text);
    end
}

/// Puts so many digits, which are all that a number has, and answers where they end.
#[inline(always)]
fn put_digits(bytes: &mut [u8; ROOM], place: usize, number: u64, count: usize) -> usize
    requires all { length (decimal number) ≡ count }
    requires room { place + count ≤ 4096 }
    ensures end { result ≡ place + count }
    ensures front { take result bytes.new ≡ take place bytes.old ++ decimal number }
{
    let end = place + count;
    write_digits(number, bytes, end);
    end
}

/// Puts a number of any length, and answers where it ends.
#[inline(never)]
fn put_long(bytes: &mut [u8; ROOM], place: usize, number: u64) -> usize
    requires { place + 20 ≤ 4096 }
    ensures end { result ≤ place + 20 }
    ensures front { take result bytes.new ≡ take place bytes.old ++ decimal number }
{
    let mut buffer = Buffer::new();
    put_text(bytes, place, buffer.format(number).as_bytes())
}

/// Puts a number, and answers where it ends. Most have three digits; of up to four digits each
/// count has a way of its own, so that none is counted.
#[inline(always)]
fn put_whole(bytes: &mut [u8; ROOM], place: usize, number: u64) -> usize
    requires { place + 20 ≤ 4096 }
    ensures end { result ≤ place + 20 }
    ensures front { take result bytes.new ≡ take place bytes.old ++ decimal number }
{
    if number >= 10_000 {
        return put_long(bytes, place, number);
    }
    if number >= 1_000 {
        return put_digits(bytes, place, number, 4);
    }
    if number >= 100 {
        return put_digits(bytes, place, number, 3);
    }
    if number >= 10 {
        return put_digits(bytes, place, number, 2);
    }
    put_digits(bytes, place, number, 1)
}

/// Puts a number with its sign, where it has one, and answers where it ends.
#[inline(always)]
pub(crate) fn put_number(bytes: &mut [u8; ROOM], place: usize, number: i64) -> usize
    requires { place + 21 ≤ 4096 }
    ensures end { result ≤ place + 21 }
    ensures front { take result bytes.new ≡ take place bytes.old ++ signed_decimal number }
{
    if number >= 0 {
        return put_whole(bytes, place, number.unsigned_abs());
    }
    let digits = put_text(bytes, place, b"-");
    put_whole(bytes, digits, number.unsigned_abs())
}
