//! Numbers of two bytes of a charstring, by their digits.
ghost use Rattle.std.specs.Prelude.{◌≡◌, ◌≤◌, ◌<◌, ◌+◌, ◌∷◌, ◌++◌, [], true, ℕ, Bool, List, Ok};
ghost use Rattle.std.specs.Prelude.{take, length, if◌then◌else◌, IfSome, MatchOption};
ghost use Rattle.std.specs.Fmt.{decimal};
ghost use Rattle.t1_disassemble.specs.KnownNumbers.{signed_digits};
ghost use Rattle.t1_disassemble.specs.KnownWords.{HasBlank};
ghost use Rattle.t1_disassemble.specs.Words.{word_at};
ghost use Rattle.t1_disassemble.specs.WordsOnto.{put_first};
ghost use Rattle.t1_frac.specs.Ascii.{space, tab};
ghost use Rattle.t1_frac.specs.Numbers.{is_number_word};

use crate::waiting::{ROOM, put_byte, put_bytes, put_small};
use std::alloc::{AllocError, Global};
use std::marker::Model;

/// The size past all those of numbers of two bytes.
const SIZES: u16 = 1_132;

/// The digits of a number of two bytes, without its sign. Contracts see the number's size.
#[derive(Drop)]
pub(crate) struct KnownNumber {
    size: u16,
    len: u8,
    digits: [u8; 4],
}

impl Model for KnownNumber {
    ghost use Rattle.std.specs.Prelude.{◌≡◌, ◌≤◌, ℕ, take};
    ghost use Rattle.std.specs.Fmt.{decimal};

    ghost Value = { ℕ };

    ghost view = { λ number. number.size };

    ghost invariant = { λ number.
        (number.len ≤ 4) × (take number.len number.digits ≡ decimal number.size) };
}

/// Puts a minus after bytes that wait, and answers how many wait then: it is one of them where the
/// number is below 0.
#[inline(always)]
fn put_minus(bytes: &mut [u8; ROOM], len: usize, is_negative: bool) -> usize
    requires { len < 256 }
    ensures size { length bytes.new ≡ 256 }
    ensures end { result ≤ len + 1 }
    ensures front { take result bytes.new
        ≡ take len bytes.old ++ (if is_negative then 45 ∷ [] else []) }
{
    bytes[len] = b'-';
    len + usize::from(is_negative)
}

/// Puts the first so many of four digits after bytes that wait, and answers how many wait then. All
/// four are copied.
#[inline(always)]
fn put_digits(bytes: &mut [u8; ROOM], len: usize, digits: &[u8; 4], count: usize) -> usize
    requires room { len + 4 ≤ 256 }
    requires count { count ≤ 4 }
    ensures size { length bytes.new ≡ 256 }
    ensures end { result ≡ len + count }
    ensures front { take result bytes.new ≡ take len bytes.old ++ take count digits.now }
{
    let _end = put_bytes(bytes, len, digits);
    len + count
}

impl KnownNumber {
    /// That of this size.
    fn of(size: u16) -> KnownNumber
        requires { size < 10000 }
    {
        let mut bytes = [0; ROOM];
        let len = put_small(&mut bytes, 0, u32::from(size));
        let mut digits = [0; 4];
        digits.copy_from_slice(&bytes[..4]);
        KnownNumber {
            size,
            len: len as u8,
            digits,
        }
    }

    /// Whether it has this size.
    #[inline(always)]
    fn is_of(&self, size: u16) -> bool
        ensures { result ≡ true → self.now ≡ size }
    {
        self.size == size
    }

    /// Puts the number, and the blank before the next word, after words that wait with the blank
    /// before this one. Answers how many bytes wait then without the last blank.
    #[inline(always)]
    fn put_on(&self, bytes: &mut [u8; ROOM], len: usize, is_negative: bool) -> usize
        requires { len + 24 ≤ 256 }
        ensures front { (is_open : Bool)
            → HasBlank len is_open bytes.old
            → take result bytes.new
            ≡ take len bytes.old
            ++ (if is_open then space else tab) ∷ signed_digits is_negative self.now }
        ensures blank { HasBlank result true bytes.new }
        ensures within { result ≤ 255 }
        ensures size { length bytes.new ≡ 256 }
    {
        let at = put_minus(bytes, len + 1, is_negative);
        let end = put_digits(bytes, at, &self.digits, usize::from(self.len));
        let _blank = put_byte(bytes, end, b' ');
        end
    }
}

/// Adds a number to others.
fn push_number(numbers: &mut Vec<KnownNumber>, number: KnownNumber) -> Result<(), AllocError> {
    numbers.push(number)?;
    Ok(())
}

/// The numbers of all sizes that two bytes give, and of smaller ones, each at its place.
pub(crate) fn known_numbers(alloc: Global) -> Result<Vec<KnownNumber>, AllocError> {
    let mut numbers = Vec::new(alloc);
    numbers.reserve(usize::from(SIZES))?;
    for size in 0..SIZES {
        push_number(&mut numbers, KnownNumber::of(size))?;
    }
    Ok(numbers)
}

/// The size of the number of two bytes, and whether it is below 0; nothing where the first byte
/// begins no such number.
#[inline(always)]
fn short_number(first: u8, second: u8) -> Option<(bool, u16)>
    ensures read { IfSome result (λ n. (rest : List ℕ)
        → word_at first (second ∷ rest) ≡ Ok (signed_digits n.0 n.1, rest)) }
    ensures number { IfSome result (λ n. is_number_word (signed_digits n.0 n.1) ≡ true) }
{
    if first < 247 {
        return None;
    }
    if first < 251 {
        return Some((
            false,
            u16::from(first - 247) * 256 + u16::from(second) + 108,
        ));
    }
    if first < 255 {
        return Some((true, u16::from(first - 251) * 256 + u16::from(second) + 108));
    }
    None
}

/// Puts the number that begins with this byte, of two bytes, and the blank before the next word,
/// after words that wait with the blank before this one. Answers how many bytes wait then without
/// the last blank, and the bytes after the number.
#[inline(always)]
pub(crate) fn put_known_number<'a>(
    numbers: &[KnownNumber],
    bytes: &mut [u8; ROOM],
    len: usize,
    first: u8,
    rest: &'a [u8],
) -> Option<(usize, &'a [u8])>
    requires { len + 24 ≤ 256 }
    ensures value { MatchOption result (bytes.new ≡ bytes.old)
        (λ found. (is_open : Bool)
        → HasBlank len is_open bytes.old
        → put_first (take len bytes.old) is_open first rest.now
        ≡ Ok (take found.0 bytes.new, true, found.1.now)) }
    ensures blank { MatchOption result (bytes.new ≡ bytes.old)
        (λ found. HasBlank found.0 true bytes.new) }
    ensures within { IfSome result (λ found. found.0 ≤ 255) }
    ensures shorter { IfSome result (λ found. length found.1.now ≤ length rest.now) }
    ensures size { length bytes.new ≡ 256 }
{
    let Some((second, after)) = rest.split_first() else {
        return None;
    };
    let Some((is_negative, size)) = short_number(first, *second) else {
        return None;
    };
    let Some(number) = numbers.get(usize::from(size)) else {
        return None;
    };
    if !number.is_of(size) {
        return None;
    }
    Some((number.put_on(bytes, len, is_negative), after))
}
