//! Hexadecimal digits read as bytes.
ghost use Rattle.std.specs.Prelude.{◌≡◌, ◌<◌, ◌≤◌, [], ◌∷◌, ◌++◌, length, IfSome, MatchOption};
ghost use Rattle.std.specs.Prelude.{OnOk};
ghost use Rattle.std.specs.List.{list_all};
ghost use Rattle.t1_disassemble.specs.Digits.{digit_value, is_digit, digit_values, digit_bytes};
ghost use Rattle.t1_disassemble.specs.Digits.{after_digits, is_hexadecimal, digits_len};

use std::alloc::AllocError;
use t1_frac::{is_blank, skip_blanks};

/// The value of a hexadecimal digit.
#[tactic(auto, unfolding(crate::specs::Digits::digit_value))]
fn digit_value(byte: u8) -> Option<u8>
    ensures value { result ≡ digit_value byte }
    ensures small { IfSome result (λ value. value < 16) }
{
    if byte.is_ascii_digit() {
        return Some(byte - b'0');
    }
    if 97 <= byte && byte <= 102 {
        return Some(byte - 87);
    }
    if 65 <= byte && byte <= 70 {
        return Some(byte - 55);
    }
    None
}

/// Whether a byte is a hexadecimal digit.
fn is_digit(byte: u8) -> bool
    ensures { result ≡ is_digit byte }
{
    digit_value(byte).is_some()
}

/// Whether each byte is a hexadecimal digit.
fn are_digits(bytes: &[u8]) -> bool
    ensures { result ≡ list_all is_digit bytes.now }
{
    bytes.iter().all(|byte| is_digit(*byte))
}

/// Whether an encrypted part is in hexadecimal: its first four bytes are digits.
pub(crate) fn is_hexadecimal(bytes: &[u8]) -> bool
    ensures { result ≡ is_hexadecimal bytes.now }
{
    4 <= bytes.len() && are_digits(bytes.split_at(4).0)
}

/// The value of the first digit, and what stands after it; none where another byte than a blank
/// comes first.
#[tactic(auto, using(crate::proofs::DigitValues::values_none, crate::proofs::DigitValues::values_first))]
fn next_digit(text: &[u8]) -> Option<(u8, &[u8])>
    ensures value { MatchOption
        result
        (digit_values text.now ≡ [])
        (λ found. digit_values text.now ≡ found.0 ∷ digit_values found.1.now) }
    ensures small { IfSome result (λ found. found.0 < 16) }
    ensures shorter { IfSome result (λ found. length found.1.now < length text.now) }
{
    let Some((byte, after)) = skip_blanks(text).split_first() else {
        return None;
    };
    let value = digit_value(*byte)?;
    Some((value, after))
}

/// The byte that the first two digits are, and what stands after them; none where there is none.
fn next_byte(text: &[u8]) -> Option<(u8, &[u8])>
    ensures value { MatchOption
        result
        (digit_bytes text.now ≡ [])
        (λ found. digit_bytes text.now ≡ found.0 ∷ digit_bytes found.1.now) }
    ensures shorter { IfSome result (λ found. length found.1.now < length text.now) }
{
    let (high, after) = next_digit(text)?;
    let (low, rest) = next_digit(after)?;
    Some((16 * high + low, rest))
}

/// Adds the bytes that digits are, two for each, with blanks anywhere, up to the first other byte.
pub(crate) fn push_bytes(bytes: &mut Vec<u8>, text: &[u8]) -> Result<(), AllocError>
    ensures { OnOk result (bytes.new.items ≡ bytes.old.items ++ digit_bytes text.now) }
{
    bytes.reserve(text.len() / 2)?;
    let mut rest = text;
    while let Some((byte, after)) = next_byte(rest) {
        bytes.push(byte)?;
        rest = after;
    }
    Ok(())
}

/// What stands after so many digits.
pub(crate) fn after_digits(count: usize, text: &[u8]) -> &[u8]
    ensures { result.now ≡ after_digits count text.now }
{
    let mut left = count;
    let mut rest = text;
    while left > 0 {
        let Some((byte, after)) = rest.split_first() else {
            return rest;
        };
        if is_digit(*byte) {
            left -= 1;
        }
        rest = after;
    }
    rest
}

/// How many bytes stand before the first that is neither a digit nor a blank.
pub(crate) fn digits_len(text: &[u8]) -> usize
    ensures within { result ≤ length text.now }
    ensures value { result ≡ digits_len text.now }
{
    text.iter()
        .take_while(|byte| is_blank(**byte) || is_digit(**byte))
        .count()
}
