//! Names and numbers.

ghost use Rattle.std.specs.Prelude.{◌≡◌, is_some, option_map, IsTrue};
ghost use Rattle.std.specs.List.{list_all};
ghost use Rattle.t1_frac.specs.Numbers.{decimal_value};
ghost use Rattle.t1_text.specs.Names.{is_name, is_name_byte, name_of_token, decimal_of, up_to};
ghost use Rattle.t1_text.specs.Names.{is_count};

use crate::tokens::is_regular;
use t1_frac::{are_digits, leading_number, magnitude};

/// Whether a byte may stand in a name.
fn is_name_byte(byte: u8) -> bool
    ensures { result ≡ is_name_byte byte }
{
    33 <= byte && byte <= 126 && is_regular(byte) && byte != b';'
}

/// Whether each byte may stand in a name.
fn are_name_bytes(bytes: &[u8]) -> bool
    ensures { result ≡ list_all is_name_byte bytes.now }
{
    bytes.iter().all(|byte| is_name_byte(*byte))
}

/// Whether the bytes are a name.
pub fn is_name(bytes: &[u8]) -> bool
    ensures { result ≡ is_name bytes.now }
{
    1 <= bytes.len() && bytes.len() <= 127 && are_name_bytes(bytes)
}

/// The name of a token that is `/` and a name.
pub fn name_of_token(token: &[u8]) -> Option<&[u8]>
    ensures { option_map (λ name. name.now) result ≡ name_of_token token.now }
{
    match token {
        [b'/', name @ ..] if is_name(name) => Some(name),
        _ => None,
    }
}

/// Whether the bytes are a decimal number.
pub fn is_decimal(bytes: &[u8]) -> bool
    ensures { result ≡ is_some (decimal_of bytes.now) }
{
    !bytes.is_empty() && are_digits(bytes)
}

/// The number of some decimal digits, where it is at most the limit.
pub fn decimal_up_to(limit: u32, digits: &[u8]) -> Option<u32>
    ensures { result ≡ up_to limit (decimal_of digits.now) }
{
    if digits.is_empty() {
        return None;
    }
    let value = magnitude(digits)?;
    if value <= u64::from(limit) {
        Some(value as u32)
    } else {
        None
    }
}

/// Whether the bytes are a count of 1 to 9 digits.
pub fn is_count(bytes: &[u8]) -> bool
    ensures { result ≡ is_count bytes.now }
{
    1 <= bytes.len() && bytes.len() <= 9 && are_digits(bytes)
}

/// The number of a count.
pub fn count_of(digits: &[u8]) -> u64
    requires { IsTrue (is_count digits.now) }
    ensures value { result ≡ decimal_value digits.now }
{
    leading_number(digits).0
}
