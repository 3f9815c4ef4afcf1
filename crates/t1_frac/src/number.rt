//! Number words.
ghost use Rattle.std.specs.Prelude.{◌≡◌, ◌+◌, ◌-◌, ◌*◌, ◌^◌, ◌≤◌, ◌<◌, ◌⊎◌, true, false, None};
ghost use Rattle.std.specs.Prelude.{length, take, min, IfSome, MatchOption};
ghost use Rattle.std.specs.List.{list_all, prefix_len};
ghost use Rattle.std.specs.Char.{is_ascii_digit};
ghost use Rattle.t1_frac.specs.Numbers.{digits_of_word, decimal_value, is_number_word, number_word};

/// A word without the minus that it may begin with.
pub fn digits_of_word(word: &[u8]) -> &[u8]
    ensures { result.now ≡ digits_of_word word.now }
{
    match word {
        [b'-', digits @ ..] => digits,
        _ => word,
    }
}

/// Whether each byte is a decimal digit.
pub fn are_digits(bytes: &[u8]) -> bool
    ensures { result ≡ list_all is_ascii_digit bytes.now }
{
    bytes.iter().all(|byte| byte.is_ascii_digit())
}

/// Whether a word is a number word: an optional minus, and one digit or more.
#[tactic(auto, unfolding(crate::specs::Numbers::is_number_word))]
pub fn is_number_word(word: &[u8]) -> bool
    ensures { result ≡ is_number_word word.now }
{
    let digits = digits_of_word(word);
    !digits.is_empty() && are_digits(digits)
}

/// The number that goes on with this digit, up to 2^64 - 1.
fn with_digit(value: u64, digit: u8) -> u64
    requires { digit ≤ 9 }
    ensures { result ≡ min (10 * value + digit) (2 ^ 64 - 1) }
{
    value.saturating_mul(10).saturating_add(u64::from(digit))
}

/// The same as `leading_number`, for digits that may write more than 64 bits hold.
#[cold]
#[inline(never)]
fn leading_large_number(text: &[u8]) -> (u64, usize)
    ensures within { result.1 ≤ length text.now }
    ensures count { result.1 ≡ prefix_len is_ascii_digit text.now }
    ensures value { result.0 ≡ min (decimal_value (take result.1 text.now)) (2 ^ 64 - 1) }
{
    let mut value: u64 = 0;
    let mut count = 0;
    for byte in text {
        if !byte.is_ascii_digit() {
            return (value, count);
        }
        value = with_digit(value, *byte - b'0');
        count += 1;
    }
    (value, count)
}

/// From this number on, which few words reach, digits are read with an eye on the end of 64 bits.
const LARGE: u64 = 1 << 30;

/// The same as `leading_number`, digit by digit.
#[inline(never)]
fn leading_digits(text: &[u8]) -> (u64, usize)
    ensures within { result.1 ≤ length text.now }
    ensures count { result.1 ≡ prefix_len is_ascii_digit text.now }
    ensures value { result.0 ≡ min (decimal_value (take result.1 text.now)) (2 ^ 64 - 1) }
{
    let mut value: u64 = 0;
    let mut count = 0;
    for byte in text {
        if !byte.is_ascii_digit() {
            return (value, count);
        }
        if value >= LARGE {
            return leading_large_number(text);
        }
        value = value * 10 + u64::from(*byte - b'0');
        count += 1;
    }
    (value, count)
}

/// The number that the digits at the front of a text write, and how many digits there are, where
/// they are up to four and the text has five bytes or more; else nothing. Most numbers of a font
/// are so, and are told apart without a loop.
#[inline(always)]
pub fn leading_short_number(text: &[u8]) -> Option<(u32, usize)>
    ensures within { IfSome result (λ found. found.1 ≤ length text.now) }
    ensures count { IfSome result (λ found. found.1 ≡ prefix_len is_ascii_digit text.now) }
    ensures value { IfSome result (λ found. found.0 ≡ decimal_value (take found.1 text.now)) }
    ensures short { IfSome result (λ found. found.0 < 10000) }
    ensures else_longer { result ≡ None
        → (length text.now < 5) ⊎ (5 ≤ prefix_len is_ascii_digit text.now) }
{
    let [first, second, third, fourth, fifth, ..] = text else {
        return None;
    };
    if !first.is_ascii_digit() {
        return Some((0, 0));
    }
    let value = u32::from(*first - b'0');
    if !second.is_ascii_digit() {
        return Some((value, 1));
    }
    let value = value * 10 + u32::from(*second - b'0');
    if !third.is_ascii_digit() {
        return Some((value, 2));
    }
    let value = value * 10 + u32::from(*third - b'0');
    if !fourth.is_ascii_digit() {
        return Some((value, 3));
    }
    let value = value * 10 + u32::from(*fourth - b'0');
    if !fifth.is_ascii_digit() {
        return Some((value, 4));
    }
    None
}

/// The number that the digits at the front of a text write, or 2^64 - 1 where it is more, and how
/// many digits there are.
#[inline(always)]
pub fn leading_number(text: &[u8]) -> (u64, usize)
    ensures within { result.1 ≤ length text.now }
    ensures count { result.1 ≡ prefix_len is_ascii_digit text.now }
    ensures value { result.0 ≡ min (decimal_value (take result.1 text.now)) (2 ^ 64 - 1) }
{
    match leading_short_number(text) {
        Some((value, count)) => (u64::from(value), count),
        None => leading_digits(text),
    }
}

/// The number that digits write, or 2^64 - 1 where it is more; nothing where a byte is no digit.
#[tactic(auto, using(crate::proofs::NumberLaws::digits_to_the_end, crate::proofs::NumberLaws::digits_end_early))]
pub fn magnitude(digits: &[u8]) -> Option<u64>
    ensures { MatchOption result (list_all is_ascii_digit digits.now ≡ false)
        (λ value.
        (list_all is_ascii_digit digits.now ≡ true)
        × (value ≡ min (decimal_value digits.now) (2 ^ 64 - 1))) }
{
    let (value, count) = leading_number(digits);
    if count < digits.len() {
        return None;
    }
    Some(value)
}

/// The number of a number word; 2^63 - 1 where it doesn't fit 64 bits. None for any other word.
#[tactic(auto, unfolding(crate::specs::Numbers::number_word, crate::specs::Numbers::is_number_word))]
pub fn number_word(word: &[u8]) -> Option<i64>
    ensures { result ≡ number_word word.now }
{
    let digits = digits_of_word(word);
    if digits.is_empty() {
        return None;
    }
    let magnitude = i128::from(magnitude(digits)?);
    let number = match word {
        [b'-', ..] => -magnitude,
        _ => magnitude,
    };
    Some(i64::try_from(number).unwrap_or(i64::MAX))
}
