//! Judging the encoding of a clear part.

ghost use Rattle.std.specs.Prelude.{◌≡◌, ◌+◌, ◌≤◌, ◌<◌, ◌^◌, ◌∷◌, length, nat_le, option_map};
ghost use Rattle.std.specs.Prelude.{IfSome, ◌&&◌, if◌then◌else◌};
ghost use Rattle.std.specs.List.{list_any, position, position_or_len};
ghost use Rattle.t1_frac.specs.Ascii.{digit_seven, digit_zero};
ghost use Rattle.t1_frac.specs.declared.fault.Place.TheVariants as places;
ghost use Rattle.t1_frac.specs.Outcome.{reported_at};
ghost use Rattle.t1_text.specs.Tokens.{tokens};
ghost use Rattle.t1_text.specs.Names.{up_to};
ghost use Rattle.t1_parts.specs.Encoding.{opens_encoding, ends_array, is_standard, is_array};
ghost use Rattle.t1_parts.specs.Encoding.{is_bad_slot, array_lines, from_encoding, opening_check};
ghost use Rattle.t1_parts.specs.Encoding.{later_check, array_check, lines_check, clear_check};
ghost use Rattle.t1_parts.specs.Encoding.{chooses_standard, code_of_token, slot_of_tokens};
ghost use Rattle.t1_parts.specs.Encoding.{octal_of};

use t1_frac::{Bytes, Code, Fault};
use t1_text::{
    decimal_up_to, fault_on, first_is, is_decimal, last_is, name_of_token, next_token, same,
};

/// Whether a line opens the encoding.
fn opens_encoding(line: &[u8]) -> bool
    ensures { result ≡ opens_encoding line.now }
{
    first_is(b"/Encoding", line)
}

/// Whether a line ends an array.
fn ends_array(line: &[u8]) -> bool
    ensures { result ≡ ends_array line.now }
{
    last_is(b"def", line)
}

/// Whether the second token of a line is `StandardEncoding`.
fn is_standard(line: &[u8]) -> bool
    ensures { result ≡ is_standard (tokens line.now) }
{
    let Some((_, after)) = next_token(line) else {
        return false;
    };
    let Some((kind, _)) = next_token(after) else {
        return false;
    };
    same(kind, b"StandardEncoding")
}

/// Whether a line's second and third tokens are a size and `array`.
fn is_array(line: &[u8]) -> bool
    ensures { result ≡ is_array (tokens line.now) }
{
    let Some((_, after)) = next_token(line) else {
        return false;
    };
    let Some((size, after)) = next_token(after) else {
        return false;
    };
    let Some((array, _)) = next_token(after) else {
        return false;
    };
    is_decimal(size) && same(array, b"array")
}

/// Where the first line stands that opens the encoding.
pub fn encoding_at(clear: &[Bytes]) -> Option<usize>
    ensures value { result ≡ position opens_encoding clear.now }
    ensures within { IfSome result (λ at. at < length clear.now) }
{
    clear
        .iter()
        .position(|line| opens_encoding(line.as_slice()))
}

/// How many lines stand before the first one that opens the encoding.
fn encoding_start(clear: &[Bytes]) -> usize
    ensures within { result ≤ length clear.now }
    ensures value { result ≡ position_or_len opens_encoding clear.now }
{
    encoding_at(clear).unwrap_or(clear.len())
}

/// How many lines stand before the first one that ends an array.
fn array_end(later: &[Bytes]) -> usize
    ensures within { result ≤ length later.now }
    ensures value { result ≡ position_or_len ends_array later.now }
{
    later
        .iter()
        .take_while(|line| !ends_array(line.as_slice()))
        .count()
}

/// Whether one of the lines ends an array.
fn has_end(later: &[Bytes]) -> bool
    ensures { result ≡ list_any ends_array later.now }
{
    array_end(later) < later.len()
}

/// How many of the later lines are those of the array that a line opens.
pub fn array_len(opening: &[u8], later: &[Bytes]) -> usize
    ensures within { result ≤ length later.now }
    ensures value { result ≡ length (array_lines (opening.now ∷ later.now)) }
{
    if is_standard(opening) {
        return 0;
    }
    array_end(later)
}

/// Judges the line that opens the encoding.
#[tactic(auto, unfolding(crate::specs::Encoding::opening_check))]
fn check_opening(number: u64, opening: &[u8], later: &[Bytes]) -> Result<(), Fault>
    ensures { result ≡ opening_check number opening.now later.now }
{
    if is_standard(opening) || (is_array(opening) && has_end(later)) {
        return Ok(());
    }
    Err(fault_on(number, Code::F5))
}

/// Whether a byte is an octal digit.
fn is_octal(byte: u8) -> bool
    ensures { result ≡ nat_le digit_zero byte && nat_le byte digit_seven }
{
    b'0' <= byte && byte <= b'7'
}

/// The code of some octal digits, where it is at most 255.
fn octal_code(digits: &[u8]) -> Option<u8>
    ensures { result ≡ up_to 255 (octal_of digits.now) }
{
    if digits.is_empty() {
        return None;
    }
    let mut value: u32 = 0;
    for digit in digits {
        if !is_octal(*digit) {
            return None;
        }
        value = (8 * value + u32::from(*digit - b'0')).min(256);
    }
    if value <= 255 {
        Some(value as u8)
    } else {
        None
    }
}

/// The code from 0 to 255 that a token is.
fn code_of_token(token: &[u8]) -> Option<u8>
    ensures { result ≡ code_of_token token.now }
{
    match token {
        [b'8', b'#', digits @ ..] => octal_code(digits),
        _ => match decimal_up_to(255, token) {
            Some(code) => Some(code as u8),
            None => None,
        },
    }
}

/// The code and the name of a slot.
pub fn slot_of(line: &[u8]) -> Option<(u8, &[u8])>
    ensures value { option_map (λ slot. (slot.0, slot.1.now)) result
        ≡ slot_of_tokens (tokens line.now) }
    ensures byte { IfSome result (λ slot. slot.0 < 256) }
{
    let Some((dup, after)) = next_token(line) else {
        return None;
    };
    let Some((code, after)) = next_token(after) else {
        return None;
    };
    let Some((name, after)) = next_token(after) else {
        return None;
    };
    let Some((put, after)) = next_token(after) else {
        return None;
    };
    if let Some(_more) = next_token(after) {
        return None;
    }
    if !same(dup, b"dup") || !same(put, b"put") {
        return None;
    }
    let Some(code) = code_of_token(code) else {
        return None;
    };
    let Some(name) = name_of_token(name) else {
        return None;
    };
    Some((code, name))
}

/// Whether a line begins with `dup` and is no slot.
fn is_bad_slot(line: &[u8]) -> bool
    ensures { result ≡ is_bad_slot (tokens line.now) }
{
    first_is(b"dup", line) && slot_of(line).is_none()
}

/// Judges a line of the array, or one after it.
#[tactic(auto, unfolding(crate::specs::Encoding::later_check, crate::specs::Encoding::array_check))]
fn check_line(number: u64, in_array: bool, line: &[u8]) -> Result<(), Fault>
    ensures { result
        ≡ reported_at (places.Line number)
        ((if in_array then array_check else later_check) line.now) }
{
    if opens_encoding(line) {
        return Err(fault_on(number, Code::F5));
    }
    if in_array && is_bad_slot(line) {
        return Err(fault_on(number, Code::F6));
    }
    Ok(())
}

/// Judges lines of the array, or lines after it, of which the first has this number.
#[tactic(auto, using(crate::proofs::EncodingLaws::line_passes, crate::proofs::EncodingLaws::line_stops))]
fn check_lines(number: u64, in_array: bool, lines: &[Bytes]) -> Result<(), Fault>
    requires { number + length lines.now < 2 ^ 64 }
    ensures { result
        ≡ lines_check (if in_array then array_check else later_check) number lines.now }
{
    let mut number = number;
    for line in lines {
        check_line(number, in_array, line.as_slice())?;
        number += 1;
    }
    Ok(())
}

/// Judges the clear lines.
#[tactic(auto, unfolding(crate::specs::Encoding::clear_check), using(crate::proofs::EncodingLaws::opening_stops, crate::proofs::EncodingLaws::array_stops, crate::proofs::EncodingLaws::array_passes))]
pub fn check_clear(clear: &[Bytes]) -> Result<(), Fault>
    ensures { result ≡ clear_check clear.now }
{
    let start = encoding_start(clear);
    let Some((opening, later)) = clear.split_at(start).1.split_first() else {
        return Err(Fault::from(Code::F5));
    };
    let number = start as u64 + 1;
    check_opening(number, opening.as_slice(), later)?;
    let in_array = array_len(opening.as_slice(), later);
    let (array, after) = later.split_at(in_array);
    check_lines(number + 1, true, array)?;
    check_lines(number + 1 + in_array as u64, false, after)
}

/// The lines of the array among the clear lines.
pub fn array_of(clear: &[Bytes]) -> &[Bytes]
    ensures { result.now ≡ array_lines (from_encoding clear.now) }
{
    let from = clear.split_at(encoding_start(clear)).1;
    let Some((opening, later)) = from.split_first() else {
        return from;
    };
    later.split_at(array_len(opening.as_slice(), later)).0
}

/// Whether a line chooses the standard encoding.
fn chooses_standard(line: &[u8]) -> bool
    ensures { result ≡ chooses_standard line.now }
{
    opens_encoding(line) && is_standard(line)
}

/// Whether the clear lines choose the standard encoding.
pub fn has_standard(clear: &[Bytes]) -> bool
    ensures { result ≡ list_any chooses_standard clear.now }
{
    clear.iter().any(|line| chooses_standard(line.as_slice()))
}
