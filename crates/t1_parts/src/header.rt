//! Header values of a clear part.

ghost use Rattle.std.specs.Prelude.{◌≡◌, ◌≤◌, ◌<◌, ◌+◌, length, option_map};
ghost use Rattle.std.specs.List.{list_any};
ghost use Rattle.std.specs.Str.{bytes_eq};
ghost use Rattle.t1_frac.specs.Words.{trimmed_front};
ghost use Rattle.t1_text.specs.Tokens.{token_goes_on};
ghost use Rattle.t1_parts.specs.Header.{before_balance, name_value, text_value, after_key, keyed};
ghost use Rattle.t1_parts.specs.Header.{text_keys, token_keys, header_among};

use t1_frac::{Bytes, skip_blanks};
use t1_text::{first_token, is_regular, name_of_token, same};

/// How many bytes stand before the `)` that balances, or before the end.
#[tactic(auto, using(crate::proofs::HeaderLaws::balance_is))]
fn before_balance(text: &[u8]) -> usize
    ensures within { result ≤ length text.now }
    ensures value { result ≡ before_balance text.now }
{
    let mut escaped = false;
    let mut depth: usize = 0;
    let mut count: usize = 0;
    let mut rest = text;
    while let Some((byte, after)) = rest.split_first() {
        let byte = *byte;
        if !escaped && byte == b')' && depth == 0 {
            return count;
        }
        if !escaped && byte == b'(' {
            depth += 1;
        }
        if !escaped && byte == b')' {
            depth -= 1;
        }
        escaped = !escaped && byte == b'\\';
        count += 1;
        rest = after;
    }
    count
}

/// The value that is a `/` and a name.
fn name_value(rest: &[u8]) -> Option<&[u8]>
    ensures { option_map (λ value. value.now) result ≡ name_value rest.now }
{
    match first_token(rest) {
        Some(token) => name_of_token(token),
        None => None,
    }
}

/// The value that is a text in parentheses.
fn text_value(rest: &[u8]) -> Option<&[u8]>
    ensures { option_map (λ value. value.now) result ≡ text_value rest.now }
{
    let Some((first, text)) = rest.split_first() else {
        return None;
    };
    let value = text.split_at(before_balance(text)).0;
    if *first != b'(' || value.is_empty() {
        return None;
    }
    Some(value)
}

/// Whether a token that has come this far goes on.
fn goes_on(rest: &[u8]) -> bool
    ensures { result ≡ token_goes_on rest.now }
{
    match rest {
        [first, ..] => is_regular(*first),
        [] => false,
    }
}

/// The bytes of a line after `/`, the key and blanks, where the line begins so.
fn after_key<'a>(key: &[u8], line: &'a [u8]) -> Option<&'a [u8]>
    ensures { option_map (λ rest. rest.now) result ≡ after_key key.now (trimmed_front line.now) }
{
    let Some((first, rest)) = skip_blanks(line).split_first() else {
        return None;
    };
    if *first != b'/' || !rest.starts_with(key) {
        return None;
    }
    let after = rest.split_at(key.len()).1;
    if goes_on(after) {
        return None;
    }
    Some(skip_blanks(after))
}

/// The bytes after the key on the first line with it.
fn keyed<'a>(clear: &'a [Bytes], key: &[u8]) -> Option<&'a [u8]>
    ensures { option_map (λ rest. rest.now) result ≡ keyed key.now clear.now }
{
    let mut rest = clear;
    while let Some((line, later)) = rest.split_first() {
        if let Some(after) = after_key(key, line.as_slice()) {
            return Some(after);
        }
        rest = later;
    }
    None
}

/// Whether the values of a key are texts.
fn is_text_key(key: &[u8]) -> bool
    ensures { result ≡ list_any (bytes_eq key.now) text_keys }
{
    same(key, b"FullName")
        || same(key, b"FamilyName")
        || same(key, b"Weight")
        || same(key, b"version")
        || same(key, b"Notice")
}

/// Whether the values of a key are one token.
fn is_token_key(key: &[u8]) -> bool
    ensures { result ≡ list_any (bytes_eq key.now) token_keys }
{
    same(key, b"ItalicAngle")
        || same(key, b"isFixedPitch")
        || same(key, b"UnderlinePosition")
        || same(key, b"UnderlineThickness")
}

/// The value of a header key among the clear lines.
pub fn header_of<'a>(clear: &'a [Bytes], key: &[u8]) -> Option<&'a [u8]>
    ensures { option_map (λ value. value.now) result ≡ header_among clear.now key.now }
{
    let Some(rest) = keyed(clear, key) else {
        return None;
    };
    if same(key, b"FontName") {
        return name_value(rest);
    }
    if is_text_key(key) {
        return text_value(rest);
    }
    if is_token_key(key) {
        return first_token(rest);
    }
    None
}
