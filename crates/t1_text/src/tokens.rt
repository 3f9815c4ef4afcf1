//! Cutting a line into tokens.

ghost use Rattle.std.specs.Prelude.{◌≡◌, ◌+◌, ◌^◌, ◌<◌, ◌≤◌, [], ◌∷◌, length, IfSome, MatchOption};
ghost use Rattle.std.specs.Prelude.{option_map};
ghost use Rattle.std.specs.List.{prefix_len};
ghost use Rattle.std.specs.Str.{bytes_eq};
ghost use Rattle.t1_frac.specs.Words.{is_blank};
ghost use Rattle.t1_text.specs.Tokens.{is_bracket, is_regular, tokens, first_token};
ghost use Rattle.t1_text.specs.TokenLengths.{token_len};
ghost use Rattle.t1_text.specs.Tokens.{first_is, last_is, after_token, places_from};

use t1_frac::{blank_len, is_blank, skip_blanks};

/// Whether a byte is a token by itself.
fn is_bracket(byte: u8) -> bool
    ensures { result ≡ is_bracket byte }
{
    matches!(byte, b'(' | b')' | b'<' | b'>' | b'[' | b']' | b'{' | b'}')
}

/// Whether a byte goes on with a token.
pub fn is_regular(byte: u8) -> bool
    ensures { result ≡ is_regular byte }
{
    match byte {
        b'A'..=b'Z' | b'a'..=b'z' | b'0'..=b'9' => true,
        _ => !(is_blank(byte) || is_bracket(byte) || byte == b'/' || byte == b'%'),
    }
}

/// How many bytes at the front go on with a token.
fn regular_len(line: &[u8]) -> usize
    ensures within { result ≤ length line.now }
    ensures value { result ≡ prefix_len is_regular line.now }
{
    line.iter().take_while(|byte| is_regular(**byte)).count()
}

/// How many bytes the token takes that begins the line.
fn token_len(line: &[u8]) -> usize
    ensures within { result ≤ length line.now }
    ensures some { 0 < length line.now → 0 < result }
    ensures value { result ≡ token_len line.now }
{
    match line {
        [first, rest @ ..] if !is_bracket(*first) => 1 + regular_len(rest),
        [_, ..] => 1,
        [] => 0,
    }
}

/// The first token of a line, and the bytes after it.
#[tactic(auto, using(crate::proofs::TokenLaws::token_at, crate::proofs::TokenLaws::no_token_at))]
pub fn next_token(line: &[u8]) -> Option<(&[u8], &[u8])>
    ensures shorter { IfSome result (λ found. length found.1.now < length line.now) }
    ensures value { MatchOption
        result
        (tokens line.now ≡ [])
        (λ found. tokens line.now ≡ found.0.now ∷ tokens found.1.now) }
{
    let rest = skip_blanks(line);
    if rest.is_empty() || rest[0] == b'%' {
        return None;
    }
    Some(rest.split_at(token_len(rest)))
}

/// The first token of a line that begins at a place, with the token's place, and the bytes after
/// it.
#[tactic(auto, using(crate::proofs::PlaceLaws::place_at, crate::proofs::PlaceLaws::no_place_at))]
pub fn next_place(place: usize, line: &[u8]) -> Option<(usize, &[u8], &[u8])>
    requires { place + length line.now < 2 ^ 64 }
    ensures within { IfSome
        result
        (λ found. found.0 + length found.1.now + length found.2.now ≡ place + length line.now) }
    ensures shorter { IfSome result (λ found. length found.2.now < length line.now) }
    ensures value { MatchOption result (places_from place line.now ≡ [])
        (λ found.
        places_from place line.now
        ≡ (found.0, found.1.now) ∷ places_from (found.0 + length found.1.now) found.2.now) }
{
    let count = blank_len(line);
    let rest = line.split_at(count).1;
    if rest.is_empty() || rest[0] == b'%' {
        return None;
    }
    let (token, after) = rest.split_at(token_len(rest));
    Some((place + count, token, after))
}

/// Whether two runs of bytes are the same.
pub fn same(left: &[u8], right: &[u8]) -> bool
    ensures { result ≡ bytes_eq left.now right.now }
{
    left == right
}

/// The first token of a line.
pub fn first_token(line: &[u8]) -> Option<&[u8]>
    ensures { option_map (λ token. token.now) result ≡ first_token (tokens line.now) }
{
    match next_token(line) {
        Some((token, _)) => Some(token),
        None => None,
    }
}

/// Whether the first token of a line is this one.
pub fn first_is(key: &[u8], line: &[u8]) -> bool
    ensures { result ≡ first_is key.now (tokens line.now) }
{
    match next_token(line) {
        Some((token, _)) => same(key, token),
        None => false,
    }
}

/// Whether the last token of a line is this one.
pub fn last_is(key: &[u8], line: &[u8]) -> bool
    ensures { result ≡ last_is key.now (tokens line.now) }
{
    let mut last: Option<&[u8]> = None;
    let mut rest = line;
    while let Some((token, after)) = next_token(rest) {
        last = Some(token);
        rest = after;
    }
    match last {
        Some(token) => same(key, token),
        None => false,
    }
}

/// The token after the first token of this text; nothing where the text is no token.
pub fn after_token<'a>(key: &[u8], line: &'a [u8]) -> Option<Option<&'a [u8]>>
    ensures { option_map (λ said. option_map (λ token. token.now) said) result
        ≡ after_token key.now (tokens line.now) }
{
    let mut rest = line;
    while let Some((token, after)) = next_token(rest) {
        if same(token, key) {
            return Some(first_token(after));
        }
        rest = after;
    }
    None
}
