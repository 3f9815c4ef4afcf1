//! The operator that reads a charstring.

ghost use Rattle.std.specs.Prelude.{◌≡◌, ◌≤◌, ◌<◌, ◌+◌, ◌^◌, None, length, option_map, filter_map};
ghost use Rattle.std.specs.List.{last_or};
ghost use Rattle.t1_text.specs.Tokens.{places_from};
ghost use Rattle.t1_parts.specs.Operator.{text_place, name_within, operator_on, operator_among};

use crate::items_iter::ItemsIter;
use crate::parts::holds;
use t1_text::{name_of_token, next_place};

/// Where a text first stands on a line, or the line's length.
pub fn text_place(text: &[u8], line: &[u8]) -> usize
    ensures within { result ≤ length line.now }
    ensures value { result ≡ text_place text.now line.now }
{
    let mut count = 0;
    let mut rest = line;
    while let Some((_byte, after)) = rest.split_first() {
        if rest.starts_with(text) {
            return count;
        }
        count += 1;
        rest = after;
    }
    count
}

/// The name of a token `/NAME` at a place, where it ends at the end or before it.
fn name_within(end: usize, place: usize, token: &[u8]) -> Option<&[u8]>
    requires { place + length token.now < 2 ^ 64 }
    ensures { option_map (λ name. name.now) result ≡ name_within end (place, token.now) }
{
    if place + token.len() <= end {
        name_of_token(token)
    } else {
        None
    }
}

/// The last name among the tokens of a line that end at this place or before it.
fn last_name(end: usize, line: &[u8]) -> Option<&[u8]>
    requires { length line.now < 2 ^ 63 }
    ensures { option_map (λ name. name.now) result
        ≡ last_or None (filter_map (name_within end) (places_from 0 line.now)) }
{
    let mut last: Option<&[u8]> = None;
    let mut place = 0;
    let mut rest = line;
    while let Some((at, token, after)) = next_place(place, rest) {
        if let Some(name) = name_within(end, at, token) {
            last = Some(name);
        }
        place = at + token.len();
        rest = after;
    }
    last
}

/// The operator that a line with `string currentfile` defines.
pub fn operator_on(line: &[u8]) -> Option<&[u8]>
    requires { length line.now < 2 ^ 63 }
    ensures { option_map (λ name. name.now) result ≡ operator_on line.now }
{
    last_name(text_place(b"string currentfile", line), line)
}

/// The reading operator of some items.
pub fn operator_of<'i>(items: ItemsIter<'i, '_>) -> &'i [u8]
    ensures { result.now ≡ operator_among items.entry }
{
    for item in items {
        if let Some(line) = item.plain_line() {
            if holds(b"string currentfile", line) {
                return match operator_on(line) {
                    Some(name) => name,
                    None => b"RD",
                };
            }
        }
    }
    b"RD"
}
