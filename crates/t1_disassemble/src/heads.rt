//! Heads of sections, whose tokens may stand on several lines.
ghost use Rattle.std.specs.Prelude.{◌≡◌, ◌<◌, ◌≤◌, ◌^◌, ◌+◌, ◌++◌, ◌∷◌, option_map, length, drop};
ghost use Rattle.std.specs.Prelude.{if◌then◌else◌, codes, decimal, take, IfSome, IfOk, OnOk};
ghost use Rattle.t1_text.specs.Tokens.{places_from};
ghost use Rattle.t1_disassemble.specs.Heads.{past_gap, next_over, behind_name};
ghost use Rattle.t1_disassemble.specs.Heads.{head_with, head_at, head_among, head_over};
ghost use Rattle.t1_disassemble.specs.Heads.{head_text, past_head, opens_entry, after_space};
ghost use Rattle.t1_frac.specs.Ascii.{space};
ghost use Rattle.t1_text.specs.Lines.{trimmed};
ghost use Rattle.t1_disassemble.specs.HeadsFound.{head_of};
ghost use Rattle.t1_disassemble.specs.Front.{line_len};

use crate::front::{line_len, past};
use crate::kinds::has_slash;
use crate::opening::first_opening;
use crate::private::{after_end, up_to};
use crate::settings::is_section;
use std::alloc::AllocError;
use t1_frac::is_blank;
use t1_parts::push_decimal;
use t1_text::{decimal_up_to, next_place, same, trimmed};

/// The head of a section: where its name ends, its word, its count, and the bytes after it.
#[derive(Clone, Copy, Debug)]
pub(crate) struct Head<'a> {
    pub(crate) end: usize,
    pub(crate) is_subrs: bool,
    pub(crate) count: u32,
    pub(crate) rest: &'a [u8],
}

/// The bytes from the first that is neither a blank nor of a comment, which goes to the end of its
/// line.
fn past_gap(bytes: &[u8]) -> &[u8]
    ensures value { result.now ≡ past_gap bytes.now }
    ensures shorter { length result.now ≤ length bytes.now }
{
    let mut in_comment = false;
    let mut rest = bytes;
    while let Some((first, after)) = rest.split_first() {
        if in_comment {
            in_comment = *first != b'\n' && *first != b'\r';
        } else if *first == b'%' {
            in_comment = true;
        } else if !is_blank(*first) {
            return rest;
        }
        rest = after;
    }
    rest
}

/// The first token of some bytes, over line ends and comments, and the bytes after it.
fn next_over(bytes: &[u8]) -> Option<(&[u8], &[u8])>
    requires { length bytes.now < 2 ^ 63 }
    ensures value { option_map (λ found. (found.0.now, found.1.now)) result ≡ next_over bytes.now }
    ensures shorter { IfSome result (λ found. length found.1.now ≤ length bytes.now) }
{
    let rest = past_gap(bytes);
    let (at, token, _after) = next_place(0, rest)?;
    Some((token, past(rest, at + token.len())))
}

/// A count below 1,000,000,000 and a word that are the next tokens, and the bytes after them.
fn behind_name<'a>(word: &[u8], bytes: &'a [u8]) -> Option<(u32, &'a [u8])>
    requires { length bytes.now < 2 ^ 63 }
    ensures value { option_map (λ found. (found.0, found.1.now)) result
        ≡ behind_name word.now bytes.now }
    ensures shorter { IfSome result (λ found. length found.1.now ≤ length bytes.now) }
{
    let (digits, after) = next_over(bytes)?;
    let count = decimal_up_to(999_999_999, digits)?;
    let (token, rest) = next_over(after)?;
    if !same(token, word) {
        return None;
    }
    Some((count, rest))
}

/// The head whose name ends at a place of some bytes.
fn head_with(is_subrs: bool, end: usize, bytes: &[u8]) -> Option<Head<'_>>
    requires { length bytes.now < 2 ^ 63 }
    ensures value { option_map head_of result
        ≡ head_with bytes.now end (if is_subrs then codes "array" else codes "dict") }
    ensures shorter { IfSome result (λ head. length head.rest.now ≤ length bytes.now) }
{
    let behind = past(bytes, end);
    let found = if is_subrs {
        behind_name(b"array", behind)
    } else {
        behind_name(b"dict", behind)
    };
    match found {
        Some((count, rest)) => Some(Head {
            end,
            is_subrs,
            count,
            rest,
        }),
        None => None,
    }
}

/// The head that a token begins, which ends at a place of some bytes.
fn head_at<'a>(at: usize, name: &[u8], bytes: &'a [u8]) -> Option<Head<'a>>
    requires size { length bytes.now < 2 ^ 63 }
    requires within { at + length name.now < 2 ^ 63 }
    ensures value { option_map head_of result ≡ head_at bytes.now (at, name.now) }
    ensures shorter { IfSome result (λ head. length head.rest.now ≤ length bytes.now) }
{
    if same(name, b"/Subrs") {
        return head_with(true, at + name.len(), bytes);
    }
    if same(name, b"/CharStrings") {
        return head_with(false, at + name.len(), bytes);
    }
    None
}

/// The first head that begins on a line of so many bytes.
fn head_among(end: usize, bytes: &[u8]) -> Option<Head<'_>>
    requires { length bytes.now < 2 ^ 63 }
    ensures value { option_map head_of result
        ≡ head_among bytes.now (places_from 0 (take end bytes.now)) }
    ensures shorter { IfSome result (λ head. length head.rest.now ≤ length bytes.now) }
{
    let mut place = 0;
    let mut rest = up_to(bytes, end);
    while let Some((at, token, after)) = next_place(place, rest) {
        if let Some(head) = head_at(at, token, bytes) {
            return Some(head);
        }
        place = at + token.len();
        rest = after;
    }
    None
}

/// The head that begins on the first line, of so many bytes, where that isn't a section line by
/// itself.
#[tactic(auto, using(crate::proofs::HeadLaws::no_head))]
pub(crate) fn head_over(end: usize, bytes: &[u8]) -> Option<Head<'_>>
    requires size { length bytes.now < 2 ^ 63 }
    requires end { end ≡ line_len bytes.now }
    ensures value { option_map head_of result ≡ head_over bytes.now }
    ensures shorter { IfSome result (λ head. length head.rest.now ≤ length bytes.now) }
{
    let line = up_to(bytes, end);
    if !has_slash(line) || is_section(line) {
        return None;
    }
    head_among(end, bytes)
}

/// Whether an entry opens on the line at the front, of so many bytes.
fn opens_entry(operator: &[u8], end: usize, bytes: &[u8]) -> bool
    requires size { length bytes.now < 2 ^ 63 }
    requires end { end ≡ line_len bytes.now }
    ensures { result ≡ opens_entry operator.now bytes.now }
{
    first_opening(operator, up_to(bytes, end)).is_some()
}

/// Puts a head, as one line, in the place of what the buffer holds, without what stands behind it.
fn put_head(buffer: &mut Vec<u8>, front: &[u8], head: &Head) -> Result<(), AllocError>
    ensures { OnOk result (buffer.new.items
        ≡ trimmed front.now ++ space ∷ (decimal (head_of head.now).count ++ space
        ∷ (head_of head.now).word)) }
{
    buffer.clear();
    buffer.extend_from_slice(trimmed(front))?;
    buffer.push(b' ')?;
    push_decimal(buffer, u64::from(head.count))?;
    if head.is_subrs {
        buffer.extend_from_slice(b" array")?;
    } else {
        buffer.extend_from_slice(b" dict")?;
    }
    Ok(())
}

/// Adds a space and a text without the blanks at its ends, where there is anything else.
fn put_behind(buffer: &mut Vec<u8>, text: &[u8]) -> Result<(), AllocError>
    ensures { OnOk result (buffer.new.items ≡ buffer.old.items ++ after_space (trimmed text.now)) }
{
    let text = trimmed(text);
    if text.is_empty() {
        return Ok(());
    }
    buffer.push(b' ')?;
    buffer.extend_from_slice(text)?;
    Ok(())
}

/// Puts the section line of a head in the place of what the buffer holds, and answers the bytes
/// after it.
pub(crate) fn put_head_line<'a>(
    buffer: &mut Vec<u8>,
    operator: &[u8],
    bytes: &'a [u8],
    head: &Head<'a>,
) -> Result<&'a [u8], AllocError>
    requires { length head.now.rest.now < 2 ^ 63 }
    ensures text { IfOk result (λ rest. buffer.new.items
        ≡ head_text operator.now bytes.now (head_of head.now)) }
    ensures rest { IfOk result (λ rest. rest.now ≡ past_head operator.now (head_of head.now)) }
{
    put_head(buffer, up_to(bytes, head.end), head)?;
    let end = line_len(head.rest);
    if opens_entry(operator, end, head.rest) {
        return Ok(head.rest);
    }
    let (line, ended) = head.rest.split_at(end);
    put_behind(buffer, line)?;
    Ok(after_end(ended))
}
