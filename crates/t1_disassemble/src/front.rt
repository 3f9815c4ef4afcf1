//! The line at the front of some bytes, and the part of a font that ends with its eexec line.
ghost use Rattle.std.specs.Prelude.{◌≡◌, ◌≤◌, ◌<◌, ◌-◌, length, option_map, drop, IfSome};
ghost use Rattle.std.specs.List.{prefix_len};
ghost use Rattle.t1_text.specs.Lines.{is_line_end};
ghost use Rattle.t1_parts.specs.Parts.{is_eexec};
ghost use Rattle.t1_disassemble.specs.Front.{line_len, front_line, past_line, after_eexec_line};
ghost use Rattle.t1_disassemble.specs.Front.{after_eexec_words, after_eexec, is_space, past_spaces};

use memchr::memchr2;
use t1_parts::text_place;
use t1_text::{cut_line, trimmed};

/// How many bytes `currentfile eexec` has.
const EEXEC_LEN: usize = 17;

/// The bytes after so many, or none.
pub(crate) fn past(bytes: &[u8], count: usize) -> &[u8]
    ensures { result.now ≡ drop count bytes.now }
{
    bytes.split_at(count.min(bytes.len())).1
}

/// How many bytes stand before the first line end.
pub(crate) fn line_len(bytes: &[u8]) -> usize
    ensures within { result ≤ length bytes.now }
    ensures value { result ≡ line_len bytes.now }
{
    memchr2(b'\n', b'\r', bytes).unwrap_or(bytes.len())
}

/// How many bytes stand before the first line end that comes after so many bytes, where it is known
/// how many stand before the first line end of all. A line end is looked for only once, so that
/// many entries on one line take no longer.
#[tactic(auto, using(crate::proofs::Fronts::line_len_later))]
pub(crate) fn line_len_after(known: usize, passed: usize, bytes: &[u8]) -> usize
    requires known { known ≡ line_len bytes.now }
    requires passed { passed ≤ length bytes.now }
    ensures { result ≡ line_len (drop passed bytes.now) }
{
    if passed <= known {
        return known - passed;
    }
    line_len(bytes.split_at(passed).1)
}

/// Whether a line ends the clear part.
fn is_eexec(line: &[u8]) -> bool
    ensures { result ≡ is_eexec line.now }
{
    trimmed(line).ends_with(b"currentfile eexec")
}

/// What stands after the line that ends the clear part.
#[tactic(auto, using(crate::proofs::Fronts::eexec_more, crate::proofs::Fronts::no_eexec, crate::proofs::CutPieces::left_suffix, t1_text::proofs::CutLaws::line_gone, t1_text::proofs::CutLaws::after_within))]
fn after_eexec_line(bytes: &[u8]) -> Option<&[u8]>
    ensures value { option_map (λ after. after.now) result ≡ after_eexec_line bytes.now }
    ensures within { IfSome result (λ after. length after.now ≤ length bytes.now) }
    ensures left { IfSome result (λ after. after.now
        ≡ drop (length bytes.now - length after.now) bytes.now) }
{
    let mut rest = bytes;
    while !rest.is_empty() {
        let (line, after) = cut_line(rest);
        if is_eexec(line) {
            return Some(after);
        }
        rest = after;
    }
    None
}

/// What stands after the first `currentfile eexec` with a space behind it.
#[tactic(auto, unfolding(crate::specs::Front::after_eexec_words), using(crate::proofs::CutPieces::dropped_once))]
fn after_eexec_words(bytes: &[u8]) -> Option<&[u8]>
    ensures value { option_map (λ after. after.now) result ≡ after_eexec_words bytes.now }
    ensures within { IfSome result (λ after. length after.now ≤ length bytes.now) }
    ensures left { IfSome result (λ after. after.now
        ≡ drop (length bytes.now - length after.now) bytes.now) }
{
    let place = text_place(b"currentfile eexec ", bytes);
    if place < bytes.len() {
        return Some(past(bytes, place + EEXEC_LEN));
    }
    None
}

/// What stands after the clear text: after its eexec line, or on it where no line ends so.
pub(crate) fn after_eexec(bytes: &[u8]) -> Option<&[u8]>
    ensures value { option_map (λ after. after.now) result ≡ after_eexec bytes.now }
    ensures within { IfSome result (λ after. length after.now ≤ length bytes.now) }
    ensures left { IfSome result (λ after. after.now
        ≡ drop (length bytes.now - length after.now) bytes.now) }
{
    match after_eexec_line(bytes) {
        Some(after) => Some(after),
        None => after_eexec_words(bytes),
    }
}

/// Whether a byte may stand between eexec and the encrypted bytes.
pub(crate) fn is_space(byte: u8) -> bool
    ensures { result ≡ is_space byte }
{
    byte == b' ' || byte == b'\t' || byte == b'\r' || byte == b'\n'
}

/// How many such bytes stand at the front.
pub(crate) fn space_len(bytes: &[u8]) -> usize
    ensures within { result ≤ length bytes.now }
    ensures value { result ≡ prefix_len is_space bytes.now }
{
    bytes.iter().take_while(|byte| is_space(**byte)).count()
}

/// The bytes after the first line and its end.
pub(crate) fn past_line(bytes: &[u8]) -> &[u8]
    ensures { result.now ≡ past_line bytes.now }
{
    cut_line(bytes).1
}

/// The bytes from the first on that may not stand between eexec and the encrypted bytes.
pub(crate) fn past_spaces(bytes: &[u8]) -> &[u8]
    ensures { result.now ≡ past_spaces bytes.now }
{
    bytes.split_at(space_len(bytes)).1
}
