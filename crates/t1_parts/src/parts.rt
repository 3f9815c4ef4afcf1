//! Reading a source, which is cut into its parts.

ghost use Rattle.std.specs.Prelude.{◌≡◌, ◌==◌, ◌++◌, ◌∷◌, ◌<◌, [], false, true, length, IfOk};
ghost use Rattle.std.specs.Prelude.{MatchOption, codes, if◌then◌else◌, Some, None, Ok, Err};
ghost use Rattle.std.specs.Prelude.{MatchResult, filter_map};
ghost use Rattle.std.specs.List.{list_any, list_all};
ghost use Rattle.t1_frac.specs.Ascii.{digit_zero};
ghost use Rattle.t1_frac.specs.Outcome.{Gives};
ghost use Rattle.t1_text.specs.Lines.{is_line, lines};
ghost use Rattle.t1_parts.specs.Parts.{parts_of, ends_in, holds, is_zeros, tail_of};
ghost use Rattle.t1_parts.specs.LineCuts.{IsCut, NoneGone};
ghost use Rattle.t1_parts.specs.Reading.{reads};

use crate::encoding::check_clear;
use crate::gathered::{check_whole, private_items};
use crate::items::{Items, raise};
use memchr::memmem::Finder;
use std::alloc::{AllocError, Global};
use t1_frac::{Bytes, Code, Fault, Refusal};
use t1_text::{copied_lines, first_line, last_line_start, trimmed};

/// Whether a line, trimmed, ends in this text.
pub fn ends_in(text: &[u8], line: &[u8]) -> bool
    ensures { result ≡ ends_in text.now line.now }
{
    trimmed(line).ends_with(text)
}

/// Some bytes cut at a line: the bytes before it, the line, and the bytes after it.
#[derive(Drop)]
struct Cut<'a> {
    before: &'a [u8],
    line: &'a [u8],
    after: &'a [u8],
}

/// The bytes from the line on in which a text stands first; none where it stands nowhere.
fn from_line_with<'a>(text: &Finder, bytes: &'a [u8]) -> &'a [u8]
    requires some { 0 < length text.now }
    requires line { is_line text.now ≡ true }
    ensures { NoneGone (ends_in text.now) bytes.now result.now }
{
    let Some(place) = text.find(bytes) else {
        return &[];
    };
    let start = last_line_start(bytes.split_at(place).0);
    bytes.split_at(start).1
}

/// Some bytes cut at their first line that, trimmed, ends in a text.
fn cut_at<'a>(text: &[u8], bytes: &'a [u8]) -> Option<Cut<'a>>
    requires some { 0 < length text.now }
    requires line { is_line text.now ≡ true }
    ensures { MatchOption result (list_any (ends_in text.now) (lines bytes.now) ≡ false)
        (λ cut.
        IsCut (ends_in text.now) (lines bytes.now) (lines cut.before.now) cut.line.now
        (lines cut.after.now)) }
{
    let finder = Finder::new(text);
    let mut rest = from_line_with(&finder, bytes);
    while !rest.is_empty() {
        let (line, after) = first_line(rest);
        if ends_in(text, line) {
            let before = bytes.split_at(bytes.len() - rest.len()).0;
            return Some(Cut {
                before,
                line,
                after,
            });
        }
        rest = from_line_with(&finder, after);
    }
    None
}

/// The bytes of the three parts, but for the line that ends each of the first two.
#[derive(Drop)]
pub struct PartBytes<'a> {
    pub clear: &'a [u8],
    pub eexec: &'a [u8],
    pub private: &'a [u8],
    pub closefile: &'a [u8],
    pub tail: &'a [u8],
}

/// The parts of a source.
#[tactic(auto, unfolding(crate::specs::Parts::parts_of), using(crate::proofs::PartLaws::no_clear, crate::proofs::PartLaws::no_private, crate::proofs::PartLaws::parts_cut))]
pub fn parts_of(bytes: &[u8]) -> Result<PartBytes<'_>, Fault>
    ensures { MatchResult result
        (λ p.
        parts_of (lines bytes.now)
        ≡ Ok
        (record {
          clear = lines p.clear.now ++ p.eexec.now
              ∷ [];
          private = lines p.private.now ++ p.closefile.now
              ∷ [];
          tail = lines p.tail.now;
        }))
        (λ fault. parts_of (lines bytes.now) ≡ Err fault) }
{
    let Some(clear) = cut_at(b"currentfile eexec", bytes) else {
        return Err(Fault::from(Code::F1));
    };
    let Some(private) = cut_at(b"mark currentfile closefile", clear.after) else {
        return Err(Fault::from(Code::F2));
    };
    Ok(PartBytes {
        clear: clear.before,
        eexec: clear.line,
        private: private.before,
        closefile: private.line,
        tail: private.after,
    })
}

/// Whether a line holds this text.
pub fn holds(text: &[u8], line: &[u8]) -> bool
    ensures { result ≡ holds text.now line.now }
{
    let mut rest = line;
    while let [_, after @ ..] = rest {
        if rest.starts_with(text) {
            return true;
        }
        rest = after;
    }
    false
}

/// Whether each byte is `0`.
fn are_zeros(line: &[u8]) -> bool
    ensures { result ≡ list_all (λ c. c == digit_zero) line.now }
{
    line.iter().all(|byte| *byte == b'0')
}

/// Whether a line, trimmed, is not empty and holds only `0`.
fn is_zeros(line: &[u8]) -> bool
    ensures { result ≡ is_zeros line.now }
{
    let line = trimmed(line);
    1 <= line.len() && are_zeros(line)
}

/// Whether one of the lines holds `cleartomark`.
fn has_delimiter(lines: &[Bytes]) -> bool
    ensures { result ≡ list_any (holds (codes "cleartomark")) lines.now }
{
    lines
        .iter()
        .any(|line| holds(b"cleartomark", line.as_slice()))
}

/// Copies of the lines that aren't lines of zeros.
fn kept_lines(alloc: Global, bytes: &[u8]) -> Result<Vec<Bytes>, AllocError>
    ensures { IfOk result
        (λ kept.
        kept.items
        ≡ filter_map (λ l. if is_zeros l then None else Some l) (lines bytes.now)) }
{
    let mut kept = Vec::new(alloc);
    let mut rest = bytes;
    while !rest.is_empty() {
        let (line, after) = first_line(rest);
        if !is_zeros(line) {
            kept.push(Bytes::copied(alloc, line)?)?;
        }
        rest = after;
    }
    Ok(kept)
}

/// The lines of the tail that is kept.
#[tactic(auto, unfolding(crate::specs::Parts::tail_of))]
pub fn tail_of(alloc: Global, bytes: &[u8]) -> Result<Vec<Bytes>, AllocError>
    ensures { IfOk result (λ tail. tail.items ≡ tail_of (lines bytes.now)) }
{
    let mut kept = kept_lines(alloc, bytes)?;
    if has_delimiter(&kept) {
        return Ok(kept);
    }
    let mut tail = Vec::new(alloc);
    tail.push(Bytes::copied(alloc, b"cleartomark")?)?;
    tail.append(&mut kept)?;
    Ok(tail)
}

/// What a source is read as: the lines of its clear part, the items of its private part, and the
/// lines of its tail.
#[derive(Drop)]
pub struct ReadParts<'a> {
    pub clear: Vec<Bytes>,
    pub items: Items<'a>,
    pub tail: Vec<Bytes>,
}

/// What some bytes are read as. The first fault refuses them: F1 where no line ends the clear part,
/// F2 where none ends the private part, then F5 and F6 of the clear lines, F4 and F7 to F10 of the
/// private lines, each from the top and with its line, then F3 and F11. No table of the lines is
/// made.
#[tactic(auto, unfolding(crate::specs::Reading::reads, crate::specs::Reading::reads_lines))]
pub fn read_parts(alloc: Global, bytes: &[u8]) -> Result<ReadParts<'_>, Refusal>
    ensures { Gives
        (λ read.
        record { clear = read.clear.items; items = read.items; tail = read.tail.items })
        result
        (reads bytes.now) }
{
    let parts = parts_of(bytes)?;
    let mut clear = copied_lines(alloc, parts.clear)?;
    clear.push(Bytes::copied(alloc, parts.eexec)?)?;
    check_clear(&clear)?;
    let number = clear.as_slice().len() as u64 + 1;
    let items = private_items(alloc, number, parts.private, parts.closefile)?;
    check_whole(&items)?;
    let mut items = items.into_items()?;
    raise(&mut items)?;
    let tail = tail_of(alloc, parts.tail)?;
    Ok(ReadParts { clear, items, tail })
}
