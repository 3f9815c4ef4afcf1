//! The segments of a file, and the parts of a font that they hold.
ghost use Rattle.std.specs.Prelude.{◌≡◌, ◌+◌, ◌-◌, ◌≤◌, ◌<◌, length, option_map, IfOk, IfSome};
ghost use Rattle.std.specs.Prelude.{MatchResult, OnOk, Ok, Err, ℕ, List, [], ◌++◌};
ghost use Rattle.t1_text.specs.Lines.{begins_with};
ghost use Rattle.t1_code.specs.Pfb.{marker};
ghost use Rattle.t1_disassemble.specs.InPlace.{AreBehind, IsFront, GivesTail, tailless};
ghost use Rattle.t1_disassemble.specs.Outcome.{GivesFont, font_fault_at};
ghost use Rattle.t1_disassemble.specs.declared.fault.FontPlace.TheVariants.{Byte};
ghost use Rattle.t1_disassemble.specs.SegmentsRead.{segment_after, typed_segment, segment_at};
ghost use Rattle.t1_disassemble.specs.SegmentsRead.{placed_segment, segments_of, no_parts};
ghost use Rattle.t1_disassemble.specs.SegmentsRead.{parts_onto, with_segment};
ghost use Rattle.t1_disassemble.specs.SegmentsFound.{found_segment, found_maybe};

use crate::fault::{FontCode, FontFault, FontPlace, FontRefusal};
use std::alloc::{AllocError, Global};
use std::marker::Model;

/// How many bytes stand before those of a segment.
pub(crate) const HEAD_LEN: usize = 6;

/// How many bytes of heads stand before those of a file's second segment.
pub(crate) const HEADS_LEN: usize = 12;

/// The byte that each segment begins with.
const MARKER: u8 = 128;

/// The type of a segment of text.
const ASCII: u8 = 1;

/// The type of a segment of binary data.
pub(crate) const BINARY: u8 = 2;

/// The type that stands at the end of the file.
const END: u8 = 3;

/// A segment, and the bytes after it.
#[derive(Clone, Copy, Debug)]
pub(crate) struct Found<'a> {
    pub(crate) kind: u8,
    pub(crate) bytes: &'a [u8],
    pub(crate) after: &'a [u8],
}

/// The segment of a type whose length stands at the front.
fn segment_after(kind: u8, rest: &[u8]) -> Result<Found<'_>, FontCode>
    ensures value { MatchResult
        result
        (λ found. segment_after kind rest.now ≡ Ok (found_segment found))
        (λ code. segment_after kind rest.now ≡ Err code) }
    ensures shorter { IfOk result (λ found. length found.after.now < length rest.now) }
    ensures sizes { IfOk result (λ found. 4 + length found.bytes.now + length found.after.now
        ≡ length rest.now) }
{
    let [a, b, c, d, data @ ..] = rest else {
        return Err(FontCode::D2);
    };
    let count = u32::from_le_bytes([*a, *b, *c, *d]) as usize;
    if data.len() < count {
        return Err(FontCode::D2);
    }
    let (bytes, after) = data.split_at(count);
    Ok(Found { kind, bytes, after })
}

/// What stands after 128 and a type: the end of the file, or a segment.
fn typed_segment(kind: u8, rest: &[u8]) -> Result<Option<Found<'_>>, FontCode>
    ensures value { MatchResult
        result
        (λ found. typed_segment kind rest.now ≡ Ok (found_maybe found))
        (λ code. typed_segment kind rest.now ≡ Err code) }
    ensures shorter { IfOk result (λ found. IfSome found
        (λ it. length it.after.now < length rest.now)) }
    ensures sizes { IfOk result (λ found. IfSome found
        (λ it. 4 + length it.bytes.now + length it.after.now ≡ length rest.now)) }
{
    if kind == END {
        return Ok(None);
    }
    if kind != ASCII && kind != BINARY {
        return Err(FontCode::D2);
    }
    match segment_after(kind, rest) {
        Ok(found) => Ok(Some(found)),
        Err(code) => Err(code),
    }
}

/// The segment at the front, and the bytes after it; nothing at the end of the file.
pub(crate) fn next_segment(bytes: &[u8]) -> Result<Option<Found<'_>>, FontCode>
    ensures value { MatchResult
        result
        (λ found. segment_at bytes.now ≡ Ok (found_maybe found))
        (λ code. segment_at bytes.now ≡ Err code) }
    ensures shorter { IfOk result (λ found. IfSome found
        (λ it. length it.after.now < length bytes.now)) }
    ensures sizes { IfOk result (λ found. IfSome found
        (λ it. 6 + length it.bytes.now + length it.after.now ≡ length bytes.now)) }
{
    if bytes.is_empty() {
        return Ok(None);
    }
    let [first, kind, rest @ ..] = bytes else {
        return Err(FontCode::D2);
    };
    if *first != MARKER {
        return Err(FontCode::D2);
    }
    typed_segment(*kind, rest)
}

/// The same, with a fault at its place in a file of so many bytes.
fn placed_segment(total: usize, rest: &[u8]) -> Result<Option<Found<'_>>, FontFault>
    requires { length rest.now ≤ total }
    ensures value { MatchResult
        result
        (λ found. placed_segment total rest.now ≡ Ok (found_maybe found))
        (λ fault. placed_segment total rest.now ≡ Err fault) }
    ensures shorter { IfOk result (λ found. IfSome found
        (λ it. length it.after.now < length rest.now)) }
{
    match next_segment(rest) {
        Ok(found) => Ok(found),
        Err(code) => Err(FontFault {
            code,
            place: FontPlace::Byte((total - rest.len()) as u64),
        }),
    }
}

/// The clear text of a font, its encrypted part, and the text after it.
#[derive(Debug, Drop)]
pub(crate) struct JoinedParts {
    pub(crate) clear: Vec<u8>,
    pub(crate) coded: Vec<u8>,
    pub(crate) tail: Vec<u8>,
}

impl Model for JoinedParts {
    ghost use Rattle.t1_disassemble.specs.SegmentsRead.{FontParts};

    ghost Value = { FontParts };

    ghost view = { λ parts. record {
      clear = parts.clear.items;
      coded = parts.coded.items;
      tail = parts.tail.items;
    } };
}

impl JoinedParts {
    /// No bytes yet.
    fn new(alloc: Global) -> JoinedParts
        ensures { result ≡ no_parts }
    {
        JoinedParts {
            clear: Vec::new(alloc),
            coded: Vec::new(alloc),
            tail: Vec::new(alloc),
        }
    }

    /// Adds a segment to the part in which it stands.
    fn put(&mut self, segment: Found) -> Result<(), AllocError>
        ensures { OnOk result (self.new ≡ with_segment self.old (found_segment segment.entry).0) }
    {
        if segment.kind == BINARY {
            return self.coded.extend_from_slice(segment.bytes);
        }
        if self.coded.is_empty() {
            return self.clear.extend_from_slice(segment.bytes);
        }
        self.tail.extend_from_slice(segment.bytes)
    }
}

/// The parts of a font that stand elsewhere.
#[derive(Clone, Copy, Debug)]
pub(crate) struct LentParts<'a> {
    pub(crate) clear: &'a [u8],
    pub(crate) coded: &'a [u8],
    pub(crate) tail: &'a [u8],
}

/// Whether a file has segments.
pub(crate) fn has_segments(file: &[u8]) -> bool
    ensures { result ≡ begins_with marker file.now }
{
    file.first() == Some(&MARKER)
}

/// The parts that the segments of a file hold.
#[tactic(auto, using(crate::proofs::Segmented::parts_more))]
pub(crate) fn segmented_parts(alloc: Global, bytes: &[u8]) -> Result<JoinedParts, FontRefusal>
    ensures { GivesFont
        (λ parts. parts)
        result
        (parts_onto no_parts (segments_of (length bytes.now) bytes.now)) }
{
    let mut parts = JoinedParts::new(alloc);
    let mut rest = bytes;
    loop {
        let Some(found) = placed_segment(bytes.len(), rest)? else {
            return Ok(parts);
        };
        parts.put(found)?;
        rest = found.after;
    }
}

/// How many bytes the first segment of a file has and how many the second, where these are one of
/// text and one of binary data.
#[tactic(auto, using(crate::proofs::InPlaceLaws::front_found))]
pub(crate) fn front_lens(file: &[u8]) -> Option<(usize, usize)>
    ensures { IfSome result (λ lens. IsFront lens.0 lens.1 file.now) }
{
    let Ok(Some(text)) = next_segment(file) else {
        return None;
    };
    if text.kind != ASCII {
        return None;
    }
    let Ok(Some(binary)) = next_segment(text.after) else {
        return None;
    };
    if binary.kind != BINARY || binary.bytes.is_empty() {
        return None;
    }
    Some((text.bytes.len(), binary.bytes.len()))
}

/// The text of the segments that are left of a file of so many bytes, where none of them is binary.
#[tactic(auto, using(crate::proofs::InPlaceLaws::tail_ends, crate::proofs::InPlaceLaws::tail_fails, crate::proofs::InPlaceLaws::behind_ends))]
pub(crate) fn text_left(
    alloc: Global,
    total: usize,
    bytes: &[u8],
) -> Result<Option<Vec<u8>>, FontRefusal>
    requires { length bytes.now ≤ total }
    ensures tail { (clear coded : List ℕ)
        → 0 < length coded
        → GivesTail (λ tail. tail.items) clear coded result
        (parts_onto (tailless clear coded) (segments_of total bytes.now)) }
    ensures behind { IfOk result (λ found. IfSome found
        (λ _. AreBehind (segments_of total bytes.now))) }
{
    let mut tail = Vec::new(alloc);
    let mut rest = bytes;
    loop {
        let Some(found) = placed_segment(total, rest)? else {
            return Ok(Some(tail));
        };
        if found.kind == BINARY {
            return Ok(None);
        }
        tail.extend_from_slice(found.bytes)?;
        rest = found.after;
    }
}
