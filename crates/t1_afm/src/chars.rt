//! The lines of glyphs, gathered in a buffer.
ghost use Rattle.std.specs.Prelude.{◌≡◌, ◌≤◌, ◌<◌, ◌+◌, pos, [], ◌∷◌, ◌++◌, length, take, max};
ghost use Rattle.std.specs.Prelude.{ℕ, codes, flat_map};
ghost use Rattle.std.specs.Fmt.{signed_decimal};
ghost use Rattle.t1_code.specs.Writing.{Puts};
ghost use Rattle.t1_afm.specs.Afm.{char_line, code_number, line_text, rest_text, sides};

use crate::bbox::BBox;
use crate::metrics::CharMetric;
use crate::numbers::{ROOM, put_number, put_text};
use crate::part::Part;
use std::io::{self, Write};
use t1_code::Outlet;

/// The most bytes that the line of a glyph takes beside its name, where its width is along x alone.
const MOST: usize = 192;

/// Puts what stands before the width of a glyph, and answers where it ends.
#[inline(always)]
fn put_code(bytes: &mut [u8; ROOM], place: usize, code: Option<u8>) -> usize
    requires { place + 29 ≤ 4096 }
    ensures end { result ≤ place + 29 }
    ensures front { take result bytes.new
        ≡ take place bytes.old
        ++ (codes "C " ++ (signed_decimal (code_number code) ++ codes " ; WX ")) }
{
    match code {
        None => put_text(bytes, place, b"C -1 ; WX "),
        Some(code) => {
            let number = put_text(bytes, place, b"C ");
            let after = put_number(bytes, number, i64::from(code));
            put_text(bytes, after, b" ; WX ")
        }
    }
}

/// Puts the sides of a box, each after a space, and answers where they end.
#[inline(always)]
fn put_sides(bytes: &mut [u8; ROOM], place: usize, bbox: &BBox) -> usize
    requires { place + 88 ≤ 4096 }
    ensures end { result ≤ place + 88 }
    ensures front { take result bytes.new
        ≡ take place bytes.old
        ++ (codes " " ++ (signed_decimal bbox.now.left
        ++ (codes " " ++ (signed_decimal bbox.now.bottom
        ++ (codes " " ++ (signed_decimal bbox.now.right
        ++ (codes " " ++ signed_decimal bbox.now.top))))))) }
{
    let left = put_text(bytes, place, b" ");
    let left = put_number(bytes, left, i64::from(bbox.left));
    let bottom = put_text(bytes, left, b" ");
    let bottom = put_number(bytes, bottom, i64::from(bbox.bottom));
    let right = put_text(bytes, bottom, b" ");
    let right = put_number(bytes, right, i64::from(bbox.right));
    let top = put_text(bytes, right, b" ");
    put_number(bytes, top, i64::from(bbox.top))
}

/// Puts the line of a glyph, whose width is along x alone, and answers where it ends.
#[inline(always)]
fn put_char(bytes: &mut [u8; ROOM], place: usize, glyph: &CharMetric) -> usize
    requires across { glyph.now.wy ≡ pos 0 }
    requires room { place + (length glyph.now.name + 192) ≤ 4096 }
    ensures end { result ≤ 4096 }
    ensures front { take result bytes.new
        ≡ take place bytes.old ++ line_text (char_line glyph.now) }
{
    let width = put_code(bytes, place, glyph.code);
    let name = put_number(bytes, width, glyph.wx);
    let name = put_text(bytes, name, b" ; N ");
    let bbox = put_text(bytes, name, glyph.name.as_slice());
    let bbox = put_text(bytes, bbox, b" ; B");
    let end = put_sides(bytes, bbox, &glyph.bbox);
    put_text(bytes, end, b" ;\n")
}

/// Lines of glyphs at the front of a buffer: of how many glyphs, and how many bytes they are.
#[derive(Clone, Copy)]
struct Filled {
    count: usize,
    len: usize,
}

/// Puts the lines of the first glyphs, of as many as there is room for.
fn fill(bytes: &mut [u8; ROOM], chars: &[CharMetric]) -> Filled
    ensures count { result.count ≤ length chars.now }
    ensures len { result.len ≤ 4096 }
    ensures lines { take result.len bytes.new
        ≡ flat_map (λ c. line_text (char_line c)) (take result.count chars.now) }
{
    let mut len = 0;
    let mut count = 0;
    for glyph in chars {
        if glyph.wy != 0 || glyph.name.as_slice().len() + MOST > ROOM - len {
            return Filled { count, len };
        }
        len = put_char(bytes, len, glyph);
        count += 1;
    }
    Filled { count, len }
}

/// Puts the lines that were filled in, or that of the first glyph where there was room for none.
fn put_filled<W: Write>(
    outlet: &mut Outlet<W>,
    lines: &[u8],
    count: usize,
    chars: &[CharMetric],
) -> io::Result<()>
    requires some { 0 < length chars.now }
    requires filled { lines.now ≡ flat_map (λ c. line_text (char_line c)) (take count chars.now) }
    ensures { Puts W.contents outlet.old outlet.new
        (flat_map (λ c. line_text (char_line c)) (take (max count 1) chars.now)) result }
{
    if count == 0 {
        return chars[0].put(outlet);
    }
    outlet.put(lines)
}

/// A count, but one where it is none.
fn at_least_one(count: usize) -> usize
    ensures value { result ≡ max count 1 }
    ensures within { (most : ℕ) → 1 ≤ most → count ≤ most → result ≤ most }
    ensures some { 1 ≤ result }
{
    if count == 0 {
        return 1;
    }
    count
}

/// Puts the lines of glyphs.
pub(crate) fn put_chars<W: Write>(outlet: &mut Outlet<W>, chars: &[CharMetric]) -> io::Result<()>
    ensures { Puts W.contents outlet.old outlet.new
        (flat_map (λ c. line_text (char_line c)) chars.now) result }
{
    let mut bytes = [0; ROOM];
    let mut at = 0;
    while at < chars.len() {
        let rest = chars.split_at(at).1;
        let filled = fill(&mut bytes, rest);
        put_filled(outlet, bytes.split_at(filled.len).0, filled.count, rest)?;
        at += at_least_one(filled.count);
    }
    Ok(())
}
