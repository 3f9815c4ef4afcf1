//! The source of a font's file, kept with its charstrings as bytes until it is written.
ghost use Rattle.std.specs.Prelude.{◌≡◌, ◌+◌, ◌-◌, ◌<◌, ◌≤◌, ◌^◌, [], ◌++◌, true, length};
ghost use Rattle.std.specs.Prelude.{OnOk, IfOk, IfErr, Ok, Err, Some, take, drop};
ghost use Rattle.t1_text.specs.Lines.{begins_with, lines, joined};
ghost use Rattle.t1_code.specs.Writing.{Puts, Writes};
ghost use Rattle.t1_code.specs.Pfb.{marker};
ghost use Rattle.t1_parts.specs.Parts.{tail_of};
ghost use Rattle.t1_disassemble.specs.ClearPart.{clear_len, has_coded};
ghost use Rattle.t1_disassemble.specs.Decipher.{decrypted_private};
ghost use Rattle.t1_disassemble.specs.Digits.{digits_len};
ghost use Rattle.t1_disassemble.specs.Disassembly.{source_of, disassembled};
ghost use Rattle.t1_disassemble.specs.Front.{after_eexec, past_spaces};
ghost use Rattle.t1_disassemble.specs.Kinds.{plain_kind};
ghost use Rattle.t1_disassemble.specs.Lent.{lent_parts};
ghost use Rattle.t1_disassemble.specs.Outcome.{GivesFont};
ghost use Rattle.t1_disassemble.specs.SourceOnto.{plain_onto, source_onto, counted_private};
ghost use Rattle.t1_disassemble.specs.SourceOnto.{segmented_source, flat_source};

use crate::cipher::{decipher_private, encipher_private};
use crate::digits::{digits_len, is_hexadecimal};
use crate::disassembly::{
    EEXEC_LEAD, coded_place, joined_bytes, past_lead, plain_bytes, push_checked, push_lines_of,
    tail_after,
};
use crate::fault::{FontCode, FontFault, FontPlace, FontRefusal};
use crate::front::{after_eexec, past, past_spaces, space_len};
use crate::kinds::check_kind;
use crate::known::Known;
use crate::lines::add_lines;
use crate::packed::Packed;
use crate::places::{byte_place, fault_byte, fault_moved, front_place};
use crate::private::{Settings, push_private};
use crate::segments::{
    HEAD_LEN, HEADS_LEN, JoinedParts, LentParts, front_lens, has_segments, segmented_parts,
    text_left,
};
use crate::settings::{leading_bytes, reading_operator};
use crate::standing::Standing;
use std::alloc::{AllocError, Global};
use std::io::{self, Write};
use std::marker::Model;
use t1_code::{Counted, Outlet};
use t1_parts::tail_of;

/// The source of a font. Contracts see its text.
#[derive(Drop)]
pub struct FontSource {
    front: Vec<u8>,
    lines: Packed,
    known: Known,
}

impl Model for FontSource {
    ghost use Rattle.std.specs.Prelude.{List, ℕ, ◌++◌};

    ghost Value = { List ℕ };

    ghost view = { λ source. source.front.items ++ source.lines };
}

impl FontSource {
    /// Passes on the text.
    fn put<W: Write>(&self, outlet: &mut Outlet<W>) -> io::Result<()>
        ensures { Puts W.contents outlet.old outlet.new self.now result }
    {
        outlet.put(&self.front)?;
        self.lines.put(&self.known, outlet)
    }

    /// Writes the text. It takes no memory.
    pub fn write<W: Write>(&self, out: &mut Counted<W>) -> io::Result<()>
        ensures { Writes W.contents out.old out.new self.now result }
    {
        let mut outlet = Outlet::new(out);
        self.put(&mut outlet)?;
        outlet.send()
    }
}

/// Adds the lines of a tail.
fn add_tail(alloc: Global, text: &mut Packed, tail: &[u8]) -> Result<(), AllocError>
    ensures { OnOk result (text.new ≡ text.old ++ joined (tail_of (lines tail.now))) }
{
    let lines = tail_of(alloc, tail)?;
    add_lines(text, &lines)
}

/// The lines of the private text of an encrypted part, and those of the tail.
fn packed_plain(
    alloc: Global,
    parts: &LentParts,
    coded: &[u8],
    plain: &[u8],
) -> Result<Packed, FontRefusal>
    requires { length plain.now < 2 ^ 63 - 4 }
    ensures { GivesFont
        (λ text. text)
        result
        (plain_onto [] (lent_parts parts.now) coded.now plain.now) }
{
    let lead = leading_bytes(plain)?;
    let settings = Settings {
        operator: reading_operator(plain),
        lead,
    };
    let place = coded_place(parts, coded);
    let mut text = Packed::new(alloc);
    let mut standing = Standing::new(alloc, &settings);
    let rest = push_checked(
        alloc,
        &mut text,
        &mut standing,
        &settings,
        place,
        coded,
        plain,
    )?;
    text.check_sections()?;
    standing.check()?;
    let count = EEXEC_LEAD + (plain.len() - rest.len());
    add_tail(alloc, &mut text, tail_after(parts, coded, count))?;
    Ok(text)
}

/// The same, of the encrypted part alone.
fn packed_source(alloc: Global, parts: &LentParts, coded: &[u8]) -> Result<Packed, FontRefusal>
    ensures { GivesFont
        (λ text. text)
        result
        (source_onto [] (lent_parts parts.now) coded.now) }
{
    let bytes = plain_bytes(alloc, coded)?;
    packed_plain(alloc, parts, coded, past_lead(&bytes))
}

/// The lines of a private text, and how many of its bytes hold them.
fn packed_private(alloc: Global, plain: &[u8]) -> Result<(Packed, usize), FontRefusal>
    ensures value { GivesFont
        (λ found. (found.0, found.1))
        result
        (counted_private plain.now) }
    ensures within { IfOk result (λ found. found.1 ≤ length plain.now) }
{
    let lead = leading_bytes(plain)?;
    let settings = Settings {
        operator: reading_operator(plain),
        lead,
    };
    let mut text = Packed::new(alloc);
    let mut standing = Standing::new(alloc, &settings);
    let rest = push_private(alloc, &mut text, &mut standing, &settings, plain)?;
    text.check_sections()?;
    standing.check()?;
    Ok((text, plain.len() - rest.len()))
}

/// The lines of an encrypted part in binary whose file has segments, and those of the tail. The
/// plain bytes take the place of the encrypted ones.
fn packed_binary(alloc: Global, coded: &mut [u8], tail: &[u8]) -> Result<Packed, FontRefusal>
    ensures { GivesFont
        (λ text. text)
        result
        (segmented_source tail.now (decrypted_private coded.old)) }
{
    decipher_private(coded);
    let (text, _count) = packed_private(alloc, past_lead(coded))?;
    let mut text = text;
    add_tail(alloc, &mut text, tail)?;
    Ok(text)
}

/// The lines of an encrypted part in binary whose file has no segments, and those of what stands
/// after it. The plain bytes take the place of the encrypted ones until the private text is read.
fn packed_flat(alloc: Global, coded: &mut [u8]) -> Result<Packed, FontRefusal>
    ensures { GivesFont (λ text. text) result (flat_source coded.old) }
{
    decipher_private(coded);
    let (text, count) = packed_private(alloc, past_lead(coded))?;
    encipher_private(coded);
    let mut text = text;
    add_tail(alloc, &mut text, past(coded, EEXEC_LEAD + count))?;
    Ok(text)
}

/// The lines of an encrypted part that stands after so many bytes of a file without segments, and
/// those of what stands after it. Of binary bytes it takes no copy.
fn packed_alone(
    alloc: Global,
    clear: &mut [u8],
    len: usize,
    tail: &[u8],
) -> Result<Packed, FontRefusal>
    requires { len ≤ length clear.now }
    ensures { GivesFont
        (λ text. text)
        result
        (source_onto []
        (record { clear = clear.old; coded = []; tail = tail.now })
        (past_spaces (drop len clear.old))) }
{
    let place = len + space_len(past(clear, len));
    let coded = past(clear, place);
    if is_hexadecimal(coded) {
        let parts = LentParts {
            clear,
            coded: coded.split_at(0).0,
            tail,
        };
        return packed_source(alloc, &parts, coded);
    }
    packed_flat(alloc, clear.split_at_mut(place).1)
}

/// The lines of an encrypted part of a file with segments, which begins after blanks, and those of
/// the tail. Of binary bytes it takes no copy.
fn packed_behind(alloc: Global, parts: &LentParts, bytes: &mut [u8]) -> Result<Packed, FontRefusal>
    requires { 0 < length parts.now.coded.now }
    ensures { GivesFont
        (λ text. text)
        result
        (source_onto [] (lent_parts parts.now) (past_spaces bytes.old)) }
{
    let coded = past_spaces(bytes);
    if is_hexadecimal(coded) {
        return packed_source(alloc, parts, coded);
    }
    let place = space_len(bytes);
    packed_binary(alloc, bytes.split_at_mut(place).1, parts.tail)
}

/// The lines of an encrypted part whose beginning stands after the eexec line, and those of the
/// tail.
fn packed_joined(
    alloc: Global,
    clear: &[u8],
    after: &[u8],
    coded: &[u8],
    tail: &[u8],
) -> Result<Packed, FontRefusal>
    requires { 0 < length coded.now }
    ensures { GivesFont
        (λ text. text)
        result
        (source_onto []
        (record { clear = clear.now; coded = coded.now; tail = tail.now })
        (past_spaces (after.now ++ coded.now))) }
{
    let bytes = joined_bytes(alloc, after, coded)?;
    let mut bytes = bytes;
    let parts = LentParts { clear, coded, tail };
    packed_behind(alloc, &parts, &mut bytes)
}

/// The lines of an encrypted part that begins with its own segments, and those of the tail. Of
/// binary bytes it takes no copy.
fn packed_in_segments(
    alloc: Global,
    clear: &[u8],
    coded: &mut [u8],
    tail: &[u8],
) -> Result<Packed, FontRefusal>
    requires { 0 < length coded.now }
    ensures { GivesFont
        (λ text. text)
        result
        (source_onto []
        (record { clear = clear.now; coded = coded.old; tail = tail.now })
        (past_spaces coded.old)) }
{
    let place = space_len(coded);
    let front = past(coded, place);
    if is_hexadecimal(front) {
        let parts = LentParts { clear, coded, tail };
        return packed_source(alloc, &parts, front);
    }
    packed_binary(alloc, coded.split_at_mut(place).1, tail)
}

/// The lines of an encrypted part, which begins after so many bytes of the clear text or with its
/// own segments, and those of the tail.
#[tactic(auto, using(crate::proofs::BinaryLaws::coded_on_line))]
fn packed_coded(
    alloc: Global,
    clear: &mut [u8],
    len: usize,
    coded: &mut [u8],
    tail: &[u8],
) -> Result<Packed, FontRefusal>
    requires { len ≤ length clear.now }
    ensures { GivesFont
        (λ text. text)
        result
        (source_onto []
        (record { clear = clear.old; coded = coded.old; tail = tail.now })
        (past_spaces (drop len clear.old ++ coded.old))) }
{
    if coded.is_empty() {
        return packed_alone(alloc, clear, len, tail);
    }
    let after = past(clear, len);
    if past_spaces(after).is_empty() {
        return packed_in_segments(alloc, clear, coded, tail);
    }
    packed_joined(alloc, clear, after, coded, tail)
}

/// Whether bytes of the encrypted part stand behind the eexec line of a clear text.
fn has_coded(clear: &[u8]) -> bool
    ensures { result ≡ has_coded (after_eexec clear.now) }
{
    match after_eexec(clear) {
        Some(after) => !past_spaces(after).is_empty(),
        None => false,
    }
}

/// How many bytes of a clear text stand before those after its eexec line, or its fault.
pub(crate) fn clear_len(clear: &[u8]) -> Result<usize, FontFault>
    ensures within { IfOk result (λ len. len ≤ length clear.now) }
    ensures found { IfOk result (λ len. after_eexec clear.now ≡ Some (drop len clear.now)) }
    ensures kind { IfOk result (λ len. plain_kind (take len clear.now)
        ≡ Ok (take len clear.now)) }
    ensures fault { IfErr result (λ fault. clear_len clear.now ≡ Err fault) }
{
    let Some(after) = after_eexec(clear) else {
        check_kind(clear)?;
        return Err(FontFault {
            code: FontCode::D1,
            place: FontPlace::Nowhere,
        });
    };
    let len = clear.len() - after.len();
    check_kind(clear.split_at(len).0)?;
    Ok(len)
}

/// The source of the parts of a file, of which the clear text is known to have so many bytes before
/// those after its eexec line. Of the clear text and the encrypted part nothing is known
/// afterwards.
fn source_behind(
    alloc: Global,
    clear: &mut [u8],
    len: usize,
    coded: &mut [u8],
    tail: &[u8],
) -> Result<FontSource, FontRefusal>
    requires { len ≤ length clear.now }
    ensures { GivesFont
        (λ text. text)
        result
        (source_onto
        (joined (lines (take len clear.old)))
        (record { clear = clear.old; coded = coded.old; tail = tail.now })
        (past_spaces (drop len clear.old ++ coded.old))) }
{
    let mut front = Vec::new(alloc);
    push_lines_of(&mut front, clear.split_at(len).0)?;
    let lines = packed_coded(alloc, clear, len, coded, tail)?;
    let known = Known::new(alloc)?;
    Ok(FontSource {
        front,
        lines,
        known,
    })
}

/// The source of the parts of a file. Of the clear text and the encrypted part nothing is known
/// afterwards.
#[tactic(auto, using(crate::proofs::ClearLaws::clear_fails, crate::proofs::ClearLaws::behind_clear))]
fn source_of_parts(
    alloc: Global,
    clear: &mut [u8],
    coded: &mut [u8],
    tail: &[u8],
) -> Result<FontSource, FontRefusal>
    ensures { GivesFont
        (λ text. text)
        result
        (source_of (record { clear = clear.old; coded = coded.old; tail = tail.now })
        (after_eexec clear.old)) }
{
    let len = clear_len(clear)?;
    source_behind(alloc, clear, len, coded, tail)
}

/// How many bytes of the clear text and the encrypted part stand before the first that is neither a
/// digit nor a blank, where the encrypted part begins after so many of them.
#[tactic(auto, using(crate::proofs::CutPlaces::digits_before, crate::proofs::CutPlaces::digits_past))]
fn digits_end(clear: &[u8], len: usize, coded: &[u8]) -> usize
    requires { len ≤ length clear.now }
    ensures { result ≡ len + digits_len (drop len clear.now ++ coded.now) }
{
    let after = past(clear, len);
    let digits = digits_len(after);
    if digits < after.len() {
        return len + digits;
    }
    clear.len() + digits_len(coded)
}

/// The encrypted part of a file with segments in one piece, of which a beginning may stand after so
/// many bytes of the clear text. The memory of the segments is given back.
fn whole_coded(
    alloc: Global,
    clear: &[u8],
    len: usize,
    coded: Vec<u8>,
) -> Result<Vec<u8>, AllocError>
    ensures { IfOk result (λ whole. whole.items ≡ drop len clear.now ++ coded.items) }
{
    let after = past(clear, len);
    if after.is_empty() {
        return Ok(coded);
    }
    joined_bytes(alloc, after, &coded)
}

/// The source of the parts of a file with segments, of which the clear text is known to have so
/// many bytes before those after its eexec line. The encrypted part is in memory once.
fn source_of_joined(
    alloc: Global,
    clear: Vec<u8>,
    len: usize,
    coded: Vec<u8>,
    tail: &[u8],
) -> Result<FontSource, FontRefusal>
    requires { len ≤ length clear.items }
    ensures { GivesFont
        (λ text. text)
        result
        (source_onto
        (joined (lines (take len clear.items)))
        (record { clear = clear.items; coded = coded.items; tail = tail.now })
        (past_spaces (drop len clear.items ++ coded.items))) }
{
    let mut clear = clear;
    if coded.as_slice().is_empty() {
        let mut none = coded;
        return source_behind(alloc, &mut clear, len, &mut none, tail);
    }
    let whole = whole_coded(alloc, &clear, len, coded)?;
    let mut whole = whole;
    source_behind(alloc, clear.split_at_mut(len).0, len, &mut whole, tail)
}

/// The source of a file with segments, whose memory is given back when they are joined.
#[tactic(auto, unfolding(crate::specs::Disassembly::disassembled, crate::specs::SegmentsRead::font_parts))]
fn source_of_segments(alloc: Global, file: Vec<u8>) -> Result<FontSource, FontRefusal>
    requires { begins_with marker file.items ≡ true }
    ensures { GivesFont (λ text. text) result (disassembled file.items) }
{
    let JoinedParts { clear, coded, tail } = segmented_parts(alloc, &file)?;
    let len = match clear_len(&clear) {
        Ok(len) => len,
        Err(fault) => {
            let refusal = FontRefusal::Fault(fault);
            return Err(fault_moved(byte_place(&file, fault_byte(&refusal)), refusal));
        }
    };
    // the only byte at which the encrypted part may have a fault
    let place = byte_place(&file, digits_end(&clear, len, &coded) as u64);
    drop(file);
    match source_of_joined(alloc, clear, len, coded, &tail) {
        Ok(source) => Ok(source),
        Err(refusal) => Err(fault_moved(place, refusal)),
    }
}

/// The source of a font's file, of whatever segments.
#[tactic(auto, unfolding(crate::specs::Disassembly::disassembled, crate::specs::SegmentsRead::font_parts))]
fn source_of_file(alloc: Global, file: Vec<u8>) -> Result<FontSource, FontRefusal>
    ensures { GivesFont (λ text. text) result (disassembled file.items) }
{
    if has_segments(&file) {
        return source_of_segments(alloc, file);
    }
    let mut file = file;
    let mut none = Vec::new(alloc);
    source_of_parts(alloc, &mut file, &mut none, b"")
}

/// The source of a font's file, as `disassemble` gives it, in less memory than its text has: about
/// that of the file, which is given back. Of the encrypted part it takes no copy where it is binary
/// and begins with its own segments, or the file has none; where it begins in a segment of text,
/// the file is given back before it is copied.
#[tactic(auto, unfolding(crate::specs::Disassembly::disassembled, crate::specs::SegmentsRead::font_parts))]
pub fn read_font(alloc: Global, file: Vec<u8>) -> Result<FontSource, FontRefusal>
    ensures { GivesFont (λ text. text) result (disassembled file.items) }
{
    let mut file = file;
    let Some((text_len, binary_len)) = front_lens(&file) else {
        return source_of_file(alloc, file);
    };
    let behind = file.split_at(HEADS_LEN + text_len + binary_len).1;
    if has_coded(past(file.split_at(HEAD_LEN + text_len).0, HEAD_LEN)) {
        return source_of_file(alloc, file);
    }
    let Some(tail) = text_left(alloc, file.len(), behind)? else {
        return source_of_file(alloc, file);
    };
    let (front, back) = file.split_at_mut(HEADS_LEN + text_len);
    let clear = front.split_at_mut(HEAD_LEN).1.split_at_mut(text_len).0;
    match source_of_parts(alloc, clear, back.split_at_mut(binary_len).0, &tail) {
        Ok(source) => Ok(source),
        Err(refusal) => {
            let place = front_place(text_len, binary_len, fault_byte(&refusal));
            Err(fault_moved(place, refusal))
        }
    }
}
