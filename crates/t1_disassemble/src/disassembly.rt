//! The source of a font's file.
ghost use Rattle.std.specs.Prelude.{◌≡◌, ◌+◌, ◌-◌, ◌<◌, ◌≤◌, ◌^◌, [], ◌++◌, true, false, drop};
ghost use Rattle.std.specs.Prelude.{length, IfOk, OnOk, List, ℕ};
ghost use Rattle.t1_text.specs.Lines.{begins_with, lines, joined};
ghost use Rattle.t1_code.specs.Pfb.{marker};
ghost use Rattle.t1_parts.specs.Parts.{tail_of};
ghost use Rattle.t1_disassemble.specs.CutDigits.{is_early, is_cut, with_digits};
ghost use Rattle.t1_disassemble.specs.CutWords.{digits_refusal};
ghost use Rattle.t1_disassemble.specs.Decipher.{deciphered, decrypted_private};
ghost use Rattle.t1_disassemble.specs.Digits.{is_hexadecimal};
ghost use Rattle.t1_disassemble.specs.Disassembly.{coded_bytes, coded_place, after_coded};
ghost use Rattle.t1_disassemble.specs.Disassembly.{tail_after, source_of, disassembled};
ghost use Rattle.t1_disassemble.specs.Front.{after_eexec, past_spaces};
ghost use Rattle.t1_disassemble.specs.Lent.{lent_parts};
ghost use Rattle.t1_disassemble.specs.Outcome.{GivesFont};
ghost use Rattle.t1_disassemble.specs.PiecesOnto.{private_onto};
ghost use Rattle.t1_disassemble.specs.Standing.{judged};
ghost use Rattle.t1_disassemble.specs.Stood.{standing_of};
ghost use Rattle.t1_disassemble.specs.SourceOnto.{plain_onto, source_onto, binary_onto};
ghost use Rattle.t1_disassemble.specs.SourceOnto.{counted_onto, flat_onto};

use crate::cipher::{decipher_private, encipher_private};
use crate::coded_text::CodedText;
use crate::digits::{after_digits, digits_len, is_hexadecimal, push_bytes};
use crate::fault::{FontCode, FontFault, FontPlace, FontRefusal};
use crate::front::{after_eexec, is_space, past, past_line, past_spaces, space_len};
use crate::kinds::{check_kind, check_sections};
use crate::lines::{Lines, add_lines};
use crate::packing::clear_len;
use crate::places::{byte_place, fault_byte, fault_moved, front_place};
use crate::private::{Settings, push_private};
use crate::segments::{
    HEAD_LEN, HEADS_LEN, JoinedParts, LentParts, front_lens, has_segments, segmented_parts,
    text_left,
};
use crate::settings::{leading_bytes, reading_operator};
use crate::standing::Standing;
use std::alloc::{AllocError, Global};
use t1_parts::{push_line, tail_of};
use t1_text::first_line;

/// How many bytes a tail mostly has at most: 512 zeros in lines, and a few words.
const TAIL: usize = 2_048;

/// How many bytes stand in front of the private text.
pub(crate) const EEXEC_LEAD: usize = 4;

/// Adds the lines of a text to another.
pub(crate) fn push_lines_of(text: &mut Vec<u8>, bytes: &[u8]) -> Result<(), AllocError>
    ensures { OnOk result (text.new.items ≡ text.old.items ++ joined (lines bytes.now)) }
{
    let mut rest = bytes;
    while !rest.is_empty() {
        let (line, after) = first_line(rest);
        push_line(text, line)?;
        rest = after;
    }
    Ok(())
}

/// Adds the lines of a tail.
fn push_tail(alloc: Global, text: &mut CodedText, tail: &[u8]) -> Result<(), AllocError>
    ensures { OnOk result (text.new ≡ text.old ++ joined (tail_of (lines tail.now))) }
{
    let lines = tail_of(alloc, tail)?;
    add_lines(text, &lines)
}

/// The encrypted bytes, of their digits where they are in hexadecimal.
fn coded_bytes(alloc: Global, coded: &[u8]) -> Result<Vec<u8>, AllocError>
    ensures { IfOk result (λ bytes. bytes.items ≡ coded_bytes coded.now) }
{
    if is_hexadecimal(coded) {
        let mut bytes = Vec::new(alloc);
        push_bytes(&mut bytes, coded)?;
        return Ok(bytes);
    }
    Vec::from_slice(alloc, coded)
}

/// The plain bytes of an encrypted part, its leading bytes too.
pub(crate) fn plain_bytes(alloc: Global, coded: &[u8]) -> Result<Vec<u8>, AllocError>
    ensures { IfOk result (λ bytes. bytes.items ≡ deciphered 55665 (coded_bytes coded.now)) }
{
    let mut bytes = coded_bytes(alloc, coded)?;
    decipher_private(&mut bytes);
    Ok(bytes)
}

/// What stands after so many encrypted bytes, and after the end of the line where they are digits.
fn after_coded(coded: &[u8], count: usize) -> &[u8]
    requires { count < 2 ^ 63 }
    ensures { result.now ≡ after_coded coded.now count }
{
    if is_hexadecimal(coded) {
        return past_line(after_digits(2 * count, coded));
    }
    coded.split_at(count.min(coded.len())).1
}

/// The text after the encrypted part: that of a file's segments, else what the private text leaves.
pub(crate) fn tail_after<'a>(parts: &LentParts<'a>, coded: &'a [u8], count: usize) -> &'a [u8]
    requires { count < 2 ^ 63 }
    ensures { result.now ≡ tail_after (lent_parts parts.now) coded.now count }
{
    if parts.coded.is_empty() {
        return after_coded(coded, count);
    }
    parts.tail
}

/// Whether a fault is that of a private text which ends too early.
fn is_early(code: FontCode) -> bool
    ensures { result ≡ is_early code }
{
    match code {
        FontCode::D4 | FontCode::D5 => true,
        FontCode::D1 | FontCode::D2 | FontCode::D3 => false,
        FontCode::D6 | FontCode::D7 | FontCode::D8 | FontCode::D9 => false,
        FontCode::D10 | FontCode::D11 | FontCode::D12 | FontCode::D13 => false,
        FontCode::D14 | FontCode::D15 | FontCode::D16 | FontCode::D17 => false,
    }
}

/// Whether another byte stands among the digits of an encrypted part.
fn is_cut(coded: &[u8]) -> bool
    ensures { result ≡ is_cut coded.now }
{
    is_hexadecimal(coded) && digits_len(coded) < coded.len()
}

/// The same refusal, or that of another byte among the digits of the encrypted part, which stands
/// at this place of the file.
fn at_digits(place: usize, coded: &[u8], refusal: FontRefusal) -> FontRefusal
    requires { place + length coded.now < 2 ^ 64 }
    ensures { result ≡ digits_refusal place coded.now refusal }
{
    match refusal {
        FontRefusal::Memory => FontRefusal::Memory,
        FontRefusal::Fault(fault) => {
            if is_early(fault.code) && is_cut(coded) {
                return FontRefusal::Fault(FontFault {
                    code: FontCode::D3,
                    place: FontPlace::Byte((place + digits_len(coded)) as u64),
                });
            }
            FontRefusal::Fault(fault)
        }
    }
}

/// Adds the lines of the private text, and answers the bytes after it; another byte among the
/// digits of the encrypted part is its fault where the private text ends too early.
pub(crate) fn push_checked<'a, T: Lines>(
    alloc: Global,
    text: &mut T,
    standing: &mut Standing,
    settings: &Settings,
    place: usize,
    coded: &[u8],
    plain: &'a [u8],
) -> Result<&'a [u8], FontRefusal>
    requires { place + length coded.now < 2 ^ 64 }
    ensures value { GivesFont
        (λ rest. (T.text text.new, rest.now))
        result
        (with_digits place coded.now
        (private_onto settings.now.operator.now settings.now.lead (T.text text.old) false
        plain.now)) }
    ensures within { IfOk result (λ rest. length rest.now ≤ length plain.now) }
    ensures standing { OnOk result (standing_of standing.new
        ≡ judged settings.now.operator.now settings.now.lead plain.now false
        (standing_of standing.old)) }
{
    match push_private(alloc, text, standing, settings, plain) {
        Ok(rest) => Ok(rest),
        Err(refusal) => Err(at_digits(place, coded, refusal)),
    }
}

/// How many bytes of the clear text and of the encrypted part's segments stand before the encrypted
/// ones.
pub(crate) fn coded_place(parts: &LentParts, coded: &[u8]) -> usize
    ensures value { result ≡ coded_place (lent_parts parts.now) coded.now }
    ensures within { result + length coded.now < 2 ^ 64 }
{
    (parts.clear.len() + parts.coded.len()).saturating_sub(coded.len())
}

/// Adds the lines of the private text of an encrypted part, and those of the tail. At a fault and
/// where memory runs out some of them may stand there.
fn push_plain(
    alloc: Global,
    text: &mut CodedText,
    parts: &LentParts,
    coded: &[u8],
    plain: &[u8],
) -> Result<(), FontRefusal>
    requires { length plain.now < 2 ^ 63 - 4 }
    ensures { GivesFont
        (λ _. text.new)
        result
        (plain_onto text.old (lent_parts parts.now) coded.now plain.now) }
{
    let lead = leading_bytes(plain)?;
    let settings = Settings {
        operator: reading_operator(plain),
        lead,
    };
    let place = coded_place(parts, coded);
    let front = text.as_bytes().len();
    let mut standing = Standing::new(alloc, &settings);
    let rest = push_checked(alloc, text, &mut standing, &settings, place, coded, plain)?;
    check_sections(past(text.as_bytes(), front))?;
    standing.check()?;
    let count = EEXEC_LEAD + (plain.len() - rest.len());
    push_tail(alloc, text, tail_after(parts, coded, count))?;
    Ok(())
}

/// The bytes after the leading ones.
pub(crate) fn past_lead(bytes: &[u8]) -> &[u8]
    ensures { result.now ≡ drop 4 bytes.now }
{
    bytes.split_at(bytes.len().min(EEXEC_LEAD)).1
}

/// The same, of the encrypted part alone.
fn push_source(
    alloc: Global,
    text: &mut CodedText,
    parts: &LentParts,
    coded: &[u8],
) -> Result<(), FontRefusal>
    ensures { GivesFont
        (λ _. text.new)
        result
        (source_onto text.old (lent_parts parts.now) coded.now) }
{
    let bytes = plain_bytes(alloc, coded)?;
    push_plain(alloc, text, parts, coded, past_lead(&bytes))
}

/// Adds the lines of a private text, and answers how many of its bytes hold them.
fn push_counted(alloc: Global, text: &mut CodedText, plain: &[u8]) -> Result<usize, FontRefusal>
    ensures value { GivesFont
        (λ count. (text.new, count))
        result
        (counted_onto text.old plain.now) }
    ensures within { IfOk result (λ count. count ≤ length plain.now) }
{
    let lead = leading_bytes(plain)?;
    let settings = Settings {
        operator: reading_operator(plain),
        lead,
    };
    let front = text.as_bytes().len();
    let mut standing = Standing::new(alloc, &settings);
    let rest = push_private(alloc, text, &mut standing, &settings, plain)?;
    check_sections(past(text.as_bytes(), front))?;
    standing.check()?;
    Ok(plain.len() - rest.len())
}

/// Adds the lines of a private text whose file has segments, and those of the tail.
fn push_segmented(
    alloc: Global,
    text: &mut CodedText,
    plain: &[u8],
    tail: &[u8],
) -> Result<(), FontRefusal>
    ensures { GivesFont
        (λ _. text.new)
        result
        (binary_onto text.old tail.now plain.now) }
{
    let lead = leading_bytes(plain)?;
    let settings = Settings {
        operator: reading_operator(plain),
        lead,
    };
    let front = text.as_bytes().len();
    let mut standing = Standing::new(alloc, &settings);
    push_private(alloc, text, &mut standing, &settings, plain)?;
    check_sections(past(text.as_bytes(), front))?;
    standing.check()?;
    push_tail(alloc, text, tail)?;
    Ok(())
}

/// Adds the lines of an encrypted part in binary whose file has segments, and those of the tail.
/// The plain bytes take the place of the encrypted ones.
fn push_binary(
    alloc: Global,
    text: &mut CodedText,
    coded: &mut [u8],
    tail: &[u8],
) -> Result<(), FontRefusal>
    ensures { GivesFont
        (λ _. text.new)
        result
        (binary_onto text.old tail.now (decrypted_private coded.old)) }
{
    decipher_private(coded);
    push_segmented(alloc, text, past_lead(coded), tail)
}

/// The bytes after the eexec line, and those of the encrypted part.
pub(crate) fn joined_bytes(alloc: Global, after: &[u8], coded: &[u8]) -> Result<Vec<u8>, AllocError>
    ensures { IfOk result (λ bytes. bytes.items ≡ after.now ++ coded.now) }
{
    let mut bytes = Vec::from_slice(alloc, after)?;
    bytes.extend_from_slice(coded)?;
    Ok(bytes)
}

/// Whether bytes begin at once, with none that may stand between eexec and the encrypted bytes.
#[tactic(auto, using(crate::proofs::BinaryLaws::word_front))]
fn begins_at_once(bytes: &[u8]) -> bool
    ensures { result ≡ true → past_spaces bytes.now ≡ bytes.now }
{
    let [first, ..] = bytes else {
        return false;
    };
    !is_space(*first)
}

/// Whether the encrypted part is that of the segments, all of it, in binary.
#[tactic(auto, using(crate::proofs::BinaryLaws::spaces_gone))]
fn is_binary(after: &[u8], coded: &[u8]) -> bool
    ensures place { result ≡ true → past_spaces (after.now ++ coded.now) ≡ coded.now }
    ensures binary { result ≡ true → is_hexadecimal coded.now ≡ false }
{
    past_spaces(after).is_empty() && begins_at_once(coded) && !is_hexadecimal(coded)
}

/// Adds the lines of an encrypted part that begins after the eexec line of a file without segments,
/// and those of the tail.
fn push_on_line(
    alloc: Global,
    text: &mut CodedText,
    clear: &[u8],
    after: &[u8],
    tail: &[u8],
) -> Result<(), FontRefusal>
    ensures { GivesFont
        (λ _. text.new)
        result
        (source_onto text.old
        (record { clear = clear.now; coded = []; tail = tail.now })
        (past_spaces after.now)) }
{
    let parts = LentParts {
        clear,
        coded: after.split_at(0).0,
        tail,
    };
    push_source(alloc, text, &parts, past_spaces(after))
}

/// Adds the lines of an encrypted part whose beginning stands after the eexec line, and those of
/// the tail.
fn push_joined(
    alloc: Global,
    text: &mut CodedText,
    clear: &[u8],
    after: &[u8],
    coded: &[u8],
    tail: &[u8],
) -> Result<(), FontRefusal>
    ensures { GivesFont
        (λ _. text.new)
        result
        (source_onto text.old
        (record { clear = clear.now; coded = coded.now; tail = tail.now })
        (past_spaces (after.now ++ coded.now))) }
{
    let bytes = joined_bytes(alloc, after, coded)?;
    let parts = LentParts { clear, coded, tail };
    push_source(alloc, text, &parts, past_spaces(&bytes))
}

/// Adds the lines of an encrypted part, which begins after the eexec line or with its own segments,
/// and those of the tail. Of binary segments it takes no copy.
#[tactic(auto, using(crate::proofs::BinaryLaws::coded_on_line))]
fn push_coded(
    alloc: Global,
    text: &mut CodedText,
    clear: &[u8],
    after: &[u8],
    coded: &mut [u8],
    tail: &[u8],
) -> Result<(), FontRefusal>
    ensures { GivesFont
        (λ _. text.new)
        result
        (source_onto text.old
        (record { clear = clear.now; coded = coded.old; tail = tail.now })
        (past_spaces (after.now ++ coded.old))) }
{
    if coded.is_empty() {
        return push_on_line(alloc, text, clear, after, tail);
    }
    if is_binary(after, coded) {
        return push_binary(alloc, text, coded, tail);
    }
    push_joined(alloc, text, clear, after, coded, tail)
}

/// The source of the parts of a file. Of the encrypted part nothing is known afterwards.
#[tactic(auto, using(crate::proofs::Sources::source_same))]
fn source_of_parts(
    alloc: Global,
    clear: &[u8],
    coded: &mut [u8],
    tail: &[u8],
) -> Result<CodedText, FontRefusal>
    ensures { GivesFont
        (λ text. text)
        result
        (source_of (record { clear = clear.now; coded = coded.old; tail = tail.now })
        (after_eexec clear.now)) }
{
    let Some(after) = after_eexec(clear) else {
        check_kind(clear)?;
        return Err(FontRefusal::from(FontCode::D1));
    };
    let front = clear.split_at(clear.len() - after.len()).0;
    check_kind(front)?;
    let mut lines = Vec::new(alloc);
    push_lines_of(&mut lines, front)?;
    let mut text = CodedText::after(alloc, lines);
    push_coded(alloc, &mut text, clear, after, coded, tail)?;
    Ok(text)
}

/// The source of a file with segments.
#[tactic(auto, unfolding(crate::specs::Disassembly::disassembled, crate::specs::SegmentsRead::font_parts))]
fn source_of_segments(alloc: Global, file: &[u8]) -> Result<CodedText, FontRefusal>
    requires { begins_with marker file.now ≡ true }
    ensures { GivesFont (λ text. text) result (disassembled file.now) }
{
    let JoinedParts { clear, coded, tail } = segmented_parts(alloc, file)?;
    let mut coded = coded;
    match source_of_parts(alloc, &clear, &mut coded, &tail) {
        Ok(text) => Ok(text),
        Err(refusal) => Err(fault_moved(byte_place(file, fault_byte(&refusal)), refusal)),
    }
}

/// The last bytes, as many as a tail mostly has at most, or all.
fn last_bytes(bytes: &[u8]) -> &[u8]
    ensures { result.now ≡ drop (length bytes.now - 2048) bytes.now }
{
    bytes.split_at(bytes.len().saturating_sub(TAIL)).1
}

/// Adds the lines of what stands after so many encrypted bytes, which were made plain in place; of
/// the last ones there is a copy.
fn push_flat_tail(
    alloc: Global,
    text: &mut CodedText,
    coded: &mut [u8],
    last: &[u8],
    count: usize,
) -> Result<(), AllocError>
    requires within { count ≤ length coded.now }
    requires last { (encrypted : List ℕ) → coded.now ≡ deciphered 55665 encrypted
        → last.now ≡ drop (length encrypted - 2048) encrypted }
    ensures { (encrypted : List ℕ) → coded.old ≡ deciphered 55665 encrypted
        → OnOk result (text.new ≡ text.old ++ joined (tail_of (lines (drop count encrypted)))) }
{
    let left = coded.len() - count;
    if left <= last.len() {
        return push_tail(alloc, text, past(last, last.len() - left));
    }
    encipher_private(coded);
    push_tail(alloc, text, past(coded, count))
}

/// Adds the lines of an encrypted part in binary whose file has no segments, and those of what
/// stands after it. The plain bytes take the place of the encrypted ones.
fn push_flat(alloc: Global, text: &mut CodedText, coded: &mut [u8]) -> Result<(), FontRefusal>
    ensures { GivesFont (λ _. text.new) result (flat_onto text.old coded.old) }
{
    let last = Vec::from_slice(alloc, last_bytes(coded))?;
    decipher_private(coded);
    let count = push_counted(alloc, text, past_lead(coded))?;
    push_flat_tail(
        alloc,
        text,
        coded,
        &last,
        (EEXEC_LEAD + count).min(coded.len()),
    )?;
    Ok(())
}

/// Adds the lines of an encrypted part that stands after so many bytes of a file without segments,
/// and those of what stands after it. Of binary bytes it takes no copy.
fn push_alone(
    alloc: Global,
    text: &mut CodedText,
    file: &mut [u8],
    len: usize,
) -> Result<(), FontRefusal>
    requires { len ≤ length file.now }
    ensures { GivesFont
        (λ _. text.new)
        result
        (source_onto text.old
        (record { clear = file.old; coded = []; tail = [] })
        (past_spaces (drop len file.old ++ []))) }
{
    let place = len + space_len(past(file, len));
    let coded = past(file, place);
    if is_hexadecimal(coded) {
        let parts = LentParts {
            clear: file,
            coded: b"",
            tail: b"",
        };
        return push_source(alloc, text, &parts, coded);
    }
    push_flat(alloc, text, file.split_at_mut(place).1)
}

/// The source of a file without segments. Of the file nothing is known afterwards.
#[tactic(auto, using(crate::proofs::ClearLaws::clear_fails, crate::proofs::ClearLaws::behind_clear))]
fn source_of_flat(alloc: Global, file: &mut [u8]) -> Result<CodedText, FontRefusal>
    ensures { GivesFont
        (λ text. text)
        result
        (source_of (record { clear = file.old; coded = []; tail = [] }) (after_eexec file.old)) }
{
    let len = clear_len(file)?;
    let mut lines = Vec::new(alloc);
    push_lines_of(&mut lines, file.split_at(len).0)?;
    let mut text = CodedText::after(alloc, lines);
    match push_alone(alloc, &mut text, file, len) {
        Ok(()) => Ok(text),
        Err(refusal) => Err(refusal),
    }
}

/// The source of a font's file, with the bytes of its charstrings.
#[tactic(auto, unfolding(crate::specs::Disassembly::disassembled, crate::specs::SegmentsRead::font_parts))]
fn coded_source(alloc: Global, file: &[u8]) -> Result<CodedText, FontRefusal>
    ensures { GivesFont (λ text. text) result (disassembled file.now) }
{
    if has_segments(file) {
        return source_of_segments(alloc, file);
    }
    let mut none = Vec::new(alloc);
    source_of_parts(alloc, file, &mut none, file.split_at(0).0)
}

/// The source of a font's file, in the form that `assemble` reads: of a PFB file, whatever its
/// segments, of a PFA file, or of the bytes of a font without segments. Beside the file and its
/// source it takes at most twice the memory of the file where the encrypted part is in binary.
pub fn disassemble(alloc: Global, file: &[u8]) -> Result<Vec<u8>, FontRefusal>
    ensures { GivesFont (λ text. text.items) result (disassembled file.now) }
{
    Ok(coded_source(alloc, file)?.into_bytes())
}

/// The same with the bytes of its charstrings, where the file's memory may change: of a binary
/// encrypted part it takes no copy where the file has no segments, or one of it alone. Of the file
/// nothing is known afterwards.
#[tactic(auto, unfolding(crate::specs::Disassembly::disassembled, crate::specs::SegmentsRead::font_parts))]
pub fn disassemble_in_place(alloc: Global, file: &mut [u8]) -> Result<CodedText, FontRefusal>
    ensures { GivesFont (λ text. text) result (disassembled file.old) }
{
    if !has_segments(file) {
        return source_of_flat(alloc, file);
    }
    let Some((text_len, binary_len)) = front_lens(file) else {
        return coded_source(alloc, file);
    };
    let behind = file.split_at(HEADS_LEN + text_len + binary_len).1;
    let Some(tail) = text_left(alloc, file.len(), behind)? else {
        return coded_source(alloc, file);
    };
    let (front, back) = file.split_at_mut(HEADS_LEN + text_len);
    let clear = past(front.split_at(HEAD_LEN + text_len).0, HEAD_LEN);
    match source_of_parts(alloc, clear, back.split_at_mut(binary_len).0, &tail) {
        Ok(text) => Ok(text),
        Err(refusal) => {
            let place = front_place(text_len, binary_len, fault_byte(&refusal));
            Err(fault_moved(place, refusal))
        }
    }
}
