//! The private text of a font, read into the lines of a source.
ghost use Rattle.std.specs.Prelude.{◌≡◌, ◌<◌, ◌≤◌, ◌+◌, ◌^◌, ◌&&◌, is_none, ℕ, suc, ◌++◌, ◌∷◌, []};
ghost use Rattle.std.specs.Prelude.{true, false, length, take, drop, IfOk, IfSome, OnOk};
ghost use Rattle.t1_frac.specs.Ascii.{line_feed};
ghost use Rattle.t1_text.specs.Lines.{after_end};
ghost use Rattle.t1_text.specs.Tokens.{places_from};
ghost use Rattle.t1_parts.specs.Parts.{is_closefile};
ghost use Rattle.t1_parts.specs.Printing.{last_line};
ghost use Rattle.t1_disassemble.specs.declared.fault.FontPlace.TheVariants.{Entry};
ghost use Rattle.t1_disassemble.specs.Front.{line_len};
ghost use Rattle.t1_disassemble.specs.Layouts.{are_one, one_line};
ghost use Rattle.t1_disassemble.specs.Opened.{opening_of};
ghost use Rattle.t1_disassemble.specs.Opening.{first_opening};
ghost use Rattle.t1_disassemble.specs.Outcome.{GivesFont, font_reported_at};
ghost use Rattle.t1_disassemble.specs.PieceLeft.{piece_of};
ghost use Rattle.t1_disassemble.specs.Placed.{IsPlaced};
ghost use Rattle.t1_disassemble.specs.PiecesOnto.{line_onto, entry_left, entry_onto, read_onto};
ghost use Rattle.t1_disassemble.specs.PiecesOnto.{private_onto};
ghost use Rattle.t1_disassemble.specs.PrivateText.{plain_text, front_text, head_line};
ghost use Rattle.t1_disassemble.specs.PrivateText.{source_line, cut_len, line_text};
ghost use Rattle.t1_disassemble.specs.Standing.{text_judged, judged};
ghost use Rattle.t1_disassemble.specs.Stood.{standing_of, judged_after};
ghost use Rattle.t1_disassemble.specs.Words.{words_of_encrypted};
ghost use Rattle.t1_disassemble.specs.WordsOnto.{words_onto};

use crate::fault::{FontCode, FontFault, FontPlace, FontRefusal};
use crate::front::{line_len, line_len_after, past};
use crate::heads::{head_over, put_head_line};
use crate::kinds::has_slash;
use crate::known::Known;
use crate::layouts::{are_one, is_closefile};
use crate::lines::Lines;
use crate::opening::{Opening, first_opening};
use crate::settings::{before_section, is_section, says_settings};
use crate::standing::Standing;
use std::alloc::{AllocError, Global};
use t1_frac::Bytes;
use t1_text::trimmed;

/// Adds the last line of an entry.
fn push_last_line<T: Lines>(text: &mut T, closing: &[u8]) -> Result<(), AllocError>
    ensures { OnOk result (T.text text.new
        ≡ T.text text.old ++ last_line closing.now ++ line_feed ∷ []) }
{
    if closing.is_empty() {
        return text.add_line(b"\t}", b"", b"");
    }
    text.add_line(b"\t} ", closing, b"")
}

/// Adds a line as it stands, or the closing text of an entry that waits for it.
fn push_plain<T: Lines>(text: &mut T, waits: bool, line: &[u8]) -> Result<(), AllocError>
    ensures { OnOk result (T.text text.new ≡ T.text text.old ++ plain_text waits line.now) }
{
    if waits {
        return push_last_line(text, trimmed(line));
    }
    text.add_line(line, b"", b"")
}

/// How many bytes of a section line are cut off, where they are a closing text, or say something of
/// the reading operator or of lenIV.
#[tactic(auto, using(crate::proofs::HeadLaws::no_section))]
pub(crate) fn cut_len(waits: bool, line: &[u8]) -> Option<usize>
    requires { length line.now < 2 ^ 63 }
    ensures value { result ≡ cut_len waits line.now }
    ensures within { IfSome result (λ len. len ≤ length line.now) }
{
    if !has_slash(line) || !is_section(line) {
        return None;
    }
    let front = before_section(line);
    if waits || says_settings(front) {
        return Some(front.len());
    }
    None
}

/// Adds a line, or the closing text of an entry that waits for it, with what stands before a
/// section's name cut off where that has to be.
fn push_text<T: Lines>(text: &mut T, waits: bool, line: &[u8]) -> Result<(), AllocError>
    requires { length line.now < 2 ^ 63 }
    ensures { OnOk result (T.text text.new ≡ T.text text.old ++ line_text waits line.now) }
{
    let Some(len) = cut_len(waits, line) else {
        return push_plain(text, waits, line);
    };
    let (front, section) = line.split_at(len);
    push_plain(text, waits, front)?;
    push_plain(text, false, section)
}

/// Adds what stands on a line before an entry.
fn push_front<T: Lines>(text: &mut T, waits: bool, front: &[u8]) -> Result<(), AllocError>
    requires { length front.now < 2 ^ 63 }
    ensures { OnOk result (T.text text.new ≡ T.text text.old ++ front_text waits front.now) }
{
    if !waits && trimmed(front).is_empty() {
        return Ok(());
    }
    push_text(text, waits, front)
}

/// What an entry is called: `dup` and its number, or its name.
fn push_name(text: &mut Vec<u8>, opening: &Opening) -> Result<(), AllocError>
    ensures { OnOk result (text.new.items ≡ text.old.items ++ (opening_of opening.now).name) }
{
    if opening.is_subr {
        text.extend_from_slice(b"dup ")?;
    }
    text.extend_from_slice(opening.name)?;
    Ok(())
}

/// Adds the first line of an entry.
fn push_head<T: Lines>(text: &mut T, opening: &Opening) -> Result<(), AllocError>
    ensures { OnOk result (T.text text.new
        ≡ T.text text.old ++ head_line (opening_of opening.now).name) }
{
    if opening.is_subr {
        return text.add_line(b"dup ", opening.name, b" {");
    }
    text.add_line(b"", opening.name, b" {")
}

/// The place of an entry.
fn entry_place(alloc: Global, opening: &Opening) -> Result<FontPlace, AllocError>
    ensures { IfOk result (λ place. place ≡ Entry (opening_of opening.now).name) }
{
    let mut name = Vec::new(alloc);
    push_name(&mut name, opening)?;
    Ok(FontPlace::Entry(Bytes::new(name)))
}

/// The same refusal, its fault at an entry.
fn at_entry(alloc: Global, opening: &Opening, refusal: FontRefusal) -> FontRefusal
    ensures { IsPlaced (Entry (opening_of opening.now).name) refusal result }
{
    match refusal {
        FontRefusal::Memory => FontRefusal::Memory,
        FontRefusal::Fault(fault) => match entry_place(alloc, opening) {
            Ok(place) => FontRefusal::Fault(FontFault {
                code: fault.code,
                place,
            }),
            Err(_error) => FontRefusal::Memory,
        },
    }
}

/// Adds the words of an entry's charstring.
fn push_charstring<T: Lines>(
    alloc: Global,
    known: &Known,
    text: &mut T,
    buffer: &mut Vec<u8>,
    lead: u8,
    opening: &Opening,
    bytes: &[u8],
) -> Result<(), FontRefusal>
    ensures { GivesFont
        (λ _. T.text text.new)
        result
        (font_reported_at (Entry (opening_of opening.now).name) (words_onto (T.text text.old) false
        (words_of_encrypted lead bytes.now))) }
{
    match text.add_words(known, buffer, lead, bytes) {
        Ok(()) => Ok(()),
        Err(refusal) => Err(at_entry(alloc, opening, refusal)),
    }
}

/// A piece of the private text that is read: what is left after it, how many bytes stand there
/// before the first line end, whether an entry waits for its closing text, and whether it was the
/// last piece.
#[derive(Clone, Copy, Debug)]
pub(crate) struct EntryRead<'a> {
    pub(crate) rest: &'a [u8],
    pub(crate) end: usize,
    pub(crate) waits: bool,
    pub(crate) is_last: bool,
}

/// The first so many bytes, or all.
pub(crate) fn up_to(bytes: &[u8], count: usize) -> &[u8]
    ensures { result.now ≡ take count bytes.now }
{
    bytes.split_at(count.min(bytes.len())).0
}

/// The bytes after a line end, of which CR LF is one.
pub(crate) fn after_end(bytes: &[u8]) -> &[u8]
    ensures { result.now ≡ after_end bytes.now }
{
    match bytes {
        [b'\r', b'\n', rest @ ..] | [_, rest @ ..] => rest,
        [] => bytes,
    }
}

/// Adds an entry, whose charstring stands at the front of some bytes, and answers what stands after
/// it.
fn push_entry<'a, T: Lines>(
    alloc: Global,
    known: &Known,
    text: &mut T,
    buffer: &mut Vec<u8>,
    lead: u8,
    opening: &Opening,
    bytes: &'a [u8],
) -> Result<&'a [u8], FontRefusal>
    ensures { GivesFont
        (λ rest. entry_left (T.text text.new) rest.now)
        result
        (entry_onto lead (T.text text.old) (opening_of opening.now) bytes.now) }
{
    if bytes.len() < opening.count {
        return Err(FontRefusal::from(FontFault {
            code: FontCode::D5,
            place: entry_place(alloc, opening)?,
        }));
    }
    let (charstring, rest) = bytes.split_at(opening.count);
    push_head(text, opening)?;
    push_charstring(alloc, known, text, buffer, lead, opening, charstring)?;
    Ok(rest)
}

/// How many bytes stand in front of each charstring, and the operator that reads them.
#[derive(Clone, Copy, Debug)]
pub(crate) struct Settings<'a> {
    pub(crate) operator: &'a [u8],
    pub(crate) lead: u8,
}

/// Whether a line and the next, on which no entry opens, are one in the source, which the buffer
/// holds then.
fn goes_on(
    buffer: &mut Vec<u8>,
    operator: &[u8],
    line: &[u8],
    next: &[u8],
) -> Result<bool, AllocError>
    ensures value { IfOk result
        (λ one. one ≡ (are_one line.now next.now
        && is_none (first_opening operator.now (places_from 0 next.now)))) }
    ensures joined { IfOk result
        (λ one. one ≡ true → buffer.new.items ≡ one_line line.now next.now) }
{
    let one = are_one(buffer, line, next)?;
    Ok(one && first_opening(operator, next).is_none())
}

/// Adds a line that was put together, in front of the rest.
fn push_joined<'a, T: Lines>(
    text: &mut T,
    standing: &mut Standing,
    settings: &Settings,
    waits: bool,
    line: &[u8],
    rest: &'a [u8],
) -> Result<EntryRead<'a>, AllocError>
    requires { length line.now < 2 ^ 63 }
    ensures value { IfOk
        result
        (λ piece. piece_of (T.text text.new) piece
        ≡ record {
          text = T.text text.old ++ line_text waits line.now;
          waits = false;
          rest = rest.now;
          is_last = is_closefile line.now;
        }) }
    ensures end { IfOk result (λ piece. piece.end ≡ line_len piece.rest.now) }
    ensures standing { OnOk result (standing_of standing.new
        ≡ text_judged settings.now.operator.now settings.now.lead waits (standing_of standing.old)
        line.now) }
{
    push_text(text, waits, line)?;
    standing.judge_text(settings, waits, line)?;
    Ok(EntryRead {
        rest,
        end: line_len(rest),
        waits: false,
        is_last: is_closefile(line),
    })
}

/// Adds the line that stands at the front, or the section line of a head that begins there, or both
/// lines that close the encrypted part, and answers what is left.
#[tactic(auto, using(t1_text::proofs::CutLaws::line_gone, t1_text::proofs::CutLaws::after_within))]
fn push_whole_line<'a, T: Lines>(
    text: &mut T,
    standing: &mut Standing,
    buffer: &mut Vec<u8>,
    settings: &Settings,
    waits: bool,
    end: usize,
    bytes: &'a [u8],
) -> Result<EntryRead<'a>, AllocError>
    requires end { end ≡ line_len bytes.now }
    requires within { end ≤ length bytes.now }
    requires some { 0 < length bytes.now }
    ensures value { IfOk
        result
        (λ piece. piece_of (T.text text.new) piece
        ≡ line_onto settings.now.operator.now (T.text text.old) waits bytes.now) }
    ensures shorter { IfOk result (λ piece. length piece.rest.now < length bytes.now) }
    ensures end { IfOk result (λ piece. piece.end ≡ line_len piece.rest.now) }
    ensures standing { OnOk result (standing_of standing.new
        ≡ text_judged settings.now.operator.now settings.now.lead waits (standing_of standing.old)
        (source_line settings.now.operator.now bytes.now)) }
{
    let (line, ended) = bytes.split_at(end);
    let rest = after_end(ended);
    let next_end = line_len(rest);
    let (next, next_ended) = rest.split_at(next_end);
    if goes_on(buffer, settings.operator, line, next)? {
        return push_joined(
            text,
            standing,
            settings,
            waits,
            buffer,
            after_end(next_ended),
        );
    }
    if let Some(head) = head_over(end, bytes) {
        let rest = put_head_line(buffer, settings.operator, bytes, &head)?;
        let piece = push_joined(text, standing, settings, waits, buffer, rest)?;
        return Ok(piece);
    }
    push_text(text, waits, line)?;
    standing.judge_text(settings, waits, line)?;
    Ok(EntryRead {
        rest,
        end: next_end,
        waits: false,
        is_last: is_closefile(line),
    })
}

/// Adds the next piece of the private text: a line through the entry that opens on it, or whole.
#[tactic(auto, unfolding(crate::specs::PiecesOnto::read_onto), using(crate::proofs::Pieces::shorter_after, crate::proofs::Pieces::dropped_twice))]
fn push_piece<'a, T: Lines>(
    alloc: Global,
    known: &Known,
    text: &mut T,
    standing: &mut Standing,
    buffer: &mut Vec<u8>,
    settings: &Settings,
    waits: bool,
    end: usize,
    bytes: &'a [u8],
) -> Result<EntryRead<'a>, FontRefusal>
    requires { end ≡ line_len bytes.now }
    ensures value { GivesFont
        (λ piece. piece_of (T.text text.new) piece)
        result
        (read_onto settings.now.operator.now settings.now.lead (T.text text.old) waits
        bytes.now) }
    ensures end { IfOk result (λ piece. piece.end ≡ line_len piece.rest.now) }
    ensures shorter { IfOk result (λ piece. length piece.rest.now < length bytes.now) }
    ensures standing { IfOk result
        (λ piece. judged_after settings.now.operator.now settings.now.lead piece
        (standing_of standing.new)
        ≡ judged settings.now.operator.now settings.now.lead bytes.now waits
        (standing_of standing.old)) }
{
    if bytes.is_empty() {
        return Err(FontRefusal::from(FontCode::D4));
    }
    let Some(opening) = first_opening(settings.operator, up_to(bytes, end)) else {
        let piece = push_whole_line(text, standing, buffer, settings, waits, end, bytes)?;
        return Ok(piece);
    };
    let front = up_to(bytes, opening.at);
    push_front(text, waits, front)?;
    standing.judge_entry(settings, waits, front, &opening)?;
    let data = past(bytes, opening.end + 1);
    let rest = push_entry(alloc, known, text, buffer, settings.lead, &opening, data)?;
    Ok(EntryRead {
        rest,
        end: line_len_after(end, bytes.len() - rest.len(), bytes),
        waits: true,
        is_last: false,
    })
}

/// Adds the lines of the private text, through the one that closes the encrypted part, and answers
/// the bytes after it. At a fault and where memory runs out some of the lines may stand there.
#[tactic(auto, using(crate::proofs::Pieces::private_more))]
pub(crate) fn push_private<'a, T: Lines>(
    alloc: Global,
    text: &mut T,
    standing: &mut Standing,
    settings: &Settings,
    bytes: &'a [u8],
) -> Result<&'a [u8], FontRefusal>
    ensures value { GivesFont
        (λ rest. (T.text text.new, rest.now))
        result
        (private_onto settings.now.operator.now settings.now.lead (T.text text.old) false
        bytes.now) }
    ensures within { IfOk result (λ rest. length rest.now ≤ length bytes.now) }
    ensures standing { OnOk result (standing_of standing.new
        ≡ judged settings.now.operator.now settings.now.lead bytes.now false
        (standing_of standing.old)) }
{
    let known = Known::new(alloc)?;
    text.make_room(bytes.len())?;
    let mut buffer = Vec::new(alloc);
    let mut waits = false;
    let mut end = line_len(bytes);
    let mut rest = bytes;
    loop {
        let piece = push_piece(
            alloc,
            &known,
            text,
            standing,
            &mut buffer,
            settings,
            waits,
            end,
            rest,
        )?;
        rest = piece.rest;
        if piece.is_last {
            return Ok(rest);
        }
        waits = piece.waits;
        end = piece.end;
    }
}
