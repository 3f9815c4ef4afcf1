//! The words of charstrings.
ghost use Rattle.std.specs.Prelude.{◌≡◌, [], ◌+◌, ◌++◌, ◌≤◌, length, OnOk, IfOk, IfSome};
ghost use Rattle.std.specs.Prelude.{MatchResult, OnErr, if◌then◌else◌, nat_lt, take};
ghost use Rattle.std.specs.Prelude.{Ok, Err, List, true, false, option_map, nat_eq, ◌∷◌, ℕ};
ghost use Rattle.std.specs.Fmt.{signed_decimal};
ghost use Rattle.std.specs.Map.{lookup};
ghost use Rattle.t1_frac.specs.Numbers.{is_number_word};
ghost use Rattle.t1_disassemble.specs.Outcome.{GivesFont, font_reported_at};
ghost use Rattle.t1_disassemble.specs.Words.{one_byte_words, two_byte_words, escaped_at};
ghost use Rattle.t1_disassemble.specs.Words.{operator_at, positive_at, negative_at, long_at};
ghost use Rattle.t1_disassemble.specs.Words.{number_at, printed_words, words_of};
ghost use Rattle.t1_disassemble.specs.SoundWords.{code_lines};
ghost use Rattle.t1_disassemble.specs.Waiting.{due, left_of};
ghost use Rattle.t1_disassemble.specs.WordsOnto.{put_first, with_word, words_onto};
ghost use Rattle.t1_code.specs.Writing.{Puts};
ghost use Rattle.t1_disassemble.specs.declared.fault.FontPlace.TheVariants.{Nowhere};

use crate::fault::{FontCode, FontRefusal};
use crate::known::Known;
use crate::known_number::put_known_number;
use crate::known_word::known_word;
use crate::waiting::{MOST_OF_A_WORD, ROOM, make_room, put_blank, put_byte, put_bytes, put_number};
use std::alloc::AllocError;
use std::io::{self, Write};
use t1_code::Outlet;

/// The word of a command of one byte.
#[tactic(auto, unfolding(t1_frac::specs::Numbers::is_number_word))]
pub(crate) fn one_byte_word(byte: u8) -> Option<&'static [u8]>
    ensures value { option_map (λ word. word.now) result ≡ lookup (nat_eq byte) one_byte_words }
    ensures operator { IfSome result (λ word. is_number_word word.now ≡ false) }
    ensures short { IfSome result (λ word. length word.now ≤ 15) }
{
    match byte {
        1 => Some(b"hstem"),
        3 => Some(b"vstem"),
        4 => Some(b"vmoveto"),
        5 => Some(b"rlineto"),
        6 => Some(b"hlineto"),
        7 => Some(b"vlineto"),
        8 => Some(b"rrcurveto"),
        9 => Some(b"closepath"),
        10 => Some(b"callsubr"),
        11 => Some(b"return"),
        13 => Some(b"hsbw"),
        14 => Some(b"endchar"),
        21 => Some(b"rmoveto"),
        22 => Some(b"hmoveto"),
        30 => Some(b"vhcurveto"),
        31 => Some(b"hvcurveto"),
        _ => None,
    }
}

/// The word of a command of two bytes, by the second one.
#[tactic(auto, unfolding(t1_frac::specs::Numbers::is_number_word))]
fn two_byte_word(byte: u8) -> Option<&'static [u8]>
    ensures value { option_map (λ word. word.now) result ≡ lookup (nat_eq byte) two_byte_words }
    ensures operator { IfSome result (λ word. is_number_word word.now ≡ false) }
    ensures short { IfSome result (λ word. length word.now ≤ 15) }
{
    match byte {
        0 => Some(b"dotsection"),
        1 => Some(b"vstem3"),
        2 => Some(b"hstem3"),
        6 => Some(b"seac"),
        7 => Some(b"sbw"),
        12 => Some(b"div"),
        16 => Some(b"callothersubr"),
        17 => Some(b"pop"),
        33 => Some(b"setcurrentpoint"),
        _ => None,
    }
}

/// The word of the command after the byte 12, and the bytes after it.
fn escaped(rest: &[u8]) -> Result<(&'static [u8], &[u8]), FontCode>
    ensures value { MatchResult
        result
        (λ found. escaped_at rest.now ≡ Ok (found.0.now, found.1.now))
        (λ code. escaped_at rest.now ≡ Err code) }
    ensures shorter { IfOk result (λ found. length found.1.now ≤ length rest.now) }
    ensures operator { IfOk result (λ found. is_number_word found.0.now ≡ false) }
    ensures short { IfOk result (λ found. length found.0.now ≤ 15) }
{
    let [second, after @ ..] = rest else {
        return Err(FontCode::D7);
    };
    match two_byte_word(*second) {
        Some(word) => Ok((word, after)),
        None => Err(FontCode::D7),
    }
}

/// The word of the command that begins with this byte, and the bytes after it.
fn operator(first: u8, rest: &[u8]) -> Result<(&'static [u8], &[u8]), FontCode>
    ensures value { MatchResult
        result
        (λ found. operator_at first rest.now ≡ Ok (found.0.now, found.1.now))
        (λ code. operator_at first rest.now ≡ Err code) }
    ensures shorter { IfOk result (λ found. length found.1.now ≤ length rest.now) }
    ensures operator { IfOk result (λ found. is_number_word found.0.now ≡ false) }
    ensures short { IfOk result (λ found. length found.0.now ≤ 15) }
{
    if first == 12 {
        return escaped(rest);
    }
    match one_byte_word(first) {
        Some(word) => Ok((word, rest)),
        None => Err(FontCode::D7),
    }
}

/// The number of two bytes, of which the first is from 247 to 250.
fn positive(first: u8, rest: &[u8]) -> Result<(i32, &[u8]), FontCode>
    requires { 247 ≤ first }
    ensures value { MatchResult
        result
        (λ found. positive_at first rest.now ≡ Ok (found.0, found.1.now))
        (λ code. positive_at first rest.now ≡ Err code) }
    ensures shorter { IfOk result (λ found. length found.1.now ≤ length rest.now) }
{
    let [second, after @ ..] = rest else {
        return Err(FontCode::D8);
    };
    Ok((
        i32::from(first - 247) * 256 + i32::from(*second) + 108,
        after,
    ))
}

/// The number of two bytes, of which the first is from 251 to 254.
fn negative(first: u8, rest: &[u8]) -> Result<(i32, &[u8]), FontCode>
    requires { 251 ≤ first }
    ensures value { MatchResult
        result
        (λ found. negative_at first rest.now ≡ Ok (found.0, found.1.now))
        (λ code. negative_at first rest.now ≡ Err code) }
    ensures shorter { IfOk result (λ found. length found.1.now ≤ length rest.now) }
{
    let [second, after @ ..] = rest else {
        return Err(FontCode::D8);
    };
    let size = i32::from(first - 251) * 256 + i32::from(*second) + 108;
    Ok((-size, after))
}

/// The number of the four bytes after 255.
fn long(rest: &[u8]) -> Result<(i32, &[u8]), FontCode>
    ensures value { MatchResult
        result
        (λ found. long_at rest.now ≡ Ok (found.0, found.1.now))
        (λ code. long_at rest.now ≡ Err code) }
    ensures shorter { IfOk result (λ found. length found.1.now ≤ length rest.now) }
{
    let [a, b, c, d, after @ ..] = rest else {
        return Err(FontCode::D8);
    };
    Ok((i32::from_be_bytes([*a, *b, *c, *d]), after))
}

/// The number that begins with this byte, and the bytes after it.
pub(crate) fn number(first: u8, rest: &[u8]) -> Result<(i32, &[u8]), FontCode>
    requires { 32 ≤ first }
    ensures value { MatchResult
        result
        (λ found. number_at first rest.now ≡ Ok (found.0, found.1.now))
        (λ code. number_at first rest.now ≡ Err code) }
    ensures shorter { IfOk result (λ found. length found.1.now ≤ length rest.now) }
{
    if first < 247 {
        return Ok((i32::from(first) - 139, rest));
    }
    if first < 251 {
        return positive(first, rest);
    }
    if first < 255 {
        return negative(first, rest);
    }
    long(rest)
}

/// Puts a word that isn't a number, and the end of its line, after words that wait, and answers how
/// many bytes wait then.
#[inline(always)]
fn put_operator(bytes: &mut [u8; ROOM], len: usize, is_open: bool, word: &[u8]) -> usize
    requires operator { is_number_word word.now ≡ false }
    requires room { len + length word.now + 2 ≤ 256 }
    ensures size { length bytes.new ≡ 256 }
    ensures end { result ≤ 256 }
    ensures front { take result bytes.new ≡ with_word (take len bytes.old) is_open word.now }
{
    let at = put_blank(bytes, len, is_open);
    let end = put_bytes(bytes, at, word);
    put_byte(bytes, end, b'\n')
}

/// Puts a number after words that wait, and answers how many bytes wait then.
#[inline(always)]
#[tactic(auto, using(crate::proofs::Reading::number_is_word))]
fn put_number_word(bytes: &mut [u8; ROOM], len: usize, is_open: bool, number: i32) -> usize
    requires { len + 12 ≤ 256 }
    ensures size { length bytes.new ≡ 256 }
    ensures end { result ≤ 256 }
    ensures front { take result bytes.new
        ≡ with_word (take len bytes.old) is_open (signed_decimal number) }
    ensures number { is_number_word (signed_decimal number) ≡ true }
{
    let at = put_blank(bytes, len, is_open);
    put_number(bytes, at, number)
}

/// Ends a line that is open.
fn end_line(text: &mut Vec<u8>, is_open: bool) -> Result<(), AllocError>
    ensures { OnOk result (text.new.items ≡ text.old.items ++ printed_words is_open []) }
{
    if is_open {
        text.push(b'\n')?;
    }
    Ok(())
}

/// Puts the word that a charstring begins with after words that wait, and answers how many bytes
/// wait then, whether the word's line is still open, and the bytes after the word.
#[inline(always)]
#[tactic(auto, unfolding(crate::specs::Words::word_at))]
fn put_any<'a>(
    bytes: &mut [u8; ROOM],
    len: usize,
    is_open: bool,
    first: u8,
    rest: &'a [u8],
) -> Result<(usize, bool, &'a [u8]), FontCode>
    requires { len + 24 ≤ 256 }
    ensures value { MatchResult
        result
        (λ found. put_first (take len bytes.old) is_open first rest.now
        ≡ Ok (take found.0 bytes.new, found.1, found.2.now))
        (λ code. put_first (take len bytes.old) is_open first rest.now ≡ Err code) }
    ensures within { IfOk result (λ found. found.0 ≤ 256) }
    ensures shorter { IfOk result (λ found. length found.2.now ≤ length rest.now) }
    ensures kept { OnErr result (bytes.new ≡ bytes.old) }
    ensures size { length bytes.new ≡ 256 }
{
    if first < 32 {
        let (word, after) = operator(first, rest)?;
        return Ok((put_operator(bytes, len, is_open, word), false, after));
    }
    let (number, after) = number(first, rest)?;
    Ok((put_number_word(bytes, len, is_open, number), true, after))
}

/// The same. A word that is known by its first byte is put there without a choice that depends on
/// it.
#[inline(always)]
fn put_word<'a>(
    known: &Known,
    bytes: &mut [u8; ROOM],
    len: usize,
    is_open: bool,
    first: u8,
    rest: &'a [u8],
) -> Result<(usize, bool, &'a [u8]), FontCode>
    requires { len + 24 ≤ 256 }
    ensures value { MatchResult
        result
        (λ found. put_first (take len bytes.old) is_open first rest.now
        ≡ Ok (take found.0 bytes.new, found.1, found.2.now))
        (λ code. put_first (take len bytes.old) is_open first rest.now ≡ Err code) }
    ensures within { IfOk result (λ found. found.0 ≤ 256) }
    ensures shorter { IfOk result (λ found. length found.2.now ≤ length rest.now) }
    ensures kept { OnErr result (bytes.new ≡ bytes.old) }
    ensures size { length bytes.new ≡ 256 }
{
    if let Some(word) = known_word(&known.words, first) {
        let (end, opened) = word.put(bytes, len, is_open);
        return Ok((end, opened, rest));
    }
    put_any(bytes, len, is_open, first, rest)
}

/// The same, with what stands before the words in the text.
#[inline(always)]
#[tactic(auto, using(crate::proofs::Reading::behind_ok, crate::proofs::Reading::behind_err))]
fn push_first<'a>(
    known: &Known,
    text: &mut Vec<u8>,
    bytes: &mut [u8; ROOM],
    len: usize,
    is_open: bool,
    first: u8,
    rest: &'a [u8],
) -> Result<(usize, bool, &'a [u8]), FontRefusal>
    requires { len ≤ 256 }
    ensures value { GivesFont
        (λ found. (text.new.items ++ take found.0 bytes.new, found.1, found.2.now))
        result
        (font_reported_at Nowhere
        (put_first (text.old.items ++ take len bytes.old) is_open first rest.now)) }
    ensures within { IfOk result (λ found. found.0 ≤ 256) }
    ensures shorter { IfOk result (λ found. length found.2.now ≤ length rest.now) }
    ensures size { length bytes.new ≡ 256 }
{
    let left = make_room(text, bytes, len)?;
    Ok(put_word(known, bytes, left, is_open, first, rest)?)
}

/// Puts the words that some bytes begin with, as long as each is known by its first byte and there
/// is room for one more, after words that wait. Answers how many bytes wait then, whether the last
/// word's line is still open, and the bytes that are left.
#[inline(always)]
fn put_known<'a>(
    known: &Known,
    bytes: &mut [u8; ROOM],
    len: usize,
    is_open: bool,
    code: &'a [u8],
) -> (usize, bool, &'a [u8])
    requires { len ≤ 256 }
    ensures value { (text : List ℕ)
        → words_onto (text ++ take result.0 bytes.new) result.1 (words_of result.2.now)
        ≡ words_onto (text ++ take len bytes.old) is_open (words_of code.now) }
    ensures within { result.0 ≤ 256 }
    ensures shorter { length result.2.now ≤ length code.now }
    ensures size { length bytes.new ≡ 256 }
{
    if len == ROOM {
        return (len, is_open, code);
    }
    let mut end = len;
    let mut opened = is_open;
    let mut rest = code;
    let _blank = put_blank(bytes, len, is_open);
    while end <= ROOM - MOST_OF_A_WORD {
        let Some((first, after)) = rest.split_first() else {
            return (end, opened, rest);
        };
        if let Some(word) = known_word(&known.words, *first) {
            (end, opened) = word.put_on(bytes, end);
            rest = after;
            continue;
        }
        let Some((put, left)) = put_known_number(&known.numbers, bytes, end, *first, after) else {
            return (end, opened, rest);
        };
        end = put;
        opened = true;
        rest = left;
    }
    (end, opened, rest)
}

/// Adds the lines of a charstring's words. At a fault and where memory runs out some of them may
/// stand there.
#[tactic(auto, using(crate::proofs::Reading::push_more, crate::proofs::Reading::push_none))]
pub(crate) fn push_words(known: &Known, text: &mut Vec<u8>, code: &[u8]) -> Result<(), FontRefusal>
    ensures { GivesFont
        (λ _. text.new.items)
        result
        (font_reported_at Nowhere (words_onto text.old.items false (words_of code.now))) }
{
    let mut bytes = [0; ROOM];
    let mut len = 0;
    let mut is_open = false;
    let mut rest = code;
    while let Some((first, after)) = rest.split_first() {
        let (end, opened, left) = push_first(known, text, &mut bytes, len, is_open, *first, after)?;
        (len, is_open, rest) = put_known(known, &mut bytes, end, opened, left);
    }
    text.extend_from_slice(bytes.split_at(len).0)?;
    end_line(text, is_open)?;
    Ok(())
}

/// Passes on the words that wait where there is no room for one more, and answers how many bytes
/// wait then.
fn put_full<W: Write>(outlet: &mut Outlet<W>, bytes: &[u8; ROOM], len: usize) -> io::Result<usize>
    requires { len ≤ 256 }
    ensures text { Puts W.contents outlet.old outlet.new (due len bytes.now) result }
    ensures left { IfOk result (λ left. left ≡ left_of len) }
{
    if len <= ROOM - MOST_OF_A_WORD {
        return Ok(len);
    }
    outlet.put(bytes.split_at(len).0)?;
    Ok(0)
}

/// Passes on the words that wait, and ends a line that is open.
fn put_last<W: Write>(
    outlet: &mut Outlet<W>,
    bytes: &[u8; ROOM],
    len: usize,
    is_open: bool,
) -> io::Result<()>
    requires { len ≤ 256 }
    ensures { Puts W.contents outlet.old outlet.new
        (take len bytes.now ++ printed_words is_open []) result }
{
    if is_open {
        return outlet.put_slices(&[bytes.split_at(len).0, b"\n"]);
    }
    outlet.put(bytes.split_at(len).0)
}

/// Passes on the lines of the words that some bytes begin with.
pub(crate) fn put_words<W: Write>(
    known: &Known,
    outlet: &mut Outlet<W>,
    code: &[u8],
) -> io::Result<()>
    ensures { Puts W.contents outlet.old outlet.new (code_lines code.now) result }
{
    let mut bytes = [0; ROOM];
    let mut len = 0;
    let mut is_open = false;
    let mut rest = code;
    while let Some((first, after)) = rest.split_first() {
        let left = put_full(outlet, &bytes, len)?;
        let put = put_word(known, &mut bytes, left, is_open, *first, after);
        let Ok((end, opened, others)) = put else {
            return put_last(outlet, &bytes, left, is_open);
        };
        len = end;
        is_open = opened;
        rest = others;
    }
    put_last(outlet, &bytes, len, is_open)
}
