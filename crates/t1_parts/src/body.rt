//! Subrs and glyphs as they stand, and their bodies: words, comments, closing text.

ghost use Rattle.std.specs.Prelude.{◌≡◌, ◌≤◌, ◌+◌, ◌==◌, ◌∷◌, ℕ, List, length, drop, IfOk, IfSome};
ghost use Rattle.std.specs.Prelude.{option_map};
ghost use Rattle.std.specs.List.{after_first, list_any, position_or_len};
ghost use Rattle.t1_frac.specs.Ascii.{open_brace};
ghost use Rattle.t1_text.specs.Lines.{lines};
ghost use Rattle.t1_text.specs.Tokens.{uncommented};
ghost use Rattle.t1_text.specs.Delimiters.{is_brace};
ghost use Rattle.t1_parts.specs.Entries.{has_brace, body_of, opened_body, subr_entry, glyph_entry};
ghost use Rattle.t1_parts.specs.Pieces.{AreLinesAfter, IsPiece};
ghost use Rattle.t1_parts.specs.EntryNames.{glyph_name};
ghost use Rattle.t1_frac.specs.declared.fault.Place.TheVariants as places;
ghost use Rattle.t1_frac.specs.Outcome.{Gives, reported_at};

use crate::gathered::Gathered;
use crate::item::{Item, Taken};
use memchr::{memchr, memchr2};
use std::alloc::{AllocError, Global};
use t1_frac::{Code, OwnedWords, Refusal, SourceText, Words};
use t1_text::{
    cut_line, decimal_up_to, fault_on, first_delimiter, line_ends, name_of_token, trimmed,
};

/// What stands at the front of the bytes of a body.
#[derive(Drop)]
pub enum BodyFront<'a> {
    /// Bytes before a comment, and those after the comment's line.
    Commented(&'a [u8], &'a [u8]),
    /// Bytes before the brace that ends the body, the closing text, and the bytes after its line.
    Closed(&'a [u8], &'a [u8], &'a [u8]),
    /// The body isn't ended.
    Open,
}

/// The piece at the front of the bytes of a body.
pub fn piece_of(bytes: &[u8]) -> BodyFront<'_>
    ensures { IsPiece bytes.now result }
{
    let (front, back) = bytes.split_at(first_delimiter(bytes));
    let Some((delimiter, rest)) = back.split_first() else {
        return BodyFront::Open;
    };
    let (line, after) = cut_line(rest);
    if *delimiter == b'%' {
        return BodyFront::Commented(front, after);
    }
    if *delimiter == b'}' {
        return BodyFront::Closed(front, trimmed(line), after);
    }
    BodyFront::Open
}

/// The words of an entry, its closing text, and how many lines it takes after its first.
#[derive(Drop)]
pub struct EntryBody<'a> {
    pub words: Words<'a>,
    pub closing: SourceText<'a>,
    pub more: usize,
}

/// Where a byte first stands on a line, or the line's length.
fn place_or_len(byte: u8, line: &[u8]) -> usize
    ensures within { result ≤ length line.now }
    ensures value { result ≡ position_or_len (λ c. c == byte) line.now }
{
    memchr(byte, line).unwrap_or(line.len())
}

/// A line without its comment.
pub fn uncommented(line: &[u8]) -> &[u8]
    ensures { result.now ≡ uncommented line.now }
{
    line.split_at(place_or_len(b'%', line)).0
}

/// Whether a line has a brace.
fn has_any_brace(line: &[u8]) -> bool
    ensures { result ≡ list_any is_brace line.now }
{
    memchr2(b'{', b'}', line).is_some()
}

/// Whether a line has a brace outside its comment.
pub fn has_brace(line: &[u8]) -> bool
    ensures { result ≡ has_brace line.now }
{
    has_any_brace(uncommented(line))
}

/// The body at the front of some bytes, of which the first piece has a comment after it, with words
/// in memory of its own.
fn commented_body(alloc: Global, bytes: &[u8]) -> Result<Option<(EntryBody<'_>, &[u8])>, AllocError>
    ensures value { IfOk result (λ found. option_map (λ f. f.0) found ≡ body_of (lines bytes.now)) }
    ensures after { IfOk result
        (λ found. IfSome found (λ f. AreLinesAfter (f.0.more + 1) bytes.now f.1.now)) }
{
    let mut words = OwnedWords::new(alloc);
    let mut more = 0;
    let mut piece = piece_of(bytes);
    while let BodyFront::Commented(front, after) = piece {
        words.push_line(front)?;
        more += line_ends(front) + 1;
        piece = piece_of(after);
    }
    let BodyFront::Closed(front, closing, after) = piece else {
        return Ok(None);
    };
    words.push_line(front)?;
    more += line_ends(front);
    let body = EntryBody {
        words: words.into_words(),
        closing: SourceText::borrowed(closing),
        more,
    };
    Ok(Some((body, after)))
}

/// The body at the front of some bytes, and the bytes after the line on which it ends; nothing
/// where it isn't ended. Its words stay where they stand, unless there is a comment among them.
pub fn body_of(alloc: Global, bytes: &[u8]) -> Result<Option<(EntryBody<'_>, &[u8])>, AllocError>
    ensures value { IfOk result (λ found. option_map (λ f. f.0) found ≡ body_of (lines bytes.now)) }
    ensures after { IfOk result
        (λ found. IfSome found (λ f. AreLinesAfter (f.0.more + 1) bytes.now f.1.now)) }
{
    match piece_of(bytes) {
        BodyFront::Closed(front, closing, after) => {
            let body = EntryBody {
                words: Words::of(front),
                closing: SourceText::borrowed(closing),
                more: line_ends(front),
            };
            Ok(Some((body, after)))
        }
        BodyFront::Commented(_, _) => commented_body(alloc, bytes),
        BodyFront::Open => Ok(None),
    }
}

/// Where the part of a line begins that stands after its first `{`.
#[tactic(auto, using(crate::proofs::OpeningLaws::past_brace, crate::proofs::OpeningLaws::past_line))]
fn opening_end(line: &[u8]) -> usize
    ensures within { result ≤ length line.now }
    ensures value { drop result line.now ≡ after_first (λ c. c == open_brace) line.now }
{
    let start = place_or_len(b'{', line);
    if start < line.len() { start + 1 } else { start }
}

/// The body that opens on the first line of some bytes, and the bytes after the line on which it
/// ends.
#[tactic(auto, using(crate::proofs::OpeningLaws::opened, crate::proofs::OpeningLaws::opened_after))]
pub fn opened_body<'a>(
    alloc: Global,
    line: &[u8],
    bytes: &'a [u8],
) -> Result<Option<(EntryBody<'a>, &'a [u8])>, AllocError>
    requires { length line.now ≤ length bytes.now }
    ensures value { (ls : List (List ℕ))
        → lines bytes.now ≡ line.now ∷ ls
        → IfOk result (λ found. option_map (λ f. f.0) found ≡ opened_body line.now ls) }
    ensures after { (ls : List (List ℕ))
        → lines bytes.now ≡ line.now ∷ ls
        → IfOk result
        (λ found. IfSome found (λ f. AreLinesAfter (f.0.more + 1) bytes.now f.1.now)) }
{
    let text = bytes.split_at(opening_end(line)).1;
    body_of(alloc, text)
}

/// The Subr entry that opens on a line.
#[tactic(auto, unfolding(crate::specs::Entries::subr_entry))]
pub fn subr_entry<'a>(
    alloc: Global,
    earlier: &Gathered,
    number: u64,
    token: &[u8],
    line: &[u8],
    bytes: &'a [u8],
) -> Result<Taken<'a>, Refusal>
    requires { length line.now ≤ length bytes.now }
    ensures value { (ls : List (List ℕ))
        → lines bytes.now ≡ line.now ∷ ls
        → Gives (λ taken. (taken.item, taken.more)) result
        (reported_at (places.Line number)
        (subr_entry earlier.now token.now (opened_body line.now ls))) }
    ensures named { IfOk result
        (λ taken. option_map (λ n. n.now) taken.name ≡ glyph_name taken.item) }
    ensures after { (ls : List (List ℕ))
        → lines bytes.now ≡ line.now ∷ ls
        → IfOk result (λ taken. AreLinesAfter (taken.more + 1) bytes.now taken.after.now) }
{
    let Some(subr) = decimal_up_to(32000, token) else {
        return Err(Refusal::from(fault_on(number, Code::F8)));
    };
    let subr = subr as u16;
    if earlier.has_subr(subr) {
        return Err(Refusal::from(fault_on(number, Code::F9)));
    }
    let Some((body, after)) = opened_body(alloc, line, bytes)? else {
        return Err(Refusal::from(fault_on(number, Code::F7)));
    };
    Ok(Taken {
        item: Item::Subr(subr, body.words, body.closing),
        name: None,
        more: body.more,
        after,
    })
}

/// The glyph entry that opens on a line.
#[tactic(auto, unfolding(crate::specs::Entries::glyph_entry))]
pub fn glyph_entry<'a>(
    alloc: Global,
    earlier: &Gathered,
    number: u64,
    token: &'a [u8],
    line: &[u8],
    bytes: &'a [u8],
) -> Result<Taken<'a>, Refusal>
    requires { length line.now ≤ length bytes.now }
    ensures value { (ls : List (List ℕ))
        → lines bytes.now ≡ line.now ∷ ls
        → Gives (λ taken. (taken.item, taken.more)) result
        (reported_at (places.Line number)
        (glyph_entry earlier.now token.now (opened_body line.now ls))) }
    ensures named { IfOk result
        (λ taken. option_map (λ n. n.now) taken.name ≡ glyph_name taken.item) }
    ensures after { (ls : List (List ℕ))
        → lines bytes.now ≡ line.now ∷ ls
        → IfOk result (λ taken. AreLinesAfter (taken.more + 1) bytes.now taken.after.now) }
{
    let Some(name) = name_of_token(token) else {
        return Err(Refusal::from(fault_on(number, Code::F8)));
    };
    if earlier.has_glyph(name) {
        return Err(Refusal::from(fault_on(number, Code::F10)));
    }
    let Some((body, after)) = opened_body(alloc, line, bytes)? else {
        return Err(Refusal::from(fault_on(number, Code::F7)));
    };
    let glyph = SourceText::borrowed(name);
    Ok(Taken {
        item: Item::Glyph(glyph, body.words, body.closing),
        name: Some(name),
        more: body.more,
        after,
    })
}
