//! What a font tells of its box.

ghost use Rattle.std.specs.Prelude.{◌≡◌, ◌++◌, ◌∷◌, [], OnOk};
ghost use Rattle.std.specs.Fmt.{signed_decimal};
ghost use Rattle.std.specs.List.{list_all};
ghost use Rattle.std.specs.Str.{bytes_eq};
ghost use Rattle.t1_frac.specs.Numbers.{is_number_word};
ghost use Rattle.t1_text.specs.Tokens.{tokens};
ghost use Rattle.t1_afm.specs.Afm.{sides};
ghost use Rattle.t1_measured_notes.specs.MeasuredNotes.{same_words, no_box, is_other_box};
ghost use Rattle.t1_measured_notes.specs.MeasuredNotes.{tells_other_box, box_notes};

use itoa::Buffer;
use std::alloc::AllocError;
use t1_afm::BBox;
use t1_frac::is_number_word;
use t1_notes::{Line, Note, NoteKind};
use t1_text::{next_token, same};

/// Whether a word is the decimal of this number.
fn is_decimal_of(word: &[u8], number: i32) -> bool
    ensures { result ≡ bytes_eq word.now (signed_decimal number) }
{
    let mut digits = Buffer::new();
    same(word, digits.format(number).as_bytes())
}

/// Whether four words are the sides of a box.
fn are_sides(left: &[u8], bottom: &[u8], right: &[u8], top: &[u8], bounds: &BBox) -> bool
    ensures { result ≡ same_words (left.now ∷ bottom.now ∷ right.now ∷ top.now ∷ []) (sides
        bounds.now) }
{
    is_decimal_of(left, bounds.left)
        && is_decimal_of(bottom, bounds.bottom)
        && is_decimal_of(right, bounds.right)
        && is_decimal_of(top, bounds.top)
}

/// Whether four words are all 0.
fn are_zeros(left: &[u8], bottom: &[u8], right: &[u8], top: &[u8]) -> bool
    ensures { result ≡ same_words (left.now ∷ bottom.now ∷ right.now ∷ top.now ∷ []) no_box }
{
    same(left, b"0") && same(bottom, b"0") && same(right, b"0") && same(top, b"0")
}

/// Whether four words are number words.
fn are_numbers(left: &[u8], bottom: &[u8], right: &[u8], top: &[u8]) -> bool
    ensures { result ≡ list_all is_number_word (left.now ∷ bottom.now ∷ right.now ∷ top.now ∷ []) }
{
    is_number_word(left) && is_number_word(bottom) && is_number_word(right) && is_number_word(top)
}

/// Whether four words are a box of whole numbers, and another one than this.
fn is_other_box(bounds: &BBox, left: &[u8], bottom: &[u8], right: &[u8], top: &[u8]) -> bool
    ensures { result ≡ is_other_box bounds.now (left.now ∷ bottom.now ∷ right.now ∷ top.now ∷ []) }
{
    are_numbers(left, bottom, right, top)
        && !are_zeros(left, bottom, right, top)
        && !are_sides(left, bottom, right, top, bounds)
}

/// Whether a line tells another box than this.
fn tells_other_box(bounds: &BBox, line: &[u8]) -> bool
    ensures { result ≡ tells_other_box bounds.now (tokens line.now) }
{
    let Some((key, after)) = next_token(line) else {
        return false;
    };
    let Some((_, after)) = next_token(after) else {
        return false;
    };
    let Some((left, after)) = next_token(after) else {
        return false;
    };
    let Some((bottom, after)) = next_token(after) else {
        return false;
    };
    let Some((right, after)) = next_token(after) else {
        return false;
    };
    let Some((top, _)) = next_token(after) else {
        return false;
    };
    same(key, b"/FontBBox") && is_other_box(bounds, left, bottom, right, top)
}

/// Adds the notes on lines that tell another box than this.
pub(crate) fn push_boxes(
    notes: &mut Vec<Note>,
    bounds: &BBox,
    lines: &[Line],
) -> Result<(), AllocError>
    ensures { OnOk result (notes.new.items ≡ notes.old.items ++ box_notes bounds.now lines.now) }
{
    for line in lines {
        if tells_other_box(bounds, line.bytes()) {
            notes.push(line.note(NoteKind::FontBox))?;
        }
    }
    Ok(())
}
