//! The printed form of a source. Where memory runs out, the contracts say nothing of the text, of
//! which a part may have been added: whoever made it drops it.

ghost use Rattle.std.specs.Prelude.{◌≡◌, ◌∷◌, [], ◌++◌, if◌then◌else◌, OnOk, map, decimal, codes};
ghost use Rattle.std.specs.Prelude.{flat_map};
ghost use Rattle.t1_frac.specs.Ascii.{line_feed, space, tab};
ghost use Rattle.t1_text.specs.Lines.{joined};
ghost use Rattle.t1_frac.specs.Words.{words};
ghost use Rattle.t1_parts.specs.ItemRefs.{item_of};
ghost use Rattle.t1_parts.specs.Printing.{word_groups, body_line, last_line, entry_lines};
ghost use Rattle.t1_parts.specs.Printing.{item_lines};

use crate::item_ref::ItemRef;
use crate::items_iter::ItemsIter;
use itoa::Buffer;
use std::alloc::AllocError;
use t1_frac::{Bytes, is_number_word, next_word};

/// Adds a line and its end to a text.
pub fn push_line(text: &mut Vec<u8>, line: &[u8]) -> Result<(), AllocError>
    ensures { OnOk result (text.new.items ≡ text.old.items ++ line.now ++ line_feed ∷ []) }
{
    text.extend_from_slice(line)?;
    text.push(b'\n')?;
    Ok(())
}

/// Adds some lines to a text.
pub fn push_lines(text: &mut Vec<u8>, lines: &[Bytes]) -> Result<(), AllocError>
    ensures { OnOk result (text.new.items ≡ text.old.items ++ joined lines.now) }
{
    let mut rest = lines;
    while let Some((line, after)) = rest.split_first() {
        push_line(text, line.as_slice())?;
        rest = after;
    }
    Ok(())
}

/// Adds a number in decimal to a text.
pub fn push_decimal(text: &mut Vec<u8>, number: u64) -> Result<(), AllocError>
    ensures { OnOk result (text.new.items ≡ text.old.items ++ decimal number) }
{
    let mut buffer = Buffer::new();
    text.extend_from_slice(buffer.format(number).as_bytes())?;
    Ok(())
}

/// Adds a word to a line of words that is open or begins with it.
fn push_word(text: &mut Vec<u8>, is_open: bool, word: &[u8]) -> Result<(), AllocError>
    ensures { OnOk result
        (text.new.items ≡ text.old.items ++ (if is_open then space else tab) ∷ word.now) }
{
    text.push(if is_open { b' ' } else { b'\t' })?;
    text.extend_from_slice(word)?;
    Ok(())
}

/// Adds the lines of a body's words to a text, as an entry's body is printed.
#[tactic(auto, using(crate::proofs::GroupLaws::left_number, crate::proofs::GroupLaws::left_other))]
pub fn push_words(text: &mut Vec<u8>, bytes: &[u8]) -> Result<(), AllocError>
    ensures { OnOk result
        (text.new.items
        ≡ text.old.items ++ joined (map body_line (word_groups (words bytes.now)))) }
{
    let mut is_open = false;
    let mut rest = bytes;
    while let Some((word, after)) = next_word(rest) {
        push_word(text, is_open, word)?;
        is_open = is_number_word(word);
        if !is_open {
            text.push(b'\n')?;
        }
        rest = after;
    }
    if is_open {
        text.push(b'\n')?;
    }
    Ok(())
}

/// Adds the last line of an entry to a text.
fn push_last_line(text: &mut Vec<u8>, closing: &[u8]) -> Result<(), AllocError>
    ensures { OnOk result
        (text.new.items ≡ text.old.items ++ last_line closing.now ++ line_feed ∷ []) }
{
    text.extend_from_slice(b"\t}")?;
    if !closing.is_empty() {
        text.push(b' ')?;
    }
    push_line(text, closing)
}

/// Adds an entry to a text, from after the name on its first line.
fn push_entry(text: &mut Vec<u8>, bytes: &[u8], closing: &[u8]) -> Result<(), AllocError>
    ensures { OnOk result
        (text.new.items
        ≡ text.old.items ++ joined (entry_lines (codes " {") (words bytes.now) closing.now)) }
{
    push_line(text, b" {")?;
    push_words(text, bytes)?;
    push_last_line(text, closing)
}

/// Adds the lines of an item to a text.
fn push_item(text: &mut Vec<u8>, item: &ItemRef) -> Result<(), AllocError>
    ensures { OnOk result
        (text.new.items ≡ text.old.items ++ joined (item_lines (item_of item.now))) }
{
    match item {
        ItemRef::Plain(line) => push_line(text, line),
        ItemRef::Section(before, count, after) => {
            text.extend_from_slice(before)?;
            push_decimal(text, *count)?;
            push_line(text, after)
        }
        ItemRef::Subr(number, words, closing) => {
            text.extend_from_slice(b"dup ")?;
            push_decimal(text, u64::from(*number))?;
            push_entry(text, words.as_bytes(), closing)
        }
        ItemRef::Glyph(name, words, closing) => {
            text.push(b'/')?;
            text.extend_from_slice(name)?;
            push_entry(text, words.as_bytes(), closing)
        }
    }
}

/// Adds the lines of some items to a text.
pub fn push_items(text: &mut Vec<u8>, items: ItemsIter) -> Result<(), AllocError>
    ensures { OnOk result
        (text.new.items ≡ text.old.items ++ joined (flat_map item_lines items.entry)) }
{
    for item in items {
        push_item(text, &item)?;
    }
    Ok(())
}
