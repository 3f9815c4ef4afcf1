//! The lines of the private text, with the charstrings that are kept.
ghost use Rattle.std.specs.Prelude.{◌≡◌, ◌∷◌, ◌++◌, [], IfOk, OnOk, option_copied, decimal};
ghost use Rattle.std.specs.List.{flat_map};
ghost use Rattle.t1_frac.specs.Ascii.{line_feed};
ghost use Rattle.t1_code.specs.Parts.{piece_text};
ghost use Rattle.t1_parts.specs.ItemRefs.{item_of};
ghost use Rattle.t1_charstrings.specs.Entries.{glyph_charstring};
ghost use Rattle.t1_charstrings.specs.Lines.{kept_entry_line, kept_line, kept_lines_text};
ghost use Rattle.t1_charstrings.specs.Lines.{made_text, made_texts};

use crate::entries::{Charstrings, Entry};
use indexmap::IndexMap;
use std::alloc::{AllocError, Global};
use std::mem::replace;
use t1_code::Piece;
use t1_parts::{ItemRef, Items, push_decimal, push_line};

/// Lines of the private text, ready to be written.
#[derive(Drop)]
pub enum KeptLines<'a> {
    /// Plain lines and section lines between two entries, each with its end.
    Text(Vec<u8>),
    /// The parts of an entry's line.
    Entry {
        entry: &'a Entry,
        operator: &'a [u8],
        closing: &'a [u8],
    },
}

/// Adds a section line with its count and its end.
fn push_section(
    text: &mut Vec<u8>,
    before: &[u8],
    count: u64,
    after: &[u8],
) -> Result<(), AllocError>
    ensures { OnOk result
        (text.new.items
        ≡ text.old.items ++ before.now ++ decimal count ++ after.now ++ line_feed ∷ []) }
{
    text.extend_from_slice(before)?;
    push_decimal(text, count)?;
    push_line(text, after)
}

/// The entry of a glyph, which mostly stands at this place among the others: in the order of the
/// source, unless edits came in.
fn glyph_entry<'a>(
    glyphs: &'a IndexMap<Vec<u8>, Entry>,
    place: usize,
    name: &[u8],
) -> Option<&'a Entry>
    ensures { option_copied result ≡ glyph_charstring glyphs.now.entries name.now }
{
    if let Some((key, entry)) = glyphs.get_index(place) {
        if key.as_slice() == name {
            return Some(entry);
        }
    }
    glyphs.get(name)
}

/// Adds the line of an entry, if its charstring is kept, after the text in front of it, which is
/// empty then.
fn push_entry<'a>(
    alloc: Global,
    lines: &mut Vec<KeptLines<'a>>,
    text: &mut Vec<u8>,
    operator: &'a [u8],
    kept: Option<&'a Entry>,
    closing: &'a [u8],
) -> Result<(), AllocError>
    ensures { OnOk result
        (made_texts lines.new.items text.new.items
        ≡ made_texts lines.old.items text.old.items
        ++ kept_entry_line operator.now closing.now (option_copied kept.entry)) }
{
    let Some(entry) = kept else {
        return Ok(());
    };
    if !text.is_empty() {
        lines.push(KeptLines::Text(replace(text, Vec::new(alloc))))?;
    }
    lines.push(KeptLines::Entry {
        entry,
        operator,
        closing,
    })?;
    Ok(())
}

/// Adds the line of an item, after so many glyphs, which it raises where it is one.
fn push_item<'a>(
    alloc: Global,
    lines: &mut Vec<KeptLines<'a>>,
    text: &mut Vec<u8>,
    charstrings: &'a Charstrings,
    operator: &'a [u8],
    place: &mut usize,
    item: &ItemRef<'a, '_>,
) -> Result<(), AllocError>
    ensures { OnOk result
        (made_texts lines.new.items text.new.items
        ≡ made_texts lines.old.items text.old.items
        ++ kept_line charstrings.now operator.now (item_of item.now)) }
{
    match item {
        ItemRef::Plain(line) => push_line(text, line),
        ItemRef::Section(before, count, after) => push_section(text, before, *count, after),
        ItemRef::Subr(number, _, closing) => {
            let kept = charstrings.subrs.get(number);
            push_entry(alloc, lines, text, operator, kept, closing)
        }
        ItemRef::Glyph(name, _, closing) => {
            let kept = glyph_entry(&charstrings.glyphs, *place, name);
            *place = place.saturating_add(1);
            push_entry(alloc, lines, text, operator, kept, closing)
        }
    }
}

/// The lines of the private text: those between two entries as one text. An entry takes one
/// look-up at most, and no copy.
pub(crate) fn lines_of<'a>(
    alloc: Global,
    charstrings: &'a Charstrings,
    operator: &'a [u8],
    items: &'a Items,
) -> Result<Vec<KeptLines<'a>>, AllocError>
    ensures { IfOk result
        (λ lines.
        flat_map made_text lines.items
        ≡ kept_lines_text charstrings.now operator.now items.now) }
{
    let mut lines = Vec::new(alloc);
    let mut text = Vec::new(alloc);
    let mut place = 0;
    for item in items.iter() {
        push_item(
            alloc,
            &mut lines,
            &mut text,
            charstrings,
            operator,
            &mut place,
            &item,
        )?;
    }
    lines.push(KeptLines::Text(text))?;
    Ok(lines)
}

/// A piece of the private text as the writers of files take it.
fn piece_of<'a>(lines: &'a KeptLines<'a>) -> Piece<'a>
    ensures { piece_text result ≡ made_text lines.now }
{
    match lines {
        KeptLines::Text(bytes) => Piece::Plain(bytes.as_slice()),
        KeptLines::Entry {
            entry,
            operator,
            closing,
        } => Piece::Entry {
            head: entry.head(),
            operator,
            charstring: entry.charstring(),
            closing,
        },
    }
}

/// The private text as the writers of files take it.
pub(crate) fn pieces_of<'a>(
    alloc: Global,
    lines: &'a [KeptLines<'a>],
) -> Result<Vec<Piece<'a>>, AllocError>
    ensures { IfOk result
        (λ pieces. flat_map piece_text pieces.items ≡ flat_map made_text lines.now) }
{
    let mut pieces = Vec::with_capacity(alloc, lines.len())?;
    for made in lines {
        pieces.push(piece_of(made))?;
    }
    Ok(pieces)
}
