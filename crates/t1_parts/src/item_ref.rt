//! An item of borrowed parts, whichever way it lies in memory.

ghost use Rattle.std.specs.Prelude.{◌≡◌, IfOk, option_map};
ghost use Rattle.t1_parts.specs.ItemRefs.{item_of};
ghost use Rattle.t1_parts.specs.Items.{is_entry};
ghost use Rattle.t1_parts.specs.LenIV.{plain_line};
ghost use Rattle.t1_parts.specs.declared.item.Item.TheVariants as kinds;

use crate::item::Item;
use std::alloc::{AllocError, Global};
use t1_frac::{OwnedWords, SourceText, Words};

/// An item of the private part whose texts are borrowed: a plain line among the bytes that were
/// read, or the parts of an item that stands by itself.
#[derive(Clone, Copy)]
pub enum ItemRef<'i, 'a> {
    /// A line that is kept as it stands.
    Plain(&'i [u8]),
    /// The line of a section: the bytes before its count, the count, the bytes after it.
    Section(&'i [u8], u64, &'i [u8]),
    /// A Subr: its number, its words, and the text after its closing brace.
    Subr(u16, &'i Words<'a>, &'i [u8]),
    /// A glyph: its name, its words, and the text after its closing brace.
    Glyph(&'i [u8], &'i Words<'a>, &'i [u8]),
}

/// A copy of some words, in memory of their own.
fn owned_words(alloc: Global, words: &Words) -> Result<Words<'static>, AllocError>
    ensures { IfOk result (λ owned. owned ≡ words.now) }
{
    let mut owned = OwnedWords::new(alloc);
    owned.push_line(words.as_bytes())?;
    Ok(owned.into_words())
}

/// Copies of an entry's words and of the text after its closing brace, in memory of their own.
fn owned_body(
    alloc: Global,
    words: &Words,
    closing: &[u8],
) -> Result<(Words<'static>, SourceText<'static>), AllocError>
    ensures words { IfOk result (λ body. body.0 ≡ words.now) }
    ensures closing { IfOk result (λ body. body.1 ≡ closing.now) }
{
    let words = owned_words(alloc, words)?;
    Ok((words, SourceText::copy_of(alloc, closing)?))
}

/// A copy of a section line that borrows nothing.
fn owned_section(
    alloc: Global,
    before: &[u8],
    count: u64,
    after: &[u8],
) -> Result<Item<'static>, AllocError>
    ensures { IfOk result (λ owned. owned ≡ kinds.Section before.now count after.now) }
{
    let before = SourceText::copy_of(alloc, before)?;
    Ok(Item::Section(before, count, SourceText::copy_of(alloc, after)?))
}

/// A copy of a Subr that borrows nothing.
fn owned_subr(
    alloc: Global,
    number: u16,
    words: &Words,
    closing: &[u8],
) -> Result<Item<'static>, AllocError>
    ensures { IfOk result (λ owned. owned ≡ kinds.Subr number words.now closing.now) }
{
    let (words, closing) = owned_body(alloc, words, closing)?;
    Ok(Item::Subr(number, words, closing))
}

/// A copy of a glyph that borrows nothing.
fn owned_glyph(
    alloc: Global,
    name: &[u8],
    words: &Words,
    closing: &[u8],
) -> Result<Item<'static>, AllocError>
    ensures { IfOk result (λ owned. owned ≡ kinds.Glyph name.now words.now closing.now) }
{
    let name = SourceText::copy_of(alloc, name)?;
    let (words, closing) = owned_body(alloc, words, closing)?;
    Ok(Item::Glyph(name, words, closing))
}

impl<'a> Item<'a> {
    /// Its parts, borrowed.
    pub fn as_ref(&self) -> ItemRef<'_, 'a>
        ensures { item_of result ≡ self.now }
    {
        match self {
            Item::Plain(line) => ItemRef::Plain(line.as_slice()),
            Item::Section(before, count, after) => {
                ItemRef::Section(before.as_slice(), *count, after.as_slice())
            }
            Item::Subr(number, words, closing) => {
                ItemRef::Subr(*number, words, closing.as_slice())
            }
            Item::Glyph(name, words, closing) => {
                ItemRef::Glyph(name.as_slice(), words, closing.as_slice())
            }
        }
    }
}

impl<'i, 'a> ItemRef<'i, 'a> {
    /// Whether it is a Subr or a glyph.
    pub fn is_entry(&self) -> bool
        ensures { result ≡ is_entry (item_of self.now) }
    {
        matches!(self, ItemRef::Subr(_, _, _) | ItemRef::Glyph(_, _, _))
    }

    /// A copy that borrows nothing.
    pub fn owned(&self, alloc: Global) -> Result<Item<'static>, AllocError>
        ensures { IfOk result (λ owned. owned ≡ item_of self.now) }
    {
        match self {
            ItemRef::Plain(line) => Ok(Item::Plain(SourceText::copy_of(alloc, line)?)),
            ItemRef::Section(before, count, after) => owned_section(alloc, before, *count, after),
            ItemRef::Subr(number, words, closing) => owned_subr(alloc, *number, words, closing),
            ItemRef::Glyph(name, words, closing) => owned_glyph(alloc, name, words, closing),
        }
    }

    /// The bytes of a plain line.
    pub fn plain_line(&self) -> Option<&'i [u8]>
        ensures { option_map (λ line. line.now) result ≡ plain_line (item_of self.now) }
    {
        match self {
            ItemRef::Plain(line) => Some(line),
            _ => None,
        }
    }
}
