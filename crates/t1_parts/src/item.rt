//! What the private part of a source is made of.

ghost use Rattle.std.specs.Prelude.{◌≡◌, IfOk};
ghost use Rattle.t1_parts.specs.declared.item.Item.TheVariants as kinds;

use std::alloc::{AllocError, Global};
use t1_frac::{SourceText, Words};

/// One item of the private part; its texts stand in the source that was read, or in memory of their
/// own.
#[derive(Drop)]
pub enum Item<'a> {
    /// A line that is kept as it stands.
    Plain(SourceText<'a>),
    /// The line of a section: the bytes before its count, the count, the bytes after it.
    Section(SourceText<'a>, u64, SourceText<'a>),
    /// A Subr: its number, its words, and the text after its closing brace.
    Subr(u16, Words<'a>, SourceText<'a>),
    /// A glyph: its name, its words, and the text after its closing brace.
    Glyph(SourceText<'a>, Words<'a>, SourceText<'a>),
}

/// An item that was read, with its name where it is a glyph: how many lines it takes after its
/// first, and the bytes after them.
#[derive(Drop)]
pub struct Taken<'a> {
    pub item: Item<'a>,
    pub name: Option<&'a [u8]>,
    pub more: usize,
    pub after: &'a [u8],
}

/// Copies of an entry's words and of the text after its closing brace.
fn copied_body<'a>(
    alloc: Global,
    words: &Words<'a>,
    closing: &SourceText<'a>,
) -> Result<(Words<'a>, SourceText<'a>), AllocError>
    ensures words { IfOk result (λ body. body.0 ≡ words.now) }
    ensures closing { IfOk result (λ body. body.1 ≡ closing.now) }
{
    let words = words.copied(alloc)?;
    Ok((words, closing.copied(alloc)?))
}

/// A copy of a section line.
fn copied_section<'a>(
    alloc: Global,
    before: &SourceText<'a>,
    count: u64,
    after: &SourceText<'a>,
) -> Result<Item<'a>, AllocError>
    ensures { IfOk result (λ copy. copy ≡ kinds.Section before.now count after.now) }
{
    let before = before.copied(alloc)?;
    Ok(Item::Section(before, count, after.copied(alloc)?))
}

/// A copy of a Subr.
fn copied_subr<'a>(
    alloc: Global,
    number: u16,
    words: &Words<'a>,
    closing: &SourceText<'a>,
) -> Result<Item<'a>, AllocError>
    ensures { IfOk result (λ copy. copy ≡ kinds.Subr number words.now closing.now) }
{
    let (words, closing) = copied_body(alloc, words, closing)?;
    Ok(Item::Subr(number, words, closing))
}

/// A copy of a glyph.
fn copied_glyph<'a>(
    alloc: Global,
    name: &SourceText<'a>,
    words: &Words<'a>,
    closing: &SourceText<'a>,
) -> Result<Item<'a>, AllocError>
    ensures { IfOk result (λ copy. copy ≡ kinds.Glyph name.now words.now closing.now) }
{
    let name = name.copied(alloc)?;
    let (words, closing) = copied_body(alloc, words, closing)?;
    Ok(Item::Glyph(name, words, closing))
}

impl<'a> Item<'a> {
    /// A copy. It takes no memory where the texts stand in a source.
    pub fn copied(&self, alloc: Global) -> Result<Item<'a>, AllocError>
        ensures { IfOk result (λ copy. copy ≡ self.now) }
    {
        match self {
            Item::Plain(line) => Ok(Item::Plain(line.copied(alloc)?)),
            Item::Section(before, count, after) => copied_section(alloc, before, *count, after),
            Item::Subr(number, words, closing) => copied_subr(alloc, *number, words, closing),
            Item::Glyph(name, words, closing) => copied_glyph(alloc, name, words, closing),
        }
    }
}
