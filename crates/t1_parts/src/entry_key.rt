//! Entries by their keys.

ghost use Rattle.std.specs.Prelude.{◌≡◌};
ghost use Rattle.t1_parts.specs.Counts.{is_glyph_entry};
ghost use Rattle.t1_parts.specs.Entries.{is_subr, is_glyph};
ghost use Rattle.t1_parts.specs.EntryKeys.{is_any_subr, is_entry_of, is_of_kind, is_section};

use crate::item::Item;
use t1_text::same;

/// What an entry is found by: a Subr by its number, a glyph by its name.
#[derive(Clone, Copy)]
pub enum EntryKey<'k> {
    /// The number of a Subr.
    Number(u16),
    /// The name of a glyph.
    Name(&'k [u8]),
}

/// Items of which the last is looked for.
#[derive(Clone, Copy)]
pub enum ItemKind {
    /// Subrs, and the Subrs line.
    Subrs,
    /// Glyphs, and the CharStrings line.
    Glyphs,
    /// Section lines.
    Sections,
}

/// Whether an item is the Subr of this number.
fn is_subr(number: u16, item: &Item) -> bool
    ensures { result ≡ is_subr number item.now }
{
    match item {
        Item::Subr(other, _, _) => number == *other,
        _ => false,
    }
}

/// Whether an item is the glyph of this name.
fn is_glyph(name: &[u8], item: &Item) -> bool
    ensures { result ≡ is_glyph name.now item.now }
{
    match item {
        Item::Glyph(other, _, _) => same(name, other.as_slice()),
        _ => false,
    }
}

/// Whether an item is a Subr.
fn is_any_subr(item: &Item) -> bool
    ensures { result ≡ is_any_subr item.now }
{
    match item {
        Item::Subr(_, _, _) => true,
        _ => false,
    }
}

/// Whether an item is a glyph.
fn is_any_glyph(item: &Item) -> bool
    ensures { result ≡ is_glyph_entry item.now }
{
    match item {
        Item::Glyph(_, _, _) => true,
        _ => false,
    }
}

/// Whether an item is a section line.
pub(crate) fn is_section(item: &Item) -> bool
    ensures { result ≡ is_section item.now }
{
    match item {
        Item::Section(_, _, _) => true,
        _ => false,
    }
}

impl<'k> EntryKey<'k> {
    /// Whether an item is the entry of this key.
    pub(crate) fn is_of(&self, item: &Item) -> bool
        ensures { result ≡ is_entry_of self.now item.now }
    {
        match self {
            EntryKey::Number(number) => is_subr(*number, item),
            EntryKey::Name(name) => is_glyph(name, item),
        }
    }
}

impl ItemKind {
    /// Whether an item is of this kind.
    pub(crate) fn has(&self, item: &Item) -> bool
        ensures { result ≡ is_of_kind self.now item.now }
    {
        match self {
            ItemKind::Subrs => is_any_subr(item) || item.as_ref().is_subrs_line(),
            ItemKind::Glyphs => is_any_glyph(item) || item.as_ref().is_glyphs_line(),
            ItemKind::Sections => is_section(item),
        }
    }
}
