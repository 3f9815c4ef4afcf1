//! The entries of a source by their places, and their words.
ghost use Rattle.std.specs.Prelude.{◌≡◌, option_map};
ghost use Rattle.std.specs.List.{find};
ghost use Rattle.t1_frac.specs.Words.{words};
ghost use Rattle.t1_parts.specs.Entries.{is_glyph, is_subr};
ghost use Rattle.t1_refusal.specs.Entries.{entry_words, glyph_named, words_at_place, subr_of};
ghost use Rattle.t1_refusal.specs.Entries.{words_of_found};

use t1_frac::Place;
use t1_parts::Items;
use t1_source::Item;
use t1_text::same;

/// Whether an item is the glyph of this name.
fn is_glyph(name: &[u8], item: &Item) -> bool
    ensures { result ≡ is_glyph name.now item.now }
{
    match item {
        Item::Glyph(other, _, _) => same(name, other.as_slice()),
        _ => false,
    }
}

/// Whether an item is the Subr of this number.
fn is_subr(number: u16, item: &Item) -> bool
    ensures { result ≡ is_subr number item.now }
{
    match item {
        Item::Subr(other, _, _) => number == *other,
        _ => false,
    }
}

/// The glyph of this name.
pub fn glyph_named<'i, 'a>(items: &'i Items<'a>, name: &[u8]) -> Option<&'i Item<'a>>
    ensures { option_map (λ item. item.now) result ≡ glyph_named name.now items.now }
{
    let mut alone = items.iter().alone();
    alone.find(|item| is_glyph(name, item))
}

/// The Subr of this number.
pub fn subr_of<'i, 'a>(items: &'i Items<'a>, number: u16) -> Option<&'i Item<'a>>
    ensures { option_map (λ item. item.now) result ≡ subr_of number items.now }
{
    let mut alone = items.iter().alone();
    alone.find(|item| is_subr(number, item))
}

/// Bytes whose words are those of an entry.
pub fn entry_words<'i>(item: &'i Item) -> &'i [u8]
    ensures { words result.now ≡ entry_words item.now }
{
    match item {
        Item::Subr(_, body, _) => body.as_bytes(),
        Item::Glyph(_, body, _) => body.as_bytes(),
        _ => b"",
    }
}

/// The same, where there is an item.
pub(crate) fn words_of<'i>(item: Option<&'i Item>) -> &'i [u8]
    ensures { words result.now ≡ words_of_found (option_map (λ i. i.now) item.entry) }
{
    match item {
        Some(item) => entry_words(item),
        None => b"",
    }
}

/// Bytes whose words are those of the entry at a place.
pub(crate) fn place_words<'i>(items: &'i Items, place: &Place) -> &'i [u8]
    ensures { words result.now ≡ words_at_place items.now place.now }
{
    match place {
        Place::Subr(number) => words_of(subr_of(items, *number)),
        Place::Glyph(name) => words_of(glyph_named(items, name.as_slice())),
        Place::Nowhere | Place::Line(_) => b"",
    }
}
