//! Edits of Subrs and glyphs: where they stand, and where new ones come to stand.

ghost use Rattle.std.specs.Prelude.{◌≡◌, ◌≤◌, ◌<◌, List, length, IfOk, IfSome, codes, option_map};
ghost use Rattle.std.specs.List.{find, list_any, position};
ghost use Rattle.t1_parts.specs.declared.item.Item.TheVariants.{Glyph, Subr};
ghost use Rattle.t1_parts.specs.Counts.{is_glyph_entry};
ghost use Rattle.t1_parts.specs.Entries.{is_glyph, is_subr};
ghost use Rattle.t1_parts.specs.EntryKeys.{is_entry_of, is_of_kind};
ghost use Rattle.t1_parts.specs.ItemRefs.{item_of};
ghost use Rattle.t1_parts.specs.Sections.{is_subrs_line};
ghost use Rattle.t1_source.specs.Changes.{changed, Fits};
ghost use Rattle.t1_source.specs.Editing.{added_glyph, among_glyphs_items, beside_pairs};
ghost use Rattle.t1_source.specs.Editing.{added_subr, among_subrs_items, closing_at, closing_of};
ghost use Rattle.t1_source.specs.Editing.{body_words, closing_among, has_section, is_subr_entry};
ghost use Rattle.t1_source.specs.Editing.{removed_glyph, removed_subr, replaced_glyph};
ghost use Rattle.t1_source.specs.Editing.{replaced_subr, through_last};
ghost use Rattle.t1_source.specs.EditOutcomes.{Edits};
ghost use Rattle.t1_source.specs.Hints.{IsTrueOfGlyph};
ghost use Rattle.t1_pairs.specs.declared.pairs.Pair.{Pair};

use crate::edit::{Cause, Rule};
use crate::editing::Change;
use crate::editing::hint::Hint;
use crate::editing::rules::{body_words, good_body, good_name, keeps, number_up_to};
use crate::source::Source;
use std::alloc::{AllocError, Global};
use t1_frac::SourceText;
use t1_parts::{EntryKey, Item, ItemKind, ItemRef, Items};

/// Where the entry of a key stands. It is looked for first among the few items before a place that
/// a hint tells; in a source that is kept no other item has its key.
fn entry_at(source: &Source, near: usize, key: &EntryKey) -> Option<usize>
    ensures value { result ≡ position (is_entry_of key.now) source.now.items }
    ensures within { IfSome result (λ at. at < length source.now.items) }
{
    let items = source.kept_items();
    if let Some(at) = items.entry_before(near, key) {
        return Some(at);
    }
    items.entry_place(key)
}

/// Whether the entry of a key is there.
fn has_entry(items: &Items, key: &EntryKey) -> bool
    ensures { result ≡ list_any (is_entry_of key.now) items.now }
{
    items.entry_place(key).is_some()
}

/// How many items stand through the last one of a kind.
fn through_kind(items: &Items, kind: ItemKind) -> usize
    ensures within { result ≤ length items.now }
    ensures value { result ≡ through_last (is_of_kind kind) items.now }
{
    items.through_last(kind)
}

/// The closing text of an entry.
fn closing_of<'i>(item: &ItemRef<'i, '_>) -> &'i [u8]
    ensures { result.now ≡ closing_of (item_of item.now) }
{
    match item {
        ItemRef::Subr(_, _, closing) => closing,
        ItemRef::Glyph(_, _, closing) => closing,
        _ => b"",
    }
}

/// The closing text of the item at a place.
fn closing_at<'i>(at: usize, items: &'i Items) -> &'i [u8]
    requires { at < length items.now }
    ensures { result.now ≡ closing_at at items.now }
{
    closing_of(&items.item(at))
}

/// Where the glyph of this name stands, which is looked for first among the few items before a
/// place.
fn glyph_at(source: &Source, near: usize, name: &[u8]) -> Option<usize>
    ensures value { result ≡ position (is_glyph name.now) source.now.items }
    ensures within { IfSome result (λ at. at < length source.now.items) }
{
    entry_at(source, near, &EntryKey::Name(name))
}

/// Whether the glyph of this name is there, which isn't looked for where a hint tells it to be new.
fn has_glyph(items: &Items, hint: Hint, name: &[u8]) -> bool
    requires { IsTrueOfGlyph hint name.now items.now }
    ensures { result ≡ list_any (is_glyph name.now) items.now }
{
    match hint {
        Hint::Near(_) => has_entry(items, &EntryKey::Name(name)),
        Hint::NewGlyph => false,
    }
}

/// Whether an item is a glyph.
fn is_glyph_entry(item: &Item) -> bool
    ensures { result ≡ is_glyph_entry item.now }
{
    match item {
        Item::Glyph(_, _, _) => true,
        _ => false,
    }
}

/// The first glyph.
fn first_glyph<'i, 'a>(items: &'i Items<'a>) -> Option<&'i Item<'a>>
    ensures { option_map (λ item. item.now) result ≡ find is_glyph_entry items.now }
{
    let mut alone = items.iter().alone();
    alone.find(|item| is_glyph_entry(item))
}

/// The closing text of a new glyph.
fn glyph_closing<'i>(items: &'i Items) -> &'i [u8]
    ensures { result.now ≡ closing_among is_glyph_entry (codes "noaccess def") items.now }
{
    match first_glyph(items) {
        Some(item) => closing_of(&item.as_ref()),
        None => b"noaccess def",
    }
}

/// How many items stand through the last glyph, or the CharStrings line.
fn through_glyphs(items: &Items) -> usize
    ensures within { result ≤ length items.now }
    ensures value { result ≡ through_last among_glyphs_items items.now }
{
    through_kind(items, ItemKind::Glyphs)
}

/// The glyph of a name and a body, with a closing text.
fn glyph_of<'a>(
    alloc: Global,
    name: &[u8],
    body: &[u8],
    closing: &[u8],
) -> Result<Item<'a>, AllocError>
    ensures { IfOk result (λ glyph. glyph ≡ Glyph name.now (body_words body.now) closing.now) }
{
    let words = body_words(alloc, body)?;
    let closing = SourceText::copy_of(alloc, closing)?;
    let name = SourceText::copy_of(alloc, name)?;
    Ok(Item::Glyph(name, words, closing))
}

/// A glyph with another body, which is looked for first among the few items before a place.
#[tactic(auto, unfolding(crate::specs::Editing::replaced_glyph))]
pub fn replacing_glyph<'a>(
    source: &Source<'a>,
    near: usize,
    name: &[u8],
    body: &[u8],
) -> Result<Change<'a>, Cause>
    ensures change { (k : List Pair)
        → Edits (λ change. changed change source.now k) result
        (beside_pairs k (replaced_glyph source.now name.now body.now)) }
    ensures fits { (k : List Pair) → IfOk result (λ change. Fits change source.now k) }
{
    good_name(name)?;
    good_body(body)?;
    let Some(at) = glyph_at(source, near, name) else {
        return Err(Cause::Rule(Rule::E1));
    };
    let closing = closing_at(at, source.items());
    let glyph = glyph_of(source.alloc(), name, body, closing)?;
    Ok(Change::PutItem(at, glyph))
}

/// A new glyph, which isn't looked for where a hint tells it to be new.
#[tactic(auto, unfolding(crate::specs::Editing::added_glyph))]
pub fn adding_glyph<'a>(
    source: &Source<'a>,
    hint: Hint,
    name: &[u8],
    body: &[u8],
) -> Result<Change<'a>, Cause>
    requires { IsTrueOfGlyph hint name.now source.now.items }
    ensures change { (k : List Pair)
        → Edits (λ change. changed change source.now k) result
        (beside_pairs k (added_glyph source.now name.now body.now)) }
    ensures fits { (k : List Pair) → IfOk result (λ change. Fits change source.now k) }
{
    good_name(name)?;
    good_body(body)?;
    keeps(Rule::E2, !has_glyph(source.items(), hint, name))?;
    let closing = glyph_closing(source.items());
    let glyph = glyph_of(source.alloc(), name, body, closing)?;
    Ok(Change::InsertItem(through_glyphs(source.items()), glyph))
}

/// A glyph taken out, which is looked for first among the few items before a place.
#[tactic(auto, unfolding(crate::specs::Editing::removed_glyph))]
pub fn removing_glyph<'a>(
    source: &Source<'a>,
    near: usize,
    name: &[u8],
) -> Result<Change<'a>, Cause>
    ensures change { (k : List Pair)
        → Edits (λ change. changed change source.now k) result
        (beside_pairs k (removed_glyph source.now name.now)) }
    ensures fits { (k : List Pair) → IfOk result (λ change. Fits change source.now k) }
{
    good_name(name)?;
    let Some(at) = glyph_at(source, near, name) else {
        return Err(Cause::Rule(Rule::E1));
    };
    Ok(Change::RemoveItem(at))
}

/// Where the Subr of this number stands, which is looked for first among the few items before a
/// place.
fn subr_at(source: &Source, near: usize, number: u16) -> Option<usize>
    ensures value { result ≡ position (is_subr number) source.now.items }
    ensures within { IfSome result (λ at. at < length source.now.items) }
{
    entry_at(source, near, &EntryKey::Number(number))
}

/// Whether the Subr of this number is there.
fn has_subr(items: &Items, number: u16) -> bool
    ensures { result ≡ list_any (is_subr number) items.now }
{
    has_entry(items, &EntryKey::Number(number))
}

/// Whether an item is a Subr.
fn is_subr_entry(item: &Item) -> bool
    ensures { result ≡ is_subr_entry item.now }
{
    match item {
        Item::Subr(_, _, _) => true,
        _ => false,
    }
}

/// The first Subr.
fn first_subr<'i, 'a>(items: &'i Items<'a>) -> Option<&'i Item<'a>>
    ensures { option_map (λ item. item.now) result ≡ find is_subr_entry items.now }
{
    let mut alone = items.iter().alone();
    alone.find(|item| is_subr_entry(item))
}

/// The closing text of a new Subr.
fn subr_closing<'i>(items: &'i Items) -> &'i [u8]
    ensures { result.now ≡ closing_among is_subr_entry (codes "noaccess put") items.now }
{
    match first_subr(items) {
        Some(item) => closing_of(&item.as_ref()),
        None => b"noaccess put",
    }
}

/// How many items stand through the last Subr, or the Subrs line.
fn through_subrs(items: &Items) -> usize
    ensures within { result ≤ length items.now }
    ensures value { result ≡ through_last among_subrs_items items.now }
{
    through_kind(items, ItemKind::Subrs)
}

/// Whether one of the items is the Subrs line.
fn has_subrs_line(items: &Items) -> bool
    ensures { result ≡ list_any is_subrs_line items.now }
{
    let mut alone = items.iter().alone();
    alone.any(|item| item.as_ref().is_subrs_line())
}

/// Whether the font has a Subrs section.
fn has_section(source: &Source) -> Result<(), Rule>
    ensures { result ≡ has_section source.now }
{
    keeps(Rule::E9, has_subrs_line(source.items()))
}

/// The Subr of a number and a body, with a closing text.
fn subr_of<'a>(
    alloc: Global,
    number: u16,
    body: &[u8],
    closing: &[u8],
) -> Result<Item<'a>, AllocError>
    ensures { IfOk result (λ subr. subr ≡ Subr number (body_words body.now) closing.now) }
{
    let words = body_words(alloc, body)?;
    let closing = SourceText::copy_of(alloc, closing)?;
    Ok(Item::Subr(number, words, closing))
}

/// A Subr with another body, which is looked for first among the few items before a place.
#[tactic(auto, unfolding(crate::specs::Editing::replaced_subr))]
pub fn replacing_subr<'a>(
    source: &Source<'a>,
    near: usize,
    number: i64,
    body: &[u8],
) -> Result<Change<'a>, Cause>
    ensures change { (k : List Pair)
        → Edits (λ change. changed change source.now k) result
        (beside_pairs k (replaced_subr source.now number body.now)) }
    ensures fits { (k : List Pair) → IfOk result (λ change. Fits change source.now k) }
{
    let number = number_up_to(32000, number)?;
    good_body(body)?;
    has_section(source)?;
    let Some(at) = subr_at(source, near, number) else {
        return Err(Cause::Rule(Rule::E1));
    };
    let closing = closing_at(at, source.items());
    let subr = subr_of(source.alloc(), number, body, closing)?;
    Ok(Change::PutItem(at, subr))
}

/// A new Subr.
#[tactic(auto, unfolding(crate::specs::Editing::added_subr))]
pub fn adding_subr<'a>(source: &Source<'a>, number: i64, body: &[u8]) -> Result<Change<'a>, Cause>
    ensures change { (k : List Pair)
        → Edits (λ change. changed change source.now k) result
        (beside_pairs k (added_subr source.now number body.now)) }
    ensures fits { (k : List Pair) → IfOk result (λ change. Fits change source.now k) }
{
    let number = number_up_to(32000, number)?;
    good_body(body)?;
    has_section(source)?;
    keeps(Rule::E2, !has_subr(source.items(), number))?;
    let closing = subr_closing(source.items());
    let subr = subr_of(source.alloc(), number, body, closing)?;
    Ok(Change::InsertItem(through_subrs(source.items()), subr))
}

/// A Subr taken out, which is looked for first among the few items before a place.
#[tactic(auto, unfolding(crate::specs::Editing::removed_subr))]
pub fn removing_subr<'a>(source: &Source<'a>, near: usize, number: i64) -> Result<Change<'a>, Cause>
    ensures change { (k : List Pair)
        → Edits (λ change. changed change source.now k) result
        (beside_pairs k (removed_subr source.now number)) }
    ensures fits { (k : List Pair) → IfOk result (λ change. Fits change source.now k) }
{
    let number = number_up_to(32000, number)?;
    has_section(source)?;
    let Some(at) = subr_at(source, near, number) else {
        return Err(Cause::Rule(Rule::E1));
    };
    Ok(Change::RemoveItem(at))
}
