//! The charstrings of a source and of fresh entries, encrypted.

ghost use Rattle.std.specs.Prelude.{◌≡◌, ◌==◌, ℕ, List, None, IfOk, OnOk, if◌then◌else◌, Some};
ghost use Rattle.std.specs.Prelude.{OnErr};
ghost use Rattle.std.specs.Option.{option_map, option_or};
ghost use Rattle.std.specs.Result.{result_ok};
ghost use Rattle.std.specs.Str.{bytes_eq};
ghost use Rattle.t1_frac.specs.Outcome.{Gives};
ghost use Rattle.t1_frac.specs.declared.fault.Place.TheVariants as places;
ghost use Rattle.t1_code.specs.Words.{commands};
ghost use Rattle.t1_run.specs.Run.{Key, Subr, Glyph};
ghost use Rattle.t1_run.specs.RunKeys.{body_at};
ghost use Rattle.t1_font.specs.Bodies.{bodies, bodies_check, body_check, glyph_in, subr_in};
ghost use Rattle.t1_font.specs.Bodies.{words_check};
ghost use Rattle.t1_charstrings.specs.Entries.{encrypted, glyph_charstring, subr_charstring};
ghost use Rattle.t1_charstrings.specs.Kept.{charstring_at, AreEncrypted};
ghost use Rattle.t1_charstrings.specs.Changed.{AreSameCharstrings, Sets};

use crate::entries::{Charstrings, Entry, insert_glyph, insert_subr, no_charstrings};
use indexmap::IndexMap;
use itoa::Buffer;
use std::alloc::{AllocError, Global};
use t1_code::{Body, compiled_glyph, compiled_subr, encrypted_charstring};
use t1_frac::{Refusal, Words};
use t1_parts::ItemsIter;
use t1_source::{Item, Source};

/// A Subr, encrypted with so many leading bytes.
pub fn encrypted_subr(
    alloc: Global,
    lead: u8,
    number: u16,
    body: &Body,
) -> Result<Entry, AllocError>
    ensures { IfOk result (λ entry. entry ≡ encrypted lead (Subr number) body.now) }
{
    let charstring = encrypted_charstring(alloc, lead, body.commands())?;
    let mut digits = Buffer::new();
    Entry::new(
        alloc,
        b"dup ",
        digits.format(number).as_bytes(),
        &charstring,
    )
}

/// A glyph, encrypted with so many leading bytes.
pub fn encrypted_glyph(
    alloc: Global,
    lead: u8,
    name: &[u8],
    body: &Body,
) -> Result<Entry, AllocError>
    ensures { IfOk result (λ entry. entry ≡ encrypted lead (Glyph name.now) body.now) }
{
    let charstring = encrypted_charstring(alloc, lead, body.commands())?;
    Entry::new(alloc, b"/", name, &charstring)
}

/// Keeps a Subr, encrypted with so many leading bytes, in the place of what was kept of it. Where
/// memory runs out all stays as it was.
pub fn put_fresh_subr(
    alloc: Global,
    lead: u8,
    fresh: &mut Charstrings,
    number: u16,
    body: &Body,
) -> Result<(), AllocError>
    ensures sets { OnOk result
        (Sets (Subr number) (Some (encrypted lead (Subr number) body.now)) fresh.old
        fresh.new) }
    ensures refused { OnErr result (AreSameCharstrings fresh.old fresh.new) }
{
    let entry = encrypted_subr(alloc, lead, number, body)?;
    insert_subr(fresh, number, entry)
}

/// Keeps a glyph, encrypted with so many leading bytes, in the place of what was kept of it. Where
/// memory runs out all stays as it was.
pub fn put_fresh_glyph(
    alloc: Global,
    lead: u8,
    fresh: &mut Charstrings,
    name: &[u8],
    body: &Body,
) -> Result<(), AllocError>
    ensures sets { OnOk result
        (Sets (Glyph name.now) (Some (encrypted lead (Glyph name.now) body.now)) fresh.old
        fresh.new) }
    ensures refused { OnErr result (AreSameCharstrings fresh.old fresh.new) }
{
    let entry = encrypted_glyph(alloc, lead, name, body)?;
    insert_glyph(fresh, Vec::from_slice(alloc, name)?, entry)
}

/// Adds a Subr, where there is none of its number.
#[tactic(auto, unfolding(t1_font::specs::Bodies::words_check))]
fn add_subr(
    alloc: Global,
    lead: u8,
    subrs: &mut IndexMap<u16, Entry>,
    number: u16,
    words: &Words,
) -> Result<(), Refusal>
    ensures checked { Gives (λ x. x) result (words_check (places.Subr number) words.now) }
    ensures kept { OnOk result
        ((n : ℕ)
        → subr_charstring subrs.new.entries n
        ≡ option_or (subr_charstring subrs.old.entries n)
        (option_map (encrypted lead (Subr n))
        (if n == number then result_ok (commands words.now) else None))) }
{
    let body = compiled_subr(alloc, number, words)?;
    if subrs.contains_key(&number) {
        return Ok(());
    }
    let entry = encrypted_subr(alloc, lead, number, &body)?;
    subrs.insert(number, entry)?;
    Ok(())
}

/// Adds a glyph, where there is none of its name.
#[tactic(auto, unfolding(t1_font::specs::Bodies::words_check))]
fn add_glyph(
    alloc: Global,
    lead: u8,
    glyphs: &mut IndexMap<Vec<u8>, Entry>,
    name: &[u8],
    words: &Words,
) -> Result<(), Refusal>
    ensures checked { Gives (λ x. x) result (words_check (places.Glyph name.now) words.now) }
    ensures kept { OnOk result
        ((g : List ℕ)
        → glyph_charstring glyphs.new.entries g
        ≡ option_or (glyph_charstring glyphs.old.entries g)
        (option_map (encrypted lead (Glyph g))
        (if bytes_eq g name.now then result_ok (commands words.now) else None))) }
{
    let body = compiled_glyph(alloc, name, words)?;
    if glyphs.contains_key(name) {
        return Ok(());
    }
    let entry = encrypted_glyph(alloc, lead, name, &body)?;
    glyphs.insert(Vec::from_slice(alloc, name)?, entry)?;
    Ok(())
}

/// Adds an item's charstring, where it is an entry.
fn add_item(
    alloc: Global,
    lead: u8,
    subrs: &mut IndexMap<u16, Entry>,
    glyphs: &mut IndexMap<Vec<u8>, Entry>,
    item: &Item,
) -> Result<(), Refusal>
    ensures checked { Gives (λ x. x) result (body_check item.now) }
    ensures subrs { OnOk result
        ((n : ℕ)
        → subr_charstring subrs.new.entries n
        ≡ option_or (subr_charstring subrs.old.entries n)
        (option_map (encrypted lead (Subr n)) (subr_in item.now n))) }
    ensures glyphs { OnOk result
        ((g : List ℕ)
        → glyph_charstring glyphs.new.entries g
        ≡ option_or (glyph_charstring glyphs.old.entries g)
        (option_map (encrypted lead (Glyph g)) (glyph_in item.now g))) }
{
    match item {
        Item::Subr(number, words, _) => add_subr(alloc, lead, subrs, *number, words),
        Item::Glyph(name, words, _) => add_glyph(alloc, lead, glyphs, name.as_slice(), words),
        Item::Plain(_) => Ok(()),
        Item::Section(_, _, _) => Ok(()),
    }
}

/// Adds the charstrings of the items, encrypted with so many leading bytes, where there are none of
/// their keys; or answers the first fault of a body, at its entry. Lines that stand together are
/// passed over as a whole.
pub(crate) fn add_items(
    alloc: Global,
    lead: u8,
    charstrings: &mut Charstrings,
    items: &ItemsIter,
) -> Result<(), Refusal>
    ensures checked { Gives (λ x. x) result (bodies_check items.now) }
    ensures kept { OnOk result
        ((k : Key)
        → charstring_at charstrings.new k
        ≡ option_or (charstring_at charstrings.old k)
        (option_map (encrypted lead k) (body_at (bodies items.now) k))) }
{
    for item in items.again().alone() {
        add_item(
            alloc,
            lead,
            &mut charstrings.subrs,
            &mut charstrings.glyphs,
            item,
        )?;
    }
    Ok(())
}

/// The charstrings of a source, encrypted by its lenIV, or the first fault of a body, at its entry.
pub fn charstrings_of(alloc: Global, source: &Source) -> Result<Charstrings, Refusal>
    ensures checked { Gives (λ _. tt) result (bodies_check source.now.items) }
    ensures kept { IfOk result (λ kept. AreEncrypted source.now kept) }
{
    let mut charstrings = no_charstrings(alloc);
    let items = source.items().iter();
    add_items(alloc, source.lead(), &mut charstrings, &items)?;
    Ok(charstrings)
}
