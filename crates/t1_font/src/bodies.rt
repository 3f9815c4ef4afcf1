//! The bodies of a source, compiled.
ghost use Rattle.std.specs.Prelude.{◌≡◌, ◌==◌, ℕ, List, [], None, IfOk, OnOk, if◌then◌else◌};
ghost use Rattle.std.specs.Option.{option_or};
ghost use Rattle.std.specs.Result.{result_ok};
ghost use Rattle.std.specs.Str.{bytes_eq};
ghost use Rattle.t1_frac.specs.Outcome.{Gives, reported_at};
ghost use Rattle.t1_frac.specs.declared.fault.Place.TheVariants as places;
ghost use Rattle.t1_code.specs.Words.{commands};
ghost use Rattle.t1_font.specs.Bodies.{bodies, bodies_check, body_check, words_check, glyph_among};
ghost use Rattle.t1_font.specs.Bodies.{glyph_in, subr_among};
ghost use Rattle.t1_font.specs.KeptBodies.{glyph_body_kept, plain_bodies};
ghost use Rattle.t1_font.specs.Bodies.{subr_in};
ghost use Rattle.t1_font.specs.KeptBodies.{subr_body_kept, SameBodies};

use indexmap::IndexMap;
use std::alloc::{AllocError, Global};
use t1_code::{Body, compiled_glyph, compiled_subr};
use t1_frac::{Place, Refusal, Words};
use t1_parts::Items;
use t1_run::Plain;
use t1_source::Item;

/// Adds the body of a Subr, where there is none of its number.
#[tactic(auto, unfolding(crate::specs::Bodies::words_check))]
fn add_subr(
    alloc: Global,
    subrs: &mut IndexMap<u16, Body>,
    number: u16,
    words: &Words,
) -> Result<(), Refusal>
    ensures checked { Gives (λ x. x) result (words_check (places.Subr number) words.now) }
    ensures kept { OnOk result
        ((n : ℕ)
        → subr_body_kept subrs.new.entries n
        ≡ option_or (subr_body_kept subrs.old.entries n)
        (if n == number then result_ok (commands words.now) else None)) }
{
    let body = compiled_subr(alloc, number, words)?;
    if subrs.contains_key(&number) {
        return Ok(());
    }
    subrs.insert(number, body)?;
    Ok(())
}

/// How many bytes a name mostly has at most.
const NAME_ROOM: usize = 24;

/// Empty names, for so many bodies. They are made before the bodies, so that they stand side by
/// side in memory, and not each behind a body.
fn empty_names(alloc: Global, count: usize) -> Result<Vec<Vec<u8>>, AllocError> {
    let mut names = Vec::new(alloc);
    names.reserve(count)?;
    for _name in 0..count {
        names.push(Vec::with_capacity(alloc, NAME_ROOM)?)?;
    }
    Ok(names)
}

/// A name, where an empty one stands, if there is one.
fn body_name(alloc: Global, empty: &mut Vec<Vec<u8>>, name: &[u8]) -> Result<Vec<u8>, AllocError>
    ensures { IfOk result (λ copy. copy.items ≡ name.now) }
{
    let mut copy = match empty.pop() {
        Some(empty) => empty,
        None => Vec::new(alloc),
    };
    copy.clear();
    copy.extend_from_slice(name)?;
    Ok(copy)
}

/// Adds the body of a glyph, where there is none of its name.
#[tactic(auto, unfolding(crate::specs::Bodies::words_check))]
fn add_glyph(
    alloc: Global,
    glyphs: &mut IndexMap<Vec<u8>, Body>,
    empty: &mut Vec<Vec<u8>>,
    name: &[u8],
    words: &Words,
) -> Result<(), Refusal>
    ensures checked { Gives (λ x. x) result (words_check (places.Glyph name.now) words.now) }
    ensures kept { OnOk result
        ((g : List ℕ)
        → glyph_body_kept glyphs.new.entries g
        ≡ option_or (glyph_body_kept glyphs.old.entries g)
        (if bytes_eq g name.now then result_ok (commands words.now) else None)) }
{
    let body = compiled_glyph(alloc, name, words)?;
    if glyphs.contains_key(name) {
        return Ok(());
    }
    glyphs.insert(body_name(alloc, empty, name)?, body)?;
    Ok(())
}

/// Adds an item's body, where it has one.
fn add_body(
    alloc: Global,
    subrs: &mut IndexMap<u16, Body>,
    glyphs: &mut IndexMap<Vec<u8>, Body>,
    empty: &mut Vec<Vec<u8>>,
    item: &Item,
) -> Result<(), Refusal>
    ensures checked { Gives (λ x. x) result (body_check item.now) }
    ensures subrs { OnOk result
        ((n : ℕ)
        → subr_body_kept subrs.new.entries n
        ≡ option_or (subr_body_kept subrs.old.entries n) (subr_in item.now n)) }
    ensures glyphs { OnOk result
        ((g : List ℕ)
        → glyph_body_kept glyphs.new.entries g
        ≡ option_or (glyph_body_kept glyphs.old.entries g) (glyph_in item.now g)) }
{
    match item {
        Item::Subr(number, words, _) => add_subr(alloc, subrs, *number, words),
        Item::Glyph(name, words, _) => add_glyph(alloc, glyphs, empty, name.as_slice(), words),
        Item::Plain(_) => Ok(()),
        Item::Section(_, _, _) => Ok(()),
    }
}

/// Adds the bodies of the entries to none, or answers their first fault, at its entry.
#[tactic(auto, using(crate::proofs::AloneLaws::checks_alone, crate::proofs::AloneLaws::subrs_alone, crate::proofs::AloneLaws::glyphs_alone))]
fn add_bodies(
    alloc: Global,
    subrs: &mut IndexMap<u16, Body>,
    glyphs: &mut IndexMap<Vec<u8>, Body>,
    items: &Items,
) -> Result<(), Refusal>
    requires subrs { subrs.old.entries ≡ [] }
    requires glyphs { glyphs.old.entries ≡ [] }
    ensures checked { Gives (λ x. x) result (bodies_check items.now) }
    ensures subrs { OnOk result
        ((n : ℕ) → subr_body_kept subrs.new.entries n ≡ subr_among items.now n) }
    ensures glyphs { OnOk result
        ((g : List ℕ) → glyph_body_kept glyphs.new.entries g ≡ glyph_among items.now g) }
{
    let mut empty = empty_names(alloc, items.glyphs_needed() as usize)?;
    for item in items.iter().alone() {
        add_body(alloc, subrs, glyphs, &mut empty, item)?;
    }
    Ok(())
}

/// The bodies of the entries, or their first fault, at its entry.
pub fn compiled(alloc: Global, items: &Items) -> Result<Plain, Refusal>
    ensures checked { Gives (λ _. tt) result (bodies_check items.now) }
    ensures bodies { IfOk result (λ plain. SameBodies (plain_bodies plain) (bodies items.now)) }
{
    let mut subrs = IndexMap::new(alloc);
    let mut glyphs = IndexMap::new(alloc);
    add_bodies(alloc, &mut subrs, &mut glyphs, items)?;
    Ok(Plain { subrs, glyphs })
}
