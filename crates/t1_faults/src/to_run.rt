//! The bodies of a source as they are run to find its faults, and their runs.

ghost use Rattle.std.specs.Prelude.{◌≡◌, ◌==◌, ◌||◌, ℕ, List, [], None, Some, IfOk, OnOk};
ghost use Rattle.std.specs.Prelude.{nat_eq, if◌then◌else◌};
ghost use Rattle.std.specs.List.{list_any};
ghost use Rattle.std.specs.Option.{option_or};
ghost use Rattle.std.specs.Result.{result_ok};
ghost use Rattle.std.specs.Str.{bytes_eq};
ghost use Rattle.t1_code.specs.Words.{commands};
ghost use Rattle.t1_run.specs.Run.{own};
ghost use Rattle.t1_font.specs.Bodies.{subr_among, subr_in};
ghost use Rattle.t1_font.specs.KeptBodies.{glyph_body_kept, plain_bodies, subr_body_kept};
ghost use Rattle.t1_font.specs.Runs.{drawing_in};
ghost use Rattle.t1_font.specs.ToRun.{commands_or_none, font_to_run, glyph_to_run};
ghost use Rattle.t1_faults.specs.Failing.{failures_in, is_faulty_subr};
ghost use Rattle.t1_faults.specs.GlyphRuns.{failures_of};
ghost use Rattle.t1_run.specs.RunKeys.{has_number};
ghost use Rattle.t1_faults.specs.ToRun.{glyph_run_in};

use crate::glyph_runs::GlyphRuns;
use indexmap::{IndexMap, IndexSet};
use std::alloc::{AllocError, Global};
use t1_code::{Body, compile};
use t1_font::{Runs, glyph_names, runs_of};
use t1_frac::{Refusal, Words};
use t1_parts::{Item, Items};
use t1_run::{Meter, Plain};

/// The commands of a body's words, where none of them has a fault.
fn sound_body(alloc: Global, words: &Words) -> Result<Option<Body>, AllocError>
    ensures { IfOk result (λ body. body ≡ result_ok (commands words.now)) }
{
    match compile(alloc, words) {
        Ok(body) => Ok(Some(body)),
        Err(Refusal::Fault(_fault)) => Ok(None),
        Err(Refusal::Memory) => Err(AllocError),
    }
}

/// The commands of a body's words, or none where one of them has a fault.
fn body_to_run(alloc: Global, words: &Words) -> Result<Body, AllocError>
    ensures { IfOk result (λ body. body ≡ commands_or_none (commands words.now)) }
{
    match sound_body(alloc, words)? {
        Some(body) => Ok(body),
        None => Ok(Body::new(Vec::new(alloc))),
    }
}

/// Adds the body of a Subr, where its words have no fault and there is none of its number.
fn add_subr(
    alloc: Global,
    subrs: &mut IndexMap<u16, Body>,
    number: u16,
    words: &Words,
) -> Result<(), AllocError>
    ensures { OnOk result ((n : ℕ) → subr_body_kept subrs.new.entries n
        ≡ option_or
        (subr_body_kept subrs.old.entries n)
        (if n == number then result_ok (commands words.now) else None)) }
{
    let Some(body) = sound_body(alloc, words)? else {
        return Ok(());
    };
    if subrs.contains_key(&number) {
        return Ok(());
    }
    subrs.insert(number, body)?;
    Ok(())
}

/// Adds what is run of a glyph, where there is none of its name.
fn add_glyph(
    alloc: Global,
    glyphs: &mut IndexMap<Vec<u8>, Body>,
    name: &[u8],
    words: &Words,
) -> Result<(), AllocError>
    ensures { OnOk result ((g : List ℕ) → glyph_body_kept glyphs.new.entries g
        ≡ option_or
        (glyph_body_kept glyphs.old.entries g)
        (if bytes_eq g name.now then Some (commands_or_none (commands words.now)) else None)) }
{
    let body = body_to_run(alloc, words)?;
    if glyphs.contains_key(name) {
        return Ok(());
    }
    glyphs.insert(Vec::from_slice(alloc, name)?, body)?;
    Ok(())
}

/// Adds what is run of an item, where it is an entry.
fn add_item(
    alloc: Global,
    subrs: &mut IndexMap<u16, Body>,
    glyphs: &mut IndexMap<Vec<u8>, Body>,
    item: &Item,
) -> Result<(), AllocError>
    ensures subrs { OnOk result ((n : ℕ) → subr_body_kept subrs.new.entries n
        ≡ option_or (subr_body_kept subrs.old.entries n) (subr_in item.now n)) }
    ensures glyphs { OnOk result ((g : List ℕ) → glyph_body_kept glyphs.new.entries g
        ≡ option_or (glyph_body_kept glyphs.old.entries g) (glyph_run_in item.now g)) }
{
    match item {
        Item::Subr(number, words, _) => add_subr(alloc, subrs, *number, words),
        Item::Glyph(name, words, _) => add_glyph(alloc, glyphs, name.as_slice(), words),
        Item::Plain(_) => Ok(()),
        Item::Section(_, _, _) => Ok(()),
    }
}

/// Adds what is run of the entries to nothing.
#[tactic(auto, using(t1_font::proofs::AloneLaws::subrs_alone, crate::proofs::ToRunLaws::glyphs_alone))]
fn add_items(
    alloc: Global,
    subrs: &mut IndexMap<u16, Body>,
    glyphs: &mut IndexMap<Vec<u8>, Body>,
    items: &Items,
) -> Result<(), AllocError>
    requires subrs { subrs.old.entries ≡ [] }
    requires glyphs { glyphs.old.entries ≡ [] }
    ensures subrs { OnOk result ((n : ℕ) →
        subr_body_kept subrs.new.entries n ≡ subr_among items.now n) }
    ensures glyphs { OnOk result ((g : List ℕ) →
        glyph_body_kept glyphs.new.entries g ≡ glyph_to_run items.now g) }
{
    for item in items.iter().alone() {
        add_item(alloc, subrs, glyphs, item)?;
    }
    Ok(())
}

/// What is run of the entries: the commands of their words; of a glyph whose words have a fault no
/// commands, and of such a Subr nothing.
fn bodies_to_run(alloc: Global, items: &Items) -> Result<Plain, AllocError>
    ensures { IfOk result (λ plain. plain_bodies plain ≡ font_to_run items.now) }
{
    let mut subrs = IndexMap::new(alloc);
    let mut glyphs = IndexMap::new(alloc);
    add_items(alloc, &mut subrs, &mut glyphs, items)?;
    Ok(Plain { subrs, glyphs })
}

/// The runs of the glyphs' own bodies, or their first faults.
fn own_runs<'a>(alloc: Global, bodies: &Plain, items: &'a Items) -> Result<Runs<'a>, AllocError>
    requires { plain_bodies bodies.now ≡ font_to_run items.now }
    ensures { IfOk result (λ runs. drawing_in runs ≡ own (font_to_run items.now)) }
{
    let names = glyph_names(alloc, items)?;
    let mut meter = Meter::new();
    runs_of(alloc, bodies, &names, &mut meter)
}

/// Adds a number to others.
fn add_number(numbers: &mut IndexSet<u64>, number: u64) -> Result<(), AllocError>
    ensures { OnOk result ((n : ℕ) →
        has_number numbers.new.keys n ≡ (has_number numbers.old.keys n || nat_eq n number)) }
{
    numbers.insert(number)?;
    Ok(())
}

/// Adds the number of an item, where it is a Subr whose words have a fault.
fn add_faulty(alloc: Global, faulty: &mut IndexSet<u64>, item: &Item) -> Result<(), AllocError>
    ensures { OnOk result ((n : ℕ) →
        has_number faulty.new.keys n
        ≡ (has_number faulty.old.keys n || is_faulty_subr n item.now)) }
{
    match item {
        Item::Subr(number, words, _) => {
            if sound_body(alloc, words)?.is_some() {
                return Ok(());
            }
            add_number(faulty, u64::from(*number))
        }
        _ => Ok(()),
    }
}

/// The numbers of the Subrs whose words have a fault.
#[tactic(auto, using(crate::proofs::ToRunLaws::faulty_alone))]
fn faulty_subrs(alloc: Global, items: &Items) -> Result<IndexSet<u64>, AllocError>
    ensures { IfOk result (λ faulty. (n : ℕ) →
        has_number faulty.keys n ≡ list_any (is_faulty_subr n) items.now) }
{
    let mut faulty = IndexSet::new(alloc);
    for item in items.iter().alone() {
        add_faulty(alloc, &mut faulty, item)?;
    }
    Ok(faulty)
}

/// The runs of the glyphs of a source.
pub(crate) fn glyph_runs<'a>(alloc: Global, items: &'a Items) -> Result<GlyphRuns<'a>, AllocError>
    ensures runs { IfOk result (λ runs. drawing_in runs.runs ≡ own (font_to_run items.now)) }
    ensures failures { IfOk result (λ runs. failures_of runs ≡ failures_in items.now) }
{
    let bodies = bodies_to_run(alloc, items)?;
    let runs = own_runs(alloc, &bodies, items)?;
    let faulty = faulty_subrs(alloc, items)?;
    Ok(GlyphRuns {
        bodies,
        runs,
        faulty,
    })
}
