//! The composites that stand on the glyphs that faults name.

ghost use Rattle.std.specs.Prelude.{◌≡◌, ◌++◌, ◌∷◌, [], ℕ, List, None, Some, IfOk, OnOk};
ghost use Rattle.std.specs.Prelude.{◌||◌, if◌then◌else◌, filter_map, map, nat_eq};
ghost use Rattle.std.specs.List.{list_any};
ghost use Rattle.std.specs.Option.{option_or, option_to_list};
ghost use Rattle.std.specs.Str.{bytes_eq};
ghost use Rattle.t1_font.specs.Glyphs.{glyph_names as names_of_glyphs};
ghost use Rattle.t1_font.specs.Runs.{drawing_in};
ghost use Rattle.t1_faults.specs.Composites.{faulty_under, faulty_within, is_chain_of};
ghost use Rattle.t1_faults.specs.Composites.{is_place_of_glyph, names_glyph, with_composites};
ghost use Rattle.t1_faults.specs.Composites.{with_names};
ghost use Rattle.t1_faults.specs.GlyphRuns.{composites_kept, composites_on, each_numbered};
ghost use Rattle.t1_faults.specs.GlyphRuns.{first_naming, number_kept};
ghost use Rattle.t1_run.specs.RunKeys.{has_number};

use crate::call_chains::CallChain;
use crate::found::FoundFault;
use crate::glyph_names::GlyphNames;
use indexmap::IndexMap;
use std::alloc::{AllocError, Global};
use t1_font::{Runs, glyph_names};
use t1_frac::{Bytes, Place};
use t1_parts::Items;

/// How deep the parts of a composite nest.
const PARTS_DEPTH: u8 = 3;

/// Keeps a number for a glyph that has none.
fn keep_number(
    alloc: Global,
    numbers: &mut IndexMap<Vec<u8>, usize>,
    name: &[u8],
    number: usize,
) -> Result<(), AllocError>
    ensures { OnOk result ((g : List ℕ) → number_kept numbers.new.entries g
        ≡ option_or
        (number_kept numbers.old.entries g)
        (if bytes_eq g name.now then Some number else None)) }
{
    if numbers.contains_key(name) {
        return Ok(());
    }
    numbers.insert(Vec::from_slice(alloc, name)?, number)?;
    Ok(())
}

/// Keeps a number for the glyph whose entry this is, where it has none.
fn keep_for_entry(
    alloc: Global,
    numbers: &mut IndexMap<Vec<u8>, usize>,
    place: &Place,
    number: usize,
) -> Result<(), AllocError>
    ensures { OnOk result ((g : List ℕ) → number_kept numbers.new.entries g
        ≡ option_or
        (number_kept numbers.old.entries g)
        (if is_place_of_glyph g place.now then Some number else None)) }
{
    match place {
        Place::Glyph(name) => keep_number(alloc, numbers, name.as_slice(), number),
        _ => Ok(()),
    }
}

/// Keeps a number for each glyph of these chains that has none.
fn keep_for_chains(
    alloc: Global,
    numbers: &mut IndexMap<Vec<u8>, usize>,
    chains: &[CallChain],
    number: usize,
) -> Result<(), AllocError>
    ensures { OnOk result ((g : List ℕ) → number_kept numbers.new.entries g
        ≡ option_or
        (number_kept numbers.old.entries g)
        (if list_any (is_chain_of g) chains.now then Some number else None)) }
{
    for chain in chains {
        keep_number(alloc, numbers, chain.glyph.as_slice(), number)?;
    }
    Ok(())
}

/// Keeps the number of a fault for each glyph that it names and that has none.
fn keep_for_named(
    alloc: Global,
    numbers: &mut IndexMap<Vec<u8>, usize>,
    fault: &FoundFault<'_>,
    number: usize,
) -> Result<(), AllocError>
    ensures { OnOk result ((g : List ℕ) → number_kept numbers.new.entries g
        ≡ option_or
        (number_kept numbers.old.entries g)
        (if names_glyph g fault.now then Some number else None)) }
{
    keep_for_entry(alloc, numbers, &fault.place, number)?;
    keep_for_chains(alloc, numbers, fault.chains.as_slice(), number)?;
    Ok(())
}

/// For each glyph that faults name the number of the first of them, from 0.
fn first_naming(
    alloc: Global,
    found: &[FoundFault<'_>],
) -> Result<IndexMap<Vec<u8>, usize>, AllocError>
    ensures { IfOk result (λ numbers. (g : List ℕ) →
        number_kept numbers.entries g ≡ first_naming 0 found.now g) }
{
    let mut numbers = IndexMap::new(alloc);
    for number in 0..found.len() {
        keep_for_named(alloc, &mut numbers, &found[number], number)?;
    }
    Ok(numbers)
}

/// The number that is kept for a glyph.
fn number_of(numbers: &IndexMap<Vec<u8>, usize>, name: &[u8]) -> Option<usize>
    ensures { result ≡ number_kept numbers.now.entries name.now }
{
    numbers.get(name).copied()
}

/// Adds a number, where there is one.
fn push_number(under: &mut Vec<usize>, number: Option<usize>) -> Result<(), AllocError>
    ensures { OnOk result (under.new.items ≡ under.old.items ++ option_to_list number) }
{
    let Some(number) = number else {
        return Ok(());
    };
    under.push(number)?;
    Ok(())
}

/// Adds the numbers of the glyphs with faults that a glyph is or stands on, where parts may nest so
/// deep.
fn push_found(
    under: &mut Vec<usize>,
    runs: &Runs,
    numbers: &IndexMap<Vec<u8>, usize>,
    depth: u8,
    name: &[u8],
) -> Result<(), AllocError>
    ensures { OnOk result (under.new.items
        ≡ under.old.items
        ++ filter_map (number_kept numbers.now.entries)
        (faulty_within (drawing_in runs.now) depth name.now)) }
{
    let run = match runs.get(name) {
        None => return Ok(()),
        Some(Err(_code)) => return push_number(under, number_of(numbers, name)),
        Some(Ok(run)) => run,
    };
    let Some(parts) = run.composite() else {
        return Ok(());
    };
    if depth == 0 {
        return Ok(());
    }
    push_found(under, runs, numbers, depth - 1, parts.base.as_slice())?;
    push_found(under, runs, numbers, depth - 1, parts.accent.as_slice())?;
    Ok(())
}

/// Adds the numbers of the glyphs with faults that a composite stands on.
fn push_under(
    under: &mut Vec<usize>,
    runs: &Runs,
    numbers: &IndexMap<Vec<u8>, usize>,
    name: &[u8],
) -> Result<(), AllocError>
    ensures { OnOk result (under.new.items
        ≡ under.old.items
        ++ filter_map (number_kept numbers.now.entries)
        (faulty_under (drawing_in runs.now) name.now)) }
{
    let run = match runs.get(name) {
        None => return Ok(()),
        Some(Err(_code)) => return Ok(()),
        Some(Ok(run)) => run,
    };
    let Some(parts) = run.composite() else {
        return Ok(());
    };
    push_found(under, runs, numbers, PARTS_DEPTH, parts.base.as_slice())?;
    push_found(under, runs, numbers, PARTS_DEPTH, parts.accent.as_slice())?;
    Ok(())
}

/// The numbers of the glyphs with faults that a composite stands on.
fn numbers_under(
    alloc: Global,
    runs: &Runs,
    numbers: &IndexMap<Vec<u8>, usize>,
    name: &[u8],
) -> Result<Vec<usize>, AllocError>
    ensures { IfOk result (λ under. under.items
        ≡ filter_map (number_kept numbers.now.entries)
        (faulty_under (drawing_in runs.now) name.now)) }
{
    let mut under = Vec::new(alloc);
    push_under(&mut under, runs, numbers, name)?;
    Ok(under)
}

/// Whether a number is among others.
fn has_number(numbers: &[usize], number: usize) -> bool
    ensures { result ≡ has_number numbers.now number }
{
    numbers.iter().any(|other| number == *other)
}

/// Takes out the composites that are kept for the fault of a number.
fn taken(alloc: Global, composites: &mut IndexMap<usize, GlyphNames>, number: usize) -> GlyphNames
    ensures taken { result ≡ composites_kept composites.old.entries number }
    ensures others { (n : ℕ) → composites_kept composites.new.entries n
        ≡ (if nat_eq n number then [] else composites_kept composites.old.entries n) }
{
    match composites.swap_remove(&number) {
        Some(names) => names,
        None => GlyphNames::new(alloc),
    }
}

/// Keeps composites for the fault of a number, in the place of those before.
fn keep(
    composites: &mut IndexMap<usize, GlyphNames>,
    number: usize,
    names: GlyphNames,
) -> Result<(), AllocError>
    ensures { OnOk result ((n : ℕ) → composites_kept composites.new.entries n
        ≡ (if nat_eq n number then names else composites_kept composites.old.entries n)) }
{
    composites.insert(number, names)?;
    Ok(())
}

/// Adds a composite to those of the fault of a number.
fn add_name(
    alloc: Global,
    composites: &mut IndexMap<usize, GlyphNames>,
    number: usize,
    name: &[u8],
) -> Result<(), AllocError>
    ensures { OnOk result ((n : ℕ) → composites_kept composites.new.entries n
        ≡ composites_kept composites.old.entries n
        ++ (if nat_eq n number then name.now ∷ [] else [])) }
{
    let mut names = taken(alloc, composites, number);
    names.push(Bytes::copied(alloc, name)?)?;
    keep(composites, number, names)?;
    Ok(())
}

/// Adds a composite to those of the fault of a number, unless the number comes again later.
fn add_last(
    alloc: Global,
    composites: &mut IndexMap<usize, GlyphNames>,
    number: usize,
    after: &[usize],
    name: &[u8],
) -> Result<(), AllocError>
    ensures { OnOk result ((n : ℕ) → composites_kept composites.new.entries n
        ++ (if has_number after.now n then name.now ∷ [] else [])
        ≡ composites_kept composites.old.entries n
        ++ (if nat_eq n number || has_number after.now n then name.now ∷ [] else [])) }
{
    if has_number(after, number) {
        return Ok(());
    }
    add_name(alloc, composites, number, name)?;
    Ok(())
}

/// Adds a composite to those of the faults of these numbers, once to each.
fn add_to_each(
    alloc: Global,
    composites: &mut IndexMap<usize, GlyphNames>,
    numbers: &[usize],
    name: &[u8],
) -> Result<(), AllocError>
    ensures { OnOk result ((n : ℕ) → composites_kept composites.new.entries n
        ≡ composites_kept composites.old.entries n
        ++ (if has_number numbers.now n then name.now ∷ [] else [])) }
{
    let mut rest = numbers;
    while let Some((number, after)) = rest.split_first() {
        add_last(alloc, composites, *number, after, name)?;
        rest = after;
    }
    Ok(())
}

/// The composites among these glyphs, for each number that is kept for a glyph on which they stand.
fn composites_on(
    alloc: Global,
    runs: &Runs,
    numbers: &IndexMap<Vec<u8>, usize>,
    glyphs: &[&[u8]],
) -> Result<IndexMap<usize, GlyphNames>, AllocError>
    ensures { IfOk result (λ composites. (n : ℕ) → composites_kept composites.entries n
        ≡ composites_on (number_kept numbers.now.entries) (drawing_in runs.now)
        (map (λ name. name.now) glyphs.now) n) }
{
    let mut composites = IndexMap::new(alloc);
    for name in glyphs {
        let under = numbers_under(alloc, runs, numbers, name)?;
        add_to_each(alloc, &mut composites, &under, name)?;
    }
    Ok(composites)
}

/// A copy of the composites that are kept for the fault of a number.
fn names_of(
    alloc: Global,
    composites: &IndexMap<usize, GlyphNames>,
    number: usize,
) -> Result<GlyphNames, AllocError>
    ensures { IfOk result (λ names. names ≡ composites_kept composites.now.entries number) }
{
    match composites.get(&number) {
        Some(names) => names.copied(alloc),
        None => Ok(GlyphNames::new(alloc)),
    }
}

/// Gives a fault these composites.
fn give(fault: &mut FoundFault<'_>, names: GlyphNames)
    ensures { fault.new ≡ with_names names fault.old }
{
    fault.composites = names;
}

/// Gives each fault the composites of its number.
fn give_each(
    alloc: Global,
    found: &mut Vec<FoundFault<'_>>,
    composites: &IndexMap<usize, GlyphNames>,
) -> Result<(), AllocError>
    ensures { OnOk result (found.new.items
        ≡ each_numbered (composites_kept composites.now.entries) 0 found.old.items) }
{
    for number in 0..found.len() {
        let names = names_of(alloc, composites, number)?;
        give(&mut found[number], names);
    }
    Ok(())
}

/// The composites among the glyphs of a source, for each number that is kept for a glyph on which
/// they stand.
fn composites_among(
    alloc: Global,
    runs: &Runs,
    numbers: &IndexMap<Vec<u8>, usize>,
    items: &Items,
) -> Result<IndexMap<usize, GlyphNames>, AllocError>
    ensures { IfOk result (λ composites. (n : ℕ) → composites_kept composites.entries n
        ≡ composites_on (number_kept numbers.now.entries) (drawing_in runs.now)
        (names_of_glyphs items.now) n) }
{
    let glyphs = glyph_names(alloc, items)?;
    composites_on(alloc, runs, numbers, &glyphs)
}

/// The composites of a source, for the number of each fault that is the first to name a glyph with
/// a fault on which they stand.
fn numbered_composites(
    alloc: Global,
    found: &[FoundFault<'_>],
    runs: &Runs,
    items: &Items,
) -> Result<IndexMap<usize, GlyphNames>, AllocError>
    ensures { IfOk result (λ composites. (n : ℕ) → composites_kept composites.entries n
        ≡ composites_on (first_naming 0 found.now) (drawing_in runs.now)
        (names_of_glyphs items.now) n) }
{
    let numbers = first_naming(alloc, found)?;
    composites_among(alloc, runs, &numbers, items)
}

/// Gives faults the composites that stand on the glyphs that they name, each of which has a fault:
/// with the first fault that names it.
pub(crate) fn tell_composites(
    alloc: Global,
    found: &mut Vec<FoundFault<'_>>,
    runs: &Runs,
    items: &Items,
) -> Result<(), AllocError>
    ensures { OnOk result (found.new.items
        ≡ with_composites (drawing_in runs.now) (names_of_glyphs items.now) found.old.items) }
{
    let composites = numbered_composites(alloc, found, runs, items)?;
    give_each(alloc, found, &composites)?;
    Ok(())
}
