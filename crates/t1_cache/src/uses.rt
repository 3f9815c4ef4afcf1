//! What runs use: the Subrs that they enter, and the parts of composites.
ghost use Rattle.std.specs.Prelude.{◌≡◌, ◌&&◌, ◌||◌, [], ℕ, List, None, Some, IfOk, OnOk, Ok};
ghost use Rattle.std.specs.Prelude.{option_map};
ghost use Rattle.std.specs.Str.{bytes_eq};
ghost use Rattle.t1_run.specs.Footprint.{asks};
ghost use Rattle.t1_run.specs.Run.{Key};
ghost use Rattle.t1_run.specs.RunKeys.{key_eq};
ghost use Rattle.t1_run.specs.Touched.{is_user};
ghost use Rattle.t1_font.specs.Runs.{drawing_in};
ghost use Rattle.t1_cache.specs.Renewed.{recorded_run};
ghost use Rattle.t1_cache.specs.Users.{is_name_among, has_pair};
ghost use Rattle.t1_font.specs.OwnedKeys.{key_of};

use crate::records::Records;
use std::alloc::{AllocError, Global};
use t1_extent::KeptRun;
use t1_font::{OwnedKey, Runs};
use t1_frac::Bytes;
use t1_run::Composite;

/// Adds a Subr or a glyph, with a glyph that uses it.
fn push_use(
    alloc: Global,
    pairs: &mut Vec<(OwnedKey, Vec<u8>)>,
    named: OwnedKey,
    name: &[u8],
) -> Result<(), AllocError>
    ensures { OnOk result
        ((k : Key) (u : List ℕ)
        → has_pair pairs.new.items k u
        ≡ (has_pair pairs.old.items k u || (key_eq k (key_of named) && bytes_eq u name.now))) }
{
    pairs.push((named, Vec::from_slice(alloc, name)?))?;
    Ok(())
}

/// Adds each of these Subrs, with the glyph whose run enters it.
fn push_entered(
    alloc: Global,
    pairs: &mut Vec<(OwnedKey, Vec<u8>)>,
    entered: &[u16],
    name: &[u8],
) -> Result<(), AllocError>
    ensures { OnOk result
        ((k : Key) (u : List ℕ)
        → has_pair pairs.new.items k u
        ≡ (has_pair pairs.old.items k u || (asks None entered.now k && bytes_eq u name.now))) }
{
    for number in entered {
        push_use(alloc, pairs, OwnedKey::Subr(*number), name)?;
    }
    Ok(())
}

/// Adds the parts of a composite, with the composite.
fn push_parts(
    alloc: Global,
    pairs: &mut Vec<(OwnedKey, Vec<u8>)>,
    parts: &Composite,
    name: &[u8],
) -> Result<(), AllocError>
    ensures { OnOk result
        ((k : Key) (u : List ℕ)
        → has_pair pairs.new.items k u
        ≡ (has_pair pairs.old.items k u ||
        (asks (Some parts.now) [] k && bytes_eq u name.now))) }
{
    let base = Bytes::copied(alloc, parts.base.as_slice())?;
    push_use(alloc, pairs, OwnedKey::Glyph(base), name)?;
    let accent = Bytes::copied(alloc, parts.accent.as_slice())?;
    push_use(alloc, pairs, OwnedKey::Glyph(accent), name)?;
    Ok(())
}

/// Adds each Subr and each glyph that the run of a glyph uses, with the glyph.
fn push_uses(
    alloc: Global,
    pairs: &mut Vec<(OwnedKey, Vec<u8>)>,
    run: &KeptRun,
    name: &[u8],
) -> Result<(), AllocError>
    ensures { OnOk result
        ((k : Key) (u : List ℕ)
        → has_pair pairs.new.items k u
        ≡ (has_pair pairs.old.items k u ||
        (asks run.now.drawing.composite run.now.drawing.entered k && bytes_eq u
        name.now))) }
{
    push_entered(alloc, pairs, run.entered(), name)?;
    if let Some(parts) = run.composite() {
        push_parts(alloc, pairs, parts, name)?;
    }
    Ok(())
}

/// The users that these glyphs leave: each Subr and each glyph that the run of a glyph's record
/// uses, with the glyph.
pub fn leaves_of(
    alloc: Global,
    records: &Records,
    names: &[&[u8]],
) -> Result<Vec<(OwnedKey, Vec<u8>)>, AllocError>
    ensures { IfOk result
        (λ pairs.
        (k : Key) (u : List ℕ)
        → has_pair pairs.items k u
        ≡ (is_name_among (λ name. name.now) names.now u && is_user k
        (recorded_run records.now u))) }
{
    let mut pairs = Vec::new(alloc);
    for name in names {
        let Some(glyph) = records.glyphs.get(*name) else {
            continue;
        };
        push_uses(alloc, &mut pairs, &glyph.record().run, name)?;
    }
    Ok(pairs)
}

/// The run of a glyph, where it is kept and has no fault.
fn run_of<'a>(runs: &'a Runs, name: &[u8]) -> Option<&'a KeptRun>
    ensures { (k : Key)
        → is_user k (option_map (λ run. Ok run.now.drawing) result)
        ≡ is_user k (drawing_in runs.now name.now) }
{
    match runs.get(name) {
        Some(Ok(run)) => Some(run),
        _ => None,
    }
}

/// The users that these glyphs join: each Subr and each glyph that the run of a glyph uses, with
/// the glyph. A run with a fault uses nothing.
pub fn joins_of(
    alloc: Global,
    runs: &Runs,
    names: &[&[u8]],
) -> Result<Vec<(OwnedKey, Vec<u8>)>, AllocError>
    ensures { IfOk result
        (λ pairs.
        (k : Key) (u : List ℕ)
        → has_pair pairs.items k u
        ≡ (is_name_among (λ name. name.now) names.now u && is_user k (drawing_in runs.now u))) }
{
    let mut pairs = Vec::new(alloc);
    for name in names {
        let Some(run) = run_of(runs, name) else {
            continue;
        };
        push_uses(alloc, &mut pairs, run, name)?;
    }
    Ok(pairs)
}
