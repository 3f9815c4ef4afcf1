//! Where the runs of glyphs' own bodies fail, and which of it is told.

ghost use Rattle.std.specs.Prelude.{◌≡◌, ◌++◌, is_some, map, option_map, IfOk, OnOk};
ghost use Rattle.std.specs.Option.{option_to_list};
ghost use Rattle.t1_font.specs.KeptBodies.{plain_bodies};
ghost use Rattle.t1_font.specs.Runs.{drawing_in};
ghost use Rattle.t1_chain.specs.Machine.{failure_seen};
ghost use Rattle.t1_faults.specs.CodeForms.{entry_in_text};
ghost use Rattle.t1_faults.specs.Failing.{glyph_failure, is_missing_subr, missing_subr, natural};
ghost use Rattle.t1_faults.specs.Failing.{is_some_and, subr_told};
ghost use Rattle.t1_faults.specs.GlyphRuns.{failures_of, is_faulty, seen_run};
ghost use Rattle.t1_faults.specs.Judging.{first_fault_of_run};
ghost use Rattle.t1_faults.specs.Met.{failed_run, failed_runs};

use crate::entry_text::EntryText;
use crate::failed_run::FailedRun;
use crate::glyph_runs::GlyphRuns;
use std::alloc::{AllocError, Global};
use t1_chain::{Detail, Failure, failure_of};
use t1_font::Runs;
use t1_frac::{Bytes, Code, Place};
use t1_run::StoredBodies;

/// Whether the run of a glyph's own body has a fault.
fn has_failed(runs: &Runs, name: &[u8]) -> bool
    ensures { result ≡ is_some (first_fault_of_run (drawing_in runs.now name.now)) }
{
    match runs.get(name) {
        Some(Err(_code)) => true,
        _ => false,
    }
}

/// Where and why the run of a glyph's own body fails.
fn failure_at(alloc: Global, runs: &GlyphRuns, name: &[u8]) -> Result<Option<Failure>, AllocError>
    ensures { IfOk result (λ failure.
        option_map failure_seen failure ≡ glyph_failure (plain_bodies runs.now.bodies) name.now) }
{
    if !has_failed(&runs.runs, name) {
        return Ok(None);
    }
    let Some(body) = runs.bodies.glyph(name) else {
        return Ok(None);
    };
    failure_of(alloc, &runs.bodies, body)
}

/// Whether a code says that a Subr is missing.
fn is_missing_subr(code: Code) -> bool
    ensures { result ≡ is_missing_subr code }
{
    matches!(code, Code::F32)
}

/// A number that isn't negative.
fn natural(number: i64) -> Option<u64>
    ensures { result ≡ natural number }
{
    if number < 0 {
        return None;
    }
    Some(number.unsigned_abs())
}

/// The number that a detail tells, where it may be a Subr's.
fn subr_told(detail: &Detail) -> Option<u64>
    ensures { result ≡ subr_told detail.now }
{
    match detail {
        Detail::Number(number) => natural(number.num()),
        _ => None,
    }
}

/// The number of the Subr that a run misses, where it fails for that.
fn missing_subr(failure: &Failure) -> Option<u64>
    ensures { result ≡ missing_subr (failure_seen failure.now) }
{
    if !is_missing_subr(failure.code) {
        return None;
    }
    subr_told(&failure.detail)
}

/// Whether the words of the Subr that a run misses have a fault.
fn misses_faulty(runs: &GlyphRuns, failure: &Failure) -> bool
    ensures { result ≡ is_some_and (is_faulty runs.now) (missing_subr (failure_seen failure.now)) }
{
    match missing_subr(failure) {
        None => false,
        Some(number) => runs.faulty.contains(&number),
    }
}

/// Where and why the run of a glyph's own body fails, where that is told: what a run misses since
/// the words of a Subr have a fault is not.
fn told_failure(alloc: Global, runs: &GlyphRuns, name: &[u8]) -> Result<Option<Failure>, AllocError>
    ensures { IfOk result
        (λ failure. option_map failure_seen failure ≡ failures_of runs.now name.now) }
{
    let Some(failure) = failure_at(alloc, runs, name)? else {
        return Ok(None);
    };
    if misses_faulty(runs, &failure) {
        return Ok(None);
    }
    Ok(Some(failure))
}

/// The run of an entry, where it is a glyph's and fails, and that is told.
fn failed_run(
    alloc: Global,
    runs: &GlyphRuns,
    place: &Place,
) -> Result<Option<FailedRun>, AllocError>
    ensures { IfOk result (λ run.
        option_map seen_run run ≡ failed_run (failures_of runs.now) place.now) }
{
    let Place::Glyph(name) = place else {
        return Ok(None);
    };
    let Some(failure) = told_failure(alloc, runs, name.as_slice())? else {
        return Ok(None);
    };
    let glyph = Bytes::copied(alloc, name.as_slice())?;
    Ok(Some(FailedRun { glyph, failure }))
}

/// Adds the run of an entry, where it is a glyph's and fails, and that is told.
fn push_failed_run(
    alloc: Global,
    failed: &mut Vec<FailedRun>,
    runs: &GlyphRuns,
    place: &Place,
) -> Result<(), AllocError>
    ensures { OnOk result (map seen_run failed.new.items
        ≡ map seen_run failed.old.items
        ++ option_to_list (failed_run (failures_of runs.now) place.now)) }
{
    let Some(run) = failed_run(alloc, runs, place)? else {
        return Ok(());
    };
    failed.push(run)?;
    Ok(())
}

/// The runs of some entries that fail, in their order, of those that are told.
pub(crate) fn failed_runs(
    alloc: Global,
    runs: &GlyphRuns,
    entries: &[EntryText],
) -> Result<Vec<FailedRun>, AllocError>
    ensures { IfOk result (λ failed.
        map seen_run failed.items
        ≡ failed_runs (failures_of runs.now) (map entry_in_text entries.now)) }
{
    let mut failed = Vec::new(alloc);
    for entry in entries {
        push_failed_run(alloc, &mut failed, runs, &entry.place)?;
    }
    Ok(failed)
}
