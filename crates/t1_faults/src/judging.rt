//! Every fault of a source, each where it stands.

ghost use Rattle.std.specs.Prelude.{◌≡◌, ◌++◌, ◌∷◌, [], ℕ, List, Ok, flat_map, is_ok, map};
ghost use Rattle.std.specs.Prelude.{IfOk, OnOk};
ghost use Rattle.t1_text.specs.Lines.{lines};
ghost use Rattle.t1_parts.specs.Parts.{parts_of};
ghost use Rattle.t1_parts.specs.Reading.{reads};
ghost use Rattle.t1_font.specs.Assembly.{file_check};
ghost use Rattle.t1_font.specs.Bodies.{bodies_check};
ghost use Rattle.t1_font.specs.Glyphs.{glyph_names};
ghost use Rattle.t1_font.specs.Runs.{drawing_in};
ghost use Rattle.t1_faults.specs.Composites.{with_composites};
ghost use Rattle.t1_faults.specs.CodeForms.{entry_in_text, fault_in};
ghost use Rattle.t1_faults.specs.GlyphRuns.{failures_of, faults_kept_at, own_kept};
ghost use Rattle.t1_faults.specs.Judging.{entries_in, entry_faults, faults_among, faults_by};
ghost use Rattle.t1_faults.specs.Judging.{faults_of, file_faults, join_faults, source_faults};
ghost use Rattle.t1_faults.specs.Met.{failed_runs, faults_at, own_fault};

use crate::composites::tell_composites;
use crate::entry::entries_of;
use crate::entry_text::EntryText;
use crate::failing::failed_runs;
use crate::found::{FoundFault, at_entry, push_body_faults};
use crate::glyph_runs::GlyphRuns;
use crate::joins::join_fault;
use crate::met::{MetFaults, met_faults};
use crate::met_at_words::push_run_faults;
use crate::reading::{at_front, reading_fault};
use crate::to_run::glyph_runs;
use std::alloc::{AllocError, Global};
use t1_font::{Runs, checked_bodies, compiled, measured_glyphs};
use t1_frac::{Fault, Refusal};
use t1_parts::parts_of;
use t1_source::{Source, read_source};

/// Adds an entry's own faults: those of its body's words, or if there is none those of runs.
fn push_entry_faults<'a>(
    alloc: Global,
    found: &mut Vec<FoundFault<'a>>,
    met: &MetFaults,
    entry: &EntryText<'a>,
) -> Result<(), AllocError>
    ensures { OnOk result (found.new.items ≡ found.old.items
        ++ entry_faults (own_kept met.now.own.entries) (faults_kept_at met.now.in_subrs.entries)
        (entry_in_text entry.now)) }
{
    let before = found.len();
    push_body_faults(alloc, found, entry)?;
    if found.len() > before {
        return Ok(());
    }
    push_run_faults(alloc, found, met, entry)
}

/// Adds the own faults of all entries, in their order.
fn push_own_faults<'a>(
    alloc: Global,
    found: &mut Vec<FoundFault<'a>>,
    met: &MetFaults,
    entries: &[EntryText<'a>],
) -> Result<(), AllocError>
    ensures { OnOk result (found.new.items ≡ found.old.items ++ flat_map
        (entry_faults (own_kept met.now.own.entries) (faults_kept_at met.now.in_subrs.entries))
        (map entry_in_text entries.now)) }
{
    for entry in entries {
        push_entry_faults(alloc, found, met, entry)?;
    }
    Ok(())
}

/// Adds the fault of a composite's join, at the composite.
fn push_join_fault<'a>(
    alloc: Global,
    found: &mut Vec<FoundFault<'a>>,
    runs: &Runs,
    entry: &EntryText<'a>,
) -> Result<(), AllocError>
    ensures { OnOk result (found.new.items
        ≡ found.old.items ++ join_faults (drawing_in runs.now) (entry_in_text entry.now)) }
{
    let Some(code) = join_fault(alloc, runs, &entry.place)? else {
        return Ok(());
    };
    found.push(at_entry(alloc, entry, code)?)?;
    Ok(())
}

/// Adds the faults of all joins, in the order of the composites.
fn push_join_faults<'a>(
    alloc: Global,
    found: &mut Vec<FoundFault<'a>>,
    runs: &Runs,
    entries: &[EntryText<'a>],
) -> Result<(), AllocError>
    ensures { OnOk result (found.new.items ≡ found.old.items
        ++ flat_map (join_faults (drawing_in runs.now)) (map entry_in_text entries.now)) }
{
    for entry in entries {
        push_join_fault(alloc, found, runs, entry)?;
    }
    Ok(())
}

/// The fault of a source whose bodies have none, where a part of its file or a count is too long.
fn file_fault(alloc: Global, source: &Source) -> Result<Option<Fault>, AllocError>
    ensures { IfOk result (λ fault. fault ≡ fault_in (file_check source.now)) }
{
    match checked_bodies(alloc, source) {
        Ok(_bodies) => Ok(None),
        Err(Refusal::Fault(fault)) => Ok(Some(fault)),
        Err(Refusal::Memory) => Err(AllocError),
    }
}

/// Whether the bodies of a source have no fault.
fn are_sound(alloc: Global, source: &Source) -> Result<bool, AllocError>
    ensures { IfOk result (λ sound. sound ≡ is_ok (bodies_check source.now.items)) }
{
    match compiled(alloc, source.items()) {
        Ok(_bodies) => Ok(true),
        Err(Refusal::Fault(_fault)) => Ok(false),
        Err(Refusal::Memory) => Err(AllocError),
    }
}

/// Adds the fault of a source whose bodies have none, where a part of its file or a count is too
/// long.
fn push_file_fault<'a>(
    alloc: Global,
    found: &mut Vec<FoundFault<'a>>,
    source: &Source,
) -> Result<(), AllocError>
    ensures { OnOk result (found.new.items ≡ found.old.items
        ++ file_faults (bodies_check source.now.items) (file_check source.now)) }
{
    if !are_sound(alloc, source)? {
        return Ok(());
    }
    let Some(Fault { code, place }) = file_fault(alloc, source)? else {
        return Ok(());
    };
    found.push(at_front(alloc, code, place))?;
    Ok(())
}

/// The entries of a source in the bytes that it was read from.
fn source_entries<'a>(
    alloc: Global,
    bytes: &'a [u8],
    source: &Source,
) -> Result<Vec<EntryText<'a>>, AllocError>
    ensures { IfOk result (λ entries.
        map entry_in_text entries.items ≡ entries_in (parts_of (lines bytes.now)) source.now) }
{
    match parts_of(bytes) {
        Ok(parts) => {
            let number = source.clear().len() as u64 + 1;
            entries_of(alloc, number, parts.private, source.items())
        }
        Err(_fault) => Ok(Vec::new(alloc)),
    }
}

/// The faults that runs met of some entries.
fn met_of_entries(
    alloc: Global,
    runs: &GlyphRuns,
    entries: &[EntryText],
) -> Result<MetFaults, AllocError>
    ensures own { IfOk result (λ met. (g : List ℕ) → own_kept met.own.entries g
        ≡ own_fault (failed_runs (failures_of runs.now) (map entry_in_text entries.now)) g) }
    ensures in_subrs { IfOk result (λ met. (n k : ℕ) → faults_kept_at met.in_subrs.entries n k
        ≡ faults_at (failed_runs (failures_of runs.now) (map entry_in_text entries.now)) n k) }
{
    let failed = failed_runs(alloc, runs, entries)?;
    met_faults(alloc, &failed)
}

/// Every fault of a source that has these entries and runs, without composites.
fn faults_alone<'a>(
    alloc: Global,
    source: &Source,
    runs: &GlyphRuns,
    entries: &[EntryText<'a>],
) -> Result<Vec<FoundFault<'a>>, AllocError>
    ensures { IfOk result (λ found. found.items
        ≡ faults_by (failed_runs (failures_of runs.now) (map entry_in_text entries.now))
        (drawing_in runs.now.runs) source.now (map entry_in_text entries.now)) }
{
    let met = met_of_entries(alloc, runs, entries)?;
    let mut found = Vec::new(alloc);
    push_own_faults(alloc, &mut found, &met, entries)?;
    push_file_fault(alloc, &mut found, source)?;
    push_join_faults(alloc, &mut found, &runs.runs, entries)?;
    Ok(found)
}

/// Every fault of a source that has these entries and runs.
fn faults_by_runs<'a>(
    alloc: Global,
    source: &Source,
    runs: &GlyphRuns,
    entries: &[EntryText<'a>],
) -> Result<Vec<FoundFault<'a>>, AllocError>
    ensures { IfOk result (λ found. found.items
        ≡ with_composites (drawing_in runs.now.runs) (glyph_names source.now.items)
        (faults_by (failed_runs (failures_of runs.now) (map entry_in_text entries.now))
        (drawing_in runs.now.runs) source.now (map entry_in_text entries.now))) }
{
    let mut found = faults_alone(alloc, source, runs, entries)?;
    tell_composites(alloc, &mut found, &runs.runs, source.items())?;
    Ok(found)
}

/// Every fault of a source that has these entries.
fn faults_among<'a>(
    alloc: Global,
    source: &Source,
    entries: &[EntryText<'a>],
) -> Result<Vec<FoundFault<'a>>, AllocError>
    ensures { IfOk result (λ found.
        found.items ≡ faults_among source.now (map entry_in_text entries.now)) }
{
    let runs = glyph_runs(alloc, source.items())?;
    faults_by_runs(alloc, source, &runs, entries)
}

/// Every fault of a source that was read of some bytes.
fn faults_of_source<'a>(
    alloc: Global,
    bytes: &'a [u8],
    source: &Source,
) -> Result<Vec<FoundFault<'a>>, AllocError>
    ensures { IfOk result (λ found. found.items ≡ faults_of (lines bytes.now) source.now) }
{
    let entries = source_entries(alloc, bytes, source)?;
    faults_among(alloc, source, &entries)
}

/// The same; a source that `check` passes has none, and nothing is looked for in it.
fn faults_unless_sound<'a>(
    alloc: Global,
    bytes: &'a [u8],
    source: &Source,
) -> Result<Vec<FoundFault<'a>>, AllocError>
    requires { reads bytes.now ≡ Ok source.now }
    ensures { IfOk result (λ found. found.items ≡ faults_of (lines bytes.now) source.now) }
{
    match measured_glyphs(alloc, source) {
        Ok(_glyphs) => Ok(Vec::new(alloc)),
        Err(Refusal::Fault(_fault)) => faults_of_source(alloc, bytes, source),
        Err(Refusal::Memory) => Err(AllocError),
    }
}

/// One fault.
fn only<'a>(alloc: Global, fault: FoundFault<'a>) -> Result<Vec<FoundFault<'a>>, AllocError>
    ensures { IfOk result (λ found. found.items ≡ fault.entry ∷ []) }
{
    let mut found = Vec::new(alloc);
    found.push(fault)?;
    Ok(found)
}

/// Every fault of some bytes as a source, each where it stands: the one of reading them, or those
/// of entries in their order, F23, and those of joins. There is none exactly where the source has
/// no fault.
pub fn source_faults(alloc: Global, bytes: &[u8]) -> Result<Vec<FoundFault<'_>>, AllocError>
    ensures { IfOk result (λ found. found.items ≡ source_faults bytes.now) }
{
    match read_source(alloc, bytes) {
        Ok(source) => faults_unless_sound(alloc, bytes, &source),
        Err(Refusal::Fault(fault)) => only(alloc, reading_fault(alloc, bytes, fault)),
        Err(Refusal::Memory) => Err(AllocError),
    }
}
