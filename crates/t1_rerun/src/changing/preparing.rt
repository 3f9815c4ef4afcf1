//! The changes of records, each with the memory that it takes.
ghost use Rattle.std.specs.Prelude.{◌≡◌, ◌&&◌, ℕ, Bool, false, List, Option, None, Some, IfOk};
ghost use Rattle.std.specs.Prelude.{IfSome, true, is_some, length, not, if◌then◌else◌};
ghost use Rattle.std.specs.Str.{bytes_eq};
ghost use Rattle.t1_run.specs.Run.{Glyph};
ghost use Rattle.t1_run.specs.RunKeys.{body_at};
ghost use Rattle.t1_extent.specs.Kept.{TracedRun};
ghost use Rattle.t1_afm.specs.declared.bbox.BBox.{BBox};
ghost use Rattle.t1_font.specs.declared.owned_key.OwnedKey.TheVariants as named;
ghost use Rattle.t1_cache.specs.Bodies.{record_bodies};
ghost use Rattle.t1_cache.specs.Renewed.{reruns_by_name};
ghost use Rattle.t1_cache.specs.Room.{count_at};
ghost use Rattle.t1_cache.specs.Users.{pairs_of_key};
ghost use Rattle.t1_rerun.specs.Settled.{changed_keys, AreDistinctKeys};
ghost use Rattle.t1_rerun.specs.Steps.{entry_change, inserts, new_run, new_run_of, some_inserts};
ghost use Rattle.t1_rerun.specs.Steps.{takes_out, AreStepsOf, AreTakenOut, IsStepOf};

use crate::entry_change::EntryChange;
use crate::settling::RecordChange;
use indexmap::{IndexMap, IndexSet};
use std::alloc::{AllocError, Global};
use t1_cache::{
    BoxedRecord, Counts, GlyphRecord, Names, NewRun, NewRuns, Records, Rerun, SubrRecord,
    count_joins, users_of_glyph, users_of_subr,
};
use t1_code::Body;
use t1_font::OwnedKey;
use t1_frac::Bytes;
use t1_run::Bodies;

/// The new runs and boxes by the names of their glyphs. Of several reruns of a glyph the first
/// counts.
pub fn runs_by_name(alloc: Global, reruns: Vec<Rerun>) -> Result<NewRuns, AllocError>
    ensures { IfOk result
        (λ runs.
        (g : List ℕ) → new_run (reruns_by_name runs.entries) g ≡ new_run reruns.items g) }
{
    let mut runs = IndexMap::new(alloc);
    let mut left = reruns;
    while let Some(rerun) = left.pop() {
        let new = NewRun {
            run: rerun.run,
            bbox: rerun.bbox,
        };
        drop(runs.insert(rerun.name, new)?);
    }
    Ok(runs)
}

/// Takes out the new run and box of a glyph.
fn taken_run(runs: &mut NewRuns, name: &[u8]) -> Option<NewRun>
    ensures run { new_run_of result ≡ new_run (reruns_by_name runs.old.entries) name.now }
    ensures others { (g : List ℕ)
        → new_run (reruns_by_name runs.new.entries) g
        ≡ (if bytes_eq name.now g then None else new_run (reruns_by_name runs.old.entries) g) }
{
    runs.swap_remove(name)
}

/// Whether a glyph with a body keeps its place in the records.
fn keeps_place(records: &Records, name: &[u8], moved: bool) -> bool
    ensures { result
        ≡ (not moved && is_some (body_at (record_bodies records.now) (Glyph name.now))) }
{
    !moved && records.has_glyph(name)
}

/// The step of a Subr that has this body in the edited font.
fn subr_step(
    alloc: Global,
    records: &Records,
    number: u16,
    body: Body,
    counts: &Counts,
) -> Result<RecordChange, AllocError>
    ensures step { IfOk result
        (λ step.
        (run : List ℕ → Option (TracedRun × Option BBox)) (moved : Bool)
        → IsStepOf run (count_at counts.now) records.now
        (entry_change (named.Subr number) (Some body) moved) step) }
    ensures apart { IfOk result (λ step. (g : List ℕ) → inserts step g ≡ false) }
{
    if records.subr(number).is_some() {
        return Ok(RecordChange::Put(OwnedKey::Subr(number), body));
    }
    let users = users_of_subr(alloc, counts, number)?;
    Ok(RecordChange::InsertSubr(number, SubrRecord { body, users }))
}

/// The step of a glyph that has this body in the edited font, with its new run where it is put in.
fn glyph_step(
    alloc: Global,
    records: &Records,
    name: Bytes,
    body: Body,
    moved: bool,
    counts: &Counts,
    runs: &mut NewRuns,
) -> Result<RecordChange, AllocError>
    ensures step { IfOk result
        (IsStepOf (new_run (reruns_by_name runs.old.entries)) (count_at counts.now) records.now
        (entry_change (named.Glyph name) (Some body) moved)) }
    ensures runs { IfOk result
        (λ step.
        (g : List ℕ)
        → new_run (reruns_by_name runs.new.entries) g
        ≡ (if inserts step g then None else new_run (reruns_by_name runs.old.entries) g)) }
{
    if keeps_place(records, name.as_slice(), moved) {
        return Ok(RecordChange::Put(OwnedKey::Glyph(name), body));
    }
    let users = users_of_glyph(alloc, counts, name.as_slice())?;
    let Some(NewRun { run, bbox }) = taken_run(runs, name.as_slice()) else {
        return Ok(RecordChange::Remove(OwnedKey::Glyph(name)));
    };
    let record = GlyphRecord {
        body,
        run,
        bbox,
        users,
    };
    let record = BoxedRecord::new(alloc, record)?;
    Ok(RecordChange::InsertGlyph(name.into_vec(), record))
}

/// The step of a change.
fn step_of(
    alloc: Global,
    records: &Records,
    change: EntryChange,
    counts: &Counts,
    runs: &mut NewRuns,
) -> Result<RecordChange, AllocError>
    ensures step { IfOk result
        (IsStepOf (new_run (reruns_by_name runs.old.entries)) (count_at counts.now) records.now
        change) }
    ensures runs { IfOk result
        (λ step.
        (g : List ℕ)
        → new_run (reruns_by_name runs.new.entries) g
        ≡ (if inserts step g then None else new_run (reruns_by_name runs.old.entries) g)) }
{
    let EntryChange { named, body, moved } = change;
    let Some(body) = body else {
        return Ok(RecordChange::Remove(named));
    };
    match named {
        OwnedKey::Subr(number) => subr_step(alloc, records, number, body, counts),
        OwnedKey::Glyph(name) => glyph_step(alloc, records, name, body, moved, counts, runs),
    }
}

/// The steps of the changes, that of the first change last.
fn steps_of(
    alloc: Global,
    records: &Records,
    changes: Vec<EntryChange>,
    counts: &Counts,
    runs: &mut NewRuns,
) -> Result<Vec<RecordChange>, AllocError>
    requires { AreDistinctKeys (changed_keys changes.items) }
    ensures steps { IfOk result
        (λ steps.
        AreStepsOf (new_run (reruns_by_name runs.old.entries)) (count_at counts.now)
        records.now changes.items steps.items) }
    ensures runs { IfOk result
        (λ steps.
        (g : List ℕ)
        → new_run (reruns_by_name runs.new.entries) g
        ≡ (if some_inserts steps.items g then None else new_run
        (reruns_by_name runs.old.entries) g)) }
    ensures count { IfOk result (λ steps. length steps.items ≡ length changes.items) }
{
    let mut steps = Vec::new(alloc);
    let mut left = changes;
    while let Some(change) = left.pop() {
        steps.push(step_of(alloc, records, change, counts, runs)?)?;
    }
    Ok(steps)
}

/// The steps of the changes, where each pair is a Subr or a glyph and the glyph that joins its
/// users.
pub fn steps_with_room(
    alloc: Global,
    records: &Records,
    changes: Vec<EntryChange>,
    joins: &[(OwnedKey, Vec<u8>)],
    runs: &mut NewRuns,
) -> Result<Vec<RecordChange>, AllocError>
    requires { AreDistinctKeys (changed_keys changes.items) }
    ensures steps { IfOk result
        (λ steps.
        AreStepsOf (new_run (reruns_by_name runs.old.entries)) (pairs_of_key joins.now)
        records.now changes.items steps.items) }
    ensures runs { IfOk result
        (λ steps.
        (g : List ℕ)
        → new_run (reruns_by_name runs.new.entries) g
        ≡ (if some_inserts steps.items g then None else new_run
        (reruns_by_name runs.old.entries) g)) }
    ensures count { IfOk result (λ steps. length steps.items ≡ length changes.items) }
{
    let counts = count_joins(alloc, joins)?;
    steps_of(alloc, records, changes, &counts, runs)
}

/// The glyph that a step takes out of its place, where it takes out one.
fn name_taken_out(step: &RecordChange) -> Option<&[u8]>
    ensures { IfSome result (λ name. takes_out step.now name.now ≡ true) }
{
    match step {
        RecordChange::Remove(OwnedKey::Glyph(name)) => Some(name.as_slice()),
        RecordChange::InsertGlyph(name, _) => Some(name.as_slice()),
        _ => None,
    }
}

/// The same, where the glyph has a record.
fn recorded_name_taken_out<'a>(records: &Records, step: &'a RecordChange) -> Option<&'a [u8]>
    ensures { IfSome result (λ name. takes_out step.now name.now ≡ true) }
{
    let name = name_taken_out(step)?;
    if !records.has_glyph(name) {
        return None;
    }
    Some(name)
}

/// The names of the glyphs with a record that steps take out of their places, where there are
/// several steps. They save time alone: a step takes out its glyph where that is still there, and
/// for one glyph that takes less time than a pass over all.
pub fn taken_out(
    alloc: Global,
    records: &Records,
    steps: &[RecordChange],
) -> Result<Names, AllocError>
    ensures { IfOk result (λ names. AreTakenOut names.keys steps.now) }
{
    let mut names = IndexSet::new(alloc);
    if steps.len() < 2 {
        return Ok(names);
    }
    for step in steps {
        let Some(name) = recorded_name_taken_out(records, step) else {
            continue;
        };
        names.insert(Vec::from_slice(alloc, name)?)?;
    }
    Ok(names)
}
