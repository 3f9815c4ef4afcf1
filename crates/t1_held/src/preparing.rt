//! What edits make of what is kept of a source, made ready: what they change of the entries that
//! they name, the charstrings of these, and the records of the glyphs that the edits make stale.
ghost use Rattle.std.specs.Prelude.{◌≡◌, false, true, IfOk, List, MatchResult, OnOk, map};
ghost use Rattle.std.specs.Option.{option_or};
ghost use Rattle.t1_frac.specs.Outcome.{Gives, Refuses};
ghost use Rattle.t1_parts.specs.LenIV.{lead};
ghost use Rattle.t1_parts.specs.SourceParts.{SourceParts};
ghost use Rattle.t1_pairs.specs.declared.pairs.Pair.{Pair};
ghost use Rattle.t1_source.specs.declared.editing.Change.{Change};
ghost use Rattle.t1_source.specs.Changes.{changed, is_entry_changed};
ghost use Rattle.t1_source.specs.EditedSource.{made_of, may_set_lead};
ghost use Rattle.t1_run.specs.Run.{Key};
ghost use Rattle.t1_font.specs.Assembly.{file_check};
ghost use Rattle.t1_font.specs.OwnedKeys.{key_of};
ghost use Rattle.t1_font.specs.Runs.{Counts};
ghost use Rattle.t1_font.specs.SourceChecks.{source_check};
ghost use Rattle.t1_charstrings.specs.Batch.{AreEdits};
ghost use Rattle.t1_charstrings.specs.Beside.{IsKeptBeside};
ghost use Rattle.t1_charstrings.specs.Changed.{AreSameCharstrings};
ghost use Rattle.t1_charstrings.specs.Kept.{charstring_at};
ghost use Rattle.t1_charstrings.specs.Prepared.{IsMadeOf};
ghost use Rattle.t1_charstrings.specs.Ready.{IsReadyLines};
ghost use Rattle.t1_cache.specs.EditKeys.{named};
ghost use Rattle.t1_cache.specs.Recorded.{kept_of};
ghost use Rattle.t1_rerun.specs.Settled.{changed_keys};
ghost use Rattle.t1_held.specs.Batch.{count_begin, entry_edit, keys};
ghost use Rattle.t1_held.specs.Drafting.{IsEditedBy};
ghost use Rattle.t1_held.specs.Edits.{AreChanges, AreRight, IsPreparedEdit, MayBeRight};
ghost use Rattle.t1_held.specs.Entries.{fresh_in, fresh_one, gone_keys};
ghost use Rattle.t1_held.specs.declared.held.Held.{Held};
ghost use Rattle.t1_held.specs.Held.{IsHeld};
ghost use Rattle.t1_held.specs.Ready.{commit_runs, EncryptsAt, IsReadyHeld};

use crate::batch::{BatchEdits, COUNT_BEGIN, EditedEntry, batch_changes};
use crate::held::{Held, ReadyHeld};
use std::alloc::{AllocError, Global};
use t1_charstrings::{
    Charstrings, EditedEntries, ReadyLines, no_charstrings, prepare_anew, prepare_lines,
    put_fresh_glyph, put_fresh_subr,
};
use t1_font::OwnedKey;
use t1_frac::Refusal;
use t1_pairs::Pairs;
use t1_rerun::{EntryChange, change_alone, change_of_edit, prepare_changes};
use t1_run::Meter;
use t1_source::laws::{source_is_well_formed, text_of_source_read};
use t1_source::{Change, Edit, EditedSource, Source};

/// Edits that keep the edit rules: the source that is edited, the one that they make of it, and
/// what they change of the entries that they name, each once. A single edit is a batch of one. Of a
/// batch it holds how long the private text was, with what it changed beside the charstrings.
#[derive(Drop)]
struct Edits<'e, 'a> {
    source: &'e Source<'a>,
    made: EditedSource<'e, 'a>,
    changes: Vec<EntryChange>,
    beside: Option<usize>,
}

/// The entry that one edit names, where it names one, with its body after it; or the fault of the
/// edit's words.
fn changes_of_edit(alloc: Global, edit: &Edit) -> Result<Vec<EntryChange>, Refusal>
    ensures { (s : SourceParts) (k : List Pair) (change : Change) (h : Held)
        → IsPreparedEdit s k edit.now change h
        → MatchResult result
        (λ changes. AreChanges s (changed change s k).0 (named edit.now) h changes.items)
        (λ refusal. Refuses refusal (file_check (changed change s k).0)) }
{
    let change = change_of_edit(alloc, edit)?;
    Ok(change_alone(alloc, change)?)
}

/// What became of the entries that the edits of a batch name, or the first fault of one.
fn changes_of_batch(
    alloc: Global,
    source: &Source,
    made: &Source,
    entries: Vec<EditedEntry>,
) -> Result<Vec<EntryChange>, Refusal>
    ensures { (h : Held)
        → IsHeld source.now h
        → IsEditedBy (map entry_edit entries.items) source.now made.now
        → MatchResult result
        (λ changes.
        AreChanges source.now made.now (keys (map entry_edit entries.items)) h
        changes.items) (λ refusal. Refuses refusal (file_check made.now)) }
{
    text_of_source_read(source);
    batch_changes(alloc, made, entries)
}

/// Encrypts the body of a change, where it has one.
fn put_fresh(
    alloc: Global,
    lead: u8,
    fresh: &mut Charstrings,
    change: &EntryChange,
) -> Result<(), AllocError>
    ensures { OnOk result
        ((k : Key)
        → charstring_at fresh.new k
        ≡ option_or (fresh_one lead change.now k) (charstring_at fresh.old k)) }
{
    let Some(body) = &change.body else {
        return Ok(());
    };
    match &change.named {
        OwnedKey::Subr(number) => put_fresh_subr(alloc, lead, fresh, *number, body),
        OwnedKey::Glyph(name) => put_fresh_glyph(alloc, lead, fresh, name.as_slice(), body),
    }
}

/// The charstrings of the changed entries that have a body, encrypted after so many leading bytes.
fn fresh_charstrings(
    alloc: Global,
    lead: u8,
    changes: &[EntryChange],
) -> Result<Charstrings, AllocError>
    ensures { IfOk result
        (λ fresh. (k : Key) → charstring_at fresh k ≡ fresh_in lead changes.now k) }
{
    let mut fresh = no_charstrings(alloc);
    for change in changes {
        put_fresh(alloc, lead, &mut fresh, change)?;
    }
    Ok(fresh)
}

/// The changed entries that have no body any more.
fn gone_entries(alloc: Global, changes: &[EntryChange]) -> Result<Vec<OwnedKey>, AllocError>
    ensures { IfOk result (λ gone. map key_of gone.items ≡ gone_keys changes.now) }
{
    let mut gone = Vec::new(alloc);
    for change in changes {
        if change.body.is_none() {
            gone.push(change.named.copied(alloc)?)?;
        }
    }
    Ok(gone)
}

/// What changes make of the charstrings: only those of the changed entries are encrypted, after so
/// many leading bytes.
fn edited_entries(
    alloc: Global,
    lead: u8,
    changes: &[EntryChange],
) -> Result<EditedEntries, AllocError>
    ensures fresh { IfOk result
        (λ entries. (k : Key) → charstring_at entries.fresh k ≡ fresh_in lead changes.now k) }
    ensures gone { IfOk result
        (λ entries. map key_of entries.gone.items ≡ gone_keys changes.now) }
{
    Ok(EditedEntries {
        fresh: fresh_charstrings(alloc, lead, changes)?,
        gone: gone_entries(alloc, changes)?,
    })
}

/// What changes make of the charstrings of a source. Where there are none, nothing of the source is
/// asked for.
fn entries_of(
    alloc: Global,
    source: &Source,
    changes: &[EntryChange],
) -> Result<EditedEntries, AllocError>
    ensures fresh { IfOk result
        (λ entries.
        (k : Key) → charstring_at entries.fresh k ≡ fresh_in (lead source.now) changes.now k) }
    ensures gone { IfOk result
        (λ entries. map key_of entries.gone.items ≡ gone_keys changes.now) }
{
    if changes.is_empty() {
        return Ok(EditedEntries {
            fresh: no_charstrings(alloc),
            gone: Vec::new(alloc),
        });
    }
    edited_entries(alloc, source.lead(), changes)
}

/// What edits make of the charstrings and of the length of the private text, or the first fault of
/// the source that they make. Nothing is changed: there may be more room among the charstrings.
/// Only the entries that the edits name are encrypted, unless lenIV was edited: then all are
/// encrypted anew.
fn lines_of_edits(
    alloc: Global,
    charstrings: &mut Charstrings,
    private_len: usize,
    beside: Option<usize>,
    source: &Source,
    made: &EditedSource,
    changes: &[EntryChange],
) -> Result<ReadyLines, Refusal>
    requires prepared { IsMadeOf source.now private_len beside made.now }
    requires edits { (entries : EditedEntries)
        → ((k : Key) → charstring_at entries.fresh k ≡ fresh_in (lead source.now) changes.now k)
        → map key_of entries.gone.items ≡ gone_keys changes.now
        → AreEdits source.now (made_of made.now) charstrings.old entries }
    ensures same { AreSameCharstrings charstrings.old charstrings.new }
    ensures judged { Gives (λ _. tt) result (file_check (made_of made.now)) }
    ensures ready { IfOk result (IsReadyLines (made_of made.now) charstrings.new) }
    ensures encrypted { IfOk result
        (λ lines.
        may_set_lead source.now made.now ≡ false
        → EncryptsAt (changed_keys changes.now) lines.charstrings) }
{
    let entries = entries_of(alloc, source, changes)?;
    if made.may_set_lead(source) {
        return prepare_anew(alloc, made);
    }
    prepare_lines(charstrings, private_len, beside, source, made, entries)
}

/// Judges the source that edits make, whose bodies have no fault, by its first fault, and makes all
/// that is to be kept of it.
fn prepare_edits(
    alloc: Global,
    held: &mut Held,
    edits: Edits,
    meter: &mut Meter,
) -> Result<ReadyHeld, Refusal>
    requires { MayBeRight held.old edits }
    ensures checked { (ks : List Key) (made : SourceParts)
        → AreRight ks made held.old edits.entry
        → Gives (λ _. tt) result (source_check made) }
    ensures ready { (ks : List Key) (made : SourceParts)
        → AreRight ks made held.old edits.entry
        → IfOk result (IsReadyHeld meter.old ks edits.entry.source.now made held.new) }
    ensures encrypted { (ks : List Key) (made : SourceParts)
        → AreRight ks made held.old edits.entry
        → IfOk result
        (λ ready.
        may_set_lead edits.entry.source.now edits.entry.made ≡ false
        → EncryptsAt ks ready.lines.charstrings) }
    ensures held { (s : SourceParts) → IsHeld s held.old → IsHeld s held.new }
    ensures kept { map kept_of held.new.records.glyphs.entries
        ≡ map kept_of held.old.records.glyphs.entries }
    ensures counted { (ks : List Key) (made : SourceParts)
        → AreRight ks made held.old edits.entry
        → Counts (commit_runs ks edits.entry.source.now made) meter.old meter.new result }
{
    let Edits {
        source,
        made,
        changes,
        beside,
    } = edits;
    let lines = lines_of_edits(
        alloc,
        &mut held.charstrings,
        held.private_len,
        beside,
        source,
        &made,
        &changes,
    )?;
    match prepare_changes(alloc, &mut held.records, changes, &made, meter) {
        Ok(records) => Ok(ReadyHeld { records, lines }),
        Err(refusal) => {
            drop(lines);
            Err(refusal)
        }
    }
}

/// Judges the source that an edit makes by its first fault, and makes all that is to be kept of it.
/// The edited source isn't there yet: the change that was prepared for the edit tells of it. The
/// glyphs that the edit makes stale are run, each once, and no others; only the entry that it names
/// is compiled and encrypted, unless lenIV was set. What was kept stays, also where the source is
/// refused or memory runs out.
pub fn prepare_edit<'e, 'a>(
    alloc: Global,
    held: &mut Held,
    source: &'e Source<'a>,
    pairs: &Pairs,
    edit: &Edit,
    change: &'e Change<'a>,
    meter: &mut Meter,
) -> Result<ReadyHeld, Refusal>
    requires { IsPreparedEdit source.now pairs.now edit.now change.now held.old }
    ensures checked { Gives (λ _. tt) result
        (source_check (changed change.now source.now pairs.now).0) }
    ensures ready { IfOk result
        (IsReadyHeld meter.old (named edit.now) source.now
        (changed change.now source.now pairs.now).0 held.new) }
    ensures encrypted { IfOk result
        (λ ready. is_entry_changed change.now source.now ≡ true
        → EncryptsAt (named edit.now) ready.lines.charstrings) }
    ensures held { (s : SourceParts) → IsHeld s held.old → IsHeld s held.new }
    ensures kept { map kept_of held.new.records.glyphs.entries
        ≡ map kept_of held.old.records.glyphs.entries }
    ensures counted { Counts
        (commit_runs (named edit.now) source.now (changed change.now source.now pairs.now).0)
        meter.old meter.new result }
{
    let changes = changes_of_edit(alloc, edit)?;
    let made = EditedSource::prepared(source, change);
    let edits = Edits {
        source,
        made,
        changes,
        beside: None,
    };
    prepare_edits(alloc, held, edits, meter)
}

/// How long the private text was, with what a batch changed beside the charstrings, by its count;
/// `None` where this was given up.
fn len_of_count(private_len: usize, beside: Option<usize>) -> Option<usize>
    ensures { (s made : SourceParts)
        → IsKeptBeside s count_begin made beside
        → IsKeptBeside s private_len made result }
{
    beside?.checked_add(private_len)?.checked_sub(COUNT_BEGIN)
}

/// Judges the source that the edits of a batch made by its first fault, and makes all that is to be
/// kept of it. The glyphs that the edits make stale are run, each once, and no others; only entries
/// that they name are compiled and encrypted, unless lenIV is another one. What was kept stays,
/// also where the source is refused or memory runs out.
pub fn prepare_batch<'e, 'a>(
    alloc: Global,
    held: &mut Held,
    source: &'e Source<'a>,
    made: &'e Source<'a>,
    edits: BatchEdits,
    meter: &mut Meter,
) -> Result<ReadyHeld, Refusal>
    requires held { IsHeld source.now held.old }
    requires edited { IsEditedBy (map entry_edit edits.entries.items) source.now made.now }
    requires beside { IsKeptBeside source.now count_begin made.now edits.beside }
    ensures checked { Gives (λ _. tt) result (source_check made.now) }
    ensures ready { IfOk result
        (IsReadyHeld meter.old (keys (map entry_edit edits.entries.items)) source.now made.now
        held.new) }
    ensures encrypted { IfOk result
        (λ ready. lead made.now ≡ lead source.now
        → EncryptsAt (keys (map entry_edit edits.entries.items)) ready.lines.charstrings) }
    ensures held { (s : SourceParts) → IsHeld s held.old → IsHeld s held.new }
    ensures kept { map kept_of held.new.records.glyphs.entries
        ≡ map kept_of held.old.records.glyphs.entries }
    ensures counted { Counts
        (commit_runs (keys (map entry_edit edits.entries.items)) source.now made.now) meter.old
        meter.new result }
{
    let BatchEdits { entries, beside } = edits;
    let changes = changes_of_batch(alloc, source, made, entries)?;
    source_is_well_formed(source);
    let beside = len_of_count(held.private_len, beside);
    let made = EditedSource::alone(made);
    let edits = Edits {
        source,
        made,
        changes,
        beside,
    };
    prepare_edits(alloc, held, edits, meter)
}
