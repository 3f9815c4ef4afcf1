//! Records changed to those of an edited source, by what was prepared for the changes of its
//! entries. It takes no memory and can't fail.
ghost use Rattle.std.specs.Prelude.{◌≡◌, ◌<◌, ◌≤◌, ℕ, List, None, filter, length, map, not};
ghost use Rattle.std.specs.List.{AllByRecursion};
ghost use Rattle.indexmap.specs.IndexMap.{spare};
ghost use Rattle.t1_parts.specs.SourceParts.{SourceParts};
ghost use Rattle.t1_run.specs.Run.{Key};
ghost use Rattle.t1_run.specs.Touched.{is_key_of};
ghost use Rattle.t1_cache.specs.Changed.{PutsBody, SetsBody, SetsUsers, UsesUp};
ghost use Rattle.t1_cache.specs.Recorded.{kept_of};
ghost use Rattle.t1_cache.specs.Users.{users_at};
ghost use Rattle.t1_font.specs.OwnedKeys.{key_of};
ghost use Rattle.t1_rerun.specs.Changing.{ArePreparedChanges, IsReadyFor};
ghost use Rattle.t1_rerun.specs.Renewing.{IsRunWhereStale};
ghost use Rattle.t1_rerun.specs.Right.{IsRight};
ghost use Rattle.t1_rerun.specs.Settled.{changed_keys, IsJudged, IsReady, IsRenewedBy};
ghost use Rattle.t1_rerun.specs.Settled.{MayBeSettled};
ghost use Rattle.t1_rerun.specs.Steps.{after_all, seen, seen_after, AreTakenOut};

use crate::changing::Renewal;
use crate::entry_change::EntryChange;
use t1_cache::{
    BoxedRecord, Names, NewRuns, Records, SubrRecord, move_users, put_glyph, put_in_subr,
    put_last_glyph, put_subr, remove_glyph, remove_glyphs, remove_subr, renew_by_name,
};
use t1_code::Body;
use t1_font::OwnedKey;

/// A change of one record, with all the memory that it takes.
#[derive(Drop)]
pub enum RecordChange {
    /// The record is taken out.
    Remove(OwnedKey),
    /// The record has another body.
    Put(OwnedKey, Body),
    /// A new record is put in.
    InsertSubr(u16, SubrRecord),
    /// A new record is put in after the others; one that was there goes.
    InsertGlyph(Vec<u8>, BoxedRecord),
}

/// The changes of records, with all the memory that they take.
#[derive(Drop)]
pub struct Ready {
    // The first is the last.
    pub(crate) steps: Vec<RecordChange>,
    // The glyphs whose records leave their places.
    pub(crate) taken: Names,
    pub(crate) runs: NewRuns,
    pub(crate) leaves: Vec<(OwnedKey, Vec<u8>)>,
    pub(crate) joins: Vec<(OwnedKey, Vec<u8>)>,
}

/// Takes out the record of a Subr or a glyph.
fn remove(records: &mut Records, named: &OwnedKey)
    ensures bodies { SetsBody (key_of named.now) None records.old records.new }
    ensures users { SetsUsers (key_of named.now) None records.old records.new }
    ensures kept { map kept_of records.new.glyphs.entries
        ≡ filter (λ k. not (is_key_of k.name (key_of named.now)))
        (map kept_of records.old.glyphs.entries) }
    ensures room { UsesUp 0 records.old records.new }
{
    match named {
        OwnedKey::Subr(number) => remove_subr(records, *number),
        OwnedKey::Glyph(name) => remove_glyph(records, name.as_slice()),
    }
}

/// Puts another body into the record of a Subr or a glyph.
fn put(records: &mut Records, named: &OwnedKey, body: Body)
    ensures bodies { PutsBody (key_of named.now) body records.old records.new }
    ensures users { (k : Key) → users_at records.new k ≡ users_at records.old k }
    ensures kept { map kept_of records.new.glyphs.entries ≡ map kept_of records.old.glyphs.entries }
    ensures room { UsesUp 0 records.old records.new }
{
    match named {
        OwnedKey::Subr(number) => put_subr(records, *number, body),
        OwnedKey::Glyph(name) => put_glyph(records, name.as_slice(), body),
    }
}

/// Makes one change, in the room that was made. It takes no memory and can't fail.
fn change_one(records: &mut Records, step: RecordChange)
    requires subrs { 0 < spare records.old.subrs }
    requires glyphs { 0 < spare records.old.glyphs }
    ensures seen { seen records.new ≡ seen_after step (seen records.old) }
    ensures room { UsesUp 1 records.old records.new }
{
    match step {
        RecordChange::Remove(named) => remove(records, &named),
        RecordChange::Put(named, body) => put(records, &named, body),
        RecordChange::InsertSubr(number, record) => put_in_subr(records, number, record),
        RecordChange::InsertGlyph(name, record) => put_last_glyph(records, name, record),
    }
}

/// Makes the changes, the last one first, in the room that was made. It takes no memory and can't
/// fail. The glyphs that are named as taken out go first, all in one pass over the records: a step
/// takes out a glyph that isn't there at once.
fn change_all(records: &mut Records, steps: Vec<RecordChange>, taken: &Names)
    requires taken { AreTakenOut taken.now.keys steps.items }
    requires subrs { length steps.items ≤ spare records.old.subrs }
    requires glyphs { length steps.items ≤ spare records.old.glyphs }
    ensures { seen records.new ≡ after_all steps.items (seen records.old) }
{
    remove_glyphs(records, taken);
    let mut left = steps;
    while let Some(step) = left.pop() {
        change_one(records, step);
    }
}

/// Brings the records from those of a source to those of the edited one, which has no fault:
/// records of removed entries are taken out, those of new ones put in, users move, and each stale
/// glyph has its new run and box. However many glyphs leave their places, one pass over the records
/// takes them out. It takes no memory and can't fail.
pub fn settle(records: &mut Records, ready: Ready)
    requires { MayBeSettled records.old ready }
    ensures right { (changes : List EntryChange) (renewal : Renewal)
        → IsReady changes renewal records.old ready
        → (old new : SourceParts)
        → IsJudged changes old new records.old renewal
        → IsRight new records.new }
    ensures renews { (changes : List EntryChange) (renewal : Renewal)
        → IsReady changes renewal records.old ready
        → (old new : SourceParts)
        → IsJudged changes old new records.old renewal
        → AllByRecursion
        (IsRenewedBy (changed_keys changes) old renewal.reruns.items
        (map kept_of records.old.glyphs.entries)) (map kept_of records.new.glyphs.entries) }
{
    let Ready {
        steps,
        taken,
        runs,
        leaves,
        joins,
    } = ready;
    change_all(records, steps, &taken);
    move_users(records, leaves, joins);
    renew_by_name(&mut records.glyphs, runs);
}

/// Brings the records of a source to those of the edited one, by what was prepared for its changes.
/// It takes no memory and can't fail.
pub fn settle_ready(records: &mut Records, ready: Ready)
    requires { ArePreparedChanges records.old ready }
    ensures right { (count : ℕ) (changes : List EntryChange) (old new : SourceParts)
        → IsReadyFor count changes old new records.old ready
        → IsRight new records.new }
    ensures renews { (count : ℕ) (changes : List EntryChange) (old new : SourceParts)
        → IsReadyFor count changes old new records.old ready
        → AllByRecursion
        (IsRunWhereStale count (changed_keys changes) old
        (map kept_of records.old.glyphs.entries)) (map kept_of records.new.glyphs.entries) }
{
    settle(records, ready);
}
