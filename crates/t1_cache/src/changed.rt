//! Records changed at one Subr or one glyph.
ghost use Rattle.std.specs.Prelude.{◌≡◌, ◌<◌, ◌++◌, [], ◌∷◌, ℕ, List, None, Some, IsOk, OnErr};
ghost use Rattle.std.specs.Prelude.{OnOk, filter, map, not, if◌then◌else◌};
ghost use Rattle.std.specs.Str.{bytes_eq};
ghost use Rattle.indexmap.specs.IndexMap.{spare};
ghost use Rattle.t1_run.specs.Run.{Key, Subr, Glyph};
ghost use Rattle.t1_run.specs.RunKeys.{body_at};
ghost use Rattle.t1_cache.specs.Bodies.{record_bodies};
ghost use Rattle.t1_cache.specs.Changed.{AreSameRecords, PutsBody, SetsBody, SetsUsers, UsesUp};
ghost use Rattle.t1_cache.specs.Renewed.{kept};
ghost use Rattle.t1_cache.specs.Recorded.{kept_of};
ghost use Rattle.t1_cache.specs.Users.{is_name_among, is_key_among, lists, users_at, users_of};
ghost use Rattle.t1_cache.specs.Users.{HasUserRoom};

use crate::boxed::BoxedRecord;
use crate::records::{Names, Records, SubrRecord};
use indexmap::IndexSet;
use std::alloc::{AllocError, Global};
use t1_code::Body;

/// Puts another body into the record of a Subr, where it has one. It takes no memory and can't
/// fail.
pub fn put_subr(records: &mut Records, number: u16, body: Body)
    ensures bodies { PutsBody (Subr number) body records.old records.new }
    ensures users { (k : Key) → users_at records.new k ≡ users_at records.old k }
    ensures kept { map kept_of records.new.glyphs.entries ≡ map kept_of records.old.glyphs.entries }
    ensures room { UsesUp 0 records.old records.new }
{
    if let Some(record) = records.subrs.get_mut(&number) {
        record.body = body;
    }
}

/// Puts another body into the record of a glyph, where it has one; its run and box stay. It takes
/// no memory and can't fail.
pub fn put_glyph(records: &mut Records, name: &[u8], body: Body)
    ensures bodies { PutsBody (Glyph name.now) body records.old records.new }
    ensures users { (k : Key) → users_at records.new k ≡ users_at records.old k }
    ensures kept { map kept_of records.new.glyphs.entries ≡ map kept_of records.old.glyphs.entries }
    ensures room { UsesUp 0 records.old records.new }
{
    if let Some(glyph) = records.glyphs.get_mut(name) {
        glyph.record_mut().body = body;
    }
}

/// Puts in the record of a Subr that has none, without users. Where memory runs out all stays as it
/// was; in room that was made it doesn't.
pub fn insert_subr(
    alloc: Global,
    records: &mut Records,
    number: u16,
    body: Body,
) -> Result<(), AllocError>
    requires { body_at (record_bodies records.old) (Subr number) ≡ None }
    ensures bodies { OnOk result (SetsBody (Subr number) (Some body) records.old records.new) }
    ensures users { OnOk result
        ((k : Key) (u : List ℕ) → lists records.new k u ≡ lists records.old k u) }
    ensures room { OnOk result
        ((k : Key) (count : ℕ)
        → HasUserRoom count (users_at records.old k)
        → HasUserRoom count (users_at records.new k)) }
    ensures kept { OnOk result
        (map kept_of records.new.glyphs.entries ≡ map kept_of records.old.glyphs.entries) }
    ensures refused { OnErr result (AreSameRecords records.old records.new) }
    ensures succeeds { 0 < spare records.old.subrs → IsOk result }
{
    let users = IndexSet::new(alloc);
    records.subrs.insert(number, SubrRecord { body, users })?;
    Ok(())
}

/// Puts in a record without users of a glyph that has none, after the others. Where memory runs out
/// all stays as it was; in room that was made it doesn't.
pub fn insert_glyph(
    records: &mut Records,
    name: Vec<u8>,
    entry: BoxedRecord,
) -> Result<(), AllocError>
    requires none { body_at (record_bodies records.old) (Glyph name.items) ≡ None }
    requires unused { entry.users.keys ≡ [] }
    ensures bodies { OnOk result
        (SetsBody (Glyph name.items) (Some entry.body) records.old records.new) }
    ensures users { OnOk result
        ((k : Key) (u : List ℕ) → lists records.new k u ≡ lists records.old k u) }
    ensures room { OnOk result
        ((k : Key) (count : ℕ)
        → HasUserRoom count (users_at records.old k)
        → HasUserRoom count (users_at records.new k)) }
    ensures kept { OnOk result
        (map kept_of records.new.glyphs.entries
        ≡ map kept_of records.old.glyphs.entries ++ kept name.items entry.run entry.bbox ∷ []) }
    ensures refused { OnErr result (AreSameRecords records.old records.new) }
    ensures succeeds { 0 < spare records.old.glyphs → IsOk result }
{
    records.glyphs.insert(name, entry)?;
    Ok(())
}

/// Puts in a whole record of a Subr, in room that was made. It takes no memory and can't fail.
pub fn put_in_subr(records: &mut Records, number: u16, entry: SubrRecord)
    requires { 0 < spare records.old.subrs }
    ensures bodies { SetsBody (Subr number) (Some entry.body) records.old records.new }
    ensures users { SetsUsers (Subr number) (Some (users_of entry.users)) records.old records.new }
    ensures kept { map kept_of records.new.glyphs.entries ≡ map kept_of records.old.glyphs.entries }
    ensures room { UsesUp 1 records.old records.new }
{
    records.subrs.insert(number, entry).unwrap();
}

/// Puts in a whole record of a glyph after the others, in room that was made; one that was there
/// goes. It takes no memory and can't fail.
pub fn put_last_glyph(records: &mut Records, name: Vec<u8>, entry: BoxedRecord)
    requires { 0 < spare records.old.glyphs }
    ensures bodies { SetsBody (Glyph name.items) (Some entry.body) records.old records.new }
    ensures users { SetsUsers (Glyph name.items) (Some (users_of entry.users)) records.old
        records.new }
    ensures kept { map kept_of records.new.glyphs.entries
        ≡ filter (λ k. not (bytes_eq name.items k.name)) (map kept_of records.old.glyphs.entries)
        ++ kept name.items entry.run entry.bbox ∷ [] }
    ensures room { UsesUp 1 records.old records.new }
{
    records.glyphs.shift_remove(name.as_slice());
    records.glyphs.insert(name, entry).unwrap();
}

/// Takes out the record of a Subr, with its users. It takes no memory and can't fail.
pub fn remove_subr(records: &mut Records, number: u16)
    ensures bodies { SetsBody (Subr number) None records.old records.new }
    ensures users { SetsUsers (Subr number) None records.old records.new }
    ensures kept { map kept_of records.new.glyphs.entries ≡ map kept_of records.old.glyphs.entries }
    ensures room { UsesUp 0 records.old records.new }
{
    records.subrs.swap_remove(&number);
}

/// Takes out the record of a glyph, with its users; the others stay in their order. It takes no
/// memory and can't fail.
pub fn remove_glyph(records: &mut Records, name: &[u8])
    ensures bodies { SetsBody (Glyph name.now) None records.old records.new }
    ensures users { SetsUsers (Glyph name.now) None records.old records.new }
    ensures kept { map kept_of records.new.glyphs.entries
        ≡ filter (λ k. not (bytes_eq name.now k.name)) (map kept_of records.old.glyphs.entries) }
    ensures room { UsesUp 0 records.old records.new }
{
    records.glyphs.shift_remove(name);
}

/// Takes out the records of the glyphs of these names, with their users, in one pass; the others
/// stay in their order. It takes no memory and can't fail.
pub fn remove_glyphs(records: &mut Records, names: &Names)
    ensures bodies { (k : Key)
        → body_at (record_bodies records.new) k
        ≡ (if is_key_among names.now.keys k then None else body_at (record_bodies records.old) k) }
    ensures users { (k : Key)
        → users_at records.new k
        ≡ (if is_key_among names.now.keys k then None else users_at records.old k) }
    ensures kept { map kept_of records.new.glyphs.entries
        ≡ filter (λ k. not (is_name_among (λ name. name.items) names.now.keys k.name))
        (map kept_of records.old.glyphs.entries) }
    ensures room { UsesUp 0 records.old records.new }
{
    if names.is_empty() {
        return;
    }
    records.glyphs.retain(
        |name: &Vec<u8>, glyph: &mut BoxedRecord| -> bool
            ensures { (result
                ≡ not (is_name_among (λ key. key.items) names.entry.now.keys name.now.items))
                × (glyph.new ≡ glyph.old) }
        { !names.contains(name.as_slice()) },
    );
}
