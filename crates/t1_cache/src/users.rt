//! Records changed in their places, without any memory: the users of Subrs and glyphs moved, and
//! the runs and boxes of glyphs renewed.
ghost use Rattle.std.specs.Prelude.{◌≡◌, ◌<◌, ◌≤◌, ◌+◌, ◌&&◌, ◌||◌, ℕ, List, map, nat_eq, not};
ghost use Rattle.std.specs.Prelude.{if◌then◌else◌, option_map};
ghost use Rattle.std.specs.Str.{bytes_eq};
ghost use Rattle.indexmap.specs.IndexSet.{spare};
ghost use Rattle.t1_run.specs.Run.{Key};
ghost use Rattle.t1_run.specs.RunKeys.{key_eq};
ghost use Rattle.t1_cache.specs.Bodies.{glyph_body};
ghost use Rattle.t1_cache.specs.Laws.{AreDistinct};
ghost use Rattle.t1_cache.specs.Recorded.{kept_of};
ghost use Rattle.t1_cache.specs.Renewed.{names_of, record_of, reruns_by_name, with_reruns};
ghost use Rattle.t1_cache.specs.Renewed.{with_run};
ghost use Rattle.t1_cache.specs.Users.{among, glyph_rest, glyph_users, is_name_among, has_pair};
ghost use Rattle.t1_font.specs.OwnedKeys.{key_of};
ghost use Rattle.t1_cache.specs.Users.{lists, rest_of, subr_rest, subr_users, users_at};
ghost use Rattle.t1_cache.specs.Users.{pairs_of_key};
ghost use Rattle.t1_cache.specs.Users.{HasUserRoom};

use crate::boxed::BoxedRecord;
use crate::records::{Names, NewRuns, Records, SubrRecord};
use indexmap::IndexMap;
use std::mem;
use t1_afm::BBox;
use t1_extent::KeptRun;
use t1_font::OwnedKey;

/// Takes a name out. It takes no memory and can't fail.
fn take_out(names: &mut Names, name: &[u8])
    ensures names { (u : List ℕ)
        → is_name_among (λ k. k.items) names.new.keys u
        ≡ (is_name_among (λ k. k.items) names.old.keys u && not (bytes_eq u name.now)) }
    ensures room { spare names.old ≤ spare names.new }
{
    names.swap_remove(name);
}

/// Puts a name in, in the room that was made. It takes no memory and can't fail.
fn put_in(names: &mut Names, name: Vec<u8>)
    requires { 0 < spare names.old }
    ensures names { (u : List ℕ)
        → is_name_among (λ k. k.items) names.new.keys u
        ≡ (is_name_among (λ k. k.items) names.old.keys u || bytes_eq u name.items) }
    ensures room { spare names.old ≤ spare names.new + 1 }
{
    names.insert(name).unwrap();
}

/// Takes a glyph out of the users of a Subr.
fn leave_subr(subrs: &mut IndexMap<u16, SubrRecord>, number: u16, name: &[u8])
    ensures users { (n : ℕ) (u : List ℕ)
        → among (subr_users subrs.new.entries n) u
        ≡ (among (subr_users subrs.old.entries n) u && not
        (nat_eq n number && bytes_eq u name.now)) }
    ensures room { (n : ℕ) (count : ℕ)
        → HasUserRoom count (subr_users subrs.old.entries n)
        → HasUserRoom count (subr_users subrs.new.entries n) }
    ensures rest { map subr_rest subrs.new.entries ≡ map subr_rest subrs.old.entries }
{
    if let Some(record) = subrs.get_mut(&number) {
        take_out(&mut record.users, name);
    }
}

/// Takes a glyph out of the users of another.
fn leave_glyph(glyphs: &mut IndexMap<Vec<u8>, BoxedRecord>, part: &[u8], name: &[u8])
    ensures users { (p u : List ℕ)
        → among (glyph_users glyphs.new.entries p) u
        ≡ (among (glyph_users glyphs.old.entries p) u && not
        (bytes_eq p part.now && bytes_eq u name.now)) }
    ensures room { (p : List ℕ) (count : ℕ)
        → HasUserRoom count (glyph_users glyphs.old.entries p)
        → HasUserRoom count (glyph_users glyphs.new.entries p) }
    ensures rest { map glyph_rest glyphs.new.entries ≡ map glyph_rest glyphs.old.entries }
{
    if let Some(glyph) = glyphs.get_mut(part) {
        take_out(&mut glyph.record_mut().users, name);
    }
}

/// Puts a glyph among the users of a Subr, in the room that was made.
fn join_subr(subrs: &mut IndexMap<u16, SubrRecord>, number: u16, name: Vec<u8>)
    requires { HasUserRoom 1 (subr_users subrs.old.entries number) }
    ensures users { (n : ℕ) (u : List ℕ)
        → among (subr_users subrs.new.entries n) u
        ≡ (among (subr_users subrs.old.entries n) u || (nat_eq n number && bytes_eq u name.items)) }
    ensures room { (n : ℕ) (count : ℕ)
        → HasUserRoom (if nat_eq n number then count + 1 else count)
        (subr_users subrs.old.entries n)
        → HasUserRoom count (subr_users subrs.new.entries n) }
    ensures rest { map subr_rest subrs.new.entries ≡ map subr_rest subrs.old.entries }
{
    if let Some(record) = subrs.get_mut(&number) {
        put_in(&mut record.users, name);
    }
}

/// Puts a glyph among the users of another, in the room that was made.
fn join_glyph(glyphs: &mut IndexMap<Vec<u8>, BoxedRecord>, part: &[u8], name: Vec<u8>)
    requires { HasUserRoom 1 (glyph_users glyphs.old.entries part.now) }
    ensures users { (p u : List ℕ)
        → among (glyph_users glyphs.new.entries p) u
        ≡ (among (glyph_users glyphs.old.entries p) u ||
        (bytes_eq p part.now && bytes_eq u name.items)) }
    ensures room { (p : List ℕ) (count : ℕ)
        → HasUserRoom (if bytes_eq p part.now then count + 1 else count)
        (glyph_users glyphs.old.entries p)
        → HasUserRoom count (glyph_users glyphs.new.entries p) }
    ensures rest { map glyph_rest glyphs.new.entries ≡ map glyph_rest glyphs.old.entries }
{
    if let Some(glyph) = glyphs.get_mut(part) {
        put_in(&mut glyph.record_mut().users, name);
    }
}

/// Takes a glyph out of the users of a Subr or of another glyph.
fn leave(records: &mut Records, named: OwnedKey, name: &[u8])
    ensures users { (k : Key) (u : List ℕ)
        → lists records.new k u
        ≡ (lists records.old k u && not (key_eq k (key_of named) && bytes_eq u name.now)) }
    ensures room { (k : Key) (count : ℕ)
        → HasUserRoom count (users_at records.old k)
        → HasUserRoom count (users_at records.new k) }
    ensures rest { rest_of records.new ≡ rest_of records.old }
{
    match named {
        OwnedKey::Subr(number) => leave_subr(&mut records.subrs, number, name),
        OwnedKey::Glyph(part) => leave_glyph(&mut records.glyphs, part.as_slice(), name),
    }
}

/// Puts a glyph among the users of a Subr or of another glyph, in the room that was made.
fn join(records: &mut Records, named: OwnedKey, name: Vec<u8>)
    requires { HasUserRoom 1 (users_at records.old (key_of named)) }
    ensures users { (k : Key) (u : List ℕ)
        → lists records.new k u
        ≡ (lists records.old k u || (key_eq k (key_of named) && bytes_eq u name.items)) }
    ensures room { (k : Key) (count : ℕ)
        → HasUserRoom (if key_eq k (key_of named) then count + 1 else count)
        (users_at records.old k)
        → HasUserRoom count (users_at records.new k) }
    ensures rest { rest_of records.new ≡ rest_of records.old }
{
    match named {
        OwnedKey::Subr(number) => join_subr(&mut records.subrs, number, name),
        OwnedKey::Glyph(part) => join_glyph(&mut records.glyphs, part.as_slice(), name),
    }
}

/// Takes glyphs out of the users of Subrs and glyphs: each pair is one of these, and the glyph that
/// leaves it.
fn leave_all(records: &mut Records, leaves: Vec<(OwnedKey, Vec<u8>)>)
    ensures users { (k : Key) (u : List ℕ)
        → lists records.new k u ≡ (lists records.old k u && not (has_pair leaves.items k u)) }
    ensures room { (k : Key) (count : ℕ)
        → HasUserRoom count (users_at records.old k)
        → HasUserRoom count (users_at records.new k) }
    ensures rest { rest_of records.new ≡ rest_of records.old }
{
    let mut left = leaves;
    while let Some((named, name)) = left.pop() {
        leave(records, named, name.as_slice());
    }
}

/// Puts glyphs among the users of Subrs and glyphs, in the room that was made.
fn join_all(records: &mut Records, joins: Vec<(OwnedKey, Vec<u8>)>)
    requires { (k : Key) → HasUserRoom (pairs_of_key joins.items k) (users_at records.old k) }
    ensures users { (k : Key) (u : List ℕ)
        → lists records.new k u ≡ (lists records.old k u || has_pair joins.items k u) }
    ensures rest { rest_of records.new ≡ rest_of records.old }
{
    let mut left = joins;
    while let Some((named, name)) = left.pop() {
        join(records, named, name);
    }
}

/// Takes glyphs out of the users of Subrs and glyphs, and puts others in, in the room that was
/// made: each pair is a Subr or a glyph, and the glyph that leaves or joins its users. It takes no
/// memory and can't fail.
pub fn move_users(
    records: &mut Records,
    leaves: Vec<(OwnedKey, Vec<u8>)>,
    joins: Vec<(OwnedKey, Vec<u8>)>,
)
    requires { (k : Key) → HasUserRoom (pairs_of_key joins.items k) (users_at records.old k) }
    ensures users { (k : Key) (u : List ℕ)
        → lists records.new k u
        ≡ ((lists records.old k u && not (has_pair leaves.items k u)) || has_pair joins.items k u) }
    ensures rest { rest_of records.new ≡ rest_of records.old }
{
    leave_all(records, leaves);
    join_all(records, joins);
}

/// Puts a new run and box into the record of a glyph, and gives the old run back; `None` where
/// there is no such record. It takes no memory and can't fail.
pub fn renew(
    glyphs: &mut IndexMap<Vec<u8>, BoxedRecord>,
    name: &[u8],
    run: KeptRun,
    bbox: Option<BBox>,
) -> Option<KeptRun>
    ensures records { map kept_of glyphs.new.entries
        ≡ with_run name.now run bbox (map kept_of glyphs.old.entries) }
    ensures users { (p : List ℕ)
        → glyph_users glyphs.new.entries p ≡ glyph_users glyphs.old.entries p }
    ensures bodies { (p : List ℕ)
        → glyph_body glyphs.new.entries p ≡ glyph_body glyphs.old.entries p }
    ensures once { AreDistinct (names_of glyphs.old.entries) }
    ensures was { result ≡ option_map (λ r. r.run) (record_of glyphs.old.entries name.now) }
{
    match glyphs.get_mut(name) {
        None => None,
        Some(glyph) => {
            let record = glyph.record_mut();
            record.bbox = bbox;
            Some(mem::replace(&mut record.run, run))
        }
    }
}

/// Puts new runs and boxes into the records of their glyphs; those of a glyph without a record are
/// dropped. It takes no memory and can't fail.
pub fn renew_by_name(glyphs: &mut IndexMap<Vec<u8>, BoxedRecord>, runs: NewRuns)
    ensures records { map kept_of glyphs.new.entries
        ≡ with_reruns (reruns_by_name runs.entries) (map kept_of glyphs.old.entries) }
    ensures users { (p : List ℕ)
        → glyph_users glyphs.new.entries p ≡ glyph_users glyphs.old.entries p }
    ensures bodies { (p : List ℕ)
        → glyph_body glyphs.new.entries p ≡ glyph_body glyphs.old.entries p }
{
    let mut left = runs;
    while let Some((name, new)) = left.pop() {
        renew(glyphs, name.as_slice(), new.run, new.bbox);
    }
}
