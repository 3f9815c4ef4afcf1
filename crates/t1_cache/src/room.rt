//! Room for the users that join Subrs and glyphs.
ghost use Rattle.std.specs.Prelude.{◌≡◌, ◌<◌, ◌≤◌, ◌^◌, ◌+◌, [], ℕ, List, IfOk, OnOk, map, nat_eq};
ghost use Rattle.std.specs.Prelude.{if◌then◌else◌};
ghost use Rattle.std.specs.Str.{bytes_eq};
ghost use Rattle.indexmap.specs.IndexSet.{spare};
ghost use Rattle.t1_run.specs.Run.{Key};
ghost use Rattle.t1_run.specs.RunKeys.{key_eq};
ghost use Rattle.t1_cache.specs.Room.{count_at, glyph_count, subr_count, IsRoomier, MayJoin};
ghost use Rattle.t1_cache.specs.Users.{glyph_rest, glyph_users, lists, rest_of, subr_rest};
ghost use Rattle.t1_font.specs.OwnedKeys.{key_of};
ghost use Rattle.t1_cache.specs.Users.{subr_users, users_at, pairs_of_key};

use crate::boxed::BoxedRecord;
use crate::records::{Names, Records, SubrRecord};
use indexmap::{IndexMap, IndexSet};
use std::alloc::{AllocError, Global};
use t1_font::OwnedKey;

/// How many glyphs joined each Subr and each glyph so far.
#[derive(Drop)]
pub struct Counts<'a> {
    subrs: IndexMap<u16, usize>,
    glyphs: IndexMap<&'a [u8], usize>,
}

/// Counts one more for a Subr, and gives its count.
fn count_subr(counts: &mut IndexMap<u16, usize>, number: u16) -> Result<usize, AllocError>
    requires { subr_count counts.old.entries number < 2 ^ 63 }
    ensures count { IfOk result (λ count. count ≡ subr_count counts.old.entries number + 1) }
    ensures counts { OnOk result
        ((n : ℕ)
        → subr_count counts.new.entries n
        ≡ (if nat_eq n number then subr_count counts.old.entries n
        + 1 else subr_count counts.old.entries n)) }
{
    let count = counts.get(&number).copied().unwrap_or(0) + 1;
    counts.insert(number, count)?;
    Ok(count)
}

/// Counts one more for a glyph, and gives its count.
fn count_glyph<'a>(
    counts: &mut IndexMap<&'a [u8], usize>,
    name: &'a [u8],
) -> Result<usize, AllocError>
    requires { glyph_count counts.old.entries name.now < 2 ^ 63 }
    ensures count { IfOk result (λ count. count ≡ glyph_count counts.old.entries name.now + 1) }
    ensures counts { OnOk result
        ((g : List ℕ)
        → glyph_count counts.new.entries g
        ≡ (if bytes_eq g name.now then glyph_count counts.old.entries g
        + 1 else glyph_count counts.old.entries g)) }
{
    let count = counts.get(name).copied().unwrap_or(0) + 1;
    counts.insert(name, count)?;
    Ok(count)
}

/// Makes room for so many more users of a Subr, where it has a record.
fn reserve_subr(
    subrs: &mut IndexMap<u16, SubrRecord>,
    number: u16,
    count: usize,
) -> Result<(), AllocError>
    ensures room { OnOk result (MayJoin count (subr_users subrs.new.entries number)) }
    ensures sets { (n : ℕ)
        → IsRoomier (subr_users subrs.old.entries n) (subr_users subrs.new.entries n) }
    ensures rest { map subr_rest subrs.new.entries ≡ map subr_rest subrs.old.entries }
{
    match subrs.get_mut(&number) {
        None => Ok(()),
        Some(record) => record.users.reserve(count),
    }
}

/// Makes room for so many more users of a glyph, where it has a record.
fn reserve_glyph(
    glyphs: &mut IndexMap<Vec<u8>, BoxedRecord>,
    name: &[u8],
    count: usize,
) -> Result<(), AllocError>
    ensures room { OnOk result (MayJoin count (glyph_users glyphs.new.entries name.now)) }
    ensures sets { (p : List ℕ)
        → IsRoomier (glyph_users glyphs.old.entries p) (glyph_users glyphs.new.entries p) }
    ensures rest { map glyph_rest glyphs.new.entries ≡ map glyph_rest glyphs.old.entries }
{
    match glyphs.get_mut(name) {
        None => Ok(()),
        Some(glyph) => glyph.record_mut().users.reserve(count),
    }
}

/// Counts one more for a Subr or a glyph, and makes room for as many users as joined it so far.
fn make_room_at<'a>(
    records: &mut Records,
    counts: &mut Counts<'a>,
    named: &'a OwnedKey,
) -> Result<(), AllocError>
    requires { (k : Key) → count_at counts.old k < 2 ^ 63 }
    ensures counts { OnOk result
        ((k : Key)
        → count_at counts.new k
        ≡ (if key_eq k (key_of named.now) then count_at counts.old k
        + 1 else count_at counts.old k)) }
    ensures room { OnOk result
        (MayJoin (count_at counts.old (key_of named.now) + 1)
        (users_at records.new (key_of named.now))) }
    ensures sets { (k : Key) → IsRoomier (users_at records.old k) (users_at records.new k) }
    ensures rest { rest_of records.new ≡ rest_of records.old }
{
    match named {
        OwnedKey::Subr(number) => {
            let count = count_subr(&mut counts.subrs, *number)?;
            reserve_subr(&mut records.subrs, *number, count)
        }
        OwnedKey::Glyph(name) => {
            let count = count_glyph(&mut counts.glyphs, name.as_slice())?;
            reserve_glyph(&mut records.glyphs, name.as_slice(), count)
        }
    }
}

/// Makes room among the users of each Subr and each glyph that has a record for all glyphs that
/// join it: each pair is a Subr or a glyph, and the glyph that joins its users. The users stay,
/// also where memory runs out.
pub fn make_room(
    alloc: Global,
    records: &mut Records,
    joins: &[(OwnedKey, Vec<u8>)],
) -> Result<(), AllocError>
    ensures room { OnOk result
        ((k : Key) → MayJoin (pairs_of_key joins.now k) (users_at records.new k)) }
    ensures users { (k : Key) (u : List ℕ) → lists records.new k u ≡ lists records.old k u }
    ensures sets { (k : Key) → IsRoomier (users_at records.old k) (users_at records.new k) }
    ensures rest { rest_of records.new ≡ rest_of records.old }
{
    let mut counts = Counts {
        subrs: IndexMap::new(alloc),
        glyphs: IndexMap::new(alloc),
    };
    for (named, _) in joins {
        make_room_at(records, &mut counts, named)?;
    }
    Ok(())
}

/// Counts one more for a Subr or a glyph.
fn count_join<'a>(counts: &mut Counts<'a>, named: &'a OwnedKey) -> Result<(), AllocError>
    requires { (k : Key) → count_at counts.old k < 2 ^ 63 }
    ensures { OnOk result
        ((k : Key)
        → count_at counts.new k
        ≡ (if key_eq k (key_of named.now) then count_at counts.old k
        + 1 else count_at counts.old k)) }
{
    match named {
        OwnedKey::Subr(number) => count_subr(&mut counts.subrs, *number)?,
        OwnedKey::Glyph(name) => count_glyph(&mut counts.glyphs, name.as_slice())?,
    };
    Ok(())
}

/// How many glyphs join each Subr and each glyph: each pair is one of these, and the glyph that
/// joins its users.
pub fn count_joins<'a>(
    alloc: Global,
    joins: &'a [(OwnedKey, Vec<u8>)],
) -> Result<Counts<'a>, AllocError>
    ensures { IfOk result (λ counts. (k : Key) → count_at counts k ≡ pairs_of_key joins.now k) }
{
    let mut counts = Counts {
        subrs: IndexMap::new(alloc),
        glyphs: IndexMap::new(alloc),
    };
    for (named, _) in joins {
        count_join(&mut counts, named)?;
    }
    Ok(counts)
}

/// No users, with room for all that join a Subr.
pub fn users_of_subr(alloc: Global, counts: &Counts, number: u16) -> Result<Names, AllocError>
    ensures none { IfOk result (λ users. users.keys ≡ []) }
    ensures room { IfOk result (λ users. subr_count counts.now.subrs.entries number ≤ spare users) }
{
    let count = counts.subrs.get(&number).copied().unwrap_or(0);
    IndexSet::with_capacity(alloc, count)
}

/// No users, with room for all that join a glyph.
pub fn users_of_glyph(alloc: Global, counts: &Counts, name: &[u8]) -> Result<Names, AllocError>
    ensures none { IfOk result (λ users. users.keys ≡ []) }
    ensures room { IfOk result
        (λ users. glyph_count counts.now.glyphs.entries name.now ≤ spare users) }
{
    let count = counts.glyphs.get(name).copied().unwrap_or(0);
    IndexSet::with_capacity(alloc, count)
}
