//! The names of the glyphs that edits make stale.
ghost use Rattle.std.specs.Prelude.{◌≡◌, ◌||◌, ◌++◌, ℕ, List, map, IfOk, OnOk};
ghost use Rattle.std.specs.Str.{bytes_eq};
ghost use Rattle.t1_run.specs.Run.{FontBodies};
ghost use Rattle.t1_cache.specs.Found.{Closes};
ghost use Rattle.t1_cache.specs.Laws.{AreDistinct};
ghost use Rattle.t1_cache.specs.Tables.{is_seed, AreTables};
ghost use Rattle.t1_run.specs.Touched.{AreStale};
ghost use Rattle.t1_cache.specs.Users.{among, glyph_users, is_name_among, subr_users};
ghost use Rattle.t1_font.specs.OwnedKeys.{key_of};

use crate::boxed::BoxedRecord;
use crate::records::{Names, Records, SubrRecord};
use indexmap::{IndexMap, IndexSet};
use std::alloc::{AllocError, Global};
use t1_font::OwnedKey;

/// Adds those names that aren't there yet, after the others.
fn add_users<'a>(found: &mut IndexSet<&'a [u8]>, users: &'a Names) -> Result<(), AllocError>
    ensures names { OnOk result
        ((g : List ℕ)
        → is_name_among (λ name. name.now) found.new.keys g
        ≡ (is_name_among (λ name. name.now) found.old.keys g || is_name_among (λ name. name.items)
        users.now.keys g)) }
    ensures after { OnOk result ((more : List _) × (found.new.keys ≡ found.old.keys ++ more)) }
{
    for name in users.as_slice() {
        found.insert(name.as_slice())?;
    }
    Ok(())
}

/// Adds the users of a glyph.
fn add_users_of<'a>(
    found: &mut IndexSet<&'a [u8]>,
    glyphs: &'a IndexMap<Vec<u8>, BoxedRecord>,
    name: &[u8],
) -> Result<(), AllocError>
    ensures names { OnOk result
        ((g : List ℕ)
        → is_name_among (λ name. name.now) found.new.keys g
        ≡ (is_name_among (λ name. name.now) found.old.keys g || among
        (glyph_users glyphs.now.entries name.now) g)) }
    ensures after { OnOk result ((more : List _) × (found.new.keys ≡ found.old.keys ++ more)) }
{
    match glyphs.get(name) {
        None => Ok(()),
        Some(glyph) => add_users(found, &glyph.record().users),
    }
}

/// Adds the users of the names that are there, and theirs, until all are there.
fn close<'a>(
    found: &mut IndexSet<&'a [u8]>,
    glyphs: &'a IndexMap<Vec<u8>, BoxedRecord>,
) -> Result<(), AllocError>
    ensures closes { OnOk result
        (Closes (is_name_among (λ name. name.now) found.old.keys)
        (λ p. among (glyph_users glyphs.now.entries p))
        (is_name_among (λ name. name.now) found.new.keys)) }
    ensures once { OnOk result (AreDistinct (map (λ name. name.now) found.new.keys)) }
{
    let mut at = 0;
    while at < found.len() {
        let name = found.as_slice()[at];
        add_users_of(found, glyphs, name)?;
        at += 1;
    }
    Ok(())
}

/// Adds the users of a Subr.
fn add_subr_users<'a>(
    found: &mut IndexSet<&'a [u8]>,
    subrs: &'a IndexMap<u16, SubrRecord>,
    number: u16,
) -> Result<(), AllocError>
    ensures { OnOk result
        ((g : List ℕ)
        → is_name_among (λ name. name.now) found.new.keys g
        ≡ (is_name_among (λ name. name.now) found.old.keys g || among
        (subr_users subrs.now.entries number) g)) }
{
    match subrs.get(&number) {
        None => Ok(()),
        Some(record) => add_users(found, &record.users),
    }
}

/// Adds a glyph that an edit named, and its users.
fn add_glyph<'a>(
    found: &mut IndexSet<&'a [u8]>,
    glyphs: &'a IndexMap<Vec<u8>, BoxedRecord>,
    name: &'a [u8],
) -> Result<(), AllocError>
    ensures { OnOk result
        ((g : List ℕ)
        → is_name_among (λ name. name.now) found.new.keys g
        ≡ (is_name_among (λ name. name.now) found.old.keys g ||
        (bytes_eq g name.now || among (glyph_users glyphs.now.entries name.now) g))) }
{
    found.insert(name)?;
    add_users_of(found, glyphs, name)?;
    Ok(())
}

/// Adds the users of a Subr that an edit named, or a glyph that it named and the users of it.
fn add_seeds<'a>(
    found: &mut IndexSet<&'a [u8]>,
    records: &'a Records,
    named: &'a OwnedKey,
) -> Result<(), AllocError>
    ensures { OnOk result
        ((g : List ℕ)
        → is_name_among (λ name. name.now) found.new.keys g
        ≡ (is_name_among (λ name. name.now) found.old.keys g || is_seed records.now g named.now)) }
{
    match named {
        OwnedKey::Subr(number) => add_subr_users(found, &records.subrs, *number),
        OwnedKey::Glyph(name) => add_glyph(found, &records.glyphs, name.as_slice()),
    }
}

/// The names of the glyphs that edits make stale, each once, by the users that the records list:
/// those of the glyphs that edits name, of the users of the Subrs that they name, and of the
/// composites on any of these.
pub fn found<'a>(
    alloc: Global,
    records: &'a Records,
    edits: &'a [OwnedKey],
) -> Result<IndexSet<&'a [u8]>, AllocError>
    ensures once { IfOk result (λ found. AreDistinct (map (λ name. name.now) found.keys)) }
    ensures stale { IfOk result
        (λ found.
        (m : FontBodies)
        → AreTables m records.now
        → AreStale m (map key_of edits.now) (is_name_among (λ name. name.now) found.keys)) }
{
    let mut found = IndexSet::new(alloc);
    for named in edits {
        add_seeds(&mut found, records, named)?;
    }
    close(&mut found, &records.glyphs)?;
    Ok(found)
}
