//! The bodies that entries have after the last edits that name them.
ghost use Rattle.std.specs.Prelude.{◌≡◌, ℕ, List, None, Some, OnOk, nat_eq, if◌then◌else◌};
ghost use Rattle.std.specs.Str.{bytes_eq};
ghost use Rattle.t1_run.specs.Run.{Key};
ghost use Rattle.t1_font.specs.OwnedKeys.{key_of};
ghost use Rattle.t1_held.specs.Noting.{glyph_body, is_kept, kept_at, nothing_kept, subr_body};
ghost use Rattle.t1_held.specs.Noting.{with_body, without_key};

use indexmap::IndexMap;
use std::alloc::{AllocError, Global};
use t1_code::Body;
use t1_font::OwnedKey;
use t1_source::Item;

/// The Subrs and the glyphs that edits name, each with the body that it has after the last of them;
/// `None` where that one removed it, or its words have a fault.
#[derive(Drop)]
pub struct LastBodies {
    subrs: IndexMap<u16, Option<Body>>,
    glyphs: IndexMap<Vec<u8>, Option<Body>>,
}

/// Puts the body of a Subr, in the place of the one that it had.
fn put_subr(
    subrs: &mut IndexMap<u16, Option<Body>>,
    number: u16,
    body: Option<Body>,
) -> Result<(), AllocError>
    ensures { OnOk result
        ((n : ℕ)
        → subr_body subrs.new.entries n
        ≡ (if nat_eq n number then Some body else subr_body subrs.old.entries n)) }
{
    subrs.insert(number, body)?;
    Ok(())
}

/// Puts the body of a glyph, in the place of the one that it had.
fn put_glyph(
    alloc: Global,
    glyphs: &mut IndexMap<Vec<u8>, Option<Body>>,
    name: &[u8],
    body: Option<Body>,
) -> Result<(), AllocError>
    ensures { OnOk result
        ((g : List ℕ)
        → glyph_body glyphs.new.entries g
        ≡ (if bytes_eq g name.now then Some body else glyph_body glyphs.old.entries g)) }
{
    glyphs.insert(Vec::from_slice(alloc, name)?, body)?;
    Ok(())
}

/// Takes a Subr out. It takes no memory.
fn take_subr(subrs: &mut IndexMap<u16, Option<Body>>, number: u16) -> Option<Option<Body>>
    ensures taken { result ≡ subr_body subrs.old.entries number }
    ensures others { (n : ℕ)
        → subr_body subrs.new.entries n
        ≡ (if nat_eq number n then None else subr_body subrs.old.entries n) }
{
    subrs.swap_remove(&number)
}

/// Takes a glyph out. It takes no memory.
fn take_glyph(glyphs: &mut IndexMap<Vec<u8>, Option<Body>>, name: &[u8]) -> Option<Option<Body>>
    ensures taken { result ≡ glyph_body glyphs.old.entries name.now }
    ensures others { (g : List ℕ)
        → glyph_body glyphs.new.entries g
        ≡ (if bytes_eq name.now g then None else glyph_body glyphs.old.entries g) }
{
    glyphs.swap_remove(name)
}

impl LastBodies {
    /// Bodies of no entry.
    pub fn new(alloc: Global) -> LastBodies
        ensures { (k : Key) → kept_at result k ≡ nothing_kept k }
    {
        LastBodies {
            subrs: IndexMap::new(alloc),
            glyphs: IndexMap::new(alloc),
        }
    }

    /// Puts the body of an entry, in the place of the one that it had.
    pub fn put(
        &mut self,
        alloc: Global,
        named: &OwnedKey,
        body: Option<Body>,
    ) -> Result<(), AllocError>
        ensures { OnOk result
            ((k : Key)
            → kept_at self.new k ≡ with_body (key_of named.now) body (kept_at self.old) k) }
    {
        match named {
            OwnedKey::Subr(number) => put_subr(&mut self.subrs, *number, body),
            OwnedKey::Glyph(name) => put_glyph(alloc, &mut self.glyphs, name.as_slice(), body),
        }
    }

    /// Whether an item is one of the entries.
    pub fn has(&self, item: &Item) -> bool
        ensures { result ≡ is_kept (kept_at self.now) item.now }
    {
        match item {
            Item::Subr(number, _, _) => self.subrs.contains_key(number),
            Item::Glyph(name, _, _) => self.glyphs.contains_key(name.as_slice()),
            _ => false,
        }
    }

    /// Takes an entry out. It takes no memory.
    pub fn take(&mut self, named: &OwnedKey) -> Option<Option<Body>>
        ensures taken { result ≡ kept_at self.old (key_of named.now) }
        ensures others { (k : Key)
            → kept_at self.new k ≡ without_key (key_of named.now) (kept_at self.old) k }
    {
        match named {
            OwnedKey::Subr(number) => take_subr(&mut self.subrs, *number),
            OwnedKey::Glyph(name) => take_glyph(&mut self.glyphs, name.as_slice()),
        }
    }
}
