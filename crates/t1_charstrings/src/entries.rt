//! What is kept of a font's entries, and its change at one Subr or one glyph.

use indexmap::IndexMap;
use std::alloc::{AllocError, Global};
use std::marker::Model;

/// What is kept of an entry: the beginning of its line, and its encrypted charstring. Both stand in
/// one block, so that a print has one far read of them.
#[derive(Drop)]
pub struct Entry {
    bytes: Vec<u8>,
    /// Where the charstring starts.
    start: usize,
}

impl Model for Entry {
    ghost use Rattle.std.specs.Prelude.{take, drop, length, ◌≤◌};
    ghost use Rattle.t1_charstrings.specs.Entries.{KeptCharstring};

    ghost Value = { KeptCharstring };

    ghost view = { λ entry.
        record {
          head = take entry.start entry.bytes.items;
          charstring = drop entry.start
              entry.bytes.items;
        } };

    ghost invariant = { λ entry. entry.start ≤ length entry.bytes.items };
}

ghost use Rattle.std.specs.Prelude.{◌≡◌, ◌≤◌, ◌<◌, ◌+◌, ◌++◌, None, Some, IfOk, IsOk, OnErr, OnOk};
ghost use Rattle.indexmap.specs.IndexMap.{spare};
ghost use Rattle.t1_run.specs.Run.{Key, Subr, Glyph};
ghost use Rattle.t1_charstrings.specs.Changed.{AreSameCharstrings, Sets};
ghost use Rattle.t1_charstrings.specs.Kept.{charstring_at};

impl Entry {
    /// An entry of its two parts, of which the first is this word and a key.
    pub(crate) fn new(
        alloc: Global,
        word: &[u8],
        key: &[u8],
        charstring: &[u8],
    ) -> Result<Self, AllocError>
        ensures head { IfOk result (λ entry. entry.head ≡ word.now ++ key.now) }
        ensures charstring { IfOk result (λ entry. entry.charstring ≡ charstring.now) }
    {
        let mut bytes = Vec::from_slice(alloc, word)?;
        bytes.extend_from_slice(key)?;
        let start = bytes.len();
        bytes.extend_from_slice(charstring)?;
        Ok(Entry { bytes, start })
    }

    /// `dup N` or `/NAME`.
    pub fn head(&self) -> &[u8]
        ensures { result.now ≡ self.now.head }
    {
        self.bytes.split_at(self.start).0
    }

    /// The charstring with its leading bytes, encrypted.
    pub fn charstring(&self) -> &[u8]
        ensures { result.now ≡ self.now.charstring }
    {
        self.bytes.split_at(self.start).1
    }
}

/// What is kept of a font's Subrs, by their numbers, and of its glyphs, by their names. The order
/// says nothing.
#[derive(Drop)]
pub struct Charstrings {
    pub subrs: IndexMap<u16, Entry>,
    pub glyphs: IndexMap<Vec<u8>, Entry>,
}

/// No charstrings.
pub fn no_charstrings(alloc: Global) -> Charstrings
    ensures { (k : Key) → charstring_at result k ≡ None }
{
    Charstrings {
        subrs: IndexMap::new(alloc),
        glyphs: IndexMap::new(alloc),
    }
}

/// Makes room for so many more Subrs and glyphs. What is kept stays, also where memory runs out.
pub fn make_room(
    charstrings: &mut Charstrings,
    subrs: usize,
    glyphs: usize,
) -> Result<(), AllocError>
    ensures same { AreSameCharstrings charstrings.old charstrings.new }
    ensures subrs { OnOk result (subrs ≤ spare charstrings.new.subrs) }
    ensures glyphs { OnOk result (glyphs ≤ spare charstrings.new.glyphs) }
{
    charstrings.subrs.reserve(subrs)?;
    charstrings.glyphs.reserve(glyphs)
}

/// Puts the charstring of a Subr in. Where memory runs out all stays as it was; in room that was
/// made it doesn't.
pub fn insert_subr(
    charstrings: &mut Charstrings,
    number: u16,
    entry: Entry,
) -> Result<(), AllocError>
    ensures sets { OnOk result (Sets (Subr number) (Some entry) charstrings.old charstrings.new) }
    ensures refused { OnErr result (AreSameCharstrings charstrings.old charstrings.new) }
    ensures succeeds { 0 < spare charstrings.old.subrs → IsOk result }
    ensures room { (spare charstrings.old.subrs ≤ spare charstrings.new.subrs + 1)
        × (charstrings.new.glyphs ≡ charstrings.old.glyphs) }
{
    charstrings.subrs.insert(number, entry)?;
    Ok(())
}

/// Puts the charstring of a glyph in. Where memory runs out all stays as it was; in room that was
/// made it doesn't.
pub fn insert_glyph(
    charstrings: &mut Charstrings,
    name: Vec<u8>,
    entry: Entry,
) -> Result<(), AllocError>
    ensures sets { OnOk result
        (Sets (Glyph name.items) (Some entry) charstrings.old charstrings.new) }
    ensures refused { OnErr result (AreSameCharstrings charstrings.old charstrings.new) }
    ensures succeeds { 0 < spare charstrings.old.glyphs → IsOk result }
    ensures room { (spare charstrings.old.glyphs ≤ spare charstrings.new.glyphs + 1)
        × (charstrings.new.subrs ≡ charstrings.old.subrs) }
{
    charstrings.glyphs.insert(name, entry)?;
    Ok(())
}
