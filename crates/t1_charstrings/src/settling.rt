//! What edits make of the charstrings, made ready, and put in its place: charstrings are taken out
//! and others put in.

ghost use Rattle.std.specs.Prelude.{◌≡◌, ◌≤◌, ℕ, List, None, if◌then◌else◌, length};
ghost use Rattle.std.specs.Option.{option_or};
ghost use Rattle.indexmap.specs.IndexMap.{spare};
ghost use Rattle.t1_parts.specs.SourceParts.{SourceParts};
ghost use Rattle.t1_run.specs.Run.{Key};
ghost use Rattle.t1_font.specs.Lengths.{IsPrivateLen};
ghost use Rattle.t1_font.specs.OwnedKeys.{key_of};
ghost use Rattle.t1_charstrings.specs.Batch.{is_gone, fresh_over};
ghost use Rattle.t1_charstrings.specs.Changed.{Sets};
ghost use Rattle.t1_charstrings.specs.Entries.{glyph_charstring, subr_charstring};
ghost use Rattle.t1_charstrings.specs.Kept.{AreEncrypted, charstring_at};
ghost use Rattle.t1_charstrings.specs.Ready.{HasCharstringRoom, IsReadyLines, SettlesTo};

use crate::edited::EditedEntries;
use crate::entries::{Charstrings, Entry, insert_glyph, insert_subr};
use indexmap::IndexMap;
use t1_font::OwnedKey;

/// What edits make of the charstrings.
#[derive(Drop)]
pub enum ReadyCharstrings {
    /// The entries that the edits name change; the others stay.
    Edited(EditedEntries),
    /// All charstrings, encrypted anew.
    All(Charstrings),
}

/// What edits make of the charstrings, and how long the private text is then.
#[derive(Drop)]
pub struct ReadyLines {
    pub charstrings: ReadyCharstrings,
    pub len: usize,
}

/// Takes the charstring of an entry out.
fn take_one_out(charstrings: &mut Charstrings, gone: &OwnedKey)
    ensures sets { Sets (key_of gone.now) None charstrings.old charstrings.new }
    ensures room { (spare charstrings.old.subrs ≤ spare charstrings.new.subrs)
        × (spare charstrings.old.glyphs ≤ spare charstrings.new.glyphs) }
{
    match gone {
        OwnedKey::Subr(number) => {
            charstrings.subrs.swap_remove(number);
        }
        OwnedKey::Glyph(name) => {
            charstrings.glyphs.swap_remove(name.as_slice());
        }
    }
}

/// Takes the charstrings of entries out. It takes no memory and can't fail.
fn take_out(charstrings: &mut Charstrings, gone: &[OwnedKey])
    ensures kept { (k : Key)
        → charstring_at charstrings.new k
        ≡ (if is_gone gone.now k then None else charstring_at charstrings.old k) }
    ensures room { (spare charstrings.old.subrs ≤ spare charstrings.new.subrs)
        × (spare charstrings.old.glyphs ≤ spare charstrings.new.glyphs) }
{
    for entry in gone {
        take_one_out(charstrings, entry);
    }
}

/// Puts the charstrings of Subrs in, in room that was made.
fn put_subrs(charstrings: &mut Charstrings, fresh: IndexMap<u16, Entry>)
    ensures subrs { length fresh.entries ≤ spare charstrings.old.subrs
        → (n : ℕ)
        → subr_charstring charstrings.new.subrs.entries n
        ≡ option_or (subr_charstring fresh.entries n)
        (subr_charstring charstrings.old.subrs.entries n) }
    ensures glyphs { charstrings.new.glyphs ≡ charstrings.old.glyphs }
{
    let mut left = fresh;
    while let Some((number, entry)) = left.pop() {
        let _put = insert_subr(charstrings, number, entry);
    }
}

/// Puts the charstrings of glyphs in, in room that was made.
fn put_glyphs(charstrings: &mut Charstrings, fresh: IndexMap<Vec<u8>, Entry>)
    ensures glyphs { length fresh.entries ≤ spare charstrings.old.glyphs
        → (g : List ℕ)
        → glyph_charstring charstrings.new.glyphs.entries g
        ≡ option_or (glyph_charstring fresh.entries g)
        (glyph_charstring charstrings.old.glyphs.entries g) }
    ensures subrs { charstrings.new.subrs ≡ charstrings.old.subrs }
{
    let mut left = fresh;
    while let Some((name, entry)) = left.pop() {
        let _put = insert_glyph(charstrings, name, entry);
    }
}

/// Puts charstrings in, each in the place of what was kept of its entry. In room that was made it
/// takes no memory and can't fail.
fn put_in(charstrings: &mut Charstrings, fresh: Charstrings)
    ensures { length fresh.subrs.entries ≤ spare charstrings.old.subrs
        → length fresh.glyphs.entries ≤ spare charstrings.old.glyphs
        → (k : Key)
        → charstring_at charstrings.new k ≡ fresh_over fresh charstrings.old k }
{
    let Charstrings { subrs, glyphs } = fresh;
    put_subrs(charstrings, subrs);
    put_glyphs(charstrings, glyphs);
}

/// Puts the charstrings that are ready in their place.
fn settle_charstrings(charstrings: &mut Charstrings, ready: ReadyCharstrings)
    ensures { HasCharstringRoom ready charstrings.old
        → SettlesTo ready charstrings.old charstrings.new }
{
    match ready {
        ReadyCharstrings::Edited(EditedEntries { fresh, gone }) => {
            take_out(charstrings, &gone);
            put_in(charstrings, fresh);
        }
        ReadyCharstrings::All(anew) => *charstrings = anew,
    }
}

/// Brings the charstrings and the length of the private text from those of a source to those of the
/// edited one. It takes no memory and can't fail.
pub fn settle_lines(charstrings: &mut Charstrings, private_len: &mut usize, ready: ReadyLines)
    ensures kept { (made : SourceParts)
        → IsReadyLines made charstrings.old ready
        → AreEncrypted made charstrings.new }
    ensures len { (made : SourceParts)
        → IsReadyLines made charstrings.old ready
        → IsPrivateLen made private_len.new }
{
    let ReadyLines {
        charstrings: ready,
        len,
    } = ready;
    settle_charstrings(charstrings, ready);
    *private_len = len;
}
