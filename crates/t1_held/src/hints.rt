//! What is known of the entry that an edit names, by what is held of a source.
ghost use Rattle.t1_parts.specs.SourceParts.{SourceParts};
ghost use Rattle.t1_source.specs.Hints.{IsTrueOfEdit};
ghost use Rattle.t1_held.specs.Held.{IsHeld};

use crate::held::Held;
use t1_run::Bodies;
use t1_source::{Edit, Hint};

/// How many glyphs are kept from the glyph of a name on, in the order of the source.
fn glyphs_from(held: &Held, name: &[u8]) -> Option<usize> {
    let index = held.records.glyphs.get_index_of(name)?;
    Some(held.records.glyphs.len() - index)
}

/// How many Subrs and glyphs are kept from the Subr of a number on. The Subrs are in the order of
/// the source while none was taken out.
fn entries_from(held: &Held, number: i64) -> Option<usize> {
    if number < 0 || 32000 < number {
        return None;
    }
    let number = number as u16;
    let index = held.records.subrs.get_index_of(&number)?;
    let subrs = held.records.subrs.len() - index;
    Some(subrs.saturating_add(held.records.glyphs.len()))
}

/// How many entries are kept from the one on that an edit replaces or takes out.
fn kept_from(held: &Held, edit: &Edit) -> Option<usize> {
    match edit {
        Edit::ReplaceGlyph(name, _) => glyphs_from(held, name.as_slice()),
        Edit::RemoveGlyph(name) => glyphs_from(held, name.as_slice()),
        Edit::ReplaceSubr(number, _) => entries_from(held, *number),
        Edit::RemoveSubr(number) => entries_from(held, *number),
        _ => None,
    }
}

/// Before which place the entry is to be looked for that an edit replaces or takes out, among so
/// many items, as if all of them were entries: from it on stand those that follow it. Time alone
/// hangs on it.
fn place_near(held: &Held, len: usize, edit: &Edit) -> usize {
    match kept_from(held, edit) {
        Some(from) => len - from.saturating_sub(1).min(len),
        None => 0,
    }
}

/// What is known of the entry that an edit names, in a source of so many items of which this is
/// held: near which place it stands, or that a glyph is new.
pub fn hint_of(held: &Held, len: usize, edit: &Edit) -> Hint
    ensures { (s : SourceParts) → IsHeld s held.now → IsTrueOfEdit result edit.now s }
{
    if let Edit::AddGlyph(name, _) = edit {
        if !held.records.has_glyph(name.as_slice()) {
            return Hint::NewGlyph;
        }
    }
    Hint::Near(place_near(held, len, edit))
}
