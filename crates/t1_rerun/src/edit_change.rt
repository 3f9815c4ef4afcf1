//! What an edit changes of the bodies of a source.
ghost use Rattle.std.specs.Prelude.{◌≡◌, false, IfOk, MatchResult};
ghost use Rattle.std.specs.Option.{option_map, option_to_list};
ghost use Rattle.t1_frac.specs.Outcome.{Gives, Refuses};
ghost use Rattle.t1_frac.specs.declared.fault.Place.TheVariants as places;
ghost use Rattle.t1_parts.specs.SourceParts.{SourceParts};
ghost use Rattle.t1_source.specs.Editing.{body_words};
ghost use Rattle.t1_run.specs.Run.{Glyph};
ghost use Rattle.t1_font.specs.Assembly.{file_check};
ghost use Rattle.t1_rerun.specs.EntryChanges.{edit_change, key_change, number_within, put_key};
ghost use Rattle.t1_rerun.specs.EntryChanges.{put_number, removed_number, IsChanged, IsMadeByEdit};

use crate::entry_change::EntryChange;
use std::alloc::{AllocError, Global};
use t1_code::{compiled_glyph, compiled_subr};
use t1_font::OwnedKey;
use t1_frac::{Bytes, Refusal};
use t1_source::{Edit, body_words};

/// The number of a Subr, where it has 16 bits.
fn subr_number(number: i64) -> Option<u16>
    ensures { result ≡ number_within number }
{
    if 0 <= number && number <= 65_535 {
        Some(number as u16)
    } else {
        None
    }
}

/// A Subr with the commands of a body's words, or their fault.
fn subr_put(alloc: Global, number: i64, body: &Bytes) -> Result<Option<EntryChange>, Refusal>
    ensures { Gives (option_map key_change) result
        (put_number (number_within number) (body_words body.now)) }
{
    let Some(number) = subr_number(number) else {
        return Ok(None);
    };
    let words = body_words(alloc, body.as_slice())?;
    let body = compiled_subr(alloc, number, &words)?;
    Ok(Some(EntryChange {
        named: OwnedKey::Subr(number),
        body: Some(body),
        moved: false,
    }))
}

/// A glyph with the commands of a body's words, or their fault.
fn glyph_put(alloc: Global, name: &Bytes, body: &Bytes) -> Result<Option<EntryChange>, Refusal>
    ensures { Gives (option_map key_change) result
        (put_key (Glyph name.now) (places.Glyph name.now) (body_words body.now)) }
{
    let words = body_words(alloc, body.as_slice())?;
    let body = compiled_glyph(alloc, name.as_slice(), &words)?;
    Ok(Some(EntryChange {
        named: OwnedKey::Glyph(Bytes::copied(alloc, name.as_slice())?),
        body: Some(body),
        moved: false,
    }))
}

/// A Subr that is removed.
fn subr_removed(number: i64) -> Option<EntryChange>
    ensures { option_map key_change result ≡ removed_number (number_within number) }
{
    let number = subr_number(number)?;
    Some(EntryChange {
        named: OwnedKey::Subr(number),
        body: None,
        moved: false,
    })
}

/// A glyph that is removed.
fn glyph_removed(alloc: Global, name: &Bytes) -> Result<EntryChange, AllocError>
    ensures { IfOk result
        (λ change.
        key_change change ≡ record { key = Glyph name.now; body = None; moved = false }) }
{
    Ok(EntryChange {
        named: OwnedKey::Glyph(Bytes::copied(alloc, name.as_slice())?),
        body: None,
        moved: false,
    })
}

/// The entry that an edit names, where it names one, with its body after it, or the fault of its
/// words.
fn entry_change(alloc: Global, edit: &Edit) -> Result<Option<EntryChange>, Refusal>
    ensures { Gives (option_map key_change) result (edit_change edit.now) }
{
    match edit {
        Edit::ReplaceGlyph(name, body) => glyph_put(alloc, name, body),
        Edit::AddGlyph(name, body) => glyph_put(alloc, name, body),
        Edit::RemoveGlyph(name) => Ok(Some(glyph_removed(alloc, name)?)),
        Edit::ReplaceSubr(number, body) => subr_put(alloc, *number, body),
        Edit::AddSubr(number, body) => subr_put(alloc, *number, body),
        Edit::RemoveSubr(number) => Ok(subr_removed(*number)),
        Edit::Encode(_, _) => Ok(None),
        Edit::Unencode(_) => Ok(None),
        Edit::LenIv(_) => Ok(None),
        Edit::Kern(_, _, _) => Ok(None),
        Edit::Unkern(_, _) => Ok(None),
    }
}

/// The entry that an edit names, where it names one, with its body after it; `None` in its place
/// where it is removed. Or the fault of the edit's words, at the entry: where all other bodies have
/// no fault it is the first of the edited source.
pub fn change_of_edit(alloc: Global, edit: &Edit) -> Result<Option<EntryChange>, Refusal>
    ensures change { Gives (option_map key_change) result (edit_change edit.now) }
    ensures changed { (old new : SourceParts)
        → IsMadeByEdit edit.now old new
        → MatchResult result (IsChanged edit.now old new)
        (λ refusal. Refuses refusal (file_check new)) }
{
    entry_change(alloc, edit)
}

/// The change of one edit as a list: alone in it, or none.
pub fn change_alone(
    alloc: Global,
    change: Option<EntryChange>,
) -> Result<Vec<EntryChange>, AllocError>
    ensures { IfOk result (λ changes. changes.items ≡ option_to_list change) }
{
    let mut changes = Vec::new(alloc);
    if let Some(change) = change {
        changes.push(change)?;
    }
    Ok(changes)
}
