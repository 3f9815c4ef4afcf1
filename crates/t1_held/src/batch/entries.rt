//! The entries that edits name.
ghost use Rattle.std.specs.Prelude.{◌≡◌, IfOk};
ghost use Rattle.std.specs.Option.{option_map};
ghost use Rattle.t1_code.specs.Words.{commands};
ghost use Rattle.t1_source.specs.Editing.{body_words};
ghost use Rattle.t1_run.specs.Run.{Glyph};
ghost use Rattle.t1_font.specs.OwnedKeys.{key_of};
ghost use Rattle.t1_rerun.specs.Renewing.{entry_key, number_key};
ghost use Rattle.t1_held.specs.Batch.{adds, after_commands, after_edit, entry_edit};

use std::alloc::{AllocError, Global};
use t1_code::{Body, compile};
use t1_font::OwnedKey;
use t1_frac::{Bytes, Refusal};
use t1_source::{Edit, body_words};

/// What an entry is after an edit that names it.
#[derive(Drop)]
pub enum AfterEdit {
    /// It has this body.
    Body(Body),
    /// Its words have a fault.
    Fault,
    /// It is removed.
    Removed,
}

/// An entry that an edit of a batch names, whether the edit added it, and what it is after it.
#[derive(Drop)]
pub struct EditedEntry {
    pub named: OwnedKey,
    pub added: bool,
    pub after: AfterEdit,
}

/// The Subr of this number, where the number has 16 bits.
fn subr_named(number: i64) -> Option<OwnedKey>
    ensures { option_map key_of result ≡ number_key number }
{
    if 0 <= number && number <= 65_535 {
        Some(OwnedKey::Subr(number as u16))
    } else {
        None
    }
}

/// The glyph of this name.
fn glyph_named(alloc: Global, name: &Bytes) -> Result<OwnedKey, AllocError>
    ensures { IfOk result (λ entry. key_of entry ≡ Glyph name.now) }
{
    Ok(OwnedKey::Glyph(Bytes::copied(alloc, name.as_slice())?))
}

/// The Subr or the glyph that an edit names, where it names one.
fn named_entry(alloc: Global, edit: &Edit) -> Result<Option<OwnedKey>, AllocError>
    ensures { IfOk result (λ entry. option_map key_of entry ≡ entry_key edit.now) }
{
    match edit {
        Edit::ReplaceGlyph(name, _) => Ok(Some(glyph_named(alloc, name)?)),
        Edit::AddGlyph(name, _) => Ok(Some(glyph_named(alloc, name)?)),
        Edit::RemoveGlyph(name) => Ok(Some(glyph_named(alloc, name)?)),
        Edit::ReplaceSubr(number, _) => Ok(subr_named(*number)),
        Edit::AddSubr(number, _) => Ok(subr_named(*number)),
        Edit::RemoveSubr(number) => Ok(subr_named(*number)),
        Edit::Encode(_, _) => Ok(None),
        Edit::Unencode(_) => Ok(None),
        Edit::LenIv(_) => Ok(None),
        Edit::Kern(_, _, _) => Ok(None),
        Edit::Unkern(_, _) => Ok(None),
    }
}

/// Whether an edit adds an entry.
fn adds_entry(edit: &Edit) -> bool
    ensures { result ≡ adds edit.now }
{
    match edit {
        Edit::AddGlyph(_, _) => true,
        Edit::AddSubr(_, _) => true,
        _ => false,
    }
}

/// An entry that an edit gives this body.
fn after_body(alloc: Global, body: &Bytes) -> Result<AfterEdit, AllocError>
    ensures { IfOk result (λ after. after ≡ after_commands (commands (body_words body.now))) }
{
    let words = body_words(alloc, body.as_slice())?;
    match compile(alloc, &words) {
        Ok(body) => Ok(AfterEdit::Body(body)),
        Err(Refusal::Fault(_)) => Ok(AfterEdit::Fault),
        Err(Refusal::Memory) => Err(AllocError),
    }
}

/// What the entry that an edit names is after it.
fn after_edit(alloc: Global, edit: &Edit) -> Result<AfterEdit, AllocError>
    ensures { IfOk result (λ after. after ≡ after_edit edit.now) }
{
    match edit {
        Edit::ReplaceGlyph(_, body) => after_body(alloc, body),
        Edit::AddGlyph(_, body) => after_body(alloc, body),
        Edit::ReplaceSubr(_, body) => after_body(alloc, body),
        Edit::AddSubr(_, body) => after_body(alloc, body),
        _ => Ok(AfterEdit::Removed),
    }
}

/// The entry that an edit names, where it names one.
pub fn edited_entry(alloc: Global, edit: &Edit) -> Result<Option<EditedEntry>, AllocError>
    ensures { IfOk result
        (λ entry.
        option_map entry_edit entry
        ≡ option_map
        (λ key. record { key = key; added = adds edit.now; after = after_edit edit.now })
        (entry_key edit.now)) }
{
    let Some(named) = named_entry(alloc, edit)? else {
        return Ok(None);
    };
    let added = adds_entry(edit);
    let after = after_edit(alloc, edit)?;
    Ok(Some(EditedEntry {
        named,
        added,
        after,
    }))
}
