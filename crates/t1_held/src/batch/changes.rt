//! What the edits of a batch changed.
ghost use Rattle.std.specs.Prelude.{◌≡◌, ◌++◌, ◌∷◌, [], false, true, Ok, IfOk, MatchResult, OnOk};
ghost use Rattle.std.specs.Prelude.{if◌then◌else◌, map, reverse};
ghost use Rattle.std.specs.List.{list_any};
ghost use Rattle.t1_frac.specs.Outcome.{Gives, Refuses};
ghost use Rattle.t1_parts.specs.SourceParts.{SourceParts};
ghost use Rattle.t1_source.specs.WellFormed.{IsWellFormed};
ghost use Rattle.t1_run.specs.Run.{Key};
ghost use Rattle.t1_font.specs.Assembly.{file_check};
ghost use Rattle.t1_font.specs.Bodies.{bodies_check, body_check};
ghost use Rattle.t1_font.specs.OwnedKeys.{key_of};
ghost use Rattle.t1_held.specs.Batch.{body_of, entry_edit, is_fault, keys};
ghost use Rattle.t1_held.specs.Drafting.{AreBatchChanges, IsEditedBy};
ghost use Rattle.t1_held.specs.Noting.{added_keys, after_taken, all_bodies, all_taken, kept_at};
ghost use Rattle.t1_held.specs.Noting.{kept_bodies_check, kept_check, nothing_kept, other_keys};
ghost use Rattle.t1_held.specs.Noting.{taken_at, with_body, without_key};

use crate::batch::entries::{AfterEdit, EditedEntry};
use crate::batch::last_bodies::LastBodies;
use std::alloc::{AllocError, Global};
use t1_code::{Body, compiled_glyph, compiled_subr};
use t1_font::OwnedKey;
use t1_frac::Refusal;
use t1_parts::Items;
use t1_rerun::EntryChange;
use t1_source::{Item, Source};

/// The entries that edits name: the body of each after the last edit that names it, and the
/// entries of the edits that add one and of the others, in the order of the edits.
#[derive(Drop)]
struct Noted {
    bodies: LastBodies,
    added: Vec<OwnedKey>,
    others: Vec<OwnedKey>,
}

/// The body of an entry after an edit, where its words have no fault.
fn body_of(after: AfterEdit) -> Option<Body>
    ensures { result ≡ body_of after }
{
    match after {
        AfterEdit::Body(body) => Some(body),
        AfterEdit::Fault => None,
        AfterEdit::Removed => None,
    }
}

impl Noted {
    /// Notes an entry.
    fn note(&mut self, alloc: Global, entry: EditedEntry) -> Result<(), AllocError>
        ensures bodies { OnOk result
            ((k : Key)
            → kept_at self.new.bodies k
            ≡ with_body (key_of entry.named) (body_of entry.after) (kept_at self.old.bodies) k) }
        ensures added { OnOk result
            (self.new.added.items
            ≡ self.old.added.items ++ (if entry.added then entry.named ∷ [] else [])) }
        ensures others { OnOk result
            (self.new.others.items
            ≡ self.old.others.items ++ (if entry.added then [] else entry.named ∷ [])) }
    {
        let EditedEntry {
            named,
            added,
            after,
        } = entry;
        self.bodies.put(alloc, &named, body_of(after))?;
        if added {
            self.added.push(named)?;
        } else {
            self.others.push(named)?;
        }
        Ok(())
    }
}

/// The entries that edits name.
fn noted_entries(alloc: Global, entries: Vec<EditedEntry>) -> Result<Noted, AllocError>
    ensures bodies { IfOk result
        (λ noted.
        (k : Key) → kept_at noted.bodies k ≡ all_bodies entries.items nothing_kept k) }
    ensures added { IfOk result (λ noted. noted.added.items ≡ added_keys entries.items) }
    ensures others { IfOk result (λ noted. noted.others.items ≡ other_keys entries.items) }
{
    let mut noted = Noted {
        bodies: LastBodies::new(alloc),
        added: Vec::new(alloc),
        others: Vec::new(alloc),
    };
    for entry in entries {
        noted.note(alloc, entry)?;
    }
    Ok(noted)
}

/// An entry with its body, where it is still kept; it is taken out.
fn taken_change(bodies: &mut LastBodies, named: OwnedKey, moved: bool) -> Option<EntryChange>
    ensures change { result ≡ taken_at (kept_at bodies.old (key_of named)) named moved }
    ensures others { (k : Key)
        → kept_at bodies.new k ≡ without_key (key_of named) (kept_at bodies.old) k }
{
    let body = bodies.take(&named)?;
    Some(EntryChange { named, body, moved })
}

/// Adds the entries that are still kept, each with its body; they are taken out.
fn push_changes(
    changes: &mut Vec<EntryChange>,
    bodies: &mut LastBodies,
    entries: Vec<OwnedKey>,
    moved: bool,
) -> Result<(), AllocError>
    ensures pushed { OnOk result
        (changes.new.items
        ≡ changes.old.items ++ all_taken (kept_at bodies.old) moved entries.items) }
    ensures left { OnOk result
        ((k : Key) → kept_at bodies.new k ≡ after_taken entries.items (kept_at bodies.old) k) }
{
    for named in entries {
        if let Some(change) = taken_change(bodies, named, moved) {
            changes.push(change)?;
        }
    }
    Ok(())
}

/// What became of the entries, each once. Those that an edit added stand last, in the order in
/// which each was added last.
fn changes_of(alloc: Global, noted: Noted) -> Result<Vec<EntryChange>, AllocError>
    ensures { IfOk result
        (λ changes.
        changes.items
        ≡ reverse
        (all_taken (kept_at noted.bodies) true (reverse noted.added.items)
        ++ all_taken (after_taken (reverse noted.added.items) (kept_at noted.bodies)) false
        noted.others.items)) }
{
    let Noted {
        bodies,
        added,
        others,
    } = noted;
    let mut bodies = bodies;
    let mut added = added;
    let mut changes = Vec::new(alloc);
    added.reverse();
    push_changes(&mut changes, &mut bodies, added, true)?;
    push_changes(&mut changes, &mut bodies, others, false)?;
    changes.reverse();
    Ok(changes)
}

/// Whether the words of an entry have a fault.
fn is_fault(after: &AfterEdit) -> bool
    ensures { result ≡ is_fault after.now }
{
    matches!(after, AfterEdit::Fault)
}

/// Whether the words of an edit have a fault.
fn have_fault(entries: &[EditedEntry]) -> bool
    ensures { result ≡ list_any (λ e. is_fault e.after) entries.now }
{
    entries.iter().any(|entry| is_fault(&entry.after))
}

/// The fault of an item's body, at its entry, where the item is an entry whose words have one.
#[tactic(auto, unfolding(t1_font::specs::Bodies::words_check))]
fn check_body(alloc: Global, item: &Item) -> Result<(), Refusal>
    ensures { Gives (λ x. x) result (body_check item.now) }
{
    match item {
        Item::Subr(number, words, _) => drop(compiled_subr(alloc, *number, words)?),
        Item::Glyph(name, words, _) => drop(compiled_glyph(alloc, name.as_slice(), words)?),
        _ => {}
    }
    Ok(())
}

/// The fault of an item's body, where the item is one of the entries that edits name.
fn check_kept(alloc: Global, bodies: &LastBodies, item: &Item) -> Result<(), Refusal>
    ensures { Gives (λ x. x) result (kept_check (kept_at bodies.now) item.now) }
{
    if bodies.has(item) {
        check_body(alloc, item)?;
    }
    Ok(())
}

/// The first fault of the bodies of entries that edits name, in the order of the items.
#[tactic(auto, using(crate::proofs::Faulty::kept_alone))]
fn check_entries(alloc: Global, items: &Items, bodies: &LastBodies) -> Result<(), Refusal>
    ensures { Gives (λ x. x) result (kept_bodies_check (kept_at bodies.now) items.now) }
{
    for item in items.iter().alone() {
        check_kept(alloc, bodies, item)?;
    }
    Ok(())
}

/// What became of the entries that the edits of a batch name, each once: its body in the batch's
/// source, `None` where it was removed, and whether an edit added it. Or the source's first fault.
/// It costs by the edits; only where the words of one have a fault are the items gone over for the
/// first one.
pub fn batch_changes(
    alloc: Global,
    source: &Source,
    entries: Vec<EditedEntry>,
) -> Result<Vec<EntryChange>, Refusal>
    ensures { (old : SourceParts)
        → IsWellFormed old
        → bodies_check old.items ≡ Ok tt
        → IsEditedBy (map entry_edit entries.items) old source.now
        → MatchResult result
        (λ changes.
        AreBatchChanges old source.now (keys (map entry_edit entries.items)) changes.items)
        (λ refusal. Refuses refusal (file_check source.now)) }
{
    let faulty = have_fault(&entries);
    let noted = noted_entries(alloc, entries)?;
    if faulty {
        check_entries(alloc, source.items(), &noted.bodies)?;
    }
    Ok(changes_of(alloc, noted)?)
}
