//! The edits of an open batch, and what they changed.
//!
//! A [`Batch`] makes the edits of an open batch on copies of a source and its pairs, and notes the
//! entries that they name with the bodies that they give them. At its commit [`batch_changes`]
//! gives what became of these entries, or the source's first fault.
mod changes;
mod entries;
mod last_bodies;

pub use changes::batch_changes;
pub use entries::{AfterEdit, EditedEntry};
use std::marker::Model;
use t1_pairs::Pairs;
use t1_source::Source;

/// What the edits of a batch name and change, for its commit.
#[derive(Drop)]
pub struct BatchEdits {
    /// The entries that they name, in the order of the edits.
    pub entries: Vec<EditedEntry>,
    /// What they change of the lines beside their charstrings, in bytes, counted from 2^63, since
    /// they may take out more than they put in; `None` where the count was given up.
    pub beside: Option<usize>,
}

/// The source and the pairs after the edits of a batch so far, and what the edits name and change.
#[derive(Drop)]
pub struct Batch<'a> {
    source: Source<'a>,
    pairs: Pairs,
    edits: BatchEdits,
}

impl<'a> Model for Batch<'a> {
    ghost use Rattle.std.specs.Prelude.{map};
    ghost use Rattle.t1_held.specs.Batch.{DraftedBatch, entry_edit, keys};

    ghost Value = { DraftedBatch };

    ghost view = { λ b.
        record {
          draft =
              record {
                source = b.source;
                pairs = b.pairs;
                keys = keys (map entry_edit b.edits.entries.items);
              };
          entries = map entry_edit b.edits.entries.items;
          beside = b.edits.beside;
        } };
}

ghost use Rattle.std.specs.Prelude.{◌≡◌, ◌<◌, ◌++◌, [], Some, IfOk, OnOk, map};
ghost use Rattle.std.specs.Prelude.{vec_capacity, vec_len};
ghost use Rattle.std.specs.Option.{option_map, option_to_list};
ghost use Rattle.t1_parts.specs.SourceParts.{SourceParts};
ghost use Rattle.t1_source.specs.WellFormed.{IsWellFormed};
ghost use Rattle.t1_rerun.specs.Renewing.{entry_key};
ghost use Rattle.t1_held.specs.Batch.{adds, after_edit, count_begin, entry_edit, keys};
ghost use Rattle.t1_held.specs.Drafting.{Drafts, IsCountedBy, IsDraftOf};

use crate::batch::entries::edited_entry;
use std::alloc::{AllocError, Global};
use t1_charstrings::len_beside;
use t1_source::laws::source_is_well_formed;
use t1_source::{Cause, Edit, Hint};

/// Where the count of the lines beside their charstrings begins.
pub const COUNT_BEGIN: usize = 1 << 63;

/// The entry that an edit names, where it names one, and room for it among those that were noted.
fn entry_with_room(
    alloc: Global,
    entries: &mut Vec<EditedEntry>,
    edit: &Edit,
) -> Result<Option<EditedEntry>, AllocError>
    ensures entry { IfOk result
        (λ entry.
        option_map entry_edit entry
        ≡ option_map
        (λ key. record { key = key; added = adds edit.now; after = after_edit edit.now })
        (entry_key edit.now)) }
    ensures same { entries.new.items ≡ entries.old.items }
    ensures room { OnOk result (vec_len entries.new < vec_capacity entries.new) }
{
    let entry = edited_entry(alloc, edit)?;
    entries.reserve(1)?;
    Ok(entry)
}

/// Notes an entry, where there is room for it.
fn note(entries: &mut Vec<EditedEntry>, entry: Option<EditedEntry>)
    requires { vec_len entries.old < vec_capacity entries.old }
    ensures { entries.new.items ≡ entries.old.items ++ option_to_list entry }
{
    if let Some(entry) = entry {
        let _noted = entries.push(entry);
    }
}

impl<'a> Batch<'a> {
    /// A batch without edits, on copies of a source and its pairs.
    pub fn of(alloc: Global, source: &Source<'a>, pairs: &Pairs) -> Result<Batch<'a>, AllocError>
        ensures made { IfOk result
            (λ batch.
            batch.draft ≡ record { source = source.now; pairs = pairs.now; keys = [] }) }
        ensures beside { IfOk result (λ batch. batch.beside ≡ Some count_begin) }
        ensures draft { IsWellFormed source.now → IfOk result (IsDraftOf source.now) }
    {
        Ok(Batch {
            source: source.copied()?,
            pairs: pairs.copied()?,
            edits: BatchEdits {
                entries: Vec::new(alloc),
                beside: Some(COUNT_BEGIN),
            },
        })
    }

    /// Makes an edit and notes its entry, or answers the first edit rule that it breaks and changes
    /// nothing, as where memory runs out. No glyph is run. An entry that the edit replaces or takes
    /// out is looked for first among the few items before a place.
    pub fn edit(&mut self, alloc: Global, edit: &Edit, near: usize) -> Result<(), Cause>
        ensures edited { Drafts self.old.draft edit.now result self.new.draft }
        ensures counted { OnOk result (IsCountedBy self.old self.new) }
        ensures draft { (s : SourceParts) → IsDraftOf s self.old → IsDraftOf s self.new }
    {
        let change = self
            .source
            .prepared_near(&self.pairs, edit, Hint::Near(near))?;
        source_is_well_formed(&self.source);
        let beside = len_beside(self.edits.beside, &self.source, &change);
        match entry_with_room(alloc, &mut self.edits.entries, edit) {
            Ok(entry) => {
                self.source.commit(&mut self.pairs, change)?;
                self.edits.beside = beside;
                note(&mut self.edits.entries, entry);
                Ok(())
            }
            Err(error) => {
                drop(change);
                Err(Cause::from(error))
            }
        }
    }

    /// Its source.
    pub fn source(&self) -> &Source<'a>
        ensures { result.now ≡ self.now.draft.source }
    {
        &self.source
    }

    /// Its source, its pairs, and what its edits name and change. It takes no memory.
    pub fn into_parts(self) -> (Source<'a>, Pairs, BatchEdits)
        ensures source { result.0 ≡ self.entry.draft.source }
        ensures pairs { result.1 ≡ self.entry.draft.pairs }
        ensures entries { map entry_edit result.2.entries.items ≡ self.entry.entries }
        ensures keys { keys (map entry_edit result.2.entries.items) ≡ self.entry.draft.keys }
        ensures beside { result.2.beside ≡ self.entry.beside }
    {
        (self.source, self.pairs, self.edits)
    }
}
