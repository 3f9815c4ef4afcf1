//! Edits of a source and its pairs, in two steps: what an edit changes is made first, then it is
//! put in place.

mod edited_items;
mod edited_source;
mod entries;
mod hint;
mod kerning;
mod leads;
mod rules;
mod slots;

ghost use Rattle.std.specs.Prelude.{◌≡◌, ◌-◌, ◌<◌, ◌≤◌, IfOk, IfSome};
ghost use Rattle.std.specs.Prelude.{unwrap_or};
ghost use Rattle.t1_source.specs.Changes.{changed, Fits, Suits};
ghost use Rattle.t1_source.specs.Editing.{edited};
ghost use Rattle.t1_source.specs.EditOutcomes.{Edits};
ghost use Rattle.t1_source.specs.Hints.{IsTrueOfEdit};

use crate::edit::{Cause, Edit};
use crate::editing::entries::{
    adding_glyph, adding_subr, removing_glyph, removing_subr, replacing_glyph, replacing_subr,
};
use crate::editing::kerning::{kerning_pair, unkerning_pair};
use crate::editing::leads::putting_lead;
use crate::editing::slots::{encoding_code, unencoding_code};
use crate::source::Source;
pub use edited_items::EditedItems;
pub use edited_source::EditedSource;
pub use hint::Hint;
pub use rules::body_words;
use std::alloc::AllocError;
use t1_frac::Bytes;
use t1_pairs::{Pair, Pairs};
use t1_parts::Item;

/// What an edit changes of a source or of its pairs.
#[derive(Drop)]
pub enum Change<'a> {
    /// The item at a place is replaced by one of its kind and key.
    PutItem(usize, Item<'a>),
    /// A new item comes to stand at a place, and the counts are raised.
    InsertItem(usize, Item<'a>),
    /// The item at a place is taken out.
    RemoveItem(usize),
    /// The clear part gets other lines.
    PutClear(Vec<Bytes>),
    /// The pair at a place is replaced by one of its names.
    PutPair(usize, Pair),
    /// A new pair comes to stand at a place.
    InsertPair(usize, Pair),
    /// The pair at a place is taken out.
    RemovePair(usize),
}

/// How many elements stand through one after which so many stand, or none where there is no such
/// one.
fn through(len: usize, after: Option<usize>) -> usize
    requires { IfSome after (λ after. after < len) }
    ensures within { result ≤ len }
    ensures value { result ≡ len - unwrap_or after len }
{
    match after {
        Some(after) => len - after,
        None => 0,
    }
}

/// A source and pairs with a change made of them that was prepared for them.
fn committed<'a>(
    mut source: Source<'a>,
    mut pairs: Pairs,
    change: Change<'a>,
) -> Result<(Source<'a>, Pairs), AllocError>
    requires { Suits change source pairs }
    ensures { IfOk result (λ made. made ≡ changed change.entry source.entry pairs) }
{
    source.commit(&mut pairs, change)?;
    Ok((source, pairs))
}

impl<'a> Source<'a> {
    /// What an edit changes, or the first rule that it breaks. Its entry is looked for by a hint.
    #[tactic(auto, using(crate::proofs::HintLaws::added), unfolding(crate::specs::Editing::edited))]
    fn found_change(&self, pairs: &Pairs, edit: &Edit, hint: Hint) -> Result<Change<'a>, Cause>
        requires { IsTrueOfEdit hint edit.now self.now }
        ensures change { Edits (λ change. changed change self.now pairs.now) result
            (edited self.now pairs.now edit.now) }
        ensures fits { IfOk result (λ change. Fits change self.now pairs.now) }
    {
        match edit {
            Edit::ReplaceGlyph(name, body) => {
                replacing_glyph(self, hint.near(), name.as_slice(), body.as_slice())
            }
            Edit::AddGlyph(name, body) => {
                adding_glyph(self, hint, name.as_slice(), body.as_slice())
            }
            Edit::RemoveGlyph(name) => removing_glyph(self, hint.near(), name.as_slice()),
            Edit::ReplaceSubr(number, body) => {
                replacing_subr(self, hint.near(), *number, body.as_slice())
            }
            Edit::AddSubr(number, body) => adding_subr(self, *number, body.as_slice()),
            Edit::RemoveSubr(number) => removing_subr(self, hint.near(), *number),
            Edit::Encode(code, name) => encoding_code(self, *code, name.as_slice()),
            Edit::Unencode(code) => unencoding_code(self, *code),
            Edit::LenIv(number) => putting_lead(self, *number),
            Edit::Kern(left, right, value) => {
                kerning_pair(pairs, left.as_slice(), right.as_slice(), *value)
            }
            Edit::Unkern(left, right) => unkerning_pair(pairs, left.as_slice(), right.as_slice()),
        }
    }

    /// What an edit changes, or the first rule that it breaks. Nothing is changed, and nothing that
    /// stays is copied but the clear part, where the encoding is edited.
    pub fn prepared(&self, pairs: &Pairs, edit: &Edit) -> Result<Change<'a>, Cause>
        ensures change { Edits (λ change. changed change self.now pairs.now) result
            (edited self.now pairs.now edit.now) }
        ensures serves { IfOk result (λ change. Suits change self.now pairs.now) }
    {
        self.prepared_near(pairs, edit, Hint::Near(0))
    }

    /// What `prepared` gives. The entry that the edit replaces or takes out is looked for first
    /// among the few items before the place of a hint, and the others are gone over only where it
    /// isn't there; a glyph that the hint tells to be new isn't looked for.
    pub fn prepared_near(&self, pairs: &Pairs, edit: &Edit, hint: Hint) -> Result<Change<'a>, Cause>
        requires { IsTrueOfEdit hint edit.now self.now }
        ensures change { Edits (λ change. changed change self.now pairs.now) result
            (edited self.now pairs.now edit.now) }
        ensures serves { IfOk result (λ change. Suits change self.now pairs.now) }
    {
        let _items = self.kept_items();
        let _count = pairs.len();
        let change = self.found_change(pairs, edit, hint)?;
        Ok(change)
    }

    /// Copies of the source and the pairs.
    fn copies(&self, pairs: &Pairs) -> Result<(Source<'a>, Pairs), AllocError>
        ensures { IfOk result (λ copies. copies ≡ (self.now, pairs.now)) }
    {
        Ok((self.copied()?, pairs.copied()?))
    }

    /// The source and the pairs after a change that was prepared for them. Nothing handed in is
    /// changed.
    fn changed(&self, pairs: &Pairs, change: Change<'a>) -> Result<(Source<'a>, Pairs), AllocError>
        requires { Suits change self.now pairs.now }
        ensures { IfOk result (λ made. made ≡ changed change.entry self.now pairs.now) }
    {
        match self.copies(pairs) {
            Ok((copy, others)) => committed(copy, others, change),
            Err(error) => {
                // Called, so that what the drop does is proved once, not for this exit.
                drop(change);
                Err(error)
            }
        }
    }

    /// The source and the pairs after an edit, or the first rule that it breaks. Nothing handed in
    /// is changed.
    pub fn edited(&self, pairs: &Pairs, edit: &Edit) -> Result<(Source<'a>, Pairs), Cause>
        ensures { Edits (λ made. made) result (edited self.now pairs.now edit.now) }
    {
        let change = self.prepared(pairs, edit)?;
        let (source, pairs) = self.changed(pairs, change)?;
        Ok((source, pairs))
    }
}
