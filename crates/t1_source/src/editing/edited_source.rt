//! A source that edits make.

ghost use Rattle.std.specs.Prelude.{◌≡◌, None, Some, IfSome, ◌<◌, [], length};
ghost use Rattle.std.specs.Option.{option_map};
ghost use Rattle.std.specs.List.{slice_index_or};
ghost use Rattle.t1_parts.specs.Counts.{raised};
ghost use Rattle.t1_parts.specs.Items.{is_entry};
ghost use Rattle.t1_parts.specs.declared.item.Item.TheVariants as items;
ghost use Rattle.t1_source.specs.Changes.{IsFor, is_entry_changed, is_of_pairs, made_after, put_by};
ghost use Rattle.t1_source.specs.Changes.{taken_by};
ghost use Rattle.t1_source.specs.EditedItems.{edited_items};
ghost use Rattle.t1_source.specs.EditedSource.{made_of, may_set_lead};
ghost use Rattle.t1_source.specs.WellFormed.{IsWellFormed};

use crate::editing::Change;
use crate::editing::edited_items::EditedItems;
use crate::source::Source;
use std::marker::Model;
use t1_frac::Bytes;
use t1_parts::Item;

/// Whether the item at a place is a Subr or a glyph.
fn is_entry_at(source: &Source, at: usize) -> bool
    requires { at < length source.now.items }
    ensures { result ≡ is_entry (slice_index_or source.now.items at (items.Plain [])) }
{
    source.items().item(at).is_entry()
}

impl<'a> Change<'a> {
    /// Whether the change leaves all items but Subrs and glyphs as they are.
    pub(crate) fn is_entry_changed(&self, source: &Source) -> bool
        requires { IsFor self.now source.now }
        ensures { result ≡ is_entry_changed self.now source.now }
    {
        match self {
            Change::PutItem(_, item) => item.as_ref().is_entry(),
            Change::InsertItem(_, item) => item.as_ref().is_entry(),
            Change::RemoveItem(at) => is_entry_at(source, *at),
            Change::PutClear(_) => true,
            Change::PutPair(_, _) => true,
            Change::InsertPair(_, _) => true,
            Change::RemovePair(_) => true,
        }
    }

    /// Whether the change is one of the pairs, which leaves the source as it is.
    pub fn is_of_pairs(&self) -> bool
        ensures { result ≡ is_of_pairs self.now }
    {
        match self {
            Change::PutItem(_, _) => false,
            Change::InsertItem(_, _) => false,
            Change::RemoveItem(_) => false,
            Change::PutClear(_) => false,
            Change::PutPair(_, _) => true,
            Change::InsertPair(_, _) => true,
            Change::RemovePair(_) => true,
        }
    }

    /// Where the item stands that the change takes out, or in whose place it puts another.
    pub fn taken(&self) -> Option<usize>
        ensures { result ≡ taken_by self.now }
    {
        match self {
            Change::PutItem(at, _) => Some(*at),
            Change::InsertItem(_, _) => None,
            Change::RemoveItem(at) => Some(*at),
            Change::PutClear(_) => None,
            Change::PutPair(_, _) => None,
            Change::InsertPair(_, _) => None,
            Change::RemovePair(_) => None,
        }
    }

    /// The item that the change puts in.
    pub fn put(&self) -> Option<&Item<'a>>
        ensures { option_map (λ item. item.now) result ≡ put_by self.now }
    {
        match self {
            Change::PutItem(_, item) => Some(item),
            Change::InsertItem(_, item) => Some(item),
            Change::RemoveItem(_) => None,
            Change::PutClear(_) => None,
            Change::PutPair(_, _) => None,
            Change::InsertPair(_, _) => None,
            Change::RemovePair(_) => None,
        }
    }

    /// The clear lines of a source after the change.
    pub fn clear_after<'e>(&'e self, source: &'e Source) -> &'e [Bytes]
        ensures { result.now ≡ (made_after self.now source.now).clear }
    {
        match self {
            Change::PutItem(_, _) => source.clear(),
            Change::InsertItem(_, _) => source.clear(),
            Change::RemoveItem(_) => source.clear(),
            Change::PutClear(lines) => lines.as_slice(),
            Change::PutPair(_, _) => source.clear(),
            Change::InsertPair(_, _) => source.clear(),
            Change::RemovePair(_) => source.clear(),
        }
    }
}

/// The source that edits make: one that stands, as a batch makes it; or one with a change that was
/// prepared for it, so that the edited source isn't there yet.
#[derive(Drop)]
pub struct EditedSource<'e, 'a> {
    source: &'e Source<'a>,
    change: Option<&'e Change<'a>>,
}

impl<'e, 'a> Model for EditedSource<'e, 'a> {
    ghost use Rattle.std.specs.Option.{option_map};
    ghost use Rattle.t1_source.specs.EditedSource.{CanBeMade, EditedParts};

    ghost Value = { EditedParts };

    ghost view = { λ e.
        record { source = e.source.now; change = option_map (λ change. change.now) e.change } };

    ghost invariant = { λ e. CanBeMade (option_map (λ change. change.now) e.change) e.source.now };
}

impl<'e, 'a> EditedSource<'e, 'a> {
    /// A source that stands.
    pub fn alone(source: &'e Source<'a>) -> Self
        ensures { result ≡ record { source = source.now; change = None } }
    {
        let _items = source.kept_items();
        EditedSource {
            source,
            change: None,
        }
    }

    /// A source with a change that was prepared for it.
    pub fn prepared(source: &'e Source<'a>, change: &'e Change<'a>) -> Self
        requires { IsFor change.now source.now }
        ensures { result ≡ record { source = source.now; change = Some change.now } }
    {
        EditedSource {
            source,
            change: Some(change),
        }
    }

    /// The source that stands, without the change.
    pub fn source(&self) -> &'e Source<'a>
        ensures { result.now ≡ self.now.source }
    {
        self.source
    }

    /// The change that is still to be made.
    pub fn change(&self) -> Option<&'e Change<'a>>
        ensures value { option_map (λ change. change.now) result ≡ self.now.change }
        ensures fits { IfSome result (λ change. IsFor change.now self.now.source) }
    {
        self.change
    }

    /// The lines of the clear part.
    pub fn clear(&self) -> &[Bytes]
        ensures { result.now ≡ (made_of self.now).clear }
    {
        match self.change {
            Some(change) => change.clear_after(self.source),
            None => self.source.clear(),
        }
    }

    /// The items of the private part, before their counts are raised.
    pub fn items(&self) -> EditedItems<'_, 'a>
        ensures items { raised (edited_items result) ≡ (made_of self.now).items }
        ensures well { IsWellFormed (made_of self.now) }
    {
        match self.change {
            Some(change) => EditedItems::after(self.source.items(), change),
            None => EditedItems::all(self.source.items()),
        }
    }

    /// The lines of the tail.
    pub fn tail(&self) -> &[Bytes]
        ensures { result.now ≡ (made_of self.now).tail }
    {
        self.source.tail()
    }

    /// Whether the edits of a source that make it may have set lenIV. Of a change it is known by
    /// the kind of the item that it changes.
    pub fn may_set_lead(&self, before: &Source) -> bool
        ensures { result ≡ may_set_lead before.now self.now }
    {
        match self.change {
            Some(change) => !change.is_entry_changed(self.source),
            None => self.source.lead() != before.lead(),
        }
    }
}
