//! The entries that edits name, as the edits leave them.

use crate::entries::Charstrings;
use t1_font::OwnedKey;

/// What edits make of the entries that they name.
#[derive(Drop)]
pub struct EditedEntries {
    /// The charstrings of the entries that were replaced or added.
    pub fresh: Charstrings,
    /// The entries that are removed, each named once.
    pub gone: Vec<OwnedKey>,
}
