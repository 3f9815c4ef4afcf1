//! What edits make of an entry.

use t1_code::Body;
use t1_font::OwnedKey;

/// An entry that edits name, and its body in the edited font; `None` where it was removed. A glyph
/// that was removed and added again has moved: it stands after the others.
#[derive(Drop)]
pub struct EntryChange {
    pub named: OwnedKey,
    pub body: Option<Body>,
    pub moved: bool,
}
