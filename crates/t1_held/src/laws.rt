//! Laws of the entries that edits name.
ghost use Rattle.t1_held.specs.Members.{SameEditedLaw, SameStaleGlyphsLaw, SameStaleLaw};

/// Edits make the same glyphs stale in whatever order, and however often, they name their entries.
pub fn same_stale()
    ensures each { SameStaleLaw }
    ensures glyphs { SameStaleGlyphsLaw }
{}

/// A source that was edited at some entries was edited at these in any other order.
pub fn same_edited()
    ensures { SameEditedLaw }
{}
