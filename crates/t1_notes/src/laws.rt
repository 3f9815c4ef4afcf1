//! What the notes say.

ghost use Rattle.std.specs.Prelude.{ℕ, List};
ghost use Rattle.std.specs.List.{AllByRecursion};
ghost use Rattle.t1_notes.specs.NoteFacts.{HoldsOf};
ghost use Rattle.t1_notes.specs.Notes.{notes_of};

/// Where a note says that the encoding names a glyph that isn't there, it stands on such a line;
/// where it says that a count is higher than the entries need, it stands at that count, and it is.
pub fn notes_hold()
    ensures { (text : List ℕ) → AllByRecursion (HoldsOf text) (notes_of text) }
{}
