//! What the notes say.

ghost use Rattle.std.specs.Prelude.{ℕ, List};
ghost use Rattle.std.specs.List.{AllByRecursion};
ghost use Rattle.t1_measured_notes.specs.MeasuredNotes.{all_notes};
ghost use Rattle.t1_measured_notes.specs.NoteFacts.{HoldsOf};

/// Where a note says that no glyph's run enters a Subr, it stands on the line that opens the Subr,
/// and no glyph's run does; where it says that FontBBox isn't the box around the glyphs, it stands
/// on that line, and the line has other numbers. What notes on the encoding and on counts say holds
/// too.
pub fn notes_hold()
    ensures { (text : List ℕ) → AllByRecursion (HoldsOf text) (all_notes text) }
{}
