//! Laws of outlines that are shown.

ghost use Rattle.t1_outline.specs.Laws.{GlyphShownLaw, OtherShownLaw, StoredOutlineLaw};

/// Over stored bodies that are those of a source without a fault, what is shown of a name is what
/// the source shows, by as many runs. A glyph of such a source has an outline without a fault, and
/// its text is shown; of another name nothing is shown.
pub fn a_source_shows_its_outlines()
    ensures stored { StoredOutlineLaw }
    ensures glyph_shown { GlyphShownLaw }
    ensures other_shown { OtherShownLaw }
{}
