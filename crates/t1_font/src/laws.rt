//! Laws of a whole font.

ghost use Rattle.t1_font.specs.Laws.{OutlinesLaw, SubrsFirstLaw, ReadsBackLaw};

use t1_source::laws::{printed_source_read, subrs_stand_first};

/// The first fault of a font's glyphs is that of their outlines, glyph by glyph, and where there is
/// none, the outlines are theirs.
pub fn outlines()
    ensures { OutlinesLaw }
{}

/// The first fault of a source's file is the first over the bodies of its Subrs, then over those of
/// its glyphs, then F23.
pub fn subrs_are_judged_first()
    ensures { SubrsFirstLaw }
{
    subrs_stand_first();
}

/// A source without a fault of its file, which was read or edited, is read from its text as it was.
/// Its counts need no condition: one that the text couldn't say is F23.
pub fn faultless_source_reads_back()
    ensures { ReadsBackLaw }
{
    printed_source_read();
}
