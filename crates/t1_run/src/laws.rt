//! Laws of runs.

ghost use Rattle.t1_run.specs.Footprint.{FootprintLaw, OutlineFootprintLaw, ExactLaw, PartsLaw};
ghost use Rattle.t1_run.specs.Footprint.{StepsLaw};
ghost use Rattle.t1_run.specs.Touched.{FoundByUsersLaw, UntouchedLaw};
ghost use Rattle.t1_run.specs.TouchedLaw.{TouchedAreStaleLaw};
ghost use Rattle.t1_run.specs.Within.{DrawnWithinLaw, OutlinesWithinLaw};

/// What a glyph's own body draws, or its fault, and its footprint are the same in all fonts that
/// agree on the footprint. The keys of a footprint are Subr numbers, also computed ones, and glyph
/// names.
pub fn footprint()
    ensures { FootprintLaw }
{}

/// A glyph's outline, or its fault, is the same in all fonts that agree on the footprints of the
/// glyph and of all its parts.
pub fn outline_footprint()
    ensures { OutlineFootprintLaw }
{}

/// The footprint of a run without a fault is the glyph, the Subrs that it entered, and a
/// composite's base and accent.
pub fn exact_footprint()
    ensures { ExactLaw }
{}

/// A composite whose run has no fault has its parts.
pub fn parts()
    ensures { PartsLaw }
{}

/// Each word is a step. A run without a fault made at most 100,000, and a word is refused by F47
/// exactly where so many were made before it.
pub fn steps()
    ensures { StepsLaw }
{}

/// What a glyph's own body draws, and a glyph's outline, are themselves when moved by zero: no
/// limit of coordinates or denominators refuses any of their points.
pub fn drawn_within()
    ensures { DrawnWithinLaw }
{}

/// The points of an outline without a fault are within the limits of coordinates and denominators:
/// of a font's glyph, and of a glyph by runs that were kept, each the run of some font.
pub fn outlines_within()
    ensures { OutlinesWithinLaw }
{}

/// A glyph that draws, and that edits of the font's bodies don't touch, has the same run and the
/// same outline in the edited font.
pub fn untouched()
    ensures { UntouchedLaw }
{}

/// The glyphs that tables of users reach, from the glyphs that use what edits name, are the glyphs
/// that the edits touch.
pub fn found_by_users()
    ensures { FoundByUsersLaw }
{}

/// In a font whose glyphs all draw, the glyphs that edits touch are those that they name, those
/// whose own run enters a Subr that they name, and the composites on any glyph found so far, until
/// none is added.
pub fn touched_are_stale()
    ensures { TouchedAreStaleLaw }
{}
