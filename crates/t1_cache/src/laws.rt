//! Laws of edited sources, and of what is kept of a font under edits.
ghost use Rattle.t1_cache.specs.Changed.{ChangedBodiesLaw, RestLaw};
ghost use Rattle.t1_cache.specs.Joins.{AllDrawLaw, FirstTablesLaw, JoinsLaw, KeptRunLaw};
ghost use Rattle.t1_cache.specs.Joins.{LessTablesLaw, StaleFoundLaw};
ghost use Rattle.t1_cache.specs.Kept.{KeptNamesLaw, RecordedLaw};
ghost use Rattle.t1_cache.specs.Laws.{CountLaw, DistinctLaw, EditLaw, FirstFaultLaw, MiddleLaw};
ghost use Rattle.t1_cache.specs.Laws.{NamesLaw, NewestLaw, TurnLaw};
ghost use Rattle.t1_cache.specs.Overlay.{BodyLaw, OverlayLaw};
ghost use Rattle.t1_cache.specs.Renewal.{KeptAfterLaw, KeptTurnLaw, RenewalLaw, RerunsLaw};
ghost use Rattle.t1_cache.specs.Room.{RoomLaw};
ghost use Rattle.t1_cache.specs.There.{NamesThereLaw, UsesThereLaw};

/// Entries that are put in, taken out or replaced change a source at their keys, and nowhere else.
pub fn middle()
    ensures { MiddleLaw }
{}

/// Each edit changes a source at the key that it names, and nowhere else.
pub fn edits()
    ensures { EditLaw }
{}

/// Each edit leaves the names of the glyphs in their order: a new one is the last.
pub fn names()
    ensures { NamesLaw }
{}

/// Edits taken in turn change a source at the keys of all.
pub fn turn()
    ensures { TurnLaw }
{}

/// Bodies with those changed that an edit changes are the bodies of the edited font.
pub fn overlay()
    ensures { OverlayLaw }
{}

/// The edited font has the body of the edit at the key that the edit names, or none where it
/// removes one.
pub fn body()
    ensures { BodyLaw }
{}

/// Of a source that was edited, only stale glyphs can have a fault, and the first of theirs is its
/// first.
pub fn first_fault()
    ensures { FirstFaultLaw }
{}

/// Outlines by kept runs and by runs of stale glyphs that were made again are those of the edited
/// font.
pub fn newest()
    ensures { NewestLaw }
{}

/// A glyph that isn't stale keeps its run.
pub fn kept_run()
    ensures { KeptRunLaw }
{}

/// Names that were found, each once, are as many as the glyphs that they are.
pub fn count()
    ensures { CountLaw }
{}

/// Records in the order of the edited source, renewed where they are stale and kept else, are its
/// records.
pub fn renewal()
    ensures { RenewalLaw }
{}

/// Records in the order of the edited source, of which the stale glyphs were run again, are its
/// records.
pub fn reruns()
    ensures { RerunsLaw }
{}

/// The glyphs of an edited font that were found are those that the edits touch.
pub fn stale_found()
    ensures { StaleFoundLaw }
{}

/// Tables of users that stale glyphs left by their old runs, and joined by their new ones, are
/// those of the edited font.
pub fn joins()
    ensures { JoinsLaw }
{}

/// What the run of a glyph uses, where it has no fault, is there: each Subr that it enters, and
/// each part of a composite.
pub fn uses_there()
    ensures { UsesThereLaw }
{}

/// Of a source without a fault, each glyph that is there draws.
pub fn all_draw()
    ensures { AllDrawLaw }
{}

/// No two glyphs of a source that was read or edited bear the same name.
pub fn distinct()
    ensures { DistinctLaw }
{}

/// Tables without users that all glyphs joined by their runs are those of the font.
pub fn first_tables()
    ensures { FirstTablesLaw }
{}

/// Tables from which a Subr or a glyph was taken out that the font doesn't have are still those of
/// the font.
pub fn less_tables()
    ensures { LessTablesLaw }
{}

/// Records that have the bodies of a font have room for all that join by its runs, once there is
/// room where there is a record.
pub fn room()
    ensures { RoomLaw }
{}

/// Records that have the bodies of a font, changed at the one key at which another font differs,
/// have the bodies of that font.
pub fn changed_bodies()
    ensures { ChangedBodiesLaw }
{}

/// Records that differ in their users alone have the same bodies, runs and boxes.
pub fn rest()
    ensures { RestLaw }
{}

/// The records of a source bear the names of its glyphs, in source order.
pub fn kept_names()
    ensures { KeptNamesLaw }
{}

/// The glyphs that have a body are entries of the source, and each entry of a source without a
/// fault has a body.
pub fn names_there()
    ensures { NamesThereLaw }
{}

/// The records of a source have the own runs of its font.
pub fn recorded()
    ensures { RecordedLaw }
{}

/// The records after an edit, before any glyph is run again, stand in the order of the edited
/// source.
pub fn kept_after()
    ensures { KeptAfterLaw }
{}

/// Records that stand in the order of an edited source do so after one edit more, at the keys of
/// all edits.
pub fn kept_turn()
    ensures { KeptTurnLaw }
{}
