//! What the faults that are found have to do with the one that `check` reports.

ghost use Rattle.std.specs.Prelude.{◌≡◌, ℕ, List, [], Ok, Err};
ghost use Rattle.std.specs.List.{AllByRecursion};
ghost use Rattle.t1_frac.specs.declared.fault.Fault.{Fault};
ghost use Rattle.t1_frac.specs.declared.fault.Place.TheVariants.{Glyph};
ghost use Rattle.t1_text.specs.Lines.{lines};
ghost use Rattle.t1_pairs.specs.Kerning.{pairs};
ghost use Rattle.t1_parts.specs.Parts.{parts_of};
ghost use Rattle.t1_parts.specs.Reading.{reads};
ghost use Rattle.t1_parts.specs.SourceParts.{SourceParts};
ghost use Rattle.t1_faults.specs.FaultPlaces.{StandsThere};
ghost use Rattle.t1_faults.specs.Judging.{checked, entries_in, source_faults};
ghost use Rattle.t1_faults.specs.Reading.{reading_fault};
ghost use Rattle.t1_faults.specs.Telling.{IsAccountedFor, IsNamed, NamesFailing};
ghost use Rattle.t1_faults.specs.Telling.{TellsComposites, TellsWord, runs_read};

/// Where no fault is found, `check` passes.
pub fn check_passes_where_none()
    ensures { (bytes : List ℕ) → source_faults bytes ≡ [] → checked bytes ≡ Ok tt }
{}

/// Where `check` passes, no fault is found.
pub fn none_where_check_passes()
    ensures { (bytes : List ℕ) → checked bytes ≡ Ok tt → source_faults bytes ≡ [] }
{}

/// The fault that `check` reports is one of those that are found; or it is a glyph's, and that
/// glyph is or stands on one of which a fault is found, or whose run met one in a Subr.
pub fn reported_fault_is_found()
    ensures { (bytes : List ℕ) (fault : Fault) → checked bytes ≡ Err fault →
        IsAccountedFor (runs_read (reads bytes)) (source_faults bytes) fault }
{}

/// The word of each fault that is found stands at its line and column.
pub fn words_stand_there()
    ensures { (bytes : List ℕ) →
        AllByRecursion (TellsWord (lines bytes)) (source_faults bytes) }
{}

/// The word of the fault of a kerning file stands at its line and column.
pub fn words_of_pairs_stand_there()
    ensures { (bytes : List ℕ) (fault : Fault) → pairs bytes ≡ Err fault →
        TellsWord (lines bytes) (reading_fault (lines bytes) fault) }
{}

/// Each composite that is told with a fault stands on a glyph that the fault names.
pub fn composites_stand_there()
    ensures { (bytes : List ℕ) →
        AllByRecursion (TellsComposites (runs_read (reads bytes))) (source_faults bytes) }
{}

/// Where `check` reports a fault at a glyph, one of the faults that are found names the glyph, or
/// has it among its composites.
pub fn reported_glyph_is_named()
    ensures { (bytes : List ℕ) (fault : Fault) (g : List ℕ) → checked bytes ≡ Err fault →
        fault.place ≡ Glyph g → IsNamed g (source_faults bytes) }
{}

/// Each glyph whose run or outline fails is named by one of the faults that are found, or is among
/// the composites of one; or a run of it, or of a glyph on which it stands, calls a Subr whose
/// words can't be read, of which a fault is found.
pub fn failing_glyphs_are_named()
    ensures { (bytes : List ℕ) (s : SourceParts) → reads bytes ≡ Ok s →
        NamesFailing s (source_faults bytes) }
{}

/// Each fault that is found in a source that was read stands in the entry of its place, on one of
/// its lines, but for the file's own fault. It tells a word that is no number and no command, or
/// the word at which a run fails, by the word's number in the entry; the calls of the run, and of
/// those of its chains, lead there. Else it is told of the entry as a whole: of too many words, of
/// a glyph's own body that ends too soon, or of a join.
pub fn faults_stand_in_their_entries()
    ensures { (bytes : List ℕ) (s : SourceParts) → reads bytes ≡ Ok s →
        AllByRecursion
        (StandsThere s (entries_in (parts_of (lines bytes)) s)) (source_faults bytes) }
{}
