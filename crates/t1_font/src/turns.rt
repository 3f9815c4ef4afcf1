//! The items of a source, one after another: Subrs compiled, glyphs compiled and run.
ghost use Rattle.std.specs.Prelude.{◌≡◌, ◌++◌, ◌||◌, is_some, ℕ, List, [], None, Option, Result};
ghost use Rattle.std.specs.Prelude.{All, Ok, IfOk, OnOk};
ghost use Rattle.std.specs.List.{list_any};
ghost use Rattle.std.specs.Option.{option_or};
ghost use Rattle.std.specs.Str.{bytes_eq};
ghost use Rattle.t1_frac.specs.Outcome.{Gives, reported_at};
ghost use Rattle.t1_frac.specs.declared.fault.Place.TheVariants as places;
ghost use Rattle.t1_frac.specs.declared.fault.Code.{Code as CodeOf};
ghost use Rattle.t1_run.specs.Run.{Drawing, font};
ghost use Rattle.t1_font.specs.Bodies.{bodies_check, body_check, subr_in};
ghost use Rattle.t1_font.specs.Glyphs.{glyph_names, name_in};
ghost use Rattle.t1_font.specs.InTurn.{staying, AreRows, AreTurnsOf, IsFirstOfName, IsRow, RunsAs};
ghost use Rattle.t1_font.specs.InTurn.{RunsStay, SubrsStandFirst};
ghost use Rattle.t1_font.specs.MeasuredGlyphs.{glyph_metrics_at, measured};
ghost use Rattle.t1_font.specs.MetricsByRuns.{glyph_metrics_among};
ghost use Rattle.t1_font.specs.Names.{is_name_kept};
ghost use Rattle.t1_font.specs.SourceChecks.{measured_source};
ghost use Rattle.t1_font.specs.Assembly.{file_check};
ghost use Rattle.t1_parts.specs.declared.item.Item.{Item as ItemOf};
ghost use Rattle.t1_font.specs.Runs.{drawing_in};
ghost use Rattle.t1_font.specs.ToRun.{glyph_to_run};
ghost use Rattle.t1_font.specs.StoredSubrs.{subr_stored};

use crate::compiler::{Compiler, WordsCompiler};
use crate::glyph_metrics::{GlyphMetrics, placed_metrics};
use crate::glyphs::{MeasuredGlyphs, name_of};
use crate::in_turn::{Row, Scratch, glyph_turn};
use crate::kern::add_name;
use crate::lengths::check_file;
use crate::reported::Rows;
use crate::runs::Runs;
use crate::source_bodies::SourceBodies;
use crate::subr_bodies::SubrBodies;
use indexmap::IndexSet;
use std::alloc::{AllocError, Global};
use t1_frac::{Bytes, Place, Refusal};
use t1_parts::Items;
use t1_source::laws::{source_is_well_formed, subrs_stand_first};
use t1_source::{Item, Source};

/// Adds the name of an item, where it is a glyph.
fn add_item_name<'a>(names: &mut IndexSet<&'a [u8]>, item: &'a Item) -> Result<(), AllocError>
    ensures { OnOk result
        ((g : List ℕ)
        → is_name_kept names.new.keys g
        ≡ (is_name_kept names.old.keys g || list_any (bytes_eq g) (name_in item.now))) }
{
    match name_of(item) {
        None => Ok(()),
        Some(name) => add_name(names, name),
    }
}

/// The names of the glyphs.
#[tactic(auto, using(crate::proofs::AloneLaws::names_alone))]
fn names_of<'a>(alloc: Global, items: &'a Items) -> Result<IndexSet<&'a [u8]>, AllocError>
    ensures { IfOk result
        (λ names.
        (g : List ℕ)
        → is_name_kept names.keys g ≡ list_any (bytes_eq g) (glyph_names items.now)) }
{
    let mut names = IndexSet::new(alloc);
    for item in items.iter().alone() {
        add_item_name(&mut names, item)?;
    }
    Ok(names)
}

/// What is reported of the glyphs of a source, in the order of their entries, and the runs that
/// stay.
#[derive(Drop)]
struct Reported<'a> {
    rows: Rows<'a>,
    runs: Runs<'a>,
}

impl<'a> Reported<'a> {
    /// Of no items, with room for what is reported of so many glyphs.
    fn with_room(alloc: Global, glyphs: usize) -> Result<Self, AllocError>
        ensures rows { IfOk result (λ reported. reported.rows ≡ []) }
        ensures runs { IfOk result (λ reported. reported.runs ≡ []) }
    {
        Ok(Reported {
            rows: Rows::with_room(alloc, glyphs)?,
            runs: Runs::new(alloc),
        })
    }
}

/// The Subrs of the items so far, and what one glyph after another uses again.
#[derive(Drop)]
struct Turns {
    subrs: SubrBodies,
    scratch: Scratch,
}

impl Turns {
    /// Before the first item.
    fn new(alloc: Global) -> Result<Self, AllocError>
        ensures { IfOk result (λ turns. (n : ℕ) → subr_stored turns.subrs n ≡ None) }
    {
        let scratch = Scratch::new(alloc)?;
        Ok(Turns {
            subrs: SubrBodies::new(alloc),
            scratch,
        })
    }

    /// Takes an item of a source, or answers the fault of its words.
    fn take<'a, C: Compiler>(
        &mut self,
        alloc: Global,
        compiler: &mut C,
        items: &'a Items,
        names: &IndexSet<&'a [u8]>,
        item: &'a Item,
        reported: &mut Reported<'a>,
    ) -> Result<(), Refusal>
        requires known { (g : List ℕ)
            → is_name_kept names.now.keys g ≡ is_some (glyph_to_run items.now g) }
        requires first { IsFirstOfName items.now item.now }
        ensures checked { Gives (λ x. x) result (body_check item.now) }
        ensures subrs { OnOk result
            ((n : ℕ)
            → subr_stored self.new.subrs n
            ≡ option_or (subr_stored self.old.subrs n) (subr_in item.now n)) }
        ensures rows { (run : List ℕ → Option (Result Drawing CodeOf)) (gs : List (List ℕ))
            → RunsAs item.now run (font (subr_stored self.old.subrs) (glyph_to_run items.now))
            → AreRows run gs reported.old.rows
            → OnOk result (AreRows run (gs ++ name_in item.now) reported.new.rows) }
        ensures runs { (run : List ℕ → Option (Result Drawing CodeOf)) (gs : List (List ℕ))
            → RunsAs item.now run (font (subr_stored self.old.subrs) (glyph_to_run items.now))
            → ((g : List ℕ) → drawing_in reported.old.runs g ≡ staying run gs g)
            → OnOk result
            ((g : List ℕ)
            → drawing_in reported.new.runs g ≡ staying run (gs ++ name_in item.now) g) }
    {
        match item {
            Item::Subr(number, words, _) => self.subrs.add(compiler, *number, words),
            Item::Glyph(name, words, _) => {
                let source = SourceBodies {
                    subrs: &self.subrs,
                    names,
                    items,
                };
                let row = glyph_turn(
                    alloc,
                    compiler,
                    &source,
                    name.as_slice(),
                    words,
                    &mut reported.runs,
                    &mut self.scratch,
                )?;
                reported.rows.push(row)?;
                Ok(())
            }
            Item::Plain(_) => Ok(()),
            Item::Section(_, _, _) => Ok(()),
        }
    }

    /// Takes the items of a source, one after another, or answers the first fault of a body, at its
    /// entry.
    fn take_all<'a, C: Compiler>(
        &mut self,
        alloc: Global,
        compiler: &mut C,
        items: &'a Items,
        names: &IndexSet<&'a [u8]>,
        reported: &mut Reported<'a>,
    ) -> Result<(), Refusal>
        requires names { (g : List ℕ)
            → is_name_kept names.now.keys g ≡ list_any (bytes_eq g) (glyph_names items.now) }
        requires firsts { All (IsFirstOfName items.now) items.now }
        requires order { SubrsStandFirst items.now }
        requires subrs { (n : ℕ) → subr_stored self.old.subrs n ≡ None }
        requires rows { reported.old.rows ≡ [] }
        requires runs { reported.old.runs ≡ [] }
        ensures checked { Gives (λ x. x) result (bodies_check items.now) }
        ensures turns { OnOk result (AreTurnsOf items.now reported.new.rows reported.new.runs) }
    {
        for item in items.iter().alone() {
            self.take(alloc, compiler, items, names, item, reported)?;
        }
        Ok(())
    }
}

/// Adds what is reported of the glyphs of a source to nothing, and the runs that stay; or answers
/// the first fault of a body, at its entry. Subrs are compiled and glyphs are compiled and run in
/// the order of the items, each once.
fn report<'a, C: Compiler>(
    alloc: Global,
    compiler: &mut C,
    items: &'a Items,
    names: &IndexSet<&'a [u8]>,
    reported: &mut Reported<'a>,
) -> Result<(), Refusal>
    requires names { (g : List ℕ)
        → is_name_kept names.now.keys g ≡ list_any (bytes_eq g) (glyph_names items.now) }
    requires firsts { All (IsFirstOfName items.now) items.now }
    requires order { SubrsStandFirst items.now }
    requires rows { reported.old.rows ≡ [] }
    requires runs { reported.old.runs ≡ [] }
    ensures checked { Gives (λ x. x) result (bodies_check items.now) }
    ensures turns { OnOk result (AreTurnsOf items.now reported.new.rows reported.new.runs) }
{
    let mut turns = Turns::new(alloc)?;
    turns.take_all(alloc, compiler, items, names, reported)
}

/// What is reported of the glyphs of a source, which have these names, and the runs that stay; or
/// the first fault of a body, at its entry.
fn reported_of<'a, C: Compiler>(
    alloc: Global,
    compiler: &mut C,
    items: &'a Items,
    names: &IndexSet<&'a [u8]>,
) -> Result<Reported<'a>, Refusal>
    requires names { (g : List ℕ)
        → is_name_kept names.now.keys g ≡ list_any (bytes_eq g) (glyph_names items.now) }
    requires firsts { All (IsFirstOfName items.now) items.now }
    requires order { SubrsStandFirst items.now }
    ensures checked { Gives (λ _. tt) result (bodies_check items.now) }
    ensures turns { IfOk result (λ turns. AreTurnsOf items.now turns.rows turns.runs) }
{
    let mut reported = Reported::with_room(alloc, names.len())?;
    report(alloc, compiler, items, names, &mut reported)?;
    Ok(reported)
}

/// The same of a source, by the names of its glyphs.
fn turns_of<'a, C: Compiler>(
    alloc: Global,
    compiler: &mut C,
    items: &'a Items,
) -> Result<Reported<'a>, Refusal>
    requires firsts { All (IsFirstOfName items.now) items.now }
    requires order { SubrsStandFirst items.now }
    ensures checked { Gives (λ _. tt) result (bodies_check items.now) }
    ensures turns { IfOk result (λ turns. AreTurnsOf items.now turns.rows turns.runs) }
{
    let names = names_of(alloc, items)?;
    reported_of(alloc, compiler, items, &names)
}

/// What is measured of a glyph of which this is reported, or its first fault, at the glyph.
#[tactic(auto, using(crate::proofs::StayingLaws::staying_metrics))]
fn metrics_of_row<'a>(alloc: Global, runs: &Runs, row: Row<'a>) -> Result<GlyphMetrics<'a>, Refusal>
    ensures { (run : List ℕ → Option (Result Drawing CodeOf)) (names : List (List ℕ))
        (name : List ℕ)
        → IsRow run name row.entry
        → RunsStay run names runs.now
        → Gives (λ glyph. glyph) result
        (reported_at (places.Glyph name) (glyph_metrics_at run name)) }
{
    match row {
        Row::Measured(glyph) => Ok(glyph),
        Row::Waiting(name) => placed_metrics(alloc, runs, name),
        Row::Faulty(name, code) => {
            let place = Place::Glyph(Bytes::copied(alloc, name)?);
            Err(Refusal::from(code).at(place))
        }
    }
}

/// What is measured of the glyphs of which this is reported, in their order, or the first fault of
/// a glyph.
fn metrics_of_rows<'a>(
    alloc: Global,
    runs: &Runs,
    rows: Rows<'a>,
) -> Result<Vec<GlyphMetrics<'a>>, Refusal>
    ensures { (run : List ℕ → Option (Result Drawing CodeOf)) (names : List (List ℕ))
        → AreRows run names rows.entry
        → RunsStay run names runs.now
        → Gives (λ metrics. metrics.items) result (glyph_metrics_among run names) }
{
    let Rows { measured, rest } = rows;
    let mut metrics = measured;
    for row in rest {
        metrics.push(metrics_of_row(alloc, runs, row)?)?;
    }
    Ok(metrics)
}

/// What is reported of the glyphs of a source whose PFB file and text have no fault; or the first
/// fault: of a body, at its entry, else F23.
#[tactic(auto, using(crate::proofs::LengthLaws::body_fault_reported))]
fn checked_turns<'a, C: Compiler>(
    alloc: Global,
    compiler: &mut C,
    source: &'a Source,
) -> Result<Reported<'a>, Refusal>
    requires firsts { All (IsFirstOfName source.now.items) source.now.items }
    requires order { SubrsStandFirst source.now.items }
    ensures file { Gives (λ _. tt) result (file_check source.now) }
    ensures no_fault { IfOk result (λ _. bodies_check source.now.items ≡ Ok tt) }
    ensures turns { IfOk result (λ turns. AreTurnsOf source.now.items turns.rows turns.runs) }
{
    let turns = turns_of(alloc, compiler, source.items())?;
    check_file(alloc, source)?;
    Ok(turns)
}

/// What is measured of these glyphs, and the box around those that draw, or the first fault of a
/// glyph.
fn measured_turns<'a>(alloc: Global, turns: Reported<'a>) -> Result<MeasuredGlyphs<'a>, Refusal>
    ensures { (items : List ItemOf)
        → bodies_check items ≡ Ok tt
        → AreTurnsOf items turns.entry.rows turns.entry.runs
        → Gives (λ glyphs. glyphs) result (measured items) }
{
    let Reported { rows, runs } = turns;
    let metrics = metrics_of_rows(alloc, &runs, rows)?;
    Ok(MeasuredGlyphs::of(metrics))
}

/// What is measured of the glyphs of a source, in the order of their entries, and the font's box;
/// or the source's first fault: of a body, at its entry, F23, or of a glyph, at the glyph. Each
/// body is compiled in the order of the entries, and each glyph is run once. No body of one is
/// stored.
#[tactic(auto, unfolding(crate::specs::SourceChecks::measured_source))]
pub fn measured_glyphs_by<'a, C: Compiler>(
    alloc: Global,
    compiler: &mut C,
    source: &'a Source,
) -> Result<MeasuredGlyphs<'a>, Refusal>
    ensures { Gives (λ glyphs. glyphs) result (measured_source source.now) }
{
    source_is_well_formed(source);
    subrs_stand_first();
    let turns = checked_turns(alloc, compiler, source)?;
    measured_turns(alloc, turns)
}

/// The same, where the words of each body are read.
pub fn measured_glyphs<'a>(alloc: Global, source: &'a Source) -> Result<MeasuredGlyphs<'a>, Refusal>
    ensures { Gives (λ glyphs. glyphs) result (measured_source source.now) }
{
    measured_glyphs_by(alloc, &mut WordsCompiler, source)
}
