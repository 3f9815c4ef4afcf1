//! The records of a source from scratch.
ghost use Rattle.std.specs.Prelude.{◌≡◌, [], ℕ, List, None, Ok, false, IfOk, OnOk, is_some, map};
ghost use Rattle.std.specs.Prelude.{if◌then◌else◌};
ghost use Rattle.std.specs.List.{AllByRecursion, list_any};
ghost use Rattle.std.specs.Str.{bytes_eq};
ghost use Rattle.t1_frac.specs.Outcome.{Gives};
ghost use Rattle.t1_run.specs.Run.{Key, Subr, Glyph, font};
ghost use Rattle.t1_run.specs.RunKeys.{body_at};
ghost use Rattle.t1_font.specs.Assembly.{file_check};
ghost use Rattle.t1_font.specs.Bodies.{bodies as bodies_of, bodies_check};
ghost use Rattle.t1_font.specs.KeptBodies.{glyph_body_kept};
ghost use Rattle.t1_font.specs.KeptBodies.{plain_bodies, subr_body_kept, SameBodies};
ghost use Rattle.t1_font.specs.Glyphs.{glyph_names};
ghost use Rattle.t1_font.specs.Runs.{Counts};
ghost use Rattle.t1_font.specs.SourceChecks.{source_check};
ghost use Rattle.t1_cache.specs.Bodies.{record_bodies};
ghost use Rattle.t1_cache.specs.Laws.{AreDistinct};
ghost use Rattle.t1_cache.specs.Recorded.{kept_of};
ghost use Rattle.t1_cache.specs.Tables.{AreTables};
ghost use Rattle.t1_cache.specs.Users.{lists};
ghost use Rattle.t1_rerun.specs.Opened.{measured_names, opening_runs, AreMeasured, AreUnused};
ghost use Rattle.t1_rerun.specs.Opened.{IsRecorded};
ghost use Rattle.t1_rerun.specs.RunNumbers.{IsRunAfter};
ghost use Rattle.t1_rerun.specs.Renewals.{HasRun};
ghost use Rattle.t1_rerun.specs.Right.{IsRight};

use crate::reruns::taken;
use indexmap::{IndexMap, IndexSet};
use std::alloc::{AllocError, Global};
use t1_cache::{
    BoxedRecord, GlyphRecord, Records, insert_glyph, insert_subr, joins_of, make_room, move_users,
};
use t1_code::Body;
use t1_font::{GlyphMetrics, Runs, checked_bodies, glyph_metrics_of, glyph_names, runs_of};
use t1_frac::Refusal;
use t1_run::{Meter, Plain};
use t1_source::Source;
use t1_source::laws::text_of_source_read;

/// Puts in the records of Subrs, of which none has one, without users.
fn insert_subrs(
    alloc: Global,
    records: &mut Records,
    bodies: IndexMap<u16, Body>,
) -> Result<(), AllocError>
    requires { (n : ℕ) → body_at (record_bodies records.old) (Subr n) ≡ None }
    ensures subrs { OnOk result
        ((n : ℕ)
        → body_at (record_bodies records.new) (Subr n) ≡ subr_body_kept bodies.entries n) }
    ensures glyphs { OnOk result
        ((g : List ℕ)
        → body_at (record_bodies records.new) (Glyph g)
        ≡ body_at (record_bodies records.old) (Glyph g)) }
    ensures users { OnOk result
        ((k : Key) (u : List ℕ) → lists records.new k u ≡ lists records.old k u) }
    ensures kept { OnOk result
        (map kept_of records.new.glyphs.entries ≡ map kept_of records.old.glyphs.entries) }
{
    let mut left = bodies;
    while let Some((number, body)) = left.pop() {
        insert_subr(alloc, records, number, body)?;
    }
    Ok(())
}

/// Takes out the body of a glyph, where there is one.
fn taken_body(bodies: &mut IndexMap<Vec<u8>, Body>, name: &[u8]) -> Option<Body>
    ensures body { result ≡ glyph_body_kept bodies.old.entries name.now }
    ensures others { (g : List ℕ)
        → glyph_body_kept bodies.new.entries g
        ≡ (if bytes_eq name.now g then None else glyph_body_kept bodies.old.entries g) }
{
    bodies.swap_remove(name)
}

/// Puts in the records of all glyphs, which were run and measured, in the order in which they were,
/// without users. It takes out their bodies and runs.
fn insert_glyphs(
    alloc: Global,
    records: &mut Records,
    bodies: &mut IndexMap<Vec<u8>, Body>,
    runs: &mut Runs,
    metrics: &[GlyphMetrics],
) -> Result<(), AllocError>
    requires none { map kept_of records.old.glyphs.entries ≡ [] }
    requires distinct { AreDistinct (measured_names metrics.now) }
    requires bodies { (g : List ℕ)
        → is_some (glyph_body_kept bodies.old.entries g)
        ≡ list_any (bytes_eq g) (measured_names metrics.now) }
    requires runs { AllByRecursion (HasRun runs.old) metrics.now }
    ensures subrs { OnOk result
        ((n : ℕ)
        → body_at (record_bodies records.new) (Subr n)
        ≡ body_at (record_bodies records.old) (Subr n)) }
    ensures glyphs { OnOk result
        ((g : List ℕ)
        → body_at (record_bodies records.new) (Glyph g)
        ≡ glyph_body_kept bodies.old.entries g) }
    ensures users { OnOk result
        ((k : Key) (u : List ℕ) → lists records.new k u ≡ lists records.old k u) }
    ensures order { OnOk result
        (map (λ k. k.name) (map kept_of records.new.glyphs.entries)
        ≡ measured_names metrics.now) }
    ensures each { OnOk result
        (AllByRecursion (IsRecorded runs.old metrics.now)
        (map kept_of records.new.glyphs.entries)) }
{
    for glyph in metrics {
        let text = glyph.name.as_slice();
        let name = Vec::from_slice(alloc, text)?;
        let Some(body) = taken_body(bodies, text) else {
            continue;
        };
        let Some(run) = taken(runs, text) else {
            continue;
        };
        let record = GlyphRecord {
            body,
            run,
            bbox: glyph.bbox,
            users: IndexSet::new(alloc),
        };
        insert_glyph(records, name, BoxedRecord::new(alloc, record)?)?;
    }
    Ok(())
}

/// Puts in the records of all entries, of which none has one, without users. It takes out the
/// bodies and the runs of the glyphs.
fn insert_entries(
    alloc: Global,
    records: &mut Records,
    subrs: IndexMap<u16, Body>,
    glyphs: &mut IndexMap<Vec<u8>, Body>,
    runs: &mut Runs,
    metrics: &[GlyphMetrics],
) -> Result<(), AllocError>
    requires no_subrs { records.old.subrs.entries ≡ [] }
    requires no_glyphs { records.old.glyphs.entries ≡ [] }
    requires measured { AreMeasured
        (font (subr_body_kept subrs.entries) (glyph_body_kept glyphs.old.entries)) runs.old
        metrics.now }
    ensures { OnOk result
        (AreUnused (font (subr_body_kept subrs.entries) (glyph_body_kept glyphs.old.entries))
        runs.old metrics.now records.new) }
{
    insert_subrs(alloc, records, subrs)?;
    insert_glyphs(alloc, records, glyphs, runs, metrics)?;
    Ok(())
}

/// Puts in the records of bodies, whose glyphs were run and measured, where there are none, without
/// users.
fn insert_bodies(
    alloc: Global,
    records: &mut Records,
    bodies: Plain,
    runs: Runs,
    metrics: &[GlyphMetrics],
) -> Result<(), AllocError>
    requires no_subrs { records.old.subrs.entries ≡ [] }
    requires no_glyphs { records.old.glyphs.entries ≡ [] }
    requires measured { AreMeasured (plain_bodies bodies) runs metrics.now }
    ensures { OnOk result (AreUnused (plain_bodies bodies) runs.entry metrics.now records.new) }
{
    let Plain { subrs, mut glyphs } = bodies;
    let mut runs = runs;
    insert_entries(alloc, records, subrs, &mut glyphs, &mut runs, metrics)
}

/// The records of bodies, whose glyphs were run and measured, without users.
fn unused_records(
    alloc: Global,
    bodies: Plain,
    runs: Runs,
    metrics: &[GlyphMetrics],
) -> Result<Records, AllocError>
    requires { AreMeasured (plain_bodies bodies) runs metrics.now }
    ensures { IfOk result (AreUnused (plain_bodies bodies) runs.entry metrics.now) }
{
    let mut records = Records {
        subrs: IndexMap::new(alloc),
        glyphs: IndexMap::new(alloc),
    };
    insert_bodies(alloc, &mut records, bodies, runs, metrics)?;
    Ok(records)
}

/// The records of bodies, whose glyphs were run and measured, with the users of each Subr and each
/// glyph.
fn records_of(
    alloc: Global,
    bodies: Plain,
    names: &[&[u8]],
    runs: Runs,
    metrics: &[GlyphMetrics],
) -> Result<Records, AllocError>
    requires names { map (λ name. name.now) names.now ≡ measured_names metrics.now }
    requires measured { AreMeasured (plain_bodies bodies) runs metrics.now }
    ensures compiled { IfOk result
        (λ records. SameBodies (record_bodies records) (plain_bodies bodies)) }
    ensures users { IfOk result (AreTables (plain_bodies bodies)) }
    ensures order { IfOk result
        (λ records.
        map (λ k. k.name) (map kept_of records.glyphs.entries)
        ≡ measured_names metrics.now) }
    ensures each { IfOk result
        (λ records.
        AllByRecursion (IsRecorded runs.entry metrics.now)
        (map kept_of records.glyphs.entries)) }
{
    let joins = joins_of(alloc, &runs, names)?;
    let mut records = unused_records(alloc, bodies, runs, metrics)?;
    make_room(alloc, &mut records, &joins)?;
    move_users(&mut records, Vec::new(alloc), joins);
    Ok(records)
}

/// The records of a source whose file has no fault, by the bodies and the names of its glyphs, or
/// the first fault of a glyph. Each glyph is run once, and the meter counts it.
fn records_by(
    alloc: Global,
    source: &Source,
    bodies: Plain,
    names: &[&[u8]],
    meter: &mut Meter,
) -> Result<Records, Refusal>
    requires file { file_check source.now ≡ Ok tt }
    requires no_fault { bodies_check source.now.items ≡ Ok tt }
    requires bodies { SameBodies (plain_bodies bodies) (bodies_of source.now.items) }
    requires names { map (λ name. name.now) names.now ≡ glyph_names source.now.items }
    ensures checked { Gives (λ _. tt) result (source_check source.now) }
    ensures right { IfOk result (IsRight source.now) }
    ensures later { IfOk result
        (λ records.
        AllByRecursion (IsRunAfter meter.old) (map kept_of records.glyphs.entries)) }
    ensures counted { Counts (opening_runs source.now) meter.old meter.new result }
{
    text_of_source_read(source);
    let runs = runs_of(alloc, &bodies, names, meter)?;
    let metrics = glyph_metrics_of(alloc, &runs, names)?;
    Ok(records_of(alloc, bodies, names, runs, &metrics)?)
}

/// The records of a source, or its first fault: of a body, F23, or of a glyph, in the order of the
/// source. Each glyph is run once, and the meter counts it.
pub fn opened_records(alloc: Global, source: &Source, meter: &mut Meter) -> Result<Records, Refusal>
    ensures checked { Gives (λ _. tt) result (source_check source.now) }
    ensures right { IfOk result (IsRight source.now) }
    ensures later { IfOk result
        (λ records.
        AllByRecursion (IsRunAfter meter.old) (map kept_of records.glyphs.entries)) }
    ensures counted { Counts (opening_runs source.now) meter.old meter.new result }
{
    let names = glyph_names(alloc, source.items())?;
    let bodies = checked_bodies(alloc, source)?;
    records_by(alloc, source, bodies, &names, meter)
}
