//! An edited font judged.

ghost use Rattle.std.specs.Prelude.{◌≡◌, true, All, IsSome, IfOk, List, ℕ, filter, length, map};
ghost use Rattle.std.specs.Prelude.{is_some};
ghost use Rattle.std.specs.List.{AllByRecursion};
ghost use Rattle.t1_frac.specs.Outcome.{Gives};
ghost use Rattle.t1_parts.specs.SourceParts.{SourceParts};
ghost use Rattle.t1_run.specs.Run.{font, FontBodies};
ghost use Rattle.t1_run.specs.Touched.{AreStale};
ghost use Rattle.t1_font.specs.MetricsByRuns.{glyph_metrics_among};
ghost use Rattle.t1_font.specs.Runs.{own_among, drawing_in, run_kept, AreTraced, Counts};
ghost use Rattle.t1_font.specs.Runs.{IsNumberedAfter};
ghost use Rattle.t1_font.specs.SourceChecks.{source_check};
ghost use Rattle.t1_cache.specs.Edited.{stale};
ghost use Rattle.t1_cache.specs.Kept.{keep_traces};
ghost use Rattle.t1_cache.specs.Laws.{fault_check, AreDistinct};
ghost use Rattle.t1_cache.specs.Tables.{AreTables};
ghost use Rattle.t1_cache.specs.Users.{is_name_among};
ghost use Rattle.t1_font.specs.OwnedKeys.{key_of};
ghost use Rattle.t1_rerun.specs.Newest.{judged_in, newest, newest_among, FirstIn};
ghost use Rattle.t1_rerun.specs.Renewals.{IsLater, IsRenewal};
ghost use Rattle.t1_rerun.specs.Right.{IsEdit};

use crate::changing::{Renewal, renewal_of};
use crate::newest::Newest;
use crate::order::GlyphOrder;
use indexmap::IndexSet;
use std::alloc::{AllocError, Global};
use t1_cache::Records;
use t1_font::{GlyphMetrics, OwnedKey, Runs, glyph_metrics_of, runs_of};
use t1_frac::Refusal;
use t1_run::{Bodies, Meter, StoredBodies};

/// Those of these names that were found, in their order.
fn stale_among<'a>(
    alloc: Global,
    names: &[&'a [u8]],
    found: &IndexSet<&[u8]>,
) -> Result<Vec<&'a [u8]>, AllocError>
    ensures { IfOk result
        (λ stale.
        map (λ name. name.now) stale.items
        ≡ filter (is_name_among (λ name. name.now) found.now.keys)
        (map (λ name. name.now) names.now)) }
{
    let mut stale = Vec::new(alloc);
    for name in names {
        if !found.contains(*name) {
            continue;
        }
        stale.push(*name)?;
    }
    Ok(stale)
}

/// Those of these names that have a body, in their order.
fn there_among<'a, B: Bodies>(
    alloc: Global,
    bodies: &B,
    found: &[&'a [u8]],
) -> Result<Vec<&'a [u8]>, AllocError>
    ensures { IfOk result
        (λ there.
        map (λ name. name.now) there.items
        ≡ filter (λ g. is_some (B.glyphs bodies.now g))
        (map (λ name. name.now) found.now)) }
{
    let mut there = Vec::new(alloc);
    for name in found {
        if !bodies.has_glyph(name) {
            continue;
        }
        there.push(*name)?;
    }
    Ok(there)
}

/// The first fault of the glyphs that were found, in the order of the font.
fn check_in_order<O: GlyphOrder>(
    alloc: Global,
    runs: &Newest,
    found: &IndexSet<&[u8]>,
    order: &O,
) -> Result<(), Refusal>
    ensures { Gives (λ x. x) result
        (fault_check
        (glyph_metrics_among (newest runs.now.runs.now runs.now.records.now)
        (filter (is_name_among (λ name. name.now) found.now.keys) (O.ordered order.now)))) }
{
    let names = order.names(alloc)?;
    let stale = stale_among(alloc, &names, found)?;
    glyph_metrics_of(alloc, runs, &stale)?;
    Ok(())
}

/// The first fault in the order of the font, where one of the glyphs that were found has a fault;
/// or out of memory.
fn first_in_order<O: GlyphOrder>(
    alloc: Global,
    runs: &Newest,
    found: &IndexSet<&[u8]>,
    order: &O,
    refusal: Refusal,
) -> Refusal
    ensures { FirstIn refusal
        (glyph_metrics_among (newest runs.now.runs.now runs.now.records.now)
        (filter (is_name_among (λ name. name.now) found.now.keys) (O.ordered order.now)))
        result }
{
    match refusal {
        Refusal::Memory => Refusal::Memory,
        Refusal::Fault(fault) => match check_in_order(alloc, runs, found, order) {
            Ok(()) => Refusal::Fault(fault),
            Err(first) => first,
        },
    }
}

/// Runs each of these glyphs and measures it by the newest runs, in the order in which they were
/// found; or answers the first fault of one of them in the order of the font, which is asked for
/// only there. The meter counts each of them.
fn judged<'a, B: StoredBodies, O: GlyphOrder>(
    alloc: Global,
    records: &Records,
    bodies: &B,
    stale: &[&'a [u8]],
    found: &IndexSet<&[u8]>,
    order: &O,
    meter: &mut Meter,
) -> Result<(Runs<'a>, Vec<GlyphMetrics<'a>>), Refusal>
    requires there { All (λ name. IsSome (B.glyphs bodies.now name.now)) stale.now }
    requires traced { keep_traces records.now ≡ true }
    ensures reported { Gives (λ made. made.1.items) result
        (judged_in
        (glyph_metrics_among
        (newest_among (font (B.subrs bodies.now) (B.glyphs bodies.now))
        (map (λ name. name.now) stale.now) records.now)
        (map (λ name. name.now) stale.now))
        (glyph_metrics_among
        (newest_among (font (B.subrs bodies.now) (B.glyphs bodies.now))
        (map (λ name. name.now) stale.now) records.now)
        (filter (is_name_among (λ name. name.now) found.now.keys) (O.ordered order.now)))) }
    ensures kept { IfOk result
        (λ made.
        (g : List ℕ)
        → drawing_in made.0 g
        ≡ own_among (font (B.subrs bodies.now) (B.glyphs bodies.now))
        (map (λ name. name.now) stale.now) g) }
    ensures traced { IfOk result (λ made. AreTraced made.0) }
    ensures after { IfOk result
        (λ made. (g : List ℕ) → IsNumberedAfter meter.old (run_kept made.0 g)) }
    ensures counted { Counts (length stale.now) meter.old meter.new result }
{
    let runs = runs_of(alloc, bodies, stale, meter)?;
    let newest = Newest {
        runs: &runs,
        records,
    };
    match glyph_metrics_of(alloc, &newest, stale) {
        Ok(metrics) => Ok((runs, metrics)),
        Err(refusal) => Err(first_in_order(alloc, &newest, found, order, refusal)),
    }
}

/// Runs the stale glyphs that were found, each once, and measures them by the newest runs: what is
/// new of the edited font, or its first fault.
pub fn rerun_found<B: StoredBodies, O: GlyphOrder>(
    alloc: Global,
    records: &Records,
    bodies: &B,
    order: &O,
    edits: &[OwnedKey],
    found: &IndexSet<&[u8]>,
    meter: &mut Meter,
) -> Result<Renewal, Refusal>
    requires traced { keep_traces records.now ≡ true }
    requires once { AreDistinct (map (λ name. name.now) found.now.keys) }
    requires stale { (m : FontBodies)
        → AreTables m records.now
        → AreStale m (map key_of edits.now) (is_name_among (λ name. name.now) found.now.keys) }
    ensures checked { (old new : SourceParts)
        → IsEdit edits.now old new records.now (font (B.subrs bodies.now) (B.glyphs bodies.now))
        (O.ordered order.now)
        → Gives (λ _. tt) result (source_check new) }
    ensures renewal { (old new : SourceParts)
        → IsEdit edits.now old new records.now (font (B.subrs bodies.now) (B.glyphs bodies.now))
        (O.ordered order.now)
        → IfOk result (IsRenewal (map key_of edits.now) old new) }
    ensures later { IfOk result
        (λ renewal. AllByRecursion (IsLater meter.old) renewal.reruns.items) }
    ensures counted { (old new : SourceParts)
        → IsEdit edits.now old new records.now (font (B.subrs bodies.now) (B.glyphs bodies.now))
        (O.ordered order.now)
        → Counts (length (stale old (map key_of edits.now) new)) meter.old meter.new result }
{
    let stale = there_among(alloc, bodies, found.as_slice())?;
    let (mut runs, metrics) = judged(alloc, records, bodies, &stale, found, order, meter)?;
    Ok(renewal_of(
        alloc,
        records,
        found.as_slice(),
        &stale,
        &mut runs,
        &metrics,
    )?)
}
