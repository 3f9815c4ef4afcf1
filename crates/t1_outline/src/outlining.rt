//! The outline of a glyph, by runs of the glyph and its parts.

ghost use Rattle.std.specs.Prelude.{◌≡◌, OnErr, OnOk};
ghost use Rattle.t1_frac.specs.Outcome.{Gives, reported_at};
ghost use Rattle.t1_frac.specs.declared.fault.Place.TheVariants.{Glyph, Nowhere};
ghost use Rattle.t1_run.specs.Composite.{outline, outline_within};
ghost use Rattle.t1_run.specs.Run.{font, own};
ghost use Rattle.t1_font.specs.Runs.{CountsSome};
ghost use Rattle.t1_font.specs.RunCounts.{counted};
ghost use Rattle.t1_outline.specs.Counting.{outline_runs, runs_within};

use std::alloc::Global;
use t1_frac::{Code, Refusal};
use t1_run::{Meter, Segment, Segments, StoredBodies, join, run_of_body};

/// The outline of a glyph in which composites nest so deep, or its first fault, at no place. The
/// meter counts each glyph that is run; where an error ends it, some of them.
fn nested_outline<B: StoredBodies>(
    alloc: Global,
    bodies: &B,
    depth: u8,
    name: &[u8],
    meter: &mut Meter,
) -> Result<Vec<Segment>, Refusal>
    ensures drawn { Gives
        (λ outline. outline.items)
        result
        (reported_at
        Nowhere
        (outline_within (own (font (B.subrs bodies.now) (B.glyphs bodies.now))) depth name.now)) }
    ensures runs { OnOk result (meter.new ≡ counted
        meter.old
        (runs_within (own (font (B.subrs bodies.now) (B.glyphs bodies.now))) depth name.now)) }
    ensures fewer { OnErr result (CountsSome
        (runs_within (own (font (B.subrs bodies.now) (B.glyphs bodies.now))) depth name.now)
        meter.old
        meter.new) }
{
    let body = bodies.glyph(name).ok_or(Code::F45)?;
    let run = run_of_body(alloc, bodies, body, Segments::new(alloc), meter)?;
    let Some(parts) = run.composite() else {
        return Ok(Vec::from_slice(alloc, run.segments())?);
    };
    if depth == 0 {
        return Err(Refusal::from(Code::F46));
    }
    let base = nested_outline(alloc, bodies, depth - 1, parts.base.as_slice(), meter)?;
    let accent = nested_outline(alloc, bodies, depth - 1, parts.accent.as_slice(), meter)?;
    join(alloc, &run, base.as_slice(), accent.as_slice())
}

/// The outline of a glyph, or its first fault, at the glyph. The meter counts as before.
#[tactic(auto, unfolding(t1_run::specs::Composite::outline, crate::specs::Counting::outline_runs), using(t1_frac::proofs::OutcomeLaws::refuses_at))]
pub(crate) fn placed_outline<B: StoredBodies>(
    alloc: Global,
    bodies: &B,
    name: &[u8],
    meter: &mut Meter,
) -> Result<Vec<Segment>, Refusal>
    ensures drawn { Gives
        (λ outline. outline.items)
        result
        (reported_at
        (Glyph name.now)
        (outline (font (B.subrs bodies.now) (B.glyphs bodies.now)) name.now)) }
    ensures runs { OnOk result (meter.new ≡ counted
        meter.old
        (outline_runs (font (B.subrs bodies.now) (B.glyphs bodies.now)) name.now)) }
    ensures fewer { OnErr result (CountsSome
        (outline_runs (font (B.subrs bodies.now) (B.glyphs bodies.now)) name.now)
        meter.old
        meter.new) }
{
    match nested_outline(alloc, bodies, 4, name, meter) {
        Err(refusal) => Err(refusal.at_glyph(alloc, name)),
        outline => outline,
    }
}
