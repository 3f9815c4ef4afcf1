//! The outline of a glyph as it is shown.

ghost use Rattle.std.specs.Prelude.{◌≡◌, option_map, OnErr, OnOk};
ghost use Rattle.t1_frac.specs.Outcome.{Gives};
ghost use Rattle.t1_run.specs.Run.{font};
ghost use Rattle.t1_font.specs.Runs.{CountsSome};
ghost use Rattle.t1_font.specs.RunCounts.{counted};
ghost use Rattle.t1_outline.specs.Counting.{outline_runs};
ghost use Rattle.t1_outline.specs.Shown.{glyph_outline};

use crate::outlining::placed_outline;
use crate::text::outline_text;
use std::alloc::Global;
use t1_frac::Refusal;
use t1_run::{Meter, StoredBodies};

/// The text of the outline of a glyph with its parts, as [`outline_text`] gives it, or the
/// outline's first fault, at the glyph; None where the font has no such glyph. Each glyph is run by
/// its stored body, a part as often as it is drawn, and the meter counts as many runs; where an
/// error ends it, no more than these.
pub fn glyph_outline<B: StoredBodies>(
    alloc: Global,
    bodies: &B,
    name: &[u8],
    meter: &mut Meter,
) -> Result<Option<Vec<u8>>, Refusal>
    ensures shown { Gives
        (option_map (λ text. text.items))
        result
        (glyph_outline (font (B.subrs bodies.now) (B.glyphs bodies.now)) name.now) }
    ensures runs { OnOk result (meter.new ≡ counted
        meter.old
        (outline_runs (font (B.subrs bodies.now) (B.glyphs bodies.now)) name.now)) }
    ensures fewer { OnErr result (CountsSome
        (outline_runs (font (B.subrs bodies.now) (B.glyphs bodies.now)) name.now)
        meter.old
        meter.new) }
{
    if !bodies.has_glyph(name) {
        return Ok(None);
    }
    let outline = placed_outline(alloc, bodies, name, meter)?;
    let text = outline_text(alloc, outline.as_slice())?;
    Ok(Some(text))
}
