//! The faults of joins.

ghost use Rattle.std.specs.Prelude.{◌≡◌, IfOk};
ghost use Rattle.t1_font.specs.MeasuredGlyphs.{glyph_metrics_at};
ghost use Rattle.t1_font.specs.Runs.{drawing_in};
ghost use Rattle.t1_faults.specs.Found.{refused_code};
ghost use Rattle.t1_faults.specs.Judging.{join_fault, sound_within};

use std::alloc::{AllocError, Global};
use t1_font::{Runs, glyph_metrics_of};
use t1_frac::{Code, Place, Refusal};

/// How deep composites nest.
const MAX_DEPTH: u8 = 4;

/// Whether a glyph and all the parts that it stands on, which may nest so deep, have own runs
/// without a fault.
fn is_sound(runs: &Runs, depth: u8, name: &[u8]) -> bool
    ensures { result ≡ sound_within (drawing_in runs.now) depth name.now }
{
    let run = match runs.get(name) {
        None => return true,
        Some(Err(_code)) => return false,
        Some(Ok(run)) => run,
    };
    let Some(parts) = run.composite() else {
        return true;
    };
    if depth == 0 {
        return true;
    }
    if !is_sound(runs, depth - 1, parts.base.as_slice()) {
        return false;
    }
    is_sound(runs, depth - 1, parts.accent.as_slice())
}

/// The first fault of what is measured of a glyph.
fn measured_fault(alloc: Global, runs: &Runs, name: &[u8]) -> Result<Option<Code>, AllocError>
    ensures { IfOk result
        (λ code. code ≡ refused_code (glyph_metrics_at (drawing_in runs.now) name.now)) }
{
    match glyph_metrics_of(alloc, runs, &[name]) {
        Ok(_metrics) => Ok(None),
        Err(Refusal::Fault(fault)) => Ok(Some(fault.code)),
        Err(Refusal::Memory) => Err(AllocError),
    }
}

/// The fault of an entry's outline, where it stands on no glyph whose own run has a fault; a Subr
/// has none.
pub(crate) fn join_fault(
    alloc: Global,
    runs: &Runs,
    place: &Place,
) -> Result<Option<Code>, AllocError>
    ensures { IfOk result (λ code. code ≡ join_fault (drawing_in runs.now) place.now) }
{
    match place {
        Place::Glyph(name) => {
            if !is_sound(runs, MAX_DEPTH, name.as_slice()) {
                return Ok(None);
            }
            measured_fault(alloc, runs, name.as_slice())
        }
        _ => Ok(None),
    }
}
