//! The new runs of stale glyphs, with their boxes.
ghost use Rattle.std.specs.Prelude.{◌≡◌, IfOk, List, None, ℕ, if◌then◌else◌};
ghost use Rattle.std.specs.List.{AllByRecursion, list_any};
ghost use Rattle.std.specs.Str.{bytes_eq};
ghost use Rattle.t1_font.specs.Runs.{run_kept};
ghost use Rattle.t1_rerun.specs.Renewals.{rerun_names, run_in, HasRun, IsMeasuredRerun};

use std::alloc::{AllocError, Global};
use t1_cache::Rerun;
use t1_extent::KeptRun;
use t1_font::{GlyphMetrics, Runs};

/// Takes out the run of a glyph, where it is kept and has no fault.
pub(crate) fn taken(runs: &mut Runs, name: &[u8]) -> Option<KeptRun>
    ensures run { result ≡ run_in (run_kept runs.old name.now) }
    ensures others { (g : List ℕ)
        → run_kept runs.new g ≡ (if bytes_eq name.now g then None else run_kept runs.old g) }
{
    match runs.take(name)? {
        Ok(run) => Some(run),
        Err(_) => None,
    }
}

/// The runs of the glyphs that were measured, taken out of those that are kept, each with its box.
pub fn reruns_of(
    alloc: Global,
    runs: &mut Runs,
    metrics: &[GlyphMetrics],
) -> Result<Vec<Rerun>, AllocError>
    requires { AllByRecursion (HasRun runs.old) metrics.now }
    ensures each { IfOk result
        (λ reruns. AllByRecursion (IsMeasuredRerun runs.old metrics.now) reruns.items) }
    ensures names { IfOk result
        (λ reruns.
        (g : List ℕ)
        → list_any (bytes_eq g) (rerun_names reruns.items)
        ≡ list_any (λ m. bytes_eq g m.name) metrics.now) }
{
    let mut reruns = Vec::new(alloc);
    for glyph in metrics {
        let text = glyph.name.as_slice();
        let name = Vec::from_slice(alloc, text)?;
        let Some(run) = taken(runs, text) else {
            continue;
        };
        reruns.push(Rerun {
            name,
            run,
            bbox: glyph.bbox,
        })?;
    }
    Ok(reruns)
}
