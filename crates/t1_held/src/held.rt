//! What a session keeps of its source: the records of its Subrs and glyphs, their encrypted
//! charstrings, and the length of the private text.
ghost use Rattle.std.specs.Prelude.{◌≡◌, ℕ, List, IfOk, Ok, map};
ghost use Rattle.std.specs.List.{AllByRecursion};
ghost use Rattle.t1_frac.specs.Outcome.{Gives};
ghost use Rattle.t1_parts.specs.SourceParts.{SourceParts};
ghost use Rattle.t1_run.specs.Run.{Key};
ghost use Rattle.t1_font.specs.Runs.{Counts};
ghost use Rattle.t1_font.specs.SourceChecks.{measured_source, source_check};
ghost use Rattle.t1_cache.specs.Recorded.{kept_of};
ghost use Rattle.t1_rerun.specs.Opened.{opening_runs};
ghost use Rattle.t1_rerun.specs.Renewing.{IsRunWhereStale};
ghost use Rattle.t1_held.specs.Held.{IsHeld};
ghost use Rattle.t1_held.specs.Ready.{IsReadyHeld, MayBeHeld};

use std::alloc::{AllocError, Global};
use t1_cache::Records;
use t1_charstrings::{Charstrings, ReadyLines, charstrings_of, private_len, settle_lines};
use t1_font::MeasuredGlyphs;
use t1_frac::Refusal;
use t1_rerun::{Ready, measured_records, opened_records, settle_ready};
use t1_run::Meter;
use t1_source::Source;
use t1_source::laws::text_of_source_read;

/// What a session keeps of its source.
#[derive(Drop)]
pub struct Held {
    pub records: Records,
    pub charstrings: Charstrings,
    pub private_len: usize,
}

/// What is to be kept of an edited source, with all the memory that it takes.
#[derive(Drop)]
pub struct ReadyHeld {
    pub records: Ready,
    pub lines: ReadyLines,
}

/// What is kept of a source, or the source's first fault. Each glyph is run once, and the meter
/// counts it. Nothing is encrypted of a source with a fault.
pub fn held_of(alloc: Global, source: &Source, meter: &mut Meter) -> Result<Held, Refusal>
    ensures checked { Gives (λ _. tt) result (source_check source.now) }
    ensures held { IfOk result (IsHeld source.now) }
    ensures counted { Counts (opening_runs source.now) meter.old meter.new result }
{
    text_of_source_read(source);
    let records = opened_records(alloc, source, meter)?;
    let charstrings = charstrings_of(alloc, source)?;
    let len = private_len(&charstrings, source);
    Ok(Held {
        records,
        charstrings,
        private_len: len,
    })
}

/// Brings what is kept of a source to what is to be kept of the edited one, after one edit or many.
/// It takes no memory and can't fail.
pub fn settle(held: &mut Held, ready: ReadyHeld)
    requires { MayBeHeld held.old ready }
    ensures held { (n : ℕ) (ks : List Key) (s made : SourceParts)
        → IsReadyHeld n ks s made held.old ready
        → IsHeld made held.new }
    ensures renews { (n : ℕ) (ks : List Key) (s made : SourceParts)
        → IsReadyHeld n ks s made held.old ready
        → AllByRecursion (IsRunWhereStale n ks s (map kept_of held.old.records.glyphs.entries))
        (map kept_of held.new.records.glyphs.entries) }
{
    settle_ready(&mut held.records, ready.records);
    settle_lines(&mut held.charstrings, &mut held.private_len, ready.lines);
}

/// The metrics of the glyphs of a source of which this is kept. No glyph is run.
pub fn held_metrics(alloc: Global, held: &Held) -> Result<MeasuredGlyphs<'_>, AllocError>
    ensures { (s : SourceParts)
        → IsHeld s held.now
        → IfOk result (λ glyphs. measured_source s ≡ Ok glyphs) }
{
    match measured_records(alloc, &held.records) {
        Ok(glyphs) => Ok(glyphs),
        Err(_) => Err(AllocError),
    }
}
