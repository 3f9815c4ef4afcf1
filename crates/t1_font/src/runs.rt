//! Runs, kept by the names of their glyphs.
ghost use Rattle.std.specs.Prelude.{◌≡◌, length, map, ℕ, List, [], None, Some, All, IsSome, IfOk};
ghost use Rattle.std.specs.Prelude.{OnOk, OnErr, option_map, if◌then◌else◌};
ghost use Rattle.std.specs.Option.{option_copied};
ghost use Rattle.std.specs.Str.{bytes_eq};
ghost use Rattle.t1_run.specs.Run.{font, own};
ghost use Rattle.t1_font.specs.Runs.{drawing_kept, drawing_in, run_kept, own_among};
ghost use Rattle.t1_font.specs.RunCounts.{counted};
ghost use Rattle.t1_font.specs.Runs.{AreTraced, CountsSome, IsNumberedAfter, IsTracedAs};

use indexmap::IndexMap;
use std::alloc::{AllocError, Global};
use std::marker::Model;
use std::mem;
use t1_code::Command;
use t1_extent::{KeptRun, KeptRuns};
use t1_frac::{Code, Refusal};
use t1_run::{Bodies, Meter, Segments, StoredBodies, run_of_body};

/// The runs of some glyphs, each with its number, or its first fault, by the glyph's name, which is
/// borrowed. Contracts see the list of names, each with its run or fault. The trace of a run is
/// kept where its glyph may be a part of a composite.
#[derive(Drop)]
pub struct Runs<'a> {
    by_name: IndexMap<&'a [u8], Result<KeptRun, Code>>,
}

impl<'a> Model for Runs<'a> {
    ghost use Rattle.std.specs.Prelude.{List, map};
    ghost use Rattle.t1_font.specs.Runs.{AreTraced, NamedRun};

    ghost Value = { List NamedRun };

    ghost view = { λ r. map (λ e. (e.0.now, e.1)) r.by_name.entries };

    ghost invariant = { λ r. AreTraced (map (λ e. (e.0.now, e.1)) r.by_name.entries) };
}

impl<'a> Runs<'a> {
    /// No runs.
    pub fn new(alloc: Global) -> Self
        ensures { result ≡ [] }
    {
        Runs {
            by_name: IndexMap::new(alloc),
        }
    }

    /// What is kept of the glyph of this name.
    pub fn get(&self, name: &[u8]) -> Option<&Result<KeptRun, Code>>
        ensures drawn { option_map (λ kept. drawing_kept kept.now) result
            ≡ drawing_in self.now name.now }
        ensures traced { IsTracedAs name.now (option_copied result) }
    {
        self.by_name.get(name)
    }

    /// Takes out what is kept of the glyph of this name. It takes no memory.
    pub fn take(&mut self, name: &[u8]) -> Option<Result<KeptRun, Code>>
        ensures taken { result ≡ run_kept self.old name.now }
        ensures others { (g : List ℕ)
            → run_kept self.new g ≡ (if bytes_eq name.now g then None else run_kept self.old g) }
    {
        self.by_name.swap_remove(name)
    }

    /// Keeps a run, or its first fault, in the place of an earlier one of that name.
    pub(crate) fn keep(
        &mut self,
        name: &'a [u8],
        kept: Result<KeptRun, Code>,
    ) -> Result<(), AllocError>
        requires { IsTracedAs name.now (Some kept) }
        ensures { OnOk result
            ((g : List ℕ)
            → run_kept self.new g
            ≡ (if bytes_eq g name.now then Some kept else run_kept self.old g)) }
    {
        self.by_name.insert(name, kept)?;
        Ok(())
    }
}

impl KeptRuns for Runs<'_> {
    ghost use Rattle.t1_font.specs.Runs.{drawing_in};

    ghost drawn = { drawing_in };

    fn run_of(&self, name: &[u8]) -> Option<Result<&KeptRun, Code>> {
        match self.get(name) {
            None => None,
            Some(Ok(run)) => Some(Ok(run)),
            Some(Err(code)) => Some(Err(*code)),
        }
    }
}

/// The run of a glyph's own body, or its first fault. The room is memory for the segments of this
/// run, and serves the next run after it.
pub(crate) fn kept_run_of<B: Bodies>(
    alloc: Global,
    bodies: &B,
    name: &[u8],
    body: &[Command],
    room: &mut Segments,
    meter: &mut Meter,
) -> Result<Result<KeptRun, Code>, AllocError>
    requires { B.glyphs bodies.now name.now ≡ Some body.now }
    ensures kept { IfOk result
        (λ kept.
        own (font (B.subrs bodies.now) (B.glyphs bodies.now)) name.now
        ≡ Some (drawing_kept kept)) }
    ensures traced { IfOk result (λ kept. IsTracedAs name.now (Some kept)) }
    ensures after { IfOk result (λ kept. IsNumberedAfter meter.old (Some kept)) }
    ensures counted { meter.new ≡ counted meter.old 1 }
{
    let segments = mem::replace(room, Segments::new(alloc));
    match run_of_body(alloc, bodies, body, segments, meter) {
        Ok(run) => Ok(Ok(KeptRun::of(alloc, name, run, room)?)),
        Err(Refusal::Fault(fault)) => Ok(Err(fault.code)),
        Err(Refusal::Memory) => Err(AllocError),
    }
}

/// The same of a glyph whose body is stored.
fn kept_run<B: StoredBodies>(
    alloc: Global,
    bodies: &B,
    name: &[u8],
    room: &mut Segments,
    meter: &mut Meter,
) -> Result<Result<KeptRun, Code>, AllocError>
    requires { IsSome (B.glyphs bodies.now name.now) }
    ensures kept { IfOk result
        (λ kept.
        Some (drawing_kept kept)
        ≡ own (font (B.subrs bodies.now) (B.glyphs bodies.now)) name.now) }
    ensures traced { IfOk result (λ kept. IsTracedAs name.now (Some kept)) }
    ensures after { IfOk result (λ kept. IsNumberedAfter meter.old (Some kept)) }
    ensures counted { meter.new ≡ counted meter.old 1 }
{
    let Some(body) = bodies.glyph(name) else {
        unreachable!()
    };
    kept_run_of(alloc, bodies, name, body, room, meter)
}

/// Runs the own body of each of these glyphs, and keeps its first fault where it has one. The meter
/// counts each of them; where memory runs out, those that were run.
pub fn runs_of<'a, B: StoredBodies>(
    alloc: Global,
    bodies: &B,
    names: &[&'a [u8]],
    meter: &mut Meter,
) -> Result<Runs<'a>, AllocError>
    requires { All (λ name. IsSome (B.glyphs bodies.now name.now)) names.now }
    ensures kept { IfOk result
        (λ runs.
        (g : List ℕ)
        → drawing_in runs g
        ≡ own_among (font (B.subrs bodies.now) (B.glyphs bodies.now))
        (map (λ name. name.now) names.now) g) }
    ensures traced { IfOk result AreTraced }
    ensures after { IfOk result
        (λ runs. (g : List ℕ) → IsNumberedAfter meter.old (run_kept runs g)) }
    ensures counted { OnOk result (meter.new ≡ counted meter.old (length names.now)) }
    ensures want { OnErr result (CountsSome (length names.now) meter.old meter.new) }
{
    let mut runs = Runs::new(alloc);
    let mut room = Segments::new(alloc);
    for name in names {
        let kept = kept_run(alloc, bodies, name, &mut room, meter)?;
        runs.keep(name, kept)?;
    }
    Ok(runs)
}
