//! Glyphs that are compiled, run and measured one after another. No body of a glyph is stored, and
//! two kinds of runs alone are kept: of glyphs with a name of StandardEncoding, of which a
//! composite may be made, and of composites, whose parts may come later.
ghost use Rattle.std.specs.Prelude.{◌≡◌, ◌&&◌, List, ℕ, Option, Result, Ok, Some, None, true, IfOk};
ghost use Rattle.std.specs.Prelude.{OnOk, if◌then◌else◌};
ghost use Rattle.std.specs.Str.{bytes_eq};
ghost use Rattle.t1_frac.specs.Outcome.{Gives};
ghost use Rattle.t1_frac.specs.declared.fault.Place.TheVariants as places;
ghost use Rattle.t1_code.specs.Words.{commands};
ghost use Rattle.t1_run.specs.Run.{Drawing, own};
ghost use Rattle.t1_frac.specs.declared.fault.Code.{Code as CodeOf};
ghost use Rattle.t1_afm.specs.Box.{drawn_box};
ghost use Rattle.t1_font.specs.Bodies.{words_check};
ghost use Rattle.t1_font.specs.InTurn.{source_font, may_be_part, IsRow};
ghost use Rattle.t1_font.specs.MetricsByRuns.{glyph_metrics_by};
ghost use Rattle.t1_font.specs.ToRun.{commands_or_none, glyph_to_run};
ghost use Rattle.t1_font.specs.Runs.{drawing_kept, drawing_in, run_kept, IsTracedAs};
ghost use Rattle.t1_font.specs.RunCounts.{counted};

use crate::compiler::Compiler;
use crate::glyph_metrics::GlyphMetrics;
use crate::glyph_parts::GlyphParts;
use crate::numbers::SubrNumbers;
use crate::runs::{Runs, kept_run_of};
use crate::source_bodies::SourceBodies;
use crate::standard_names::StandardNames;
use std::alloc::{AllocError, Global};
use t1_code::Command;
use t1_extent::KeptRun;
use t1_frac::{Code, Refusal, SourceText, Words};
use t1_run::{Meter, Segments};

/// What is reported of a glyph at its turn.
#[derive(Drop)]
pub(crate) enum Row<'a> {
    /// What is measured of it.
    Measured(GlyphMetrics<'a>),
    /// It is a composite, and measured when all runs that stay are there.
    Waiting(&'a [u8]),
    /// Its run has a fault.
    Faulty(&'a [u8], Code),
}

/// What is measured of a glyph without parts.
fn plain_metrics<'a>(
    alloc: Global,
    name: &'a [u8],
    run: &KeptRun,
) -> Result<GlyphMetrics<'a>, AllocError>
    requires { run.now.drawing.composite ≡ None }
    ensures { IfOk result
        (λ glyph.
        glyph_metrics_by name.now run.now.drawing (drawn_box run.now.drawing.segments)
        ≡ Ok glyph) }
{
    Ok(GlyphMetrics {
        name: SourceText::borrowed(name),
        width: run.width(),
        entered: SubrNumbers::copied(alloc, run.entered())?,
        parts: GlyphParts::none(),
        bbox: run.bbox(),
    })
}

/// Whether a run stays.
fn is_staying(standard: &StandardNames, name: &[u8], kept: &Result<KeptRun, Code>) -> bool
    ensures { result ≡ may_be_part name.now (Some (drawing_kept kept.now)) }
{
    if standard.contain(name) {
        return true;
    }
    match kept {
        Ok(run) => run.composite().is_some(),
        Err(_) => false,
    }
}

/// What is reported of a glyph by its run.
fn row_by<'a>(
    alloc: Global,
    name: &'a [u8],
    kept: &Result<KeptRun, Code>,
) -> Result<Row<'a>, AllocError>
    ensures { (run : List ℕ → Option (Result Drawing CodeOf))
        → run name.now ≡ Some (drawing_kept kept.now)
        → IfOk result (IsRow run name.now) }
{
    match kept {
        Ok(run) => {
            if run.composite().is_some() {
                return Ok(Row::Waiting(name));
            }
            Ok(Row::Measured(plain_metrics(alloc, name, run)?))
        }
        Err(code) => Ok(Row::Faulty(name, *code)),
    }
}

/// Keeps the run of a glyph, where it stays.
fn keep_staying<'a>(
    standard: &StandardNames,
    runs: &mut Runs<'a>,
    name: &'a [u8],
    kept: Result<KeptRun, Code>,
) -> Result<(), AllocError>
    requires { IsTracedAs name.now (Some kept) }
    ensures { OnOk result
        ((g : List ℕ)
        → run_kept runs.new g
        ≡ (if bytes_eq g name.now && may_be_part name.now (Some (drawing_kept kept)) then Some
        kept else run_kept runs.old g)) }
{
    if !is_staying(standard, name, &kept) {
        return Ok(());
    }
    runs.keep(name, kept)?;
    Ok(())
}

/// What is reported of a glyph by its run, which is kept where it stays.
fn row_of<'a>(
    alloc: Global,
    standard: &StandardNames,
    runs: &mut Runs<'a>,
    name: &'a [u8],
    kept: Result<KeptRun, Code>,
) -> Result<Row<'a>, AllocError>
    requires { IsTracedAs name.now (Some kept) }
    ensures row { (run : List ℕ → Option (Result Drawing CodeOf))
        → run name.now ≡ Some (drawing_kept kept)
        → IfOk result (IsRow run name.now) }
    ensures kept { OnOk result
        ((g : List ℕ)
        → run_kept runs.new g
        ≡ (if bytes_eq g name.now && may_be_part name.now (Some (drawing_kept kept)) then Some
        kept else run_kept runs.old g)) }
{
    let row = row_by(alloc, name, &kept)?;
    keep_staying(standard, runs, name, kept)?;
    Ok(row)
}

/// What one glyph after another uses again: the names of StandardEncoding, memory for the commands
/// of a body and for the segments of a run, and the count of runs.
#[derive(Drop)]
pub(crate) struct Scratch {
    standard: StandardNames,
    body: Vec<Command>,
    room: Segments,
    meter: Meter,
}

impl Scratch {
    pub(crate) fn new(alloc: Global) -> Result<Scratch, AllocError> {
        Ok(Scratch {
            standard: StandardNames::new(alloc)?,
            body: Vec::new(alloc),
            room: Segments::new(alloc),
            meter: Meter::new(),
        })
    }
}

/// Puts the commands of a glyph's words in the place of what stood there, or answers their fault
/// with the glyph's name.
#[tactic(auto, unfolding(crate::specs::Bodies::words_check))]
fn compile_glyph<C: Compiler>(
    alloc: Global,
    compiler: &mut C,
    body: &mut Vec<Command>,
    name: &[u8],
    words: &Words,
) -> Result<(), Refusal>
    ensures checked { Gives (λ x. x) result (words_check (places.Glyph name.now) words.now) }
    ensures body { OnOk result (body.new.items ≡ commands_or_none (commands words.now)) }
{
    body.clear();
    match compiler.compile_next(body, words) {
        Err(refusal) => Err(refusal.at_glyph(alloc, name)),
        compiled => compiled,
    }
}

/// Compiles and runs a glyph: what is reported of it, or the fault of its words. Its run is kept
/// where it stays.
pub(crate) fn glyph_turn<'a, C: Compiler>(
    alloc: Global,
    compiler: &mut C,
    source: &SourceBodies,
    name: &'a [u8],
    words: &Words,
    runs: &mut Runs<'a>,
    scratch: &mut Scratch,
) -> Result<Row<'a>, Refusal>
    requires { glyph_to_run source.now.items.now name.now
        ≡ Some (commands_or_none (commands words.now)) }
    ensures counted { OnOk result (scratch.new.meter ≡ counted scratch.old.meter 1) }
    ensures checked { Gives (λ _. tt) result (words_check (places.Glyph name.now) words.now) }
    ensures row { (run : List ℕ → Option (Result Drawing CodeOf))
        → run name.now ≡ own (source_font source.now) name.now
        → IfOk result (IsRow run name.now) }
    ensures kept { (run : List ℕ → Option (Result Drawing CodeOf))
        → run name.now ≡ own (source_font source.now) name.now
        → OnOk result
        ((g : List ℕ)
        → drawing_in runs.new g
        ≡ (if bytes_eq g name.now && may_be_part name.now (run name.now) then run name.now else
        drawing_in runs.old g)) }
{
    compile_glyph(alloc, compiler, &mut scratch.body, name, words)?;
    let kept = kept_run_of(
        alloc,
        source,
        name,
        &scratch.body,
        &mut scratch.room,
        &mut scratch.meter,
    )?;
    Ok(row_of(alloc, &scratch.standard, runs, name, kept)?)
}
