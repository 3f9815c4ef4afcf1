//! How far the outlines of glyphs reach whose runs are kept.

ghost use Rattle.std.specs.Prelude.{◌≡◌, true, All, Ok, IfOk, IsOk};
ghost use Rattle.t1_frac.specs.Outcome.{Gives, reported_at};
ghost use Rattle.t1_frac.specs.declared.fault.Place.TheVariants.{Nowhere};
ghost use Rattle.t1_code.specs.Encoding.{is_standard_name};
ghost use Rattle.t1_run.specs.Composite.{HasStandardParts, outline_within};
ghost use Rattle.t1_extent.specs.Extremes.{is_whole_point as is_whole_of};
ghost use Rattle.t1_extent.specs.Kept.{traces};
ghost use Rattle.t1_extent.specs.Traces.{drawing_lent};
ghost use Rattle.t1_extent.specs.Laws.{IsDistance};
ghost use Rattle.t1_extent.specs.Parts.{part_within, parts_outline};
ghost use Rattle.t1_extent.specs.FoundRuns.{run_there};
ghost use Rattle.t1_extent.specs.Reached.{GivesReached, ReportsAtOnce};
ghost use Rattle.t1_extent.specs.Turns.{in_turn, through, given_in_turn, given_through};
ghost use Rattle.t1_extent.specs.Turns.{given_moved, given_box};

use crate::figure::Figure;
use crate::kept_run::{KeptRun, Trace};
use crate::kept_runs::KeptRuns;
use crate::moves::{Move, move_of_accent, with_first};
use crate::reached::Reached;
use crate::turns::segments_through;
use std::alloc::Global;
use t1_afm::{BBox, unite as unite_boxes};
use t1_frac::{Code, Refusal};
use t1_run::{Composite, Point};

/// What is kept of the run of the glyph of this name, or its first fault; F45 where there is no
/// such glyph.
fn found<'r, R: KeptRuns>(runs: &'r R, name: &[u8]) -> Result<&'r KeptRun, Code>
    ensures drawn { drawing_lent result ≡ run_there (R.drawn runs.now name.now) }
    ensures traced { IfOk result (λ run. traces name.now run.now ≡ true) }
{
    match runs.run_of(name) {
        None => Err(Code::F45),
        Some(run) => run,
    }
}

/// How far what a glyph itself draws reaches, moved by the moves in turn and then by the last.
fn own_through(run: &KeptRun, moves: &[Point], last: &Point) -> Result<Reached, Code>
    requires moves { All IsDistance moves.now }
    requires last { IsDistance last.now }
    requires traced { run.now.is_traced ≡ true }
    requires passed { IsOk (in_turn moves.now run.now.drawing.segments) }
    ensures { ReportsAtOnce result (through moves.now last.now run.now.drawing.segments) }
{
    match run.trace() {
        Trace::Whole(figure) => Figure::through(figure, moves, last),
        Trace::Segments(segments) => segments_through(segments, moves, last),
    }
}

/// How far the outline of a part reaches, in which composites nest so deep, moved by the moves in
/// turn and then by the last. Without the last it isn't refused. No segments are joined.
fn moved_reach<R: KeptRuns>(
    alloc: Global,
    runs: &R,
    depth: u8,
    name: &[u8],
    moves: &[Point],
    last: &Point,
) -> Result<Reached, Refusal>
    requires moves { All IsDistance moves.now }
    requires last { IsDistance last.now }
    requires part { is_standard_name name.now ≡ true }
    requires passed { IsOk
        (given_in_turn moves.now (outline_within (R.drawn runs.now) depth name.now)) }
    ensures { GivesReached result
        (given_through moves.now last.now (outline_within (R.drawn runs.now) depth name.now)) }
{
    let run = found(runs, name)?;
    let Some(parts) = run.composite() else {
        return Ok(own_through(run, moves, last)?);
    };
    if depth == 0 {
        return Err(Refusal::from(Code::F46));
    }
    let accent_move = move_of_accent(&run.side_bearing(), parts)?;
    let own = own_through(run, moves, last)?;
    let base = moved_reach(alloc, runs, depth - 1, parts.base.as_slice(), moves, last)?;
    let inner = with_first(alloc, accent_move.by, moves)?;
    let accent = moved_reach(
        alloc,
        runs,
        depth - 1,
        parts.accent.as_slice(),
        inner.as_slice(),
        last,
    )?;
    Ok(own.united(&base).united(&accent))
}

/// How far an accent reaches, moved: by what is known of it where its move or its outline is whole,
/// else by its parts.
fn accent_reach<R: KeptRuns>(
    alloc: Global,
    runs: &R,
    depth: u8,
    name: &[u8],
    accent: &Reached,
    by: &Move,
) -> Result<Reached, Refusal>
    requires part { is_standard_name name.now ≡ true }
    requires accent { GivesReached (Ok accent.now)
        (outline_within (R.drawn runs.now) depth name.now) }
    requires distance { IsDistance by.now.by }
    requires whole { by.now.is_whole ≡ is_whole_of by.now.by }
    ensures { GivesReached result
        (given_moved by.now.by (outline_within (R.drawn runs.now) depth name.now)) }
{
    if by.is_whole || accent.is_whole() {
        return Ok(accent.moved(&by.by)?);
    }
    moved_reach(alloc, runs, depth, name, &[], &by.by)
}

/// How far the outline of a part reaches, in which composites nest so deep.
#[cycle(reach)]
fn reach_at<R: KeptRuns>(
    alloc: Global,
    runs: &R,
    depth: u8,
    name: &[u8],
) -> Result<Reached, Refusal>
    requires part { is_standard_name name.now ≡ true }
    ensures { GivesReached result (outline_within (R.drawn runs.now) depth name.now) }
{
    let run = found(runs, name)?;
    let Some(parts) = run.composite() else {
        return Ok(run.reached());
    };
    let reached = parts_reach(alloc, runs, depth, &run.side_bearing(), parts)?;
    Ok(run.reached().united(&reached))
}

/// How far the parts of a composite with this side bearing reach together, the accent moved, in
/// which composites nest so deep.
#[cycle(reach)]
fn parts_reach<R: KeptRuns>(
    alloc: Global,
    runs: &R,
    depth: u8,
    bearing: &Point,
    parts: &Composite,
) -> Result<Reached, Refusal>
    requires { HasStandardParts parts.now }
    ensures { GivesReached result
        (parts_outline (part_within (R.drawn runs.now) depth) bearing.now parts.now) }
{
    if depth == 0 {
        return Err(Refusal::from(Code::F46));
    }
    let base = reach_at(alloc, runs, depth - 1, parts.base.as_slice())?;
    let name = parts.accent.as_slice();
    let accent = reach_at(alloc, runs, depth - 1, name)?;
    let by = move_of_accent(bearing, parts)?;
    let moved = accent_reach(alloc, runs, depth - 1, name, &accent, &by)?;
    Ok(base.united(&moved))
}

/// The box of a glyph's outline, where it draws, or the outline's first fault. Its composites nest
/// four deep at most, and no segments of its parts are joined.
pub fn box_of<R: KeptRuns>(alloc: Global, runs: &R, name: &[u8]) -> Result<Option<BBox>, Refusal>
    ensures { Gives
        (λ bbox. bbox)
        result
        (reported_at Nowhere (given_box (outline_within (R.drawn runs.now) 4 name.now))) }
{
    let run = found(runs, name)?;
    let Some(parts) = run.composite() else {
        return Ok(run.bbox());
    };
    let reached = parts_reach(alloc, runs, 4, &run.side_bearing(), parts)?;
    Ok(unite_boxes(run.bbox(), reached.bbox()))
}
