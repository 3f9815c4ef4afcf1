//! How far composites move their accents.

ghost use Rattle.std.specs.Prelude.{◌≡◌, ◌∷◌, Ok, Err, IfOk, MatchResult};
ghost use Rattle.t1_run.specs.Composite.{accent_move as move_of};
ghost use Rattle.t1_extent.specs.Extremes.{is_whole_point as is_whole_of};
ghost use Rattle.t1_extent.specs.Laws.{IsDistance};

use std::alloc::{AllocError, Global};
use t1_frac::Code;
use t1_run::{Composite, Point, accent_move};

/// How far an accent is moved.
#[derive(Clone, Copy)]
pub(crate) struct Move {
    pub(crate) by: Point,
    pub(crate) is_whole: bool,
}

/// How far a composite with this side bearing moves its accent.
pub(crate) fn move_of_accent(bearing: &Point, parts: &Composite) -> Result<Move, Code>
    ensures moved { MatchResult result (λ m. move_of bearing.now parts.now ≡ Ok m.by)
        (λ code. move_of bearing.now parts.now ≡ Err code) }
    ensures distance { IfOk result (λ m. IsDistance m.by) }
    ensures whole { IfOk result (λ m. m.is_whole ≡ is_whole_of m.by) }
{
    let by = accent_move(bearing, parts)?;
    let x = by.x.den();
    let y = by.y.den();
    let is_whole = x == 1 && y == 1;
    Ok(Move { by, is_whole })
}

/// The moves of an accent: its own, and then those of the composite.
pub(crate) fn with_first(
    alloc: Global,
    by: Point,
    moves: &[Point],
) -> Result<Vec<Point>, AllocError>
    ensures { IfOk result (λ all. all.items ≡ by ∷ moves.now) }
{
    let mut all = Vec::new(alloc);
    all.push(by)?;
    all.extend_from_slice(moves)?;
    Ok(all)
}
