//! Points and segments of an outline, and what the commands about a whole glyph name.

use t1_frac::{Bytes, Frac};

#[derive(Clone, Copy, Debug, PartialEq, Eq)]
pub struct Point {
    pub x: Frac,
    pub y: Frac,
}

/// What a glyph draws: a line by its two ends, or a Bézier curve by its ends and the two points
/// between them.
#[derive(Clone, Copy, Debug, PartialEq, Eq)]
pub enum Segment {
    Line(Point, Point),
    Curve(Point, Point, Point, Point),
}

/// The side bearing point and the width.
#[derive(Clone, Copy)]
pub struct Metric {
    pub bearing: Point,
    pub width: Point,
}

/// The operands of seac: the accent's side bearing, the place of its origin, and two codes of
/// StandardEncoding.
#[derive(Clone, Copy)]
pub struct Accent {
    pub asb: Frac,
    pub adx: Frac,
    pub ady: Frac,
    pub base: i64,
    pub accent: i64,
}

/// A base and an accent by their glyph names, with the accent's side bearing and the place of its
/// origin.
#[derive(Debug, Drop)]
pub struct Composite {
    pub base: Bytes,
    pub accent: Bytes,
    pub asb: Frac,
    pub adx: Frac,
    pub ady: Frac,
}
