//! The whole numbers around coordinates of one axis.

ghost use Rattle.std.specs.Prelude.{◌≡◌, ◌≤◌, ◌^◌, ◌*ℤ◌, ◌↔◌, IsTrue, [], ◌∷◌};
ghost use Rattle.std.specs.Int.RustNames.{unsigned_abs};
ghost use Rattle.t1_frac.specs.Fraction.{whole, floor_of};
ghost use Rattle.t1_frac.specs.Limits.{IsCoordinate};
ghost use Rattle.t1_afm.specs.Spans.{span_of, span_around, span_around_one};
ghost use Rattle.t1_afm.specs.Bounds.{IsHeld};

use t1_frac::Frac;

/// The whole numbers around values.
#[derive(Clone, Copy)]
pub(crate) struct Span {
    pub(crate) low: i32,
    pub(crate) high: i32,
}

impl Span {
    /// The span around both.
    pub(crate) fn around(&self, other: &Span) -> Span
        ensures { result ≡ span_around self.now other.now }
    {
        Span {
            low: self.low.min(other.low),
            high: self.high.max(other.high),
        }
    }
}

/// A coordinate rounded down.
fn rounded_down(a: &Frac) -> i32
    requires { IsCoordinate a.now }
    ensures value { result ≡ floor_of a.now }
    ensures size { unsigned_abs result ≤ 2 ^ 20 }
{
    a.floor() as i32
}

/// The span around a coordinate that is whole.
fn exact_span(num: i64) -> Span
    requires { unsigned_abs num ≤ 2 ^ 20 }
    ensures { result ≡ span_around_one (whole num) }
{
    Span {
        low: num as i32,
        high: num as i32,
    }
}

/// The span around a coordinate.
pub(crate) fn coordinate_span(a: &Frac) -> Span
    requires { IsCoordinate a.now }
    ensures { result ≡ span_around_one a.now }
{
    if a.is_whole() {
        return exact_span(a.num());
    }
    let low = rounded_down(a);
    Span { low, high: low + 1 }
}

/// A bound times a denominator.
fn scaled(bound: i32, den: i64) -> i64
    requires { unsigned_abs den ≤ 2 ^ 20 }
    ensures { result ≡ bound *ℤ den }
{
    i64::from(bound) * den
}

impl Span {
    /// Whether a coordinate is within it. No division is made.
    #[inline(always)]
    pub(crate) fn holds(&self, a: &Frac) -> bool
        requires { IsCoordinate a.now }
        ensures { IsTrue result ↔ IsHeld self.now a.now }
    {
        let den = a.den();
        scaled(self.low, den) <= a.num() && a.num() <= scaled(self.high, den)
    }

    /// The span around this one and a coordinate.
    #[inline(always)]
    fn with(&self, a: &Frac) -> Span
        requires { IsCoordinate a.now }
        ensures { result ≡ span_around self.now (span_around_one a.now) }
    {
        if self.holds(a) {
            return *self;
        }
        self.around(&coordinate_span(a))
    }
}

/// A line along one axis, by the coordinates of its ends.
#[derive(Clone, Copy)]
pub(crate) struct Line {
    pub(crate) start: Frac,
    pub(crate) end: Frac,
    ghost start_within: { IsCoordinate start },
    ghost end_within: { IsCoordinate end },
}

impl Line {
    /// The span around both ends.
    pub(crate) fn span(&self) -> Span
        ensures { result ≡ span_of (self.now.start ∷ self.now.end ∷ []) }
    {
        coordinate_span(&self.start).around(&coordinate_span(&self.end))
    }

    /// The span around another one and both ends. Most points of an outline reach no further than
    /// those before them.
    pub(crate) fn span_with(&self, other: &Span) -> Span
        ensures { result ≡ span_around other.now (span_of (self.now.start ∷ self.now.end ∷ [])) }
    {
        other.with(&self.start).with(&self.end)
    }
}
