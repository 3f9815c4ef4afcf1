//! Cubics along one axis between fractions, by the numerators of their points over a common
//! denominator.

ghost use Rattle.std.specs.Prelude.{◌≡◌, ◌*◌, ◌<◌, ◌≤◌, ◌^◌, ◌*ℤ◌, pos, IfSome};
ghost use Rattle.std.specs.Int.RustNames.{unsigned_abs};
ghost use Rattle.t1_frac.specs.Fraction.{floor_of, ceiling_of, IsSame};
ghost use Rattle.t1_frac.specs.Limits.{IsCoordinate};
ghost use Rattle.t1_afm.specs.Bounds.{IsInRange, over_cube, over_den, over_cube_and};

use crate::cubic::Cubic;
use crate::span::Span;
use crate::whole::{WholeCubic, floor};
use t1_frac::Frac;

/// A denominator of both where one is a multiple of the other, or their product isn't too fine;
/// else the first.
fn common_den(one: u64, other: u64) -> u64
    requires one_above { 0 < one }
    requires one_fine { one ≤ 2 ^ 20 }
    requires other_above { 0 < other }
    requires other_fine { other ≤ 2 ^ 20 }
    ensures above { 0 < result }
    ensures fine { result ≤ 2 ^ 20 }
{
    if one == other || one % other == 0 {
        return one;
    }
    if other % one == 0 {
        return other;
    }
    if one * other > 1 << 20 {
        return one;
    }
    one * other
}

/// A numerator times the factor that it is widened by.
fn widened(num: i64, factor: u64) -> i64
    requires num { unsigned_abs num ≤ 2 ^ 40 }
    requires factor { factor ≤ 2 ^ 20 }
    ensures value { result ≡ num *ℤ pos factor }
    ensures size { unsigned_abs result ≤ 2 ^ 60 }
{
    num * factor as i64
}

/// A numerator that is at most 1,048,576 in size.
fn if_small(num: i64) -> Option<i64>
    ensures same { IfSome result (λ n. n ≡ num) }
    ensures size { IfSome result (λ n. unsigned_abs n ≤ 2 ^ 20) }
{
    if num < -(1 << 20) || num > 1 << 20 {
        return None;
    }
    Some(num)
}

/// The numerator of a coordinate over a denominator, where that is one of it, and the numerator is
/// at most 1,048,576 in size.
fn numerator_over(a: &Frac, den: u64) -> Option<i64>
    requires a { IsCoordinate a.now }
    requires above { 0 < den }
    requires fine { den ≤ 2 ^ 20 }
    ensures same { IfSome result (λ n. IsSame (over_den den n) a.now) }
    ensures size { IfSome result (λ n. unsigned_abs n ≤ 2 ^ 20) }
{
    let own = a.den().unsigned_abs();
    if den == own {
        return if_small(a.num());
    }
    if den % own != 0 {
        return None;
    }
    if_small(widened(a.num(), den / own))
}

/// A sum over 64^3 and a denominator, rounded down.
fn floor_over(sum: i64, den: u64) -> i32
    requires range { IsInRange (over_cube sum) }
    requires above { 0 < den }
    requires fine { den ≤ 2 ^ 20 }
    ensures value { result ≡ floor_of (over_cube_and den sum) }
    ensures size { unsigned_abs result ≤ 2 ^ 20 }
{
    floor(sum).div_euclid(den as i32)
}

/// The same, rounded up.
fn ceil_over(sum: i64, den: u64) -> i32
    requires range { IsInRange (over_cube sum) }
    requires size { unsigned_abs sum ≤ 2 ^ 60 }
    requires above { 0 < den }
    requires fine { den ≤ 2 ^ 20 }
    ensures { result ≡ ceiling_of (over_cube_and den sum) }
{
    -floor_over(-sum, den)
}

/// A cubic between fractions: the cubic between their numerators, and their denominator.
#[derive(Clone, Copy)]
pub(crate) struct CommonCubic {
    cubic: WholeCubic,
    den: u64,
    ghost above: { 0 < den },
    ghost fine: { den ≤ 2 ^ 20 },
}

impl CommonCubic {
    ghost use Rattle.t1_afm.specs.Common.{IsCommon, common_values};
    ghost use Rattle.t1_afm.specs.Spans.{span_of};

    /// The cubic over a denominator of all four points, where one was found over which their
    /// numerators are small.
    pub(crate) fn of(cubic: &Cubic) -> Option<CommonCubic>
        ensures { IfSome result
            (IsCommon cubic.now.start cubic.now.first cubic.now.second cubic.now.end) }
    {
        let outer = common_den(
            cubic.start.den().unsigned_abs(),
            cubic.end.den().unsigned_abs(),
        );
        let inner = common_den(
            cubic.first.den().unsigned_abs(),
            cubic.second.den().unsigned_abs(),
        );
        let den = common_den(outer, inner);
        let start = numerator_over(&cubic.start, den)?;
        let first = numerator_over(&cubic.first, den)?;
        let second = numerator_over(&cubic.second, den)?;
        let end = numerator_over(&cubic.end, den)?;
        let cubic = WholeCubic {
            start,
            first,
            second,
            end,
        };
        Some(CommonCubic { cubic, den })
    }

    /// The span around the 65 values.
    pub(crate) fn span(&self) -> Span
        ensures { result ≡ span_of (common_values self.now) }
    {
        let sums = self.cubic.sums();
        Span {
            low: floor_over(sums.least, self.den),
            high: ceil_over(sums.greatest, self.den),
        }
    }
}
