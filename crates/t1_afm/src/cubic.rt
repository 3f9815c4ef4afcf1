//! The values of a cubic along one axis.

ghost use Rattle.std.specs.Prelude.{◌≡◌, ◌≤◌};
ghost use Rattle.t1_frac.specs.Limits.{IsCoordinate};
ghost use Rattle.t1_afm.specs.Points.{cubic_at};
ghost use Rattle.t1_afm.specs.CubicValues.{cubic_values};
ghost use Rattle.t1_afm.specs.Spans.{span_of, span_around};
ghost use Rattle.t1_afm.specs.Bounds.{IsInRange, fraction_of};

use crate::common::CommonCubic;
use crate::ratio::{Ratio, WeightedPair};
use crate::span::{Line, Span};
use crate::whole::WholeCubic;
use t1_frac::Frac;

/// A cubic along one axis, by the coordinates of its four points.
#[derive(Drop)]
pub(crate) struct Cubic {
    pub(crate) start: Frac,
    pub(crate) first: Frac,
    pub(crate) second: Frac,
    pub(crate) end: Frac,
    ghost start_within: { IsCoordinate start },
    ghost first_within: { IsCoordinate first },
    ghost second_within: { IsCoordinate second },
    ghost end_within: { IsCoordinate end },
}

impl Cubic {
    /// The value at k/64.
    fn terms_at(&self, k: u32) -> Ratio
        requires { k ≤ 64 }
        ensures { fraction_of result
            ≡ cubic_at self.now.start self.now.first self.now.second self.now.end k }
    {
        let j = 64 - k;
        let front = WeightedPair::of(j * j * j, &self.start, 3 * j * j * k, &self.first);
        let back = WeightedPair::of(3 * j * k * k, &self.second, k * k * k, &self.end);
        front.sum(&back)
    }

    /// The value at k/64, which is within the range of coordinates.
    fn value_at(&self, k: u32) -> Ratio
        requires { k ≤ 64 }
        ensures value { fraction_of result
            ≡ cubic_at self.now.start self.now.first self.now.second self.now.end k }
        ensures range { IsInRange (fraction_of result) }
    {
        self.terms_at(k)
    }

    /// The span around the 65 values, value by value. All have one denominator, so that numerators
    /// tell which is the least and which the greatest, and two values alone are divided.
    fn sampled_span(&self) -> Span
        ensures { result
            ≡ span_of (cubic_values self.now.start self.now.first self.now.second self.now.end) }
    {
        let mut least = self.value_at(0);
        let mut greatest = least;
        for k in 1..65 {
            let next = self.value_at(k);
            least = least.lesser(&next);
            greatest = greatest.greater(&next);
        }
        let low = least.floor();
        let high = greatest.ceil();
        Span { low, high }
    }

    /// The span around the 65 values, over a denominator of all four points, where one is found.
    fn common_span(&self) -> Span
        ensures { result
            ≡ span_of (cubic_values self.now.start self.now.first self.now.second self.now.end) }
    {
        let Some(cubic) = CommonCubic::of(self) else {
            return self.sampled_span();
        };
        cubic.span()
    }

    /// The span around the 65 values. Where the inner points reach no further than the ends,
    /// neither do the values between.
    fn fraction_span(&self) -> Span
        ensures { result
            ≡ span_of (cubic_values self.now.start self.now.first self.now.second self.now.end) }
    {
        let outer = Line {
            start: self.start,
            end: self.end,
        };
        let between = Line {
            start: self.first,
            end: self.second,
        };
        let ends = outer.span();
        let inner = between.span();
        if ends.low <= inner.low && inner.high <= ends.high {
            return ends;
        }
        self.common_span()
    }

    /// The span around the 65 values.
    pub(crate) fn span(&self) -> Span
        ensures { result
            ≡ span_of (cubic_values self.now.start self.now.first self.now.second self.now.end) }
    {
        if self.start.is_whole()
            && self.first.is_whole()
            && self.second.is_whole()
            && self.end.is_whole()
        {
            let cubic = WholeCubic {
                start: self.start.num(),
                first: self.first.num(),
                second: self.second.num(),
                end: self.end.num(),
            };
            return cubic.span();
        }
        self.fraction_span()
    }

    /// The span around another one and the 65 values. Where the other holds the four points, it
    /// holds the values too.
    pub(crate) fn span_with(&self, other: &Span) -> Span
        ensures { result
            ≡ span_around other.now
            (span_of (cubic_values self.now.start self.now.first self.now.second self.now.end)) }
    {
        if other.holds(&self.start)
            && other.holds(&self.first)
            && other.holds(&self.second)
            && other.holds(&self.end)
        {
            return *other;
        }
        other.around(&self.span())
    }
}
