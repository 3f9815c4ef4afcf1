//! Cubics along one axis between whole coordinates, as most fonts have.

ghost use Rattle.std.specs.Prelude.{◌≡◌, ◌≤◌, ◌^◌, ◌*ℤ◌, ◌+ℤ◌, pos};
ghost use Rattle.std.specs.Int.RustNames.{unsigned_abs};
ghost use Rattle.t1_frac.specs.Fraction.{floor_of, ceiling_of};
ghost use Rattle.t1_afm.specs.Spans.{span_of};
ghost use Rattle.t1_afm.specs.Bounds.{IsInRange, over_cube};

use crate::span::Span;

/// The numerator of a whole coordinate over 64^3.
pub fn numerator(n: i64) -> i64
    requires { unsigned_abs n ≤ 2 ^ 20 }
    ensures value { result ≡ pos 262144 *ℤ n }
    ensures size { unsigned_abs result ≤ 2 ^ 38 }
{
    262_144 * n
}

/// A cubic along one axis, by the whole coordinates of its four points.
#[derive(Clone, Copy)]
pub struct WholeCubic {
    pub start: i64,
    pub first: i64,
    pub second: i64,
    pub end: i64,
    ghost start_size: { unsigned_abs start ≤ 2 ^ 20 },
    ghost first_size: { unsigned_abs first ≤ 2 ^ 20 },
    ghost second_size: { unsigned_abs second ≤ 2 ^ 20 },
    ghost end_size: { unsigned_abs end ≤ 2 ^ 20 },
}

/// A value of a cubic at a sixty-fourth, times 64^3, with the differences that lead to the next
/// values.
#[derive(Clone, Copy)]
struct Sample {
    value: i64,
    first: i64,
    second: i64,
    third: i64,
}

impl Sample {
    ghost use Rattle.t1_afm.specs.Differences.{linear as linear_of, square as square_of};
    ghost use Rattle.t1_afm.specs.Differences.{cube as cube_of};

    /// The value at 0.
    fn start(cubic: &WholeCubic) -> Sample
        ensures value { result.value ≡ pos 262144 *ℤ cubic.now.start }
        ensures first { result.first
            ≡ cube_of cubic.now +ℤ square_of cubic.now +ℤ linear_of cubic.now }
        ensures second { result.second
            ≡ pos 6 *ℤ cube_of cubic.now +ℤ pos 2 *ℤ square_of cubic.now }
        ensures third { result.third ≡ pos 6 *ℤ cube_of cubic.now }
    {
        let linear = cubic.linear();
        let square = cubic.square();
        let cube = cubic.cube();
        Sample {
            value: 262_144 * cubic.start,
            first: cube + square + linear,
            second: 6 * cube + 2 * square,
            third: 6 * cube,
        }
    }

    /// The value at the next sixty-fourth.
    fn next(&self) -> Sample
        requires value { unsigned_abs self.now.value ≤ 2 ^ 60 }
        requires first { unsigned_abs self.now.first ≤ 2 ^ 60 }
        requires second { unsigned_abs self.now.second ≤ 2 ^ 60 }
        requires third { unsigned_abs self.now.third ≤ 2 ^ 60 }
        ensures value { result.value ≡ self.now.value +ℤ self.now.first }
        ensures first { result.first ≡ self.now.first +ℤ self.now.second }
        ensures second { result.second ≡ self.now.second +ℤ self.now.third }
        ensures third { result.third ≡ self.now.third }
    {
        Sample {
            value: self.value + self.first,
            first: self.first + self.second,
            second: self.second + self.third,
            third: self.third,
        }
    }
}

/// The sum over 64^3, rounded down.
pub(crate) fn floor(sum: i64) -> i32
    requires { IsInRange (over_cube sum) }
    ensures value { result ≡ floor_of (over_cube sum) }
    ensures size { unsigned_abs result ≤ 2 ^ 20 }
{
    sum.div_euclid(262_144) as i32
}

/// The sum over 64^3, rounded up.
fn ceil(sum: i64) -> i32
    requires range { IsInRange (over_cube sum) }
    requires size { unsigned_abs sum ≤ 2 ^ 60 }
    ensures { result ≡ ceiling_of (over_cube sum) }
{
    -floor(-sum)
}

/// The least and the greatest of the 65 values of a cubic, times 64^3, exactly.
#[derive(Clone, Copy)]
pub struct Sums {
    pub least: i64,
    pub greatest: i64,
}

impl WholeCubic {
    ghost use Rattle.t1_afm.specs.Differences.{linear as linear_of, square as square_of};
    ghost use Rattle.t1_afm.specs.Differences.{cube as cube_of, least_sum, greatest_sum};
    ghost use Rattle.t1_afm.specs.Differences.{whole_values};

    /// The linear coefficient of the values at k/64, times 64^3.
    fn linear(&self) -> i64
        ensures value { result ≡ linear_of self.now }
        ensures size { unsigned_abs result ≤ 2 ^ 35 }
    {
        12_288 * (self.first - self.start)
    }

    /// The coefficient of the square.
    fn square(&self) -> i64
        ensures value { result ≡ square_of self.now }
        ensures size { unsigned_abs result ≤ 2 ^ 30 }
    {
        192 * (self.start - 2 * self.first + self.second)
    }

    /// The coefficient of the cube.
    fn cube(&self) -> i64
        ensures value { result ≡ cube_of self.now }
        ensures size { unsigned_abs result ≤ 2 ^ 23 }
    {
        self.end - self.start + 3 * (self.first - self.second)
    }

    /// The least and the greatest of the 65 values, value by value.
    fn sampled_sums(&self) -> Sums
        ensures least { result.least
            ≡ least_sum self.now.start self.now.first self.now.second self.now.end }
        ensures greatest { result.greatest
            ≡ greatest_sum self.now.start self.now.first self.now.second self.now.end }
        ensures least_range { IsInRange (over_cube result.least) }
        ensures greatest_range { IsInRange (over_cube result.greatest) }
        ensures least_size { unsigned_abs result.least ≤ 2 ^ 38 }
        ensures greatest_size { unsigned_abs result.greatest ≤ 2 ^ 38 }
        ensures span { record {
          low = floor_of (over_cube result.least);
          high = ceiling_of
              (over_cube result.greatest);
        }
            ≡ span_of (whole_values self.now) }
    {
        let mut sample = Sample::start(self);
        let mut least = sample.value;
        let mut greatest = sample.value;
        for _k in 0..64_u32 {
            sample = sample.next();
            least = least.min(sample.value);
            greatest = greatest.max(sample.value);
        }
        Sums { least, greatest }
    }

    /// The least and the greatest of the 65 values. Where the four points reach no further than the
    /// ends, as in most curves of a font, neither do the values between.
    pub fn sums(&self) -> Sums
        ensures least { result.least
            ≡ least_sum self.now.start self.now.first self.now.second self.now.end }
        ensures greatest { result.greatest
            ≡ greatest_sum self.now.start self.now.first self.now.second self.now.end }
        ensures least_range { IsInRange (over_cube result.least) }
        ensures greatest_range { IsInRange (over_cube result.greatest) }
        ensures least_size { unsigned_abs result.least ≤ 2 ^ 38 }
        ensures greatest_size { unsigned_abs result.greatest ≤ 2 ^ 38 }
        ensures span { record {
          low = floor_of (over_cube result.least);
          high = ceiling_of
              (over_cube result.greatest);
        }
            ≡ span_of (whole_values self.now) }
    {
        let low = self.start.min(self.end);
        let high = self.start.max(self.end);
        if low <= self.first.min(self.second) && self.first.max(self.second) <= high {
            return Sums {
                least: numerator(low),
                greatest: numerator(high),
            };
        }
        self.sampled_sums()
    }

    /// The span around the 65 values.
    pub(crate) fn span(&self) -> Span
        ensures { result ≡ span_of (whole_values self.now) }
    {
        let sums = self.sums();
        Span {
            low: floor(sums.least),
            high: ceil(sums.greatest),
        }
    }
}
