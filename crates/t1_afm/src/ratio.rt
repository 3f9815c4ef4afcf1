//! A curve's value at k/64 along one axis, exactly: the sum of four coordinates, each times a whole
//! weight, over 64^3.

ghost use Rattle.std.specs.Prelude.{◌≡◌, ◌≤◌, ◌*◌, ◌^◌, ◌*ℤ◌, pos};
ghost use Rattle.std.specs.Int.RustNames.{unsigned_abs};
ghost use Rattle.t1_frac.specs.Fraction.{plus};
ghost use Rattle.t1_frac.specs.Limits.{IsCoordinate};
ghost use Rattle.t1_afm.specs.Points.{times as weighed};

use t1_frac::Frac;

/// The sum of two coordinates, each times its weight.
#[derive(Clone, Copy)]
pub(crate) struct WeightedPair {
    num: i128,
    den: u128,
    ghost num_size: { unsigned_abs num ≤ 2 ^ 79 },
    ghost den_size: { den ≤ 2 ^ 40 },
}

/// A curve's value.
#[derive(Clone, Copy)]
pub(crate) struct Ratio {
    num: i128,
    den: u128,
    ghost num_size: { unsigned_abs num ≤ 2 ^ 120 },
    ghost den_size: { den ≤ 2 ^ 98 },
}

/// A numerator times a weight.
pub(crate) fn times(weight: u32, num: i64) -> i64
    requires weight { weight ≤ 2 ^ 18 }
    requires num { unsigned_abs num ≤ 2 ^ 40 }
    ensures value { result ≡ pos weight *ℤ num }
    ensures size { unsigned_abs result ≤ 2 ^ 58 }
{
    i64::from(weight) * num
}

/// A numerator times the denominator that it is widened by.
fn scaled(num: i64, den: i64) -> i128
    requires num { unsigned_abs num ≤ 2 ^ 58 }
    requires den { unsigned_abs den ≤ 2 ^ 20 }
    ensures value { result ≡ num *ℤ den }
    ensures size { unsigned_abs result ≤ 2 ^ 78 }
{
    i128::from(num) * i128::from(den)
}

/// A coordinate's numerator times its weight, widened by another's denominator.
fn term(weight: u32, a: &Frac, b: &Frac) -> i128
    requires weight { weight ≤ 2 ^ 18 }
    requires a { IsCoordinate a.now }
    requires b { IsCoordinate b.now }
    ensures value { result ≡ (weighed weight a.now).num *ℤ pos b.now.den }
    ensures size { unsigned_abs result ≤ 2 ^ 78 }
{
    scaled(times(weight, a.num()), b.den())
}

/// The numerator of the sum of two coordinates, each times its weight.
fn pair_num(u: u32, a: &Frac, v: u32, b: &Frac) -> i128
    requires left { u ≤ 2 ^ 18 }
    requires right { v ≤ 2 ^ 18 }
    requires a { IsCoordinate a.now }
    requires b { IsCoordinate b.now }
    ensures value { result ≡ (plus (weighed u a.now) (weighed v b.now)).num }
    ensures size { unsigned_abs result ≤ 2 ^ 79 }
{
    let left = term(u, a, b);
    let right = term(v, b, a);
    left + right
}

/// The denominator of a sum of two coordinates.
fn pair_den(a: &Frac, b: &Frac) -> u128
    requires a { IsCoordinate a.now }
    requires b { IsCoordinate b.now }
    ensures value { result ≡ a.now.den * b.now.den }
    ensures size { result ≤ 2 ^ 40 }
{
    u128::from(a.den().unsigned_abs()) * u128::from(b.den().unsigned_abs())
}

impl WeightedPair {
    ghost use Rattle.t1_afm.specs.Points.{over_whole};
    ghost use Rattle.t1_afm.specs.Bounds.{fraction_of, pair_fraction};

    /// The sum of two coordinates, each times its weight.
    pub(crate) fn of(u: u32, a: &Frac, v: u32, b: &Frac) -> WeightedPair
        requires left { u ≤ 2 ^ 18 }
        requires right { v ≤ 2 ^ 18 }
        requires a { IsCoordinate a.now }
        requires b { IsCoordinate b.now }
        ensures { pair_fraction result ≡ plus (weighed u a.now) (weighed v b.now) }
    {
        WeightedPair {
            num: pair_num(u, a, v, b),
            den: pair_den(a, b),
        }
    }

    /// The numerator, widened by the denominator of another sum.
    fn widened(&self, other: &WeightedPair) -> i128
        ensures value { result ≡ self.now.num *ℤ pos other.now.den }
        ensures size { unsigned_abs result ≤ 2 ^ 119 }
    {
        self.num * other.den as i128
    }

    /// The numerator of both sums together.
    fn sum_num(&self, other: &WeightedPair) -> i128
        ensures value { result ≡ (plus (pair_fraction self.now) (pair_fraction other.now)).num }
        ensures size { unsigned_abs result ≤ 2 ^ 120 }
    {
        let left = self.widened(other);
        let right = other.widened(self);
        left + right
    }

    /// Both sums together, over 64^3.
    pub(crate) fn sum(&self, other: &WeightedPair) -> Ratio
        ensures { fraction_of result
            ≡ over_whole 262144 (plus (pair_fraction self.now) (pair_fraction other.now)) }
    {
        Ratio {
            num: self.sum_num(other),
            den: 262_144 * (self.den * other.den),
        }
    }
}

impl Ratio {
    ghost use Rattle.std.specs.Int.{int_min, int_max};
    ghost use Rattle.t1_frac.specs.Fraction.{negated as negated_of, floor_of, ceiling_of};
    ghost use Rattle.t1_afm.specs.Bounds.{IsInRange, fraction_of};

    /// The lesser of two over one denominator.
    pub(crate) fn lesser(&self, other: &Ratio) -> Ratio
        requires { self.now.den ≡ other.now.den }
        ensures num { result.num ≡ int_min self.now.num other.now.num }
        ensures den { result.den ≡ self.now.den }
    {
        if other.num < self.num { *other } else { *self }
    }

    /// The greater of two over one denominator.
    pub(crate) fn greater(&self, other: &Ratio) -> Ratio
        requires { self.now.den ≡ other.now.den }
        ensures num { result.num ≡ int_max self.now.num other.now.num }
        ensures den { result.den ≡ self.now.den }
    {
        if self.num < other.num { *other } else { *self }
    }

    fn floor_wide(&self) -> i128
        requires { IsInRange (fraction_of self.now) }
        ensures { result ≡ floor_of (fraction_of self.now) }
    {
        self.num.div_euclid(self.den as i128)
    }

    pub(crate) fn floor(&self) -> i32
        requires { IsInRange (fraction_of self.now) }
        ensures value { result ≡ floor_of (fraction_of self.now) }
        ensures size { unsigned_abs result ≤ 2 ^ 20 }
    {
        self.floor_wide() as i32
    }

    /// The fraction with the other sign.
    fn negated(&self) -> Ratio
        ensures { fraction_of result ≡ negated_of (fraction_of self.now) }
    {
        Ratio {
            num: -self.num,
            den: self.den,
        }
    }

    pub(crate) fn ceil(&self) -> i32
        requires { IsInRange (fraction_of self.now) }
        ensures { result ≡ ceiling_of (fraction_of self.now) }
    {
        let negated = self.negated();
        -negated.floor()
    }
}
