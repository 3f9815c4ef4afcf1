//! Fractions in 64 bits, as the extremes of outlines with whole coordinates are.

ghost use Rattle.std.specs.Prelude.{◌≡◌, ◌≤◌, ◌<◌, ◌^◌, ◌*ℤ◌, pos};
ghost use Rattle.std.specs.Int.RustNames.{unsigned_abs};

use t1_frac::{Code, Frac};

/// A fraction, not in lowest terms.
#[derive(Clone, Copy)]
pub struct Exact {
    num: i64,
    den: u64,
    ghost above: { 0 < den },
    ghost fine: { den ≤ 2 ^ 40 },
    ghost size: { unsigned_abs num ≤ 2 ^ 60 },
}

/// A numerator over a denominator's multiple.
fn scaled(num: i64, den: u64) -> i128
    requires { den ≤ 2 ^ 40 }
    ensures value { result ≡ num *ℤ pos den }
    ensures size { unsigned_abs result ≤ 2 ^ 104 }
{
    i128::from(num) * i128::from(den)
}

impl Exact {
    ghost use Rattle.std.specs.Prelude.{ℕ, ◌*◌, ◌⊎◌, true, false, MatchResult, IfOk, Ok, Err};
    ghost use Rattle.t1_frac.specs.Fraction.{whole as whole_of, plus, minus, negated as negated_of};
    ghost use Rattle.t1_frac.specs.Fraction.{floor_of, ceiling_of};
    ghost use Rattle.t1_frac.specs.Limits.{exceeds, IsCoordinate};
    ghost use Rattle.t1_frac.specs.declared.fault.Code.TheVariants.{F40};
    ghost use Rattle.t1_extent.specs.Extremes.{is_less as is_less_of, lesser as lesser_of};
    ghost use Rattle.t1_extent.specs.Extremes.{greater as greater_of, shifted as shifted_of};
    ghost use Rattle.t1_extent.specs.Extremes.{shift_checked};
    ghost use Rattle.t1_afm.specs.Bounds.{over_cube as cube_of};
    ghost use Rattle.t1_extent.specs.Exacts.{kept_number, exact_value};

    /// A whole number.
    pub fn whole(n: i32) -> Exact
        ensures { kept_number result ≡ whole_of n }
    {
        Exact {
            num: i64::from(n),
            den: 1,
        }
    }

    /// A whole number of 39 bits.
    pub(crate) fn over_one(n: i64) -> Exact
        requires { unsigned_abs n ≤ 2 ^ 38 }
        ensures value { kept_number result ≡ whole_of n }
        ensures fine { result.den ≡ 1 }
    {
        Exact { num: n, den: 1 }
    }

    /// A coordinate.
    pub fn of(a: &Frac) -> Exact
        requires { IsCoordinate a.now }
        ensures value { kept_number result ≡ a.now }
        ensures fine { result.den ≤ 2 ^ 20 }
    {
        Exact {
            num: a.num(),
            den: a.den().unsigned_abs(),
        }
    }

    /// A sum over 64^3.
    pub fn over_cube(sum: i64) -> Exact
        requires { unsigned_abs sum ≤ 2 ^ 38 }
        ensures value { kept_number result ≡ cube_of sum }
        ensures fine { result.den ≤ 2 ^ 20 }
    {
        Exact {
            num: sum,
            den: 262_144,
        }
    }

    /// The numerator over another's denominator.
    fn over(&self, other: &Exact) -> i128
        ensures { result ≡ self.now.num *ℤ pos other.now.den }
    {
        i128::from(self.num) * i128::from(other.den)
    }

    /// Whether it is less than another.
    pub fn is_less(&self, other: &Exact) -> bool
        ensures { result ≡ is_less_of (exact_value self.now) (exact_value other.now) }
    {
        if self.den == other.den {
            return self.num < other.num;
        }
        self.over(other) < other.over(self)
    }

    /// The lesser of two.
    pub fn lesser(&self, other: &Exact) -> Exact
        ensures value { exact_value result
            ≡ lesser_of (exact_value self.now) (exact_value other.now) }
        ensures fine { (n : ℕ) → self.now.den ≤ n → other.now.den ≤ n → result.den ≤ n }
    {
        if other.is_less(self) { *other } else { *self }
    }

    /// The greater of two.
    pub fn greater(&self, other: &Exact) -> Exact
        ensures value { exact_value result
            ≡ greater_of (exact_value self.now) (exact_value other.now) }
        ensures fine { (n : ℕ) → self.now.den ≤ n → other.now.den ≤ n → result.den ≤ n }
    {
        if self.is_less(other) { *other } else { *self }
    }

    /// The whole number below it, in 128 bits.
    #[tactic(auto, using(crate::proofs::Exacts::floor_small))]
    fn floor_wide(&self) -> i128
        ensures value { result ≡ floor_of (kept_number self.now) }
        ensures size { unsigned_abs result ≤ 2 ^ 61 }
    {
        i128::from(self.num).div_euclid(i128::from(self.den))
    }

    /// The greatest whole number that isn't above it.
    #[tactic(auto, using(crate::proofs::Exacts::floor_value))]
    pub fn floor(&self) -> i64
        ensures { result ≡ floor_of (exact_value self.now) }
    {
        self.floor_wide() as i64
    }

    /// Less than nothing by as much.
    fn negated(&self) -> Exact
        ensures { kept_number result ≡ negated_of (kept_number self.now) }
    {
        Exact {
            num: -self.num,
            den: self.den,
        }
    }

    /// The least whole number that isn't below it.
    pub fn ceil(&self) -> i64
        ensures { result ≡ ceiling_of (exact_value self.now) }
    {
        let negated = self.negated();
        -(negated.floor_wide() as i64)
    }

    /// A numerator over a denominator, or F40 past 1,048,576 in size.
    fn limited(num: i128, den: u64) -> Result<Exact, Code>
        requires above { 0 < den }
        requires fine { den ≤ 2 ^ 40 }
        ensures { MatchResult result
            (λ e.
            (kept_number e ≡ record { num = num; den = den })
            × (exceeds (2 ^ 20) (record { num = num; den = den }) ≡ false))
            (λ c. (c ≡ F40) × (exceeds (2 ^ 20) (record { num = num; den = den }) ≡ true)) }
    {
        if num.unsigned_abs() > u128::from(den) * 1_048_576 {
            return Err(Code::F40);
        }
        Ok(Exact {
            num: num as i64,
            den,
        })
    }

    /// The numerator of its sum with a distance.
    fn moved_num(&self, by: &Frac) -> i128
        ensures { result ≡ (plus (kept_number self.now) by.now).num }
    {
        let left = scaled(self.num, by.den().unsigned_abs());
        let right = scaled(by.num(), self.den);
        left + right
    }

    /// It, moved, or F40 past 1,048,576 in size.
    #[tactic(auto, using(crate::proofs::Exacts::product_small))]
    pub fn shifted(&self, by: &Frac) -> Result<Exact, Code>
        requires { (self.now.den ≤ 2 ^ 20) ⊎ (by.now.den ≡ 1) }
        ensures outcome { MatchResult
            result
            (λ e. shift_checked by.now (exact_value self.now) ≡ Ok (exact_value e))
            (λ c. shift_checked by.now (exact_value self.now) ≡ Err c) }
        ensures value { IfOk result
            (λ e. exact_value e ≡ shifted_of by.now (exact_value self.now)) }
        ensures fine { IfOk result (λ e. e.den ≡ self.now.den * by.now.den) }
    {
        let num = self.moved_num(by);
        let den = self.den * by.den().unsigned_abs();
        Exact::limited(num, den)
    }

    /// The difference of two coordinates, of which the one that is taken away is whole.
    pub fn between(from: &Frac, to: &Frac) -> Exact
        requires from { IsCoordinate from.now }
        requires to { IsCoordinate to.now }
        requires whole { from.now.den ≡ 1 }
        ensures value { kept_number result ≡ minus to.now from.now }
        ensures fine { result.den ≤ 2 ^ 20 }
    {
        Exact {
            num: to.num() - from.num() * to.den(),
            den: to.den().unsigned_abs(),
        }
    }

    /// The numerator of its sum with another.
    fn sum_num(&self, other: &Exact) -> i128
        ensures { result ≡ (plus (kept_number self.now) (kept_number other.now)).num }
    {
        let left = scaled(self.num, other.den);
        let right = scaled(other.num, self.den);
        left + right
    }

    /// Its sum with a distance, or F40 past 1,048,576 in size.
    pub fn displaced(&self, by: &Exact) -> Result<Exact, Code>
        requires one { self.now.den ≤ 2 ^ 20 }
        requires by { by.now.den ≤ 2 ^ 20 }
        ensures outcome { MatchResult
            result
            (λ e. shift_checked (kept_number by.now) (exact_value self.now) ≡ Ok (exact_value e))
            (λ c. shift_checked (kept_number by.now) (exact_value self.now) ≡ Err c) }
        ensures value { IfOk result
            (λ e. exact_value e ≡ shifted_of (kept_number by.now) (exact_value self.now)) }
        ensures fine { IfOk result (λ e. e.den ≡ self.now.den * by.now.den) }
    {
        let num = self.sum_num(by);
        Exact::limited(num, self.den * by.den)
    }
}
