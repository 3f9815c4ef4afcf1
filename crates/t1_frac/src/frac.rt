//! Exact fractions within the limits of a run.

ghost use Rattle.std.specs.Prelude.{◌≡◌, ◌≢◌, ◌+ℤ◌, ◌*ℤ◌, pos, ◌*◌, ◌%◌, ◌^◌, ◌≤◌, ◌<◌, ◌==◌, IfOk};
ghost use Rattle.std.specs.Prelude.{MatchResult, Ok, Err, true};
ghost use Rattle.std.specs.Int.RustNames.{unsigned_abs};
ghost use Rattle.t1_frac.specs.Fraction.{whole as whole_of, gcd as gcd_of, IsLowest};
ghost use Rattle.t1_frac.specs.SmallPrimes.{IsSmallPrime};
ghost use Rattle.t1_frac.specs.Fraction.{lowest, plus, negated as negated_of, over, compared};
ghost use Rattle.t1_frac.specs.Fraction.{floor_of, ceiling_of, nearest_of};
ghost use Rattle.t1_frac.specs.Limits.{IsCoordinate, coordinate_sum, coordinate_difference};
ghost use Rattle.t1_frac.specs.Limits.{quotient, within};
ghost use Rattle.t1_frac.specs.declared.fault.Code.TheVariants.{F40};

use crate::division::{floor_quotient, quotient, signed_quotient};
use crate::fault::Code;
use crate::gcd::{gcd, gcd_64};
use crate::terms::over_small_primes;
use std::cmp::Ordering;
use std::marker::Model;

/// A fraction in lowest terms, of size at most 2^31 and with a denominator of at most 1,048,576.
/// Equal numbers are equal values, and a whole number has the denominator 1.
#[derive(Clone, Copy, Debug, PartialEq, Eq)]
pub struct Frac {
    num: i64,
    den: u64,
}

impl Model for Frac {
    ghost use Rattle.std.specs.Prelude.{◌≡◌, ◌*◌, ◌^◌, ◌<◌, ◌≤◌};
    ghost use Rattle.std.specs.Int.RustNames.{unsigned_abs};
    ghost use Rattle.t1_frac.specs.Fraction.{Fraction, gcd};

    ghost Value = { Fraction };

    ghost view = { λ f. record { num = f.num; den = f.den } };

    ghost invariant = { λ f.
        (0 < f.den)
        × (gcd (unsigned_abs f.num) f.den ≡ 1)
        × (f.den ≤ 2 ^ 20)
        × (unsigned_abs f.num ≤ 2 ^ 31 * f.den) };

    ghost inverse = { λ v. record { num = v.num; den = v.den } };
}

/// A short numerator over one of the first primes, in lowest terms: what the prime doesn't divide
/// has nothing in common with it. The prime is known where this is compiled, so that no division is
/// made.
#[inline(always)]
fn over_prime(num: i64, prime: u64) -> (i64, u64)
    requires num { unsigned_abs num < 2 ^ 63 }
    requires prime { IsSmallPrime prime }
    ensures lowest { record { num = result.0; den = result.1 }
        ≡ lowest (record { num = num; den = prime }) }
    ensures den_above { 0 < result.1 }
    ensures den_below { result.1 ≤ prime }
{
    if num % prime as i64 == 0 {
        return (signed_quotient(num, prime), 1);
    }
    (num, prime)
}

/// A short numerator and denominator over their greatest common divisor.
#[inline(never)]
#[tactic(auto, using(crate::proofs::Divisors::gcd_above, crate::proofs::Divisors::gcd_below, crate::proofs::Exact::lowest_coprime_terms), unfolding(crate::specs::Fraction::lowest))]
fn over_common_divisor(num: i64, den: u64) -> (i64, u64)
    requires num { unsigned_abs num < 2 ^ 63 }
    requires den_above { 0 < den }
    requires den_below { den < 2 ^ 63 }
    ensures lowest { record { num = result.0; den = result.1 }
        ≡ lowest (record { num = num; den = den }) }
    ensures den_above { 0 < result.1 }
    ensures den_below { result.1 ≤ den }
{
    let divisor = gcd_64(num.unsigned_abs(), den);
    if divisor == 1 {
        return (num, den);
    }
    (signed_quotient(num, divisor), quotient(den, divisor))
}

/// A short numerator and denominator in lowest terms. Where the denominator is known where this is
/// compiled, so is which primes are tried.
#[inline(always)]
fn over_known(num: i64, den: u64) -> (i64, u64)
    requires num { unsigned_abs num < 2 ^ 63 }
    requires den_above { 0 < den }
    requires den_below { den < 2 ^ 63 }
    ensures lowest { record { num = result.0; den = result.1 }
        ≡ lowest (record { num = num; den = den }) }
    ensures den_above { 0 < result.1 }
    ensures den_below { result.1 ≤ den }
{
    if let Some(terms) = over_small_primes(num, den) {
        return terms;
    }
    over_common_divisor(num, den)
}

/// The same, whatever the denominator.
#[inline(never)]
fn over_any(num: i64, den: u64) -> (i64, u64)
    requires num { unsigned_abs num < 2 ^ 63 }
    requires den_above { 0 < den }
    requires den_below { den < 2 ^ 63 }
    ensures lowest { record { num = result.0; den = result.1 }
        ≡ lowest (record { num = num; den = den }) }
    ensures den_above { 0 < result.1 }
    ensures den_below { result.1 ≤ den }
{
    over_known(num, den)
}

/// The same. The denominators that most fonts have are known here.
#[inline(always)]
fn in_lowest_terms(num: i64, den: u64) -> (i64, u64)
    requires num { unsigned_abs num < 2 ^ 63 }
    requires den_above { 0 < den }
    requires den_below { den < 2 ^ 63 }
    ensures lowest { record { num = result.0; den = result.1 }
        ≡ lowest (record { num = num; den = den }) }
    ensures den_above { 0 < result.1 }
    ensures den_below { result.1 ≤ den }
{
    match den {
        2 => over_prime(num, 2),
        3 => over_prime(num, 3),
        5 => over_prime(num, 5),
        7 => over_prime(num, 7),
        10 => over_known(num, 10),
        100 => over_known(num, 100),
        1024 => over_known(num, 1024),
        _ => over_any(num, den),
    }
}

/// The same in 128 bits.
#[tactic(auto, using(crate::proofs::Divisors::gcd_above, crate::proofs::Divisors::gcd_below), unfolding(crate::specs::Fraction::lowest))]
fn long_in_lowest_terms(num: i128, den: u128) -> (i128, u128)
    requires den_above { 0 < den }
    requires den_below { den ≤ 2 ^ 72 }
    ensures lowest { record { num = result.0; den = result.1 }
        ≡ lowest (record { num = num; den = den }) }
    ensures den_above { 0 < result.1 }
    ensures den_below { result.1 ≤ den }
{
    let divisor = gcd(num.unsigned_abs(), den);
    (num / divisor as i128, den / divisor)
}

/// The fault of a short fraction that is too fine: this one where its size is past the limit, else
/// F39.
#[cold]
#[inline(never)]
fn fine_fault(fault: Code, limit: u64, num: i64, den: u64) -> Code
    requires limit { limit ≤ 2 ^ 31 }
    requires fine { 2 ^ 20 < den }
    ensures { within fault limit (record { num = num; den = den }) ≡ Err result }
{
    if u128::from(num.unsigned_abs()) > u128::from(limit) * u128::from(den) {
        fault
    } else {
        Code::F39
    }
}

/// The fraction, or this fault where its size is past the limit, or F39 where it is too fine.
fn limited(fault: Code, limit: u64, num: i128, den: u128) -> Result<Frac, Code>
    requires limit { limit ≤ 2 ^ 31 }
    requires den_above { 0 < den }
    requires coprime { gcd_of (unsigned_abs num) den ≡ 1 }
    requires den_below { den ≤ 2 ^ 72 }
    ensures { result ≡ within fault limit (record { num = num; den = den }) }
{
    if num.unsigned_abs() > u128::from(limit) * den {
        return Err(fault);
    }
    if den > 1 << 20 {
        return Err(Code::F39);
    }
    Ok(Frac {
        num: num as i64,
        den: den as u64,
    })
}

/// Whether a short fraction is past the limit, or else too fine.
#[inline(always)]
fn check_limits(fault: Code, limit: u64, num: i64, den: u64) -> Result<(), Code>
    requires limit { limit ≤ 2 ^ 31 }
    ensures within { MatchResult result
        (λ _.
        within fault limit (record { num = num; den = den })
        ≡ Ok (record { num = num; den = den }))
        (λ code. within fault limit (record { num = num; den = den }) ≡ Err code) }
    ensures fine { IfOk result (λ _. den ≤ 2 ^ 20) }
    ensures small { IfOk result (λ _. unsigned_abs num ≤ limit * den) }
{
    if 1 << 20 < den {
        return Err(fine_fault(fault, limit, num, den));
    }
    if num.unsigned_abs() > limit * den {
        return Err(fault);
    }
    Ok(())
}

/// The short fraction in lowest terms, or this fault where its size is past the limit, or F39 where
/// it is too fine.
#[inline(always)]
fn reduced(fault: Code, limit: u64, num: i64, den: u64) -> Result<Frac, Code>
    requires limit { limit ≤ 2 ^ 31 }
    requires num { unsigned_abs num < 2 ^ 63 }
    requires den_above { 0 < den }
    requires den_below { den < 2 ^ 63 }
    ensures { result ≡ within fault limit (lowest (record { num = num; den = den })) }
{
    let (num, den) = in_lowest_terms(num, den);
    check_limits(fault, limit, num, den)?;
    Ok(Frac { num, den })
}

/// The same in 128 bits.
#[tactic(auto, using(crate::proofs::Exact::coprime_lowest))]
fn long_reduced(fault: Code, limit: u64, num: i128, den: u128) -> Result<Frac, Code>
    requires limit { limit ≤ 2 ^ 31 }
    requires den_above { 0 < den }
    requires den_below { den ≤ 2 ^ 72 }
    ensures { result ≡ within fault limit (lowest (record { num = num; den = den })) }
{
    let (num, den) = long_in_lowest_terms(num, den);
    limited(fault, limit, num, den)
}

/// A whole number that is a sum of coordinates, or F40 past 1,048,576 in size.
#[tactic(auto, using(crate::proofs::Exact::gcd_one))]
#[inline(always)]
fn whole_coordinate(num: i64) -> Result<Frac, Code>
    ensures { result ≡ within F40 (2 ^ 20) (whole_of num) }
{
    if num < -(1 << 20) || num > 1 << 20 {
        return Err(Code::F40);
    }
    Ok(Frac { num, den: 1 })
}

/// A short numerator over a denominator's multiple.
fn scaled(num: i64, den: u64) -> i64
    requires num { unsigned_abs num ≤ 2 ^ 40 }
    requires den { den ≤ 2 ^ 20 }
    ensures value { result ≡ num *ℤ pos den }
    ensures size { unsigned_abs result ≤ 2 ^ 60 }
{
    num * den as i64
}

/// The same in 128 bits.
fn long_scaled(num: i64, den: u64) -> i128
    requires num { unsigned_abs num ≤ 2 ^ 51 }
    requires den { den ≤ 2 ^ 31 }
    ensures value { result ≡ num *ℤ pos den }
    ensures size { unsigned_abs result ≤ 2 ^ 82 }
{
    i128::from(num) * i128::from(den)
}

impl Frac {
    /// The whole number n.
    #[tactic(auto, using(crate::proofs::Exact::gcd_one))]
    pub fn whole(n: i32) -> Frac
        ensures { result ≡ whole_of n }
    {
        Frac {
            num: i64::from(n),
            den: 1,
        }
    }

    /// The numerator, which has the sign.
    pub fn num(&self) -> i64
        ensures { result ≡ self.now.num }
    {
        self.num
    }

    /// The denominator, from 1 to 1,048,576.
    pub fn den(&self) -> i64
        ensures value { result ≡ pos self.now.den }
        ensures above { 0 < self.now.den }
        ensures fine { self.now.den ≤ 2 ^ 20 }
    {
        self.den as i64
    }

    /// Whether it is a whole number.
    pub fn is_whole(&self) -> bool
        ensures value { result ≡ (self.now.den == 1) }
        ensures terms { IsLowest self.now }
    {
        self.den == 1
    }

    /// Whether its products with denominators are sure to fit 64 bits, as those of all coordinates
    /// do.
    fn is_short(&self) -> bool
        ensures { result ≡ true → unsigned_abs self.now.num ≤ 2 ^ 40 }
    {
        self.num.unsigned_abs() <= 1 << 40
    }

    /// The sum's numerator and denominator over the product of both denominators.
    fn crossed_terms(&self, other: &Frac) -> (i64, u64)
        requires left_short { unsigned_abs self.now.num ≤ 2 ^ 40 }
        requires right_short { unsigned_abs other.now.num ≤ 2 ^ 40 }
        ensures sum { record { num = result.0; den = result.1 } ≡ plus self.now other.now }
        ensures num_below { unsigned_abs result.0 < 2 ^ 63 }
        ensures den_above { 0 < result.1 }
        ensures den_below { result.1 < 2 ^ 63 }
    {
        let left = scaled(self.num, other.den);
        let right = scaled(other.num, self.den);
        let den = self.den * other.den;
        (left + right, den)
    }

    /// The same in 128 bits.
    fn long_crossed_terms(&self, other: &Frac) -> (i128, u128)
        ensures sum { record { num = result.0; den = result.1 } ≡ plus self.now other.now }
        ensures den_above { 0 < result.1 }
        ensures den_below { result.1 ≤ 2 ^ 72 }
    {
        let left = long_scaled(self.num, other.den);
        let right = long_scaled(other.num, self.den);
        let den = u128::from(self.den) * u128::from(other.den);
        (left + right, den)
    }

    /// The sum of both numerators.
    fn sum_num(&self, other: &Frac) -> i64
        ensures value { result ≡ self.now.num +ℤ other.now.num }
        ensures size { unsigned_abs result < 2 ^ 63 }
    {
        self.num + other.num
    }

    /// The sum's numerator and denominator over one denominator, not in lowest terms: the
    /// numerators are added.
    #[inline(always)]
    fn alike_terms(&self, other: &Frac) -> (i64, u64)
        requires { self.now.den ≡ other.now.den }
        ensures sum { lowest (record { num = result.0; den = result.1 })
            ≡ lowest (plus self.now other.now) }
        ensures num_below { unsigned_abs result.0 < 2 ^ 63 }
        ensures den_above { 0 < result.1 }
        ensures den_below { result.1 < 2 ^ 63 }
    {
        (self.sum_num(other), self.den)
    }

    /// The sum's numerator and denominator over this denominator, which is a multiple of the
    /// other, not in lowest terms.
    #[inline(always)]
    fn multiple_terms(&self, other: &Frac) -> (i64, u64)
        requires left_short { unsigned_abs self.now.num ≤ 2 ^ 40 }
        requires right_short { unsigned_abs other.now.num ≤ 2 ^ 40 }
        requires multiple { self.now.den % other.now.den ≡ 0 }
        ensures sum { lowest (record { num = result.0; den = result.1 })
            ≡ lowest (plus self.now other.now) }
        ensures num_below { unsigned_abs result.0 < 2 ^ 63 }
        ensures den_above { 0 < result.1 }
        ensures den_below { result.1 < 2 ^ 63 }
    {
        let right = scaled(other.num, self.den / other.den);
        (self.num + right, self.den)
    }

    /// The numerator of the sum with a whole number, over the same denominator. It is in lowest
    /// terms, as the fraction is.
    fn whole_sum_num(&self, other: &Frac) -> i64
        requires left_short { unsigned_abs self.now.num ≤ 2 ^ 40 }
        requires right_short { unsigned_abs other.now.num ≤ 2 ^ 40 }
        requires whole { other.now.den ≡ 1 }
        ensures sum { record { num = result; den = self.now.den }
            ≡ lowest (plus self.now other.now) }
        ensures coprime { gcd_of (unsigned_abs result) self.now.den ≡ 1 }
    {
        let right = scaled(other.num, self.den);
        self.num + right
    }

    /// The sum of a short fraction and a short whole number.
    #[tactic(auto, unfolding(crate::specs::Limits::coordinate_sum))]
    #[inline(always)]
    fn plus_whole(&self, other: &Frac) -> Result<Frac, Code>
        requires left_short { unsigned_abs self.now.num ≤ 2 ^ 40 }
        requires right_short { unsigned_abs other.now.num ≤ 2 ^ 40 }
        requires whole { other.now.den ≡ 1 }
        ensures { result ≡ coordinate_sum self.now other.now }
    {
        let num = self.whole_sum_num(other);
        let den = self.den;
        check_limits(Code::F40, 1 << 20, num, den)?;
        Ok(Frac { num, den })
    }

    /// The sum of two short fractions of which this one's denominator is the greater: over it,
    /// where it is a multiple of the other.
    #[tactic(auto, unfolding(crate::specs::Limits::coordinate_sum))]
    #[inline(always)]
    fn short_sum(&self, other: &Frac) -> Result<Frac, Code>
        requires left_short { unsigned_abs self.now.num ≤ 2 ^ 40 }
        requires right_short { unsigned_abs other.now.num ≤ 2 ^ 40 }
        ensures { result ≡ coordinate_sum self.now other.now }
    {
        if self.den % other.den == 0 {
            let (num, den) = self.multiple_terms(other);
            return reduced(Code::F40, 1 << 20, num, den);
        }
        let (num, den) = self.crossed_terms(other);
        reduced(Code::F40, 1 << 20, num, den)
    }

    /// The quotient's numerator and denominator, not in lowest terms, where both are whole.
    #[inline(always)]
    fn whole_quotient_terms(&self, other: &Frac) -> (i64, u64)
        requires some { unsigned_abs other.now.num ≢ 0 }
        requires left { self.now.den ≡ 1 }
        requires right { other.now.den ≡ 1 }
        ensures quotient { record { num = result.0; den = result.1 } ≡ over self.now other.now }
        ensures num_below { unsigned_abs result.0 < 2 ^ 63 }
        ensures den_above { 0 < result.1 }
        ensures den_below { result.1 < 2 ^ 63 }
    {
        let den = other.num.unsigned_abs();
        if other.num < 0 {
            (-self.num, den)
        } else {
            (self.num, den)
        }
    }

    /// The quotient's numerator and denominator, not in lowest terms.
    fn quotient_terms(&self, other: &Frac) -> (i64, u64)
        requires some { unsigned_abs other.now.num ≢ 0 }
        requires left_short { unsigned_abs self.now.num ≤ 2 ^ 40 }
        requires right_short { unsigned_abs other.now.num ≤ 2 ^ 40 }
        ensures quotient { record { num = result.0; den = result.1 } ≡ over self.now other.now }
        ensures num_below { unsigned_abs result.0 < 2 ^ 63 }
        ensures den_above { 0 < result.1 }
        ensures den_below { result.1 < 2 ^ 63 }
    {
        let num = scaled(self.num, other.den);
        let den = self.den * other.num.unsigned_abs();
        if other.num < 0 {
            (-num, den)
        } else {
            (num, den)
        }
    }

    /// The same in 128 bits.
    fn long_quotient_terms(&self, other: &Frac) -> (i128, u128)
        requires { unsigned_abs other.now.num ≢ 0 }
        ensures quotient { record { num = result.0; den = result.1 } ≡ over self.now other.now }
        ensures den_above { 0 < result.1 }
        ensures den_below { result.1 ≤ 2 ^ 72 }
    {
        let num = long_scaled(self.num, other.den);
        let den = u128::from(self.den) * u128::from(other.num.unsigned_abs());
        if other.num < 0 {
            (-num, den)
        } else {
            (num, den)
        }
    }

    #[tactic(auto, using(crate::proofs::Exact::coprime_negated))]
    fn negated(&self) -> Frac
        ensures { result ≡ negated_of self.now }
    {
        Frac {
            num: -self.num,
            den: self.den,
        }
    }

    /// The sum in 128 bits.
    #[tactic(auto, unfolding(crate::specs::Limits::coordinate_sum))]
    #[cold]
    #[inline(never)]
    fn add_long(self, other: Frac) -> Result<Frac, Code>
        ensures { result ≡ coordinate_sum self other }
    {
        let (num, den) = self.long_crossed_terms(&other);
        long_reduced(Code::F40, 1 << 20, num, den)
    }

    /// The sum, where both may have fractions. Over one denominator the numerators are added.
    #[tactic(auto, using(crate::proofs::Sums::sum_turned), unfolding(crate::specs::Limits::coordinate_sum))]
    #[inline(never)]
    fn fraction_sum(self, other: Frac) -> Result<Frac, Code>
        ensures { result ≡ coordinate_sum self other }
    {
        if self.den == other.den {
            let (num, den) = self.alike_terms(&other);
            return reduced(Code::F40, 1 << 20, num, den);
        }
        if !self.is_short() || !other.is_short() {
            return self.add_long(other);
        }
        if other.den == 1 {
            return self.plus_whole(&other);
        }
        if self.den == 1 {
            return other.plus_whole(&self);
        }
        if self.den > other.den {
            return self.short_sum(&other);
        }
        other.short_sum(&self)
    }

    /// The same, with its answer in registers. It stands apart from `add`, so that whole numbers
    /// make no place for it.
    #[inline(always)]
    fn add_fraction(self, other: Frac) -> Result<Frac, Code>
        ensures { result ≡ coordinate_sum self other }
    {
        Ok(self.fraction_sum(other)?)
    }

    /// The sum of two coordinates. It is F40 past 1,048,576 in size, and then F39 where its
    /// denominator is past 1,048,576.
    #[inline(always)]
    pub fn add(&self, other: &Frac) -> Result<Frac, Code>
        ensures sum { result ≡ coordinate_sum self.now other.now }
        ensures within { IfOk result IsCoordinate }
    {
        if self.den == 1 && other.den == 1 {
            return whole_coordinate(self.sum_num(other));
        }
        self.add_fraction(*other)
    }

    /// The difference of two coordinates, refused as their sum is.
    #[tactic(auto, unfolding(crate::specs::Limits::coordinate_sum, crate::specs::Limits::coordinate_difference))]
    #[inline(always)]
    pub fn sub(&self, other: &Frac) -> Result<Frac, Code>
        ensures difference { result ≡ coordinate_difference self.now other.now }
        ensures within { IfOk result IsCoordinate }
    {
        self.add(&other.negated())
    }

    /// The quotient in 128 bits.
    #[tactic(auto, unfolding(crate::specs::Limits::quotient))]
    #[cold]
    #[inline(never)]
    fn div_long(&self, other: &Frac) -> Result<Frac, Code>
        requires { unsigned_abs other.now.num ≢ 0 }
        ensures { result ≡ quotient self.now other.now }
    {
        let (num, den) = self.long_quotient_terms(other);
        long_reduced(Code::F37, 1 << 31, num, den)
    }

    /// The quotient. It is F38 by 0, F37 past 2^31 in size, and then F39 where its denominator is
    /// past 1,048,576.
    #[tactic(auto, unfolding(crate::specs::Limits::quotient))]
    #[inline(always)]
    pub fn div(&self, other: &Frac) -> Result<Frac, Code>
        ensures { result ≡ quotient self.now other.now }
    {
        if other.num == 0 {
            return Err(Code::F38);
        }
        if self.den == 1 && other.den == 1 {
            let (num, den) = self.whole_quotient_terms(other);
            return reduced(Code::F37, 1 << 31, num, den);
        }
        if self.is_short() && other.is_short() {
            let (num, den) = self.quotient_terms(other);
            return reduced(Code::F37, 1 << 31, num, den);
        }
        self.div_long(other)
    }

    /// The greatest whole number that isn't above it.
    pub fn floor(&self) -> i64
        ensures { result ≡ floor_of self.now }
    {
        floor_quotient(self.num, self.den)
    }

    /// The least whole number that isn't below it.
    pub fn ceil(&self) -> i64
        ensures { result ≡ ceiling_of self.now }
    {
        -(-self.num).div_euclid(self.den as i64)
    }

    /// The same, where it may have a fraction. A division takes as long as a glyph's line.
    #[inline(never)]
    fn nearest_to_fraction(&self) -> i64
        ensures { result ≡ nearest_of self.now }
    {
        let den = self.den as i64;
        (self.num * 2 + den).div_euclid(2 * den)
    }

    /// The nearest whole number, halves upward.
    #[tactic(auto, using(crate::proofs::Rounded::nearest_whole))]
    pub fn nearest(&self) -> i64
        ensures { result ≡ nearest_of self.now }
    {
        if self.den == 1 {
            return self.num;
        }
        self.nearest_to_fraction()
    }

    /// How the two stand as numbers.
    pub fn cmp(&self, other: &Frac) -> Ordering
        ensures { result ≡ compared self.now other.now }
    {
        long_scaled(self.num, other.den).cmp(&long_scaled(other.num, self.den))
    }
}
