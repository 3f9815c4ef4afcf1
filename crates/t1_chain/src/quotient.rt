//! The quotient of two values, of whatever size.

ghost use Rattle.std.specs.Prelude.{◌≡◌, ◌≢◌, ◌*◌, ◌*ℤ◌, pos, ◌^◌, ◌<◌, ◌≤◌};
ghost use Rattle.std.specs.Int.RustNames.{unsigned_abs};
ghost use Rattle.t1_frac.specs.Fraction.{gcd as gcd_of, lowest, over};

use t1_frac::Frac;

/// The greatest common divisor, by Euclid's algorithm.
fn gcd(a: u128, b: u128) -> u128
    ensures { result ≡ gcd_of a b }
{
    let mut x = a;
    let mut y = b;
    while y != 0 {
        let rest = x % y;
        x = y;
        y = rest;
    }
    x
}

/// A numerator times a denominator.
fn scaled(num: i64, den: u64) -> i128
    requires { den ≤ 2 ^ 31 }
    ensures value { result ≡ num *ℤ pos den }
    ensures size { unsigned_abs result ≤ 2 ^ 94 }
{
    i128::from(num) * i128::from(den)
}

/// A denominator times the size of a numerator.
fn scaled_size(den: u64, num: i64) -> u128
    requires { den ≤ 2 ^ 31 }
    ensures value { result ≡ den * unsigned_abs num }
    ensures size { result ≤ 2 ^ 94 }
{
    u128::from(den) * u128::from(num.unsigned_abs())
}

/// The quotient's numerator and denominator, not in lowest terms.
fn long_terms(dividend: &Frac, divisor: &Frac) -> (i128, u128)
    requires { unsigned_abs divisor.now.num ≢ 0 }
    ensures quotient { record { num = result.0; den = result.1 } ≡ over dividend.now divisor.now }
    ensures den_above { 0 < result.1 }
    ensures den_below { result.1 ≤ 2 ^ 94 }
{
    let num = scaled(dividend.num(), divisor.den().unsigned_abs());
    let den = scaled_size(dividend.den().unsigned_abs(), divisor.num());
    if divisor.num() < 0 {
        (-num, den)
    } else {
        (num, den)
    }
}

/// A numerator and a denominator over their greatest common divisor.
#[tactic(auto, using(t1_frac::proofs::Divisors::gcd_above, t1_frac::proofs::Divisors::gcd_below), unfolding(t1_frac::specs::Fraction::lowest))]
fn in_lowest_terms(num: i128, den: u128) -> (i128, u128)
    requires den_above { 0 < den }
    requires den_below { den ≤ 2 ^ 94 }
    ensures { record { num = result.0; den = result.1 } ≡ lowest (record { num = num; den = den }) }
{
    let divisor = gcd(num.unsigned_abs(), den);
    (num / divisor as i128, den / divisor)
}

/// The quotient's numerator and denominator, in lowest terms.
pub fn quotient_terms(dividend: &Frac, divisor: &Frac) -> (i128, u128)
    requires { unsigned_abs divisor.now.num ≢ 0 }
    ensures { record { num = result.0; den = result.1 } ≡ lowest (over dividend.now divisor.now) }
{
    let (num, den) = long_terms(dividend, divisor);
    in_lowest_terms(num, den)
}
