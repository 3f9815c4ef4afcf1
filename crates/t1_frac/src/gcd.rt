//! The greatest common divisor.

ghost use Rattle.std.specs.Prelude.{◌≡◌, true};
ghost use Rattle.t1_frac.specs.Fraction.{gcd as gcd_of};
ghost use Rattle.t1_frac.specs.SmallPrimes.{IsSmallPrime};

use crate::division::remainder;

/// The greatest common divisor, by Euclid's algorithm.
pub(crate) fn gcd(a: u128, b: u128) -> u128
    ensures { result ≡ gcd_of a b }
{
    let mut x = a;
    let mut y = b;
    while y != 0 {
        let rest = x % y;
        x = y;
        y = rest;
    }
    x
}

/// Whether it is one of the first primes. Between 0 and a prime no number has a divisor in common
/// with it but 1.
#[inline(always)]
fn is_small_prime(n: u64) -> bool
    ensures { result ≡ true → IsSmallPrime n }
{
    n == 2 || n == 3 || n == 5 || n == 7
}

/// The same in 64 bits. Few divisions are made: what has a divisor in common with 1 is not divided,
/// nor what is less than a small prime, as the denominators of most fractions are.
#[tactic(auto, using(crate::proofs::Exact::gcd_one))]
#[inline(always)]
pub(crate) fn gcd_64(a: u64, b: u64) -> u64
    ensures { result ≡ gcd_of a b }
{
    let mut x = a;
    let mut y = b;
    while y > 1 {
        let rest = remainder(x, y);
        if rest > 0 && is_small_prime(y) {
            return 1;
        }
        x = y;
        y = rest;
    }
    if y == 1 { 1 } else { x }
}
