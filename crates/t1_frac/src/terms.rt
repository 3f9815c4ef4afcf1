//! Lowest terms over denominators that are products of the first primes, as those of fonts are: no
//! division is made but by these primes, each of which is known where this is compiled.

ghost use Rattle.std.specs.Prelude.{◌≡◌, ℕ, ◌*◌, ◌%◌, ◌<◌, ◌≤◌, ◌^◌, pos, IfSome};
ghost use Rattle.std.specs.Int.{IsGcd};
ghost use Rattle.std.specs.Int.RustNames.{unsigned_abs};
ghost use Rattle.t1_frac.specs.Fraction.{lowest, signed_like};
ghost use Rattle.t1_frac.specs.SmallPrimes.{IsSmallPrime};

/// A numerator without its sign, and its denominator, in two factors: one that has no divisor in
/// common with the numerator, and the rest of it, of which nothing is known.
#[derive(Clone, Copy)]
struct Terms {
    num: u64,
    coprime: u64,
    rest: u64,
    ghost num_below: { num < 2 ^ 63 },
    ghost coprime_above: { 0 < coprime },
    ghost rest_above: { 0 < rest },
    ghost apart: { IsGcd num coprime 1 },
    ghost den_below: { coprime * rest < 2 ^ 63 },
}

impl Terms {
    /// Those of a numerator and a denominator of which nothing is known.
    fn of(num: u64, den: u64) -> Terms
        requires num { num < 2 ^ 63 }
        requires above { 0 < den }
        requires below { den < 2 ^ 63 }
        ensures same { result.num * den ≡ num * (result.coprime * result.rest) }
        ensures finest { result.coprime * result.rest ≤ den }
    {
        Terms {
            num,
            coprime: 1,
            rest: den,
        }
    }

    /// The rest without a prime that divides it: the numerator is divided too where it can be, and
    /// else has nothing in common with the prime.
    #[inline(always)]
    fn after_one(&self, prime: u64) -> Terms
        requires prime { IsSmallPrime prime }
        requires divided { self.now.rest % prime ≡ 0 }
        ensures same { (n d : ℕ)
            → self.now.num * d ≡ n * (self.now.coprime * self.now.rest)
            → result.num * d ≡ n * (result.coprime * result.rest) }
        ensures finest { result.coprime * result.rest ≤ self.now.coprime * self.now.rest }
        ensures less { result.rest < self.now.rest }
    {
        let rest = self.rest / prime;
        if self.num % prime == 0 {
            return Terms {
                num: self.num / prime,
                coprime: self.coprime,
                rest,
            };
        }
        Terms {
            num: self.num,
            coprime: self.coprime * prime,
            rest,
        }
    }

    /// The rest without all powers of a prime.
    #[inline(always)]
    fn without(&self, prime: u64) -> Terms
        requires prime { IsSmallPrime prime }
        ensures same { (n d : ℕ)
            → self.now.num * d ≡ n * (self.now.coprime * self.now.rest)
            → result.num * d ≡ n * (result.coprime * result.rest) }
        ensures finest { result.coprime * result.rest ≤ self.now.coprime * self.now.rest }
    {
        let mut terms = *self;
        while terms.rest % prime == 0 {
            terms = terms.after_one(prime);
        }
        terms
    }
}

/// A size with the sign of a number.
#[inline(always)]
fn signed(size: u64, number: i64) -> i64
    requires { size < 2 ^ 63 }
    ensures { result ≡ signed_like number (pos size) }
{
    if number < 0 {
        return -(size as i64);
    }
    size as i64
}

/// The lowest terms where the denominator is a product of the first primes.
#[inline(always)]
pub(crate) fn over_small_primes(num: i64, den: u64) -> Option<(i64, u64)>
    requires num { unsigned_abs num < 2 ^ 63 }
    requires den_above { 0 < den }
    requires den_below { den < 2 ^ 63 }
    ensures lowest { IfSome result
        (λ terms.
        record { num = terms.0; den = terms.1 } ≡ lowest (record { num = num; den = den })) }
    ensures above { IfSome result (λ terms. 0 < terms.1) }
    ensures below { IfSome result (λ terms. terms.1 ≤ den) }
{
    let terms = Terms::of(num.unsigned_abs(), den)
        .without(2)
        .without(5)
        .without(3)
        .without(7);
    if terms.rest != 1 {
        return None;
    }
    Some((signed(terms.num, num), terms.coprime))
}
