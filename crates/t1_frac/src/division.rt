//! Division by the numbers that fonts divide by most. Each of them is known where this is compiled,
//! so that it takes a product and shifts: a division takes as long as some twenty additions.

ghost use Rattle.std.specs.Prelude.{◌≡◌, ◌<◌, ◌^◌, ◌/◌, ◌%◌, pos};
ghost use Rattle.std.specs.Int.{int_div_euclid};
ghost use Rattle.std.specs.Int.RustNames.{int_div};

/// What a number leaves over.
#[inline(always)]
pub(crate) fn remainder(number: u64, divisor: u64) -> u64
    requires { 0 < divisor }
    ensures { result ≡ number % divisor }
{
    match divisor {
        2 => number % 2,
        3 => number % 3,
        5 => number % 5,
        7 => number % 7,
        10 => number % 10,
        100 => number % 100,
        _ => number % divisor,
    }
}

/// How often a number has another in it.
#[inline(always)]
pub(crate) fn quotient(number: u64, divisor: u64) -> u64
    requires { 0 < divisor }
    ensures { result ≡ number / divisor }
{
    match divisor {
        2 => number / 2,
        3 => number / 3,
        5 => number / 5,
        7 => number / 7,
        10 => number / 10,
        100 => number / 100,
        _ => number / divisor,
    }
}

/// The same of a number with a sign, toward 0.
#[inline(always)]
pub(crate) fn signed_quotient(number: i64, divisor: u64) -> i64
    requires above { 0 < divisor }
    requires below { divisor < 2 ^ 63 }
    ensures { result ≡ int_div number (pos divisor) }
{
    match divisor {
        2 => number / 2,
        3 => number / 3,
        5 => number / 5,
        7 => number / 7,
        10 => number / 10,
        100 => number / 100,
        _ => number / divisor as i64,
    }
}

/// The greatest whole number that isn't above a quotient.
#[inline(always)]
pub(crate) fn floor_quotient(number: i64, divisor: u64) -> i64
    requires above { 0 < divisor }
    requires below { divisor < 2 ^ 63 }
    ensures { result ≡ int_div_euclid number (pos divisor) }
{
    match divisor {
        2 => number.div_euclid(2),
        3 => number.div_euclid(3),
        4 => number.div_euclid(4),
        5 => number.div_euclid(5),
        10 => number.div_euclid(10),
        100 => number.div_euclid(100),
        _ => number.div_euclid(divisor as i64),
    }
}
