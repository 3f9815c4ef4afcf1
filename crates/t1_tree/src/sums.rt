//! What elements are summed by.

ghost use Rattle.std.specs.Prelude.{◌≡◌, true, IfOk};

use std::alloc::{AllocError, Global};

/// What is added up, in any grouping. Its laws are over all numbers, so a field of a sum stops at
/// the highest number, or is a maximum, or the first of two: it doesn't overflow. Who reads a count
/// shows that it didn't stop.
pub trait Sum: Copy + Drop {
    ghost none: { Self };

    ghost plus: { Self → Self → Self };

    /// The sum of nothing.
    fn zero() -> Self
        ensures { result ≡ none };

    /// Both together.
    fn add(self, other: Self) -> Self
        ensures { result ≡ plus self other };

    /// Whether both are the same. Where it answers `false`, sums are added up anew.
    fn is_same(&self, other: &Self) -> bool
        ensures { result ≡ true → self.now ≡ other.now };

    ghost grouping: { (a b c : Self) → plus (plus a b) c ≡ plus a (plus b c) };

    ghost none_after_none: { plus none none ≡ none };

    ghost none_after: { (a b : Self) → plus (plus a b) none ≡ plus a b };
}

/// What stands in a list with sums.
pub trait Element: Drop {
    type Sum: Sum;

    ghost sum_of: { Self → Self.Sum };

    /// How many elements stand in a leaf, and how many trees below a node, before it is cut in two:
    /// 16 where an element takes some tens of bytes.
    const FULL: usize;

    /// What it adds to the sum.
    fn sum(&self) -> Self::Sum
        ensures { result ≡ sum_of self.now };

    /// A copy.
    fn copied(&self, alloc: Global) -> Result<Self, AllocError>
        ensures { IfOk result (λ copy. copy ≡ self.now) };
}
