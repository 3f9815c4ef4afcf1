//! Entries that are summed.

ghost use Rattle.std.specs.Prelude.{◌≡◌, true, refl, IfOk};
ghost use Rattle.t1_test_tree.specs.Totals.{both, first_kind, none, of_parts, grouping, none_after};

use std::alloc::{AllocError, Global};
use t1_tree::{Element, Sum};

/// An entry with a number, some bytes, and a kind, where it isn't 0.
#[derive(Drop)]
pub struct Entry {
    pub number: u64,
    pub bytes: u64,
    pub kind: u8,
}

/// What entries are summed by: their count and bytes, which stop at the highest number, the highest
/// of their numbers, and the kind of the first that has one.
#[derive(Clone, Copy, Drop)]
pub struct Totals {
    pub count: u64,
    pub bytes: u64,
    pub highest: u64,
    pub kind: u8,
}

/// The first of two kinds that isn't 0.
fn first_of(kind: u8, next: u8) -> u8
    ensures { result ≡ first_kind kind next }
{
    if kind == 0 { next } else { kind }
}

impl Sum for Totals {
    ghost none = { none };

    ghost plus = { both };

    fn zero() -> Totals {
        Totals {
            count: 0,
            bytes: 0,
            highest: 0,
            kind: 0,
        }
    }

    fn add(self, other: Totals) -> Totals {
        Totals {
            count: self.count.saturating_add(other.count),
            bytes: self.bytes.saturating_add(other.bytes),
            highest: self.highest.max(other.highest),
            kind: first_of(self.kind, other.kind),
        }
    }

    fn is_same(&self, other: &Totals) -> bool {
        self.count == other.count
            && self.bytes == other.bytes
            && self.highest == other.highest
            && self.kind == other.kind
    }

    ghost grouping = { grouping };

    ghost none_after_none = { refl };

    ghost none_after = { none_after };
}

impl Element for Entry {
    type Sum = Totals;

    ghost sum_of = { λ entry. of_parts 1 entry.bytes entry.number entry.kind };

    const FULL: usize = 3;

    fn sum(&self) -> Totals {
        Totals {
            count: 1,
            bytes: self.bytes,
            highest: self.number,
            kind: self.kind,
        }
    }

    fn copied(&self, _alloc: Global) -> Result<Entry, AllocError> {
        Ok(Entry {
            number: self.number,
            bytes: self.bytes,
            kind: self.kind,
        })
    }
}

/// A number that stands among seven others or less in a leaf.
#[derive(Drop)]
pub struct Number {
    pub number: u64,
}

impl Element for Number {
    type Sum = Totals;

    ghost sum_of = { λ number. of_parts 1 0 number.number 0 };

    const FULL: usize = 8;

    fn sum(&self) -> Totals {
        Totals {
            count: 1,
            bytes: 0,
            highest: self.number,
            kind: 0,
        }
    }

    fn copied(&self, _alloc: Global) -> Result<Number, AllocError> {
        Ok(Number {
            number: self.number,
        })
    }
}
