//! The results that othersubrs leave for pop.

ghost use Rattle.std.specs.Prelude.{◌≡◌, [], ◌∷◌, ◌<◌, length, IsNone, IfSome};

use std::marker::Model;
use t1_frac::Frac;

/// What pop takes, two values at most. The next one stands last in the array.
#[derive(Drop)]
pub struct Results {
    values: [Frac; 2],
    len: usize,
}

impl Model for Results {
    ghost use Rattle.std.specs.Prelude.{List, take, reverse, ◌≤◌};
    ghost use Rattle.t1_frac.specs.Fraction.{Fraction};

    ghost Value = { List Fraction };

    ghost view = { λ r. reverse (take r.len r.values) };

    ghost invariant = { λ r. r.len ≤ 2 };
}

impl Results {
    pub fn new() -> Results
        ensures { result ≡ [] }
    {
        Results {
            values: [Frac::whole(0); 2],
            len: 0,
        }
    }

    pub fn clear(&mut self)
        ensures { self.new ≡ [] }
    {
        self.len = 0;
    }

    /// Puts a value in front of the others.
    pub fn push(&mut self, value: Frac)
        requires { length self.old < 2 }
        ensures { self.new ≡ value ∷ self.old }
    {
        self.values[self.len] = value;
        self.len += 1;
    }

    /// Takes the next value.
    pub fn pop(&mut self) -> Option<Frac>
        ensures none { IsNone result → self.old ≡ [] }
        ensures some { IfSome result (λ value. self.old ≡ value ∷ self.new) }
    {
        if self.len == 0 {
            return None;
        }
        self.len -= 1;
        Some(self.values[self.len])
    }
}
