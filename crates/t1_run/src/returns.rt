//! The return stack.

ghost use Rattle.std.specs.Prelude.{◌≡◌, [], ◌∷◌, ◌≤◌, ◌<◌, length, IfSome, IsNone, IsTrue, ◌↔◌};

use std::marker::Model;
use t1_code::Command;

/// What is left of each body that waits for a Subr, ten at most.
#[derive(Drop)]
pub struct ReturnStack<'a> {
    rests: [&'a [Command]; 10],
    len: usize,
}

impl<'a> Model for ReturnStack<'a> {
    ghost use Rattle.std.specs.Prelude.{List, ◌≤◌};
    ghost use Rattle.t1_code.specs.declared.command.Command.{Command};
    ghost use Rattle.t1_run.specs.Machine.{waiting};

    ghost Value = { List (List Command) };

    ghost view = { λ s. waiting s.len s.rests };

    ghost invariant = { λ s. s.len ≤ 10 };
}

impl<'a> ReturnStack<'a> {
    pub fn new() -> ReturnStack<'a>
        ensures { result ≡ [] }
    {
        ReturnStack {
            rests: [&[]; 10],
            len: 0,
        }
    }

    pub fn is_full(&self) -> bool
        ensures full { IsTrue result ↔ (10 ≤ length self.now) }
        ensures bound { length self.now ≤ 10 }
    {
        self.len >= 10
    }

    pub fn push(&mut self, rest: &'a [Command])
        requires { length self.old < 10 }
        ensures { self.new ≡ rest.now ∷ self.old }
    {
        self.rests[self.len] = rest;
        self.len += 1;
    }

    /// Takes the innermost rest.
    pub fn pop(&mut self) -> Option<&'a [Command]>
        ensures none { IsNone result → self.old ≡ [] }
        ensures some { IfSome result (λ rest. self.old ≡ rest.now ∷ self.new) }
    {
        if self.len == 0 {
            return None;
        }
        self.len -= 1;
        Some(self.rests[self.len])
    }
}
