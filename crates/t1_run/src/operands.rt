//! The operand stack.

ghost use Rattle.std.specs.Prelude.{◌≡◌, [], ◌∷◌, ◌++◌, ◌+◌, ◌≤◌, ◌<◌, length, take, drop};
ghost use Rattle.t1_run.specs.Operands.{topmost};
ghost use Rattle.t1_run.specs.Pushing.{numbers_at_front};

use std::marker::Model;
use t1_code::Command;
use t1_frac::Frac;

/// The operand stack, the lowest value first.
#[derive(Drop)]
pub struct Operands {
    values: [Frac; 24],
    len: usize,
}

impl Model for Operands {
    ghost use Rattle.std.specs.Prelude.{List, take, ◌≤◌};
    ghost use Rattle.t1_frac.specs.Fraction.{Fraction};

    ghost Value = { List Fraction };

    ghost view = { λ o. take o.len o.values };

    ghost invariant = { λ o. o.len ≤ 24 };
}

/// Stores the numbers at the front of some commands from a place on, at most so many: how many they
/// are, and the commands after them.
#[inline(always)]
fn store_numbers<'a>(
    values: &mut [Frac; 24],
    place: usize,
    commands: &'a [Command],
    most: usize,
) -> (usize, &'a [Command])
    requires { place + most ≤ 24 }
    ensures few { result.0 ≤ most }
    ensures count { result.0 ≡ length (numbers_at_front most commands.now) }
    ensures rest { result.1.now ≡ drop result.0 commands.now }
    ensures stored { take (place + result.0) values.new
        ≡ take place values.old ++ numbers_at_front most commands.now }
{
    let mut count = 0;
    let mut rest = commands;
    while count < most {
        let Some((command, tail)) = rest.split_first() else {
            return (count, rest);
        };
        let Command::Num(number) = command else {
            return (count, rest);
        };
        values[place + count] = Frac::whole(*number);
        count += 1;
        rest = tail;
    }
    (count, rest)
}

impl Operands {
    pub fn new() -> Operands
        ensures { result ≡ [] }
    {
        Operands {
            values: [Frac::whole(0); 24],
            len: 0,
        }
    }

    #[inline(always)]
    pub fn as_slice(&self) -> &[Frac]
        ensures value { result.now ≡ self.now }
        ensures bound { length self.now ≤ 24 }
    {
        &self.values[..self.len]
    }

    /// The topmost value.
    #[inline(always)]
    pub fn top(&self) -> Frac
        requires { 1 ≤ length self.now }
        ensures { topmost 1 self.now ≡ result ∷ [] }
    {
        self.values[self.len - 1]
    }

    /// The two topmost values, the lower one first.
    #[inline(always)]
    pub fn top_two(&self) -> (Frac, Frac)
        requires { 2 ≤ length self.now }
        ensures { topmost 2 self.now ≡ result.0 ∷ result.1 ∷ [] }
    {
        (self.values[self.len - 2], self.values[self.len - 1])
    }

    /// So many topmost values, the lowest first.
    #[inline(always)]
    pub fn topmost<const N: usize>(&self) -> [Frac; N]
        requires { N ≤ length self.now }
        ensures { topmost N self.now ≡ result }
    {
        let Some(values) = self.as_slice().last_chunk::<N>() else {
            unreachable!()
        };
        *values
    }

    #[inline(always)]
    pub fn push(&mut self, value: Frac)
        requires { length self.old < 24 }
        ensures { self.new ≡ self.old ++ value ∷ [] }
    {
        self.values[self.len] = value;
        self.len += 1;
    }

    /// Pushes the numbers at the front of some commands, at most so many: how many they are, and
    /// the commands after them.
    #[inline(always)]
    pub fn push_numbers<'a>(
        &mut self,
        commands: &'a [Command],
        most: usize,
    ) -> (usize, &'a [Command])
        requires { length self.old + most ≤ 24 }
        ensures pushed { self.new ≡ self.old ++ numbers_at_front most commands.now }
        ensures count { result.0 ≡ length (numbers_at_front most commands.now) }
        ensures few { result.0 ≤ most }
        ensures rest { result.1.now ≡ drop result.0 commands.now }
    {
        let (count, rest) = store_numbers(&mut self.values, self.len, commands, most);
        self.len += count;
        (count, rest)
    }

    /// Keeps the lowest values alone.
    #[inline(always)]
    pub fn truncate(&mut self, len: usize)
        requires { len ≤ length self.old }
        ensures { self.new ≡ take len self.old }
    {
        self.len = len;
    }

    #[inline(always)]
    pub fn clear(&mut self)
        ensures { self.new ≡ [] }
    {
        self.len = 0;
    }
}
