//! The bodies of Subrs, one after another in one vector.
ghost use Rattle.std.specs.Prelude.{◌≡◌, ◌==◌, ℕ, None, OnOk, if◌then◌else◌, take, length};
ghost use Rattle.std.specs.Option.{option_copied, option_or};
ghost use Rattle.std.specs.Result.{result_ok};
ghost use Rattle.t1_frac.specs.Outcome.{Gives, reported_at};
ghost use Rattle.t1_frac.specs.declared.fault.Place.TheVariants as places;
ghost use Rattle.t1_code.specs.Words.{commands};
ghost use Rattle.t1_code.specs.FoundCommands.{after_others};
ghost use Rattle.t1_font.specs.Bodies.{words_check};
ghost use Rattle.t1_font.specs.StoredSubrs.{subr_stored};

use crate::compiler::Compiler;
use indexmap::IndexMap;
use std::alloc::Global;
use std::marker::Model;
use t1_code::Command;
use t1_frac::{Refusal, Words};

/// Where a body stands among the commands of all.
#[derive(Clone, Copy)]
pub(crate) struct BodyRange {
    pub(crate) start: usize,
    pub(crate) end: usize,
}

/// The compiled bodies of Subrs. Contracts see the commands of all of them, and where the body of
/// each number stands among these.
#[derive(Drop)]
pub(crate) struct SubrBodies {
    all: Vec<Command>,
    ranges: IndexMap<u16, BodyRange>,
}

impl Model for SubrBodies {
    ghost use Rattle.std.specs.Prelude.{length};
    ghost use Rattle.t1_font.specs.StoredSubrs.{StoredSubrs, AreRangesWithin};

    ghost Value = { StoredSubrs };

    ghost view = { λ s. record { all = s.all.items; ranges = s.ranges.entries } };

    ghost invariant = { λ s. AreRangesWithin (length s.all.items) s.ranges.entries };
}

/// Adds the commands of a Subr's words to others, or answers their fault with the Subr's number.
fn compile_subr<C: Compiler>(
    compiler: &mut C,
    others: &mut Vec<Command>,
    number: u16,
    words: &Words,
) -> Result<(), Refusal>
    ensures value { Gives (λ _. others.new.items) result
        (reported_at (places.Subr number)
        (after_others others.old.items (commands words.now))) }
    ensures front { take (length others.old.items) others.new.items ≡ others.old.items }
{
    match compiler.compile_next(others, words) {
        Err(refusal) => Err(refusal.at_subr(number)),
        compiled => compiled,
    }
}

impl SubrBodies {
    /// No bodies.
    pub(crate) fn new(alloc: Global) -> Self
        ensures { (n : ℕ) → subr_stored result n ≡ None }
    {
        SubrBodies {
            all: Vec::new(alloc),
            ranges: IndexMap::new(alloc),
        }
    }

    /// The body of the Subr of this number.
    pub(crate) fn get(&self, n: u16) -> Option<&[Command]>
        ensures { option_copied result ≡ subr_stored self.now n }
    {
        match self.ranges.get(&n) {
            None => None,
            Some(range) => Some(&self.all[range.start..range.end]),
        }
    }

    /// Adds the body of a Subr, where there is none of its number.
    #[tactic(auto, unfolding(crate::specs::Bodies::words_check))]
    pub(crate) fn add<C: Compiler>(
        &mut self,
        compiler: &mut C,
        number: u16,
        words: &Words,
    ) -> Result<(), Refusal>
        ensures checked { Gives (λ x. x) result (words_check (places.Subr number) words.now) }
        ensures added { OnOk result
            ((n : ℕ)
            → subr_stored self.new n
            ≡ option_or (subr_stored self.old n)
            (if n == number then result_ok (commands words.now) else None)) }
    {
        let start = self.all.len();
        compile_subr(compiler, &mut self.all, number, words)?;
        if self.ranges.contains_key(&number) {
            return Ok(());
        }
        let end = self.all.len();
        self.ranges.insert(number, BodyRange { start, end })?;
        Ok(())
    }
}
