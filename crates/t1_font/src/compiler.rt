//! What compiles the bodies of a source, one after another.

use t1_code::{Command, compile_onto};
use t1_frac::{Refusal, Words};

/// Compiles bodies in the order in which a source has them. What it knows of them may spare it to
/// read their words; it answers as `compile_onto` does all the same.
pub trait Compiler {
    ghost use Rattle.std.specs.Prelude.{◌≡◌, take, length};
    ghost use Rattle.t1_frac.specs.Outcome.{Gives, reported_at};
    ghost use Rattle.t1_frac.specs.declared.fault.Place.TheVariants.{Nowhere};
    ghost use Rattle.t1_code.specs.Words.{commands};
    ghost use Rattle.t1_code.specs.FoundCommands.{after_others};

    /// Adds the commands of the next body's words to others, or answers their fault.
    fn compile_next(&mut self, others: &mut Vec<Command>, words: &Words) -> Result<(), Refusal>
        ensures value { Gives (λ _. others.new.items) result
            (reported_at Nowhere (after_others others.old.items (commands words.now))) }
        ensures front { take (length others.old.items) others.new.items ≡ others.old.items };
}

/// Reads the words of each body.
#[derive(Clone, Copy, Debug)]
pub struct WordsCompiler;

impl Compiler for WordsCompiler {
    fn compile_next(&mut self, others: &mut Vec<Command>, words: &Words) -> Result<(), Refusal> {
        compile_onto(others, words)
    }
}
