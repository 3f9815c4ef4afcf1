//! The bodies of a font's source, compiled by the charstrings of which they were made.
ghost use Rattle.std.specs.Prelude.{◌≡◌, ◌+◌, ◌-◌, ◌^◌, min, take, length, IfOk};
ghost use Rattle.t1_frac.specs.Outcome.{Gives, reported_at};
ghost use Rattle.t1_frac.specs.declared.fault.Place.TheVariants.{Nowhere};
ghost use Rattle.t1_code.specs.Words.{commands};
ghost use Rattle.t1_code.specs.FoundCommands.{after_others};

use crate::coded_text::CodedText;
use crate::known_command::{KnownCommand, known_commands, push_commands};
use std::alloc::{AllocError, Global};
use std::marker::Model;
use t1_code::{Command, compile_onto};
use t1_frac::{Refusal, Words};

/// Compiles the bodies of a font's source one after another, in the order of the font's
/// charstrings. Contracts see the source, and how many bodies were compiled.
#[derive(Drop)]
pub struct CodedBodies<'a> {
    text: &'a CodedText,
    known: Vec<KnownCommand>,
    turn: usize,
}

impl<'a> Model for CodedBodies<'a> {
    ghost use Rattle.std.specs.Prelude.{List, ℕ};

    ghost Value = { List ℕ × ℕ };

    ghost view = { λ bodies. (bodies.text.now, bodies.turn) };
}

impl<'a> CodedBodies<'a> {
    /// Those of this source, of which none was compiled.
    pub fn of(alloc: Global, text: &'a CodedText) -> Result<CodedBodies<'a>, AllocError>
        ensures { IfOk result (λ bodies. bodies ≡ (text.now, 0)) }
    {
        Ok(CodedBodies {
            text,
            known: known_commands(alloc)?,
            turn: 0,
        })
    }

    /// Adds the commands of a body's words to others, or answers their fault, as `compile_onto` of
    /// `t1_code` does. Where they are the words of the charstring whose turn it is they aren't
    /// read.
    pub fn compile_next(&mut self, others: &mut Vec<Command>, words: &Words) -> Result<(), Refusal>
        ensures value { Gives (λ _. others.new.items) result
            (reported_at Nowhere (after_others others.old.items (commands words.now))) }
        ensures front { take (length others.old.items) others.new.items ≡ others.old.items }
        ensures source { self.new.0 ≡ self.old.0 }
        ensures turn { self.new.1 ≡ min (self.old.1 + 1) (2 ^ 64 - 1) }
    {
        let turn = self.turn;
        self.turn = turn.saturating_add(1);
        let len = others.len();
        if let Some(code) = self.text.code_of(turn, words) {
            if push_commands(&self.known, others, code)? {
                return Ok(());
            }
            others.truncate(len);
        }
        compile_onto(others, words)
    }
}
