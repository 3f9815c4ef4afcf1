//! The word of a body that is told of, with its number.
ghost use Rattle.std.specs.Prelude.{◌≡◌, ◌∷◌, ◌++◌, [], option_map, IfOk, OnOk};
ghost use Rattle.t1_frac.specs.Words.{words};
ghost use Rattle.t1_code.specs.Words.{command_of_word};
ghost use Rattle.t1_refusal.specs.Telling.{faulty_from, says, word_in_body, word_line};

use std::alloc::{AllocError, Global};
use t1_code::{Command, compile_onto};
use t1_frac::{Refusal, Words, next_word};
use t1_parts::{push_decimal, push_line};

/// Whether a word says a number or a command. The commands are memory for its command.
fn says(commands: &mut Vec<Command>, word: &[u8]) -> Result<bool, AllocError>
    requires { words word.now ≡ word.now ∷ [] }
    ensures { IfOk result (λ said. said ≡ says word.now) }
{
    commands.clear();
    match compile_onto(commands, &Words::of(word)) {
        Ok(()) => Ok(true),
        Err(Refusal::Fault(_fault)) => Ok(false),
        Err(Refusal::Memory) => Err(AllocError),
    }
}

/// The first word of a body that says no number and no command, with its number, from 1.
#[tactic(auto, using(crate::proofs::WordLaws::first_single))]
pub(crate) fn faulty_word(alloc: Global, body: &[u8]) -> Result<Option<(usize, &[u8])>, AllocError>
    ensures { IfOk result
        (λ found. option_map (λ w. (w.0, w.1.now)) found ≡ faulty_from 1 (words body.now)) }
{
    let mut commands = Vec::new(alloc);
    let mut number = 1;
    let mut rest = body;
    while let Some((word, after)) = next_word(rest) {
        if !says(&mut commands, word)? {
            return Ok(Some((number, word)));
        }
        number += 1;
        rest = after;
    }
    Ok(None)
}

/// The word of a body at a place among them, from 0, with its number, from 1.
pub(crate) fn word_at(body: &[u8], at: usize) -> Option<(usize, &[u8])>
    ensures { option_map (λ w. (w.0, w.1.now)) result ≡ word_in_body at (words body.now) }
{
    let mut left = at;
    let mut number = 1;
    let mut rest = body;
    while let Some((word, after)) = next_word(rest) {
        if left == 0 {
            return Some((number, word));
        }
        left -= 1;
        number += 1;
        rest = after;
    }
    None
}

/// Adds the line of a word, where there is one.
pub(crate) fn push_word(text: &mut Vec<u8>, found: Option<(usize, &[u8])>) -> Result<(), AllocError>
    ensures { OnOk result
        (text.new.items
        ≡ text.old.items ++ word_line (option_map (λ w. (w.0, w.1.now)) found.entry)) }
{
    let Some((number, word)) = found else {
        return Ok(());
    };
    text.extend_from_slice(b"word ")?;
    push_decimal(text, number as u64)?;
    text.push(b' ')?;
    push_line(text, word)
}
