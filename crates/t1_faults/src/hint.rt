//! The command that a word most likely means.

ghost use Rattle.std.specs.Prelude.{◌≡◌, map, nat_le, option_map, IfOk};
ghost use Rattle.std.specs.Char.{is_ascii_alphabetic};
ghost use Rattle.std.specs.List.{list_all};
ghost use Rattle.std.specs.Map.{lookup};
ghost use Rattle.std.specs.Str.{bytes_eq};
ghost use Rattle.t1_faults.specs.Hints.{command_words as words_of, edits, first_within as first_of};
ghost use Rattle.t1_faults.specs.Hints.{hint_of as hint_of_word, may_mean as may_mean_any};
ghost use Rattle.t1_faults.specs.Hints.{postscript_words};

use std::alloc::{AllocError, Global};
use strsim::generic_levenshtein;

/// The words of the commands, by their codes.
const COMMANDS: [&str; 25] = [
    "hstem",
    "vstem",
    "vmoveto",
    "rlineto",
    "hlineto",
    "vlineto",
    "rrcurveto",
    "closepath",
    "callsubr",
    "return",
    "dotsection",
    "vstem3",
    "hstem3",
    "seac",
    "sbw",
    "div",
    "callothersubr",
    "pop",
    "setcurrentpoint",
    "hsbw",
    "endchar",
    "rmoveto",
    "hmoveto",
    "vhcurveto",
    "hvcurveto",
];

/// The most letters of a word that means a command: two more than the longest command has.
const MAX_LETTERS: usize = 17;

/// The words of the commands, by their codes.
#[tactic(auto, unfolding(crate::specs::Hints::command_words, t1_code::specs::Words::operator_words))]
fn command_words() -> &'static [&'static str]
    ensures { map (λ word. word.now) result.now ≡ words_of }
{
    &COMMANDS
}

/// The command for an operator of PostScript.
#[tactic(auto, unfolding(crate::specs::Hints::postscript_words))]
fn for_postscript(word: &[u8]) -> Option<&'static str>
    ensures { option_map (λ name. name.now) result ≡ lookup (bytes_eq word.now) postscript_words }
{
    if word == b"moveto".as_slice() {
        return Some("rmoveto");
    }
    if word == b"lineto".as_slice() {
        return Some("rlineto");
    }
    if word == b"curveto".as_slice() {
        return Some("rrcurveto");
    }
    None
}

/// Whether a word is at most so many edits away from another.
fn is_within(alloc: Global, most: usize, word: &[u8], other: &[u8]) -> Result<bool, AllocError>
    ensures { IfOk result (λ near. near ≡ nat_le (edits word.now other.now) most) }
{
    let distance = generic_levenshtein(alloc, word, other)?;
    Ok(distance <= most)
}

/// The first of some words that is at most so many edits away.
fn first_within(
    alloc: Global,
    most: usize,
    word: &[u8],
    others: &[&'static str],
) -> Result<Option<&'static str>, AllocError>
    ensures { IfOk result (λ found.
        option_map (λ name. name.now) found
        ≡ first_of most word.now (map (λ name. name.now) others.now)) }
{
    for other in others {
        if is_within(alloc, most, word, other.as_bytes())? {
            return Ok(Some(other));
        }
    }
    Ok(None)
}

/// Whether a word has letters alone.
fn are_letters(word: &[u8]) -> bool
    ensures { result ≡ list_all is_ascii_alphabetic word.now }
{
    word.iter().all(|byte| byte.is_ascii_alphabetic())
}

/// Whether a word may mean a command.
fn may_mean(word: &[u8]) -> bool
    ensures { result ≡ may_mean_any word.now }
{
    word.len() <= MAX_LETTERS && are_letters(word)
}

/// The command that a word most likely means, which is none itself: of an operator of PostScript
/// the one in its place, else the first, by their codes, that is one edit away (a byte more, less
/// or another), else two edits.
#[tactic(auto, unfolding(crate::specs::Hints::hint_of))]
pub fn hint_of(alloc: Global, word: &[u8]) -> Result<Option<&'static str>, AllocError>
    ensures { IfOk result (λ hint. option_map (λ name. name.now) hint ≡ hint_of_word word.now) }
{
    if !may_mean(word) {
        return Ok(None);
    }
    if let Some(command) = for_postscript(word) {
        return Ok(Some(command));
    }
    let commands = command_words();
    if let Some(command) = first_within(alloc, 1, word, commands)? {
        return Ok(Some(command));
    }
    first_within(alloc, 2, word, commands)
}
