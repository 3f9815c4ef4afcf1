//! The words of a body: read as commands, and put straight into a charstring.
ghost use Rattle.std.specs.Prelude.{◌≡◌, ◌<◌, ◌≤◌, [], Ok, false, nat_lt, ◌∷◌, ◌++◌, length, take};
ghost use Rattle.std.specs.Prelude.{IfSome, MatchOption, OnOk, OnErr};
ghost use Rattle.t1_frac.specs.Outcome.{Gives, reported_at};
ghost use Rattle.t1_frac.specs.Words.{trimmed_front, words};
ghost use Rattle.t1_frac.specs.declared.fault.Place.TheVariants.{Nowhere};
ghost use Rattle.t1_frac.specs.declared.fault.Place.TheVariants as places;
ghost use Rattle.t1_code.specs.Words.{number_command, in_32_bits, command_of_word, command_then};
ghost use Rattle.t1_code.specs.Words.{commands_of_words, commands};
ghost use Rattle.t1_code.specs.FoundCommands.{first_word, after_others};
ghost use Rattle.t1_frac.specs.Numbers.{signed, is_number_word};
ghost use Rattle.t1_code.specs.Charstring.{charstring_of_words};
ghost use Rattle.t1_code.specs.Appending.{charstring_onto, onto};
ghost use Rattle.t1_code.specs.Cipher.{encrypted_words};
ghost use Rattle.t1_code.specs.declared.command.Command.TheVariants as commands_named;

use crate::body::Body;
use crate::charstring::{CHARSTRING_KEY, Cipher, push_command};
use crate::command::{Command, after_word, frequent, past_end};
use std::alloc::{AllocError, Global};
use t1_frac::{
    Code, Refusal, Words, digits_of_word, leading_number, leading_short_number, next_word,
    skip_blanks,
};

/// The most words of a body.
const MAX_WORDS: usize = 65_535;

/// The command of a number of this size.
fn number_command(minus: bool, size: u64) -> Result<Command, Code>
    ensures { result ≡ number_command (in_32_bits (signed minus size)) }
{
    if size < 1 << 31 {
        let number = size as i32;
        return Ok(Command::Num(if minus { -number } else { number }));
    }
    if minus && size == 1 << 31 {
        return Ok(Command::Num(i32::MIN));
    }
    Err(Code::F21)
}

/// A text without the blanks at its front.
#[inline(always)]
fn from_word(text: &[u8]) -> &[u8]
    ensures trimmed { result.now ≡ trimmed_front result.now }
    ensures same { words result.now ≡ words text.now }
    ensures shorter { length result.now ≤ length text.now }
{
    skip_blanks(text)
}

/// The number word that a text begins with, whatever its digits, as a command, and the bytes after
/// it; nothing where the text begins with another word or with none.
#[inline(never)]
fn first_number(text: &[u8]) -> Option<(Result<Command, Code>, &[u8])>
    ensures shorter { IfSome result (λ found. length found.1.now < length text.now) }
    ensures value { MatchOption result (is_number_word (first_word text.now) ≡ false)
        (λ found.
        commands_of_words (words text.now)
        ≡ command_then found.0 (commands_of_words (words found.1.now))) }
{
    let digits = digits_of_word(text);
    let (size, count) = leading_number(digits);
    let after = digits.split_at(count).1;
    if count == 0 {
        return None;
    }
    let Some(after) = past_end(after) else {
        return None;
    };
    Some((number_command(digits.len() < text.len(), size), after))
}

/// The command of a number of this size, which is short.
#[inline(always)]
fn short_number_command(minus: bool, size: u32) -> Command
    requires { size < 10000 }
    ensures { Ok result ≡ number_command (in_32_bits (signed minus size)) }
{
    let number = size as i32;
    Command::Num(if minus { -number } else { number })
}

/// The number word of up to four digits that a text begins with, as a command, and the bytes after
/// it. Most words are so. Nothing is said where it answers nothing: the number may be longer, or
/// the last word of the text.
#[inline(always)]
fn first_short_number(text: &[u8]) -> Option<(Command, &[u8])>
    ensures shorter { IfSome result (λ found. length found.1.now < length text.now) }
    ensures value { IfSome result
        (λ found.
        commands_of_words (words text.now)
        ≡ command_then (Ok found.0) (commands_of_words (words found.1.now))) }
{
    let digits = digits_of_word(text);
    let Some((size, count)) = leading_short_number(digits) else {
        return None;
    };
    let after = digits.split_at(count).1;
    if count == 0 {
        return None;
    }
    let Some(after) = past_end(after) else {
        return None;
    };
    let command = short_number_command(digits.len() < text.len(), size);
    Some((command, after))
}

/// The bytes after the first word of a text, where it is `div`. A font whose coordinates have
/// fractions has one for each of them.
#[inline(always)]
fn after_div(rest: &[u8]) -> Option<&[u8]>
    requires { rest.now ≡ trimmed_front rest.now }
    ensures { IfSome result
        (λ after.
        (commands_of_words (words rest.now)
        ≡ command_then (Ok commands_named.Div) (commands_of_words (words after.now)))
        × (length after.now < length rest.now)) }
{
    let Some(after) = after_word(b"div", rest) else {
        return None;
    };
    Some(after)
}

/// The command that a text begins with, where it is one that most fonts have many of, and the bytes
/// after its word.
#[inline(always)]
fn frequent_command(rest: &[u8]) -> Option<(Command, &[u8])>
    requires { rest.now ≡ trimmed_front rest.now }
    ensures { IfSome result
        (λ found.
        (commands_of_words (words rest.now)
        ≡ command_then (Ok found.0) (commands_of_words (words found.1.now)))
        × (length found.1.now < length rest.now)) }
{
    let Some((command, after)) = frequent(rest) else {
        return None;
    };
    Some((command, after))
}

/// What the first word of a text says, and the bytes after the word; nothing where the text has no
/// word. The text begins with no blank. It stands apart from what tells short numbers, which most
/// words are.
#[inline(never)]
fn first_command(rest: &[u8]) -> Option<(Result<Command, Code>, &[u8])>
    requires { rest.now ≡ trimmed_front rest.now }
    ensures shorter { IfSome result (λ found. length found.1.now < length rest.now) }
    ensures value { MatchOption result (words rest.now ≡ [])
        (λ found.
        commands_of_words (words rest.now)
        ≡ command_then found.0 (commands_of_words (words found.1.now))) }
{
    if let Some((command, after)) = Command::first(rest) {
        return Some((Ok(command), after));
    }
    if let Some((number, after)) = first_number(rest) {
        return Some((number, after));
    }
    let Some((_word, after)) = next_word(rest) else {
        return None;
    };
    Some((Err(Code::F20), after))
}

/// What the first word of a line says, and the bytes after the word; nothing where the line has no
/// word.
#[inline(always)]
pub(crate) fn next_command(line: &[u8]) -> Option<(Result<Command, Code>, &[u8])>
    ensures shorter { IfSome result (λ found. length found.1.now < length line.now) }
    ensures value { MatchOption result (words line.now ≡ [])
        (λ found.
        commands_of_words (words line.now)
        ≡ command_then found.0 (commands_of_words (words found.1.now))) }
{
    let rest = from_word(line);
    if let Some((command, after)) = first_short_number(rest) {
        return Some((Ok(command), after));
    }
    first_command(rest)
}

/// How many words a text has.
fn word_count(text: &[u8]) -> usize
    ensures { result ≡ length (words text.now) }
{
    let mut count = 0;
    let mut rest = text;
    while let Some((_word, after)) = next_word(rest) {
        count += 1;
        rest = after;
    }
    count
}

/// Whether a text has more words than a body may have.
#[tactic(auto, using(crate::proofs::Counting::words_within))]
pub(crate) fn is_too_long(text: &[u8]) -> bool
    ensures { result ≡ nat_lt 65535 (length (words text.now)) }
{
    text.len() > MAX_WORDS && word_count(text) > MAX_WORDS
}

/// Adds a command. More room is asked for only where none is left, so that the loop over words
/// makes no call for it.
#[inline(always)]
fn add(commands: &mut Vec<Command>, command: Command) -> Result<(), AllocError>
    ensures ok { OnOk result (commands.new.items ≡ commands.old.items ++ command ∷ []) }
    ensures err { OnErr result (commands.new.items ≡ commands.old.items) }
{
    if commands.len() == commands.capacity() {
        commands.reserve(1)?;
    }
    commands.push_reserved(command);
    Ok(())
}

/// Adds the commands of a text's words. At a fault and where memory runs out some of them may stand
/// there.
fn read_words(read: &mut Vec<Command>, text: &[u8]) -> Result<(), Refusal>
    ensures value { Gives (λ _. read.new.items) result
        (reported_at Nowhere
        (after_others read.old.items (commands_of_words (words text.now)))) }
    ensures front { take (length read.old.items) read.new.items ≡ read.old.items }
{
    let mut rest = from_word(text);
    'words: loop {
        if let Some((command, after)) = first_short_number(rest) {
            add(read, command)?;
            rest = after;
            continue;
        }
        let first = from_word(rest);
        if first.len() < rest.len() {
            rest = first;
            continue;
        }
        if let Some(after) = after_div(first) {
            add(read, Command::Div)?;
            rest = from_word(after);
            continue;
        }
        if let Some((command, after)) = frequent_command(first) {
            add(read, command)?;
            rest = from_word(after);
            continue;
        }
        let Some((command, after)) = first_command(first) else {
            return Ok(());
        };
        add(read, command?)?;
        rest = from_word(after);
    }
}

/// Adds the commands of a body's words to others: F22 past 65,535 words, then the first word's
/// fault that has one, F20 for an unknown word and F21 for a number that doesn't fit 32 bits. The
/// others stay; at a fault and where memory runs out some of the body's may stand after them.
#[tactic(auto, unfolding(crate::specs::Words::commands))]
pub fn compile_onto(others: &mut Vec<Command>, words: &Words) -> Result<(), Refusal>
    ensures value { Gives (λ _. others.new.items) result
        (reported_at Nowhere (after_others others.old.items (commands words.now))) }
    ensures front { take (length others.old.items) others.new.items ≡ others.old.items }
{
    let text = words.as_bytes();
    if is_too_long(text) {
        return Err(Refusal::from(Code::F22));
    }
    read_words(others, text)
}

/// The commands of a body's words, or their fault as `compile_onto` gives it.
#[tactic(auto, using(crate::proofs::Reading::after_nothing))]
pub fn compile(alloc: Global, words: &Words) -> Result<Body, Refusal>
    ensures { Gives (λ body. body) result (reported_at Nowhere (commands words.now)) }
{
    // a word takes some five bytes with the blank after it, so that the vector seldom grows
    let mut body = Vec::with_capacity(alloc, words.as_bytes().len() / 4)?;
    compile_onto(&mut body, words)?;
    Ok(Body::new(body))
}

/// The commands of a Subr's words, or their fault with the Subr's number.
pub fn compiled_subr(alloc: Global, number: u16, words: &Words) -> Result<Body, Refusal>
    ensures { Gives (λ body. body) result (reported_at (places.Subr number) (commands words.now)) }
{
    match compile(alloc, words) {
        Err(refusal) => Err(refusal.at_subr(number)),
        compiled => compiled,
    }
}

/// The commands of a glyph's words, or their fault with the glyph's name.
#[tactic(auto, using(t1_frac::proofs::OutcomeLaws::refuses_at))]
pub fn compiled_glyph(alloc: Global, name: &[u8], words: &Words) -> Result<Body, Refusal>
    ensures { Gives (λ body. body) result
        (reported_at (places.Glyph name.now) (commands words.now)) }
{
    match compile(alloc, words) {
        Err(refusal) => Err(refusal.at_glyph(alloc, name)),
        compiled => compiled,
    }
}

/// Adds the charstring of a text's words. At a fault or out of memory some of it stands after the
/// code that was there.
#[tactic(auto, using(crate::proofs::Adding::coded_step, crate::proofs::Adding::front_grows))]
fn push_words(code: &mut Vec<u8>, text: &[u8]) -> Result<(), Refusal>
    ensures value { Gives (λ _. code.new.items) result
        (reported_at Nowhere
        (charstring_onto code.old.items (commands_of_words (words text.now)))) }
    ensures front { take (length code.old.items) code.new.items ≡ code.old.items }
{
    let mut rest = text;
    while let Some((command, after)) = next_command(rest) {
        push_command(code, command?)?;
        rest = after;
    }
    Ok(())
}

/// Adds the charstring of a body's words, not encrypted, after the code that is there: F22 past
/// 65,535 words, then the first word's fault that has one. At a fault and where memory runs out the
/// code is as it was.
#[tactic(auto, unfolding(crate::specs::Words::commands))]
pub fn assemble_onto(code: &mut Vec<u8>, words: &Words) -> Result<(), Refusal>
    ensures value { Gives (λ _. code.new.items) result
        (reported_at Nowhere (onto code.old.items (charstring_of_words words.now))) }
    ensures err { OnErr result (code.new.items ≡ code.old.items) }
{
    if is_too_long(words.as_bytes()) {
        return Err(Refusal::from(Code::F22));
    }
    let start = code.len();
    match push_words(code, words.as_bytes()) {
        Ok(()) => Ok(()),
        Err(refusal) => {
            code.truncate(start);
            Err(refusal)
        }
    }
}

/// Puts the encrypted charstring of a body's words, with its leading bytes, in the place of what
/// the buffer holds, or gives the fault of the words as `assemble_onto` does. The buffer's memory
/// is kept, so that one buffer serves all bodies of a font; at a fault and where memory runs out
/// what it holds isn't said, and the next call clears it.
#[tactic(auto, unfolding(crate::specs::Cipher::encrypted_words), using(crate::proofs::Adding::encrypted_at))]
pub fn encrypt_words(code: &mut Vec<u8>, lead: u8, words: &Words) -> Result<(), Refusal>
    ensures { Gives (λ _. code.new.items) result
        (reported_at Nowhere (encrypted_words lead words.now)) }
{
    code.clear();
    code.resize(usize::from(lead), 0)?;
    assemble_onto(code, words)?;
    Cipher::new(CHARSTRING_KEY).encrypt(code);
    Ok(())
}

/// The charstring of a body's words, not encrypted, or the fault of the words as `assemble_onto`
/// gives it.
#[tactic(auto, using(crate::proofs::Adding::onto_nothing))]
pub fn assemble(alloc: Global, words: &Words) -> Result<Vec<u8>, Refusal>
    ensures { Gives (λ code. code.items) result
        (reported_at Nowhere (charstring_of_words words.now)) }
{
    let mut code = Vec::new(alloc);
    assemble_onto(&mut code, words)?;
    Ok(code)
}
