//! Commands of charstrings, by the bytes that spell them.
ghost use Rattle.std.specs.Prelude.{◌≡◌, ◌≤◌, ◌<◌, ◌==◌, ◌+◌, ◌-ℤ◌, pos, false, true, Ok, Some};
ghost use Rattle.std.specs.Prelude.{ℕ, List, take, drop, length, map, nat_eq, IfSome, IfOk};
ghost use Rattle.std.specs.Prelude.{vec_len, vec_capacity};
ghost use Rattle.std.specs.Map.{lookup};
ghost use Rattle.t1_code.specs.Charstring.{AllFit, Fits32Bits};
ghost use Rattle.t1_disassemble.specs.CommandWords.{command_word};
ghost use Rattle.t1_disassemble.specs.Words.{one_byte_words, two_byte_words, word_at, words_of};

use crate::charstring::number;
use std::alloc::{AllocError, Global};
use std::marker::Model;
use t1_code::Command;

/// How many commands there are, one for each byte.
const BYTES: usize = 256;

/// The command that a byte is by itself.
#[derive(Drop)]
pub(crate) struct KnownCommand {
    first: u8,
    command: Command,
}

impl Model for KnownCommand {
    ghost use Rattle.t1_disassemble.specs.KnownCommands.{KnownByte, IsKnownCommand};

    ghost Value = { KnownByte };

    ghost view = { λ known. record { first = known.first; command = known.command } };

    ghost invariant = { λ known. IsKnownCommand known.first known.command };
}

/// The command of one byte.
#[tactic(auto, unfolding(t1_frac::specs::Numbers::is_number_word))]
fn one_byte_command(byte: u8) -> Option<Command>
    ensures word { IfSome result
        (λ command. lookup (nat_eq byte) one_byte_words ≡ Some (command_word command)) }
    ensures fits { IfSome result Fits32Bits }
{
    match byte {
        1 => Some(Command::HStem),
        3 => Some(Command::VStem),
        4 => Some(Command::VMoveTo),
        5 => Some(Command::RLineTo),
        6 => Some(Command::HLineTo),
        7 => Some(Command::VLineTo),
        8 => Some(Command::RRCurveTo),
        9 => Some(Command::ClosePath),
        10 => Some(Command::CallSubr),
        11 => Some(Command::Return),
        13 => Some(Command::Hsbw),
        14 => Some(Command::EndChar),
        21 => Some(Command::RMoveTo),
        22 => Some(Command::HMoveTo),
        30 => Some(Command::VHCurveTo),
        31 => Some(Command::HVCurveTo),
        _ => None,
    }
}

/// The command of two bytes, by the second one.
fn two_byte_command(byte: u8) -> Option<Command>
    ensures word { IfSome result
        (λ command. lookup (nat_eq byte) two_byte_words ≡ Some (command_word command)) }
    ensures fits { IfSome result Fits32Bits }
{
    match byte {
        0 => Some(Command::DotSection),
        1 => Some(Command::VStem3),
        2 => Some(Command::HStem3),
        6 => Some(Command::Seac),
        7 => Some(Command::Sbw),
        12 => Some(Command::Div),
        16 => Some(Command::CallOtherSubr),
        17 => Some(Command::Pop),
        33 => Some(Command::SetCurrentPoint),
        _ => None,
    }
}

impl KnownCommand {
    /// A number of one byte.
    fn number(first: u8, number: i32) -> KnownCommand
        requires low { 32 ≤ first }
        requires high { first < 247 }
        requires value { number ≡ pos first -ℤ pos 139 }
    {
        KnownCommand {
            first,
            command: Command::Num(number),
        }
    }

    /// A command of one byte.
    fn command(first: u8, command: Command) -> KnownCommand
        requires small { first < 32 }
        requires alone { (first == 12) ≡ false }
        requires word { lookup (nat_eq first) one_byte_words ≡ Some (command_word command) }
        requires fits { Fits32Bits command }
    {
        KnownCommand { first, command }
    }

    /// The command of the byte 14.
    fn endchar() -> KnownCommand {
        KnownCommand {
            first: 14,
            command: Command::EndChar,
        }
    }

    /// The command that a byte is by itself; of a byte that is none, another's.
    fn of(first: u8) -> KnownCommand {
        if 247 <= first || first == 12 {
            return KnownCommand::endchar();
        }
        if 32 <= first {
            return KnownCommand::number(first, i32::from(first) - 139);
        }
        match one_byte_command(first) {
            Some(command) => KnownCommand::command(first, command),
            None => KnownCommand::endchar(),
        }
    }

    /// The command, where it is that of this byte.
    #[inline(always)]
    fn command_of(&self, first: u8) -> Option<Command>
        ensures read { IfSome result
            (λ command. (rest : List ℕ) → word_at first rest ≡ Ok (command_word command, rest)) }
        ensures fits { IfSome result Fits32Bits }
    {
        if self.first == first {
            Some(self.command)
        } else {
            None
        }
    }
}

/// Adds a command to others.
fn push_known(commands: &mut Vec<KnownCommand>, command: KnownCommand) -> Result<(), AllocError> {
    commands.push(command)?;
    Ok(())
}

/// The commands of all bytes, each at its place.
pub(crate) fn known_commands(alloc: Global) -> Result<Vec<KnownCommand>, AllocError> {
    let mut commands = Vec::new(alloc);
    commands.reserve(BYTES)?;
    for first in 0..256_u16 {
        push_known(&mut commands, KnownCommand::of(first as u8))?;
    }
    Ok(commands)
}

/// The command that several bytes spell, and the bytes after them.
#[tactic(auto, unfolding(crate::specs::Words::word_at))]
fn command_at(first: u8, rest: &[u8]) -> Option<(Command, &[u8])>
    ensures read { IfSome result
        (λ found. word_at first rest.now ≡ Ok (command_word found.0, found.1.now)) }
    ensures fits { IfSome result (λ found. Fits32Bits found.0) }
    ensures shorter { IfSome result (λ found. length found.1.now ≤ length rest.now) }
{
    if 32 <= first {
        let Ok((number, after)) = number(first, rest) else {
            return None;
        };
        return Some((Command::Num(number), after));
    }
    let [second, after @ ..] = rest else {
        return None;
    };
    if first != 12 {
        return None;
    }
    let Some(command) = two_byte_command(*second) else {
        return None;
    };
    Some((command, after))
}

/// The command at the front of some bytes, and the bytes after it.
#[inline(always)]
fn next_command<'a>(
    known: &[KnownCommand],
    first: u8,
    rest: &'a [u8],
) -> Option<(Command, &'a [u8])>
    ensures read { IfSome result
        (λ found. word_at first rest.now ≡ Ok (command_word found.0, found.1.now)) }
    ensures fits { IfSome result (λ found. Fits32Bits found.0) }
    ensures shorter { IfSome result (λ found. length found.1.now ≤ length rest.now) }
{
    let Some(known) = known.get(usize::from(first)) else {
        return None;
    };
    if let Some(command) = known.command_of(first) {
        return Some((command, rest));
    }
    command_at(first, rest)
}

/// Adds the commands that a charstring spells to others, which have room for them, or some of them
/// where its bytes aren't all commands; answers whether they are. It stands apart, so that its loop
/// has nothing else to keep at hand.
#[inline(never)]
fn push_each(known: &[KnownCommand], others: &mut Vec<Command>, code: &[u8]) -> bool
    requires { vec_len others.old + length code.now ≤ vec_capacity others.old }
    ensures read { result ≡ true
        → words_of code.now
        ≡ Ok (map command_word (drop (length others.old.items) others.new.items)) }
    ensures fits { AllFit (drop (length others.old.items) others.new.items) }
    ensures front { take (length others.old.items) others.new.items ≡ others.old.items }
{
    let mut rest = code;
    while let Some((first, after)) = rest.split_first() {
        let Some((command, left)) = next_command(known, *first, after) else {
            return false;
        };
        others.push_reserved(command);
        rest = left;
    }
    true
}

/// Adds the commands that a charstring spells to others, or some of them where its bytes aren't all
/// commands; answers whether they are.
pub(crate) fn push_commands(
    known: &[KnownCommand],
    others: &mut Vec<Command>,
    code: &[u8],
) -> Result<bool, AllocError>
    ensures read { IfOk result (λ all. all ≡ true
        → words_of code.now
        ≡ Ok (map command_word (drop (length others.old.items) others.new.items))) }
    ensures fits { AllFit (drop (length others.old.items) others.new.items) }
    ensures front { take (length others.old.items) others.new.items ≡ others.old.items }
{
    others.reserve(code.len())?;
    Ok(push_each(known, others, code))
}
