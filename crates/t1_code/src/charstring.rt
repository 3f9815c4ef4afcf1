//! Charstring code from commands, and the encryption of charstrings and of the private part.
ghost use Rattle.std.specs.Prelude.{◌≡◌, ◌≤◌, ◌<◌, ◌+◌, ◌++◌, take, length, IfOk, OnOk, ◌/◌, ◌%◌};
ghost use Rattle.std.specs.Prelude.{bit_xor};
ghost use Rattle.t1_code.specs.Cipher.{encrypted_charstring as encrypted, cipher, key_after};
ghost use Rattle.t1_code.specs.Cipher.{next_key, encrypted_after};
ghost use Rattle.t1_code.specs.Charstring.{two_bytes, number_bytes, command_bytes, operator_bytes};
ghost use Rattle.t1_code.specs.Charstring.{charstring};

use crate::command::Command;
use std::alloc::{AllocError, Global};
use std::marker::Model;

/// The two bytes of a size, after the first byte of its kind.
fn two_bytes_of(first: u8, size: u16) -> [u8; 2]
    requires first { first ≤ 251 }
    requires low { 108 ≤ size }
    requires high { size ≤ 1131 }
    ensures { result ≡ two_bytes first size }
{
    let rest = size - 108;
    [first + (rest / 256) as u8, (rest % 256) as u8]
}

/// Adds the shortest spelling of a number.
#[inline(always)]
fn push_number(code: &mut Vec<u8>, number: i32) -> Result<(), AllocError>
    ensures front { take (length code.old.items) code.new.items ≡ code.old.items }
    ensures value { OnOk result (code.new.items ≡ code.old.items ++ number_bytes number) }
{
    if -107 <= number && number <= 107 {
        code.push((number + 139) as u8)?;
        return Ok(());
    }
    if 108 <= number && number <= 1131 {
        return code.extend_from_slice(&two_bytes_of(247, number as u16));
    }
    if -1131 <= number && number <= -108 {
        return code.extend_from_slice(&two_bytes_of(251, -number as u16));
    }
    code.extend_from_slice(&[255])?;
    code.extend_from_slice(&number.to_be_bytes())
}

impl Command {
    /// The bytes of a command. A number has none here.
    fn operator(self) -> &'static [u8]
        ensures { result.now ≡ operator_bytes self }
    {
        match self {
            Command::Num(_) => &[],
            Command::HStem => &[1],
            Command::VStem => &[3],
            Command::VMoveTo => &[4],
            Command::RLineTo => &[5],
            Command::HLineTo => &[6],
            Command::VLineTo => &[7],
            Command::RRCurveTo => &[8],
            Command::ClosePath => &[9],
            Command::CallSubr => &[10],
            Command::Return => &[11],
            Command::DotSection => &[12, 0],
            Command::VStem3 => &[12, 1],
            Command::HStem3 => &[12, 2],
            Command::Seac => &[12, 6],
            Command::Sbw => &[12, 7],
            Command::Div => &[12, 12],
            Command::CallOtherSubr => &[12, 16],
            Command::Pop => &[12, 17],
            Command::SetCurrentPoint => &[12, 33],
            Command::Hsbw => &[13],
            Command::EndChar => &[14],
            Command::RMoveTo => &[21],
            Command::HMoveTo => &[22],
            Command::VHCurveTo => &[30],
            Command::HVCurveTo => &[31],
        }
    }
}

/// Adds the bytes of an operator, which mostly is one.
#[inline(always)]
fn push_operator(code: &mut Vec<u8>, operator: &[u8]) -> Result<(), AllocError>
    ensures front { take (length code.old.items) code.new.items ≡ code.old.items }
    ensures value { OnOk result (code.new.items ≡ code.old.items ++ operator.now) }
{
    if let [byte] = operator {
        code.push(*byte)?;
        return Ok(());
    }
    code.extend_from_slice(operator)
}

/// Adds the bytes of a command.
#[inline(always)]
pub(crate) fn push_command(code: &mut Vec<u8>, command: Command) -> Result<(), AllocError>
    ensures front { take (length code.old.items) code.new.items ≡ code.old.items }
    ensures value { OnOk result (code.new.items ≡ code.old.items ++ command_bytes command) }
{
    match command {
        Command::Num(number) => push_number(code, number),
        operator => push_operator(code, operator.operator()),
    }
}

/// Adds the charstring of commands.
fn push_commands(code: &mut Vec<u8>, commands: &[Command]) -> Result<(), AllocError>
    ensures { OnOk result (code.new.items ≡ code.old.items ++ charstring commands.now) }
{
    for command in commands {
        push_command(code, *command)?;
    }
    Ok(())
}

/// The charstring of commands after its leading bytes, encrypted as a font's private text holds it.
pub fn encrypted_charstring(
    alloc: Global,
    lead: u8,
    commands: &[Command],
) -> Result<Vec<u8>, AllocError>
    ensures { IfOk result (λ code. code.items ≡ encrypted lead (charstring commands.now)) }
{
    let mut code = vec![in alloc; 0; usize::from(lead)]?;
    push_commands(&mut code, commands)?;
    Cipher::new(CHARSTRING_KEY).encrypt(&mut code);
    Ok(code)
}

/// The key that encryption of a charstring begins with.
pub(crate) const CHARSTRING_KEY: u16 = 4_330;

/// Encrypts bytes one after another, with a key that each cipher byte changes. Contracts see the
/// key.
///
/// What a key adds to the next one is known before there is a cipher byte and is kept beside it, so
/// that one product and one sum lie between two cipher bytes.
#[derive(Drop)]
pub(crate) struct Cipher {
    /// The key, in the low 16 bits.
    key: u32,
    next: u16,
}

impl Model for Cipher {
    ghost use Rattle.std.specs.Prelude.{◌≡◌, ◌+◌, ◌*◌, ◌%◌, ℕ};

    ghost Value = { ℕ };

    ghost view = { λ c. c.key % 65536 };

    ghost invariant = { λ c. c.next ≡ (c.key * 52845 + 22719) % 65536 };
}

impl Cipher {
    /// A cipher that begins with this key.
    pub(crate) fn new(key: u16) -> Cipher
        ensures { result ≡ key }
    {
        Cipher::at(u32::from(key))
    }

    /// A cipher whose key is the low 16 bits.
    #[inline(always)]
    fn at(key: u32) -> Cipher
        ensures { result ≡ key % 65536 }
    {
        Cipher {
            key,
            next: (key.wrapping_mul(52_845).wrapping_add(22_719) % 65_536) as u16,
        }
    }

    /// The cipher byte of a plain byte.
    #[inline(always)]
    fn byte(&mut self, plain: u8) -> u8
        ensures byte { result ≡ bit_xor plain (self.old / 256) }
        ensures key { self.new ≡ next_key self.old result }
    {
        let cipher = u32::from(plain) ^ (self.key / 256 % 256);
        let product = cipher.wrapping_mul(52_845);
        *self = Cipher::at(product.wrapping_add(u32::from(self.next)));
        cipher as u8
    }

    /// Puts the cipher bytes in the place of the plain ones. The key goes along in a cipher of its
    /// own, which needs no memory between two bytes.
    pub(crate) fn encrypt(&mut self, bytes: &mut [u8])
        ensures bytes { bytes.new ≡ cipher self.old bytes.old }
        ensures key { self.new ≡ key_after self.old bytes.new }
    {
        let mut cipher = Cipher {
            key: self.key,
            next: self.next,
        };
        for byte in bytes.iter_mut() {
            *byte = cipher.byte(*byte);
        }
        *self = cipher;
    }
}

/// The cipher text of leading zero bytes and the plain bytes.
pub fn encrypt(alloc: Global, key: u16, lead: u8, plain: &[u8]) -> Result<Vec<u8>, AllocError>
    ensures { IfOk result (λ encrypted. encrypted.items ≡ encrypted_after key lead plain.now) }
{
    let mut bytes = vec![in alloc; 0; usize::from(lead)]?;
    bytes.extend_from_slice(plain)?;
    Cipher::new(key).encrypt(&mut bytes);
    Ok(bytes)
}
