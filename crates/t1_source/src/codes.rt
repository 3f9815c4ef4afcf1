//! The codes that an encoding gives to names.

ghost use Rattle.std.specs.Prelude.{◌≡◌, ℕ, ◌<◌, false, get_or, filter_map, option_map};
ghost use Rattle.t1_code.specs.Encoding.{standard_name as name_of};
ghost use Rattle.t1_text.specs.Tokens.{tokens, is_token};
ghost use Rattle.t1_parts.specs.Encoding.{slot_of_tokens, slots};
ghost use Rattle.t1_source.specs.Codes.{slot_name, lowest_code, name_at};

use t1_code::{standard_name, standard_table};
use t1_frac::Bytes;
use t1_parts::{array_of, slot_of};
use t1_text::same;

/// Whether the standard encoding gives a code this name.
fn is_standard_name(code: u8, name: &[u8]) -> bool
    ensures { result ≡ is_token name.now (name_of code) }
{
    match standard_name(code) {
        Some(found) => same(name, found.as_bytes()),
        None => false,
    }
}

/// The lowest code that the standard encoding gives a name.
#[tactic(auto, using(crate::proofs::CodeLaws::lowest_start, crate::proofs::CodeLaws::lowest_here, crate::proofs::CodeLaws::lowest_on, crate::proofs::CodeLaws::lowest_none))]
pub fn standard_code(name: &[u8]) -> Option<u8>
    ensures { result ≡ lowest_code name_of name.now }
{
    let mut code: u16 = 0;
    while code < 256 {
        if is_standard_name(code as u8, name) {
            return Some(code as u8);
        }
        code += 1;
    }
    None
}

/// For each code, whether the last of its slots on these lines gives it the name.
fn codes_named(lines: &[Bytes], name: &[u8]) -> [bool; 256]
    ensures { (code : ℕ)
        → code < 256
        → get_or result code false
        ≡ is_token name.now
        (slot_name (filter_map (λ l. slot_of_tokens (tokens l)) lines.now) code) }
{
    let mut named = [false; 256];
    for line in lines {
        if let Some((code, found)) = slot_of(line.as_slice()) {
            named[code as usize] = same(name, found);
        }
    }
    named
}

/// The lowest code that the array of the clear lines gives a name.
#[tactic(auto, using(crate::proofs::CodeLaws::lowest_start, crate::proofs::CodeLaws::lowest_here, crate::proofs::CodeLaws::lowest_on, crate::proofs::CodeLaws::lowest_none))]
pub fn array_code(clear: &[Bytes], name: &[u8]) -> Option<u8>
    ensures { result ≡ lowest_code (slot_name (slots clear.now)) name.now }
{
    let named = codes_named(array_of(clear), name);
    let mut code: u16 = 0;
    while code < 256 {
        if named[code as usize] {
            return Some(code as u8);
        }
        code += 1;
    }
    None
}

/// The names that the standard encoding gives the codes from 0 to 255.
pub fn standard_names<'a>() -> [Option<&'a [u8]>; 256]
    ensures { (code : ℕ) → code < 256 → name_at result code ≡ name_of code }
{
    let table = standard_table();
    let mut names: [Option<&'a [u8]>; 256] = [None; 256];
    let mut rest = table.len();
    while rest > 0 {
        rest -= 1;
        let (code, name) = &table[rest];
        names[usize::from(*code)] = Some(name.as_bytes());
    }
    names
}

/// The names that the slots on these lines give the codes from 0 to 255.
fn slot_names(lines: &[Bytes]) -> [Option<&[u8]>; 256]
    ensures { (code : ℕ)
        → code < 256
        → name_at result code
        ≡ slot_name (filter_map (λ l. slot_of_tokens (tokens l)) lines.now) code }
{
    let mut names = [None; 256];
    for line in lines {
        if let Some((code, name)) = slot_of(line.as_slice()) {
            names[code as usize] = Some(name);
        }
    }
    names
}

/// The names that the array of the clear lines gives the codes from 0 to 255.
pub fn array_names(clear: &[Bytes]) -> [Option<&[u8]>; 256]
    ensures { (code : ℕ) → code < 256 → name_at result code ≡ slot_name (slots clear.now) code }
{
    slot_names(array_of(clear))
}
