//! What is kept of the tokens of a body: of the numbers right before a place, and of the path
//! there.

ghost use Rattle.std.specs.Prelude.{◌≡◌, if◌then◌else◌, []};
ghost use Rattle.t1_frac.specs.Numbers.{is_number_word};
ghost use Rattle.t1_notes.specs.BodyWords.{is_below_zero, is_brace_token, is_past};
ghost use Rattle.t1_notes.specs.Kept.{kept_of_tokens, kept_after_token, one_number_more};
ghost use Rattle.t1_notes.specs.Kept.{open_after};

use crate::commands::{some_draws, some_ends_path};
use t1_code::Command;
use t1_frac::{digits_of_word, is_number_word};
use t1_text::{decimal_up_to, same};

/// What is kept of the tokens before a place.
#[derive(Clone, Copy)]
pub struct TokensBefore {
    /// How many number words stand right before it; more than seven aren't counted.
    pub numbers: u8,
    /// One of them is past ±16,000.
    pub has_wide: bool,
    /// The nearest of them is below 0.
    pub is_negative: bool,
    /// A path is open.
    pub is_open: bool,
}

/// What is kept of no tokens.
pub fn nothing_kept() -> TokensBefore
    ensures { result ≡ kept_of_tokens [] }
{
    TokensBefore {
        numbers: 0,
        has_wide: false,
        is_negative: false,
        is_open: false,
    }
}

/// One number more.
fn one_more(numbers: u8) -> u8
    ensures { result ≡ one_number_more numbers }
{
    if numbers < 7 { numbers + 1 } else { 7 }
}

/// Whether the size of a number word is past a limit.
fn is_past(limit: u32, word: &[u8]) -> bool
    ensures { result ≡ is_past limit word.now }
{
    decimal_up_to(limit, digits_of_word(word)).is_none()
}

/// Whether a number word is below 0.
fn is_below_zero(word: &[u8]) -> bool
    ensures { result ≡ is_below_zero word.now }
{
    matches!(word, [b'-', ..]) && is_past(0, word)
}

/// Whether a token is a brace.
fn is_brace_token(token: &[u8]) -> bool
    ensures { result ≡ is_brace_token token.now }
{
    same(token, b"{") || same(token, b"}")
}

/// Whether a path is open after a token that names this command.
fn open_after(is_open: bool, token: &[u8], command: Option<Command>) -> bool
    ensures { result ≡ open_after is_open token.now command }
{
    if is_brace_token(token) || some_ends_path(command) {
        return false;
    }
    some_draws(command) || is_open
}

/// How many numbers stand right before the place after a token.
fn numbers_after(numbers: u8, token: &[u8]) -> u8
    ensures { result ≡ (if is_number_word token.now then one_number_more numbers else 0) }
{
    if is_number_word(token) {
        one_more(numbers)
    } else {
        0
    }
}

/// What is kept after a token that names this command.
pub fn kept_after(kept: TokensBefore, token: &[u8], command: Option<Command>) -> TokensBefore
    ensures { result ≡ kept_after_token kept token.now command }
{
    TokensBefore {
        numbers: numbers_after(kept.numbers, token),
        has_wide: is_number_word(token) && (is_past(16000, token) || kept.has_wide),
        is_negative: is_number_word(token) && is_below_zero(token),
        is_open: open_after(kept.is_open, token, command),
    }
}
