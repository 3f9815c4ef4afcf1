//! The rules that edits keep.

ghost use Rattle.std.specs.Prelude.{◌≡◌, IfOk};
ghost use Rattle.t1_source.specs.Editing.{keeps, number_up_to, kerning_number, good_name};
ghost use Rattle.t1_source.specs.Editing.{good_body, braced, body_words};

use crate::edit::Rule;
use std::alloc::{AllocError, Global};
use t1_frac::{OwnedWords, Words};
use t1_parts::{has_brace, uncommented};
use t1_text::{first_line, is_name};

/// A rule that is broken where a test fails.
pub fn keeps(rule: Rule, kept: bool) -> Result<(), Rule>
    ensures { result ≡ keeps rule kept }
{
    if kept { Ok(()) } else { Err(rule) }
}

/// A number from 0 to the limit.
pub fn number_up_to(limit: u16, number: i64) -> Result<u16, Rule>
    ensures { result ≡ number_up_to limit number }
{
    if 0 <= number && number <= i64::from(limit) {
        Ok(number as u16)
    } else {
        Err(Rule::E4)
    }
}

/// A kerning value from -32000 to 32000.
pub fn kerning_number(number: i64) -> Result<i32, Rule>
    ensures { result ≡ kerning_number number }
{
    if -32000 <= number && number <= 32000 {
        Ok(number as i32)
    } else {
        Err(Rule::E4)
    }
}

/// A name.
pub fn good_name(name: &[u8]) -> Result<(), Rule>
    ensures { result ≡ good_name name.now }
{
    keeps(Rule::E3, is_name(name))
}

/// Whether a body has braces outside its comments.
fn braced(body: &[u8]) -> bool
    ensures { result ≡ braced body.now }
{
    let mut rest = body;
    while !rest.is_empty() {
        let (line, after) = first_line(rest);
        if has_brace(line) {
            return true;
        }
        rest = after;
    }
    false
}

/// A body without braces.
pub fn good_body(body: &[u8]) -> Result<(), Rule>
    ensures { result ≡ good_body body.now }
{
    keeps(Rule::E6, !braced(body))
}

/// The words of a body without its comments.
pub fn body_words<'a>(alloc: Global, body: &[u8]) -> Result<Words<'a>, AllocError>
    ensures { IfOk result (λ found. found ≡ body_words body.now) }
{
    let mut found = OwnedWords::new(alloc);
    let mut rest = body;
    while !rest.is_empty() {
        let (line, after) = first_line(rest);
        found.push_line(uncommented(line))?;
        rest = after;
    }
    Ok(found.into_words())
}
