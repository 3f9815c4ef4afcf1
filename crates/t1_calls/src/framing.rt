//! The texts of a call: a line, and the body that it takes.
ghost use Rattle.std.specs.Prelude.{◌≡◌, IfOk};
ghost use Rattle.t1_text.specs.Lines.{is_line, joined, lines};
ghost use Rattle.t1_calls.specs.Framing.{is_body, is_call};
ghost use Rattle.t1_calls.specs.LineBytes.{is_line_byte};

use std::alloc::{AllocError, Global};
use t1_commands::ends_body;
use t1_parts::push_line;
use t1_session::takes_body;
use t1_text::first_line;

/// Whether a byte ends no line.
fn goes_on(byte: u8) -> bool
    ensures { result ≡ is_line_byte byte }
{
    !(byte == b'\n' || byte == b'\r')
}

/// Whether a text has no line end in it.
fn is_line(text: &[u8]) -> bool
    ensures { result ≡ is_line text.now }
{
    text.iter().all(|byte| goes_on(*byte))
}

/// Whether no line of a text ends a body.
fn is_body(text: &[u8]) -> bool
    ensures { result ≡ is_body text.now }
{
    let mut rest = text;
    while !rest.is_empty() {
        let (line, after) = first_line(rest);
        if ends_body(line) {
            return false;
        }
        rest = after;
    }
    true
}

/// Whether the texts of a call are one command's: a line without its end, and a body where the line
/// takes one. No line of a body is `.`, apart from blanks; where the line takes none, the body is
/// empty.
pub fn is_call(line: &[u8], body: &[u8]) -> bool
    ensures { result ≡ is_call line.now body.now }
{
    if takes_body(line) {
        is_line(line) && is_body(body)
    } else {
        is_line(line) && body.is_empty()
    }
}

/// The lines of a body, each with LF, as the loop of an input has them.
pub fn body_text(alloc: Global, body: &[u8]) -> Result<Vec<u8>, AllocError>
    ensures { IfOk result (λ text. text.items ≡ joined (lines body.now)) }
{
    let mut text = Vec::new(alloc);
    let mut rest = body;
    while !rest.is_empty() {
        let (line, after) = first_line(rest);
        push_line(&mut text, line)?;
        rest = after;
    }
    Ok(text)
}
