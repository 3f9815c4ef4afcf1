//! Lines that a source has in another layout than the font.
ghost use Rattle.std.specs.Prelude.{◌≡◌, ◌<◌, ◌^◌, true, length, IfOk, OnOk};
ghost use Rattle.t1_parts.specs.Parts.{is_closefile};
ghost use Rattle.t1_disassemble.specs.Layouts.{is_border, begins_closefile, one_line, are_one};

use crate::settings::is_section;
use std::alloc::AllocError;
use t1_parts::ends_in;
use t1_text::trimmed;

/// Whether a line closes the encrypted part.
pub(crate) fn is_closefile(line: &[u8]) -> bool
    ensures { result ≡ is_closefile line.now }
{
    trimmed(line).ends_with(b"mark currentfile closefile")
}

/// Whether a line is a section line, or closes the encrypted part.
fn is_border(line: &[u8]) -> bool
    requires { length line.now < 2 ^ 63 }
    ensures { result ≡ is_border line.now }
{
    is_section(line) || is_closefile(line)
}

/// How many bytes a line has at least that such a line may begin on.
const SHORTEST: usize = 4;

/// Whether the line that closes the encrypted part may begin here and go on with the next.
#[tactic(auto, using(crate::proofs::BorderLaws::short_begins))]
fn begins_closefile(line: &[u8]) -> bool
    ensures { result ≡ begins_closefile line.now }
{
    if line.len() < SHORTEST {
        return false;
    }
    ends_in(b"mark", line) || ends_in(b"mark currentfile", line)
}

/// Puts two lines, as one, in the place of what the buffer holds.
fn join_lines(buffer: &mut Vec<u8>, line: &[u8], next: &[u8]) -> Result<(), AllocError>
    ensures { OnOk result (buffer.new.items ≡ one_line line.now next.now) }
{
    buffer.clear();
    buffer.extend_from_slice(trimmed(line))?;
    buffer.push(b' ')?;
    buffer.extend_from_slice(trimmed(next))?;
    Ok(())
}

/// Whether two lines are one in the source, which the buffer holds then.
pub(crate) fn are_one(buffer: &mut Vec<u8>, line: &[u8], next: &[u8]) -> Result<bool, AllocError>
    requires line { length line.now < 2 ^ 63 }
    requires next { length next.now < 2 ^ 63 }
    ensures value { IfOk result (λ one. one ≡ are_one line.now next.now) }
    ensures joined { IfOk result
        (λ one. one ≡ true → buffer.new.items ≡ one_line line.now next.now) }
{
    if !begins_closefile(line) {
        return Ok(false);
    }
    if is_border(line) || is_border(next) {
        return Ok(false);
    }
    join_lines(buffer, line, next)?;
    Ok(is_closefile(buffer))
}
