//! The lines of a section that don't stand inside an entry.

ghost use Rattle.std.specs.Prelude.{◌≡◌, ◌++◌, ◌==◌, ◌≤◌, length, IfOk, OnOk};
ghost use Rattle.std.specs.List.{list_any, position_or_len};
ghost use Rattle.t1_frac.specs.Ascii.{open_brace};
ghost use Rattle.t1_notes.specs.Heads.{after_brace, has_open, leaves_entry_open, head_line_of};
ghost use Rattle.t1_notes.specs.HeadsByLine.{entry_open_after};
ghost use Rattle.t1_notes.specs.Heads.{heads};

use crate::line::Line;
use crate::sections::{Section, opens};
use std::alloc::{AllocError, Global};
use t1_parts::{has_brace, uncommented};

/// Whether a line has `{`.
fn has_any_open(line: &[u8]) -> bool
    ensures { result ≡ list_any (λ c. c == open_brace) line.now }
{
    line.iter().any(|byte| *byte == b'{')
}

/// Whether a line has `{` outside its comment.
pub fn has_open(line: &[u8]) -> bool
    ensures { result ≡ has_open line.now }
{
    has_any_open(uncommented(line))
}

/// How many bytes stand before the first `{` of a line.
fn brace_place(line: &[u8]) -> usize
    ensures within { result ≤ length line.now }
    ensures value { result ≡ position_or_len (λ c. c == open_brace) line.now }
{
    line.iter().take_while(|byte| **byte != b'{').count()
}

/// The bytes of a line after its first `{`.
fn after_brace(line: &[u8]) -> &[u8]
    ensures { result.now ≡ after_brace line.now }
{
    match line.split_at(brace_place(line)).1 {
        [_, after @ ..] => after,
        [] => &[],
    }
}

/// Whether a line opens an entry of the section, and has no brace behind the `{`.
pub fn goes_on(section: Section, line: &[u8]) -> bool
    ensures { result ≡ leaves_entry_open section line.now }
{
    opens(section, line) && !has_brace(after_brace(line))
}

/// Whether an entry is open after a line.
fn entry_open_after(section: Section, in_entry: bool, line: &[u8]) -> bool
    ensures { result ≡ entry_open_after section in_entry line.now }
{
    if has_brace(line) {
        goes_on(section, line)
    } else {
        in_entry
    }
}

/// Adds a line, unless it stands inside an entry that is open.
fn push_head<'a>(
    alloc: Global,
    found: &mut Vec<Line<'a>>,
    in_entry: bool,
    line: &Line<'a>,
) -> Result<(), AllocError>
    ensures { OnOk result (found.new.items ≡ found.old.items ++ head_line_of in_entry line.now) }
{
    if in_entry && !has_open(line.bytes()) {
        return Ok(());
    }
    found.push(line.copied(alloc)?)?;
    Ok(())
}

/// The lines of a section without those inside its entries.
pub fn section_heads<'a>(
    alloc: Global,
    section: Section,
    lines: &[Line<'a>],
) -> Result<Vec<Line<'a>>, AllocError>
    ensures { IfOk result (λ found. found.items ≡ heads section lines.now) }
{
    let mut found = Vec::new(alloc);
    let mut in_entry = false;
    for line in lines {
        push_head(alloc, &mut found, in_entry, line)?;
        in_entry = entry_open_after(section, in_entry, line.bytes());
    }
    Ok(found)
}
