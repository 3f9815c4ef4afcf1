//! The fault of reading a source, where it stands.

ghost use Rattle.std.specs.Prelude.{◌≡◌, ◌-◌, ◌≤◌, []};
ghost use Rattle.std.specs.List.{slice_index_or};
ghost use Rattle.t1_text.specs.Lines.{lines};
ghost use Rattle.t1_faults.specs.Reading.{at_front, fault_on_line, reading_fault};

use crate::call_chains::CallChains;
use crate::found::FoundFault;
use crate::glyph_names::GlyphNames;
use crate::opening::detail_on;
use std::alloc::Global;
use t1_chain::Detail;
use t1_frac::{Code, Fault, Place, SourceText, blank_len};
use t1_text::{first_line, trimmed};

/// The line of this number, counted from 1; an empty one where there is none.
fn line_of(bytes: &[u8], number: u64) -> &[u8]
    ensures { result.now ≡ slice_index_or (lines bytes.now) (number - 1) [] }
{
    let mut rest = bytes;
    for _turn in 0..number.saturating_sub(1) {
        if rest.is_empty() {
            return rest;
        }
        let (_line, after) = first_line(rest);
        rest = after;
    }
    if rest.is_empty() {
        return rest;
    }
    let (line, _after) = first_line(rest);
    line
}

/// A fault on the line of this number: all of the line but the blanks at both ends.
fn on_line(alloc: Global, bytes: &[u8], code: Code, number: u64) -> FoundFault<'_>
    ensures { result ≡ fault_on_line (lines bytes.now) code number }
{
    let line = line_of(bytes, number);
    FoundFault {
        code,
        place: Place::Line(number),
        line: number,
        column: blank_len(line) + 1,
        word: Some(SourceText::borrowed(trimmed(line))),
        detail: detail_on(bytes, code, line),
        chains: CallChains::new(alloc),
        composites: GlyphNames::new(alloc),
    }
}

/// A fault of the source as a whole, at its front.
pub(crate) fn at_front<'a>(alloc: Global, code: Code, place: Place) -> FoundFault<'a>
    ensures { result ≡ at_front code place }
{
    FoundFault {
        code,
        place,
        line: 1,
        column: 1,
        word: None,
        detail: Detail::Nothing,
        chains: CallChains::new(alloc),
        composites: GlyphNames::new(alloc),
    }
}

/// A fault of reading some bytes, where it stands.
pub fn reading_fault(alloc: Global, bytes: &[u8], fault: Fault) -> FoundFault<'_>
    ensures { result ≡ reading_fault (lines bytes.now) fault }
{
    let Fault { code, place } = fault;
    match place {
        Place::Line(number) => on_line(alloc, bytes, code, number),
        place => at_front(alloc, code, place),
    }
}
