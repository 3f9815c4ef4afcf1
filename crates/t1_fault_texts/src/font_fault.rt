//! A fault of a font's file, by its code and its place.
ghost use Rattle.std.specs.Prelude.{◌≡◌, ◌++◌, decimal, drop, IfOk};
ghost use Rattle.t1_code.specs.Writing.{Writes};
ghost use Rattle.t1_code.specs.Parts.{slices_bytes};
ghost use Rattle.t1_fault_texts.specs.FontFaults.{font_code_name, font_entry_text};
ghost use Rattle.t1_fault_texts.specs.FontFaults.{font_fault_text};
ghost use Rattle.t1_fault_texts.specs.FontPlaces.{font_place_number};
ghost use Rattle.t1_fault_texts.specs.FontFaults.{font_place_text, begins_with_slash};

use itoa::Buffer;
use std::alloc::{AllocError, Global};
use std::io::{self, Write};
use t1_code::{Counted, write_slices};
use t1_disassemble::{FontCode, FontFault, FontPlace};

/// How many bytes stand in front of a Subr's number: `dup` and a space.
const DUP_LEN: usize = 4;

/// The printed code of a fault.
fn code_name(code: FontCode) -> &'static [u8]
    ensures { result.now ≡ font_code_name code }
{
    match code {
        FontCode::D1 => b"D1",
        FontCode::D2 => b"D2",
        FontCode::D3 => b"D3",
        FontCode::D4 => b"D4",
        FontCode::D5 => b"D5",
        FontCode::D6 => b"D6",
        FontCode::D7 => b"D7",
        FontCode::D8 => b"D8",
        FontCode::D9 => b"D9",
        FontCode::D10 => b"D10",
        FontCode::D11 => b"D11",
        FontCode::D12 => b"D12",
        FontCode::D13 => b"D13",
        FontCode::D14 => b"D14",
        FontCode::D15 => b"D15",
        FontCode::D16 => b"D16",
        FontCode::D17 => b"D17",
    }
}

/// The number that stands in a place.
fn place_number(place: &FontPlace) -> u64
    ensures { result ≡ font_place_number place.now }
{
    match place {
        FontPlace::Byte(count) => *count,
        FontPlace::Nowhere | FontPlace::Entry(_) => 0,
    }
}

/// Whether an entry is that of a glyph.
fn is_glyph(entry: &[u8]) -> bool
    ensures { result ≡ begins_with_slash entry.now }
{
    match entry {
        [] => false,
        [byte, ..] => *byte == b'/',
    }
}

/// The bytes after so many, or none.
fn past(count: usize, bytes: &[u8]) -> &[u8]
    ensures { result.now ≡ drop count bytes.now }
{
    bytes.split_at(count.min(bytes.len())).1
}

/// A fault at an entry, in slices between two texts.
fn entry_slices<'a>(
    before: &'a [u8],
    code: &'a [u8],
    entry: &'a [u8],
    after: &'a [u8],
) -> [&'a [u8]; 5]
    ensures { slices_bytes result ≡ before.now ++ (code.now ++ font_entry_text entry.now)
        ++ after.now }
{
    if is_glyph(entry) {
        [before, code, b" glyph ", past(1, entry), after]
    } else {
        [before, code, b" subr ", past(DUP_LEN, entry), after]
    }
}

/// A code and a place, in slices between two texts. The number is that of the place.
fn place_slices<'a>(
    before: &'a [u8],
    code: &'a [u8],
    place: &'a FontPlace,
    number: &'a str,
    after: &'a [u8],
) -> [&'a [u8]; 5]
    requires { number.now ≡ decimal (font_place_number place.now) }
    ensures { slices_bytes result ≡ before.now ++ (code.now ++ font_place_text place.now)
        ++ after.now }
{
    match place {
        FontPlace::Nowhere => [before, code, b"", b"", after],
        FontPlace::Byte(_) => [before, code, b" byte ", number.as_bytes(), after],
        FontPlace::Entry(entry) => entry_slices(before, code, entry.as_slice(), after),
    }
}

/// Writes a fault of a font's file by its code and its place, where it has one, between two texts:
/// `D7 glyph A`. It takes no memory.
#[tactic(auto, unfolding(crate::specs::FontFaults::font_fault_text))]
pub fn put_font_fault<W: Write>(
    writer: &mut Counted<W>,
    before: &[u8],
    fault: &FontFault,
    after: &[u8],
) -> io::Result<()>
    ensures { Writes W.contents writer.old writer.new
        (before.now ++ font_fault_text fault.now ++ after.now) result }
{
    let code = code_name(fault.code);
    let mut buffer = Buffer::new();
    let number = buffer.format(place_number(&fault.place));
    let slices = place_slices(before, code, &fault.place, number, after);
    write_slices(writer, &slices)
}

/// The text of a fault of a font's file: its code and, where it has one, its place.
pub fn font_fault_text(alloc: Global, fault: &FontFault) -> Result<Vec<u8>, AllocError>
    ensures { IfOk result (λ text. text.items ≡ font_fault_text fault.now) }
{
    let mut text = Counted::new(Vec::new(alloc));
    match put_font_fault(&mut text, b"", fault, b"") {
        Ok(()) => Ok(text.into_inner()),
        // A vector fails to take bytes only where it can't grow.
        Err(_) => Err(AllocError),
    }
}
