//! Where faults of the parts of a file stand in the file.
ghost use Rattle.std.specs.Prelude.{◌≡◌, ◌+◌, ◌<◌, ◌^◌, false, length};
ghost use Rattle.t1_disassemble.specs.FilePlaces.{is_behind, has_begun};
ghost use Rattle.t1_disassemble.specs.FilePlaced.{Stands, front_place, place_byte, fault_byte};
ghost use Rattle.t1_disassemble.specs.FilePlaced.{fault_moved, place_moved};
ghost use Rattle.t1_disassemble.specs.SegmentsFound.{found_segment};
ghost use Rattle.t1_disassemble.specs.SegmentsRead.{segments_of};

use crate::fault::{FontFault, FontPlace, FontRefusal};
use crate::segments::{BINARY, Found, HEAD_LEN, HEADS_LEN, next_segment};

/// Whether a segment holds text of the tail.
fn is_behind(begun: bool, segment: Found) -> bool
    ensures { result ≡ is_behind begun (found_segment segment.entry).0 }
{
    begun && segment.kind != BINARY
}

/// Whether the encrypted part has begun with a segment or before it.
fn has_begun(begun: bool, segment: Found) -> bool
    ensures { result ≡ has_begun begun (found_segment segment.entry).0 }
{
    begun || (segment.kind == BINARY && !segment.bytes.is_empty())
}

/// How many bytes a file with segments has before the byte that has so many before it in the clear
/// text and the encrypted part.
pub(crate) fn byte_place(file: &[u8], count: u64) -> u64
    ensures { Stands 0 0 false (segments_of (length file.now) file.now) count result }
{
    let mut rest = file;
    let mut end = 0;
    let mut begun = false;
    let mut left = count;
    while let Ok(Some(found)) = next_segment(rest) {
        let len = found.bytes.len() as u64;
        let behind = (file.len() - found.after.len()) as u64;
        rest = found.after;
        if is_behind(begun, found) {
            continue;
        }
        if left < len {
            return behind - len + left;
        }
        begun = has_begun(begun, found);
        left -= len;
        end = behind;
    }
    end
}

/// The same of a file whose first segment has so many bytes of text and whose second so many bytes
/// of binary data, and none is binary after them.
pub(crate) fn front_place(text_len: usize, binary_len: usize, count: u64) -> u64
    requires { 12 + text_len + binary_len < 2 ^ 64 }
    ensures { result ≡ front_place text_len binary_len count }
{
    let text_end = text_len as u64;
    let coded_end = (text_len + binary_len) as u64;
    if count < text_end {
        return HEAD_LEN as u64 + count;
    }
    HEADS_LEN as u64 + count.min(coded_end)
}

/// The number of a place; 0 where it is none of a byte.
fn place_byte(place: &FontPlace) -> u64
    ensures { result ≡ place_byte place.now }
{
    match place {
        FontPlace::Byte(count) => *count,
        FontPlace::Nowhere => 0,
        FontPlace::Entry(_) => 0,
    }
}

/// The same of what is refused.
pub(crate) fn fault_byte(refusal: &FontRefusal) -> u64
    ensures { result ≡ fault_byte refusal.now }
{
    match refusal {
        FontRefusal::Fault(fault) => place_byte(&fault.place),
        FontRefusal::Memory => 0,
    }
}

/// A place, or this one where it is of a byte.
fn place_moved(to: u64, place: FontPlace) -> FontPlace
    ensures { result ≡ place_moved to place }
{
    match place {
        FontPlace::Byte(_) => FontPlace::Byte(to),
        FontPlace::Nowhere => FontPlace::Nowhere,
        FontPlace::Entry(name) => FontPlace::Entry(name),
    }
}

/// What is refused, at this place where it has one of a byte.
pub(crate) fn fault_moved(to: u64, refusal: FontRefusal) -> FontRefusal
    ensures { result ≡ fault_moved to refusal }
{
    match refusal {
        FontRefusal::Memory => FontRefusal::Memory,
        FontRefusal::Fault(fault) => FontRefusal::Fault(FontFault {
            code: fault.code,
            place: place_moved(to, fault.place),
        }),
    }
}
