//! Vectors from outside, with memory that doesn't run out.
use std::alloc::Global;
use std::io::{self, ErrorKind, Write};
use std::test::Fail;
use t1_code::{
    BlockSize, Counted, MAX_PUT, OutError, Parts, Piece, WHOLE_PARTS, assemble, encrypt, pfb_len,
    write_pfa, write_pfb,
};
use t1_frac::{Code, Words};

/// The charstring code of a body.
fn code_of(alloc: Global, body: &str) -> Result<Vec<u8>, Fail> {
    Ok(assemble(alloc, &Words::of(body.as_bytes()))?)
}

#[test]
fn assembles(rt: HostRuntime) -> Result<(), Fail> {
    let code = code_of(rt.alloc(), "15 721 hsbw")?;
    assert!(rt; code.as_slice() == [0x9A, 0xF9, 0x65, 0x0D].as_slice());
    Ok(())
}

#[test]
fn assembles_a_glyph_without_a_path(rt: HostRuntime) -> Result<(), Fail> {
    let code = code_of(rt.alloc(), "0 250 hsbw endchar")?;
    assert!(rt; code.as_slice() == [0x8B, 0xF7, 0x8E, 0x0D, 0x0E].as_slice());
    Ok(())
}

#[test]
fn encrypts(rt: HostRuntime) -> Result<(), Fail> {
    let plain = [0x8B, 0xF7, 0x8E, 0x0D, 0x0E];
    let text = encrypt(rt.alloc(), 4330, 4, &plain)?;
    assert!(rt; text.as_slice() == SPACE.as_slice());
    Ok(())
}

/// A writer over memory that takes some bytes a call and in all, and then fails by an error or by
/// taking none. It fails a call that hands it more than 4,096 bytes.
#[derive(Drop)]
struct Short {
    taken: Vec<u8>,
    size: usize,
    room: usize,
    reports: bool,
}

impl Write for Short {
    fn write(&mut self, bytes: &[u8]) -> io::Result<usize> {
        let count = bytes.len().min(self.size).min(self.room);
        if bytes.len() > MAX_PUT || (count == 0 && self.reports) {
            return Err(ErrorKind::Other.into());
        }
        self.taken.extend_from_slice(bytes.split_at(count).0)?;
        self.room -= count;
        Ok(count)
    }

    fn flush(&mut self) -> io::Result<()> {
        Ok(())
    }
}

/// The charstring of the small font's one glyph, encrypted after four leading bytes.
const SPACE: [u8; 9] = [0x10, 0xBF, 0x31, 0x70, 0x79, 0xC7, 0x57, 0xBF, 0x91];

/// The pieces of the small font's private text.
const PIECES: [Piece; 3] = [
    Piece::Plain(b"/CharStrings 1 dict dup begin\n"),
    Piece::Entry {
        head: b"/space",
        operator: b"RD",
        charstring: &SPACE,
        closing: b"ND",
    },
    Piece::Plain(b"end\nmark currentfile closefile\n"),
];

/// Eight lines of 64 zeros, and the line after them.
fn trailer(alloc: Global) -> Result<Vec<u8>, Fail> {
    let mut trailer = Vec::new(alloc);
    for _ in 0..8 {
        trailer.extend_from_slice(&[b'0'; 64])?;
        trailer.push(b'\n')?;
    }
    trailer.extend_from_slice(b"cleartomark\n")?;
    Ok(trailer)
}

/// The parts of the small font.
fn small_font<'a>(trailer: &'a [u8]) -> Parts<'a> {
    Parts {
        clear: b"%!\n/Encoding StandardEncoding def\ncurrentfile eexec\n",
        pieces: &PIECES,
        trailer,
    }
}

fn is_small_font(file: &[u8]) -> bool {
    let start = [0x80, 0x01, 0x34, 0x00, 0x00, 0x00, 0x25, 0x21, 0x0A];
    let binary = [
        0x80, 0x02, 0x5A, 0x00, 0x00, 0x00, 0xD9, 0xD6, 0x6F, 0x63, 0x70, 0xEE,
    ];
    let trailer = [0x80, 0x01, 0x14, 0x02, 0x00, 0x00, 0x30];
    file.len() == 694
        && file.starts_with(&start)
        && file[58..].starts_with(&binary)
        && file[154..].starts_with(&trailer)
        && file.ends_with(&[0x80, 0x03])
}

/// The encrypted private text of the small font, as an encryption of its own wrote it.
const DIGITS: &str = "d9d66f6370eee3ab068e8c1efa81b201c643594025b5e986d74368bdfaaab61a
c5e6483703fcbbb05e531d434f1b0b6e1ee02d09c26f4a8ed779587e29f0cf35
b3aef780104819281b82c6fac18cfb516e296d5a833439e0e21b
";

/// The small font in blocks of 532 bytes, written a byte a call, and how many of the calls failed.
fn written_byte_by_byte(alloc: Global) -> Result<(Vec<u8>, u64), Fail> {
    let trailer = trailer(alloc)?;
    let mut out = Counted::new(Short {
        taken: Vec::new(alloc),
        size: 1,
        room: usize::MAX,
        reports: true,
    });
    write_pfb(&small_font(&trailer), 532, &mut out)?;
    let failures = out.failures();
    let Short { taken, .. } = out.into_inner();
    Ok((taken, failures))
}

#[test]
fn writes_a_byte_a_call(rt: HostRuntime) -> Result<(), Fail> {
    let (file, failures) = written_byte_by_byte(rt.alloc())?;
    assert!(rt; is_small_font(&file) && failures == 0);
    Ok(())
}

/// What a writer with room for so many bytes takes of the small font in blocks of one byte, and how
/// many of its calls failed.
fn cut_off(alloc: Global, room: usize, reports: bool) -> Result<(usize, u64), Fail> {
    let trailer = trailer(alloc)?;
    let mut out = Counted::new(Short {
        taken: Vec::new(alloc),
        size: usize::MAX,
        room,
        reports,
    });
    match write_pfb(&small_font(&trailer), 1, &mut out) {
        Err(OutError::Write) => {
            let failures = out.failures();
            Ok((out.into_inner().taken.len(), failures))
        }
        _ => Err(Fail::new("no failed write")),
    }
}

#[test]
fn stops_at_a_failed_write(rt: HostRuntime) -> Result<(), Fail> {
    for room in [0, 1, MAX_PUT, 4719] {
        let cut = cut_off(rt.alloc(), room, true)?;
        assert!(rt; cut == (room, 1));
    }
    Ok(())
}

#[test]
fn stops_where_no_byte_is_taken(rt: HostRuntime) -> Result<(), Fail> {
    for room in [0, 1, MAX_PUT, 4719] {
        let cut = cut_off(rt.alloc(), room, false)?;
        assert!(rt; cut == (room, 1));
    }
    Ok(())
}

/// The small font in hexadecimal.
fn in_hexadecimal(alloc: Global) -> Result<Vec<u8>, Fail> {
    let trailer = trailer(alloc)?;
    let mut out = Counted::new(Vec::new(alloc));
    write_pfa(&small_font(&trailer), &mut out)?;
    Ok(out.into_inner())
}

#[test]
fn writes_hexadecimal(rt: HostRuntime) -> Result<(), Fail> {
    let file = in_hexadecimal(rt.alloc())?;
    assert_eq!(rt; file.len(), 767);
    assert!(rt; file[52..].starts_with(DIGITS.as_bytes()));
    Ok(())
}

/// Two empty segments, one of the four leading bytes, and the end of the file.
#[test]
fn knows_how_long_empty_parts_are(rt: HostRuntime) -> Result<(), Fail> {
    let parts = Parts {
        clear: b"",
        pieces: &[],
        trailer: b"",
    };
    assert!(rt; matches!(pfb_len(&parts, BlockSize::new(40)), Ok(24)));
    Ok(())
}

/// One slice of 65,536 bytes, lent 32,768 times, makes a private part that no segment holds.
/// Nothing of it is written.
#[test]
fn refuses_a_part_of_two_gigabytes(rt: HostRuntime) -> Result<(), Fail> {
    let alloc = rt.alloc();
    let lent = vec![in alloc; 0u8; 65_536]?;
    let pieces = vec![in alloc; Piece::Plain(&lent); 32_768]?;
    let parts = Parts {
        clear: b"",
        pieces: &pieces,
        trailer: b"",
    };
    let mut out = Counted::new(Vec::new(alloc));
    match write_pfb(&parts, WHOLE_PARTS, &mut out) {
        Err(OutError::Fault(fault)) => assert!(rt; fault.code == Code::F23),
        _ => return Err(Fail::new("no fault")),
    }
    assert!(rt; out.into_inner().is_empty());
    Ok(())
}
