//! The forms of a font file: the PFB, written part by part, and what each form has in common.
ghost use Rattle.std.specs.Prelude.{◌≢◌, Err, ◌≡◌, ◌^◌, ◌-◌, min, length, decimal, IfErr, IfOk};
ghost use Rattle.std.specs.Prelude.{is_err, ◌≤◌};
ghost use Rattle.t1_code.specs.Parts.{pieces_text, Prints, piece_text, charstring_length};
ghost use Rattle.t1_code.specs.Parts.{slices_bytes, file_of};
ghost use Rattle.std.specs.List.{flat_map};
ghost use Rattle.t1_code.specs.Cipher.{eexec};
ghost use Rattle.t1_code.specs.Pfb.{has_long_part, pfb};
ghost use Rattle.t1_frac.specs.declared.fault.Code.TheVariants.{F23};
ghost use Rattle.t1_code.specs.Writing.{Puts};

use crate::block_size::BlockSize;
use crate::counted::Counted;
use crate::eexec::{EncryptedForm, put_private};
use crate::outlet::Outlet;
use crate::parts::{OutError, Parts, Piece};
use crate::segments::{MARKER, Segmenter, put_part};
use itoa::Buffer;
use std::io::{self, Write};
use t1_frac::Code;

/// How many zero bytes stand in front of the private text.
pub const EEXEC_LEAD: usize = 4;

/// The most bytes of a part.
pub const MAX_PART: usize = (1 << 31) - 1;

/// How long the charstring of a piece is.
pub(crate) fn charstring_len(piece: &Piece) -> usize
    ensures { result ≡ charstring_length piece.now }
{
    match piece {
        Piece::Plain(_) => 0,
        Piece::Entry { charstring, .. } => charstring.len(),
    }
}

/// The bytes of a piece, in slices. The digits are those of its charstring's length.
pub(crate) fn slices<'a>(piece: &Piece<'a>, digits: &'a str) -> [&'a [u8]; 10]
    requires { digits.now ≡ decimal (charstring_length piece.now) }
    ensures { slices_bytes result ≡ piece_text piece.now }
{
    match piece {
        Piece::Plain(bytes) => [bytes, &[], &[], &[], &[], &[], &[], &[], &[], &[]],
        Piece::Entry {
            head,
            operator,
            charstring,
            closing,
        } => [
            head,
            b" ",
            digits.as_bytes(),
            b" ",
            operator,
            b" ",
            charstring,
            if closing.is_empty() { b"" } else { b" " },
            closing,
            b"\n",
        ],
    }
}

/// How long the slices are together, up to 2^64 - 1.
pub(crate) fn total_len(slices: &[&[u8]]) -> usize
    ensures { result ≡ min (length (slices_bytes slices.now)) (2 ^ 64 - 1) }
{
    let mut total: usize = 0;
    for slice in slices {
        total = total.saturating_add(slice.len());
    }
    total
}

/// How long the private text is, up to 2^64 - 1.
fn private_len(pieces: &[Piece]) -> usize
    ensures { result ≡ min (length (flat_map piece_text pieces.now)) (2 ^ 64 - 1) }
{
    let mut total: usize = 0;
    for piece in pieces {
        let mut buffer = Buffer::new();
        let digits = buffer.format(charstring_len(piece));
        total = total.saturating_add(total_len(&slices(piece, digits)));
    }
    total
}

/// How long the private part is, its leading bytes included; F23 where a part of the file is too
/// long.
pub(crate) fn private_part_len(parts: &Parts) -> Result<usize, Code>
    ensures fault { IfErr result (λ code. code ≡ F23) }
    ensures judged { is_err result
        ≡ has_long_part parts.now.clear.now (pieces_text parts.now) parts.now.trailer.now }
    ensures len { IfOk result (λ len. len ≡ length (eexec (pieces_text parts.now))) }
{
    let private_len = private_len(parts.pieces).saturating_add(EEXEC_LEAD);
    let longest = parts.clear.len().max(private_len).max(parts.trailer.len());
    if longest > MAX_PART {
        return Err(Code::F23);
    }
    Ok(private_len)
}

/// A form of a font file.
pub trait FileForm {
    ghost use Rattle.std.specs.Prelude.{ℕ, List, Result};
    ghost use Rattle.t1_frac.specs.declared.fault.Fault.{Fault};
    ghost use Rattle.t1_code.specs.Parts.{pieces_text, PassesFile};

    ghost file: { Self → List ℕ → List ℕ → List ℕ → Result (List ℕ) Fault };

    /// Passes on the file of the parts, or answers F23 with nothing passed on. It takes no memory.
    fn put<W: Write>(&self, parts: &Parts, outlet: &mut Outlet<W>) -> Result<(), OutError>
        ensures { PassesFile W.contents outlet.old outlet.new
            (file self.now parts.now.clear.now (pieces_text parts.now) parts.now.trailer.now)
            result };
}

/// Writes the file of the parts in a form: the whole file at `Ok`, a beginning of it at `Write`,
/// nothing at F23. No call of the writer is handed more than 4,096 bytes. It takes no memory.
pub fn write_file<F: FileForm, W: Write>(
    form: &F,
    parts: &Parts,
    out: &mut Counted<W>,
) -> Result<(), OutError>
    ensures prints { Prints W.contents out.old out.new
        (F.file form.now parts.now.clear.now (pieces_text parts.now) parts.now.trailer.now)
        result }
    ensures no_memory { result ≢ Err OutError.Memory }
{
    let mut outlet = Outlet::new(out);
    form.put(parts, &mut outlet)?;
    outlet.send()?;
    Ok(())
}

/// The block length of a file that holds each part whole, in one segment.
pub const WHOLE_PARTS: usize = MAX_PART;

/// The type of a segment of text.
const ASCII: u8 = 1;

/// The type of a segment of encrypted bytes.
const BINARY: u8 = 2;

/// The type that ends the file.
const END: u8 = 3;

/// Passes on the file in blocks of this size. The private text with its leading bytes has the
/// length that is given.
fn put_file<W: Write>(
    outlet: &mut Outlet<W>,
    parts: &Parts,
    size: BlockSize,
    private_len: usize,
) -> io::Result<()>
    requires { private_len ≡ length (eexec (pieces_text parts.now)) }
    ensures { Puts W.contents outlet.old outlet.new
        (pfb size parts.now.clear.now (pieces_text parts.now) parts.now.trailer.now) result }
{
    size.has_bytes();
    put_part(outlet, ASCII, size, parts.clear)?;
    let segmenter = Segmenter::begin(outlet, BINARY, size, private_len)?;
    put_private(outlet, EncryptedForm::Binary(segmenter), parts.pieces)?;
    put_part(outlet, ASCII, size, parts.trailer)?;
    outlet.put(&[MARKER, END])
}

/// The PFB form.
#[derive(Clone, Copy)]
pub struct Pfb {
    /// How many bytes a segment has, the last of a part the rest; an empty part is one empty
    /// segment.
    pub size: BlockSize,
}

impl FileForm for Pfb {
    ghost use Rattle.t1_code.specs.Pfb.{pfb_of};

    ghost file = { λ form. pfb_of form.size };

    fn put<W: Write>(&self, parts: &Parts, outlet: &mut Outlet<W>) -> Result<(), OutError> {
        let private_len = private_part_len(parts)?;
        put_file(outlet, parts, self.size, private_len)?;
        Ok(())
    }
}

/// Writes the PFB file of the parts, each cut into segments of so many bytes, the last with the
/// rest; an empty part is one empty segment. F23 where a part has more than 2^31 - 1 bytes, with
/// nothing written; the private part counts its four leading bytes too. No call of the writer is
/// handed more than 4,096 bytes. It takes no memory.
pub fn write_pfb<W: Write>(parts: &Parts, size: usize, out: &mut Counted<W>) -> Result<(), OutError>
    requires some { 1 ≤ size }
    requires short { size ≤ 2 ^ 31 - 1 }
    ensures prints { Prints W.contents out.old out.new (file_of size parts.now) result }
    ensures no_memory { result ≢ Err OutError.Memory }
{
    let size = BlockSize::new(size);
    write_file(&Pfb { size }, parts, out)
}
