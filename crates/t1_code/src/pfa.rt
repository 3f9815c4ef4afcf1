//! The PFA file, written part by part.
ghost use Rattle.std.specs.Prelude.{◌≢◌, Err};
ghost use Rattle.std.specs.List.{flat_map};
ghost use Rattle.t1_code.specs.Cipher.{eexec};
ghost use Rattle.t1_code.specs.Writing.{Puts};
ghost use Rattle.t1_code.specs.Parts.{piece_text, pieces_text, hexadecimal_file_of, Prints};
ghost use Rattle.t1_code.specs.Pfa.{hexadecimal_lines, pfa};

use crate::counted::Counted;
use crate::eexec::{EncryptedForm, put_private};
use crate::form::{FileForm, private_part_len, write_file};
use crate::hexadecimal::HexLines;
use crate::outlet::Outlet;
use crate::parts::{OutError, Parts, Piece};
use std::io::{self, Write};

/// Passes the encrypted private text on in lines of hexadecimal digits.
fn put_digits<W: Write>(outlet: &mut Outlet<W>, pieces: &[Piece]) -> io::Result<()>
    ensures { Puts W.contents outlet.old outlet.new
        (hexadecimal_lines (eexec (flat_map piece_text pieces.now))) result }
{
    put_private(outlet, EncryptedForm::Hexadecimal(HexLines::new()), pieces)?;
    outlet.put(b"\n")
}

/// Passes on the file.
fn put_file<W: Write>(outlet: &mut Outlet<W>, parts: &Parts) -> io::Result<()>
    ensures { Puts W.contents outlet.old outlet.new
        (pfa parts.now.clear.now (pieces_text parts.now) parts.now.trailer.now) result }
{
    outlet.put(parts.clear)?;
    put_digits(outlet, parts.pieces)?;
    outlet.put(parts.trailer)
}

/// The PFA form: the private part in lines of 64 lower-case hexadecimal digits.
#[derive(Clone, Copy)]
pub struct Pfa;

impl FileForm for Pfa {
    ghost use Rattle.t1_code.specs.Pfa.{pfa_of};

    ghost file = { λ _. pfa_of };

    fn put<W: Write>(&self, parts: &Parts, outlet: &mut Outlet<W>) -> Result<(), OutError> {
        private_part_len(parts)?;
        put_file(outlet, parts)?;
        Ok(())
    }
}

/// Writes the PFA file of the parts: the clear text, the encrypted private text in lines of 64
/// lower-case hexadecimal digits, and the trailer. F23 where a part has more than 2^31 - 1 bytes,
/// with nothing written; the private part counts its four leading bytes too, and each byte once. No
/// call of the writer is handed more than 4,096 bytes. It takes no memory.
pub fn write_pfa<W: Write>(parts: &Parts, out: &mut Counted<W>) -> Result<(), OutError>
    ensures prints { Prints W.contents out.old out.new (hexadecimal_file_of parts.now) result }
    ensures no_memory { result ≢ Err OutError.Memory }
{
    write_file(&Pfa, parts, out)
}
