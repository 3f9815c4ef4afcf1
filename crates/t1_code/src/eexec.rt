//! The private text on its way into a file: encrypted, in segments or in lines of digits.
ghost use Rattle.std.specs.Prelude.{◌≡◌, ◌≤◌, [], length, OnOk};
ghost use Rattle.std.specs.List.{flat_map};
ghost use Rattle.t1_code.specs.Cipher.{cipher as encrypted, eexec, key_after};
ghost use Rattle.t1_code.specs.Writing.{Puts};
ghost use Rattle.t1_code.specs.Eexec.{formed, form_after, EexecState, enciphered, state_after};
ghost use Rattle.t1_code.specs.Parts.{piece_text, slices_bytes};

use crate::charstring::Cipher;
use crate::chunk::Chunk;
use crate::counted::MAX_PUT;
use crate::form::{EEXEC_LEAD, charstring_len, slices};
use crate::hexadecimal::HexLines;
use crate::outlet::Outlet;
use crate::parts::Piece;
use crate::segments::Segmenter;
use itoa::Buffer;
use std::io::{self, Write};
use std::marker::Model;

/// The key that eexec encryption begins with.
const EEXEC_KEY: u16 = 55_665;

/// How encrypted text stands in a file.
#[derive(Drop)]
pub(crate) enum EncryptedForm {
    /// As bytes in segments of a PFB file.
    Binary(Segmenter),
    /// As lines of hexadecimal digits.
    Hexadecimal(HexLines),
}

impl EncryptedForm {
    /// Passes encrypted bytes on.
    fn put<W: Write>(&mut self, outlet: &mut Outlet<W>, bytes: &[u8]) -> io::Result<()>
        ensures text { Puts W.contents outlet.old outlet.new (formed self.old bytes.now) result }
        ensures state { OnOk result (self.new ≡ form_after self.old bytes.now) }
    {
        match self {
            EncryptedForm::Binary(segmenter) => segmenter.put(outlet, bytes),
            EncryptedForm::Hexadecimal(lines) => lines.put(outlet, bytes),
        }
    }
}

/// Encrypts the private text, in turns, by way of a buffer. Contracts see the key that stands there
/// and the form.
#[derive(Drop)]
pub(crate) struct EexecWriter {
    cipher: Cipher,
    form: EncryptedForm,
    buffer: [u8; MAX_PUT],
}

impl Model for EexecWriter {
    ghost use Rattle.t1_code.specs.Eexec.{EexecState};

    ghost Value = { EexecState };

    ghost view = { λ s. record { key = s.cipher; form = s.form } };
}

/// Puts the cipher bytes of plain ones, no more than the buffer holds, at the buffer's front.
fn encrypt_into<'a>(cipher: &mut Cipher, buffer: &'a mut [u8; MAX_PUT], plain: &[u8]) -> &'a [u8]
    requires { length plain.now ≤ 4096 }
    ensures bytes { result.now ≡ encrypted cipher.old plain.now }
    ensures key { cipher.new ≡ key_after cipher.old (encrypted cipher.old plain.now) }
{
    let place = buffer.split_at_mut(plain.len()).0;
    place.copy_from_slice(plain);
    cipher.encrypt(place);
    place
}

impl EexecWriter {
    pub(crate) fn new(form: EncryptedForm) -> EexecWriter
        ensures key { result.key ≡ 55665 }
        ensures form { result.form ≡ form }
    {
        EexecWriter {
            cipher: Cipher::new(EEXEC_KEY),
            form,
            buffer: [0; MAX_PUT],
        }
    }

    /// Passes bytes on encrypted.
    fn put<W: Write>(&mut self, outlet: &mut Outlet<W>, bytes: &[u8]) -> io::Result<()>
        ensures text { Puts W.contents outlet.old outlet.new
            (enciphered self.old bytes.now) result }
        ensures state { OnOk result (self.new ≡ state_after self.old bytes.now) }
    {
        let mut rest = bytes;
        while !rest.is_empty() {
            let (front, after) = rest.split_at(rest.len().min(MAX_PUT));
            let encrypted = encrypt_into(&mut self.cipher, &mut self.buffer, front);
            self.form.put(outlet, encrypted)?;
            rest = after;
        }
        Ok(())
    }

    /// Passes slices on encrypted, one after another.
    fn put_each<W: Write>(&mut self, outlet: &mut Outlet<W>, slices: &[&[u8]]) -> io::Result<()>
        ensures text { Puts W.contents outlet.old outlet.new
            (enciphered self.old (slices_bytes slices.now)) result }
        ensures state { OnOk result (self.new ≡ state_after self.old (slices_bytes slices.now)) }
    {
        for slice in slices {
            self.put(outlet, slice)?;
        }
        Ok(())
    }

    /// Passes the bytes that wait on encrypted.
    fn pass<W: Write>(&mut self, outlet: &mut Outlet<W>, waiting: &mut Chunk) -> io::Result<()>
        ensures text { Puts W.contents outlet.old outlet.new
            (enciphered self.old waiting.old) result }
        ensures state { OnOk result (self.new ≡ state_after self.old waiting.old) }
        ensures empty { OnOk result (waiting.new ≡ []) }
    {
        waiting.encrypt(&mut self.cipher);
        self.form.put(outlet, waiting.as_slice())?;
        waiting.clear();
        Ok(())
    }

    /// Passes pieces of the private text on encrypted, as many of them in one go as a chunk takes.
    fn put_pieces<W: Write>(&mut self, outlet: &mut Outlet<W>, pieces: &[Piece]) -> io::Result<()>
        ensures text { Puts W.contents outlet.old outlet.new
            (enciphered self.old (flat_map piece_text pieces.now)) result }
    {
        let mut waiting = Chunk::new();
        for piece in pieces {
            let mut buffer = Buffer::new();
            let digits = buffer.format(charstring_len(piece));
            let slices = slices(piece, digits);
            if waiting.keep_all(&slices) {
                continue;
            }
            self.pass(outlet, &mut waiting)?;
            if !waiting.keep_all(&slices) {
                self.put_each(outlet, &slices)?;
            }
        }
        self.pass(outlet, &mut waiting)
    }
}

/// Passes the private text on, after its leading bytes, encrypted and in this form.
pub(crate) fn put_private<W: Write>(
    outlet: &mut Outlet<W>,
    form: EncryptedForm,
    pieces: &[Piece],
) -> io::Result<()>
    ensures { Puts W.contents outlet.old outlet.new
        (formed form (eexec (flat_map piece_text pieces.now))) result }
{
    let mut writer = EexecWriter::new(form);
    writer.put(outlet, &[0; EEXEC_LEAD])?;
    writer.put_pieces(outlet, pieces)
}
