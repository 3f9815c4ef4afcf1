//! Files as the data of an answer: after their length, and not made in memory.
ghost use Rattle.std.specs.Prelude.{◌≡◌, Ok};
ghost use Rattle.t1_code.specs.Writing.{Puts};
ghost use Rattle.t1_code.specs.Parts.{PassesFile, length_of, pieces_text};
ghost use Rattle.t1_commands.specs.AnswerParts.{data_of, data_head};

use itoa::Buffer;
use std::io::{self, Write};
use t1_code::{FileForm, FileLen, OutError, Outlet, Parts};

/// Passes on the line that says how many bytes follow.
fn put_head<W: Write>(outlet: &mut Outlet<W>, len: u64) -> io::Result<()>
    ensures { Puts W.contents outlet.old outlet.new (data_head len) result }
{
    let mut buffer = Buffer::new();
    let digits = buffer.format(len);
    outlet.put_slices(&[b"data ", digits.as_bytes(), b"\n"])
}

/// Passes on a file of so many bytes, between the line that says how many they are and a line end.
fn put_data<F: FileForm, W: Write>(
    form: &F,
    len: u64,
    parts: &Parts,
    outlet: &mut Outlet<W>,
) -> Result<(), OutError>
    requires { length_of
        (F.file form.now parts.now.clear.now (pieces_text parts.now) parts.now.trailer.now)
        ≡ Ok len }
    ensures { PassesFile W.contents outlet.old outlet.new
        (data_of
        (F.file form.now parts.now.clear.now (pieces_text parts.now) parts.now.trailer.now))
        result }
{
    put_head(outlet, len)?;
    form.put(parts, outlet)?;
    outlet.put(b"\n")?;
    Ok(())
}

/// A form of a font file, as data.
#[derive(Clone, Copy)]
pub struct Data<F> {
    /// The form of the file.
    pub form: F,
}

impl<F: FileLen> FileForm for Data<F> {
    ghost use Rattle.t1_commands.specs.AnswerParts.{data_of};

    ghost file = { λ answer clear private trailer.
        data_of (F.file answer.form clear private trailer) };

    fn put<W: Write>(&self, parts: &Parts, outlet: &mut Outlet<W>) -> Result<(), OutError> {
        let len = self.form.len(parts)?;
        put_data(&self.form, len, parts, outlet)
    }
}
