//! The files of a source, with the charstrings that are kept.
ghost use Rattle.std.specs.List.{flat_map};
ghost use Rattle.t1_text.specs.Lines.{joined};
ghost use Rattle.t1_font.specs.Assembly.{file_in, trailer_text};
ghost use Rattle.t1_code.specs.Parts.{piece_text, Prints};
ghost use Rattle.t1_source.specs.WellFormed.{IsWellFormed};
ghost use Rattle.t1_charstrings.specs.Kept.{AreEncrypted};

use crate::entries::Charstrings;
use crate::lines::{lines_of, pieces_of};
use std::alloc::Global;
use std::io::Write;
use t1_code::{Counted, FileForm, OutError, Parts, Piece, write_file};
use t1_font::{clear_text, trailer};
use t1_source::Source;

/// Writes the file of three parts in a form, or answers F23 with nothing written.
pub(crate) fn write_parts<F: FileForm, W: Write>(
    form: &F,
    clear: &[u8],
    pieces: &[Piece],
    trailer: &[u8],
    out: &mut Counted<W>,
) -> Result<(), OutError>
    ensures { Prints W.contents out.old out.new
        (F.file form.now clear.now (flat_map piece_text pieces.now) trailer.now) result }
{
    let parts = Parts {
        clear,
        pieces,
        trailer,
    };
    write_file(form, &parts, out)
}

/// Writes the file of a source in a form, by the pieces of its private text: the whole file at
/// `Ok`, a beginning of it at `Write`. A fault is F23; nothing is written then, nor where memory
/// runs out.
fn write_pieces<F: FileForm, W: Write>(
    alloc: Global,
    source: &Source,
    form: &F,
    pieces: &[Piece],
    out: &mut Counted<W>,
) -> Result<(), OutError>
    ensures { Prints W.contents out.old out.new
        (F.file form.now (joined source.now.clear) (flat_map piece_text pieces.now)
        (trailer_text source.now.tail)) result }
{
    let clear = clear_text(alloc, source.clear())?;
    let trailer = trailer(alloc, source.tail())?;
    write_parts(form, &clear, pieces, &trailer, out)
}

/// Writes the file of a source in a form, with the charstrings that are kept: nothing is compiled
/// or encrypted but the whole by eexec, and no file is made in memory. The whole file at `Ok`, a
/// beginning of it at `Write`; nothing is written at F23, nor where memory runs out.
pub fn write_kept_file<F: FileForm, W: Write>(
    alloc: Global,
    charstrings: &Charstrings,
    source: &Source,
    form: &F,
    out: &mut Counted<W>,
) -> Result<(), OutError>
    requires well { IsWellFormed source.now }
    requires kept { AreEncrypted source.now charstrings.now }
    ensures { Prints W.contents out.old out.new (file_in (F.file form.now) source.now) result }
{
    let lines = lines_of(alloc, charstrings, source.operator(), source.items())?;
    let pieces = pieces_of(alloc, &lines)?;
    write_pieces(alloc, source, form, &pieces, out)
}
