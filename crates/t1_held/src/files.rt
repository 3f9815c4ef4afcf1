//! The files of a source, with the charstrings that are held of it.
ghost use Rattle.t1_font.specs.Assembly.{file_in};
ghost use Rattle.t1_code.specs.Parts.{Prints};
ghost use Rattle.t1_held.specs.Held.{IsHeld};

use crate::held::Held;
use std::alloc::Global;
use std::io::Write;
use t1_charstrings::write_kept_file;
use t1_code::{Counted, FileForm, OutError};
use t1_source::Source;
use t1_source::laws::text_of_source_read;

/// Writes the file of a source in a form. Nothing is compiled or encrypted but the whole by eexec,
/// and no file is made in memory. The whole file at `Ok`, a beginning of it at `Write`, nothing
/// where memory runs out.
pub fn write_held_file<F: FileForm, W: Write>(
    alloc: Global,
    held: &Held,
    source: &Source,
    form: &F,
    out: &mut Counted<W>,
) -> Result<(), OutError>
    requires held { IsHeld source.now held.now }
    ensures { Prints W.contents out.old out.new (file_in (F.file form.now) source.now) result }
{
    text_of_source_read(source);
    write_kept_file(alloc, &held.charstrings, source, form, out)
}
