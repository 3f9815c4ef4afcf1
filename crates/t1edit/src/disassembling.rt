//! The source of a font's file.
ghost use Rattle.t1_disassemble.specs.Disassembly.{disassembled};
ghost use Rattle.t1edit.specs.Disassembling.{DeliversSource};

use crate::status::Stop;
use std::alloc::Global;
use std::io::Write;
use t1_code::Counted;
use t1_disassemble::read_font;
use t1_session::ServeError;

/// Writes the source of a font's file, whose memory is given back.
pub fn disassemble_to<W: Write>(
    alloc: Global,
    font: Vec<u8>,
    out: &mut Counted<W>,
) -> Result<(), Stop>
    ensures { DeliversSource W.contents out.old out.new (disassembled font.items) result }
{
    let source = read_font(alloc, font)?;
    match source.write(out) {
        Ok(()) => Ok(()),
        Err(_) => Err(Stop::from(ServeError::Write)),
    }
}
