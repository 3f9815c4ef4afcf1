//! Texts in buffers of the caller's.
ghost use Rattle.std.specs.Prelude.{OnErr, OnOk};
ghost use Rattle.t1_commands.specs.AnswerTexts.{fault_text};
ghost use Rattle.t1_fault_texts.specs.FontFaults.{font_fault_text};
ghost use Rattle.t1_c.specs.Calls.{NothingTold, Told};

use std::alloc::{AllocError, Global};
use t1_disassemble::FontFault;
use t1_fault_texts::{fault_text, font_fault_text};
use t1_frac::Fault;

/// Writes as much of a text as there is room for over the beginning of a buffer, and says how long
/// it is.
pub fn put(text: &[u8], out: &mut [u8]) -> usize
    ensures { Told text.now out.old out.new result }
{
    let count = text.len().min(out.len());
    out.split_at_mut(count)
        .0
        .copy_from_slice(text.split_at(count).0);
    text.len()
}

/// Tells the text of a fault, where there is memory for it.
pub fn tell_fault(
    alloc: Global,
    fault: &Fault,
    out: &mut [u8],
    length: &mut usize,
) -> Result<(), AllocError>
    ensures ok { OnOk result (Told (fault_text fault.now) out.old out.new length.new) }
    ensures err { OnErr result (NothingTold out.old out.new length.old length.new) }
{
    let text = fault_text(alloc, fault)?;
    *length = put(&text, out);
    Ok(())
}

/// The same, of a fault of a font's file.
pub fn tell_font_fault(
    alloc: Global,
    fault: &FontFault,
    out: &mut [u8],
    length: &mut usize,
) -> Result<(), AllocError>
    ensures ok { OnOk result (Told (font_fault_text fault.now) out.old out.new length.new) }
    ensures err { OnErr result (NothingTold out.old out.new length.old length.new) }
{
    let text = font_fault_text(alloc, fault)?;
    *length = put(&text, out);
    Ok(())
}
