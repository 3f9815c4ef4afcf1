//! Bytes as they are shown.
ghost use Rattle.std.specs.Prelude.{◌≡◌, ◌++◌, OnOk};
ghost use Rattle.t1_fault_texts.specs.Shown.{shown, shown_byte};

use std::alloc::{AllocError, Global};

/// Adds a byte as it is shown: a space and what is printed as they are, any other byte by its
/// value, as `\xa0`.
fn push_shown_byte(alloc: Global, text: &mut Vec<u8>, byte: u8) -> Result<(), AllocError>
    ensures { OnOk result (text.new.items ≡ text.old.items ++ shown_byte byte) }
{
    if byte == b' ' || byte.is_ascii_graphic() {
        text.push(byte)?;
        return Ok(());
    }
    let digits = hex::encode(alloc, [byte])?;
    text.extend_from_slice(b"\\x")?;
    text.extend_from_slice(digits.as_bytes())?;
    Ok(())
}

/// Adds bytes as they are shown.
pub fn push_shown(alloc: Global, text: &mut Vec<u8>, bytes: &[u8]) -> Result<(), AllocError>
    ensures { OnOk result (text.new.items ≡ text.old.items ++ shown bytes.now) }
{
    for byte in bytes {
        push_shown_byte(alloc, text, *byte)?;
    }
    Ok(())
}
