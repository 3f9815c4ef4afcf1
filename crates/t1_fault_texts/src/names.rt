//! Names of glyphs, one after another.
ghost use Rattle.std.specs.Prelude.{◌≡◌, ◌++◌, flat_map, OnOk};
ghost use Rattle.t1_fault_texts.specs.Names.{name_after as after_text, listed};

use std::alloc::AllocError;
use t1_frac::Bytes;

/// Adds a name after what stands between two.
fn push_after(text: &mut Vec<u8>, between: &[u8], name: &[u8]) -> Result<(), AllocError>
    ensures { OnOk result (text.new.items ≡ text.old.items ++ after_text between.now name.now) }
{
    text.extend_from_slice(between)?;
    text.extend_from_slice(name)?;
    Ok(())
}

/// Adds names, each after what stands between two.
fn push_others(text: &mut Vec<u8>, between: &[u8], names: &[Bytes]) -> Result<(), AllocError>
    ensures { OnOk result (text.new.items
        ≡ text.old.items ++ flat_map (after_text between.now) names.now) }
{
    for name in names {
        push_after(text, between, name.as_slice())?;
    }
    Ok(())
}

/// Adds names with these bytes between each two.
pub fn push_names(text: &mut Vec<u8>, between: &[u8], names: &[Bytes]) -> Result<(), AllocError>
    ensures { OnOk result (text.new.items ≡ text.old.items ++ listed between.now names.now) }
{
    let Some((first, others)) = names.split_first() else {
        return Ok(());
    };
    text.extend_from_slice(first.as_slice())?;
    push_others(text, between, others)
}
