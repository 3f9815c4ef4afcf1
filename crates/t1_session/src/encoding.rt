//! The names that an encoding gives codes, a line each.
ghost use Rattle.std.specs.Prelude.{◌≡◌, ◌++◌, option_map, IfOk, OnOk};
ghost use Rattle.t1_session.specs.Queries.{code_line, encoding_text};

use std::alloc::{AllocError, Global};
use t1_parts::{push_decimal, push_line};
use t1_source::Source;

/// Adds the line of a code, where it has a name.
fn push_code(text: &mut Vec<u8>, code: u16, name: Option<&[u8]>) -> Result<(), AllocError>
    ensures { OnOk result (text.new.items ≡ text.old.items ++ code_line code
        (option_map (λ n. n.now) name.entry)) }
{
    let Some(name) = name else {
        return Ok(());
    };
    push_decimal(text, u64::from(code))?;
    text.push(b' ')?;
    push_line(text, name)
}

/// The codes that have a name, and these, by code.
pub fn encoding_text(alloc: Global, source: &Source) -> Result<Vec<u8>, AllocError>
    ensures { IfOk result (λ text. text.items ≡ encoding_text source.now) }
{
    let names = source.names_by_code();
    let mut text = Vec::new(alloc);
    for code in 0..256_u16 {
        push_code(&mut text, code, names[usize::from(code)])?;
    }
    Ok(text)
}
