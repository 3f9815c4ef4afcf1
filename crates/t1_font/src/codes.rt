//! The codes that an encoding gives to names.
ghost use Rattle.std.specs.Prelude.{◌≡◌, ℕ, List, None, Some, IfOk, OnOk, if◌then◌else◌};
ghost use Rattle.std.specs.Prelude.{option_map};
ghost use Rattle.std.specs.Option.{option_or};
ghost use Rattle.std.specs.Str.{bytes_eq};
ghost use Rattle.t1_source.specs.Codes.{lowest_code, name_of_code};
ghost use Rattle.t1_text.specs.Tokens.{is_token};
ghost use Rattle.t1_font.specs.Names.{code_among, code_kept};

use indexmap::IndexMap;
use std::alloc::{AllocError, Global};
use t1_source::Source;

/// Adds the code of a name, where the name has none.
fn add_code<'a>(
    codes: &mut IndexMap<&'a [u8], u8>,
    name: &'a [u8],
    code: u8,
) -> Result<(), AllocError>
    ensures { OnOk result
        ((g : List ℕ)
        → code_kept codes.new.entries g
        ≡ option_or (code_kept codes.old.entries g)
        (if bytes_eq g name.now then Some code else None)) }
{
    if codes.contains_key(name) {
        return Ok(());
    }
    codes.insert(name, code)?;
    Ok(())
}

/// Adds a code with its name, where it has one and the name has no code.
fn add_name<'a>(
    codes: &mut IndexMap<&'a [u8], u8>,
    name: Option<&'a [u8]>,
    code: u8,
) -> Result<(), AllocError>
    ensures { OnOk result
        ((g : List ℕ)
        → code_kept codes.new.entries g
        ≡ option_or (code_kept codes.old.entries g)
        (if is_token g (option_map (λ n. n.now) name.entry) then Some code else None)) }
{
    match name {
        Some(name) => add_code(codes, name, code),
        None => Ok(()),
    }
}

/// The lowest code of each name of the encoding.
pub fn codes_of<'a>(alloc: Global, source: &'a Source) -> Result<IndexMap<&'a [u8], u8>, AllocError>
    ensures { IfOk result
        (λ codes.
        (g : List ℕ)
        → code_kept codes.entries g ≡ lowest_code (name_of_code source.now) g) }
{
    let names = source.names_by_code();
    let mut codes = IndexMap::new(alloc);
    for code in 0..256_u16 {
        add_name(&mut codes, names[usize::from(code)], code as u8)?;
    }
    Ok(codes)
}

/// The code of a glyph; none for `.notdef`.
pub fn code_among(codes: &IndexMap<&[u8], u8>, name: &[u8]) -> Option<u8>
    ensures { result ≡ code_among codes.now.entries name.now }
{
    if name == b".notdef".as_slice() {
        return None;
    }
    codes.get(name).copied()
}
