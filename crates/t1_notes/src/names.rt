//! The names of the glyphs that lines open.

ghost use Rattle.std.specs.Prelude.{◌≡◌, ◌||◌, ℕ, List, option_map, IfOk, OnOk};
ghost use Rattle.std.specs.Str.{bytes_eq};
ghost use Rattle.t1_text.specs.Tokens.{is_token};
ghost use Rattle.t1_notes.specs.GlyphNames.{opened_name, has_line_of_glyph};
ghost use Rattle.t1_notes.specs.Tables.{is_among_names};

use crate::line::Line;
use indexmap::IndexSet;
use std::alloc::{AllocError, Global};
use t1_parts::opens_glyph;
use t1_text::name_of_token;

/// The name of the glyph that a line opens.
pub fn opened_name(line: &[u8]) -> Option<&[u8]>
    ensures { option_map (λ name. name.now) result ≡ opened_name line.now }
{
    name_of_token(opens_glyph(line)?)
}

/// Adds a name to others.
pub fn put_name<'a>(names: &mut IndexSet<&'a [u8]>, name: &'a [u8]) -> Result<(), AllocError>
    ensures { OnOk result ((glyph : List ℕ) → is_among_names names.new.keys glyph ≡ (is_among_names
        names.old.keys glyph || bytes_eq glyph name.entry.now)) }
{
    names.insert(name)?;
    Ok(())
}

/// Adds the name of the glyph that a line opens to others.
fn put_opened<'a>(names: &mut IndexSet<&'a [u8]>, line: &'a [u8]) -> Result<(), AllocError>
    ensures { OnOk result ((glyph : List ℕ) → is_among_names names.new.keys glyph ≡ (is_among_names
        names.old.keys glyph || is_token glyph (opened_name line.entry.now))) }
{
    match opened_name(line) {
        Some(name) => put_name(names, name),
        None => Ok(()),
    }
}

/// The names of the glyphs that some lines open, each once.
pub fn glyph_names<'l, 'a>(
    alloc: Global,
    heads: &'l [Line<'a>],
) -> Result<IndexSet<&'l [u8]>, AllocError>
    ensures { IfOk result
        (λ names.
        (glyph : List ℕ)
        → is_among_names names.keys glyph ≡ has_line_of_glyph heads.now glyph) }
{
    let mut names = IndexSet::new(alloc);
    for line in heads {
        put_opened(&mut names, line.bytes())?;
    }
    Ok(names)
}

/// Whether a name is among some.
pub fn is_among(names: &IndexSet<&[u8]>, glyph: &[u8]) -> bool
    ensures { result ≡ is_among_names names.now.keys glyph.now }
{
    names.contains(glyph)
}
