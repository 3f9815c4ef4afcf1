//! The usage table.
ghost use Rattle.std.specs.Prelude.{◌≡◌, ◌++◌, ◌∷◌, [], IfOk, OnOk, flat_map};
ghost use Rattle.t1_frac.specs.Ascii.{line_feed};
ghost use Rattle.t1_font.specs.Usage.{entered_text, parts_text, usage_line, usage_table};

use crate::glyph_metrics::GlyphMetrics;
use crate::glyph_parts::GlyphParts;
use std::alloc::{AllocError, Global};
use t1_parts::push_decimal;

/// Adds ` S N ;` for a Subr.
fn push_subr(text: &mut Vec<u8>, number: u16) -> Result<(), AllocError>
    ensures { OnOk result (text.new.items ≡ text.old.items ++ entered_text number) }
{
    text.extend_from_slice(b" S ")?;
    push_decimal(text, u64::from(number))?;
    text.extend_from_slice(b" ;")?;
    Ok(())
}

/// Adds what stands for the Subrs that a run entered.
fn push_subrs(text: &mut Vec<u8>, numbers: &[u16]) -> Result<(), AllocError>
    ensures { OnOk result (text.new.items ≡ text.old.items ++ flat_map entered_text numbers.now) }
{
    for number in numbers {
        push_subr(text, *number)?;
    }
    Ok(())
}

/// Adds ` P BASE ; P ACCENT ;` for a composite.
fn push_parts(text: &mut Vec<u8>, parts: &GlyphParts) -> Result<(), AllocError>
    ensures { OnOk result (text.new.items ≡ text.old.items ++ parts_text parts.now) }
{
    let Some(parts) = parts.get() else {
        return Ok(());
    };
    text.extend_from_slice(b" P ")?;
    text.extend_from_slice(parts.base.as_slice())?;
    text.extend_from_slice(b" ; P ")?;
    text.extend_from_slice(parts.accent.as_slice())?;
    text.extend_from_slice(b" ;")?;
    Ok(())
}

/// Adds the line of a glyph.
fn push_line(text: &mut Vec<u8>, glyph: &GlyphMetrics) -> Result<(), AllocError>
    ensures { OnOk result
        (text.new.items ≡ text.old.items ++ usage_line glyph.now ++ line_feed ∷ []) }
{
    text.extend_from_slice(b"U ")?;
    text.extend_from_slice(glyph.name.as_slice())?;
    text.extend_from_slice(b" ;")?;
    push_subrs(text, glyph.entered.as_slice())?;
    push_parts(text, &glyph.parts)?;
    text.push(b'\n')?;
    Ok(())
}

/// The usage table: a line for each glyph with the Subrs that its own run entered and, of a
/// composite, its parts.
pub fn usage_text(alloc: Global, glyphs: &[GlyphMetrics]) -> Result<Vec<u8>, AllocError>
    ensures { IfOk result (λ text. text.items ≡ usage_table glyphs.now) }
{
    let mut text = Vec::new(alloc);
    for glyph in glyphs {
        push_line(&mut text, glyph)?;
    }
    Ok(text)
}
