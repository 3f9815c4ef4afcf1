//! The parts that seac names.

ghost use Rattle.std.specs.Prelude.{◌≡◌};
ghost use Rattle.std.specs.Option.{option_map};
ghost use Rattle.t1_frac.specs.Outcome.{Gives, reported_at};
ghost use Rattle.t1_run.specs.Run.{standard_glyph as standard_glyph_of, composite_of};

use crate::bodies::Bodies;
use crate::outline::{Accent, Composite};
use std::alloc::Global;
use t1_code::standard_name;
use t1_frac::{Bytes, Code, Place, Refusal};

/// The glyph name of a code of StandardEncoding.
pub fn standard_glyph(code: i64) -> Option<&'static str>
    ensures { option_map (λ name. name.now) result ≡ standard_glyph_of code }
{
    if code < 0 || code > 255 {
        return None;
    }
    standard_name(code as u8)
}

/// The parts of a composite. It is F44 where the base's code, then the accent's, has no name, and
/// F45 where the font lacks the base, then the accent.
pub fn find_parts<B: Bodies>(
    alloc: Global,
    bodies: &B,
    accent: &Accent,
) -> Result<Composite, Refusal>
    ensures { Gives (λ parts. parts) result
        (reported_at Place.Nowhere (composite_of (B.glyphs bodies.now) accent.now)) }
{
    let base_name = standard_glyph(accent.base).ok_or(Code::F44)?.as_bytes();
    let accent_name = standard_glyph(accent.accent).ok_or(Code::F44)?.as_bytes();
    if !bodies.has_glyph(base_name) || !bodies.has_glyph(accent_name) {
        return Err(Refusal::from(Code::F45));
    }
    Ok(Composite {
        base: Bytes::copied(alloc, base_name)?,
        accent: Bytes::copied(alloc, accent_name)?,
        asb: accent.asb,
        adx: accent.adx,
        ady: accent.ady,
    })
}
