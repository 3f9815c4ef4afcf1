//! The AFM file, section by section.
ghost use Rattle.std.specs.Prelude.{◌≡◌, ◌≢◌, [], ◌∷◌, ◌++◌, Ok, Err, length, flat_map, map, codes};
ghost use Rattle.std.specs.Prelude.{◌≤◌, ◌<◌, IfSome, decimal, option_map, position};
ghost use Rattle.std.specs.List.{position_or_len};
ghost use Rattle.std.specs.Fmt.{signed_decimal};
ghost use Rattle.t1_code.specs.Writing.{Puts, Writes};
ghost use Rattle.t1_code.specs.Parts.{Prints};
ghost use Rattle.t1_afm.specs.Afm.{line_text, lines_text, value_lines, values_before_box as names};
ghost use Rattle.t1_afm.specs.Afm.{values_after_box as others, scheme as scheme_of, header_lines};
ghost use Rattle.t1_afm.specs.Afm.{heights as heights_of, char_named, char_line, section};
ghost use Rattle.t1_afm.specs.Afm.{kerning_lines, composite_lines, afm};
ghost use Rattle.t1_afm.specs.Letters.{is_letter};
ghost use Rattle.t1_afm.specs.Lines.{value_bytes, values_of};

use crate::bbox::BBox;
use crate::chars::put_chars;
use crate::line::{Word, put_line};
use crate::metrics::{CharMetric, CompositeMetric, Header, KernPair, Metrics, Text};
use crate::part::{Part, Value, put_parts, sides};
use std::io::{self, Write};
use t1_code::{Counted, OutError, Outlet};

/// A key with the text of its value.
fn text<'a>(key: &'a [u8], value: &'a Option<Text<'a>>) -> Value<'a>
    ensures { value_bytes result ≡ (key.now, value.now) }
{
    Value {
        key,
        value: value.as_ref().map(|text| Word::Text(text.as_slice())),
    }
}

/// A key with its number.
fn number(key: &[u8], value: Option<i32>) -> Value<'_>
    ensures { value_bytes result ≡ (key.now, option_map signed_decimal value) }
{
    Value {
        key,
        value: value.map(|number| Word::Number(i64::from(number))),
    }
}

/// The values that stand before the font's box.
fn values_before_box<'a>(header: &'a Header<'a>) -> [Value<'a>; 6]
    ensures { values_of result ≡ names header.now }
{
    [
        text(b"FontName", &header.font_name),
        text(b"FullName", &header.full_name),
        text(b"FamilyName", &header.family_name),
        text(b"Weight", &header.weight),
        text(b"ItalicAngle", &header.italic_angle),
        text(b"IsFixedPitch", &header.is_fixed_pitch),
    ]
}

/// The values that stand after the font's box.
fn values_after_box<'a>(header: &'a Header<'a>) -> [Value<'a>; 4]
    ensures { values_of result ≡ others header.now }
{
    [
        text(b"UnderlinePosition", &header.underline_position),
        text(b"UnderlineThickness", &header.underline_thickness),
        text(b"Version", &header.version),
        text(b"Notice", &header.notice),
    ]
}

/// The box of the glyph of a name, where there is that glyph.
fn box_named(chars: &[CharMetric], name: &[u8]) -> Option<BBox>
    ensures { result ≡ option_map (λ c. c.bbox) (char_named name.now chars.now) }
{
    chars
        .iter()
        .find(|glyph| glyph.name.as_slice() == name)
        .map(|glyph| glyph.bbox)
}

/// Where the first glyph stands whose name has one byte.
fn letter_at(chars: &[CharMetric]) -> Option<usize>
    ensures value { result ≡ position is_letter chars.now }
    ensures within { IfSome result (λ at. at < length chars.now) }
{
    chars
        .iter()
        .position(|glyph| glyph.name.as_slice().len() == 1)
}

/// How many glyphs stand before it.
fn letter_start(chars: &[CharMetric]) -> usize
    ensures within { result ≤ length chars.now }
    ensures value { result ≡ position_or_len is_letter chars.now }
{
    letter_at(chars).unwrap_or(chars.len())
}

/// The glyphs from the first one on whose name has one byte. A font that has none is looked through
/// once, and not once for each height.
fn from_letter<'c, 'a>(chars: &'c [CharMetric<'a>]) -> &'c [CharMetric<'a>]
    ensures { heights_of result.now ≡ heights_of chars.now }
{
    chars.split_at(letter_start(chars)).1
}

/// The heights that are read off glyphs.
fn heights(chars: &[CharMetric]) -> [Value<'static>; 4]
    ensures { values_of result ≡ heights_of chars.now }
{
    let letters = from_letter(chars);
    [
        number(b"CapHeight", box_named(letters, b"H").map(|b| b.top)),
        number(b"XHeight", box_named(letters, b"x").map(|b| b.top)),
        number(b"Ascender", box_named(letters, b"d").map(|b| b.top)),
        number(b"Descender", box_named(letters, b"p").map(|b| b.bottom)),
    ]
}

fn put_values<W: Write>(outlet: &mut Outlet<W>, values: &[Value]) -> io::Result<()>
    ensures { Puts W.contents outlet.old outlet.new
        (lines_text (value_lines (values_of values.now))) result }
{
    put_parts(outlet, values)
}

/// The name of the encoding.
fn scheme(standard: bool) -> &'static [u8]
    ensures { result.now ≡ scheme_of standard }
{
    if standard {
        b"AdobeStandardEncoding"
    } else {
        b"FontSpecific"
    }
}

/// Puts the lines about the whole font.
fn put_header<W: Write>(outlet: &mut Outlet<W>, metrics: &Metrics) -> io::Result<()>
    ensures { Puts W.contents outlet.old outlet.new
        (lines_text (header_lines metrics.now.header metrics.now.standard metrics.now.font_box))
        result }
{
    put_line(outlet, b"StartFontMetrics", &[Word::Text(b"4.1")])?;
    put_values(outlet, &values_before_box(&metrics.header))?;
    put_line(outlet, b"FontBBox", &sides(&metrics.font_box))?;
    put_values(outlet, &values_after_box(&metrics.header))?;
    put_line(
        outlet,
        b"EncodingScheme",
        &[Word::Text(scheme(metrics.standard))],
    )
}

/// Puts parts between a line that counts them and a line that ends them.
fn put_section<W: Write, P: Part>(
    outlet: &mut Outlet<W>,
    start: &[u8],
    end: &[u8],
    parts: &[P],
) -> io::Result<()>
    ensures { Puts W.contents outlet.old outlet.new
        (line_text (start.now ∷ decimal (length parts.now) ∷ [])
        ++ (flat_map P.text parts.now ++ line_text (end.now ∷ []))) result }
{
    put_line(outlet, start, &[Word::Count(parts.len())])?;
    put_parts(outlet, parts)?;
    put_line(outlet, end, &[])
}

/// Puts the lines of the glyphs, between the line that counts them and the one that ends them.
fn put_char_section<W: Write>(outlet: &mut Outlet<W>, chars: &[CharMetric]) -> io::Result<()>
    ensures { Puts W.contents outlet.old outlet.new
        (line_text (codes "StartCharMetrics" ∷ decimal (length chars.now) ∷ [])
        ++ (flat_map (λ c. line_text (char_line c)) chars.now
        ++ line_text (codes "EndCharMetrics" ∷ []))) result }
{
    put_line(outlet, b"StartCharMetrics", &[Word::Count(chars.len())])?;
    put_chars(outlet, chars)?;
    put_line(outlet, b"EndCharMetrics", &[])
}

/// Puts the heights and the lines of the glyphs.
fn put_glyphs<W: Write>(outlet: &mut Outlet<W>, chars: &[CharMetric]) -> io::Result<()>
    ensures { Puts W.contents outlet.old outlet.new
        (lines_text
        (value_lines (heights_of chars.now)
        ++ section (codes "StartCharMetrics") (codes "EndCharMetrics")
        (map char_line chars.now))) result }
{
    put_values(outlet, &heights(chars))?;
    put_char_section(outlet, chars)
}

/// Puts the kerning data, where there is a pair.
fn put_kerning<W: Write>(outlet: &mut Outlet<W>, pairs: &[KernPair]) -> io::Result<()>
    ensures { Puts W.contents outlet.old outlet.new (lines_text (kerning_lines pairs.now)) result }
{
    if pairs.is_empty() {
        return Ok(());
    }
    put_line(outlet, b"StartKernData", &[])?;
    put_section(outlet, b"StartKernPairs", b"EndKernPairs", pairs)?;
    put_line(outlet, b"EndKernData", &[])
}

/// Puts the composites, where there is one.
fn put_composites<W: Write>(
    outlet: &mut Outlet<W>,
    composites: &[CompositeMetric],
) -> io::Result<()>
    ensures { Puts W.contents outlet.old outlet.new
        (lines_text (composite_lines composites.now)) result }
{
    if composites.is_empty() {
        return Ok(());
    }
    put_section(outlet, b"StartComposites", b"EndComposites", composites)
}

fn put_file<W: Write>(outlet: &mut Outlet<W>, metrics: &Metrics) -> io::Result<()>
    ensures { Puts W.contents outlet.old outlet.new (afm metrics.now) result }
{
    put_header(outlet, metrics)?;
    put_glyphs(outlet, &metrics.chars)?;
    put_kerning(outlet, &metrics.pairs)?;
    put_composites(outlet, &metrics.composites)?;
    put_line(outlet, b"EndFontMetrics", &[])
}

/// Writes the file by way of a chunk.
fn send_file<W: Write>(out: &mut Counted<W>, metrics: &Metrics) -> io::Result<()>
    ensures { Writes W.contents out.old out.new (afm metrics.now) result }
{
    let mut outlet = Outlet::new(out);
    put_file(&mut outlet, metrics)?;
    outlet.send()
}

/// Writes the AFM file, at most 4,096 bytes a call of the writer. It takes no memory.
pub fn write_afm<W: Write>(metrics: &Metrics, out: &mut Counted<W>) -> Result<(), OutError>
    ensures prints { Prints W.contents out.old out.new (Ok (afm metrics.now)) result }
    ensures no_memory { result ≢ Err OutError.Memory }
{
    send_file(out, metrics)?;
    Ok(())
}
