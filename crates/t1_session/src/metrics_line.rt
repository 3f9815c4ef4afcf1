//! The line of a glyph in an AFM file.
ghost use Rattle.std.specs.Prelude.{◌≡◌, ◌++◌, ℕ, List, option_map, IfOk, OnOk};
ghost use Rattle.std.specs.Fmt.{signed_decimal};
ghost use Rattle.t1_code.specs.Parts.{slices_bytes};
ghost use Rattle.t1_afm.specs.Afm.{char_line, code_number, line_text, rest_text, width_words};
ghost use Rattle.t1_cache.specs.Renewed.{record_of};
ghost use Rattle.t1_session.specs.RecordedLines.{after_width, before_width};
ghost use Rattle.t1_session.specs.RecordedLines.{recorded_char, recorded_line};

use itoa::Buffer;
use std::alloc::{AllocError, Global};
use t1_afm::{BBox, CharMetric, Text};
use t1_cache::{GlyphRecord, Records};
use t1_commands::push_slices;
use t1_source::Source;

/// What the AFM file says of a glyph that has a record.
fn char_metric<'n>(source: &Source, name: &'n [u8], record: &GlyphRecord) -> CharMetric<'n>
    ensures { result ≡ recorded_char source.now name.now record.now }
{
    let width = record.run.width();
    CharMetric {
        code: source.code_of(name),
        wx: width.x.nearest(),
        wy: width.y.nearest(),
        name: Text::new(name),
        bbox: record.bbox.unwrap_or(BBox::EMPTY),
    }
}

/// The number that a line has for a code, or for none.
fn code_number(code: Option<u8>) -> i64
    ensures { result ≡ code_number code }
{
    match code {
        None => -1,
        Some(code) => i64::from(code),
    }
}

/// The words of a width, each after a space: along x alone, or along both axes where there is one
/// along y.
fn width_slices<'w>(glyph: &CharMetric, wx: &'w str, wy: &'w str) -> [&'w [u8]; 4]
    requires x { wx.now ≡ signed_decimal glyph.now.wx }
    requires y { wy.now ≡ signed_decimal glyph.now.wy }
    ensures { (words : List (List ℕ))
        → slices_bytes result ++ rest_text words
        ≡ rest_text (width_words glyph.now.wx glyph.now.wy ++ words) }
{
    if glyph.wy == 0 {
        [b" WX ", wx.as_bytes(), b"", b""]
    } else {
        [b" W ", wx.as_bytes(), b" ", wy.as_bytes()]
    }
}

/// Adds what stands before the width of a glyph.
fn push_code(line: &mut Vec<u8>, code: Option<u8>) -> Result<(), AllocError>
    ensures { OnOk result (line.new.items ≡ line.old.items ++ before_width code) }
{
    let mut number = Buffer::new();
    let digits = number.format(code_number(code)).as_bytes();
    push_slices(line, &[b"C ", digits, b" ;"])
}

/// Adds the name of a glyph and the sides of its box, which are these.
fn push_name_and_sides(
    line: &mut Vec<u8>,
    glyph: &CharMetric,
    left: &str,
    bottom: &str,
    right: &str,
    top: &str,
) -> Result<(), AllocError>
    requires left { left.now ≡ signed_decimal glyph.now.bbox.left }
    requires bottom { bottom.now ≡ signed_decimal glyph.now.bbox.bottom }
    requires right { right.now ≡ signed_decimal glyph.now.bbox.right }
    requires top { top.now ≡ signed_decimal glyph.now.bbox.top }
    ensures { OnOk result (line.new.items ≡ line.old.items ++ rest_text (after_width glyph.now)) }
{
    push_slices(
        line,
        &[
            b" ; N ",
            glyph.name.as_slice(),
            b" ; B ",
            left.as_bytes(),
            b" ",
            bottom.as_bytes(),
            b" ",
            right.as_bytes(),
            b" ",
            top.as_bytes(),
            b" ;\n",
        ],
    )
}

/// Adds what stands after the width of a glyph: its name and its box.
fn push_name_and_box(line: &mut Vec<u8>, glyph: &CharMetric) -> Result<(), AllocError>
    ensures { OnOk result (line.new.items ≡ line.old.items ++ rest_text (after_width glyph.now)) }
{
    let mut left = Buffer::new();
    let mut bottom = Buffer::new();
    let mut right = Buffer::new();
    let mut top = Buffer::new();
    push_name_and_sides(
        line,
        glyph,
        left.format(glyph.bbox.left),
        bottom.format(glyph.bbox.bottom),
        right.format(glyph.bbox.right),
        top.format(glyph.bbox.top),
    )
}

/// The line of a glyph.
fn char_line(alloc: Global, glyph: &CharMetric) -> Result<Vec<u8>, AllocError>
    ensures { IfOk result (λ line. line.items ≡ line_text (char_line glyph.now)) }
{
    let mut wx = Buffer::new();
    let mut wy = Buffer::new();
    let width = width_slices(glyph, wx.format(glyph.wx), wy.format(glyph.wy));
    let mut line = Vec::new(alloc);
    push_code(&mut line, glyph.code)?;
    push_slices(&mut line, &width)?;
    push_name_and_box(&mut line, glyph)?;
    Ok(line)
}

/// The line of the glyph of a name, with its end, where it has a record.
pub fn metrics_line(
    alloc: Global,
    source: &Source,
    records: &Records,
    name: &[u8],
) -> Result<Option<Vec<u8>>, AllocError>
    ensures { IfOk result (λ found.
        option_map (λ line. line.items) found
        ≡ recorded_line source.now name.now (record_of records.now.glyphs.entries name.now)) }
{
    match records.glyphs.get(name) {
        Some(record) => {
            let glyph = char_metric(source, name, record.record());
            Ok(Some(char_line(alloc, &glyph)?))
        }
        None => Ok(None),
    }
}
