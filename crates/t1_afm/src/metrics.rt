//! What an AFM file says of a font.

ghost use Rattle.std.specs.Prelude.{◌≡◌};

use crate::bbox::BBox;
use std::marker::Model;

/// The bytes of a name or of a value, borrowed. Contracts see their list.
#[derive(Drop)]
pub struct Text<'a> {
    bytes: &'a [u8],
}

impl<'a> Model for Text<'a> {
    ghost use Rattle.std.specs.Prelude.{List, ℕ};

    ghost Value = { List ℕ };

    ghost view = { λ text. text.bytes.now };
}

impl<'a> Text<'a> {
    pub fn new(bytes: &'a [u8]) -> Self
        ensures { result ≡ bytes.now }
    {
        Text { bytes }
    }

    pub fn as_slice(&self) -> &'a [u8]
        ensures { result.now ≡ self.now }
    {
        self.bytes
    }
}

/// The values of the keys about the whole font, as they are written in the file.
#[derive(Drop)]
pub struct Header<'a> {
    pub font_name: Option<Text<'a>>,
    pub full_name: Option<Text<'a>>,
    pub family_name: Option<Text<'a>>,
    pub weight: Option<Text<'a>>,
    pub italic_angle: Option<Text<'a>>,
    pub is_fixed_pitch: Option<Text<'a>>,
    pub underline_position: Option<Text<'a>>,
    pub underline_thickness: Option<Text<'a>>,
    pub version: Option<Text<'a>>,
    pub notice: Option<Text<'a>>,
}

/// A glyph's code, width, name and box.
#[derive(Drop)]
pub struct CharMetric<'a> {
    /// The lowest code that the encoding gives the glyph.
    pub code: Option<u8>,
    pub wx: i64,
    pub wy: i64,
    pub name: Text<'a>,
    pub bbox: BBox,
}

/// The kerning of a pair of glyphs.
#[derive(Drop)]
pub struct KernPair<'a> {
    pub left: Text<'a>,
    pub right: Text<'a>,
    pub value: i32,
}

/// A composite, its two parts, and how far the accent's origin is moved.
#[derive(Drop)]
pub struct CompositeMetric<'a> {
    pub name: Text<'a>,
    pub base: Text<'a>,
    pub accent: Text<'a>,
    pub dx: i64,
    pub dy: i64,
}

/// What an AFM file says of a font. The names and values are borrowed.
#[derive(Drop)]
pub struct Metrics<'a> {
    pub header: Header<'a>,
    /// Whether the encoding is StandardEncoding.
    pub standard: bool,
    /// The box around all glyphs that draw.
    pub font_box: BBox,
    /// The glyphs in the order of the file: those with a code by their codes, then the others.
    pub chars: Vec<CharMetric<'a>>,
    /// The pairs in the order of the file, each with both glyphs in the font.
    pub pairs: Vec<KernPair<'a>>,
    pub composites: Vec<CompositeMetric<'a>>,
}

impl<'a> Model for Metrics<'a> {
    ghost use Rattle.t1_afm.specs.Afm.{FontMetrics};

    ghost Value = { FontMetrics };

    ghost view = { λ m. record {
      header = m.header;
      standard = m.standard;
      font_box = m.font_box;
      chars = m.chars.items;
      pairs = m.pairs.items;
      composites = m.composites.items;
    } };
}
