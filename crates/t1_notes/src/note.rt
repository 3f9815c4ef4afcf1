//! What a note says.

/// What is most likely a mistake.
#[derive(Clone, Copy)]
pub enum NoteKind {
    /// The text begins with a byte order mark.
    ByteOrderMark,
    /// The text begins with neither `%!PS-AdobeFont` nor `%!FontType1`.
    FirstLine,
    /// A slot of the encoding array names no glyph.
    EncodedName,
    /// A section line promises more entries than there are.
    Count,
    /// A line among the Subrs that looks like an entry and opens none.
    PlainEntry,
    /// No glyph is called `.notdef`.
    NoNotdef,
    /// The first of some lines among the glyphs that belong to no glyph.
    NoEntry,
    /// A glyph after the `end` of the glyphs.
    AfterEnd,
    /// A command has more values in front of it than it takes.
    ValuesLeft,
    /// A command has a value past ±16,000.
    WideCoordinate,
    /// A glyph's width is below 0.
    NegativeWidth,
    /// A path isn't closed before a move or the end of a glyph.
    OpenPath,
    /// A pair of a kerning file names no glyph.
    NoSuchGlyph,
    /// The first of some Subrs that follow one another and that no glyph's run enters.
    UnusedSubr,
    /// `/FontBBox` isn't the box around the glyphs.
    FontBox,
    /// A glyph reaches past ±16,000.
    WideGlyph,
}

/// A note on a text: the number of its line and its byte in that line, both counted from 1.
#[derive(Clone, Copy)]
pub struct Note {
    pub kind: NoteKind,
    pub line: u64,
    pub column: u64,
}
