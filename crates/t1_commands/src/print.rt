//! What a session prints.

/// What a print shows.
#[derive(Clone, Copy, Debug, PartialEq, Eq)]
pub enum Print {
    /// The source in its printed form.
    Source,
    /// The kerning pairs.
    Kern,
    /// The assembled font, a segment a part.
    Pfb,
    /// The assembled font in segments of so many bytes.
    Blocks(i64),
    /// The assembled font with its encrypted part in hexadecimal.
    Pfa,
    /// The metrics of the font.
    Afm,
    /// The usage table of the glyphs.
    Uses,
}
