//! What is known of an entry before it is looked for.

/// What is known of the entry that an edit names before it is looked for.
#[derive(Clone, Copy)]
pub enum Hint {
    /// It may be one of the few items before this place, which is told as if all items were
    /// entries: by how many entries stand from it on.
    Near(usize),
    /// It is a glyph of a name that no glyph has.
    NewGlyph,
}

impl Hint {
    /// Before which place the entry is looked for first. Time alone hangs on it.
    pub fn near(self) -> usize {
        match self {
            Hint::Near(place) => place,
            Hint::NewGlyph => 0,
        }
    }
}
