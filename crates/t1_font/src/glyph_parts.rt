//! The parts of a composite, beside what is measured of each glyph.
ghost use Rattle.std.specs.Prelude.{◌≡◌, None, Some, IfOk, MatchOption};

use crate::glyph_metrics::PlacedParts;
use std::alloc::{AllocError, Global};
use std::marker::Model;

/// The parts of a glyph that is a composite; nothing of any other. Few glyphs are composites, so
/// they stand in memory of their own. Contracts see the parts, where there are any.
#[derive(Drop)]
pub struct GlyphParts {
    parts: Option<Box<PlacedParts>>,
}

impl Model for GlyphParts {
    ghost use Rattle.std.specs.Prelude.{Option, option_map};
    ghost use Rattle.t1_font.specs.declared.glyph_metrics.PlacedParts.{PlacedParts};

    ghost Value = { Option PlacedParts };

    ghost view = { λ glyph. option_map (λ parts. parts.value) glyph.parts };
}

impl GlyphParts {
    /// Those of a glyph that is no composite. It takes no memory.
    pub(crate) fn none() -> GlyphParts
        ensures { result ≡ None }
    {
        GlyphParts { parts: None }
    }

    /// Those of a composite.
    pub(crate) fn of(alloc: Global, parts: PlacedParts) -> Result<GlyphParts, AllocError>
        ensures { IfOk result (λ glyph. glyph ≡ Some parts) }
    {
        Ok(GlyphParts {
            parts: Some(Box::new(alloc, parts)?),
        })
    }

    /// The parts, where there are any.
    pub fn get(&self) -> Option<&PlacedParts>
        ensures { MatchOption result (self.now ≡ None) (λ parts. self.now ≡ Some parts.now) }
    {
        self.parts.as_deref()
    }
}
