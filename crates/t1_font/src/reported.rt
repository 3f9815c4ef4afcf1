//! What is reported of the glyphs of a source, one after another.
ghost use Rattle.std.specs.Prelude.{◌≡◌, ◌∷◌, ◌++◌, [], IfOk, OnOk};

use crate::glyph_metrics::GlyphMetrics;
use crate::in_turn::Row;
use std::alloc::{AllocError, Global};
use std::marker::Model;

/// What is reported of glyphs, in their order. As long as all of them are measured, as in most
/// fonts, it is their metrics alone, which stay where they are. Contracts see the list of what is
/// reported.
#[derive(Drop)]
pub(crate) struct Rows<'a> {
    pub(crate) measured: Vec<GlyphMetrics<'a>>,
    /// From the first glyph on that isn't measured.
    pub(crate) rest: Vec<Row<'a>>,
}

impl<'a> Model for Rows<'a> {
    ghost use Rattle.std.specs.Prelude.{List, map, ◌++◌};
    ghost use Rattle.t1_font.specs.declared.in_turn.Row.{Row};
    ghost use Rattle.t1_font.specs.declared.in_turn.Row.TheVariants as rows;

    ghost Value = { List Row };

    ghost view = { λ r. map (λ glyph. rows.Measured glyph) r.measured.items ++ r.rest.items };
}

impl<'a> Rows<'a> {
    /// Nothing, with room for what is measured of so many glyphs.
    pub(crate) fn with_room(alloc: Global, glyphs: usize) -> Result<Self, AllocError>
        ensures { IfOk result (λ rows. rows ≡ []) }
    {
        Ok(Rows {
            measured: Vec::with_capacity(alloc, glyphs)?,
            rest: Vec::new(alloc),
        })
    }

    /// Adds what is reported of a glyph.
    pub(crate) fn push(&mut self, row: Row<'a>) -> Result<(), AllocError>
        ensures { OnOk result (self.new ≡ self.old ++ row.entry ∷ []) }
    {
        if !self.rest.is_empty() {
            self.rest.push(row)?;
            return Ok(());
        }
        match row {
            Row::Measured(glyph) => self.measured.push(glyph)?,
            other => self.rest.push(other)?,
        }
        Ok(())
    }
}
