//! The glyphs of a source.
ghost use Rattle.std.specs.Prelude.{◌≡◌, map, option_map, IfOk};
ghost use Rattle.std.specs.Option.{option_to_list};
ghost use Rattle.t1_afm.specs.Box.{united};
ghost use Rattle.t1_font.specs.Glyphs.{glyph_names, name_in};

use crate::glyph_metrics::{GlyphMetrics, font_box};
use std::alloc::{AllocError, Global};
use std::marker::Model;
use t1_afm::BBox;
use t1_parts::Items;
use t1_source::Item;

/// What is measured of the glyphs of a source, in the order of their entries, and the box around
/// all that draw.
#[derive(Drop)]
pub struct MeasuredGlyphs<'a> {
    metrics: Vec<GlyphMetrics<'a>>,
    font_box: BBox,
}

impl<'a> Model for MeasuredGlyphs<'a> {
    ghost use Rattle.t1_font.specs.MeasuredGlyphs.{MeasuredFont};

    ghost Value = { MeasuredFont };

    ghost view = { λ g. record { metrics = g.metrics.items; font_box = g.font_box } };
}

impl<'a> MeasuredGlyphs<'a> {
    /// The metrics of some glyphs, in their order, and the box around those that draw.
    pub fn of(metrics: Vec<GlyphMetrics<'a>>) -> MeasuredGlyphs<'a>
        ensures { result
            ≡ record {
              metrics = metrics.entry.items;
              font_box = united
                  (map (λ glyph. glyph.bbox) metrics.entry.items);
            } }
    {
        let font_box = font_box(&metrics);
        MeasuredGlyphs { metrics, font_box }
    }

    /// What is measured of the glyphs, in the order of their entries.
    pub fn metrics(&self) -> &[GlyphMetrics<'a>]
        ensures { result.now ≡ self.now.metrics }
    {
        self.metrics.as_slice()
    }

    /// The box around all glyphs that draw; 0 0 0 0 where none does.
    pub fn font_box(&self) -> BBox
        ensures { result ≡ self.now.font_box }
    {
        self.font_box
    }
}

/// The name of an item that is a glyph.
pub(crate) fn name_of<'i>(item: &'i Item) -> Option<&'i [u8]>
    ensures { option_to_list (option_map (λ name. name.now) result) ≡ name_in item.now }
{
    match item {
        Item::Glyph(name, _, _) => Some(name.as_slice()),
        _ => None,
    }
}

/// The names of the glyphs, in the order of their entries.
#[tactic(auto, using(crate::proofs::AloneLaws::names_alone))]
pub fn glyph_names<'a>(alloc: Global, items: &'a Items) -> Result<Vec<&'a [u8]>, AllocError>
    ensures { IfOk result (λ names. map (λ name. name.now) names.items ≡ glyph_names items.now) }
{
    let mut names = Vec::new(alloc);
    for item in items.iter().alone() {
        let Some(name) = name_of(item) else {
            continue;
        };
        names.push(name)?;
    }
    Ok(names)
}
