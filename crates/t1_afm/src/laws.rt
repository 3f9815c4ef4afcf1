//! Laws of boxes.

ghost use Rattle.t1_afm.specs.Box.{FontBoxOfBoxes, BoxOfBoth};

/// The font's box can be had from the boxes of the glyphs that draw.
#[tactic(auto, using(crate::proofs::Fonts::font_box_of_boxes))]
pub fn font_box_of_boxes()
    ensures { FontBoxOfBoxes }
{}

/// The box of an outline that is joined of two can be had from the boxes of both, of those that
/// draw.
#[tactic(auto, using(crate::proofs::Fonts::box_of_both))]
pub fn box_of_both()
    ensures { BoxOfBoth }
{}
