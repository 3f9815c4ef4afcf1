//! The glyphs of a font in their order.
ghost use Rattle.std.specs.Prelude.{◌≡◌, ◌++◌, IfOk, List, OnOk, ℕ, map};
ghost use Rattle.t1_source.specs.EditedSource.{made_of};
ghost use Rattle.t1_font.specs.Glyphs.{glyph_names};

use std::alloc::{AllocError, Global};
use t1_parts::ItemsIter;
use t1_source::{EditedItems, EditedSource, Item};

/// A font whose glyphs stand in an order. It is asked for only where one of them has a fault.
pub trait GlyphOrder {
    ghost ordered: { Self → List (List ℕ) };

    /// The names of the glyphs, in the order of their entries.
    fn names(&self, alloc: Global) -> Result<Vec<&[u8]>, AllocError>
        ensures { IfOk result (λ names. map (λ name. name.now) names.items ≡ ordered self.now) };
}

/// Adds the names of the glyphs among items, in their order.
#[tactic(auto, using(t1_font::proofs::AloneLaws::names_alone))]
fn push_names<'i>(names: &mut Vec<&'i [u8]>, items: ItemsIter<'i, '_>) -> Result<(), AllocError>
    ensures { OnOk result
        (map (λ name. name.now) names.new.items
        ≡ map (λ name. name.now) names.old.items ++ glyph_names items.entry) }
{
    for item in items.alone() {
        let Item::Glyph(name, _, _) = item else {
            continue;
        };
        names.push(name.as_slice())?;
    }
    Ok(())
}

/// The names of the glyphs of a source that edits make, in the order of their entries.
fn names_of<'i>(
    alloc: Global,
    source: &'i EditedSource<'_, '_>,
) -> Result<Vec<&'i [u8]>, AllocError>
    ensures { IfOk result
        (λ names.
        map (λ name. name.now) names.items ≡ glyph_names (made_of source.now).items) }
{
    let EditedItems { before, put, after } = source.items();
    let mut names = Vec::new(alloc);
    push_names(&mut names, before)?;
    push_names(&mut names, put)?;
    push_names(&mut names, after)?;
    Ok(names)
}

impl<'e, 'a> GlyphOrder for EditedSource<'e, 'a> {
    ghost use Rattle.t1_source.specs.EditedSource.{made_of};
    ghost use Rattle.t1_font.specs.Glyphs.{glyph_names};

    ghost ordered = { λ e. glyph_names (made_of e).items };

    fn names(&self, alloc: Global) -> Result<Vec<&[u8]>, AllocError> {
        names_of(alloc, self)
    }
}
