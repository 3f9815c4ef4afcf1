//! The kerning pairs of an AFM file.
ghost use Rattle.std.specs.Prelude.{◌≡◌, ◌||◌, ℕ, List, filter_map, IfOk, OnOk};
ghost use Rattle.std.specs.Str.{bytes_eq};
ghost use Rattle.t1_font.specs.Metrics.{kern_of, kern_pairs};
ghost use Rattle.t1_font.specs.Names.{is_name_kept, AreNamesOf};

use crate::glyph_metrics::GlyphMetrics;
use indexmap::IndexSet;
use std::alloc::{AllocError, Global};
use t1_afm::{KernPair, Text};
use t1_pairs::{Pair, Pairs};

/// Adds a name.
pub(crate) fn add_name<'a>(names: &mut IndexSet<&'a [u8]>, name: &'a [u8]) -> Result<(), AllocError>
    ensures { OnOk result
        ((g : List ℕ)
        → is_name_kept names.new.keys g
        ≡ (is_name_kept names.old.keys g || bytes_eq g name.now)) }
{
    names.insert(name)?;
    Ok(())
}

/// The names of the glyphs.
fn names_of<'a>(
    alloc: Global,
    metrics: &'a [GlyphMetrics],
) -> Result<IndexSet<&'a [u8]>, AllocError>
    ensures { IfOk result (λ names. AreNamesOf names.keys metrics.now) }
{
    let mut names = IndexSet::with_capacity(alloc, metrics.len())?;
    for glyph in metrics {
        add_name(&mut names, glyph.name.as_slice())?;
    }
    Ok(names)
}

/// A pair whose both glyphs are there.
fn kern_pair<'a>(names: &IndexSet<&[u8]>, pair: &'a Pair) -> Option<KernPair<'a>>
    ensures { result ≡ kern_of (is_name_kept names.now.keys) pair.now }
{
    let left = pair.left.as_slice();
    let right = pair.right.as_slice();
    if !names.contains(left) || !names.contains(right) {
        return None;
    }
    Some(KernPair {
        left: Text::new(left),
        right: Text::new(right),
        value: pair.value,
    })
}

/// The pairs whose both glyphs are among the names, in their order.
fn pairs_among<'a>(
    alloc: Global,
    names: &IndexSet<&[u8]>,
    pairs: &'a Pairs,
) -> Result<Vec<KernPair<'a>>, AllocError>
    ensures { IfOk result
        (λ found. found.items ≡ filter_map (kern_of (is_name_kept names.now.keys)) pairs.now) }
{
    let mut found = Vec::new(alloc);
    for pair in pairs.iter() {
        let Some(metric) = kern_pair(names, pair) else {
            continue;
        };
        found.push(metric)?;
    }
    Ok(found)
}

/// The pairs whose both glyphs are there, in their order.
pub fn kern_metrics<'a>(
    alloc: Global,
    metrics: &[GlyphMetrics],
    pairs: &'a Pairs,
) -> Result<Vec<KernPair<'a>>, AllocError>
    ensures { IfOk result (λ found. found.items ≡ kern_pairs metrics.now pairs.now) }
{
    if pairs.len() == 0 {
        return Ok(Vec::new(alloc));
    }
    let names = names_of(alloc, metrics)?;
    pairs_among(alloc, &names, pairs)
}
