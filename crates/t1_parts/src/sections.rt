//! Section lines: their count and their kind.

ghost use Rattle.std.specs.Prelude.{◌≡◌, ◌+◌, ◌≤◌, ◌<◌, IsTrue, length};
ghost use Rattle.t1_text.specs.Names.{is_count};
ghost use Rattle.t1_parts.specs.ItemRefs.{item_of};
ghost use Rattle.t1_parts.specs.Sections.{section_at, is_subrs_line, is_glyphs_line};

use crate::item::Item;
use crate::item_ref::ItemRef;
use t1_frac::SourceText;
use t1_text::{count_of, is_count, last_is};

/// The item of a section line whose count stands there.
pub fn section_at<'a>(line: &'a [u8], at: usize, count: &[u8]) -> Item<'a>
    requires within { at + length count.now ≤ length line.now }
    requires digits { IsTrue (is_count count.now) }
    ensures { result ≡ section_at line.now (at, count.now) }
{
    let before = SourceText::borrowed(line.split_at(at).0);
    let after = SourceText::borrowed(line.split_at(at + count.len()).1);
    Item::Section(before, count_of(count), after)
}

impl<'i, 'a> ItemRef<'i, 'a> {
    /// Whether it is the Subrs line.
    pub fn is_subrs_line(&self) -> bool
        ensures { result ≡ is_subrs_line (item_of self.now) }
    {
        match self {
            ItemRef::Section(before, _, _) => last_is(b"/Subrs", before),
            _ => false,
        }
    }

    /// Whether it is the CharStrings line.
    pub fn is_glyphs_line(&self) -> bool
        ensures { result ≡ is_glyphs_line (item_of self.now) }
    {
        match self {
            ItemRef::Section(before, _, _) => last_is(b"/CharStrings", before),
            _ => false,
        }
    }
}
