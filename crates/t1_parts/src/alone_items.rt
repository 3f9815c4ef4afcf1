//! The items that never stand among plain lines.

ghost use Rattle.std.specs.Prelude.{◌≡◌, ◌++◌, filter};
ghost use Rattle.t1_parts.specs.Stretches.{one_item, stands_alone, IsNextAlone};

use crate::item::Item;
use crate::private::line_says;
use crate::stretches_left::StretchesLeft;
use std::marker::Model;

/// The items that are left but for the plain lines that say nothing of lenIV, one after another.
/// Contracts see their list.
#[derive(Drop)]
pub struct AloneItems<'i, 'a> {
    first: Option<&'i Item<'a>>,
    stretches: StretchesLeft<'i, 'a>,
}

impl<'i, 'a> Model for AloneItems<'i, 'a> {
    ghost use Rattle.std.specs.Prelude.{List, ◌++◌, filter};
    ghost use Rattle.t1_parts.specs.declared.item.Item.{Item};
    ghost use Rattle.t1_parts.specs.Stretches.{one_item, stands_alone};

    ghost Value = { List Item };

    ghost view = { λ left.
        filter stands_alone (one_item left.first ++ left.stretches) };
}

/// Whether an item never stands among plain lines.
#[tactic(auto, unfolding(crate::specs::Stretches::stands_alone))]
pub(crate) fn stands_alone(item: &Item) -> bool
    ensures { result ≡ stands_alone item.now }
{
    match item {
        Item::Plain(line) => line_says(line.as_slice()),
        Item::Section(_before, _count, _after) => true,
        Item::Subr(_number, _words, _closing) => true,
        Item::Glyph(_name, _words, _closing) => true,
    }
}

/// The next item of some stretches that never stands among plain lines.
#[inline(always)]
fn next_alone<'i, 'a>(stretches: &mut StretchesLeft<'i, 'a>) -> Option<&'i Item<'a>>
    ensures { IsNextAlone stretches.old result stretches.new }
{
    while let Some(stretch) = stretches.next_stretch() {
        if let Some(item) = stretch.alone() {
            return Some(item);
        }
    }
    None
}

impl<'i, 'a> AloneItems<'i, 'a> {
    /// Those of an item and of some stretches.
    pub(crate) fn among(first: Option<&'i Item<'a>>, stretches: StretchesLeft<'i, 'a>) -> Self
        ensures { result ≡ filter stands_alone (one_item first.entry ++ stretches.entry) }
    {
        AloneItems { first, stretches }
    }
}

impl<'i, 'a> Iterator for AloneItems<'i, 'a> {
    ghost use Rattle.std.specs.Iterator.{YieldsFirstRef, item_count};

    type Item = &'i Item<'a>;

    ghost next_gives = { YieldsFirstRef (λ left. left) };

    ghost remaining = { item_count (λ left. left) };

    /// The next item.
    #[inline(always)]
    fn next(&mut self) -> Option<&'i Item<'a>> {
        if let Some(item) = self.first {
            self.first = None;
            if stands_alone(item) {
                return Some(item);
            }
        }
        next_alone(&mut self.stretches)
    }
}
