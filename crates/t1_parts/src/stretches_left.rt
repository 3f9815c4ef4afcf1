//! The stretches that are left, one after another.

ghost use Rattle.std.specs.Prelude.{◌≡◌, ◌<◌, ◌++◌, [], MatchOption, length};
ghost use Rattle.t1_buckets.specs.Buckets.{shared_joined};
ghost use Rattle.t1_parts.specs.Blocks.{items_of_part};
ghost use Rattle.t1_parts.specs.Items.{items_in, stretch_items};

use crate::block::Block;
use crate::stretch::Stretch;
use std::marker::Model;
use std::rc::Rc;
use std::slice;

/// The stretches that are left, one after another: some of a block, those of further blocks, and
/// some of the block after these. Contracts see the list of their items.
#[derive(Drop)]
pub(crate) struct StretchesLeft<'i, 'a> {
    first: slice::Iter<'i, Stretch<'a>>,
    blocks: slice::Iter<'i, Rc<Block<'a>>>,
    last: Option<&'i [Stretch<'a>]>,
}

impl<'i, 'a> Model for StretchesLeft<'i, 'a> {
    ghost use Rattle.std.specs.Prelude.{List, ◌++◌};
    ghost use Rattle.t1_parts.specs.declared.item.Item.{Item};
    ghost use Rattle.t1_buckets.specs.Buckets.{shared_joined};
    ghost use Rattle.t1_parts.specs.Blocks.{items_of_part};
    ghost use Rattle.t1_parts.specs.Items.{items_in};

    ghost Value = { List Item };

    ghost view = { λ left.
        items_in left.first.rest.now
        ++ (shared_joined left.blocks.rest.now ++ items_of_part left.last) };
}

/// No stretches.
pub(crate) fn no_stretches<'i, 'a>() -> &'i [Stretch<'a>]
    ensures { result.now ≡ [] }
{
    &[]
}

/// The first stretch of the next block, or of the part after the blocks; what is left of these is
/// handed over.
#[inline(never)]
fn next_of_parts<'i, 'a>(
    first: &mut slice::Iter<'i, Stretch<'a>>,
    blocks: &mut slice::Iter<'i, Rc<Block<'a>>>,
    last: &mut Option<&'i [Stretch<'a>]>,
) -> Option<&'i Stretch<'a>>
    requires { first.old.rest.now ≡ [] }
    ensures { MatchOption result
        ((shared_joined blocks.old.rest.now ++ items_of_part last.old ≡ [])
        × (items_in first.new.rest.now
        ++ (shared_joined blocks.new.rest.now ++ items_of_part last.new)
        ≡ []))
        (λ stretch.
        (shared_joined blocks.old.rest.now ++ items_of_part last.old
        ≡ stretch_items stretch.now
        ++ (items_in first.new.rest.now
        ++ (shared_joined blocks.new.rest.now ++ items_of_part last.new)))
        × (0 < length (stretch_items stretch.now))) }
{
    if let Some(block) = blocks.next() {
        *first = block.as_slice().iter();
    } else if let Some(part) = last.take() {
        *first = part.iter();
    }
    let stretch = first.next()?;
    let _len = stretch.len();
    Some(stretch)
}

impl<'i, 'a> StretchesLeft<'i, 'a> {
    /// The stretches of some part, of some blocks, and of a further part.
    pub(crate) fn of(
        first: &'i [Stretch<'a>],
        blocks: &'i [Rc<Block<'a>>],
        last: Option<&'i [Stretch<'a>]>,
    ) -> Self
        ensures { result
            ≡ items_in first.now ++ (shared_joined blocks.now ++ items_of_part last.entry) }
    {
        StretchesLeft {
            first: first.iter(),
            blocks: blocks.iter(),
            last,
        }
    }

    /// The stretches of some blocks.
    pub(crate) fn of_blocks(blocks: &'i [Rc<Block<'a>>]) -> Self
        ensures { result ≡ shared_joined blocks.now }
    {
        StretchesLeft::of(no_stretches(), blocks, None)
    }

    /// The same stretches again. It takes no memory.
    pub(crate) fn again(&self) -> StretchesLeft<'i, 'a>
        ensures { result ≡ self.now }
    {
        StretchesLeft {
            first: self.first.as_slice().iter(),
            blocks: self.blocks.as_slice().iter(),
            last: self.last,
        }
    }

    /// The next stretch.
    #[inline(always)]
    pub(crate) fn next_stretch(&mut self) -> Option<&'i Stretch<'a>>
        ensures { MatchOption result ((self.old ≡ []) × (self.new ≡ []))
            (λ stretch.
            (self.old ≡ stretch_items stretch.now ++ self.new)
            × (0 < length (stretch_items stretch.now))) }
    {
        if let Some(stretch) = self.first.next() {
            let _len = stretch.len();
            return Some(stretch);
        }
        next_of_parts(&mut self.first, &mut self.blocks, &mut self.last)
    }
}
