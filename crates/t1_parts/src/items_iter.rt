//! The items that are left, one after another.

ghost use Rattle.std.specs.Prelude.{◌≡◌, ◌++◌, ◌∷◌, [], false, filter, length};
ghost use Rattle.t1_text.specs.Lines.{lines};
ghost use Rattle.t1_buckets.specs.Buckets.{shared_joined};
ghost use Rattle.t1_parts.specs.Items.{items_in, line_items};
ghost use Rattle.t1_parts.specs.Stretches.{lines_say, stands_alone};

use crate::alone_items::AloneItems;
use crate::block::Block;
use crate::item::Item;
use crate::item_ref::ItemRef;
use crate::plain_lines::next_line;
use crate::stretch::Stretch;
use crate::stretches_left::{StretchesLeft, no_stretches};
use std::marker::Model;
use std::rc::Rc;

/// The items that are left, one after another: an item, those of some lines and of some stretches,
/// of some blocks, and of further stretches and lines. Contracts see their list.
#[derive(Drop)]
pub struct ItemsIter<'i, 'a> {
    first: Option<&'i Item<'a>>,
    front: &'i [u8],
    stretches: StretchesLeft<'i, 'a>,
    back: &'i [u8],
    len: usize,
}

impl<'i, 'a> Model for ItemsIter<'i, 'a> {
    ghost use Rattle.std.specs.Prelude.{◌≡◌, List, ◌++◌, false, length};
    ghost use Rattle.t1_text.specs.Lines.{lines};
    ghost use Rattle.t1_parts.specs.declared.item.Item.{Item};
    ghost use Rattle.t1_parts.specs.Items.{line_items};
    ghost use Rattle.t1_parts.specs.Stretches.{lines_say, one_item};

    ghost Value = { List Item };

    ghost view = { λ left.
        one_item left.first
        ++ (line_items (lines left.front.now)
        ++ (left.stretches ++ line_items (lines left.back.now))) };

    ghost invariant = { λ left.
        (left.len
        ≡ length
        (one_item left.first
        ++ (line_items (lines left.front.now)
        ++ (left.stretches ++ line_items (lines left.back.now)))))
        × (lines_say (lines left.front.now) ≡ false)
        × (lines_say (lines left.back.now) ≡ false) };
}

impl<'i, 'a> Iterator for ItemsIter<'i, 'a> {
    ghost use Rattle.std.specs.Iterator.{YieldsFirstBy, item_count};
    ghost use Rattle.t1_parts.specs.ItemRefs.{item_of};

    type Item = ItemRef<'i, 'a>;

    ghost next_gives = { YieldsFirstBy item_of (λ left. left) };

    ghost remaining = { item_count (λ left. left) };

    /// The next item.
    fn next(&mut self) -> Option<ItemRef<'i, 'a>> {
        if let Some(item) = self.first {
            self.first = None;
            self.len -= 1;
            return Some(item.as_ref());
        }
        let front = self.front;
        if !front.is_empty() {
            let (line, after) = next_line(front);
            self.front = after;
            self.len -= 1;
            return Some(ItemRef::Plain(line));
        }
        let Some(stretch) = self.stretches.next_stretch() else {
            let back = self.back;
            if back.is_empty() {
                return None;
            }
            let (line, after) = next_line(back);
            self.back = after;
            self.len -= 1;
            return Some(ItemRef::Plain(line));
        };
        match stretch {
            Stretch::One(item) => {
                self.len -= 1;
                Some(item.as_ref())
            }
            Stretch::Lines(plain) => {
                let (line, after) = next_line(plain.as_bytes());
                self.front = after;
                self.len -= 1;
                Some(ItemRef::Plain(line))
            }
        }
    }
}

impl<'i, 'a> ItemsIter<'i, 'a> {
    /// How many items are left.
    pub fn len(&self) -> usize
        ensures { result ≡ length self.now }
    {
        let ItemsIter { len, .. } = self;
        *len
    }

    /// The items but for the plain lines that say nothing of lenIV. Lines that stand together are
    /// passed over as a whole.
    pub fn alone(self) -> AloneItems<'i, 'a>
        ensures { result ≡ filter stands_alone self.entry }
    {
        AloneItems::among(self.first, self.stretches)
    }

    /// The same items again. It takes no memory.
    pub fn again(&self) -> ItemsIter<'i, 'a>
        ensures { result ≡ self.now }
    {
        ItemsIter {
            first: self.first,
            front: self.front,
            stretches: self.stretches.again(),
            back: self.back,
            len: self.len,
        }
    }
}

/// The items of some blocks, which are so many.
pub(crate) fn items_among<'i, 'a>(blocks: &'i [Rc<Block<'a>>], len: usize) -> ItemsIter<'i, 'a>
    requires { len ≡ length (shared_joined blocks.now) }
    ensures { result ≡ shared_joined blocks.now }
{
    ItemsIter {
        first: None,
        front: b"",
        stretches: StretchesLeft::of_blocks(blocks),
        back: b"",
        len,
    }
}

/// The items of some blocks, some stretches after them, and some lines, which are so many.
pub(crate) fn items_through<'i, 'a>(
    blocks: &'i [Rc<Block<'a>>],
    last: &'i [Stretch<'a>],
    back: &'i [u8],
    len: usize,
) -> ItemsIter<'i, 'a>
    requires silent { lines_say (lines back.now) ≡ false }
    requires len { len
        ≡ length
        (shared_joined blocks.now ++ (items_in last.now ++ line_items (lines back.now))) }
    ensures { result
        ≡ shared_joined blocks.now ++ (items_in last.now ++ line_items (lines back.now)) }
{
    ItemsIter {
        first: None,
        front: b"",
        stretches: StretchesLeft::of(no_stretches(), blocks, Some(last)),
        back,
        len,
    }
}

/// The items of some lines, some stretches, and some blocks after them, which are so many.
pub(crate) fn items_from<'i, 'a>(
    front: &'i [u8],
    first: &'i [Stretch<'a>],
    blocks: &'i [Rc<Block<'a>>],
    len: usize,
) -> ItemsIter<'i, 'a>
    requires silent { lines_say (lines front.now) ≡ false }
    requires len { len
        ≡ length
        (line_items (lines front.now) ++ (items_in first.now ++ shared_joined blocks.now)) }
    ensures { result
        ≡ line_items (lines front.now) ++ (items_in first.now ++ shared_joined blocks.now) }
{
    ItemsIter {
        first: None,
        front,
        stretches: StretchesLeft::of(first, blocks, None),
        back: b"",
        len,
    }
}

/// An item that stands elsewhere, alone, before none of some blocks.
pub(crate) fn item_before<'i, 'a>(
    item: &'i Item<'a>,
    none: &'i [Rc<Block<'a>>],
) -> ItemsIter<'i, 'a>
    requires { length none.now ≡ 0 }
    ensures { result ≡ item.now ∷ [] }
{
    ItemsIter {
        first: Some(item),
        front: b"",
        stretches: StretchesLeft::of_blocks(none),
        back: b"",
        len: 1,
    }
}
