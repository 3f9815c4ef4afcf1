//! The items of a private part, in blocks.

ghost use Rattle.std.specs.Prelude.{◌≡◌, ◌<◌, ◌≤◌, ◌+◌, ◌^◌, ◌++◌, ◌∷◌, [], length, map};
ghost use Rattle.std.specs.Prelude.{take, drop};
ghost use Rattle.std.specs.Prelude.{slice_set, IfOk, OnOk, OnErr, IfSome};
ghost use Rattle.std.specs.List.{insert, position, remove, slice_index_or};
ghost use Rattle.t1_buckets.specs.BucketPlaces.{IsPlaceInBuckets};
ghost use Rattle.t1_parts.specs.declared.item.Item.{Item};
ghost use Rattle.t1_buckets.specs.Buckets.{bucket_at, lists_of, shared_joined};
ghost use Rattle.t1_parts.specs.Counts.{raised_item};
ghost use Rattle.t1_parts.specs.EntryKeys.{is_entry_of, is_of_kind};
ghost use Rattle.t1_parts.specs.EntryKeys.{AreSectionsBefore, IsEntryAt, IsThrough};
ghost use Rattle.t1_parts.specs.Items.{items_in};
ghost use Rattle.t1_parts.specs.ItemRefs.{item_of};
ghost use Rattle.t1_parts.specs.Stretches.{stretches_in};

use crate::block::Block;
use crate::entry_key::{EntryKey, ItemKind};
use crate::item::Item;
use crate::item_ref::ItemRef;
use crate::items_iter::{ItemsIter, item_before, items_among, items_from, items_through};
use crate::stretch::Stretch;
use std::alloc::{AllocError, Global};
use std::marker::Model;
use std::rc::Rc;

/// How many stretches stand in a block before it is cut in two. A block is copied where it is
/// changed while another copy of the items has it.
pub(crate) const FULL: usize = 128;

/// Items in their order. One is found, put in or taken out by a look at the lengths of the blocks
/// and by what its own block has. A copy shares the blocks until one of them is changed. Contracts
/// see the list of the items.
#[derive(Drop)]
pub(crate) struct Blocks<'a> {
    alloc: Global,
    blocks: Vec<Rc<Block<'a>>>,
}

impl<'a> Model for Blocks<'a> {
    ghost use Rattle.std.specs.Prelude.{List};
    ghost use Rattle.t1_parts.specs.declared.item.Item.{Item};
    ghost use Rattle.t1_buckets.specs.Buckets.{shared_joined};

    ghost Value = { List Item };

    ghost view = { λ kept. shared_joined kept.blocks.items };
}

/// Where the item of a place stands: in which block, and how many items of it stand before.
fn place_of(blocks: &[Rc<Block>], at: usize) -> (usize, usize)
    requires { at < length (shared_joined blocks.now) }
    ensures { IsPlaceInBuckets at (lists_of blocks.now) result }
{
    let mut index = 0;
    let mut left = at;
    for block in blocks {
        let len = block.len();
        if left < len {
            return (index, left);
        }
        left -= len;
        index += 1;
    }
    (index, left)
}

/// Adds a block of some stretches.
fn push_block<'a>(
    alloc: Global,
    blocks: &mut Vec<Rc<Block<'a>>>,
    stretches: Vec<Stretch<'a>>,
) -> Result<(), AllocError>
    requires { 0 < length stretches.items }
    ensures { OnOk result
        (shared_joined blocks.new.items
        ≡ shared_joined blocks.old.items ++ items_in stretches.entry.items) }
{
    let block = Block::of(stretches)?;
    blocks.push(Rc::new(alloc, block)?)?;
    Ok(())
}

/// Cuts a block in two, where it is full. Where memory runs out, none is cut.
fn cut(alloc: Global, blocks: &mut Vec<Rc<Block>>, index: usize) -> Result<(), AllocError>
    requires { index < length blocks.old.items }
    ensures { shared_joined blocks.new.items ≡ shared_joined blocks.old.items }
{
    let block = &blocks[index];
    if block.size() < FULL {
        return Ok(());
    }
    let Some((front, back)) = block.halves(alloc)? else {
        return Ok(());
    };
    let front = Rc::new(alloc, front)?;
    let back = Rc::new(alloc, back)?;
    blocks.reserve(1)?;
    blocks[index] = front;
    let _room_was_reserved = blocks.insert(index + 1, back);
    Ok(())
}

/// The place of an item, in a block with room for a further one: a full one is cut in two.
fn place_with_room(
    alloc: Global,
    blocks: &mut Vec<Rc<Block>>,
    at: usize,
) -> Result<(usize, usize), AllocError>
    requires { at < length (shared_joined blocks.old.items) }
    ensures same { shared_joined blocks.new.items ≡ shared_joined blocks.old.items }
    ensures place { IfOk result (λ place. IsPlaceInBuckets at (lists_of blocks.new.items) place) }
{
    let (index, _offset) = place_of(blocks.as_slice(), at);
    cut(alloc, blocks, index)?;
    Ok(place_of(blocks.as_slice(), at))
}

/// Puts an item into a block. Where memory runs out, the items are the same.
fn insert_into<'a>(
    blocks: &mut Vec<Rc<Block<'a>>>,
    index: usize,
    offset: usize,
    item: Item<'a>,
) -> Result<(), AllocError>
    requires index { index < length blocks.old.items }
    requires offset { offset ≤ length (bucket_at index blocks.old.items) }
    ensures ok { OnOk result
        (lists_of blocks.new.items
        ≡ slice_set (lists_of blocks.old.items) index
        (insert (bucket_at index blocks.old.items) offset item.entry)) }
    ensures err { OnErr result (lists_of blocks.new.items ≡ lists_of blocks.old.items) }
{
    let block = match Rc::make_mut(&mut blocks[index]) {
        Ok(block) => block,
        Err(error) => {
            drop(item);
            return Err(error);
        }
    };
    block.insert(offset, item)
}

/// Puts an item of a block in the place of another. Where memory runs out, the items are the same.
fn put_into<'a>(
    blocks: &mut Vec<Rc<Block<'a>>>,
    index: usize,
    offset: usize,
    item: Item<'a>,
) -> Result<(), AllocError>
    requires index { index < length blocks.old.items }
    requires offset { offset < length (bucket_at index blocks.old.items) }
    ensures ok { OnOk result
        (lists_of blocks.new.items
        ≡ slice_set (lists_of blocks.old.items) index
        (slice_set (bucket_at index blocks.old.items) offset item.entry)) }
    ensures err { OnErr result (lists_of blocks.new.items ≡ lists_of blocks.old.items) }
{
    let block = match Rc::make_mut(&mut blocks[index]) {
        Ok(block) => block,
        Err(error) => {
            drop(item);
            return Err(error);
        }
    };
    block.put(offset, item)
}

/// Takes an item out of a block, which isn't the only one. Where memory runs out, the items are the
/// same.
fn take_from(blocks: &mut Vec<Rc<Block>>, index: usize, offset: usize) -> Result<(), AllocError>
    requires index { index < length blocks.old.items }
    requires offset { offset < length (bucket_at index blocks.old.items) }
    requires others { 1 < length (bucket_at index blocks.old.items) }
    ensures ok { OnOk result
        (lists_of blocks.new.items
        ≡ slice_set (lists_of blocks.old.items) index
        (remove (bucket_at index blocks.old.items) offset)) }
    ensures err { OnErr result (lists_of blocks.new.items ≡ lists_of blocks.old.items) }
{
    let block = Rc::make_mut(&mut blocks[index])?;
    block.take_out(offset)
}

/// Raises the counts of the section lines of a block to what is needed.
fn raise_block(
    blocks: &mut Vec<Rc<Block>>,
    index: usize,
    subrs: u64,
    glyphs: u64,
) -> Result<(), AllocError>
    requires { index < length blocks.old.items }
    ensures { OnOk result
        (lists_of blocks.new.items
        ≡ slice_set (lists_of blocks.old.items) index
        (map (raised_item subrs glyphs) (bucket_at index blocks.old.items))) }
{
    if blocks[index].is_raised(subrs, glyphs) {
        return Ok(());
    }
    let block = Rc::make_mut(&mut blocks[index])?;
    block.raise_counts(subrs, glyphs);
    Ok(())
}

/// Puts an item in, in front of another. Where memory runs out, the items are the same.
fn insert_before<'a>(
    alloc: Global,
    blocks: &mut Vec<Rc<Block<'a>>>,
    at: usize,
    item: Item<'a>,
) -> Result<(), AllocError>
    requires { at < length (shared_joined blocks.old.items) }
    ensures ok { OnOk result
        (shared_joined blocks.new.items ≡ insert (shared_joined blocks.old.items) at item.entry) }
    ensures err { OnErr result
        (shared_joined blocks.new.items ≡ shared_joined blocks.old.items) }
{
    let (index, offset) = match place_with_room(alloc, blocks, at) {
        Ok(place) => place,
        Err(error) => {
            drop(item);
            return Err(error);
        }
    };
    insert_into(blocks, index, offset, item)
}

/// Adds an item to the last block. Where memory runs out, the items are the same.
fn push_last<'a>(
    alloc: Global,
    blocks: &mut Vec<Rc<Block<'a>>>,
    last: usize,
    item: Item<'a>,
) -> Result<(), AllocError>
    requires { last + 1 ≡ length blocks.old.items }
    ensures ok { OnOk result
        (shared_joined blocks.new.items ≡ shared_joined blocks.old.items ++ item.entry ∷ []) }
    ensures err { OnErr result
        (shared_joined blocks.new.items ≡ shared_joined blocks.old.items) }
{
    if FULL <= blocks[last].size() {
        return push_alone(alloc, blocks, item);
    }
    let end = blocks[last].len();
    insert_into(blocks, last, end, item)
}

/// Adds an item as a block. Where memory runs out, the items are the same.
fn push_alone<'a>(
    alloc: Global,
    blocks: &mut Vec<Rc<Block<'a>>>,
    item: Item<'a>,
) -> Result<(), AllocError>
    ensures ok { OnOk result
        (shared_joined blocks.new.items ≡ shared_joined blocks.old.items ++ item.entry ∷ []) }
    ensures err { OnErr result
        (shared_joined blocks.new.items ≡ shared_joined blocks.old.items) }
{
    let mut stretches = Vec::with_capacity(alloc, FULL)?;
    stretches.push(Stretch::One(item))?;
    let block = Rc::new(alloc, Block::of(stretches)?)?;
    blocks.push(block)?;
    Ok(())
}

/// How many items stand in front of a block.
fn len_before(blocks: &[Rc<Block>], index: usize) -> usize
    requires within { index ≤ length blocks.now }
    requires few { length (shared_joined blocks.now) < 2 ^ 64 }
    ensures { result ≡ length (shared_joined (take index blocks.now)) }
{
    let front = blocks.split_at(index).0;
    let mut len = 0;
    for block in front {
        len += block.len();
    }
    len
}

/// How many items there are. An error only where they are 2^64 or more, which no memory holds.
fn counted(blocks: &[Rc<Block>]) -> Result<usize, AllocError>
    ensures { IfOk result (λ len. len ≡ length (shared_joined blocks.now)) }
{
    let mut len: usize = 0;
    for block in blocks {
        let Some(more) = len.checked_add(block.len()) else {
            return Err(AllocError);
        };
        len = more;
    }
    Ok(len)
}

/// The block in which an entry stands behind which there are so many, and how many of these stand
/// in the block itself; or the first one. Time alone hangs on it.
fn block_with_behind(blocks: &[Rc<Block>], behind: usize) -> (usize, usize)
    ensures { 0 < length blocks.now → result.0 < length blocks.now }
{
    let mut behind = behind;
    let mut index = blocks.len();
    while 0 < index {
        index -= 1;
        let count = blocks[index].entry_count();
        if behind < count {
            return (index, behind);
        }
        behind -= count;
    }
    (0, 0)
}

/// The place of the entry of a key, where it is one of the few items of a block before the last so
/// many entries. Else nothing is said.
fn entry_in(blocks: &[Rc<Block>], index: usize, behind: usize, key: &EntryKey) -> Option<usize>
    requires within { index < length blocks.now }
    requires few { length (shared_joined blocks.now) < 2 ^ 64 }
    ensures { IfSome result (IsEntryAt key.now (shared_joined blocks.now)) }
{
    let at = blocks[index].entry_before(behind, key)?;
    Some(len_before(blocks, index) + at)
}

/// Where the entry of a key stands.
fn entry_place(blocks: &[Rc<Block>], key: &EntryKey) -> Option<usize>
    requires { length (shared_joined blocks.now) < 2 ^ 64 }
    ensures value { result ≡ position (is_entry_of key.now) (shared_joined blocks.now) }
    ensures within { IfSome result (λ at. at < length (shared_joined blocks.now)) }
{
    let mut passed: usize = 0;
    for block in blocks {
        if let Some(at) = block.entry_place(key) {
            return Some(passed + at);
        }
        passed += block.len();
    }
    None
}

/// How many items stand through the last one of a kind, of so many.
fn through_last(blocks: &[Rc<Block>], len: usize, kind: ItemKind) -> usize
    requires { len ≡ length (shared_joined blocks.now) }
    ensures { IsThrough (is_of_kind kind) (shared_joined blocks.now) result }
{
    let mut before = len;
    let mut index = blocks.len();
    while 0 < index {
        index -= 1;
        let block = &blocks[index];
        before -= block.len();
        let through = block.through_last(kind);
        if 0 < through {
            return before + through;
        }
    }
    0
}

/// The same blocks once more.
fn again<'a>(alloc: Global, blocks: &[Rc<Block<'a>>]) -> Result<Vec<Rc<Block<'a>>>, AllocError>
    ensures { IfOk result (λ copies. shared_joined copies.items ≡ shared_joined blocks.now) }
{
    let mut copies = Vec::with_capacity(alloc, blocks.len())?;
    for block in blocks {
        copies.push(block.clone()?)?;
    }
    Ok(copies)
}

/// How many blocks have the first items up to a place, among so many.
fn blocks_through(blocks: &[Rc<Block>], at: usize, len: usize) -> usize
    requires { len ≡ length (shared_joined blocks.now) }
    ensures within { result ≤ length blocks.now }
    ensures covered { at ≤ len → at ≤ length (shared_joined (take result blocks.now)) }
{
    if len <= at {
        return blocks.len();
    }
    place_of(blocks, at).0 + 1
}

/// Raises the counts of the section lines of the first blocks to what is needed.
fn raise_counts(
    blocks: &mut Vec<Rc<Block>>,
    end: usize,
    subrs: u64,
    glyphs: u64,
) -> Result<(), AllocError>
    requires { end ≤ length blocks.old.items }
    ensures { OnOk result
        (shared_joined blocks.new.items
        ≡ map (raised_item subrs glyphs) (shared_joined (take end blocks.old.items))
        ++ shared_joined (drop end blocks.old.items)) }
{
    for index in 0..end {
        raise_block(blocks, index, subrs, glyphs)?;
    }
    Ok(())
}

impl<'a> Blocks<'a> {
    /// No items.
    pub(crate) fn new(alloc: Global) -> Self
        ensures { result ≡ [] }
    {
        Blocks {
            alloc,
            blocks: Vec::new(alloc),
        }
    }

    /// The items of some stretches, of which each list becomes a block. None of them is moved.
    pub(crate) fn of_lists(lists: Vec<Vec<Stretch<'a>>>) -> Result<Blocks<'a>, AllocError>
        ensures { IfOk result
            (λ blocks. blocks ≡ items_in (stretches_in lists.entry.items)) }
    {
        let alloc = *lists.allocator();
        let mut blocks = Vec::with_capacity(alloc, lists.len())?;
        for stretches in lists {
            if !stretches.is_empty() {
                push_block(alloc, &mut blocks, stretches)?;
            }
        }
        Ok(Blocks { alloc, blocks })
    }

    /// A copy, which shares the blocks.
    pub(crate) fn copied(&self) -> Result<Blocks<'a>, AllocError>
        ensures { IfOk result (λ copy. copy ≡ self.now) }
    {
        Ok(Blocks {
            alloc: self.alloc,
            blocks: again(self.alloc, self.blocks.as_slice())?,
        })
    }

    /// How many items they are. An error only where they are 2^64 or more, which no memory holds.
    pub(crate) fn len(&self) -> Result<usize, AllocError>
        ensures { IfOk result (λ len. len ≡ length self.now) }
    {
        counted(self.blocks.as_slice())
    }

    /// The items, which are so many.
    pub(crate) fn iter(&self, len: usize) -> ItemsIter<'_, 'a>
        requires { len ≡ length self.now }
        ensures { result ≡ self.now }
    {
        items_among(self.blocks.as_slice(), len)
    }

    /// The items before a place, and those from it on, which are so many together.
    pub(crate) fn split_at(&self, at: usize, len: usize) -> (ItemsIter<'_, 'a>, ItemsIter<'_, 'a>)
        requires len { len ≡ length self.now }
        requires within { at ≤ len }
        ensures front { result.0 ≡ take at self.now }
        ensures back { result.1 ≡ drop at self.now }
    {
        let blocks = self.blocks.as_slice();
        if at == len {
            let (all, none) = blocks.split_at(blocks.len());
            return (items_among(all, len), items_among(none, 0));
        }
        let (index, offset) = place_of(blocks, at);
        let cut = blocks[index].split_at(offset);
        let before = blocks.split_at(index).0;
        let after = blocks.split_at(index + 1).1;
        (
            items_through(before, cut.before, cut.front, at),
            items_from(cut.back, cut.after, after, len - at),
        )
    }

    /// None of the items.
    pub(crate) fn none(&self) -> ItemsIter<'_, 'a>
        ensures { result ≡ [] }
    {
        items_among(self.blocks.as_slice().split_at(0).0, 0)
    }

    /// An item that stands elsewhere, alone.
    pub(crate) fn one<'i>(&'i self, item: &'i Item<'a>) -> ItemsIter<'i, 'a>
        ensures { result ≡ item.now ∷ [] }
    {
        item_before(item, self.blocks.as_slice().split_at(0).0)
    }

    /// The item at a place.
    pub(crate) fn item(&self, at: usize) -> ItemRef<'_, 'a>
        requires { at < length self.now }
        ensures { (d : Item) → slice_index_or self.now at d ≡ item_of result }
    {
        let blocks = self.blocks.as_slice();
        let (index, offset) = place_of(blocks, at);
        blocks[index].item(offset)
    }

    /// Where the entry of a key stands.
    pub(crate) fn entry_place(&self, key: &EntryKey) -> Option<usize>
        requires { length self.now < 2 ^ 64 }
        ensures value { result ≡ position (is_entry_of key.now) self.now }
        ensures within { IfSome result (λ at. at < length self.now) }
    {
        entry_place(self.blocks.as_slice(), key)
    }

    /// The place of the entry of a key, where it is one of the few items before the last so many
    /// entries. Else nothing is said.
    pub(crate) fn entry_before(&self, behind: usize, key: &EntryKey) -> Option<usize>
        requires { length self.now < 2 ^ 64 }
        ensures { IfSome result (IsEntryAt key.now self.now) }
    {
        let blocks = self.blocks.as_slice();
        if blocks.is_empty() {
            return None;
        }
        let (index, behind) = block_with_behind(blocks, behind);
        if let Some(at) = entry_in(blocks, index, behind, key) {
            return Some(at);
        }
        let before = index.checked_sub(1)?;
        entry_in(blocks, before, 0, key)
    }

    /// How many items stand through the last one of a kind, of so many.
    pub(crate) fn through_last(&self, len: usize, kind: ItemKind) -> usize
        requires { len ≡ length self.now }
        ensures { IsThrough (is_of_kind kind) self.now result }
    {
        through_last(self.blocks.as_slice(), len, kind)
    }

    /// Adds an item at the end. Where memory runs out, nothing has changed.
    pub(crate) fn push(&mut self, item: Item<'a>) -> Result<(), AllocError>
        ensures ok { OnOk result (self.new ≡ self.old ++ item.entry ∷ []) }
        ensures err { OnErr result (self.new ≡ self.old) }
    {
        match self.blocks.len().checked_sub(1) {
            Some(last) => push_last(self.alloc, &mut self.blocks, last, item),
            None => push_alone(self.alloc, &mut self.blocks, item),
        }
    }

    /// Puts an item in at a place, among so many. Where memory runs out, nothing has changed.
    pub(crate) fn insert(&mut self, at: usize, len: usize, item: Item<'a>) -> Result<(), AllocError>
        requires len { len ≡ length self.old }
        requires within { at ≤ len }
        ensures ok { OnOk result (self.new ≡ insert self.old at item.entry) }
        ensures err { OnErr result (self.new ≡ self.old) }
    {
        if at == len {
            return self.push(item);
        }
        insert_before(self.alloc, &mut self.blocks, at, item)
    }

    /// Takes the item at a place out. Where memory runs out, nothing has changed.
    pub(crate) fn take_out(&mut self, at: usize) -> Result<(), AllocError>
        requires { at < length self.old }
        ensures ok { OnOk result (self.new ≡ remove self.old at) }
        ensures err { OnErr result (self.new ≡ self.old) }
    {
        let (index, offset) = place_of(self.blocks.as_slice(), at);
        if self.blocks[index].len() == 1 {
            drop(self.blocks.remove(index));
            return Ok(());
        }
        take_from(&mut self.blocks, index, offset)
    }

    /// Puts an item in the place of another. Where memory runs out, nothing has changed.
    pub(crate) fn put(&mut self, at: usize, item: Item<'a>) -> Result<(), AllocError>
        requires { at < length self.old }
        ensures ok { OnOk result (self.new ≡ slice_set self.old at item.entry) }
        ensures err { OnErr result (self.new ≡ self.old) }
    {
        let (index, offset) = place_of(self.blocks.as_slice(), at);
        put_into(&mut self.blocks, index, offset, item)
    }

    /// Raises the counts of the section lines to what is needed, of which none stands from a place
    /// on. Where memory runs out, nothing has changed.
    pub(crate) fn raise_counts(
        &mut self,
        end: usize,
        len: usize,
        subrs: u64,
        glyphs: u64,
    ) -> Result<(), AllocError>
        requires len { len ≡ length self.old }
        requires before { AreSectionsBefore end self.old }
        ensures ok { OnOk result (self.new ≡ map (raised_item subrs glyphs) self.old) }
        ensures err { OnErr result (self.new ≡ self.old) }
    {
        let mut blocks = again(self.alloc, self.blocks.as_slice())?;
        let through = blocks_through(blocks.as_slice(), end, len);
        raise_counts(&mut blocks, through, subrs, glyphs)?;
        self.blocks = blocks;
        Ok(())
    }
}
