//! Elements put into a tree and taken out of it.

ghost use Rattle.std.specs.Prelude.{◌≡◌, ◌<◌, ◌≤◌, ◌+◌, ◌^◌, length, slice_set, true};
ghost use Rattle.std.specs.Prelude.{IfOk, OnOk, OnErr};
ghost use Rattle.std.specs.List.{insert, remove, slice_index_or};
ghost use Rattle.t1_tree.specs.Sums.{IsSameSum};
ghost use Rattle.t1_tree.specs.Trees.{elements, HasParts, IsNoHigher};

use crate::balance::{place_in_filled, place_with_room};
use crate::node::{Node, Tree};
use crate::places::place_of;
use crate::sums::{Element, Sum};
use std::alloc::{AllocError, Global};
use std::rc::Rc;

impl<T: Element> Node<T> {
    /// Puts an element in the place of another, and says whether it has the same sum. Where memory
    /// runs out, the elements are the same.
    #[cycle(set)]
    fn set(&mut self, at: usize, element: T) -> Result<bool, AllocError>
        requires { at < length (elements self.old) }
        ensures ok { OnOk result (elements self.new ≡ slice_set (elements self.old) at element) }
        ensures err { OnErr result (elements self.new ≡ elements self.old) }
        ensures sum { IfOk result
            (λ is_same. is_same ≡ true → IsSameSum T.sum_of (elements self.old) at element) }
        ensures height { IsNoHigher self.old self.new }
    {
        match self {
            Node::Leaf(items) => {
                let is_same = items[at].sum().is_same(&element.sum());
                items[at] = element;
                Ok(is_same)
            }
            Node::Inner(trees) => {
                let (index, offset) = place_of(trees.as_slice(), at);
                trees[index].set(offset, element)
            }
        }
    }

    /// Puts an element in. Where memory runs out, the elements are the same.
    #[cycle(insert)]
    fn insert(&mut self, alloc: Global, at: usize, element: T) -> Result<(), AllocError>
        requires within { at ≤ length (elements self.old) }
        requires few { length (elements self.old) + 1 < 2 ^ 64 }
        requires parts { HasParts self.old }
        ensures ok { OnOk result (elements self.new ≡ insert (elements self.old) at element) }
        ensures err { OnErr result (elements self.new ≡ elements self.old) }
        ensures height { IsNoHigher self.old self.new }
    {
        match self {
            Node::Leaf(items) => {
                items.insert(at, element)?;
                Ok(())
            }
            Node::Inner(trees) => {
                let (index, offset) = place_with_room(alloc, trees, at)?;
                trees[index].insert(alloc, offset, element)
            }
        }
    }

    /// Takes an element out, which isn't the only one. Where memory runs out, the elements are the
    /// same.
    #[cycle(remove)]
    fn remove(&mut self, alloc: Global, at: usize) -> Result<(), AllocError>
        requires within { at < length (elements self.old) }
        requires others { 1 < length (elements self.old) }
        ensures ok { OnOk result (elements self.new ≡ remove (elements self.old) at) }
        ensures err { OnErr result (elements self.new ≡ elements self.old) }
        ensures height { IsNoHigher self.old self.new }
    {
        match self {
            Node::Leaf(items) => {
                drop(items.remove(at));
                Ok(())
            }
            Node::Inner(trees) => {
                let (index, offset) = place_in_filled(alloc, trees, at)?;
                if trees[index].len() == 1 {
                    drop(trees.remove(index));
                    return Ok(());
                }
                trees[index].remove(alloc, offset)
            }
        }
    }
}

impl<T: Element> Tree<T> {
    /// Puts an element in the place of another, and says whether it has the same sum. Where memory
    /// runs out, nothing has changed.
    #[cycle(set)]
    pub(crate) fn set(&mut self, at: usize, element: T) -> Result<bool, AllocError>
        requires { at < length self.old.0 }
        ensures ok { OnOk result (self.new.0 ≡ slice_set self.old.0 at element) }
        ensures err { OnErr result (self.new.0 ≡ self.old.0) }
        ensures sum { IfOk result
            (λ is_same. is_same ≡ true → IsSameSum T.sum_of self.old.0 at element) }
        ensures height { self.new.1 ≡ self.old.1 }
    {
        let node = Rc::make_mut(&mut self.node)?;
        let is_same = node.set(at, element)?;
        if is_same {
            return Ok(is_same);
        }
        let sum = node.sum();
        self.sum = sum;
        Ok(is_same)
    }

    /// Puts an element in. Where memory runs out, nothing has changed.
    #[cycle(insert)]
    pub(crate) fn insert(&mut self, alloc: Global, at: usize, element: T) -> Result<(), AllocError>
        requires within { at ≤ length self.old.0 }
        requires few { length self.old.0 + 1 < 2 ^ 64 }
        ensures ok { OnOk result (self.new.0 ≡ insert self.old.0 at element) }
        ensures err { OnErr result (self.new.0 ≡ self.old.0) }
        ensures height { self.new.1 ≡ self.old.1 }
    {
        let node = Rc::make_mut(&mut self.node)?;
        node.insert(alloc, at, element)?;
        let sum = node.sum();
        self.sum = sum;
        self.len += 1;
        Ok(())
    }

    /// Takes an element out, which isn't the only one. Where memory runs out, nothing has changed.
    #[cycle(remove)]
    pub(crate) fn remove(&mut self, alloc: Global, at: usize) -> Result<(), AllocError>
        requires within { at < length self.old.0 }
        requires others { 1 < length self.old.0 }
        ensures ok { OnOk result (self.new.0 ≡ remove self.old.0 at) }
        ensures err { OnErr result (self.new.0 ≡ self.old.0) }
        ensures height { self.new.1 ≡ self.old.1 }
    {
        let node = Rc::make_mut(&mut self.node)?;
        node.remove(alloc, at)?;
        let sum = node.sum();
        self.sum = sum;
        self.len -= 1;
        Ok(())
    }
}
