//! A tree as a whole: its making, and what is read of it.

ghost use Rattle.std.specs.Prelude.{◌≡◌, ◌<◌, ◌≤◌, length, take, drop, true, IfOk, IfSome};
ghost use Rattle.std.specs.List.{slice_index_or};
ghost use Rattle.t1_tree.specs.Sums.{sum_all, sum_from};
ghost use Rattle.t1_tree.specs.Trees.{elements, trees_joined, HasHeight};

use crate::node::{Node, Tree};
use crate::places::{place_of, place_up_to};
use crate::sums::{Element, Sum};
use std::alloc::{AllocError, Global};
use std::rc::Rc;

/// A sum, and after it that of some trees' elements.
fn sum_through<T: Element>(sum: T::Sum, trees: &[Tree<T>]) -> T::Sum
    requires { T.Sum.plus sum T.Sum.none ≡ sum }
    ensures value { result ≡ sum_from sum T.Sum.plus T.sum_of (trees_joined trees.now) }
    ensures sum { T.Sum.plus result T.Sum.none ≡ result }
{
    let mut through = sum;
    for tree in trees {
        through = through.add(tree.sum());
    }
    through
}

/// A sum, and after it that of some elements.
fn sum_over<T: Element>(sum: T::Sum, items: &[T]) -> T::Sum
    ensures { result ≡ sum_from sum T.Sum.plus T.sum_of items.now }
{
    let mut through = sum;
    for item in items {
        through = through.add(item.sum());
    }
    through
}

impl<T: Element> Tree<T> {
    /// A tree of a node.
    pub(crate) fn of(alloc: Global, height: usize, node: Node<T>) -> Result<Tree<T>, AllocError>
        requires { HasHeight height node }
        ensures value { IfOk result (λ tree. tree ≡ (elements node, height)) }
        ensures some { IfOk result (λ tree. 0 < length tree.0) }
    {
        let Some(len) = node.len() else {
            return Err(AllocError);
        };
        let sum = node.sum();
        let node = Rc::new(alloc, node)?;
        Ok(Tree {
            len,
            height,
            sum,
            node,
        })
    }

    /// How many elements they are.
    pub(crate) fn len(&self) -> usize
        ensures value { result ≡ length self.now.0 }
        ensures some { 0 < result }
    {
        self.len
    }

    /// The height.
    pub(crate) fn height(&self) -> usize
        ensures { result ≡ self.now.1 }
    {
        self.height
    }

    /// The sum of the elements.
    pub(crate) fn sum(&self) -> T::Sum
        ensures { result ≡ sum_all T.Sum.none T.Sum.plus T.sum_of self.now.0 }
    {
        self.sum
    }

    /// The same tree once more.
    pub(crate) fn copied(&self) -> Result<Tree<T>, AllocError>
        ensures { IfOk result (λ copy. copy ≡ self.now) }
    {
        let node = self.node.clone()?;
        Ok(Tree {
            len: self.len,
            height: self.height,
            sum: self.sum,
            node,
        })
    }

    /// Whether it is cut in two before a further element comes in.
    pub(crate) fn is_full(&self) -> bool {
        self.node.is_full()
    }

    /// Whether it is joined with the one beside it before an element is taken out.
    pub(crate) fn is_thin(&self) -> bool {
        self.node.is_thin()
    }

    /// Whether it has room for some more parts than it has.
    pub(crate) fn has_room(&self) -> bool {
        self.node.has_room()
    }

    /// The only tree below the root, where there is one alone.
    pub(crate) fn only(&self) -> Result<Option<Tree<T>>, AllocError>
        ensures { IfOk result (λ only. IfSome only (λ only. only.0 ≡ self.now.0)) }
    {
        match &*self.node {
            Node::Leaf(_) => Ok(None),
            Node::Inner(trees) => {
                if trees.len() != 1 {
                    return Ok(None);
                }
                Ok(Some(trees[0].copied()?))
            }
        }
    }

    /// The element at a place.
    pub(crate) fn get(&self, at: usize) -> &T
        requires { at < length self.now.0 }
        ensures { (d : T) → slice_index_or self.now.0 at d ≡ result.now }
    {
        match &*self.node {
            Node::Leaf(items) => &items[at],
            Node::Inner(trees) => {
                let (index, offset) = place_of(trees.as_slice(), at);
                trees[index].get(offset)
            }
        }
    }

    /// Some elements from a place on, which stand together.
    pub(crate) fn leaf_from(&self, at: usize) -> &[T]
        requires { at < length self.now.0 }
        ensures some { 0 < length result.now }
        ensures elements { result.now ≡ take (length result.now) (drop at self.now.0) }
    {
        match &*self.node {
            Node::Leaf(items) => items.as_slice().split_at(at).1,
            Node::Inner(trees) => {
                let (index, offset) = place_of(trees.as_slice(), at);
                trees[index].leaf_from(offset)
            }
        }
    }

    /// A sum, and after it that of the elements before a place.
    pub(crate) fn sum_before(&self, sum: T::Sum, at: usize) -> T::Sum
        requires within { at ≤ length self.now.0 }
        requires sum { T.Sum.plus sum T.Sum.none ≡ sum }
        ensures { result ≡ sum_from sum T.Sum.plus T.sum_of (take at self.now.0) }
    {
        match &*self.node {
            Node::Leaf(items) => sum_over(sum, items.as_slice().split_at(at).0),
            Node::Inner(trees) => {
                let all = trees.as_slice();
                let (index, offset) = place_up_to(all, at);
                let through = sum_through(sum, all.split_at(index).0);
                trees[index].sum_before(through, offset)
            }
        }
    }
}
