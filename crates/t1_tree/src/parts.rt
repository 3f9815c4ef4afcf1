//! The parts of a node: their number, and nodes of some of them.

ghost use Rattle.std.specs.Prelude.{◌≡◌, ◌<◌, length, IfOk, IfSome};
ghost use Rattle.t1_tree.specs.Sums.{sum_all};
ghost use Rattle.t1_tree.specs.Trees.{elements, trees_joined, AreHalves, IsBoth};

use crate::copies::{again, again_both, copies_of, copies_of_both};
use crate::node::{Node, Tree};
use crate::sums::{Element, Sum};
use std::alloc::{AllocError, Global};

/// How many parts a node is made of, two or more, so that there is room for others.
pub(crate) fn parts_made<T: Element>() -> usize
    ensures { 1 < result }
{
    let full = T::FULL;
    (full - full / 4).max(2)
}

/// The sum of some elements.
fn sum_of_elements<T: Element>(items: &[T]) -> T::Sum
    ensures { result ≡ sum_all T.Sum.none T.Sum.plus T.sum_of items.now }
{
    let mut sum = T::Sum::zero();
    for item in items {
        sum = sum.add(item.sum());
    }
    sum
}

/// The sum of some trees' elements.
fn sum_of_trees<T: Element>(trees: &[Tree<T>]) -> T::Sum
    ensures { result ≡ sum_all T.Sum.none T.Sum.plus T.sum_of (trees_joined trees.now) }
{
    let mut sum = T::Sum::zero();
    for tree in trees {
        sum = sum.add(tree.sum());
    }
    sum
}

/// How many elements some trees have.
fn len_of_trees<T: Element>(trees: &[Tree<T>]) -> Option<usize>
    ensures { IfSome result (λ len. len ≡ length (trees_joined trees.now)) }
{
    let mut len: usize = 0;
    for tree in trees {
        len = len.checked_add(tree.len())?;
    }
    Some(len)
}

impl<T: Element> Node<T> {
    /// The sum of its elements.
    pub(crate) fn sum(&self) -> T::Sum
        ensures { result ≡ sum_all T.Sum.none T.Sum.plus T.sum_of (elements self.now) }
    {
        match self {
            Node::Leaf(items) => sum_of_elements(items.as_slice()),
            Node::Inner(trees) => sum_of_trees(trees.as_slice()),
        }
    }

    /// How many elements there are.
    pub(crate) fn len(&self) -> Option<usize>
        ensures { IfSome result (λ len. len ≡ length (elements self.now)) }
    {
        match self {
            Node::Leaf(items) => Some(items.len()),
            Node::Inner(trees) => len_of_trees(trees.as_slice()),
        }
    }

    /// How many parts there are: elements of a leaf, or trees.
    fn parts(&self) -> usize {
        match self {
            Node::Leaf(items) => items.len(),
            Node::Inner(trees) => trees.len(),
        }
    }

    /// Whether it is cut in two before a further element comes in.
    pub(crate) fn is_full(&self) -> bool {
        self.parts() >= T::FULL
    }

    /// Whether it is joined with the one beside it before an element is taken out.
    pub(crate) fn is_thin(&self) -> bool {
        self.parts() <= T::FULL / 3
    }

    /// Whether it has room for some more parts than it has.
    pub(crate) fn has_room(&self) -> bool {
        self.parts() <= parts_made::<T>()
    }

    /// Copies of the two halves, where there are two parts or more.
    pub(crate) fn halves(&self, alloc: Global) -> Result<Option<(Node<T>, Node<T>)>, AllocError>
        ensures { IfOk result
            (λ halves. IfSome halves (λ halves. AreHalves self.now halves.0 halves.1)) }
    {
        match self {
            Node::Leaf(items) => {
                let half = items.len() / 2;
                if half == 0 {
                    return Ok(None);
                }
                let (front, back) = items.as_slice().split_at(half);
                let front = copies_of(alloc, front)?;
                let back = copies_of(alloc, back)?;
                Ok(Some((Node::Leaf(front), Node::Leaf(back))))
            }
            Node::Inner(trees) => {
                let half = trees.len() / 2;
                if half == 0 {
                    return Ok(None);
                }
                let (front, back) = trees.as_slice().split_at(half);
                let front = again(alloc, front)?;
                let back = again(alloc, back)?;
                Ok(Some((Node::Inner(front), Node::Inner(back))))
            }
        }
    }

    /// A node of the parts of both, where both are leaves or neither is.
    pub(crate) fn joined_with(
        &self,
        alloc: Global,
        next: &Node<T>,
    ) -> Result<Option<Node<T>>, AllocError>
        ensures { IfOk result (λ both. IfSome both (λ both. IsBoth self.now next.now both)) }
    {
        match self {
            Node::Leaf(front) => {
                let Node::Leaf(back) = next else {
                    return Ok(None);
                };
                let both = copies_of_both(alloc, front.as_slice(), back.as_slice())?;
                Ok(Some(Node::Leaf(both)))
            }
            Node::Inner(front) => {
                let Node::Inner(back) = next else {
                    return Ok(None);
                };
                let both = again_both(alloc, front.as_slice(), back.as_slice())?;
                Ok(Some(Node::Inner(both)))
            }
        }
    }
}
