//! Copies of what stands in a node.

ghost use Rattle.std.specs.Prelude.{◌≡◌, ◌++◌, IfOk, OnOk};

use crate::node::{Node, Tree};
use crate::sums::Element;
use std::alloc::{AllocError, Global};

/// Adds copies of some elements.
fn add_copies<T: Element>(alloc: Global, copies: &mut Vec<T>, items: &[T]) -> Result<(), AllocError>
    ensures { OnOk result (copies.new.items ≡ copies.old.items ++ items.now) }
{
    for item in items {
        copies.push(item.copied(alloc)?)?;
    }
    Ok(())
}

/// Adds some trees once more.
fn add_again<T: Element>(trees: &mut Vec<Tree<T>>, others: &[Tree<T>]) -> Result<(), AllocError>
    ensures { OnOk result (trees.new.items ≡ trees.old.items ++ others.now) }
{
    for tree in others {
        trees.push(tree.copied()?)?;
    }
    Ok(())
}

/// Copies of some elements.
pub(crate) fn copies_of<T: Element>(alloc: Global, items: &[T]) -> Result<Vec<T>, AllocError>
    ensures { IfOk result (λ copies. copies.items ≡ items.now) }
{
    let mut copies = Vec::with_capacity(alloc, T::FULL.max(items.len()))?;
    add_copies(alloc, &mut copies, items)?;
    Ok(copies)
}

/// The same trees once more.
pub(crate) fn again<T: Element>(
    alloc: Global,
    trees: &[Tree<T>],
) -> Result<Vec<Tree<T>>, AllocError>
    ensures { IfOk result (λ copies. copies.items ≡ trees.now) }
{
    let mut copies = Vec::with_capacity(alloc, T::FULL.max(trees.len()))?;
    add_again(&mut copies, trees)?;
    Ok(copies)
}

/// Copies of some elements and of others behind them.
pub(crate) fn copies_of_both<T: Element>(
    alloc: Global,
    front: &[T],
    back: &[T],
) -> Result<Vec<T>, AllocError>
    ensures { IfOk result (λ copies. copies.items ≡ front.now ++ back.now) }
{
    let mut copies = copies_of(alloc, front)?;
    add_copies(alloc, &mut copies, back)?;
    Ok(copies)
}

/// The same trees once more, and others behind them.
pub(crate) fn again_both<T: Element>(
    alloc: Global,
    front: &[Tree<T>],
    back: &[Tree<T>],
) -> Result<Vec<Tree<T>>, AllocError>
    ensures { IfOk result (λ copies. copies.items ≡ front.now ++ back.now) }
{
    let mut copies = again(alloc, front)?;
    add_again(&mut copies, back)?;
    Ok(copies)
}

impl<T: Element> Clone for Node<T> {
    ghost use Rattle.t1_tree.specs.Trees.{IsLike};

    ghost is_clone = { λ node copy. IsLike node copy };

    fn clone(&self) -> Result<Node<T>, AllocError> {
        match self {
            Node::Leaf(items) => Ok(Node::Leaf(copies_of(*items.allocator(), items.as_slice())?)),
            Node::Inner(trees) => Ok(Node::Inner(again(*trees.allocator(), trees.as_slice())?)),
        }
    }
}
