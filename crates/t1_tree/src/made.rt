//! A tree made of elements.

ghost use Rattle.std.specs.Prelude.{◌≡◌, ◌<◌, ◌+◌, ◌∷◌, ◌++◌, [], length, IfOk, OnOk};
ghost use Rattle.t1_tree.specs.Trees.{root_elements, trees_joined, AreBelow, AreFilled, AreParts};

use crate::node::{Node, Tree};
use crate::parts::parts_made;
use crate::sums::Element;
use std::alloc::{AllocError, Global};

/// Adds a leaf of some elements.
fn add_leaf<T: Element>(
    alloc: Global,
    leaves: &mut Vec<Tree<T>>,
    leaf: Vec<T>,
) -> Result<(), AllocError>
    requires { 0 < length leaf.items }
    ensures { OnOk result (leaves.new.items ≡ leaves.old.items ++ (leaf.items, 0) ∷ []) }
{
    leaves.push(Tree::of(alloc, 0, Node::Leaf(leaf))?)?;
    Ok(())
}

/// Some leaves, and one of the elements that are left over, where there are any.
fn with_last_leaf<T: Element>(
    alloc: Global,
    leaves: Vec<Tree<T>>,
    leaf: Vec<T>,
) -> Result<Vec<Tree<T>>, AllocError>
    ensures none { length leaf.items ≡ 0 → IfOk result (λ all. all.items ≡ leaves.items) }
    ensures some { 0 < length leaf.items → IfOk result
        (λ all. all.items ≡ leaves.items ++ (leaf.items, 0) ∷ []) }
{
    if leaf.is_empty() {
        return Ok(leaves);
    }
    let mut all = leaves;
    add_leaf(alloc, &mut all, leaf)?;
    Ok(all)
}

/// Leaves of some elements.
fn leaves_of<T: Element>(alloc: Global, items: Vec<T>) -> Result<Vec<Tree<T>>, AllocError>
    ensures same { IfOk result (λ leaves. trees_joined leaves.items ≡ items.items) }
    ensures filled { IfOk result (λ leaves. AreFilled leaves.items) }
    ensures heights { IfOk result (λ leaves. AreBelow 1 leaves.items) }
{
    let parts = parts_made::<T>();
    let mut leaves = Vec::new(alloc);
    let mut leaf = Vec::with_capacity(alloc, T::FULL)?;
    for item in items {
        leaf.push(item)?;
        if leaf.len() >= parts {
            add_leaf(alloc, &mut leaves, leaf)?;
            leaf = Vec::with_capacity(alloc, T::FULL)?;
        }
    }
    with_last_leaf(alloc, leaves, leaf)
}

/// Adds a tree above some others.
fn add_tree<T: Element>(
    alloc: Global,
    height: usize,
    level: &mut Vec<Tree<T>>,
    below: Vec<Tree<T>>,
) -> Result<(), AllocError>
    requires { AreParts below.items × AreBelow height below.items }
    ensures { OnOk result
        (level.new.items ≡ level.old.items ++ (trees_joined below.items, height) ∷ []) }
{
    level.push(Tree::of(alloc, height, Node::Inner(below))?)?;
    Ok(())
}

/// Some trees, and one above others that are left over, where there are any.
fn with_last<T: Element>(
    alloc: Global,
    height: usize,
    level: Vec<Tree<T>>,
    below: Vec<Tree<T>>,
) -> Result<Vec<Tree<T>>, AllocError>
    requires { AreFilled below.items × AreBelow height below.items }
    ensures none { length below.items ≡ 0 → IfOk result (λ all. all.items ≡ level.items) }
    ensures some { 0 < length below.items → IfOk result
        (λ all. all.items ≡ level.items ++ (trees_joined below.items, height) ∷ []) }
{
    if below.is_empty() {
        return Ok(level);
    }
    let mut all = level;
    add_tree(alloc, height, &mut all, below)?;
    Ok(all)
}

/// Higher trees of some trees.
fn level_of<T: Element>(
    alloc: Global,
    height: usize,
    trees: Vec<Tree<T>>,
) -> Result<Vec<Tree<T>>, AllocError>
    requires many { 1 < length trees.items }
    requires filled { AreFilled trees.items }
    requires heights { AreBelow height trees.items }
    ensures same { IfOk result (λ level. trees_joined level.items ≡ trees_joined trees.items) }
    ensures filled { IfOk result (λ level. AreFilled level.items) }
    ensures heights { IfOk result (λ level. AreBelow (height + 1) level.items) }
    ensures fewer { IfOk result (λ level. length level.items < length trees.items) }
{
    let parts = parts_made::<T>();
    let mut level = Vec::new(alloc);
    let mut below = Vec::with_capacity(alloc, T::FULL)?;
    for tree in trees {
        below.push(tree)?;
        if below.len() >= parts {
            add_tree(alloc, height, &mut level, below)?;
            below = Vec::with_capacity(alloc, T::FULL)?;
        }
    }
    with_last(alloc, height, level, below)
}

/// A tree of some elements, where there are any.
pub(crate) fn tree_of<T: Element>(
    alloc: Global,
    items: Vec<T>,
) -> Result<Option<Tree<T>>, AllocError>
    ensures { IfOk result (λ root. root_elements root ≡ items.items) }
{
    let mut trees = leaves_of(alloc, items)?;
    let _count = trees.len();
    let mut height = 0;
    while trees.len() > 1 {
        height += 1;
        trees = level_of(alloc, height, trees)?;
    }
    Ok(trees.pop())
}
