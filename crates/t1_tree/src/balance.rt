//! Trees cut in two and joined, so that they stay wide and low.

ghost use Rattle.std.specs.Prelude.{◌≡◌, ◌<◌, ◌≤◌, ◌+◌, ◌++◌, length, IfOk, IfSome};
ghost use Rattle.t1_tree.specs.Joins.{IsPlaceIn, IsPlaceUpTo};
ghost use Rattle.t1_tree.specs.Trees.{lists_of, trees_joined, AreNoHigher, AreParts};

use crate::node::{Node, Tree};
use crate::places::{place_of, place_up_to};
use crate::sums::Element;
use std::alloc::{AllocError, Global};

impl<T: Element> Tree<T> {
    /// Copies of the two halves, where there are two parts or more.
    fn halves(&self, alloc: Global) -> Result<Option<(Tree<T>, Tree<T>)>, AllocError>
        ensures { IfOk result
            (λ halves. IfSome halves (λ halves. (halves.0.0 ++ halves.1.0 ≡ self.now.0)
            × (0 < length halves.0.0)
            × (0 < length halves.1.0)
            × (halves.0.1 ≡ self.now.1)
            × (halves.1.1 ≡ self.now.1))) }
    {
        let Some((front, back)) = self.node.halves(alloc)? else {
            return Ok(None);
        };
        let front = Tree::of(alloc, self.height, front)?;
        let back = Tree::of(alloc, self.height, back)?;
        Ok(Some((front, back)))
    }

    /// A tree of the parts of both, where both are of one kind.
    fn joined_with(&self, alloc: Global, next: &Tree<T>) -> Result<Option<Tree<T>>, AllocError>
        ensures { IfOk result
            (λ both. IfSome both (λ both. (both.0 ≡ self.now.0 ++ next.now.0)
            × (0 < length both.0)
            × (both.1 ≡ self.now.1))) }
    {
        if self.height != next.height {
            return Ok(None);
        }
        let Some(both) = self.node.joined_with(alloc, &next.node)? else {
            return Ok(None);
        };
        Ok(Some(Tree::of(alloc, self.height, both)?))
    }
}

/// Cuts the tree of an index in two. Where memory runs out, none is cut.
fn cut<T: Element>(alloc: Global, trees: &mut Vec<Tree<T>>, index: usize) -> Result<(), AllocError>
    requires { index < length trees.old.items }
    ensures same { trees_joined trees.new.items ≡ trees_joined trees.old.items }
    ensures heights { AreNoHigher trees.old.items trees.new.items }
{
    let Some((front, back)) = trees[index].halves(alloc)? else {
        return Ok(());
    };
    trees.reserve(1)?;
    trees[index] = front;
    let _room_was_reserved = trees.insert(index + 1, back);
    Ok(())
}

/// Where an element may be put in, in a tree with room for it: a full one is cut in two. Where
/// memory runs out, the elements are the same.
pub(crate) fn place_with_room<T: Element>(
    alloc: Global,
    trees: &mut Vec<Tree<T>>,
    at: usize,
) -> Result<(usize, usize), AllocError>
    requires some { AreParts trees.old.items }
    requires within { at ≤ length (trees_joined trees.old.items) }
    ensures same { trees_joined trees.new.items ≡ trees_joined trees.old.items }
    ensures heights { AreNoHigher trees.old.items trees.new.items }
    ensures place { IfOk result (λ place. IsPlaceUpTo at (lists_of trees.new.items) place) }
{
    let place = place_up_to(trees.as_slice(), at);
    if !trees[place.0].is_full() {
        return Ok(place);
    }
    cut(alloc, trees, place.0)?;
    Ok(place_up_to(trees.as_slice(), at))
}

/// Joins the tree of an index with the next one; where both have too many parts for one, each gets
/// half of them. Where memory runs out, none is changed.
fn join<T: Element>(alloc: Global, trees: &mut Vec<Tree<T>>, index: usize) -> Result<(), AllocError>
    requires { index + 1 < length trees.old.items }
    ensures same { trees_joined trees.new.items ≡ trees_joined trees.old.items }
    ensures heights { AreNoHigher trees.old.items trees.new.items }
{
    let Some(both) = trees[index].joined_with(alloc, &trees[index + 1])? else {
        return Ok(());
    };
    if both.has_room() {
        trees[index] = both;
        drop(trees.remove(index + 1));
        return Ok(());
    }
    let Some((front, back)) = both.halves(alloc)? else {
        return Ok(());
    };
    trees[index] = front;
    trees[index + 1] = back;
    Ok(())
}

/// Joins the tree of an index with one beside it, where there is one. Where memory runs out, none
/// is changed.
fn fill<T: Element>(alloc: Global, trees: &mut Vec<Tree<T>>, index: usize) -> Result<(), AllocError>
    requires { index < length trees.old.items }
    ensures same { trees_joined trees.new.items ≡ trees_joined trees.old.items }
    ensures heights { AreNoHigher trees.old.items trees.new.items }
{
    if index + 1 < trees.len() {
        return join(alloc, trees, index);
    }
    if index > 0 {
        return join(alloc, trees, index - 1);
    }
    Ok(())
}

/// Where an element stands, in a tree that can do without it: a thin one is joined with one beside
/// it. Where memory runs out, the elements are the same.
pub(crate) fn place_in_filled<T: Element>(
    alloc: Global,
    trees: &mut Vec<Tree<T>>,
    at: usize,
) -> Result<(usize, usize), AllocError>
    requires { at < length (trees_joined trees.old.items) }
    ensures same { trees_joined trees.new.items ≡ trees_joined trees.old.items }
    ensures heights { AreNoHigher trees.old.items trees.new.items }
    ensures place { IfOk result (λ place. IsPlaceIn at (lists_of trees.new.items) place) }
{
    let place = place_of(trees.as_slice(), at);
    if !trees[place.0].is_thin() {
        return Ok(place);
    }
    fill(alloc, trees, place.0)?;
    Ok(place_of(trees.as_slice(), at))
}

/// A tree with one below its root.
fn raised<T: Element>(alloc: Global, tree: &Tree<T>) -> Result<Tree<T>, AllocError>
    ensures { IfOk result (λ raised. raised.0 ≡ tree.now.0) }
{
    let Some(height) = tree.height().checked_add(1) else {
        return Err(AllocError);
    };
    let _len = tree.len();
    let mut trees = Vec::with_capacity(alloc, T::FULL)?;
    trees.push(tree.copied()?)?;
    Tree::of(alloc, height, Node::Inner(trees))
}

/// Puts a root above a full one, so that this can be cut in two. Where memory runs out, nothing has
/// changed.
pub(crate) fn raise<T: Element>(alloc: Global, root: &mut Tree<T>) -> Result<(), AllocError>
    ensures { root.new.0 ≡ root.old.0 }
{
    if !root.is_full() {
        return Ok(());
    }
    let raised = raised(alloc, root)?;
    *root = raised;
    Ok(())
}

/// Puts the only tree below a root in its place. Where memory runs out, nothing has changed.
pub(crate) fn lower<T: Element>(root: &mut Tree<T>) -> Result<(), AllocError>
    ensures { root.new.0 ≡ root.old.0 }
{
    let Some(only) = root.only()? else {
        return Ok(());
    };
    *root = only;
    Ok(())
}
