//! Places of elements among trees.

ghost use Rattle.std.specs.Prelude.{◌≡◌, ◌<◌, ◌≤◌, length};
ghost use Rattle.t1_tree.specs.Joins.{IsPlaceIn, IsPlaceUpTo};
ghost use Rattle.t1_tree.specs.Trees.{lists_of, trees_joined};

use crate::node::Tree;
use crate::sums::Element;

/// Where the element of a place stands: in which tree, and how many elements of it stand before.
pub(crate) fn place_of<T: Element>(trees: &[Tree<T>], at: usize) -> (usize, usize)
    requires { at < length (trees_joined trees.now) }
    ensures { IsPlaceIn at (lists_of trees.now) result }
{
    let mut index = 0;
    let mut left = at;
    for tree in trees {
        let len = tree.len();
        if left < len {
            return (index, left);
        }
        left -= len;
        index += 1;
    }
    (index, left)
}

/// Where an element may be put in: at the end of a tree, or in it.
pub(crate) fn place_up_to<T: Element>(trees: &[Tree<T>], at: usize) -> (usize, usize)
    requires some { 0 < length trees.now }
    requires within { at ≤ length (trees_joined trees.now) }
    ensures { IsPlaceUpTo at (lists_of trees.now) result }
{
    let mut index = 0;
    let mut left = at;
    for tree in trees {
        let len = tree.len();
        if left <= len {
            return (index, left);
        }
        left -= len;
        index += 1;
    }
    (index, left)
}
