//! What a tree is.

use crate::sums::{Element, Sum};
use std::marker::Model;
use std::rc::Rc;

/// One or more elements, which copies share. Contracts see their list, and a height.
#[cycle(tree)]
#[derive(Drop)]
pub(crate) struct Tree<T: Element> {
    pub(crate) len: usize,
    pub(crate) height: usize,
    pub(crate) sum: T::Sum,
    pub(crate) node: Rc<Node<T>>,
}

/// What stands in a tree: elements, or lower trees.
#[cycle(tree)]
#[derive(Drop)]
pub(crate) enum Node<T: Element> {
    Leaf(Vec<T>),
    Inner(Vec<Tree<T>>),
}

impl<T: Element> Model for Tree<T> {
    ghost use Rattle.std.specs.Prelude.{◌≡◌, ℕ, List, length};

    ghost Value = { List T × ℕ };

    ghost use Rattle.t1_tree.specs.Sums.{sum_all};
    ghost use Rattle.t1_tree.specs.Trees.{elements, HasHeight};

    ghost view = { λ tree. (elements tree.node.value, tree.height) };

    ghost invariant = { λ tree.
        (tree.len ≡ length (elements tree.node.value))
        × (HasHeight tree.height tree.node.value)
        × (tree.sum ≡ sum_all T.Sum.none T.Sum.plus T.sum_of (elements tree.node.value)) };

    ghost size = { λ tree. tree.1 };

    ghost use Rattle.std.proofs.Common.{arith};
    ghost use Rattle.t1_tree.specs.TreeFalls.{deep_below};

    ghost size_decreases = { λ tree h.
        omega (arith, deep_below T T.Sum T.Element T.Sum.Sum tree.height tree.node.value h.1) };
}
