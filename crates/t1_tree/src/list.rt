//! A list with sums.

ghost use Rattle.std.specs.Prelude.{◌≡◌, ◌<◌, ◌≤◌, ◌∷◌, ◌++◌, [], length, take, drop, slice_set};
ghost use Rattle.std.specs.Prelude.{Bool, IfOk, OnOk, OnErr};
ghost use Rattle.std.specs.Fn.{ComputesKey};
ghost use Rattle.std.specs.List.{insert, remove, slice_index_or};
ghost use Rattle.t1_tree.specs.Reached.{IsFirstReached, Stays};
ghost use Rattle.t1_tree.specs.Sums.{sum_all};

use crate::balance::{lower, raise};
use crate::iter::SummedIter;
use crate::made::tree_of;
use crate::node::{Node, Tree};
use crate::sums::{Element, Sum};
use std::alloc::{AllocError, Global};
use std::marker::Model;

/// Elements in their order, and the sum of any of the first. A copy is one pointer: it shares the
/// elements, until one of both is changed. Contracts see the list of the elements.
#[derive(Drop)]
pub struct SummedList<T: Element> {
    alloc: Global,
    root: Option<Tree<T>>,
}

impl<T: Element> Model for SummedList<T> {
    ghost use Rattle.std.specs.Prelude.{List};

    ghost Value = { List T };

    ghost use Rattle.t1_tree.specs.Trees.{root_elements};

    ghost view = { λ list. root_elements list.root };
}

/// A tree of one element.
fn tree_of_one<T: Element>(alloc: Global, element: T) -> Result<Tree<T>, AllocError>
    ensures { IfOk result (λ tree. tree.0 ≡ element ∷ []) }
{
    let mut items = Vec::with_capacity(alloc, T::FULL)?;
    items.push(element)?;
    Tree::of(alloc, 0, Node::Leaf(items))
}

/// Puts an element into the tree of a root, which is raised where it is full. Where memory runs
/// out, the elements are the same.
fn insert_below<T: Element>(
    alloc: Global,
    root: &mut Tree<T>,
    at: usize,
    element: T,
) -> Result<(), AllocError>
    requires { at ≤ length root.old.0 }
    ensures ok { OnOk result (root.new.0 ≡ insert root.old.0 at element) }
    ensures err { OnErr result (root.new.0 ≡ root.old.0) }
{
    if root.len() == usize::MAX {
        return Err(AllocError);
    }
    raise(alloc, root)?;
    root.insert(alloc, at, element)
}

/// Takes an element out of the tree of a root, which isn't the only one. Where memory runs out, the
/// elements are the same.
fn remove_below<T: Element>(alloc: Global, root: &mut Tree<T>, at: usize) -> Result<(), AllocError>
    requires within { at < length root.old.0 }
    requires others { 1 < length root.old.0 }
    ensures ok { OnOk result (root.new.0 ≡ remove root.old.0 at) }
    ensures err { OnErr result (root.new.0 ≡ root.old.0) }
{
    lower(root)?;
    root.remove(alloc, at)
}

impl<T: Element> SummedList<T> {
    /// No elements.
    pub fn new(alloc: Global) -> Self
        ensures { result ≡ [] }
    {
        SummedList { alloc, root: None }
    }

    /// The elements of a vector.
    pub fn of(items: Vec<T>) -> Result<Self, AllocError>
        ensures { IfOk result (λ list. list ≡ items.items) }
    {
        let alloc = *items.allocator();
        let root = tree_of(alloc, items)?;
        Ok(SummedList { alloc, root })
    }

    /// How many elements they are.
    pub fn len(&self) -> usize
        ensures { result ≡ length self.now }
    {
        match &self.root {
            Some(root) => root.len(),
            None => 0,
        }
    }

    /// Their sum.
    pub fn sum(&self) -> T::Sum
        ensures { result ≡ sum_all T.Sum.none T.Sum.plus T.sum_of self.now }
    {
        match &self.root {
            Some(root) => root.sum(),
            None => T::Sum::zero(),
        }
    }

    /// The sum of the elements before a place.
    pub fn sum_before(&self, at: usize) -> T::Sum
        requires { at ≤ length self.now }
        ensures { result ≡ sum_all T.Sum.none T.Sum.plus T.sum_of (take at self.now) }
    {
        match &self.root {
            Some(root) => root.sum_before(T::Sum::zero(), at),
            None => T::Sum::zero(),
        }
    }

    /// How many trees stand one below another. It is no part of what contracts see, and is for
    /// tests that hold it in step with the length.
    pub fn height(&self) -> usize {
        match &self.root {
            Some(root) => root.height().saturating_add(1),
            None => 0,
        }
    }

    /// The element at a place.
    pub fn get(&self, at: usize) -> &T
        requires { at < length self.now }
        ensures { (d : T) → slice_index_or self.now at d ≡ result.now }
    {
        match &self.root {
            Some(root) => root.get(at),
            None => unreachable!(),
        }
    }

    /// How many elements stand before the first one with which the sum of all through it is
    /// reached; once it is, it stays so.
    pub fn before<F: FnMut(&T::Sum) -> bool>(&self, mut is_reached: F) -> usize
        requires { F.IsAlwaysCallable is_reached }
        ensures within { result ≤ length self.now }
        ensures first { (by : T.Sum → Bool)
            → ComputesKey F.FnMut by is_reached
            → Stays by T.Sum.none T.Sum.plus T.sum_of self.now
            → IsFirstReached by T.Sum.none T.Sum.plus T.sum_of self.now result }
    {
        match &self.root {
            Some(root) => root.before(T::Sum::zero(), &mut is_reached),
            None => 0,
        }
    }

    /// The elements from a place on that stand together, one or more.
    pub fn leaf_from(&self, at: usize) -> &[T]
        requires { at < length self.now }
        ensures some { 0 < length result.now }
        ensures elements { result.now ≡ take (length result.now) (drop at self.now) }
    {
        match &self.root {
            Some(root) => root.leaf_from(at),
            None => &[],
        }
    }

    /// The elements, one after another.
    pub fn iter(&self) -> SummedIter<'_, T>
        ensures { result ≡ self.now }
    {
        SummedIter::over(self, 0)
    }

    /// The elements from a place on, one after another.
    pub fn iter_from(&self, at: usize) -> SummedIter<'_, T>
        ensures { result ≡ drop at self.now }
    {
        SummedIter::over(self, at)
    }

    /// A copy, which shares the elements.
    pub fn copied(&self) -> Result<SummedList<T>, AllocError>
        ensures { IfOk result (λ copy. copy ≡ self.now) }
    {
        let alloc = self.alloc;
        let Some(root) = &self.root else {
            return Ok(SummedList::new(alloc));
        };
        let root = root.copied()?;
        Ok(SummedList {
            alloc,
            root: Some(root),
        })
    }

    /// Puts an element in the place of another. Where memory runs out, nothing has changed.
    pub fn set(&mut self, at: usize, element: T) -> Result<(), AllocError>
        requires { at < length self.old }
        ensures ok { OnOk result (self.new ≡ slice_set self.old at element) }
        ensures err { OnErr result (self.new ≡ self.old) }
    {
        let Some(root) = &mut self.root else {
            return Ok(());
        };
        root.set(at, element)?;
        Ok(())
    }

    /// Puts an element in. Where memory runs out, nothing has changed.
    pub fn insert(&mut self, at: usize, element: T) -> Result<(), AllocError>
        requires { at ≤ length self.old }
        ensures ok { OnOk result (self.new ≡ insert self.old at element) }
        ensures err { OnErr result (self.new ≡ self.old) }
    {
        let Some(root) = &mut self.root else {
            let root = tree_of_one(self.alloc, element)?;
            self.root = Some(root);
            return Ok(());
        };
        insert_below(self.alloc, root, at, element)
    }

    /// Adds an element at the end. Where memory runs out, nothing has changed.
    pub fn push(&mut self, element: T) -> Result<(), AllocError>
        ensures ok { OnOk result (self.new ≡ self.old ++ element ∷ []) }
        ensures err { OnErr result (self.new ≡ self.old) }
    {
        let end = self.len();
        self.insert(end, element)
    }

    /// Takes an element out. Where memory runs out, nothing has changed.
    pub fn remove(&mut self, at: usize) -> Result<(), AllocError>
        requires { at < length self.old }
        ensures ok { OnOk result (self.new ≡ remove self.old at) }
        ensures err { OnErr result (self.new ≡ self.old) }
    {
        if self.len() == 1 {
            self.root = None;
            return Ok(());
        }
        let Some(root) = &mut self.root else {
            return Ok(());
        };
        remove_below(self.alloc, root, at)
    }
}
