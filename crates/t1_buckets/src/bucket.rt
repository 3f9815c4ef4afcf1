//! A bucket of elements.

ghost use Rattle.std.specs.Prelude.{◌≡◌, ◌<◌, ◌≤◌, ◌-◌, ◌∷◌, ◌++◌, [], length, true, slice_set};
ghost use Rattle.std.specs.Prelude.{IfOk, OnOk, OnErr, map};
ghost use Rattle.std.specs.List.{insert, remove, slice_index_or};

use std::alloc::{AllocError, Global};
use std::marker::Model;

/// How many elements stand in a bucket before it is cut in two. A bucket is copied where it is
/// changed while another copy of the list has it.
const FULL: usize = 128;

/// What can be copied.
pub trait Copied: Drop {
    /// A copy.
    fn copied(&self, alloc: Global) -> Result<Self, AllocError>
        ensures { IfOk result (λ copy. copy ≡ self.now) };
}

/// One or more elements. Contracts see their list.
#[derive(Drop)]
pub(crate) struct Bucket<T> {
    elements: Vec<T>,
}

impl<T> Model for Bucket<T> {
    ghost use Rattle.std.specs.Prelude.{◌<◌, List, length};

    ghost Value = { List T };

    ghost view = { λ bucket. bucket.elements.items };

    ghost invariant = { λ bucket. 0 < length bucket.elements.items };
}

impl<T> Bucket<T> {
    /// The elements.
    pub(crate) fn as_slice(&self) -> &[T]
        ensures value { result.now ≡ self.now }
        ensures some { 0 < length result.now }
    {
        self.elements.as_slice()
    }

    /// How many elements they are.
    pub(crate) fn len(&self) -> usize
        ensures value { result ≡ length self.now }
        ensures some { 0 < result }
    {
        self.elements.len()
    }

    /// Whether it is cut in two before a further element comes in.
    pub(crate) fn is_full(&self) -> bool
        ensures { result ≡ true → 1 < length self.now }
    {
        self.elements.len() >= FULL
    }

    /// The last element.
    pub(crate) fn last(&self) -> &T
        ensures value { (d : T) → slice_index_or self.now (length self.now - 1) d ≡ result.now }
        ensures some { 0 < length self.now }
    {
        &self.elements[self.elements.len() - 1]
    }
}

/// Copies of some elements.
fn copies_of<T: Copied>(alloc: Global, elements: &[T]) -> Result<Vec<T>, AllocError>
    ensures { IfOk result (λ copies. copies.items ≡ elements.now) }
{
    let mut copies = Vec::with_capacity(alloc, elements.len())?;
    for element in elements {
        copies.push(element.copied(alloc)?)?;
    }
    Ok(copies)
}

impl<T: Copied> Clone for Bucket<T> {
    ghost is_clone = { λ bucket copy. copy ≡ bucket };

    fn clone(&self) -> Result<Bucket<T>, AllocError> {
        let alloc = *self.elements.allocator();
        let _len = self.len();
        let elements = copies_of(alloc, self.elements.as_slice())?;
        Ok(Bucket { elements })
    }
}

impl<T: Copied> Bucket<T> {
    /// Copies of the two halves.
    pub(crate) fn halves(&self, alloc: Global) -> Result<(Bucket<T>, Bucket<T>), AllocError>
        requires { 1 < length self.now }
        ensures { IfOk result (λ halves. halves.0 ++ halves.1 ≡ self.now) }
    {
        let half = self.elements.len() / 2;
        let (front, back) = self.elements.as_slice().split_at(half);
        let front = copies_of(alloc, front)?;
        let back = copies_of(alloc, back)?;
        Ok((Bucket { elements: front }, Bucket { elements: back }))
    }
}

impl<T: Drop> Bucket<T> {
    /// A bucket of one element.
    pub(crate) fn one(alloc: Global, element: T) -> Result<Self, AllocError>
        ensures { IfOk result (λ bucket. bucket ≡ element ∷ []) }
    {
        let mut elements = Vec::new(alloc);
        elements.push(element)?;
        Ok(Bucket { elements })
    }

    /// Puts an element in the place of another.
    pub(crate) fn set(&mut self, at: usize, element: T)
        requires { at < length self.old }
        ensures { self.new ≡ slice_set self.old at element }
    {
        self.elements[at] = element;
    }

    /// Puts an element in. Where memory runs out, nothing has changed.
    pub(crate) fn insert(&mut self, at: usize, element: T) -> Result<(), AllocError>
        requires { at ≤ length self.old }
        ensures ok { OnOk result (self.new ≡ insert self.old at element) }
        ensures err { OnErr result (self.new ≡ self.old) }
    {
        self.elements.insert(at, element)?;
        Ok(())
    }

    /// Takes an element out, which isn't the only one.
    pub(crate) fn remove(&mut self, at: usize)
        requires within { at < length self.old }
        requires others { 1 < length self.old }
        ensures { self.new ≡ remove self.old at }
    {
        drop(self.elements.remove(at));
    }
}
