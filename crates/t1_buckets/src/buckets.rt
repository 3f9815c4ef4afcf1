//! A list whose elements stand in buckets.

ghost use Rattle.std.specs.Prelude.{◌≡◌, ◌<◌, ◌≤◌, ◌∷◌, ◌++◌, [], length, slice_set};
ghost use Rattle.std.specs.Prelude.{IfOk, OnOk, OnErr};
ghost use Rattle.std.specs.Fn.{ComputesKey};
ghost use Rattle.std.specs.List.{insert, remove, slice_index_or};
ghost use Rattle.std.specs.List.Sorted.{IsBinarySearchResult, IsSearchInRange};
ghost use Rattle.std.specs.declared.cmp.Ordering.{Ordering};

use crate::bucket::{Bucket, Copied};
use crate::buckets_iter::BucketsIter;
use crate::places::place_of;
use crate::{edits, search};
use std::alloc::{AllocError, Global};
use std::cmp::Ordering;
use std::marker::Model;
use std::rc::Rc;

/// Elements in their order. One is found, put in or taken out by a look at the lengths of the
/// buckets and by what its own bucket has. A copy shares the buckets until one of them is changed.
/// Contracts see the list of the elements.
#[derive(Drop)]
pub struct Buckets<T> {
    alloc: Global,
    buckets: Vec<Rc<Bucket<T>>>,
    len: usize,
}

impl<T> Model for Buckets<T> {
    ghost use Rattle.std.specs.Prelude.{◌≡◌, List, length};

    ghost Value = { List T };

    ghost use Rattle.t1_buckets.specs.Buckets.{shared_joined};

    ghost view = { λ buckets. shared_joined buckets.buckets.items };

    ghost invariant = { λ buckets. buckets.len ≡ length (shared_joined buckets.buckets.items) };
}

impl<T> Buckets<T> {
    /// No elements.
    pub fn new(alloc: Global) -> Self
        ensures { result ≡ [] }
    {
        Buckets {
            alloc,
            buckets: Vec::new(alloc),
            len: 0,
        }
    }

    /// How many elements they are.
    pub fn len(&self) -> usize
        ensures { result ≡ length self.now }
    {
        let Buckets { len, .. } = self;
        *len
    }

    /// The element at a place.
    pub fn get(&self, at: usize) -> &T
        requires { at < length self.now }
        ensures { (d : T) → slice_index_or self.now at d ≡ result.now }
    {
        let (index, offset) = place_of(self.buckets.as_slice(), at);
        &self.buckets[index].as_slice()[offset]
    }

    /// The elements, one after another.
    pub fn iter(&self) -> BucketsIter<'_, T>
        ensures { result ≡ self.now }
    {
        BucketsIter::over(self.buckets.as_slice())
    }

    /// Where an element stands of which the order answers `Equal`, or else where one would: what
    /// the search of a slice answers. The buckets are halved, and then the bucket.
    pub fn binary_search_by<F: FnMut(&T) -> Ordering>(&self, order: F) -> Result<usize, usize>
        requires { F.IsAlwaysCallable order }
        ensures bound { IsSearchInRange result (length self.now) }
        ensures position { (by : T → Ordering)
            → ComputesKey F.FnMut by order
            → IsBinarySearchResult by self.now result }
    {
        search::binary_search_by(self.buckets.as_slice(), self.len, order)
    }
}

impl<T: Drop> Buckets<T> {
    /// A copy, which shares the buckets.
    pub fn copied(&self) -> Result<Buckets<T>, AllocError>
        ensures { IfOk result (λ copy. copy ≡ self.now) }
    {
        let len = self.len;
        Ok(Buckets {
            alloc: self.alloc,
            buckets: edits::again(self.alloc, self.buckets.as_slice())?,
            len,
        })
    }
}

impl<T: Copied> Buckets<T> {
    /// Puts an element in the place of another. Where memory runs out, nothing has changed.
    pub fn set(&mut self, at: usize, element: T) -> Result<(), AllocError>
        requires { at < length self.old }
        ensures ok { OnOk result (self.new ≡ slice_set self.old at element) }
        ensures err { OnErr result (self.new ≡ self.old) }
    {
        edits::set(&mut self.buckets, at, element)?;
        Ok(())
    }

    /// Puts an element in. Where memory runs out, nothing has changed.
    pub fn insert(&mut self, at: usize, element: T) -> Result<(), AllocError>
        requires { at ≤ length self.old }
        ensures ok { OnOk result (self.new ≡ insert self.old at element) }
        ensures err { OnErr result (self.new ≡ self.old) }
    {
        let Some(len) = self.len.checked_add(1) else {
            return Err(AllocError);
        };
        edits::insert(self.alloc, &mut self.buckets, self.len, at, element)?;
        self.len = len;
        Ok(())
    }

    /// Adds an element at the end. Where memory runs out, nothing has changed.
    pub fn push(&mut self, element: T) -> Result<(), AllocError>
        ensures ok { OnOk result (self.new ≡ self.old ++ element ∷ []) }
        ensures err { OnErr result (self.new ≡ self.old) }
    {
        let end = self.len();
        self.insert(end, element)
    }

    /// Takes an element out. Where memory runs out, nothing has changed.
    pub fn remove(&mut self, at: usize) -> Result<(), AllocError>
        requires { at < length self.old }
        ensures ok { OnOk result (self.new ≡ remove self.old at) }
        ensures err { OnErr result (self.new ≡ self.old) }
    {
        edits::remove(&mut self.buckets, at)?;
        self.len -= 1;
        Ok(())
    }
}
