//! The elements that are left, one after another.

ghost use Rattle.std.specs.Prelude.{◌≡◌};
ghost use Rattle.t1_buckets.specs.Buckets.{shared_joined};

use crate::bucket::Bucket;
use std::marker::Model;
use std::rc::Rc;
use std::slice;

/// The elements that are left, one after another: some of a bucket, and those of further buckets.
/// Contracts see their list.
#[derive(Drop)]
pub struct BucketsIter<'b, T> {
    front: Option<&'b [T]>,
    buckets: slice::Iter<'b, Rc<Bucket<T>>>,
}

impl<'b, T> Model for BucketsIter<'b, T> {
    ghost use Rattle.std.specs.Prelude.{List, ◌++◌};
    ghost use Rattle.t1_buckets.specs.Buckets.{shared_joined};
    ghost use Rattle.t1_buckets.specs.BucketPlaces.{in_front};

    ghost Value = { List T };

    ghost view = { λ left. in_front left.front ++ shared_joined left.buckets.rest.now };
}

impl<'b, T> BucketsIter<'b, T> {
    /// The elements of some buckets.
    pub(crate) fn over(buckets: &'b [Rc<Bucket<T>>]) -> Self
        ensures { result ≡ shared_joined buckets.now }
    {
        BucketsIter {
            front: None,
            buckets: buckets.iter(),
        }
    }
}

impl<'b, T> Iterator for BucketsIter<'b, T> {
    ghost use Rattle.std.specs.Iterator.{YieldsFirstRef, item_count};

    type Item = &'b T;

    ghost next_gives = { YieldsFirstRef (λ left. left) };

    ghost remaining = { item_count (λ left. left) };

    /// The next element.
    fn next(&mut self) -> Option<&'b T> {
        if let Some(front) = self.front {
            if let Some((element, rest)) = front.split_first() {
                self.front = Some(rest);
                return Some(element);
            }
        }
        let Some(bucket) = self.buckets.next() else {
            return None;
        };
        let Some((element, rest)) = bucket.as_slice().split_first() else {
            return None;
        };
        self.front = Some(rest);
        Some(element)
    }
}
