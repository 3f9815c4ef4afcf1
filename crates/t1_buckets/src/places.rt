//! Places of elements among buckets.

ghost use Rattle.std.specs.Prelude.{◌≡◌, ◌<◌, ◌≤◌, ◌+◌, ◌^◌, length, take, IfSome};
ghost use Rattle.t1_buckets.specs.Buckets.{lists_of, shared_joined};
ghost use Rattle.t1_buckets.specs.BucketPlaces.{IsPlaceInBuckets};

use crate::bucket::Bucket;
use std::rc::Rc;

/// Where the element of a place stands: in which bucket, and how many elements of it stand before.
pub(crate) fn place_of<T>(buckets: &[Rc<Bucket<T>>], at: usize) -> (usize, usize)
    requires { at < length (shared_joined buckets.now) }
    ensures { IsPlaceInBuckets at (lists_of buckets.now) result }
{
    let mut index = 0;
    let mut left = at;
    for bucket in buckets {
        let len = bucket.len();
        if left < len {
            return (index, left);
        }
        left -= len;
        index += 1;
    }
    (index, left)
}

/// How many elements stand in front of a bucket.
pub(crate) fn len_before<T>(buckets: &[Rc<Bucket<T>>], index: usize) -> usize
    requires within { index ≤ length buckets.now }
    requires few { length (shared_joined buckets.now) < 2 ^ 64 }
    ensures { result ≡ length (shared_joined (take index buckets.now)) }
{
    let front = buckets.split_at(index).0;
    let mut len = 0;
    for bucket in front {
        len += bucket.len();
    }
    len
}

/// The index of the last bucket, where there is one that isn't full.
pub(crate) fn last_with_room<T>(buckets: &[Rc<Bucket<T>>]) -> Option<usize>
    ensures { IfSome result (λ index. index + 1 ≡ length buckets.now) }
{
    let last = buckets.len().checked_sub(1)?;
    if buckets[last].is_full() {
        return None;
    }
    Some(last)
}
