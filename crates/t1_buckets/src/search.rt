//! Elements found by bisection.

ghost use Rattle.std.specs.Prelude.{◌≡◌, ◌≤◌, length};
ghost use Rattle.std.specs.Fn.{ComputesKey};
ghost use Rattle.std.specs.List.Sorted.{IsBinarySearchResult, IsSearchInRange};
ghost use Rattle.std.specs.declared.cmp.Ordering.{Ordering};
ghost use Rattle.t1_buckets.specs.Buckets.{lists_of, shared_joined};
ghost use Rattle.t1_buckets.specs.BucketPlaces.{EndsBefore, IsAfter, IsUpTo};

use crate::bucket::Bucket;
use crate::places::len_before;
use std::cmp::Ordering;
use std::rc::Rc;

/// Whether an order answers `Less` of the last element of a bucket.
fn ends_before<T, F: FnMut(&T) -> Ordering>(bucket: &Bucket<T>, order: &mut F) -> bool
    requires { F.IsAlwaysCallable order.old }
    ensures callable { F.IsAlwaysCallable order.new }
    ensures answer { (by : T → Ordering)
        → ComputesKey F.FnMut by order.old
        → ComputesKey F.FnMut by order.new × EndsBefore by bucket.now result }
{
    order(bucket.last()).is_lt()
}

/// The index of the first bucket of whose last element the order doesn't answer `Less`.
fn bucket_of<T, F: FnMut(&T) -> Ordering>(buckets: &[Rc<Bucket<T>>], order: &mut F) -> usize
    requires { F.IsAlwaysCallable order.old }
    ensures callable { F.IsAlwaysCallable order.new }
    ensures within { result ≤ length buckets.now }
    ensures answer { (by : T → Ordering)
        → ComputesKey F.FnMut by order.old
        → ComputesKey F.FnMut by order.new
        × IsAfter by (lists_of buckets.now) result
        × IsUpTo by (lists_of buckets.now) result }
{
    let mut first = 0;
    let mut end = buckets.len();
    while first < end {
        let middle = first + (end - first) / 2;
        if ends_before(&buckets[middle], order) {
            first = middle + 1;
        } else {
            end = middle;
        }
    }
    first
}

/// Searches some buckets, which have so many elements, as the search of a slice does.
pub(crate) fn binary_search_by<T, F: FnMut(&T) -> Ordering>(
    buckets: &[Rc<Bucket<T>>],
    len: usize,
    mut order: F,
) -> Result<usize, usize>
    requires callable { F.IsAlwaysCallable order }
    requires len { len ≡ length (shared_joined buckets.now) }
    ensures bound { IsSearchInRange result (length (shared_joined buckets.now)) }
    ensures position { (by : T → Ordering)
        → ComputesKey F.FnMut by order
        → IsBinarySearchResult by (shared_joined buckets.now) result }
{
    let index = bucket_of(buckets, &mut order);
    if index == buckets.len() {
        return Err(len);
    }
    let before = len_before(buckets, index);
    match buckets[index].as_slice().binary_search_by(order) {
        Ok(at) => Ok(before + at),
        Err(at) => Err(before + at),
    }
}
