//! Elements put into buckets and taken out of them.

ghost use Rattle.std.specs.Prelude.{◌≡◌, ◌<◌, ◌≤◌, ◌+◌, ◌∷◌, ◌++◌, [], length, slice_set};
ghost use Rattle.std.specs.Prelude.{IfOk, OnOk, OnErr};
ghost use Rattle.std.specs.List.{insert, remove};
ghost use Rattle.t1_buckets.specs.Buckets.{bucket_at, lists_of, shared_joined};
ghost use Rattle.t1_buckets.specs.BucketPlaces.{IsPlaceInBuckets};

use crate::bucket::{Bucket, Copied};
use crate::places::{last_with_room, place_of};
use std::alloc::{AllocError, Global};
use std::rc::Rc;

/// The same buckets once more.
pub(crate) fn again<T: Drop>(
    alloc: Global,
    buckets: &[Rc<Bucket<T>>],
) -> Result<Vec<Rc<Bucket<T>>>, AllocError>
    ensures { IfOk result (λ copies. shared_joined copies.items ≡ shared_joined buckets.now) }
{
    let mut copies = Vec::with_capacity(alloc, buckets.len())?;
    for bucket in buckets {
        copies.push(bucket.clone()?)?;
    }
    Ok(copies)
}

/// Cuts a bucket in two. Where memory runs out, none is cut.
fn cut<T: Copied>(
    alloc: Global,
    buckets: &mut Vec<Rc<Bucket<T>>>,
    index: usize,
) -> Result<(), AllocError>
    requires within { index < length buckets.old.items }
    requires some { 1 < length (bucket_at index buckets.old.items) }
    ensures { shared_joined buckets.new.items ≡ shared_joined buckets.old.items }
{
    let (front, back) = buckets[index].halves(alloc)?;
    let front = Rc::new(alloc, front)?;
    let back = Rc::new(alloc, back)?;
    buckets.reserve(1)?;
    buckets[index] = front;
    let _room_was_reserved = buckets.insert(index + 1, back);
    Ok(())
}

/// The place of an element, in a bucket with room for a further one: a full one is cut in two.
fn place_with_room<T: Copied>(
    alloc: Global,
    buckets: &mut Vec<Rc<Bucket<T>>>,
    at: usize,
) -> Result<(usize, usize), AllocError>
    requires { at < length (shared_joined buckets.old.items) }
    ensures same { shared_joined buckets.new.items ≡ shared_joined buckets.old.items }
    ensures place { IfOk result
        (λ place. IsPlaceInBuckets at (lists_of buckets.new.items) place) }
{
    let place = place_of(buckets.as_slice(), at);
    if !buckets[place.0].is_full() {
        return Ok(place);
    }
    cut(alloc, buckets, place.0)?;
    Ok(place_of(buckets.as_slice(), at))
}

/// Puts an element into a bucket. Where memory runs out, the elements are the same.
fn insert_into<T: Copied>(
    buckets: &mut Vec<Rc<Bucket<T>>>,
    index: usize,
    offset: usize,
    element: T,
) -> Result<(), AllocError>
    requires index { index < length buckets.old.items }
    requires offset { offset ≤ length (bucket_at index buckets.old.items) }
    ensures ok { OnOk result
        (lists_of buckets.new.items
        ≡ slice_set (lists_of buckets.old.items) index
        (insert (bucket_at index buckets.old.items) offset element)) }
    ensures err { OnErr result (lists_of buckets.new.items ≡ lists_of buckets.old.items) }
{
    let bucket = Rc::make_mut(&mut buckets[index])?;
    bucket.insert(offset, element)
}

/// Puts an element of a bucket in the place of another. Where memory runs out, the elements are the
/// same.
fn put_into<T: Copied>(
    buckets: &mut Vec<Rc<Bucket<T>>>,
    index: usize,
    offset: usize,
    element: T,
) -> Result<(), AllocError>
    requires index { index < length buckets.old.items }
    requires offset { offset < length (bucket_at index buckets.old.items) }
    ensures ok { OnOk result
        (lists_of buckets.new.items
        ≡ slice_set (lists_of buckets.old.items) index
        (slice_set (bucket_at index buckets.old.items) offset element)) }
    ensures err { OnErr result (lists_of buckets.new.items ≡ lists_of buckets.old.items) }
{
    let bucket = Rc::make_mut(&mut buckets[index])?;
    bucket.set(offset, element);
    Ok(())
}

/// Takes an element out of a bucket, which isn't the only one. Where memory runs out, the elements
/// are the same.
fn take_from<T: Copied>(
    buckets: &mut Vec<Rc<Bucket<T>>>,
    index: usize,
    offset: usize,
) -> Result<(), AllocError>
    requires index { index < length buckets.old.items }
    requires offset { offset < length (bucket_at index buckets.old.items) }
    requires others { 1 < length (bucket_at index buckets.old.items) }
    ensures ok { OnOk result
        (lists_of buckets.new.items
        ≡ slice_set (lists_of buckets.old.items) index
        (remove (bucket_at index buckets.old.items) offset)) }
    ensures err { OnErr result (lists_of buckets.new.items ≡ lists_of buckets.old.items) }
{
    let bucket = Rc::make_mut(&mut buckets[index])?;
    bucket.remove(offset);
    Ok(())
}

/// Puts an element in the place of another. Where memory runs out, the elements are the same.
pub(crate) fn set<T: Copied>(
    buckets: &mut Vec<Rc<Bucket<T>>>,
    at: usize,
    element: T,
) -> Result<(), AllocError>
    requires { at < length (shared_joined buckets.old.items) }
    ensures ok { OnOk result
        (shared_joined buckets.new.items
        ≡ slice_set (shared_joined buckets.old.items) at element) }
    ensures err { OnErr result
        (shared_joined buckets.new.items ≡ shared_joined buckets.old.items) }
{
    let (index, offset) = place_of(buckets.as_slice(), at);
    put_into(buckets, index, offset, element)
}

/// Puts an element in, in front of another. Where memory runs out, the elements are the same.
fn insert_before<T: Copied>(
    alloc: Global,
    buckets: &mut Vec<Rc<Bucket<T>>>,
    at: usize,
    element: T,
) -> Result<(), AllocError>
    requires { at < length (shared_joined buckets.old.items) }
    ensures ok { OnOk result
        (shared_joined buckets.new.items ≡ insert (shared_joined buckets.old.items) at element) }
    ensures err { OnErr result
        (shared_joined buckets.new.items ≡ shared_joined buckets.old.items) }
{
    let (index, offset) = place_with_room(alloc, buckets, at)?;
    insert_into(buckets, index, offset, element)
}

/// Adds an element at the end. Where memory runs out, the elements are the same.
fn push<T: Copied>(
    alloc: Global,
    buckets: &mut Vec<Rc<Bucket<T>>>,
    element: T,
) -> Result<(), AllocError>
    ensures ok { OnOk result
        (shared_joined buckets.new.items ≡ shared_joined buckets.old.items ++ element ∷ []) }
    ensures err { OnErr result
        (shared_joined buckets.new.items ≡ shared_joined buckets.old.items) }
{
    let Some(last) = last_with_room(buckets.as_slice()) else {
        let bucket = Bucket::one(alloc, element)?;
        let bucket = Rc::new(alloc, bucket)?;
        buckets.push(bucket)?;
        return Ok(());
    };
    let end = buckets[last].len();
    insert_into(buckets, last, end, element)
}

/// Puts an element in, among so many. Where memory runs out, the elements are the same.
pub(crate) fn insert<T: Copied>(
    alloc: Global,
    buckets: &mut Vec<Rc<Bucket<T>>>,
    len: usize,
    at: usize,
    element: T,
) -> Result<(), AllocError>
    requires len { len ≡ length (shared_joined buckets.old.items) }
    requires within { at ≤ len }
    ensures ok { OnOk result
        (shared_joined buckets.new.items ≡ insert (shared_joined buckets.old.items) at element) }
    ensures err { OnErr result
        (shared_joined buckets.new.items ≡ shared_joined buckets.old.items) }
{
    if at == len {
        return push(alloc, buckets, element);
    }
    insert_before(alloc, buckets, at, element)
}

/// Takes an element out, and its bucket, where it is the only one in it. Where memory runs out, the
/// elements are the same.
pub(crate) fn remove<T: Copied>(
    buckets: &mut Vec<Rc<Bucket<T>>>,
    at: usize,
) -> Result<(), AllocError>
    requires { at < length (shared_joined buckets.old.items) }
    ensures ok { OnOk result
        (shared_joined buckets.new.items ≡ remove (shared_joined buckets.old.items) at) }
    ensures err { OnErr result
        (shared_joined buckets.new.items ≡ shared_joined buckets.old.items) }
{
    let (index, offset) = place_of(buckets.as_slice(), at);
    if buckets[index].len() == 1 {
        drop(buckets.remove(index));
        return Ok(());
    }
    take_from(buckets, index, offset)
}
