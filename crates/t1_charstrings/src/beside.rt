//! How long the private text is beside its charstrings, as the edits of a batch change it.
ghost use Rattle.std.specs.Prelude.{◌≡◌, ◌^◌, ◌<◌, ℕ, SomeIff, length};
ghost use Rattle.t1_code.specs.Pfb.{closing_text};
ghost use Rattle.t1_parts.specs.ItemRefs.{item_of};
ghost use Rattle.t1_parts.specs.SourceParts.{SourceParts};
ghost use Rattle.t1_source.specs.Changes.{IsFor, made_after, put_by, taken_by};
ghost use Rattle.t1_charstrings.specs.Beside.{IsCountedAfter, IsKeptBeside, beside, put_beside};
ghost use Rattle.t1_charstrings.specs.Beside.{taken_beside};

use t1_parts::ItemRef;
use t1_source::{Change, Source};

/// How long a closing text is with the space before it; `None` past 2^64 - 1.
fn closing_beside(closing: &[u8]) -> Option<usize>
    ensures { SomeIff result (length (closing_text closing.now) < 2 ^ 64)
        (length (closing_text closing.now)) }
{
    if closing.is_empty() {
        Some(0)
    } else {
        closing.len().checked_add(1)
    }
}

/// How long the line of an item is beside its charstring; `None` past 2^64 - 1.
fn beside_len(item: &ItemRef) -> Option<usize>
    ensures { SomeIff result (beside (item_of item.now) < 2 ^ 64) (beside (item_of item.now)) }
{
    match item {
        ItemRef::Plain(line) => line.len().checked_add(1),
        ItemRef::Section(_, _, _) => Some(0),
        ItemRef::Subr(_, _, closing) => closing_beside(closing),
        ItemRef::Glyph(_, _, closing) => closing_beside(closing),
    }
}

/// How long the line of the item that a change takes out is beside its charstring; 0 where it takes
/// none out, `None` past 2^64 - 1.
fn taken_beside(source: &Source, change: &Change) -> Option<usize>
    requires { IsFor change.now source.now }
    ensures { SomeIff result (taken_beside source.now.items (taken_by change.now) < 2 ^ 64)
        (taken_beside source.now.items (taken_by change.now)) }
{
    match change.taken() {
        Some(at) => beside_len(&source.items().item(at)),
        None => Some(0),
    }
}

/// How long the line of the item that a change puts in is beside its charstring; 0 where it puts
/// none in, `None` past 2^64 - 1.
fn put_beside(change: &Change) -> Option<usize>
    ensures { SomeIff result (put_beside (put_by change.now) < 2 ^ 64)
        (put_beside (put_by change.now)) }
{
    match change.put() {
        Some(item) => beside_len(&item.as_ref()),
        None => Some(0),
    }
}

/// The length that is kept for a batch, after one more change, which is still to be made of its
/// source: the length of the private text before the batch, with what the changes make of the lines
/// beside the charstrings. It is given up, for good, where more would be taken out than it counts
/// and where it would pass 2^64 - 1. It costs a look at the item that is taken out and at the one
/// that is put in.
pub fn len_beside(len: Option<usize>, source: &Source, change: &Change) -> Option<usize>
    requires { IsFor change.now source.now }
    ensures counted { IsCountedAfter len (taken_beside source.now.items (taken_by change.now))
        (put_beside (put_by change.now)) result }
    ensures kept { (s : SourceParts) (n : ℕ)
        → IsKeptBeside s n source.now len
        → IsKeptBeside s n (made_after change.now source.now) result }
{
    let taken = taken_beside(source, change)?;
    let put = put_beside(change)?;
    len?.checked_sub(taken)?.checked_add(put)
}
