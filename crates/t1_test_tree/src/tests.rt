//! Lists of entries, with memory that doesn't run out.
use crate::entry::{Entry, Number, Totals};
use std::alloc::{AllocError, Global};
use std::test::Fail;
use t1_tree::{Element, SummedList};

/// An entry of a number, with as many bytes; a multiple of ten has its tens as its kind.
fn entry(number: u8) -> Entry {
    let kind = if number % 10 == 0 { number / 10 } else { 0 };
    Entry {
        number: u64::from(number),
        bytes: u64::from(number),
        kind,
    }
}

/// Entries of the numbers 1, 2 and so on.
fn counted(alloc: Global, len: u8) -> Result<Vec<Entry>, AllocError> {
    let mut entries = Vec::new(alloc);
    for number in 0..len {
        entries.push(entry(number.saturating_add(1)))?;
    }
    Ok(entries)
}

/// The next of some numbers without order.
fn next(seed: u64) -> u64 {
    seed.wrapping_mul(6364136223846793005)
        .wrapping_add(1442695040888963407)
}

/// A place before an end, by a number without order.
fn place(seed: u64, end: usize) -> usize {
    (seed >> 33) as usize % end.max(1)
}

/// Whether a list has the entries of a vector, by each call that reads.
fn is_like(list: &SummedList<Entry>, entries: &[Entry]) -> bool {
    if list.len() != entries.len() {
        return false;
    }
    let mut at: usize = 0;
    let mut bytes: u64 = 0;
    let mut items = list.iter();
    for entry in entries {
        let Some(item) = items.next() else {
            return false;
        };
        if at >= list.len() || list.sum_before(at).bytes != bytes {
            return false;
        }
        if item.number != entry.number || list.get(at).number != entry.number {
            return false;
        }
        let count = at.saturating_add(1) as u64;
        if list.before(|sum: &Totals| sum.count >= count) != at {
            return false;
        }
        bytes = bytes.saturating_add(entry.bytes);
        at = at.saturating_add(1);
    }
    list.sum().bytes == bytes && list.sum().count == at as u64
}

#[test]
fn sums_of_the_first_elements(rt: HostRuntime) -> Result<(), Fail> {
    let list = SummedList::of(counted(rt.alloc(), 40)?)?;
    assert!(rt; 25 <= list.len());
    let sum = list.sum_before(25);
    assert_eq!(rt; sum.count, 25);
    assert_eq!(rt; sum.bytes, 325);
    assert_eq!(rt; sum.highest, 25);
    assert_eq!(rt; sum.kind, 1);
    Ok(())
}

#[test]
fn the_first_with_a_property(rt: HostRuntime) -> Result<(), Fail> {
    let list = SummedList::of(counted(rt.alloc(), 40)?)?;
    assert_eq!(rt; list.before(|sum: &Totals| sum.highest >= 17), 16);
    assert_eq!(rt; list.before(|sum: &Totals| sum.bytes > 45), 9);
    assert_eq!(rt; list.before(|sum: &Totals| sum.kind > 0), 9);
    assert_eq!(rt; list.before(|sum: &Totals| sum.count > 40), 40);
    Ok(())
}

#[test]
fn elements_from_a_place_on(rt: HostRuntime) -> Result<(), Fail> {
    let list = SummedList::of(counted(rt.alloc(), 40)?)?;
    let mut bytes: u64 = 0;
    for entry in list.iter_from(37) {
        bytes = bytes.saturating_add(entry.bytes);
    }
    assert_eq!(rt; bytes, 117);
    let mut behind = list.iter_from(40);
    assert!(rt; behind.next().is_none());
    Ok(())
}

#[test]
fn as_a_vector_under_random_changes(rt: HostRuntime) -> Result<(), Fail> {
    let mut list = SummedList::of(counted(rt.alloc(), 20)?)?;
    let mut entries = counted(rt.alloc(), 20)?;
    let mut seed: u64 = 1;
    for turn in 0u16..3000 {
        let kept = list.copied()?;
        let was = list.sum().bytes;
        seed = next(seed);
        let kind = place(seed, 8);
        seed = next(seed);
        let new = entry((turn % 250) as u8);
        let more = turn / 500 % 2 == 0;
        if kind < 2 || entries.is_empty() || (more && kind < 5) {
            let at = place(seed, entries.len().saturating_add(1));
            assert!(rt; at <= list.len());
            assert!(rt; at <= entries.len());
            list.insert(at, new.copied(rt.alloc())?)?;
            entries.insert(at, new)?;
        } else {
            let at = place(seed, entries.len());
            assert!(rt; at < list.len());
            assert!(rt; at < entries.len());
            if kind == 7 {
                list.set(at, new.copied(rt.alloc())?)?;
                entries[at] = new;
            } else {
                list.remove(at)?;
                drop(entries.remove(at));
            }
        }
        assert!(rt; turn % 8 > 0 || is_like(&list, entries.as_slice()));
        assert_eq!(rt; kept.sum().bytes, was);
    }
    Ok(())
}

#[test]
fn height_in_step_with_the_length(rt: HostRuntime) -> Result<(), Fail> {
    let mut list: SummedList<Number> = SummedList::new(rt.alloc());
    let mut seed: u64 = 1;
    for turn in 0u16..8000 {
        seed = next(seed);
        let is_filled = turn < 2000 || (turn >= 4000 && turn < 6000);
        if is_filled {
            let at = place(seed, list.len().saturating_add(1));
            assert!(rt; at <= list.len());
            list.insert(at, Number { number: seed })?;
        } else {
            let at = place(seed, list.len());
            assert!(rt; at < list.len());
            list.remove(at)?;
        }
        // Each tree has two parts or more, but the root may have one alone.
        let most = list.len().max(1).ilog2().saturating_add(2) as usize;
        assert!(rt; list.height() <= most);
    }
    assert_eq!(rt; list.len(), 0);
    assert_eq!(rt; list.height(), 0);
    Ok(())
}
