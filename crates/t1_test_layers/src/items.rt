//! The items of a private part of which 70 lines stand together in memory, parted among these, with
//! memory that doesn't run out.
use std::alloc::Global;
use std::test::Fail;
use t1_frac::{SourceText, Words};
use t1_parts::{Item, ItemRef};
use t1_source::{Source, read_source};

/// A font with 70 empty lines in front of its section line, and one glyph.
const MANY_LINES: &[u8] = b"%!
/Encoding StandardEncoding def
currentfile eexec






































































/CharStrings 1 dict dup begin
/space {
\t0 250 hsbw
\tendchar
\t} ND
end
mark currentfile closefile
";

fn many_lines(alloc: Global) -> Result<Source<'static>, Fail> {
    Ok(read_source(alloc, MANY_LINES)?)
}

/// A Subr of this number.
fn subr(alloc: Global, number: u16) -> Result<Item<'static>, Fail> {
    let closing = SourceText::copy_of(alloc, b"NP")?;
    Ok(Item::Subr(number, Words::of(b"return"), closing))
}

/// Whether there is such an item and it is the Subr of this number.
fn is_subr(item: Option<ItemRef>, number: u16) -> bool {
    match item {
        Some(ItemRef::Subr(other, _, _)) => number == other,
        _ => false,
    }
}

#[test]
fn gives_the_first_item(rt: HostRuntime) -> Result<(), Fail> {
    let source = many_lines(rt.alloc())?;
    let items = source.items();
    assert!(rt; 0 < items.len());
    assert!(rt; items.item(0).plain_line().is_some());
    Ok(())
}

#[test]
fn splits_items_within_lines(rt: HostRuntime) -> Result<(), Fail> {
    let source = many_lines(rt.alloc())?;
    let items = source.items();
    assert!(rt; 40 < items.len());
    assert_eq!(rt; items.split_at(40).1.count(), 34);
    Ok(())
}

#[test]
fn puts_an_item_in_among_lines(rt: HostRuntime) -> Result<(), Fail> {
    let source = many_lines(rt.alloc())?;
    let mut items = source.items().copied()?;
    assert!(rt; 40 < items.len());
    items.insert(40, subr(rt.alloc(), 3)?)?;
    assert!(rt; is_subr(items.get(40), 3));
    Ok(())
}

#[test]
fn takes_a_line_out_from_among_others(rt: HostRuntime) -> Result<(), Fail> {
    let source = many_lines(rt.alloc())?;
    let mut items = source.items().copied()?;
    assert!(rt; 40 < items.len());
    items.take_out(40)?;
    assert_eq!(rt; items.len(), 73);
    Ok(())
}

#[test]
fn leaves_what_is_shared_as_it_is(rt: HostRuntime) -> Result<(), Fail> {
    let source = many_lines(rt.alloc())?;
    let items = source.items();
    let mut copy = items.copied()?;
    assert!(rt; 40 < copy.len());
    copy.take_out(40)?;
    assert_eq!(rt; copy.len(), 73);
    assert_eq!(rt; items.len(), 74);
    Ok(())
}

#[test]
fn keeps_items_apart_in_several_blocks(rt: HostRuntime) -> Result<(), Fail> {
    let source = many_lines(rt.alloc())?;
    let mut items = source.items().copied()?;
    for number in 0u16..300 {
        items.push(subr(rt.alloc(), number)?)?;
    }
    let before = items.copied()?;
    assert!(rt; 201 < items.len());
    items.insert(201, subr(rt.alloc(), 1000)?)?;
    assert!(rt; is_subr(items.get(200), 126));
    assert!(rt; is_subr(items.get(201), 1000));
    assert!(rt; is_subr(items.get(202), 127));
    assert!(rt; is_subr(items.get(374), 299));
    assert!(rt; is_subr(before.get(201), 127));
    Ok(())
}
