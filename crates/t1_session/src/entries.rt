//! The words of entries, in the lines of the printed form.
ghost use Rattle.std.specs.Prelude.{◌≡◌, option_map, IfOk};
ghost use Rattle.t1_session.specs.Queries.{shown_entry, subr_number, subr_numbered};

use std::alloc::{AllocError, Global};
use t1_parts::{Items, push_words};
use t1_refusal::{entry_words, subr_of};
use t1_source::Item;

/// The number of a Subr, from 0 to 32000.
fn subr_number(number: i64) -> Option<u16>
    ensures { result ≡ subr_number number }
{
    if 0 <= number && number <= 32000 {
        Some(number as u16)
    } else {
        None
    }
}

/// The Subr of this number.
pub fn subr_numbered<'i, 'a>(items: &'i Items<'a>, number: i64) -> Option<&'i Item<'a>>
    ensures { option_map (λ item. item.now) result ≡ subr_numbered number items.now }
{
    match subr_number(number) {
        Some(number) => subr_of(items, number),
        None => None,
    }
}

/// The words of an item, in the lines of the printed form.
fn text_of(alloc: Global, item: &Item) -> Result<Vec<u8>, AllocError>
    ensures { IfOk result (λ text. text.items ≡ shown_entry item.now) }
{
    let mut text = Vec::new(alloc);
    push_words(&mut text, entry_words(item))?;
    Ok(text)
}

/// The same, where there is an item.
pub fn entry_text(alloc: Global, item: Option<&Item>) -> Result<Option<Vec<u8>>, AllocError>
    ensures { IfOk
        result
        (λ found. option_map (λ text. text.items) found
        ≡ option_map shown_entry (option_map (λ i. i.now) item.entry)) }
{
    match item {
        Some(item) => Ok(Some(text_of(alloc, item)?)),
        None => Ok(None),
    }
}
