//! Every fault of a source and its pairs in a text, a line each.
ghost use Rattle.std.specs.Prelude.{◌≡◌, ◌++◌, codes, flat_map, IfOk, OnOk};
ghost use Rattle.t1_fault_texts.specs.Names.{listed};
ghost use Rattle.t1_fault_texts.specs.Rows.{chain_field, chain_words, composites_field, entered};
ghost use Rattle.t1_fault_texts.specs.Rows.{fault_fields, fault_rows, field, place_words};
ghost use Rattle.t1_fault_texts.specs.Rows.{position_fields, row, rows, word_or_nothing};

use crate::finding::pairs_faults;
use crate::hint::hint_on;
use crate::name::{code_name, push_place};
use crate::names::push_names;
use crate::shown_bytes::push_shown;
use itoa::Buffer;
use std::alloc::{AllocError, Global};
use t1_faults::{CallChain, FoundFault, source_faults};
use t1_frac::{Bytes, Place, SourceText};

/// Adds a field after a tab, its bytes as they are shown.
fn push_field(alloc: Global, text: &mut Vec<u8>, bytes: &[u8]) -> Result<(), AllocError>
    ensures { OnOk result (text.new.items ≡ text.old.items ++ field bytes.now) }
{
    text.extend_from_slice(b"\t")?;
    push_shown(alloc, text, bytes)
}

/// A place, by its kind and its number or name; nothing where it is nowhere.
fn place_words(alloc: Global, place: &Place) -> Result<Vec<u8>, AllocError>
    ensures { IfOk result (λ words. words.items ≡ place_words place.now) }
{
    let mut text = Vec::new(alloc);
    push_place(&mut text, place)?;
    let from = text.len().min(1);
    Vec::from_slice(alloc, text.split_at(from).1)
}

/// The word of a fault; nothing where it has none.
fn word_or_nothing<'w>(word: &'w Option<SourceText<'_>>) -> &'w [u8]
    ensures { result.now ≡ word_or_nothing word.now }
{
    match word {
        Some(word) => word.as_slice(),
        None => b"",
    }
}

/// Adds the Subrs that a run had entered, in turn.
fn push_entered(words: &mut Vec<u8>, subrs: &[u16]) -> Result<(), AllocError>
    ensures { OnOk result (words.new.items ≡ words.old.items ++ flat_map entered subrs.now) }
{
    for subr in subrs {
        push_place(words, &Place::Subr(*subr))?;
    }
    Ok(())
}

/// A glyph whose run met a fault, and the Subrs that it had entered, in turn.
fn chain_words(alloc: Global, chain: &CallChain) -> Result<Vec<u8>, AllocError>
    ensures { IfOk result (λ words. words.items ≡ chain_words chain.now) }
{
    let mut words = Vec::from_slice(alloc, b"glyph ")?;
    words.extend_from_slice(chain.glyph.as_slice())?;
    push_entered(&mut words, chain.subrs.as_slice())?;
    Ok(words)
}

/// Adds such a glyph as a field.
fn push_chain(alloc: Global, text: &mut Vec<u8>, chain: &CallChain) -> Result<(), AllocError>
    ensures { OnOk result (text.new.items ≡ text.old.items ++ chain_field chain.now) }
{
    push_field(alloc, text, &chain_words(alloc, chain)?)
}

/// Adds each of them as a field.
fn push_chains(alloc: Global, text: &mut Vec<u8>, chains: &[CallChain]) -> Result<(), AllocError>
    ensures { OnOk result (text.new.items ≡ text.old.items ++ flat_map chain_field chains.now) }
{
    for chain in chains {
        push_chain(alloc, text, chain)?;
    }
    Ok(())
}

/// Adds where a fault stands: its line and its column.
fn push_position(text: &mut Vec<u8>, fault: &FoundFault<'_>) -> Result<(), AllocError>
    ensures { OnOk result (text.new.items ≡ text.old.items ++ position_fields fault.now) }
{
    let mut line = Buffer::new();
    let mut column = Buffer::new();
    text.extend_from_slice(b"\t")?;
    text.extend_from_slice(line.format(fault.line).as_bytes())?;
    text.extend_from_slice(b"\t")?;
    text.extend_from_slice(column.format(fault.column).as_bytes())?;
    Ok(())
}

/// Adds what a fault is: its code, its place, its word and what is said beside them.
fn push_fault(alloc: Global, text: &mut Vec<u8>, fault: &FoundFault<'_>) -> Result<(), AllocError>
    ensures { OnOk result (text.new.items ≡ text.old.items ++ fault_fields fault.now) }
{
    push_field(alloc, text, &code_name(alloc, fault.code)?)?;
    push_field(alloc, text, &place_words(alloc, &fault.place)?)?;
    push_field(alloc, text, word_or_nothing(&fault.word))?;
    push_field(alloc, text, &hint_on(alloc, fault)?)
}

/// Names with a space between each two.
fn spaced_names(alloc: Global, names: &[Bytes]) -> Result<Vec<u8>, AllocError>
    ensures { IfOk result (λ text. text.items ≡ listed (codes " ") names.now) }
{
    let mut text = Vec::new(alloc);
    push_names(&mut text, b" ", names)?;
    Ok(text)
}

/// Adds the composites that are told with a fault as a field.
fn push_composites(
    alloc: Global,
    text: &mut Vec<u8>,
    fault: &FoundFault<'_>,
) -> Result<(), AllocError>
    ensures { OnOk result (text.new.items ≡ text.old.items ++ composites_field fault.now) }
{
    push_field(
        alloc,
        text,
        &spaced_names(alloc, fault.composites.as_slice())?,
    )
}

/// Adds the line of a fault, which begins with the name of the text that has it.
fn push_row(
    alloc: Global,
    text: &mut Vec<u8>,
    name: &[u8],
    fault: &FoundFault<'_>,
) -> Result<(), AllocError>
    ensures { OnOk result (text.new.items ≡ text.old.items ++ row name.now fault.now) }
{
    text.extend_from_slice(name)?;
    push_position(text, fault)?;
    push_fault(alloc, text, fault)?;
    push_composites(alloc, text, fault)?;
    push_chains(alloc, text, fault.chains.as_slice())?;
    text.extend_from_slice(b"\n")?;
    Ok(())
}

/// Adds the lines of faults of one text.
fn push_rows(
    alloc: Global,
    text: &mut Vec<u8>,
    name: &[u8],
    faults: &[FoundFault<'_>],
) -> Result<(), AllocError>
    ensures { OnOk result (text.new.items ≡ text.old.items ++ rows name.now faults.now) }
{
    for fault in faults {
        push_row(alloc, text, name, fault)?;
    }
    Ok(())
}

/// The fault of a source's pairs, where they have one, and then every fault of the source, a line
/// each, with a tab between its fields: `pairs` or `source`, the line and the column, the code, the
/// place, the word, what is said beside them, the composites that are told with it, as `Aacute
/// Agrave`, and then, of a fault that runs met in a Subr, a field for each glyph that met it, with
/// the Subrs that its run had entered: `glyph H subr 4 subr 9`. Bytes are shown as `push_shown` has
/// them.
#[tactic(auto, unfolding(crate::specs::Rows::fault_rows))]
pub fn fault_rows(alloc: Global, source: &[u8], pairs: &[u8]) -> Result<Vec<u8>, AllocError>
    ensures { IfOk result (λ text. text.items ≡ fault_rows source.now pairs.now) }
{
    let mut text = Vec::new(alloc);
    let of_pairs = pairs_faults(alloc, pairs)?;
    push_rows(alloc, &mut text, b"pairs", &of_pairs)?;
    let of_source = source_faults(alloc, source)?;
    push_rows(alloc, &mut text, b"source", &of_source)?;
    Ok(text)
}
