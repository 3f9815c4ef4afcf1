//! The faults of a file as objects of JSON.
ghost use Rattle.std.specs.Prelude.{◌≡◌, ◌++◌, codes, map, string_bytes, IfOk, OnOk};
ghost use Rattle.serde_json.specs.Data.{put as put_into, string};
ghost use Rattle.serde_json.specs.View.{members_view, view};
ghost use Rattle.serde_json.specs.Written.{compact_text};
ghost use Rattle.t1_commands.specs.AnswerTexts.{code_name as code_of};
ghost use Rattle.t1_fault_texts.specs.Hints.{hint};
ghost use Rattle.t1edit.specs.FaultJson.{chain_data, chains_data, fault_data, fault_json};
ghost use Rattle.t1edit.specs.FaultJson.{faults_json, names_data, place_data, subr_data};
ghost use Rattle.t1edit.specs.FaultJson.{text_data, text_or_null, with_fault, with_position};
ghost use Rattle.t1edit.specs.FaultJson.{word_data};

use serde_json::{Map, Value, put};
use std::alloc::{AllocError, Global};
use t1_fault_texts::{code_name, hint_on, push_place, push_shown};
use t1_faults::{CallChain, FoundFault};
use t1_frac::{Bytes, Code, Place, SourceText};

/// Bytes as a string, as they are shown.
fn text_value(alloc: Global, bytes: &[u8]) -> Result<Value, AllocError>
    ensures { IfOk result (λ value. view value ≡ text_data bytes.now) }
{
    let mut text = Vec::new(alloc);
    push_shown(alloc, &mut text, bytes)?;
    Ok(Value::from(String::from_utf8_lossy(alloc, &text)?))
}

/// Bytes as a string, and null where there are none.
fn text_or_null(alloc: Global, bytes: &[u8]) -> Result<Value, AllocError>
    ensures { IfOk result (λ value. view value ≡ text_or_null bytes.now) }
{
    if bytes.is_empty() {
        return Ok(Value::Null);
    }
    text_value(alloc, bytes)
}

/// A word as a string, and null where there is none.
fn word_value(alloc: Global, word: &Option<SourceText<'_>>) -> Result<Value, AllocError>
    ensures { IfOk result (λ value. view value ≡ word_data word.now) }
{
    match word {
        Some(word) => text_value(alloc, word.as_slice()),
        None => Ok(Value::Null),
    }
}

/// A code as a string.
fn code_value(alloc: Global, code: Code) -> Result<Value, AllocError>
    ensures { IfOk result (λ value. view value ≡ text_data (code_of code)) }
{
    text_value(alloc, &code_name(alloc, code)?)
}

/// A hint as a string, and null where there is none.
fn hint_value(alloc: Global, fault: &FoundFault<'_>) -> Result<Value, AllocError>
    ensures { IfOk result (λ value. view value ≡ text_or_null (hint fault.now)) }
{
    text_or_null(alloc, &hint_on(alloc, fault)?)
}

/// A place as a string, and null where it is nowhere.
fn place_value(alloc: Global, place: &Place) -> Result<Value, AllocError>
    ensures { IfOk result (λ value. view value ≡ place_data place.now) }
{
    let mut text = Vec::new(alloc);
    push_place(&mut text, place)?;
    let from = text.len().min(1);
    text_or_null(alloc, text.split_at(from).1)
}

/// Adds Subrs as strings.
fn push_subrs(alloc: Global, list: &mut Vec<Value>, subrs: &[u16]) -> Result<(), AllocError>
    ensures { OnOk result (map view list.new.items ≡ map view list.old.items ++ map subr_data
        subrs.now) }
{
    for subr in subrs {
        serde_json::push(list, place_value(alloc, &Place::Subr(*subr))?)?;
    }
    Ok(())
}

/// A glyph, and the Subrs that it calls in turn.
fn chain_value(alloc: Global, chain: &CallChain) -> Result<Value, AllocError>
    ensures { IfOk result (λ value. view value ≡ chain_data chain.now) }
{
    let glyph = Place::Glyph(Bytes::copied(alloc, chain.glyph.as_slice())?);
    let mut list = Vec::new(alloc);
    serde_json::push(&mut list, place_value(alloc, &glyph)?)?;
    push_subrs(alloc, &mut list, chain.subrs.as_slice())?;
    Ok(Value::from(list))
}

/// Adds chains of calls.
fn push_chains(alloc: Global, list: &mut Vec<Value>, chains: &[CallChain]) -> Result<(), AllocError>
    ensures { OnOk result (map view list.new.items ≡ map view list.old.items ++ map chain_data
        chains.now) }
{
    for chain in chains {
        serde_json::push(list, chain_value(alloc, chain)?)?;
    }
    Ok(())
}

/// All chains of calls.
fn chains_value(alloc: Global, chains: &[CallChain]) -> Result<Value, AllocError>
    ensures { IfOk result (λ value. view value ≡ chains_data chains.now) }
{
    let mut list = Vec::new(alloc);
    push_chains(alloc, &mut list, chains)?;
    Ok(Value::from(list))
}

/// Adds names as strings.
fn push_names(alloc: Global, list: &mut Vec<Value>, names: &[Bytes]) -> Result<(), AllocError>
    ensures { OnOk result (map view list.new.items ≡ map view list.old.items ++ map text_data
        names.now) }
{
    for name in names {
        serde_json::push(list, text_value(alloc, name.as_slice())?)?;
    }
    Ok(())
}

/// Names of glyphs.
fn names_value(alloc: Global, names: &[Bytes]) -> Result<Value, AllocError>
    ensures { IfOk result (λ value. view value ≡ names_data names.now) }
{
    let mut list = Vec::new(alloc);
    push_names(alloc, &mut list, names)?;
    Ok(Value::from(list))
}

/// Adds where a fault stands.
fn put_position(
    alloc: Global,
    object: &mut Map<String, Value>,
    fault: &FoundFault<'_>,
) -> Result<(), AllocError>
    ensures { OnOk result (members_view object.new.entries ≡ with_position fault.now
        (members_view object.old.entries)) }
{
    put(object, alloc, "line", Value::from(fault.line))?;
    put(object, alloc, "column", Value::from(fault.column))?;
    put(object, alloc, "place", place_value(alloc, &fault.place)?)
}

/// Adds what a fault is.
fn put_fault(
    alloc: Global,
    object: &mut Map<String, Value>,
    fault: &FoundFault<'_>,
) -> Result<(), AllocError>
    ensures { OnOk result (members_view object.new.entries ≡ with_fault fault.now
        (members_view object.old.entries)) }
{
    put(object, alloc, "code", code_value(alloc, fault.code)?)?;
    put(object, alloc, "word", word_value(alloc, &fault.word)?)?;
    put(object, alloc, "hint", hint_value(alloc, fault)?)?;
    put(
        object,
        alloc,
        "chain",
        chains_value(alloc, fault.chains.as_slice())?,
    )?;
    put(
        object,
        alloc,
        "composites",
        names_value(alloc, fault.composites.as_slice())?,
    )
}

/// Adds the members of a fault of a file of this name.
fn put_members(
    alloc: Global,
    object: &mut Map<String, Value>,
    path: &str,
    fault: &FoundFault<'_>,
) -> Result<(), AllocError>
    ensures { OnOk result (members_view object.new.entries ≡ with_fault fault.now
        (with_position fault.now (put_into (codes "file") (string path.now)
        (members_view object.old.entries)))) }
{
    put(object, alloc, "file", Value::try_from_str(alloc, path)?)?;
    put_position(alloc, object, fault)?;
    put_fault(alloc, object, fault)
}

/// A fault of a file of this name as an object.
#[tactic(auto, unfolding(crate::specs::FaultJson::fault_data))]
fn fault_value(alloc: Global, path: &str, fault: &FoundFault<'_>) -> Result<Value, AllocError>
    ensures { IfOk result (λ value. view value ≡ fault_data path.now fault.now) }
{
    let mut object = Map::new(alloc);
    put_members(alloc, &mut object, path, fault)?;
    Ok(Value::from(object))
}

/// The text of a fault as an object.
fn fault_text(alloc: Global, path: &str, fault: &FoundFault<'_>) -> Result<String, AllocError>
    ensures { IfOk result (λ text. string_bytes text ≡ compact_text (fault_data path.now
        fault.now)) }
{
    let value = fault_value(alloc, path, fault)?;
    value.to_string(alloc)
}

/// Adds a fault as an object, on a line of its own.
fn push_fault(
    alloc: Global,
    text: &mut Vec<u8>,
    path: &str,
    fault: &FoundFault<'_>,
) -> Result<(), AllocError>
    ensures { OnOk result (text.new.items ≡ text.old.items ++ fault_json path.now fault.now) }
{
    let object = fault_text(alloc, path, fault)?;
    text.extend_from_slice(object.as_bytes())?;
    text.extend_from_slice(b"\n")?;
    Ok(())
}

/// The faults of a file of this name as objects, a line each.
pub fn faults_json(
    alloc: Global,
    path: &str,
    faults: &[FoundFault<'_>],
) -> Result<Vec<u8>, AllocError>
    ensures { IfOk result (λ text. text.items ≡ faults_json path.now faults.now) }
{
    let mut text = Vec::new(alloc);
    for fault in faults {
        push_fault(alloc, &mut text, path, fault)?;
    }
    Ok(text)
}
