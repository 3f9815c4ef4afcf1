//! The faults of a file as lines, which people and editors read.
ghost use Rattle.std.specs.Prelude.{◌≡◌, ◌++◌, codes, flat_map, map, take, IfOk, OnOk};
ghost use Rattle.t1_text.specs.Lines.{lines};
ghost use Rattle.t1edit.specs.FaultLines.{after_colon, subr_call_text, chain_line};
ghost use Rattle.t1edit.specs.FaultLines.{composites_head as head_of_composites, composites_line};
ghost use Rattle.t1edit.specs.FaultLines.{excerpt, fault_lines, faults_lines, fault_heading};
ghost use Rattle.t1edit.specs.FaultLines.{in_brackets, listed_line, marked_line, marks};
ghost use Rattle.t1edit.specs.FaultLines.{position_text, short_line, title_text, under};

use crate::numbered_lines::NumberedLines;
use itoa::Buffer;
use std::alloc::{AllocError, Global};
use t1_command_line::{TopicGroup, meaning};
use t1_fault_texts::{code_name, hint_on, push_names, push_place, push_shown};
use t1_faults::{CallChain, FoundFault};
use t1_frac::{Bytes, Place, SourceText};

/// The longest line that is shown.
const LONGEST_LINE: usize = 1_000;

/// Adds where a fault stands: `FILE:LINE:COLUMN: `.
fn push_position(text: &mut Vec<u8>, path: &[u8], fault: &FoundFault<'_>) -> Result<(), AllocError>
    ensures { OnOk result (text.new.items ≡ text.old.items ++ position_text path.now fault.now) }
{
    let mut line = Buffer::new();
    let mut column = Buffer::new();
    text.extend_from_slice(path)?;
    text.extend_from_slice(b":")?;
    text.extend_from_slice(line.format(fault.line).as_bytes())?;
    text.extend_from_slice(b":")?;
    text.extend_from_slice(column.format(fault.column).as_bytes())?;
    text.extend_from_slice(b": ")?;
    Ok(())
}

/// Adds the code of a fault, its place, and what the code means: `F20 glyph A: an unknown word`.
fn push_title(
    alloc: Global,
    text: &mut Vec<u8>,
    sections: &[TopicGroup],
    fault: &FoundFault<'_>,
) -> Result<(), AllocError>
    ensures { OnOk result (text.new.items ≡ text.old.items ++ title_text sections.now fault.now) }
{
    let code = code_name(alloc, fault.code)?;
    text.extend_from_slice(&code)?;
    push_place(text, &fault.place)?;
    text.extend_from_slice(b": ")?;
    text.extend_from_slice(meaning(sections, &code).as_bytes())?;
    Ok(())
}

/// Adds the word of a fault after a colon, where it has one.
fn push_word(
    alloc: Global,
    text: &mut Vec<u8>,
    word: &Option<SourceText<'_>>,
) -> Result<(), AllocError>
    ensures { OnOk result (text.new.items ≡ text.old.items ++ after_colon word.now) }
{
    let Some(word) = word else {
        return Ok(());
    };
    text.extend_from_slice(b": ")?;
    push_shown(alloc, text, word.as_slice())
}

/// Adds a hint in brackets, where there is one.
fn push_in_brackets(text: &mut Vec<u8>, hint: &[u8]) -> Result<(), AllocError>
    ensures { OnOk result (text.new.items ≡ text.old.items ++ in_brackets hint.now) }
{
    if hint.is_empty() {
        return Ok(());
    }
    text.extend_from_slice(b" (")?;
    text.extend_from_slice(hint)?;
    text.extend_from_slice(b")")?;
    Ok(())
}

/// Adds the line that says what is wrong, and where.
fn push_head(
    alloc: Global,
    text: &mut Vec<u8>,
    path: &[u8],
    sections: &[TopicGroup],
    fault: &FoundFault<'_>,
) -> Result<(), AllocError>
    ensures { OnOk result (text.new.items ≡ text.old.items ++ fault_heading path.now sections.now
        fault.now) }
{
    let hint = hint_on(alloc, fault)?;
    push_position(text, path, fault)?;
    push_title(alloc, text, sections, fault)?;
    push_word(alloc, text, &fault.word)?;
    push_in_brackets(text, &hint)?;
    text.extend_from_slice(b"\n")?;
    Ok(())
}

/// What stands under a byte in front of the word: a blank as wide.
fn under(byte: u8) -> u8
    ensures { result ≡ under byte }
{
    if byte == b'\t' { b'\t' } else { b' ' }
}

/// Adds what stands under the bytes in front of a word.
fn push_under(text: &mut Vec<u8>, front: &[u8]) -> Result<(), AllocError>
    ensures { OnOk result (text.new.items ≡ text.old.items ++ map under front.now) }
{
    for byte in front {
        text.push(under(*byte))?;
    }
    Ok(())
}

/// Adds a mark for each of some bytes.
fn push_marks_of(text: &mut Vec<u8>, word: &[u8]) -> Result<(), AllocError>
    ensures { OnOk result (text.new.items ≡ text.old.items ++ flat_map (λ _. codes "^") word.now) }
{
    for _byte in word {
        text.extend_from_slice(b"^")?;
    }
    Ok(())
}

/// Adds a mark for each byte of a word, or one where there is no word.
fn push_marks(text: &mut Vec<u8>, word: &Option<SourceText<'_>>) -> Result<(), AllocError>
    ensures { OnOk result (text.new.items ≡ text.old.items ++ marks word.now) }
{
    match word {
        Some(word) => push_marks_of(text, word.as_slice()),
        None => Ok(text.extend_from_slice(b"^")?),
    }
}

/// So many bytes from the front of a line, or all.
fn front(count: usize, line: &[u8]) -> &[u8]
    ensures { result.now ≡ take count line.now }
{
    line.split_at(count.min(line.len())).0
}

/// Adds a line, and under it the marks from a column on.
fn push_marked(
    text: &mut Vec<u8>,
    line: &[u8],
    column: usize,
    word: &Option<SourceText<'_>>,
) -> Result<(), AllocError>
    ensures { OnOk result (text.new.items ≡ text.old.items ++ marked_line line.now column
        word.now) }
{
    text.extend_from_slice(line)?;
    text.extend_from_slice(b"\n")?;
    push_under(text, front(column.saturating_sub(1), line))?;
    push_marks(text, word)?;
    text.extend_from_slice(b"\n")?;
    Ok(())
}

/// Adds a line and its marks, and nothing of a line that is too long to be shown at each of its
/// words.
fn push_short(
    text: &mut Vec<u8>,
    line: &[u8],
    column: usize,
    word: &Option<SourceText<'_>>,
) -> Result<(), AllocError>
    ensures { OnOk result (text.new.items ≡ text.old.items ++ short_line line.now column word.now) }
{
    if line.len() > LONGEST_LINE {
        return Ok(());
    }
    push_marked(text, line, column, word)
}

/// Adds the line of a fault with marks under its word; nothing where it stands nowhere.
fn push_excerpt(
    text: &mut Vec<u8>,
    lines: &mut NumberedLines<'_>,
    fault: &FoundFault<'_>,
) -> Result<(), AllocError>
    ensures text { OnOk result (text.new.items
        ≡ text.old.items ++ excerpt fault.now.place lines.old fault.now) }
    ensures lines { lines.new ≡ lines.old }
{
    match &fault.place {
        Place::Nowhere => Ok(()),
        _ => {
            let line = lines.line(fault.line);
            push_short(text, line, fault.column, &fault.word)
        }
    }
}

/// Adds calls of Subrs.
fn push_calls(text: &mut Vec<u8>, subrs: &[u16]) -> Result<(), AllocError>
    ensures { OnOk result (text.new.items ≡ text.old.items ++ flat_map subr_call_text subrs.now) }
{
    for subr in subrs {
        let mut digits = Buffer::new();
        text.extend_from_slice(b", subr ")?;
        text.extend_from_slice(digits.format(*subr).as_bytes())?;
    }
    Ok(())
}

/// Adds the line of a glyph that met a fault in a Subr: `    in glyph H, subr 4, subr 9`.
fn push_chain(text: &mut Vec<u8>, chain: &CallChain) -> Result<(), AllocError>
    ensures { OnOk result (text.new.items ≡ text.old.items ++ chain_line chain.now) }
{
    text.extend_from_slice(b"    in glyph ")?;
    text.extend_from_slice(chain.glyph.as_slice())?;
    push_calls(text, chain.subrs.as_slice())?;
    text.extend_from_slice(b"\n")?;
    Ok(())
}

/// Adds the lines of the glyphs that met a fault in a Subr.
fn push_chains(text: &mut Vec<u8>, chains: &[CallChain]) -> Result<(), AllocError>
    ensures { OnOk result (text.new.items ≡ text.old.items ++ flat_map chain_line chains.now) }
{
    for chain in chains {
        push_chain(text, chain)?;
    }
    Ok(())
}

/// What stands before composites.
#[tactic(auto, unfolding(crate::specs::FaultLines::composites_head))]
fn composites_head() -> &'static [u8]
    ensures { result.now ≡ head_of_composites }
{
    b"    composites on it: "
}

/// Adds the line of composites that are listed so, where there are some.
fn push_listed(text: &mut Vec<u8>, composites: &[u8]) -> Result<(), AllocError>
    ensures { OnOk result (text.new.items ≡ text.old.items ++ listed_line composites.now) }
{
    if composites.is_empty() {
        return Ok(());
    }
    text.extend_from_slice(composites_head())?;
    text.extend_from_slice(composites)?;
    text.extend_from_slice(b"\n")?;
    Ok(())
}

/// Adds the line of the composites that are told with a fault, where there are some.
fn push_composites(alloc: Global, text: &mut Vec<u8>, names: &[Bytes]) -> Result<(), AllocError>
    ensures { OnOk result (text.new.items ≡ text.old.items ++ composites_line names.now) }
{
    let mut composites = Vec::new(alloc);
    push_names(&mut composites, b", ", names)?;
    push_listed(text, &composites)
}

/// Adds all lines of a fault.
fn push_fault(
    alloc: Global,
    text: &mut Vec<u8>,
    path: &[u8],
    sections: &[TopicGroup],
    lines: &mut NumberedLines<'_>,
    fault: &FoundFault<'_>,
) -> Result<(), AllocError>
    ensures text { OnOk result (text.new.items
        ≡ text.old.items ++ fault_lines path.now sections.now lines.old fault.now) }
    ensures lines { lines.new ≡ lines.old }
{
    push_head(alloc, text, path, sections, fault)?;
    push_excerpt(text, lines, fault)?;
    push_chains(text, fault.chains.as_slice())?;
    push_composites(alloc, text, fault.composites.as_slice())
}

/// All lines of the faults of a file of this name and these bytes.
pub fn faults_lines(
    alloc: Global,
    path: &[u8],
    sections: &[TopicGroup],
    source: &[u8],
    faults: &[FoundFault<'_>],
) -> Result<Vec<u8>, AllocError>
    ensures { IfOk result (λ text. text.items ≡ faults_lines path.now sections.now
        (lines source.now) faults.now) }
{
    let mut lines = NumberedLines::of(source);
    let mut text = Vec::new(alloc);
    for fault in faults {
        push_fault(alloc, &mut text, path, sections, &mut lines, fault)?;
    }
    Ok(text)
}
