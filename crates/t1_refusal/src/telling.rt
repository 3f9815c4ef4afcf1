//! The text of a refusal.
ghost use Rattle.std.specs.Prelude.{◌≡◌, ◌++◌, IfOk, OnOk};
ghost use Rattle.t1_run.specs.Run.{font};
ghost use Rattle.t1_font.specs.SourceChecks.{source_check};
ghost use Rattle.t1_refusal.specs.Telling.{refused_fault_lines, fault_of, glyph_lines, is_of_word};
ghost use Rattle.t1_refusal.specs.Telling.{place_lines, refusal_text, word_lines};
ghost use Rattle.t1_refusal.specs.Bodies.{AreBodiesOf, HasFaultyBody};

use crate::entries::place_words;
use crate::met::met_within;
use crate::way::push_met;
use crate::word::{faulty_word, push_word};
use std::alloc::{AllocError, Global};
use t1_commands::push_fault;
use t1_font::{compiled, measured_glyphs};
use t1_frac::{Code, Fault, Place, Refusal};
use t1_parts::Items;
use t1_run::StoredBodies;
use t1_source::Source;

/// How deep composites nest.
const MAX_DEPTH: u8 = 4;

/// The first fault of a source.
#[tactic(auto, using(crate::proofs::TellingLaws::fault_of_refused, crate::proofs::TellingLaws::fault_of_passed))]
fn first_fault(alloc: Global, source: &Source) -> Result<Option<Fault>, AllocError>
    ensures { IfOk result (λ fault. fault ≡ fault_of (source_check source.now)) }
{
    match measured_glyphs(alloc, source) {
        Ok(_glyphs) => Ok(None),
        Err(Refusal::Fault(fault)) => Ok(Some(fault)),
        Err(Refusal::Memory) => Err(AllocError),
    }
}

/// Whether a fault is one of a word that says nothing.
fn is_of_word(code: Code) -> bool
    ensures { result ≡ is_of_word code }
{
    matches!(code, Code::F20 | Code::F21)
}

/// Adds the line of the word at a place that says nothing.
fn push_faulty_word(
    alloc: Global,
    text: &mut Vec<u8>,
    items: &Items,
    place: &Place,
) -> Result<(), AllocError>
    ensures { OnOk result (text.new.items ≡ text.old.items ++ word_lines items.now place.now) }
{
    let found = faulty_word(alloc, place_words(items, place))?;
    push_word(text, found)
}

/// Adds the lines of the run that fails, of the glyph of this name or of a part that it stands on.
/// The bodies are those of the items, which have no fault.
fn push_run<B: StoredBodies>(
    alloc: Global,
    text: &mut Vec<u8>,
    items: &Items,
    bodies: &B,
    name: &[u8],
) -> Result<(), AllocError>
    requires { AreBodiesOf (font (B.subrs bodies.now) (B.glyphs bodies.now)) items.now }
    ensures { OnOk result (text.new.items ≡ text.old.items ++ glyph_lines items.now name.now) }
{
    match met_within(alloc, bodies, MAX_DEPTH, name)? {
        Some(met) => push_met(text, items, &met),
        None => Ok(()),
    }
}

/// Adds the lines of the run that fails, of a fault at this place.
fn push_place<B: StoredBodies>(
    alloc: Global,
    text: &mut Vec<u8>,
    items: &Items,
    bodies: &B,
    place: &Place,
) -> Result<(), AllocError>
    requires { AreBodiesOf (font (B.subrs bodies.now) (B.glyphs bodies.now)) items.now }
    ensures { OnOk result (text.new.items ≡ text.old.items ++ place_lines items.now place.now) }
{
    match place {
        Place::Glyph(name) => push_run(alloc, text, items, bodies, name.as_slice()),
        Place::Nowhere | Place::Line(_) | Place::Subr(_) => Ok(()),
    }
}

/// Adds the lines of a fault: its code and place, then the word that has it and the way of a run to
/// it. The bodies are those of the items, which have no fault.
fn push_lines<B: StoredBodies>(
    alloc: Global,
    text: &mut Vec<u8>,
    items: &Items,
    bodies: &B,
    fault: &Fault,
) -> Result<(), AllocError>
    requires { AreBodiesOf (font (B.subrs bodies.now) (B.glyphs bodies.now)) items.now }
    ensures { OnOk result
        (text.new.items ≡ text.old.items ++ refused_fault_lines items.now fault.now) }
{
    push_fault(text, fault)?;
    if is_of_word(fault.code) {
        return push_faulty_word(alloc, text, items, &fault.place);
    }
    push_place(alloc, text, items, bodies, &fault.place)
}

/// Adds the lines of a fault of items a body of which has a fault: no glyph of these is run.
fn push_word_lines(
    alloc: Global,
    text: &mut Vec<u8>,
    items: &Items,
    fault: &Fault,
) -> Result<(), AllocError>
    requires { HasFaultyBody items.now }
    ensures { OnOk result
        (text.new.items ≡ text.old.items ++ refused_fault_lines items.now fault.now) }
{
    push_fault(text, fault)?;
    if is_of_word(fault.code) {
        return push_faulty_word(alloc, text, items, &fault.place);
    }
    Ok(())
}

/// The lines of a fault of a source whose bodies have none: its code and place, the word at which a
/// run fails, and the way of the run to it. The bodies are those of the source; of these the run of
/// the glyph and those of its parts ask for what they enter, and nothing else does.
pub fn run_fault_text<B: StoredBodies>(
    alloc: Global,
    items: &Items,
    bodies: &B,
    fault: &Fault,
) -> Result<Vec<u8>, AllocError>
    requires { AreBodiesOf (font (B.subrs bodies.now) (B.glyphs bodies.now)) items.now }
    ensures { IfOk result (λ text. text.items ≡ refused_fault_lines items.now fault.now) }
{
    let mut text = Vec::new(alloc);
    push_lines(alloc, &mut text, items, bodies, fault)?;
    Ok(text)
}

/// The lines of a fault of a source a body of which has a fault: its code and place, and the word
/// that has it. Nothing is run.
pub fn body_fault_text(alloc: Global, items: &Items, fault: &Fault) -> Result<Vec<u8>, AllocError>
    requires { HasFaultyBody items.now }
    ensures { IfOk result (λ text. text.items ≡ refused_fault_lines items.now fault.now) }
{
    let mut text = Vec::new(alloc);
    push_word_lines(alloc, &mut text, items, fault)?;
    Ok(text)
}

/// The lines of a fault of a source, all of whose bodies are compiled.
fn fault_text(alloc: Global, items: &Items, fault: &Fault) -> Result<Vec<u8>, AllocError>
    ensures { IfOk result (λ text. text.items ≡ refused_fault_lines items.now fault.now) }
{
    match compiled(alloc, items) {
        Ok(bodies) => run_fault_text(alloc, items, &bodies, fault),
        Err(Refusal::Fault(_fault)) => body_fault_text(alloc, items, fault),
        Err(Refusal::Memory) => Err(AllocError),
    }
}

/// What is told of a source: the lines of its first fault; nothing where it has none. It costs a
/// check of the source.
pub fn refusal_text(alloc: Global, source: &Source) -> Result<Vec<u8>, AllocError>
    ensures { IfOk result (λ text. text.items ≡ refusal_text source.now) }
{
    let Some(fault) = first_fault(alloc, source)? else {
        return Ok(Vec::new(alloc));
    };
    fault_text(alloc, source.items(), &fault)
}
