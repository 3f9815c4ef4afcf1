//! The faults of an entry, each at its word.

ghost use Rattle.std.specs.Prelude.{◌≡◌, ◌++◌, ◌∷◌, [], All, IfOk, OnOk};
ghost use Rattle.std.specs.Option.{option_to_list};
ghost use Rattle.t1_frac.specs.Words.{words};
ghost use Rattle.t1_code.specs.Words.{command_of_word};
ghost use Rattle.t1_faults.specs.CodeForms.{entry_in_text};
ghost use Rattle.t1_faults.specs.Found.{at_entry, at_word, body_faults, refused_code};
ghost use Rattle.t1_faults.specs.Found.{length_faults, word_fault, word_faults};

use crate::call_chains::CallChains;
use crate::entry_text::EntryText;
use crate::glyph_names::GlyphNames;
use crate::placed::PlacedWord;
use std::alloc::{AllocError, Global};
use t1_chain::Detail;
use t1_code::{Command, compile_onto};
use t1_frac::{Bytes, Code, Place, Refusal, SourceText, Words, blank_len};

/// A fault, where it stands in the source.
#[derive(Drop)]
pub struct FoundFault<'a> {
    pub code: Code,
    /// The entry in which it stands, or its line, or nothing.
    pub place: Place,
    /// The number of the line, from 1.
    pub line: u64,
    /// The column: bytes of the line, from 1.
    pub column: usize,
    /// The bytes that stand there, where some of the line are at fault and not an entry as a whole.
    pub word: Option<SourceText<'a>>,
    /// What the fault says beside its code.
    pub detail: Detail,
    /// Of a fault that runs met in a Subr: each glyph that met it, in the order of the source.
    /// Else none.
    pub chains: CallChains,
    /// The composites, in the order of the source, that stand on glyphs which have a fault of their
    /// own and which this fault is the first to name: as the glyph in whose entry it stands, or as
    /// one of those that met it.
    pub composites: GlyphNames,
}

/// The most words of a body.
const MAX_WORDS: usize = 65_535;

/// A copy of a place.
fn copied_place(alloc: Global, place: &Place) -> Result<Place, AllocError>
    ensures { IfOk result (λ copy. copy ≡ place.now) }
{
    match place {
        Place::Nowhere => Ok(Place::Nowhere),
        Place::Line(number) => Ok(Place::Line(*number)),
        Place::Subr(number) => Ok(Place::Subr(*number)),
        Place::Glyph(name) => Ok(Place::Glyph(Bytes::copied(alloc, name.as_slice())?)),
    }
}

/// A fault of an entry as a whole, at the first byte of its first line that is no blank.
pub(crate) fn at_entry<'a>(
    alloc: Global,
    entry: &EntryText,
    code: Code,
) -> Result<FoundFault<'a>, AllocError>
    ensures { IfOk result (λ fault. fault ≡ at_entry (entry_in_text entry.now) code) }
{
    Ok(FoundFault {
        code,
        place: copied_place(alloc, &entry.place)?,
        line: entry.number,
        column: blank_len(entry.line) + 1,
        word: None,
        detail: Detail::Nothing,
        chains: CallChains::new(alloc),
        composites: GlyphNames::new(alloc),
    })
}

/// A fault of a word, at the word.
pub(crate) fn at_word<'a>(
    alloc: Global,
    place: &Place,
    word: &PlacedWord<'a>,
    code: Code,
) -> Result<FoundFault<'a>, AllocError>
    ensures { IfOk result (λ fault. fault ≡ at_word place.now word.now code) }
{
    Ok(FoundFault {
        code,
        place: copied_place(alloc, place)?,
        line: word.line,
        column: word.column,
        word: Some(word.word.copied(alloc)?),
        detail: Detail::Nothing,
        chains: CallChains::new(alloc),
        composites: GlyphNames::new(alloc),
    })
}

/// The code of a word that is no number and no command. The commands are memory for its command.
fn word_code(commands: &mut Vec<Command>, word: &[u8]) -> Result<Option<Code>, AllocError>
    requires { words word.now ≡ word.now ∷ [] }
    ensures { IfOk result (λ code. code ≡ refused_code (command_of_word word.now)) }
{
    commands.clear();
    match compile_onto(commands, &Words::of(word)) {
        Ok(()) => Ok(None),
        Err(Refusal::Fault(fault)) => Ok(Some(fault.code)),
        Err(Refusal::Memory) => Err(AllocError),
    }
}

/// Adds the fault of a word, where it has one.
fn push_word_fault<'a>(
    alloc: Global,
    found: &mut Vec<FoundFault<'a>>,
    commands: &mut Vec<Command>,
    place: &Place,
    word: &PlacedWord<'a>,
) -> Result<(), AllocError>
    requires { words word.now.word ≡ word.now.word ∷ [] }
    ensures { OnOk result (found.new.items
        ≡ found.old.items ++ option_to_list (word_fault place.now word.now)) }
{
    let Some(code) = word_code(commands, word.word.as_slice())? else {
        return Ok(());
    };
    found.push(at_word(alloc, place, word, code)?)?;
    Ok(())
}

/// Adds every fault of some words, in their order.
fn push_word_faults<'a>(
    alloc: Global,
    found: &mut Vec<FoundFault<'a>>,
    place: &Place,
    placed: &[PlacedWord<'a>],
) -> Result<(), AllocError>
    requires { All (λ w. words w.word ≡ w.word ∷ []) placed.now }
    ensures { OnOk result (found.new.items ≡ found.old.items ++ word_faults place.now placed.now) }
{
    let mut commands = Vec::new(alloc);
    for word in placed {
        push_word_fault(alloc, found, &mut commands, place, word)?;
    }
    Ok(())
}

/// Adds F22 of an entry that has too many words.
fn push_length_fault<'a>(
    alloc: Global,
    found: &mut Vec<FoundFault<'a>>,
    entry: &EntryText<'a>,
    placed: &[PlacedWord<'a>],
) -> Result<(), AllocError>
    ensures { OnOk result (found.new.items
        ≡ found.old.items ++ length_faults (entry_in_text entry.now) placed.now) }
{
    if placed.len() <= MAX_WORDS {
        return Ok(());
    }
    found.push(at_entry(alloc, entry, Code::F22)?)?;
    Ok(())
}

/// Adds every fault of an entry's body: F22 at the entry, and F20 and F21 at each word that has
/// one.
pub(crate) fn push_body_faults<'a>(
    alloc: Global,
    found: &mut Vec<FoundFault<'a>>,
    entry: &EntryText<'a>,
) -> Result<(), AllocError>
    ensures { OnOk result (found.new.items
        ≡ found.old.items ++ body_faults (entry_in_text entry.now)) }
{
    let placed = entry.words(alloc)?;
    push_length_fault(alloc, found, entry, &placed)?;
    push_word_faults(alloc, found, &entry.place, &placed)
}
