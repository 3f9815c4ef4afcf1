//! The faults that runs met, each at its word in an entry.

ghost use Rattle.std.specs.Prelude.{◌≡◌, ◌++◌, IfOk, OnOk, flat_map, length, map};
ghost use Rattle.std.specs.List.{range_with_len};
ghost use Rattle.std.specs.Option.{option_copied, option_to_list};
ghost use Rattle.t1_faults.specs.CodeForms.{entry_in_text};
ghost use Rattle.t1_faults.specs.Found.{in_entry};
ghost use Rattle.t1_faults.specs.GlyphRuns.{faults_kept_at, own_kept};
ghost use Rattle.t1_faults.specs.Judging.{run_faults};

use crate::entry_text::EntryText;
use crate::found::{FoundFault, at_entry, at_word};
use crate::met::{MetFaults, copied_detail};
use crate::placed::PlacedWord;
use crate::run_fault::RunFault;
use indexmap::IndexMap;
use std::alloc::{AllocError, Global};
use t1_frac::Place;

/// A fault that runs met in an entry of these words: at its word, or at the entry as a whole where
/// no word is at fault.
fn in_entry<'a>(
    alloc: Global,
    entry: &EntryText,
    placed: &[PlacedWord<'a>],
    fault: &RunFault,
) -> Result<FoundFault<'a>, AllocError>
    ensures { IfOk result
        (λ found. found ≡ in_entry (entry_in_text entry.now) placed.now fault.now) }
{
    let found = match placed.get(fault.word) {
        None => at_entry(alloc, entry, fault.code)?,
        Some(word) => at_word(alloc, &entry.place, word, fault.code)?,
    };
    Ok(FoundFault {
        code: found.code,
        place: found.place,
        line: found.line,
        column: found.column,
        word: found.word,
        detail: copied_detail(alloc, &fault.detail)?,
        chains: fault.chains.copied(alloc)?,
        composites: found.composites,
    })
}

/// Adds faults that runs met in an entry of these words.
fn push_faults_in<'a>(
    alloc: Global,
    found: &mut Vec<FoundFault<'a>>,
    entry: &EntryText<'a>,
    placed: &[PlacedWord<'a>],
    faults: &[RunFault],
) -> Result<(), AllocError>
    ensures { OnOk result (found.new.items
        ≡ found.old.items ++ map (in_entry (entry_in_text entry.now) placed.now) faults.now) }
{
    for fault in faults {
        found.push(in_entry(alloc, entry, placed, fault)?)?;
    }
    Ok(())
}

/// The fault that a glyph's run met in its own body.
fn own_of<'f>(own: &'f IndexMap<Vec<u8>, RunFault>, name: &[u8]) -> Option<&'f RunFault>
    ensures { option_copied result ≡ own_kept own.now.entries name.now }
{
    own.get(name)
}

/// Adds the fault that a glyph's run met in its own body, which has these words.
fn push_own_fault<'a>(
    alloc: Global,
    found: &mut Vec<FoundFault<'a>>,
    entry: &EntryText<'a>,
    placed: &[PlacedWord<'a>],
    own: &IndexMap<Vec<u8>, RunFault>,
    name: &[u8],
) -> Result<(), AllocError>
    ensures { OnOk result (found.new.items
        ≡ found.old.items
        ++ map (in_entry (entry_in_text entry.now) placed.now)
        (option_to_list (own_kept own.now.entries name.now))) }
{
    let Some(fault) = own_of(own, name) else {
        return Ok(());
    };
    found.push(in_entry(alloc, entry, placed, fault)?)?;
    Ok(())
}

/// The faults that runs met at a word of a Subr.
fn met_at(in_subrs: &IndexMap<(u16, usize), Vec<RunFault>>, subr: u16, word: usize) -> &[RunFault]
    ensures { result.now ≡ faults_kept_at in_subrs.now.entries subr word }
{
    match in_subrs.get(&(subr, word)) {
        None => &[],
        Some(faults) => faults.as_slice(),
    }
}

/// Adds the faults that runs met in a Subr of these words, word by word.
fn push_subr_faults<'a>(
    alloc: Global,
    found: &mut Vec<FoundFault<'a>>,
    entry: &EntryText<'a>,
    placed: &[PlacedWord<'a>],
    in_subrs: &IndexMap<(u16, usize), Vec<RunFault>>,
    subr: u16,
) -> Result<(), AllocError>
    ensures { OnOk result
        (found.new.items
        ≡ found.old.items
        ++ map (in_entry (entry_in_text entry.now) placed.now)
        (flat_map (faults_kept_at in_subrs.now.entries subr)
        (range_with_len 0 (length placed.now)))) }
{
    for word in 0..placed.len() {
        push_faults_in(alloc, found, entry, placed, met_at(in_subrs, subr, word))?;
    }
    Ok(())
}

/// Adds the faults that runs met in an entry: a glyph's own run in its body, all runs in a Subr.
pub(crate) fn push_run_faults<'a>(
    alloc: Global,
    found: &mut Vec<FoundFault<'a>>,
    met: &MetFaults,
    entry: &EntryText<'a>,
) -> Result<(), AllocError>
    ensures { OnOk result (found.new.items
        ≡ found.old.items
        ++ run_faults (own_kept met.now.own.entries) (faults_kept_at met.now.in_subrs.entries)
        (entry_in_text entry.now)) }
{
    let placed = entry.words(alloc)?;
    match &entry.place {
        Place::Subr(number) => {
            push_subr_faults(alloc, found, entry, &placed, &met.in_subrs, *number)
        }
        Place::Glyph(name) => {
            push_own_fault(alloc, found, entry, &placed, &met.own, name.as_slice())
        }
        _ => Ok(()),
    }
}
