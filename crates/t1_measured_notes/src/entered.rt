//! The Subrs that glyphs enter.

ghost use Rattle.std.specs.Prelude.{◌≡◌, ◌||◌, ℕ, nat_eq, IfOk, OnOk};
ghost use Rattle.std.specs.List.{list_any};
ghost use Rattle.t1_measured_notes.specs.MeasuredNotes.{is_entered};
ghost use Rattle.t1_run.specs.RunKeys.{has_number};

use indexmap::IndexSet;
use std::alloc::{AllocError, Global};
use t1_font::GlyphMetrics;

/// Adds a number to others.
fn put_number(numbers: &mut IndexSet<u64>, number: u64) -> Result<(), AllocError>
    ensures { OnOk result ((n : ℕ) → has_number numbers.new.keys n ≡ (has_number numbers.old.keys n
        || nat_eq n number)) }
{
    numbers.insert(number)?;
    Ok(())
}

/// Adds some numbers to others.
fn put_numbers(numbers: &mut IndexSet<u64>, more: &[u16]) -> Result<(), AllocError>
    ensures { OnOk result ((n : ℕ) → has_number numbers.new.keys n ≡ (has_number numbers.old.keys n
        || list_any (nat_eq n) more.now)) }
{
    for number in more {
        put_number(numbers, u64::from(*number))?;
    }
    Ok(())
}

/// The numbers of the Subrs that the own runs of some glyphs entered, each once.
pub(crate) fn entered_numbers(
    alloc: Global,
    glyphs: &[GlyphMetrics],
) -> Result<IndexSet<u64>, AllocError>
    ensures { IfOk result (λ numbers. (n : ℕ) → has_number numbers.keys n ≡ is_entered glyphs.now
        n) }
{
    let mut numbers = IndexSet::new(alloc);
    for glyph in glyphs {
        put_numbers(&mut numbers, glyph.entered.as_slice())?;
    }
    Ok(numbers)
}

/// Whether a number is among some.
pub(crate) fn is_among(numbers: &IndexSet<u64>, number: u64) -> bool
    ensures { result ≡ has_number numbers.now.keys number }
{
    numbers.contains(&number)
}
