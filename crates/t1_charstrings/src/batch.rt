//! How long the private text is that many edits at once make.
ghost use Rattle.std.specs.Prelude.{◌≡◌, ◌^◌, ◌-◌, ℕ, List, Some, Ok, Err, IfOk, MatchResult};
ghost use Rattle.std.specs.Prelude.{length, min};
ghost use Rattle.t1_parts.specs.LenIV.{lead};
ghost use Rattle.t1_parts.specs.Operator.{operator};
ghost use Rattle.t1_parts.specs.SourceParts.{SourceParts};
ghost use Rattle.t1_run.specs.Run.{Key};
ghost use Rattle.t1_font.specs.Assembly.{file_check};
ghost use Rattle.t1_font.specs.Lengths.{IsPrivateLen};
ghost use Rattle.t1_charstrings.specs.Batch.{AreEdits, AreFresh, IsBatchOf, fresh_over, text_by};
ghost use Rattle.t1_charstrings.specs.Prepared.{IsCountedFrom};

use crate::edited::EditedEntries;
use crate::edited_lines::edited_lines_len;
use crate::entries::Charstrings;
use crate::lengths::{batch_line_len, sections_len};
use crate::raising::check_sections;
use t1_font::check_parts;
use t1_frac::Fault;
use t1_parts::Items;
use t1_source::Source;

/// How long the lines of the items are, up to 2^64 - 1.
fn batch_items_len(
    charstrings: &Charstrings,
    fresh: &Charstrings,
    operator: &[u8],
    items: &Items,
) -> usize
    ensures { result
        ≡ min (length (text_by (fresh_over fresh.now charstrings.now) operator.now items.now))
        (2 ^ 64 - 1) }
{
    let mut total: usize = 0;
    for item in items.iter() {
        total = total.saturating_add(batch_line_len(charstrings, fresh, operator, &item));
    }
    total
}

/// How long the private text of an edited source is, up to 2^64 - 1, by the fresh charstrings of
/// the entries that were edited and the old ones of the others. The items are gone through once,
/// and nothing is copied.
pub fn batch_len(charstrings: &Charstrings, fresh: &Charstrings, source: &Source) -> usize
    ensures { (keys : List Key) (s : SourceParts)
        → IsBatchOf keys s source.now charstrings.now
        → AreFresh (lead source.now) keys source.now fresh.now
        → IsPrivateLen source.now result }
{
    batch_items_len(charstrings, fresh, source.operator(), source.items())
}

/// How long the private text is of a source that a batch made, up to 2^64 - 1, by the length that
/// was kept with what changed beside the charstrings: of the entries that were edited the old lines
/// less and the fresh ones more, and of the section lines the old ones less and the new ones more.
/// No other line is looked at.
fn len_by_entries(
    charstrings: &Charstrings,
    beside: usize,
    source: &Source,
    made: &Source,
    entries: &EditedEntries,
) -> usize
    requires known { (n : ℕ) × IsCountedFrom source.now n made.now (Some beside) }
    requires lead { lead made.now ≡ lead source.now }
    requires operator { operator made.now ≡ operator source.now }
    requires edits { AreEdits source.now made.now charstrings.now entries.now }
    ensures { IsPrivateLen made.now result }
{
    let operator = source.operator();
    let old = edited_lines_len(charstrings, operator, entries);
    let new = edited_lines_len(&entries.fresh, operator, entries);
    beside
        .saturating_sub(sections_len(source.items()))
        .saturating_sub(old)
        .saturating_add(sections_len(made.items()))
        .saturating_add(new)
}

/// How long the private text is of a source that a batch made, up to 2^64 - 1. By the length that
/// was kept with what changed beside the charstrings it costs by the entries that were edited.
/// Where that was given up, or where other items made the operator another one, all items are gone
/// through.
fn made_len(
    charstrings: &Charstrings,
    beside: Option<usize>,
    source: &Source,
    made: &Source,
    entries: &EditedEntries,
) -> usize
    requires known { (n : ℕ) × IsCountedFrom source.now n made.now beside }
    requires lead { lead made.now ≡ lead source.now }
    requires edits { AreEdits source.now made.now charstrings.now entries.now }
    ensures { IsPrivateLen made.now result }
{
    if let Some(beside) = beside {
        if made.operator() == source.operator() {
            return len_by_entries(charstrings, beside, source, made, entries);
        }
    }
    batch_len(charstrings, &entries.fresh, made)
}

/// How long the private text is of a source that a batch made of one with the same lenIV, or the
/// first fault of the source. It costs by the entries that were edited, and by the items through
/// the last section line; where no length was kept with what changed beside the charstrings, by all
/// items.
#[tactic(auto, unfolding(t1_font::specs::Assembly::file_check))]
pub(crate) fn len_of_batch(
    charstrings: &Charstrings,
    beside: Option<usize>,
    source: &Source,
    made: &Source,
    entries: &EditedEntries,
) -> Result<usize, Fault>
    requires known { (n : ℕ) × IsCountedFrom source.now n made.now beside }
    requires lead { lead made.now ≡ lead source.now }
    requires edits { AreEdits source.now made.now charstrings.now entries.now }
    ensures judged { MatchResult result (λ _. file_check made.now ≡ Ok tt)
        (λ fault. file_check made.now ≡ Err fault) }
    ensures len { IfOk result (IsPrivateLen made.now) }
{
    let len = made_len(charstrings, beside, source, made, entries);
    check_parts(made.clear(), len, made.tail())?;
    check_sections(made.items())?;
    Ok(len)
}
