//! How long the private text is, and whether a part of the PFB file is too long: of a source, and
//! of the one that edits make of it, whose charstrings are made ready here.
ghost use Rattle.std.specs.Prelude.{◌≡◌, ◌^◌, ◌-◌, ◌<◌, Some, Ok, Err, IfOk};
ghost use Rattle.std.specs.Prelude.{MatchResult, min, length, option_copied, true, false};
ghost use Rattle.t1_frac.specs.Outcome.{Gives};
ghost use Rattle.t1_parts.specs.Counts.{glyphs_needed};
ghost use Rattle.t1_parts.specs.ItemRefs.{item_of};
ghost use Rattle.t1_parts.specs.LenIV.{lead};
ghost use Rattle.t1_source.specs.Changes.{IsFor, is_entry_changed, made_after, put_by, taken_by};
ghost use Rattle.t1_source.specs.EditedSource.{made_of, may_set_lead};
ghost use Rattle.t1_source.specs.WellFormed.{IsWellFormed};
ghost use Rattle.t1_font.specs.Assembly.{file_check, length_check};
ghost use Rattle.t1_font.specs.Lengths.{IsPrivateLen};
ghost use Rattle.t1_charstrings.specs.declared.settling.ReadyCharstrings.TheVariants as ready;
ghost use Rattle.t1_charstrings.specs.Batch.{AreEdits, fresh_over, has_line, item_line_by};
ghost use Rattle.t1_charstrings.specs.Changed.{AreSameCharstrings};
ghost use Rattle.t1_charstrings.specs.Kept.{AreEncrypted};
ghost use Rattle.t1_charstrings.specs.Lines.{kept_entry_line, kept_line, kept_lines_text};
ghost use Rattle.t1_charstrings.specs.Prepared.{IsMadeOf, IsPreparedFor};
ghost use Rattle.t1_charstrings.specs.Ready.{IsNeeded, IsReadyLines, edited_len, put_len};
ghost use Rattle.t1_charstrings.specs.Ready.{taken_len};
ghost use Rattle.t1_charstrings.specs.Sums.{section_line, section_lines_text};

use crate::batch::len_of_batch;
use crate::edited::EditedEntries;
use crate::entries::{Charstrings, Entry, make_room};
use crate::raising::{Needed, check_raised_sections, needed_with, raised_sections_len};
use crate::settling::{ReadyCharstrings, ReadyLines};
use t1_font::{check_parts, entry_line_len, section_line_len};
use t1_frac::{Fault, Refusal};
use t1_parts::{ItemRef, Items};
use t1_source::{Change, EditedSource, Item, Source};

/// How long the line of an entry is whose charstring may be kept, up to 2^64 - 1; 0 where it isn't.
pub(crate) fn kept_line_len(operator: &[u8], kept: Option<&Entry>, closing: &[u8]) -> usize
    ensures { result
        ≡ min (length (kept_entry_line operator.now closing.now (option_copied kept.entry)))
        (2 ^ 64 - 1) }
{
    match kept {
        None => 0,
        Some(entry) => {
            let head = entry.head().len();
            entry_line_len(operator, head, entry.charstring().len(), closing)
        }
    }
}

/// How long the line of an item is, up to 2^64 - 1.
pub fn line_len(charstrings: &Charstrings, operator: &[u8], item: &ItemRef) -> usize
    ensures { result
        ≡ min (length (kept_line charstrings.now operator.now (item_of item.now))) (2 ^ 64 - 1) }
{
    match item {
        ItemRef::Plain(line) => line.len().saturating_add(1),
        ItemRef::Section(before, count, after) => section_line_len(before, *count, after),
        ItemRef::Subr(number, _, closing) => {
            let kept = charstrings.subrs.get(number);
            kept_line_len(operator, kept, closing)
        }
        ItemRef::Glyph(name, _, closing) => {
            let kept = charstrings.glyphs.get(*name);
            kept_line_len(operator, kept, closing)
        }
    }
}

/// How long the lines of the items are, up to 2^64 - 1.
fn items_len(charstrings: &Charstrings, operator: &[u8], items: &Items) -> usize
    ensures { result
        ≡ min (length (kept_lines_text charstrings.now operator.now items.now)) (2 ^ 64 - 1) }
{
    let mut total: usize = 0;
    for item in items.iter() {
        total = total.saturating_add(line_len(charstrings, operator, &item));
    }
    total
}

/// How long the private text of a source is, up to 2^64 - 1.
pub fn private_len(charstrings: &Charstrings, source: &Source) -> usize
    requires well { IsWellFormed source.now }
    requires kept { AreEncrypted source.now charstrings.now }
    ensures { IsPrivateLen source.now result }
{
    items_len(charstrings, source.operator(), source.items())
}

/// How long the line of a section is, up to 2^64 - 1; 0 for another item.
fn section_len(item: &Item) -> usize
    ensures { result ≡ min (length (section_line item.now)) (2 ^ 64 - 1) }
{
    match item {
        Item::Section(before, count, after) => {
            section_line_len(before.as_slice(), *count, after.as_slice())
        }
        _ => 0,
    }
}

/// How long the section lines are, up to 2^64 - 1. Behind the last one no item is looked at.
pub fn sections_len(items: &Items) -> usize
    ensures { result ≡ min (length (section_lines_text items.now)) (2 ^ 64 - 1) }
{
    let mut total: usize = 0;
    for item in items.through_sections().alone() {
        total = total.saturating_add(section_len(item));
    }
    total
}

/// F23 where a part of the PFB file of a source is too long, whose private text is so long.
pub fn check_length(source: &Source, private_len: usize) -> Result<(), Fault>
    requires { IsPrivateLen source.now private_len }
    ensures { result ≡ length_check source.now }
{
    check_parts(source.clear(), private_len, source.tail())
}

/// Whether the charstring of an item's entry is among these.
fn has_line(charstrings: &Charstrings, item: &ItemRef) -> bool
    ensures { result ≡ has_line charstrings.now (item_of item.now) }
{
    match item {
        ItemRef::Subr(number, _, _) => charstrings.subrs.contains_key(number),
        ItemRef::Glyph(name, _, _) => charstrings.glyphs.contains_key(*name),
        _ => false,
    }
}

/// How long the line of an item is, up to 2^64 - 1: that of its fresh charstring, or else that of
/// the old one.
pub(crate) fn batch_line_len(
    charstrings: &Charstrings,
    fresh: &Charstrings,
    operator: &[u8],
    item: &ItemRef,
) -> usize
    ensures { result
        ≡ min
        (length
        (item_line_by (fresh_over fresh.now charstrings.now) operator.now
        (item_of item.now))) (2 ^ 64 - 1) }
{
    if has_line(fresh, item) {
        return line_len(fresh, operator, item);
    }
    line_len(charstrings, operator, item)
}

/// How long the line of the item is that a change takes out, up to 2^64 - 1; 0 where it takes none
/// out.
fn taken_len(charstrings: &Charstrings, source: &Source, change: &Change) -> usize
    requires { IsFor change.now source.now }
    ensures { result ≡ taken_len charstrings.now source.now (taken_by change.now) }
{
    match change.taken() {
        Some(at) => line_len(charstrings, source.operator(), &source.items().item(at)),
        None => 0,
    }
}

/// How long the line of the item is that a change puts in, by fresh charstrings over the old ones,
/// up to 2^64 - 1; 0 where it puts none in.
fn put_len(
    charstrings: &Charstrings,
    fresh: &Charstrings,
    source: &Source,
    change: &Change,
) -> usize
    ensures { result ≡ put_len fresh.now charstrings.now source.now (put_by change.now) }
{
    match change.put() {
        Some(item) => batch_line_len(charstrings, fresh, source.operator(), &item.as_ref()),
        None => 0,
    }
}

/// What the items need of the section lines after a change, where it puts in an item and takes none
/// out; after another one they need no more than they have.
fn needed_after(source: &Source, change: &Change) -> Option<Needed>
    requires { glyphs_needed source.now.items < 2 ^ 64 - 1 }
    ensures { IsNeeded (taken_by change.now) (put_by change.now) source.now result }
{
    if let Some(_at) = change.taken() {
        return None;
    }
    match change.put() {
        Some(item) => Some(needed_with(source.items(), item)),
        None => None,
    }
}

/// How long the private text is after a change, up to 2^64 - 1. Where more is needed of the section
/// lines, the items are gone through for these.
fn edited_len(
    charstrings: &Charstrings,
    private_len: usize,
    source: &Source,
    change: &Change,
    fresh: &Charstrings,
    needed: &Option<Needed>,
) -> usize
    requires { IsFor change.now source.now }
    ensures { result
        ≡ edited_len private_len fresh.now charstrings.now source.now (taken_by change.now)
        (put_by change.now) needed.now }
{
    let left = private_len.saturating_sub(taken_len(charstrings, source, change));
    let put = put_len(charstrings, fresh, source, change);
    match needed {
        None => left.saturating_add(put),
        Some(needed) => {
            let items = source.items();
            left.saturating_sub(sections_len(items))
                .saturating_add(put)
                .saturating_add(raised_sections_len(items, needed))
        }
    }
}

/// How long the private text is after a change that sets no lenIV, or the first fault of the edited
/// source. The length goes by that of the source before the edit, so that it costs no look at the
/// other lines.
fn len_changed(
    charstrings: &Charstrings,
    private_len: usize,
    source: &Source,
    change: &Change,
    entries: &EditedEntries,
) -> Result<usize, Fault>
    requires prepared { IsPreparedFor change.now source.now private_len }
    requires entry { is_entry_changed change.now source.now ≡ true }
    requires edits { AreEdits source.now (made_after change.now source.now) charstrings.now
        entries.now }
    ensures judged { MatchResult result (λ _. file_check (made_after change.now source.now) ≡ Ok tt)
        (λ fault. file_check (made_after change.now source.now) ≡ Err fault) }
    ensures len { IfOk result (IsPrivateLen (made_after change.now source.now)) }
{
    if change.is_of_pairs() {
        return Ok(private_len);
    }
    let needed = needed_after(source, change);
    let fresh = &entries.fresh;
    let len = edited_len(charstrings, private_len, source, change, fresh, &needed);
    check_parts(change.clear_after(source), len, source.tail())?;
    let Some(needed) = needed else {
        return Ok(len);
    };
    check_raised_sections(source.items(), &needed)?;
    Ok(len)
}

/// How long the private text is after edits that leave lenIV as it is, or the first fault of the
/// source that they make.
fn len_after(
    charstrings: &Charstrings,
    private_len: usize,
    beside: Option<usize>,
    source: &Source,
    made: &EditedSource,
    entries: &EditedEntries,
) -> Result<usize, Fault>
    requires prepared { IsMadeOf source.now private_len beside made.now }
    requires lead { may_set_lead source.now made.now ≡ false }
    requires edits { AreEdits source.now (made_of made.now) charstrings.now entries.now }
    ensures judged { MatchResult result (λ _. file_check (made_of made.now) ≡ Ok tt)
        (λ fault. file_check (made_of made.now) ≡ Err fault) }
    ensures len { IfOk result (IsPrivateLen (made_of made.now)) }
    ensures lead { lead (made_of made.now) ≡ lead source.now }
{
    match made.change() {
        Some(change) => len_changed(charstrings, private_len, source, change, entries),
        None => len_of_batch(charstrings, beside, source, made.source(), entries),
    }
}

/// What edits that leave lenIV as it is make of the charstrings and of the length of the private
/// text, or the first fault of the source that they make. Nothing is changed: there may be more
/// room among the charstrings. The length goes by that of the source before the edits, so that it
/// costs no look at the other lines: after one edit by this alone, after a batch by the length that
/// [`len_beside`](crate::len_beside) kept through its edits, and by the entries that they name. The
/// section lines are looked at, and what stands before the last one. Where no length was kept for a
/// batch, or where its edits changed the operator, all items are gone through once.
pub fn prepare_lines(
    charstrings: &mut Charstrings,
    private_len: usize,
    beside: Option<usize>,
    source: &Source,
    made: &EditedSource,
    entries: EditedEntries,
) -> Result<ReadyLines, Refusal>
    requires prepared { IsMadeOf source.now private_len beside made.now }
    requires lead { may_set_lead source.now made.now ≡ false }
    requires edits { AreEdits source.now (made_of made.now) charstrings.old entries }
    ensures same { AreSameCharstrings charstrings.old charstrings.new }
    ensures judged { Gives (λ _. tt) result (file_check (made_of made.now)) }
    ensures ready { IfOk result (IsReadyLines (made_of made.now) charstrings.new) }
    ensures edited { IfOk result (λ lines. lines.charstrings ≡ ready.Edited entries) }
{
    let len = len_after(charstrings, private_len, beside, source, made, &entries)?;
    make_room(
        charstrings,
        entries.fresh.subrs.len(),
        entries.fresh.glyphs.len(),
    )?;
    Ok(ReadyLines {
        charstrings: ReadyCharstrings::Edited(entries),
        len,
    })
}
