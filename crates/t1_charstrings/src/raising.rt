//! The counts of section lines, as they are raised where an entry is put in.
ghost use Rattle.std.specs.Prelude.{◌≡◌, ◌<◌, ◌^◌, ◌-◌, ◌∷◌, codes, if◌then◌else◌, length, map};
ghost use Rattle.std.specs.Prelude.{max, min};
ghost use Rattle.t1_text.specs.Tokens.{last_is, tokens};
ghost use Rattle.t1_parts.specs.Counts.{glyphs_needed, raised_item, subrs_needed};
ghost use Rattle.t1_parts.specs.ItemRefs.{item_of};
ghost use Rattle.t1_font.specs.Assembly.{counts_check};
ghost use Rattle.t1_charstrings.specs.Lines.{kept_line, kept_lines_text};
ghost use Rattle.t1_charstrings.specs.Raising.{is_raised_counted, raised_check, raised_text};
ghost use Rattle.t1_charstrings.specs.Sums.{section_line};

use crate::entries::Charstrings;
use crate::lengths::line_len;
use t1_font::{TEN_DIGITS, section_line_len};
use t1_frac::{Code, Fault};
use t1_parts::{ItemRef, Items, ItemsIter};
use t1_source::Item;
use t1_text::last_is;

/// What items need for their Subrs and glyphs.
#[derive(Drop)]
pub(crate) struct Needed {
    pub(crate) subrs: u64,
    pub(crate) glyphs: u64,
}

/// The highest Subr number plus one, with an item more.
fn subrs_with(items: &Items, item: &Item) -> u64
    ensures { result ≡ subrs_needed (item.now ∷ items.now) }
{
    let needed = items.subrs_needed();
    match item {
        Item::Subr(number, _, _) => (u64::from(*number) + 1).max(needed),
        _ => needed,
    }
}

/// The number of glyphs, with an item more.
#[tactic(auto, using(crate::proofs::Inserting::glyphs_first))]
fn glyphs_with(items: &Items, item: &Item) -> u64
    requires { glyphs_needed items.now < 2 ^ 64 - 1 }
    ensures { result ≡ glyphs_needed (item.now ∷ items.now) }
{
    let needed = items.glyphs_needed();
    match item {
        Item::Glyph(_, _, _) => needed + 1,
        _ => needed,
    }
}

/// What is needed with an item more.
pub(crate) fn needed_with(items: &Items, item: &Item) -> Needed
    requires { glyphs_needed items.now < 2 ^ 64 - 1 }
    ensures subrs { result.subrs ≡ subrs_needed (item.now ∷ items.now) }
    ensures glyphs { result.glyphs ≡ glyphs_needed (item.now ∷ items.now) }
{
    Needed {
        subrs: subrs_with(items, item),
        glyphs: glyphs_with(items, item),
    }
}

/// A section's count, raised to what is needed.
fn raised_count(before: &[u8], count: u64, needed: &Needed) -> u64
    ensures { result
        ≡ max count
        (if last_is (codes "/CharStrings") (tokens before.now) then needed.now.glyphs else
        needed.now.subrs) }
{
    let needed = if last_is(b"/CharStrings", before) {
        needed.glyphs
    } else {
        needed.subrs
    };
    count.max(needed)
}

/// How long the raised line of a section is, up to 2^64 - 1; 0 for another item.
fn raised_len(item: &ItemRef, needed: &Needed) -> usize
    ensures { result
        ≡ min
        (length
        (section_line (raised_item needed.now.subrs needed.now.glyphs (item_of item.now))))
        (2 ^ 64 - 1) }
{
    match item {
        ItemRef::Section(before, count, after) => {
            section_line_len(before, raised_count(before, *count, needed), after)
        }
        _ => 0,
    }
}

/// How long the raised section lines are, up to 2^64 - 1. Behind the last one no item is looked at.
pub(crate) fn raised_sections_len(items: &Items, needed: &Needed) -> usize
    ensures { result
        ≡ min (length (raised_text needed.now.subrs needed.now.glyphs items.now)) (2 ^ 64 - 1) }
{
    let mut total: usize = 0;
    for item in items.through_sections().alone() {
        total = total.saturating_add(raised_len(&item.as_ref(), needed));
    }
    total
}

/// How long the line of an item is with a raised count, up to 2^64 - 1.
fn raised_line_len(
    charstrings: &Charstrings,
    operator: &[u8],
    item: &ItemRef,
    needed: &Needed,
) -> usize
    ensures { result
        ≡ min
        (length
        (kept_line charstrings.now operator.now
        (raised_item needed.now.subrs needed.now.glyphs (item_of item.now))))
        (2 ^ 64 - 1) }
{
    match item {
        ItemRef::Section(_, _, _) => raised_len(item, needed),
        ItemRef::Plain(_) => line_len(charstrings, operator, item),
        ItemRef::Subr(_, _, _) => line_len(charstrings, operator, item),
        ItemRef::Glyph(_, _, _) => line_len(charstrings, operator, item),
    }
}

/// How long the lines of the items are with raised counts, up to 2^64 - 1.
pub(crate) fn raised_items_len(
    charstrings: &Charstrings,
    operator: &[u8],
    items: &ItemsIter,
    needed: &Needed,
) -> usize
    ensures { result
        ≡ min
        (length
        (kept_lines_text charstrings.now operator.now
        (map (raised_item needed.now.subrs needed.now.glyphs) items.now)))
        (2 ^ 64 - 1) }
{
    let mut total: usize = 0;
    for item in items.again() {
        total = total.saturating_add(raised_line_len(charstrings, operator, &item, needed));
    }
    total
}

/// Whether a raised count has at most nine digits.
fn is_raised_counted(item: &Item, needed: &Needed) -> bool
    ensures { result ≡ is_raised_counted needed.now.subrs needed.now.glyphs item.now }
{
    match item {
        Item::Section(before, count, _) => {
            raised_count(before.as_slice(), *count, needed) < TEN_DIGITS
        }
        _ => true,
    }
}

/// F23 where a raised count has more than nine digits. Lines that stand together are passed over as
/// a whole.
#[tactic(auto, using(crate::proofs::AloneLaws::check_alone))]
pub(crate) fn check_raised(items: &ItemsIter, needed: &Needed) -> Result<(), Fault>
    ensures { result ≡ raised_check needed.now.subrs needed.now.glyphs items.now }
{
    for item in items.again().alone() {
        if !is_raised_counted(item, needed) {
            return Err(Fault::from(Code::F23));
        }
    }
    Ok(())
}

/// F23 where a raised count has more than nine digits. Behind the last section line no item is
/// looked at.
pub(crate) fn check_raised_sections(items: &Items, needed: &Needed) -> Result<(), Fault>
    ensures { result ≡ raised_check needed.now.subrs needed.now.glyphs items.now }
{
    check_raised(&items.through_sections(), needed)
}

/// F23 where the count of a section line has more than nine digits. Behind the last section line no
/// item is looked at.
pub(crate) fn check_sections(items: &Items) -> Result<(), Fault>
    ensures { result ≡ counts_check items.now }
{
    let none = Needed {
        subrs: 0,
        glyphs: 0,
    };
    check_raised_sections(items, &none)
}
