//! The charstrings of the items of an edited source, all encrypted anew, and the length of their
//! lines.
ghost use Rattle.std.specs.Prelude.{◌≡◌, ◌^◌, ◌-◌, IfOk, OnOk, length, map, min, None};
ghost use Rattle.t1_frac.specs.Outcome.{Gives};
ghost use Rattle.t1_parts.specs.Counts.{glyphs_needed, raised_item, subrs_needed};
ghost use Rattle.t1_parts.specs.LenIV.{lead_among};
ghost use Rattle.t1_parts.specs.Operator.{operator_among};
ghost use Rattle.t1_source.specs.EditedItems.{edited_items};
ghost use Rattle.t1_run.specs.Run.{Key};
ghost use Rattle.t1_font.specs.Bodies.{bodies, bodies_check};
ghost use Rattle.t1_charstrings.specs.Kept.{charstring_at, Encrypt};
ghost use Rattle.t1_charstrings.specs.Lines.{kept_lines_text};
ghost use Rattle.t1_charstrings.specs.Raising.{raised_check};

use crate::encrypted::add_items;
use crate::entries::{Charstrings, no_charstrings};
use crate::raising::{Needed, check_raised, raised_items_len};
use std::alloc::{AllocError, Global};
use t1_frac::{Fault, Refusal};
use t1_source::EditedItems;

/// What the items need for their Subrs and glyphs. An error only where there are more than 2^64
/// - 1 glyphs.
pub(crate) fn needed_by(items: &EditedItems) -> Result<Needed, AllocError>
    ensures subrs { IfOk result (λ needed. needed.subrs ≡ subrs_needed (edited_items items.now)) }
    ensures glyphs { IfOk result
        (λ needed. needed.glyphs ≡ glyphs_needed (edited_items items.now)) }
{
    let subrs = items.subrs();
    let glyphs = items.glyphs()?;
    Ok(Needed { subrs, glyphs })
}

/// Adds the charstrings of the items, encrypted with so many leading bytes, to none; or answers
/// the first fault of a body, at its entry.
fn add_parts(
    alloc: Global,
    lead: u8,
    charstrings: &mut Charstrings,
    items: &EditedItems,
) -> Result<(), Refusal>
    requires { (k : Key) → charstring_at charstrings.old k ≡ None }
    ensures checked { Gives (λ x. x) result (bodies_check (edited_items items.now)) }
    ensures kept { OnOk result (Encrypt lead (bodies (edited_items items.now)) charstrings.new) }
{
    add_items(alloc, lead, charstrings, &items.before)?;
    add_items(alloc, lead, charstrings, &items.put)?;
    add_items(alloc, lead, charstrings, &items.after)?;
    Ok(())
}

/// The charstrings of the items, encrypted by their lenIV, or the first fault of a body, at its
/// entry.
pub(crate) fn charstrings_of(alloc: Global, items: &EditedItems) -> Result<Charstrings, Refusal>
    ensures checked { Gives (λ _. tt) result (bodies_check (edited_items items.now)) }
    ensures kept { IfOk result
        (Encrypt (lead_among (edited_items items.now)) (bodies (edited_items items.now))) }
{
    let lead = items.lead();
    let mut charstrings = no_charstrings(alloc);
    add_parts(alloc, lead, &mut charstrings, items)?;
    Ok(charstrings)
}

/// How long the lines of the items are with raised counts, up to 2^64 - 1.
pub(crate) fn raised_len(charstrings: &Charstrings, items: &EditedItems, needed: &Needed) -> usize
    ensures { result
        ≡ min
        (length
        (kept_lines_text charstrings.now (operator_among (edited_items items.now))
        (map (raised_item needed.now.subrs needed.now.glyphs)
        (edited_items items.now)))) (2 ^ 64 - 1) }
{
    let operator = items.operator();
    let put = raised_items_len(charstrings, operator, &items.put, needed);
    let after = raised_items_len(charstrings, operator, &items.after, needed);
    raised_items_len(charstrings, operator, &items.before, needed).saturating_add(
        put.saturating_add(after),
    )
}

/// F23 where a raised count has more than nine digits.
pub(crate) fn check_raised_parts(items: &EditedItems, needed: &Needed) -> Result<(), Fault>
    ensures { result ≡ raised_check needed.now.subrs needed.now.glyphs (edited_items items.now) }
{
    check_raised(&items.before, needed)?;
    check_raised(&items.put, needed)?;
    check_raised(&items.after, needed)
}
