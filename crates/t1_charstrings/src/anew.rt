//! All charstrings of a source that edits make, encrypted anew.
ghost use Rattle.std.specs.Prelude.{◌≡◌, IfOk};
ghost use Rattle.t1_frac.specs.Outcome.{Gives};
ghost use Rattle.t1_source.specs.EditedItems.{edited_items};
ghost use Rattle.t1_source.specs.EditedSource.{made_of};
ghost use Rattle.t1_source.specs.WellFormed.{IsWellFormed};
ghost use Rattle.t1_parts.specs.Counts.{raised};
ghost use Rattle.t1_font.specs.Assembly.{file_check};
ghost use Rattle.t1_font.specs.Lengths.{IsPrivateLen};
ghost use Rattle.t1_charstrings.specs.Kept.{AreEncrypted};
ghost use Rattle.t1_charstrings.specs.Ready.{IsReadyLines};

use crate::encrypted_items::{charstrings_of, check_raised_parts, needed_by, raised_len};
use crate::entries::Charstrings;
use crate::settling::{ReadyCharstrings, ReadyLines};
use std::alloc::Global;
use t1_font::check_parts;
use t1_frac::Refusal;
use t1_source::{EditedItems, EditedSource};

/// How long the private text of a source that edits make is, whose items and charstrings these are;
/// or F23 where a part of its PFB file is too long or a raised count has too many digits.
fn len_anew(
    made: &EditedSource,
    items: &EditedItems,
    charstrings: &Charstrings,
) -> Result<usize, Refusal>
    requires well { IsWellFormed (made_of made.now) }
    requires items { raised (edited_items items.now) ≡ (made_of made.now).items }
    requires kept { AreEncrypted (made_of made.now) charstrings.now }
    ensures judged { Gives (λ _. tt) result (file_check (made_of made.now)) }
    ensures len { IfOk result (IsPrivateLen (made_of made.now)) }
{
    let needed = needed_by(items)?;
    let len = raised_len(charstrings, items, &needed);
    check_parts(made.clear(), len, made.tail())?;
    check_raised_parts(items, &needed)?;
    Ok(len)
}

/// The charstrings of a source that edits make, all encrypted anew, and the length of its private
/// text; or the first fault of the source. Nothing of a source is changed or copied. Settled, the
/// charstrings take the place of any that were kept.
pub fn prepare_anew(alloc: Global, made: &EditedSource) -> Result<ReadyLines, Refusal>
    ensures judged { Gives (λ _. tt) result (file_check (made_of made.now)) }
    ensures ready { (c : Charstrings) → IfOk result (IsReadyLines (made_of made.now) c) }
{
    let items = made.items();
    let charstrings = charstrings_of(alloc, &items)?;
    let len = len_anew(made, &items, &charstrings)?;
    Ok(ReadyLines {
        charstrings: ReadyCharstrings::All(charstrings),
        len,
    })
}
