//! How long the lines of the entries are that edits name, without their closing texts.
ghost use Rattle.std.specs.Prelude.{◌≡◌, ◌^◌, ◌-◌, map, min, sum_by};
ghost use Rattle.t1_font.specs.OwnedKeys.{key_of};
ghost use Rattle.t1_charstrings.specs.Batch.{AreOnce};
ghost use Rattle.t1_charstrings.specs.Beside.{bare_length, edited_keys, glyph_keys, subr_keys};
ghost use Rattle.t1_charstrings.specs.Kept.{charstring_at};

use crate::edited::EditedEntries;
use crate::entries::{Charstrings, Entry};
use crate::lengths::kept_line_len;
use indexmap::IndexMap;
use t1_font::OwnedKey;

/// How long the lines of these Subrs are by what is kept of them, up to 2^64 - 1; 0 for one that
/// isn't kept.
fn subrs_len(charstrings: &Charstrings, operator: &[u8], subrs: &IndexMap<u16, Entry>) -> usize
    ensures len { result
        ≡ min
        (sum_by (bare_length (charstring_at charstrings.now) operator.now)
        (subr_keys subrs.now.entries)) (2 ^ 64 - 1) }
    ensures once { AreOnce (subr_keys subrs.now.entries) }
{
    let mut total: usize = 0;
    for number in subrs.keys() {
        let kept = charstrings.subrs.get(number);
        total = total.saturating_add(kept_line_len(operator, kept, b""));
    }
    total
}

/// How long the lines of these glyphs are by what is kept of them, up to 2^64 - 1; 0 for one that
/// isn't kept.
fn glyphs_len(
    charstrings: &Charstrings,
    operator: &[u8],
    glyphs: &IndexMap<Vec<u8>, Entry>,
) -> usize
    ensures len { result
        ≡ min
        (sum_by (bare_length (charstring_at charstrings.now) operator.now)
        (glyph_keys glyphs.now.entries)) (2 ^ 64 - 1) }
    ensures once { AreOnce (glyph_keys glyphs.now.entries) }
{
    let mut total: usize = 0;
    for name in glyphs.keys() {
        let kept = charstrings.glyphs.get(name.as_slice());
        total = total.saturating_add(kept_line_len(operator, kept, b""));
    }
    total
}

/// How long the line of an entry is by what is kept of it, up to 2^64 - 1; 0 where it isn't kept.
fn key_len(charstrings: &Charstrings, operator: &[u8], key: &OwnedKey) -> usize
    ensures { result
        ≡ min (bare_length (charstring_at charstrings.now) operator.now (key_of key.now))
        (2 ^ 64 - 1) }
{
    match key {
        OwnedKey::Subr(number) => {
            let kept = charstrings.subrs.get(number);
            kept_line_len(operator, kept, b"")
        }
        OwnedKey::Glyph(name) => {
            let kept = charstrings.glyphs.get(name.as_slice());
            kept_line_len(operator, kept, b"")
        }
    }
}

/// How long the lines of these entries are by what is kept of them, up to 2^64 - 1.
fn gone_len(charstrings: &Charstrings, operator: &[u8], gone: &[OwnedKey]) -> usize
    ensures { result
        ≡ min
        (sum_by (bare_length (charstring_at charstrings.now) operator.now) (map key_of gone.now))
        (2 ^ 64 - 1) }
{
    let mut total: usize = 0;
    for entry in gone {
        total = total.saturating_add(key_len(charstrings, operator, entry));
    }
    total
}

/// How long the lines of the entries that edits name are by what is kept of them, up to 2^64 - 1.
/// It costs by the number of these entries.
pub(crate) fn edited_lines_len(
    charstrings: &Charstrings,
    operator: &[u8],
    entries: &EditedEntries,
) -> usize
    ensures len { result
        ≡ min
        (sum_by (bare_length (charstring_at charstrings.now) operator.now)
        (edited_keys entries.now)) (2 ^ 64 - 1) }
    ensures subrs { AreOnce (subr_keys entries.now.fresh.subrs.entries) }
    ensures glyphs { AreOnce (glyph_keys entries.now.fresh.glyphs.entries) }
{
    let fresh = &entries.fresh;
    let subrs = subrs_len(charstrings, operator, &fresh.subrs);
    let glyphs = glyphs_len(charstrings, operator, &fresh.glyphs);
    let gone = gone_len(charstrings, operator, &entries.gone);
    subrs.saturating_add(glyphs).saturating_add(gone)
}
