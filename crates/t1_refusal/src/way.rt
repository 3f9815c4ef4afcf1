//! The way of a run to its fault: the glyph, and the Subrs that it had entered.
ghost use Rattle.std.specs.Prelude.{◌≡◌, ◌++◌, flat_map, OnOk};
ghost use Rattle.t1_frac.specs.Words.{words};
ghost use Rattle.t1_refusal.specs.Bodies.{seen_of};
ghost use Rattle.t1_refusal.specs.Telling.{call_text, entered_words, last_call, met_lines};
ghost use Rattle.t1_refusal.specs.Telling.{way_line};

use crate::entries::{glyph_named, subr_of, words_of};
use crate::met::FailedRun;
use crate::word::{push_word, word_at};
use std::alloc::AllocError;
use t1_chain::Call;
use t1_parts::{Items, push_decimal};

/// Bytes whose words are those of the body that was entered last: of a Subr, or of the glyph
/// itself.
fn entered_words<'i>(items: &'i Items, glyph: &[u8], calls: &[Call]) -> &'i [u8]
    ensures { words result.now ≡ entered_words items.now glyph.now (last_call calls.now) }
{
    match calls.last() {
        Some(call) => words_of(subr_of(items, call.subr)),
        None => words_of(glyph_named(items, glyph)),
    }
}

/// Adds the Subr that a call enters.
fn push_call(text: &mut Vec<u8>, call: Call) -> Result<(), AllocError>
    ensures { OnOk result (text.new.items ≡ text.old.items ++ call_text call) }
{
    text.extend_from_slice(b", subr ")?;
    push_decimal(text, u64::from(call.subr))
}

/// Adds the Subrs that calls enter.
fn push_calls(text: &mut Vec<u8>, calls: &[Call]) -> Result<(), AllocError>
    ensures { OnOk result (text.new.items ≡ text.old.items ++ flat_map call_text calls.now) }
{
    for call in calls {
        push_call(text, *call)?;
    }
    Ok(())
}

/// Adds the line of a way.
fn push_way(text: &mut Vec<u8>, glyph: &[u8], calls: &[Call]) -> Result<(), AllocError>
    ensures { OnOk result (text.new.items ≡ text.old.items ++ way_line glyph.now calls.now) }
{
    text.extend_from_slice(b"in glyph ")?;
    text.extend_from_slice(glyph)?;
    push_calls(text, calls)?;
    text.push(b'\n')?;
    Ok(())
}

/// Adds the line of the word at which a run fails, where a word is at fault, and that of the way to
/// it.
pub(crate) fn push_met(text: &mut Vec<u8>, items: &Items, met: &FailedRun) -> Result<(), AllocError>
    ensures { OnOk result
        (text.new.items ≡ text.old.items ++ met_lines items.now (seen_of met.now)) }
{
    let glyph = met.glyph.as_slice();
    let calls = met.failure.calls.as_slice();
    let body = entered_words(items, glyph, calls);
    push_word(text, word_at(body, met.failure.word))?;
    push_way(text, glyph, calls)
}
