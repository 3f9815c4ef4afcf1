//! How long the parts of a source's PFB file are, and whether one is too long.
ghost use Rattle.std.specs.Prelude.{◌≡◌, ◌≤◌, ◌<◌, ◌+◌, ◌*◌, ◌^◌, ◌-◌, min, length, true, Ok};
ghost use Rattle.std.specs.Prelude.{IfErr, IfOk, IsOk, OnOk};
ghost use Rattle.std.specs.List.{list_all};
ghost use Rattle.t1_frac.specs.Outcome.{Gives, Refuses};
ghost use Rattle.t1_text.specs.Lines.{joined};
ghost use Rattle.t1_parts.specs.ItemRefs.{item_of};
ghost use Rattle.t1_parts.specs.SourceParts.{SourceParts};
ghost use Rattle.t1_font.specs.Bodies.{bodies as bodies_of, bodies_check};
ghost use Rattle.t1_font.specs.KeptBodies.{plain_bodies, SameBodies};
ghost use Rattle.t1_code.specs.Pfb.{whole_file};
ghost use Rattle.t1_font.specs.Assembly.{counts_check, file_check, length_check, item_line};
ghost use Rattle.t1_font.specs.Assembly.{private_text, source_file};
ghost use Rattle.t1_source.specs.WellFormed.{is_counted};
ghost use Rattle.t1_font.specs.Lengths.{IsPrivateLen};

use crate::assembly::ZEROS_LEN;
use crate::bodies::compiled;
use crate::line_lengths::private_len;
use itoa::Buffer;
use std::alloc::Global;
use t1_code::{EEXEC_LEAD, MAX_PART};
use t1_frac::{Bytes, Code, Fault, Refusal, Words};
use t1_parts::{ItemRef, Items};
use t1_run::Plain;
use t1_source::{Item, Source};

/// More than an entry's line has beside its leading bytes, the operator's name, its head, its
/// charstring and its closing text: spaces, the length of the data and the line's end.
const ENTRY_MARGIN: usize = 40;

/// How long lines are with their ends, up to 2^64 - 1.
fn lines_len(lines: &[Bytes]) -> usize
    ensures { result ≡ min (length (joined lines.now)) (2 ^ 64 - 1) }
{
    let mut total: usize = 0;
    for line in lines {
        total = total
            .saturating_add(line.as_slice().len())
            .saturating_add(1);
    }
    total
}

/// The most bytes that an entry's line can have. A word's code has five bytes at most.
fn max_entry_len(lead: u8, operator: &[u8], head: usize, words: &Words, closing: &[u8]) -> usize
    ensures { result < 2 ^ 31
        → lead + length operator.now + head + 5 * length words.now + length closing.now + 40
        ≤ result }
{
    words
        .as_bytes()
        .len()
        .saturating_mul(5)
        .saturating_add(usize::from(lead))
        .saturating_add(operator.len())
        .saturating_add(head)
        .saturating_add(closing.len())
        .saturating_add(ENTRY_MARGIN)
}

/// The most bytes that the line of an item can have.
fn max_line_len(lead: u8, operator: &[u8], item: &ItemRef) -> usize
    ensures { result < 2 ^ 31
        → IfOk (item_line lead operator.now (item_of item.now)) (λ line. length line ≤ result) }
{
    match item {
        ItemRef::Plain(line) => line.len().saturating_add(1),
        ItemRef::Section(before, count, after) => {
            let digits = Buffer::new().format(*count).len();
            let text = before.len().saturating_add(after.len());
            text.saturating_add(digits).saturating_add(1)
        }
        ItemRef::Subr(number, words, closing) => {
            let head = 4 + Buffer::new().format(*number).len();
            max_entry_len(lead, operator, head, words, closing)
        }
        ItemRef::Glyph(name, words, closing) => {
            let head = name.len().saturating_add(1);
            max_entry_len(lead, operator, head, words, closing)
        }
    }
}

/// The most bytes that the private text can have.
fn max_private_len(lead: u8, operator: &[u8], items: &Items) -> usize
    ensures { result < 2 ^ 31
        → IfOk (private_text lead operator.now items.now) (λ text. length text ≤ result) }
{
    let mut total: usize = 0;
    for item in items.iter() {
        total = total.saturating_add(max_line_len(lead, operator, &item));
    }
    total
}

/// Whether the lengths of a source's texts show that no part of its PFB file is too long.
fn is_short(source: &Source) -> bool
    ensures { result ≡ true
        → bodies_check source.now.items ≡ Ok tt
        → IsOk (source_file whole_file source.now) }
{
    let clear = lines_len(source.clear());
    let private = max_private_len(source.lead(), source.operator(), source.items());
    let trailer = lines_len(source.tail()).saturating_add(ZEROS_LEN);
    clear.max(private.saturating_add(EEXEC_LEAD)).max(trailer) <= MAX_PART
}

/// F23 where a part of the PFB file is too long, for each source with these clear lines and this
/// tail whose private text is so long. It takes no memory.
pub fn check_parts(clear: &[Bytes], private_len: usize, tail: &[Bytes]) -> Result<(), Fault>
    ensures { (s : SourceParts)
        → s.clear ≡ clear.now
        → s.tail ≡ tail.now
        → IsPrivateLen s private_len
        → result ≡ length_check s }
{
    let clear = lines_len(clear);
    let private = private_len.saturating_add(EEXEC_LEAD);
    let trailer = lines_len(tail).saturating_add(ZEROS_LEN);
    if clear.max(private).max(trailer) > MAX_PART {
        return Err(Fault::from(Code::F23));
    }
    Ok(())
}

/// F23 where a part of the PFB file of a source is too long, or the first fault of a body; neither
/// is said where the lengths of the source's texts show that no part is too long. Else the lengths
/// of its lines are added up, and no charstring is kept.
#[tactic(auto, using(crate::proofs::LengthLaws::length_checked))]
fn check_length(alloc: Global, source: &Source) -> Result<(), Refusal>
    ensures checked { OnOk result
        (bodies_check source.now.items ≡ Ok tt
        → length_check source.now ≡ Ok tt) }
    ensures refused { IfErr result (λ refused. Refuses refused (length_check source.now)) }
{
    if is_short(source) {
        return Ok(());
    }
    let len = private_len(alloc, source.lead(), source.operator(), source.items())?;
    check_parts(source.clear(), len, source.tail())?;
    Ok(())
}

/// The least count of ten digits.
pub const TEN_DIGITS: u64 = 1_000_000_000;

/// Whether the count of an item that is a section line has at most nine digits.
fn is_counted(item: &Item) -> bool
    ensures { result ≡ is_counted item.now }
{
    match item {
        Item::Section(_, count, _) => *count < TEN_DIGITS,
        _ => true,
    }
}

/// Whether all counts have at most nine digits.
#[tactic(auto, using(crate::proofs::AloneLaws::counted_alone))]
fn are_counted(items: &Items) -> bool
    ensures { result ≡ list_all is_counted items.now }
{
    for item in items.iter().alone() {
        if !is_counted(item) {
            return false;
        }
    }
    true
}

/// F23 where the count of a section line has more than nine digits. It takes no memory.
pub fn check_counts(items: &Items) -> Result<(), Fault>
    ensures { result ≡ counts_check items.now }
{
    if are_counted(items) {
        return Ok(());
    }
    Err(Fault::from(Code::F23))
}

/// F23 where a part of the PFB file of a source is too long, or the count of a section line has
/// more than nine digits. Its bodies have no fault.
#[tactic(auto, unfolding(crate::specs::Assembly::file_check))]
pub(crate) fn check_file(alloc: Global, source: &Source) -> Result<(), Refusal>
    requires { bodies_check source.now.items ≡ Ok tt }
    ensures { Gives (λ x. x) result (file_check source.now) }
{
    check_length(alloc, source)?;
    check_counts(source.items())?;
    Ok(())
}

/// The compiled bodies of a source whose PFB file and text have no fault; or their fault: the first
/// of a body, at its entry, else F23. None is kept of a source whose PFB file is too long.
#[tactic(auto, using(crate::proofs::LengthLaws::body_fault_reported, crate::proofs::LengthLaws::length_refused), unfolding(crate::specs::Assembly::file_check))]
pub fn checked_bodies(alloc: Global, source: &Source) -> Result<Plain, Refusal>
    ensures file { Gives (λ _. tt) result (file_check source.now) }
    ensures no_fault { IfOk result (λ _. bodies_check source.now.items ≡ Ok tt) }
    ensures bodies { IfOk result
        (λ plain. SameBodies (plain_bodies plain) (bodies_of source.now.items)) }
{
    check_length(alloc, source)?;
    let bodies = compiled(alloc, source.items())?;
    check_counts(source.items())?;
    Ok(bodies)
}
