//! What is said of a fault beside its title and its word.
ghost use Rattle.std.specs.Prelude.{◌≡◌, ◌++◌, codes, decimal, IfOk, OnOk};
ghost use Rattle.t1_faults.specs.Hints.{hint_of};
ghost use Rattle.t1_fault_texts.specs.Hints.{count_text, detail_text, hint, likely_meaning, meant};
ghost use Rattle.t1_fault_texts.specs.Hints.{points_text, question, value_front, value_text};
ghost use Rattle.t1_fault_texts.specs.Hints.{wanted_text};

use itoa::Buffer;
use std::alloc::{AllocError, Global};
use t1_chain::Detail;
use t1_faults::{FoundFault, hint_of};
use t1_frac::{Code, Frac, SourceText};

/// Adds so many of a kind: `1 value`, `2 values`.
fn push_count(text: &mut Vec<u8>, count: usize, kind: &[u8]) -> Result<(), AllocError>
    ensures { OnOk result (text.new.items ≡ text.old.items ++ count_text count kind.now) }
{
    let mut digits = Buffer::new();
    text.extend_from_slice(digits.format(count).as_bytes())?;
    text.extend_from_slice(kind)?;
    if count == 1 {
        return Ok(());
    }
    text.extend_from_slice(b"s")?;
    Ok(())
}

/// Adds a value: a whole number, or a numerator and a denominator.
fn push_value(text: &mut Vec<u8>, value: &Frac) -> Result<(), AllocError>
    ensures { OnOk result (text.new.items ≡ text.old.items ++ value_text value.now) }
{
    let mut num = Buffer::new();
    text.extend_from_slice(num.format(value.num()).as_bytes())?;
    if value.is_whole() {
        return Ok(());
    }
    let mut den = Buffer::new();
    text.extend_from_slice(b"/")?;
    text.extend_from_slice(den.format(value.den()).as_bytes())?;
    Ok(())
}

/// Adds a quotient: a whole number, or a numerator and a denominator.
fn push_quotient(text: &mut Vec<u8>, num: i128, den: u128) -> Result<(), AllocError>
    ensures { OnOk result (text.new.items
        ≡ text.old.items ++ value_text (record { num = num; den = den })) }
{
    let mut digits = Buffer::new();
    text.extend_from_slice(digits.format(num).as_bytes())?;
    if den == 1 {
        return Ok(());
    }
    let mut digits = Buffer::new();
    text.extend_from_slice(b"/")?;
    text.extend_from_slice(digits.format(den).as_bytes())?;
    Ok(())
}

/// What the value is that has a fault of this code.
fn value_front(code: Code) -> &'static [u8]
    ensures { result.now ≡ value_front code }
{
    match code {
        Code::F32 => b"no Subr ",
        Code::F42 => b"othersubr ",
        Code::F44 => b"code ",
        _ => b"",
    }
}

/// Adds how many values there are, and how many are wanted.
fn push_wanted(text: &mut Vec<u8>, there: usize, wanted: usize) -> Result<(), AllocError>
    ensures { OnOk result (text.new.items ≡ text.old.items ++ wanted_text there wanted) }
{
    let mut digits = Buffer::new();
    push_count(text, there, b" value")?;
    text.extend_from_slice(b", ")?;
    text.extend_from_slice(digits.format(wanted).as_bytes())?;
    text.extend_from_slice(b" wanted")?;
    Ok(())
}

/// Adds how many points a flex has recorded.
fn push_points(text: &mut Vec<u8>, count: usize) -> Result<(), AllocError>
    ensures { OnOk result (text.new.items ≡ text.old.items ++ points_text count) }
{
    push_count(text, count, b" point")?;
    text.extend_from_slice(b" recorded")?;
    Ok(())
}

/// Adds the line of the first entry of a number or a name.
fn push_first(text: &mut Vec<u8>, number: u64) -> Result<(), AllocError>
    ensures { OnOk result (text.new.items ≡ text.old.items ++ (codes "first on line " ++ decimal
        number)) }
{
    let mut digits = Buffer::new();
    text.extend_from_slice(b"first on line ")?;
    text.extend_from_slice(digits.format(number).as_bytes())?;
    Ok(())
}

/// Adds what the detail of a fault says.
fn push_detail(text: &mut Vec<u8>, code: Code, detail: &Detail) -> Result<(), AllocError>
    ensures { OnOk result (text.new.items ≡ text.old.items ++ detail_text code detail.now) }
{
    match detail {
        Detail::Nothing => Ok(()),
        Detail::Number(value) => {
            text.extend_from_slice(value_front(code))?;
            push_value(text, value)
        }
        Detail::Quotient(num, den) => push_quotient(text, *num, *den),
        Detail::Glyph(name) => {
            text.extend_from_slice(b"no glyph ")?;
            text.extend_from_slice(name.as_slice())?;
            Ok(())
        }
        Detail::Values(there, wanted) => push_wanted(text, *there, *wanted),
        Detail::Points(count) => push_points(text, *count),
        Detail::Line(number) => push_first(text, *number),
    }
}

/// Adds the command that a word most likely means, as a question.
fn push_question(alloc: Global, text: &mut Vec<u8>, word: &[u8]) -> Result<(), AllocError>
    ensures { OnOk result (text.new.items ≡ text.old.items ++ question (hint_of word.now)) }
{
    let Some(command) = hint_of(alloc, word)? else {
        return Ok(());
    };
    text.extend_from_slice(command.as_bytes())?;
    text.extend_from_slice(b"?")?;
    Ok(())
}

/// Adds what the word of a fault most likely means, where it has one.
fn push_meaning(
    alloc: Global,
    text: &mut Vec<u8>,
    word: &Option<SourceText<'_>>,
) -> Result<(), AllocError>
    ensures { OnOk result (text.new.items ≡ text.old.items ++ likely_meaning word.now) }
{
    match word {
        Some(word) => push_question(alloc, text, word.as_slice()),
        None => Ok(()),
    }
}

/// Adds what the word of a fault most likely means, where it is unknown.
fn push_meant(
    alloc: Global,
    text: &mut Vec<u8>,
    code: Code,
    word: &Option<SourceText<'_>>,
) -> Result<(), AllocError>
    ensures { OnOk result (text.new.items ≡ text.old.items ++ meant code word.now) }
{
    match code {
        Code::F20 => push_meaning(alloc, text, word),
        _ => Ok(()),
    }
}

/// What is said of a fault beside its title and its word; nothing where there is nothing to say.
pub fn hint_on(alloc: Global, fault: &FoundFault<'_>) -> Result<Vec<u8>, AllocError>
    ensures { IfOk result (λ text. text.items ≡ hint fault.now) }
{
    let mut text = Vec::new(alloc);
    push_meant(alloc, &mut text, fault.code, &fault.word)?;
    push_detail(&mut text, fault.code, &fault.detail)?;
    Ok(text)
}
