//! What a fault says beside its code.

ghost use Rattle.std.specs.Prelude.{◌≡◌, ◌^◌, ◌≤◌, IfOk, option_map};
ghost use Rattle.std.specs.Option.{option_copied};
ghost use Rattle.t1_frac.specs.Limits.{exceeds};
ghost use Rattle.t1_run.specs.Operands.{topmost as topmost_of};
ghost use Rattle.t1_chain.specs.Details.{arguments_by, both_of, detail_of as detail_of_word};
ghost use Rattle.t1_chain.specs.Details.{large_above as large_above_arguments, large_in, lacking};
ghost use Rattle.t1_chain.specs.Details.{large_told, missing, number_detail, points_told};
ghost use Rattle.t1_chain.specs.Details.{quotient_of, too_large, top_of};
ghost use Rattle.t1_chain.specs.Details.{unnamed as unnamed_of, wanted as wanted_by};

use crate::failure::Detail;
use crate::noted::Noted;
use crate::quotient::quotient_terms;
use std::alloc::{AllocError, Global};
use t1_code::Command;
use t1_frac::{Bytes, Code, Frac};
use t1_run::{Bodies, standard_glyph, takes};

/// So many values on the top, the lowest first, or all where there are fewer.
fn topmost(count: usize, values: &[Frac]) -> &[Frac]
    ensures { result.now ≡ topmost_of count values.now }
{
    values.split_at(values.len().saturating_sub(count)).1
}

/// Both of two values.
fn both(values: &[Frac]) -> Option<(Frac, Frac)>
    ensures { result ≡ both_of values.now }
{
    match values {
        [lower, upper] => Some((*lower, *upper)),
        _ => None,
    }
}

/// The value on the top.
fn top(values: &[Frac]) -> Option<Frac>
    ensures { result ≡ top_of values.now }
{
    values.last().copied()
}

/// Whether a value is past 32000 in size.
fn is_large(value: &Frac) -> bool
    ensures { result ≡ exceeds 32000 value.now }
{
    value.num().unsigned_abs() > 32000 * value.den().unsigned_abs()
}

/// The first value past 32000 in size.
fn first_large(values: &[Frac]) -> Option<&Frac>
    ensures { option_copied result ≡ large_in values.now }
{
    values.iter().find(|value| is_large(value))
}

/// The number of an othersubr past 32000 in size, else the count of its arguments.
fn large_above(operands: Option<(Frac, Frac)>) -> Option<Frac>
    ensures { result ≡ large_above_arguments operands }
{
    let Some((count, number)) = operands else {
        return None;
    };
    if is_large(&number) {
        return Some(number);
    }
    if is_large(&count) {
        return Some(count);
    }
    None
}

/// How many arguments an othersubr has, by their count and its number.
fn arguments(operands: Option<(Frac, Frac)>) -> usize
    ensures value { result ≡ arguments_by operands }
    ensures bound { result ≤ 2 ^ 63 }
{
    match operands {
        Some((count, _number)) => count.num().unsigned_abs() as usize,
        None => 0,
    }
}

/// How many values a command wants, of callothersubr with its arguments.
fn wanted(command: Command, values: &[Frac]) -> usize
    ensures { result ≡ wanted_by command values.now }
{
    match command {
        Command::CallOtherSubr => 2 + arguments(both(topmost(2, values))),
        _ => takes(command),
    }
}

/// The first operand past 32000 in size: of callothersubr the number comes first, then the count.
fn large_operand(command: Command, values: &[Frac]) -> Option<Frac>
    ensures { result ≡ too_large command values.now }
{
    match command {
        Command::CallOtherSubr => {
            let arguments = topmost(wanted(command, values), values);
            large_above(both(topmost(2, values))).or(first_large(arguments).copied())
        }
        _ => first_large(topmost(takes(command), values)).copied(),
    }
}

/// A number, where there is one.
fn number(value: Option<Frac>) -> Detail
    ensures { result ≡ number_detail value }
{
    match value {
        Some(value) => Detail::Number(value),
        None => Detail::Nothing,
    }
}

/// The quotient of two values; none by 0.
fn quotient(values: Option<(Frac, Frac)>) -> Detail
    ensures { result ≡ quotient_of values }
{
    let Some((dividend, divisor)) = values else {
        return Detail::Nothing;
    };
    if divisor.num() == 0 {
        return Detail::Nothing;
    }
    let (num, den) = quotient_terms(&dividend, &divisor);
    Detail::Quotient(num, den)
}

/// What of a command is too large: an operand past 32000 in size; of div its quotient.
fn large(command: Command, values: &[Frac]) -> Detail
    ensures { result ≡ large_told command values.now }
{
    match command {
        Command::Div => quotient(both(topmost(2, values))),
        _ => number(large_operand(command, values)),
    }
}

/// The code of seac's base, or of its accent, that has no name.
fn unnamed(codes: Option<(Frac, Frac)>) -> Detail
    ensures { result ≡ unnamed_of codes }
{
    match codes {
        Some((base, accent)) => {
            if standard_glyph(base.num()).is_none() {
                return Detail::Number(base);
            }
            Detail::Number(accent)
        }
        None => Detail::Nothing,
    }
}

/// A glyph by its name.
fn glyph(alloc: Global, name: &str) -> Result<Detail, AllocError>
    ensures { IfOk result (λ detail. detail ≡ Detail.Glyph name.now) }
{
    Ok(Detail::Glyph(Bytes::copied(alloc, name.as_bytes())?))
}

/// The base, or the accent, that the font lacks.
fn lacked<B: Bodies>(
    alloc: Global,
    bodies: &B,
    base: Option<&str>,
    accent: Option<&str>,
) -> Result<Detail, AllocError>
    ensures { IfOk result (λ detail.
        detail ≡ lacking (B.glyphs bodies.now)
        (option_map (λ name. name.now) base.entry)
        (option_map (λ name. name.now) accent.entry)) }
{
    let Some(base) = base else {
        return Ok(Detail::Nothing);
    };
    let Some(accent) = accent else {
        return Ok(Detail::Nothing);
    };
    if !bodies.has_glyph(base.as_bytes()) {
        return glyph(alloc, base);
    }
    glyph(alloc, accent)
}

/// The same by the codes of seac.
fn missing_part<B: Bodies>(
    alloc: Global,
    bodies: &B,
    codes: Option<(Frac, Frac)>,
) -> Result<Detail, AllocError>
    ensures { IfOk result (λ detail. detail ≡ missing (B.glyphs bodies.now) codes) }
{
    match codes {
        Some((base, accent)) => {
            lacked(
                alloc,
                bodies,
                standard_glyph(base.num()),
                standard_glyph(accent.num()),
            )
        }
        None => Ok(Detail::Nothing),
    }
}

/// The points of a flex, where one is open.
fn flex_points(points: Option<usize>) -> Detail
    ensures { result ≡ points_told points }
{
    match points {
        Some(points) => Detail::Points(points),
        None => Detail::Nothing,
    }
}

/// What a fault of a command says beside its code, by what was noted before the command.
#[tactic(auto, unfolding(crate::specs::Details::detail_of))]
pub fn detail_of<B: Bodies>(
    alloc: Global,
    bodies: &B,
    code: Code,
    command: Command,
    noted: &Noted,
) -> Result<Detail, AllocError>
    ensures { IfOk result (λ detail.
        detail
        ≡ detail_of_word (B.glyphs bodies.now) code command noted.now.stack.items
        noted.now.points) }
{
    let stack = noted.stack.as_slice();
    match code {
        Code::F30 => Ok(Detail::Values(stack.len(), wanted(command, stack))),
        Code::F32 | Code::F42 => Ok(number(top(stack))),
        Code::F37 => Ok(large(command, stack)),
        Code::F41 => Ok(flex_points(noted.points)),
        Code::F44 => Ok(unnamed(both(topmost(2, stack)))),
        Code::F45 => missing_part(alloc, bodies, both(topmost(2, stack))),
        _ => Ok(Detail::Nothing),
    }
}
