//! What a command asks before its own rule.

ghost use Rattle.std.specs.Prelude.{◌≡◌, None, Some, MatchResult};
ghost use Rattle.std.specs.List.{list_any};
ghost use Rattle.t1_frac.specs.Limits.{exceeds as exceeds_limit};
ghost use Rattle.t1_run.specs.Operands.{takes as takes_of, is_whole as is_whole_of, operand_fault};
ghost use Rattle.t1_run.specs.Operands.{operand_faults, size_fault};
ghost use Rattle.t1_run.specs.Words.{draws_or_ends as draws_or_ends_of};
ghost use Rattle.t1_run.specs.Words.{needs_bearing as needs_bearing_of};
ghost use Rattle.t1_run.specs.Words.{sets_bearing as sets_bearing_of};

use t1_code::Command;
use t1_frac::{Code, Frac};

/// How many values a command takes.
#[inline(always)]
pub fn takes(command: Command) -> usize
    ensures { result ≡ takes_of command }
{
    match command {
        Command::Num(_)
        | Command::ClosePath
        | Command::Return
        | Command::EndChar
        | Command::DotSection
        | Command::Pop => 0,
        Command::VMoveTo
        | Command::HLineTo
        | Command::VLineTo
        | Command::CallSubr
        | Command::HMoveTo => 1,
        Command::HStem
        | Command::VStem
        | Command::RLineTo
        | Command::Hsbw
        | Command::RMoveTo
        | Command::Div
        | Command::CallOtherSubr
        | Command::SetCurrentPoint => 2,
        Command::VHCurveTo | Command::HVCurveTo | Command::Sbw => 4,
        Command::Seac => 5,
        Command::RRCurveTo | Command::VStem3 | Command::HStem3 => 6,
    }
}

/// Whether it is refused while a flex is open.
#[inline(always)]
pub fn draws_or_ends(command: Command) -> bool
    ensures { result ≡ draws_or_ends_of command }
{
    matches!(
        command,
        Command::RLineTo
            | Command::HLineTo
            | Command::VLineTo
            | Command::RRCurveTo
            | Command::VHCurveTo
            | Command::HVCurveTo
            | Command::Seac
            | Command::EndChar
    )
}

/// Whether it needs the side bearing.
#[inline(always)]
pub fn needs_bearing(command: Command) -> bool
    ensures { result ≡ needs_bearing_of command }
{
    match command {
        Command::ClosePath | Command::RMoveTo | Command::HMoveTo | Command::VMoveTo => true,
        _ => draws_or_ends(command),
    }
}

/// Whether it sets the side bearing.
#[inline(always)]
pub fn sets_bearing(command: Command) -> bool
    ensures { result ≡ sets_bearing_of command }
{
    matches!(command, Command::Hsbw | Command::Sbw)
}

/// Whether its size is past the limit.
#[inline(always)]
fn exceeds(limit: u32, value: &Frac) -> bool
    ensures { result ≡ exceeds_limit limit value.now }
{
    if is_whole(value) {
        let limit = i64::from(limit);
        return value.num() < -limit || value.num() > limit;
    }
    value.num().unsigned_abs() > u64::from(limit) * value.den().unsigned_abs()
}

#[inline(always)]
fn is_whole(value: &Frac) -> bool
    ensures { result ≡ is_whole_of value.now }
{
    value.den() == 1
}

/// One operand.
#[inline(always)]
pub fn check_operand(whole: bool, value: &Frac) -> Result<(), Code>
    ensures { MatchResult
        result
        (λ _. operand_fault whole value.now ≡ None)
        (λ code. operand_fault whole value.now ≡ Some code) }
{
    if whole && !is_whole(value) {
        return Err(Code::F48);
    }
    if exceeds(32000, value) {
        return Err(Code::F37);
    }
    Ok(())
}

#[inline(always)]
fn has_large(values: &[Frac]) -> bool
    ensures { result ≡ list_any (exceeds_limit 32000) values.now }
{
    values.iter().any(|value| exceeds(32000, value))
}

/// Operands none of which has to be whole.
#[inline(always)]
pub fn check_sizes(values: &[Frac]) -> Result<(), Code>
    ensures { MatchResult result (λ _. size_fault values.now ≡ None)
        (λ code. size_fault values.now ≡ Some code) }
{
    if has_large(values) {
        return Err(Code::F37);
    }
    Ok(())
}

/// The operands of a command.
#[inline(always)]
pub fn check_operands(command: Command, operands: &[Frac]) -> Result<(), Code>
    ensures { MatchResult
        result
        (λ _. operand_faults command operands.now ≡ None)
        (λ code. operand_faults command operands.now ≡ Some code) }
{
    match (command, operands) {
        (Command::Div | Command::CallOtherSubr, _) => Ok(()),
        (Command::CallSubr, [number]) => check_operand(true, number),
        (Command::Seac, [asb, adx, ady, base, accent]) => {
            check_sizes(&[*asb, *adx, *ady])?;
            check_operand(true, base)?;
            check_operand(true, accent)
        }
        _ => check_sizes(operands),
    }
}
