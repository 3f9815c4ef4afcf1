//! callothersubr: flex, hint replacement and counter hints.

ghost use Rattle.std.specs.Prelude.{◌≡◌, ◌≤◌, ◌+◌, pos, true, length, [], ◌∷◌};
ghost use Rattle.t1_run.specs.Machine.{state_of, going_on, answered, MakesStep, effect_of};
ghost use Rattle.t1_run.specs.OtherSubrs.{is_supported as is_supported_of, start_flex as start_of};
ghost use Rattle.t1_run.specs.OtherSubrs.{add_flex as add_of, end_flex as end_of, other_effect};
ghost use Rattle.t1_run.specs.OtherSubrs.{other_with as with_of, other_subr as other_of};
ghost use Rattle.t1_run.specs.State.{State as States};

use crate::checks::{check_operand, check_sizes};
use crate::halt::Halt;
use crate::state::State;
use t1_frac::{Code, Frac};

/// What an othersubr does with its arguments.
#[derive(Clone, Copy)]
pub enum Effect {
    /// Ends the flex, with its height and the point that it ends at.
    EndFlex(Frac, Frac, Frac),
    StartFlex,
    RecordPoint,
    /// Leaves a value for pop, as hint replacement does.
    Leave(Frac),
    /// Leaves nothing, as counter hints do.
    Discard,
}

/// Whether an othersubr of this number takes so many arguments.
fn is_supported(number: i64, count: i64) -> bool
    ensures { result ≡ is_supported_of number count }
{
    matches!(
        (number, count),
        (0, 3) | (1 | 2, 0) | (3, 1) | (12 | 13, 0..=22)
    )
}

/// The effect of an othersubr on these arguments.
fn effect_on(number: usize, arguments: &[Frac]) -> Effect
    requires { is_supported_of (pos number) (pos (length arguments.now)) ≡ true }
    ensures { (s : States) → effect_of result s ≡ other_effect number arguments.now s }
{
    match (number, arguments) {
        (0, [height, x, y]) => Effect::EndFlex(*height, *x, *y),
        (1, _) => Effect::StartFlex,
        (2, _) => Effect::RecordPoint,
        (3, [value]) => Effect::Leave(*value),
        _ => Effect::Discard,
    }
}

impl State {
    /// Opens a flex at the current point.
    fn start_flex(&mut self) -> Result<(), Code>
        ensures reported { start_of (state_of self.old).flex (state_of self.old)
            ≡ answered going_on result (state_of self.new) }
        ensures steps { self.new.steps ≡ self.old.steps }
    {
        if self.flex.is_some() {
            return Err(Code::F41);
        }
        self.flex = Some(self.current);
        self.recorded.clear();
        self.results.clear();
        Ok(())
    }

    /// Records the current point for the flex.
    fn record_point(&mut self) -> Result<(), Code>
        ensures reported { add_of (state_of self.old).flex (state_of self.old)
            ≡ answered going_on result (state_of self.new) }
        ensures steps { self.new.steps ≡ self.old.steps }
    {
        if self.flex.is_none() || self.recorded.is_full() {
            return Err(Code::F41);
        }
        self.recorded.push(self.current);
        self.results.clear();
        Ok(())
    }

    /// Draws the flex and closes it.
    fn end_flex(&mut self, height: Frac, x: Frac, y: Frac) -> Result<(), Halt>
        ensures reported { MakesStep going_on
            (end_of (state_of self.old).flex (height ∷ x ∷ y ∷ []) (state_of self.old)) result
            self.new }
        ensures steps { self.new.steps ≡ self.old.steps }
    {
        let before = self.flex.ok_or(Code::F41)?;
        let [first, second] = self.recorded.curves(before).ok_or(Code::F41)?;
        self.segments.add(first)?;
        self.segments.add(second)?;
        self.flex = None;
        self.results.clear();
        self.results.push(y);
        self.results.push(x);
        Ok(())
    }
}

impl State {
    /// The othersubr's effect.
    fn perform(&mut self, effect: Effect) -> Result<(), Halt>
        ensures reported { MakesStep going_on (effect_of effect (state_of self.old)) result
            self.new }
        ensures steps { self.new.steps ≡ self.old.steps }
    {
        match effect {
            Effect::EndFlex(height, x, y) => self.end_flex(height, x, y),
            Effect::StartFlex => Ok(self.start_flex()?),
            Effect::RecordPoint => Ok(self.record_point()?),
            Effect::Leave(value) => {
                self.results.clear();
                self.results.push(value);
                Ok(())
            }
            Effect::Discard => {
                self.results.clear();
                Ok(())
            }
        }
    }

    /// The othersubr of this number, with so many arguments.
    fn call_with(&mut self, number: usize, count: usize) -> Result<(), Halt>
        requires small { count ≤ 22 }
        requires supported { is_supported_of (pos number) (pos count) ≡ true }
        ensures reported { MakesStep going_on (with_of number count (state_of self.old)) result
            self.new }
        ensures steps { self.new.steps ≡ self.old.steps }
    {
        let values = self.operands.as_slice();
        if values.len() < 2 + count {
            return Err(Halt::Fault(Code::F30));
        }
        let bottom = values.len() - (2 + count);
        let taken = &values[bottom..];
        let arguments = &taken[..count];
        check_sizes(arguments)?;
        let effect = effect_on(number, arguments);
        self.operands.truncate(bottom);
        self.perform(effect)
    }

    /// callothersubr, by the count of its arguments and its number.
    pub fn call_other(&mut self, count: Frac, number: Frac) -> Result<(), Halt>
        ensures reported { MakesStep going_on (other_of count number (state_of self.old)) result
            self.new }
        ensures steps { self.new.steps ≡ self.old.steps }
    {
        check_operand(true, &number)?;
        check_operand(true, &count)?;
        let number = number.num();
        let count = count.num();
        if !is_supported(number, count) {
            return Err(Halt::Fault(Code::F42));
        }
        self.call_with(number as usize, count as usize)
    }
}
