//! One word of a charstring.

ghost use Rattle.std.specs.Prelude.{◌≡◌, ◌∷◌, ◌+◌, ◌≤◌, List, OnOk, IfErr, IfSome, true, false};
ghost use Rattle.std.specs.Prelude.{None, length};
ghost use Rattle.t1_code.specs.declared.command.Command.{Command as CommandOf};
ghost use Rattle.t1_run.specs.Continuing.{Continues};
ghost use Rattle.t1_run.specs.Dispatch.{next_word_follows, pushes_value, sets_point};
ghost use Rattle.t1_run.specs.Run.{FontBodies};
ghost use Rattle.t1_frac.specs.Limits.{exceeds};
ghost use Rattle.t1_run.specs.Machine.{state_of, going_on, answered, asked_step, MakesStep};
ghost use Rattle.t1_run.specs.Operands.{topmost, below, takes as takes_of, is_whole};
ghost use Rattle.t1_run.specs.Operands.{operand_faults};
ghost use Rattle.t1_run.specs.Step.{push as push_of, pop_result as pop_of, divide as divide_of};
ghost use Rattle.t1_run.specs.Step.{call as call_of, Call, Compose, Fault, with_stack};
ghost use Rattle.t1_code.specs.declared.command.Command.TheVariants as Commands;
ghost use Rattle.t1_run.specs.Words.{step as step_of, execute as execute_of, rule as rule_of};
ghost use Rattle.t1_run.specs.Words.{draws as draws_of};

use crate::checks::{check_operands, draws_or_ends, needs_bearing, sets_bearing, takes};
use crate::halt::Halt;
use crate::outline::Accent;
use crate::state::{Control, State};
use t1_code::Command;
use t1_frac::{Code, Frac};

/// How many words a run executes.
const MAX_STEPS: u32 = 100_000;

/// The numbers that some commands begin with, where a div of both comes next, and the commands
/// after it.
#[inline(always)]
fn first_quotient(commands: &[Command]) -> Option<(i32, i32, &[Command])>
    ensures { IfSome result
        (λ found.
        commands.now
        ≡ Commands.Num found.0 ∷ Commands.Num found.1 ∷ Commands.Div ∷ found.2.now) }
{
    let Some((front, tail)) = commands.split_first_chunk::<3>() else {
        return None;
    };
    match front {
        [Command::Num(dividend), Command::Num(divisor), Command::Div] => {
            Some((*dividend, *divisor, tail))
        }
        _ => None,
    }
}

impl State {
    /// Pushes a value.
    #[inline(always)]
    fn push(&mut self, value: Frac) -> Result<(), Code>
        ensures reported { push_of value (state_of self.old)
            ≡ answered going_on result (state_of self.new) }
        ensures steps { self.new.steps ≡ self.old.steps }
    {
        if self.operands.as_slice().len() >= 24 {
            return Err(Code::F31);
        }
        self.operands.push(value);
        Ok(())
    }

    /// Takes a result.
    #[inline(always)]
    fn pop_result(&mut self) -> Result<(), Code>
        ensures reported { pop_of self.old.results (state_of self.old)
            ≡ answered going_on result (state_of self.new) }
        ensures steps { self.new.steps ≡ self.old.steps }
    {
        let Some(value) = self.results.pop() else {
            return Err(Code::F43);
        };
        self.push(value)
    }

    /// Puts the quotient in place of both values.
    #[inline(always)]
    fn divide(&mut self, dividend: Frac, divisor: Frac) -> Result<(), Code>
        requires { 2 ≤ length self.old.operands }
        ensures reported { divide_of dividend divisor (state_of self.old)
            ≡ answered going_on result (state_of self.new) }
        ensures steps { self.new.steps ≡ self.old.steps }
    {
        let quotient = dividend.div(&divisor)?;
        let bottom = self.operands.as_slice().len() - 2;
        self.operands.truncate(bottom);
        self.operands.push(quotient);
        Ok(())
    }

    /// The number of the Subr that is called, which it takes off the stack.
    #[inline(always)]
    fn call(&mut self, number: Frac) -> Result<u16, Code>
        requires some { 1 ≤ length self.old.operands }
        requires whole { is_whole number ≡ true }
        requires small { exceeds 32000 number ≡ false }
        ensures reported { call_of number.num
            (with_stack (below 1 (state_of self.old).stack) (state_of self.old))
            ≡ answered Call result (state_of self.new) }
        ensures steps { self.new.steps ≡ self.old.steps }
    {
        let number = number.num();
        if number < 0 {
            return Err(Code::F32);
        }
        let bottom = self.operands.as_slice().len() - 1;
        self.operands.truncate(bottom);
        Ok(number as u16)
    }

    /// What the glyph ends with as a composite.
    #[inline(always)]
    fn compose(&mut self) -> Accent
        requires { 5 ≤ length self.old.operands }
        ensures reported { rule_of Command.Seac (topmost 5 self.old.operands) (state_of self.old)
            ≡ Compose result (state_of self.new) }
        ensures steps { self.new.steps ≡ self.old.steps }
    {
        let [asb, adx, ady, base, accent] = self.operands.topmost::<5>();
        self.operands.clear();
        Accent {
            asb,
            adx,
            ady,
            base: base.num(),
            accent: accent.num(),
        }
    }

    /// A command that puts a value on the operand stack.
    #[inline(always)]
    fn compute(&mut self, command: Command) -> Result<(), Code>
        requires kind { pushes_value command ≡ true }
        requires enough { takes_of command ≤ length self.old.operands }
        ensures reported { rule_of command (topmost (takes_of command) self.old.operands)
            (state_of self.old)
            ≡ answered going_on result (state_of self.new) }
        ensures steps { self.new.steps ≡ self.old.steps }
    {
        match command {
            Command::Num(number) => self.push(Frac::whole(number)),
            Command::Pop => self.pop_result(),
            Command::Div => {
                let (dividend, divisor) = self.operands.top_two();
                self.divide(dividend, divisor)
            }
            _ => unreachable!(),
        }
    }

    /// The rule of a command after which the next word comes.
    #[inline(always)]
    fn carry_out(&mut self, command: Command) -> Result<(), Halt>
        requires kind { next_word_follows command ≡ true }
        requires enough { takes_of command ≤ length self.old.operands }
        ensures reported { MakesStep going_on
            (rule_of command (topmost (takes_of command) self.old.operands) (state_of self.old))
            result self.new }
        ensures steps { self.new.steps ≡ self.old.steps }
    {
        match command {
            Command::Num(_) | Command::Pop | Command::Div => Ok(self.compute(command)?),
            Command::CallOtherSubr => {
                let (count, number) = self.operands.top_two();
                self.call_other(count, number)
            }
            Command::RLineTo
            | Command::HLineTo
            | Command::VLineTo
            | Command::RRCurveTo
            | Command::VHCurveTo
            | Command::HVCurveTo => self.draw(command),
            Command::RMoveTo
            | Command::HMoveTo
            | Command::VMoveTo
            | Command::Hsbw
            | Command::Sbw
            | Command::SetCurrentPoint => Ok(self.place(command)?),
            Command::HStem
            | Command::VStem
            | Command::DotSection
            | Command::VStem3
            | Command::HStem3
            | Command::ClosePath => {
                self.operands.clear();
                Ok(())
            }
            _ => unreachable!(),
        }
    }

    /// The rule of a command that asks for more than the next word.
    #[inline(always)]
    fn ask(&mut self, command: Command) -> Result<Control, Code>
        requires kind { next_word_follows command ≡ false }
        requires enough { takes_of command ≤ length self.old.operands }
        requires faultless { operand_faults command (topmost (takes_of command) self.old.operands)
            ≡ None }
        ensures reported { rule_of command (topmost (takes_of command) self.old.operands)
            (state_of self.old)
            ≡ answered asked_step result (state_of self.new) }
        ensures steps { self.new.steps ≡ self.old.steps }
    {
        match command {
            Command::CallSubr => {
                let number = self.operands.top();
                Ok(Control::Call(self.call(number)?))
            }
            Command::Return => Ok(Control::Back),
            Command::Seac => Ok(Control::Compose(self.compose())),
            Command::EndChar => {
                self.operands.clear();
                Ok(Control::End)
            }
            _ => unreachable!(),
        }
    }

    /// The tests before the command's own rule, in their order.
    #[inline(always)]
    fn test(&self, command: Command) -> Result<(), Code>
        ensures enough { OnOk result (takes_of command ≤ length self.now.operands) }
        ensures faultless { OnOk result
            (operand_faults command (topmost (takes_of command) self.now.operands) ≡ None) }
        ensures passed { OnOk result
            (execute_of command (state_of self.now)
            ≡ rule_of command (topmost (takes_of command) self.now.operands)
            (state_of self.now)) }
        ensures refused { IfErr result
            (λ code. execute_of command (state_of self.now) ≡ Fault code) }
    {
        let values = self.operands.as_slice();
        let count = takes(command);
        if values.len() < count {
            return Err(Code::F30);
        }
        let needed = needs_bearing(command) && self.metric.is_none();
        if needed || (sets_bearing(command) && self.metric.is_some()) {
            return Err(Code::F36);
        }
        check_operands(command, &values[values.len() - count..])?;
        if draws_or_ends(command) && self.flex.is_some() {
            return Err(Code::F41);
        }
        Ok(())
    }

    /// A command after which the next word comes, by the order of its tests.
    #[inline(always)]
    fn execute(&mut self, command: Command) -> Result<(), Halt>
        requires kind { next_word_follows command ≡ true }
        ensures reported { MakesStep going_on (execute_of command (state_of self.old)) result
            self.new }
        ensures steps { self.new.steps ≡ self.old.steps }
    {
        self.test(command)?;
        self.carry_out(command)
    }

    /// The same for a command that sets the current point and draws nothing.
    #[inline(always)]
    fn execute_placing(&mut self, command: Command) -> Result<(), Halt>
        requires kind { sets_point command ≡ true }
        ensures reported { MakesStep going_on (execute_of command (state_of self.old)) result
            self.new }
        ensures steps { self.new.steps ≡ self.old.steps }
    {
        self.test(command)?;
        Ok(self.place(command)?)
    }

    #[inline(never)]
    fn r_line_to(&mut self) -> Result<(), Halt>
        ensures reported { MakesStep going_on (execute_of Commands.RLineTo (state_of self.old))
            result self.new }
        ensures steps { self.new.steps ≡ self.old.steps }
    {
        self.test(Command::RLineTo)?;
        self.rlineto()
    }

    #[inline(never)]
    fn h_line_to(&mut self) -> Result<(), Halt>
        ensures reported { MakesStep going_on (execute_of Commands.HLineTo (state_of self.old))
            result self.new }
        ensures steps { self.new.steps ≡ self.old.steps }
    {
        self.test(Command::HLineTo)?;
        self.hlineto()
    }

    #[inline(never)]
    fn v_line_to(&mut self) -> Result<(), Halt>
        ensures reported { MakesStep going_on (execute_of Commands.VLineTo (state_of self.old))
            result self.new }
        ensures steps { self.new.steps ≡ self.old.steps }
    {
        self.test(Command::VLineTo)?;
        self.vlineto()
    }

    #[inline(never)]
    fn rr_curve_to(&mut self) -> Result<(), Halt>
        ensures reported { MakesStep going_on (execute_of Commands.RRCurveTo (state_of self.old))
            result self.new }
        ensures steps { self.new.steps ≡ self.old.steps }
    {
        self.test(Command::RRCurveTo)?;
        self.rrcurveto()
    }

    #[inline(never)]
    fn vh_curve_to(&mut self) -> Result<(), Halt>
        ensures reported { MakesStep going_on (execute_of Commands.VHCurveTo (state_of self.old))
            result self.new }
        ensures steps { self.new.steps ≡ self.old.steps }
    {
        self.test(Command::VHCurveTo)?;
        self.vhcurveto()
    }

    #[inline(never)]
    fn hv_curve_to(&mut self) -> Result<(), Halt>
        ensures reported { MakesStep going_on (execute_of Commands.HVCurveTo (state_of self.old))
            result self.new }
        ensures steps { self.new.steps ≡ self.old.steps }
    {
        self.test(Command::HVCurveTo)?;
        self.hvcurveto()
    }

    #[inline(never)]
    fn r_move_to(&mut self) -> Result<(), Halt>
        ensures reported { MakesStep going_on (execute_of Commands.RMoveTo (state_of self.old))
            result self.new }
        ensures steps { self.new.steps ≡ self.old.steps }
    {
        self.execute_placing(Command::RMoveTo)
    }

    #[inline(never)]
    fn h_move_to(&mut self) -> Result<(), Halt>
        ensures reported { MakesStep going_on (execute_of Commands.HMoveTo (state_of self.old))
            result self.new }
        ensures steps { self.new.steps ≡ self.old.steps }
    {
        self.execute_placing(Command::HMoveTo)
    }

    #[inline(never)]
    fn v_move_to(&mut self) -> Result<(), Halt>
        ensures reported { MakesStep going_on (execute_of Commands.VMoveTo (state_of self.old))
            result self.new }
        ensures steps { self.new.steps ≡ self.old.steps }
    {
        self.execute_placing(Command::VMoveTo)
    }

    /// The same. The commands that fonts have most have functions of their own, in which the
    /// compiler knows which tests each of them has, and which rule comes after them.
    #[inline(always)]
    fn execute_by_name(&mut self, command: Command) -> Result<(), Halt>
        requires kind { next_word_follows command ≡ true }
        ensures reported { MakesStep going_on (execute_of command (state_of self.old)) result
            self.new }
        ensures steps { self.new.steps ≡ self.old.steps }
    {
        match command {
            Command::RLineTo => self.r_line_to(),
            Command::HLineTo => self.h_line_to(),
            Command::VLineTo => self.v_line_to(),
            Command::RRCurveTo => self.rr_curve_to(),
            Command::VHCurveTo => self.vh_curve_to(),
            Command::HVCurveTo => self.hv_curve_to(),
            Command::RMoveTo => self.r_move_to(),
            Command::HMoveTo => self.h_move_to(),
            Command::VMoveTo => self.v_move_to(),
            _ => self.execute(command),
        }
    }

    /// Pushes the numbers at the front of some commands that there is room for, while the run may
    /// make steps: the commands after them. Counts are kept in registers meanwhile.
    #[inline(always)]
    fn push_numbers<'a>(&mut self, commands: &'a [Command]) -> &'a [Command]
        ensures goes { (m : FontBodies) (own : List CommandOf) (waiting : List (List CommandOf))
            → Continues m own commands.now waiting (state_of self.old)
            → Continues m own result.now waiting (state_of self.new) }
        ensures kept { self.old.steps ≤ self.new.steps }
        ensures left { length result.now ≤ length commands.now }
    {
        let steps = MAX_STEPS.saturating_sub(self.steps) as usize;
        let room = 24 - self.operands.as_slice().len();
        let (count, rest) = self.operands.push_numbers(commands, room.min(steps));
        self.steps += count as u32;
        rest
    }

    /// Pushes the quotient of two numbers, as the three steps of both and of a div do. Where there
    /// is no room for these, or a fault, the state stays as it was.
    #[inline(always)]
    fn push_quotient(&mut self, dividend: i32, divisor: i32) -> bool
        ensures pushed { result ≡ true
            → (m : FontBodies) (own rest : List CommandOf) (waiting : List (List CommandOf))
            → Continues m own (Commands.Num dividend ∷ Commands.Num divisor ∷ Commands.Div ∷ rest)
            waiting (state_of self.old)
            → Continues m own rest waiting (state_of self.new) }
        ensures refused { result ≡ false → state_of self.new ≡ state_of self.old }
        ensures kept { self.old.steps ≤ self.new.steps }
    {
        if self.operands.as_slice().len() > 22 || self.steps > MAX_STEPS - 3 {
            return false;
        }
        let Ok(quotient) = Frac::whole(dividend).div(&Frac::whole(divisor)) else {
            return false;
        };
        self.operands.push(quotient);
        self.steps += 3;
        true
    }

    /// Pushes the quotients at the front of some commands, each of two numbers and a div, that
    /// there is room for and that have no fault, while the run may make steps: the commands after
    /// them. A font whose coordinates have fractions writes each of them so.
    #[inline(always)]
    fn push_quotients<'a>(&mut self, commands: &'a [Command]) -> &'a [Command]
        ensures goes { (m : FontBodies) (own : List CommandOf) (waiting : List (List CommandOf))
            → Continues m own commands.now waiting (state_of self.old)
            → Continues m own result.now waiting (state_of self.new) }
        ensures kept { self.old.steps ≤ self.new.steps }
        ensures left { length result.now ≤ length commands.now }
    {
        let mut rest = commands;
        'quotients: loop {
            let Some((dividend, divisor, tail)) = first_quotient(rest) else {
                return rest;
            };
            if !self.push_quotient(dividend, divisor) {
                return rest;
            }
            rest = tail;
        }
    }

    /// Pushes the quotients and the numbers that some commands begin with, as far as there is room
    /// for them and the run may make steps: the commands after them.
    #[inline(always)]
    pub fn push_values<'a>(&mut self, commands: &'a [Command]) -> &'a [Command]
        ensures goes { (m : FontBodies) (own : List CommandOf) (waiting : List (List CommandOf))
            → Continues m own commands.now waiting (state_of self.old)
            → Continues m own result.now waiting (state_of self.new) }
        ensures kept { self.old.steps ≤ self.new.steps }
        ensures left { length result.now ≤ length commands.now }
    {
        let others = self.push_quotients(commands);
        self.push_numbers(others)
    }

    /// A number: F47 where a run has made its last step already, then F31 past 24 values.
    #[inline(always)]
    pub fn step_by_number(&mut self, number: i32) -> Result<(), Halt>
        ensures reported { MakesStep going_on (step_of (Commands.Num number) (state_of self.old))
            result self.new }
        ensures counted { OnOk result (self.new.steps ≡ self.old.steps + 1) }
        ensures bounded { OnOk result (self.new.steps ≤ 100000) }
    {
        if self.steps >= MAX_STEPS {
            return Err(Halt::Fault(Code::F47));
        }
        self.steps += 1;
        Ok(self.push(Frac::whole(number))?)
    }

    /// A command after which the next word comes: F47 where a run has made its last step already.
    #[inline(always)]
    pub fn step_on(&mut self, command: Command) -> Result<(), Halt>
        requires kind { next_word_follows command ≡ true }
        ensures reported { MakesStep going_on (step_of command (state_of self.old)) result
            self.new }
        ensures counted { OnOk result (self.new.steps ≡ self.old.steps + 1) }
        ensures bounded { OnOk result (self.new.steps ≤ 100000) }
    {
        if self.steps >= MAX_STEPS {
            return Err(Halt::Fault(Code::F47));
        }
        self.steps += 1;
        self.execute_by_name(command)
    }

    /// A command that asks for more than the next word: F47 where a run has made its last step
    /// already.
    #[inline(always)]
    pub fn step_asking(&mut self, command: Command) -> Result<Control, Halt>
        requires kind { next_word_follows command ≡ false }
        ensures reported { MakesStep asked_step (step_of command (state_of self.old)) result
            self.new }
        ensures counted { OnOk result (self.new.steps ≡ self.old.steps + 1) }
        ensures bounded { OnOk result (self.new.steps ≤ 100000) }
    {
        if self.steps >= MAX_STEPS {
            return Err(Halt::Fault(Code::F47));
        }
        self.steps += 1;
        self.test(command)?;
        Ok(self.ask(command)?)
    }
}
