//! What the texts of a call have to do with an input, and the verdict on a source with the list of
//! its faults.
ghost use Rattle.std.specs.Prelude.{◌≡◌, ◌++◌, ℕ, Bool, List, [], true, Ok};
ghost use Rattle.t1_commands.specs.Commands.{input_commands};
ghost use Rattle.t1_fault_texts.specs.Rows.{fault_rows};
ghost use Rattle.t1_calls.specs.Framing.{call_commands, framed, is_call};
ghost use Rattle.t1_calls.specs.Judging.{verdict};

/// The texts of a call as input are its command, or none where the line has no words, in front of
/// those of the input that comes after.
pub fn input_of_a_call_is_its_command()
    ensures { (ended : Bool) (line body rest : List ℕ) → is_call line body ≡ true →
        input_commands ended (framed line body ++ rest) ≡
        call_commands line body ++ input_commands ended rest }
{}

/// A source and its pairs that pass have no line of faults.
pub fn none_where_it_passes()
    ensures { (source kerning : List ℕ) → verdict source kerning ≡ Ok tt →
        fault_rows source kerning ≡ [] }
{}

/// Where there is no line of faults, they pass.
pub fn passes_where_none()
    ensures { (source kerning : List ℕ) → fault_rows source kerning ≡ [] →
        verdict source kerning ≡ Ok tt }
{}
