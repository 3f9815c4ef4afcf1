//! Every code, rule and status that the program answers, with its meaning: the one table of their
//! texts, a file for each section. Each section is handed out by a function of its own, since the
//! prover looks through a whole constant wherever it stands.

ghost use Rattle.std.specs.Prelude.{◌≡◌, map};
ghost use Rattle.t1_command_line.specs.Codes.{outline_of, of_program};

mod bodies;
mod disassembling;
mod kerning;
mod notes;
mod reading;
mod rules;
mod runs;
mod statuses;

use crate::topic::TopicGroup;

/// What stands above lines that cause a fault.
pub(crate) const FAULT_EXAMPLE: &str = "For example, this has the fault:\n\n";

/// All of them, each code once, in the order in which they are listed.
pub fn all_sections() -> [TopicGroup; 8]
    ensures { map outline_of result ≡ of_program }
{
    [
        reading::section(),
        kerning::section(),
        bodies::section(),
        runs::section(),
        disassembling::section(),
        notes::section(),
        rules::section(),
        statuses::section(),
    ]
}
