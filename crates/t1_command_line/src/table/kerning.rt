//! The faults of reading a kerning file.
ghost use Rattle.std.specs.Prelude.{◌≡◌};
ghost use Rattle.t1_command_line.specs.Codes.{outline_of, kerning};

use crate::table::FAULT_EXAMPLE;
use crate::topic::{Topic, TopicGroup};

const SECTION: TopicGroup = TopicGroup {
    title: "Faults of reading a kerning file",
    topics: &[
        Topic {
            code: "F12",
            meaning: "a KPX line isn't understood",
            lead: FAULT_EXAMPLE,
            text: "\tKPX A V -9.5\n\
                \n\
                A line whose first word is KPX is 'KPX LEFT RIGHT N': two names of glyphs, and a whole\n\
                number from -32000 to 32000.\n\
                \n\
                What to do: round values that aren't whole, and take out what follows the number.\n",
            note: "",
        },
        Topic {
            code: "F13",
            meaning: "a form of kerning that isn't supported",
            lead: FAULT_EXAMPLE,
            text: "\tKPH <41> <56> 10 0\n\
                \n\
                Lines whose first word is KP, KPH, KPY or StartKernPairs1 kern along y, by codes, or in\n\
                another direction of writing. They aren't skipped, since the metrics would lack them.\n\
                \n\
                What to do: write the pairs as KPX lines, or take these lines out.\n",
            note: "",
        },
    ],
};

pub(crate) fn section() -> TopicGroup
    ensures { outline_of result ≡ kerning }
{
    SECTION
}
