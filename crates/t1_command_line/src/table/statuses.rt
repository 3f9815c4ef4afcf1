//! The exit statuses, which tell a command line that is refused, too.
ghost use Rattle.std.specs.Prelude.{◌≡◌};
ghost use Rattle.t1_command_line.specs.Codes.{outline_of, statuses};

use crate::topic::{Topic, TopicGroup};

const SECTION: TopicGroup = TopicGroup {
    title: "Exit statuses",
    topics: &[
        Topic {
            code: "0",
            meaning: "done",
            lead: "",
            text: "All was written. A session ends with 0 too where some of its commands were refused: its\n\
                answers say so.\n",
            note: "",
        },
        Topic {
            code: "1",
            meaning: "the source, the kerning file or the font has a fault",
            lead: "",
            text: "Standard error has the first fault, its code and its place, as 't1edit: F38 glyph Aacute',\n\
                'F22 subr 7', 'F7 line 5', 'D3 byte 812' or 'F1'. Lines are counted from 1. Nothing was written.\n\
                t1edit faults ends so where there are faults, and t1edit notes --strict where there are notes;\n\
                both write them on standard output.\n\
                \n\
                What to do: 't1edit explain CODE' says it, and 't1edit faults SOURCE' shows the place.\n",
            note: "",
        },
        Topic {
            code: "2",
            meaning: "the command line isn't one of the program's",
            lead: "",
            text: "Nothing was read. Standard error says what is wrong.\n\
                \n\
                What to do: see 't1edit --help'.\n",
            note: "",
        },
        Topic {
            code: "3",
            meaning: "reading or writing failed",
            lead: "",
            text: "Standard error has 't1edit: read failed' or 't1edit: write failed'; of faults, of notes and of\n\
                several sources the name of the file stands in place of t1edit. What was written to\n\
                standard output by then is a beginning of the whole; a file that -o names is as it was, unless\n\
                it is a device or a pipe.\n\
                \n\
                What to do: see that the files are there and may be read, and that there is room to write.\n\
                A run that is killed leaves what it wrote beside the file of -o, as font.pfb.t1edit-4711,\n\
                which may be removed once that run, the process 4711, is over.\n",
            note: "",
        },
        Topic {
            code: "4",
            meaning: "memory ran out",
            lead: "",
            text: "Standard error has 't1edit: out of memory'. A session may go on after 'refused memory', which\n\
                answers a command for which there wasn't memory enough: nothing is changed then, but that a\n\
                commit has closed its batch.\n\
                \n\
                What to do: give the program more memory, or split the font.\n",
            note: "",
        },
    ],
};

pub(crate) fn section() -> TopicGroup
    ensures { outline_of result ≡ statuses }
{
    SECTION
}
