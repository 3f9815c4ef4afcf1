//! The faults of a body, and of the PFB file.
ghost use Rattle.std.specs.Prelude.{◌≡◌};
ghost use Rattle.t1_command_line.specs.Codes.{outline_of, body_codes};

use crate::table::FAULT_EXAMPLE;
use crate::topic::{Topic, TopicGroup};

/// What is said of each fault of a word.
const OF_A_WORD: &str =
    "\n't1edit faults SOURCE' shows each such word, with its line and its column.\n";

const SECTION: TopicGroup = TopicGroup {
    title: "Faults of a body, and of the PFB file",
    topics: &[
        Topic {
            code: "F20",
            meaning: "an unknown word",
            lead: FAULT_EXAMPLE,
            text: "\t/V { 15 722 hsbw 0 700 moveto endchar } ND\n\
                \n\
                A word of a body is a whole number, as 5 or -5, or one of the 25 commands of the Type 1\n\
                format:\n\
                callothersubr, callsubr, closepath, div, dotsection, endchar, hlineto, hmoveto, hsbw, hstem,\n\
                hstem3, hvcurveto, pop, return, rlineto, rmoveto, rrcurveto, sbw, seac, setcurrentpoint,\n\
                vhcurveto, vlineto, vmoveto, vstem, vstem3.\n\
                \n\
                What to do: write the word as the format has it: rmoveto for moveto, 5 for +5, and 11 2 div\n\
                for 5.5. Words stand between blanks: endchar% is read, endchar/x isn't.\n",
            note: OF_A_WORD,
        },
        Topic {
            code: "F21",
            meaning: "a number that doesn't fit 32 bits",
            lead: FAULT_EXAMPLE,
            text: "\t/V { 15 2147483648 hsbw endchar } ND\n\
                \n\
                A number of a charstring is from -2147483648 to 2147483647.\n\
                \n\
                What to do: mend the number. Most commands take no more than 32000.\n",
            note: OF_A_WORD,
        },
        Topic {
            code: "F22",
            meaning: "a body of more than 65,535 words",
            lead: FAULT_EXAMPLE,
            text: "\t/V { 15 722 hsbw\n\
                \t0 hmoveto % 32766 times in a row\n\
                \tendchar } ND\n\
                \n\
                A body has at most 65,535 words, as a string of PostScript has bytes.\n\
                \n\
                What to do: move parts that recur, or the second half, to Subrs.\n",
            note: "",
        },
        Topic {
            code: "F23",
            meaning: "a part of the PFB file of more than 2,147,483,647 bytes",
            lead: "",
            text: "The clear text, the private text and the trailer of the file are each at most so long,\n\
                since a PFB file holds lengths in 32 bits. A section with a count of more than nine digits\n\
                has this fault too. No line alone causes it. It takes a source of hundreds of megabytes, or\n\
                of tens where the font's reading operator has a long name and lenIV is large, since both\n\
                stand at each charstring.\n\
                \n\
                What to do: split the font.\n",
            note: "",
        },
    ],
};

pub(crate) fn section() -> TopicGroup
    ensures { outline_of result ≡ body_codes }
{
    SECTION
}
