//! The rules of a session's commands.
ghost use Rattle.std.specs.Prelude.{◌≡◌};
ghost use Rattle.t1_command_line.specs.Codes.{outline_of, rules};

use crate::topic::{Topic, TopicGroup};

/// What stands above commands that break a rule.
const RULE_EXAMPLE: &str = "For example, this breaks the rule:\n\n";

const SECTION: TopicGroup = TopicGroup {
    title: "Rules of a session's commands",
    topics: &[
        Topic {
            code: "E1",
            meaning: "replace, remove or show: no such glyph or Subr",
            lead: RULE_EXAMPLE,
            text: "\tremove glyph B\n\
                \n\
                What to do: mend the name or number, or use add. 'print source' shows what there is.\n",
            note: "",
        },
        Topic {
            code: "E2",
            meaning: "add: there already",
            lead: RULE_EXAMPLE,
            text: "\tadd glyph A\n\
                \t0 250 hsbw endchar\n\
                \t.\n\
                \n\
                What to do: use replace, or another name or number.\n",
            note: "",
        },
        Topic {
            code: "E3",
            meaning: "a bad name",
            lead: RULE_EXAMPLE,
            text: "\tremove glyph a;b\n\
                \n\
                A name has 1 to 127 bytes from ! to ~, and none of ( ) < > [ ] { } / % ; so it is written\n\
                without the / of PostScript.\n\
                \n\
                What to do: mend the name.\n",
            note: "",
        },
        Topic {
            code: "E4",
            meaning: "not a number, or out of range",
            lead: RULE_EXAMPLE,
            text: "\tencode 256 A\n\
                \n\
                A number has an optional - and digits. Subrs are from 0 to 32000, codes from 0 to 255,\n\
                values of pairs from -32000 to 32000, lenIV from 0 to 64, and the bytes of a segment from\n\
                1 to 2147483647.\n\
                \n\
                What to do: mend the number.\n",
            note: "",
        },
        Topic {
            code: "E5",
            meaning: "the encoding is StandardEncoding",
            lead: RULE_EXAMPLE,
            text: "\tencode 65 A\n\
                \n\
                Only an encoding array can be edited.\n\
                \n\
                What to do: give the source an array in place of '/Encoding StandardEncoding def'.\n",
            note: "",
        },
        Topic {
            code: "E6",
            meaning: "{ or } in a body",
            lead: RULE_EXAMPLE,
            text: "\treplace glyph A\n\
                \t10 600 hsbw endchar }\n\
                \t.\n\
                \n\
                A body is given without its braces: the words alone, up to a line with a single dot.\n\
                \n\
                What to do: take the braces out. In a comment, after %, they do no harm.\n",
            note: "",
        },
        Topic {
            code: "E7",
            meaning: "the input ended inside a body",
            lead: RULE_EXAMPLE,
            text: "\treplace glyph A\n\
                \t10 600 hsbw endchar\n\
                \n\
                What to do: end the body with a line that holds a single dot.\n",
            note: "",
        },
        Topic {
            code: "E8",
            meaning: "an unknown command, or a wrong number of words",
            lead: RULE_EXAMPLE,
            text: "\tprint everything\n\
                \n\
                What to do: see 't1edit session --help' for the commands and their words.\n",
            note: "",
        },
        Topic {
            code: "E9",
            meaning: "the font has no Subrs section",
            lead: RULE_EXAMPLE,
            text: "\tadd subr 0\n\
                \treturn\n\
                \t.\n\
                \n\
                What to do: give the source a Subrs line before its CharStrings line, as '/Subrs 1 array'.\n",
            note: "",
        },
        Topic {
            code: "E10",
            meaning: "no such pair or slot",
            lead: RULE_EXAMPLE,
            text: "\tunkern A V\n\
                \n\
                unkern names a pair that isn't kerned, or unencode a code that no line of the encoding array\n\
                has.\n\
                \n\
                What to do: nothing, if it was to be gone. 'print kern' and 'print source' show what there is.\n",
            note: "",
        },
        Topic {
            code: "E11",
            meaning: "a batch is open already",
            lead: RULE_EXAMPLE,
            text: "\tbegin\n\
                \tbegin\n\
                \n\
                What to do: end the batch with commit or abort before the next one.\n",
            note: "",
        },
        Topic {
            code: "E12",
            meaning: "no batch is open",
            lead: RULE_EXAMPLE,
            text: "\tcommit\n\
                \n\
                commit or abort comes without a begin, or the batch has ended: a commit ends it also where it is\n\
                refused.\n\
                \n\
                What to do: begin a batch first.\n",
            note: "",
        },
    ],
};

pub(crate) fn section() -> TopicGroup
    ensures { outline_of result ≡ rules }
{
    SECTION
}
