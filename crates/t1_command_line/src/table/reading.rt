//! The faults of reading a source.
ghost use Rattle.std.specs.Prelude.{◌≡◌};
ghost use Rattle.t1_command_line.specs.Codes.{outline_of, reading};

use crate::table::FAULT_EXAMPLE;
use crate::topic::{Topic, TopicGroup};

const SECTION: TopicGroup = TopicGroup {
    title: "Faults of reading a source",
    topics: &[
        Topic {
            code: "F1",
            meaning: "no line ends in 'currentfile eexec'",
            lead: FAULT_EXAMPLE,
            text: "\tcurrentfile eexec % private\n\
                \n\
                The clear part of a font ends with the first line that ends in these two words, with one\n\
                space between them. Other bytes may stand before them, and only blanks after them.\n\
                \n\
                What to do: let the line end there, and give a comment a line of its own. The PFB, PFA or\n\
                raw file of a font isn't a source: give --font, or make a source of it by 't1edit\n\
                disassemble'.\n",
            note: "",
        },
        Topic {
            code: "F2",
            meaning: "no line ends in 'mark currentfile closefile'",
            lead: FAULT_EXAMPLE,
            text: "\tcurrentfile closefile\n\
                \n\
                The private part of a font ends with the first line after the clear part that ends in these\n\
                three words, with one space between each two. Other bytes may stand before them, and only\n\
                blanks after them.\n\
                \n\
                What to do: write the three words at the end of one line. A source that was cut off lacks\n\
                the line; so does the PFB, PFA or raw file of a font, which isn't a source: give --font, or\n\
                make a source of it by 't1edit disassemble'.\n",
            note: "",
        },
        Topic {
            code: "F3",
            meaning: "no CharStrings section",
            lead: FAULT_EXAMPLE,
            text: "\t/CharStrings 1 array dup begin\n\
                \n\
                The glyphs follow a line of the private part that holds /CharStrings, a number of at most\n\
                nine digits, and dict, one after another.\n\
                \n\
                What to do: write these three on one line, before the first glyph. Where t1disasm wrote them\n\
                on several, take the font's PFB, PFA or raw file in place of the source: give --font, or make\n\
                a source of it by 't1edit disassemble'.\n",
            note: "",
        },
        Topic {
            code: "F4",
            meaning: "a second section of a kind, or sections in the wrong order",
            lead: FAULT_EXAMPLE,
            text: "\t/CharStrings 1 dict dup begin\n\
                \t/Subrs 0 array\n\
                \n\
                A font has at most one Subrs line and exactly one CharStrings line, in this order, and no\n\
                line is both.\n\
                \n\
                What to do: put the Subrs first. Of a font with several sets of Subrs or of CharStrings,\n\
                keep one set of each.\n",
            note: "",
        },
        Topic {
            code: "F5",
            meaning: "no encoding, or one of another kind",
            lead: FAULT_EXAMPLE,
            text: "\t/Encoding ISOLatin1Encoding def\n\
                \n\
                One line of the clear part begins with /Encoding. It is '/Encoding StandardEncoding def',\n\
                or the first line of an array, as '/Encoding 256 array', whose last line ends in def.\n\
                \n\
                What to do: write any other encoding as an array with a line 'dup CODE /NAME put' for\n\
                each code.\n",
            note: "",
        },
        Topic {
            code: "F6",
            meaning: "a line of the encoding array isn't understood",
            lead: FAULT_EXAMPLE,
            text: "\t/Encoding 256 array\n\
                \tdup 65 /A put dup 66 /B put\n\
                \treadonly def\n\
                \n\
                In an encoding array a line that begins with dup is 'dup CODE /NAME put' and nothing more.\n\
                CODE is from 0 to 255, in decimal, or in octal after 8#.\n\
                \n\
                What to do: give each code a line of its own, and mend the code or the name.\n",
            note: "",
        },
        Topic {
            code: "F7",
            meaning: "an entry without its end",
            lead: FAULT_EXAMPLE,
            text: "\t/space { 0 250 hsbw endchar ND\n\
                \n\
                The body of a Subr or glyph goes from { to the first }. It holds no other {, and ends\n\
                before the line that ends the private part. The line that is reported is the first of the\n\
                entry.\n\
                \n\
                What to do: look for the missing } after that line.\n",
            note: "",
        },
        Topic {
            code: "F8",
            meaning: "a bad name or number of an entry",
            lead: FAULT_EXAMPLE,
            text: "\t/space;1 { 0 250 hsbw endchar } ND\n\
                \n\
                The name of a glyph has 1 to 127 bytes from ! to ~, and none of ( ) < > [ ] { } / % ;\n\
                The number of a Subr is from 0 to 32000.\n\
                \n\
                What to do: rename the glyph, or renumber the Subr and the calls of it.\n",
            note: "",
        },
        Topic {
            code: "F9",
            meaning: "a Subr's number again",
            lead: FAULT_EXAMPLE,
            text: "\t/Subrs 1 array\n\
                \tdup 0 {return} NP\n\
                \tdup 0 {return} NP\n\
                \n\
                Two Subrs have one number. The line that is reported is the first of the later one.\n\
                \n\
                What to do: take one of them out, or give it another number.\n",
            note: "",
        },
        Topic {
            code: "F10",
            meaning: "a glyph's name again",
            lead: FAULT_EXAMPLE,
            text: "\t/space { 0 250 hsbw endchar } ND\n\
                \t/space { 0 300 hsbw endchar } ND\n\
                \n\
                Two glyphs have one name. The line that is reported is the first of the later one.\n\
                \n\
                What to do: take one of them out, or give it another name.\n",
            note: "",
        },
        Topic {
            code: "F11",
            meaning: "lenIV isn't a number from 0 to 64",
            lead: FAULT_EXAMPLE,
            text: "\t/lenIV -1 def\n\
                \n\
                lenIV says how many bytes stand in front of each charstring of the assembled font. -1,\n\
                for charstrings that aren't encrypted, isn't supported.\n\
                \n\
                What to do: write '/lenIV 4 def', or take the line out. A source holds charstrings as\n\
                words, so nothing else has to change.\n",
            note: "",
        },
    ],
};

pub(crate) fn section() -> TopicGroup
    ensures { outline_of result ≡ reading }
{
    SECTION
}
