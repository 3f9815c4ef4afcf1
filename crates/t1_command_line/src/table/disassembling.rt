//! The faults of disassembling a font's file.
ghost use Rattle.std.specs.Prelude.{◌≡◌};
ghost use Rattle.t1_command_line.specs.Codes.{outline_of, disassembling};

use crate::table::FAULT_EXAMPLE;
use crate::topic::{Topic, TopicGroup};

/// What stands above the first bytes of a file that has a fault.
const FILE_EXAMPLE: &str =
    "For example, a file that begins with these bytes, in hexadecimal, has the fault:\n\n";

/// What stands above a line of a font's clear text that causes a fault.
const CLEAR_EXAMPLE: &str = "For example, this line of the clear text has the fault:\n\n";

/// What stands above a line of a font's private text that causes a fault.
const PRIVATE_EXAMPLE: &str =
    "For example, this line of the private text, which eexec encrypts, has the fault:\n\n";

/// What stands above the bytes of a charstring that cause a fault.
const CHARSTRING_EXAMPLE: &str =
    "For example, a charstring of these bytes, in hexadecimal and decrypted, has the fault:\n\n";

const SECTION: TopicGroup = TopicGroup {
    title: "Faults of disassembling a font's file",
    topics: &[
        Topic {
            code: "D1",
            meaning: "no line of the clear text ends in 'currentfile eexec'",
            lead: FAULT_EXAMPLE,
            text: "\tcurrentfile eexec% private\n\
                \n\
                The clear text of a PFB file is its segments of text before the first binary\n\
                one; that of another file ends with the first line that ends in these two words,\n\
                with one space between them. Where no line does, it ends with the first two such\n\
                words that a space follows: the encrypted part begins on their line.\n\
                \n\
                What to do: see that the file is a Type 1 font, and whole. An OpenType or\n\
                TrueType font isn't one.\n",
            note: "",
        },
        Topic {
            code: "D2",
            meaning: "a segment of the PFB file is cut off, or of no type",
            lead: FILE_EXAMPLE,
            text: "\t80 04 00 00 00 00\n\
                \n\
                A file whose first byte is 128 is a PFB file. Each of its segments begins with\n\
                this byte and a type: 1 for text, 2 for binary bytes, or 3 for the end. After 1\n\
                and 2 follows the number of its bytes, in four bytes, the lowest first. The\n\
                place is the number of bytes in front of the segment.\n\
                \n\
                What to do: get the file anew, as a binary file. One that lacks its last bytes\n\
                was cut off.\n",
            note: "",
        },
        Topic {
            code: "D3",
            meaning: "another byte stands among the hexadecimal digits",
            lead: FAULT_EXAMPLE,
            text: "\t6e5b1f!0\n\
                \n\
                The encrypted part of a PFA file is hexadecimal digits, with blanks between\n\
                them. Another byte ends it, here before the private text has ended. The place is\n\
                the number of bytes of the file in front of that byte.\n\
                \n\
                What to do: get the file anew. One that an editor or a mail program has changed\n\
                is lost.\n",
            note: "",
        },
        Topic {
            code: "D4",
            meaning: "no line of the private text ends in 'mark currentfile closefile'",
            lead: PRIVATE_EXAMPLE,
            text: "\tcurrentfile closefile\n\
                \n\
                The private text ends with the first line that ends in these three words, with\n\
                one space between each two; they may stand on two lines, one after the other.\n\
                \n\
                What to do: get the file anew, if it was cut off. A font that ends its private\n\
                text by other words isn't read.\n",
            note: "",
        },
        Topic {
            code: "D5",
            meaning: "an entry's length goes past the encrypted part",
            lead: PRIVATE_EXAMPLE,
            text: "\t/V 9999 RD\n\
                \n\
                A Subr stands after 'dup', its number, a length and RD, a glyph after its name,\n\
                a length and RD; then follow one space and so many bytes. RD may have another\n\
                name, as -|.\n\
                \n\
                What to do: get the file anew, if it was cut off; else the program that wrote it\n\
                has to be mended.\n",
            note: "",
        },
        Topic {
            code: "D6",
            meaning: "a charstring is shorter than lenIV",
            lead: PRIVATE_EXAMPLE,
            text: "\t/V 3 RD abc ND\n\
                \n\
                lenIV bytes stand in front of each charstring: as many as the line with /lenIV\n\
                says, else four.\n\
                \n\
                What to do: the program that wrote the font has to be mended.\n",
            note: "",
        },
        Topic {
            code: "D7",
            meaning: "bytes of a charstring are no command",
            lead: CHARSTRING_EXAMPLE,
            text: "\t8b 8b 0d 0f\n\
                \n\
                The bytes 0, 2, 15 to 20 and 23 to 29 are no commands; after a 12 only 0, 1, 2,\n\
                6, 7, 12, 16, 17 and 33 make one.\n\
                \n\
                What to do: see that the font is of type 1, and that what /lenIV says is true of\n\
                it.\n",
            note: "",
        },
        Topic {
            code: "D8",
            meaning: "a number of a charstring is cut off",
            lead: CHARSTRING_EXAMPLE,
            text: "\t8b 8b 0d ff 00\n\
                \n\
                A number has one byte where that is from 32 to 246, two where the first is from\n\
                247 to 254, and five where it is 255. The last one has fewer.\n\
                \n\
                What to do: see that the lengths of entries are right, and that what /lenIV says\n\
                is true of the font.\n",
            note: "",
        },
        Topic {
            code: "D9",
            meaning: "lenIV isn't a number from 0 to 64",
            lead: PRIVATE_EXAMPLE,
            text: "\t/lenIV 65 def\n\
                \n\
                It is what follows /lenIV in the first line that has it, before the first Subrs\n\
                or CharStrings line.\n\
                \n\
                What to do: have the program that wrote the font write it with lenIV 4.\n",
            note: "",
        },
        Topic {
            code: "D10",
            meaning: "lenIV is -1: the charstrings aren't encrypted",
            lead: PRIVATE_EXAMPLE,
            text: "\t/lenIV -1 def\n\
                \n\
                A font says so whose charstrings stand there as they are. Such a font isn't\n\
                read.\n\
                \n\
                What to do: write the font anew with encrypted charstrings, as 'tx -t1' does, by\n\
                which lenIV is 4 unless '-e' says another number.\n",
            note: "",
        },
        Topic {
            code: "D11",
            meaning: "a second Subrs line or a second CharStrings line",
            lead: PRIVATE_EXAMPLE,
            text: "\t/CharStrings 1 dict dup begin\n\
                \n\
                The line stands in the private text after another one of its kind. A synthetic\n\
                font has two sets of Subrs or of CharStrings, of which a printer takes the one\n\
                that it needs; a source has one of each.\n\
                \n\
                What to do: write the font anew with one set of each, as 'tx -t1' does.\n",
            note: "",
        },
        Topic {
            code: "D12",
            meaning: "a multiple master font",
            lead: CLEAR_EXAMPLE,
            text: "\t/WeightVector [0.5 0.5] def\n\
                \n\
                The outlines of such a font depend on weights, by othersubrs of its own, and it\n\
                has no metrics without them. The place is the number of bytes of the file in\n\
                front of /WeightVector.\n\
                \n\
                What to do: make an instance of it, with the weights that are wanted, as\n\
                'mmpfb --weight=400 font.pfb' does.\n",
            note: "",
        },
        Topic {
            code: "D13",
            meaning: "a CID-keyed font",
            lead: CLEAR_EXAMPLE,
            text: "\t/CIDFontName /Demo def\n\
                \n\
                The glyphs of such a font have numbers in place of names, and stand in binary\n\
                data that isn't laid out as a private text is. The place is the number of bytes\n\
                of the file in front of /CIDFontName.\n\
                \n\
                What to do: make a font with named glyphs of it, as 'tx -t1 -decid' does.\n",
            note: "",
        },
        Topic {
            code: "D14",
            meaning: "an entry that the source would lose, or read where the font has none",
            lead: PRIVATE_EXAMPLE,
            text: "\t/A 8#11 RD\n\
                \n\
                An entry stands outside its section: a Subr before the Subrs line or among the\n\
                glyphs, a glyph before the CharStrings line. Or a line would be an entry in the\n\
                source and is none in the font, as /B {def} def behind the glyphs. Or the\n\
                operator that reads charstrings, mostly RD, stands outside an entry's head, which\n\
                is '/NAME LENGTH RD' or 'dup NUMBER LENGTH RD' on one line, with a length in\n\
                decimal digits. Or such a head has another word than this operator. Or the\n\
                encrypted part is closed before an entry on its line. Without a place the line\n\
                with the operator has no name on it.\n\
                \n\
                What to do: write the font anew in the common layout, as 'tx -t1' does.\n",
            note: "",
        },
        Topic {
            code: "D15",
            meaning: "a Subrs line whose count is over 0, and no Subr behind it",
            lead: PRIVATE_EXAMPLE,
            text: "\t/Subrs 5 array\n\
                \n\
                A Subr is 'dup NUMBER LENGTH RD' and its bytes. RD is the operator that the first\n\
                line with 'string currentfile' defines, before the first section, or RD where no\n\
                line does. Entries by another operator aren't found.\n\
                \n\
                What to do: write the font anew in the common layout, as 'tx -t1' does.\n",
            note: "",
        },
        Topic {
            code: "D16",
            meaning: "a CharStrings line whose count is over 0, and no glyph behind it",
            lead: PRIVATE_EXAMPLE,
            text: "\t/CharStrings 5 dict dup begin\n\
                \n\
                A glyph is '/NAME LENGTH RD' and its bytes. RD is the operator that the first\n\
                line with 'string currentfile' defines, before the first section, or RD where no\n\
                line does. Entries by another operator aren't found.\n\
                \n\
                What to do: write the font anew in the common layout, as 'tx -t1' does.\n",
            note: "",
        },
        Topic {
            code: "D17",
            meaning: "the source would say another RD or lenIV than the font is read by",
            lead: PRIVATE_EXAMPLE,
            text: "\t/lenIV 0 def\n\
                \n\
                It stands behind the first section line, where a reader of the font has read\n\
                Subrs or glyphs already; a source says lenIV, and the operator that reads\n\
                charstrings, for all of them, by its first line that does. So they have to be\n\
                said before the first section, each on a line of its own.\n\
                \n\
                What to do: write the font anew in the common layout, as 'tx -t1' does.\n",
            note: "",
        },
    ],
};

pub(crate) fn section() -> TopicGroup
    ensures { outline_of result ≡ disassembling }
{
    SECTION
}
