//! The notes on a source, which are no faults.
ghost use Rattle.std.specs.Prelude.{◌≡◌};
ghost use Rattle.t1_command_line.specs.Codes.{outline_of, note_codes};

use crate::topic::{Topic, TopicGroup};

/// What stands above lines that have a note.
const NOTE_EXAMPLE: &str = "For example, this has the note:\n\n";

const SECTION: TopicGroup = TopicGroup {
    title: "Notes on a source, by t1edit notes",
    topics: &[
        Topic {
            code: "byte-order-mark",
            meaning: "the text begins with a byte order mark",
            lead: "",
            text: "The bytes EF BB BF stand in front of '%!', where editors of Windows put them. They are kept\n\
                in the assembled font, which no program takes for a font then.\n\
                \n\
                What to do: save the text as UTF-8 without a byte order mark.\n",
            note: "",
        },
        Topic {
            code: "first-line",
            meaning: "the text begins with neither %!PS-AdobeFont nor %!FontType1",
            lead: NOTE_EXAMPLE,
            text: "\t%!\n\
                \n\
                Programs know a Type 1 font by these bytes at its very beginning.\n\
                \n\
                What to do: begin the text with '%!PS-AdobeFont-1.0: NAME VERSION'.\n",
            note: "",
        },
        Topic {
            code: "encoded-name",
            meaning: "a slot of the encoding array names a glyph that isn't there",
            lead: NOTE_EXAMPLE,
            text: "\t/Encoding 256 array\n\
                \tdup 66 /nosuch put\n\
                \treadonly def\n\
                \n\
                A text with this code shows nothing there.\n\
                \n\
                What to do: mend the name, add the glyph, or take the line out.\n",
            note: "",
        },
        Topic {
            code: "count",
            meaning: "the count of a section line is higher than its entries need",
            lead: NOTE_EXAMPLE,
            text: "\t2 index /CharStrings 900 dict dup begin\n\
                \n\
                Of Subrs the highest number plus one is needed, of glyphs their number up to the line 'end'. A\n\
                count that is too low is raised, so it has no note. One that is too high does no harm by itself:\n\
                mostly an entry was lost, of which another note tells.\n\
                \n\
                What to do: look for the lost entry, or lower the count.\n",
            note: "",
        },
        Topic {
            code: "plain-entry",
            meaning: "a line among the Subrs looks like an entry, and opens none",
            lead: NOTE_EXAMPLE,
            text: "\tdup 5\n\
                \t{\n\
                \treturn\n\
                \t} NP\n\
                \n\
                It begins with 'dup' or has a '{', also behind the closing line of the entry before; or it opens\n\
                a Subr, and no line '/Subrs N array' stands in the text. Only 'dup N {' on one line opens a Subr;\n\
                other lines are kept as they stand, and aren't encrypted as charstrings, so the font may not\n\
                open.\n\
                \n\
                What to do: put 'dup', the number and '{' on one line.\n",
            note: "",
        },
        Topic {
            code: "no-notdef",
            meaning: "no glyph is called .notdef",
            lead: "",
            text: "Each font has this glyph, which is shown for a code without glyph. Some programs refuse a font\n\
                without it.\n\
                \n\
                What to do: add '/.notdef {', '0 250 hsbw', 'endchar' and '} ND', each on a line.\n",
            note: "",
        },
        Topic {
            code: "no-entry",
            meaning: "a line among the glyphs belongs to no glyph",
            lead: NOTE_EXAMPLE,
            text: "\t/A\n\
                \t{\n\
                \t10 600 hsbw\n\
                \tendchar\n\
                \t} ND\n\
                \n\
                Only '/NAME {' on one line opens a glyph; other lines are kept as they stand, and aren't\n\
                encrypted as charstrings, so the font may not open. Of lines that follow one another the first\n\
                has the note.\n\
                \n\
                What to do: put '/', the name and '{' on one line, or take the lines out.\n",
            note: "",
        },
        Topic {
            code: "after-end",
            meaning: "a glyph stands after the 'end' of the glyphs",
            lead: NOTE_EXAMPLE,
            text: "\tend\n\
                \t/A {\n\
                \t10 600 hsbw\n\
                \tendchar\n\
                \t} ND\n\
                \n\
                It has its line in the AFM file, but no program finds it in the font.\n\
                \n\
                What to do: put it in front of the line 'end'.\n",
            note: "",
        },
        Topic {
            code: "values-left",
            meaning: "a command has more values in front of it than it takes",
            lead: NOTE_EXAMPLE,
            text: "\t/A {\n\
                \t10 600 hsbw\n\
                \t0 700\n\
                \t100 -700 rlineto\n\
                \tclosepath\n\
                \tendchar\n\
                \t} ND\n\
                \n\
                The values that it doesn't take are dropped, which may be the wrong ones: mostly the command that\n\
                was to take them was lost. The words of the body are looked at, not its run.\n\
                \n\
                What to do: put the lost command back, or take the values out.\n",
            note: "",
        },
        Topic {
            code: "wide-coordinate",
            meaning: "a command has a value past 16000",
            lead: NOTE_EXAMPLE,
            text: "\t/A {\n\
                \t10 600 hsbw\n\
                \t16001 hmoveto\n\
                \tendchar\n\
                \t} ND\n\
                \n\
                Values up to 32000 are taken here, in either direction; old interpreters may not take one past\n\
                16000. A value that large is mostly one with a digit too many.\n\
                \n\
                What to do: mend the value, or go a long way in several steps.\n",
            note: "",
        },
        Topic {
            code: "negative-width",
            meaning: "the width of a glyph is below 0",
            lead: NOTE_EXAMPLE,
            text: "\t/A {\n\
                \t10 -600 hsbw\n\
                \tendchar\n\
                \t} ND\n\
                \n\
                The second value of hsbw is the width; below 0 the text that follows is set to the left.\n\
                \n\
                What to do: take the sign off, or exchange the two values.\n",
            note: "",
        },
        Topic {
            code: "open-path",
            meaning: "a path isn't closed before a move or the end of the glyph",
            lead: NOTE_EXAMPLE,
            text: "\t/A {\n\
                \t10 600 hsbw\n\
                \t300 hlineto\n\
                \t700 vlineto\n\
                \tendchar\n\
                \t} ND\n\
                \n\
                It is filled as if it were closed, but stroked without its last line. The words of the body are\n\
                looked at, not its run: after a call of a Subr nothing is known of the path.\n\
                \n\
                What to do: put 'closepath' in front of the move or of 'endchar'.\n",
            note: "",
        },
        Topic {
            code: "no-such-glyph",
            meaning: "a pair of a kerning file names a glyph that isn't there",
            lead: NOTE_EXAMPLE,
            text: "\tKPX nosuch A -74\n\
                \n\
                It is told of the file that --kern names, where no glyph before the line 'end' of the source\n\
                has the name. The AFM file leaves out a pair of a glyph that isn't there, and nothing else says\n\
                so. A source without a section of glyphs has no such note.\n\
                \n\
                What to do: mend the name, add the glyph, or take the pair out.\n",
            note: "",
        },
        Topic {
            code: "unused-subr",
            meaning: "no glyph's run enters the Subr",
            lead: NOTE_EXAMPLE,
            text: "\tdup 5 {\n\
                \treturn\n\
                \t} NP\n\
                \n\
                Subrs 0 to 4 are there for flex and hint replacement, and have no such note. Of Subrs that\n\
                follow one another the first has the note. It is told of a source without a fault alone.\n\
                \n\
                What to do: look for a call that was lost, or whose number is wrong. Otherwise the Subr does no\n\
                harm: take it out where no Subr has a higher number.\n",
            note: "",
        },
        Topic {
            code: "font-box",
            meaning: "FontBBox isn't the box around the glyphs",
            lead: NOTE_EXAMPLE,
            text: "\t/FontBBox {0 -200 1000 800} readonly def\n\
                \n\
                Programs that go by this box cut off what stands out of it. The AFM file has the right one. Four\n\
                zeros say nothing, and have no such note. It is told of a source without a fault alone.\n\
                \n\
                What to do: write the numbers of the AFM file's FontBBox.\n",
            note: "",
        },
        Topic {
            code: "wide-glyph",
            meaning: "a glyph reaches past 16000",
            lead: NOTE_EXAMPLE,
            text: "\t/A {\n\
                \t10 600 hsbw\n\
                \t9000 vmoveto\n\
                \t9000 vlineto\n\
                \tclosepath\n\
                \tendchar\n\
                \t} ND\n\
                \n\
                Points up to 1048576 are taken here, in either direction; old interpreters may not take one past\n\
                16000. The note stands on the line that opens the glyph. It is told of a source without a fault\n\
                alone.\n\
                \n\
                What to do: look for a value with a digit too many.\n",
            note: "",
        },
    ],
};

pub(crate) fn section() -> TopicGroup
    ensures { outline_of result ≡ note_codes }
{
    SECTION
}
