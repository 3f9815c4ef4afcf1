//! The faults of running a glyph.
ghost use Rattle.std.specs.Prelude.{◌≡◌};
ghost use Rattle.t1_command_line.specs.Codes.{outline_of, run_codes};

use crate::table::FAULT_EXAMPLE;
use crate::topic::{Topic, TopicGroup};

/// What is said of each fault of a run.
const OF_A_RUN: &str = "\n\
    The glyph that is reported is the one whose run has the fault. Where it is a composite, one that\n\
    ends in seac, it may stand on the faulty glyph: look at its parts too, and at the Subrs that they\n\
    call. 't1edit faults SOURCE' shows the word itself, its line, and the calls on the way to it.\n";

const SECTION: TopicGroup = TopicGroup {
    title: "Faults of running a glyph",
    topics: &[
        Topic {
            code: "F30",
            meaning: "too few operands",
            lead: FAULT_EXAMPLE,
            text: "\t/V { 15 722 hsbw 5 rlineto endchar } ND\n\
                \n\
                A command has fewer values before it than it takes. Most commands use up all values, so\n\
                none are left of the line before.\n\
                \n\
                What to do: give the command its values; here 5 0 rlineto, or 5 hlineto.\n",
            note: OF_A_RUN,
        },
        Topic {
            code: "F31",
            meaning: "more than 24 values",
            lead: FAULT_EXAMPLE,
            text: "\t/V { 1 2 3 4 5 6 7 8 9 10 11 12 13 14 15 16 17 18 19 20 21 22 23 24 25 hsbw endchar } ND\n\
                \n\
                The stack of operands holds 24 values.\n\
                \n\
                What to do: look for a command that is missing among the numbers.\n",
            note: OF_A_RUN,
        },
        Topic {
            code: "F32",
            meaning: "no such Subr",
            lead: FAULT_EXAMPLE,
            text: "\t/V { 15 722 hsbw 40 callsubr endchar } ND\n\
                \n\
                The glyph, or a Subr that it calls, calls a Subr that the font lacks, or a negative number.\n\
                \n\
                What to do: add the Subr, or mend the number before callsubr.\n",
            note: OF_A_RUN,
        },
        Topic {
            code: "F33",
            meaning: "Subrs nested more than ten deep",
            lead: FAULT_EXAMPLE,
            text: "\tdup 3 { 3 callsubr return } NP\n\
                \t/V { 15 722 hsbw 3 callsubr endchar } ND\n\
                \n\
                While ten Subrs wait for their return, an eleventh is called; here Subr 3 calls itself.\n\
                \n\
                What to do: write one of the inner Subrs out where it is called.\n",
            note: OF_A_RUN,
        },
        Topic {
            code: "F34",
            meaning: "return outside a Subr",
            lead: FAULT_EXAMPLE,
            text: "\t/V { 15 722 hsbw return } ND\n\
                \n\
                Only a Subr returns.\n\
                \n\
                What to do: end the body of a glyph with endchar, or with seac.\n",
            note: OF_A_RUN,
        },
        Topic {
            code: "F35",
            meaning: "no endchar",
            lead: FAULT_EXAMPLE,
            text: "\t/V { 15 722 hsbw 10 hlineto closepath } ND\n\
                \n\
                The body of the glyph ended, and neither endchar nor seac had ended its run. The endchar\n\
                may stand in a Subr that the glyph calls.\n\
                \n\
                What to do: put endchar at the end.\n",
            note: OF_A_RUN,
        },
        Topic {
            code: "F36",
            meaning: "the side bearing is missing or set twice",
            lead: FAULT_EXAMPLE,
            text: "\t/V { 0 700 rmoveto endchar } ND\n\
                \n\
                A glyph begins with hsbw or sbw, before it moves, draws or ends, and has one of them.\n\
                \n\
                What to do: begin the glyph with its side bearing and width, as 15 722 hsbw, and take out\n\
                any other.\n",
            note: OF_A_RUN,
        },
        Topic {
            code: "F37",
            meaning: "an operand or a quotient is too large",
            lead: FAULT_EXAMPLE,
            text: "\t/V { 15 722 hsbw 40000 hmoveto endchar } ND\n\
                \n\
                Operands are from -32000 to 32000. Those of div may be larger, and its quotient is at most\n\
                2147483648 in size.\n\
                \n\
                What to do: go a long way in several steps, or bring the glyph to a smaller grid.\n",
            note: OF_A_RUN,
        },
        Topic {
            code: "F38",
            meaning: "division by zero",
            lead: FAULT_EXAMPLE,
            text: "\t/V { 15 722 hsbw 1 0 div hmoveto endchar } ND\n\
                \n\
                What to do: mend the second of the two values before div.\n",
            note: OF_A_RUN,
        },
        Topic {
            code: "F39",
            meaning: "a fraction is too fine",
            lead: FAULT_EXAMPLE,
            text: "\t/V { 15 722 hsbw 1 2000000 div hmoveto endchar } ND\n\
                \n\
                Fractions are kept exactly, with denominators of at most 1,048,576, in a quotient and in\n\
                each coordinate. Sums of different fractions get larger ones.\n\
                \n\
                What to do: use smaller denominators, and few different ones.\n",
            note: OF_A_RUN,
        },
        Topic {
            code: "F40",
            meaning: "a coordinate is too large",
            lead: FAULT_EXAMPLE,
            text: "\t/V { 15 722 hsbw\n\
                \t32000 hmoveto % 33 times in a row\n\
                \tendchar } ND\n\
                \n\
                A coordinate, or the move of an accent, is at most 1,048,576 in size.\n\
                \n\
                What to do: look for a move or a line with a wrong value.\n",
            note: OF_A_RUN,
        },
        Topic {
            code: "F41",
            meaning: "a flex out of order",
            lead: FAULT_EXAMPLE,
            text: "\t/V { 15 722 hsbw 1 callsubr 10 hlineto endchar } ND\n\
                \n\
                A flex is started (othersubr 1, usually by Subr 1), gets seven points by moves (othersubr 2,\n\
                usually by Subr 2), and is ended (othersubr 0, usually by Subr 0). No line, curve, seac or\n\
                endchar may come in between, nor a second start.\n\
                \n\
                What to do: complete the flex, or draw it as two curves.\n",
            note: OF_A_RUN,
        },
        Topic {
            code: "F42",
            meaning: "an othersubr that isn't supported, or with another count of arguments",
            lead: FAULT_EXAMPLE,
            text: "\t/V { 15 722 hsbw 0 14 callothersubr endchar } ND\n\
                \n\
                Supported are 0 with 3 arguments, 1 and 2 with none, 3 with 1, and 12 and 13 with 0 to 22.\n\
                What others do depends on PostScript code in the font: 14 to 18 are those of multiple\n\
                master fonts.\n\
                \n\
                What to do: mend the two numbers before callothersubr. Of a multiple master font, make an\n\
                instance first.\n",
            note: OF_A_RUN,
        },
        Topic {
            code: "F43",
            meaning: "pop without a value",
            lead: FAULT_EXAMPLE,
            text: "\t/V { 15 722 hsbw pop endchar } ND\n\
                \n\
                pop takes what the last callothersubr left: 0 leaves two values, 3 leaves one, others none.\n\
                \n\
                What to do: take the pop out, or put the callothersubr before it.\n",
            note: OF_A_RUN,
        },
        Topic {
            code: "F44",
            meaning: "a code of seac without a name",
            lead: FAULT_EXAMPLE,
            text: "\t/V { 15 722 hsbw 0 0 0 1 32 seac } ND\n\
                \n\
                The last two values before seac are the codes of the base and the accent in\n\
                StandardEncoding, whatever the font's own encoding is. 149 codes have a name there:\n\
                32 space, 33 exclam, 34 quotedbl, 35 numbersign, 36 dollar, 37 percent, 38 ampersand,\n\
                39 quoteright, 40 parenleft, 41 parenright, 42 asterisk, 43 plus, 44 comma, 45 hyphen,\n\
                46 period, 47 slash, 48 zero, 49 one, 50 two, 51 three, 52 four, 53 five, 54 six, 55 seven,\n\
                56 eight, 57 nine, 58 colon, 59 semicolon, 60 less, 61 equal, 62 greater, 63 question,\n\
                64 at, 65 A, 66 B, 67 C, 68 D, 69 E, 70 F, 71 G, 72 H, 73 I, 74 J, 75 K, 76 L, 77 M, 78 N,\n\
                79 O, 80 P, 81 Q, 82 R, 83 S, 84 T, 85 U, 86 V, 87 W, 88 X, 89 Y, 90 Z, 91 bracketleft,\n\
                92 backslash, 93 bracketright, 94 asciicircum, 95 underscore, 96 quoteleft, 97 a, 98 b,\n\
                99 c, 100 d, 101 e, 102 f, 103 g, 104 h, 105 i, 106 j, 107 k, 108 l, 109 m, 110 n, 111 o,\n\
                112 p, 113 q, 114 r, 115 s, 116 t, 117 u, 118 v, 119 w, 120 x, 121 y, 122 z, 123 braceleft,\n\
                124 bar, 125 braceright, 126 asciitilde, 161 exclamdown, 162 cent, 163 sterling,\n\
                164 fraction, 165 yen, 166 florin, 167 section, 168 currency, 169 quotesingle,\n\
                170 quotedblleft, 171 guillemotleft, 172 guilsinglleft, 173 guilsinglright, 174 fi, 175 fl,\n\
                177 endash, 178 dagger, 179 daggerdbl, 180 periodcentered, 182 paragraph, 183 bullet,\n\
                184 quotesinglbase, 185 quotedblbase, 186 quotedblright, 187 guillemotright, 188 ellipsis,\n\
                189 perthousand, 191 questiondown, 193 grave, 194 acute, 195 circumflex, 196 tilde,\n\
                197 macron, 198 breve, 199 dotaccent, 200 dieresis, 202 ring, 203 cedilla, 205 hungarumlaut,\n\
                206 ogonek, 207 caron, 208 emdash, 225 AE, 227 ordfeminine, 232 Lslash, 233 Oslash, 234 OE,\n\
                235 ordmasculine, 241 ae, 245 dotlessi, 248 lslash, 249 oslash, 250 oe, 251 germandbls.\n\
                \n\
                What to do: use the codes of StandardEncoding, or draw both parts in place of seac.\n",
            note: OF_A_RUN,
        },
        Topic {
            code: "F45",
            meaning: "a part of seac is missing",
            lead: FAULT_EXAMPLE,
            text: "\t/V { 15 722 hsbw 0 0 0 66 194 seac } ND\n\
                \n\
                StandardEncoding names the base and the accent, here B and acute, and the font lacks one of\n\
                them.\n\
                \n\
                What to do: add the missing glyph, or draw it in place of seac.\n",
            note: OF_A_RUN,
        },
        Topic {
            code: "F46",
            meaning: "composites nested more than four deep",
            lead: FAULT_EXAMPLE,
            text: "\t/V { 15 722 hsbw 0 0 0 86 194 seac } ND\n\
                \n\
                A part of a composite may be a composite, up to four levels of them; here V is a part of\n\
                itself, without end.\n\
                \n\
                What to do: build the inner composite of simple glyphs.\n",
            note: OF_A_RUN,
        },
        Topic {
            code: "F47",
            meaning: "too many steps",
            lead: FAULT_EXAMPLE,
            text: "\tdup 3 {\n\
                \t0 hmoveto % 30000 times in a row\n\
                \treturn } NP\n\
                \t/V { 15 722 hsbw 3 callsubr 3 callsubr endchar } ND\n\
                \n\
                A run of a glyph executes at most 100,000 numbers and commands, those in Subrs with it.\n\
                Each part of a composite is a run of its own.\n\
                \n\
                What to do: look for Subrs that call Subrs many times, and simplify the outline.\n",
            note: OF_A_RUN,
        },
        Topic {
            code: "F48",
            meaning: "a whole number is wanted",
            lead: FAULT_EXAMPLE,
            text: "\t/V { 15 722 hsbw 1 2 div callsubr endchar } ND\n\
                \n\
                The number of a Subr, the number of an othersubr, the count of its arguments and the codes\n\
                of seac are whole numbers.\n\
                \n\
                What to do: mend the div whose quotient is used there.\n",
            note: OF_A_RUN,
        },
    ],
};

pub(crate) fn section() -> TopicGroup
    ensures { outline_of result ≡ run_codes }
{
    SECTION
}
