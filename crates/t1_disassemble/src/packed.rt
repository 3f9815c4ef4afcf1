//! The lines of a source in memory, in which each charstring's words stand as its bytes.
ghost use Rattle.std.specs.Prelude.{◌≡◌, ◌+◌, ◌≤◌, ◌++◌, ◌∷◌, [], min, length, Ok, Err, OnOk};
ghost use Rattle.std.specs.Prelude.{MatchResult, OnErr, take, drop};
ghost use Rattle.t1_frac.specs.Ascii.{line_feed};
ghost use Rattle.t1_code.specs.Writing.{Puts};
ghost use Rattle.std.specs.Prelude.{◌||◌};
ghost use Rattle.t1_text.specs.Lines.{lines};
ghost use Rattle.t1_disassemble.specs.Kinds.{has_second, single_sections};
ghost use Rattle.t1_disassemble.specs.Packed.{packed_section_count};
ghost use Rattle.t1_disassemble.specs.SoundWords.{code_lines};
ghost use Rattle.t1_disassemble.specs.Words.{words_of};
ghost use Rattle.t1_parts.specs.Sections.{subrs_line, glyphs_line};

use crate::charstring::{push_words, put_words};
use crate::cipher::decipher_charstring;
use crate::fault::{FontCode, FontFault, FontPlace, FontRefusal};
use crate::front::past;
use crate::kinds::section_counts;
use crate::known::Known;
use crate::lines::Lines;
use crate::private::up_to;
use std::alloc::{AllocError, Global};
use std::io::{self, Write};
use std::marker::Model;
use t1_code::Outlet;

/// So many bytes of lines, and the charstring of so many bytes behind them.
#[derive(Clone, Copy, Debug)]
pub(crate) struct Cut {
    pub(crate) lines: usize,
    pub(crate) code: usize,
}

/// Lines and charstrings, in turn. A charstring takes a quarter of the memory of its words.
/// Contracts see the text of all.
#[derive(Drop)]
pub(crate) struct Packed {
    lines: Vec<u8>,
    codes: Vec<u8>,
    cuts: Vec<Cut>,
    cut: usize,
    subrs: usize,
    glyphs: usize,
    words: Vec<u8>,
}

impl Model for Packed {
    ghost use Rattle.std.specs.Prelude.{List, ℕ};
    ghost use Rattle.t1_disassemble.specs.Packed.{packed_text, IsPacked};

    ghost Value = { List ℕ };

    ghost view = { λ p. packed_text p.cuts.items p.lines.items p.codes.items };

    ghost invariant = { λ p.
        IsPacked p.cuts.items p.lines.items p.codes.items p.cut p.subrs p.glyphs };
}

/// Adds a line, of three parts. Where memory runs out some of it may stand there.
fn push_parts(
    text: &mut Vec<u8>,
    front: &[u8],
    middle: &[u8],
    back: &[u8],
) -> Result<(), AllocError>
    ensures ok { OnOk result (text.new.items
        ≡ text.old.items ++ (front.now ++ (middle.now ++ (back.now ++ line_feed ∷ [])))) }
    ensures kept { take (length text.old.items) text.new.items ≡ text.old.items }
{
    text.extend_from_slice(front)?;
    text.extend_from_slice(middle)?;
    text.extend_from_slice(back)?;
    text.push(b'\n')?;
    Ok(())
}

/// Adds a line, of three parts, or nothing where memory runs out.
pub(crate) fn push_line_of(
    text: &mut Vec<u8>,
    front: &[u8],
    middle: &[u8],
    back: &[u8],
) -> Result<(), AllocError>
    ensures ok { OnOk result (text.new.items
        ≡ text.old.items ++ (front.now ++ (middle.now ++ (back.now ++ line_feed ∷ [])))) }
    ensures err { OnErr result (text.new.items ≡ text.old.items) }
{
    let len = text.len();
    match push_parts(text, front, middle, back) {
        Ok(()) => Ok(()),
        Err(error) => {
            text.truncate(len);
            Err(error)
        }
    }
}

/// How many there are of which two are counted.
fn most_two(count: usize, more: usize) -> usize
    ensures { result ≡ min 2 (min 2 count + min 2 more) }
{
    (count.min(2) + more.min(2)).min(2)
}

/// Passes on some lines, and the words of the charstring behind them.
fn put_cut<W: Write>(
    known: &Known,
    outlet: &mut Outlet<W>,
    cut: &Cut,
    lines: &[u8],
    codes: &[u8],
) -> io::Result<()>
    ensures { Puts W.contents outlet.old outlet.new
        (take cut.now.lines lines.now ++ code_lines (take cut.now.code codes.now)) result }
{
    outlet.put(up_to(lines, cut.lines))?;
    put_words(known, outlet, up_to(codes, cut.code))
}

impl Packed {
    /// Nothing yet.
    pub(crate) fn new(alloc: Global) -> Packed
        ensures { result ≡ [] }
    {
        Packed {
            lines: Vec::new(alloc),
            codes: Vec::new(alloc),
            cuts: Vec::new(alloc),
            cut: 0,
            subrs: 0,
            glyphs: 0,
            words: Vec::new(alloc),
        }
    }

    /// Whether there are two Subrs lines.
    fn has_second_subrs(&self) -> bool
        ensures { result ≡ has_second subrs_line (lines self.now) }
    {
        1 < self.subrs
    }

    /// Whether there are two CharStrings lines.
    fn has_second_glyphs(&self) -> bool
        ensures { result ≡ has_second glyphs_line (lines self.now) }
    {
        1 < self.glyphs
    }

    /// Whether there are two Subrs lines or two CharStrings lines.
    fn has_second(&self) -> bool
        ensures { result
            ≡ (has_second subrs_line (lines self.now) || has_second glyphs_line (lines self.now)) }
    {
        let subrs = self.has_second_subrs();
        let glyphs = self.has_second_glyphs();
        subrs || glyphs
    }

    /// Two Subrs lines or two CharStrings lines are refused.
    #[tactic(auto, unfolding(crate::specs::Kinds::single_sections))]
    pub(crate) fn check_sections(&self) -> Result<(), FontFault>
        ensures { MatchResult
            result
            (λ _. single_sections self.now ≡ Ok self.now)
            (λ fault. single_sections self.now ≡ Err fault) }
    {
        if self.has_second() {
            return Err(FontFault {
                code: FontCode::D11,
                place: FontPlace::Nowhere,
            });
        }
        Ok(())
    }

    /// Passes on the text.
    pub(crate) fn put<W: Write>(&self, known: &Known, outlet: &mut Outlet<W>) -> io::Result<()>
        ensures { Puts W.contents outlet.old outlet.new self.now result }
    {
        let mut lines = self.lines.as_slice();
        let mut codes = self.codes.as_slice();
        let mut rest = self.cuts.as_slice();
        while let Some((cut, others)) = rest.split_first() {
            put_cut(known, outlet, cut, lines, codes)?;
            lines = past(lines, cut.lines);
            codes = past(codes, cut.code);
            rest = others;
        }
        outlet.put(lines)
    }
}

impl Lines for Packed {
    ghost text = { λ lines. lines };

    fn make_room(&mut self, private: usize) -> Result<(), AllocError> {
        self.codes.reserve(private)
    }

    fn add_line(&mut self, front: &[u8], middle: &[u8], back: &[u8]) -> Result<(), AllocError> {
        let start = self.lines.len();
        push_line_of(&mut self.lines, front, middle, back)?;
        let (subrs, glyphs) = section_counts(self.lines.split_at(start).1);
        self.subrs = most_two(self.subrs, subrs);
        self.glyphs = most_two(self.glyphs, glyphs);
        Ok(())
    }

    #[tactic(auto, unfolding(crate::specs::Words::words_of_encrypted))]
    fn add_words(
        &mut self,
        known: &Known,
        buffer: &mut Vec<u8>,
        lead: u8,
        bytes: &[u8],
    ) -> Result<(), FontRefusal> {
        let lead = usize::from(lead);
        if bytes.len() < lead {
            return Err(FontRefusal::from(FontCode::D6));
        }
        decipher_charstring(buffer, bytes)?;
        let code = buffer.split_at(lead).1;
        self.words.clear();
        push_words(known, &mut self.words, code)?;
        let (subrs, glyphs) = section_counts(&self.words);
        self.cuts.reserve(1)?;
        self.codes.extend_from_slice(code)?;
        self.cuts.push_reserved(Cut {
            lines: self.lines.len() - self.cut,
            code: code.len(),
        });
        self.cut = self.lines.len();
        self.subrs = most_two(self.subrs, subrs);
        self.glyphs = most_two(self.glyphs, glyphs);
        Ok(())
    }
}
