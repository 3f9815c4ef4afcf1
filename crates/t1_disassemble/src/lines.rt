//! Where the lines of a private text are put: a text, or lines beside charstrings as their bytes.
ghost use Rattle.std.specs.Prelude.{◌≡◌, ◌++◌, ◌∷◌, [], false, OnOk};
ghost use Rattle.t1_frac.specs.Ascii.{line_feed};
ghost use Rattle.t1_text.specs.Lines.{joined};
ghost use Rattle.t1_disassemble.specs.Outcome.{GivesFont, font_reported_at};
ghost use Rattle.t1_disassemble.specs.Words.{words_of_encrypted};
ghost use Rattle.t1_disassemble.specs.WordsOnto.{words_onto};
ghost use Rattle.t1_disassemble.specs.declared.fault.FontPlace.TheVariants.{Nowhere};

use crate::fault::FontRefusal;
use crate::known::Known;
use std::alloc::AllocError;
use t1_frac::Bytes;

/// Lines that are put one behind another.
pub(crate) trait Lines {
    ghost use Rattle.std.specs.Prelude.{List, ℕ};

    ghost text: { Self → List ℕ };

    /// Makes room for the lines of a private text of so many bytes.
    fn make_room(&mut self, private: usize) -> Result<(), AllocError>
        ensures { OnOk result (text self.new ≡ text self.old) };

    /// Adds a line, of three parts.
    fn add_line(&mut self, front: &[u8], middle: &[u8], back: &[u8]) -> Result<(), AllocError>
        ensures { OnOk result (text self.new
            ≡ text self.old ++ (front.now ++ (middle.now ++ (back.now ++ line_feed ∷ [])))) };

    /// Adds the lines of an encrypted charstring's words; the buffer's memory serves all
    /// charstrings of a font. At a fault and where memory runs out some of the lines may stand
    /// there.
    fn add_words(
        &mut self,
        known: &Known,
        buffer: &mut Vec<u8>,
        lead: u8,
        bytes: &[u8],
    ) -> Result<(), FontRefusal>
        ensures { GivesFont
            (λ _. text self.new)
            result
            (font_reported_at Nowhere (words_onto (text self.old) false
            (words_of_encrypted lead bytes.now))) };
}

/// Adds some lines.
pub(crate) fn add_lines<T: Lines>(text: &mut T, lines: &[Bytes]) -> Result<(), AllocError>
    ensures { OnOk result (T.text text.new ≡ T.text text.old ++ joined lines.now) }
{
    let mut rest = lines;
    while let Some((line, after)) = rest.split_first() {
        text.add_line(line.as_slice(), b"", b"")?;
        rest = after;
    }
    Ok(())
}
