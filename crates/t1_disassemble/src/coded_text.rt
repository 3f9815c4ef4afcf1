//! The lines of a source in memory, and the charstrings of which words among them were made.
ghost use Rattle.std.specs.Prelude.{◌≡◌, ◌≤◌, true, length, IfSome};
ghost use Rattle.t1_frac.specs.Words.{words};
ghost use Rattle.t1_disassemble.specs.CodedTexts.{IsCodeOf};

use crate::charstring::push_words;
use crate::cipher::decipher_charstring;
use crate::fault::{FontCode, FontRefusal};
use crate::known::Known;
use crate::lines::Lines;
use crate::packed::push_line_of;
use std::alloc::{AllocError, Global};
use std::marker::Model;
use t1_frac::{Words, next_word, skip_blanks};

/// About how many times as long as a font's private text its lines are in the source.
const LENGTHS: usize = 4;

/// How many words a body may have.
const MAX_WORDS: usize = 65_535;

/// Where the words of a charstring stand in the text, and where its bytes stand among those of all
/// charstrings.
#[derive(Clone, Copy, Debug)]
pub(crate) struct CodedBody {
    pub(crate) words: usize,
    pub(crate) words_end: usize,
    pub(crate) code: usize,
    pub(crate) code_end: usize,
}

/// The text of a font's source, with the bytes of the font's charstrings, of which the words of its
/// bodies were made. Contracts see the text.
#[derive(Drop)]
pub struct CodedText {
    text: Vec<u8>,
    codes: Vec<u8>,
    bodies: Vec<CodedBody>,
}

impl Model for CodedText {
    ghost use Rattle.std.specs.Prelude.{List, ℕ, All};
    ghost use Rattle.t1_disassemble.specs.CodedTexts.{IsCodedBody};

    ghost Value = { List ℕ };

    ghost view = { λ coded. coded.text.items };

    ghost invariant = { λ coded.
        All (IsCodedBody coded.text.items coded.codes.items) coded.bodies.items };
}

/// Whether two texts have the same words, as far as that is seen at once: the first stands at the
/// front of the second, but for blanks, and no word comes after it.
fn have_same_words(one: &[u8], other: &[u8]) -> bool
    ensures { result ≡ true → words one.now ≡ words other.now }
{
    let kept = skip_blanks(one);
    let rest = skip_blanks(other);
    if rest.len() < kept.len() {
        return false;
    }
    let (front, behind) = rest.split_at(kept.len());
    if front != kept {
        return false;
    }
    let None = next_word(behind) else {
        return false;
    };
    true
}

impl CodedText {
    /// Some lines, of which none were made of a charstring.
    pub(crate) fn after(alloc: Global, lines: Vec<u8>) -> CodedText
        ensures { result ≡ lines.items }
    {
        CodedText {
            text: lines,
            codes: Vec::new(alloc),
            bodies: Vec::new(alloc),
        }
    }

    /// The text.
    pub fn as_bytes(&self) -> &[u8]
        ensures { result.now ≡ self.now }
    {
        &self.text
    }

    /// The text alone.
    pub fn into_bytes(self) -> Vec<u8>
        ensures { result.items ≡ self }
    {
        self.text
    }

    /// The charstring that was added at a turn, where the words that were made of it are those of a
    /// body, and not too many.
    pub(crate) fn code_of(&self, turn: usize, body: &Words) -> Option<&[u8]>
        ensures code { IfSome result (λ code. IsCodeOf body.now code.now) }
        ensures few { IfSome result (λ _. length body.now ≤ 65535) }
    {
        let bytes = body.as_bytes();
        if MAX_WORDS < bytes.len() {
            return None;
        }
        let Some(coded) = self.bodies.get(turn) else {
            return None;
        };
        let text = &self.text[coded.words..coded.words_end];
        if !have_same_words(text, bytes) {
            return None;
        }
        Some(&self.codes[coded.code..coded.code_end])
    }
}

impl Lines for CodedText {
    ghost text = { λ lines. lines };

    fn make_room(&mut self, private: usize) -> Result<(), AllocError> {
        self.codes.reserve(private)?;
        self.text.reserve(private.saturating_mul(LENGTHS))
    }

    fn add_line(&mut self, front: &[u8], middle: &[u8], back: &[u8]) -> Result<(), AllocError> {
        push_line_of(&mut self.text, front, middle, back)
    }

    #[tactic(auto, unfolding(crate::specs::Words::words_of_encrypted))]
    fn add_words(
        &mut self,
        known: &Known,
        buffer: &mut Vec<u8>,
        lead: u8,
        bytes: &[u8],
    ) -> Result<(), FontRefusal> {
        let lead = usize::from(lead);
        if bytes.len() < lead {
            return Err(FontRefusal::from(FontCode::D6));
        }
        decipher_charstring(buffer, bytes)?;
        let charstring = buffer.split_at(lead).1;
        self.bodies.reserve(1)?;
        let code = self.codes.len();
        self.codes.extend_from_slice(charstring)?;
        let words = self.text.len();
        if let Err(refusal) = push_words(known, &mut self.text, charstring) {
            self.bodies.clear();
            return Err(refusal);
        }
        self.bodies.push_reserved(CodedBody {
            words,
            words_end: self.text.len(),
            code,
            code_end: self.codes.len(),
        });
        Ok(())
    }
}
