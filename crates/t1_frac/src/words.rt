ghost use Rattle.std.specs.Prelude.{◌≡◌, ◌≤◌, ◌<◌, [], ◌∷◌, ◌++◌, length, IfSome, MatchOption};
ghost use Rattle.std.specs.Prelude.{IfOk, OnOk, OnErr};
ghost use Rattle.std.specs.List.{prefix_len, position_or_len};
ghost use Rattle.t1_frac.specs.Words.{is_blank, trimmed_front, words};

use crate::source_text::SourceText;
use std::alloc::{AllocError, Global};
use std::marker::Model;

/// The words of an entry's body, kept as one run of bytes with blanks between them: those between
/// its braces, where they stand in the source that was read, or bytes of their own. Contracts see
/// the list of the words.
#[derive(Debug, Drop)]
pub struct Words<'a> {
    text: SourceText<'a>,
}

impl<'a> Model for Words<'a> {
    ghost use Rattle.std.specs.Prelude.{List, ℕ};
    ghost use Rattle.t1_frac.specs.Words.{words};

    ghost Value = { List (List ℕ) };

    ghost view = { λ run. words run.text };
}

impl<'a> Words<'a> {
    /// The words of these bytes, where they stand. It takes no memory.
    pub fn of(bytes: &'a [u8]) -> Self
        ensures { result ≡ words bytes.now }
    {
        Words {
            text: SourceText::borrowed(bytes),
        }
    }

    /// Bytes whose words these are, with blanks between them.
    pub fn as_bytes(&self) -> &[u8]
        ensures { words result.now ≡ self.now }
    {
        self.text.as_slice()
    }

    /// A copy. It takes no memory where the bytes are borrowed.
    pub fn copied(&self, alloc: Global) -> Result<Words<'a>, AllocError>
        ensures { IfOk result (λ copy. copy ≡ self.now) }
    {
        Ok(Words {
            text: self.text.copied(alloc)?,
        })
    }
}

/// Words that are put together line by line, in memory of their own. Contracts see the list of the
/// words.
#[derive(Drop)]
pub struct OwnedWords {
    bytes: Vec<u8>,
}

impl Model for OwnedWords {
    ghost use Rattle.std.specs.Prelude.{List, ℕ};
    ghost use Rattle.t1_frac.specs.Words.{words};

    ghost Value = { List (List ℕ) };

    ghost view = { λ run. words run.bytes.items };
}

impl OwnedWords {
    /// No words.
    pub fn new(alloc: Global) -> Self
        ensures { result ≡ [] }
    {
        OwnedWords {
            bytes: Vec::new(alloc),
        }
    }

    /// Adds the words of a line. Where memory runs out, they are the words as before.
    pub fn push_line(&mut self, line: &[u8]) -> Result<(), AllocError>
        ensures ok { OnOk result (self.new ≡ self.old ++ words line.now) }
        ensures err { OnErr result (self.new ≡ self.old) }
    {
        self.bytes.reserve(line.len() + 1)?;
        self.bytes.push(b' ')?;
        self.bytes.extend_from_slice(line)?;
        Ok(())
    }

    /// These words. It takes no memory.
    pub fn into_words<'a>(self) -> Words<'a>
        ensures { result ≡ self }
    {
        Words {
            text: SourceText::owned(self.bytes),
        }
    }
}

/// Whether a byte is a blank: 0, a tab, a line feed, a form feed, a carriage return or a space.
pub fn is_blank(byte: u8) -> bool
    ensures { result ≡ is_blank byte }
{
    byte <= b' ' && matches!(byte, 0 | 9 | 10 | 12 | 13 | 32)
}

/// How many blanks stand at the front.
pub fn blank_len(line: &[u8]) -> usize
    ensures within { result ≤ length line.now }
    ensures value { result ≡ prefix_len is_blank line.now }
{
    line.iter().take_while(|byte| is_blank(**byte)).count()
}

/// A line without the blanks at its front.
pub fn skip_blanks(line: &[u8]) -> &[u8]
    ensures { result.now ≡ trimmed_front line.now }
{
    line.split_at(blank_len(line)).1
}

/// How many bytes stand before the first blank.
fn word_len(line: &[u8]) -> usize
    ensures within { result ≤ length line.now }
    ensures value { result ≡ position_or_len is_blank line.now }
{
    line.iter().take_while(|byte| !is_blank(**byte)).count()
}

/// The first word of a line, and the bytes after it; nothing where the line has no word.
#[tactic(auto, using(crate::proofs::WordLaws::word_at, crate::proofs::WordLaws::word_shortens, crate::proofs::WordLaws::no_word_at))]
pub fn next_word(line: &[u8]) -> Option<(&[u8], &[u8])>
    ensures shorter { IfSome result (λ found. length found.1.now < length line.now) }
    ensures value { MatchOption
        result
        (words line.now ≡ [])
        (λ found. words line.now ≡ found.0.now ∷ words found.1.now) }
{
    let rest = skip_blanks(line);
    if rest.is_empty() {
        return None;
    }
    Some(rest.split_at(word_len(rest)))
}
