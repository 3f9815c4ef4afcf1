//! Words of charstrings that are known by the byte that they begin with.
ghost use Rattle.std.specs.Prelude.{◌≡◌, ◌<◌, ◌≤◌, ◌+◌, ◌==◌, ◌-ℤ◌, pos, true, false, ℕ, Bool};
ghost use Rattle.std.specs.Prelude.{length, take, nat_eq, IfSome, List, Some, Ok};
ghost use Rattle.std.specs.Map.{lookup};
ghost use Rattle.t1_frac.specs.Numbers.{is_number_word};
ghost use Rattle.t1_disassemble.specs.KnownWords.{IsKnown, HasBlank};
ghost use Rattle.t1_disassemble.specs.Words.{one_byte_words};
ghost use Rattle.t1_disassemble.specs.WordsOnto.{put_first};

use crate::charstring::one_byte_word;
use crate::waiting::{ROOM, put_blank, put_byte, put_bytes, put_front, put_number};
use std::alloc::{AllocError, Global};
use std::marker::Model;

/// How many bytes a word takes at most, with the end of its line.
const ROOM_OF_A_WORD: usize = 16;

/// How many words there are, one for each byte.
const BYTES: usize = 256;

/// The word that a byte is by itself: a command or a number of one byte. The blank before the next
/// word stands after its text.
#[derive(Drop)]
pub(crate) struct KnownWord {
    first: u8,
    is_number: bool,
    len: usize,
    bytes: [u8; ROOM_OF_A_WORD],
}

impl Model for KnownWord {
    ghost use Rattle.std.specs.Prelude.{take, ◌≤◌};
    ghost use Rattle.t1_disassemble.specs.KnownWords.{KnownText, IsKnown, HasBlank};

    ghost Value = { KnownText };

    ghost view = { λ word. record {
      first = word.first;
      text = take word.len word.bytes;
      is_number = word.is_number;
    } };

    ghost invariant = { λ word. (word.len ≤ 15) × HasBlank word.len word.is_number word.bytes
        × IsKnown (record {
          first = word.first;
          text = take word.len word.bytes;
          is_number = word.is_number;
        }) };
}

/// A few bytes, the blank before the next word, and others after them.
fn filled(text: &[u8], is_number: bool) -> [u8; ROOM_OF_A_WORD]
    requires { length text.now ≤ 15 }
    ensures text { take (length text.now) result ≡ text.now }
    ensures blank { HasBlank (length text.now) is_number result }
{
    let mut bytes = [0; ROOM_OF_A_WORD];
    bytes[..text.len()].copy_from_slice(text);
    bytes[text.len()] = if is_number { b' ' } else { b'\t' };
    bytes
}

impl KnownWord {
    /// A word that was put together, where there is room for it.
    fn kept(first: u8, is_number: bool, text: &[u8]) -> Option<KnownWord>
        requires { IsKnown (record { first = first; text = text.now; is_number = is_number }) }
    {
        if text.len() >= ROOM_OF_A_WORD {
            return None;
        }
        Some(KnownWord {
            first,
            is_number,
            len: text.len(),
            bytes: filled(text, is_number),
        })
    }

    /// A command of one byte.
    fn command(first: u8, word: &[u8]) -> Option<KnownWord>
        requires small { first < 32 }
        requires alone { (first == 12) ≡ false }
        requires word { lookup (nat_eq first) one_byte_words ≡ Some word.now }
        requires operator { is_number_word word.now ≡ false }
        requires short { length word.now ≤ 15 }
    {
        let mut bytes = [0; ROOM];
        let end = put_bytes(&mut bytes, 0, word);
        let len = put_byte(&mut bytes, end, b'\n');
        KnownWord::kept(first, false, bytes.split_at(len).0)
    }

    /// A number of one byte.
    fn number(first: u8, number: i32) -> Option<KnownWord>
        requires low { 32 ≤ first }
        requires high { first < 247 }
        requires value { number ≡ pos first -ℤ pos 139 }
    {
        let mut bytes = [0; ROOM];
        let len = put_number(&mut bytes, 0, number);
        KnownWord::kept(first, true, bytes.split_at(len).0)
    }

    /// The word that a byte is by itself.
    fn of(first: u8) -> Option<KnownWord> {
        if 247 <= first || first == 12 {
            return None;
        }
        if 32 <= first {
            return KnownWord::number(first, i32::from(first) - 139);
        }
        match one_byte_word(first) {
            Some(word) => KnownWord::command(first, word),
            None => None,
        }
    }

    /// The word of the byte 14.
    fn endchar() -> KnownWord {
        KnownWord {
            first: 14,
            is_number: false,
            len: 8,
            bytes: *b"endchar\n\t       ",
        }
    }

    /// Whether it is the word of this byte.
    #[inline(always)]
    fn is_of(&self, first: u8) -> bool
        ensures { result ≡ true → self.now.first ≡ first }
    {
        self.first == first
    }

    /// Puts the word after others that wait, and answers how many bytes wait then, and whether the
    /// word's line is still open.
    #[inline(always)]
    pub(crate) fn put(&self, bytes: &mut [u8; ROOM], len: usize, is_open: bool) -> (usize, bool)
        requires { len + 24 ≤ 256 }
        ensures value { (rest : List ℕ)
            → put_first (take len bytes.old) is_open self.now.first rest
            ≡ Ok (take result.0 bytes.new, result.1, rest) }
        ensures within { result.0 ≤ 256 }
        ensures size { length bytes.new ≡ 256 }
    {
        let at = put_blank(bytes, len, is_open);
        let end = put_front(bytes, at, &self.bytes, self.len);
        (end, self.is_number)
    }

    /// Puts the word, and the blank before the next one, after others that wait with the blank
    /// before this one. Answers how many bytes wait then without the last blank, and whether the
    /// word's line is still open.
    #[inline(always)]
    pub(crate) fn put_on(&self, bytes: &mut [u8; ROOM], len: usize) -> (usize, bool)
        requires { len + 24 ≤ 256 }
        ensures value { (is_open : Bool) (rest : List ℕ)
            → HasBlank len is_open bytes.old
            → put_first (take len bytes.old) is_open self.now.first rest
            ≡ Ok (take result.0 bytes.new, result.1, rest) }
        ensures blank { HasBlank result.0 result.1 bytes.new }
        ensures within { result.0 ≤ 255 }
        ensures size { length bytes.new ≡ 256 }
    {
        let end = put_front(bytes, len + 1, &self.bytes, self.len);
        (end, self.is_number)
    }
}

/// Adds a word to others.
fn push_word(words: &mut Vec<KnownWord>, word: KnownWord) -> Result<(), AllocError> {
    words.push(word)?;
    Ok(())
}

/// The words of all bytes, each at its place. What is no word by itself has another's word, which
/// says of what byte it is.
pub(crate) fn known_words(alloc: Global) -> Result<Vec<KnownWord>, AllocError> {
    let mut words = Vec::new(alloc);
    words.reserve(BYTES)?;
    for first in 0..256_u16 {
        let word = match KnownWord::of(first as u8) {
            Some(word) => word,
            None => KnownWord::endchar(),
        };
        push_word(&mut words, word)?;
    }
    Ok(words)
}

/// The word of a byte, where it is known.
#[inline(always)]
pub(crate) fn known_word(words: &[KnownWord], first: u8) -> Option<&KnownWord>
    ensures { IfSome result (λ word. word.now.first ≡ first) }
{
    let Some(word) = words.get(usize::from(first)) else {
        return None;
    };
    if word.is_of(first) { Some(word) } else { None }
}
