//! Lines of a text: a key and its values, with a space between each two words.
ghost use Rattle.std.specs.Prelude.{◌∷◌};
ghost use Rattle.t1_code.specs.Writing.{Puts};
ghost use Rattle.t1_afm.specs.Afm.{line_text, rest_text};
ghost use Rattle.t1_afm.specs.Lines.{word_text, line_words};

use itoa::Buffer;
use std::io::{self, Write};
use t1_code::Outlet;

/// A word of a line.
#[derive(Clone, Copy)]
pub(crate) enum Word<'a> {
    Text(&'a [u8]),
    Number(i64),
    Count(usize),
}

fn put_word<W: Write>(outlet: &mut Outlet<W>, word: &Word) -> io::Result<()>
    ensures { Puts W.contents outlet.old outlet.new (word_text word.now) result }
{
    let mut buffer = Buffer::new();
    match word {
        Word::Text(bytes) => outlet.put(bytes),
        Word::Number(number) => outlet.put(buffer.format(*number).as_bytes()),
        Word::Count(count) => outlet.put(buffer.format(*count).as_bytes()),
    }
}

/// Puts the words that follow a line's key, and the line's end.
fn put_rest<W: Write>(outlet: &mut Outlet<W>, words: &[Word]) -> io::Result<()>
    ensures { Puts W.contents outlet.old outlet.new (rest_text (line_words words.now)) result }
{
    for word in words {
        outlet.put(b" ")?;
        put_word(outlet, word)?;
    }
    outlet.put(b"\n")
}

/// Puts a line: its key, and the words that follow.
pub(crate) fn put_line<W: Write>(
    outlet: &mut Outlet<W>,
    key: &[u8],
    words: &[Word],
) -> io::Result<()>
    ensures { Puts W.contents outlet.old outlet.new
        (line_text (key.now ∷ line_words words.now)) result }
{
    outlet.put(key)?;
    put_rest(outlet, words)
}
