//! A line that is written.
ghost use Rattle.std.specs.Prelude.{◌≡◌, ◌++◌};
ghost use Rattle.t1_code.specs.Writing.{Writes};
ghost use Rattle.t1_code.specs.Parts.{slices_bytes};
ghost use Rattle.t1edit.specs.Status.{line_with};

use std::io::{self, Write};
use t1_code::{Counted, write_slices};

/// A line that holds a text after what begins it, in slices.
fn line_slices<'a>(front: &'a [u8], text: &'a [u8]) -> [&'a [u8]; 3]
    ensures { slices_bytes result ≡ line_with front.now text.now }
{
    [front, text, b"\n"]
}

/// A line that holds a text in two parts after what begins it, in slices.
fn two_slices<'a>(front: &'a [u8], first: &'a [u8], second: &'a [u8]) -> [&'a [u8]; 4]
    ensures { slices_bytes result ≡ line_with front.now (first.now ++ second.now) }
{
    [front, first, second, b"\n"]
}

/// Writes a line that holds a text in two parts after what begins it. It takes no memory.
pub fn put_text_line<W: Write>(
    front: &[u8],
    first: &[u8],
    second: &[u8],
    writer: &mut Counted<W>,
) -> io::Result<()>
    ensures { Writes W.contents writer.old writer.new
        (line_with front.now (first.now ++ second.now)) result }
{
    write_slices(writer, &two_slices(front, first, second))
}

/// Writes a line that holds a text after what begins it. It takes no memory.
pub fn put_line<W: Write>(front: &[u8], text: &[u8], writer: &mut Counted<W>) -> io::Result<()>
    ensures { Writes W.contents writer.old writer.new (line_with front.now text.now) result }
{
    write_slices(writer, &line_slices(front, text))
}
