//! Parts of the file, each of which puts its own text. A line whose form is fixed is put as slices:
//! its values, and the text between each two of them.
ghost use Rattle.std.specs.Prelude.{◌≡◌, [], ◌∷◌, flat_map, codes};
ghost use Rattle.std.specs.Fmt.{signed_decimal};
ghost use Rattle.t1_code.specs.Writing.{Puts};
ghost use Rattle.t1_afm.specs.Afm.{line_text, lines_text, value_line, char_line};
ghost use Rattle.t1_afm.specs.Afm.{pair_line, composite_line, sides, entries, code_number};
ghost use Rattle.t1_afm.specs.Lines.{line_words, word_text, value_bytes};

use crate::bbox::BBox;
use crate::line::{Word, put_line};
use crate::metrics::{CharMetric, CompositeMetric, KernPair};
use itoa::Buffer;
use std::io::{self, Write};
use t1_code::Outlet;

/// What stands in the file in lines of its own.
pub(crate) trait Part {
    ghost use Rattle.std.specs.Prelude.{List, ℕ};

    ghost text: { Self → List ℕ };

    fn put<W: Write>(&self, outlet: &mut Outlet<W>) -> io::Result<()>
        ensures { Puts W.contents outlet.old outlet.new (text self.now) result };
}

/// Puts parts, one after another.
pub(crate) fn put_parts<W: Write, P: Part>(outlet: &mut Outlet<W>, parts: &[P]) -> io::Result<()>
    ensures { Puts W.contents outlet.old outlet.new (flat_map P.text parts.now) result }
{
    for part in parts {
        part.put(outlet)?;
    }
    Ok(())
}

/// A key with its value, where it has one.
#[derive(Clone, Copy)]
pub(crate) struct Value<'a> {
    pub(crate) key: &'a [u8],
    pub(crate) value: Option<Word<'a>>,
}

impl Part for Value<'_> {
    ghost text = { λ v. lines_text (value_line (value_bytes v)) };

    fn put<W: Write>(&self, outlet: &mut Outlet<W>) -> io::Result<()> {
        match self.value {
            None => Ok(()),
            Some(value) => put_line(outlet, self.key, &[value]),
        }
    }
}

/// The words of a line that aren't values.
const END: Word<'static> = Word::Text(b";");

const ONE: Word<'static> = Word::Text(b"WX");

const BOTH: Word<'static> = Word::Text(b"W");

const NAME: Word<'static> = Word::Text(b"N");

const BOX: Word<'static> = Word::Text(b"B");

/// A side of a box.
fn side(place: i32) -> Word<'static>
    ensures { word_text result ≡ signed_decimal place }
{
    Word::Number(i64::from(place))
}

/// The left, bottom, right and top side of a box.
pub(crate) fn sides(bbox: &BBox) -> [Word<'static>; 4]
    ensures { line_words result ≡ sides bbox.now }
{
    [
        side(bbox.left),
        side(bbox.bottom),
        side(bbox.right),
        side(bbox.top),
    ]
}

fn code_number(code: Option<u8>) -> i64
    ensures { result ≡ code_number code }
{
    match code {
        None => -1,
        Some(code) => i64::from(code),
    }
}

impl<'a> CharMetric<'a> {
    /// The words after `C`, with the width along x alone.
    fn words_of_one(&self) -> [Word<'a>; 14]
        ensures { line_words result
            ≡ entries (codes "WX" ∷ signed_decimal self.now.wx ∷ []) self.now }
    {
        let code = Word::Number(code_number(self.code));
        let wx = Word::Number(self.wx);
        let name = Word::Text(self.name.as_slice());
        let left = side(self.bbox.left);
        let bottom = side(self.bbox.bottom);
        let right = side(self.bbox.right);
        let top = side(self.bbox.top);
        [
            code, END, ONE, wx, END, NAME, name, END, BOX, left, bottom, right, top, END,
        ]
    }

    /// The words after `C`, with the width along both axes.
    fn words_of_both(&self) -> [Word<'a>; 15]
        ensures { line_words result
            ≡ entries (codes "W" ∷ signed_decimal self.now.wx ∷ signed_decimal self.now.wy ∷ [])
            self.now }
    {
        let code = Word::Number(code_number(self.code));
        let wx = Word::Number(self.wx);
        let wy = Word::Number(self.wy);
        let name = Word::Text(self.name.as_slice());
        let left = side(self.bbox.left);
        let bottom = side(self.bbox.bottom);
        let right = side(self.bbox.right);
        let top = side(self.bbox.top);
        [
            code, END, BOTH, wx, wy, END, NAME, name, END, BOX, left, bottom, right, top, END,
        ]
    }
}

impl Part for CharMetric<'_> {
    ghost text = { λ c. line_text (char_line c) };

    fn put<W: Write>(&self, outlet: &mut Outlet<W>) -> io::Result<()> {
        if self.wy == 0 {
            put_line(outlet, b"C", &self.words_of_one())
        } else {
            put_line(outlet, b"C", &self.words_of_both())
        }
    }
}

impl Part for KernPair<'_> {
    ghost text = { λ p. line_text (pair_line p) };

    fn put<W: Write>(&self, outlet: &mut Outlet<W>) -> io::Result<()> {
        let left = Word::Text(self.left.as_slice());
        let right = Word::Text(self.right.as_slice());
        let value = Word::Number(i64::from(self.value));
        put_line(outlet, b"KPX", &[left, right, value])
    }
}

impl Part for CompositeMetric<'_> {
    ghost text = { λ c. line_text (composite_line c) };

    fn put<W: Write>(&self, outlet: &mut Outlet<W>) -> io::Result<()> {
        let mut dx = Buffer::new();
        let mut dy = Buffer::new();
        outlet.put_slices(&[
            b"CC ",
            self.name.as_slice(),
            b" 2 ; PCC ",
            self.base.as_slice(),
            b" 0 0 ; PCC ",
            self.accent.as_slice(),
            b" ",
            dx.format(self.dx).as_bytes(),
            b" ",
            dy.format(self.dy).as_bytes(),
            b" ;\n",
        ])
    }
}
