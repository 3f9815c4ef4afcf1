//! Where an entry opens on a line of the private text.
ghost use Rattle.std.specs.Prelude.{◌≡◌, ◌+◌, ◌^◌, ◌<◌, ◌∷◌, ℕ, length, option_map, IfSome};
ghost use Rattle.std.specs.Prelude.{is_some, true};
ghost use Rattle.t1_text.specs.Names.{decimal_of};
ghost use Rattle.t1_disassemble.specs.Opening.{length_said};
ghost use Rattle.t1_text.specs.Tokens.{places_from};
ghost use Rattle.t1_disassemble.specs.Opening.{glyph_opening, subr_opening, opening_here};
ghost use Rattle.t1_disassemble.specs.Opening.{first_opening};
ghost use Rattle.t1_disassemble.specs.Opened.{opening_of};

use t1_frac::leading_number;
use t1_text::{is_decimal, next_place, same};

/// An entry that opens on a line: where its first token stands, its number or its name with the
/// slash, how many bytes its charstring has, and where the reading operator ends.
#[derive(Clone, Copy, Debug)]
pub(crate) struct Opening<'a> {
    pub(crate) at: usize,
    pub(crate) is_subr: bool,
    pub(crate) name: &'a [u8],
    pub(crate) count: usize,
    pub(crate) end: usize,
}

/// The length that some digits say.
fn length_said(digits: &[u8]) -> usize
    requires { is_some (decimal_of digits.now) ≡ true }
    ensures { result ≡ length_said digits.now }
{
    leading_number(digits).0 as usize
}

/// The glyph that three tokens open.
fn glyph_opening<'a>(
    operator: &[u8],
    name: (usize, &'a [u8]),
    count: &[u8],
    reads: (usize, &[u8]),
) -> Option<Opening<'a>>
    requires within { reads.0 + length reads.1.now < 2 ^ 63 }
    ensures value { (place : ℕ) → option_map opening_of result
        ≡ glyph_opening operator.now (name.entry.0, name.entry.1.now) (place, count.now)
        (reads.entry.0, reads.entry.1.now) }
    ensures within { IfSome result (λ opening. opening.end < 2 ^ 63) }
{
    if let [b'/', ..] = name.1 {
        if is_decimal(count) && same(reads.1, operator) {
            return Some(Opening {
                at: name.0,
                is_subr: false,
                name: name.1,
                count: length_said(count),
                end: reads.0 + reads.1.len(),
            });
        }
    }
    None
}

/// The Subr that four tokens open.
fn subr_opening<'a>(
    operator: &[u8],
    dup: (usize, &[u8]),
    number: &'a [u8],
    count: &[u8],
    reads: (usize, &[u8]),
) -> Option<Opening<'a>>
    requires within { reads.0 + length reads.1.now < 2 ^ 63 }
    ensures value { (place other : ℕ) → option_map opening_of result
        ≡ subr_opening operator.now (dup.entry.0, dup.entry.1.now) (place, number.now)
        (other, count.now) (reads.entry.0, reads.entry.1.now) }
    ensures within { IfSome result (λ opening. opening.end < 2 ^ 63) }
{
    if same(dup.1, b"dup") && is_decimal(number) && is_decimal(count) && same(reads.1, operator) {
        return Some(Opening {
            at: dup.0,
            is_subr: true,
            name: number,
            count: length_said(count),
            end: reads.0 + reads.1.len(),
        });
    }
    None
}

/// The entry that a token opens with those after it.
fn opening_here<'a>(
    operator: &[u8],
    at: usize,
    first: &'a [u8],
    rest: &'a [u8],
) -> Option<Opening<'a>>
    requires { at + length first.now + length rest.now < 2 ^ 63 }
    ensures value { option_map opening_of result
        ≡ opening_here operator.now
        ((at, first.now) ∷ places_from (at + length first.now) rest.now) }
    ensures within { IfSome result (λ opening. opening.end < 2 ^ 63) }
{
    let (second_at, second, rest) = next_place(at + first.len(), rest)?;
    let (third_at, third, rest) = next_place(second_at + second.len(), rest)?;
    if let Some(opening) = glyph_opening(operator, (at, first), second, (third_at, third)) {
        return Some(opening);
    }
    let (fourth_at, fourth, _rest) = next_place(third_at + third.len(), rest)?;
    subr_opening(operator, (at, first), second, third, (fourth_at, fourth))
}

/// The first entry that opens on a line.
pub(crate) fn first_opening<'a>(operator: &[u8], line: &'a [u8]) -> Option<Opening<'a>>
    requires { length line.now < 2 ^ 63 }
    ensures value { option_map opening_of result
        ≡ first_opening operator.now (places_from 0 line.now) }
    ensures within { IfSome result (λ opening. opening.end < 2 ^ 63) }
{
    let mut place = 0;
    let mut rest = line;
    while let Some((at, token, after)) = next_place(place, rest) {
        if let Some(opening) = opening_here(operator, at, token, after) {
            return Some(opening);
        }
        place = at + token.len();
        rest = after;
    }
    None
}
