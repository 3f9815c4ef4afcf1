//! The lines of a text by their numbers.
ghost use Rattle.std.specs.Prelude.{◌≡◌, ◌≤◌, ◌-◌, [], drop};
ghost use Rattle.std.specs.List.{slice_index_or};
ghost use Rattle.t1_text.specs.Lines.{lines};

use std::marker::Model;
use t1_text::first_line;

/// The lines of a text by their numbers. Numbers in their order are found in one pass over the
/// text. Contracts see the list of all lines.
#[derive(Drop)]
pub struct NumberedLines<'a> {
    text: &'a [u8],
    /// How many lines were passed.
    passed: u64,
    /// The text after these.
    rest: &'a [u8],
}

impl<'a> Model for NumberedLines<'a> {
    ghost use Rattle.std.specs.Prelude.{◌≡◌, ℕ, List, drop};
    ghost use Rattle.t1_text.specs.Lines.{lines};

    ghost Value = { List (List ℕ) };

    ghost view = { λ numbered. lines numbered.text.now };

    ghost invariant = { λ numbered. lines numbered.rest.now ≡ drop numbered.passed
        (lines numbered.text.now) };
}

/// The first line of a text; an empty one where there is none.
fn line_at_front(text: &[u8]) -> &[u8]
    ensures { result.now ≡ slice_index_or (lines text.now) 0 [] }
{
    if text.is_empty() {
        return text;
    }
    first_line(text).0
}

/// The text after so many lines, or after all, and how many these are.
fn past_lines(count: u64, text: &[u8]) -> (u64, &[u8])
    ensures within { result.0 ≤ count }
    ensures rest { lines result.1.now ≡ drop result.0 (lines text.now) }
    ensures line { slice_index_or (lines result.1.now) 0 []
        ≡ slice_index_or (lines text.now) count [] }
{
    let mut passed = 0;
    let mut rest = text;
    while passed < count && !rest.is_empty() {
        let (_line, after) = first_line(rest);
        passed += 1;
        rest = after;
    }
    (passed, rest)
}

impl<'a> NumberedLines<'a> {
    /// The lines of a text, of which none was looked at.
    pub fn of(text: &'a [u8]) -> Self
        ensures { result ≡ lines text.now }
    {
        NumberedLines {
            text,
            passed: 0,
            rest: text,
        }
    }

    /// The line of this number, counted from 1; an empty one where there is none.
    pub fn line(&mut self, number: u64) -> &'a [u8]
        ensures line { result.now ≡ slice_index_or self.old (number - 1) [] }
        ensures same { self.new ≡ self.old }
    {
        let wanted = number.saturating_sub(1);
        if wanted < self.passed {
            self.passed = 0;
            self.rest = self.text;
        }
        let (count, rest) = past_lines(wanted - self.passed, self.rest);
        self.passed += count;
        self.rest = rest;
        line_at_front(rest)
    }
}
