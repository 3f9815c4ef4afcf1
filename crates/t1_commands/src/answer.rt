//! What commands are answered, and how it is written.
ghost use Rattle.std.specs.Prelude.{◌≡◌, ◌∷◌, ◌++◌, [], decimal, length, OnOk};
ghost use Rattle.t1_frac.specs.Ascii.{line_feed};
ghost use Rattle.t1_code.specs.Writing.{Writes};
ghost use Rattle.t1_code.specs.Parts.{slices_bytes};
ghost use Rattle.t1_commands.specs.Answering.{Answers};
ghost use Rattle.t1_commands.specs.AnswerTexts.{rule_name, code_name, place_text};
ghost use Rattle.t1_commands.specs.AnswerParts.{place_number};
ghost use Rattle.t1_commands.specs.AnswerTexts.{fault_text, data_text, answer_text};

use itoa::Buffer;
use std::alloc::AllocError;
use std::io::{self, Write};
use t1_code::{Counted, write_slices};
use t1_frac::{Bytes, Code, Fault, Place};
use t1_source::{Cause, Rule};

/// What a command is answered.
#[derive(Drop)]
pub enum Answer {
    /// The edit was taken.
    Accepted,
    /// The command broke a rule.
    Broken(Rule),
    /// The edited source has a fault.
    Faulty(Fault),
    /// Memory ran out, and nothing changed.
    OutOfMemory,
    /// What a print or a query shows.
    Data(Bytes),
}

/// What is answered to a command that was performed, or refused; out of memory is passed on.
pub fn answer_of(performed: Result<(), Cause>) -> Result<Answer, AllocError>
    ensures { Answers performed result }
{
    match performed {
        Ok(()) => Ok(Answer::Accepted),
        Err(Cause::Rule(rule)) => Ok(Answer::Broken(rule)),
        Err(Cause::Fault(fault)) => Ok(Answer::Faulty(fault)),
        Err(Cause::Memory) => Err(AllocError),
    }
}

/// The printed code of a rule.
fn rule_name(rule: Rule) -> &'static [u8]
    ensures { result.now ≡ rule_name rule }
{
    match rule {
        Rule::E1 => b"E1",
        Rule::E2 => b"E2",
        Rule::E3 => b"E3",
        Rule::E4 => b"E4",
        Rule::E5 => b"E5",
        Rule::E6 => b"E6",
        Rule::E7 => b"E7",
        Rule::E8 => b"E8",
        Rule::E9 => b"E9",
        Rule::E10 => b"E10",
        Rule::E11 => b"E11",
        Rule::E12 => b"E12",
    }
}

/// The printed code of a fault.
fn code_name(code: Code) -> &'static [u8]
    ensures { result.now ≡ code_name code }
{
    match code {
        Code::F1 => b"F1",
        Code::F2 => b"F2",
        Code::F3 => b"F3",
        Code::F4 => b"F4",
        Code::F5 => b"F5",
        Code::F6 => b"F6",
        Code::F7 => b"F7",
        Code::F8 => b"F8",
        Code::F9 => b"F9",
        Code::F10 => b"F10",
        Code::F11 => b"F11",
        Code::F12 => b"F12",
        Code::F13 => b"F13",
        Code::F20 => b"F20",
        Code::F21 => b"F21",
        Code::F22 => b"F22",
        Code::F23 => b"F23",
        Code::F30 => b"F30",
        Code::F31 => b"F31",
        Code::F32 => b"F32",
        Code::F33 => b"F33",
        Code::F34 => b"F34",
        Code::F35 => b"F35",
        Code::F36 => b"F36",
        Code::F37 => b"F37",
        Code::F38 => b"F38",
        Code::F39 => b"F39",
        Code::F40 => b"F40",
        Code::F41 => b"F41",
        Code::F42 => b"F42",
        Code::F43 => b"F43",
        Code::F44 => b"F44",
        Code::F45 => b"F45",
        Code::F46 => b"F46",
        Code::F47 => b"F47",
        Code::F48 => b"F48",
    }
}

/// The number that stands in a place.
fn place_number(place: &Place) -> u64
    ensures { result ≡ place_number place.now }
{
    match place {
        Place::Line(number) => *number,
        Place::Subr(number) => u64::from(*number),
        Place::Nowhere | Place::Glyph(_) => 0,
    }
}

/// A code and a place, in slices between two texts. The number is that of the place.
fn place_slices<'a>(
    before: &'a [u8],
    code: &'a [u8],
    place: &'a Place,
    number: &'a str,
    after: &'a [u8],
) -> [&'a [u8]; 5]
    requires { number.now ≡ decimal (place_number place.now) }
    ensures { slices_bytes result ≡ before.now ++ (code.now ++ place_text place.now) ++ after.now }
{
    match place {
        Place::Nowhere => [before, code, b"", b"", after],
        Place::Line(_) => [before, code, b" line ", number.as_bytes(), after],
        Place::Subr(_) => [before, code, b" subr ", number.as_bytes(), after],
        Place::Glyph(name) => [before, code, b" glyph ", name.as_slice(), after],
    }
}

/// Writes a fault by its code and its place, where it has one, between two texts: `F20 subr 7`. It
/// takes no memory.
#[tactic(auto, unfolding(crate::specs::AnswerTexts::fault_text))]
pub fn put_fault<W: Write>(
    writer: &mut Counted<W>,
    before: &[u8],
    fault: &Fault,
    after: &[u8],
) -> io::Result<()>
    ensures { Writes W.contents writer.old writer.new
        (before.now ++ fault_text fault.now ++ after.now) result }
{
    let code = code_name(fault.code);
    let mut buffer = Buffer::new();
    let number = buffer.format(place_number(&fault.place));
    let slices = place_slices(before, code, &fault.place, number, after);
    write_slices(writer, &slices)
}

/// Adds slices to a text, one after another.
pub fn push_slices(text: &mut Vec<u8>, slices: &[&[u8]]) -> Result<(), AllocError>
    ensures { OnOk result (text.new.items ≡ text.old.items ++ slices_bytes slices.now) }
{
    for slice in slices {
        text.extend_from_slice(slice)?;
    }
    Ok(())
}

/// Adds a fault by its code and its place, where it has one, to a text, as a line: `F20 subr 7`.
#[tactic(auto, unfolding(crate::specs::AnswerTexts::fault_text))]
pub fn push_fault(text: &mut Vec<u8>, fault: &Fault) -> Result<(), AllocError>
    ensures { OnOk result
        (text.new.items ≡ text.old.items ++ (fault_text fault.now ++ line_feed ∷ [])) }
{
    let code = code_name(fault.code);
    let mut buffer = Buffer::new();
    let number = buffer.format(place_number(&fault.place));
    let slices = place_slices(b"", code, &fault.place, number, b"\n");
    push_slices(text, &slices)
}

/// Adds a rule by its code to a text, as a line: `E1`.
pub fn push_rule(text: &mut Vec<u8>, rule: Rule) -> Result<(), AllocError>
    ensures { OnOk result (text.new.items ≡ text.old.items ++ (rule_name rule ++ line_feed ∷ [])) }
{
    push_slices(text, &[rule_name(rule), b"\n"])
}

/// What is shown, in slices after its length.
fn data_slices<'a>(bytes: &'a [u8], digits: &'a str) -> [&'a [u8]; 5]
    requires { digits.now ≡ decimal (length bytes.now) }
    ensures { slices_bytes result ≡ data_text bytes.now }
{
    [b"data ", digits.as_bytes(), b"\n", bytes, b"\n"]
}

/// Writes what is shown, after its length.
fn put_data<W: Write>(writer: &mut Counted<W>, bytes: &[u8]) -> io::Result<()>
    ensures { Writes W.contents writer.old writer.new (data_text bytes.now) result }
{
    let mut buffer = Buffer::new();
    let digits = buffer.format(bytes.len());
    write_slices(writer, &data_slices(bytes, digits))
}

/// Writes an answer. It takes no memory.
#[tactic(auto, unfolding(crate::specs::AnswerTexts::answer_text))]
pub fn put_answer<W: Write>(writer: &mut Counted<W>, answer: &Answer) -> io::Result<()>
    ensures { Writes W.contents writer.old writer.new (answer_text answer.now) result }
{
    match answer {
        Answer::Accepted => writer.put_all(b"ok\n"),
        Answer::Broken(rule) => write_slices(writer, &[b"refused ", rule_name(*rule), b"\n"]),
        Answer::Faulty(fault) => put_fault(writer, b"refused ", fault, b"\n"),
        Answer::OutOfMemory => writer.put_all(b"refused memory\n"),
        Answer::Data(bytes) => put_data(writer, bytes.as_slice()),
    }
}
