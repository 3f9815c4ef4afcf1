//! Prints and queries of a session, as answers in memory.
ghost use Rattle.std.specs.Prelude.{◌≡◌, Ok, IfOk, option_map};
ghost use Rattle.t1_code.specs.Parts.{Prints};
ghost use Rattle.t1_commands.specs.Blocks.{block_size};
ghost use Rattle.t1_session.specs.Machine.{blocks_answer, file_answer, found_answer};
ghost use Rattle.t1_session.specs.Machine.{printed, shown_answer};
ghost use Rattle.t1_calls.specs.Shown.{shown_file};

use std::alloc::{AllocError, Global};
use std::io::Write;
use t1_code::{BlockSize, Counted, OutError, WHOLE_PARTS};
use t1_commands::{Answer, Print, Show, block_size};
use t1_frac::Bytes;
use t1_session::Session;
use t1_source::Rule;

/// Writes what a print shows, in blocks of this size where it is in blocks.
fn put_file<W: Write>(
    session: &Session,
    size: BlockSize,
    print: Print,
    out: &mut Counted<W>,
) -> Result<(), OutError>
    ensures { Prints W.contents out.old out.new (shown_file session.now.state size print) result }
{
    match print {
        Print::Source => session.print_source(out),
        Print::Kern => session.print_kern(out),
        Print::Pfb => session.print_pfb(out),
        Print::Blocks(_) => session.print_pfb_blocks(size.get(), out),
        Print::Pfa => session.print_pfa(out),
        Print::Afm => session.print_afm(out),
        Print::Uses => session.print_uses(out),
    }
}

/// What a print shows, in memory.
fn file_of(
    alloc: Global,
    session: &Session,
    size: BlockSize,
    print: Print,
) -> Result<Vec<u8>, AllocError>
    ensures { IfOk result (λ file. shown_file session.now.state size print ≡ Ok file.items) }
{
    let mut out = Counted::new(Vec::new(alloc));
    match put_file(session, size, print, &mut out) {
        Ok(()) => Ok(out.into_inner()),
        // A session has no fault, and a vector fails to take bytes only where it can't grow.
        Err(_) => Err(AllocError),
    }
}

/// What a print is answered, in blocks of this size where it is in blocks.
fn file_answer(
    alloc: Global,
    session: &Session,
    size: BlockSize,
    print: Print,
) -> Result<Answer, AllocError>
    ensures { IfOk result
        (λ answer. answer ≡ file_answer (shown_file session.now.state size print)) }
{
    let file = file_of(alloc, session, size, print)?;
    Ok(Answer::Data(Bytes::new(file)))
}

/// What a print in segments of so many bytes is answered.
fn blocks_answer(alloc: Global, session: &Session, number: i64) -> Result<Answer, AllocError>
    ensures { IfOk result (λ answer. answer ≡ blocks_answer session.now.state (block_size number)) }
{
    match block_size(number) {
        Some(size) => file_answer(alloc, session, size, Print::Blocks(number)),
        None => Ok(Answer::Broken(Rule::E4)),
    }
}

/// What a print is answered.
pub fn print_answer(alloc: Global, session: &Session, print: Print) -> Result<Answer, AllocError>
    ensures { IfOk result (λ answer. answer ≡ printed session.now.state print) }
{
    let whole = BlockSize::new(WHOLE_PARTS);
    match print {
        Print::Source => file_answer(alloc, session, whole, Print::Source),
        Print::Kern => file_answer(alloc, session, whole, Print::Kern),
        Print::Pfb => file_answer(alloc, session, whole, Print::Pfb),
        Print::Blocks(number) => blocks_answer(alloc, session, number),
        Print::Pfa => file_answer(alloc, session, whole, Print::Pfa),
        Print::Afm => file_answer(alloc, session, whole, Print::Afm),
        Print::Uses => file_answer(alloc, session, whole, Print::Uses),
    }
}

/// What a query is answered that looked for a text.
fn found_answer(found: Option<Vec<u8>>) -> Answer
    ensures { result ≡ found_answer (option_map (λ text. text.items) found) }
{
    match found {
        Some(text) => Answer::Data(Bytes::new(text)),
        None => Answer::Broken(Rule::E1),
    }
}

/// What a query is answered.
pub fn show_answer(session: &mut Session, show: &Show) -> Result<Answer, AllocError>
    ensures shown { IfOk result (λ answer. answer ≡ shown_answer session.old.state show.now) }
    ensures same { session.new.state ≡ session.old.state }
{
    match show {
        Show::Glyph(name) => Ok(found_answer(session.show_glyph(name.as_slice())?)),
        Show::Subr(number) => Ok(found_answer(session.show_subr(*number)?)),
        Show::Metrics(name) => Ok(found_answer(session.show_metrics(name.as_slice())?)),
        Show::Outline(name) => Ok(found_answer(session.show_outline(name.as_slice())?)),
        Show::Encoding => Ok(Answer::Data(Bytes::new(session.show_encoding()?))),
        Show::Refusal => Ok(Answer::Data(Bytes::new(session.show_refusal()?))),
    }
}
