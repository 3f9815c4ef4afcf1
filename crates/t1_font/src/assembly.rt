//! A source assembled to its PFB or PFA file: its private text in one buffer, and the parts that
//! are written.
ghost use Rattle.std.specs.Prelude.{◌≡◌, IfOk, ◌∷◌, ◌++◌, [], OnOk, codes, decimal};
ghost use Rattle.t1_text.specs.Lines.{joined};
ghost use Rattle.t1_code.specs.Parts.{Prints};
ghost use Rattle.t1_font.specs.Assembly.{file_in, source_file, source_pfa, trailer_text, item_line};
ghost use Rattle.t1_font.specs.Assembly.{private_text};
ghost use Rattle.t1_frac.specs.Ascii.{line_feed, slash};
ghost use Rattle.t1_frac.specs.Outcome.{Gives, reported_at};
ghost use Rattle.t1_parts.specs.ItemRefs.{item_of};
ghost use Rattle.t1_code.specs.Cipher.{encrypted_words};
ghost use Rattle.t1_code.specs.Pfb.{closing_text, entry_text};
ghost use Rattle.t1_font.specs.Lengths.{put_after};
ghost use Rattle.t1_frac.specs.declared.fault.Place.TheVariants as places;

use itoa::Buffer;
use std::alloc::{AllocError, Global};
use std::io::Write;
use t1_code::{
    BlockSize, Counted, FileForm, OutError, Parts, Pfa, Pfb, Piece, encrypt_words, write_file,
};
use t1_frac::{Bytes, Refusal, Words};
use t1_parts::{ItemRef, Items, operator_of, push_line, push_lines};
use t1_source::Source;

/// Adds a section line with its count and its end.
fn push_section(
    text: &mut Vec<u8>,
    before: &[u8],
    count: u64,
    after: &[u8],
) -> Result<(), AllocError>
    ensures { OnOk result
        (text.new.items
        ≡ text.old.items ++ (before.now ++ decimal count ++ after.now ++ line_feed ∷ [])) }
{
    text.extend_from_slice(before)?;
    text.extend_from_slice(Buffer::new().format(count).as_bytes())?;
    text.extend_from_slice(after)?;
    text.push(b'\n')?;
    Ok(())
}

/// Adds an entry's closing text after a space, where it has one.
fn push_closing(text: &mut Vec<u8>, closing: &[u8]) -> Result<(), AllocError>
    ensures { OnOk result (text.new.items ≡ text.old.items ++ closing_text closing.now) }
{
    if closing.is_empty() {
        return Ok(());
    }
    text.push(b' ')?;
    text.extend_from_slice(closing)
}

/// Adds an entry's line after its `dup N` or `/NAME`.
fn push_data(
    text: &mut Vec<u8>,
    operator: &[u8],
    charstring: &[u8],
    closing: &[u8],
) -> Result<(), AllocError>
    ensures { OnOk result
        (text.new.items ≡ entry_text text.old.items operator.now charstring.now closing.now) }
{
    text.push(b' ')?;
    text.extend_from_slice(Buffer::new().format(charstring.len()).as_bytes())?;
    text.push(b' ')?;
    text.extend_from_slice(operator)?;
    text.push(b' ')?;
    text.extend_from_slice(charstring)?;
    push_closing(text, closing)?;
    text.push(b'\n')?;
    Ok(())
}

/// Adds the line of a Subr.
#[tactic(auto, using(crate::proofs::PrivateLaws::headed))]
fn push_subr(
    text: &mut Vec<u8>,
    operator: &[u8],
    number: u16,
    charstring: &[u8],
    closing: &[u8],
) -> Result<(), AllocError>
    ensures { OnOk result
        (text.new.items
        ≡ text.old.items
        ++ entry_text (codes "dup " ++ decimal number) operator.now charstring.now
        closing.now) }
{
    text.extend_from_slice(b"dup ")?;
    text.extend_from_slice(Buffer::new().format(number).as_bytes())?;
    push_data(text, operator, charstring, closing)
}

/// Adds the line of a glyph.
#[tactic(auto, using(crate::proofs::PrivateLaws::headed))]
fn push_glyph(
    text: &mut Vec<u8>,
    operator: &[u8],
    name: &[u8],
    charstring: &[u8],
    closing: &[u8],
) -> Result<(), AllocError>
    ensures { OnOk result
        (text.new.items
        ≡ text.old.items
        ++ entry_text (slash ∷ name.now) operator.now charstring.now closing.now) }
{
    text.push(b'/')?;
    text.extend_from_slice(name)?;
    push_data(text, operator, charstring, closing)
}

/// Puts the encrypted charstring of a Subr in the place of what the buffer holds.
fn encrypt_subr(code: &mut Vec<u8>, lead: u8, number: u16, words: &Words) -> Result<(), Refusal>
    ensures { Gives (λ _. code.new.items) result
        (reported_at (places.Subr number) (encrypted_words lead words.now)) }
{
    match encrypt_words(code, lead, words) {
        Err(refusal) => Err(refusal.at_subr(number)),
        encrypted => encrypted,
    }
}

/// Puts the encrypted charstring of a glyph in the place of what the buffer holds.
#[tactic(auto, using(t1_frac::proofs::OutcomeLaws::refuses_at))]
fn encrypt_glyph(
    alloc: Global,
    code: &mut Vec<u8>,
    lead: u8,
    name: &[u8],
    words: &Words,
) -> Result<(), Refusal>
    ensures { Gives (λ _. code.new.items) result
        (reported_at (places.Glyph name.now) (encrypted_words lead words.now)) }
{
    match encrypt_words(code, lead, words) {
        Err(refusal) => Err(refusal.at_glyph(alloc, name)),
        encrypted => encrypted,
    }
}

/// Adds the line of an item. `code` is a buffer for an entry's charstring, whose length stands
/// before it in the line; what it holds doesn't matter.
#[tactic(auto, using(crate::proofs::PrivateLaws::entry_fault))]
fn push_item(
    alloc: Global,
    text: &mut Vec<u8>,
    code: &mut Vec<u8>,
    lead: u8,
    operator: &[u8],
    item: &ItemRef,
) -> Result<(), Refusal>
    ensures { Gives (λ _. text.new.items) result
        (put_after text.old.items (item_line lead operator.now (item_of item.now))) }
{
    match item {
        ItemRef::Plain(line) => Ok(push_line(text, line)?),
        ItemRef::Section(before, count, after) => Ok(push_section(text, before, *count, after)?),
        ItemRef::Subr(number, words, closing) => {
            encrypt_subr(code, lead, *number, words)?;
            Ok(push_subr(text, operator, *number, code, closing)?)
        }
        ItemRef::Glyph(name, words, closing) => {
            encrypt_glyph(alloc, code, lead, name, words)?;
            Ok(push_glyph(text, operator, name, code, closing)?)
        }
    }
}

/// The private text of the items, or the first fault of a body, at its entry.
fn private_text_of(
    alloc: Global,
    lead: u8,
    operator: &[u8],
    items: &Items,
) -> Result<Vec<u8>, Refusal>
    ensures { Gives (λ text. text.items) result (private_text lead operator.now items.now) }
{
    let mut text = Vec::new(alloc);
    let mut code = Vec::new(alloc);
    for item in items.iter() {
        push_item(alloc, &mut text, &mut code, lead, operator, &item)?;
    }
    Ok(text)
}

/// The text of the clear part: its lines, each with its end.
pub fn clear_text(alloc: Global, lines: &[Bytes]) -> Result<Vec<u8>, AllocError>
    ensures { IfOk result (λ text. text.items ≡ joined lines.now) }
{
    let mut text = Vec::new(alloc);
    push_lines(&mut text, lines)?;
    Ok(text)
}

/// The lines of zeros after the encrypted part.
const ZEROS: [[u8; 64]; 8] = [[b'0'; 64]; 8];

/// How long they are, with their ends.
pub(crate) const ZEROS_LEN: usize = 8 * 65;

/// The text after the encrypted part: eight lines of zeros, and the lines of the tail.
pub fn trailer(alloc: Global, tail: &[Bytes]) -> Result<Vec<u8>, AllocError>
    ensures { IfOk result (λ text. text.items ≡ trailer_text tail.now) }
{
    let mut text = Vec::new(alloc);
    for line in &ZEROS {
        text.extend_from_slice(line)?;
        text.push(b'\n')?;
    }
    push_lines(&mut text, tail)?;
    Ok(text)
}

/// Writes the file of a source in a form, by its private text: the whole file at `Ok`, a beginning
/// of it at `Write`. A fault is F23; nothing is written then, nor where memory runs out.
fn write_private<F: FileForm, W: Write>(
    alloc: Global,
    source: &Source,
    form: &F,
    private: &[u8],
    out: &mut Counted<W>,
) -> Result<(), OutError>
    ensures { Prints W.contents out.old out.new
        (F.file form.now (joined source.now.clear) private.now (trailer_text source.now.tail))
        result }
{
    let clear = clear_text(alloc, source.clear())?;
    let trailer = trailer(alloc, source.tail())?;
    let pieces = [Piece::Plain(private)];
    let parts = Parts {
        clear: &clear,
        pieces: &pieces,
        trailer: &trailer,
    };
    write_file(form, &parts, out)
}

/// Writes the file of a source in a form: the whole file at `Ok`, a beginning of it at `Write`. A
/// fault is the first of the bodies, at its entry, else F23; nothing is written then, nor where
/// memory runs out.
fn write_source<F: FileForm, W: Write>(
    alloc: Global,
    source: &Source,
    form: &F,
    out: &mut Counted<W>,
) -> Result<(), OutError>
    ensures { Prints W.contents out.old out.new (file_in (F.file form.now) source.now) result }
{
    let private = private_text_of(
        alloc,
        source.lead(),
        operator_of(source.items().iter()),
        source.items(),
    )?;
    write_private(alloc, source, form, &private, out)
}

/// Writes the PFB file of a source in segments of so many bytes: the whole file at `Ok`, a
/// beginning of it at `Write`. A fault is the first of the bodies, at its entry, else F23; nothing
/// is written then, nor where memory runs out.
#[tactic(auto, unfolding(crate::specs::Assembly::source_file))]
pub fn write_source_pfb<W: Write>(
    alloc: Global,
    source: &Source,
    size: BlockSize,
    out: &mut Counted<W>,
) -> Result<(), OutError>
    ensures { Prints W.contents out.old out.new (source_file size source.now) result }
{
    write_source(alloc, source, &Pfb { size }, out)
}

/// Writes the PFA file of a source, with the answers of `write_source_pfb`.
#[tactic(auto, unfolding(crate::specs::Assembly::source_pfa))]
pub fn write_source_pfa<W: Write>(
    alloc: Global,
    source: &Source,
    out: &mut Counted<W>,
) -> Result<(), OutError>
    ensures { Prints W.contents out.old out.new (source_pfa source.now) result }
{
    write_source(alloc, source, &Pfa, out)
}
