//! A file that the command line names as the source: a source, or a font of which the source is
//! made; and what the commands make of its source.

ghost use Rattle.std.specs.Prelude.{◌≡◌};
ghost use Rattle.t1_disassemble.specs.Disassembly.{disassembled};
ghost use Rattle.t1edit.specs.Sources.{kind_of, source_in, OnSource};
ghost use Rattle.t1edit.specs.Answering.{GivesSource};
ghost use Rattle.t1edit.specs.Assembling.{file_in_form};
ghost use Rattle.t1edit.specs.Checking.{JudgesFile};
ghost use Rattle.t1edit.specs.Stopping.{reported};
ghost use Rattle.t1_session.specs.Delivery.{Delivers};
ghost use Rattle.t1_session.specs.Serving.{Serves, streams};
ghost use Rattle.t1_session.specs.Machine.{scratch};
ghost use Rattle.t1_session.specs.Files.{metrics_file};

use crate::file_error::FileError;
use crate::font_bodies::FontBodies;
use std::alloc::Global;
use std::io::{Read, Write};
use t1_code::{BlockSize, Counted};
use t1_disassemble::{CodedText, disassemble_in_place};
use t1_frac::Refusal;
use t1_session::{
    ServeError, assemble_blocks, assemble_pfa, assemble_source, check_source, measure_source,
    measure_source_by, serve,
};

/// What a file is that is named as the source.
#[derive(Clone, Copy, Debug, PartialEq, Eq)]
pub enum Kind {
    /// A readable source.
    Source,
    /// A font's PFB, PFA or raw file.
    Font,
}

/// The form of an assembled file.
#[derive(Drop)]
pub enum OutputForm {
    /// The PFB file, a segment a part.
    Pfb,
    /// The PFB file in segments of one length.
    Blocks(BlockSize),
    /// The PFA file.
    Pfa,
}

/// The kind that the option `--font` says.
pub fn kind_of(is_font: bool) -> Kind
    ensures { result ≡ kind_of is_font }
{
    if is_font { Kind::Font } else { Kind::Source }
}

/// The source that a file has or, of a font, is disassembled to. The memory of a font's file is
/// given back.
pub fn source_in(alloc: Global, kind: Kind, file: Vec<u8>) -> Result<Vec<u8>, FileError>
    ensures { GivesSource (λ text. text.items) result (source_in kind file.items) }
{
    match kind {
        Kind::Source => Ok(file),
        Kind::Font => {
            let mut file = file;
            Ok(disassemble_in_place(alloc, &mut file)?.into_bytes())
        }
    }
}

/// The source of a font, with its charstrings. The memory of the font's file is given back.
fn coded_source(alloc: Global, font: Vec<u8>) -> Result<CodedText, FileError>
    ensures { GivesSource (λ text. text) result (disassembled font.items) }
{
    let mut font = font;
    Ok(disassemble_in_place(alloc, &mut font)?)
}

/// Writes the file of a source in a form.
pub fn assemble_as<W: Write>(
    alloc: Global,
    source: &[u8],
    form: &OutputForm,
    out: &mut Counted<W>,
) -> Result<(), ServeError>
    ensures { Delivers W.contents out.old out.new (file_in_form form.now source.now) result }
{
    match form {
        OutputForm::Pfb => assemble_source(alloc, source, out),
        OutputForm::Blocks(size) => assemble_blocks(alloc, source, size.get(), out),
        OutputForm::Pfa => assemble_pfa(alloc, source, out),
    }
}

/// Writes the file of the source of a file in a form.
pub fn assemble_file<W: Write>(
    alloc: Global,
    kind: Kind,
    file: Vec<u8>,
    form: &OutputForm,
    out: &mut Counted<W>,
) -> Result<(), FileError>
    ensures { OnSource (source_in kind file.items) out.old out.new
        (λ source answer. Delivers W.contents out.old out.new
        (file_in_form form.now source) answer) result }
{
    let source = source_in(alloc, kind, file)?;
    Ok(assemble_as(alloc, &source, form, out)?)
}

/// Runs a session over the source of a file and the pairs of a kerning file.
#[tactic(auto, using(crate::proofs::Sources::unopened))]
pub fn serve_file<R: Read, W: Write>(
    alloc: Global,
    kind: Kind,
    file: Vec<u8>,
    pairs: &[u8],
    reader: &mut Counted<R>,
    writer: &mut Counted<W>,
) -> Result<(), FileError>
    ensures { OnSource (source_in kind file.items)
        (streams reader.old writer.old) (streams reader.new writer.new)
        (λ source answer. Serves R.remaining W.contents (scratch source pairs.now)
        (streams reader.old writer.old) (streams reader.new writer.new) answer) result }
{
    let source = source_in(alloc, kind, file)?;
    Ok(serve(alloc, &source, pairs, reader, writer)?)
}

/// Writes the AFM file of the source of a font, whose bodies are compiled by its charstrings, with
/// the pairs of a kerning file.
fn measure_font<W: Write>(
    alloc: Global,
    font: Vec<u8>,
    pairs: &[u8],
    out: &mut Counted<W>,
) -> Result<(), FileError>
    ensures { OnSource (disassembled font.items) out.old out.new
        (λ source answer. Delivers W.contents out.old out.new
        (metrics_file source pairs.now) answer) result }
{
    let text = coded_source(alloc, font)?;
    let mut bodies = FontBodies::of(alloc, &text)?;
    Ok(measure_source_by(alloc, &mut bodies, text.as_bytes(), pairs, out)?)
}

/// Writes the AFM file of the source of a file, with the pairs of a kerning file.
pub fn measure_file<W: Write>(
    alloc: Global,
    kind: Kind,
    file: Vec<u8>,
    pairs: &[u8],
    out: &mut Counted<W>,
) -> Result<(), FileError>
    ensures { OnSource (source_in kind file.items) out.old out.new
        (λ source answer. Delivers W.contents out.old out.new
        (metrics_file source pairs.now) answer) result }
{
    match kind {
        Kind::Source => Ok(measure_source(alloc, &file, pairs, out)?),
        Kind::Font => measure_font(alloc, file, pairs, out),
    }
}

/// What judging answers, as a call over whole files does.
fn reported(answer: Result<(), Refusal>) -> Result<(), ServeError>
    ensures { result ≡ reported answer }
{
    match answer {
        Ok(()) => Ok(()),
        Err(refused) => Err(ServeError::from(refused)),
    }
}

/// Judges the source of a file and a kerning file, and writes nothing.
pub fn check_file(alloc: Global, kind: Kind, file: Vec<u8>, pairs: &[u8]) -> Result<(), FileError>
    ensures { JudgesFile (source_in kind file.items) pairs.now result }
{
    let source = source_in(alloc, kind, file)?;
    Ok(reported(check_source(alloc, &source, pairs))?)
}
