//! The commands of a session, by the words of their lines.
ghost use Rattle.std.specs.Prelude.{◌≡◌, option_map, ◌<◌, IfOk};
ghost use Rattle.t1_frac.specs.Words.{words};
ghost use Rattle.t1_commands.specs.Commands.{one_word, two_words, three_words, removal, setting};
ghost use Rattle.t1_commands.specs.Commands.{whole_print, blocks_print, print_of, whole_show};
ghost use Rattle.t1_commands.specs.Commands.{entry_show, show_of, other_command, line_command};
ghost use Rattle.t1_commands.specs.Commands.{body_command, bodied_edit, open_command, ends_body};
ghost use Rattle.t1_commands.specs.Commands.{edit_of, lone, is_wordless, number_of};
ghost use Rattle.t1_commands.specs.MadeCommands.{Makes};
ghost use Rattle.t1_source.specs.declared.edit.Edit.TheVariants as edits;

use crate::numbers::number_of;
use crate::print::Print;
use crate::show::Show;
use std::alloc::{AllocError, Global};
use t1_frac::{Bytes, next_word};
use t1_source::{Edit, Rule};

/// One command.
#[derive(Drop)]
pub enum SessionCommand {
    Edit(Edit),
    Print(Print),
    Show(Show),
    Begin,
    Commit,
    Abort,
    /// No command, or one whose body the input left open.
    Broken(Rule),
}

/// A line that is no command.
const UNKNOWN: SessionCommand = SessionCommand::Broken(Rule::E8);

/// The only word of a line.
fn one_word(line: &[u8]) -> Option<&[u8]>
    ensures { option_map (λ word. word.now) result ≡ one_word (words line.now) }
{
    let (word, rest) = next_word(line)?;
    match next_word(rest) {
        None => Some(word),
        Some(_) => None,
    }
}

/// The only two words of a line.
fn two_words(line: &[u8]) -> Option<(&[u8], &[u8])>
    ensures { option_map (λ w. (w.0.now, w.1.now)) result ≡ two_words (words line.now) }
{
    let (first, rest) = next_word(line)?;
    let second = one_word(rest)?;
    Some((first, second))
}

/// The only three words of a line.
fn three_words(line: &[u8]) -> Option<(&[u8], &[u8], &[u8])>
    ensures { option_map (λ w. (w.0.now, w.1.now, w.2.now)) result ≡ three_words (words line.now) }
{
    let (first, rest) = next_word(line)?;
    let (second, third) = two_words(rest)?;
    Some((first, second, third))
}

/// `remove glyph NAME`, after the second word.
fn glyph_removal(alloc: Global, line: &[u8]) -> Result<SessionCommand, AllocError>
    ensures { Makes result (edit_of edits.RemoveGlyph (one_word (words line.now))) }
{
    let Some(name) = one_word(line) else {
        return Ok(UNKNOWN);
    };
    let name = Bytes::copied(alloc, name)?;
    Ok(SessionCommand::Edit(Edit::RemoveGlyph(name)))
}

/// `remove subr N`, after the second word.
fn subr_removal(line: &[u8]) -> SessionCommand
    ensures { result ≡ edit_of (λ number. edits.RemoveSubr (number_of number))
        (one_word (words line.now)) }
{
    match one_word(line) {
        Some(number) => SessionCommand::Edit(Edit::RemoveSubr(number_of(number))),
        None => UNKNOWN,
    }
}

/// `remove glyph NAME`, `remove subr N`, after the first word.
#[tactic(auto, unfolding(crate::specs::Commands::removal))]
fn removal(alloc: Global, line: &[u8]) -> Result<SessionCommand, AllocError>
    ensures { Makes result (removal (words line.now)) }
{
    let Some((kind, rest)) = next_word(line) else {
        return Ok(UNKNOWN);
    };
    if kind == b"glyph".as_slice() {
        glyph_removal(alloc, rest)
    } else if kind == b"subr".as_slice() {
        Ok(subr_removal(rest))
    } else {
        Ok(UNKNOWN)
    }
}

/// `set leniv N`, after the second word.
fn lead_setting(line: &[u8]) -> SessionCommand
    ensures { result ≡ edit_of (λ number. edits.LenIv (number_of number))
        (one_word (words line.now)) }
{
    match one_word(line) {
        Some(number) => SessionCommand::Edit(Edit::LenIv(number_of(number))),
        None => UNKNOWN,
    }
}

/// `set leniv N`, after the first word.
#[tactic(auto, unfolding(crate::specs::Commands::setting))]
fn setting(line: &[u8]) -> SessionCommand
    ensures { result ≡ setting (words line.now) }
{
    let Some((kind, rest)) = next_word(line) else {
        return UNKNOWN;
    };
    if kind == b"leniv".as_slice() {
        lead_setting(rest)
    } else {
        UNKNOWN
    }
}

/// `print source`, `print kern`, `print pfb`, `print pfa`, `print afm`, `print uses`, by the second
/// word.
#[tactic(auto, unfolding(crate::specs::Commands::whole_print))]
fn whole_print(word: &[u8]) -> SessionCommand
    ensures { result ≡ whole_print word.now }
{
    if word == b"source".as_slice() {
        SessionCommand::Print(Print::Source)
    } else if word == b"kern".as_slice() {
        SessionCommand::Print(Print::Kern)
    } else if word == b"pfb".as_slice() {
        SessionCommand::Print(Print::Pfb)
    } else if word == b"pfa".as_slice() {
        SessionCommand::Print(Print::Pfa)
    } else if word == b"afm".as_slice() {
        SessionCommand::Print(Print::Afm)
    } else if word == b"uses".as_slice() {
        SessionCommand::Print(Print::Uses)
    } else {
        UNKNOWN
    }
}

/// `print pfb N`, after the first word.
#[tactic(auto, unfolding(crate::specs::Commands::blocks_print))]
fn blocks_print(line: &[u8]) -> SessionCommand
    ensures { result ≡ blocks_print (two_words (words line.now)) }
{
    match two_words(line) {
        Some((b"pfb", number)) => SessionCommand::Print(Print::Blocks(number_of(number))),
        _ => UNKNOWN,
    }
}

/// A print, after the first word.
fn print_of(line: &[u8]) -> SessionCommand
    ensures { result ≡ print_of (words line.now) }
{
    match one_word(line) {
        Some(word) => whole_print(word),
        None => blocks_print(line),
    }
}

/// `show encoding`, `show refusal`, by the second word.
#[tactic(auto, unfolding(crate::specs::Commands::whole_show))]
fn whole_show(word: &[u8]) -> SessionCommand
    ensures { result ≡ whole_show word.now }
{
    if word == b"encoding".as_slice() {
        SessionCommand::Show(Show::Encoding)
    } else if word == b"refusal".as_slice() {
        SessionCommand::Show(Show::Refusal)
    } else {
        UNKNOWN
    }
}

/// `show glyph NAME`, `show subr N`, `show metrics NAME`, `show outline NAME`, after the first
/// word.
#[tactic(auto, unfolding(crate::specs::Commands::entry_show))]
fn entry_show(alloc: Global, line: &[u8]) -> Result<SessionCommand, AllocError>
    ensures { Makes result (entry_show (two_words (words line.now))) }
{
    let Some((kind, subject)) = two_words(line) else {
        return Ok(UNKNOWN);
    };
    if kind == b"glyph".as_slice() {
        let name = Bytes::copied(alloc, subject)?;
        return Ok(SessionCommand::Show(Show::Glyph(name)));
    }
    if kind == b"subr".as_slice() {
        return Ok(SessionCommand::Show(Show::Subr(number_of(subject))));
    }
    if kind == b"metrics".as_slice() {
        let name = Bytes::copied(alloc, subject)?;
        return Ok(SessionCommand::Show(Show::Metrics(name)));
    }
    if kind == b"outline".as_slice() {
        let name = Bytes::copied(alloc, subject)?;
        return Ok(SessionCommand::Show(Show::Outline(name)));
    }
    Ok(UNKNOWN)
}

/// A query, after the first word.
fn show_of(alloc: Global, line: &[u8]) -> Result<SessionCommand, AllocError>
    ensures { Makes result (show_of (words line.now)) }
{
    match one_word(line) {
        Some(word) => Ok(whole_show(word)),
        None => entry_show(alloc, line),
    }
}

/// `encode CODE NAME`, after the first word.
fn encoding(alloc: Global, line: &[u8]) -> Result<SessionCommand, AllocError>
    ensures { Makes result (edit_of (λ w. edits.Encode (number_of w.0) w.1)
        (two_words (words line.now))) }
{
    let Some((code, name)) = two_words(line) else {
        return Ok(UNKNOWN);
    };
    let name = Bytes::copied(alloc, name)?;
    Ok(SessionCommand::Edit(Edit::Encode(number_of(code), name)))
}

/// `unencode CODE`, after the first word.
fn unencoding(line: &[u8]) -> SessionCommand
    ensures { result
        ≡ edit_of (λ code. edits.Unencode (number_of code)) (one_word (words line.now)) }
{
    match one_word(line) {
        Some(code) => SessionCommand::Edit(Edit::Unencode(number_of(code))),
        None => UNKNOWN,
    }
}

/// `kern LEFT RIGHT N`, after the first word.
fn kerning(alloc: Global, line: &[u8]) -> Result<SessionCommand, AllocError>
    ensures { Makes result (edit_of (λ w. edits.Kern w.0 w.1 (number_of w.2))
        (three_words (words line.now))) }
{
    let Some((left, right, value)) = three_words(line) else {
        return Ok(UNKNOWN);
    };
    let left = Bytes::copied(alloc, left)?;
    let right = Bytes::copied(alloc, right)?;
    Ok(SessionCommand::Edit(Edit::Kern(left, right, number_of(value))))
}

/// `unkern LEFT RIGHT`, after the first word.
fn unkerning(alloc: Global, line: &[u8]) -> Result<SessionCommand, AllocError>
    ensures { Makes result (edit_of (λ w. edits.Unkern w.0 w.1) (two_words (words line.now))) }
{
    let Some((left, right)) = two_words(line) else {
        return Ok(UNKNOWN);
    };
    let left = Bytes::copied(alloc, left)?;
    let right = Bytes::copied(alloc, right)?;
    Ok(SessionCommand::Edit(Edit::Unkern(left, right)))
}

/// A command without further words.
fn lone(command: SessionCommand, line: &[u8]) -> SessionCommand
    ensures { result ≡ lone command (words line.now) }
{
    match next_word(line) {
        None => command,
        Some(_) => UNKNOWN,
    }
}

/// A command that is no edit and no query, by its first word, after that word.
#[tactic(auto, unfolding(crate::specs::Commands::other_command))]
fn other_command(verb: &[u8], line: &[u8]) -> SessionCommand
    ensures { result ≡ other_command verb.now (words line.now) }
{
    if verb == b"print".as_slice() {
        print_of(line)
    } else if verb == b"begin".as_slice() {
        lone(SessionCommand::Begin, line)
    } else if verb == b"commit".as_slice() {
        lone(SessionCommand::Commit, line)
    } else if verb == b"abort".as_slice() {
        lone(SessionCommand::Abort, line)
    } else {
        UNKNOWN
    }
}

/// The command of a line that takes no body. An unknown one takes no memory.
#[tactic(auto, unfolding(crate::specs::Commands::line_command))]
pub fn line_command(alloc: Global, line: &[u8]) -> Result<SessionCommand, AllocError>
    ensures { Makes result (line_command (words line.now)) }
{
    let Some((verb, rest)) = next_word(line) else {
        return Ok(UNKNOWN);
    };
    if verb == b"remove".as_slice() {
        removal(alloc, rest)
    } else if verb == b"encode".as_slice() {
        encoding(alloc, rest)
    } else if verb == b"unencode".as_slice() {
        Ok(unencoding(rest))
    } else if verb == b"set".as_slice() {
        Ok(setting(rest))
    } else if verb == b"kern".as_slice() {
        kerning(alloc, rest)
    } else if verb == b"unkern".as_slice() {
        unkerning(alloc, rest)
    } else if verb == b"show".as_slice() {
        show_of(alloc, rest)
    } else {
        Ok(other_command(verb, rest))
    }
}

/// The edit of the three words of a heading, and its body.
#[tactic(auto, unfolding(crate::specs::Commands::bodied_edit))]
fn bodied_edit(
    alloc: Global,
    verb: &[u8],
    kind: &[u8],
    subject: &[u8],
    body: Bytes,
) -> Result<Edit, AllocError>
    ensures { IfOk result (λ edit. edit ≡ bodied_edit (verb.now, kind.now, subject.now) body) }
{
    let replaces = verb == b"replace".as_slice();
    if kind == b"glyph".as_slice() {
        let name = Bytes::copied(alloc, subject)?;
        Ok(if replaces {
            Edit::ReplaceGlyph(name, body)
        } else {
            Edit::AddGlyph(name, body)
        })
    } else {
        let number = number_of(subject);
        Ok(if replaces {
            Edit::ReplaceSubr(number, body)
        } else {
            Edit::AddSubr(number, body)
        })
    }
}

/// The command of a line that takes a body, and its whole body.
#[tactic(auto, unfolding(crate::specs::Commands::body_command, crate::specs::Commands::bodied_edit))]
pub fn body_command(
    alloc: Global,
    heading: &[u8],
    body: Bytes,
) -> Result<SessionCommand, AllocError>
    ensures { Makes result (body_command (words heading.now) body) }
{
    let Some((verb, kind, subject)) = three_words(heading) else {
        return Ok(UNKNOWN);
    };
    Ok(SessionCommand::Edit(bodied_edit(alloc, verb, kind, subject, body)?))
}

/// The command of a line whose body the input left open.
#[tactic(auto, unfolding(crate::specs::Commands::open_command))]
pub fn open_command(heading: &[u8]) -> SessionCommand
    ensures { result ≡ open_command (words heading.now) }
{
    match three_words(heading) {
        Some(_) => SessionCommand::Broken(Rule::E7),
        None => UNKNOWN,
    }
}

/// Whether a line has no words.
pub fn is_blank_line(line: &[u8]) -> bool
    ensures { result ≡ is_wordless (words line.now) }
{
    next_word(line).is_none()
}

/// Whether a line ends a body: it is `.`, apart from blanks.
#[tactic(auto, unfolding(crate::specs::Commands::ends_body))]
pub fn ends_body(line: &[u8]) -> bool
    ensures { result ≡ ends_body line.now }
{
    matches!(one_word(line), Some(b"."))
}
