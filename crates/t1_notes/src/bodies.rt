//! The bodies of entries, token by token.

ghost use Rattle.std.specs.Prelude.{◌≡◌, ◌++◌, ◌&&◌, nat_lt, Some, OnOk, IfOk};
ghost use Rattle.t1_text.specs.Tokens.{places_from};
ghost use Rattle.t1_run.specs.Operands.{takes};
ghost use Rattle.t1_notes.specs.CommandWords.{clears};
ghost use Rattle.t1_notes.specs.BodyWords.{note_at, note_where, body_notes};
ghost use Rattle.t1_notes.specs.Kept.{kept_notes, kept_through, notes_by_place};

use crate::commands::{clears, is_hsbw, named, wants_closed};
use crate::kept::{TokensBefore, kept_after, nothing_kept};
use crate::line::Line;
use crate::note::{Note, NoteKind};
use std::alloc::AllocError;
use t1_code::Command;
use t1_run::takes;
use t1_text::next_place;

/// A note of a kind at a place.
fn note_at(line: u64, column: u64, kind: NoteKind) -> Note
    ensures { result ≡ note_at line column kind }
{
    Note { kind, line, column }
}

/// Adds a note, where there is reason for it.
pub fn push_where(notes: &mut Vec<Note>, holds: bool, note: Note) -> Result<(), AllocError>
    ensures { OnOk result (notes.new.items ≡ notes.old.items ++ note_where holds note) }
{
    if holds {
        notes.push(note)?;
    }
    Ok(())
}

/// Whether more numbers stand in front of a command than it takes, and it leaves none of them.
fn has_values_left(kept: TokensBefore, command: Command) -> bool
    ensures { result ≡ (clears command && nat_lt (takes command) kept.numbers) }
{
    clears(command) && takes(command) < usize::from(kept.numbers)
}

/// Adds the notes on a command at a place.
fn push_command(
    notes: &mut Vec<Note>,
    line: u64,
    column: u64,
    kept: TokensBefore,
    command: Command,
) -> Result<(), AllocError>
    ensures { OnOk result (notes.new.items ≡ notes.old.items ++ kept_notes line column kept (Some
        command)) }
{
    let left = note_at(line, column, NoteKind::ValuesLeft);
    let wide = note_at(line, column, NoteKind::WideCoordinate);
    let negative = note_at(line, column, NoteKind::NegativeWidth);
    let open = note_at(line, column, NoteKind::OpenPath);
    push_where(notes, has_values_left(kept, command), left)?;
    push_where(notes, clears(command) && kept.has_wide, wide)?;
    push_where(notes, is_hsbw(command) && kept.is_negative, negative)?;
    push_where(notes, wants_closed(command) && kept.is_open, open)
}

/// Adds the notes on what a token names, where it names a command.
fn push_named(
    notes: &mut Vec<Note>,
    line: u64,
    column: u64,
    kept: TokensBefore,
    command: Option<Command>,
) -> Result<(), AllocError>
    ensures { OnOk result (notes.new.items ≡ notes.old.items ++ kept_notes line column kept
        command) }
{
    match command {
        Some(command) => push_command(notes, line, column, kept, command),
        None => Ok(()),
    }
}

/// Adds the notes on the tokens of the line of this number, and gives what is kept after them.
fn push_line(
    notes: &mut Vec<Note>,
    kept: TokensBefore,
    number: u64,
    line: &[u8],
) -> Result<TokensBefore, AllocError>
    ensures notes { OnOk result (notes.new.items ≡ notes.old.items ++ notes_by_place number kept
        (places_from 0 line.now)) }
    ensures kept { IfOk result (λ after. after ≡ kept_through kept (places_from 0 line.now)) }
{
    let mut known = kept;
    let mut place = 0;
    let mut rest = line;
    while let Some((found, token, after)) = next_place(place, rest) {
        let command = named(token);
        push_named(notes, number, found as u64 + 1, known, command)?;
        known = kept_after(known, token, command);
        place = found + token.len();
        rest = after;
    }
    Ok(known)
}

/// Adds the notes on the bodies of some lines.
pub fn push_bodies(notes: &mut Vec<Note>, lines: &[Line]) -> Result<(), AllocError>
    ensures { OnOk result (notes.new.items ≡ notes.old.items ++ body_notes lines.now) }
{
    let mut kept = nothing_kept();
    for line in lines {
        kept = push_line(notes, kept, line.number, line.bytes())?;
    }
    Ok(())
}
