//! Commands by their words, as far as notes ask for them.

ghost use Rattle.std.specs.Prelude.{◌≡◌};
ghost use Rattle.std.specs.Map.{lookup};
ghost use Rattle.std.specs.Str.{bytes_eq};
ghost use Rattle.t1_code.specs.Words.{operator_named, operator_words};
ghost use Rattle.t1_run.specs.Words.{draws as draws_of};
ghost use Rattle.t1_notes.specs.CommandWords.{passes};
ghost use Rattle.t1_notes.specs.Tables.{rows_of};
ghost use Rattle.t1_notes.specs.CommandWords.{clears, is_hsbw, wants_closed, ends_path};

use t1_code::Command;

/// Each command and the word that names it.
const COMMANDS: [(&str, Command); 25] = [
    ("hstem", Command::HStem),
    ("vstem", Command::VStem),
    ("vmoveto", Command::VMoveTo),
    ("rlineto", Command::RLineTo),
    ("hlineto", Command::HLineTo),
    ("vlineto", Command::VLineTo),
    ("rrcurveto", Command::RRCurveTo),
    ("closepath", Command::ClosePath),
    ("callsubr", Command::CallSubr),
    ("return", Command::Return),
    ("dotsection", Command::DotSection),
    ("vstem3", Command::VStem3),
    ("hstem3", Command::HStem3),
    ("seac", Command::Seac),
    ("sbw", Command::Sbw),
    ("div", Command::Div),
    ("callothersubr", Command::CallOtherSubr),
    ("pop", Command::Pop),
    ("setcurrentpoint", Command::SetCurrentPoint),
    ("hsbw", Command::Hsbw),
    ("endchar", Command::EndChar),
    ("rmoveto", Command::RMoveTo),
    ("hmoveto", Command::HMoveTo),
    ("vhcurveto", Command::VHCurveTo),
    ("hvcurveto", Command::HVCurveTo),
];

/// The table.
#[tactic(auto, unfolding(t1_code::specs::Words::operator_words))]
fn commands() -> &'static [(&'static str, Command)]
    ensures { rows_of result.now ≡ operator_words }
{
    &COMMANDS
}

/// The command beside this word in a table.
fn find(table: &[(&'static str, Command)], word: &[u8]) -> Option<Command>
    ensures { result ≡ lookup (bytes_eq word.now) (rows_of table.now) }
{
    for (key, command) in table {
        if word == key.as_bytes() {
            return Some(*command);
        }
    }
    None
}

/// The command that a word names.
pub fn named(word: &[u8]) -> Option<Command>
    ensures { result ≡ operator_named word.now }
{
    find(commands(), word)
}

/// Whether a command leaves no value on the stack.
pub fn clears(command: Command) -> bool
    ensures { result ≡ clears command }
{
    !matches!(
        command,
        Command::Num(_)
            | Command::CallSubr
            | Command::Return
            | Command::Div
            | Command::CallOtherSubr
            | Command::Pop
    )
}

/// Whether a command is hsbw.
pub fn is_hsbw(command: Command) -> bool
    ensures { result ≡ is_hsbw command }
{
    matches!(command, Command::Hsbw)
}

/// Whether a path should be closed in front of a command.
pub fn wants_closed(command: Command) -> bool
    ensures { result ≡ wants_closed command }
{
    matches!(
        command,
        Command::RMoveTo | Command::HMoveTo | Command::VMoveTo | Command::EndChar
    )
}

/// Whether what was drawn before a command doesn't count after it.
fn ends_path(command: Command) -> bool
    ensures { result ≡ ends_path command }
{
    match command {
        Command::ClosePath | Command::CallSubr | Command::CallOtherSubr | Command::Return => true,
        _ => wants_closed(command),
    }
}

/// Whether a command draws a line or a curve.
fn draws(command: Command) -> bool
    ensures { result ≡ draws_of command }
{
    matches!(
        command,
        Command::RLineTo
            | Command::HLineTo
            | Command::VLineTo
            | Command::RRCurveTo
            | Command::VHCurveTo
            | Command::HVCurveTo
    )
}

/// Whether a word names a command that draws.
pub fn some_draws(command: Option<Command>) -> bool
    ensures { result ≡ passes draws_of command }
{
    match command {
        Some(command) => draws(command),
        None => false,
    }
}

/// Whether a word names a command that ends a path.
pub fn some_ends_path(command: Option<Command>) -> bool
    ensures { result ≡ passes ends_path command }
{
    match command {
        Some(command) => ends_path(command),
        None => false,
    }
}
