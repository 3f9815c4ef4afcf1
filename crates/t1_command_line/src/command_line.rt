//! What the command line looks like.
ghost use Rattle.std.specs.Prelude.{◌≡◌, ◌∷◌, [], codes, map, true, false, IfOk, Some};
ghost use Rattle.clap.specs.Words.{App, Rule, Shape, app_of, new_app, new_rule, rule_of};
ghost use Rattle.clap.specs.Words.{with_rule, with_subcommand};
ghost use Rattle.clap.specs.declared.builder.action.ArgAction.TheVariants.{Set, SetTrue};
ghost use Rattle.t1_command_line.specs.CommandLine.{without_commands, program, program_alone};
ghost use Rattle.t1_command_line.specs.CommandLine.{source as source_rule, sources as sources_rule};
ghost use Rattle.t1_command_line.specs.CommandLine.{as_font as as_font_rule, font_rule};
ghost use Rattle.t1_command_line.specs.CommandLine.{kern_rule, output as output_rule};
ghost use Rattle.t1_command_line.specs.CommandLine.{block_rule, pfa_rule};
ghost use Rattle.t1_command_line.specs.CommandLine.{code as code_rule, place as place_rule};
ghost use Rattle.t1_command_line.specs.CommandLine.{json as json_rule, strict as strict_rule};
ghost use Rattle.t1_command_line.specs.CommandLine.{assemble as assemble_shape};
ghost use Rattle.t1_command_line.specs.CommandLine.{disassemble as disassemble_shape};
ghost use Rattle.t1_command_line.specs.CommandLine.{measure as measure_shape, check_shape};
ghost use Rattle.t1_command_line.specs.CommandLine.{faults as faults_shape, notes_shape};
ghost use Rattle.t1_command_line.specs.CommandLine.{session as session_shape};
ghost use Rattle.t1_command_line.specs.CommandLine.{explain as explain_shape};

use crate::help::{CODES, SESSION};
use clap::{Arg, ArgAction, Command};
use std::alloc::{AllocError, Global};

const VERSION: &str = "0.1.0";

/// The help of a source that may be standard input.
const SOURCE: &str =
    "The readable source of a Type 1 font, as t1disasm writes it; - for standard input";

/// The help of the source of a session.
const SOURCE_FILE: &str = "The readable source of a Type 1 font, as t1disasm writes it";

/// The argument that names the source.
fn source<'a>(alloc: Global, help: &'a str) -> Arg<'a>
    ensures rule { rule_of result ≡ source_rule }
    ensures local { result.global ≡ false }
{
    Arg::new(alloc, "SOURCE")
        .help(help)
        .required(true)
        .action(ArgAction::Set)
}

/// The help of sources of which one may be standard input.
const SOURCES: &str =
    "Readable sources of Type 1 fonts, as t1disasm writes them; - for standard input";

/// The argument that names sources, one or more.
fn sources<'a>(alloc: Global) -> Arg<'a>
    ensures rule { rule_of result ≡ sources_rule }
    ensures local { result.global ≡ false }
{
    Arg::new(alloc, "SOURCE")
        .help(SOURCES)
        .required(true)
        .action(ArgAction::Append)
}

/// An option that takes a value, by its name and that of its value.
fn valued<'a>(alloc: Global, name: &'a str, value: &'a str, help: &'a str) -> Arg<'a>
    ensures rule { rule_of result ≡ record (new_rule name.entry.now) {
      long = Some name.entry.now;
      action = Some Set;
      value_names = 1;
    } }
    ensures free { (result.exclusive ≡ false) × (result.conflicts.items ≡ []) }
    ensures local { result.global ≡ false }
{
    Arg::new(alloc, name)
        .long(name)
        .value_name(value)
        .help(help)
        .action(ArgAction::Set)
}

/// An option that takes no value, by its name.
fn flag<'a>(alloc: Global, name: &'a str, help: &'a str) -> Arg<'a>
    ensures rule { rule_of result ≡ record (new_rule name.entry.now) {
      long = Some name.entry.now;
      action = Some SetTrue;
    } }
    ensures local { result.global ≡ false }
{
    Arg::new(alloc, name)
        .long(name)
        .help(help)
        .action(ArgAction::SetTrue)
}

/// The option that says of the source that it is a font's file.
fn as_font<'a>(alloc: Global, help: &'a str) -> Arg<'a>
    ensures rule { rule_of result ≡ as_font_rule }
    ensures local { result.global ≡ false }
{
    flag(alloc, "font", help)
}

/// The help of that option.
const AS_FONT: &str = "Takes a font's PFB, PFA or raw file as SOURCE, and disassembles it first";

/// Its help where there may be several sources.
const EACH_AS_FONT: &str =
    "Takes fonts' PFB, PFA or raw files as SOURCE, and disassembles each first";

/// The argument that names a font's file.
fn font<'a>(alloc: Global) -> Arg<'a>
    ensures rule { rule_of result ≡ font_rule }
    ensures local { result.global ≡ false }
{
    Arg::new(alloc, "FONT")
        .help("A Type 1 font as a PFB file, a PFA file or raw bytes; - for standard input")
        .required(true)
        .action(ArgAction::Set)
}

/// The option that names a kerning file.
fn kern<'a>(alloc: Global, help: &'a str) -> Arg<'a>
    ensures rule { rule_of result ≡ kern_rule }
    ensures local { result.global ≡ false }
{
    valued(alloc, "kern", "FILE", help)
}

/// The help of a kerning file that may be standard input.
const KERN: &str =
    "A file with the kerning pairs, of which the KPX lines count; - for standard input";

/// The help of a kerning file.
const KERN_FILE: &str = "A file with the kerning pairs, of which the KPX lines count";

/// The option that asks for JSON.
fn json<'a>(alloc: Global) -> Arg<'a>
    ensures rule { rule_of result ≡ json_rule }
    ensures local { result.global ≡ false }
{
    flag(
        alloc,
        "json",
        "Writes each fault as an object of JSON, on a line of its own",
    )
}

/// The option that lets notes end the program with a status of their own.
fn strict<'a>(alloc: Global) -> Arg<'a>
    ensures rule { rule_of result ≡ strict_rule }
    ensures local { result.global ≡ false }
{
    flag(alloc, "strict", "Ends with status 1 where there are notes")
}

/// The option that names a file for the output.
fn output<'a>(alloc: Global) -> Arg<'a>
    ensures rule { rule_of result ≡ output_rule }
    ensures local { result.global ≡ false }
{
    valued(
        alloc,
        "output",
        "FILE",
        "Writes to this file, whole or not at all; - for standard output",
    )
    .short('o')
}

/// The option that cuts a PFB file into blocks, before it conflicts with another.
fn block_alone<'a>(alloc: Global) -> Arg<'a>
    ensures rule { rule_of result ≡ record block_rule { is_free = true } }
    ensures free { (result.exclusive ≡ false) × (result.conflicts.items ≡ []) }
    ensures local { result.global ≡ false }
{
    valued(
        alloc,
        "block",
        "N",
        "Cuts each part of the PFB file into segments of N bytes, from 1 to 2147483647",
    )
    .short('l')
}

/// The option that cuts a PFB file into blocks.
fn block<'a>(alloc: Global) -> Result<Arg<'a>, AllocError>
    ensures rule { IfOk result (λ arg. rule_of arg ≡ block_rule) }
    ensures conflicts { IfOk result
        (λ arg. map (λ id. id.now) arg.conflicts.items ≡ codes "pfa" ∷ []) }
    ensures alone { IfOk result (λ arg. (arg.exclusive ≡ false) × (arg.needs.items ≡ [])) }
    ensures local { IfOk result (λ arg. arg.global ≡ false) }
{
    block_alone(alloc).conflicts_with("pfa")
}

/// The option that asks for a PFA file.
fn pfa<'a>(alloc: Global) -> Arg<'a>
    ensures rule { rule_of result ≡ pfa_rule }
    ensures local { result.global ≡ false }
{
    flag(
        alloc,
        "pfa",
        "Writes the PFA file, whose encrypted part is hexadecimal",
    )
    .short('a')
}

/// The argument that names what is to be explained.
fn code<'a>(alloc: Global) -> Arg<'a>
    ensures rule { rule_of result ≡ code_rule }
    ensures local { result.global ≡ false }
{
    Arg::new(alloc, "CODE")
        .help(
            "A code as F37 or D3, a note as no-entry, a rule as E4, or an exit status as 3; without it, all are listed",
        )
        .action(ArgAction::Set)
}

/// The words of a place.
const PLACE: [&str; 2] = ["KIND", "NAME"];

/// The argument that takes the place which stands after a code.
fn place<'a>(alloc: Global) -> Arg<'a>
    ensures rule { rule_of result ≡ place_rule }
    ensures local { result.global ≡ false }
{
    Arg::new(alloc, "PLACE")
        .help("The place that stands after the code, as glyph Aacute; it is ignored")
        .value_names(&PLACE)
        .action(ArgAction::Set)
}

/// A command by its name, with what its helps say of it, in front of all and after all.
fn named<'a>(
    alloc: Global,
    name: &'a str,
    about: &'a str,
    front: &'a str,
    last: &'a str,
) -> Command<'a>
    ensures { app_of result ≡ new_app name.entry.now }
{
    Command::new(alloc, name)
        .about(about)
        .before_long_help(front)
        .after_long_help(last)
}

/// A command with one argument more, where the command could be made.
fn with_arg<'a>(
    command: Result<Command<'a>, AllocError>,
    arg: Arg<'a>,
) -> Result<Command<'a>, AllocError>
    ensures { (before : App) (rule : Rule) → IfOk command.entry (λ c. app_of c ≡ before)
        → rule_of arg.entry ≡ rule → arg.entry.global ≡ false
        → IfOk result (λ r. app_of r ≡ with_rule before rule) }
{
    command?.arg(arg)
}

/// A command that takes a source or a font besides, and an output.
fn of_source<'a>(
    alloc: Global,
    command: Result<Command<'a>, AllocError>,
) -> Result<Command<'a>, AllocError>
    ensures { (before : App) → IfOk command.entry (λ c. app_of c ≡ before) → IfOk result (λ r.
        app_of r ≡ with_rule (with_rule (with_rule before as_font_rule) output_rule) source_rule) }
{
    let or_font = with_arg(command, as_font(alloc, AS_FONT));
    let with_output = with_arg(or_font, output(alloc));
    with_arg(with_output, source(alloc, SOURCE))
}

/// A command that takes kerning besides, and sources or fonts.
fn of_sources<'a>(
    alloc: Global,
    command: Result<Command<'a>, AllocError>,
) -> Result<Command<'a>, AllocError>
    ensures { (before : App) → IfOk command.entry (λ c. app_of c ≡ before) → IfOk result (λ r.
        app_of r ≡ with_rule (with_rule (with_rule before kern_rule) as_font_rule) sources_rule) }
{
    let with_kern = with_arg(command, kern(alloc, KERN));
    let or_fonts = with_arg(with_kern, as_font(alloc, EACH_AS_FONT));
    with_arg(or_fonts, sources(alloc))
}

fn assemble<'a>(alloc: Global) -> Result<Command<'a>, AllocError>
    ensures { IfOk result (λ command. app_of command ≡ without_commands assemble_shape) }
{
    let blocks = block(alloc)?;
    let command = named(
        alloc,
        "assemble",
        "Writes the PFB or the PFA file of a source",
        "Example: t1edit assemble -o font.pfb font.t1",
        CODES,
    );
    let with_blocks = with_arg(Ok(command), blocks);
    of_source(alloc, with_arg(with_blocks, pfa(alloc)))
}

fn disassemble<'a>(alloc: Global) -> Result<Command<'a>, AllocError>
    ensures { IfOk result (λ command. app_of command ≡ without_commands disassemble_shape) }
{
    let command = named(
        alloc,
        "disassemble",
        "Writes the source of a font's PFB, PFA or raw file",
        "Example: t1edit disassemble -o font.t1 font.pfb",
        CODES,
    );
    let with_output = with_arg(Ok(command), output(alloc));
    with_arg(with_output, font(alloc))
}

fn measure<'a>(alloc: Global) -> Result<Command<'a>, AllocError>
    ensures { IfOk result (λ command. app_of command ≡ without_commands measure_shape) }
{
    let command = named(
        alloc,
        "measure",
        "Runs every glyph and writes the AFM file of a source",
        "Example: t1edit measure --kern old.afm -o font.afm font.t1",
        CODES,
    );
    of_source(alloc, with_arg(Ok(command), kern(alloc, KERN)))
}

fn check<'a>(alloc: Global) -> Result<Command<'a>, AllocError>
    ensures { IfOk result (λ command. app_of command ≡ without_commands check_shape) }
{
    let command = named(
        alloc,
        "check",
        "Judges sources as measure does, and writes nothing",
        "Example: t1edit check font.t1",
        CODES,
    );
    of_sources(alloc, Ok(command))
}

fn faults<'a>(alloc: Global) -> Result<Command<'a>, AllocError>
    ensures { IfOk result (λ command. app_of command ≡ without_commands faults_shape) }
{
    let command = named(
        alloc,
        "faults",
        "Writes every fault of sources, each with its line, its column and its word",
        "Example: t1edit faults font.t1",
        CODES,
    );
    of_sources(alloc, with_arg(Ok(command), json(alloc)))
}

fn notes<'a>(alloc: Global) -> Result<Command<'a>, AllocError>
    ensures { IfOk result (λ command. app_of command ≡ without_commands notes_shape) }
{
    let command = named(
        alloc,
        "notes",
        "Writes what is no fault in sources and is most likely a mistake",
        "Example: t1edit notes font.t1",
        CODES,
    );
    of_sources(alloc, with_arg(Ok(command), strict(alloc)))
}

fn session<'a>(alloc: Global) -> Result<Command<'a>, AllocError>
    ensures { IfOk result (λ command. app_of command ≡ without_commands session_shape) }
{
    let command = named(
        alloc,
        "session",
        "Edits and prints a source by commands from standard input",
        "Example: t1edit session font.t1 < commands > answers",
        SESSION,
    );
    let with_kern = with_arg(Ok(command), kern(alloc, KERN_FILE));
    let or_font = with_arg(with_kern, as_font(alloc, AS_FONT));
    with_arg(or_font, source(alloc, SOURCE_FILE))
}

fn explain<'a>(alloc: Global) -> Result<Command<'a>, AllocError>
    ensures { IfOk result (λ command. app_of command ≡ without_commands explain_shape) }
{
    let command = named(
        alloc,
        "explain",
        "Says what a code, a note, a rule or an exit status means, and what to do",
        "Example: t1edit explain F38",
        CODES,
    );
    let with_code = with_arg(Ok(command), code(alloc));
    with_arg(with_code, place(alloc))
}

/// The program with one command more, where both could be made.
fn with_command<'a>(
    program: Result<Command<'a>, AllocError>,
    command: Result<Command<'a>, AllocError>,
) -> Result<Command<'a>, AllocError>
    ensures { (before : App) (shape : Shape) → IfOk program.entry (λ p. app_of p ≡ before) → IfOk
        command.entry (λ c. app_of c ≡ without_commands shape)
        → shape.is_plain ≡ true → IfOk result (λ r. app_of r ≡ with_subcommand before shape) }
{
    program?.subcommand(command?)
}

/// The program before its commands, of which one must be named.
fn program_alone<'a>(alloc: Global) -> Command<'a>
    ensures { app_of result ≡ program_alone }
{
    Command::new(alloc, "t1edit")
        .version(VERSION)
        .about("An assembler for Adobe Type 1 fonts")
        .after_help(CODES)
        .subcommand_required(true)
}

/// The command line of the program: its commands, and the arguments that each takes.
pub fn command<'a>(alloc: Global) -> Result<Command<'a>, AllocError>
    ensures { IfOk result (λ command. app_of command ≡ program) }
{
    let program = with_command(Ok(program_alone(alloc)), assemble(alloc));
    let program = with_command(program, disassemble(alloc));
    let program = with_command(program, measure(alloc));
    let program = with_command(program, check(alloc));
    let program = with_command(program, faults(alloc));
    let program = with_command(program, notes(alloc));
    let program = with_command(program, session(alloc));
    with_command(program, explain(alloc))
}
