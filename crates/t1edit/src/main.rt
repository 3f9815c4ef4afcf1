#![tactic(auto)]
//! `t1edit`: the command line over whole fonts.
//!
//! What is proved, beside what the comment at each call says:
//!
//! - `run_ending`: the exit status of each outcome (`status_of_run`), and its line on standard
//!   error (`ReportsRun`, `error_line`, `misuse_line`); whole or up to a failed write; nothing if
//!   all was done.
//! - `form_of`, `assemble_as`: the form that the options ask for, or the misuse of a block length
//!   (`form`), and the file in it (`file_in_form`). `disassemble_to`: the source of a font's file
//!   (`DeliversSource`, `disassembled`). `explain`: `explanation`.
//! - `assemble_file`, `measure_file`, `serve_file` and `check_file` do so on the bytes of a file,
//!   which is a source, or with `--font` the font that is disassembled first (`source_in`).
//!   `check_files` goes through several: each one's line, and the worst status.
//! - `report_files` goes through files whose faults or notes are told: what a report says of each
//!   (`ReportsEach`), and the worst status. `faults_on`: the faults of a source, or that of a
//!   kerning file, as lines or objects (`faults_on`, `has_faults`). `notes_on`: the notes of a
//!   source, and those of a kerning file beside it (`notes_on`, `has_notes`).
//! - `read_whole`: the bytes of a reader up to its end; or `Refused`, only if a read failed; or
//!   `Memory`, only if none did. `with_reason`: how a file that can't be read is told
//!   (`TellsUnread`); of reasons but three the words are the system's.
//! - `Output::open`: standard output if there is no path or it is `-` (`OpensByWord`). It fails by
//!   `Unopened`: that memory ran out is a value made of the error of a call that says so, and
//!   nothing else makes one (`IsToldOf`).
//! - `Output::finish`: `Ok` only if the call before it was, whose error stays the answer otherwise;
//!   then a failed write is the only error (`HandsOn`). At `Ok` a draft has taken its place
//!   (`EndsAs`), as far as a value can say it: `Stood` is made by the call that renames the draft,
//!   which asks for a value of the one that puts it on the disk, and that for one of the call that
//!   gives it its permissions (`draft/steps.rt`). That these three do so, and what else becomes of
//!   files, is tested.

ghost use Rattle.std.specs.Prelude.{option_map};
ghost use Rattle.t1edit.specs.Answering.{FormIs};

mod disassembling;
mod draft;
mod explaining;
mod fault_json;
mod fault_lines;
mod file_error;
mod finding;
mod font_bodies;
mod identity;
mod input;
mod line;
mod links;
mod noting;
mod numbered_lines;
mod output;
mod overwriting;
mod reporting;
mod several;
mod source_file;
mod status;
mod unopened;
mod unread;

use clap::error::ErrorKind;
use clap::{ArgMatches, Error};
use disassembling::disassemble_to;
use explaining::explain;
use file_error::FileError;
use finding::{Faults, Sought, layout_of};
use input::{is_standard_input, read_file, read_input};
use noting::Notes;
use output::{Ended, Output};
use overwriting::{refuse_over_font, refuse_over_input};
use reporting::{Report, report_files};
use several::{check_files, tell};
use source_file::{Kind, OutputForm, assemble_file, check_file, kind_of, measure_file, serve_file};
use status::{Misuse, Stop, run_ending, told};
use std::process::ExitCode;
use std::{env, io};
use t1_code::Counted;
use t1_command_line::{all_sections, command};
use t1_commands::block_size_of_word;
use t1_session::ServeError;
use unread::with_reason;

/// The paths that the command line gives: of the source, and of the kerning file where it names
/// one.
fn paths<'a>(matches: &ArgMatches<'a>) -> (&'a str, Option<&'a str>) {
    (
        matches.get_str("SOURCE").unwrap_or(""),
        matches.get_str("kern"),
    )
}

/// What the file is that is named as the source.
fn asked_kind(matches: &ArgMatches<'_>) -> Kind {
    kind_of(matches.get_flag("font"))
}

/// The bytes of the kerning file; no pairs where no file is named.
fn pairs_of(rt: &HostRuntime, kern: Option<&str>) -> Result<Vec<u8>, ServeError> {
    match kern {
        Some(path) => read_input(rt, path),
        None => Ok(Vec::new(rt.alloc())),
    }
}

/// The bytes of the source and of the kerning file, both read before anything is judged.
fn inputs(
    rt: &HostRuntime,
    source: &str,
    kern: Option<&str>,
) -> Result<(Vec<u8>, Vec<u8>), ServeError> {
    let source = read_input(rt, source)?;
    Ok((source, pairs_of(rt, kern)?))
}

/// Refuses more than one of the inputs from standard input.
fn refuse_input_twice(sources: &[&str], kern: Option<&str>) -> Result<(), Misuse> {
    let mut is_taken = kern.is_some_and(is_standard_input);
    for source in sources {
        if is_standard_input(source) {
            if is_taken {
                return Err(Misuse::InputTwice);
            }
            is_taken = true;
        }
    }
    Ok(())
}

/// The bytes of the source and of the kerning file, of which one may be standard input.
fn inputs_of(rt: &HostRuntime, matches: &ArgMatches<'_>) -> Result<(Vec<u8>, Vec<u8>), Stop> {
    let (source, kern) = paths(matches);
    refuse_input_twice(&[source], kern)?;
    Ok(inputs(rt, source, kern)?)
}

/// The path that the option for the output names, which is none of the inputs'.
fn output_path<'a>(rt: &HostRuntime, matches: &ArgMatches<'a>) -> Result<Option<&'a str>, Stop> {
    let path = matches.get_str("output");
    if let Some(path) = path {
        let (source, kern) = paths(matches);
        refuse_over_input(rt, path, source, kern)?;
    }
    Ok(path)
}

/// What an answer of the calls over files is to a run.
fn run_answer(answer: Result<(), FileError>) -> Result<(), Stop> {
    Ok(answer?)
}

/// The form that the options ask for, a block length being 1 to 2147483647.
fn form_of(pfa: bool, block: Option<&str>) -> Result<OutputForm, Stop>
    ensures { FormIs pfa (option_map (λ word. word.now) block.entry) result }
{
    if pfa {
        return Ok(OutputForm::Pfa);
    }
    let Some(word) = block else {
        return Ok(OutputForm::Pfb);
    };
    match block_size_of_word(word.as_bytes()) {
        Some(size) => Ok(OutputForm::Blocks(size)),
        None => Err(Stop::Misused(Misuse::BlockLength)),
    }
}

/// Writes the PFB file of a source, in blocks where their length is given, or its PFA file.
fn assemble(rt: &HostRuntime, matches: &ArgMatches<'_>) -> Result<Ended, Stop> {
    let form = form_of(matches.get_flag("pfa"), matches.get_str("block"))?;
    let path = output_path(rt, matches)?;
    let source = read_input(rt, paths(matches).0)?;
    let mut output = Output::open(rt, path)?;
    let answer = assemble_file(
        rt.alloc(),
        asked_kind(matches),
        source,
        &form,
        &mut output.out,
    );
    output.finish(rt, run_answer(answer))
}

/// Writes the AFM file of a source.
fn measure(rt: &HostRuntime, matches: &ArgMatches<'_>) -> Result<Ended, Stop> {
    let path = output_path(rt, matches)?;
    let (source, pairs) = inputs_of(rt, matches)?;
    let mut output = Output::open(rt, path)?;
    let answer = measure_file(
        rt.alloc(),
        asked_kind(matches),
        source,
        &pairs,
        &mut output.out,
    );
    output.finish(rt, run_answer(answer))
}

/// Writes the source of a font's file.
fn disassemble(rt: &HostRuntime, matches: &ArgMatches<'_>) -> Result<Ended, Stop> {
    let font = matches.get_str("FONT").unwrap_or("");
    let path = matches.get_str("output");
    if let Some(path) = path {
        refuse_over_font(rt, path, font)?;
    }
    let bytes = read_input(rt, font)?;
    let mut output = Output::open(rt, path)?;
    let answer = disassemble_to(rt.alloc(), bytes, &mut output.out);
    output.finish(rt, answer)
}

/// Judges one source and its pairs.
fn check_alone(rt: &HostRuntime, matches: &ArgMatches<'_>) -> Result<(), Stop> {
    let (source, pairs) = inputs_of(rt, matches)?;
    Ok(check_file(rt.alloc(), asked_kind(matches), source, &pairs)?)
}

/// Judges several sources, each with the same pairs.
fn check_in_turn(rt: &HostRuntime, matches: &ArgMatches<'_>, sources: &[&str]) -> Result<(), Stop> {
    let kern = matches.get_str("kern");
    refuse_input_twice(sources, kern)?;
    let pairs = pairs_of(rt, kern)?;
    let mut lines = Counted::new(rt.stderr());
    told(check_files(
        rt.alloc(),
        rt,
        asked_kind(matches),
        sources,
        &pairs,
        &mut lines,
    ))
}

/// Judges sources and their pairs.
fn check(rt: &HostRuntime, matches: &ArgMatches<'_>) -> Result<(), Stop> {
    match matches.get_strs("SOURCE") {
        Some(sources) if sources.len() > 1 => check_in_turn(rt, matches, sources),
        _ => check_alone(rt, matches),
    }
}

/// Writes what is told of files in turn; the worst status is 1 where something was found and
/// nothing is wanted.
fn report<R: Report>(
    rt: &HostRuntime,
    report: &R,
    kind: Kind,
    is_strict: bool,
    paths: &[&str],
) -> u8 {
    report_files(
        rt.alloc(),
        rt,
        report,
        kind,
        is_strict,
        paths,
        &mut Counted::new(rt.stdout()),
        &mut Counted::new(rt.stderr()),
    )
}

/// Writes that of a kerning file, where one is named, and every fault of sources.
fn faults(rt: &HostRuntime, matches: &ArgMatches<'_>) -> Result<(), Stop> {
    let Some(sources) = matches.get_strs("SOURCE") else {
        return Ok(());
    };
    let kern = matches.get_str("kern");
    refuse_input_twice(sources, kern)?;
    let sections = all_sections();
    let layout = layout_of(matches.get_flag("json"));
    let of_pairs = Faults {
        sections: &sections,
        layout,
        sought: Sought::Pairs,
    };
    let of_sources = Faults {
        sections: &sections,
        layout,
        sought: Sought::Source,
    };
    let worst = match kern {
        Some(path) => report(rt, &of_pairs, Kind::Source, true, &[path]),
        None => 0,
    };
    told(report(rt, &of_sources, asked_kind(matches), true, sources).max(worst))
}

/// The bytes of the kerning file; no pairs where no file is named. Where it can't be read, that is
/// told by its name and with the reason.
fn told_pairs(rt: &HostRuntime, kern: Option<&str>) -> Result<Vec<u8>, Stop> {
    let Some(path) = kern else {
        return Ok(Vec::new(rt.alloc()));
    };
    match read_file(rt, path) {
        Ok(pairs) => Ok(pairs),
        Err(unread) => {
            let answer = Err(with_reason(rt.alloc(), &unread));
            Err(Stop::Told(tell(path, &answer, &mut Counted::new(rt.stderr()))))
        }
    }
}

/// Writes the notes on sources, and on a kerning file where one is named.
fn notes(rt: &HostRuntime, matches: &ArgMatches<'_>) -> Result<(), Stop> {
    let Some(sources) = matches.get_strs("SOURCE") else {
        return Ok(());
    };
    let kern = matches.get_str("kern");
    refuse_input_twice(sources, kern)?;
    let pairs = told_pairs(rt, kern)?;
    let notes = Notes {
        kern: kern.unwrap_or(""),
        pairs: &pairs,
    };
    let is_strict = matches.get_flag("strict");
    told(report(rt, &notes, asked_kind(matches), is_strict, sources))
}

/// Serves the commands of standard input on a source.
fn session(rt: &HostRuntime, matches: &ArgMatches<'_>) -> Result<(), Stop> {
    let (source, kern) = paths(matches);
    if is_standard_input(source) || kern.is_some_and(is_standard_input) {
        return Err(Stop::Misused(Misuse::InputOfSession));
    }
    let (source, pairs) = inputs(rt, source, kern)?;
    let mut input = Counted::new(rt.stdin());
    let mut out = Counted::new(rt.stdout());
    Ok(serve_file(
        rt.alloc(),
        asked_kind(matches),
        source,
        &pairs,
        &mut input,
        &mut out,
    )?)
}

/// What came of a command line that clap doesn't take for a command, with clap's text: a help, the
/// version, or what is wrong.
fn shown(rt: &HostRuntime, error: &Error) -> Result<(), Stop> {
    if error.kind() == ErrorKind::OutOfMemory {
        return Err(Stop::from(ServeError::Memory));
    }
    let printed = error.print(rt);
    if error.use_stderr() {
        Err(Stop::Rejected)
    } else if printed.is_err() {
        Err(Stop::from(ServeError::Write))
    } else {
        Ok(())
    }
}

/// Writes the explanation of a code, or of all codes.
fn explain_code(rt: &HostRuntime, matches: &ArgMatches<'_>) -> Result<(), Stop> {
    let mut out = Counted::new(rt.stdout());
    explain(
        rt.alloc(),
        &all_sections(),
        matches.get_str("CODE"),
        &mut out,
    )
}

/// That an output ended well, whatever it was.
fn all_written(_ended: Ended) {}

/// Runs the command that the words spell.
fn run(rt: &HostRuntime, words: &[String]) -> Result<(), Stop> {
    let Ok(command) = command(rt.alloc()) else {
        return Err(Stop::from(ServeError::Memory));
    };
    let matches = match command.try_get_matches_from(words) {
        Ok(matches) => matches,
        Err(error) => return shown(rt, &error),
    };
    match matches.subcommand() {
        Some(("assemble", matches)) => Ok(all_written(assemble(rt, matches)?)),
        Some(("disassemble", matches)) => Ok(all_written(disassemble(rt, matches)?)),
        Some(("measure", matches)) => Ok(all_written(measure(rt, matches)?)),
        Some(("check", matches)) => check(rt, matches),
        Some(("faults", matches)) => faults(rt, matches),
        Some(("notes", matches)) => notes(rt, matches),
        Some(("session", matches)) => session(rt, matches),
        Some(("explain", matches)) => explain_code(rt, matches),
        _ => Ok(()),
    }
}

/// Whether a word is the option that asks for a help.
fn is_help_option(word: &str) -> bool {
    word == "--help" || word == "-h"
}

/// Whether the words ask for the help of `help`, which is that of the program.
fn ask_for_help_of_help(words: &[String]) -> bool {
    match words {
        [_, help, asked] => help.as_str() == "help" && is_help_option(asked),
        _ => false,
    }
}

/// Runs the command that the arguments spell.
fn run_arguments(rt: &HostRuntime) -> Result<(), Stop> {
    let args = match env::args(rt) {
        Ok(args) => args,
        Err(error) if error.kind() == io::ErrorKind::OutOfMemory => {
            return Err(Stop::from(ServeError::Memory));
        }
        Err(_) => return Err(Stop::Misused(Misuse::NoText)),
    };
    let Ok(mut words) = args.collect::<Vec<String>>(rt.alloc()) else {
        return Err(Stop::from(ServeError::Memory));
    };
    if ask_for_help_of_help(&words) {
        words.truncate(2);
    }
    run(rt, &words)
}

fn main(rt: HostRuntime) -> ExitCode {
    let outcome = run_arguments(&rt);
    ExitCode::from(run_ending(&outcome, &mut Counted::new(rt.stderr())))
}
