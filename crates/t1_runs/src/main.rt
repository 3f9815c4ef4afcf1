//! `t1_runs SOURCE < SCRIPT`: a tool of the tests. It opens a session on the source, without pairs,
//! and performs a script: commands of a session, each on a line of its own with its body.
//!
//! For the opening, and for each command but a print, it writes a line: how many runs of glyphs
//! there were by then, whether a batch is open, and the answer. A print is written as it is, with a
//! line end. Edits are made by `try_apply`. Where one ran out of memory, a line says so, all
//! prints follow, and the edit that came back is made by `apply`.
//!
//! `t1_runs serve SOURCE < COMMANDS` serves a session, and writes a line wherever it is flushed.
//!
//! `t1_runs without SOURCE NAME` writes the AFM file of the source from which the glyph of the name
//! is removed.
//!
//! What is proved: `apply`, `begin`, `commit` and `abort` are the session's own commands (`Takes`),
//! and so is `try_apply`, with the edit that comes back (`TakesOrReturns`). The rest has no
//! contracts.
#![tactic(auto)]

mod calls;
mod example;
mod performing;
mod serving;
mod stop;

use example::print_without;
use performing::{opened, perform_script};
use serving::serve_source;
use std::env;
use std::fs::File;
use std::io::{ErrorKind, Read};
use std::process::ExitCode;
use stop::{Stop, report};
use t1_code::Counted;

/// All bytes of a file.
fn read_file(rt: &HostRuntime, path: &str) -> Result<Vec<u8>, Stop> {
    let mut bytes = Vec::new(rt.alloc());
    File::open(rt, path)?.read_to_end(&mut bytes)?;
    Ok(bytes)
}

/// All bytes of standard input.
fn read_script(rt: &HostRuntime) -> Result<Vec<u8>, Stop> {
    let mut bytes = Vec::new(rt.alloc());
    rt.stdin().read_to_end(&mut bytes)?;
    Ok(bytes)
}

/// Performs the script of standard input on the source at a path.
fn perform(rt: &HostRuntime, path: &str) -> Result<(), Stop> {
    let source = read_file(rt, path)?;
    let script = read_script(rt)?;
    perform_script(rt.alloc(), &source, &script, &mut Counted::new(rt.stdout()))
}

/// Serves the commands of standard input on the source at a path.
fn serve(rt: &HostRuntime, path: &str) -> Result<(), Stop> {
    let source = read_file(rt, path)?;
    serve_source(rt, &source)
}

/// Writes the metrics of the source at a path without the glyph of a name.
fn write_without(rt: &HostRuntime, path: &str, name: &str) -> Result<(), Stop> {
    let text = read_file(rt, path)?;
    let mut session = opened(rt.alloc(), &text)?;
    let mut out = Counted::new(rt.stdout());
    print_without(rt.alloc(), &mut session, name.as_bytes(), &mut out)
}

fn run(rt: &HostRuntime) -> Result<(), Stop> {
    let args = match env::args(rt) {
        Ok(args) => args,
        Err(error) if error.kind() == ErrorKind::OutOfMemory => return Err(Stop::Memory),
        Err(_) => return Err(Stop::Usage),
    };
    let words = args.collect::<Vec<String>>(rt.alloc())?;
    match words.as_slice() {
        [_, path] => perform(rt, path.as_str()),
        [_, verb, path] if verb.as_str() == "serve" => serve(rt, path.as_str()),
        [_, verb, path, name] if verb.as_str() == "without" => {
            write_without(rt, path.as_str(), name.as_str())
        }
        _ => Err(Stop::Usage),
    }
}

fn main(rt: HostRuntime) -> ExitCode {
    match run(&rt) {
        Ok(()) => ExitCode::SUCCESS,
        Err(stop) => {
            report(stop, &mut rt.stderr());
            ExitCode::FAILURE
        }
    }
}
