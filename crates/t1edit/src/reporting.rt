//! What is written of files in turn, on standard output.

ghost use Rattle.std.specs.Prelude.{◌≡◌};
ghost use Rattle.t1edit.specs.Reporting.{InOrder, PutsReport, ReportsEach, ReportsFile};
ghost use Rattle.t1edit.specs.Reporting.{ReportsPath, has_found, told_of};
ghost use Rattle.t1edit.specs.Sources.{OnSource, source_in as source_in_file};

use crate::file_error::FileError;
use crate::several::{Files, tell};
use crate::source_file::{Kind, source_in};
use crate::status::FAULT;
use crate::unread::with_reason;
use std::alloc::{AllocError, Global};
use std::io::Write;
use t1_code::Counted;
use t1_session::ServeError;

/// A text on what was found in a source.
#[derive(Drop)]
pub struct Told {
    pub text: Vec<u8>,
    /// Whether something was found.
    pub has_found: bool,
}

/// What is told of sources.
pub trait Report {
    ghost use Rattle.std.specs.Prelude.{ℕ, Bool, List, ◌≡◌, IfOk};

    /// What is told of the source of a file of this name.
    ghost says: { Self → List ℕ → List ℕ → List ℕ };

    /// Whether something is found in a source.
    ghost finds: { Self → List ℕ → Bool };

    /// What is told of the source of a file of this name.
    fn told(&self, alloc: Global, path: &str, source: &[u8]) -> Result<Told, AllocError>
        ensures text { IfOk result (λ told. told.text.items ≡ says self.now path.now source.now) }
        ensures finds { IfOk result (λ told. told.has_found ≡ finds self.now source.now) };
}

/// Writes what is told of a source, and says whether something was found.
fn put_report<R: Report, W: Write>(
    alloc: Global,
    report: &R,
    path: &str,
    source: &[u8],
    out: &mut Counted<W>,
) -> Result<bool, ServeError>
    ensures { PutsReport W.contents (R.says report.now path.now source.now)
        (R.finds report.now source.now) out.old out.new result }
{
    let told = report.told(alloc, path, source)?;
    out.put_all(&told.text)?;
    Ok(told.has_found)
}

/// Writes what is told of the source of a file.
fn report_on<R: Report, W: Write>(
    alloc: Global,
    report: &R,
    kind: Kind,
    path: &str,
    file: Vec<u8>,
    out: &mut Counted<W>,
) -> Result<bool, FileError>
    ensures { OnSource (source_in_file kind file.items) out.old out.new
        (λ source answer. PutsReport W.contents (R.says report.now path.now source)
        (R.finds report.now source) out.old out.new answer) result }
{
    let source = source_in(alloc, kind, file)?;
    Ok(put_report(alloc, report, path, &source, out)?)
}

/// Reads a file, and writes what is told of its source.
fn report_path<F: Files, R: Report, W: Write>(
    alloc: Global,
    files: &F,
    report: &R,
    kind: Kind,
    path: &str,
    out: &mut Counted<W>,
) -> Result<bool, FileError>
    ensures { ReportsPath F.holds F.fails files.now kind W.contents (R.says report.now path.now)
        (R.finds report.now) path.now out.old out.new result }
{
    let file = match files.read(path) {
        Ok(file) => file,
        Err(unread) => return Err(with_reason(alloc, &unread)),
    };
    report_on(alloc, report, kind, path, file, out)
}

/// What is told of a file on standard error.
fn told_of(answer: Result<bool, FileError>) -> Result<(), FileError>
    ensures { result ≡ told_of answer }
{
    match answer {
        Ok(_) => Ok(()),
        Err(error) => Err(error),
    }
}

/// Whether something was found in a file.
fn has_found(answer: &Result<bool, FileError>) -> bool
    ensures { result ≡ has_found answer.now }
{
    match answer {
        Ok(has_found) => *has_found,
        Err(_) => false,
    }
}

/// Writes what is told of a file, or the line of one that can't be read; the exit status is 1 where
/// something was found and nothing is wanted.
fn report_file<F: Files, R: Report, W: Write, E: Write>(
    alloc: Global,
    files: &F,
    report: &R,
    kind: Kind,
    is_strict: bool,
    path: &str,
    out: &mut Counted<W>,
    lines: &mut Counted<E>,
) -> u8
    ensures { ReportsFile F.holds F.fails files.now kind is_strict (R.says report.now)
        (R.finds report.now) path.now W.contents out.old out.new E.contents lines.old lines.new
        result }
{
    let answer = report_path(alloc, files, report, kind, path, out);
    if is_strict && has_found(&answer) {
        return FAULT;
    }
    tell(path, &told_of(answer), lines)
}

/// Writes what is told of files in turn, whatever becomes of those before, and answers the worst
/// status.
pub fn report_files<F: Files, R: Report, W: Write, E: Write>(
    alloc: Global,
    files: &F,
    report: &R,
    kind: Kind,
    is_strict: bool,
    paths: &[&str],
    out: &mut Counted<W>,
    lines: &mut Counted<E>,
) -> u8
    ensures { InOrder (ReportsEach F.holds F.fails files.now kind is_strict (R.says report.now)
        (R.finds report.now) W.contents E.contents)
        paths.now (out.old, lines.old) (out.new, lines.new) result }
{
    let mut worst = 0;
    for path in paths {
        let status = report_file(alloc, files, report, kind, is_strict, path, out, lines);
        worst = status.max(worst);
    }
    worst
}
