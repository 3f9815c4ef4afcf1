//! The faults of sources and of kerning files.
ghost use Rattle.std.specs.Prelude.{◌≡◌, IfOk};
ghost use Rattle.t1edit.specs.Finding.{faults_in, faults_on, has_faults, laid_out, layout_of};

use crate::fault_json::faults_json;
use crate::fault_lines::faults_lines;
use crate::reporting::{Report, Told};
use std::alloc::{AllocError, Global};
use t1_command_line::TopicGroup;
use t1_fault_texts::pairs_faults;
use t1_faults::{FoundFault, source_faults};

/// How faults are laid out.
#[derive(Clone, Copy, Debug, PartialEq, Eq)]
pub enum Layout {
    /// As lines that people and editors read.
    Lines,
    /// As objects of JSON, a line each.
    Json,
}

/// The layout that the option `--json` says.
pub fn layout_of(is_json: bool) -> Layout
    ensures { result ≡ layout_of is_json }
{
    if is_json { Layout::Json } else { Layout::Lines }
}

/// What is sought in a file.
#[derive(Clone, Copy, Debug, PartialEq, Eq)]
pub enum Sought {
    /// Every fault of a source.
    Source,
    /// The fault of a kerning file.
    Pairs,
}

/// The faults of a file, of the kind that is sought.
fn faults_in(alloc: Global, sought: Sought, bytes: &[u8]) -> Result<Vec<FoundFault<'_>>, AllocError>
    ensures { IfOk result (λ found. found.items ≡ faults_in sought bytes.now) }
{
    match sought {
        Sought::Source => source_faults(alloc, bytes),
        Sought::Pairs => pairs_faults(alloc, bytes),
    }
}

/// The faults of a file of this name, laid out.
fn laid_out(
    alloc: Global,
    sections: &[TopicGroup],
    layout: Layout,
    path: &str,
    bytes: &[u8],
    faults: &[FoundFault<'_>],
) -> Result<Vec<u8>, AllocError>
    ensures { IfOk result (λ text. text.items ≡ laid_out sections.now layout path.now bytes.now
        faults.now) }
{
    match layout {
        Layout::Lines => faults_lines(alloc, path.as_bytes(), sections, bytes, faults),
        Layout::Json => faults_json(alloc, path, faults),
    }
}

/// What is told of a file of this name.
fn faults_on(
    alloc: Global,
    sections: &[TopicGroup],
    layout: Layout,
    sought: Sought,
    path: &str,
    bytes: &[u8],
) -> Result<Told, AllocError>
    ensures text { IfOk result (λ told. told.text.items ≡ faults_on sections.now layout sought
        path.now bytes.now) }
    ensures finds { IfOk result (λ told. told.has_found ≡ has_faults sought bytes.now) }
{
    let faults = faults_in(alloc, sought, bytes)?;
    let text = laid_out(alloc, sections, layout, path, bytes, &faults)?;
    let has_found = !faults.is_empty();
    Ok(Told { text, has_found })
}

/// The faults of files, laid out.
#[derive(Clone, Copy)]
pub struct Faults<'a> {
    /// What each code means.
    pub sections: &'a [TopicGroup],
    pub layout: Layout,
    pub sought: Sought,
}

impl Report for Faults<'_> {
    ghost says = { λ faults. faults_on faults.sections.now faults.layout faults.sought };

    ghost finds = { λ faults. has_faults faults.sought };

    fn told(&self, alloc: Global, path: &str, source: &[u8]) -> Result<Told, AllocError> {
        faults_on(alloc, self.sections, self.layout, self.sought, path, source)
    }
}
