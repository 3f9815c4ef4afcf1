//! That no output is written over what it is made of.
use crate::identity::{Descriptor, stands_at};
use crate::input::is_standard_input;
use crate::output::is_standard_output;
use crate::status::Misuse;
use std::fs::{self, Metadata};

/// Whether an input is this file, by whatever name.
fn is_input(rt: &HostRuntime, input: &str, there: &Metadata) -> bool {
    if is_standard_input(input) {
        return Descriptor::Input.is_open_on(rt, there);
    }
    stands_at(rt, input, there)
}

/// The file at a path for the output, where there is one: a device or a pipe may be an input too.
fn file_at(rt: &HostRuntime, output: &str) -> Option<Metadata> {
    if is_standard_output(output) {
        return None;
    }
    match fs::metadata(rt, output) {
        Ok(there) if there.is_file() => Some(there),
        _ => None,
    }
}

/// Refuses a path for the output at which the font's file stands.
pub fn refuse_over_font(rt: &HostRuntime, output: &str, font: &str) -> Result<(), Misuse> {
    match file_at(rt, output) {
        Some(there) if is_input(rt, font, &there) => Err(Misuse::OutputOverFont),
        _ => Ok(()),
    }
}

/// Refuses a path for the output at which the source or the kerning file stands.
pub fn refuse_over_input(
    rt: &HostRuntime,
    output: &str,
    source: &str,
    kern: Option<&str>,
) -> Result<(), Misuse> {
    let Some(there) = file_at(rt, output) else {
        return Ok(());
    };
    if is_input(rt, source, &there) {
        return Err(Misuse::OutputOverSource);
    }
    match kern {
        Some(kern) if is_input(rt, kern, &there) => Err(Misuse::OutputOverPairs),
        _ => Ok(()),
    }
}
