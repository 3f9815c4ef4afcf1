//! What a code, a rule or an exit status means.
ghost use Rattle.std.specs.Prelude.{option_map};
ghost use Rattle.t1edit.specs.Explaining.{Explains};
ghost use Rattle.t1_command_line.specs.Topics.{explanation as explanation_of};

use crate::status::{Misuse, Stop};
use std::alloc::Global;
use std::io::Write;
use t1_code::Counted;
use t1_command_line::{TopicGroup, explanation};
use t1_session::ServeError;

/// Writes what the sections say of a code; of all codes, in a few words, where none is given.
pub fn explain<W: Write>(
    alloc: Global,
    sections: &[TopicGroup],
    code: Option<&str>,
    out: &mut Counted<W>,
) -> Result<(), Stop>
    ensures { Explains W.contents out.old out.new
        (explanation_of sections.now (option_map (λ word. word.now) code.entry)) result }
{
    let Ok(explained) = explanation(alloc, sections, code) else {
        return Err(Stop::from(ServeError::Memory));
    };
    let Some(text) = explained else {
        return Err(Stop::Misused(Misuse::UnknownCode));
    };
    match out.put_all(text.as_bytes()) {
        Ok(()) => Ok(()),
        Err(_) => Err(Stop::from(ServeError::Write)),
    }
}
