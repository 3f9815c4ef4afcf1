//! The bodies of a font's source, compiled by the font's charstrings.
ghost use Rattle.std.specs.Prelude.{◌≡◌, MatchResult};
ghost use Rattle.t1_session.specs.declared.error.ServeError.TheVariants.{Memory};

use std::alloc::Global;
use t1_code::Command;
use t1_disassemble::{CodedBodies, CodedText};
use t1_font::Compiler;
use t1_frac::{Refusal, Words};
use t1_session::ServeError;

/// Compiles the bodies of a font's source by its charstrings.
#[derive(Drop)]
pub struct FontBodies<'a> {
    bodies: CodedBodies<'a>,
}

impl<'a> FontBodies<'a> {
    /// Those of this source, of which none was compiled.
    pub fn of(alloc: Global, text: &'a CodedText) -> Result<FontBodies<'a>, ServeError>
        ensures { MatchResult result (λ made. made.bodies ≡ (text.now, 0))
            (λ error. error ≡ Memory) }
    {
        Ok(FontBodies {
            bodies: CodedBodies::of(alloc, text)?,
        })
    }
}

impl<'a> Compiler for FontBodies<'a> {
    fn compile_next(&mut self, others: &mut Vec<Command>, words: &Words) -> Result<(), Refusal> {
        self.bodies.compile_next(others, words)
    }
}
