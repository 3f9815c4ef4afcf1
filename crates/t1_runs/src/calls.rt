//! The calls of a session, each in a function of its own: a function is proved with the whole
//! contracts of all calls that it makes.

ghost use Rattle.t1_commands.specs.declared.command.SessionCommand.TheVariants as commands;
ghost use Rattle.t1_session.specs.Outcomes.{Takes, TakesOrReturns};

use std::alloc::Global;
use std::io::Stdout;
use t1_code::{Counted, OutError};
use t1_frac::Refusal;
use t1_pairs::Pairs;
use t1_session::Session;
use t1_source::{Cause, Edit, Source};

pub fn open<'a>(alloc: Global, source: Source<'a>, pairs: Pairs) -> Result<Session<'a>, Refusal> {
    Session::open(alloc, source, pairs)
}

/// Takes an edit, or says why it was refused, with the edit.
pub fn try_apply(session: &mut Session, edit: Edit) -> Result<(), (Cause, Edit)>
    ensures { TakesOrReturns session.old.state (commands.Edit edit) edit result session.new.state }
{
    session.try_apply(edit)
}

pub fn apply(session: &mut Session, edit: Edit) -> Result<(), Cause>
    ensures { Takes session.old.state (commands.Edit edit) result session.new.state }
{
    session.apply(edit)
}

pub fn begin(session: &mut Session) -> Result<(), Cause>
    ensures { Takes session.old.state commands.Begin result session.new.state }
{
    session.begin()
}

pub fn commit(session: &mut Session) -> Result<(), Cause>
    ensures { Takes session.old.state commands.Commit result session.new.state }
{
    session.commit()
}

pub fn abort(session: &mut Session) -> Result<(), Cause>
    ensures { Takes session.old.state commands.Abort result session.new.state }
{
    session.abort()
}

pub fn print_source(session: &Session, out: &mut Counted<Stdout>) -> Result<(), OutError> {
    session.print_source(out)
}

pub fn print_kern(session: &Session, out: &mut Counted<Stdout>) -> Result<(), OutError> {
    session.print_kern(out)
}

pub fn print_pfb(session: &Session, out: &mut Counted<Stdout>) -> Result<(), OutError> {
    session.print_pfb(out)
}

/// Prints the font in blocks of 40 bytes.
pub fn print_blocks(session: &Session, out: &mut Counted<Stdout>) -> Result<(), OutError> {
    session.print_pfb_blocks(40, out)
}

pub fn print_pfa(session: &Session, out: &mut Counted<Stdout>) -> Result<(), OutError> {
    session.print_pfa(out)
}

pub fn print_afm(session: &Session, out: &mut Counted<Stdout>) -> Result<(), OutError> {
    session.print_afm(out)
}

pub fn print_uses(session: &Session, out: &mut Counted<Stdout>) -> Result<(), OutError> {
    session.print_uses(out)
}
