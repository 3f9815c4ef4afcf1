//! The end of the example of the first page of `t1_session`; its beginning is `opened` of
//! `performing.rt`.

use crate::calls::{apply, print_afm};
use crate::stop::Stop;
use std::alloc::Global;
use std::io::Stdout;
use t1_code::Counted;
use t1_frac::Bytes;
use t1_session::Session;
use t1_source::{Cause, Edit};

/// Removes a glyph.
fn remove(alloc: Global, session: &mut Session, name: &[u8]) -> Result<(), Cause> {
    let name = Bytes::copied(alloc, name)?;
    apply(session, Edit::RemoveGlyph(name))
}

/// Writes the AFM file of a session from which a glyph is removed.
pub fn print_without(
    alloc: Global,
    session: &mut Session,
    name: &[u8],
    out: &mut Counted<Stdout>,
) -> Result<(), Stop> {
    remove(alloc, session, name)?;
    print_afm(session, out)?;
    Ok(())
}
