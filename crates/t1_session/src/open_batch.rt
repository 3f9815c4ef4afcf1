//! The batch that a session has open.
ghost use Rattle.std.specs.Prelude.{◌≡◌, false, IfOk, List, OnOk, is_some, true};
ghost use Rattle.t1_parts.specs.SourceParts.{SourceParts};
ghost use Rattle.t1_pairs.specs.declared.pairs.Pair.{Pair};
ghost use Rattle.t1_source.specs.Hints.{IsTrueOfEdit};
ghost use Rattle.t1_session.specs.OpenBatch.{draft_of_edit, is_drafted, is_unedited, open_draft};
ghost use Rattle.t1_session.specs.OpenBatch.{DraftsOn, IsMadeOf, IsOpenOn, OpensWith};

use std::alloc::{AllocError, Global};
use std::mem;
use t1_held::Batch;
use t1_pairs::Pairs;
use t1_source::laws::source_is_well_formed;
use t1_source::{Cause, Edit, Hint, Source};

/// The batch that a session has open, or none. From the second edit of a batch on its edits are
/// made on copies of the source and the pairs, which share what no edit of it changes.
#[derive(Drop)]
pub enum OpenBatch<'a> {
    /// No batch is open.
    Closed,
    /// One without edits: its source and its pairs are those of the session.
    Unedited,
    /// One of a single edit, which keeps the edit rules and isn't made yet, and the place where its
    /// entry is looked for.
    Single(Edit, usize),
    /// One of several edits, which are made on copies.
    Drafted(Batch<'a>),
}

/// A batch of a single edit, or the first edit rule that it breaks. Its entry is looked for by a
/// hint.
fn single<'a>(
    alloc: Global,
    source: &Source<'a>,
    pairs: &Pairs,
    edit: &Edit,
    hint: Hint,
) -> Result<OpenBatch<'a>, Cause>
    requires { IsTrueOfEdit hint edit.now source.now }
    ensures { OpensWith edit.now source.now pairs.now result }
{
    drop(source.prepared_near(pairs, edit, hint)?);
    Ok(OpenBatch::Single(edit.copied(alloc)?, hint.near()))
}

/// A batch of an edit that keeps the edit rules, made on copies of a source and its pairs. An entry
/// is looked for first before a place.
fn drafted<'a>(
    alloc: Global,
    source: &Source<'a>,
    pairs: &Pairs,
    edit: &Edit,
    near: usize,
) -> Result<Batch<'a>, AllocError>
    ensures { IfOk result (IsMadeOf edit.now source.now pairs.now) }
{
    source_is_well_formed(source);
    let mut batch = Batch::of(alloc, source, pairs)?;
    match batch.edit(alloc, edit, near) {
        Ok(()) => Ok(batch),
        // It breaks no rule.
        Err(_) => Err(AllocError),
    }
}

impl<'a> OpenBatch<'a> {
    /// Whether a batch is open.
    pub fn is_open(&self) -> bool
        ensures { (s : SourceParts) (k : List Pair)
            → IsOpenOn s k self.now
            → result ≡ is_some (open_draft s k self.now) }
    {
        !matches!(self, OpenBatch::Closed)
    }

    /// Whether it is a batch without edits.
    fn is_unedited(&self) -> bool
        ensures { result ≡ is_unedited self.now }
    {
        matches!(self, OpenBatch::Unedited)
    }

    /// Makes a single edit that waits on copies. Where memory runs out, nothing has changed.
    fn draft(&mut self, alloc: Global, source: &Source<'a>, pairs: &Pairs) -> Result<(), AllocError>
        requires kept { IsOpenOn source.now pairs.now self.old }
        ensures same { open_draft source.now pairs.now self.new
            ≡ open_draft source.now pairs.now self.old }
        ensures kept { IsOpenOn source.now pairs.now self.new }
        ensures drafted { OnOk result
            (is_some (open_draft source.now pairs.now self.old) ≡ true
            → is_unedited self.old ≡ false
            → is_drafted self.new ≡ true) }
    {
        let OpenBatch::Single(edit, near) = self else {
            return Ok(());
        };
        let batch = drafted(alloc, source, pairs, edit, *near)?;
        drop(mem::replace(self, OpenBatch::Drafted(batch)));
        Ok(())
    }

    /// Makes an edit in a batch whose edits are made on copies, or answers the first edit rule that
    /// it breaks and changes nothing, as where memory runs out.
    fn edit_copies(&mut self, alloc: Global, edit: &Edit, near: usize) -> Result<(), Cause>
        requires { is_drafted self.old ≡ true }
        ensures { (s : SourceParts) (k : List Pair)
            → IsOpenOn s k self.old
            → DraftsOn s k self.old edit.now result self.new }
    {
        match self {
            OpenBatch::Drafted(batch) => batch.edit(alloc, edit, near),
            _ => Ok(()),
        }
    }

    /// Makes an edit in the batch that is open on a source and its pairs, or answers the first edit
    /// rule that it breaks and changes nothing, as where memory runs out. No glyph is run. The
    /// entry is looked for by a hint, which is true of this source, and of copies tells a place.
    pub fn edit(
        &mut self,
        alloc: Global,
        source: &Source<'a>,
        pairs: &Pairs,
        edit: &Edit,
        hint: Hint,
    ) -> Result<(), Cause>
        requires hint { IsTrueOfEdit hint edit.now source.now }
        requires kept { IsOpenOn source.now pairs.now self.old }
        requires some { is_some (open_draft source.now pairs.now self.old) ≡ true }
        ensures { DraftsOn source.now pairs.now self.old edit.now result self.new }
    {
        if self.is_unedited() {
            let single = single(alloc, source, pairs, edit, hint)?;
            drop(mem::replace(self, single));
            return Ok(());
        }
        self.draft(alloc, source, pairs)?;
        self.edit_copies(alloc, edit, hint.near())
    }
}
