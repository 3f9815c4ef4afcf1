//! A glyph's record in its own memory.
ghost use Rattle.std.specs.Prelude.{◌≡◌, IfOk};
ghost use Rattle.std.specs.Borrow.{sem, Lends};
ghost use Rattle.t1_cache.specs.contracts.boxed.BoxedRecord.{the_row};
ghost use Rattle.t1_cache.specs.contracts.records.GlyphRecord.{the_row as record_row};

use crate::records::GlyphRecord;
use std::alloc::{AllocError, Global};
use std::marker::Model;

/// The record of a glyph in its own memory. The table of records holds its address alone, so that a
/// removal, which moves all entries behind it, moves little.
#[derive(Drop)]
pub struct BoxedRecord {
    entry: Box<GlyphRecord>,
}

impl Model for BoxedRecord {
    ghost use Rattle.t1_cache.specs.contracts.records.GlyphRecord.{the_row};
    ghost use Rattle.t1_cache.specs.declared.records.GlyphRecord.{GlyphRecord};

    ghost Value = { GlyphRecord };

    ghost coded = { the_row.coded };

    ghost view = { λ boxed. boxed.entry.value };
}

impl BoxedRecord {
    /// Moves a record into memory of its own.
    pub fn new(alloc: Global, entry: GlyphRecord) -> Result<BoxedRecord, AllocError>
        ensures { IfOk result (λ boxed. boxed ≡ entry) }
    {
        let entry = Box::new(alloc, entry)?;
        Ok(BoxedRecord { entry })
    }

    /// The record.
    pub fn record(&self) -> &GlyphRecord
        ensures { result.now ≡ self.now }
    {
        &self.entry
    }

    /// The record, to be changed.
    pub fn record_mut(&mut self) -> &mut GlyphRecord
        ensures now { result.now ≡ self.old }
        ensures* lends { sem 𝓛 (Lends the_row record_row self.entry result (λ entry. entry)) }
    {
        &mut self.entry
    }
}
