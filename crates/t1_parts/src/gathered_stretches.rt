//! The stretches of items that are read, one after another.

ghost use Rattle.std.specs.Prelude.{◌≡◌, ◌++◌, ◌∷◌, [], length, option_map, IfOk, OnOk};
ghost use Rattle.std.specs.List.{find};
ghost use Rattle.t1_parts.specs.LenIV.{says_lead};
ghost use Rattle.t1_parts.specs.NumberedStretches.{numbered_in};
ghost use Rattle.t1_parts.specs.Stretches.{stretches_in};

use crate::blocks::FULL;
use crate::item::Item;
use crate::stretch::Stretch;
use std::alloc::{AllocError, Global};
use std::marker::Model;
use std::mem;

/// Stretches in lists of as many as a block has, of which the last one is being filled. So none is
/// moved when others come, nor when a list becomes a block. Contracts see one list.
#[derive(Drop)]
pub(crate) struct GatheredStretches<'a> {
    full: Vec<Vec<Stretch<'a>>>,
    last: Vec<Stretch<'a>>,
}

impl<'a> Model for GatheredStretches<'a> {
    ghost use Rattle.std.specs.Prelude.{◌++◌, List};
    ghost use Rattle.t1_parts.specs.declared.stretch.Stretch.{Stretch};
    ghost use Rattle.t1_parts.specs.Stretches.{stretches_in};

    ghost Value = { List Stretch };

    ghost view = { λ g. stretches_in g.full.items ++ g.last.items };
}

/// The first item of some stretches that says lenIV, with its number.
fn first_saying<'s, 'a>(
    numbers: &[u64],
    stretches: &'s [Stretch<'a>],
) -> Option<(u64, &'s Item<'a>)>
    requires { length numbers.now ≡ length stretches.now }
    ensures { option_map (λ i. (i.0, i.1.now)) result
        ≡ find (λ i. says_lead i.1) (numbered_in numbers.now stretches.now) }
{
    for at in 0..stretches.len() {
        let stretch = &stretches[at];
        if let Some(item) = stretch.saying() {
            return Some((numbers[at], item));
        }
    }
    None
}

impl<'a> GatheredStretches<'a> {
    /// No stretches.
    pub(crate) fn new(alloc: Global) -> Self
        ensures { result ≡ [] }
    {
        GatheredStretches {
            full: Vec::new(alloc),
            last: Vec::new(alloc),
        }
    }

    /// Adds a stretch. Where memory runs out, nothing is said of those before.
    pub(crate) fn push(&mut self, stretch: Stretch<'a>) -> Result<(), AllocError>
        ensures { OnOk result (self.new ≡ self.old ++ stretch.entry ∷ []) }
    {
        if FULL <= self.last.len() {
            let next = Vec::with_capacity(*self.last.allocator(), FULL)?;
            let full = mem::replace(&mut self.last, next);
            self.full.push(full)?;
        }
        self.last.push(stretch)?;
        Ok(())
    }

    /// The first item that says lenIV, with its number, where the stretches have these. Lines that
    /// stand together say nothing of it.
    pub(crate) fn first_saying(&self, numbers: &[u64]) -> Option<(u64, &Item<'a>)>
        requires { length numbers.now ≡ length self.now }
        ensures { option_map (λ i. (i.0, i.1.now)) result
            ≡ find (λ i. says_lead i.1) (numbered_in numbers.now self.now) }
    {
        let mut left = numbers;
        for stretches in &self.full {
            let (here, later) = left.split_at(stretches.len());
            if let Some(found) = first_saying(here, stretches.as_slice()) {
                return Some(found);
            }
            left = later;
        }
        first_saying(left, self.last.as_slice())
    }

    /// The lists.
    pub(crate) fn into_lists(self) -> Result<Vec<Vec<Stretch<'a>>>, AllocError>
        ensures { IfOk result (λ lists. stretches_in lists.items ≡ self.entry) }
    {
        let GatheredStretches { mut full, last } = self;
        full.push(last)?;
        Ok(full)
    }
}
