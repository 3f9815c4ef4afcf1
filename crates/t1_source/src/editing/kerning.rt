//! Edits of kerning pairs.

ghost use Rattle.std.specs.Prelude.{◌≡◌, IfOk};
ghost use Rattle.t1_parts.specs.SourceParts.{SourceParts};
ghost use Rattle.t1_source.specs.Changes.{changed, Fits};
ghost use Rattle.t1_source.specs.Editing.{beside_source, kerned, unkerned};
ghost use Rattle.t1_source.specs.EditOutcomes.{Edits};

use crate::edit::{Cause, Rule};
use crate::editing::Change;
use crate::editing::rules::{good_name, kerning_number};
use std::alloc::{AllocError, Global};
use t1_frac::Bytes;
use t1_pairs::{Pair, Pairs};

/// The pair of two names.
fn pair_of(alloc: Global, left: &[u8], right: &[u8], value: i32) -> Result<Pair, AllocError>
    ensures { IfOk result
        (λ pair. pair ≡ record { left = left.now; right = right.now; value = value }) }
{
    let left = Bytes::copied(alloc, left)?;
    let right = Bytes::copied(alloc, right)?;
    Ok(Pair { left, right, value })
}

/// A pair put in, or given another value.
#[tactic(auto, unfolding(crate::specs::Editing::kerned))]
pub fn kerning_pair<'a>(
    pairs: &Pairs,
    left: &[u8],
    right: &[u8],
    value: i64,
) -> Result<Change<'a>, Cause>
    ensures change { (s : SourceParts)
        → Edits (λ change. changed change s pairs.now) result
        (beside_source s (kerned pairs.now left.now right.now value)) }
    ensures fits { (s : SourceParts) → IfOk result (λ change. Fits change s pairs.now) }
{
    good_name(left)?;
    good_name(right)?;
    let value = kerning_number(value)?;
    let place = pairs.place_of(left, right);
    let pair = pair_of(pairs.alloc(), left, right, value)?;
    match place {
        Ok(at) => Ok(Change::PutPair(at, pair)),
        Err(at) => Ok(Change::InsertPair(at, pair)),
    }
}

/// A pair taken out.
#[tactic(auto, unfolding(crate::specs::Editing::unkerned))]
pub fn unkerning_pair<'a>(pairs: &Pairs, left: &[u8], right: &[u8]) -> Result<Change<'a>, Cause>
    ensures change { (s : SourceParts)
        → Edits (λ change. changed change s pairs.now) result
        (beside_source s (unkerned pairs.now left.now right.now)) }
    ensures fits { (s : SourceParts) → IfOk result (λ change. Fits change s pairs.now) }
{
    good_name(left)?;
    good_name(right)?;
    match pairs.place_of(left, right) {
        Ok(at) => Ok(Change::RemovePair(at)),
        Err(_) => Err(Cause::Rule(Rule::E10)),
    }
}
