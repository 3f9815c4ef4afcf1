//! Pairs found by their names.

ghost use Rattle.std.specs.Prelude.{◌≡◌, ◌≤◌, ◌<◌, ℤ, pos, Some, None, length, slice_set};
ghost use Rattle.std.specs.Prelude.{MatchResult};
ghost use Rattle.std.specs.List.{insert, position};
ghost use Rattle.t1_pairs.specs.Kerning.{is_pair, pair_cmp, put_pair};

use crate::pairs::{Pair, Pairs};
use std::cmp::Ordering;

/// How a pair stands to two names, by the bytes of the left, then the right one.
fn names_cmp(pair: &Pair, left: &[u8], right: &[u8]) -> Ordering
    ensures { result
        ≡ pair_cmp pair.now (record { left = left.now; right = right.now; value = pos 0 }) }
{
    match pair.left.as_slice().cmp(left) {
        Ordering::Equal => pair.right.as_slice().cmp(right),
        order => order,
    }
}

impl Pairs {
    /// Where the pair of these names stands, or else where it would.
    pub fn place_of(&self, left: &[u8], right: &[u8]) -> Result<usize, usize>
        ensures within { MatchResult result (λ at. at < length self.now)
            (λ at. at ≤ length self.now) }
        ensures found { MatchResult
            result
            (λ at. position (is_pair left.now right.now) self.now ≡ Some at)
            (λ at. position (is_pair left.now right.now) self.now ≡ None) }
        ensures put { (v : ℤ)
            → MatchResult result
            (λ at.
            put_pair (record { left = left.now; right = right.now; value = v }) self.now
            ≡ slice_set self.now at
            (record { left = left.now; right = right.now; value = v }))
            (λ at.
            put_pair (record { left = left.now; right = right.now; value = v }) self.now
            ≡ insert self.now at
            (record { left = left.now; right = right.now; value = v })) }
    {
        self.buckets()
            .binary_search_by(|pair| names_cmp(pair, left, right))
    }
}
