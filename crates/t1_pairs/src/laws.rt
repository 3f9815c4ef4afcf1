//! What printing and reading pairs have to do with each other.

ghost use Rattle.std.specs.Prelude.{◌≡◌, List, true, Ok};
ghost use Rattle.t1_pairs.specs.declared.pairs.Pair.{Pair};
ghost use Rattle.t1_pairs.specs.Kerning.{are_pairs, pairs, kern};

use crate::pairs::Pairs;

/// Kerning pairs that are printed are read as they were.
#[tactic(auto, using(crate::proofs::KernLaws::kern_again))]
pub fn printed_pairs_read()
    ensures { (ps : List Pair) → are_pairs ps ≡ true → pairs (kern ps) ≡ Ok ps }
{}

/// The text of some pairs is read as the pairs.
#[tactic(auto, using(crate::proofs::KernLaws::kern_again))]
pub fn text_of_pairs_read(kept: &Pairs)
    ensures { pairs (kern kept.now) ≡ Ok kept.now }
{
    let _count = kept.len();
}
