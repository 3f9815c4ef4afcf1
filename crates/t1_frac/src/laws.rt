//! Laws of fractions.

ghost use Rattle.t1_frac.specs.Rounding.{LowestStays, LowestTerms, RoundAlike, RoundingMoves};
ghost use Rattle.t1_frac.specs.Rounding.{SameLowest, WholeIsOverOne, FloorAndCeilingMove};

/// Lowest terms are the same number by cross products, and numerator and denominator have no
/// divisor in common.
pub fn lowest_terms()
    ensures { LowestTerms }
{}

/// Equal fractions have the same lowest terms.
#[tactic(auto, using(crate::proofs::SameLowest::same_lowest))]
pub fn same_lowest()
    ensures { SameLowest }
{}

/// Lowest terms are their own lowest terms.
#[tactic(auto, using(crate::proofs::SameLowest::lowest_stays))]
pub fn lowest_stays()
    ensures { LowestStays }
{}

/// A fraction in lowest terms is a whole number where its denominator is 1, and there alone.
#[tactic(auto, using(crate::proofs::SameLowest::whole_is_over_one))]
pub fn whole_is_over_one()
    ensures { WholeIsOverOne }
{}

/// Equal fractions have the same floor and the same ceiling.
#[tactic(auto, using(crate::proofs::Rounded::round_alike))]
pub fn round_alike()
    ensures { RoundAlike }
{}

/// Floor and ceiling of a fraction move with whole numbers, whatever its size and however fine it
/// is.
pub fn floor_and_ceiling_move()
    ensures { FloorAndCeilingMove }
{}

/// Floor and ceiling of a coordinate move with whole numbers.
#[tactic(auto, using(crate::proofs::Rounded::rounding_moves))]
pub fn rounding_moves()
    ensures { RoundingMoves }
{}
