//! Laws of extremes.

ghost use Rattle.t1_extent.specs.Laws.{AccentLaw, BoxLaw, BoxMovesLaw, BothLaw, CheckLaw};
ghost use Rattle.t1_extent.specs.Laws.{DrawnBoxLaw, DrawnMovesLaw, JoinedLaw, LimitsLaw, MovedLaw};
ghost use Rattle.t1_extent.specs.Laws.{RunsLaw, WholeOfBothLaw, WholeStaysLaw, WithinLaw};

/// An outline's box is that of its extremes, rounded outward.
#[tactic(auto, using(crate::proofs::Summaries::box_law))]
pub fn box_of_extremes()
    ensures { BoxLaw }
{}

/// The summary of two outlines in one is the union of both.
#[tactic(auto, using(crate::proofs::Summaries::both_law))]
pub fn summary_of_both()
    ensures { BothLaw }
{}

/// Where an outline can be moved, its summary moves with it.
#[tactic(auto, using(crate::proofs::Summaries::moved_law))]
pub fn summary_moves()
    ensures { MovedLaw }
{}

/// An outline whose move, or each of whose coordinates, is whole is refused by F40 alone, and just
/// where the extremes of all its points are.
#[tactic(auto, using(crate::proofs::Summaries::check_law))]
pub fn extremes_decide_moves()
    ensures { CheckLaw }
{}

/// A composite's summary and its first fault are had from the summaries of its parts.
#[tactic(auto, using(crate::proofs::Summaries::joined_law))]
pub fn composites_by_summaries()
    ensures { JoinedLaw }
{}

/// A glyph's summary or first fault is had from the summaries of its parts, however deep its
/// composites nest.
#[tactic(auto, using(crate::proofs::Nested::within_law))]
pub fn nested_by_summaries()
    ensures { WithinLaw }
{}

/// The box of an outline that draws is that of its extremes, rounded outward.
#[tactic(auto, using(crate::proofs::BoxLaws::drawn_box_law))]
pub fn drawn_box_of_extremes()
    ensures { DrawnBoxLaw }
{}

/// Where an outline can be moved by a whole distance, its box moves with it, though its points have
/// fractions.
#[tactic(auto, using(crate::proofs::BoxLaws::box_moves_law))]
pub fn boxes_move()
    ensures { BoxMovesLaw }
{}

/// No extreme of an outline within the limits is past them.
#[tactic(auto, using(crate::proofs::Limited::limits_law))]
pub fn extremes_are_within()
    ensures { LimitsLaw }
{}

/// Where the move of all points of an outline isn't refused, neither is that of the extremes of the
/// drawn ones.
#[tactic(auto, using(crate::proofs::Limited::drawn_moves_law))]
pub fn drawn_extremes_move()
    ensures { DrawnMovesLaw }
{}

/// Two outlines in one are whole where both are.
#[tactic(auto, using(crate::proofs::Flags::whole_of_both))]
pub fn whole_of_both()
    ensures { WholeOfBothLaw }
{}

/// A whole outline moved by a whole distance is whole.
#[tactic(auto, using(crate::proofs::Flags::whole_stays))]
pub fn whole_stays()
    ensures { WholeStaysLaw }
{}

/// How far a composite moves its accent is a fraction of a run along each axis.
#[tactic(auto, using(crate::proofs::Accents::accent_law))]
pub fn accent_distance()
    ensures { AccentLaw }
{}

/// What a glyph's own body draws is within the limits, and so is the distance by which it moves its
/// accent.
pub fn runs_are_within()
    ensures { RunsLaw }
{}
