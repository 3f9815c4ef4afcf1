//! The exact extremes of outlines, from which boxes of composites are had without their segments.
//!
//! All of it is for the crates above, which keep a run as a [`KeptRun`] and have a glyph's box by
//! [`box_of`].
//!
//! What is proved: `KeptRun`: contracts see it as the whole run, whatever memory holds. `box_of`: a
//! glyph's box by such runs, or its first fault (`drawn_box` of `outline_within`). `laws`: the box,
//! and whether a move breaks a limit, follow from the exact extremes. `Shadow`: a ghost copy of a
//! value.
#![tactic(auto)]

mod boxes;
mod corners;
mod distance;
mod drawn;
mod exact;
mod extent;
mod figure;
mod kept_run;
mod kept_runs;
pub mod laws;
mod moves;
mod outline_reach;
mod outline_sides;
mod reach;
mod reached;
mod shadow;
mod sides;
mod turns;
mod wholes;

pub use boxes::moved_box;
pub use corners::{corners_extent, unite};
pub use distance::Distance;
pub use exact::Exact;
pub use extent::Extent;
pub use figure::Figure;
pub use kept_run::{KeptRun, Trace};
pub use kept_runs::KeptRuns;
pub use outline_reach::box_of;
pub use reach::{Reach, cubic_reach};
pub use reached::{Drawn, Reached};
pub use sides::Sides;
pub use wholes::is_whole;
