//! Exact execution of a glyph's charstring, and the outlines of composites.
//!
//! For users: a font as [`Bodies`] or [`StoredBodies`], for which [`Plain`] may stand; a [`Meter`];
//! [`run`], and a [`Run`] with its [`Segment`]s of [`Point`]s and its [`Composite`]; [`join`]. For
//! the crates above: [`run_of_body`], which runs a body that needn't be stored, [`Segments`] that
//! serve one run after another, [`Entered`], and the moves of accents, points and segments;
//! [`State`] with [`Control`], [`Halt`] and [`find_parts`], by which a body is run word by word, to
//! see where it fails, and [`takes`], [`standard_glyph`] and [`Recorded`], by which is told why.
//!
//! What is proved, beside what the comment at each call says:
//!
//! - `run_of_body`: what a body draws, its width, side bearing, Subrs entered and steps, or its
//!   first fault (`own`); the meter's count as its serial. It says so of a body that is some
//!   glyph's of the font, and of another nothing but the counts. `run`: the same of the glyph of a
//!   name. `join`: a composite's outline (`joined`).
//! - `laws`: a run, and an outline with all its parts, is the same in all fonts that agree on its
//!   footprint. The footprint of a run without a fault is the glyph, the Subrs entered and the
//!   parts. F47 comes exactly past 100,000 steps. What is drawn stays within the limits. A glyph
//!   that edits don't touch has the same run and outline after them (`untouched`).
#![tactic(auto)]

mod bodies;
mod checks;
mod composite;
mod drawing;
mod entered;
mod halt;
pub mod laws;
mod meter;
mod moving;
mod operands;
mod othersubrs;
mod outcome;
mod outline;
mod plain;
mod recorded;
mod results;
mod returns;
mod runner;
mod seac;
mod segments;
mod state;
mod step;

pub use bodies::{Bodies, StoredBodies};
pub use checks::takes;
pub use composite::{accent_move, join};
pub use entered::Entered;
pub use halt::Halt;
pub use meter::Meter;
pub use moving::{moved_point, moved_segment};
pub use outcome::Run;
pub use outline::{Composite, Point, Segment};
pub use plain::Plain;
pub use recorded::Recorded;
pub use runner::{run, run_of_body};
pub use seac::{find_parts, standard_glyph};
pub use segments::Segments;
pub use state::{Control, State};
