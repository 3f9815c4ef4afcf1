//! Tests of a list with sums, whose leaves and nodes hold three: its calls beside those of a vector
//! under random changes, the height of its tree, and elements and sums of a type of its own, whose
//! laws are proved. They stand in a crate of their own, so that `t1_tree` is proved once and not a
//! second time with its tests.
#![tactic(auto)]

pub mod entry;
#[cfg(test)]
mod tests;
