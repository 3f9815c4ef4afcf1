//! Tests of public calls that no command makes: an assembled body and an encrypted text by
//! themselves, font files over writers that fail or take a byte a call, items put in or taken out
//! among lines, the box of a moved outline, the lengths of lines; with expected values from
//! outside. What commands make of the others the tests from outside show. They stand in a crate of
//! their own, so that the crates that they call are proved once and not a second time with their
//! tests.
#![tactic(auto)]

#[cfg(test)]
mod afm;
#[cfg(test)]
mod code;
#[cfg(test)]
mod items;
#[cfg(test)]
mod lengths;
