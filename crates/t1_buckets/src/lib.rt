//! A long list that is changed in its midst.
//!
//! [`Buckets`] is seen as one list. In memory its elements stand in buckets of a hundred or so, so
//! that one is put in or taken out by moving those of its bucket alone. A copy shares the buckets
//! until one of them is changed, which is then copied.
//!
//! All of it is for the crates above.
//!
//! What is proved: each call of `Buckets` is that of the list which it is seen as; where memory
//! runs out it stays as it was. `binary_search_by` answers what the search of a slice does. What
//! copies share is seen by none of them: a change of one leaves the others as they are.
#![tactic(auto)]

mod bucket;
mod buckets;
mod buckets_iter;
mod edits;
mod places;
mod search;

pub use bucket::Copied;
pub use buckets::Buckets;
pub use buckets_iter::BucketsIter;
