//! A long list with sums, in a tree that copies share.
//!
//! [`SummedList`] is seen as one list. In memory its elements stand in the leaves of a tree, and a
//! node knows how many elements are below it, and their sum. So an element is found by its place,
//! or by a property of the sum through it, with a look at one node of each height: the k-th of a
//! kind by a count, and one by a number that rises along the list by the highest number. A copy is
//! one pointer. A change copies the nodes on the way to its leaf where a copy shares them; else it
//! is made in place.
//!
//! All of it is for the crates above. Who sums elements of a type of its own writes [`Sum`] and
//! [`Element`] for it, as `entry.rt` of `t1_test_tree` does.
//!
//! What is proved: each call is that of the list which it is seen as; where memory runs out it
//! stays as it was. Each sum is the fold over the elements from the first on. `before` answers the
//! first place at which the sum of the elements before and through it has a property that stays.
//! What copies share is seen by none of them. That the tree is as low as its length allows is time
//! alone, and tested in `t1_test_tree`.
#![tactic(auto)]

mod balance;
mod copies;
mod edits;
mod iter;
mod list;
mod made;
mod node;
mod parts;
mod places;
mod search;
mod sums;
mod tree;

pub use iter::SummedIter;
pub use list::SummedList;
pub use sums::{Element, Sum};
