//! Places found by sums.

ghost use Rattle.std.specs.Prelude.{◌≡◌, ◌≤◌, Bool, length};
ghost use Rattle.std.specs.Fn.{ComputesKey};
ghost use Rattle.t1_tree.specs.Reached.{IsBoundary};

use crate::node::{Node, Tree};
use crate::sums::{Element, Sum};

/// Whether a sum is reached.
fn is_through<S, F: FnMut(&S) -> bool>(sum: &S, is_reached: &mut F) -> bool
    requires { F.IsAlwaysCallable is_reached.old }
    ensures callable { F.IsAlwaysCallable is_reached.new }
    ensures answer { (by : S → Bool)
        → ComputesKey F.FnMut by is_reached.old
        → ComputesKey F.FnMut by is_reached.new × (result ≡ by sum.now) }
{
    is_reached(sum)
}

impl<T: Element> Tree<T> {
    /// How many elements stand before the first one with which a sum is reached, after others of a
    /// sum that didn't reach it.
    pub(crate) fn before<F: FnMut(&T::Sum) -> bool>(
        &self,
        before: T::Sum,
        is_reached: &mut F,
    ) -> usize
        requires callable { F.IsAlwaysCallable is_reached.old }
        requires sum { T.Sum.plus before T.Sum.none ≡ before }
        ensures callable { F.IsAlwaysCallable is_reached.new }
        ensures within { result ≤ length self.now.0 }
        ensures answer { (by : T.Sum → Bool)
            → ComputesKey F.FnMut by is_reached.old
            → ComputesKey F.FnMut by is_reached.new
            × IsBoundary by before T.Sum.plus T.sum_of self.now.0 result }
    {
        let _len = self.len();
        let mut sum = before;
        let mut passed = 0;
        match &*self.node {
            Node::Leaf(items) => {
                for item in items {
                    sum = sum.add(item.sum());
                    if is_through(&sum, is_reached) {
                        return passed;
                    }
                    passed += 1;
                }
                passed
            }
            Node::Inner(trees) => {
                for tree in trees {
                    let through = sum.add(tree.sum());
                    if is_through(&through, is_reached) {
                        return passed + tree.before(sum, is_reached);
                    }
                    sum = through;
                    passed += tree.len();
                }
                passed
            }
        }
    }
}
