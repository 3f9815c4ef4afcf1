//! The elements that are left, one after another.

ghost use Rattle.std.specs.Prelude.{◌≡◌, drop};

use crate::list::SummedList;
use crate::sums::Element;
use std::marker::Model;

/// The elements that are left, one after another: some of a leaf, and those behind it. Contracts
/// see their list.
#[derive(Drop)]
pub struct SummedIter<'t, T: Element> {
    front: &'t [T],
    list: &'t SummedList<T>,
    next: usize,
}

impl<'t, T: Element> Model for SummedIter<'t, T> {
    ghost use Rattle.std.specs.Prelude.{List, ◌++◌, ◌≤◌, drop, length};

    ghost Value = { List T };

    ghost view = { λ left. left.front.now ++ drop left.next left.list.now };
}

impl<'t, T: Element> SummedIter<'t, T> {
    /// The elements of a list from a place on.
    pub(crate) fn over(list: &'t SummedList<T>, at: usize) -> Self
        ensures { result ≡ drop at list.now }
    {
        SummedIter {
            front: &[],
            list,
            next: at,
        }
    }
}

impl<'t, T: Element> Iterator for SummedIter<'t, T> {
    ghost use Rattle.std.specs.Iterator.{YieldsFirstRef, item_count};

    type Item = &'t T;

    ghost next_gives = { YieldsFirstRef (λ left. left) };

    ghost remaining = { item_count (λ left. left) };

    /// The next element.
    fn next(&mut self) -> Option<&'t T> {
        if let Some((element, rest)) = self.front.split_first() {
            self.front = rest;
            return Some(element);
        }
        if self.next >= self.list.len() {
            return None;
        }
        let leaf = self.list.leaf_from(self.next);
        self.next += leaf.len();
        let Some((element, rest)) = leaf.split_first() else {
            return None;
        };
        self.front = rest;
        Some(element)
    }
}
