//! Equality with all that a value holds.

ghost use Rattle.std.specs.Prelude.{◌≡◌, ◌↔◌, IsTrue};

use crate::{Boxed, Items, Text};
use std::alloc::Allocator;

/// What can be compared with all that it holds.
pub trait Same {
    /// Whether the two are the same.
    fn same(&self, other: &Self) -> bool
        ensures { IsTrue result ↔ (self.now ≡ other.now) };
}

/// Whether two lists have the same elements in the same order.
fn same_lists<T: Same>(xs: &[T], ys: &[T]) -> bool
    ensures { IsTrue result ↔ (xs.now ≡ ys.now) }
{
    if xs.len() != ys.len() {
        return false;
    }
    'each: for i in 0..xs.len() {
        if !xs[i].same(&ys[i]) {
            return false;
        }
    }
    true
}

impl<T: Same, A: Allocator> Same for Items<T, A> {
    fn same(&self, other: &Items<T, A>) -> bool {
        same_lists(self.as_slice(), other.as_slice())
    }
}

impl<T: Same, A: Allocator> Same for Boxed<T, A> {
    fn same(&self, other: &Boxed<T, A>) -> bool {
        self.get().same(other.get())
    }
}

impl<T: Same> Same for Option<T> {
    fn same(&self, other: &Option<T>) -> bool {
        match (self, other) {
            (Some(a), Some(b)) => a.same(b),
            (None, None) => true,
            _ => false,
        }
    }
}

impl<A: Allocator> Same for Text<A> {
    fn same(&self, other: &Text<A>) -> bool {
        self.as_str() == other.as_str()
    }
}
