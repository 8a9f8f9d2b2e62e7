//! Copies of all that a value holds.

ghost use Rattle.std.specs.Prelude.{◌≡◌, IfOk};

use crate::{Boxed, Items, Text};
use std::alloc::{AllocError, Allocator};

/// What can be copied with all that it holds.
pub trait Copied<A: Allocator + Copy>: Sized {
    /// A copy of the whole value, in memory of its own; an `Err` only where `alloc` refuses it.
    fn copy(&self, alloc: A) -> Result<Self, AllocError>
        ensures { IfOk result (λ x. x ≡ self.now) };
}

/// Copies the elements of a list, in their order.
fn copy_all<T: Copied<A> + Drop, A: Allocator + Copy>(
    alloc: A,
    all: &[T],
) -> Result<Items<T, A>, AllocError>
    ensures { IfOk result (λ ts. ts ≡ all.now) }
{
    let mut copies = Items::new(alloc);
    'each: for one in all {
        copies.push(one.copy(alloc)?)?;
    }
    Ok(copies)
}

impl<T: Copied<A> + Drop, A: Allocator + Copy> Copied<A> for Items<T, A> {
    fn copy(&self, alloc: A) -> Result<Items<T, A>, AllocError> {
        copy_all(alloc, self.as_slice())
    }
}

impl<T: Copied<A> + Drop, A: Allocator + Copy> Copied<A> for Boxed<T, A> {
    fn copy(&self, alloc: A) -> Result<Boxed<T, A>, AllocError> {
        Boxed::new(alloc, self.get().copy(alloc)?)
    }
}

impl<T: Copied<A> + Drop, A: Allocator + Copy> Copied<A> for Option<T> {
    fn copy(&self, alloc: A) -> Result<Option<T>, AllocError> {
        match self {
            Some(x) => Ok(Some(x.copy(alloc)?)),
            None => Ok(None),
        }
    }
}

impl<A: Allocator + Copy> Copied<A> for Text<A> {
    fn copy(&self, alloc: A) -> Result<Text<A>, AllocError> {
        Text::from_str(alloc, self.as_str())
    }
}
