//! The locals that are known at a point of a body.

ghost use Rattle.std.specs.Prelude.{◌≡◌, ◌≤◌, ◌++◌, ◌∷◌, [], length, take, OnOk};
ghost use Rattle.syntax.specs.Typing.{has_name};
ghost use Rattle.safety.specs.inner.Known.{names_in};

use name_tables::Scope;
use std::alloc::{AllocError, Allocator};

/// The locals that are known at a point, by their names.
#[derive(Drop)]
pub(crate) struct Locals<'a, A: Allocator> {
    pub(crate) scope: Scope<'a, (), A>,
}

impl<'a, A: Allocator + Copy> Locals<'a, A> {
    /// No locals, whose hashes are by this key. Takes no memory.
    pub(crate) fn new(alloc: A, key: u64) -> Locals<'a, A>
        ensures { names_in result ≡ [] }
    {
        Locals {
            scope: Scope::new(alloc, key),
        }
    }

    /// The number of locals.
    pub(crate) fn len(&self) -> usize
        ensures { result ≡ length (names_in self.now) }
    {
        self.scope.len()
    }

    /// Whether a local has this name.
    pub(crate) fn has(&self, name: &'a str) -> bool
        ensures { result ≡ has_name (names_in self.now) name.now }
    {
        self.scope.newest(name).is_some()
    }

    /// A further local. Takes memory for it.
    pub(crate) fn declare(&mut self, name: &'a str) -> Result<(), AllocError>
        ensures { OnOk result (names_in self.new ≡ names_in self.old ++ name.now ∷ []) }
    {
        self.scope.declare(name, ())
    }

    /// The locals after so many of them are forgotten.
    pub(crate) fn leave(&mut self, start: usize)
        requires { start ≤ length (names_in self.old) }
        ensures { names_in self.new ≡ take start (names_in self.old) }
    {
        self.scope.leave(start);
    }
}
