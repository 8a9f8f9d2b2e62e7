//! A program whose names and types are right.

ghost use Rattle.std.specs.Prelude.{◌≡◌};
ghost use Rattle.syntax.specs.Views.{program_of};
ghost use Rattle.syntax.specs.Typing.{IsTypedProgram};

use std::alloc::Allocator;
use syntax::tree::Unit;

/// A program whose names and types are right: `check` alone makes it.
#[derive(Drop)]
pub struct Typed<A: Allocator = std::alloc::Global> {
    pub(crate) unit: Unit<A>,
    ghost typed: { IsTypedProgram (program_of unit) },
}

impl<A: Allocator> Typed<A> {
    /// Lends the program.
    pub fn unit(&self) -> &Unit<A>
        ensures { result.now ≡ self.now.unit }
    {
        &self.unit
    }
}
