//! A program whose atomic transactions hold nothing unsafe.

ghost use Rattle.std.specs.Prelude.{◌≡◌};
ghost use Rattle.syntax.specs.Views.{program_of};
ghost use Rattle.safety.specs.Safe.{IsSafeProgram};

use std::alloc::Allocator;
use types::Typed;

/// A program whose atomic transactions hold nothing unsafe: `safe` alone makes it. It keeps the typed program.
#[derive(Drop)]
pub struct Safe<A: Allocator = std::alloc::Global> {
    pub(crate) typed: Typed<A>,
    ghost safe: { ∥ IsSafeProgram (program_of typed.unit) ∥₁ },
}

impl<A: Allocator> Safe<A> {
    /// Lends the typed program.
    pub fn typed(&self) -> &Typed<A>
        ensures { result.now ≡ self.now.typed }
    {
        &self.typed
    }
}
