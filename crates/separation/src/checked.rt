//! A program that keeps shared data to transactions.

ghost use Rattle.std.specs.Prelude.{◌≡◌};
ghost use Rattle.syntax.specs.Views.{program_of};
ghost use Rattle.separation.specs.Touching.{IsAccepted};

use safety::checked::Safe;
use std::alloc::Allocator;

/// A program that is typed and safe, and whose `worker` doesn't touch shared data outside transactions: `accept` alone
/// makes it. It keeps the safe program.
#[derive(Drop)]
pub struct Accepted<A: Allocator = std::alloc::Global> {
    pub(crate) safe: Safe<A>,
    ghost accepted: { ∥ IsAccepted (program_of safe.typed.unit) ∥₁ },
}

impl<A: Allocator> Accepted<A> {
    /// Lends the safe program.
    pub fn safe(&self) -> &Safe<A>
        ensures { result.now ≡ self.now.safe }
    {
        &self.safe
    }
}
