//! Why no code is made.

ghost use Rattle.std.specs.Prelude.{◌≡◌};
ghost use Rattle.lower_exprs.specs.declared.fault.LowerFailure.TheVariants.{OutOfMemory};

use std::alloc::AllocError;

/// Why a function's code is not made.
#[derive(Clone, Copy)]
pub enum LowerFailure {
    /// A growth was refused.
    OutOfMemory,

    /// A register's number is not below the most registers of a function.
    Registers,
}

impl From<AllocError> for LowerFailure {
    ghost from_gives = { λ _ e. e ≡ OutOfMemory };

    fn from(_error: AllocError) -> LowerFailure {
        LowerFailure::OutOfMemory
    }
}
