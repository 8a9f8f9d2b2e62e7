//! What stops a check.

ghost use Rattle.std.specs.Prelude.{◌≡◌};
ghost use Rattle.syntax.specs.Typing.{demand, first_unmet};
ghost use Rattle.syntax.specs.Violations.{number_of};
ghost use Rattle.types.specs.declared.fault.TypeFailure.TheVariants as TypeFailure;
ghost use Rattle.types.specs.inner.Unmet.{unmet_in, Tells};

use lex::token::Span;
use std::alloc::AllocError;
use syntax::violation::{Rule, Violation};

/// One demand: that it is met, or the rule that it breaks.
pub(crate) fn demand(met: bool, rule: Rule, at: Span) -> Result<(), Violation>
    ensures { unmet_in result ≡ first_unmet (demand (number_of rule) at met) }
{
    if met {
        Ok(())
    } else {
        Err(Violation { rule, at })
    }
}

/// What stops a check in the middle.
#[derive(Clone, Copy, PartialEq, Eq)]
pub(crate) enum TypeFailure {
    OutOfMemory,
    Violation(Violation),
}

impl From<Violation> for TypeFailure {
    ghost from_gives = { λ x y. y ≡ TypeFailure.Violation x };

    fn from(fault: Violation) -> TypeFailure {
        TypeFailure::Violation(fault)
    }
}

impl From<AllocError> for TypeFailure {
    ghost from_gives = { λ x y. y ≡ TypeFailure.OutOfMemory };

    fn from(_fault: AllocError) -> TypeFailure {
        TypeFailure::OutOfMemory
    }
}

/// What a check that wants no memory says, as a check says it that may.
pub(crate) fn as_failure(checked: Result<(), Violation>) -> Result<(), TypeFailure>
    ensures { Tells result (unmet_in checked) }
{
    match checked {
        Ok(()) => Ok(()),
        Err(violation) => Err(TypeFailure::Violation(violation)),
    }
}
