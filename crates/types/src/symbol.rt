//! What a name is known as.

ghost use Rattle.std.specs.Prelude.{◌≡◌, ⊤};
ghost use Rattle.syntax.specs.Typing.{is_unknown, may_be_number, may_be_array, may_be_function, takes_so_many};
ghost use Rattle.syntax.specs.Typing.{gives_nothing};
ghost use Rattle.syntax.specs.Types.{number_type, element_type, call_type};
ghost use Rattle.types.specs.inner.Scopes.{known_of};

use lex::token::Scalar;
use std::alloc::{AllocError, Allocator};
use syntax::tree::Function;

/// What a name is known as. The type of functions is a parameter, here and where a symbol is stored: that a symbol can
/// be copied is dear to prove where it lends a tree, and is proved without one.
pub(crate) enum ScopeSymbol<'a, F> {
    Unknown,
    Number(Scalar),
    Array(Scalar, u64),

    /// A function, as it was first declared.
    Callable(&'a F),
}

impl<'a, F> Clone for ScopeSymbol<'a, F> {
    ghost is_clone = { λ x y. y ≡ x };

    ghost is_infallible = { λ _. ⊤ };

    fn clone(&self) -> Result<Self, AllocError> {
        Ok(*self)
    }
}

impl<'a, F> Copy for ScopeSymbol<'a, F> {}

impl<'a, A: Allocator> ScopeSymbol<'a, Function<A>> {
    pub(crate) fn is_unknown(&self) -> bool
        ensures { result ≡ is_unknown (known_of self.now) }
    {
        match self {
            ScopeSymbol::Unknown => true,
            _ => false,
        }
    }

    pub(crate) fn may_be_number(&self) -> bool
        ensures { result ≡ may_be_number (known_of self.now) }
    {
        match self {
            ScopeSymbol::Unknown | ScopeSymbol::Number(_) => true,
            _ => false,
        }
    }

    pub(crate) fn may_be_array(&self) -> bool
        ensures { result ≡ may_be_array (known_of self.now) }
    {
        match self {
            ScopeSymbol::Unknown | ScopeSymbol::Array(_, _) => true,
            _ => false,
        }
    }

    pub(crate) fn may_be_function(&self) -> bool
        ensures { result ≡ may_be_function (known_of self.now) }
    {
        match self {
            ScopeSymbol::Unknown | ScopeSymbol::Callable(_) => true,
            _ => false,
        }
    }

    pub(crate) fn takes_so_many(&self, count: usize) -> bool
        ensures { result ≡ takes_so_many (known_of self.now) count }
    {
        match self {
            ScopeSymbol::Callable(f) => count == f.parameters.len(),
            _ => true,
        }
    }

    pub(crate) fn gives_nothing(&self) -> bool
        ensures { result ≡ gives_nothing (known_of self.now) }
    {
        match self {
            ScopeSymbol::Callable(f) => f.result.is_none(),
            _ => false,
        }
    }

    pub(crate) fn number_type(&self) -> Option<Scalar>
        ensures { result ≡ number_type (known_of self.now) }
    {
        match self {
            ScopeSymbol::Number(t) => Some(*t),
            _ => None,
        }
    }

    pub(crate) fn element_type(&self) -> Option<Scalar>
        ensures { result ≡ element_type (known_of self.now) }
    {
        match self {
            ScopeSymbol::Array(t, _) => Some(*t),
            _ => None,
        }
    }

    pub(crate) fn call_type(&self) -> Option<Scalar>
        ensures { result ≡ call_type (known_of self.now) }
    {
        match self {
            ScopeSymbol::Callable(f) => f.result,
            _ => None,
        }
    }
}
