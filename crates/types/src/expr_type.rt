//! The types of the numbers that expressions give.

ghost use Rattle.std.specs.Prelude.{◌≡◌};
ghost use Rattle.syntax.specs.Views.{expr_of};
ghost use Rattle.syntax.specs.Types.{type_of};
ghost use Rattle.types.specs.inner.Known.{known_in};

use crate::table::ScopeTable;
use lex::token::Scalar;
use std::alloc::Allocator;
use syntax::tree::Expr;
use syntax::types::{binary_type, common_of, unary_type};

/// The type of the number that an expression gives, and none where it gives none.
pub(crate) fn type_of<'a, A: Allocator + Copy>(
    names: &ScopeTable<'a, A>,
    e: &'a Expr<A>,
) -> Option<Scalar>
    ensures { result ≡ type_of (known_in names.now) (expr_of e.now) }
{
    match e {
        Expr::Variable(x) => names.look(x.text.as_str()).number_type(),
        Expr::Constant(_, ty, _) => Some(*ty),
        Expr::Element(x, _, _) => names.look(x.text.as_str()).element_type(),
        Expr::Call(f, _, _) => names.look(f.text.as_str()).call_type(),
        Expr::Parenthesized(e, _) => type_of(names, e.get()),
        Expr::Cast(to, _, _) => Some(*to),
        Expr::Unary(op, e, _) => unary_type(*op, type_of(names, e.get())),
        Expr::Binary(op, a, b, _) => binary_type(
            *op,
            type_of(names, a.get()),
            type_of(names, b.get()),
        ),
        Expr::Logical(_, _, _, _) => Some(Scalar::Int),
        Expr::Conditional(_, a, b, _) => common_of(
            type_of(names, a.get()),
            type_of(names, b.get()),
        ),
        Expr::InTransaction(_, _, e, _) => type_of(names, e.get()),
    }
}
