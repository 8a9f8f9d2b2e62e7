//! The types of values, before their instructions are made.

ghost use Rattle.std.specs.Prelude.{◌≡◌, List, map};
ghost use Rattle.lex.specs.declared.token.Scalar.{Scalar};
ghost use Rattle.syntax.specs.Names as Names;
ghost use Rattle.syntax.specs.Views.{expr_of};
ghost use Rattle.selection.specs.Expressions.{variable_type, emitted_type};
ghost use Rattle.lower_exprs.specs.Views.{scope_in};
ghost use Rattle.program_tables.specs.Views.{program_in};

use crate::names::callee_of;
use crate::scope::LocalRegisters;
use lex::token::Scalar;
use program_tables::ProgramTables;
use std::alloc::Allocator;
use syntax::tree::{Expr, UnaryOp};
use syntax::types::{common_type, operand_type, result_type};

/// The type of a variable's value.
fn type_of_variable<A: Allocator + Copy>(
    names: &ProgramTables<'_, A>,
    scope: &LocalRegisters<'_, A>,
    x: &str,
) -> Scalar
    ensures { result ≡ variable_type (Names.newest (scope_in scope.now) x.now)
        (Names.global_of (program_in names.now) x.now) }
{
    match scope.newest(x) {
        Some((_, ty)) => ty,
        None => match names.global(x) {
            Some(g) => g.global.ty,
            None => Scalar::Int,
        },
    }
}

/// The type of an expression's value.
#[cycle(value_type)]
pub(crate) fn value_type<A: Allocator + Copy>(
    names: &ProgramTables<'_, A>,
    scope: &LocalRegisters<'_, A>,
    e: &Expr<A>,
) -> Scalar
    ensures { result ≡ emitted_type (program_in names.now) (scope_in scope.now) (expr_of e.now) }
{
    match e {
        Expr::Variable(x) => type_of_variable(names, scope, x.text.as_str()),
        Expr::Constant(_, ty, _) => *ty,
        Expr::Element(x, _, _) => match names.global(x.text.as_str()) {
            Some(g) => g.global.ty,
            None => Scalar::Int,
        },
        Expr::Call(f, _, _) => match callee_of(names, f.text.as_str()) {
            Some(f) => f.ty,
            None => Scalar::Int,
        },
        Expr::Parenthesized(e, _) => value_type(names, scope, e.get()),
        Expr::Cast(ty, _, _) => *ty,
        Expr::Unary(op, e, _) => match op {
            UnaryOp::Not => Scalar::Int,
            UnaryOp::Negate => value_type(names, scope, e.get()),
            UnaryOp::Keep => value_type(names, scope, e.get()),
            UnaryOp::Complement => value_type(names, scope, e.get()),
        },
        Expr::Binary(op, a, b, _) => {
            let left = value_type(names, scope, a.get());
            let right = value_type(names, scope, b.get());
            result_type(*op, operand_type(*op, left, right))
        }
        Expr::Logical(_, _, _, _) => Scalar::Int,
        Expr::Conditional(_, a, b, _) => {
            let left = value_type(names, scope, a.get());
            let right = value_type(names, scope, b.get());
            common_type(left, right)
        }
        Expr::InTransaction(_, _, e, _) => value_type(names, scope, e.get()),
    }
}
