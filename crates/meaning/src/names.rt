//! The types of expressions while a thread runs.

ghost use Rattle.std.specs.Prelude.{◌≡◌, map};
ghost use Rattle.syntax.specs.Types as Types;
ghost use Rattle.syntax.specs.Types.{running_scope};
ghost use Rattle.syntax.specs.Views.{expr_of};
ghost use Rattle.meaning.specs.inner.SourceThread.{local_in};
ghost use Rattle.program_tables.specs.Views.{program_in};

use crate::source_thread::{Local, newest};
use lex::token::Scalar;
use program_tables::ProgramTables;
use std::alloc::Allocator;
use syntax::tree::Expr;
use syntax::types::{binary_type, common_of, unary_type};

/// The type of a variable while these locals live.
fn variable_type<A: Allocator + Copy>(
    source: &ProgramTables<A>,
    locals: &[Local],
    name: &str,
) -> Option<Scalar>
    ensures { result ≡ Types.number_type (running_scope (program_in source.now) (map local_in locals.now) name.now) }
{
    match newest(locals, name) {
        Some((_, ty)) => Some(ty),
        None => source.symbol(name).number_type(),
    }
}

/// The type of an array's elements while these locals live: a local of its name hides it.
fn element_type<A: Allocator + Copy>(
    source: &ProgramTables<A>,
    locals: &[Local],
    name: &str,
) -> Option<Scalar>
    ensures { result ≡ Types.element_type (running_scope (program_in source.now) (map local_in locals.now) name.now) }
{
    match newest(locals, name) {
        Some(_) => None,
        None => source.symbol(name).element_type(),
    }
}

/// The type of a function's value while these locals live: a local of its name hides it.
fn call_type<A: Allocator + Copy>(
    source: &ProgramTables<A>,
    locals: &[Local],
    name: &str,
) -> Option<Scalar>
    ensures { result ≡ Types.call_type (running_scope (program_in source.now) (map local_in locals.now) name.now) }
{
    match newest(locals, name) {
        Some(_) => None,
        None => source.symbol(name).call_type(),
    }
}

/// The type of an expression while these locals live.
pub(crate) fn type_of<A: Allocator + Copy>(
    source: &ProgramTables<A>,
    locals: &[Local],
    e: &Expr<A>,
) -> Option<Scalar>
    ensures { result ≡ Types.type_of (running_scope (program_in source.now) (map local_in locals.now)) (expr_of e.now) }
{
    match e {
        Expr::Variable(x) => variable_type(source, locals, x.text.as_str()),
        Expr::Constant(_, ty, _) => Some(*ty),
        Expr::Element(x, _, _) => element_type(source, locals, x.text.as_str()),
        Expr::Call(f, _, _) => call_type(source, locals, f.text.as_str()),
        Expr::Parenthesized(e, _) => type_of(source, locals, e.get()),
        Expr::Cast(ty, _, _) => Some(*ty),
        Expr::Unary(op, e, _) => unary_type(*op, type_of(source, locals, e.get())),
        Expr::Binary(op, a, b, _) => binary_type(
            *op,
            type_of(source, locals, a.get()),
            type_of(source, locals, b.get()),
        ),
        Expr::Logical(_, _, _, _) => Some(Scalar::Int),
        Expr::Conditional(_, a, b, _) => common_of(
            type_of(source, locals, a.get()),
            type_of(source, locals, b.get()),
        ),
        Expr::InTransaction(_, _, e, _) => type_of(source, locals, e.get()),
    }
}
