//! Which expressions are typed.

ghost use Rattle.std.specs.Prelude.{◌≡◌, ◌++◌};
ghost use Rattle.syntax.specs.Tree as Tree;
ghost use Rattle.syntax.specs.Views.{name_of, expr_of, exprs_of};
ghost use Rattle.syntax.specs.Typing.{is_void, count, may_be_function, takes_so_many};
ghost use Rattle.syntax.specs.Typing.{first_unmet, demand, IsKnown, IsTyped, IsNumber, GivesNumber, AreNumbers};
ghost use Rattle.types.specs.inner.Unmet.{unmet_in};
ghost use Rattle.types.specs.inner.Known.{known_in};
ghost use Rattle.types.specs.inner.Scopes.{known_of};

use crate::fault::demand;
use crate::symbol::ScopeSymbol;
use crate::table::ScopeTable;
use lex::token::Span;
use std::alloc::Allocator;
use syntax::spans::span_of;
use syntax::tree::{Expr, Function, Name};
use syntax::violation::{Rule, Violation};

/// Whether an expression calls a function that gives no value.
pub(crate) fn is_void<'a, A: Allocator + Copy>(names: &ScopeTable<'a, A>, e: &'a Expr<A>) -> bool
    ensures { result ≡ is_void (known_in names.now) (expr_of e.now) }
{
    match e {
        Expr::Call(f, _, _) => names.look(f.text.as_str()).gives_nothing(),
        Expr::Parenthesized(e, _) => is_void(names, e.get()),
        _ => false,
    }
}

pub(crate) fn gives_number<'a, A: Allocator + Copy>(
    names: &ScopeTable<'a, A>,
    e: &'a Expr<A>,
) -> Result<(), Violation>
    ensures { unmet_in result ≡ first_unmet (GivesNumber (known_in names.now) (expr_of e.now)) }
{
    let void = is_void(names, e);
    demand(!void, Rule::WrongType, span_of(e))
}

/// An element of an array: its name, its index, and then that it is an array.
#[cycle(check)]
#[tactic(auto, using(crate::proofs::Steps::first_of_two))]
fn check_element<'a, A: Allocator + Copy>(
    names: &ScopeTable<'a, A>,
    x: &'a Name<A>,
    index: &'a Expr<A>,
    span: Span,
) -> Result<(), Violation>
    ensures { unmet_in result
        ≡ first_unmet (IsTyped (known_in names.now) (Tree.Element (name_of x.now) (expr_of index.now) span)) }
{
    let symbol = names.look(x.text.as_str());
    demand(!symbol.is_unknown(), Rule::UnknownName, x.span)?;
    check_number(names, index)?;
    demand(symbol.may_be_array(), Rule::WrongType, span)
}

/// A variable: its name, and then that it is a number.
fn check_variable<'a, A: Allocator + Copy>(
    names: &ScopeTable<'a, A>,
    x: &'a Name<A>,
) -> Result<(), Violation>
    ensures { unmet_in result ≡ first_unmet (IsTyped (known_in names.now) (Tree.Variable (name_of x.now))) }
{
    let symbol = names.look(x.text.as_str());
    demand(!symbol.is_unknown(), Rule::UnknownName, x.span)?;
    demand(symbol.may_be_number(), Rule::WrongType, x.span)
}

/// The number of expressions.
pub(crate) fn count_of<A: Allocator>(all: &[Expr<A>]) -> usize
    ensures { result ≡ count (exprs_of all.now) }
{
    all.len()
}

/// A name that is known.
pub(crate) fn check_known<'a, A: Allocator + Copy>(
    names: &ScopeTable<'a, A>,
    x: &'a Name<A>,
) -> Result<(), Violation>
    ensures { unmet_in result ≡ first_unmet (IsKnown (known_in names.now) (name_of x.now)) }
{
    let symbol = names.look(x.text.as_str());
    demand(!symbol.is_unknown(), Rule::UnknownName, x.span)
}

/// What is called is a function, and takes so many arguments.
fn check_symbol<A: Allocator + Copy>(
    symbol: &ScopeSymbol<'_, Function<A>>,
    count: usize,
    f: Span,
    span: Span,
) -> Result<(), Violation>
    ensures { unmet_in result
        ≡ first_unmet (demand 22 span (may_be_function (known_of symbol.now))
        ++ demand 23 f (takes_so_many (known_of symbol.now) count)) }
{
    demand(symbol.may_be_function(), Rule::WrongType, span)?;
    demand(symbol.takes_so_many(count), Rule::WrongCount, f)
}

/// What is called is a function, and takes so many arguments.
fn check_called<'a, A: Allocator + Copy>(
    names: &ScopeTable<'a, A>,
    f: &'a Name<A>,
    args: &'a [Expr<A>],
    span: Span,
) -> Result<(), Violation>
    ensures { unmet_in result
        ≡ first_unmet (demand 22 span (may_be_function (known_in names.now f.now.text))
        ++ demand 23 f.now.span (takes_so_many (known_in names.now f.now.text) (count (exprs_of args.now)))) }
{
    let symbol = names.look(f.text.as_str());
    let many = count_of(args);
    check_symbol(&symbol, many, f.span, span)
}

/// A call: its name, its arguments, that it is a function, and how many arguments it takes.
#[cycle(check)]
fn check_call<'a, A: Allocator + Copy>(
    names: &ScopeTable<'a, A>,
    f: &'a Name<A>,
    args: &'a [Expr<A>],
    span: Span,
) -> Result<(), Violation>
    ensures { unmet_in result
        ≡ first_unmet (IsTyped (known_in names.now) (Tree.Call (name_of f.now) (exprs_of args.now) span)) }
{
    check_known(names, f)?;
    check_numbers(names, args)?;
    check_called(names, f, args, span)
}

/// An expression, whether it gives a value or not.
#[cycle(check)]
pub(crate) fn check_expr<'a, A: Allocator + Copy>(
    names: &ScopeTable<'a, A>,
    e: &'a Expr<A>,
) -> Result<(), Violation>
    ensures { unmet_in result ≡ first_unmet (IsTyped (known_in names.now) (expr_of e.now)) }
{
    match e {
        Expr::Variable(x) => check_variable(names, x),
        Expr::Constant(_, _, _) => Ok(()),
        Expr::Element(x, index, span) => check_element(names, x, index.get(), *span),
        Expr::Call(f, args, span) => check_call(names, f, args.as_slice(), *span),
        Expr::Parenthesized(e, _) => check_expr(names, e.get()),
        Expr::Cast(_, e, _) => check_number(names, e.get()),
        Expr::Unary(_, e, _) => check_number(names, e.get()),
        Expr::Binary(_, a, b, _) => {
            check_number(names, a.get())?;
            check_number(names, b.get())
        }
        Expr::Logical(_, a, b, _) => {
            check_number(names, a.get())?;
            check_number(names, b.get())
        }
        Expr::Conditional(c, a, b, _) => {
            check_number(names, c.get())?;
            check_number(names, a.get())?;
            check_number(names, b.get())
        }
        Expr::InTransaction(_, _, e, _) => check_number(names, e.get()),
    }
}

/// An expression that gives a number.
#[cycle(check)]
#[tactic(auto, using(crate::proofs::Steps::first_of_two))]
pub(crate) fn check_number<'a, A: Allocator + Copy>(
    names: &ScopeTable<'a, A>,
    e: &'a Expr<A>,
) -> Result<(), Violation>
    ensures { unmet_in result ≡ first_unmet (IsNumber (known_in names.now) (expr_of e.now)) }
{
    check_expr(names, e)?;
    gives_number(names, e)
}

/// Expressions that each give a number.
#[cycle(check)]
pub(crate) fn check_numbers<'a, A: Allocator + Copy>(
    names: &ScopeTable<'a, A>,
    all: &'a [Expr<A>],
) -> Result<(), Violation>
    ensures { unmet_in result ≡ first_unmet (AreNumbers (known_in names.now) (exprs_of all.now)) }
{
    'each: for one in all {
        check_number(names, one)?;
    }
    Ok(())
}
