//! Which simple statements are typed.

ghost use Rattle.std.specs.Prelude.{◌≡◌};
ghost use Rattle.syntax.specs.Views.{expr_of, simple_of};
ghost use Rattle.syntax.specs.Typing.{first_unmet, IsTypedTarget, IsAssignable, IsTypedSimple, may_be_assigned};
ghost use Rattle.types.specs.inner.Unmet.{unmet_in};
ghost use Rattle.types.specs.inner.Known.{known_in};

use crate::expr::{check_expr, check_known, check_number};
use crate::fault::demand;
use crate::table::ScopeTable;
use std::alloc::Allocator;
use syntax::spans::span_of;
use syntax::tree::{Expr, Simple};
use syntax::violation::{Rule, Violation};

fn check_target<'a, A: Allocator + Copy>(
    names: &ScopeTable<'a, A>,
    e: &'a Expr<A>,
) -> Result<(), Violation>
    ensures { unmet_in result ≡ first_unmet (IsTypedTarget (known_in names.now) (expr_of e.now)) }
{
    match e {
        Expr::Variable(x) => check_known(names, x),
        _ => check_expr(names, e),
    }
}

fn may_be_assigned<'a, A: Allocator + Copy>(names: &ScopeTable<'a, A>, e: &'a Expr<A>) -> bool
    ensures { result ≡ may_be_assigned (known_in names.now) (expr_of e.now) }
{
    match e {
        Expr::Variable(x) => names.look(x.text.as_str()).may_be_number(),
        Expr::Element(_, _, _) => true,
        _ => false,
    }
}

fn check_assignable<'a, A: Allocator + Copy>(
    names: &ScopeTable<'a, A>,
    e: &'a Expr<A>,
) -> Result<(), Violation>
    ensures { unmet_in result ≡ first_unmet (IsAssignable (known_in names.now) (expr_of e.now)) }
{
    let met = may_be_assigned(names, e);
    demand(met, Rule::NotAssignable, span_of(e))
}

/// A simple statement.
#[tactic(auto, using(crate::proofs::Steps::first_of_two))]
pub(crate) fn check_simple<'a, A: Allocator + Copy>(
    names: &ScopeTable<'a, A>,
    s: &'a Simple<A>,
) -> Result<(), Violation>
    ensures { unmet_in result ≡ first_unmet (IsTypedSimple (known_in names.now) (simple_of s.now)) }
{
    match s {
        Simple::Evaluate(e) => check_expr(names, e),
        Simple::Assign(to, _, e) => {
            check_target(names, to)?;
            check_number(names, e)?;
            check_assignable(names, to)
        }
        Simple::Adjust(to, _) => {
            check_target(names, to)?;
            check_assignable(names, to)
        }
    }
}
