//! Declarations, and the names that they make known.

ghost use Rattle.std.specs.Prelude.{◌≡◌, ◌≤◌, ◌++◌, ◌∷◌, [], List, ℕ, not, map, option_map, OnOk};
ghost use Rattle.syntax.specs.Views.{expr_of, declarator_of, start_of};
ghost use Rattle.syntax.specs.Types.{with_number};
ghost use Rattle.syntax.specs.Typing.{has_name, knows, scope_of_start};
ghost use Rattle.syntax.specs.Typing.{demand, demands_of, first_unmet, IsNumber, AreTypedDeclarators, IsTypedStart};
ghost use Rattle.types.specs.inner.Unmet.{AnswersDemands, unmet_in};
ghost use Rattle.types.specs.inner.Known.{known_in, count_in, declared_by, AreDeclared, Grows, Agrees};

use crate::expr::check_number;
use crate::fault::{TypeFailure, demand};
use crate::simple::check_simple;
use crate::table::ScopeTable;
use lex::token::Scalar;
use std::alloc::{AllocError, Allocator};
use syntax::tree::{Declaration, Declarator, Expr, Name, Start};
use syntax::violation::{Rule, Violation};

/// A first value, where there is one.
pub(crate) fn check_first<'a, A: Allocator + Copy>(
    names: &ScopeTable<'a, A>,
    first: &'a Option<Expr<A>>,
) -> Result<(), Violation>
    ensures { unmet_in result
        ≡ first_unmet (demands_of (option_map expr_of first.now) (IsNumber (known_in names.now))) }
{
    match first {
        Some(e) => check_number(names, e),
        None => Ok(()),
    }
}

/// A name that no local has that was declared after so many locals.
pub(crate) fn check_new<'a, A: Allocator + Copy>(
    names: &ScopeTable<'a, A>,
    start: usize,
    x: &'a Name<A>,
) -> Result<(), Violation>
    ensures { (declared : List (List ℕ)) → AreDeclared start names.now declared →
        unmet_in result ≡ first_unmet (demand 21 x.now.span (not (has_name declared x.now.text))) }
{
    let new = !names.is_declared(start, x.text.as_str());
    demand(new, Rule::DeclaredTwice, x.span)
}

/// A further local.
pub(crate) fn add_local<'a, A: Allocator + Copy>(
    names: &mut ScopeTable<'a, A>,
    start: usize,
    x: &'a Name<A>,
    ty: Scalar,
) -> Result<(), AllocError>
    requires { start ≤ count_in names.old }
    ensures known { OnOk result (known_in names.new ≡ with_number x.now.text ty (known_in names.old)) }
    ensures declared { OnOk result
        ((declared : List (List ℕ)) → AreDeclared start names.old declared →
        AreDeclared start names.new (x.now.text ∷ declared)) }
    ensures grows { OnOk result (Grows names.old names.new) }
    ensures count { OnOk result (count_in names.old ≤ count_in names.new) }
{
    names.declare(x.text.as_str(), ty)?;
    Ok(())
}

/// A name that is declared: that it is new, and from then on known, and its first value.
fn check_declarator<'a, A: Allocator + Copy>(
    names: &mut ScopeTable<'a, A>,
    start: usize,
    ty: Scalar,
    one: &'a Declarator<A>,
) -> Result<(), TypeFailure>
    requires { start ≤ count_in names.old }
    ensures answer { (declared : List (List ℕ)) → AreDeclared start names.old declared →
        AnswersDemands result
        (demand 21 one.now.name.span (not (has_name declared one.now.name.text))
        ++ demands_of (option_map expr_of one.now.first)
        (IsNumber (with_number one.now.name.text ty (known_in names.old)))) }
    ensures known { OnOk result (known_in names.new ≡ with_number one.now.name.text ty (known_in names.old)) }
    ensures declared { OnOk result
        ((declared : List (List ℕ)) → AreDeclared start names.old declared →
        AreDeclared start names.new (one.now.name.text ∷ declared)) }
    ensures grows { OnOk result (Grows names.old names.new) }
    ensures count { OnOk result (count_in names.old ≤ count_in names.new) }
{
    check_new(names, start, &one.name)?;
    add_local(names, start, &one.name, ty)?;
    check_first(names, &one.first)?;
    Ok(())
}

/// The names of one declaration, in order.
pub(crate) fn check_declarators<'a, A: Allocator + Copy>(
    names: &mut ScopeTable<'a, A>,
    start: usize,
    ty: Scalar,
    all: &'a [Declarator<A>],
) -> Result<(), TypeFailure>
    requires { start ≤ count_in names.old }
    ensures answer { (declared : List (List ℕ)) → AreDeclared start names.old declared →
        AnswersDemands result (AreTypedDeclarators (known_in names.old) declared ty (map declarator_of all.now)) }
    ensures known { OnOk result (known_in names.new ≡ knows ty (map declarator_of all.now) (known_in names.old)) }
    ensures declared { OnOk result
        ((declared : List (List ℕ)) → AreDeclared start names.old declared →
        AreDeclared start names.new (declared_by (map declarator_of all.now) declared)) }
    ensures grows { OnOk result (Grows names.old names.new) }
    ensures count { OnOk result (count_in names.old ≤ count_in names.new) }
{
    'each: for one in all {
        check_declarator(names, start, ty, one)?;
    }
    Ok(())
}

/// A declaration whose names are forgotten behind it.
pub(crate) fn check_lone<'a, A: Allocator + Copy>(
    names: &mut ScopeTable<'a, A>,
    start: usize,
    one: &'a Declaration<A>,
) -> Result<(), TypeFailure>
    requires { start ≤ count_in names.old }
    ensures answer { (declared : List (List ℕ)) → AreDeclared start names.old declared →
        AnswersDemands result
        (AreTypedDeclarators (known_in names.old) declared one.now.ty (map declarator_of one.now.declarators)) }
    ensures same { OnOk result (Agrees names.old names.new) }
{
    let outer = names.len();
    check_declarators(names, start, one.ty, one.declarators.as_slice())?;
    names.leave(outer);
    Ok(())
}

/// What the head of a `for` begins with, in a scope that is new.
pub(crate) fn check_start<'a, A: Allocator + Copy>(
    names: &mut ScopeTable<'a, A>,
    start: &'a Start<A>,
) -> Result<(), TypeFailure>
    ensures answer { AnswersDemands result (IsTypedStart (known_in names.old) (start_of start.now)) }
    ensures known { OnOk result (known_in names.new ≡ scope_of_start (start_of start.now) (known_in names.old)) }
    ensures grows { OnOk result (Grows names.old names.new) }
    ensures count { OnOk result (count_in names.old ≤ count_in names.new) }
{
    match start {
        Start::Nothing => Ok(()),
        Start::Declare(one) => {
            let outer = names.len();
            check_declarators(names, outer, one.ty, one.declarators.as_slice())
        }
        Start::Do(s) => {
            check_simple(names, s)?;
            Ok(())
        }
    }
}
