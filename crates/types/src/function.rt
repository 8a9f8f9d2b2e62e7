//! Which functions are typed.

ghost use Rattle.std.specs.Prelude.{◌≡◌, ◌≤◌, ◌++◌, ◌∷◌, [], List, ℕ, map, option_map, not, is_none, is_some, ◌&&◌};
ghost use Rattle.std.specs.Prelude.{◌||◌, OnOk, false};
ghost use Rattle.lex.specs.declared.token.Scalar.TheVariants.{Int};
ghost use Rattle.syntax.specs.Tree as Tree;
ghost use Rattle.syntax.specs.Views.{name_of, parameter_of, function_of, item_of, stmts_of};
ghost use Rattle.syntax.specs.Types.{file_scope};
ghost use Rattle.syntax.specs.Typing.{has_name, agrees, same_types, same_result, may_be_function, is_worker};
ghost use Rattle.syntax.specs.Typing.{parameter_names, with_parameters, defined_names};
ghost use Rattle.syntax.specs.Typing.{demand, demands_of, first_unmet, AreDistinct, AreTypedStmts, IsTypedFunction};
ghost use Rattle.types.specs.inner.Unmet.{AnswersDemands, unmet_in};
ghost use Rattle.types.specs.inner.Known.{known_in, count_in, AreDeclared, Grows, Agrees};
ghost use Rattle.types.specs.inner.Scopes.{known_of};
ghost use Rattle.types.specs.inner.Bodies.{AreBodies};

use crate::fault::{TypeFailure, demand};
use crate::scope::{add_local, check_new};
use crate::stmt::{StmtContext, check_stmts};
use crate::symbol::ScopeSymbol;
use crate::table::ScopeTable;
use containers::Items;
use lex::token::Scalar;
use name_tables::Table;
use std::alloc::{AllocError, Allocator};
use syntax::tree::{Function, Item, Name, Parameter, Stmt};
use syntax::types::same_type;
use syntax::violation::{Rule, Violation};

/// The names of the functions that have a body.
pub(crate) type Bodies<'a, A> = Table<'a, (), A>;

/// Whether a function of this name has a body.
pub(crate) fn has_body<'a, A: Allocator + Copy>(bodies: &Bodies<'a, A>, name: &'a str) -> bool
    ensures { (items : List Tree.Item) → AreBodies bodies.now items → result ≡ has_name (defined_names items) name.now }
{
    bodies.get(name).is_some()
}

fn same_result(a: Option<Scalar>, b: Option<Scalar>) -> bool
    ensures { result ≡ same_result a b }
{
    match a {
        Some(s) => match b {
            Some(t) => same_type(s, t),
            None => false,
        },
        None => b.is_none(),
    }
}

/// Whether two functions have parameters of the same types.
fn same_parameters<A: Allocator>(a: &[Parameter<A>], b: &[Parameter<A>]) -> bool
    ensures { result ≡ same_types (map (λ q. q.ty) a.now) (map (λ q. q.ty) b.now) }
{
    if a.len() != b.len() {
        return false;
    }
    'each: for i in 0..a.len() {
        if !same_type(a[i].ty, b[i].ty) {
            return false;
        }
    }
    true
}

/// Whether a function has the types with which it was declared before, if it was.
fn agrees<A: Allocator>(symbol: &ScopeSymbol<'_, Function<A>>, f: &Function<A>) -> bool
    ensures { result ≡ agrees (function_of f.now) (known_of symbol.now) }
{
    match symbol {
        ScopeSymbol::Callable(g) => {
            same_result(g.result, f.result)
                && same_parameters(g.parameters.as_slice(), f.parameters.as_slice())
        }
        _ => true,
    }
}

/// Whether a parameter takes an `int`, and no other stands beside it.
fn takes_one_int<A: Allocator>(all: &[Parameter<A>]) -> bool
    ensures { result ≡ same_types (map (λ q. q.ty) all.now) (Int ∷ []) }
{
    if all.len() != 1 {
        return false;
    }
    same_type(all[0].ty, Scalar::Int)
}

/// Whether a name stands for a function that gives nothing and takes one `int`.
pub(crate) fn is_worker<A: Allocator>(symbol: &ScopeSymbol<'_, Function<A>>) -> bool
    ensures { result ≡ is_worker (known_of symbol.now) }
{
    match symbol {
        ScopeSymbol::Callable(f) => f.result.is_none() && takes_one_int(f.parameters.as_slice()),
        _ => false,
    }
}

/// Whether a name may be declared as a function: no global has it, and no second body stands.
fn is_free<A: Allocator>(symbol: &ScopeSymbol<'_, Function<A>>, body: bool, defined: bool) -> bool
    ensures { result ≡ (may_be_function (known_of symbol.now) && (not body || not defined)) }
{
    symbol.may_be_function() && (!body || !defined)
}

/// A function's own name and types, beside those of earlier items.
fn check_declared<'a, A: Allocator + Copy>(
    names: &ScopeTable<'a, A>,
    bodies: &Bodies<'a, A>,
    earlier: &[Item<A>],
    f: &'a Function<A>,
) -> Result<(), Violation>
    requires known { known_in names.now ≡ file_scope (map item_of earlier.now) }
    requires defined { AreBodies bodies.now (map item_of earlier.now) }
    ensures { unmet_in result
        ≡ first_unmet
        (demand 21 f.now.name.span
        (may_be_function (file_scope (map item_of earlier.now) f.now.name.text)
        && (is_none (function_of f.now).body
        || not (has_name (defined_names (map item_of earlier.now)) f.now.name.text)))
        ++ demand 22 f.now.name.span
        (agrees (function_of f.now) (file_scope (map item_of earlier.now) f.now.name.text))) }
{
    let name = f.name.text.as_str();
    let before = names.look(name);
    let defined = has_body(bodies, name);
    let free = is_free(&before, f.body.is_some(), defined);
    demand(free, Rule::DeclaredTwice, f.name.span)?;
    let same = agrees(&before, f);
    demand(same, Rule::WrongType, f.name.span)
}

/// A parameter, which may go without a name.
fn check_parameter<'a, A: Allocator + Copy>(
    names: &mut ScopeTable<'a, A>,
    start: usize,
    one: &'a Parameter<A>,
) -> Result<(), TypeFailure>
    requires { start ≤ count_in names.old }
    ensures answer { (declared : List (List ℕ)) → AreDeclared start names.old declared →
        AnswersDemands result
        (demands_of (option_map name_of one.now.name) (λ x. demand 21 x.span (not (has_name declared x.text)))) }
    ensures known { OnOk result
        (known_in names.new ≡ with_parameters (parameter_of one.now ∷ []) (known_in names.old)) }
    ensures declared { OnOk result
        ((declared : List (List ℕ)) → AreDeclared start names.old declared →
        AreDeclared start names.new (parameter_names (parameter_of one.now ∷ []) ++ declared)) }
    ensures grows { OnOk result (Grows names.old names.new) }
    ensures count { OnOk result (count_in names.old ≤ count_in names.new) }
{
    match &one.name {
        Some(x) => {
            check_new(names, start, x)?;
            add_local(names, start, x, one.ty)?;
            Ok(())
        }
        None => Ok(()),
    }
}

/// The parameters, in a scope that is new.
fn check_parameters<'a, A: Allocator + Copy>(
    names: &mut ScopeTable<'a, A>,
    all: &'a [Parameter<A>],
) -> Result<(), TypeFailure>
    ensures answer { AnswersDemands result (AreDistinct [] (map parameter_of all.now)) }
    ensures known { OnOk result (known_in names.new ≡ with_parameters (map parameter_of all.now) (known_in names.old)) }
    ensures declared { OnOk result
        (AreDeclared (count_in names.old) names.new (parameter_names (map parameter_of all.now))) }
    ensures grows { OnOk result (Grows names.old names.new) }
    ensures count { OnOk result (count_in names.old ≤ count_in names.new) }
{
    let start = names.len();
    'each: for one in all {
        check_parameter(names, start, one)?;
    }
    Ok(())
}

/// A body, in the scope of its parameters (C11 6.9.1).
fn check_body<'a, A: Allocator + Copy>(
    names: &mut ScopeTable<'a, A>,
    start: usize,
    gives: Option<Scalar>,
    body: &'a Option<Items<Stmt<A>, A>>,
) -> Result<(), TypeFailure>
    requires { start ≤ count_in names.old }
    ensures answer { (declared : List (List ℕ)) → AreDeclared start names.old declared →
        AnswersDemands result
        (demands_of (option_map stmts_of body.now)
        (λ ss. AreTypedStmts gives ss (known_in names.old) declared false)) }
    ensures grows { OnOk result (Grows names.old names.new) }
    ensures count { OnOk result (count_in names.old ≤ count_in names.new) }
{
    match body {
        Some(body) => {
            let context = StmtContext {
                start,
                gives,
                looping: false,
            };
            check_stmts(names, body.as_slice(), context)
        }
        None => Ok(()),
    }
}

/// The parameters and the body, whose names are forgotten behind them.
fn check_inside<'a, A: Allocator + Copy>(
    names: &mut ScopeTable<'a, A>,
    f: &'a Function<A>,
) -> Result<(), TypeFailure>
    ensures answer { AnswersDemands result
        (AreDistinct [] (map parameter_of f.now.parameters)
        ++ demands_of (option_map stmts_of f.now.body)
        (λ ss. AreTypedStmts f.now.result ss
        (with_parameters (map parameter_of f.now.parameters) (known_in names.old))
        (parameter_names (map parameter_of f.now.parameters)) false)) }
    ensures same { OnOk result (Agrees names.old names.new) }
{
    let outer = names.len();
    check_parameters(names, f.parameters.as_slice())?;
    check_body(names, outer, f.result, &f.body)?;
    names.leave(outer);
    Ok(())
}

/// A function's name, known from its first declaration on.
fn add_function<'a, A: Allocator + Copy>(
    names: &mut ScopeTable<'a, A>,
    earlier: &[Item<A>],
    f: &'a Function<A>,
) -> Result<(), AllocError>
    requires none { count_in names.old ≡ 0 }
    requires known { known_in names.old ≡ file_scope (map item_of earlier.now) }
    ensures known { OnOk result
        (known_in names.new ≡ file_scope (map item_of earlier.now ++ Tree.Defines (function_of f.now) ∷ [])) }
    ensures none { count_in names.new ≡ 0 }
{
    let name = f.name.text.as_str();
    if names.look(name).is_unknown() {
        names.define(name, ScopeSymbol::Callable(f))?;
    }
    Ok(())
}

/// The names of the functions that have a body, with one more item.
fn add_body<'a, A: Allocator + Copy>(
    bodies: &mut Bodies<'a, A>,
    earlier: &[Item<A>],
    f: &'a Function<A>,
) -> Result<(), AllocError>
    requires { AreBodies bodies.old (map item_of earlier.now) }
    ensures { OnOk result (AreBodies bodies.new (map item_of earlier.now ++ Tree.Defines (function_of f.now) ∷ [])) }
{
    if f.body.is_some() {
        bodies.declare(f.name.text.as_str(), ())?;
    }
    Ok(())
}

/// A prototype or a definition behind earlier items.
pub(crate) fn check_function<'a, A: Allocator + Copy>(
    names: &mut ScopeTable<'a, A>,
    bodies: &mut Bodies<'a, A>,
    earlier: &[Item<A>],
    f: &'a Function<A>,
) -> Result<(), TypeFailure>
    requires none { count_in names.old ≡ 0 }
    requires known { known_in names.old ≡ file_scope (map item_of earlier.now) }
    requires defined { AreBodies bodies.old (map item_of earlier.now) }
    ensures answer { AnswersDemands result (IsTypedFunction (map item_of earlier.now) (function_of f.now)) }
    ensures known { OnOk result
        (known_in names.new ≡ file_scope (map item_of earlier.now ++ Tree.Defines (function_of f.now) ∷ [])) }
    ensures none { OnOk result (count_in names.new ≡ 0) }
    ensures defined { OnOk result
        (AreBodies bodies.new (map item_of earlier.now ++ Tree.Defines (function_of f.now) ∷ [])) }
{
    check_declared(names, bodies, earlier, f)?;
    add_function(names, earlier, f)?;
    check_inside(names, f)?;
    add_body(bodies, earlier, f)?;
    Ok(())
}
