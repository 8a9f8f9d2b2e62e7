//! Which statements are typed.

ghost use Rattle.std.specs.Prelude.{◌≡◌, ◌≤◌, ◌++◌, [], List, ℕ, option_map, is_some, not, if◌then◌else◌, OnOk};
ghost use Rattle.syntax.specs.Views.{expr_of, simple_of, declaration_of, start_of, stmt_of, stmts_of};
ghost use Rattle.syntax.specs.Typing.{scope_after, names_of, scope_of_start, returns_right};
ghost use Rattle.types.specs.BlockItems.{declaration_in};
ghost use Rattle.syntax.specs.Typing.{demand, demands_of, first_unmet, GivesNumber, IsTyped, IsNumber, IsTypedSimple};
ghost use Rattle.syntax.specs.Typing.{IsTypedStart, IsTypedStmt, AreTypedStmts};
ghost use Rattle.types.specs.inner.Unmet.{AnswersDemands, unmet_in};
ghost use Rattle.types.specs.inner.Known.{known_in, count_in, AreDeclared, Grows, Agrees};

use crate::expr::{check_expr, check_number, gives_number};
use crate::fault::{TypeFailure, as_failure, demand};
use crate::format::check_print;
use crate::scope::{check_declarators, check_first, check_lone, check_start};
use crate::simple::check_simple;
use crate::table::ScopeTable;
use lex::token::{Scalar, Span};
use std::alloc::Allocator;
use syntax::tree::{Declaration, Expr, ForHead, Simple, Stmt};
use syntax::violation::{Rule, Violation};

/// How a statement stands: its scope begins after so many locals, in a function that gives this, in a loop or not.
#[derive(Clone, Copy)]
pub(crate) struct StmtContext {
    pub(crate) start: usize,
    pub(crate) gives: Option<Scalar>,
    pub(crate) looping: bool,
}

/// Whether a `return` with or without a value is right in a function that gives this.
fn returns_right(gives: Option<Scalar>, value: bool) -> bool
    ensures { result ≡ (if is_some gives then value else not value) }
{
    if gives.is_some() { value } else { !value }
}

/// An expression, where there is one.
fn check_value<'a, A: Allocator + Copy>(
    names: &ScopeTable<'a, A>,
    e: &'a Option<Expr<A>>,
) -> Result<(), Violation>
    ensures { unmet_in result ≡ first_unmet (demands_of (option_map expr_of e.now) (IsTyped (known_in names.now))) }
{
    match e {
        Some(e) => check_expr(names, e),
        None => Ok(()),
    }
}

/// That an expression gives a number, where there is one.
fn gives_numbers<'a, A: Allocator + Copy>(
    names: &ScopeTable<'a, A>,
    e: &'a Option<Expr<A>>,
) -> Result<(), Violation>
    ensures { unmet_in result ≡ first_unmet (demands_of (option_map expr_of e.now) (GivesNumber (known_in names.now))) }
{
    match e {
        Some(e) => gives_number(names, e),
        None => Ok(()),
    }
}

/// A `return`: its value, that there is one where the function gives one, and that it is a number.
fn check_return<'a, A: Allocator + Copy>(
    names: &ScopeTable<'a, A>,
    gives: Option<Scalar>,
    e: &'a Option<Expr<A>>,
    span: Span,
) -> Result<(), Violation>
    ensures { unmet_in result
        ≡ first_unmet
        (demands_of (option_map expr_of e.now) (IsTyped (known_in names.now))
        ++ demand 22 span (returns_right gives (option_map expr_of e.now))
        ++ demands_of (option_map expr_of e.now) (GivesNumber (known_in names.now))) }
{
    check_value(names, e)?;
    let right = returns_right(gives, e.is_some());
    demand(right, Rule::WrongType, span)?;
    gives_numbers(names, e)
}

/// What a `for` does behind each turn, where there is something.
fn check_step<'a, A: Allocator + Copy>(
    names: &ScopeTable<'a, A>,
    step: &'a Option<Simple<A>>,
) -> Result<(), Violation>
    ensures { unmet_in result
        ≡ first_unmet (demands_of (option_map simple_of step.now) (IsTypedSimple (known_in names.now))) }
{
    match step {
        Some(step) => check_simple(names, step),
        None => Ok(()),
    }
}

/// The head of a `for`, whose names are known behind it.
fn check_head<'a, A: Allocator + Copy>(
    names: &mut ScopeTable<'a, A>,
    head: &'a ForHead<A>,
) -> Result<(), TypeFailure>
    ensures answer { AnswersDemands result
        (IsTypedStart (known_in names.old) (start_of head.now.start)
        ++ demands_of (option_map expr_of head.now.condition)
        (IsNumber (scope_of_start (start_of head.now.start) (known_in names.old)))
        ++ demands_of (option_map simple_of head.now.step)
        (IsTypedSimple (scope_of_start (start_of head.now.start) (known_in names.old)))) }
    ensures known { OnOk result (known_in names.new ≡ scope_of_start (start_of head.now.start) (known_in names.old)) }
    ensures grows { OnOk result (Grows names.old names.new) }
    ensures count { OnOk result (count_in names.old ≤ count_in names.new) }
{
    check_start(names, &head.start)?;
    check_first(names, &head.condition)?;
    check_step(names, &head.step)?;
    Ok(())
}

/// A statement; the names that it declares are forgotten behind it (C11 6.8.4, 6.8.5: each substatement is a block).
#[cycle(check_stmts)]
pub(crate) fn check_stmt<'a, A: Allocator + Copy>(
    names: &mut ScopeTable<'a, A>,
    stmt: &'a Stmt<A>,
    context: StmtContext,
) -> Result<(), TypeFailure>
    requires { context.start ≤ count_in names.old }
    ensures answer { (declared : List (List ℕ)) → AreDeclared context.start names.old declared →
        AnswersDemands result
        (IsTypedStmt context.gives (stmt_of stmt.now) (known_in names.old) declared context.looping) }
    ensures same { OnOk result (Agrees names.old names.new) }
{
    let inside = StmtContext {
        start: context.start,
        gives: context.gives,
        looping: true,
    };
    match stmt {
        Stmt::Empty => Ok(()),
        Stmt::Declare(one) => check_lone(names, context.start, one),
        Stmt::Do(s) => as_failure(check_simple(names, s)),
        Stmt::Block(body) => check_block(names, body.as_slice(), context),
        Stmt::Print(_, format, span, args) => as_failure(check_print(
            names,
            format.as_str(),
            *span,
            args.as_slice(),
        )),
        Stmt::If(c, a, b) => {
            check_number(names, c)?;
            check_stmt(names, a.get(), context)?;
            match b {
                Some(b) => check_stmt(names, b.get(), context),
                None => Ok(()),
            }
        }
        Stmt::While(c, body) => {
            check_number(names, c)?;
            check_stmt(names, body.get(), inside)
        }
        Stmt::DoWhile(body, c) => {
            check_stmt(names, body.get(), inside)?;
            as_failure(check_number(names, c))
        }
        Stmt::For(head, body) => {
            let outer = names.len();
            check_head(names, head.get())?;
            let begin = StmtContext {
                start: names.len(),
                gives: context.gives,
                looping: true,
            };
            check_stmt(names, body.get(), begin)?;
            names.leave(outer);
            Ok(())
        }
        Stmt::Break(span) | Stmt::Continue(span) => {
            as_failure(demand(context.looping, Rule::OutsideLoop, *span))
        }
        Stmt::Return(e, span) => as_failure(check_return(names, context.gives, e, *span)),
        Stmt::Transaction(_, body, _) => check_block(names, body.as_slice(), context),
        Stmt::Cancel(_) | Stmt::CancelOuter(_) => Ok(()),
    }
}

/// The declaration that a statement is, where it is one.
pub fn as_declaration<A: Allocator>(stmt: &Stmt<A>) -> Option<&Declaration<A>>
    ensures { option_map (λ d. declaration_of d.now) result ≡ declaration_in (stmt_of stmt.now) }
{
    match stmt {
        Stmt::Declare(one) => Some(one),
        _ => None,
    }
}

/// A declaration, whose names are known from then on, or a statement (C11 6.8.2).
#[cycle(check_stmts)]
fn check_block_item<'a, A: Allocator + Copy>(
    names: &mut ScopeTable<'a, A>,
    stmt: &'a Stmt<A>,
    context: StmtContext,
) -> Result<(), TypeFailure>
    requires { context.start ≤ count_in names.old }
    ensures answer { (declared : List (List ℕ)) → AreDeclared context.start names.old declared →
        AnswersDemands result
        (IsTypedStmt context.gives (stmt_of stmt.now) (known_in names.old) declared context.looping) }
    ensures known { OnOk result (known_in names.new ≡ scope_after (stmt_of stmt.now) (known_in names.old)) }
    ensures declared { OnOk result
        ((declared : List (List ℕ)) → AreDeclared context.start names.old declared →
        AreDeclared context.start names.new (names_of (stmt_of stmt.now) ++ declared)) }
    ensures grows { OnOk result (Grows names.old names.new) }
    ensures count { OnOk result (count_in names.old ≤ count_in names.new) }
{
    match as_declaration(stmt) {
        Some(one) => check_declarators(names, context.start, one.ty, one.declarators.as_slice()),
        None => check_stmt(names, stmt, context),
    }
}

/// Statements in the scope that stands.
#[cycle(check_stmts)]
pub(crate) fn check_stmts<'a, A: Allocator + Copy>(
    names: &mut ScopeTable<'a, A>,
    all: &'a [Stmt<A>],
    context: StmtContext,
) -> Result<(), TypeFailure>
    requires { context.start ≤ count_in names.old }
    ensures answer { (declared : List (List ℕ)) → AreDeclared context.start names.old declared →
        AnswersDemands result (AreTypedStmts context.gives (stmts_of all.now)
        (known_in names.old) declared context.looping) }
    ensures grows { OnOk result (Grows names.old names.new) }
    ensures count { OnOk result (count_in names.old ≤ count_in names.new) }
{
    'each: for one in all {
        check_block_item(names, one, context)?;
    }
    Ok(())
}

/// Statements in a scope of their own, whose names are forgotten behind it.
#[cycle(check_stmts)]
fn check_block<'a, A: Allocator + Copy>(
    names: &mut ScopeTable<'a, A>,
    all: &'a [Stmt<A>],
    context: StmtContext,
) -> Result<(), TypeFailure>
    ensures answer { AnswersDemands result
        (AreTypedStmts context.gives (stmts_of all.now) (known_in names.old) [] context.looping) }
    ensures same { OnOk result (Agrees names.old names.new) }
{
    let outer = names.len();
    let begin = StmtContext {
        start: outer,
        gives: context.gives,
        looping: context.looping,
    };
    check_stmts(names, all, begin)?;
    names.leave(outer);
    Ok(())
}
