//! The sites of a body.

ghost use Rattle.std.specs.Prelude.{◌≡◌, ◌++◌, ◌∷◌, [], ℕ, List, map, option_map, OnOk, IfOk};
ghost use Rattle.syntax.specs.Views.{expr_of, simple_of, declarator_of, start_of, stmt_of, stmts_of, parameter_of};
ghost use Rattle.syntax.specs.Typing.{names_of, parameter_names};
ghost use Rattle.safety.specs.Views.{sites_of_own};
ghost use Rattle.safety.specs.Sites.{with_names, sites_if_any, expr_sites, declarator_sites, start_sites};
ghost use Rattle.safety.specs.Sites.{names_of_start, stmt_sites, stmts_sites, body_sites};
ghost use Rattle.safety.specs.inner.Known.{names_in, around_in};
ghost use Rattle.safety.specs.inner.Walks.{Appends, head_sites};

use crate::expr::{
    add, add_expr, add_expr_if_any, add_exprs, add_kind, add_simple, add_simple_if_any, inside,
};
use crate::locals::Locals;
use crate::site::{Construct, Site, TransactionsAround};
use containers::Items;
use lex::token::Span;
use std::alloc::{AllocError, Allocator};
use syntax::tree::{Declaration, Declarator, ForHead, Function, Parameter, Start, Stmt};
use types::as_declaration;

/// A name that is declared, and its first value.
fn add_declarator<'a, A: Allocator + Copy>(
    locals: &mut Locals<'a, A>,
    sites: &mut Items<Site<'a>, A>,
    surroundings: TransactionsAround,
    one: &'a Declarator<A>,
) -> Result<(), AllocError>
    ensures sites { OnOk result
        (Appends sites.old sites.new
        (sites_if_any expr_sites (option_map expr_of one.now.first)
        (with_names (one.now.name.text ∷ []) (around_in locals.old surroundings)))) }
    ensures names { OnOk result (names_in locals.new ≡ names_in locals.old ++ one.now.name.text ∷ []) }
{
    locals.declare(one.name.text.as_str())?;
    add_expr_if_any(locals, sites, surroundings, &one.first)?;
    Ok(())
}

/// The names of one declaration, which are known behind it.
fn add_declarators<'a, A: Allocator + Copy>(
    locals: &mut Locals<'a, A>,
    sites: &mut Items<Site<'a>, A>,
    surroundings: TransactionsAround,
    all: &'a [Declarator<A>],
) -> Result<(), AllocError>
    ensures sites { OnOk result
        (Appends sites.old sites.new
        (declarator_sites (map declarator_of all.now) (around_in locals.old surroundings))) }
    ensures names { OnOk result
        (names_in locals.new ≡ names_in locals.old ++ map (λ d. d.name.text) (map declarator_of all.now)) }
{
    'each: for one in all {
        add_declarator(locals, sites, surroundings, one)?;
    }
    Ok(())
}

/// What the head of a `for` begins with.
fn add_start<'a, A: Allocator + Copy>(
    locals: &mut Locals<'a, A>,
    sites: &mut Items<Site<'a>, A>,
    surroundings: TransactionsAround,
    start: &'a Start<A>,
) -> Result<(), AllocError>
    ensures sites { OnOk result
        (Appends sites.old sites.new (start_sites (start_of start.now) (around_in locals.old surroundings))) }
    ensures names { OnOk result (names_in locals.new ≡ names_in locals.old ++ names_of_start (start_of start.now)) }
{
    match start {
        Start::Nothing => Ok(()),
        Start::Declare(one) => {
            add_declarators(locals, sites, surroundings, one.declarators.as_slice())?;
            Ok(())
        }
        Start::Do(s) => {
            add_simple(locals, sites, surroundings, s)?;
            Ok(())
        }
    }
}

/// The head of a `for`, whose names are known behind it.
fn add_head<'a, A: Allocator + Copy>(
    locals: &mut Locals<'a, A>,
    sites: &mut Items<Site<'a>, A>,
    surroundings: TransactionsAround,
    head: &'a ForHead<A>,
) -> Result<(), AllocError>
    ensures sites { OnOk result
        (Appends sites.old sites.new
        (head_sites (start_of head.now.start) (option_map expr_of head.now.condition)
        (option_map simple_of head.now.step) (around_in locals.old surroundings))) }
    ensures names { OnOk result
        (names_in locals.new ≡ names_in locals.old ++ names_of_start (start_of head.now.start)) }
{
    add_start(locals, sites, surroundings, &head.start)?;
    add_expr_if_any(locals, sites, surroundings, &head.condition)?;
    add_simple_if_any(locals, sites, surroundings, &head.step)?;
    Ok(())
}

/// A declaration that is a statement: its names are forgotten behind it.
fn add_lone_declaration<'a, A: Allocator + Copy>(
    locals: &mut Locals<'a, A>,
    sites: &mut Items<Site<'a>, A>,
    surroundings: TransactionsAround,
    one: &'a Declaration<A>,
) -> Result<(), AllocError>
    ensures sites { OnOk result
        (Appends sites.old sites.new
        (declarator_sites (map declarator_of one.now.declarators) (around_in locals.old surroundings))) }
    ensures names { OnOk result (names_in locals.new ≡ names_in locals.old) }
{
    let outer = locals.len();
    add_declarators(locals, sites, surroundings, one.declarators.as_slice())?;
    locals.leave(outer);
    Ok(())
}

/// The sites of a statement; the names that it declares are forgotten behind it.
#[cycle(add_stmt)]
fn add_stmt<'a, A: Allocator + Copy>(
    locals: &mut Locals<'a, A>,
    sites: &mut Items<Site<'a>, A>,
    surroundings: TransactionsAround,
    stmt: &'a Stmt<A>,
) -> Result<(), AllocError>
    ensures sites { OnOk result
        (Appends sites.old sites.new (stmt_sites (stmt_of stmt.now) (around_in locals.old surroundings))) }
    ensures names { OnOk result (names_in locals.new ≡ names_in locals.old) }
{
    match stmt {
        Stmt::Empty | Stmt::Break(_) | Stmt::Continue(_) => Ok(()),
        Stmt::Declare(one) => add_lone_declaration(locals, sites, surroundings, one),
        Stmt::Do(s) => add_simple(locals, sites, surroundings, s),
        Stmt::Block(body) => add_block(locals, sites, surroundings, body.as_slice()),
        Stmt::Print(span, _, _, args) => {
            add(sites, surroundings, Construct::Prints, *span)?;
            add_exprs(locals, sites, surroundings, args.as_slice())
        }
        Stmt::If(c, a, b) => {
            add_expr(locals, sites, surroundings, c)?;
            add_stmt(locals, sites, surroundings, a.get())?;
            match b {
                Some(b) => {
                    add_stmt(locals, sites, surroundings, b.get())?;
                    Ok(())
                }
                None => Ok(()),
            }
        }
        Stmt::While(c, body) => {
            add_expr(locals, sites, surroundings, c)?;
            add_stmt(locals, sites, surroundings, body.get())
        }
        Stmt::DoWhile(body, c) => {
            add_stmt(locals, sites, surroundings, body.get())?;
            add_expr(locals, sites, surroundings, c)
        }
        Stmt::For(head, body) => {
            let outer = locals.len();
            add_head(locals, sites, surroundings, head.get())?;
            add_stmt(locals, sites, surroundings, body.get())?;
            locals.leave(outer);
            Ok(())
        }
        Stmt::Return(e, _) => add_expr_if_any(locals, sites, surroundings, e),
        Stmt::Transaction(kind, body, span) => {
            add_kind(sites, surroundings, *kind, *span)?;
            add_block(locals, sites, inside(*kind, surroundings), body.as_slice())
        }
        Stmt::Cancel(span) => add(sites, surroundings, Construct::Cancels, *span),
        Stmt::CancelOuter(span) => add(sites, surroundings, Construct::CancelsOuter, *span),
    }
}

/// A declaration, whose names are known from then on, or a statement (C11 6.8.2).
#[cycle(add_stmt)]
fn add_block_item<'a, A: Allocator + Copy>(
    locals: &mut Locals<'a, A>,
    sites: &mut Items<Site<'a>, A>,
    surroundings: TransactionsAround,
    stmt: &'a Stmt<A>,
) -> Result<(), AllocError>
    ensures sites { OnOk result
        (Appends sites.old sites.new (stmt_sites (stmt_of stmt.now) (around_in locals.old surroundings))) }
    ensures names { OnOk result (names_in locals.new ≡ names_in locals.old ++ names_of (stmt_of stmt.now)) }
{
    match as_declaration(stmt) {
        Some(one) => {
            add_declarators(locals, sites, surroundings, one.declarators.as_slice())?;
            Ok(())
        }
        None => {
            add_stmt(locals, sites, surroundings, stmt)?;
            Ok(())
        }
    }
}

/// Statements in a scope of their own, whose names are forgotten behind it.
#[cycle(add_stmt)]
fn add_block<'a, A: Allocator + Copy>(
    locals: &mut Locals<'a, A>,
    sites: &mut Items<Site<'a>, A>,
    surroundings: TransactionsAround,
    all: &'a [Stmt<A>],
) -> Result<(), AllocError>
    ensures sites { OnOk result
        (Appends sites.old sites.new (stmts_sites (stmts_of all.now) (around_in locals.old surroundings))) }
    ensures names { OnOk result (names_in locals.new ≡ names_in locals.old) }
{
    let outer = locals.len();
    'each: for one in all {
        add_block_item(locals, sites, surroundings, one)?;
    }
    locals.leave(outer);
    Ok(())
}

/// The name of a parameter, where it has one.
fn add_parameter<'a, A: Allocator + Copy>(
    locals: &mut Locals<'a, A>,
    one: &'a Parameter<A>,
) -> Result<(), AllocError>
    ensures { OnOk result (names_in locals.new ≡ names_in locals.old ++ parameter_names (parameter_of one.now ∷ [])) }
{
    match &one.name {
        Some(x) => {
            locals.declare(x.text.as_str())?;
            Ok(())
        }
        None => Ok(()),
    }
}

/// The names of parameters.
fn add_parameters<'a, A: Allocator + Copy>(
    locals: &mut Locals<'a, A>,
    all: &'a [Parameter<A>],
) -> Result<(), AllocError>
    ensures { OnOk result (names_in locals.new ≡ names_in locals.old ++ parameter_names (map parameter_of all.now)) }
{
    'each: for one in all {
        add_parameter(locals, one)?;
    }
    Ok(())
}

/// The sites of a function's body, in order of the text; a prototype has none. The key is that of the hash of names.
/// Takes memory for them, and for the names of locals.
pub fn body_sites<'a, A: Allocator + Copy>(
    alloc: A,
    key: u64,
    f: &'a Function<A>,
) -> Result<Items<Site<'a>, A>, AllocError>
    ensures { IfOk result
        (λ sites. sites_of_own sites
        ≡ body_sites (map parameter_of f.now.parameters) (option_map stmts_of f.now.body)) }
{
    let mut sites = Items::new(alloc);
    match &f.body {
        Some(body) => {
            let mut locals = Locals::new(alloc, key);
            add_parameters(&mut locals, f.parameters.as_slice())?;
            let surroundings = TransactionsAround {
                atomic: false,
                outer: false,
                in_any: false,
            };
            add_block(&mut locals, &mut sites, surroundings, body.as_slice())?;
            Ok(sites)
        }
        None => Ok(sites),
    }
}
