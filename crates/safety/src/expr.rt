//! The sites of an expression.

ghost use Rattle.std.specs.Prelude.{◌≡◌, ◌∷◌, [], ℕ, List, map, option_map, OnOk};
ghost use Rattle.syntax.specs.Views.{name_of, expr_of, exprs_of, simple_of};
ghost use Rattle.safety.specs.Views.{construct_of};
ghost use Rattle.safety.specs.Sites.{in_transaction, kind_site, uses, expr_sites, exprs_sites, simple_sites};
ghost use Rattle.safety.specs.Sites.{sites_if_any};
ghost use Rattle.safety.specs.inner.Known.{around, around_in};
ghost use Rattle.safety.specs.inner.Walks.{Appends};

use crate::locals::Locals;
use crate::site::{Construct, Site, TransactionsAround};
use containers::Items;
use lex::token::Span;
use std::alloc::{AllocError, Allocator};
use syntax::tree::{Expr, Mode, Name, Simple, TransactionKind};

/// One site more.
pub(crate) fn add<'a, A: Allocator + Copy>(
    sites: &mut Items<Site<'a>, A>,
    surroundings: TransactionsAround,
    construct: Construct<'a>,
    span: Span,
) -> Result<(), AllocError>
    ensures { OnOk result
        (Appends sites.old sites.new
        (record {
          construct = construct_of construct.entry;
          span = span;
          atomic = surroundings.atomic;
          outer = surroundings.outer;
          in_any = surroundings.in_any;
        } ∷ [])) }
{
    sites.push(Site {
        construct,
        span,
        atomic: surroundings.atomic,
        outer: surroundings.outer,
        in_any: surroundings.in_any,
    })?;
    Ok(())
}

/// A relaxed transaction is a site itself, and so is an outer one.
pub(crate) fn add_kind<'a, A: Allocator + Copy>(
    sites: &mut Items<Site<'a>, A>,
    surroundings: TransactionsAround,
    kind: TransactionKind,
    span: Span,
) -> Result<(), AllocError>
    ensures { OnOk result (Appends sites.old sites.new (kind_site kind (around [] surroundings) span)) }
{
    match kind {
        TransactionKind::Plain(Mode::Atomic) => Ok(()),
        TransactionKind::Plain(Mode::Relaxed) => {
            add(sites, surroundings, Construct::Relaxes, span)?;
            Ok(())
        }
        TransactionKind::Outer => {
            add(sites, surroundings, Construct::OpensOuter, span)?;
            Ok(())
        }
    }
}

/// What is round the points inside a transaction that has these surroundings.
pub(crate) fn inside(kind: TransactionKind, surroundings: TransactionsAround) -> TransactionsAround
    ensures { (names : List (List ℕ)) → around names result ≡ in_transaction kind (around names surroundings) }
{
    match kind {
        TransactionKind::Plain(Mode::Atomic) => TransactionsAround {
            atomic: true,
            outer: surroundings.outer,
            in_any: true,
        },
        TransactionKind::Plain(Mode::Relaxed) => TransactionsAround {
            atomic: surroundings.atomic,
            outer: surroundings.outer,
            in_any: true,
        },
        TransactionKind::Outer => TransactionsAround {
            atomic: true,
            outer: true,
            in_any: true,
        },
    }
}

/// A name that is no local's is a global's.
fn add_use<'a, A: Allocator + Copy>(
    locals: &Locals<'a, A>,
    sites: &mut Items<Site<'a>, A>,
    surroundings: TransactionsAround,
    x: &'a Name<A>,
) -> Result<(), AllocError>
    ensures { OnOk result (Appends sites.old sites.new (uses (name_of x.now) (around_in locals.now surroundings))) }
{
    if locals.has(x.text.as_str()) {
        return Ok(());
    }
    add(
        sites,
        surroundings,
        Construct::Uses(x.text.as_str()),
        x.span,
    )?;
    Ok(())
}

/// The sites of an expression, in order of the text.
#[cycle(add_expr)]
pub(crate) fn add_expr<'a, A: Allocator + Copy>(
    locals: &Locals<'a, A>,
    sites: &mut Items<Site<'a>, A>,
    surroundings: TransactionsAround,
    e: &'a Expr<A>,
) -> Result<(), AllocError>
    ensures { OnOk result
        (Appends sites.old sites.new (expr_sites (expr_of e.now) (around_in locals.now surroundings))) }
{
    match e {
        Expr::Variable(x) => add_use(locals, sites, surroundings, x),
        Expr::Constant(_, _, _) => Ok(()),
        Expr::Element(x, index, _) => {
            add_use(locals, sites, surroundings, x)?;
            add_expr(locals, sites, surroundings, index.get())
        }
        Expr::Call(f, args, _) => {
            add(
                sites,
                surroundings,
                Construct::Calls(f.text.as_str()),
                f.span,
            )?;
            add_exprs(locals, sites, surroundings, args.as_slice())
        }
        Expr::Parenthesized(e, _) => add_expr(locals, sites, surroundings, e.get()),
        Expr::Cast(_, e, _) => add_expr(locals, sites, surroundings, e.get()),
        Expr::Unary(_, e, _) => add_expr(locals, sites, surroundings, e.get()),
        Expr::Binary(_, a, b, _) => {
            add_expr(locals, sites, surroundings, a.get())?;
            add_expr(locals, sites, surroundings, b.get())
        }
        Expr::Logical(_, a, b, _) => {
            add_expr(locals, sites, surroundings, a.get())?;
            add_expr(locals, sites, surroundings, b.get())
        }
        Expr::Conditional(c, a, b, _) => {
            add_expr(locals, sites, surroundings, c.get())?;
            add_expr(locals, sites, surroundings, a.get())?;
            add_expr(locals, sites, surroundings, b.get())
        }
        Expr::InTransaction(mode, keyword, e, _) => {
            let kind = TransactionKind::Plain(*mode);
            add_kind(sites, surroundings, kind, *keyword)?;
            add_expr(locals, sites, inside(kind, surroundings), e.get())
        }
    }
}

/// The sites of expressions in a row.
#[cycle(add_expr)]
pub(crate) fn add_exprs<'a, A: Allocator + Copy>(
    locals: &Locals<'a, A>,
    sites: &mut Items<Site<'a>, A>,
    surroundings: TransactionsAround,
    all: &'a [Expr<A>],
) -> Result<(), AllocError>
    ensures { OnOk result
        (Appends sites.old sites.new (exprs_sites (exprs_of all.now) (around_in locals.now surroundings))) }
{
    'each: for one in all {
        add_expr(locals, sites, surroundings, one)?;
    }
    Ok(())
}

/// The sites of an expression, where there is one.
pub(crate) fn add_expr_if_any<'a, A: Allocator + Copy>(
    locals: &Locals<'a, A>,
    sites: &mut Items<Site<'a>, A>,
    surroundings: TransactionsAround,
    e: &'a Option<Expr<A>>,
) -> Result<(), AllocError>
    ensures { OnOk result
        (Appends sites.old sites.new
        (sites_if_any expr_sites (option_map expr_of e.now) (around_in locals.now surroundings))) }
{
    match e {
        Some(e) => add_expr(locals, sites, surroundings, e),
        None => Ok(()),
    }
}

/// The sites of a simple statement.
pub(crate) fn add_simple<'a, A: Allocator + Copy>(
    locals: &Locals<'a, A>,
    sites: &mut Items<Site<'a>, A>,
    surroundings: TransactionsAround,
    s: &'a Simple<A>,
) -> Result<(), AllocError>
    ensures { OnOk result
        (Appends sites.old sites.new (simple_sites (simple_of s.now) (around_in locals.now surroundings))) }
{
    match s {
        Simple::Evaluate(e) => add_expr(locals, sites, surroundings, e),
        Simple::Assign(to, _, e) => {
            add_expr(locals, sites, surroundings, to)?;
            add_expr(locals, sites, surroundings, e)
        }
        Simple::Adjust(to, _) => add_expr(locals, sites, surroundings, to),
    }
}

/// The sites of a simple statement, where there is one.
pub(crate) fn add_simple_if_any<'a, A: Allocator + Copy>(
    locals: &Locals<'a, A>,
    sites: &mut Items<Site<'a>, A>,
    surroundings: TransactionsAround,
    s: &'a Option<Simple<A>>,
) -> Result<(), AllocError>
    ensures { OnOk result
        (Appends sites.old sites.new
        (sites_if_any simple_sites (option_map simple_of s.now) (around_in locals.now surroundings))) }
{
    match s {
        Some(s) => add_simple(locals, sites, surroundings, s),
        None => Ok(()),
    }
}
