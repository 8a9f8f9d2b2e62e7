//! Transactions that lie in too many others.

ghost use Rattle.std.specs.Prelude.{◌≡◌, map, option_map};
ghost use Rattle.syntax.specs.Views.{expr_of, exprs_of, simple_of, declarator_of, start_of, stmt_of, stmts_of, item_of};
ghost use Rattle.lower.specs.Nested.{expr_too_deep, exprs_too_deep, too_deep_if_any, simple_too_deep};
ghost use Rattle.lower.specs.Nested.{declarators_too_deep, start_too_deep, too_deep, any_too_deep};
ghost use Rattle.lower.specs.Nested.{item_too_deep, items_too_deep};

use lex::token::Span;
use std::alloc::Allocator;
use syntax::tree::{Declarator, Expr, Item, Simple, Start, Stmt};

/// The keyword of the first transaction of an expression that lies in so many others.
#[cycle(deep_expr)]
fn deep_expr<A: Allocator>(e: &Expr<A>, count: u32) -> Option<Span>
    ensures { result ≡ expr_too_deep (expr_of e.now) count }
{
    match e {
        Expr::Variable(_) | Expr::Constant(_, _, _) => None,
        Expr::Element(_, index, _) => deep_expr(index.get(), count),
        Expr::Call(_, args, _) => deep_exprs(args.as_slice(), count),
        Expr::Parenthesized(e, _) => deep_expr(e.get(), count),
        Expr::Cast(_, e, _) => deep_expr(e.get(), count),
        Expr::Unary(_, e, _) => deep_expr(e.get(), count),
        Expr::Binary(_, a, b, _) => deep_expr(a.get(), count).or(deep_expr(b.get(), count)),
        Expr::Logical(_, a, b, _) => deep_expr(a.get(), count).or(deep_expr(b.get(), count)),
        Expr::Conditional(c, a, b, _) => {
            let branches = deep_expr(a.get(), count).or(deep_expr(b.get(), count));
            deep_expr(c.get(), count).or(branches)
        }
        Expr::InTransaction(_, keyword, e, _) => {
            if count == 0 {
                Some(*keyword)
            } else {
                deep_expr(e.get(), count - 1)
            }
        }
    }
}

/// The keyword of the first transaction of expressions in a row that lies in so many others.
#[cycle(deep_expr)]
fn deep_exprs<A: Allocator>(all: &[Expr<A>], count: u32) -> Option<Span>
    ensures { result ≡ exprs_too_deep (exprs_of all.now) count }
{
    'each: for e in all {
        match deep_expr(e, count) {
            Some(at) => return Some(at),
            None => {}
        }
    }
    None
}

fn deep_expr_if_any<A: Allocator>(e: &Option<Expr<A>>, count: u32) -> Option<Span>
    ensures { result ≡ too_deep_if_any expr_too_deep (option_map expr_of e.now) count }
{
    match e {
        Some(e) => deep_expr(e, count),
        None => None,
    }
}

fn deep_simple<A: Allocator>(s: &Simple<A>, count: u32) -> Option<Span>
    ensures { result ≡ simple_too_deep (simple_of s.now) count }
{
    match s {
        Simple::Evaluate(e) => deep_expr(e, count),
        Simple::Assign(to, _, e) => deep_expr(to, count).or(deep_expr(e, count)),
        Simple::Adjust(to, _) => deep_expr(to, count),
    }
}

fn deep_simple_if_any<A: Allocator>(s: &Option<Simple<A>>, count: u32) -> Option<Span>
    ensures { result ≡ too_deep_if_any simple_too_deep (option_map simple_of s.now) count }
{
    match s {
        Some(s) => deep_simple(s, count),
        None => None,
    }
}

fn deep_declarators<A: Allocator>(all: &[Declarator<A>], count: u32) -> Option<Span>
    ensures { result ≡ declarators_too_deep (map declarator_of all.now) count }
{
    'each: for one in all {
        match deep_expr_if_any(&one.first, count) {
            Some(at) => return Some(at),
            None => {}
        }
    }
    None
}

fn deep_start<A: Allocator>(start: &Start<A>, count: u32) -> Option<Span>
    ensures { result ≡ start_too_deep (start_of start.now) count }
{
    match start {
        Start::Nothing => None,
        Start::Declare(d) => deep_declarators(d.declarators.as_slice(), count),
        Start::Do(s) => deep_simple(s, count),
    }
}

/// The keyword of the first transaction of a statement that lies in so many others, in the order of the text.
#[cycle(deep_stmt)]
fn deep_stmt<A: Allocator>(s: &Stmt<A>, count: u32) -> Option<Span>
    ensures { result ≡ too_deep (stmt_of s.now) count }
{
    match s {
        Stmt::Declare(d) => deep_declarators(d.declarators.as_slice(), count),
        Stmt::Do(s) => deep_simple(s, count),
        Stmt::Block(body) => deep_stmts(body.as_slice(), count),
        Stmt::Print(_, _, _, args) => deep_exprs(args.as_slice(), count),
        Stmt::If(c, a, None) => deep_expr(c, count).or(deep_stmt(a.get(), count)),
        Stmt::If(c, a, Some(b)) => {
            let branches = deep_stmt(a.get(), count).or(deep_stmt(b.get(), count));
            deep_expr(c, count).or(branches)
        }
        Stmt::While(c, body) => deep_expr(c, count).or(deep_stmt(body.get(), count)),
        Stmt::DoWhile(body, c) => deep_stmt(body.get(), count).or(deep_expr(c, count)),
        Stmt::For(head, body) => {
            let head = head.get();
            let turn = deep_simple_if_any(&head.step, count).or(deep_stmt(body.get(), count));
            let loops = deep_expr_if_any(&head.condition, count).or(turn);
            deep_start(&head.start, count).or(loops)
        }
        Stmt::Return(e, _) => deep_expr_if_any(e, count),
        Stmt::Transaction(_, body, at) => {
            if count == 0 {
                Some(*at)
            } else {
                deep_stmts(body.as_slice(), count - 1)
            }
        }
        Stmt::Empty | Stmt::Break(_) | Stmt::Continue(_) | Stmt::Cancel(_) | Stmt::CancelOuter(_) =>
            None,
    }
}

/// The keyword of the first transaction of statements in a row that lies in so many others.
#[cycle(deep_stmt)]
fn deep_stmts<A: Allocator>(body: &[Stmt<A>], count: u32) -> Option<Span>
    ensures { result ≡ any_too_deep (stmts_of body.now) count }
{
    'each: for s in body {
        match deep_stmt(s, count) {
            Some(at) => return Some(at),
            None => {}
        }
    }
    None
}

fn deep_item<A: Allocator>(item: &Item<A>, count: u32) -> Option<Span>
    ensures { result ≡ item_too_deep (item_of item.now) count }
{
    match item {
        Item::Function(f) => match &f.body {
            Some(body) => deep_stmts(body.as_slice(), count),
            None => None,
        },
        Item::Globals(_) => None,
    }
}

/// The keyword of the first transaction among these items that lies in so many others.
pub(crate) fn first_too_deep<A: Allocator>(items: &[Item<A>], count: u32) -> Option<Span>
    ensures { result ≡ items_too_deep (map item_of items.now) count }
{
    'each: for item in items {
        match deep_item(item, count) {
            Some(at) => return Some(at),
            None => {}
        }
    }
    None
}
