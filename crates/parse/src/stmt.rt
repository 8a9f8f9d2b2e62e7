//! Statements, and the blocks that they stand in (C11 6.8).

ghost use Rattle.std.specs.Prelude.{◌≡◌, ◌^◌, ◌<◌, ◌+◌, [], ◌∷◌, ◌++◌, map, option_map, IfOk};
ghost use Rattle.syntax.specs.Tree.{While, DoWhile, For};
ghost use Rattle.lex.specs.declared.token.Fixed.TheVariants as token;
ghost use Rattle.lex.specs.declared.token.Keyword.TheVariants as key;
ghost use Rattle.lex.specs.declared.token.Punctuator.TheVariants as punct;
ghost use Rattle.lex.specs.Tokens.{toks};
ghost use Rattle.syntax.specs.Views.{expr_of, simple_of, start_of, stmt_of};
ghost use Rattle.parse.specs.inner.Reading.{Gives, GivesOn, expect, head, map_parser, perhaps, behind};
ghost use Rattle.parse.specs.inner.Expressions.{whole_at};
ghost use Rattle.parse.specs.inner.Headings.{branches_of};
ghost use Rattle.parse.specs.inner.Statements.{in_parens, entry, branches, if_tree, if_stmt, while_stmt, do_stmt};
ghost use Rattle.parse.specs.inner.Statements.{end_of_do, rest_of_head, head_of_for, for_stmt, kind, transaction_stmt};
ghost use Rattle.parse.specs.inner.Statements.{starts_stmt, stmt_at, block_at};

use crate::cursor::{eat, expect, expect_close, expect_span, is_next};
use crate::expr::expression;
use crate::fault::ParseFailure;
use crate::lead::{Lead, lead_at, mode_keyword};
use crate::outer::has_outer_attribute;
use crate::plain::{
    break_stmt, cancel_stmt, continue_stmt, empty_stmt, print_stmt, return_stmt, simple_stmt,
};
use crate::scalar::starts_type;
use crate::simple::{declaration, last_expression, last_simple, start, starts_simple};
use containers::{Boxed, Items};
use lex::token::{Fixed, Keyword, Punctuator, Token};
use std::alloc::Allocator;
use syntax::tree::{Expr, ForHead, Mode, Simple, Stmt, TransactionKind};

/// What an `if` chooses from.
#[derive(Drop)]
struct Choice<A: Allocator> {
    then: Boxed<Stmt<A>, A>,
    other: Option<Boxed<Stmt<A>, A>>,
}

/// `( expr )`
fn in_parens<'t, 'a, A: Allocator + Copy>(
    alloc: A,
    tokens: &'t [Token<'a>],
    depth: usize,
) -> Result<(Expr<A>, &'t [Token<'a>]), ParseFailure<'t, 'a>>
    requires { depth < 2 ^ 32 }
    ensures { Gives (λ x. (expr_of x.0, toks x.1.now)) result (in_parens (whole_at depth) (toks tokens.now)) }
{
    let rest = expect(tokens, Fixed::Punctuator(Punctuator::OpenParen))?;
    expect_close(
        expression(alloc, rest, depth),
        Fixed::Punctuator(Punctuator::CloseParen),
    )
}

/// `[expr] ; [simple] )`
fn rest_of_head<'t, 'a, A: Allocator + Copy>(
    alloc: A,
    tokens: &'t [Token<'a>],
    depth: usize,
) -> Result<((Option<Expr<A>>, Option<Simple<A>>), &'t [Token<'a>]), ParseFailure<'t, 'a>>
    requires { depth < 2 ^ 32 }
    ensures { Gives (λ x. ((option_map expr_of x.0.0, option_map simple_of x.0.1), toks x.1.now)) result
        (rest_of_head depth (toks tokens.now)) }
{
    let (condition, rest) = last_expression(alloc, tokens, depth)?;
    match last_simple(alloc, rest, depth) {
        Ok((step, rest)) => Ok(((condition, step), rest)),
        Err(failure) => {
            drop(condition);
            Err(failure)
        }
    }
}

/// `( start [expr] ; [simple] )`
fn head_of_for<'t, 'a, A: Allocator + Copy>(
    alloc: A,
    tokens: &'t [Token<'a>],
    depth: usize,
) -> Result<(ForHead<A>, &'t [Token<'a>]), ParseFailure<'t, 'a>>
    requires { depth < 2 ^ 32 }
    ensures { Gives
        (λ x. ((start_of x.0.start, (option_map expr_of x.0.condition, option_map simple_of x.0.step)), toks x.1.now))
        result (head_of_for depth (toks tokens.now)) }
{
    let rest = expect(tokens, Fixed::Punctuator(Punctuator::OpenParen))?;
    let (start, rest) = start(alloc, rest, depth)?;
    match rest_of_head(alloc, rest, depth) {
        Ok(((condition, step), rest)) => {
            let head = ForHead {
                start,
                condition,
                step,
            };
            Ok((head, rest))
        }
        Err(failure) => {
            drop(start);
            Err(failure)
        }
    }
}

/// What a `for` has in its parentheses, in a box.
fn boxed_head<'t, 'a, A: Allocator + Copy>(
    alloc: A,
    tokens: &'t [Token<'a>],
    depth: usize,
) -> Result<(Boxed<ForHead<A>, A>, &'t [Token<'a>]), ParseFailure<'t, 'a>>
    requires { depth < 2 ^ 32 }
    ensures { Gives
        (λ x. ((start_of x.0.start, (option_map expr_of x.0.condition, option_map simple_of x.0.step)), toks x.1.now))
        result (head_of_for depth (toks tokens.now)) }
{
    let (head, rest) = head_of_for(alloc, tokens, depth)?;
    Ok((Boxed::new(alloc, head)?, rest))
}

/// `while ( expr ) ;`, behind the body of a `do`.
fn end_of_do<'t, 'a, A: Allocator + Copy>(
    alloc: A,
    tokens: &'t [Token<'a>],
    depth: usize,
) -> Result<(Expr<A>, &'t [Token<'a>]), ParseFailure<'t, 'a>>
    requires { depth < 2 ^ 32 }
    ensures { Gives (λ x. (expr_of x.0, toks x.1.now)) result (end_of_do depth (toks tokens.now)) }
{
    let rest = expect(tokens, Fixed::Keyword(Keyword::While))?;
    expect_close(
        in_parens(alloc, rest, depth),
        Fixed::Punctuator(Punctuator::Semicolon),
    )
}

/// What was read of a statement, in a box. In this function and the next ones, which take what the cycle of statements
/// reads, what was read before is dropped where the rest fails: in the cycle itself that is dear to prove.
fn box_stmt<'t, 'a, A: Allocator + Copy>(
    alloc: A,
    read: Result<(Stmt<A>, &'t [Token<'a>]), ParseFailure<'t, 'a>>,
) -> Result<(Boxed<Stmt<A>, A>, &'t [Token<'a>]), ParseFailure<'t, 'a>>
    ensures { GivesOn stmt_of stmt_of (λ s. s) read.entry result }
{
    match read {
        Ok((one, rest)) => Ok((Boxed::new(alloc, one)?, rest)),
        Err(failure) => Err(failure),
    }
}

/// What an `if` chooses from, of its first branch and what was read of the other.
fn choice_of<'t, 'a, A: Allocator + Copy>(
    then: Boxed<Stmt<A>, A>,
    read: Result<(Option<Boxed<Stmt<A>, A>>, &'t [Token<'a>]), ParseFailure<'t, 'a>>,
) -> Result<(Choice<A>, &'t [Token<'a>]), ParseFailure<'t, 'a>>
    ensures { GivesOn (option_map stmt_of) branches_of (λ b. (stmt_of then, b)) read.entry result }
{
    match read {
        Ok((other, rest)) => Ok((Choice { then, other }, rest)),
        Err(failure) => Err(failure),
    }
}

/// An `if` of its condition and what was read behind it.
fn if_of<'t, 'a, A: Allocator + Copy>(
    condition: Expr<A>,
    read: Result<(Choice<A>, &'t [Token<'a>]), ParseFailure<'t, 'a>>,
) -> Result<(Stmt<A>, &'t [Token<'a>]), ParseFailure<'t, 'a>>
    ensures { GivesOn branches_of stmt_of (λ b. if_tree (expr_of condition, b)) read.entry result }
{
    match read {
        Ok((both, rest)) => {
            let Choice { then, other } = both;
            Ok((Stmt::If(condition, then, other), rest))
        }
        Err(failure) => {
            drop(condition);
            Err(failure)
        }
    }
}

/// A `while` of its condition and what was read behind it.
fn while_of<'t, 'a, A: Allocator + Copy>(
    condition: Expr<A>,
    read: Result<(Boxed<Stmt<A>, A>, &'t [Token<'a>]), ParseFailure<'t, 'a>>,
) -> Result<(Stmt<A>, &'t [Token<'a>]), ParseFailure<'t, 'a>>
    ensures { GivesOn stmt_of stmt_of (λ s. While (expr_of condition) s) read.entry result }
{
    match read {
        Ok((body, rest)) => Ok((Stmt::While(condition, body), rest)),
        Err(failure) => {
            drop(condition);
            Err(failure)
        }
    }
}

/// A `for` of its head and what was read behind it.
fn for_of<'t, 'a, A: Allocator + Copy>(
    head: Boxed<ForHead<A>, A>,
    read: Result<(Boxed<Stmt<A>, A>, &'t [Token<'a>]), ParseFailure<'t, 'a>>,
) -> Result<(Stmt<A>, &'t [Token<'a>]), ParseFailure<'t, 'a>>
    ensures { GivesOn stmt_of stmt_of
        (λ s. For (start_of head.start) (option_map expr_of head.condition) (option_map simple_of head.step) s)
        read.entry result }
{
    match read {
        Ok((body, rest)) => Ok((Stmt::For(head, body), rest)),
        Err(failure) => Err(failure),
    }
}

/// A `do` of its body and of `while ( expr ) ;`, which is read here.
fn do_of<'t, 'a, A: Allocator + Copy>(
    alloc: A,
    body: Boxed<Stmt<A>, A>,
    tokens: &'t [Token<'a>],
    depth: usize,
) -> Result<(Stmt<A>, &'t [Token<'a>]), ParseFailure<'t, 'a>>
    requires { depth < 2 ^ 32 }
    ensures { Gives (λ x. (stmt_of x.0, toks x.1.now)) result
        (map_parser (DoWhile (stmt_of body)) (end_of_do depth) (toks tokens.now)) }
{
    match end_of_do(alloc, tokens, depth) {
        Ok((condition, rest)) => Ok((Stmt::DoWhile(body, condition), rest)),
        Err(failure) => Err(failure),
    }
}

/// What was read of a statement, behind those that were read before.
fn append_stmt<'t, 'a, A: Allocator + Copy>(
    mut all: Items<Stmt<A>, A>,
    read: Result<(Stmt<A>, &'t [Token<'a>]), ParseFailure<'t, 'a>>,
) -> Result<(Items<Stmt<A>, A>, &'t [Token<'a>]), ParseFailure<'t, 'a>>
    ensures { GivesOn stmt_of (λ ss. map stmt_of ss) (λ s. map stmt_of all ++ s ∷ []) read.entry result }
{
    match read {
        Ok((one, rest)) => {
            all.push(one)?;
            Ok((all, rest))
        }
        Err(failure) => Err(failure),
    }
}

/// Statements, where a brace closes them.
fn block_tail<'t, 'a, A: Allocator + Copy>(
    all: Items<Stmt<A>, A>,
    tokens: &'t [Token<'a>],
) -> Result<(Items<Stmt<A>, A>, &'t [Token<'a>]), ParseFailure<'t, 'a>>
    ensures value { IfOk result (λ x. x.0 ≡ all) }
    ensures rest { Gives (λ x. (tt, toks x.1.now)) result
        (expect (token.Punctuator punct.CloseBrace) (toks tokens.now)) }
{
    expect_close(Ok((all, tokens)), Fixed::Punctuator(Punctuator::CloseBrace))
}

/// A statement, in a box.
#[cycle(statements)]
fn boxed_stmt<'t, 'a, A: Allocator + Copy>(
    alloc: A,
    tokens: &'t [Token<'a>],
    depth: usize,
) -> Result<(Boxed<Stmt<A>, A>, &'t [Token<'a>]), ParseFailure<'t, 'a>>
    requires { depth < 2 ^ 32 }
    ensures { Gives (λ x. (stmt_of x.0, toks x.1.now)) result (stmt_at depth (toks tokens.now)) }
{
    box_stmt(alloc, stmt(alloc, tokens, depth))
}

/// `[else stmt]`
#[cycle(statements)]
fn else_part<'t, 'a, A: Allocator + Copy>(
    alloc: A,
    tokens: &'t [Token<'a>],
    depth: usize,
) -> Result<(Option<Boxed<Stmt<A>, A>>, &'t [Token<'a>]), ParseFailure<'t, 'a>>
    requires { depth < 2 ^ 32 }
    ensures { Gives (λ x. (option_map stmt_of x.0, toks x.1.now)) result
        (perhaps (token.Keyword key.Else) (behind (token.Keyword key.Else) (stmt_at depth)) (toks tokens.now)) }
{
    let Some(rest) = eat(tokens, Fixed::Keyword(Keyword::Else)) else {
        return Ok((None, tokens));
    };
    let (other, rest) = boxed_stmt(alloc, rest, depth)?;
    Ok((Some(other), rest))
}

/// `stmt [else stmt]`: what an `if` chooses from.
#[cycle(statements)]
fn branches<'t, 'a, A: Allocator + Copy>(
    alloc: A,
    tokens: &'t [Token<'a>],
    depth: usize,
) -> Result<(Choice<A>, &'t [Token<'a>]), ParseFailure<'t, 'a>>
    requires { depth < 2 ^ 32 }
    ensures { Gives (λ x. (branches_of x.0, toks x.1.now)) result (branches (stmt_at depth) (toks tokens.now)) }
{
    let (then, rest) = boxed_stmt(alloc, tokens, depth)?;
    choice_of(then, else_part(alloc, rest, depth))
}

/// `if ( expr ) branches`
#[cycle(statements)]
fn if_stmt<'t, 'a, A: Allocator + Copy>(
    alloc: A,
    tokens: &'t [Token<'a>],
    depth: usize,
) -> Result<(Stmt<A>, &'t [Token<'a>]), ParseFailure<'t, 'a>>
    requires { depth < 2 ^ 32 }
    ensures { Gives (λ x. (stmt_of x.0, toks x.1.now)) result
        (if_stmt depth (stmt_at depth) (block_at depth) (toks tokens.now)) }
{
    let rest = expect(tokens, Fixed::Keyword(Keyword::If))?;
    let (condition, rest) = in_parens(alloc, rest, depth)?;
    if_of(condition, branches(alloc, rest, depth))
}

/// `while ( expr ) stmt`
#[cycle(statements)]
fn while_stmt<'t, 'a, A: Allocator + Copy>(
    alloc: A,
    tokens: &'t [Token<'a>],
    depth: usize,
) -> Result<(Stmt<A>, &'t [Token<'a>]), ParseFailure<'t, 'a>>
    requires { depth < 2 ^ 32 }
    ensures { Gives (λ x. (stmt_of x.0, toks x.1.now)) result
        (while_stmt depth (stmt_at depth) (block_at depth) (toks tokens.now)) }
{
    let rest = expect(tokens, Fixed::Keyword(Keyword::While))?;
    let (condition, rest) = in_parens(alloc, rest, depth)?;
    while_of(condition, boxed_stmt(alloc, rest, depth))
}

/// `do stmt while ( expr ) ;`
#[cycle(statements)]
fn do_stmt<'t, 'a, A: Allocator + Copy>(
    alloc: A,
    tokens: &'t [Token<'a>],
    depth: usize,
) -> Result<(Stmt<A>, &'t [Token<'a>]), ParseFailure<'t, 'a>>
    requires { depth < 2 ^ 32 }
    ensures { Gives (λ x. (stmt_of x.0, toks x.1.now)) result
        (do_stmt depth (stmt_at depth) (block_at depth) (toks tokens.now)) }
{
    let rest = expect(tokens, Fixed::Keyword(Keyword::Do))?;
    let (body, rest) = boxed_stmt(alloc, rest, depth)?;
    do_of(alloc, body, rest, depth)
}

/// `for head_of_for stmt`
#[cycle(statements)]
fn for_stmt<'t, 'a, A: Allocator + Copy>(
    alloc: A,
    tokens: &'t [Token<'a>],
    depth: usize,
) -> Result<(Stmt<A>, &'t [Token<'a>]), ParseFailure<'t, 'a>>
    requires { depth < 2 ^ 32 }
    ensures { Gives (λ x. (stmt_of x.0, toks x.1.now)) result
        (for_stmt depth (stmt_at depth) (block_at depth) (toks tokens.now)) }
{
    let rest = expect(tokens, Fixed::Keyword(Keyword::For))?;
    let (head, rest) = boxed_head(alloc, rest, depth)?;
    for_of(head, boxed_stmt(alloc, rest, depth))
}

/// `[outer]`, behind the keyword of a transaction: what kind it is. A relaxed one has no attribute.
fn kind<'t, 'a>(
    tokens: &'t [Token<'a>],
    mode: Mode,
) -> Result<(TransactionKind, &'t [Token<'a>]), ParseFailure<'t, 'a>>
    ensures { Gives (λ x. (x.0, toks x.1.now)) result (kind mode (toks tokens.now)) }
{
    match mode {
        Mode::Relaxed => Ok((TransactionKind::Plain(Mode::Relaxed), tokens)),
        Mode::Atomic => {
            let (outer, rest) = has_outer_attribute(tokens)?;
            if outer {
                Ok((TransactionKind::Outer, rest))
            } else {
                Ok((TransactionKind::Plain(Mode::Atomic), rest))
            }
        }
    }
}

/// `mode kind block`, or `simple ;` where that begins with `mode (`.
#[cycle(statements)]
fn transaction_stmt<'t, 'a, A: Allocator + Copy>(
    alloc: A,
    tokens: &'t [Token<'a>],
    mode: Mode,
    depth: usize,
) -> Result<(Stmt<A>, &'t [Token<'a>]), ParseFailure<'t, 'a>>
    requires { depth + 1 < 2 ^ 32 }
    ensures { Gives (λ x. (stmt_of x.0, toks x.1.now)) result
        (transaction_stmt depth (stmt_at depth) (block_at depth) mode (toks tokens.now)) }
{
    let (span, rest) = expect_span(tokens, mode_keyword(mode))?;
    if is_next(rest, Fixed::Punctuator(Punctuator::OpenParen)) {
        if depth == 0 {
            return Err(ParseFailure::Deep(rest));
        }
        return simple_stmt(alloc, tokens, depth + 1);
    }
    let (kind, rest) = kind(rest, mode)?;
    let (body, rest) = block(alloc, rest, depth)?;
    Ok((Stmt::Transaction(kind, body, span), rest))
}

/// `declaration | stmt`
#[cycle(statements)]
fn entry<'t, 'a, A: Allocator + Copy>(
    alloc: A,
    tokens: &'t [Token<'a>],
    depth: usize,
) -> Result<(Stmt<A>, &'t [Token<'a>]), ParseFailure<'t, 'a>>
    requires { depth < 2 ^ 32 }
    ensures { Gives (λ x. (stmt_of x.0, toks x.1.now)) result (entry depth (stmt_at depth) (toks tokens.now)) }
{
    if starts_type(tokens) {
        let (declaration, rest) = declaration(alloc, tokens, depth)?;
        return Ok((Stmt::Declare(declaration), rest));
    }
    stmt(alloc, tokens, depth)
}

/// `{ { entry } }`, within a depth.
#[cycle(statements)]
pub fn block<'t, 'a, A: Allocator + Copy>(
    alloc: A,
    tokens: &'t [Token<'a>],
    depth: usize,
) -> Result<(Items<Stmt<A>, A>, &'t [Token<'a>]), ParseFailure<'t, 'a>>
    requires { depth < 2 ^ 32 }
    ensures { Gives (λ x. (map stmt_of x.0, toks x.1.now)) result (block_at depth (toks tokens.now)) }
{
    let inner = expect(tokens, Fixed::Punctuator(Punctuator::OpenBrace))?;
    if depth == 0 {
        return Err(ParseFailure::Deep(tokens));
    }
    let below = depth - 1;
    let mut rest = inner;
    let mut all = Items::new(alloc);
    'turns: for _turn in 0..inner.len() {
        if is_next(rest, Fixed::Punctuator(Punctuator::CloseBrace)) {
            break;
        }
        let (more, after) = append_stmt(all, entry(alloc, rest, below))?;
        all = more;
        rest = after;
    }
    let (all, rest) = block_tail(all, rest)?;
    Ok((all, rest))
}

/// Whether a statement begins here.
fn starts_stmt(tokens: &[Token]) -> bool
    ensures { result ≡ starts_stmt (head (toks tokens.now)) }
{
    match lead_at(tokens) {
        Lead::Simple => starts_simple(tokens),
        _ => true,
    }
}

/// A statement within a depth.
#[cycle(statements)]
pub fn stmt<'t, 'a, A: Allocator + Copy>(
    alloc: A,
    tokens: &'t [Token<'a>],
    depth: usize,
) -> Result<(Stmt<A>, &'t [Token<'a>]), ParseFailure<'t, 'a>>
    requires { depth < 2 ^ 32 }
    ensures { Gives (λ x. (stmt_of x.0, toks x.1.now)) result (stmt_at depth (toks tokens.now)) }
{
    if depth == 0 {
        if starts_stmt(tokens) {
            return Err(ParseFailure::Deep(tokens));
        }
        return Err(ParseFailure::Wrong(tokens));
    }
    let below = depth - 1;
    match lead_at(tokens) {
        Lead::Empty => empty_stmt(tokens),
        Lead::Block => {
            let (body, rest) = block(alloc, tokens, depth)?;
            Ok((Stmt::Block(body), rest))
        }
        Lead::Print => print_stmt(alloc, tokens, below),
        Lead::If => if_stmt(alloc, tokens, below),
        Lead::While => while_stmt(alloc, tokens, below),
        Lead::Do => do_stmt(alloc, tokens, below),
        Lead::For => for_stmt(alloc, tokens, below),
        Lead::Break => break_stmt(tokens),
        Lead::Continue => continue_stmt(tokens),
        Lead::Return => return_stmt(alloc, tokens, below),
        Lead::Transaction(mode) => transaction_stmt(alloc, tokens, mode, below),
        Lead::Cancel => cancel_stmt(tokens),
        Lead::Simple => simple_stmt(alloc, tokens, depth),
    }
}
