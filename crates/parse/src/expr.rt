//! Expressions (C11 6.5): operators by climbing their levels.

ghost use Rattle.std.specs.Prelude.{◌≡◌, ◌^◌, ◌<◌, ◌≤◌, ◌+◌, ◌++◌, map, max, IfOk};
ghost use Rattle.lex.specs.Tokens.{toks};
ghost use Rattle.lex.specs.declared.token.Fixed.TheVariants as token;
ghost use Rattle.lex.specs.declared.token.Keyword.TheVariants as key;
ghost use Rattle.lex.specs.declared.token.Punctuator.TheVariants as punct;
ghost use Rattle.syntax.specs.Tree as E;
ghost use Rattle.syntax.specs.Depth.{expr_depth, deepest};
ghost use Rattle.syntax.specs.Views.{expr_of, exprs_of};
ghost use Rattle.parse.specs.inner.Reading.{Fails, Gives, GivesOp, behind, head, is_other, many_until, map_parser};
ghost use Rattle.parse.specs.inner.Reading.{next_op};
ghost use Rattle.parse.specs.inner.Reading.{too_deep_at, take};
ghost use Rattle.parse.specs.inner.Expressions.{arguments, conditional_at, expr_at, name_or_call, cast_or_group_expr};
ghost use Rattle.parse.specs.inner.Expressions.{operand, operators};
ghost use Rattle.parse.specs.inner.Expressions.{outcomes, prefix_expr, starts_expr, the_constant, the_prefix};
ghost use Rattle.parse.specs.inner.Expressions.{transaction};
ghost use Rattle.parse.specs.inner.Expressions.{whole_at};

use crate::cursor::{closed_at, count_tokens, eat, expect, expect_span, is_next, name};
use crate::fault::ParseFailure;
use crate::lead::{Infix, Operand, infix_of, mode_keyword, operand_at, precedence};
use crate::node;
use crate::scalar::{scalar, starts_type};
use containers::Items;
use lex::token::{Fixed, Kind, Punctuator, Span, Token};
use std::alloc::Allocator;
use syntax::tree::{Expr, Mode, UnaryOp};

/// An expression, its depth, and the tokens after it.
type ReadExpr<'t, 'a, A> = (Expr<A>, usize, &'t [Token<'a>]);

/// Expressions, the greatest of their depths, and the tokens after them.
type Listed<'t, 'a, A> = (Items<Expr<A>, A>, usize, &'t [Token<'a>]);

/// Whether an expression begins here.
pub fn starts_expr(tokens: &[Token]) -> bool
    ensures { result ≡ starts_expr (head (toks tokens.now)) }
{
    match operand_at(tokens) {
        Operand::None => false,
        _ => true,
    }
}

/// Why no expression is read where no depth is left.
fn too_deep<'t, 'a>(tokens: &'t [Token<'a>]) -> ParseFailure<'t, 'a>
    ensures { Fails result (too_deep_at {A = E.Expr} starts_expr (toks tokens.now)) }
{
    if starts_expr(tokens) {
        ParseFailure::Deep(tokens)
    } else {
        ParseFailure::Wrong(tokens)
    }
}

/// An operator at the front that binds at least as tightly as `min`, and the tokens after it.
fn next_op<'t, 'a>(tokens: &'t [Token<'a>], min: usize) -> Option<(Infix, &'t [Token<'a>])>
    ensures { GivesOp result (next_op operators min (toks tokens.now)) }
{
    let [first, after @ ..] = tokens else {
        return None;
    };
    let Kind::Punctuator(punctuator) = first.kind else {
        return None;
    };
    let op = infix_of(Fixed::Punctuator(punctuator))?;
    if precedence(op) < min {
        return None;
    }
    Some((op, after))
}

/// A constant.
fn constant<'t, 'a, A: Allocator>(
    tokens: &'t [Token<'a>],
) -> Result<ReadExpr<'t, 'a, A>, ParseFailure<'t, 'a>>
    ensures value { Gives (λ x. (expr_of x.0, toks x.2.now)) result (take the_constant (toks tokens.now)) }
    ensures deep { IfOk result (λ x. x.1 ≡ expr_depth (expr_of x.0)) }
    ensures flat { IfOk result (λ x. x.1 ≡ 1) }
{
    match tokens {
        [first, rest @ ..] => match first.kind {
            Kind::Constant(n, ty) => Ok((Expr::Constant(n, ty, first.span), 1, rest)),
            _ => Err(ParseFailure::Wrong(tokens)),
        },
        [] => Err(ParseFailure::Wrong(tokens)),
    }
}

/// `-`, `+`, `!` or `~`, and where it stands.
fn prefix<'t, 'a>(
    tokens: &'t [Token<'a>],
) -> Result<((UnaryOp, Span), &'t [Token<'a>]), ParseFailure<'t, 'a>>
    ensures { Gives (λ x. (x.0, toks x.1.now)) result (take the_prefix (toks tokens.now)) }
{
    match tokens {
        [first, rest @ ..] => match first.kind {
            Kind::Punctuator(Punctuator::Minus) => Ok(((UnaryOp::Negate, first.span), rest)),
            Kind::Punctuator(Punctuator::Plus) => Ok(((UnaryOp::Keep, first.span), rest)),
            Kind::Punctuator(Punctuator::Not) => Ok(((UnaryOp::Not, first.span), rest)),
            Kind::Punctuator(Punctuator::Complement) => Ok((
                (UnaryOp::Complement, first.span),
                rest,
            )),
            _ => Err(ParseFailure::Wrong(tokens)),
        },
        [] => Err(ParseFailure::Wrong(tokens)),
    }
}

/// `prefix operand`
#[cycle(climbing)]
fn prefix_operation<'t, 'a, A: Allocator + Copy>(
    alloc: A,
    tokens: &'t [Token<'a>],
    depth: usize,
) -> Result<ReadExpr<'t, 'a, A>, ParseFailure<'t, 'a>>
    requires { depth < 2 ^ 32 }
    ensures value { Gives (λ x. (expr_of x.0, toks x.2.now)) result
        (prefix_expr (whole_at depth) (expr_at depth 11) (toks tokens.now)) }
    ensures deep { IfOk result (λ x. x.1 ≡ expr_depth (expr_of x.0)) }
    ensures within { IfOk result (λ x. x.1 ≤ depth + 1) }
{
    let ((op, span), rest) = prefix(tokens)?;
    let (inner, deep, rest) = climb(alloc, rest, depth, 11)?;
    Ok((node::unary(alloc, span, op, inner)?, deep + 1, rest))
}

/// `( type ) operand` or `( expr )`
#[cycle(climbing)]
fn cast_or_group<'t, 'a, A: Allocator + Copy>(
    alloc: A,
    tokens: &'t [Token<'a>],
    depth: usize,
) -> Result<ReadExpr<'t, 'a, A>, ParseFailure<'t, 'a>>
    requires { depth < 2 ^ 32 }
    ensures value { Gives (λ x. (expr_of x.0, toks x.2.now)) result
        (cast_or_group_expr (whole_at depth) (expr_at depth 11) (toks tokens.now)) }
    ensures deep { IfOk result (λ x. x.1 ≡ expr_depth (expr_of x.0)) }
    ensures within { IfOk result (λ x. x.1 ≤ depth + 1) }
{
    let (span, rest) = expect_span(tokens, Fixed::Punctuator(Punctuator::OpenParen))?;
    if starts_type(rest) {
        let (to, rest) = scalar(rest)?;
        let rest = expect(rest, Fixed::Punctuator(Punctuator::CloseParen))?;
        let (inner, deep, rest) = climb(alloc, rest, depth, 11)?;
        return Ok((node::cast(alloc, span, to, inner)?, deep + 1, rest));
    }
    let (inner, deep, rest) = whole(alloc, rest, depth)?;
    let ((inner, last), rest) = closed_at(inner, rest, Fixed::Punctuator(Punctuator::CloseParen))?;
    Ok((node::group(alloc, span, inner, last)?, deep + 1, rest))
}

/// `mode ( expr )`
#[cycle(climbing)]
fn transaction<'t, 'a, A: Allocator + Copy>(
    alloc: A,
    tokens: &'t [Token<'a>],
    mode: Mode,
    depth: usize,
) -> Result<ReadExpr<'t, 'a, A>, ParseFailure<'t, 'a>>
    requires { depth < 2 ^ 32 }
    ensures value { Gives (λ x. (expr_of x.0, toks x.2.now)) result
        (transaction (whole_at depth) (expr_at depth 11) mode (toks tokens.now)) }
    ensures deep { IfOk result (λ x. x.1 ≡ expr_depth (expr_of x.0)) }
    ensures within { IfOk result (λ x. x.1 ≤ depth + 1) }
{
    let (span, rest) = expect_span(tokens, mode_keyword(mode))?;
    let (inner, deep, rest) = behind(alloc, rest, Fixed::Punctuator(Punctuator::OpenParen), depth)?;
    let ((inner, last), rest) = closed_at(inner, rest, Fixed::Punctuator(Punctuator::CloseParen))?;
    Ok((
        node::transaction(alloc, mode, span, inner, last)?,
        deep + 1,
        rest,
    ))
}

/// `fixed expr`
#[cycle(climbing)]
fn behind<'t, 'a, A: Allocator + Copy>(
    alloc: A,
    tokens: &'t [Token<'a>],
    fixed: Fixed,
    depth: usize,
) -> Result<ReadExpr<'t, 'a, A>, ParseFailure<'t, 'a>>
    requires { depth < 2 ^ 32 }
    ensures value { Gives (λ x. (expr_of x.0, toks x.2.now)) result (behind fixed (whole_at depth) (toks tokens.now)) }
    ensures deep { IfOk result (λ x. x.1 ≡ expr_depth (expr_of x.0)) }
    ensures within { IfOk result (λ x. x.1 ≤ depth) }
{
    let rest = expect(tokens, fixed)?;
    whole(alloc, rest, depth)
}

/// `{ , expr }`: adds further expressions to those that were read.
#[cycle(climbing)]
fn extend<'t, 'a, A: Allocator + Copy>(
    alloc: A,
    read: Items<Expr<A>, A>,
    deep: usize,
    tokens: &'t [Token<'a>],
    depth: usize,
) -> Result<Listed<'t, 'a, A>, ParseFailure<'t, 'a>>
    requires fits { depth < 2 ^ 32 }
    requires measured { deep ≡ deepest (exprs_of read) }
    requires shallow { deep ≤ depth }
    ensures value { Gives (λ x. (map expr_of x.0, toks x.2.now)) result
        (map_parser (λ es. map expr_of read ++ es)
        (many_until (is_other (token.Punctuator punct.Comma))
        (behind (token.Punctuator punct.Comma) (whole_at depth)))
        (toks tokens.now)) }
    ensures deep { IfOk result (λ x. x.1 ≡ deepest (exprs_of x.0)) }
    ensures within { IfOk result (λ x. x.1 ≤ depth) }
{
    let (mut rest, count) = count_tokens(tokens);
    let mut all = read;
    let mut most = deep;
    'turns: for _turn in 0..count {
        let Some(inner) = eat(rest, Fixed::Punctuator(Punctuator::Comma)) else {
            return Ok((all, most, rest));
        };
        let (one, one_deep, after) = whole(alloc, inner, depth)?;
        all.push(one)?;
        most = most.max(one_deep);
        rest = after;
    }
    if is_next(rest, Fixed::Punctuator(Punctuator::Comma)) {
        return Err(ParseFailure::Wrong(rest));
    }
    Ok((all, most, rest))
}

/// `[expr { , expr }]`
#[cycle(climbing)]
fn arguments<'t, 'a, A: Allocator + Copy>(
    alloc: A,
    tokens: &'t [Token<'a>],
    depth: usize,
) -> Result<Listed<'t, 'a, A>, ParseFailure<'t, 'a>>
    requires { depth < 2 ^ 32 }
    ensures value { Gives (λ x. (map expr_of x.0, toks x.2.now)) result
        (arguments (whole_at depth) (expr_at depth 11) (toks tokens.now)) }
    ensures deep { IfOk result (λ x. x.1 ≡ deepest (exprs_of x.0)) }
    ensures within { IfOk result (λ x. x.1 ≤ depth) }
{
    let mut args = Items::new(alloc);
    if is_next(tokens, Fixed::Punctuator(Punctuator::CloseParen)) {
        return Ok((args, 0, tokens));
    }
    let (first, deep, rest) = whole(alloc, tokens, depth)?;
    args.push(first)?;
    extend(alloc, args, deep, rest, depth)
}

/// `name`, `name [ expr ]` or `name ( arguments )`
#[cycle(climbing)]
fn name_expr<'t, 'a, A: Allocator + Copy>(
    alloc: A,
    tokens: &'t [Token<'a>],
    depth: usize,
) -> Result<ReadExpr<'t, 'a, A>, ParseFailure<'t, 'a>>
    requires { depth < 2 ^ 32 }
    ensures value { Gives (λ x. (expr_of x.0, toks x.2.now)) result
        (name_or_call (whole_at depth) (expr_at depth 11) (toks tokens.now)) }
    ensures deep { IfOk result (λ x. x.1 ≡ expr_depth (expr_of x.0)) }
    ensures within { IfOk result (λ x. x.1 ≤ depth + 1) }
{
    let (name, rest) = name(alloc, tokens)?;
    if let Some(rest) = eat(rest, Fixed::Punctuator(Punctuator::OpenBracket)) {
        let (index, deep, rest) = whole(alloc, rest, depth)?;
        let ((index, last), rest) = closed_at(
            index,
            rest,
            Fixed::Punctuator(Punctuator::CloseBracket),
        )?;
        return Ok((node::element(alloc, name, index, last)?, deep + 1, rest));
    }
    if let Some(rest) = eat(rest, Fixed::Punctuator(Punctuator::OpenParen)) {
        let (args, deep, rest) = arguments(alloc, rest, depth)?;
        let ((args, last), rest) = closed_at(
            args,
            rest,
            Fixed::Punctuator(Punctuator::CloseParen),
        )?;
        return Ok((node::call(name, args, last), deep + 1, rest));
    }
    Ok((Expr::Variable(name), 1, rest))
}

/// `named | constant | opened | prefixed | transaction`
#[cycle(climbing)]
fn operand<'t, 'a, A: Allocator + Copy>(
    alloc: A,
    tokens: &'t [Token<'a>],
    depth: usize,
) -> Result<ReadExpr<'t, 'a, A>, ParseFailure<'t, 'a>>
    requires { depth < 2 ^ 32 }
    ensures value { Gives (λ x. (expr_of x.0, toks x.2.now)) result
        (operand (whole_at depth) (expr_at depth 11) (toks tokens.now)) }
    ensures deep { IfOk result (λ x. x.1 ≡ expr_depth (expr_of x.0)) }
    ensures within { IfOk result (λ x. x.1 ≤ depth + 1) }
{
    match operand_at(tokens) {
        Operand::Name => name_expr(alloc, tokens, depth),
        Operand::Constant => constant(tokens),
        Operand::Open => cast_or_group(alloc, tokens, depth),
        Operand::Prefix => prefix_operation(alloc, tokens, depth),
        Operand::Transaction(mode) => transaction(alloc, tokens, mode, depth),
        Operand::None => Err(ParseFailure::Wrong(tokens)),
    }
}

/// `operand { infix operand }`, for operators that bind at least as tightly as `min`, which is 1 or more; those of one
/// level group to the left.
#[cycle(climbing)]
fn climb<'t, 'a, A: Allocator + Copy>(
    alloc: A,
    tokens: &'t [Token<'a>],
    depth: usize,
    min: usize,
) -> Result<ReadExpr<'t, 'a, A>, ParseFailure<'t, 'a>>
    requires fits { depth < 2 ^ 32 }
    requires operators { 1 ≤ min }
    ensures value { Gives (λ x. (expr_of x.0, toks x.2.now)) result (expr_at depth min (toks tokens.now)) }
    ensures deep { IfOk result (λ x. x.1 ≡ expr_depth (expr_of x.0)) }
    ensures within { IfOk result (λ x. x.1 ≤ depth) }
{
    if depth == 0 {
        return Err(too_deep(tokens));
    }
    let below = depth - 1;
    let (mut left, mut deep, mut rest) = operand(alloc, tokens, below)?;
    'turns: for _turn in 0..depth {
        let Some((op, after)) = next_op(rest, min) else {
            return Ok((left, deep, rest));
        };
        if deep >= depth {
            drop(left);
            return Err(ParseFailure::Deep(rest));
        }
        match climb(alloc, after, below, precedence(op) + 1) {
            Ok((right, right_deep, after)) => {
                left = node::infix(alloc, op, left, right)?;
                deep = deep.max(right_deep) + 1;
                rest = after;
            }
            Err(failure) => {
                drop(left);
                return Err(failure);
            }
        }
    }
    match next_op(rest, min) {
        Some(_) => {
            drop(left);
            Err(ParseFailure::Deep(rest))
        }
        None => Ok((left, deep, rest)),
    }
}

/// `? expr : expr`: what a condition chooses from, and the greater of their depths.
#[cycle(climbing)]
fn outcomes<'t, 'a, A: Allocator + Copy>(
    alloc: A,
    tokens: &'t [Token<'a>],
    depth: usize,
) -> Result<(Expr<A>, Expr<A>, usize, &'t [Token<'a>]), ParseFailure<'t, 'a>>
    requires { depth < 2 ^ 32 }
    ensures value { Gives (λ x. ((expr_of x.0, expr_of x.1), toks x.3.now)) result
        (outcomes (whole_at depth) (toks tokens.now)) }
    ensures deep { IfOk result (λ x. x.2 ≡ max (expr_depth (expr_of x.0)) (expr_depth (expr_of x.1))) }
    ensures within { IfOk result (λ x. x.2 ≤ depth) }
{
    let rest = expect(tokens, Fixed::Punctuator(Punctuator::Question))?;
    let (then, then_deep, rest) = whole(alloc, rest, depth)?;
    match behind(alloc, rest, Fixed::Punctuator(Punctuator::Colon), depth) {
        Ok((other, other_deep, rest)) => Ok((then, other, then_deep.max(other_deep), rest)),
        Err(failure) => {
            drop(then);
            Err(failure)
        }
    }
}

/// `[? expr : expr]`, behind an expression.
#[cycle(climbing)]
fn conditional<'t, 'a, A: Allocator + Copy>(
    alloc: A,
    condition: Expr<A>,
    deep: usize,
    tokens: &'t [Token<'a>],
    depth: usize,
) -> Result<ReadExpr<'t, 'a, A>, ParseFailure<'t, 'a>>
    requires fits { depth < 2 ^ 32 }
    requires measured { deep ≡ expr_depth (expr_of condition) }
    requires shallow { deep ≤ depth + 1 }
    ensures value { Gives (λ x. (expr_of x.0, toks x.2.now)) result
        (conditional_at (whole_at depth) depth (expr_of condition) (toks tokens.now)) }
    ensures deep { IfOk result (λ x. x.1 ≡ expr_depth (expr_of x.0)) }
    ensures within { IfOk result (λ x. x.1 ≤ depth + 1) }
{
    if !is_next(tokens, Fixed::Punctuator(Punctuator::Question)) {
        return Ok((condition, deep, tokens));
    }
    if deep > depth {
        drop(condition);
        return Err(ParseFailure::Deep(tokens));
    }
    match outcomes(alloc, tokens, depth) {
        Ok((then, other, most, rest)) => {
            let whole = node::conditional(alloc, condition, then, other)?;
            Ok((whole, deep.max(most) + 1, rest))
        }
        Err(failure) => {
            drop(condition);
            Err(failure)
        }
    }
}

/// `climb [? expr : expr]`: any expression within a depth, and how deep it is.
#[cycle(climbing)]
fn whole<'t, 'a, A: Allocator + Copy>(
    alloc: A,
    tokens: &'t [Token<'a>],
    depth: usize,
) -> Result<ReadExpr<'t, 'a, A>, ParseFailure<'t, 'a>>
    requires { depth < 2 ^ 32 }
    ensures value { Gives (λ x. (expr_of x.0, toks x.2.now)) result (whole_at depth (toks tokens.now)) }
    ensures deep { IfOk result (λ x. x.1 ≡ expr_depth (expr_of x.0)) }
    ensures within { IfOk result (λ x. x.1 ≤ depth) }
{
    if depth == 0 {
        return Err(too_deep(tokens));
    }
    let (condition, deep, rest) = climb(alloc, tokens, depth, 1)?;
    conditional(alloc, condition, deep, rest, depth - 1)
}

/// Any expression within a depth.
pub fn expression<'t, 'a, A: Allocator + Copy>(
    alloc: A,
    tokens: &'t [Token<'a>],
    depth: usize,
) -> Result<(Expr<A>, &'t [Token<'a>]), ParseFailure<'t, 'a>>
    requires { depth < 2 ^ 32 }
    ensures { Gives (λ x. (expr_of x.0, toks x.1.now)) result (whole_at depth (toks tokens.now)) }
{
    let (e, _, rest) = whole(alloc, tokens, depth)?;
    Ok((e, rest))
}

/// Further expressions within a depth, each behind a comma.
pub fn further<'t, 'a, A: Allocator + Copy>(
    alloc: A,
    tokens: &'t [Token<'a>],
    depth: usize,
) -> Result<(Items<Expr<A>, A>, &'t [Token<'a>]), ParseFailure<'t, 'a>>
    requires { depth < 2 ^ 32 }
    ensures { Gives (λ x. (map expr_of x.0, toks x.1.now)) result
        (many_until (is_other (token.Punctuator punct.Comma)) (behind (token.Punctuator punct.Comma) (whole_at depth))
        (toks tokens.now)) }
{
    let (all, _, rest) = extend(alloc, Items::new(alloc), 0, tokens, depth)?;
    Ok((all, rest))
}
