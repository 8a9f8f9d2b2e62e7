//! Assignments (C11 6.5.16), steps (6.5.2.4, 6.5.3.1) and values, and declarations (6.7).

ghost use Rattle.std.specs.Prelude.{◌≡◌, ◌^◌, ◌<◌, map, option_map};
ghost use Rattle.lex.specs.declared.token.Fixed.TheVariants as token;
ghost use Rattle.lex.specs.declared.token.Keyword.TheVariants as key;
ghost use Rattle.lex.specs.declared.token.Punctuator.TheVariants as punct;
ghost use Rattle.lex.specs.Tokens.{toks};
ghost use Rattle.syntax.specs.Tree as Tree;
ghost use Rattle.syntax.specs.Views.{expr_of, simple_of, declarator_of, declaration_of, start_of};
ghost use Rattle.syntax.specs.Grammar.{assigning_of, the_assigning, the_step};
ghost use Rattle.parse.specs.inner.Reading.{Gives, head, behind, before, comma_list, perhaps, unless};
ghost use Rattle.parse.specs.inner.Expressions.{whole_at};
ghost use Rattle.parse.specs.inner.Statements.{GivesToken, simple_from, simple, starts_simple, simple_at, declarator};
ghost use Rattle.parse.specs.inner.Statements.{declaration, declaration_at, start};

use crate::cursor::{eat, expect_close, name};
use crate::expr::{expression, starts_expr};
use crate::fault::ParseFailure;
use crate::list::{Element, comma_list};
use crate::scalar::{scalar, starts_type};
use containers::Items;
use lex::token::{Fixed, Kind, Punctuator, Token};
use std::alloc::Allocator;
use syntax::tree::{BinaryOp, Declaration, Declarator, Expr, IncDec, Simple, Start};

/// The operator of an assignment, if a punctuator assigns.
fn assigning_of(fixed: Fixed) -> Option<Option<BinaryOp>>
    ensures { result ≡ assigning_of fixed }
{
    match fixed {
        Fixed::Punctuator(Punctuator::Assign) => Some(None),
        Fixed::Punctuator(Punctuator::AddAssign) => Some(Some(BinaryOp::Add)),
        Fixed::Punctuator(Punctuator::SubtractAssign) => Some(Some(BinaryOp::Subtract)),
        Fixed::Punctuator(Punctuator::MultiplyAssign) => Some(Some(BinaryOp::Multiply)),
        Fixed::Punctuator(Punctuator::DivideAssign) => Some(Some(BinaryOp::Divide)),
        Fixed::Punctuator(Punctuator::RemainderAssign) => Some(Some(BinaryOp::Remainder)),
        Fixed::Punctuator(Punctuator::ShiftLeftAssign) => Some(Some(BinaryOp::ShiftLeft)),
        Fixed::Punctuator(Punctuator::ShiftRightAssign) => Some(Some(BinaryOp::ShiftRight)),
        Fixed::Punctuator(Punctuator::AndAssign) => Some(Some(BinaryOp::And)),
        Fixed::Punctuator(Punctuator::OrAssign) => Some(Some(BinaryOp::Or)),
        Fixed::Punctuator(Punctuator::XorAssign) => Some(Some(BinaryOp::Xor)),
        _ => None,
    }
}

/// A punctuator that assigns at the front, if one stands there.
fn assigning<'t, 'a>(tokens: &'t [Token<'a>]) -> Option<(Option<BinaryOp>, &'t [Token<'a>])>
    ensures { GivesToken the_assigning (toks tokens.now) result }
{
    let [first, rest @ ..] = tokens else {
        return None;
    };
    let Kind::Punctuator(punctuator) = first.kind else {
        return None;
    };
    let op = assigning_of(Fixed::Punctuator(punctuator))?;
    Some((op, rest))
}

/// A step up or down at the front, if one stands there.
fn step<'t, 'a>(tokens: &'t [Token<'a>]) -> Option<(IncDec, &'t [Token<'a>])>
    ensures { GivesToken the_step (toks tokens.now) result }
{
    let [first, rest @ ..] = tokens else {
        return None;
    };
    match first.kind {
        Kind::Punctuator(Punctuator::Increment) => Some((IncDec::Increment, rest)),
        Kind::Punctuator(Punctuator::Decrement) => Some((IncDec::Decrement, rest)),
        _ => None,
    }
}

/// Whether an assignment, a step or a value begins here.
pub fn starts_simple(tokens: &[Token]) -> bool
    ensures { result ≡ starts_simple (head (toks tokens.now)) }
{
    match step(tokens) {
        Some(_) => true,
        None => starts_expr(tokens),
    }
}

/// `[assigning expr | ++ | --]`, behind an expression.
fn simple_from<'t, 'a, A: Allocator + Copy>(
    alloc: A,
    to: Expr<A>,
    tokens: &'t [Token<'a>],
    depth: usize,
) -> Result<(Simple<A>, &'t [Token<'a>]), ParseFailure<'t, 'a>>
    requires { depth < 2 ^ 32 }
    ensures { Gives (λ x. (simple_of x.0, toks x.1.now)) result
        (simple_from (whole_at depth) (expr_of to) (toks tokens.now)) }
{
    if let Some((op, rest)) = assigning(tokens) {
        return match expression(alloc, rest, depth) {
            Ok((value, rest)) => Ok((Simple::Assign(to, op, value), rest)),
            Err(failure) => {
                drop(to);
                Err(failure)
            }
        };
    }
    if let Some((by, rest)) = step(tokens) {
        return Ok((Simple::Adjust(to, by), rest));
    }
    Ok((Simple::Evaluate(to), tokens))
}

/// `++ expr`, `-- expr` or `expr [assigning expr | ++ | --]`, whose parts have at most this depth.
fn simple_over<'t, 'a, A: Allocator + Copy>(
    alloc: A,
    tokens: &'t [Token<'a>],
    depth: usize,
) -> Result<(Simple<A>, &'t [Token<'a>]), ParseFailure<'t, 'a>>
    requires { depth < 2 ^ 32 }
    ensures { Gives (λ x. (simple_of x.0, toks x.1.now)) result (simple (whole_at depth) (toks tokens.now)) }
{
    if let Some((by, rest)) = step(tokens) {
        let (to, rest) = expression(alloc, rest, depth)?;
        return Ok((Simple::Adjust(to, by), rest));
    }
    let (to, rest) = expression(alloc, tokens, depth)?;
    simple_from(alloc, to, rest, depth)
}

/// An assignment, a step or a value within a depth.
pub fn simple<'t, 'a, A: Allocator + Copy>(
    alloc: A,
    tokens: &'t [Token<'a>],
    depth: usize,
) -> Result<(Simple<A>, &'t [Token<'a>]), ParseFailure<'t, 'a>>
    requires { depth < 2 ^ 32 }
    ensures { Gives (λ x. (simple_of x.0, toks x.1.now)) result (simple_at depth (toks tokens.now)) }
{
    if depth == 0 {
        if starts_simple(tokens) {
            return Err(ParseFailure::Deep(tokens));
        }
        return Err(ParseFailure::Wrong(tokens));
    }
    simple_over(alloc, tokens, depth - 1)
}

/// `simple`, and then this keyword or punctuator.
pub fn simple_before<'t, 'a, A: Allocator + Copy>(
    alloc: A,
    tokens: &'t [Token<'a>],
    depth: usize,
    fixed: Fixed,
) -> Result<(Simple<A>, &'t [Token<'a>]), ParseFailure<'t, 'a>>
    requires { depth < 2 ^ 32 }
    ensures { Gives (λ x. (simple_of x.0, toks x.1.now)) result (before fixed (simple_at depth) (toks tokens.now)) }
{
    expect_close(simple(alloc, tokens, depth), fixed)
}

/// `[= expr]`
fn first_value<'t, 'a, A: Allocator + Copy>(
    alloc: A,
    tokens: &'t [Token<'a>],
    depth: usize,
) -> Result<(Option<Expr<A>>, &'t [Token<'a>]), ParseFailure<'t, 'a>>
    requires { depth < 2 ^ 32 }
    ensures { Gives (λ x. (option_map expr_of x.0, toks x.1.now)) result
        (perhaps (token.Punctuator punct.Assign) (behind (token.Punctuator punct.Assign) (whole_at depth))
        (toks tokens.now)) }
{
    let Some(rest) = eat(tokens, Fixed::Punctuator(Punctuator::Assign)) else {
        return Ok((None, tokens));
    };
    let (value, rest) = expression(alloc, rest, depth)?;
    Ok((Some(value), rest))
}

/// `name [= expr]`
fn declarator<'t, 'a, A: Allocator + Copy>(
    alloc: A,
    tokens: &'t [Token<'a>],
    depth: usize,
) -> Result<(Declarator<A>, &'t [Token<'a>]), ParseFailure<'t, 'a>>
    requires { depth < 2 ^ 32 }
    ensures { Gives (λ x. (declarator_of x.0, toks x.1.now)) result (declarator (whole_at depth) (toks tokens.now)) }
{
    let (name, rest) = name(alloc, tokens)?;
    match first_value(alloc, rest, depth) {
        Ok((first, rest)) => Ok((Declarator { name, first }, rest)),
        Err(failure) => {
            drop(name);
            Err(failure)
        }
    }
}

/// How the declarators of a list are read.
#[derive(Drop)]
struct EachDeclarator<A: Allocator> {
    alloc: A,
    depth: usize,
}

impl<A: Allocator + Copy> Element<Declarator<A>> for EachDeclarator<A> {
    ghost Plain = { Tree.Declarator };

    ghost plain = { declarator_of };

    ghost can = { λ each. each.depth < 2 ^ 32 };

    ghost reads = { λ each. declarator (whole_at each.depth) };

    fn read<'t, 'a>(
        &self,
        tokens: &'t [Token<'a>],
    ) -> Result<(Declarator<A>, &'t [Token<'a>]), ParseFailure<'t, 'a>> {
        declarator(self.alloc, tokens, self.depth)
    }
}

/// `declarator { , declarator } ;`
fn declarators<'t, 'a, A: Allocator + Copy>(
    alloc: A,
    tokens: &'t [Token<'a>],
    depth: usize,
) -> Result<(Items<Declarator<A>, A>, &'t [Token<'a>]), ParseFailure<'t, 'a>>
    requires { depth < 2 ^ 32 }
    ensures { Gives (λ x. (map declarator_of x.0, toks x.1.now)) result
        (before (token.Punctuator punct.Semicolon) (comma_list (declarator (whole_at depth))) (toks tokens.now)) }
{
    let each = EachDeclarator { alloc, depth };
    expect_close(
        comma_list(alloc, &each, tokens),
        Fixed::Punctuator(Punctuator::Semicolon),
    )
}

/// `type declarators`, whose parts have at most this depth.
fn declaration_over<'t, 'a, A: Allocator + Copy>(
    alloc: A,
    tokens: &'t [Token<'a>],
    depth: usize,
) -> Result<(Declaration<A>, &'t [Token<'a>]), ParseFailure<'t, 'a>>
    requires { depth < 2 ^ 32 }
    ensures { Gives (λ x. (declaration_of x.0, toks x.1.now)) result (declaration (whole_at depth) (toks tokens.now)) }
{
    let (ty, rest) = scalar(tokens)?;
    let (declarators, rest) = declarators(alloc, rest, depth)?;
    Ok((Declaration { ty, declarators }, rest))
}

/// A declaration within a depth.
pub fn declaration<'t, 'a, A: Allocator + Copy>(
    alloc: A,
    tokens: &'t [Token<'a>],
    depth: usize,
) -> Result<(Declaration<A>, &'t [Token<'a>]), ParseFailure<'t, 'a>>
    requires { depth < 2 ^ 32 }
    ensures { Gives (λ x. (declaration_of x.0, toks x.1.now)) result (declaration_at depth (toks tokens.now)) }
{
    if depth == 0 {
        if starts_type(tokens) {
            return Err(ParseFailure::Deep(tokens));
        }
        return Err(ParseFailure::Wrong(tokens));
    }
    declaration_over(alloc, tokens, depth - 1)
}

/// `;`, `declaration` or `simple ;`: what the head of a `for` begins with.
pub fn start<'t, 'a, A: Allocator + Copy>(
    alloc: A,
    tokens: &'t [Token<'a>],
    depth: usize,
) -> Result<(Start<A>, &'t [Token<'a>]), ParseFailure<'t, 'a>>
    requires { depth < 2 ^ 32 }
    ensures { Gives (λ x. (start_of x.0, toks x.1.now)) result (start depth (toks tokens.now)) }
{
    if let Some(rest) = eat(tokens, Fixed::Punctuator(Punctuator::Semicolon)) {
        return Ok((Start::Nothing, rest));
    }
    if starts_type(tokens) {
        let (declaration, rest) = declaration(alloc, tokens, depth)?;
        return Ok((Start::Declare(declaration), rest));
    }
    let (simple, rest) = simple_before(
        alloc,
        tokens,
        depth,
        Fixed::Punctuator(Punctuator::Semicolon),
    )?;
    Ok((Start::Do(simple), rest))
}

/// `[simple] )`
pub fn last_simple<'t, 'a, A: Allocator + Copy>(
    alloc: A,
    tokens: &'t [Token<'a>],
    depth: usize,
) -> Result<(Option<Simple<A>>, &'t [Token<'a>]), ParseFailure<'t, 'a>>
    requires { depth < 2 ^ 32 }
    ensures { Gives (λ x. (option_map simple_of x.0, toks x.1.now)) result
        (before (token.Punctuator punct.CloseParen) (unless (token.Punctuator punct.CloseParen) (simple_at depth))
        (toks tokens.now)) }
{
    if let Some(rest) = eat(tokens, Fixed::Punctuator(Punctuator::CloseParen)) {
        return Ok((None, rest));
    }
    let (simple, rest) = simple_before(
        alloc,
        tokens,
        depth,
        Fixed::Punctuator(Punctuator::CloseParen),
    )?;
    Ok((Some(simple), rest))
}

/// `[expr] ;`
pub fn last_expression<'t, 'a, A: Allocator + Copy>(
    alloc: A,
    tokens: &'t [Token<'a>],
    depth: usize,
) -> Result<(Option<Expr<A>>, &'t [Token<'a>]), ParseFailure<'t, 'a>>
    requires { depth < 2 ^ 32 }
    ensures { Gives (λ x. (option_map expr_of x.0, toks x.1.now)) result
        (before (token.Punctuator punct.Semicolon) (unless (token.Punctuator punct.Semicolon) (whole_at depth))
        (toks tokens.now)) }
{
    if let Some(rest) = eat(tokens, Fixed::Punctuator(Punctuator::Semicolon)) {
        return Ok((None, rest));
    }
    let (value, rest) = expression(alloc, tokens, depth)?;
    expect_close(
        Ok((Some(value), rest)),
        Fixed::Punctuator(Punctuator::Semicolon),
    )
}
