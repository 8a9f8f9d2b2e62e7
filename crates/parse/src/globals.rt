//! Declarations of globals (C11 6.7, 6.9.2).

ghost use Rattle.std.specs.Prelude.{◌≡◌, map};
ghost use Rattle.lex.specs.Tokens.{toks};
ghost use Rattle.lex.specs.declared.token.Fixed.TheVariants as token;
ghost use Rattle.lex.specs.declared.token.Keyword.TheVariants as key;
ghost use Rattle.lex.specs.declared.token.Punctuator.TheVariants as punct;
ghost use Rattle.syntax.specs.Tree as Tree;
ghost use Rattle.syntax.specs.Views.{name_of, global_of, item_of};
ghost use Rattle.syntax.specs.Grammar.{the_length};
ghost use Rattle.parse.specs.inner.Reading.{Gives, take, before, behind};
ghost use Rattle.parse.specs.inner.Items.{value_with_span, initialiser, first_value, first_values, global_tail};
ghost use Rattle.parse.specs.inner.Items.{global};
ghost use Rattle.parse.specs.inner.Items.{value_list, several, globals_from};

use crate::cursor::{eat, expect, expect_close, expect_span, is_next, name};
use crate::fault::ParseFailure;
use crate::list::{Element, further, one};
use containers::Items;
use lex::token::{Fixed, Kind, Punctuator, Scalar, Span, Token};
use std::alloc::Allocator;
use syntax::tree::{Global, Initialiser, Item, Name};

/// A constant's value and type, where it stands, and the tokens after it.
type Placed<'t, 'a> = (((u64, Scalar), Span), &'t [Token<'a>]);

/// First values, and the tokens after them.
type Firsts<'t, 'a, A> = (Items<Initialiser, A>, &'t [Token<'a>]);

/// An array's length or none, first values, and the tokens after them.
type Sized<'t, 'a, A> = (
    (Option<(u64, Span)>, Items<Initialiser, A>),
    &'t [Token<'a>],
);

/// A constant, with its type and its span.
fn constant<'t, 'a>(tokens: &'t [Token<'a>]) -> Result<Placed<'t, 'a>, ParseFailure<'t, 'a>>
    ensures { Gives (λ x. (x.0, toks x.1.now)) result (take value_with_span (toks tokens.now)) }
{
    match tokens {
        [first, rest @ ..] => match first.kind {
            Kind::Constant(n, ty) => Ok((((n, ty), first.span), rest)),
            _ => Err(ParseFailure::Wrong(tokens)),
        },
        [] => Err(ParseFailure::Wrong(tokens)),
    }
}

/// An array's length, and where it stands.
fn length<'t, 'a>(
    tokens: &'t [Token<'a>],
) -> Result<((u64, Span), &'t [Token<'a>]), ParseFailure<'t, 'a>>
    ensures { Gives (λ x. (x.0, toks x.1.now)) result (take the_length (toks tokens.now)) }
{
    match tokens {
        [first, rest @ ..] => match first.kind {
            Kind::Constant(n, _) => Ok(((n, first.span), rest)),
            _ => Err(ParseFailure::Wrong(tokens)),
        },
        [] => Err(ParseFailure::Wrong(tokens)),
    }
}

/// `[ length ]`
fn array_length<'t, 'a>(
    tokens: &'t [Token<'a>],
) -> Result<((u64, Span), &'t [Token<'a>]), ParseFailure<'t, 'a>>
    ensures { Gives (λ x. (x.0, toks x.1.now)) result
        (behind (token.Punctuator punct.OpenBracket) (before (token.Punctuator punct.CloseBracket) (take the_length))
        (toks tokens.now)) }
{
    let rest = expect(tokens, Fixed::Punctuator(Punctuator::OpenBracket))?;
    expect_close(length(rest), Fixed::Punctuator(Punctuator::CloseBracket))
}

/// `[-] constant`
fn initialiser<'t, 'a>(
    tokens: &'t [Token<'a>],
) -> Result<(Initialiser, &'t [Token<'a>]), ParseFailure<'t, 'a>>
    ensures { Gives (λ x. (x.0, toks x.1.now)) result (initialiser (toks tokens.now)) }
{
    if !is_next(tokens, Fixed::Punctuator(Punctuator::Minus)) {
        let (((value, ty), span), rest) = constant(tokens)?;
        let first = Initialiser {
            negative: false,
            value,
            ty,
            span,
        };
        return Ok((first, rest));
    }
    let (minus, rest) = expect_span(tokens, Fixed::Punctuator(Punctuator::Minus))?;
    let (((value, ty), span), rest) = constant(rest)?;
    let first = Initialiser {
        negative: true,
        value,
        ty,
        span: Span {
            start: minus.start,
            end: span.end,
        },
    };
    Ok((first, rest))
}

/// `[= initialiser]`
fn first_value<'t, 'a, A: Allocator + Copy>(
    alloc: A,
    tokens: &'t [Token<'a>],
) -> Result<Firsts<'t, 'a, A>, ParseFailure<'t, 'a>>
    ensures { Gives (λ x. (x.0, toks x.1.now)) result (first_value (toks tokens.now)) }
{
    let Some(rest) = eat(tokens, Fixed::Punctuator(Punctuator::Assign)) else {
        return Ok((Items::new(alloc), tokens));
    };
    let (value, rest) = initialiser(rest)?;
    Ok((one(alloc, value)?, rest))
}

/// `initialiser { , initialiser } [,]`
fn value_list<'t, 'a, A: Allocator + Copy>(
    alloc: A,
    tokens: &'t [Token<'a>],
) -> Result<Firsts<'t, 'a, A>, ParseFailure<'t, 'a>>
    ensures { Gives (λ x. (x.0, toks x.1.now)) result (value_list (toks tokens.now)) }
{
    let (first, inner) = initialiser(tokens)?;
    let mut all = Items::new(alloc);
    all.push(first)?;
    let mut rest = inner;
    'turns: for _turn in 0..inner.len() {
        let Some(next) = eat(rest, Fixed::Punctuator(Punctuator::Comma)) else {
            return Ok((all, rest));
        };
        if is_next(next, Fixed::Punctuator(Punctuator::CloseBrace)) {
            return Ok((all, next));
        }
        let (one, after) = initialiser(next)?;
        all.push(one)?;
        rest = after;
    }
    if is_next(rest, Fixed::Punctuator(Punctuator::Comma)) {
        return Err(ParseFailure::Wrong(rest));
    }
    Ok((all, rest))
}

/// `[= { value_list }]`
fn first_values<'t, 'a, A: Allocator + Copy>(
    alloc: A,
    tokens: &'t [Token<'a>],
) -> Result<Firsts<'t, 'a, A>, ParseFailure<'t, 'a>>
    ensures { Gives (λ x. (x.0, toks x.1.now)) result (first_values (toks tokens.now)) }
{
    let Some(rest) = eat(tokens, Fixed::Punctuator(Punctuator::Assign)) else {
        return Ok((Items::new(alloc), tokens));
    };
    let rest = expect(rest, Fixed::Punctuator(Punctuator::OpenBrace))?;
    expect_close(
        value_list(alloc, rest),
        Fixed::Punctuator(Punctuator::CloseBrace),
    )
}

/// `[= initialiser]` or `[ length ] [= { value_list }]`, behind a global's name.
fn global_tail<'t, 'a, A: Allocator + Copy>(
    alloc: A,
    tokens: &'t [Token<'a>],
) -> Result<Sized<'t, 'a, A>, ParseFailure<'t, 'a>>
    ensures { Gives (λ x. ((x.0.0, x.0.1), toks x.1.now)) result (global_tail (toks tokens.now)) }
{
    if !is_next(tokens, Fixed::Punctuator(Punctuator::OpenBracket)) {
        let (first, rest) = first_value(alloc, tokens)?;
        return Ok(((None, first), rest));
    }
    let (length, rest) = array_length(tokens)?;
    let (first, rest) = first_values(alloc, rest)?;
    Ok(((Some(length), first), rest))
}

/// How the globals of one declaration are read.
#[derive(Drop)]
struct EachGlobal<A: Allocator> {
    alloc: A,
    ty: Scalar,
}

impl<A: Allocator + Copy> Element<Global<A>> for EachGlobal<A> {
    ghost Plain = { Tree.Global };

    ghost plain = { global_of };

    ghost can = { λ each. Unit {0} };

    ghost reads = { λ each. global each.ty };

    fn read<'t, 'a>(
        &self,
        tokens: &'t [Token<'a>],
    ) -> Result<(Global<A>, &'t [Token<'a>]), ParseFailure<'t, 'a>> {
        let (name, rest) = name(self.alloc, tokens)?;
        let ((length, first), rest) = global_tail(self.alloc, rest)?;
        let ty = self.ty;
        Ok((
            Global {
                ty,
                name,
                length,
                first,
            },
            rest,
        ))
    }
}

/// The globals of one declaration, behind the first one's name.
fn several<'t, 'a, A: Allocator + Copy>(
    alloc: A,
    tokens: &'t [Token<'a>],
    ty: Scalar,
    name: Name<A>,
) -> Result<(Items<Global<A>, A>, &'t [Token<'a>]), ParseFailure<'t, 'a>>
    ensures { Gives (λ x. (map global_of x.0, toks x.1.now)) result (several ty (name_of name) (toks tokens.now)) }
{
    let ((length, first), rest) = global_tail(alloc, tokens)?;
    let first = Global {
        ty,
        name,
        length,
        first,
    };
    let all = one(alloc, first)?;
    further(&EachGlobal { alloc, ty }, all, rest)
}

/// `sized { , name sized } ;`, behind the first global's type and name.
pub fn globals<'t, 'a, A: Allocator + Copy>(
    alloc: A,
    tokens: &'t [Token<'a>],
    ty: Scalar,
    name: Name<A>,
) -> Result<(Item<A>, &'t [Token<'a>]), ParseFailure<'t, 'a>>
    ensures { Gives (λ x. (item_of x.0, toks x.1.now)) result (globals_from ty (name_of name) (toks tokens.now)) }
{
    let (all, rest) = expect_close(
        several(alloc, tokens, ty, name),
        Fixed::Punctuator(Punctuator::Semicolon),
    )?;
    Ok((Item::Globals(all), rest))
}
