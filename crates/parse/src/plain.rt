//! Statements that hold no other statement (C11 6.8.3, 6.8.6).

ghost use Rattle.std.specs.Prelude.{◌≡◌, ◌^◌, ◌<◌, map};
ghost use Rattle.lex.specs.declared.token.Fixed.TheVariants as token;
ghost use Rattle.lex.specs.declared.token.Keyword.TheVariants as key;
ghost use Rattle.lex.specs.declared.token.Punctuator.TheVariants as punct;
ghost use Rattle.lex.specs.Tokens.{toks};
ghost use Rattle.syntax.specs.Tree.{Empty, Do, Break, Continue};
ghost use Rattle.syntax.specs.Views.{expr_of, stmt_of};
ghost use Rattle.syntax.specs.Grammar.{the_text};
ghost use Rattle.parse.specs.inner.Reading.{Gives, take, map_parser, before, expect, expect_span};
ghost use Rattle.parse.specs.inner.Statements.{simple_at, print_arguments, print_stmt, cancel_stmt, return_stmt};

use crate::cursor::{expect, expect_close, expect_span};
use crate::expr::further;
use crate::fault::ParseFailure;
use crate::outer::has_outer_attribute;
use crate::simple::{last_expression, simple_before};
use containers::{Items, Text};
use lex::token::{Fixed, Keyword, Kind, Punctuator, Span, Token};
use lex::unescape;
use std::alloc::Allocator;
use syntax::tree::{Expr, Stmt};

/// `;`
pub fn empty_stmt<'t, 'a, A: Allocator + Copy>(
    tokens: &'t [Token<'a>],
) -> Result<(Stmt<A>, &'t [Token<'a>]), ParseFailure<'t, 'a>>
    ensures { Gives (λ x. (stmt_of x.0, toks x.1.now)) result
        (map_parser (λ _. Empty) (expect (token.Punctuator punct.Semicolon)) (toks tokens.now)) }
{
    let rest = expect(tokens, Fixed::Punctuator(Punctuator::Semicolon))?;
    Ok((Stmt::Empty, rest))
}

/// `simple ;`
pub fn simple_stmt<'t, 'a, A: Allocator + Copy>(
    alloc: A,
    tokens: &'t [Token<'a>],
    depth: usize,
) -> Result<(Stmt<A>, &'t [Token<'a>]), ParseFailure<'t, 'a>>
    requires { depth < 2 ^ 32 }
    ensures { Gives (λ x. (stmt_of x.0, toks x.1.now)) result
        (map_parser Do (before (token.Punctuator punct.Semicolon) (simple_at depth)) (toks tokens.now)) }
{
    let (simple, rest) = simple_before(
        alloc,
        tokens,
        depth,
        Fixed::Punctuator(Punctuator::Semicolon),
    )?;
    Ok((Stmt::Do(simple), rest))
}

/// A string: what it stands for, and its span.
fn text<'t, 'a, A: Allocator + Copy>(
    alloc: A,
    tokens: &'t [Token<'a>],
) -> Result<((Text<A>, Span), &'t [Token<'a>]), ParseFailure<'t, 'a>>
    ensures { Gives (λ x. (x.0, toks x.1.now)) result (take the_text (toks tokens.now)) }
{
    let [first, rest @ ..] = tokens else {
        return Err(ParseFailure::Wrong(tokens));
    };
    let Kind::StringLiteral(written) = first.kind else {
        return Err(ParseFailure::Wrong(tokens));
    };
    let text = unescape(alloc, written)?;
    Ok(((Text::from_string(text), first.span), rest))
}

/// `{ , expr } ) ;`, behind the format of a `printf`.
fn print_tail<'t, 'a, A: Allocator + Copy>(
    alloc: A,
    tokens: &'t [Token<'a>],
    depth: usize,
) -> Result<(Items<Expr<A>, A>, &'t [Token<'a>]), ParseFailure<'t, 'a>>
    requires { depth < 2 ^ 32 }
    ensures { Gives (λ x. (map expr_of x.0, toks x.1.now)) result (print_arguments depth (toks tokens.now)) }
{
    expect_close(
        expect_close(
            further(alloc, tokens, depth),
            Fixed::Punctuator(Punctuator::CloseParen),
        ),
        Fixed::Punctuator(Punctuator::Semicolon),
    )
}

/// `printf ( string { , expr } ) ;`
pub fn print_stmt<'t, 'a, A: Allocator + Copy>(
    alloc: A,
    tokens: &'t [Token<'a>],
    depth: usize,
) -> Result<(Stmt<A>, &'t [Token<'a>]), ParseFailure<'t, 'a>>
    requires { depth < 2 ^ 32 }
    ensures { Gives (λ x. (stmt_of x.0, toks x.1.now)) result (print_stmt depth (toks tokens.now)) }
{
    let (span, rest) = expect_span(tokens, Fixed::Keyword(Keyword::Printf))?;
    let rest = expect(rest, Fixed::Punctuator(Punctuator::OpenParen))?;
    let ((format, format_span), rest) = text(alloc, rest)?;
    let (arguments, rest) = print_tail(alloc, rest, depth)?;
    Ok((Stmt::Print(span, format, format_span, arguments), rest))
}

/// `keyword ;`, and where the keyword stands.
fn alone<'t, 'a>(
    tokens: &'t [Token<'a>],
    fixed: Fixed,
) -> Result<(Span, &'t [Token<'a>]), ParseFailure<'t, 'a>>
    ensures { Gives (λ x. (x.0, toks x.1.now)) result
        (before (token.Punctuator punct.Semicolon) (expect_span fixed) (toks tokens.now)) }
{
    expect_close(
        expect_span(tokens, fixed),
        Fixed::Punctuator(Punctuator::Semicolon),
    )
}

/// `break ;`
pub fn break_stmt<'t, 'a, A: Allocator + Copy>(
    tokens: &'t [Token<'a>],
) -> Result<(Stmt<A>, &'t [Token<'a>]), ParseFailure<'t, 'a>>
    ensures { Gives (λ x. (stmt_of x.0, toks x.1.now)) result
        (map_parser Break (before (token.Punctuator punct.Semicolon) (expect_span (token.Keyword key.Break)))
        (toks tokens.now)) }
{
    let (span, rest) = alone(tokens, Fixed::Keyword(Keyword::Break))?;
    Ok((Stmt::Break(span), rest))
}

/// `continue ;`
pub fn continue_stmt<'t, 'a, A: Allocator + Copy>(
    tokens: &'t [Token<'a>],
) -> Result<(Stmt<A>, &'t [Token<'a>]), ParseFailure<'t, 'a>>
    ensures { Gives (λ x. (stmt_of x.0, toks x.1.now)) result
        (map_parser Continue (before (token.Punctuator punct.Semicolon) (expect_span (token.Keyword key.Continue)))
        (toks tokens.now)) }
{
    let (span, rest) = alone(tokens, Fixed::Keyword(Keyword::Continue))?;
    Ok((Stmt::Continue(span), rest))
}

/// `__transaction_cancel [outer] ;`
pub fn cancel_stmt<'t, 'a, A: Allocator + Copy>(
    tokens: &'t [Token<'a>],
) -> Result<(Stmt<A>, &'t [Token<'a>]), ParseFailure<'t, 'a>>
    ensures { Gives (λ x. (stmt_of x.0, toks x.1.now)) result (cancel_stmt (toks tokens.now)) }
{
    let (span, rest) = expect_span(tokens, Fixed::Keyword(Keyword::Cancel))?;
    let (outer, rest) = has_outer_attribute(rest)?;
    let rest = expect(rest, Fixed::Punctuator(Punctuator::Semicolon))?;
    if outer {
        Ok((Stmt::CancelOuter(span), rest))
    } else {
        Ok((Stmt::Cancel(span), rest))
    }
}

/// `return [expr] ;`
pub fn return_stmt<'t, 'a, A: Allocator + Copy>(
    alloc: A,
    tokens: &'t [Token<'a>],
    depth: usize,
) -> Result<(Stmt<A>, &'t [Token<'a>]), ParseFailure<'t, 'a>>
    requires { depth < 2 ^ 32 }
    ensures { Gives (λ x. (stmt_of x.0, toks x.1.now)) result (return_stmt depth (toks tokens.now)) }
{
    let (span, rest) = expect_span(tokens, Fixed::Keyword(Keyword::Return))?;
    let (value, rest) = last_expression(alloc, rest, depth)?;
    Ok((Stmt::Return(value, span), rest))
}
