//! The first token of a list.

ghost use Rattle.std.specs.Prelude.{◌≡◌, length, IfOk};
ghost use Rattle.lex.specs.Tokens.{terminal, toks};
ghost use Rattle.syntax.specs.Phrases.{is_fixed};
ghost use Rattle.syntax.specs.Views.{name_of};
ghost use Rattle.syntax.specs.Grammar.{the_name};
ghost use Rattle.parse.specs.inner.Reading.{Gives, GivesBefore, GivesBehind, expect, expect_span, take, is_next, head};

use crate::fault::ParseFailure;
use containers::Text;
use lex::token::{Fixed, Kind, Span, Token};
use std::alloc::Allocator;
use syntax::tree::Name;

/// All tokens, and how many they are: for the prover, which then knows the bound of a loop by a clause.
pub fn count_tokens<'t, 'a>(tokens: &'t [Token<'a>]) -> (&'t [Token<'a>], usize)
    ensures all { result.0.now ≡ tokens.now }
    ensures count { result.1 ≡ length tokens.now }
{
    (tokens, tokens.len())
}

/// Whether a token of this kind is this keyword or punctuator.
fn is(kind: Kind, fixed: Fixed) -> bool
    ensures { result ≡ is_fixed fixed (terminal kind.entry) }
{
    match (kind, fixed) {
        (Kind::Keyword(found), Fixed::Keyword(wanted)) => found == wanted,
        (Kind::Punctuator(found), Fixed::Punctuator(wanted)) => found == wanted,
        _ => false,
    }
}

/// A keyword or punctuator at the front.
pub fn expect<'t, 'a>(
    tokens: &'t [Token<'a>],
    fixed: Fixed,
) -> Result<&'t [Token<'a>], ParseFailure<'t, 'a>>
    ensures { Gives (λ x. (tt, toks x.now)) result (expect fixed (toks tokens.now)) }
{
    match tokens {
        [first, rest @ ..] => match first.kind {
            kind if is(kind, fixed) => Ok(rest),
            _ => Err(ParseFailure::Wrong(tokens)),
        },
        [] => Err(ParseFailure::Wrong(tokens)),
    }
}

/// What stands behind this keyword or punctuator, if that is next.
pub fn eat<'t, 'a>(tokens: &'t [Token<'a>], fixed: Fixed) -> Option<&'t [Token<'a>]>
    ensures { GivesBehind fixed (toks tokens.now) result }
{
    match tokens {
        [first, rest @ ..] => match first.kind {
            kind if is(kind, fixed) => Some(rest),
            _ => None,
        },
        [] => None,
    }
}

/// What was read, where this keyword or punctuator stands behind it. It takes what a call returned: a caller with a `?`
/// before it and one behind it is dearer to prove. What was read is dropped here where the token is missing: written
/// out at each caller, the drop of a tree is dear too.
pub fn expect_close<'t, 'a, T: Drop>(
    read: Result<(T, &'t [Token<'a>]), ParseFailure<'t, 'a>>,
    fixed: Fixed,
) -> Result<(T, &'t [Token<'a>]), ParseFailure<'t, 'a>>
    ensures { GivesBefore fixed read.entry result }
{
    match read {
        Ok((one, rest)) => match expect(rest, fixed) {
            Ok(after) => Ok((one, after)),
            Err(failure) => Err(failure),
        },
        Err(failure) => Err(failure),
    }
}

/// What was read, and where this keyword or punctuator stands behind it; as `expect_close`, it is dropped here where
/// none does.
pub fn closed_at<'t, 'a, T: Drop>(
    read: T,
    tokens: &'t [Token<'a>],
    fixed: Fixed,
) -> Result<((T, Span), &'t [Token<'a>]), ParseFailure<'t, 'a>>
    ensures value { IfOk result (λ x. x.0.0 ≡ read) }
    ensures rest { Gives (λ x. (x.0.1, toks x.1.now)) result (expect_span fixed (toks tokens.now)) }
{
    match expect_span(tokens, fixed) {
        Ok((span, rest)) => Ok(((read, span), rest)),
        Err(failure) => Err(failure),
    }
}

/// A keyword or punctuator at the front, and where it stands.
pub fn expect_span<'t, 'a>(
    tokens: &'t [Token<'a>],
    fixed: Fixed,
) -> Result<(Span, &'t [Token<'a>]), ParseFailure<'t, 'a>>
    ensures { Gives (λ x. (x.0, toks x.1.now)) result (expect_span fixed (toks tokens.now)) }
{
    match tokens {
        [first, rest @ ..] => match first.kind {
            kind if is(kind, fixed) => Ok((first.span, rest)),
            _ => Err(ParseFailure::Wrong(tokens)),
        },
        [] => Err(ParseFailure::Wrong(tokens)),
    }
}

/// Whether the first token is this one.
pub fn is_next(tokens: &[Token], fixed: Fixed) -> bool
    ensures { result ≡ is_next fixed (head (toks tokens.now)) }
{
    match tokens {
        [first, ..] => is(first.kind, fixed),
        [] => false,
    }
}

/// A name at the front.
pub fn name<'t, 'a, A: Allocator + Copy>(
    alloc: A,
    tokens: &'t [Token<'a>],
) -> Result<(Name<A>, &'t [Token<'a>]), ParseFailure<'t, 'a>>
    ensures { Gives (λ x. (name_of x.0, toks x.1.now)) result (take the_name (toks tokens.now)) }
{
    match tokens {
        [first, rest @ ..] => match first.kind {
            Kind::Name(text) => Ok((
                Name {
                    text: Text::from_str(alloc, text)?,
                    span: first.span,
                },
                rest,
            )),
            _ => Err(ParseFailure::Wrong(tokens)),
        },
        [] => Err(ParseFailure::Wrong(tokens)),
    }
}
