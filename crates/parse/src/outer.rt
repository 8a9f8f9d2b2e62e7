//! The attribute of an outer transaction, and of what cancels it (the C++ draft on transactions 1.1).

ghost use Rattle.std.specs.Prelude.{◌≡◌, bytes_eq, codes};
ghost use Rattle.lex.specs.Tokens.{toks};
ghost use Rattle.syntax.specs.Grammar.{the_outer};
ghost use Rattle.parse.specs.inner.Reading.{Gives, head, take};
ghost use Rattle.parse.specs.inner.Statements.{enclosed_outer, begins_outer_attribute, outer_attribute_if_any};
ghost use Rattle.parse.specs.inner.Statements.{outer_attribute};

use crate::cursor::{expect, is_next};
use crate::fault::ParseFailure;
use lex::token::{Fixed, Keyword, Kind, Punctuator, Token};

/// Whether a name is `outer`.
fn is_outer(text: &str) -> bool
    ensures { result ≡ bytes_eq text.now (codes "outer") }
{
    match text {
        "outer" => true,
        _ => false,
    }
}

/// `outer`
fn outer<'t, 'a>(tokens: &'t [Token<'a>]) -> Result<&'t [Token<'a>], ParseFailure<'t, 'a>>
    ensures { Gives (λ x. (tt, toks x.now)) result (take the_outer (toks tokens.now)) }
{
    let [first, rest @ ..] = tokens else {
        return Err(ParseFailure::Wrong(tokens));
    };
    let Kind::Name(text) = first.kind else {
        return Err(ParseFailure::Wrong(tokens));
    };
    if is_outer(text) {
        Ok(rest)
    } else {
        Err(ParseFailure::Wrong(tokens))
    }
}

/// `outer` between two opening tokens and two closing ones.
fn enclosed_outer<'t, 'a>(
    tokens: &'t [Token<'a>],
    opening: Fixed,
    closing: Fixed,
) -> Result<&'t [Token<'a>], ParseFailure<'t, 'a>>
    ensures { Gives (λ x. (tt, toks x.now)) result (enclosed_outer opening closing (toks tokens.now)) }
{
    let rest = expect(tokens, opening)?;
    let rest = expect(rest, opening)?;
    let rest = outer(rest)?;
    let rest = expect(rest, closing)?;
    expect(rest, closing)
}

/// `[[ outer ]]` or `__attribute__ (( outer ))`
fn outer_attribute<'t, 'a>(tokens: &'t [Token<'a>]) -> Result<&'t [Token<'a>], ParseFailure<'t, 'a>>
    ensures { Gives (λ x. (tt, toks x.now)) result (outer_attribute (toks tokens.now)) }
{
    if is_next(tokens, Fixed::Punctuator(Punctuator::OpenBracket)) {
        return enclosed_outer(
            tokens,
            Fixed::Punctuator(Punctuator::OpenBracket),
            Fixed::Punctuator(Punctuator::CloseBracket),
        );
    }
    let rest = expect(tokens, Fixed::Keyword(Keyword::Attribute))?;
    enclosed_outer(
        rest,
        Fixed::Punctuator(Punctuator::OpenParen),
        Fixed::Punctuator(Punctuator::CloseParen),
    )
}

/// Whether an attribute begins here.
fn begins_outer_attribute(tokens: &[Token]) -> bool
    ensures { result ≡ begins_outer_attribute (head (toks tokens.now)) }
{
    is_next(tokens, Fixed::Punctuator(Punctuator::OpenBracket))
        || is_next(tokens, Fixed::Keyword(Keyword::Attribute))
}

/// `[outer]`: whether it stands here.
pub fn has_outer_attribute<'t, 'a>(
    tokens: &'t [Token<'a>],
) -> Result<(bool, &'t [Token<'a>]), ParseFailure<'t, 'a>>
    ensures { Gives (λ x. (x.0, toks x.1.now)) result (outer_attribute_if_any (toks tokens.now)) }
{
    if !begins_outer_attribute(tokens) {
        return Ok((false, tokens));
    }
    let rest = outer_attribute(tokens)?;
    Ok((true, rest))
}
