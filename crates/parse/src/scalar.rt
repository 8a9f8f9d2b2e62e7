//! Types (C11 6.7.2).

ghost use Rattle.std.specs.Prelude.{◌≡◌};
ghost use Rattle.lex.specs.Tokens.{toks};
ghost use Rattle.parse.specs.inner.Reading.{Gives, take, head};
ghost use Rattle.parse.specs.inner.Expressions.{the_type_word, starts_type, longer, long_long, type_from, scalar};

use crate::cursor::{eat, expect};
use crate::fault::ParseFailure;
use lex::token::{Fixed, Keyword, Kind, Scalar, Token};

/// Whether a type begins here.
pub fn starts_type(tokens: &[Token]) -> bool
    ensures { result ≡ starts_type (head (toks tokens.now)) }
{
    match tokens {
        [first, ..] => match first.kind {
            Kind::Keyword(Keyword::Int | Keyword::Signed | Keyword::Unsigned | Keyword::Long) =>
                true,
            _ => false,
        },
        [] => false,
    }
}

/// A word that a type begins with.
#[derive(Clone, Copy)]
pub enum TypeWord {
    Int,
    Signed,
    Unsigned,
    Long,
}

/// The word that a type begins with.
fn type_word<'t, 'a>(
    tokens: &'t [Token<'a>],
) -> Result<(TypeWord, &'t [Token<'a>]), ParseFailure<'t, 'a>>
    ensures { Gives (λ x. (x.0, toks x.1.now)) result (take the_type_word (toks tokens.now)) }
{
    match tokens {
        [first, rest @ ..] => match first.kind {
            Kind::Keyword(Keyword::Int) => Ok((TypeWord::Int, rest)),
            Kind::Keyword(Keyword::Signed) => Ok((TypeWord::Signed, rest)),
            Kind::Keyword(Keyword::Unsigned) => Ok((TypeWord::Unsigned, rest)),
            Kind::Keyword(Keyword::Long) => Ok((TypeWord::Long, rest)),
            _ => Err(ParseFailure::Wrong(tokens)),
        },
        [] => Err(ParseFailure::Wrong(tokens)),
    }
}

/// A type, behind which `int` may stand.
fn longer<'t, 'a>(
    ty: Scalar,
    tokens: &'t [Token<'a>],
) -> Result<(Scalar, &'t [Token<'a>]), ParseFailure<'t, 'a>>
    ensures { Gives (λ x. (x.0, toks x.1.now)) result (longer ty (toks tokens.now)) }
{
    match eat(tokens, Fixed::Keyword(Keyword::Int)) {
        Some(rest) => Ok((ty, rest)),
        None => Ok((ty, tokens)),
    }
}

/// The second word of `long long`, and what stands behind it.
fn long_long<'t, 'a>(
    tokens: &'t [Token<'a>],
) -> Result<(Scalar, &'t [Token<'a>]), ParseFailure<'t, 'a>>
    ensures { Gives (λ x. (x.0, toks x.1.now)) result (long_long (toks tokens.now)) }
{
    let rest = expect(tokens, Fixed::Keyword(Keyword::Long))?;
    longer(Scalar::LongLong, rest)
}

/// What stands behind a type's first word.
fn type_from<'t, 'a>(
    word: TypeWord,
    tokens: &'t [Token<'a>],
) -> Result<(Scalar, &'t [Token<'a>]), ParseFailure<'t, 'a>>
    ensures { Gives (λ x. (x.0, toks x.1.now)) result (type_from word (toks tokens.now)) }
{
    match word {
        TypeWord::Int => Ok((Scalar::Int, tokens)),
        TypeWord::Signed => match eat(tokens, Fixed::Keyword(Keyword::Long)) {
            Some(rest) => long_long(rest),
            None => longer(Scalar::Int, tokens),
        },
        TypeWord::Unsigned => longer(Scalar::Unsigned, tokens),
        TypeWord::Long => long_long(tokens),
    }
}

/// `int | signed [int] | unsigned [int] | [signed] long long [int]`
pub fn scalar<'t, 'a>(
    tokens: &'t [Token<'a>],
) -> Result<(Scalar, &'t [Token<'a>]), ParseFailure<'t, 'a>>
    ensures { Gives (λ x. (x.0, toks x.1.now)) result (scalar (toks tokens.now)) }
{
    let (word, rest) = type_word(tokens)?;
    type_from(word, rest)
}
