//! Punctuators, the longest first (C11 6.4.6).

ghost use Rattle.std.specs.Prelude.{◌≡◌, ◌<◌, ◌^◌, drop, length};
ghost use Rattle.lex.specs.inner.Punctuators as spec;
ghost use Rattle.lex.specs.inner.Punctuators.{NoOtherPiece};
ghost use Rattle.lex.specs.inner.Answers.{AnswersPiece};

use crate::bytes::character_len;
use crate::fault::LexFault;
use crate::token::{Fixed, Kind, Punctuator, Span, kind_of};

/// The punctuator of three bytes at the front.
fn three(rest: &[u8]) -> Option<Fixed>
    ensures { result ≡ spec.three rest.now }
{
    match rest {
        [b'<', b'<', b'=', ..] => Some(Fixed::Punctuator(Punctuator::ShiftLeftAssign)),
        [b'>', b'>', b'=', ..] => Some(Fixed::Punctuator(Punctuator::ShiftRightAssign)),
        _ => None,
    }
}

/// The punctuator of two bytes at the front.
fn two(rest: &[u8]) -> Option<Fixed>
    ensures { result ≡ spec.two rest.now }
{
    match rest {
        [b'+', b'=', ..] => Some(Fixed::Punctuator(Punctuator::AddAssign)),
        [b'-', b'=', ..] => Some(Fixed::Punctuator(Punctuator::SubtractAssign)),
        [b'*', b'=', ..] => Some(Fixed::Punctuator(Punctuator::MultiplyAssign)),
        [b'/', b'=', ..] => Some(Fixed::Punctuator(Punctuator::DivideAssign)),
        [b'%', b'=', ..] => Some(Fixed::Punctuator(Punctuator::RemainderAssign)),
        [b'&', b'=', ..] => Some(Fixed::Punctuator(Punctuator::AndAssign)),
        [b'|', b'=', ..] => Some(Fixed::Punctuator(Punctuator::OrAssign)),
        [b'^', b'=', ..] => Some(Fixed::Punctuator(Punctuator::XorAssign)),
        [b'+', b'+', ..] => Some(Fixed::Punctuator(Punctuator::Increment)),
        [b'-', b'-', ..] => Some(Fixed::Punctuator(Punctuator::Decrement)),
        [b'|', b'|', ..] => Some(Fixed::Punctuator(Punctuator::LogicalOr)),
        [b'&', b'&', ..] => Some(Fixed::Punctuator(Punctuator::LogicalAnd)),
        [b'=', b'=', ..] => Some(Fixed::Punctuator(Punctuator::Equal)),
        [b'!', b'=', ..] => Some(Fixed::Punctuator(Punctuator::NotEqual)),
        [b'<', b'=', ..] => Some(Fixed::Punctuator(Punctuator::LessEqual)),
        [b'>', b'=', ..] => Some(Fixed::Punctuator(Punctuator::GreaterEqual)),
        [b'<', b'<', ..] => Some(Fixed::Punctuator(Punctuator::ShiftLeft)),
        [b'>', b'>', ..] => Some(Fixed::Punctuator(Punctuator::ShiftRight)),
        _ => None,
    }
}

/// The punctuator of one byte at the front.
fn one(rest: &[u8]) -> Option<Fixed>
    ensures { result ≡ spec.one rest.now }
{
    match rest {
        [b'{', ..] => Some(Fixed::Punctuator(Punctuator::OpenBrace)),
        [b'}', ..] => Some(Fixed::Punctuator(Punctuator::CloseBrace)),
        [b'(', ..] => Some(Fixed::Punctuator(Punctuator::OpenParen)),
        [b')', ..] => Some(Fixed::Punctuator(Punctuator::CloseParen)),
        [b'[', ..] => Some(Fixed::Punctuator(Punctuator::OpenBracket)),
        [b']', ..] => Some(Fixed::Punctuator(Punctuator::CloseBracket)),
        [b';', ..] => Some(Fixed::Punctuator(Punctuator::Semicolon)),
        [b',', ..] => Some(Fixed::Punctuator(Punctuator::Comma)),
        [b'?', ..] => Some(Fixed::Punctuator(Punctuator::Question)),
        [b':', ..] => Some(Fixed::Punctuator(Punctuator::Colon)),
        [b'=', ..] => Some(Fixed::Punctuator(Punctuator::Assign)),
        [b'|', ..] => Some(Fixed::Punctuator(Punctuator::Or)),
        [b'^', ..] => Some(Fixed::Punctuator(Punctuator::Xor)),
        [b'&', ..] => Some(Fixed::Punctuator(Punctuator::And)),
        [b'<', ..] => Some(Fixed::Punctuator(Punctuator::Less)),
        [b'>', ..] => Some(Fixed::Punctuator(Punctuator::Greater)),
        [b'+', ..] => Some(Fixed::Punctuator(Punctuator::Plus)),
        [b'-', ..] => Some(Fixed::Punctuator(Punctuator::Minus)),
        [b'*', ..] => Some(Fixed::Punctuator(Punctuator::Star)),
        [b'/', ..] => Some(Fixed::Punctuator(Punctuator::Slash)),
        [b'%', ..] => Some(Fixed::Punctuator(Punctuator::Percent)),
        [b'!', ..] => Some(Fixed::Punctuator(Punctuator::Not)),
        [b'~', ..] => Some(Fixed::Punctuator(Punctuator::Complement)),
        _ => None,
    }
}

/// The longest punctuator at the front, and its length.
fn punctuator_at(rest: &[u8]) -> Option<(Fixed, usize)>
    ensures { result ≡ spec.punctuator_at rest.now }
{
    if let Some(punctuator) = three(rest) {
        return Some((punctuator, 3));
    }
    if let Some(punctuator) = two(rest) {
        return Some((punctuator, 2));
    }
    match one(rest) {
        Some(punctuator) => Some((punctuator, 1)),
        None => None,
    }
}

/// The punctuator at the offset, if no other piece begins there.
pub(crate) fn punctuator<'a>(
    text: &'a str,
    at: usize,
) -> Result<(Option<Kind<'a>>, usize), LexFault>
    requires within { at < length text.now }
    requires fits { length text.now < 2 ^ 62 }
    requires other { NoOtherPiece (drop at text.now) }
    ensures { AnswersPiece text.now at result }
{
    let (_, rest) = text.as_bytes().split_at(at);
    match punctuator_at(rest) {
        Some((punctuator, len)) => Ok((Some(kind_of(punctuator)), len)),
        None => Err(LexFault::BadCharacter(Span {
            start: at,
            end: at + character_len(rest),
        })),
    }
}
