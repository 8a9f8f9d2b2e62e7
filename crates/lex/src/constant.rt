//! Constants in three bases.

ghost use Rattle.std.specs.Prelude.{◌≡◌, ◌+◌, ◌<◌, ◌≤◌, ◌^◌, true, length, slice_index};
ghost use Rattle.std.specs.List.{prefix_len};
ghost use Rattle.std.specs.Char.{digit_value};
ghost use Rattle.lex.specs.Pieces as spec;
ghost use Rattle.lex.specs.Bytes as bytes;
ghost use Rattle.lex.specs.inner.Answers as answers;
ghost use Rattle.lex.specs.inner.Constants.{base_at, before_len, suffix_at, suffix_size, GivesNumber, GivesTyped};

use crate::bytes::{is_digit, is_glued, is_hexadecimal, is_octal};
use crate::fault::LexFault;
use crate::token::{Kind, Scalar, Span};

/// The base of a constant.
#[derive(Clone, Copy)]
pub(crate) enum Base {
    Decimal,
    /// A constant with `0` before its digits.
    Octal,
    /// A constant with `0x` or `0X` before its digits.
    Hexadecimal,
}

/// The base of the constant at the front.
fn base_at(rest: &[u8]) -> Base
    ensures { result ≡ base_at rest.now }
{
    match rest {
        [b'0', b'x' | b'X', digit, ..] if is_hexadecimal(*digit) => Base::Hexadecimal,
        [b'0', ..] => Base::Octal,
        _ => Base::Decimal,
    }
}

/// The length in bytes of a base's prefix.
fn before_len(base: Base) -> usize
    ensures { result ≡ before_len base }
{
    match base {
        Base::Decimal => 0,
        Base::Octal => 1,
        Base::Hexadecimal => 2,
    }
}

/// The radix of the base.
fn radix(base: Base) -> u64
    ensures { result ≡ spec.radix base }
{
    match base {
        Base::Decimal => 10,
        Base::Octal => 8,
        Base::Hexadecimal => 16,
    }
}

/// Whether a byte is a digit of the base.
fn is_digit_of(base: Base, b: u8) -> bool
    ensures { result ≡ spec.is_digit_of base b }
{
    match base {
        Base::Decimal => is_digit(b),
        Base::Octal => is_octal(b),
        Base::Hexadecimal => is_hexadecimal(b),
    }
}

/// How many digits of the base are at the front.
fn digits_len(base: Base, rest: &[u8]) -> usize
    ensures value { result ≡ prefix_len (spec.is_digit_of base) rest.now }
    ensures within { result ≤ length rest.now }
{
    rest.iter().take_while(|b| is_digit_of(base, **b)).count()
}

/// The meaning of a suffix.
#[derive(Clone, Copy)]
pub(crate) enum Suffix {
    Nothing,
    /// `u` or `U`
    Unsigned,
    /// `ll` or `LL`
    LongLong,
}

/// integer-suffix: `u`, `U`, `ll` or `LL`, or nothing.
fn suffix_at(rest: &[u8]) -> Suffix
    ensures { result ≡ suffix_at rest.now }
{
    match rest {
        [b'u' | b'U', ..] => Suffix::Unsigned,
        [b'l', b'l', ..] | [b'L', b'L', ..] => Suffix::LongLong,
        _ => Suffix::Nothing,
    }
}

/// The length of a suffix in bytes.
fn suffix_size(suffix: Suffix) -> usize
    ensures { result ≡ suffix_size suffix }
{
    match suffix {
        Suffix::Nothing => 0,
        Suffix::Unsigned => 1,
        Suffix::LongLong => 2,
    }
}

/// The value of a digit.
fn digit_value(b: u8) -> u64
    requires { bytes.is_hexadecimal b ≡ true }
    ensures value { result ≡ digit_value b }
    ensures small { result < 16 }
{
    if b <= b'9' {
        b as u64 - b'0' as u64
    } else if b <= b'F' {
        b as u64 - b'A' as u64 + 10
    } else {
        b as u64 - b'a' as u64 + 10
    }
}

/// The digits' number, if it is below 2^63.
fn number(base: Base, digits: &[u8]) -> Option<u64>
    requires { bytes.Only (spec.is_digit_of base) digits.now }
    ensures { GivesNumber result (spec.value_from (spec.radix base) 0 digits.now) }
{
    let mut n: u128 = 0;
    'digits: for digit in digits {
        n = n * u128::from(radix(base)) + u128::from(digit_value(*digit));
        if n >= 0x8000_0000_0000_0000 {
            return None;
        }
    }
    Some(n as u64)
}

/// Whether the base is ten.
fn is_decimal(base: Base) -> bool
    ensures { result ≡ spec.is_decimal base }
{
    match base {
        Base::Decimal => true,
        Base::Octal | Base::Hexadecimal => false,
    }
}

/// The type of a constant of this value (C11 6.4.4.1).
fn type_of(is_decimal: bool, suffix: Suffix, value: u64) -> Option<Scalar>
    ensures { result ≡ spec.type_of is_decimal suffix value }
{
    match suffix {
        Suffix::Nothing if value < 0x8000_0000 => Some(Scalar::Int),
        Suffix::Nothing if !is_decimal && value < 0x1_0000_0000 => Some(Scalar::Unsigned),
        Suffix::Unsigned => (value < 0x1_0000_0000).then_some(Scalar::Unsigned),
        _ => (value < 0x8000_0000_0000_0000).then_some(Scalar::LongLong),
    }
}

/// The value and the type of these digits, if there is a type that holds it.
fn typed_value(base: Base, suffix: Suffix, digits: &[u8]) -> Option<(u64, Scalar)>
    requires { bytes.Only (spec.is_digit_of base) digits.now }
    ensures { GivesTyped result base suffix (spec.value_from (spec.radix base) 0 digits.now) }
{
    let value = number(base, digits)?;
    let ty = type_of(is_decimal(base), suffix, value)?;
    Some((value, ty))
}

/// The constant at the offset.
///
/// constant = (nonzero-digit {digit} | "0" {octal-digit} | ("0x" | "0X") hexadecimal-digit {hexadecimal-digit}) ["u" |
/// "U" | "ll" | "LL"] (C11 6.4.4.1)
pub(crate) fn constant<'a>(text: &'a str, at: usize) -> Result<(Option<Kind<'a>>, usize), LexFault>
    requires within { at < length text.now }
    requires fits { length text.now < 2 ^ 62 }
    requires begins { bytes.is_digit (slice_index text.now at) ≡ true }
    ensures { answers.AnswersPiece text.now at result }
{
    let (_, rest) = text.as_bytes().split_at(at);
    let base = base_at(rest);
    let (_, digits_on) = rest.split_at(before_len(base));
    let (digits, behind) = digits_on.split_at(digits_len(base, digits_on));
    let suffix = suffix_at(behind);
    let size = suffix_size(suffix);
    let (_, after) = behind.split_at(size);
    let len = before_len(base) + digits.len() + size;
    let span = Span {
        start: at,
        end: at + len,
    };
    let Some((value, ty)) = typed_value(base, suffix, digits) else {
        return Err(LexFault::ConstantTooLarge(span));
    };
    if is_glued(after) {
        return Err(LexFault::BadCharacter(Span {
            start: at + len,
            end: at + len + 1,
        }));
    }
    Ok((Some(Kind::Constant(value, ty)), len))
}
