//! Values in two registers.

ghost use Rattle.std.specs.Prelude.{◌≡◌, pos};
ghost use Rattle.syntax.specs.Numbers.{value_in_type, flag as flag_due, is_zero as is_zero_due, word_of};
ghost use Rattle.meaning.specs.inner.Word.{value_of};

use crate::arithmetic::convert;
use lex::token::Scalar;
use syntax::number::word_of;
use syntax::value::Value;

/// A value in 128 bits without a gap: its word, and above it 0 for `int`, 1 for `unsigned` and 2 for `long long`.
#[derive(Clone, Copy)]
pub(crate) struct Word {
    bits: u128,
}

/// The value of this type with this word.
#[inline(always)]
#[tactic(auto, unfolding(crate::specs::inner::Word::value_of))]
pub(crate) fn pack(ty: Scalar, word: u64) -> Word
    ensures { value_of result ≡ record { ty = ty; word = word } }
{
    let low = u128::from(word);
    match ty {
        Scalar::Int => Word { bits: low },
        Scalar::Unsigned => Word {
            bits: low + 18446744073709551616,
        },
        Scalar::LongLong => Word {
            bits: low + 36893488147419103232,
        },
    }
}

/// The value, its type and its word side by side.
#[inline(always)]
#[tactic(auto, unfolding(crate::specs::inner::Word::value_of))]
pub(crate) fn unpack(w: Word) -> Value
    ensures { result ≡ value_of w }
{
    let word = (w.bits % 18446744073709551616) as u64;
    if w.bits < 18446744073709551616 {
        return Value {
            ty: Scalar::Int,
            word,
        };
    }
    if w.bits < 36893488147419103232 {
        return Value {
            ty: Scalar::Unsigned,
            word,
        };
    }
    Value {
        ty: Scalar::LongLong,
        word,
    }
}

/// A value in one piece.
#[inline(always)]
pub(crate) fn pack_value(v: Value) -> Word
    ensures { value_of result ≡ v }
{
    pack(v.ty, v.word)
}

/// The value of a constant.
#[inline(always)]
pub(crate) fn constant(n: u64, ty: Scalar) -> Word
    ensures { value_of result ≡ record { ty = ty; word = word_of ty (pos n) } }
{
    pack(ty, word_of(ty, i128::from(n)))
}

/// Whether a value is 0.
#[inline(always)]
pub(crate) fn is_zero(w: Word) -> bool
    ensures { result ≡ is_zero_due (value_of w) }
{
    unpack(w).word == 0
}

/// An `int` that is 0 or 1.
#[inline(always)]
pub(crate) fn flag(b: bool) -> Word
    ensures { value_of result ≡ flag_due b }
{
    pack(Scalar::Int, u64::from(b))
}

/// A value of the type, with the number modulo how many numbers the type has.
#[inline(always)]
pub(crate) fn convert_word(ty: Scalar, w: Word) -> Word
    ensures { value_of result ≡ value_in_type ty (value_of w) }
{
    pack_value(convert(ty, unpack(w)))
}
