//! Words, and the numbers that they denote.

ghost use Rattle.std.specs.Prelude.{◌≡◌, ◌≤ℤ◌, ◌<ℤ◌, ◌-ℤ◌, pos};
ghost use Rattle.syntax.specs.Numbers.{limit, modulus, number as number_in, word_of};

use lex::token::Scalar;

/// The number that a word denotes.
#[inline(always)]
pub fn number(ty: Scalar, word: u64) -> i64
    ensures value { result ≡ number_in ty word }
    ensures low { (pos (limit ty) -ℤ pos (modulus ty)) ≤ℤ result }
    ensures high { result <ℤ pos (limit ty) }
{
    match ty {
        Scalar::Int => i64::from(((word % 4294967296) as u32).cast_signed()),
        Scalar::Unsigned => (word % 4294967296) as i64,
        Scalar::LongLong => word.cast_signed(),
    }
}

/// The word of a number.
#[inline(always)]
pub fn word_of(ty: Scalar, number: i128) -> u64
    ensures { result ≡ word_of ty number }
{
    match ty {
        Scalar::Int | Scalar::Unsigned => number.rem_euclid(4294967296) as u64,
        Scalar::LongLong => number.rem_euclid(18446744073709551616) as u64,
    }
}
