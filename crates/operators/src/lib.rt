//! Operators on words, one function each: what the source's meaning and the code's have in common, right above the
//! definitions of `syntax`.
//!
//! A word is any number of 64 bits, of which a type sees the residue: no number here needs more than 64 bits, but for
//! what is shifted to the left. Products and quotients of two `int`s are those of the processor's 32 bits, those of two
//! `long long`s the processor's 64.
#![tactic(auto)]

ghost use Rattle.std.specs.Prelude.{◌≡◌, ◌≢◌, ◌≤ℤ◌, ◌<◌, ◌≤◌, ◌^◌, ◌==◌, pos, neg_ℤ, Ok};
ghost use Rattle.syntax.specs.Numbers.{number as number_in, word_of, bits, residue, fit_result, operation_result};
ghost use Rattle.syntax.specs.Numbers.{bitwise_complement};
ghost use Rattle.operators.specs.inner.Checked.{word_or_trap};

use lex::token::Scalar;
use syntax::number::number;
use syntax::thread_end::Trap;
use syntax::tree::BinaryOp;

/// A result's word, or a trap where a signed one is out of range.
#[inline(always)]
fn fit(ty: Scalar, z: i64) -> Result<u64, Trap>
    ensures { result ≡ fit_result ty z }
{
    match ty {
        Scalar::Int => {
            // One test of both ends, which the processor's own flag of a sum then answers.
            if z.wrapping_add(2147483648).cast_unsigned() > 4294967295 {
                return Err(Trap::OutOfRange);
            }
            Ok(u64::from((z as i32).cast_unsigned()))
        }
        Scalar::Unsigned => Ok(z.rem_euclid(4294967296) as u64),
        Scalar::LongLong => Ok(z.cast_unsigned()),
    }
}

/// The word of a number of any size as a result of a type: a signed one traps outside its range, an unsigned one wraps.
#[inline(always)]
fn fit_wide(ty: Scalar, z: i128) -> Result<u64, Trap>
    ensures { result ≡ fit_result ty z }
{
    match ty {
        Scalar::Int => {
            if -2147483648 <= z && z < 2147483648 {
                Ok(z.rem_euclid(4294967296) as u64)
            } else {
                Err(Trap::OutOfRange)
            }
        }
        Scalar::Unsigned => Ok(z.rem_euclid(4294967296) as u64),
        Scalar::LongLong => {
            if -9223372036854775808 <= z && z < 9223372036854775808 {
                Ok(z.rem_euclid(18446744073709551616) as u64)
            } else {
                Err(Trap::OutOfRange)
            }
        }
    }
}

/// The word of a `long long` that a checked operation gives, or a trap where it gives none.
#[inline(always)]
fn fit_checked(z: Option<i64>) -> Result<u64, Trap>
    ensures { result ≡ word_or_trap z }
{
    match z {
        Some(z) => Ok(z.cast_unsigned()),
        None => Err(Trap::OutOfRange),
    }
}

/// A sum.
#[inline(always)]
pub fn add(ty: Scalar, a: u64, b: u64) -> Result<u64, Trap>
    ensures { result ≡ operation_result BinaryOp.Add ty a b }
{
    match ty {
        Scalar::LongLong => fit_checked(number(ty, a).checked_add(number(ty, b))),
        Scalar::Int | Scalar::Unsigned => fit(ty, number(ty, a) + number(ty, b)),
    }
}

/// A difference.
#[inline(always)]
pub fn subtract(ty: Scalar, a: u64, b: u64) -> Result<u64, Trap>
    ensures { result ≡ operation_result BinaryOp.Subtract ty a b }
{
    match ty {
        Scalar::LongLong => fit_checked(number(ty, a).checked_sub(number(ty, b))),
        Scalar::Int | Scalar::Unsigned => fit(ty, number(ty, a) - number(ty, b)),
    }
}

/// What a type of 32 bits sees of a word.
#[inline(always)]
fn low(w: u64) -> u32
    ensures { result ≡ residue Scalar.Unsigned w }
{
    (w % 4294967296) as u32
}

/// How many bits a type has.
#[inline(always)]
fn bits(ty: Scalar) -> u64
    ensures value { result ≡ bits ty }
    ensures most { result ≤ 64 }
{
    match ty {
        Scalar::Int | Scalar::Unsigned => 32,
        Scalar::LongLong => 64,
    }
}

/// The number of an `int`'s word.
#[inline(always)]
fn signed_number(w: u64) -> i32
    ensures { result ≡ number_in Scalar.Int w }
{
    low(w).cast_signed()
}

/// The word of an `int`.
#[inline(always)]
fn word(z: i32) -> u64
    ensures { Ok result ≡ fit_result Scalar.Int z }
{
    u64::from(z.cast_unsigned())
}

/// The number of a `long long`'s word.
#[inline(always)]
fn long(w: u64) -> i64
    ensures { result ≡ number_in Scalar.LongLong w }
{
    w.cast_signed()
}

/// The word of a `long long`.
#[inline(always)]
fn long_word(z: i64) -> u64
    ensures { Ok result ≡ fit_result Scalar.LongLong z }
{
    z.cast_unsigned()
}

/// A product of two `int`s.
#[inline(always)]
fn multiply_signed(a: u64, b: u64) -> Result<u64, Trap>
    ensures { result ≡ operation_result BinaryOp.Multiply Scalar.Int a b }
{
    match signed_number(a).checked_mul(signed_number(b)) {
        Some(z) => Ok(word(z)),
        None => Err(Trap::OutOfRange),
    }
}

/// A product of two `long long`s.
#[inline(always)]
fn multiply_long(a: u64, b: u64) -> Result<u64, Trap>
    ensures { result ≡ operation_result BinaryOp.Multiply Scalar.LongLong a b }
{
    fit_checked(long(a).checked_mul(long(b)))
}

/// A product.
#[inline(always)]
pub fn multiply(ty: Scalar, a: u64, b: u64) -> Result<u64, Trap>
    ensures { result ≡ operation_result BinaryOp.Multiply ty a b }
{
    match ty {
        Scalar::Int => multiply_signed(a, b),
        Scalar::Unsigned => Ok(u64::from(low(a)) * u64::from(low(b)) % 4294967296),
        Scalar::LongLong => multiply_long(a, b),
    }
}

/// A quotient of two `int`s. The one that is out of range is that of the least number by -1.
#[inline(always)]
fn divide_signed(a: u64, b: u64) -> Result<u64, Trap>
    requires divisor { residue Scalar.Int b ≢ 0 }
    ensures { result ≡ operation_result BinaryOp.Divide Scalar.Int a b }
{
    match signed_number(a).checked_div(signed_number(b)) {
        Some(z) => Ok(word(z)),
        None => Err(Trap::OutOfRange),
    }
}

/// What is left by a division of two `int`s; it traps where the quotient does.
#[inline(always)]
fn remain_signed(a: u64, b: u64) -> Result<u64, Trap>
    requires divisor { residue Scalar.Int b ≢ 0 }
    ensures { result ≡ operation_result BinaryOp.Remainder Scalar.Int a b }
{
    match signed_number(a).checked_rem(signed_number(b)) {
        Some(z) => Ok(word(z)),
        None => Err(Trap::OutOfRange),
    }
}

/// A quotient of two `long long`s. The one that is out of range is that of the least number by -1.
#[inline(always)]
fn divide_long(a: u64, b: u64) -> Result<u64, Trap>
    requires divisor { residue Scalar.LongLong b ≢ 0 }
    ensures { result ≡ operation_result BinaryOp.Divide Scalar.LongLong a b }
{
    fit_checked(long(a).checked_div(long(b)))
}

/// What is left by a division of two `long long`s; it traps where the quotient does.
#[inline(always)]
fn remain_long(a: u64, b: u64) -> Result<u64, Trap>
    requires divisor { residue Scalar.LongLong b ≢ 0 }
    ensures { result ≡ operation_result BinaryOp.Remainder Scalar.LongLong a b }
{
    match long(a).checked_rem(long(b)) {
        Some(z) => Ok(long_word(z)),
        None => Err(Trap::OutOfRange),
    }
}

/// Whether a divisor is 0.
#[inline(always)]
fn is_zero(ty: Scalar, b: u64) -> bool
    ensures { result ≡ (residue ty b == 0) }
{
    match ty {
        Scalar::Int | Scalar::Unsigned => low(b) == 0,
        Scalar::LongLong => b == 0,
    }
}

/// A quotient.
#[inline(always)]
pub fn divide(ty: Scalar, a: u64, b: u64) -> Result<u64, Trap>
    ensures { result ≡ operation_result BinaryOp.Divide ty a b }
{
    if is_zero(ty, b) {
        return Err(Trap::ZeroDivisor);
    }
    match ty {
        Scalar::Int => divide_signed(a, b),
        Scalar::LongLong => divide_long(a, b),
        Scalar::Unsigned => Ok(u64::from(low(a) / low(b))),
    }
}

/// What is left by a division; it traps where the quotient does.
#[inline(always)]
pub fn remain(ty: Scalar, a: u64, b: u64) -> Result<u64, Trap>
    ensures { result ≡ operation_result BinaryOp.Remainder ty a b }
{
    if is_zero(ty, b) {
        return Err(Trap::ZeroDivisor);
    }
    match ty {
        Scalar::Int => remain_signed(a, b),
        Scalar::LongLong => remain_long(a, b),
        Scalar::Unsigned => Ok(u64::from(low(a) % low(b))),
    }
}

/// A power of two, of any that a `long long` may be shifted by.
#[inline(always)]
fn wide_power(k: u64) -> i128
    requires { k < 64 }
    ensures value { result ≡ pos (2 ^ k) }
    ensures low { pos 0 ≤ℤ result }
    ensures high { result ≤ℤ pos (2 ^ 63) }
{
    i128::from(1u64 << k)
}

/// A power of two that 32 bits hold.
#[inline(always)]
fn power(k: u64) -> i64
    requires { k < 32 }
    ensures value { result ≡ pos (2 ^ k) }
    ensures low { pos 0 ≤ℤ result }
    ensures high { result ≤ℤ pos (2 ^ 31) }
{
    (1u64 << k) as i64
}

/// A shift to the left.
#[inline(always)]
pub fn shift_left(ty: Scalar, a: u64, b: u64) -> Result<u64, Trap>
    ensures { result ≡ operation_result BinaryOp.ShiftLeft ty a b }
{
    if b >= bits(ty) {
        return Err(Trap::ShiftCount);
    }
    let x = i128::from(number(ty, a));
    let y = wide_power(b);
    fit_wide(ty, x * y)
}

/// A shift to the right.
#[inline(always)]
pub fn shift_right(ty: Scalar, a: u64, b: u64) -> Result<u64, Trap>
    ensures { result ≡ operation_result BinaryOp.ShiftRight ty a b }
{
    if b >= bits(ty) {
        return Err(Trap::ShiftCount);
    }
    let x = number(ty, a);
    match ty {
        Scalar::Int | Scalar::Unsigned => fit(ty, x.div_euclid(power(b))),
        Scalar::LongLong => fit_wide(ty, i128::from(x).div_euclid(wide_power(b))),
    }
}

/// Whether two words are equal.
#[inline(always)]
pub fn equal(a: u64, b: u64) -> u64
    ensures { operation_result BinaryOp.Equal Scalar.Unsigned a b ≡ Ok result }
{
    u64::from(a == b)
}

/// Whether two words differ.
#[inline(always)]
pub fn not_equal(a: u64, b: u64) -> u64
    ensures { operation_result BinaryOp.NotEqual Scalar.Unsigned a b ≡ Ok result }
{
    u64::from(a != b)
}

/// Whether a number is below another.
#[inline(always)]
pub fn less(ty: Scalar, a: u64, b: u64) -> u64
    ensures { operation_result BinaryOp.Less ty a b ≡ Ok result }
{
    match ty {
        Scalar::Int => u64::from(signed_number(a) < signed_number(b)),
        Scalar::Unsigned => u64::from(low(a) < low(b)),
        Scalar::LongLong => u64::from(long(a) < long(b)),
    }
}

/// Whether a number is at most another.
#[inline(always)]
pub fn less_equal(ty: Scalar, a: u64, b: u64) -> u64
    ensures { operation_result BinaryOp.LessEqual ty a b ≡ Ok result }
{
    match ty {
        Scalar::Int => u64::from(signed_number(a) <= signed_number(b)),
        Scalar::Unsigned => u64::from(low(a) <= low(b)),
        Scalar::LongLong => u64::from(long(a) <= long(b)),
    }
}

/// The number with the other sign.
#[inline(always)]
pub fn negate(ty: Scalar, a: u64) -> Result<u64, Trap>
    ensures { result ≡ fit_result ty (neg_ℤ (number_in ty a)) }
{
    match ty {
        Scalar::Int | Scalar::Unsigned => fit(ty, -number(ty, a)),
        Scalar::LongLong => fit_wide(ty, -i128::from(number(ty, a))),
    }
}

/// Each bit the other way.
#[inline(always)]
pub fn complement(ty: Scalar, a: u64) -> u64
    ensures { result ≡ bitwise_complement ty a }
{
    match ty {
        Scalar::Int | Scalar::Unsigned => u64::from(4294967295 - low(a)),
        Scalar::LongLong => 18446744073709551615 - a,
    }
}

/// The word of an `int`'s number as a `long long`.
#[inline(always)]
pub fn extend(a: u64) -> u64
    ensures { result ≡ word_of Scalar.LongLong (number_in Scalar.Int a) }
{
    number(Scalar::Int, a).cast_unsigned()
}

/// The lower 32 bits.
#[inline(always)]
pub fn lower(a: u64) -> u64
    ensures { result ≡ residue Scalar.Unsigned a }
{
    u64::from(low(a))
}

/// The result of an operator on two words of one type. Not always inlined: where the operator is given, little is left
/// of it, but a function with all of it for each operator would be too large to be put into another.
#[inline]
pub fn compute(op: BinaryOp, ty: Scalar, a: u64, b: u64) -> Result<u64, Trap>
    ensures { result ≡ operation_result op ty a b }
{
    match op {
        BinaryOp::Or => Ok(a | b),
        BinaryOp::Xor => Ok(a ^ b),
        BinaryOp::And => Ok(a & b),
        BinaryOp::Equal => Ok(equal(a, b)),
        BinaryOp::NotEqual => Ok(not_equal(a, b)),
        BinaryOp::Less => Ok(less(ty, a, b)),
        BinaryOp::Greater => Ok(less(ty, b, a)),
        BinaryOp::LessEqual => Ok(less_equal(ty, a, b)),
        BinaryOp::GreaterEqual => Ok(less_equal(ty, b, a)),
        BinaryOp::ShiftLeft => shift_left(ty, a, b),
        BinaryOp::ShiftRight => shift_right(ty, a, b),
        BinaryOp::Add => add(ty, a, b),
        BinaryOp::Subtract => subtract(ty, a, b),
        BinaryOp::Multiply => multiply(ty, a, b),
        BinaryOp::Divide => divide(ty, a, b),
        BinaryOp::Remainder => remain(ty, a, b),
    }
}
