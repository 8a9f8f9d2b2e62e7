//! The types of numbers.

ghost use Rattle.std.specs.Prelude.{◌≡◌, option_map};
ghost use Rattle.syntax.specs.Numbers.{common, operand_type, result_type};
ghost use Rattle.syntax.specs.Types.{common_of, unary_type, binary_type};
ghost use Rattle.syntax.specs.Typing.{same_type};

use crate::tree::{BinaryOp, UnaryOp};
use lex::token::Scalar;

/// Whether two types are the same.
pub fn same_type(s: Scalar, t: Scalar) -> bool
    ensures { result ≡ same_type s t }
{
    match (s, t) {
        (Scalar::Int, Scalar::Int)
        | (Scalar::Unsigned, Scalar::Unsigned)
        | (Scalar::LongLong, Scalar::LongLong) => true,
        _ => false,
    }
}

/// The type to which two operands are converted (C11 6.3.1.8).
pub fn common_type(s: Scalar, t: Scalar) -> Scalar
    ensures { result ≡ common s t }
{
    match (s, t) {
        (Scalar::LongLong, _)
        | (Scalar::Int, Scalar::LongLong)
        | (Scalar::Unsigned, Scalar::LongLong) => Scalar::LongLong,
        (Scalar::Int, Scalar::Int) => Scalar::Int,
        (Scalar::Int, Scalar::Unsigned)
        | (Scalar::Unsigned, Scalar::Int)
        | (Scalar::Unsigned, Scalar::Unsigned) => Scalar::Unsigned,
    }
}

/// The common type of two operands, if both have a type.
pub fn common_of(s: Option<Scalar>, t: Option<Scalar>) -> Option<Scalar>
    ensures { result ≡ common_of s t }
{
    match (s, t) {
        (Some(s), Some(t)) => Some(common_type(s, t)),
        _ => None,
    }
}

/// The type to which an operand is converted, if the other one is of this type.
pub fn operand_type(op: BinaryOp, own: Scalar, other: Scalar) -> Scalar
    ensures { result ≡ operand_type op own other }
{
    match op {
        BinaryOp::ShiftLeft | BinaryOp::ShiftRight => own,
        _ => common_type(own, other),
    }
}

/// The type of an operator's result, for operands of this type.
pub fn result_type(op: BinaryOp, ty: Scalar) -> Scalar
    ensures { result ≡ result_type op ty }
{
    match op {
        BinaryOp::Equal
        | BinaryOp::NotEqual
        | BinaryOp::Less
        | BinaryOp::Greater
        | BinaryOp::LessEqual
        | BinaryOp::GreaterEqual => Scalar::Int,
        _ => ty,
    }
}

/// The type of an operator's result, if its operands have a type.
fn joined_type(op: BinaryOp, both: Option<Scalar>) -> Option<Scalar>
    ensures { result ≡ option_map (result_type op) both }
{
    match both {
        Some(ty) => Some(result_type(op, ty)),
        None => None,
    }
}

/// The type of a unary operator's result (C11 6.5.3.3).
pub fn unary_type(op: UnaryOp, ty: Option<Scalar>) -> Option<Scalar>
    ensures { result ≡ unary_type op ty }
{
    match op {
        UnaryOp::Not => Some(Scalar::Int),
        UnaryOp::Negate | UnaryOp::Keep | UnaryOp::Complement => ty,
    }
}

/// The type of a binary operator's result (C11 6.5.5 to 6.5.12).
pub fn binary_type(op: BinaryOp, s: Option<Scalar>, t: Option<Scalar>) -> Option<Scalar>
    ensures { result ≡ binary_type op s t }
{
    match op {
        BinaryOp::ShiftLeft | BinaryOp::ShiftRight => s,
        _ => joined_type(op, common_of(s, t)),
    }
}
