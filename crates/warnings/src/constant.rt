//! The numbers that expressions of constants alone give.

use lex::token::Scalar;
use operators::{complement, compute, negate};
use std::alloc::Allocator;
use syntax::number::{number, word_of};
use syntax::tree::{BinaryOp, Expr, UnaryOp};
use syntax::types::{operand_type, result_type};
use syntax::value::Value;

/// A number converted to a type.
fn converted(to: Scalar, value: Value) -> Value {
    Value {
        ty: to,
        word: word_of(to, i128::from(number(value.ty, value.word))),
    }
}

/// What an operator before a number gives, unless it traps.
fn unary(op: UnaryOp, value: Value) -> Option<Value> {
    match op {
        UnaryOp::Keep => Some(value),
        UnaryOp::Not => Some(Value {
            ty: Scalar::Int,
            word: u64::from(value.word == 0),
        }),
        UnaryOp::Complement => Some(Value {
            ty: value.ty,
            word: complement(value.ty, value.word),
        }),
        UnaryOp::Negate => match negate(value.ty, value.word) {
            Ok(word) => Some(Value { ty: value.ty, word }),
            Err(_) => None,
        },
    }
}

/// What an operator between two numbers gives, unless it traps.
fn binary(op: BinaryOp, a: Value, b: Value) -> Option<Value> {
    let ty = operand_type(op, a.ty, b.ty);
    let a = converted(ty, a);
    let b = match op {
        BinaryOp::ShiftLeft | BinaryOp::ShiftRight => b,
        _ => converted(ty, b),
    };
    match compute(op, ty, a.word, b.word) {
        Ok(word) => Some(Value {
            ty: result_type(op, ty),
            word,
        }),
        Err(_) => None,
    }
}

/// The number that an expression of constants alone gives.
pub(crate) fn constant_of<A: Allocator>(e: &Expr<A>) -> Option<Value> {
    match e {
        Expr::Constant(word, ty, _) => Some(Value {
            ty: *ty,
            word: *word,
        }),
        Expr::Parenthesized(e, _) => constant_of(e.get()),
        Expr::Cast(to, e, _) => match constant_of(e.get()) {
            Some(value) => Some(converted(*to, value)),
            None => None,
        },
        Expr::Unary(op, e, _) => match constant_of(e.get()) {
            Some(value) => unary(*op, value),
            None => None,
        },
        Expr::Binary(op, a, b, _) => match (constant_of(a.get()), constant_of(b.get())) {
            (Some(a), Some(b)) => binary(*op, a, b),
            _ => None,
        },
        _ => None,
    }
}
