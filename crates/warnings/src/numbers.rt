//! Warnings of numbers: comparisons that always hold, divisors, shifts and indices that are constants.

use crate::constant::constant_of;
use crate::known::{Body, FileName, FileNames, type_of};
use crate::warning::{Warning, WarningKind};
use lex::token::{Scalar, Span};
use std::alloc::{AllocError, Allocator};
use syntax::number::number;
use syntax::spans::span_of;
use syntax::tree::{BinaryOp, Expr, Name};
use syntax::value::Value;

/// An operand: its type, and its number where it is a constant.
#[derive(Clone, Copy)]
struct Operand {
    ty: Option<Scalar>,
    value: Option<Value>,
}

impl Operand {
    /// Whether it is an `unsigned` that is no constant.
    fn is_unsigned(self) -> bool {
        self.ty == Some(Scalar::Unsigned) && self.value.is_none()
    }

    fn is_zero(self) -> bool {
        matches!(self.value, Some(value) if value.word == 0)
    }

    /// Whether it is an `int` below 0.
    fn is_negative(self) -> bool {
        match self.value {
            Some(
                Value {
                    ty: Scalar::Int,
                    word,
                },
            ) => number(Scalar::Int, word) < 0,
            _ => false,
        }
    }
}

/// The operand that an expression is.
fn operand_of<A: Allocator + Copy>(
    file: &FileNames<'_, A>,
    body: &Body<'_, A>,
    e: &Expr<A>,
) -> Operand {
    Operand {
        ty: type_of(file, &body.locals, e),
        value: constant_of(e),
    }
}

/// What is warned of a comparison.
fn of_comparison(op: BinaryOp, a: Operand, b: Operand) -> Option<WarningKind> {
    let is_below = match op {
        BinaryOp::Less | BinaryOp::GreaterEqual => a.is_unsigned() && b.is_zero(),
        BinaryOp::Greater | BinaryOp::LessEqual => a.is_zero() && b.is_unsigned(),
        _ => false,
    };
    let is_mixed = a.is_unsigned() && b.is_negative() || a.is_negative() && b.is_unsigned();
    match (is_below, is_mixed) {
        (true, _) => Some(WarningKind::NeverNegative),
        (_, true) => Some(WarningKind::NegativeAsUnsigned),
        _ => None,
    }
}

/// Whether a number of this type is shifted by a constant that is out of its range.
fn is_shift_outside(ty: Option<Scalar>, count: Operand) -> bool {
    let most = match ty {
        Some(Scalar::LongLong) => 63,
        _ => 31,
    };
    matches!(count.value, Some(value) if value.word > most)
}

/// What is warned of an operator between two operands.
fn of_operator(op: BinaryOp, a: Operand, b: Operand) -> Option<WarningKind> {
    match op {
        BinaryOp::Equal
        | BinaryOp::NotEqual
        | BinaryOp::Less
        | BinaryOp::Greater
        | BinaryOp::LessEqual
        | BinaryOp::GreaterEqual => of_comparison(op, a, b),
        BinaryOp::Divide | BinaryOp::Remainder if b.is_zero() => Some(WarningKind::ZeroDivisor),
        BinaryOp::ShiftLeft | BinaryOp::ShiftRight if is_shift_outside(a.ty, b) => Some(
            WarningKind::ShiftOutside,
        ),
        _ => None,
    }
}

/// Adds what is warned of an operator between two expressions, at a place.
pub(crate) fn add_operator<A: Allocator + Copy>(
    file: &FileNames<'_, A>,
    body: &mut Body<'_, A>,
    op: BinaryOp,
    a: &Expr<A>,
    b: &Expr<A>,
    span: Span,
) -> Result<(), AllocError> {
    let left = operand_of(file, body, a);
    let right = operand_of(file, body, b);
    if let Some(kind) = of_operator(op, left, right) {
        body.found.push(Warning::at(kind, span))?;
    }
    Ok(())
}

/// Adds what is warned of an index.
fn add_index<A: Allocator + Copy>(
    file: &FileNames<'_, A>,
    body: &mut Body<'_, A>,
    array: &Name<A>,
    index: &Expr<A>,
) -> Result<(), AllocError> {
    match (file.get(array.text.as_str()), constant_of(index)) {
        (Some(FileName::Array(_, length)), Some(value)) if value.word >= *length => {
            body.found
                .push(Warning::at(WarningKind::IndexOutside, span_of(index)))?;
            Ok(())
        }
        _ => Ok(()),
    }
}

/// Adds what is warned of the numbers of an expression.
#[cycle(add_numbers)]
pub(crate) fn add_numbers<A: Allocator + Copy>(
    file: &FileNames<'_, A>,
    body: &mut Body<'_, A>,
    e: &Expr<A>,
) -> Result<(), AllocError> {
    match e {
        Expr::Variable(_) | Expr::Constant(_, _, _) => Ok(()),
        Expr::Element(x, index, _) => {
            add_numbers(file, body, index.get())?;
            add_index(file, body, x, index.get())
        }
        Expr::Call(_, args, _) => add_all_numbers(file, body, args.as_slice()),
        Expr::Parenthesized(e, _)
        | Expr::Cast(_, e, _)
        | Expr::Unary(_, e, _)
        | Expr::InTransaction(_, _, e, _) => add_numbers(file, body, e.get()),
        Expr::Binary(op, a, b, span) => {
            add_numbers(file, body, a.get())?;
            add_numbers(file, body, b.get())?;
            add_operator(file, body, *op, a.get(), b.get(), *span)
        }
        Expr::Logical(_, a, b, _) => {
            add_numbers(file, body, a.get())?;
            add_numbers(file, body, b.get())
        }
        Expr::Conditional(c, a, b, _) => {
            add_numbers(file, body, c.get())?;
            add_numbers(file, body, a.get())?;
            add_numbers(file, body, b.get())
        }
    }
}

/// Adds what is warned of the numbers of expressions.
#[cycle(add_numbers)]
fn add_all_numbers<A: Allocator + Copy>(
    file: &FileNames<'_, A>,
    body: &mut Body<'_, A>,
    all: &[Expr<A>],
) -> Result<(), AllocError> {
    'each: for one in all {
        add_numbers(file, body, one)?;
    }
    Ok(())
}
