//! What expressions and assignments do.

use crate::action::{Action, Argument, Cell, Part, Variable};
use crate::constant::constant_of;
use crate::facts::{Given, Test, given_by, test_of};
use crate::known::{Body, FileNames};
use crate::numbers::{add_numbers, add_operator};
use lex::token::Span;
use std::alloc::{AllocError, Allocator};
use syntax::spans::span_of;
use syntax::tree::{BinaryOp, Expr, Name, Simple};

/// The most threads that a program has.
const MOST_THREADS: u64 = 64;

/// The number of the action that declares a local; none if the name is a global's.
fn declared<'a, A: Allocator + Copy>(body: &Body<'a, A>, x: &'a Name<A>) -> Option<usize> {
    match body.locals.newest(x.text.as_str()) {
        Some((_, local)) => Some(local.declared),
        None => None,
    }
}

/// The variable that a name stands for.
fn variable<'a, A: Allocator + Copy>(body: &Body<'a, A>, x: &'a Name<A>) -> Variable<'a> {
    Variable {
        name: x.text.as_str(),
        local: declared(body, x),
        cell: Cell::Whole,
        span: x.span,
    }
}

/// The local that an expression is, by the number of the action that declares it.
fn local_of<'a, A: Allocator + Copy>(body: &Body<'a, A>, e: &'a Expr<A>) -> Option<usize> {
    match e {
        Expr::Variable(x) => declared(body, x),
        Expr::Parenthesized(e, _) => local_of(body, e.get()),
        _ => None,
    }
}

/// Which element an index means.
fn cell_of<'a, A: Allocator + Copy>(body: &Body<'a, A>, index: &'a Expr<A>) -> Cell {
    match (constant_of(index), local_of(body, index)) {
        (Some(value), _) => Cell::Constant(value.word),
        (None, Some(local)) => Cell::Local(local),
        (None, None) => Cell::Unknown,
    }
}

/// The element of an array.
fn element<'a, A: Allocator + Copy>(
    body: &Body<'a, A>,
    x: &'a Name<A>,
    index: &'a Expr<A>,
    span: Span,
) -> Variable<'a> {
    Variable {
        name: x.text.as_str(),
        local: None,
        cell: cell_of(body, index),
        span,
    }
}

/// How many numbers of threads there are at least, if it is of use to compare one with a constant or to divide it.
fn threads_of(op: BinaryOp, constant: u64) -> Option<u64> {
    match op {
        BinaryOp::Remainder => Some(constant),
        BinaryOp::Equal | BinaryOp::NotEqual | BinaryOp::Less | BinaryOp::GreaterEqual => Some(
            constant.saturating_add(1),
        ),
        BinaryOp::Greater | BinaryOp::LessEqual => Some(constant.saturating_add(2)),
        _ => None,
    }
}

/// Adds that a local is compared with a constant on its right, or divided by it.
fn add_count<'a, A: Allocator + Copy>(
    body: &mut Body<'a, A>,
    op: BinaryOp,
    a: &'a Expr<A>,
    b: &'a Expr<A>,
    span: Span,
) -> Result<(), AllocError> {
    match (local_of(body, a), constant_of(b)) {
        (Some(local), Some(value)) if value.word <= MOST_THREADS => match threads_of(
            op, value.word,
        ) {
            Some(threads) => body.add(Action::Counts {
                local,
                threads,
                span,
            }),
            None => Ok(()),
        },
        _ => Ok(()),
    }
}

/// What an expression does.
#[cycle(add_actions)]
fn add_actions<'a, A: Allocator + Copy>(
    body: &mut Body<'a, A>,
    e: &'a Expr<A>,
) -> Result<(), AllocError> {
    match e {
        Expr::Constant(_, _, _) => Ok(()),
        Expr::Variable(x) => {
            let read = variable(body, x);
            body.add(Action::Reads(read))
        }
        Expr::Element(x, index, span) => {
            add_actions(body, index.get())?;
            let read = element(body, x, index.get(), *span);
            body.add(Action::Reads(read))
        }
        Expr::Call(x, args, span) => {
            add_arguments(body, x.text.as_str(), args.as_slice())?;
            body.add(Action::Calls(x.text.as_str(), *span))
        }
        Expr::Parenthesized(e, _) | Expr::Cast(_, e, _) | Expr::Unary(_, e, _) => {
            add_actions(body, e.get())
        }
        Expr::Binary(BinaryOp::Remainder, a, b, span) => {
            body.add(Action::Begins(Part::Remainder))?;
            add_actions(body, a.get())?;
            add_actions(body, b.get())?;
            body.add(Action::Ends(Part::Remainder))?;
            add_count(body, BinaryOp::Remainder, a.get(), b.get(), *span)
        }
        Expr::Binary(op, a, b, span) => {
            add_actions(body, a.get())?;
            add_actions(body, b.get())?;
            add_count(body, *op, a.get(), b.get(), *span)
        }
        Expr::Logical(_, a, b, _) => {
            add_actions(body, a.get())?;
            add_actions(body, b.get())
        }
        Expr::Conditional(c, a, b, _) => {
            body.add(Action::Begins(Part::Choice))?;
            body.add(Action::Begins(Part::Condition))?;
            add_actions(body, c.get())?;
            body.add(Action::Ends(Part::Condition))?;
            add_actions(body, a.get())?;
            add_actions(body, b.get())?;
            body.add(Action::Ends(Part::Choice))
        }
        Expr::InTransaction(_, _, e, _) => {
            body.add(Action::Begins(Part::ValueTransaction))?;
            add_actions(body, e.get())?;
            body.add(Action::Ends(Part::ValueTransaction))
        }
    }
}

/// The actions of the arguments of a call, in their order.
#[cycle(add_actions)]
fn add_arguments<'a, A: Allocator + Copy>(
    body: &mut Body<'a, A>,
    called: &'a str,
    all: &'a [Expr<A>],
) -> Result<(), AllocError> {
    let mut number = 0usize;
    'each: for one in all {
        body.add(Action::Begins(Part::Argument))?;
        add_actions(body, one)?;
        let local = local_of(body, one);
        body.add(Action::Passes(Argument {
            called,
            number,
            local,
        }))?;
        body.add(Action::Ends(Part::Argument))?;
        number = number.saturating_add(1);
    }
    Ok(())
}

/// The actions of an expression that is part of a full one. Adds the warnings about its numbers.
fn add_operand<'a, A: Allocator + Copy>(
    file: &FileNames<'a, A>,
    body: &mut Body<'a, A>,
    e: &'a Expr<A>,
) -> Result<(), AllocError> {
    add_numbers(file, body, e)?;
    add_actions(body, e)
}

/// What a full expression does (C11 6.8), and what is warned of its numbers.
pub(crate) fn add_expr<'a, A: Allocator + Copy>(
    file: &FileNames<'a, A>,
    body: &mut Body<'a, A>,
    e: &'a Expr<A>,
) -> Result<(), AllocError> {
    body.add(Action::Begins(Part::Value))?;
    add_operand(file, body, e)?;
    body.add(Action::Ends(Part::Value))
}

/// The actions of the return of a value.
pub(crate) fn add_return<'a, A: Allocator + Copy>(
    file: &FileNames<'a, A>,
    body: &mut Body<'a, A>,
    e: &'a Expr<A>,
) -> Result<(), AllocError> {
    body.add(Action::Begins(Part::Value))?;
    add_operand(file, body, e)?;
    let given = given_by(body, e);
    body.add(Action::Returns(given))?;
    body.add(Action::Ends(Part::Value))
}

/// What full expressions do, in their order.
pub(crate) fn add_exprs<'a, A: Allocator + Copy>(
    file: &FileNames<'a, A>,
    body: &mut Body<'a, A>,
    all: &'a [Expr<A>],
) -> Result<(), AllocError> {
    'each: for one in all {
        add_expr(file, body, one)?;
    }
    Ok(())
}

/// What a condition does.
pub(crate) fn add_condition<'a, A: Allocator + Copy>(
    file: &FileNames<'a, A>,
    body: &mut Body<'a, A>,
    part: Part,
    e: &'a Expr<A>,
) -> Result<(), AllocError> {
    let test = test_of(&body.locals, e);
    body.add(Action::Begins(part))?;
    body.add(Action::Tests(test))?;
    add_expr(file, body, e)?;
    body.add(Action::Ends(part))
}

/// What computes where an assignment writes.
fn add_place<'a, A: Allocator + Copy>(
    file: &FileNames<'a, A>,
    body: &mut Body<'a, A>,
    to: &'a Expr<A>,
) -> Result<(), AllocError> {
    add_numbers(file, body, to)?;
    match to {
        Expr::Element(_, index, _) => add_actions(body, index.get()),
        _ => Ok(()),
    }
}

/// The write of an assignment, whose left side is a variable or an element.
fn add_write<'a, A: Allocator + Copy>(
    body: &mut Body<'a, A>,
    to: &'a Expr<A>,
    given: Given<'a>,
) -> Result<(), AllocError> {
    match to {
        Expr::Variable(x) => {
            let written = variable(body, x);
            body.add(Action::Writes(written, given))
        }
        Expr::Element(x, index, span) => {
            let written = element(body, x, index.get(), *span);
            body.add(Action::Writes(written, given))
        }
        _ => Ok(()),
    }
}

/// What an assignment does, with an operator or without one.
fn add_assignment<'a, A: Allocator + Copy>(
    file: &FileNames<'a, A>,
    body: &mut Body<'a, A>,
    to: &'a Expr<A>,
    op: Option<BinaryOp>,
    e: &'a Expr<A>,
) -> Result<(), AllocError> {
    body.add(Action::Begins(Part::Value))?;
    add_place(file, body, to)?;
    let mut given = given_by(body, e);
    if let Some(op) = op {
        add_operator(file, body, op, to, e, span_of(e))?;
        add_actions(body, to)?;
        given = Given::Computed(Test::nothing());
    }
    add_operand(file, body, e)?;
    add_write(body, to, given)?;
    body.add(Action::Ends(Part::Value))
}

/// The first value of the variable of a name.
pub(crate) fn add_first<'a, A: Allocator + Copy>(
    file: &FileNames<'a, A>,
    body: &mut Body<'a, A>,
    x: &'a Name<A>,
    e: &'a Expr<A>,
) -> Result<(), AllocError> {
    body.add(Action::Begins(Part::Value))?;
    add_operand(file, body, e)?;
    let written = variable(body, x);
    let given = given_by(body, e);
    body.add(Action::Writes(written, given))?;
    body.add(Action::Ends(Part::Value))
}

/// What a simple statement does.
pub(crate) fn add_simple<'a, A: Allocator + Copy>(
    file: &FileNames<'a, A>,
    body: &mut Body<'a, A>,
    s: &'a Simple<A>,
) -> Result<(), AllocError> {
    match s {
        Simple::Evaluate(e) => add_expr(file, body, e),
        Simple::Assign(to, op, e) => add_assignment(file, body, to, *op, e),
        Simple::Adjust(to, _) => {
            body.add(Action::Begins(Part::Value))?;
            add_numbers(file, body, to)?;
            add_actions(body, to)?;
            add_write(body, to, Given::Computed(Test::nothing()))?;
            body.add(Action::Ends(Part::Value))
        }
    }
}
