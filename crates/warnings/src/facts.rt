//! Facts that a condition gives about one variable: it is 0, or it is not.

use crate::constant::constant_of;
use crate::known::{Body, Local};
use lex::token::Scalar;
use name_tables::Scope;
use std::alloc::Allocator;
use syntax::number::number;
use syntax::tree::{BinaryOp, Expr, LogicalOp, Name, UnaryOp};
use syntax::value::Value;

/// The subject of a fact.
#[derive(Clone, Copy)]
pub(crate) enum Subject<'a> {
    /// A global, or some element of an array.
    Global(&'a str),
    /// A local, by the number of the action that declares it.
    Local(usize),
    /// The value that a function returns.
    Call(&'a str),
}

/// A value is 0, or it is not.
#[derive(Clone, Copy)]
pub(crate) struct Fact<'a> {
    pub(crate) subject: Subject<'a>,
    pub(crate) is_zero: bool,
}

/// A fact that holds if an expression is not 0, and one that holds if it is.
#[derive(Clone, Copy)]
pub(crate) struct Test<'a> {
    pub(crate) if_true: Option<Fact<'a>>,
    pub(crate) if_false: Option<Fact<'a>>,
}

/// A value that is written or returned.
#[derive(Clone, Copy)]
pub(crate) enum Given<'a> {
    Zero,
    Nonzero,
    /// The value of an expression, of which this is known.
    Computed(Test<'a>),
}

impl<'a> Test<'a> {
    /// Nothing is known.
    pub(crate) fn nothing() -> Test<'a> {
        Test {
            if_true: None,
            if_false: None,
        }
    }

    /// The expression is the value of this.
    fn of(subject: Subject<'a>) -> Test<'a> {
        Test {
            if_true: Some(Fact {
                subject,
                is_zero: false,
            }),
            if_false: Some(Fact {
                subject,
                is_zero: true,
            }),
        }
    }

    /// The test of an expression that is 0 exactly if the tested one is not.
    fn negated(self) -> Test<'a> {
        Test {
            if_true: self.if_false,
            if_false: self.if_true,
        }
    }

    /// The fact that holds if the expression is 0, or if it is not.
    pub(crate) fn if_zero(self, is_zero: bool) -> Option<Fact<'a>> {
        if is_zero { self.if_false } else { self.if_true }
    }
}

/// One fact of two.
fn either<'a>(one: Option<Fact<'a>>, other: Option<Fact<'a>>) -> Option<Fact<'a>> {
    match one {
        Some(fact) => Some(fact),
        None => other,
    }
}

/// The test of the comparison of an expression with a constant on its right.
fn compared<'a>(op: BinaryOp, test: Test<'a>, constant: Value) -> Test<'a> {
    let known = number(constant.ty, constant.word);
    match op {
        BinaryOp::Equal if known == 0 => test.negated(),
        BinaryOp::NotEqual if known == 0 => test,
        BinaryOp::Equal => Test {
            if_true: test.if_true,
            if_false: None,
        },
        BinaryOp::NotEqual => Test {
            if_true: None,
            if_false: test.if_true,
        },
        BinaryOp::Greater if known >= 0 => Test {
            if_true: test.if_true,
            if_false: None,
        },
        _ => Test::nothing(),
    }
}

/// The comparison with its sides exchanged.
fn turned(op: BinaryOp) -> BinaryOp {
    match op {
        BinaryOp::Less => BinaryOp::Greater,
        BinaryOp::Greater => BinaryOp::Less,
        op => op,
    }
}

/// The test of a name.
fn test_of_name<'a, A: Allocator + Copy>(locals: &Scope<'a, Local, A>, x: &'a Name<A>) -> Test<'a> {
    match locals.newest(x.text.as_str()) {
        Some((_, local)) => Test::of(Subject::Local(local.declared)),
        None => Test::of(Subject::Global(x.text.as_str())),
    }
}

/// The test of one variable that an expression is.
pub(crate) fn test_of<'a, A: Allocator + Copy>(
    locals: &Scope<'a, Local, A>,
    e: &'a Expr<A>,
) -> Test<'a> {
    match e {
        Expr::Variable(x) => test_of_name(locals, x),
        Expr::Element(x, _, _) => Test::of(Subject::Global(x.text.as_str())),
        Expr::Call(x, _, _) => Test::of(Subject::Call(x.text.as_str())),
        Expr::Parenthesized(e, _) | Expr::InTransaction(_, _, e, _) => test_of(locals, e.get()),
        Expr::Unary(UnaryOp::Not, e, _) => test_of(locals, e.get()).negated(),
        Expr::Unary(UnaryOp::Keep, e, _) | Expr::Unary(UnaryOp::Negate, e, _) => test_of(
            locals,
            e.get(),
        ),
        Expr::Binary(op, a, b, _) => match (constant_of(a.get()), constant_of(b.get())) {
            (None, Some(b)) => compared(*op, test_of(locals, a.get()), b),
            (Some(a), None) => compared(turned(*op), test_of(locals, b.get()), a),
            _ => Test::nothing(),
        },
        Expr::Logical(op, a, b, _) => {
            let one = test_of(locals, a.get());
            let other = test_of(locals, b.get());
            match op {
                LogicalOp::AndThen => Test {
                    if_true: either(one.if_true, other.if_true),
                    if_false: None,
                },
                LogicalOp::OrElse => Test {
                    if_true: None,
                    if_false: either(one.if_false, other.if_false),
                },
            }
        }
        Expr::Unary(UnaryOp::Complement, _, _)
        | Expr::Constant(_, _, _)
        | Expr::Cast(_, _, _)
        | Expr::Conditional(_, _, _, _) => Test::nothing(),
    }
}

/// The known facts about the value of an expression, where it is written or returned.
pub(crate) fn given_by<'a, A: Allocator + Copy>(body: &Body<'a, A>, e: &'a Expr<A>) -> Given<'a> {
    match constant_of(e) {
        Some(value) if value.word == 0 => Given::Zero,
        Some(value) if value.ty != Scalar::LongLong => Given::Nonzero,
        Some(_) => Given::Computed(Test::nothing()),
        None => Given::Computed(test_of(&body.locals, e)),
    }
}
