//! What the operator of a condition says of how it is tested.

ghost use Rattle.std.specs.Prelude.{◌≡◌, not};
ghost use Rattle.syntax.specs.Views.{expr_of};
ghost use Rattle.selection.specs.Conditions as conditions;

use selection::locations::ConditionRegister;
use std::alloc::Allocator;
use syntax::tree::{BinaryOp, Expr};

fn is_zero_constant<A: Allocator>(e: &Expr<A>) -> bool
    ensures { result ≡ conditions.is_zero_constant (expr_of e.now) }
{
    match e {
        Expr::Constant(0, _, _) => true,
        _ => false,
    }
}

/// A comparison with 0: whether it holds where the other side is 0.
pub(crate) fn zero_test<A: Allocator>(op: BinaryOp, b: &Expr<A>) -> Option<bool>
    ensures { result ≡ conditions.zero_test op (expr_of b.now) }
{
    let nought = is_zero_constant(b);
    match op {
        BinaryOp::Equal => if nought { Some(true) } else { None },
        BinaryOp::NotEqual => if nought { Some(false) } else { None },
        _ => None,
    }
}

/// The test of the opposite condition.
pub(crate) fn opposite(t: ConditionRegister) -> ConditionRegister
    ensures { result ≡ record t { at_zero = not t.at_zero } }
{
    ConditionRegister {
        register: t.register,
        at_zero: !t.at_zero,
        to: t.to,
    }
}
