//! How deep expressions are.

ghost use Rattle.std.specs.Prelude.{◌≡◌, min};
ghost use Rattle.syntax.specs.Depth.{expr_depth, deepest};
ghost use Rattle.syntax.specs.Views.{expr_of, exprs_of};

use crate::tree::Expr;
use std::alloc::Allocator;

impl<A: Allocator> Expr<A> {
    /// The number of nodes on the longest path from the expression down to a name or a constant: a name and a constant
    /// have depth 1, any other expression, also one in parentheses, has one more than its deepest part. A depth that
    /// exceeds `usize::MAX` is `usize::MAX`.
    #[cycle(depth)]
    pub fn depth(&self) -> usize
        ensures { result ≡ min (expr_depth (expr_of self.now)) usize.MAX }
    {
        match self {
            Expr::Variable(_) => 1,
            Expr::Constant(_, _, _) => 1,
            Expr::Element(_, i, _) => i.get().depth().saturating_add(1),
            Expr::Call(_, args, _) => deepest_of(args.as_slice()).saturating_add(1),
            Expr::Parenthesized(e, _) => e.get().depth().saturating_add(1),
            Expr::InTransaction(_, _, e, _) => e.get().depth().saturating_add(1),
            Expr::Cast(_, e, _) => e.get().depth().saturating_add(1),
            Expr::Unary(_, e, _) => e.get().depth().saturating_add(1),
            Expr::Binary(_, a, b, _) => a.get().depth().max(b.get().depth()).saturating_add(1),
            Expr::Logical(_, a, b, _) => a.get().depth().max(b.get().depth()).saturating_add(1),
            Expr::Conditional(c, a, b, _) => {
                let branches = a.get().depth().max(b.get().depth());
                c.get().depth().max(branches).saturating_add(1)
            }
        }
    }
}

/// The greatest of the depths, or 0 if there is none.
#[cycle(depth)]
pub(crate) fn deepest_of<A: Allocator>(args: &[Expr<A>]) -> usize
    ensures { result ≡ min (deepest (exprs_of args.now)) usize.MAX }
{
    let mut most = 0;
    'each: for arg in args {
        most = most.max(arg.depth());
    }
    most
}
