//! Equality of trees, with all their spans.

use crate::tree::{
    Attribute, Declaration, Declarator, Expr, ForHead, Function, Global, Initialiser, Item, Name,
    Parameter, Simple, Start, Stmt, Unit,
};
use containers::Same;
use std::alloc::Allocator;

impl<A: Allocator> Same for Name<A> {
    fn same(&self, other: &Name<A>) -> bool {
        self.text.same(&other.text) && self.span == other.span
    }
}

impl<A: Allocator> Same for Expr<A> {
    fn same(&self, other: &Expr<A>) -> bool {
        match (self, other) {
            (Expr::Variable(x), Expr::Variable(y)) => x.same(y),
            (Expr::Constant(m, s, span), Expr::Constant(n, t, to)) => {
                *m == *n && *s == *t && *span == *to
            }
            (Expr::Element(x, i, span), Expr::Element(y, j, to)) => {
                x.same(y) && i.same(j) && *span == *to
            }
            (Expr::Call(f, xs, span), Expr::Call(g, ys, to)) => f.same(g)
                && xs.same(ys)
                && *span == *to,
            (Expr::Parenthesized(a, span), Expr::Parenthesized(b, to)) => a.same(b) && *span == *to,
            (Expr::Cast(s, a, span), Expr::Cast(t, b, to)) => *s == *t && a.same(b) && *span == *to,
            (Expr::Unary(f, a, span), Expr::Unary(g, b, to)) => *f == *g
                && a.same(b)
                && *span == *to,
            (Expr::Binary(f, a, b, span), Expr::Binary(g, c, d, to)) => {
                *f == *g && a.same(c) && b.same(d) && *span == *to
            }
            (Expr::Logical(f, a, b, span), Expr::Logical(g, c, d, to)) => {
                *f == *g && a.same(c) && b.same(d) && *span == *to
            }
            (Expr::Conditional(a, b, c, span), Expr::Conditional(d, e, f, to)) => {
                a.same(d) && b.same(e) && c.same(f) && *span == *to
            }
            (Expr::InTransaction(f, k, a, span), Expr::InTransaction(g, l, b, to)) => {
                *f == *g && *k == *l && a.same(b) && *span == *to
            }
            _ => false,
        }
    }
}

impl<A: Allocator> Same for Simple<A> {
    fn same(&self, other: &Simple<A>) -> bool {
        match (self, other) {
            (Simple::Evaluate(a), Simple::Evaluate(b)) => a.same(b),
            (Simple::Assign(a, f, b), Simple::Assign(c, g, d)) => {
                a.same(c) && *f == *g && b.same(d)
            }
            (Simple::Adjust(a, f), Simple::Adjust(b, g)) => a.same(b) && *f == *g,
            _ => false,
        }
    }
}

impl<A: Allocator> Same for Declarator<A> {
    fn same(&self, other: &Declarator<A>) -> bool {
        self.name.same(&other.name) && self.first.same(&other.first)
    }
}

impl<A: Allocator> Same for Declaration<A> {
    fn same(&self, other: &Declaration<A>) -> bool {
        self.ty == other.ty && self.declarators.same(&other.declarators)
    }
}

impl<A: Allocator> Same for Start<A> {
    fn same(&self, other: &Start<A>) -> bool {
        match (self, other) {
            (Start::Nothing, Start::Nothing) => true,
            (Start::Declare(a), Start::Declare(b)) => a.same(b),
            (Start::Do(a), Start::Do(b)) => a.same(b),
            _ => false,
        }
    }
}

impl<A: Allocator> Same for ForHead<A> {
    fn same(&self, other: &ForHead<A>) -> bool {
        self.start.same(&other.start)
            && self.condition.same(&other.condition)
            && self.step.same(&other.step)
    }
}

impl<A: Allocator> Same for Stmt<A> {
    fn same(&self, other: &Stmt<A>) -> bool {
        match (self, other) {
            (Stmt::Empty, Stmt::Empty) => true,
            (Stmt::Declare(a), Stmt::Declare(b)) => a.same(b),
            (Stmt::Do(a), Stmt::Do(b)) => a.same(b),
            (Stmt::Block(a), Stmt::Block(b)) => a.same(b),
            (Stmt::Print(span, a, a_span, xs), Stmt::Print(to, b, b_span, ys)) => {
                *span == *to && a.same(b) && *a_span == *b_span && xs.same(ys)
            }
            (Stmt::If(c, a, x), Stmt::If(d, b, y)) => c.same(d) && a.same(b) && x.same(y),
            (Stmt::While(c, a), Stmt::While(d, b)) => c.same(d) && a.same(b),
            (Stmt::DoWhile(a, c), Stmt::DoWhile(b, d)) => a.same(b) && c.same(d),
            (Stmt::For(x, a), Stmt::For(y, b)) => x.same(y) && a.same(b),
            (Stmt::Break(span), Stmt::Break(to)) => *span == *to,
            (Stmt::Continue(span), Stmt::Continue(to)) => *span == *to,
            (Stmt::Return(a, span), Stmt::Return(b, to)) => a.same(b) && *span == *to,
            (Stmt::Transaction(f, a, span), Stmt::Transaction(g, b, to)) => {
                *f == *g && a.same(b) && *span == *to
            }
            (Stmt::Cancel(span), Stmt::Cancel(to)) => *span == *to,
            (Stmt::CancelOuter(span), Stmt::CancelOuter(to)) => *span == *to,
            _ => false,
        }
    }
}

impl<A: Allocator> Same for Parameter<A> {
    fn same(&self, other: &Parameter<A>) -> bool {
        self.ty == other.ty && self.name.same(&other.name)
    }
}

impl Same for Attribute {
    fn same(&self, other: &Attribute) -> bool {
        *self == *other
    }
}

impl Same for Initialiser {
    fn same(&self, other: &Initialiser) -> bool {
        *self == *other
    }
}

impl<A: Allocator> Same for Function<A> {
    fn same(&self, other: &Function<A>) -> bool {
        self.attributes.same(&other.attributes)
            && self.result == other.result
            && self.name.same(&other.name)
            && self.parameters.same(&other.parameters)
            && self.body.same(&other.body)
    }
}

impl<A: Allocator> Same for Global<A> {
    fn same(&self, other: &Global<A>) -> bool {
        self.ty == other.ty
            && self.name.same(&other.name)
            && self.length == other.length
            && self.first.same(&other.first)
    }
}

impl<A: Allocator> Same for Item<A> {
    fn same(&self, other: &Item<A>) -> bool {
        match (self, other) {
            (Item::Function(a), Item::Function(b)) => a.same(b),
            (Item::Globals(a), Item::Globals(b)) => a.same(b),
            _ => false,
        }
    }
}

impl<A: Allocator> Same for Unit<A> {
    fn same(&self, other: &Unit<A>) -> bool {
        self.items.same(&other.items) && self.end == other.end && self.key == other.key
    }
}
