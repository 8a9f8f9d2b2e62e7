//! How deep statements and declarations are.

ghost use Rattle.std.specs.Prelude.{◌≡◌, min, map, option_map};
ghost use Rattle.syntax.specs.Depth.{simple_depth, deepest_value, declaration_depth, start_depth, stmt_depth};
ghost use Rattle.syntax.specs.Depth.{block_depth, optional_depth, optional_simple_depth};
ghost use Rattle.syntax.specs.Views.{expr_of, simple_of, declarator_of, declaration_of, start_of, stmt_of, stmts_of};

use crate::depth::deepest_of;
use crate::tree::{Declaration, Declarator, Expr, Simple, Start, Stmt};
use std::alloc::Allocator;

fn option_depth<A: Allocator>(e: &Option<Expr<A>>) -> usize
    ensures { result ≡ min (optional_depth (option_map expr_of e.now)) usize.MAX }
{
    match e {
        Some(e) => e.depth(),
        None => 0,
    }
}

impl<A: Allocator> Simple<A> {
    /// The depth of this as a statement, with its semicolon: one more than its deepest part, or `usize::MAX`
    /// if that is greater.
    pub fn depth(&self) -> usize
        ensures { result ≡ min (simple_depth (simple_of self.now)) usize.MAX }
    {
        match self {
            Simple::Evaluate(e) => e.depth().saturating_add(1),
            Simple::Assign(to, _, e) => to.depth().max(e.depth()).saturating_add(1),
            Simple::Adjust(to, _) => to.depth().saturating_add(1),
        }
    }
}

fn deepest_first<A: Allocator>(all: &[Declarator<A>]) -> usize
    ensures { result ≡ min (deepest_value (map declarator_of all.now)) usize.MAX }
{
    let mut most = 0;
    'each: for one in all {
        most = most.max(option_depth(&one.first));
    }
    most
}

impl<A: Allocator> Declaration<A> {
    /// One more than the depth of the declaration's deepest initialiser, so 1 if no name has one; or `usize::MAX`
    /// if that is greater.
    pub fn depth(&self) -> usize
        ensures { result ≡ min (declaration_depth (declaration_of self.now)) usize.MAX }
    {
        deepest_first(self.declarators.as_slice()).saturating_add(1)
    }
}

impl<A: Allocator> Start<A> {
    /// The depth of the declaration or the statement that a `for` begins with, 0 if there is none; or
    /// `usize::MAX` if that is greater.
    pub fn depth(&self) -> usize
        ensures { result ≡ min (start_depth (start_of self.now)) usize.MAX }
    {
        match self {
            Start::Nothing => 0,
            Start::Declare(d) => d.depth(),
            Start::Do(s) => s.depth(),
        }
    }
}

fn step_depth<A: Allocator>(s: &Option<Simple<A>>) -> usize
    ensures { result ≡ min (optional_simple_depth (option_map simple_of s.now)) usize.MAX }
{
    match s {
        Some(s) => s.depth(),
        None => 0,
    }
}

impl<A: Allocator> Stmt<A> {
    /// The number of nodes on the longest path down from the statement: `;`, `break`, `continue`, `cancel` and a
    /// `return` without a value have depth 1, any other statement, a block or a declaration has one more than its
    /// deepest part. The block of a transaction is a part of it. A depth that exceeds `usize::MAX` is `usize::MAX`.
    #[cycle(depth_stmt)]
    pub fn depth(&self) -> usize
        ensures { result ≡ min (stmt_depth (stmt_of self.now)) usize.MAX }
    {
        match self {
            Stmt::Empty => 1,
            Stmt::Declare(d) => d.depth(),
            Stmt::Do(s) => s.depth(),
            Stmt::Block(body) => block_depth_of(body.as_slice()),
            Stmt::Print(_, _, _, args) => deepest_of(args.as_slice()).saturating_add(1),
            Stmt::If(c, a, None) => c.depth().max(a.get().depth()).saturating_add(1),
            Stmt::If(c, a, Some(b)) => {
                let branches = a.get().depth().max(b.get().depth());
                c.depth().max(branches).saturating_add(1)
            }
            Stmt::While(c, body) => c.depth().max(body.get().depth()).saturating_add(1),
            Stmt::DoWhile(body, c) => body.get().depth().max(c.depth()).saturating_add(1),
            Stmt::For(head, body) => {
                let head = head.get();
                let before = head.start.depth().max(option_depth(&head.condition));
                let turn = step_depth(&head.step).max(body.get().depth());
                before.max(turn).saturating_add(1)
            }
            Stmt::Break(_) => 1,
            Stmt::Continue(_) => 1,
            Stmt::Return(e, _) => option_depth(e).saturating_add(1),
            Stmt::Transaction(_, body, _) => block_depth_of(body.as_slice()).saturating_add(1),
            Stmt::Cancel(_) | Stmt::CancelOuter(_) => 1,
        }
    }
}

/// The depth of a block: one more than its deepest statement, and 1 if it is empty.
#[cycle(depth_stmt)]
pub(crate) fn block_depth_of<A: Allocator>(all: &[Stmt<A>]) -> usize
    ensures { result ≡ min (block_depth (stmts_of all.now)) usize.MAX }
{
    let mut most = 1;
    'each: for one in all {
        most = most.max(one.depth().saturating_add(1));
    }
    most
}
