//! Copies of statements and declarations.

ghost use Rattle.std.specs.Prelude.{◌≡◌, IfOk};

use crate::copy::{both, copy_three, copy_two};
use crate::tree::{Declaration, Declarator, ForHead, Simple, Start, Stmt};
use containers::{Boxed, Copied, Items};
use std::alloc::{AllocError, Allocator};

impl<A: Allocator + Copy> Copied<A> for Simple<A> {
    fn copy(&self, alloc: A) -> Result<Simple<A>, AllocError> {
        match self {
            Simple::Evaluate(e) => Ok(Simple::Evaluate(e.copy(alloc)?)),
            Simple::Assign(to, op, e) => {
                let (to, e) = copy_two(alloc, to, e)?;
                Ok(Simple::Assign(to, *op, e))
            }
            Simple::Adjust(to, by) => Ok(Simple::Adjust(to.copy(alloc)?, *by)),
        }
    }
}

impl<A: Allocator + Copy> Copied<A> for Declarator<A> {
    fn copy(&self, alloc: A) -> Result<Declarator<A>, AllocError> {
        let name = self.name.copy(alloc)?;
        let first = self.first.copy(alloc)?;
        Ok(Declarator { name, first })
    }
}

impl<A: Allocator + Copy> Copied<A> for Declaration<A> {
    fn copy(&self, alloc: A) -> Result<Declaration<A>, AllocError> {
        let declarators = self.declarators.copy(alloc)?;
        Ok(Declaration {
            ty: self.ty,
            declarators,
        })
    }
}

impl<A: Allocator + Copy> Copied<A> for Start<A> {
    fn copy(&self, alloc: A) -> Result<Start<A>, AllocError> {
        match self {
            Start::Nothing => Ok(Start::Nothing),
            Start::Declare(d) => Ok(Start::Declare(d.copy(alloc)?)),
            Start::Do(s) => Ok(Start::Do(s.copy(alloc)?)),
        }
    }
}

impl<A: Allocator + Copy> Copied<A> for ForHead<A> {
    fn copy(&self, alloc: A) -> Result<ForHead<A>, AllocError> {
        let (start, condition, step) = copy_three(alloc, &self.start, &self.condition, &self.step)?;
        Ok(ForHead {
            start,
            condition,
            step,
        })
    }
}

impl<A: Allocator + Copy> Stmt<A> {
    /// A copy of the statement with all its spans, in memory of its own; an `Err` only if `alloc` fails.
    #[cycle(copy_stmt)]
    pub fn copy(&self, alloc: A) -> Result<Stmt<A>, AllocError>
        ensures { IfOk result (λ s. s ≡ self.now) }
    {
        match self {
            Stmt::Empty => Ok(Stmt::Empty),
            Stmt::Declare(d) => Ok(Stmt::Declare(d.copy(alloc)?)),
            Stmt::Do(s) => Ok(Stmt::Do(s.copy(alloc)?)),
            Stmt::Block(body) => Ok(Stmt::Block(copy_stmts(alloc, body.as_slice())?)),
            Stmt::Print(span, text, text_span, args) => {
                let (text, args) = copy_two(alloc, text, args)?;
                Ok(Stmt::Print(*span, text, *text_span, args))
            }
            Stmt::If(c, a, b) => {
                let (c, a) = both(c.copy(alloc), copy_boxed(alloc, a))?;
                Ok(Stmt::If(c, a, copy_else(alloc, b)?))
            }
            Stmt::While(c, body) => {
                let (c, body) = both(c.copy(alloc), copy_boxed(alloc, body))?;
                Ok(Stmt::While(c, body))
            }
            Stmt::DoWhile(body, c) => {
                let (c, body) = both(c.copy(alloc), copy_boxed(alloc, body))?;
                Ok(Stmt::DoWhile(body, c))
            }
            Stmt::For(head, body) => {
                let head = head.copy(alloc)?;
                Ok(Stmt::For(head, copy_boxed(alloc, body)?))
            }
            Stmt::Break(span) => Ok(Stmt::Break(*span)),
            Stmt::Continue(span) => Ok(Stmt::Continue(*span)),
            Stmt::Return(e, span) => Ok(Stmt::Return(e.copy(alloc)?, *span)),
            Stmt::Transaction(kind, body, span) => {
                let body = copy_stmts(alloc, body.as_slice())?;
                Ok(Stmt::Transaction(*kind, body, *span))
            }
            Stmt::Cancel(span) => Ok(Stmt::Cancel(*span)),
            Stmt::CancelOuter(span) => Ok(Stmt::CancelOuter(*span)),
        }
    }
}

/// Copies a statement into a box of its own.
#[cycle(copy_stmt)]
fn copy_boxed<A: Allocator + Copy>(
    alloc: A,
    s: &Boxed<Stmt<A>, A>,
) -> Result<Boxed<Stmt<A>, A>, AllocError>
    ensures { IfOk result (λ b. b ≡ s.now) }
{
    Boxed::new(alloc, s.get().copy(alloc)?)
}

/// Copies the `else` branch, if there is one.
#[cycle(copy_stmt)]
fn copy_else<A: Allocator + Copy>(
    alloc: A,
    s: &Option<Boxed<Stmt<A>, A>>,
) -> Result<Option<Boxed<Stmt<A>, A>>, AllocError>
    ensures { IfOk result (λ b. b ≡ s.now) }
{
    match s {
        Some(s) => Ok(Some(Boxed::new(alloc, s.get().copy(alloc)?)?)),
        None => Ok(None),
    }
}

/// Copies statements in their order.
#[cycle(copy_stmt)]
fn copy_stmts<A: Allocator + Copy>(
    alloc: A,
    all: &[Stmt<A>],
) -> Result<Items<Stmt<A>, A>, AllocError>
    ensures { IfOk result (λ ss. ss ≡ all.now) }
{
    let mut copies = Items::new(alloc);
    'each: for one in all {
        copies.push(one.copy(alloc)?)?;
    }
    Ok(copies)
}

impl<A: Allocator + Copy> Copied<A> for Stmt<A> {
    fn copy(&self, alloc: A) -> Result<Stmt<A>, AllocError> {
        Stmt::copy(self, alloc)
    }
}
