//! Declarations and heads of loops without what is left out.

use crate::expressions::{both, option_without, simple_without};
use crate::left_out::{DECLARED_TWICE, LeftOut};
use containers::{Copied, Items};
use std::alloc::{AllocError, Allocator};
use syntax::tree::{Declaration, Declarator, Expr, ForHead, Simple, Start};

/// The first value of a declared name; none where it is left out.
fn first_without<A: Allocator + Copy>(
    alloc: A,
    left: &LeftOut<'_, A>,
    first: &Option<Expr<A>>,
) -> Result<Option<Expr<A>>, AllocError> {
    option_without(alloc, left, first.as_ref())
}

/// A declared name with its first value.
fn declarator_without<A: Allocator + Copy>(
    alloc: A,
    left: &LeftOut<'_, A>,
    one: &Declarator<A>,
) -> Result<Declarator<A>, AllocError> {
    let name = one.name.copy(alloc)?;
    let first = first_without(alloc, left, &one.first)?;
    Ok(Declarator { name, first })
}

/// The names of one declaration, but for those that are declared twice.
fn declarators_without<A: Allocator + Copy>(
    alloc: A,
    left: &LeftOut<'_, A>,
    all: &[Declarator<A>],
) -> Result<Items<Declarator<A>, A>, AllocError> {
    let mut kept = Items::new(alloc);
    'each: for one in all {
        if !left.has(DECLARED_TWICE, one.name.span.start) {
            kept.push(declarator_without(alloc, left, one)?)?;
        }
    }
    Ok(kept)
}

/// A declaration, but for names that are declared twice.
pub(crate) fn declaration_without<A: Allocator + Copy>(
    alloc: A,
    left: &LeftOut<'_, A>,
    declaration: &Declaration<A>,
) -> Result<Declaration<A>, AllocError> {
    let declarators = declarators_without(alloc, left, declaration.declarators.as_slice())?;
    Ok(Declaration {
        ty: declaration.ty,
        declarators,
    })
}

/// What the head of a `for` begins with.
fn start_without<A: Allocator + Copy>(
    alloc: A,
    left: &LeftOut<'_, A>,
    start: &Start<A>,
) -> Result<Start<A>, AllocError> {
    match start {
        Start::Nothing => Ok(Start::Nothing),
        Start::Declare(declaration) => Ok(Start::Declare(declaration_without(
            alloc,
            left,
            declaration,
        )?)),
        Start::Do(s) => Ok(Start::Do(simple_without(alloc, left, s)?)),
    }
}

/// What a `for` does behind each turn, where there is something.
fn step_without<A: Allocator + Copy>(
    alloc: A,
    left: &LeftOut<'_, A>,
    step: &Option<Simple<A>>,
) -> Result<Option<Simple<A>>, AllocError> {
    match step {
        Some(step) => Ok(Some(simple_without(alloc, left, step)?)),
        None => Ok(None),
    }
}

/// The head of a `for`.
pub(crate) fn head_without<A: Allocator + Copy>(
    alloc: A,
    left: &LeftOut<'_, A>,
    head: &ForHead<A>,
) -> Result<ForHead<A>, AllocError> {
    let parts = both(
        start_without(alloc, left, &head.start),
        first_without(alloc, left, &head.condition),
    );
    let ((start, condition), step) = both(parts, step_without(alloc, left, &head.step))?;
    Ok(ForHead {
        start,
        condition,
        step,
    })
}
