//! The warnings of a program.

use crate::decisions::add_decisions;
use crate::indices::add_indices;
use crate::undone::add_undone;
use crate::waits::add_waits;
use crate::warning::Warning;
use crate::whole::whole_of;
use separation::Accepted;
use std::alloc::{AllocError, Allocator};

/// The warnings about an accepted program, in the order of its text. Takes memory for the actions of its functions.
pub fn warnings<A: Allocator + Copy>(
    alloc: A,
    accepted: &Accepted<A>,
) -> Result<Vec<Warning, A>, AllocError> {
    let mut found = Vec::new(alloc);
    let whole = whole_of(alloc, accepted.safe().typed().unit(), &mut found)?;
    'functions: for code in whole.codes.all.iter() {
        add_undone(&mut found, code.actions.as_slice())?;
    }
    add_waits(alloc, &whole, &mut found)?;
    add_decisions(alloc, &whole, &mut found)?;
    add_indices(alloc, &whole, &mut found)?;
    found.sort_by_key(|it| it.span.start)?;
    Ok(found)
}
