//! Memories that hold 0 in every cell.

use std::alloc::{AllocError, Allocator};

fn zero<A: Allocator + Copy>(alloc: A, cells: usize) -> Result<Vec<u64, A>, AllocError> {
    let mut memory = Vec::new(alloc);
    for _ in 0..cells {
        memory.push(0)?;
    }
    Ok(memory)
}

pub(crate) fn zeros<A: Allocator + Copy>(
    alloc: A,
    memories: usize,
    cells: usize,
) -> Result<Vec<Vec<u64, A>, A>, AllocError> {
    let mut all = Vec::new(alloc);
    for _ in 0..memories {
        all.push(zero(alloc, cells)?)?;
    }
    Ok(all)
}
