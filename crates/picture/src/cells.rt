//! How the cells of memory are named.

use crate::pieces::{Piece, push_pieces};
use crate::sheet::Cell;
use std::alloc::{AllocError, Allocator};
use syntax::tree::{Global, Item, Unit};

/// Adds a cell of a global: of an array, the one of this index.
fn add_cell<A: Allocator + Copy>(
    alloc: A,
    cells: &mut Vec<Cell<A>, A>,
    global: &Global<A>,
    index: Option<u64>,
) -> Result<(), AllocError> {
    let mut name = Vec::new(alloc);
    name.extend_from_slice(global.name.text.as_str().as_bytes())?;
    if let Some(index) = index {
        push_pieces(
            &mut name,
            &[Piece::Plain(b"["), Piece::Number(index), Piece::Plain(b"]")],
        )?;
    }
    cells.push(Cell {
        name,
        ty: global.ty,
    })?;
    Ok(())
}

/// Adds the cells of a global.
fn add_global<A: Allocator + Copy>(
    alloc: A,
    cells: &mut Vec<Cell<A>, A>,
    global: &Global<A>,
) -> Result<(), AllocError> {
    let Some((length, _)) = global.length else {
        return add_cell(alloc, cells, global, None);
    };
    'cells: for index in 0..length {
        add_cell(alloc, cells, global, Some(index))?;
    }
    Ok(())
}

/// The cells of a program's globals, in the order in which memory has them.
pub(crate) fn cells_of<A: Allocator + Copy>(
    alloc: A,
    unit: &Unit<A>,
) -> Result<Vec<Cell<A>, A>, AllocError> {
    let mut cells = Vec::new(alloc);
    'items: for item in unit.items.as_slice() {
        if let Item::Globals(globals) = item {
            'globals: for global in globals.as_slice() {
                add_global(alloc, &mut cells, global)?;
            }
        }
    }
    Ok(cells)
}
