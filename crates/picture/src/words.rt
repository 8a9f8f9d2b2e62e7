//! The words of a glyph.

use crate::layout::CHARACTERS;
use crate::pieces::{Piece, push_pieces};
use crate::sheet::Cell;
use std::alloc::{AllocError, Allocator};
use syntax::number::number;

/// Adds the name of a cell.
pub(crate) fn put_name<A: Allocator>(
    to: &mut Vec<u8, A>,
    cells: &[Cell<A>],
    cell: u32,
) -> Result<(), AllocError> {
    match cells.get(cell as usize) {
        Some(found) => to.extend_from_slice(found.name.as_slice()),
        None => push_pieces(to, &[Piece::Plain(b"@"), Piece::Number(u64::from(cell))]),
    }
}

/// Adds a word of a cell, as the number that it stands for.
pub(crate) fn put_value<A: Allocator>(
    to: &mut Vec<u8, A>,
    cells: &[Cell<A>],
    cell: u32,
    word: u64,
) -> Result<(), AllocError> {
    let value = match cells.get(cell as usize) {
        Some(found) => number(found.ty, word),
        None => return push_pieces(to, &[Piece::Number(word)]),
    };
    if value < 0 {
        push_pieces(
            to,
            &[Piece::Plain(b"-"), Piece::Number(value.unsigned_abs())],
        )
    } else {
        push_pieces(to, &[Piece::Number(value.unsigned_abs())])
    }
}

/// A verb, a cell and its word, in the room of a row. Without the verb where that is too long, and with less of the
/// name where it still is.
pub(crate) fn words_of<A: Allocator + Copy>(
    alloc: A,
    cells: &[Cell<A>],
    verb: &[u8],
    cell: u32,
    word: u64,
    depth: usize,
) -> Result<Vec<u8, A>, AllocError> {
    let mut value = Vec::new(alloc);
    value.extend_from_slice(b" = ")?;
    put_value(&mut value, cells, cell, word)?;
    let mut name = Vec::new(alloc);
    put_name(&mut name, cells, cell)?;
    let room = CHARACTERS
        .saturating_sub(depth.min(3))
        .saturating_sub(value.len());
    let mut words = Vec::new(alloc);
    if verb.len().saturating_add(name.len()).saturating_add(1) <= room {
        words.extend_from_slice(verb)?;
        words.push(b' ')?;
        words.extend_from_slice(name.as_slice())?;
    } else if name.len() <= room {
        words.extend_from_slice(name.as_slice())?;
    } else {
        words.extend_from_slice(name.as_slice().get(..room.saturating_sub(2)).unwrap_or(b""))?;
        words.extend_from_slice(b"..")?;
    }
    words.extend_from_slice(value.as_slice())?;
    Ok(words)
}

/// The words of pieces.
pub(crate) fn words<A: Allocator>(
    alloc: A,
    pieces: &[Piece<'_>],
) -> Result<Vec<u8, A>, AllocError> {
    let mut words = Vec::new(alloc);
    push_pieces(&mut words, pieces)?;
    Ok(words)
}
