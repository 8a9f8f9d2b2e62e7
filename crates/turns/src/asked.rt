//! The cells that a function reads, by its text.

use crate::functions::{body_of, called_at, is_punctuator};
use crate::passage::Source;
use lex::token::{Kind, Punctuator, Token};
use std::alloc::{AllocError, Allocator};
use traces::{Named, named_cell, push_value};

/// The most elements of an array that are shown.
const MOST_ELEMENTS: usize = 16;

/// How many cells a global has.
fn cells_of<A: Allocator>(global: &Named<A>) -> usize {
    match global.length {
        Some(length) => length as usize,
        None => 1,
    }
}

/// The index of the element that begins at a token, if it is a constant.
fn index_at(tokens: &[Token<'_>], number: usize) -> Option<usize> {
    if !is_punctuator(
        tokens.get(number.saturating_add(1)),
        Punctuator::OpenBracket,
    ) {
        return None;
    }
    if !is_punctuator(
        tokens.get(number.saturating_add(3)),
        Punctuator::CloseBracket,
    ) {
        return None;
    }
    match tokens.get(number.saturating_add(2)) {
        Some(
            Token {
                kind: Kind::Constant(index, _),
                ..
            },
        ) => Some(*index as usize),
        _ => None,
    }
}

/// Notes the cells of a global from this one on: one of them, or all.
fn note_cells(cells: &mut [bool], first: usize, count: usize, index: Option<usize>) {
    'cells: for cell in 0..count {
        let is_read = match index {
            Some(index) => index == cell,
            None => true,
        };
        if is_read {
            if let Some(is) = cells.get_mut(first.saturating_add(cell)) {
                *is = true;
            }
        }
    }
}

/// Notes the cells of the global of a name, if there is one.
fn note_global<A: Allocator>(
    names: &[Named<A>],
    name: &str,
    index: Option<usize>,
    cells: &mut [bool],
) {
    let mut first: usize = 0;
    'globals: for global in names {
        let count = cells_of(global).min(cells.len());
        if global.name.as_str() == name {
            note_cells(cells, first, count, index);
        }
        first = first.saturating_add(count);
    }
}

/// Whether a name is among these.
fn is_among(names: &[&str], wanted: &str) -> bool {
    'names: for name in names {
        if *name == wanted {
            return true;
        }
    }
    false
}

/// Notes the cells that a function's body names, and the functions that it calls.
fn note_body<'a, A: Allocator>(
    names: &[Named<A>],
    body: &[Token<'a>],
    functions: &mut Vec<&'a str, A>,
    cells: &mut [bool],
) -> Result<(), AllocError> {
    'tokens: for number in 0..body.len() {
        if let Some(name) = called_at(body, number) {
            if !is_among(functions.as_slice(), name) {
                functions.push(name)?;
            }
        } else if let Kind::Name(name) = body[number].kind {
            note_global(names, name, index_at(body, number), cells);
        }
    }
    Ok(())
}

/// For each of so many cells whether a function may read it, or one that it calls. A global that a local variable hides
/// counts as read.
pub(crate) fn cells_read<'a, A: Allocator + Copy>(
    alloc: A,
    names: &[Named<A>],
    source: Source<'a>,
    function: &'a str,
    count: usize,
) -> Result<Vec<bool, A>, AllocError> {
    let mut cells = Vec::new(alloc);
    'cells: for _ in 0..count {
        cells.push(false)?;
    }
    let mut functions = Vec::new(alloc);
    functions.push(function)?;
    'functions: for number in 0..source.tokens.len() {
        let Some(name) = functions.get(number).copied() else {
            return Ok(cells);
        };
        let body = body_of(source.tokens, name);
        note_body(names, body, &mut functions, cells.as_mut_slice())?;
    }
    Ok(cells)
}

/// Whether all of so many cells from this one on are read.
fn are_all_read(cells: &[bool], first: usize, count: usize) -> bool {
    'cells: for cell in 0..count {
        if !is_read(cells, first.saturating_add(cell)) {
            return false;
        }
    }
    true
}

/// Whether a cell is read.
pub(crate) fn is_read(cells: &[bool], cell: usize) -> bool {
    match cells.get(cell) {
        Some(is) => *is,
        None => false,
    }
}

/// The word of a cell.
pub(crate) fn word_at(memory: &[u64], cell: usize) -> u64 {
    match memory.get(cell) {
        Some(word) => *word,
        None => 0,
    }
}

/// Adds what separates values.
fn push_separator<A: Allocator>(
    to: &mut Vec<u8, A>,
    is_first: &mut bool,
) -> Result<(), AllocError> {
    let separator = if *is_first { ": " } else { ", " };
    *is_first = false;
    to.extend_from_slice(separator.as_bytes())
}

/// Adds the values of a whole array.
fn push_array<A: Allocator>(
    to: &mut Vec<u8, A>,
    global: &Named<A>,
    first: usize,
    memory: &[u64],
) -> Result<(), AllocError> {
    to.extend_from_slice(global.name.as_str().as_bytes())?;
    to.extend_from_slice(b" =")?;
    let count = cells_of(global);
    'cells: for cell in 0..count.min(MOST_ELEMENTS) {
        to.extend_from_slice(b" ")?;
        push_value(to, global.ty, word_at(memory, first.saturating_add(cell)))?;
    }
    if count > MOST_ELEMENTS {
        to.extend_from_slice(b" ..")?;
    }
    Ok(())
}

/// Adds the values of the cells that are read, from a colon on.
pub(crate) fn push_values_read<A: Allocator + Copy>(
    alloc: A,
    to: &mut Vec<u8, A>,
    names: &[Named<A>],
    cells: &[bool],
    memory: &[u64],
) -> Result<(), AllocError> {
    let mut is_first = true;
    let mut first: usize = 0;
    'globals: for global in names {
        let count = cells_of(global).min(memory.len());
        if global.length.is_some() && count > 1 && are_all_read(cells, first, count) {
            push_separator(to, &mut is_first)?;
            push_array(to, global, first, memory)?;
        } else {
            push_cells_read(alloc, to, names, cells, first, memory, count, &mut is_first)?;
        }
        first = first.saturating_add(count);
    }
    Ok(())
}

/// Adds the values of those of so many cells from this one on that are read.
fn push_cells_read<A: Allocator + Copy>(
    alloc: A,
    to: &mut Vec<u8, A>,
    names: &[Named<A>],
    cells: &[bool],
    first: usize,
    memory: &[u64],
    count: usize,
    is_first: &mut bool,
) -> Result<(), AllocError> {
    'cells: for number in 0..count {
        let cell = first.saturating_add(number);
        if is_read(cells, cell) {
            push_separator(to, is_first)?;
            let (name, ty) = named_cell(alloc, names, cell)?;
            to.extend_from_slice(name.as_slice())?;
            to.extend_from_slice(b" = ")?;
            push_value(to, ty, word_at(memory, cell))?;
        }
    }
    Ok(())
}
