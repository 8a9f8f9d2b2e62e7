//! The cells of a program's globals: their names, and the numbers in them.

ghost use Rattle.std.specs.Prelude.{◌≡◌, ◌++◌, ◌∷◌, [], IfOk, OnOk, map, slice_index_or};
ghost use Rattle.lex.specs.declared.token.Scalar.TheVariants.{Int};
ghost use Rattle.json.specs.Token as token;
ghost use Rattle.traces.specs.Names.{cell_of};
ghost use Rattle.traces.specs.Views.{named_of};
ghost use Rattle.pages.specs.Data.{Appends, memory_list, name_list, types_of, word_token};

use json::Writer;
use lex::token::Scalar;
use std::alloc::{AllocError, Allocator};
use syntax::number::number;
use traces::{Named, named_cell};

/// Adds the name of a cell.
fn put_name<A: Allocator + Copy, B: Allocator>(
    alloc: A,
    to: &mut Writer<B>,
    globals: &[Named<A>],
    cell: usize,
) -> Result<(), AllocError>
    ensures { OnOk result (Appends to.old to.new (token.string (cell_of (map named_of globals.now) cell).name ∷ [])) }
{
    let (name, _) = named_cell(alloc, globals, cell)?;
    match String::from_utf8(name) {
        Ok(name) => to.string(name.as_str()),
        Err(_) => Err(AllocError), // unreachable: names are texts
    }
}

/// Adds the names of the first cells of globals as a list, so many of them.
pub(crate) fn put_names<A: Allocator + Copy, B: Allocator>(
    alloc: A,
    to: &mut Writer<B>,
    globals: &[Named<A>],
    cells: usize,
) -> Result<(), AllocError>
    ensures { OnOk result (Appends to.old to.new (name_list (map named_of globals.now) cells)) }
{
    to.begin_array()?;
    'cells: for cell in 0..cells {
        put_name(alloc, to, globals, cell)?;
    }
    to.end_array()
}

/// The types of the first cells of globals, so many of them.
pub(crate) fn types_of<A: Allocator + Copy>(
    alloc: A,
    globals: &[Named<A>],
    cells: usize,
) -> Result<Vec<Scalar, A>, AllocError>
    ensures { IfOk result (λ types. types.items ≡ types_of (map named_of globals.now) cells) }
{
    let mut types = Vec::new(alloc);
    'cells: for cell in 0..cells {
        let (_name, ty) = named_cell(alloc, globals, cell)?;
        types.push(ty)?;
    }
    Ok(types)
}

/// Adds the number that a word denotes; as a text if a reader of JSON may not read it exactly.
fn put_word<B: Allocator>(to: &mut Writer<B>, ty: Scalar, word: u64) -> Result<(), AllocError>
    ensures { OnOk result (Appends to.old to.new (word_token ty word ∷ [])) }
{
    let value = number(ty, word);
    match ty {
        Scalar::Int => to.i64(value),
        Scalar::Unsigned => to.i64(value),
        Scalar::LongLong => to.quoted_i64(value),
    }
}

/// The type of a cell.
fn type_of(types: &[Scalar], cell: usize) -> Scalar
    ensures { result ≡ slice_index_or types.now cell Int }
{
    match types.get(cell) {
        Some(ty) => *ty,
        None => Scalar::Int,
    }
}

/// Adds the numbers in the cells of a memory as a list.
pub(crate) fn put_memory<B: Allocator>(
    to: &mut Writer<B>,
    types: &[Scalar],
    words: &[u64],
) -> Result<(), AllocError>
    ensures { OnOk result (Appends to.old to.new (memory_list types.now words.now)) }
{
    to.begin_array()?;
    'words: for cell in 0..words.len() {
        put_word(to, type_of(types, cell), words[cell])?;
    }
    to.end_array()
}
