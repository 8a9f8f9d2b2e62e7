//! The tables of a program's names are made.

ghost use Rattle.std.specs.Prelude.{◌≡◌, IfOk};

use crate::functions::place_functions;
use crate::globals::place_globals;
use crate::program::ProgramTables;
use crate::symbols::place_symbols;
use std::alloc::{AllocError, Allocator};
use types::Typed;

/// A typed program with the tables of its names. Takes memory for these.
pub fn tables<'p, A: Allocator + Copy>(
    alloc: A,
    typed: &'p Typed<A>,
) -> Result<ProgramTables<'p, A>, AllocError>
    ensures { IfOk result (λ t. t.unit.now ≡ typed.now.unit) }
{
    let unit = typed.unit();
    let key = unit.key;
    let globals = place_globals(alloc, key, unit.items.as_slice())?;
    let functions = place_functions(alloc, key, unit.items.as_slice())?;
    let symbols = place_symbols(alloc, key, unit.items.as_slice())?;
    Ok(ProgramTables {
        alloc,
        unit,
        globals,
        functions,
        symbols,
    })
}
