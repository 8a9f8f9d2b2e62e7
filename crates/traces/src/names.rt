//! The names of cells.

ghost use Rattle.std.specs.Prelude.{◌≡◌, ◌++◌, IfOk, OnOk, map, option_map, unwrap_or};
ghost use Rattle.syntax.specs.Names.{globals};
ghost use Rattle.syntax.specs.Views.{global_of, item_of, program_of};
ghost use Rattle.traces.specs.Names.{cell_count, cell_of, index_words, named_global, names_of as names_by};
ghost use Rattle.traces.specs.Turns.{Named as PlainNamed};
ghost use Rattle.traces.specs.Views.{named_of};

use crate::push::{push_bytes, push_number};
use crate::turn::Named;
use containers::{Copied, Items};
use lex::token::Scalar;
use std::alloc::{AllocError, Allocator};
use syntax::tree::{Global, Item, Unit};

/// The name of a global.
fn named<A: Allocator + Copy>(alloc: A, global: &Global<A>) -> Result<Named<A>, AllocError>
    ensures { IfOk result (λ n. named_of n ≡ named_global (global_of global.now)) }
{
    let length = match global.length {
        Some((length, _)) => Some(length),
        None => None,
    };
    Ok(Named {
        name: global.name.text.copy(alloc)?,
        ty: global.ty,
        length,
    })
}

/// Adds the names of globals.
fn push_globals<A: Allocator + Copy>(
    alloc: A,
    names: &mut Items<Named<A>, A>,
    globals: &[Global<A>],
) -> Result<(), AllocError>
    ensures { OnOk result (map named_of names.new ≡ map named_of names.old
        ++ map named_global (map global_of globals.now)) }
{
    'globals: for global in globals {
        names.push(named(alloc, global)?)?;
    }
    Ok(())
}

/// Adds the names of the globals of items.
fn push_items<A: Allocator + Copy>(
    alloc: A,
    names: &mut Items<Named<A>, A>,
    items: &[Item<A>],
) -> Result<(), AllocError>
    ensures { OnOk result (map named_of names.new ≡ map named_of names.old
        ++ map named_global (globals (map item_of items.now))) }
{
    'items: for item in items {
        if let Item::Globals(globals) = item {
            push_globals(alloc, names, globals.as_slice())?;
        }
    }
    Ok(())
}

/// The globals of a program, in order of declaration.
pub fn names_of<A: Allocator + Copy>(
    alloc: A,
    unit: &Unit<A>,
) -> Result<Items<Named<A>, A>, AllocError>
    ensures { IfOk result (λ r. map named_of r ≡ names_by (program_of unit.now)) }
{
    let mut names = Items::new(alloc);
    push_items(alloc, &mut names, unit.items.as_slice())?;
    Ok(names)
}

/// How many cells a global has.
fn cell_count<A: Allocator>(global: &Named<A>) -> usize
    ensures { result ≡ cell_count (named_of global.now) }
{
    match global.length {
        Some(length) => length as usize,
        None => 1,
    }
}

/// The name of a cell of a global.
fn name_of_cell<A: Allocator + Copy>(
    alloc: A,
    global: &Named<A>,
    cell: usize,
) -> Result<Vec<u8, A>, AllocError>
    ensures { IfOk result (λ r. r.items ≡ global.now.name ++ index_words global.now.length cell) }
{
    let mut name = Vec::from_slice(alloc, global.name.as_str().as_bytes())?;
    if let Some(_) = global.length {
        push_bytes(&mut name, b"[")?;
        push_number(&mut name, cell as u64)?;
        push_bytes(&mut name, b"]")?;
    }
    Ok(name)
}

/// The name and the type of a cell.
pub fn named_cell<A: Allocator + Copy>(
    alloc: A,
    names: &[Named<A>],
    cell: usize,
) -> Result<(Vec<u8, A>, Scalar), AllocError>
    ensures name { IfOk result (λ r. r.0.items ≡ (cell_of (map named_of names.now) cell).name) }
    ensures ty { IfOk result (λ r. r.1 ≡ (cell_of (map named_of names.now) cell).ty) }
{
    let mut rest = cell;
    'globals: for global in names {
        let count = cell_count(global);
        if rest < count {
            return Ok((name_of_cell(alloc, global, rest)?, global.ty));
        }
        rest -= count;
    }
    Ok((Vec::new(alloc), Scalar::Int))
}
