//! The table of a program's globals.

ghost use Rattle.std.specs.Prelude.{◌≡◌, ◌+◌, ◌≤◌, ◌++◌, List, ℕ, Option, Some, map, if◌then◌else◌, bytes_eq};
ghost use Rattle.std.specs.Prelude.{IfOk, OnOk};
ghost use Rattle.std.specs.Option.{option_or};
ghost use Rattle.syntax.specs.Tree as tree;
ghost use Rattle.syntax.specs.Names as Names;
ghost use Rattle.syntax.specs.Names.{GlobalCells, globals};
ghost use Rattle.syntax.specs.Views.{global_of, item_of};
ghost use Rattle.program_tables.specs.inner.Tables.{total_cells, shared_at, AreGlobals};
ghost use Rattle.syntax.specs.declared.limits.TheConstants.{MOST_CELLS};

use crate::entries::Shared;
use crate::program::Globals;
use name_tables::Table;
use std::alloc::{AllocError, Allocator};
use syntax::tree::{Global, Item};

/// Adds a global with this first cell, unless there is one of its name.
fn add_global<'p, A: Allocator + Copy>(
    table: &mut Globals<'p, A>,
    cell: usize,
    g: &'p Global<A>,
) -> Result<(), AllocError>
    ensures { OnOk result ((x : List ℕ) (rest : Option GlobalCells) → option_or (shared_at table.new x) rest
        ≡ option_or (shared_at table.old x)
        (if bytes_eq g.now.name.text x then Some (record { global = global_of g.now; cell = cell }) else rest)) }
{
    table.declare(g.name.text.as_str(), Shared { cell, global: g })?;
    Ok(())
}

/// Adds the globals of a declaration, from this cell on; the cell behind them.
fn add_globals<'p, A: Allocator + Copy>(
    table: &mut Globals<'p, A>,
    first: usize,
    gs: &'p [Global<A>],
) -> Result<usize, AllocError>
    requires { first + total_cells (map global_of gs.now) ≤ MOST_CELLS }
    ensures value { IfOk result (λ next. (x : List ℕ) (rest : List tree.Global) →
        option_or (shared_at table.new x) (Names.global_from next rest x)
        ≡ option_or (shared_at table.old x) (Names.global_from first (map global_of gs.now ++ rest) x)) }
    ensures next { IfOk result (λ next. next ≡ first + total_cells (map global_of gs.now)) }
{
    let mut cell = first;
    'globals: for g in gs {
        add_global(table, cell, g)?;
        cell += g.cell_count();
    }
    Ok(cell)
}

/// Each global of a program, with its first cell: the first one of its name. Takes memory for the table.
pub(crate) fn place_globals<'p, A: Allocator + Copy>(
    alloc: A,
    key: u64,
    items: &'p [Item<A>],
) -> Result<Globals<'p, A>, AllocError>
    requires { total_cells (globals (map item_of items.now)) ≤ MOST_CELLS }
    ensures { IfOk result (AreGlobals (map item_of items.now)) }
{
    let mut table = Table::new(alloc, key);
    let mut cell = 0;
    'items: for item in items {
        match item {
            Item::Function(_) => {}
            Item::Globals(gs) => cell = add_globals(&mut table, cell, gs.as_slice())?,
        }
    }
    Ok(table)
}
