//! The table of a program's functions.

ghost use Rattle.std.specs.Prelude.{◌≡◌, List, ℕ, Option, Some, map, if◌then◌else◌, bytes_eq, IfOk, OnOk};
ghost use Rattle.std.specs.Option.{option_or};
ghost use Rattle.name_tables.specs.Known.{entries_in};
ghost use Rattle.name_tables.specs.Named.{first};
ghost use Rattle.syntax.specs.Views.{item_of};
ghost use Rattle.program_tables.specs.declared.entries.FunctionPlace.{FunctionPlace as Place};
ghost use Rattle.program_tables.specs.inner.Tables.{AreFunctions};

use crate::entries::FunctionPlace;
use crate::program::Functions;
use name_tables::Table;
use std::alloc::{AllocError, Allocator};
use syntax::tree::{Function, Item};

/// Adds where a function stands, unless there is one of its name.
fn add_function<'p, A: Allocator + Copy>(
    table: &mut Functions<'p, A>,
    place: FunctionPlace,
    f: &'p Function<A>,
) -> Result<(), AllocError>
    ensures { OnOk result ((x : List ℕ) (rest : Option Place) → option_or (first (entries_in table.new) x) rest
        ≡ option_or (first (entries_in table.old) x) (if bytes_eq f.now.name.text x then Some place else rest)) }
{
    table.declare(f.name.text.as_str(), place)?;
    Ok(())
}

/// Where each function stands that has a body: the first one of its name. Takes memory for the table.
pub(crate) fn place_functions<'p, A: Allocator + Copy>(
    alloc: A,
    key: u64,
    items: &'p [Item<A>],
) -> Result<Functions<'p, A>, AllocError>
    ensures { IfOk result (AreFunctions (map item_of items.now)) }
{
    let mut table = Table::new(alloc, key);
    let mut number = 0;
    'items: for i in 0..items.len() {
        match &items[i] {
            Item::Function(f) => {
                if f.body.is_some() {
                    add_function(&mut table, FunctionPlace { item: i, number }, f)?;
                    number += 1;
                }
            }
            Item::Globals(_) => {}
        }
    }
    Ok(table)
}
