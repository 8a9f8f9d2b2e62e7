//! A program with the tables of its names.

ghost use Rattle.std.specs.Prelude.{◌≤◌};
ghost use Rattle.std.proofs.Props.{props};
ghost use mathlib.Core.Sum.{⊎_set};
ghost use Rattle.syntax.specs.Names as Names;
ghost use Rattle.syntax.specs.Views.{program_of};
ghost use Rattle.program_tables.specs.inner.Tables.{total_cells, AreFunctions, AreGlobals, AreSymbols};
ghost use Rattle.syntax.specs.declared.limits.TheConstants.{MOST_CELLS};

use crate::entries::{FunctionPlace, Shared, Symbol};
use name_tables::Table;
use std::alloc::Allocator;
use syntax::tree::Unit;

/// Each global, with its first cell.
pub(crate) type Globals<'p, A> = Table<'p, Shared<'p, A>, A>;

/// Where each function stands that has a body.
pub(crate) type Functions<'p, A> = Table<'p, FunctionPlace, A>;

/// What each name of the file is first declared as.
pub(crate) type Symbols<'p, A> = Table<'p, Symbol<'p, A>, A>;

/// A program with the tables of its names, and with at most so many cells as an accepted one has.
#[derive(Drop)]
pub struct ProgramTables<'p, A: Allocator> {
    /// Where memory is taken for what is made of the program.
    pub alloc: A,

    /// The program.
    pub unit: &'p Unit<A>,

    pub(crate) globals: Globals<'p, A>,
    pub(crate) functions: Functions<'p, A>,
    pub(crate) symbols: Symbols<'p, A>,
    ghost small: { total_cells (Names.globals (program_of unit.now)) ≤ MOST_CELLS },
    ghost shared: { AreGlobals (program_of unit.now) globals } by { Prim.hlevel (props, ⊎_set) },
    ghost defined: { AreFunctions (program_of unit.now) functions } by { Prim.hlevel (props, ⊎_set) },
    ghost declared: { AreSymbols (program_of unit.now) symbols } by { Prim.hlevel (props, ⊎_set) },
}
