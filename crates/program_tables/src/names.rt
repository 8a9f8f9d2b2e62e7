//! What the names of a program stand for.

ghost use Rattle.std.specs.Prelude.{◌≡◌, ◌+◌, ◌≤◌, option_map, IfSome};
ghost use Rattle.syntax.specs.Names as Names;
ghost use Rattle.syntax.specs.Types.{file_scope};
ghost use Rattle.syntax.specs.Views.{item_of};
ghost use Rattle.program_tables.specs.Functions.{function_named};
ghost use Rattle.program_tables.specs.inner.Tables.{numbered};
ghost use Rattle.program_tables.specs.Entries.{defined_in, function_in, known_of, shared_in};
ghost use Rattle.program_tables.specs.Views.{program_in};
ghost use Rattle.syntax.specs.declared.limits.TheConstants.{MOST_CELLS};

use crate::entries::{FunctionEntry, Shared, Symbol};
use crate::program::ProgramTables;
use std::alloc::Allocator;
use syntax::tree::Item;

/// The function to which an item gives a body, with this number.
fn entry_of<'p, A: Allocator>(number: usize, item: &'p Item<A>) -> Option<FunctionEntry<'p, A>>
    ensures { option_map function_in result ≡ numbered number (item_of item.now) }
{
    let Item::Function(function) = item else {
        return None;
    };
    let Some(body) = &function.body else {
        return None;
    };
    Some(FunctionEntry {
        number,
        function,
        body: body.as_slice(),
    })
}

impl<'p, A: Allocator + Copy> ProgramTables<'p, A> {
    /// A global of the program, with its first cell.
    pub fn global(&self, name: &str) -> Option<Shared<'p, A>>
        ensures value { option_map shared_in result ≡ Names.global_of (program_in self.now) name.now }
        ensures low { IfSome result (λ g. g.cell + Names.cells (shared_in g).global ≤ MOST_CELLS) }
    {
        self.globals.get(name).copied()
    }

    /// A function of the program that has a body, with its number.
    pub fn function(&self, name: &str) -> Option<FunctionEntry<'p, A>>
        ensures number { option_map function_in result ≡ function_named (program_in self.now) name.now }
        ensures definition { option_map defined_in result ≡ Names.definition_of (program_in self.now) name.now }
    {
        match self.functions.get(name) {
            Some(place) => {
                let items = self.unit.items.as_slice();
                entry_of(place.number, &items[place.item])
            }
            None => None,
        }
    }

    /// What a name is first declared as in the program.
    pub fn symbol(&self, name: &str) -> Symbol<'p, A>
        ensures { known_of result ≡ file_scope (program_in self.now) name.now }
    {
        match self.symbols.get(name) {
            Some(symbol) => symbol.reborrow(),
            None => Symbol::Unknown,
        }
    }
}
