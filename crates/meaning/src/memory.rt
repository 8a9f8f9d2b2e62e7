//! The memory in which a program begins.

ghost use Rattle.std.specs.Prelude.{◌≡◌, ◌++◌, map, IfOk, OnOk};
ghost use Rattle.syntax.specs.Views.{program_of, item_of, global_of};
ghost use Rattle.syntax.specs.Names.{globals, initial_from, initial_memory as initial_memory_of};

use std::alloc::{AllocError, Allocator};
use syntax::initial::push_global;
use syntax::tree::{Global, Item, Unit};

/// Adds the words of globals.
fn push_globals<A: Allocator>(memory: &mut Vec<u64, A>, all: &[Global<A>]) -> Result<(), AllocError>
    ensures { OnOk result (memory.new.items ≡ memory.old.items ++ initial_from (map global_of all.now)) }
{
    'all: for global in all {
        push_global(memory, global)?;
    }
    Ok(())
}

/// Adds the words of the globals among items.
fn push_items<A: Allocator>(memory: &mut Vec<u64, A>, items: &[Item<A>]) -> Result<(), AllocError>
    ensures { OnOk result (memory.new.items ≡ memory.old.items ++ initial_from (globals (map item_of items.now))) }
{
    'items: for item in items {
        match item {
            Item::Globals(all) => push_globals(memory, all.as_slice())?,
            Item::Function(_) => {}
        }
    }
    Ok(())
}

/// The memory in which a program begins: a word for each cell, the one that its initialiser gives, or else 0.
pub(crate) fn initial_memory<A: Allocator + Copy>(
    alloc: A,
    unit: &Unit<A>,
) -> Result<Vec<u64, A>, AllocError>
    ensures { IfOk result (λ m. m.items ≡ initial_memory_of (program_of unit.now)) }
{
    let mut memory = Vec::new(alloc);
    push_items(&mut memory, unit.items.as_slice())?;
    Ok(memory)
}
