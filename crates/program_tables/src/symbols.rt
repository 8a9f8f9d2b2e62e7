//! The table of what a program's names are first declared as.

ghost use Rattle.std.specs.Prelude.{◌≡◌, ◌∷◌, List, ℕ, map, if◌then◌else◌, bytes_eq, IfOk, OnOk};
ghost use Rattle.syntax.specs.Tree as tree;
ghost use Rattle.syntax.specs.Types as Types;
ghost use Rattle.syntax.specs.Types.{Known, Scope, known_among, file_scope};
ghost use Rattle.syntax.specs.Views.{global_of, item_of};
ghost use Rattle.program_tables.specs.Entries.{known_of};
ghost use Rattle.program_tables.specs.inner.Tables.{known_or, AreSymbols};
ghost use Rattle.name_tables.specs.Known.{entries_in};
ghost use Rattle.name_tables.specs.Named.{first};

use crate::entries::Symbol;
use crate::program::Symbols;
use lex::token::Scalar;
use name_tables::Table;
use std::alloc::{AllocError, Allocator};
use syntax::tree::{Global, Item};

impl<'p, A: Allocator> Symbol<'p, A> {
    /// Lends a symbol once more.
    pub(crate) fn reborrow(&self) -> Symbol<'p, A>
        ensures { result ≡ self.now }
    {
        match self {
            Symbol::Unknown => Symbol::Unknown,
            Symbol::Global(g) => Symbol::Global(*g),
            Symbol::Function(f) => Symbol::Function(*f),
        }
    }

    /// The type of a variable.
    pub fn number_type(&self) -> Option<Scalar>
        ensures { result ≡ Types.number_type (known_of self.now) }
    {
        match self {
            Symbol::Global(g) => match g.length {
                None => Some(g.ty),
                Some(_) => None,
            },
            _ => None,
        }
    }

    /// The type of an array's elements.
    pub fn element_type(&self) -> Option<Scalar>
        ensures { result ≡ Types.element_type (known_of self.now) }
    {
        match self {
            Symbol::Global(g) => match g.length {
                None => None,
                Some(_) => Some(g.ty),
            },
            _ => None,
        }
    }

    /// The type of a function's value.
    pub fn call_type(&self) -> Option<Scalar>
        ensures { result ≡ Types.call_type (known_of self.now) }
    {
        match self {
            Symbol::Function(f) => f.result,
            _ => None,
        }
    }
}

/// Adds what a name is declared as, unless it is declared already.
fn add_symbol<'p, A: Allocator + Copy>(
    symbols: &mut Symbols<'p, A>,
    name: &'p str,
    symbol: Symbol<'p, A>,
) -> Result<(), AllocError>
    ensures { OnOk result ((x : List ℕ) (rest : Known)
        → known_or (first (entries_in symbols.new) x) rest ≡ known_or (first (entries_in symbols.old) x)
        (if bytes_eq name.now x then known_of symbol.entry else rest)) }
{
    symbols.declare(name, symbol)?;
    Ok(())
}

/// Adds the globals of a declaration.
fn add_shared_symbols<'p, A: Allocator + Copy>(
    table: &mut Symbols<'p, A>,
    gs: &'p [Global<A>],
) -> Result<(), AllocError>
    ensures { OnOk result ((x : List ℕ) (rest : Scope)
        → known_or (first (entries_in table.new) x) (rest x) ≡ known_or (first (entries_in table.old) x)
        (known_among (map global_of gs.now) rest x)) }
{
    'globals: for g in gs {
        add_symbol(table, g.name.text.as_str(), Symbol::Global(g))?;
    }
    Ok(())
}

/// Adds what an item declares.
fn add_declared<'p, A: Allocator + Copy>(
    table: &mut Symbols<'p, A>,
    item: &'p Item<A>,
) -> Result<(), AllocError>
    ensures { OnOk result ((x : List ℕ) (rest : List tree.Item)
        → known_or (first (entries_in table.new) x) (file_scope rest x)
        ≡ known_or (first (entries_in table.old) x) (file_scope (item_of item.now ∷ rest) x)) }
{
    match item {
        Item::Function(f) => add_symbol(table, f.name.text.as_str(), Symbol::Function(f)),
        Item::Globals(gs) => add_shared_symbols(table, gs.as_slice()),
    }
}

/// What each name of the file is first declared as. Takes memory for the table.
pub(crate) fn place_symbols<'p, A: Allocator + Copy>(
    alloc: A,
    key: u64,
    items: &'p [Item<A>],
) -> Result<Symbols<'p, A>, AllocError>
    ensures { IfOk result (AreSymbols (map item_of items.now)) }
{
    let mut table = Table::new(alloc, key);
    'items: for item in items {
        add_declared(&mut table, item)?;
    }
    Ok(table)
}
