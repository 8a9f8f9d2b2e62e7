//! The tables of the names that are known at a point of a text.

ghost use Rattle.name_tables.specs.Known.{entries_in};
ghost use Rattle.types.specs.inner.Symbols.{AreSymbols};

use crate::symbol::ScopeSymbol;
use lex::token::Scalar;
use name_tables::{Scope, Table};
use std::alloc::Allocator;
use syntax::tree::Function;

/// The names that are known at a point: those of the file, as each was first declared, and the locals.
#[derive(Drop)]
pub(crate) struct ScopeTable<'a, A: Allocator + Copy> {
    pub(crate) file: Table<'a, ScopeSymbol<'a, Function<A>>, A>,
    pub(crate) locals: Scope<'a, Scalar, A>,
    ghost symbols: { AreSymbols (entries_in file) },
}
