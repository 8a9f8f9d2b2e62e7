//! What is stored of names. The types stand apart from their calls: a ghost field's file may cite no definition that
//! reads the type, as those of the calls' contracts do.

ghost use Rattle.std.specs.Prelude.{◌≡◌};
ghost use Rattle.name_tables.specs.inner.Numbers.{AreHidden, AreNumbered};

use crate::hasher::Keyed;
use indexmap::IndexMap;
use std::alloc::Allocator;

/// What each name was first declared as, in order of declaration. A name is any text; two names are one where their
/// bytes are the same. Contracts see the list of names with their values (`entries_in`).
#[derive(Drop)]
pub struct Table<'a, V, A: Allocator> {
    pub(crate) map: IndexMap<&'a str, V, Keyed, A>,
}

/// A declaration, and how many declarations there were up to the newest earlier one of its name, or 0 where there was
/// none.
#[derive(Drop)]
pub(crate) struct LocalEntry<'a, V> {
    pub(crate) name: &'a str,
    pub(crate) value: V,
    pub(crate) hidden: usize,
}

/// The declarations that are known at a point of a body, in order: a later one hides an earlier one of its name.
/// Contracts see the list of names with their values (`locals_in`), those that are hidden too.
///
/// To enter a block is to note `len`, and to end it is to `leave` at that.
#[derive(Drop)]
pub struct Scope<'a, V, A: Allocator> {
    pub(crate) numbers: IndexMap<&'a str, usize, Keyed, A>,
    pub(crate) locals: Vec<LocalEntry<'a, V>, A>,
    ghost numbered: { AreNumbered numbers locals.items },
    ghost hidden: { AreHidden locals.items },
}
