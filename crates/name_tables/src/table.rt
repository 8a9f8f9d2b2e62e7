//! Tables of names.

ghost use Rattle.std.specs.Prelude.{◌≡◌, [], length, not, is_some, IfOk, OnOk, OnErr};
ghost use Rattle.std.specs.Option.{option_copied};
ghost use Rattle.name_tables.specs.Named.{first, first_index, with_declaration};
ghost use Rattle.name_tables.specs.Known.{entries_in};

use crate::entries::Table;
use crate::hasher::Keyed;
use indexmap::IndexMap;
use std::alloc::{AllocError, Allocator};

impl<'a, V: Drop, A: Allocator + Copy> Table<'a, V, A> {
    /// No names, and the key of the hash (`Keyed`). Takes no memory.
    pub fn new(alloc: A, key: u64) -> Table<'a, V, A>
        ensures { entries_in result ≡ [] }
    {
        Table {
            map: IndexMap::with_hasher(alloc, Keyed::new(key)),
        }
    }

    /// The number of names.
    pub fn len(&self) -> usize
        ensures { result ≡ length (entries_in self.now) }
    {
        self.map.len()
    }

    /// What a name was first declared as; none for a name that was not declared.
    pub fn get(&self, name: &str) -> Option<&V>
        ensures { option_copied result ≡ first (entries_in self.now) name.now }
    {
        self.map.get(name)
    }

    /// The index of a name, from 0, in the order in which names were first declared; none for a name that was not
    /// declared.
    pub fn index_of(&self, name: &str) -> Option<usize>
        ensures { result ≡ first_index (entries_in self.now) name.now }
    {
        self.map.get_index_of(name)
    }

    /// Declares a name, and answers whether it is new: one that is there keeps what it was first declared as. Takes
    /// memory for a new name; where that is refused, nothing changes.
    pub fn declare(&mut self, name: &'a str, value: V) -> Result<bool, AllocError>
        ensures new { IfOk result (λ new. new ≡ not (is_some (first (entries_in self.old) name.now))) }
        ensures ok { OnOk result (entries_in self.new ≡ with_declaration (entries_in self.old) name.now value) }
        ensures err { OnErr result (entries_in self.new ≡ entries_in self.old) }
    {
        if self.map.contains_key(name) {
            return Ok(false);
        }
        match self.map.insert(name, value) {
            Ok(_) => Ok(true),
            Err(_) => Err(AllocError),
        }
    }
}
