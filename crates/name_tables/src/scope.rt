//! The names that are known at a point of a body (C11 6.2.1).
//!
//! The map has for each name the number of declarations up to its newest one, and 0 for a name that is no longer known;
//! each declaration has that number as it was before. So neither a look-up nor the end of a block goes over other
//! declarations.

ghost use Rattle.std.specs.Prelude.{◌≡◌, ◌++◌, ◌∷◌, [], ◌-◌, ◌≤◌, length, take, OnOk, OnErr};
ghost use Rattle.name_tables.specs.Named.{newest};
ghost use Rattle.name_tables.specs.Known.{locals_in};
ghost use Rattle.name_tables.specs.inner.Numbers.{number_at};

use crate::entries::{LocalEntry, Scope};
use crate::hasher::Keyed;
use indexmap::IndexMap;
use std::alloc::{AllocError, Allocator};

/// The number of declarations up to the newest one of a name, or 0.
fn number_of<'a, A: Allocator>(numbers: &IndexMap<&'a str, usize, Keyed, A>, name: &str) -> usize
    ensures { result ≡ number_at numbers.now name.now }
{
    match numbers.get(name) {
        Some(number) => *number,
        None => 0,
    }
}

impl<'a, V: Copy + Drop, A: Allocator + Copy> Scope<'a, V, A> {
    /// No declarations, and the key of the hash (`Keyed`). Takes no memory.
    pub fn new(alloc: A, key: u64) -> Scope<'a, V, A>
        ensures { locals_in result ≡ [] }
    {
        Scope {
            numbers: IndexMap::with_hasher(alloc, Keyed::new(key)),
            locals: Vec::new(alloc),
        }
    }

    /// The number of declarations, hidden ones too: where a block begins.
    pub fn len(&self) -> usize
        ensures { result ≡ length (locals_in self.now) }
    {
        self.locals.len()
    }

    /// The newest declaration of a name: its index, from 0 and among all declarations, and its value; none for a name
    /// that is not known.
    pub fn newest(&self, name: &str) -> Option<(usize, V)>
        ensures { result ≡ newest (locals_in self.now) name.now }
    {
        let number = number_of(&self.numbers, name);
        if number == 0 {
            return None;
        }
        Some((number - 1, self.locals[number - 1].value))
    }

    /// One declaration more, whether the name is known or not. Takes memory for it; where that is refused, nothing
    /// changes.
    pub fn declare(&mut self, name: &'a str, value: V) -> Result<(), AllocError>
        ensures ok { OnOk result (locals_in self.new ≡ locals_in self.old ++ (name.now, value) ∷ []) }
        ensures err { OnErr result (locals_in self.new ≡ locals_in self.old) }
    {
        let hidden = number_of(&self.numbers, name);
        self.locals.push(LocalEntry {
            name,
            value,
            hidden,
        })?;
        match self.numbers.insert(name, self.locals.len()) {
            Ok(_) => Ok(()),
            Err(_) => {
                self.locals.pop();
                Err(AllocError)
            }
        }
    }

    /// The newest declaration is forgotten, and what it hid is known again.
    fn forget(&mut self)
        ensures { locals_in self.new ≡ take (length (locals_in self.old) - 1) (locals_in self.old) }
    {
        match self.locals.pop() {
            Some(local) => match self.numbers.insert(local.name, local.hidden) {
                Ok(_) => {}
                Err(_) => unreachable!(),
            },
            None => {}
        }
    }

    /// The end of a block, before which there were so many declarations: the later ones are forgotten, and what they
    /// hid is known again. Takes no memory.
    pub fn leave(&mut self, start: usize)
        requires { start ≤ length (locals_in self.old) }
        ensures { locals_in self.new ≡ take start (locals_in self.old) }
    {
        'each: for _ in start..self.len() {
            self.forget();
        }
    }
}
