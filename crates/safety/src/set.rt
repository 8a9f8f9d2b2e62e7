//! Sets of functions, and the links that they keep to.

ghost use Rattle.std.specs.Prelude.{◌≡◌, Some, None};
ghost use Rattle.safety.specs.Sets.{link_of, set_of};

use name_tables::Table;
use std::alloc::Allocator;

/// Where the callee is in a set, so is the caller; without a callee the caller is in it anyhow.
#[derive(Clone, Copy)]
pub struct Link<'a> {
    pub caller: &'a str,
    pub callee: Option<&'a str>,
}

impl<'a> Link<'a> {
    /// That this function is in the set.
    pub fn member(caller: &'a str) -> Link<'a>
        ensures { link_of result ≡ record { caller = caller.now; callee = None } }
    {
        Link {
            caller,
            callee: None,
        }
    }

    /// That this function is in the set where that one is, which it calls.
    pub fn call(caller: &'a str, callee: &'a str) -> Link<'a>
        ensures { link_of result ≡ record { caller = caller.now; callee = Some callee.now } }
    {
        Link {
            caller,
            callee: Some(callee),
        }
    }
}

/// A set of functions, which tells of a name whether it is in it.
#[derive(Drop)]
pub struct FunctionSet<'a, A: Allocator = std::alloc::Global> {
    pub(crate) numbers: Table<'a, usize, A>,
    pub(crate) members: Vec<bool, A>,
}

impl<'a, A: Allocator + Copy> FunctionSet<'a, A> {
    /// Whether the function of this name is in the set.
    pub fn contains(&self, name: &'a str) -> bool
        ensures { result ≡ set_of self.now name.now }
    {
        match self.numbers.get(name) {
            Some(number) => self.members.get(*number).copied().unwrap_or(false),
            None => false,
        }
    }
}
