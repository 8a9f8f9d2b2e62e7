//! The locals that are known at a point of a body.

ghost use Rattle.std.specs.Prelude.{◌≡◌, ◌≤◌, [], length, take, OnOk};
ghost use Rattle.syntax.specs.Names as Names;
ghost use Rattle.lower_spec.specs.Statements.{with_local};
ghost use Rattle.lower_exprs.specs.Views.{scope_in};

use lex::token::Scalar;
use program_tables::ProgramTables;
use std::alloc::{AllocError, Allocator};

/// The locals that are known at a point, in order of declaration: a local's number is its register.
#[derive(Drop)]
pub struct LocalRegisters<'p, A: Allocator> {
    pub(crate) known: name_tables::Scope<'p, Scalar, A>,
}

impl<'p, A: Allocator + Copy> LocalRegisters<'p, A> {
    /// No locals of a program. Takes no memory.
    pub fn new(names: &ProgramTables<'p, A>) -> LocalRegisters<'p, A>
        ensures { scope_in result ≡ [] }
    {
        LocalRegisters {
            known: name_tables::Scope::new(names.alloc, names.unit.key),
        }
    }

    /// The number of locals, which is the first register that is free.
    pub fn len(&self) -> usize
        ensures { result ≡ length (scope_in self.now) }
    {
        self.known.len()
    }

    /// The newest local of a name: its register and its type.
    pub(crate) fn newest(&self, name: &str) -> Option<(usize, Scalar)>
        ensures { result ≡ Names.newest (scope_in self.now) name.now }
    {
        self.known.newest(name)
    }

    /// One local more.
    pub fn declare(&mut self, name: &'p str, ty: Scalar) -> Result<(), AllocError>
        ensures { OnOk result (scope_in self.new ≡ with_local (scope_in self.old) name.now ty) }
    {
        self.known.declare(name, ty)
    }

    /// The locals after so many of them are forgotten.
    pub fn leave(&mut self, count: usize)
        requires { count ≤ length (scope_in self.old) }
        ensures { scope_in self.new ≡ take count (scope_in self.old) }
    {
        self.known.leave(count);
    }
}
