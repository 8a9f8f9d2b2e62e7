//! Names: what each is known as, and which are declared.

ghost use Rattle.std.specs.Prelude.{◌≡◌, ◌≤◌, ◌++◌, ◌∷◌, [], take, None, true, false, bytes_eq, if◌then◌else◌, OnOk};
ghost use Rattle.syntax.specs.Types.{file_scope};
ghost use Rattle.syntax.specs.Typing.{is_unknown};
ghost use Rattle.name_tables.specs.Named.{first, newest};
ghost use Rattle.types.specs.inner.Scopes.{known_of};
ghost use Rattle.types.specs.inner.Known.{known_as, known_in, locals_of, file_of, count_in, is_behind};

use crate::symbol::ScopeSymbol;
use crate::table::ScopeTable;
use lex::token::Scalar;
use name_tables::{Scope, Table};
use std::alloc::{AllocError, Allocator};
use syntax::tree::Function;

impl<'a, A: Allocator + Copy> ScopeTable<'a, A> {
    /// No names, whose hashes are by this key. Takes no memory.
    pub(crate) fn new(alloc: A, key: u64) -> ScopeTable<'a, A>
        ensures known { known_in result ≡ file_scope [] }
        ensures locals { count_in result ≡ 0 }
    {
        ScopeTable {
            file: Table::new(alloc, key),
            locals: Scope::new(alloc, key),
        }
    }

    /// The number of locals.
    pub(crate) fn len(&self) -> usize
        ensures { result ≡ count_in self.now }
    {
        self.locals.len()
    }

    /// What a name of the file is known as.
    fn look_in_file(&self, name: &'a str) -> ScopeSymbol<'a, Function<A>>
        ensures { known_of result ≡ known_as None (first (file_of self.now) name.now) }
    {
        match self.file.get(name) {
            Some(symbol) => *symbol,
            None => ScopeSymbol::Unknown,
        }
    }

    /// What a name is known as: a local hides a name of the file.
    pub(crate) fn look(&self, name: &'a str) -> ScopeSymbol<'a, Function<A>>
        ensures { known_of result ≡ known_in self.now name.now }
    {
        match self.locals.newest(name) {
            Some((_, ty)) => ScopeSymbol::Number(ty),
            None => self.look_in_file(name),
        }
    }

    /// Whether a local of this name was declared after so many locals.
    pub(crate) fn is_declared(&self, start: usize, name: &'a str) -> bool
        ensures { result ≡ is_behind start (newest (locals_of self.now) name.now) }
    {
        match self.locals.newest(name) {
            Some((index, _)) => start <= index,
            None => false,
        }
    }

    /// A further local, which hides what has its name. Takes memory for it.
    pub(crate) fn declare(&mut self, name: &'a str, ty: Scalar) -> Result<(), AllocError>
        ensures locals { OnOk result (locals_of self.new ≡ locals_of self.old ++ (name.now, ty) ∷ []) }
        ensures file { OnOk result (file_of self.new ≡ file_of self.old) }
    {
        self.locals.declare(name, ty)
    }

    /// The locals after so many of them are forgotten.
    pub(crate) fn leave(&mut self, start: usize)
        requires { start ≤ count_in self.old }
        ensures locals { locals_of self.new ≡ take start (locals_of self.old) }
        ensures file { file_of self.new ≡ file_of self.old }
    {
        self.locals.leave(start);
    }

    /// A further name of the file, where no local is known. Takes memory for it.
    pub(crate) fn define(
        &mut self,
        name: &'a str,
        symbol: ScopeSymbol<'a, Function<A>>,
    ) -> Result<(), AllocError>
        requires none { count_in self.old ≡ 0 }
        requires new { is_unknown (known_in self.old name.now) ≡ true }
        requires symbol { is_unknown (known_of symbol) ≡ false }
        ensures known { OnOk result
            (known_in self.new ≡ (λ x. if bytes_eq name.now x then known_of symbol.entry else known_in self.old x)) }
        ensures none { count_in self.new ≡ 0 }
    {
        self.file.declare(name, symbol)?;
        Ok(())
    }
}
