//! The memory in which the threads of a code begin, and the words as its cells store them.

ghost use Rattle.std.specs.Prelude.{◌≡◌, ◌++◌, ◌<◌, length, OnOk};
ghost use Rattle.syntax.specs.Numbers.{residue};
ghost use Rattle.bytecode.specs.Code.{bounds_of, word_for_cell};
ghost use Rattle.bytecode.specs.Initial.{initial_of};
ghost use Rattle.bytecode.specs.Valid.{IsValid};

use crate::code::Code;
use lex::token::Scalar;
use std::alloc::{AllocError, Allocator};
use syntax::initial::push_global;

/// The residue of a word for a type.
fn value_by_type(ty: Scalar, word: u64) -> u64
    ensures { result ≡ residue ty word }
{
    match ty {
        Scalar::Int | Scalar::Unsigned => word % 4294967296,
        Scalar::LongLong => word,
    }
}

impl<A: Allocator> Code<A> {
    /// Adds the first word of each cell, in order: that of its initialiser, or else 0. After an `Err`, which comes only
    /// from an allocation failure, some of them are added.
    pub fn push_initial<B: Allocator>(&self, words: &mut Vec<u64, B>) -> Result<(), AllocError>
        ensures words { OnOk result (words.new.items ≡ words.old.items ++ initial_of self.now) }
        ensures valid { IsValid self.now }
    {
        // The prover learns here that the code is valid.
        self.note_valid();
        'globals: for global in self.globals() {
            push_global(words, global)?;
        }
        Ok(())
    }

    /// A word as a cell stores it: its residue for the cell's type. Visits each global up to the cell's.
    pub fn stored_word(&self, cell: u32, word: u64) -> u64
        requires { cell < length (bounds_of self.now) }
        ensures { result ≡ word_for_cell self.now cell word }
    {
        let mut left = cell as usize;
        'each: for global in self.globals() {
            let cells = global.cell_count();
            if left < cells {
                return value_by_type(global.ty, word);
            }
            left -= cells;
        }
        word
    }
}
