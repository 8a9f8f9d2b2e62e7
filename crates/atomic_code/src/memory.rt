//! Memories of a code.

ghost use Rattle.std.specs.Prelude.{◌≡◌, ◌<◌, ◌↔◌, EachIndex, IsTrue, map, slice_index};
ghost use Rattle.syntax.specs.Behaviours.{IsMemory};
ghost use Rattle.syntax.specs.Names.{bounds_of as cell_bounds};
ghost use Rattle.syntax.specs.Numbers.{modulus};
ghost use Rattle.syntax.specs.Views.{global_of};
ghost use Rattle.bytecode.specs.Valid.{bounds_of};

use bytecode::Code;
use lex::token::Scalar;
use std::alloc::Allocator;
use syntax::tree::Global;

/// Whether these are words of a type.
fn are_words(ty: Scalar, words: &[u64]) -> bool
    ensures { IsTrue result ↔ EachIndex words.now (λ i. slice_index words.now i < modulus ty) }
{
    match ty {
        Scalar::Int | Scalar::Unsigned => words.iter().all(|word| *word < 4_294_967_296),
        Scalar::LongLong => true,
    }
}

/// Whether these are as many words as the globals have cells, each of its cell's type.
fn are_cells<A: Allocator>(globals: &[Global<A>], words: &[u64]) -> bool
    ensures { IsTrue result ↔ IsMemory (cell_bounds (map global_of globals.now)) words.now }
{
    let mut from: usize = 0;
    'each: for global in globals {
        let cells = global.cell_count();
        if cells > words.len() - from {
            return false;
        }
        if !are_words(global.ty, &words[from..from + cells]) {
            return false;
        }
        from += cells;
    }
    from == words.len()
}

/// Whether these are a memory of the code: for each cell a word of its type. Takes no memory.
pub fn is_memory<A: Allocator>(code: &Code<A>, words: &[u64]) -> bool
    ensures { IsTrue result ↔ IsMemory (bounds_of code.now) words.now }
{
    are_cells(code.globals(), words)
}
