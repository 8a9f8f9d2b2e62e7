//! The initial words of a global's cells.

ghost use Rattle.std.specs.Prelude.{◌≡◌, ◌++◌, map, replicate, OnOk};
ghost use Rattle.syntax.specs.Names.{cells, first_value, first_word, first_words};
ghost use Rattle.syntax.specs.Views.{global_of};

use crate::number::{number, word_of};
use crate::tree::{Global, Initialiser};
use lex::token::Scalar;
use std::alloc::{AllocError, Allocator};

impl Initialiser {
    /// The word of the number in the constant's own type.
    fn own_word(self) -> u64
        ensures { result ≡ (first_value self).word }
    {
        let value = i128::from(self.value);
        word_of(self.ty, if self.negative { -value } else { value })
    }

    /// The word of the number in a global of this type (C11 6.7.9, 6.3.1.3). The `-` belongs to the constant's own
    /// type.
    pub fn word(self, ty: Scalar) -> u64
        ensures { result ≡ first_word ty self }
    {
        let own = number(self.ty, self.own_word());
        word_of(ty, i128::from(own))
    }
}

impl<A: Allocator> Global<A> {
    /// How many cells the global has: an array's length, or 1.
    pub fn cell_count(&self) -> usize
        ensures { result ≡ cells (global_of self.now) }
    {
        match self.length {
            Some((count, _)) => count as usize,
            None => 1,
        }
    }
}

/// Adds the words of the initialisers for cells of this type.
fn push_firsts<A: Allocator>(
    words: &mut Vec<u64, A>,
    ty: Scalar,
    firsts: &[Initialiser],
) -> Result<(), AllocError>
    ensures { OnOk result (words.new.items ≡ words.old.items ++ map (first_word ty) firsts.now) }
{
    'firsts: for first in firsts {
        words.push(first.word(ty))?;
    }
    Ok(())
}

/// Adds cells that contain 0.
fn push_zeros<A: Allocator>(words: &mut Vec<u64, A>, count: usize) -> Result<(), AllocError>
    ensures { OnOk result (words.new.items ≡ words.old.items ++ replicate count 0) }
{
    'zeros: for _ in 0..count {
        words.push(0)?;
    }
    Ok(())
}

/// Adds the words of a global, one for each cell: those of the initialisers, and else 0.
pub fn push_global<A: Allocator, B: Allocator>(
    words: &mut Vec<u64, B>,
    global: &Global<A>,
) -> Result<(), AllocError>
    ensures { OnOk result (words.new.items ≡ words.old.items ++ first_words (global_of global.now)) }
{
    let firsts = global.first.as_slice();
    let cells = global.cell_count();
    let given = cells.min(firsts.len());
    push_firsts(words, global.ty, &firsts[..given])?;
    push_zeros(words, cells.saturating_sub(firsts.len()))
}
