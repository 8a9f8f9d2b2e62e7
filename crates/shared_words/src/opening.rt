//! How a table is opened.

ghost use Rattle.std.specs.Prelude.{◌≡◌, ◌+◌, ◌∷◌, [], IfOk, OnOk};
ghost use Rattle.bytecode.specs.Initial.{initial_of};
ghost use Rattle.bytecode.specs.Valid.{cells_of, IsValid};
ghost use Rattle.shared_words.specs.Views.{first_view};

use crate::rule::{Ruled, Setup, View};
use atomic_table::{Seat, Table};
use bytecode::Code;
use std::alloc::{AllocError, Allocator};

/// The table, which owns the words.
pub type WordsTable<A> = Table<(), View, Setup<A>, Ruled, A>;

/// The lock, which is free, and the first word of each cell.
fn opening_words<A: Allocator + Copy>(alloc: A, code: &Code<A>) -> Result<Vec<u64, A>, AllocError>
    ensures words { IfOk result (λ v. v.items ≡ 0 ∷ initial_of code.now) }
    ensures valid { OnOk result (IsValid code.now) }
{
    let mut words = Vec::new(alloc);
    words.push(0)?;
    code.push_initial(&mut words)?;
    Ok(words)
}

/// A table whose lock is free and whose cells have their first words, and a seat that speaks for all threads, each at
/// its beginning. An `Err` comes only where a growth is refused.
pub fn open<A: Allocator + Copy>(
    alloc: A,
    setup: &Setup<A>,
) -> Result<(WordsTable<A>, Seat<(), View>), AllocError>
    ensures words { IfOk result (λ r. r.0.shared.table_id.words ≡ cells_of setup.now.code + 1) }
    ensures slots { IfOk result (λ r. r.0.shared.table_id.slots ≡ 0) }
    ensures key { IfOk result (λ r. r.0.shared.key ≡ setup.now) }
    ensures table { IfOk result (λ r. r.1.table_id ≡ r.0.shared.table_id) }
    ensures seat { IfOk result (λ r. r.1.me ≡ (first_view setup.now, [])) }
    ensures valid { OnOk result (IsValid setup.now.code) }
{
    let words = opening_words(alloc, setup.code())?;
    Table::of_words(alloc, words.as_slice(), setup)
}
