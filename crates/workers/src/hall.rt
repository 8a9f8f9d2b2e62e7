//! The table of words that the workers share.

ghost use Rattle.std.specs.Prelude.{◌≡◌, ◌+◌, ◌<◌};
ghost use Rattle.bytecode.specs.Valid.{cells_of};

use crate::right_of_way::RightOfWay;
use shared_words::{Setup, WordsTable};
use std::alloc::{Allocator, Global};

/// The lock and the cells, which the workers share, and the hall's copy of the code, which each step borrows. It can be
/// lent to any number of threads.
#[derive(Drop)]
pub struct Hall<A: Allocator = Global> {
    pub(crate) table: WordsTable<A>,
    pub(crate) setup: Setup<A>,
    pub(crate) right_of_way: RightOfWay,
    ghost key: { table.shared.key ≡ setup },
    ghost wide: { table.shared.table_id.words ≡ cells_of setup.code + 1 },
    ghost no_slot: { table.shared.table_id.slots ≡ 0 },
    ghost some_thread: { 0 < setup.threads },
}
