//! How a table is closed.

ghost use Rattle.std.specs.Prelude.{◌≡◌, ◌+◌, ◌≤◌, []};
ghost use Rattle.std.specs.Vec.{vec_capacity};
ghost use Rattle.bytecode.specs.Valid.{cells_of};
ghost use Rattle.shared_words.specs.Rule.{LeavesCells};

use crate::opening::WordsTable;
use crate::rule::View;
use atomic_table::Seat;
use std::alloc::Allocator;

/// The cells' words, which are put into the list that is handed in; its room is there already.
pub fn close<A: Allocator>(
    table: WordsTable<A>,
    seat: Seat<(), View>,
    mut cells: Vec<u64, A>,
) -> Vec<u64, A>
    requires table { seat.table_id ≡ table.shared.table_id }
    requires words { table.shared.table_id.words ≡ cells_of table.shared.key.code + 1 }
    requires slots { table.shared.table_id.slots ≡ 0 }
    requires room { (cells.items ≡ []) × (cells_of table.shared.key.code ≤ vec_capacity cells) }
    ensures { LeavesCells table.shared.key seat.id seat.me result.items }
{
    let count = table.word_count() - 1;
    let closed = table.close_with(seat);
    'cells: for cell in 0..count {
        cells.push_reserved(closed.word(cell + 1));
    }
    closed.free();
    cells
}
