//! Laws of the meaning of programs. A law has no code: its contract is its statement.

ghost use Rattle.syntax.specs.Laws.{BeginsWithMemory, GivesItsType, GivesWords, GoesOn, KeepsLocals, KeepsOlderLocals};
ghost use Rattle.syntax.specs.Laws.{LeavesMemories, LeftAsManyAsFound, LoopIsItsTurns, MoreFounds, MoreMemories};
ghost use Rattle.syntax.specs.Laws.{MoreTicks, NeverMoreLeft, OneTickMore, StaysInContext, TicksNeverGrow, WordsStay};
ghost use Rattle.syntax.specs.OrderLaws.{OrdersAreRuns, RunsAreOrders};

/// How a thread continues. One that is not out of fuel does the same with more ticks, and one that needs no memory
/// either does the same with further memories too; any thread begins with what it did before. One more tick shows at
/// most one more piece, or one more post-state, and never both. A piece is a run of literal text in a format of the
/// program, or a number in decimal.
pub fn threads_go_on()
    ensures ticks { MoreTicks }
    ensures memories { MoreMemories }
    ensures founds { MoreFounds }
    ensures both { GoesOn }
    ensures one_tick { OneTickMore }
{}

/// Which memories a thread leaves: one for each pre-state if it needs a further one, and never more than it was given.
/// The initial memory has for each cell a word of the cell's type, and a thread of a typed program that is given such
/// memories leaves such memories.
pub fn threads_leave_memories()
    ensures wanting { LeftAsManyAsFound }
    ensures never_more { NeverMoreLeft }
    ensures first { BeginsWithMemory }
    ensures memories { LeavesMemories }
{}

/// Invariants of expressions and statements. They gain no ticks; they end inside the transaction in which they begin
/// or, outside, leave a post-state for each pre-state; in a typed program words stay words of their types, and memories
/// those of the program. An expression leaves the local variables unchanged, and after a statement the locals begin,
/// by name and type, with those before it.
pub fn statements_keep()
    ensures ticks { TicksNeverGrow }
    ensures context { StaysInContext }
    ensures words { WordsStay }
    ensures locals { KeepsLocals }
    ensures older_locals { KeepsOlderLocals }
{}

/// The types of values. In a typed program the value of an expression has the expression's type. An operator
/// on two words of a type gives a word of its result's type or traps, and a conversion gives a word of its type.
pub fn values_fit()
    ensures types { GivesItsType }
    ensures words { GivesWords }
{}

/// A loop is its iteration, for one tick, and then the loop again if the iteration did not end it.
pub fn a_loop_is_its_turns()
    ensures { LoopIsItsTurns }
{}

/// Orders and runs. A run whose threads make their steps within this many ticks is the order of its steps; and each
/// order is a run.
pub fn orders_show_runs()
    ensures runs { RunsAreOrders }
    ensures orders { OrdersAreRuns }
{}
