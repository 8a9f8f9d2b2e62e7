//! Theorems about programs, their code and reports. A theorem has no code: its contract is what it states.

ghost use Rattle.std.specs.Prelude.{◌≤◌, ◌^◌, ℕ, List};
ghost use Rattle.syntax.specs.Names.{bounds, initial_memory};
ghost use Rattle.syntax.specs.Threads.{thread};
ghost use Rattle.syntax.specs.Tree.{Program};
ghost use Rattle.separation.specs.Touching.{IsAccepted};
ghost use Rattle.bytecode.specs.Beginning.{beginning};
ghost use Rattle.bytecode.specs.Code.{Code as Plain, effect};
ghost use Rattle.bytecode.specs.Valid.{IsValid};
ghost use Rattle.machine.specs.Serializable.{IsOpaque};
ghost use Rattle.serving.specs.Certified.{OneReportIsPrinted};
ghost use Rattle.serving.specs.Codes.{IsCodeOf};
ghost use Rattle.serving.specs.Laws.{AcceptedAreNotRefused, AcceptedPassLimits, ConcurrentRunsAreOrders};
ghost use Rattle.serving.specs.Laws.{ConcurrentRunsLeaveOrders, OrdersAreListed, ReplaysAreOrders, ReplaysLeaveOrders};
ghost use Rattle.serving.specs.Laws.{PropertiesHoldInReports, PropertiesHoldInWorlds, PropertiesHoldOfSharedWords};
ghost use Rattle.serving.specs.Laws.{RefinedReportsAreOutcomes};
ghost use Rattle.serving.specs.Possible.{OrdersAreReplays, OutcomesAreDone};

use bytecode::laws::valid_code_fits_its_cells;
use lex::laws::{one_list_of_tokens, tokens_leave_no_fault};
use parse::one_tree;
use safety::laws::a_safe_program_has_no_fault;
use separation::laws::a_fault_touches;
use syntax::laws::{orders_show_runs, threads_go_on, threads_leave_memories};

/// The machine's theorem, stated for programs. It covers every accepted program, every valid code that means it and has
/// its globals, every number of threads, and every list of steps. A run of the source, in which each transaction is a
/// single step, then explains the threads' output and ends, the words, and each attempt (`machine::laws::opaque` says
/// how). `lower` generates such code.
pub fn accepted_programs_are_opaque()
    ensures { (p : Program) (code : Plain) (threads : ℕ) (steps : List ℕ) →
        IsAccepted p → IsValid code → IsCodeOf p code → threads ≤ 2 ^ 32 →
        IsOpaque (effect code) (beginning code) (thread p) (bounds p) (initial_memory p) threads steps }
{
    valid_code_fits_its_cells();
    threads_leave_memories();
}

/// Every run prints what an order prints. Suppose that each thread has ended or trapped. Then a run of all threads at
/// once shows exactly what the source's threads show in some order of whole transactions, with some number of ticks. A
/// replay's report shows the same after its events. Now suppose that threads of either still run, but none has the
/// lock. Then some order leaves the globals. Each thread that has ended or trapped shows what it shows there. Any other
/// thread has printed what the source's thread prints in that order with some number of ticks of its own.
pub fn reports_are_orders()
    ensures runs { ConcurrentRunsAreOrders }
    ensures replays { ReplaysAreOrders }
    ensures runs_left { ConcurrentRunsLeaveOrders }
    ensures left { ReplaysLeaveOrders }
{
    orders_show_runs();
    threads_go_on();
    threads_leave_memories();
}

/// A list of all outcomes has every report. If all outcomes of a source were listed, the list has whatever its threads
/// show in some order, with any number of ticks, if each of them has ended or trapped. The list also has what a run of
/// of all threads at once shows: `reports_are_orders` states that this is what an order shows.
pub fn orders_are_listed()
    ensures { OrdersAreListed }
{
    one_list_of_tokens();
    one_tree();
}

/// The machine can reach whatever orders show.
///
/// Each order of the source in which no thread runs out of fuel has lines of a schedule: each thread, alone, runs to
/// its quiescent state, and then has its turns of the order. If all steps of such lines are made, the replay's report
/// shows the order's globals, texts and ends, with `running` for a blocked thread, the lock is free, and no attempt was
/// aborted; and if there are few enough for a schedule, they can be made.
///
/// Each listed outcome is word for word the report of a world that steps which do not stop lead to. With
/// `reports_are_orders` and `orders_are_listed` such a list is exact.
pub fn orders_are_replays()
    ensures replays { OrdersAreReplays }
    ensures outcomes { OutcomesAreDone }
{}

/// Every run keeps the invariants that `--always` confirms. A function that holds of the memory that each order leaves
/// also holds of shared memory whenever the lock is free: in every world that steps of the machine lead to, and so, by
/// the rule of `shared_words`, between any two atomic steps of real threads. While a thread has the lock, it may have
/// stored a part of what its transaction leaves, so nothing is stated about that time.
pub fn properties_hold_in_every_world()
    ensures worlds { PropertiesHoldInWorlds }
    ensures threads { PropertiesHoldOfSharedWords }
{
    valid_code_fits_its_cells();
    threads_leave_memories();
}

/// Every report has the properties that `--final` confirms. A function that holds of the memory that each order leaves
/// in which all threads have terminated holds of the last memory of each report in which each thread has ended or
/// trapped. `txc run` prints such reports with exit status 0 or 3 (`reports_are_orders`).
pub fn properties_hold_in_reports()
    ensures { PropertiesHoldInReports }
{
    one_list_of_tokens();
    one_tree();
}

/// Every report satisfies what `--refines` confirms: if one program refines another, an outcome of the other shows each
/// report of the first in which each thread has ended or trapped, and so all that `txc run` prints with status 0 or 3.
pub fn refined_reports_are_outcomes()
    ensures { RefinedReportsAreOutcomes }
{
    one_list_of_tokens();
    one_tree();
}

/// An accepted program within the depth limit (fault 11) has no fault of its source: a command that generates no code
/// does not refuse it. A command that generates code refuses it only for a limit of code.
pub fn accepted_programs_are_not_refused()
    ensures refused { AcceptedAreNotRefused }
    ensures limits { AcceptedPassLimits }
{
    one_list_of_tokens();
    tokens_leave_no_fault();
    one_tree();
    a_safe_program_has_no_fault();
    a_fault_touches();
}

/// The source prints exactly one report in an order. A report that is not certified, because another one is printed in
/// the order, is not printed in it.
pub fn one_report_is_printed()
    ensures { OneReportIsPrinted }
{
    one_list_of_tokens();
    one_tree();
}
