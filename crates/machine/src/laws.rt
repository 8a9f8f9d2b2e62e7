//! What holds of every list of steps. A law has no code: its contract is what it says. C is what a code's next
//! instruction depends on: the place, frames and registers of one thread. bounds are the bounds of the cells' words.

ghost use Rattle.std.specs.Prelude.{◌≡◌, ◌≤◌, ◌^◌, ℕ, List, [], Some, None, length, replicate};
ghost use Rattle.std.specs.List.{slice_get};
ghost use Rattle.syntax.specs.Behaviours.{Memory, IsMemory, Behaviour, Step, Means};
ghost use Rattle.syntax.specs.Threads.{thread as source};
ghost use Rattle.syntax.specs.Tree.{Program};
ghost use Rattle.syntax.specs.declared.thread_end.Status.TheVariants.{Running};
ghost use Rattle.bytecode.specs.Code.{Code as Plain, Configuration, effect};
ghost use Rattle.bytecode.specs.Effects.{Effect, FitsCells};
ghost use Rattle.local_steps.specs.Local.{after_local};
ghost use Rattle.bytecode.specs.Sequential.{meaning};
ghost use Rattle.norec_core.specs.Attempts.{Attempt};
ghost use Rattle.machine.specs.Threads.{Thread, access, step_with};
ghost use Rattle.machine.specs.Worlds.{Part, World, Reached, answer, new_world};
ghost use Rattle.machine.specs.Merges.{Entry};
ghost use Rattle.machine.specs.Serializable.{world_after, IsOpaque, HasChanged, HoldersGoOn};
ghost use Rattle.machine.specs.Strict.{IsStrictlySerializable, RecordsAreLater};
ghost use Rattle.machine.specs.Alone.{ReachesEnd};
ghost use Rattle.machine.specs.Solo.{AttemptEnds, RunsAlone, SoloProgress, StaysReached};
ghost use Rattle.machine.specs.Computes.{AttemptsCompute};
ghost use Rattle.machine.specs.OneOrder.{IsInOneOrder};
ghost use Rattle.machine.specs.Drops.{DropsAreBounded, DropsComeAfterTakings};
ghost use Rattle.machine.specs.Tallies.{CountsByMeaning};
ghost use Rattle.machine.specs.Holders.{HoldersNeverAbort};
ghost use Rattle.machine.specs.NamedCells.{NamesCells};
ghost use Rattle.machine.specs.Events.{EventsTell};
ghost use Rattle.machine.specs.Answered.{Answered, AnswersOk, Heard, StepsHearing};
ghost use Rattle.machine.specs.Traces.{IsTraced, RunsOn, heard_run};
ghost use Rattle.machine.specs.Moments.{BeginsPast};

/// For every code, number of threads and list of steps the transactions that took effect can be put one after another
/// (`IsSerializable`). There is a merge of them, each thread's own in their order, and every merge is a run of the code
/// in which each transaction finds the memory that the one before it left and every thread stands: it has printed what
/// it prints in that run, and ends or traps only where it does there. While the lock is even the words are the run's
/// last memory and half of the lock is the number of transactions that took it; while it is odd one thread has it, and
/// the words are that memory with what the thread has stored so far. Each attempt, also one that will be dropped, has a
/// moment in the run whose memory has all that it has read.
///
/// Order in time (`IsInTime`): each transaction stands after all that stood in the run when its attempt began, as often
/// as they stood there. Later runs extend earlier ones (`IsExtended`): the run of more steps holds the steps of the run
/// of fewer in their order, and each thread's earlier steps come first among its own.
///
/// All this holds for every program that the code means: of its runs, and of what its threads print and how they end.
pub fn opaque<C>()
    ensures code { (code : C → Effect C) (init : ℕ → C) (bounds : List ℕ) (m0 : Memory) (threads : ℕ) (steps : List ℕ) →
        FitsCells code bounds → IsMemory bounds m0 →
        IsOpaque code init (meaning code init) bounds m0 threads steps }
    ensures programs { (code : C → Effect C) (init : ℕ → C) (program : Behaviour) (bounds : List ℕ) (m0 : Memory)
        (threads : ℕ) (steps : List ℕ) → FitsCells code bounds → IsMemory bounds m0 →
        Means bounds (meaning code init) program → threads ≤ 2 ^ 32 →
        IsOpaque code init program bounds m0 threads steps }
{}

/// Strict serializability, for all steps ts and all further ones us: the transactions that have taken effect are a run
/// in which every thread stands, and all that a thread has begun since ts, where it had no attempt then, stands behind
/// all that had taken effect by then. The same for every program that the code means.
///
/// Threads of the program that run at one time make one such list, of which each has seen a beginning when it last made
/// an access. So this is said of them too, with what a thread has seen as ts, and as us what was done since.
pub fn strictly_serializable<C>()
    ensures code { (code : C → Effect C) (init : ℕ → C) (bounds : List ℕ) (m0 : Memory) (threads : ℕ)
        (ts us : List ℕ) → FitsCells code bounds → IsMemory bounds m0 →
        IsStrictlySerializable code init (meaning code init) bounds m0 threads ts us }
    ensures programs { (code : C → Effect C) (init : ℕ → C) (program : Behaviour) (bounds : List ℕ) (m0 : Memory)
        (threads : ℕ) (ts us : List ℕ) → FitsCells code bounds → IsMemory bounds m0 →
        Means bounds (meaning code init) program → threads ≤ 2 ^ 32 →
        IsStrictlySerializable code init program bounds m0 threads ts us }
{}

/// Every attempt, also one that will be dropped, is where its code's meaning comes in the memory of its moment: the
/// same registers, frames and place, the same text, and it sees that memory with its own writes over it.
pub fn attempts_compute<C>()
    ensures { (code : C → Effect C) (init : ℕ → C) (bounds : List ℕ) (m0 : Memory) (threads : ℕ) (steps : List ℕ) →
        FitsCells code bounds → IsMemory bounds m0 →
        AttemptsCompute code init m0 (world_after code init m0 threads steps) }
{}

/// All attempts stand in one order, the dropped ones too: those that took effect are the run in it, and each of the
/// others leaves what it found. Each attempt finds what the one before it left, and it is where its code's meaning
/// comes on that memory. It stands after all that had ended when it began, and so would those that have not ended yet,
/// one of them or all at once; and more steps put further attempts in, and move none. So the order of attempts is the
/// order of time, wherever one had ended when another began.
///
/// Threads of the program that run at one time make one such list. In it a thread's local steps stand where its next
/// access does, so this is the order in time of accesses.
pub fn attempts_stand_in_one_order<C>()
    ensures { (code : C → Effect C) (init : ℕ → C) (bounds : List ℕ) (m0 : Memory) (threads : ℕ) (steps : List ℕ) →
        FitsCells code bounds → IsMemory bounds m0 →
        IsInOneOrder code init m0 threads steps }
{}

/// A step drops an attempt only where validation has loaded the word of an entry of its read log and found another one.
/// A thread that has taken the lock is never dropped, whatever other threads do.
pub fn aborts<C>()
    ensures changed { (code : C → Effect C) (th : Thread C) (a : Attempt C) (lock : ℕ) (words : List ℕ) →
        th.attempt ≡ Some a →
        (step_with code th (answer lock words (access code th))).thread.attempt ≡ None →
        (step_with code th (answer lock words (access code th))).completed ≡ None → HasChanged a words }
    ensures holders { (code : C → Effect C) (init : ℕ → C) (bounds : List ℕ) (m0 : Memory) (threads : ℕ)
        (steps : List ℕ) → FitsCells code bounds → IsMemory bounds m0 →
        HoldersGoOn code (world_after code init m0 threads steps) }
{}

/// A thread has been dropped at most as often as other threads have taken the lock, and once more while it is held,
/// whatever the steps. Where an attempt is dropped, the lock has been taken since its last snapshot.
pub fn drops_are_bounded<C>()
    ensures bounded { (code : C → Effect C) (init : ℕ → C) (bounds : List ℕ) (m0 : Memory) (threads : ℕ)
        (steps : List ℕ) → FitsCells code bounds → IsMemory bounds m0 →
        DropsAreBounded code init m0 threads steps }
    ensures after_takings { (code : C → Effect C) (init : ℕ → C) (bounds : List ℕ) (m0 : Memory) (threads : ℕ)
        (steps : List ℕ) → FitsCells code bounds → IsMemory bounds m0 →
        DropsComeAfterTakings code (world_after code init m0 threads steps) }
{}

/// What a thread's meaning does alone, a machine of one thread does in some number of steps, and stays there: the same
/// end, text and memory, without a step that stops. The same for every program whose threads the code means.
///
/// Beside other threads, wherever these stand still (in the midst of an attempt too): while the lock is free, a thread
/// outside transactions that steps alone does what its meaning does on these words, up to where this ends, traps or
/// wants one more memory. No attempt is dropped on the way, the other threads and what they have are left as they are,
/// and the lock is then free again (`RunsAlone`). In a reached world whose lock is not near its last value no step of
/// it stops (`SoloProgress`): steps from a reached world that end below that value stop nowhere (`StaysReached`).
///
/// A thread that has an attempt open in a reached world whose lock is free, and steps alone, drops it, once, or goes on
/// as its meaning does for as many instructions as one likes (`AttemptEnds`): it ends its transaction where that does.
/// Together this is obstruction freedom while nobody has the lock. While another thread has it nothing is said: a
/// thread waits for it.
pub fn alone<C>()
    ensures code { (code : C → Effect C) (init : ℕ → C) (bounds : List ℕ) (m0 : Memory) (run : List Step) (n : ℕ) →
        FitsCells code bounds → IsMemory bounds m0 →
        ReachesEnd code init (meaning code init) m0 run n }
    ensures programs { (code : C → Effect C) (init : ℕ → C) (program : Program) (bounds : List ℕ) (m0 : Memory)
        (run : List Step) (n : ℕ) → FitsCells code bounds → IsMemory bounds m0 →
        Means bounds (meaning code init) (source program) → ReachesEnd code init (source program) m0 run n }
    ensures beside { (code : C → Effect C) (bounds : List ℕ) → FitsCells code bounds → RunsAlone code bounds }
    ensures progress { (code : C → Effect C) (init : ℕ → C) (bounds : List ℕ) (m0 : Memory) →
        FitsCells code bounds → IsMemory bounds m0 → SoloProgress code init m0 }
    ensures attempts { (code : C → Effect C) (init : ℕ → C) (bounds : List ℕ) (m0 : Memory) →
        FitsCells code bounds → IsMemory bounds m0 → AttemptEnds code init m0 }
    ensures reached { (code : C → Effect C) (init : ℕ → C) (bounds : List ℕ) (m0 : Memory) →
        FitsCells code bounds → IsMemory bounds m0 → StaysReached code init m0 }
{}

/// How many accesses a transaction makes that nobody disturbs, counted by what its code means on the memory that it
/// finds: no log, snapshot or validation occurs in the count. From an outermost begin under a free lock on, where no
/// other thread makes an access, the attempt is never dropped, and makes
///
/// - one access for its begin;
/// - two for each read of a cell that it has not written then;
/// - at a commit, where it has written, one for the lock's swap, one for each cell written, and one for the release. A
///   write that a cancel has undone does not count, and a cell counts once;
/// - where it carries out an irrevocable, one swap there; then one access, not two, for each such read, and no further
///   swap; the release also where nothing is written, and at a trap, which stores no cell.
///
/// So it is after each step on the way (`IsOpenAfter`) and at the end (`IsOverAfter`): the transaction has taken effect
/// then, and its meaning has ended it too and comes where the thread is. Other threads may make local steps meanwhile.
/// That a transaction comes to an end is not said.
pub fn accesses_are_tallied<C>()
    ensures { (code : C → Effect C) (init : ℕ → C) (bounds : List ℕ) (m0 : Memory) (threads : ℕ) (steps : List ℕ)
        (t : ℕ) → FitsCells code bounds → IsMemory bounds m0 →
        CountsByMeaning code (world_after code init m0 threads steps) t }
{}

/// A thread that has the lock, by the won swap of a commit or of an irrevocable, never aborts, whatever steps it and
/// other threads make: after any of them it has the lock still, at the same snapshot, or the next of its transactions
/// to have taken effect is the one for which it took the lock. That it ever takes effect is not said.
pub fn a_holder_never_aborts<C>()
    ensures { (code : C → Effect C) (init : ℕ → C) (bounds : List ℕ) (m0 : Memory) (threads : ℕ) (steps : List ℕ) →
        FitsCells code bounds → IsMemory bounds m0 →
        HoldersNeverAbort code (world_after code init m0 threads steps) }
{}

/// What an event says of the step that it is told of: an abort dropped the attempt, and nothing took effect; a commit
/// made a transaction take effect at a commit; a cancel cancelled inner transactions, or an outermost one without the
/// lock kept; a trap left a running thread trapped by that cause. And the other way round: no such step goes untold.
pub fn events_tell<C>()
    ensures { (code : C → Effect C) (init : ℕ → C) (bounds : List ℕ) (m0 : Memory) (threads : ℕ) (steps : List ℕ) →
        FitsCells code bounds → IsMemory bounds m0 →
        EventsTell code (world_after code init m0 threads steps) }
{}

/// So many instructions of a running thread that work on its own registers and frames are as many local steps of the
/// machine: none of them makes an access, and all that they change is where the thread stands.
pub fn instructions_are_local_steps()
    ensures { (code : Plain) (th : Thread Configuration) (n : ℕ) (d : Configuration) → th.status ≡ Running →
        after_local code n th.configuration ≡ Some d →
        StepsHearing (effect code) th n [] (record th { configuration = d }) }
{}

/// An attempt's logs name cells of the memory alone, and so does a thread's next access.
pub fn threads_name_cells<C>()
    ensures { (code : C → Effect C) (init : ℕ → C) (bounds : List ℕ) (m0 : Memory) (threads : ℕ) (steps : List ℕ) →
        FitsCells code bounds →
        NamesCells code (length bounds) (world_after code init m0 threads steps) }
{}

/// A world that steps which do not stop lead to is the world of some list of steps, so all that holds of lists of steps
/// holds of it.
pub fn reached_by_steps<C>()
    ensures { (code : C → Effect C) (init : ℕ → C) (m0 : Memory) (threads : ℕ) (w : World C) →
        Reached code init m0 threads w →
        (steps : List ℕ) × (w ≡ world_after code init m0 threads steps) }
{}

/// In every world that steps which do not stop lead to, the lock values that a thread was answered never fall and are
/// at most the lock, a lost swap found another value than the one it swaps from, and each word answered is, in every
/// merge, that of a place of the run which has at least half of the last lock value's lock-taking steps before it, or
/// that of a pair which the thread with the lock has stored so far.
pub fn answers_are_explained<C>()
    ensures { (code : C → Effect C) (init : ℕ → C) (bounds : List ℕ) (m0 : Memory) (threads : ℕ) (w : World C)
        (heard : List (List Heard)) → FitsCells code bounds → IsMemory bounds m0 →
        Answered code init m0 threads w heard →
        (t : ℕ) (p : Part C) (hs : List Heard) → slice_get w.parts t ≡ Some p → slice_get heard t ≡ Some hs →
        AnswersOk m0 w hs }
{}

/// A world with its answers is reached by steps that do not stop exactly where it is that of a trace of such steps. So
/// what holds of the one holds of the other.
pub fn answered_by_traces<C>()
    ensures { (code : C → Effect C) (init : ℕ → C) (m0 : Memory) (threads : ℕ) →
        ((w : World C) (heard : List (List Heard)) → Answered code init m0 threads w heard →
        IsTraced code init m0 threads w heard)
        × ((steps : List ℕ) → RunsOn code steps (new_world init m0 threads) →
        Answered code init m0 threads (world_after code init m0 threads steps)
        (heard_run code steps (new_world init m0 threads) (replicate threads []))) }
{}

/// The moment of an attempt whose first snapshot is n or more stands after every step of the run that was made under a
/// lock value below n.
pub fn attempts_begin_past_their_floor<C>()
    ensures { (does : Behaviour) (bounds : List ℕ) (m0 : Memory) (threads : ℕ) (w : World C) (es : List Entry) →
        BeginsPast does bounds m0 threads w es }
{}

/// Each transaction of a thread that takes effect after the steps ts, where it had no attempt then, has a last snapshot
/// that is not below the lock as it was after ts: read-only ones too, and such that are over by now.
pub fn later_records_have_later_snapshots<C>()
    ensures { (code : C → Effect C) (init : ℕ → C) (bounds : List ℕ) (m0 : Memory) (threads : ℕ)
        (ts us : List ℕ) → FitsCells code bounds → IsMemory bounds m0 →
        RecordsAreLater code init m0 threads ts us }
{}
