//! How many ticks each thing takes, and what is left before and behind the last of them.

use crate::of_meaning::run::{first_left, run};
use meaning::{ThreadEnd, ThreadOutcome};
use std::alloc::Global;
use std::process::Abort;
use syntax::thread_end::Trap;

/// A text, the memories to be found, the ticks; how many memories are left, what the last one begins with, what is
/// printed, and the end.
type Row = (
    &'static str,
    usize,
    u64,
    usize,
    u64,
    &'static str,
    ThreadEnd,
);

const SPENT: ThreadEnd = ThreadEnd::Spent;

const WANTS: ThreadEnd = ThreadEnd::Wants;

const ENDED: ThreadEnd = ThreadEnd::Ended;

const DIVIDES: ThreadEnd = ThreadEnd::Trapped(Trap::ZeroDivisor);

const IDLE: &str = "void worker(int self) { }";

const SETS: &str = "int x; void worker(int self) { __transaction_atomic { x = 1; } }";
/// a block in a function is a statement, and the empty one in it too
const BLOCK: &str = "void worker(int self) { { ; } }";
/// for: its statement, two turns with an empty statement each, and the turn that ends it
const FOR: &str = "void worker(int self) { for (int i = 0; i < 2; i++) ; }";
/// a turn is due before the condition is computed, which takes a call's tick and those of its body
const WHILE: &str =
    "int f(void) { printf(\"c\"); return 0; } void worker(int self) { while (f()) ; }";

const FOR_TESTED: &str =
    "int f(void) { printf(\"c\"); return 0; } void worker(int self) { for (; f(); ) ; }";
/// do: its statement, two turns with a statement each
const DO: &str = "void worker(int self) { int i = 2; do i--; while (i); }";
/// do: a turn is due before the body
const DO_PRINTS: &str = "void worker(int self) { do printf(\"b\"); while (0); }";

const BREAKS: &str = "void worker(int self) { while (1) { break; } }";
/// three turns, of which the second prints nothing, and the turn that ends it
const CONTINUES: &str =
    "void worker(int self) { for (int i = 0; i < 3; i++) { if (i == 1) continue; printf(\"%d\", i); } }";
/// a continue goes on with the condition behind the body
const CONTINUES_DO: &str =
    "void worker(int self) { int i = 0; do { i++; if (i == 1) continue; printf(\"%d\", i); } while (i < 2); }";
/// a call's tick comes behind its arguments, and its body is no statement
const CALL: &str = "int f(int a) { return a; } void worker(int self) { f(f(1)); }";

const CALL_PRINTS: &str = "int g(void) { printf(\"g\"); return 1; }
int f(int a) { printf(\"f%d\", a); return a; }
void worker(int self) { f(g()); }";
/// each piece that is printed takes a tick
const PIECES: &str = "void worker(int self) { printf(\"a%d%%b\", 7); }";
/// no piece is printed
const NO_PIECE: &str = "void worker(int self) { printf(\"\"); }";
/// a trap takes a tick, and the memory found is left
const TRAPS: &str = "int x; void worker(int self) { __transaction_atomic { x = 1; x = x / 0; } }";

const TRAPS_OUTSIDE: &str = "void worker(int self) { 1 % self; }";
/// a call for which no frame is left: 63 calls below `worker` with a statement each, and then the call's tick and the
/// trap's
const FRAMES: &str = "int f(int a) { return f(a); } void worker(int self) { f(0); }";
/// a cancel undoes cells and locals, and the tick of a transaction that is left goes
const CANCELS: &str =
    "int x; void worker(int self) { int k = 5; __transaction_atomic { x = 1; k = 6; __transaction_cancel; } printf(\"%d\", k); }";
/// an inner transaction takes no tick as it is left, and its cancel undoes what it did alone
const CANCELS_INNER: &str =
    "int x; void worker(int self) { __transaction_atomic { x = 1; __transaction_atomic { x = 2; __transaction_cancel; } } }";
/// an outer cancel undoes the outer transaction with the one in it, and only where that is the outermost one a tick is
/// taken
const CANCELS_OUTER: &str =
    "int x, y; void worker(int self) { __transaction_atomic [[outer]] { x = 2; __transaction_atomic { y = x; __transaction_cancel [[outer]]; } y = 9; } }";

const CANCELS_IN_RELAXED: &str =
    "int x, y; void worker(int self) { __transaction_relaxed { x = 1; printf(\"a\"); __transaction_atomic [[outer]] { x = 2; __transaction_atomic { y = 2; __transaction_cancel [[outer]]; } } y = x; } }";
/// both kinds of cancels give back the locals that their begin found
const CANCELS_BOTH: &str =
    "int x; void worker(int self) { int v = 3; __transaction_atomic [[outer]] { v = 9; __transaction_atomic { __transaction_atomic { v = 8; __transaction_cancel; } x = v; __transaction_cancel [[outer]]; } } printf(\"%d\", v); }";
/// a return leaves both transactions
const RETURNS: &str =
    "int x; int f(void) { __transaction_atomic { __transaction_atomic { x = 7; return x; } } } void worker(int self) { printf(\"%d\", f()); }";
/// to want a memory takes no tick
const TWICE: &str =
    "int x; void worker(int self) { __transaction_atomic { x = 1; } __transaction_atomic { x = 2; } }";
/// outside transactions a transaction that is an expression takes a tick before it wants its memory, and one as it is
/// left
const READS: &str = "int x; void worker(int self) { int v = __transaction_atomic (x); }";
/// inside a transaction one that is an expression takes no tick
const READS_INSIDE: &str =
    "int x; void worker(int self) { __transaction_atomic { x = __transaction_atomic (x) + 1; } }";
/// transactions in the operand of another take no tick, and one whose value is dropped takes its own
const NESTS: &str =
    "int x; void worker(int self) { int v = __transaction_atomic (__transaction_atomic (__transaction_atomic (x)) + __transaction_atomic (x)); __transaction_relaxed (v); }";
/// a call's tick comes before that of the transaction which its function returns the value of
const RETURNS_VALUE: &str =
    "int x; int f(int n) { return __transaction_atomic (x + n); } void worker(int self) { printf(\"%d\", f(3) + __transaction_relaxed (f(4))); }";
/// a trap in a transaction that is an expression leaves the memory that it found, for the trap's tick alone
const TRAPS_IN_VALUE: &str =
    "int x; void worker(int self) { int v = __transaction_atomic (1 / x); }";
/// a transaction in a loop's condition comes behind the tick of the turn
const TESTS: &str =
    "int x; void worker(int self) { while (__transaction_atomic (x < 1)) { __transaction_atomic { x = 1; } if (__transaction_atomic (x)) break; } }";

const BRANCH: &str = "void worker(int self) { if (self) printf(\"a\"); else printf(\"b\"); }";

const BRANCH_TAKEN: &str =
    "void worker(int self) { if (!self) printf(\"a\"); else printf(\"b\"); }";

const BRANCH_MISSING: &str = "void worker(int self) { if (self) printf(\"a\"); }";

/// Whether a thread has left so many memories, of which the last one begins so.
fn has_left(outcome: &ThreadOutcome, lefts: usize, first: u64) -> bool {
    outcome.lefts.len() == lefts && first_left(outcome) == (lefts > 0).then_some(first)
}

/// Whether a thread has done what the row says.
fn has_done(outcome: &ThreadOutcome, row: &Row) -> bool {
    has_left(outcome, row.3, row.4)
        && outcome.text.as_slice() == row.5.as_bytes()
        && outcome.end == row.6
}

/// Whether a thread of the row's text does what the row says.
fn is_so(alloc: Global, row: &Row) -> bool {
    match run(alloc, row.0, 0, row.1, row.2) {
        Some(outcome) => has_done(&outcome, row),
        None => false,
    }
}

/// The text and the ticks of the first row that is not so.
fn first_other(alloc: Global, rows: &[Row]) -> Option<(&'static str, u64)> {
    for row in rows {
        if !is_so(alloc, row) {
            return Some((row.0, row.2));
        }
    }
    None
}

/// Asserts that each of these is so.
fn assert_all_so(rt: &impl Abort, alloc: Global, rows: &[Row]) {
    assert_eq!(rt; first_other(alloc, rows), None);
}

fn statements() -> &'static [Row] {
    static ROWS: [Row; 22] = [
        (IDLE, 0, 0, 0, 0, "", SPENT),
        (IDLE, 0, 1, 0, 0, "", ENDED),
        (SETS, 1, 0, 0, 0, "", SPENT),
        (SETS, 0, 1, 0, 0, "", WANTS),
        (SETS, 1, 2, 0, 0, "", SPENT),
        (SETS, 1, 3, 1, 1, "", SPENT),
        (SETS, 1, 4, 1, 1, "", ENDED),
        (BLOCK, 0, 2, 0, 0, "", SPENT),
        (BLOCK, 0, 3, 0, 0, "", ENDED),
        (PIECES, 0, 1, 0, 0, "", SPENT),
        (PIECES, 0, 2, 0, 0, "a", SPENT),
        (PIECES, 0, 3, 0, 0, "a7", SPENT),
        (PIECES, 0, 4, 0, 0, "a7%b", SPENT),
        (PIECES, 0, 5, 0, 0, "a7%b", ENDED),
        (NO_PIECE, 0, 1, 0, 0, "", SPENT),
        (NO_PIECE, 0, 2, 0, 0, "", ENDED),
        (BRANCH, 0, 3, 0, 0, "b", SPENT),
        (BRANCH, 0, 4, 0, 0, "b", ENDED),
        (BRANCH_TAKEN, 0, 3, 0, 0, "a", SPENT),
        (BRANCH_TAKEN, 0, 4, 0, 0, "a", ENDED),
        (BRANCH_MISSING, 0, 1, 0, 0, "", SPENT),
        (BRANCH_MISSING, 0, 2, 0, 0, "", ENDED),
    ];
    &ROWS
}

#[test]
fn statements_take_their_ticks(rt: HostRuntime) {
    assert_all_so(&rt, rt.alloc(), statements());
}

fn loops() -> &'static [Row] {
    static ROWS: [Row; 24] = [
        (FOR, 0, 6, 0, 0, "", SPENT),
        (FOR, 0, 7, 0, 0, "", ENDED),
        (WHILE, 0, 4, 0, 0, "", SPENT),
        (WHILE, 0, 5, 0, 0, "c", SPENT),
        (WHILE, 0, 6, 0, 0, "c", SPENT),
        (WHILE, 0, 7, 0, 0, "c", ENDED),
        (FOR_TESTED, 0, 4, 0, 0, "", SPENT),
        (FOR_TESTED, 0, 5, 0, 0, "c", SPENT),
        (FOR_TESTED, 0, 6, 0, 0, "c", SPENT),
        (FOR_TESTED, 0, 7, 0, 0, "c", ENDED),
        (DO, 0, 6, 0, 0, "", SPENT),
        (DO, 0, 7, 0, 0, "", ENDED),
        (DO_PRINTS, 0, 3, 0, 0, "", SPENT),
        (DO_PRINTS, 0, 4, 0, 0, "b", SPENT),
        (DO_PRINTS, 0, 5, 0, 0, "b", ENDED),
        (BREAKS, 0, 4, 0, 0, "", SPENT),
        (BREAKS, 0, 5, 0, 0, "", ENDED),
        (CONTINUES, 0, 14, 0, 0, "0", SPENT),
        (CONTINUES, 0, 15, 0, 0, "02", SPENT),
        (CONTINUES, 0, 16, 0, 0, "02", SPENT),
        (CONTINUES, 0, 17, 0, 0, "02", ENDED),
        (CONTINUES_DO, 0, 12, 0, 0, "", SPENT),
        (CONTINUES_DO, 0, 13, 0, 0, "2", SPENT),
        (CONTINUES_DO, 0, 14, 0, 0, "2", ENDED),
    ];
    &ROWS
}

#[test]
fn loops_take_their_ticks(rt: HostRuntime) {
    assert_all_so(&rt, rt.alloc(), loops());
}

fn calls_and_traps() -> &'static [Row] {
    static ROWS: [Row; 14] = [
        (CALL, 0, 5, 0, 0, "", SPENT),
        (CALL, 0, 6, 0, 0, "", ENDED),
        (CALL_PRINTS, 0, 3, 0, 0, "", SPENT),
        (CALL_PRINTS, 0, 4, 0, 0, "g", SPENT),
        (CALL_PRINTS, 0, 7, 0, 0, "g", SPENT),
        (CALL_PRINTS, 0, 8, 0, 0, "gf", SPENT),
        (CALL_PRINTS, 0, 10, 0, 0, "gf1", SPENT),
        (CALL_PRINTS, 0, 11, 0, 0, "gf1", ENDED),
        (TRAPS, 1, 3, 0, 0, "", SPENT),
        (TRAPS, 1, 4, 1, 0, "", DIVIDES),
        (TRAPS_OUTSIDE, 0, 1, 0, 0, "", SPENT),
        (TRAPS_OUTSIDE, 0, 2, 0, 0, "", DIVIDES),
        (FRAMES, 0, 128, 0, 0, "", SPENT),
        (FRAMES, 0, 129, 0, 0, "", ThreadEnd::Trapped(Trap::Frames)),
    ];
    &ROWS
}

#[test]
fn calls_and_traps_take_their_ticks(rt: HostRuntime) {
    assert_all_so(&rt, rt.alloc(), calls_and_traps());
}

fn transactions() -> &'static [Row] {
    static ROWS: [Row; 25] = [
        (CANCELS, 1, 5, 0, 0, "", SPENT),
        (CANCELS, 1, 6, 1, 0, "", SPENT),
        (CANCELS, 1, 8, 1, 0, "5", SPENT),
        (CANCELS, 1, 9, 1, 0, "5", ENDED),
        (CANCELS_INNER, 1, 5, 0, 0, "", SPENT),
        (CANCELS_INNER, 1, 6, 1, 1, "", SPENT),
        (CANCELS_INNER, 1, 7, 1, 1, "", ENDED),
        (RETURNS, 1, 6, 0, 0, "", SPENT),
        (RETURNS, 1, 7, 1, 7, "", SPENT),
        (RETURNS, 1, 8, 1, 7, "7", SPENT),
        (RETURNS, 1, 9, 1, 7, "7", ENDED),
        (TWICE, 1, 3, 1, 1, "", SPENT),
        (TWICE, 1, 4, 1, 1, "", WANTS),
        (TWICE, 2, 6, 2, 2, "", SPENT),
        (TWICE, 2, 7, 2, 2, "", ENDED),
        (CANCELS_OUTER, 1, 5, 0, 0, "", SPENT),
        (CANCELS_OUTER, 1, 6, 1, 0, "", SPENT),
        (CANCELS_OUTER, 1, 7, 1, 0, "", ENDED),
        (CANCELS_IN_RELAXED, 1, 10, 0, 0, "a", SPENT),
        (CANCELS_IN_RELAXED, 1, 11, 1, 1, "a", SPENT),
        (CANCELS_IN_RELAXED, 1, 12, 1, 1, "a", ENDED),
        (CANCELS_BOTH, 1, 9, 0, 0, "", SPENT),
        (CANCELS_BOTH, 1, 10, 1, 0, "", SPENT),
        (CANCELS_BOTH, 1, 12, 1, 0, "3", SPENT),
        (CANCELS_BOTH, 1, 13, 1, 0, "3", ENDED),
    ];
    &ROWS
}

#[test]
fn transactions_take_their_ticks(rt: HostRuntime) {
    assert_all_so(&rt, rt.alloc(), transactions());
}

fn transactions_that_are_expressions() -> &'static [Row] {
    static ROWS: [Row; 24] = [
        (READS, 0, 0, 0, 0, "", SPENT),
        (READS, 0, 1, 0, 0, "", SPENT),
        (READS, 0, 2, 0, 0, "", WANTS),
        (READS, 1, 2, 0, 0, "", SPENT),
        (READS, 1, 3, 1, 0, "", SPENT),
        (READS, 1, 4, 1, 0, "", ENDED),
        (READS_INSIDE, 1, 2, 0, 0, "", SPENT),
        (READS_INSIDE, 1, 3, 1, 1, "", SPENT),
        (READS_INSIDE, 1, 4, 1, 1, "", ENDED),
        (NESTS, 1, 3, 1, 0, "", SPENT),
        (NESTS, 1, 5, 1, 0, "", WANTS),
        (NESTS, 2, 6, 2, 0, "", SPENT),
        (NESTS, 2, 7, 2, 0, "", ENDED),
        (RETURNS_VALUE, 1, 4, 0, 0, "", SPENT),
        (RETURNS_VALUE, 1, 5, 1, 0, "", SPENT),
        (RETURNS_VALUE, 1, 6, 1, 0, "", WANTS),
        (RETURNS_VALUE, 2, 9, 2, 0, "", SPENT),
        (RETURNS_VALUE, 2, 10, 2, 0, "7", SPENT),
        (RETURNS_VALUE, 2, 11, 2, 0, "7", ENDED),
        (TRAPS_IN_VALUE, 1, 2, 0, 0, "", SPENT),
        (TRAPS_IN_VALUE, 1, 3, 1, 0, "", DIVIDES),
        (TESTS, 0, 2, 0, 0, "", SPENT),
        (TESTS, 0, 3, 0, 0, "", WANTS),
        (TESTS, 1, 4, 1, 0, "", SPENT),
    ];
    &ROWS
}

#[test]
fn transactions_that_are_expressions_take_their_ticks(rt: HostRuntime) {
    assert_all_so(&rt, rt.alloc(), transactions_that_are_expressions());
}
