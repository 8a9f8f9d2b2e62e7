//! A program for each trap, the whole language, and programs that run long.

use crate::asserted::{assert_none, assert_that};
use crate::of_meaning::memory::zeros;
use crate::of_meaning::run::run;
use meaning::{ThreadEnd, ThreadOutcome, thread};
use separation::Accepted;
use std::alloc::{Allocator, Global};
use syntax::thread_end::Trap;
use test_memory::{Refusing, growths};
use test_programs::accepted_of;

/// A text, and the trap in which its thread ends.
type TrapRow = (&'static str, Trap);

fn traps() -> &'static [TrapRow] {
    static TRAPS: [TrapRow; 29] = [
        (
            "void worker(int self) { int a = 2147483647; a++; }",
            Trap::OutOfRange,
        ),
        (
            "void worker(int self) { -(-2147483647 - 1); }",
            Trap::OutOfRange,
        ),
        (
            "void worker(int self) { (-2147483647 - 1) % -1; }",
            Trap::OutOfRange,
        ),
        ("void worker(int self) { 1 % self; }", Trap::ZeroDivisor),
        (
            "int a[3]; void worker(int self) { __transaction_atomic { a[-1] = 0; } }",
            Trap::Index,
        ),
        (
            "int f(int a) { return f(a + 1); } void worker(int self) { f(0); }",
            Trap::Frames,
        ),
        ("void worker(int self) { 1 << 32; }", Trap::ShiftCount),
        // traps of `long long`, and beside it
        (
            "void worker(int self) { long long a = 9223372036854775807; a++; }",
            Trap::OutOfRange,
        ),
        (
            "void worker(int self) { long long a = -9223372036854775807; a -= 2u; }",
            Trap::OutOfRange,
        ),
        (
            "void worker(int self) { 9223372036854775807 + 1; }",
            Trap::OutOfRange,
        ),
        (
            "void worker(int self) { -9223372036854775807 - 2; }",
            Trap::OutOfRange,
        ),
        (
            "void worker(int self) { 4294967296 * 2147483648; }",
            Trap::OutOfRange,
        ),
        (
            "void worker(int self) { unsigned a = 4294967295u; a *= 4294967295; }",
            Trap::OutOfRange,
        ),
        (
            "void worker(int self) { -(-9223372036854775807 - 1); }",
            Trap::OutOfRange,
        ),
        (
            "void worker(int self) { (-9223372036854775807 - 1) / -1; }",
            Trap::OutOfRange,
        ),
        (
            "void worker(int self) { (-9223372036854775807 - 1) % -1; }",
            Trap::OutOfRange,
        ),
        ("void worker(int self) { 1LL << 63; }", Trap::OutOfRange),
        ("void worker(int self) { 1 << 31LL; }", Trap::OutOfRange),
        (
            "void worker(int self) { int a = 4294967295; a = -2147483648; a--; }",
            Trap::OutOfRange,
        ),
        ("void worker(int self) { 1LL % self; }", Trap::ZeroDivisor),
        (
            "void worker(int self) { 1 / (4294967296 - 4294967296); }",
            Trap::ZeroDivisor,
        ),
        (
            "int a[3]; void worker(int self) { __transaction_atomic { a[4294967296] = 0; } }",
            Trap::Index,
        ),
        (
            "long long a[3]; void worker(int self) { __transaction_atomic { a[-1LL] = 0; } }",
            Trap::Index,
        ),
        (
            "long long f(long long a) { return f(a + 1); } void worker(int self) { f(4294967296); }",
            Trap::Frames,
        ),
        ("void worker(int self) { 1LL << 64; }", Trap::ShiftCount),
        ("void worker(int self) { 1LL >> -1; }", Trap::ShiftCount),
        ("void worker(int self) { 1 << 32LL; }", Trap::ShiftCount),
        (
            "void worker(int self) { 1 << 4294967297; }",
            Trap::ShiftCount,
        ),
        (
            "void worker(int self) { 1u >> 4294967296; }",
            Trap::ShiftCount,
        ),
    ];
    &TRAPS
}

/// How the thread of a text ends.
fn end_of(alloc: Global, text: &str) -> Option<ThreadEnd> {
    match run(alloc, text, 0, 1, 1000) {
        Some(outcome) => Some(outcome.end),
        None => None,
    }
}

/// Whether the thread of the row's text ends in its trap.
fn has_trap(alloc: Global, row: &TrapRow) -> bool {
    end_of(alloc, row.0) == Some(ThreadEnd::Trapped(row.1))
}

/// The first text whose thread does not end in its row's trap.
fn first_without_trap(alloc: Global, rows: &[TrapRow]) -> Option<&'static str> {
    for row in rows {
        if !has_trap(alloc, row) {
            return Some(row.0);
        }
    }
    None
}

#[test]
fn each_trap_has_a_program(rt: HostRuntime) {
    assert_none(&rt, first_without_trap(rt.alloc(), traps()));
}

const WHOLE: &str = "unsigned total; int a[3];
unsigned sum(int n) { unsigned s = 0; for (int i = 0; i < n; ++i) s += a[i] ? 1u : -1; return s; }
void worker(int self) {
    int k = self;
    while (1) {
        if (k > self + 2) break;
        __transaction_relaxed {
            a[k % 3] = k + 1;
            __transaction_atomic [[outer]] { __transaction_atomic { total = sum(3); if (k == self + 1) __transaction_cancel [[outer]]; } }
            printf(\"%d:%d \", k, __transaction_atomic (total && a[0]) || 0);
        }
        k++;
    }
    do { int t = k; k = t - 1; } while (k != self);
}";

/// Whether a thread has left three memories, of which these are the words of the last one.
fn has_left(outcome: &ThreadOutcome, words: &[u64]) -> bool {
    match outcome.lefts.last() {
        Some(memory) => outcome.lefts.len() == 3 && memory.as_slice() == words,
        None => false,
    }
}

/// Whether the whole language is run: what is printed, and what is left.
fn runs_whole(alloc: Global) -> bool {
    match run(alloc, WHOLE, 3, 3, 10000) {
        Some(outcome) => {
            has_left(&outcome, &[4294967295, 0, 0, 6])
                && outcome.end == ThreadEnd::Ended
                && outcome.text.as_slice() == "3:1 4:0 5:0 ".as_bytes()
        }
        None => false,
    }
}

#[test]
fn the_whole_language_runs(rt: HostRuntime) {
    assert_that(&rt, runs_whole(rt.alloc()));
}

/// Whether `worker(t)` over these memories ends.
fn ends<A: Allocator + Copy>(
    alloc: A,
    accepted: &Accepted<A>,
    t: u32,
    memories: &[Vec<u64, A>],
) -> bool {
    match thread(alloc, accepted, t, memories, 1000000) {
        Ok(outcome) => outcome.end == ThreadEnd::Ended,
        Err(_) => false,
    }
}

/// Whether a thread comes to its end just where growth `nth` does not come, which is refused. The allocator is the one
/// that refuses.
fn tells_in<A: Allocator, B: Allocator + Copy>(
    refusing: &Refusing<A>,
    alloc: B,
    accepted: &Accepted<B>,
    t: u32,
    founds: usize,
    nth: u64,
) -> bool {
    match zeros(alloc, founds, 4) {
        Ok(memories) => {
            refusing.refuse(nth);
            let ended = ends(alloc, accepted, t, memories.as_slice());
            ended == refusing.is_waiting()
        }
        Err(_) => false,
    }
}

/// Whether a thread of a text comes to its end just where growth `nth` does not come, which is refused.
fn tells(refusing: &Refusing<Global>, nth: u64, text: &str, t: u32, founds: usize) -> bool {
    match accepted_of(refusing, text) {
        Some(accepted) => tells_in(refusing, refusing, &accepted, t, founds, nth),
        None => false,
    }
}

/// How many growths the thread of a text makes, each of which is refused once.
fn growths_of(inner: Global, text: &str, t: u32, founds: usize) -> Result<u64, u64> {
    growths(inner, 1000, |alloc, nth| tells(alloc, nth, text, t, founds))
}

/// turns with a block, a local and a branch, ten of them
const FEW_TURNS: &str =
    "int x; void worker(int self) { __transaction_atomic { for (int i = 0; i < 10; i++) { int k = i; if (k & 1) { x = k; } } } }";
/// turns with a block, a local and a branch, a thousand of them
const MANY_TURNS: &str =
    "int x; void worker(int self) { __transaction_atomic { for (int i = 0; i < 1000; i++) { int k = i; if (k & 1) { x = k; } } } }";

/// Whether many turns make no more growths than few.
fn take_no_more(alloc: Global) -> bool {
    match growths_of(alloc, FEW_TURNS, 0, 1) {
        Ok(few) => growths_of(alloc, MANY_TURNS, 0, 1) == Ok(few),
        Err(_) => false,
    }
}

#[test]
fn turns_take_no_memory_of_their_own(rt: HostRuntime) {
    assert_that(&rt, take_no_more(rt.alloc()));
}
