//! Many threads, and a gate that never holds: no addition is lost, and each run ends as it should.

use crate::asserted::{assert_all, assert_that};
use crate::of_workers::programs::{adds_often, divides, prints};
use crate::of_workers::reports::{Wanted, runs_as};
use std::alloc::Global;
use std::sync::Wait;
use std::thread::Threads;
use syntax::thread_end::{Status, Trap};
use workers::{Gate, RunFault};

/// A gate that never holds.
#[derive(Drop)]
pub struct Never;

impl Gate for Never {
    const HOLDS: bool = false;

    fn hold(&self, thread: u32, accesses: u64) -> bool {
        let _ = thread;
        let _ = accesses;
        false
    }

    fn ended(&self, thread: u32) {
        let _ = thread;
    }
}

/// Whether so many threads that each add one so often all end, and leave this sum.
fn adds_up<R: Threads + Wait + Sync>(
    rt: &R,
    alloc: Global,
    threads: u32,
    times: u32,
    sum: u64,
) -> bool {
    let program = adds_often(times);
    let wanted = Wanted {
        ended: Some(threads as usize),
        threads: &[],
        word: Some(sum),
        overheld: &[],
    };
    runs_as(
        rt,
        alloc,
        (4, 0, &program),
        threads,
        1 << 40,
        &Never,
        &wanted,
    ) == Ok(true)
}

/// A million commits in all tests together.
#[test]
fn no_addition_of_two_threads_is_lost(rt: HostRuntime) {
    assert_that(&rt, adds_up(&rt, rt.alloc(), 2, 200_000, 400_000));
}

#[test]
fn no_addition_of_four_threads_is_lost(rt: HostRuntime) {
    assert_that(&rt, adds_up(&rt, rt.alloc(), 4, 100_000, 400_000));
}

#[test]
fn no_addition_of_8_to_64_threads_is_lost(rt: HostRuntime) {
    let of_8 = adds_up(&rt, rt.alloc(), 8, 15_000, 120_000);
    let of_16 = adds_up(&rt, rt.alloc(), 16, 3_000, 48_000);
    let of_32 = adds_up(&rt, rt.alloc(), 32, 600, 19_200);
    let of_64 = adds_up(&rt, rt.alloc(), 64, 200, 12_800);
    assert_all(
        &rt,
        &[("8", of_8), ("16", of_16), ("32", of_32), ("64", of_64)],
    );
}

fn sums_at_rest() -> &'static Wanted<'static> {
    static WANTED: Wanted<'static> = Wanted {
        ended: None,
        threads: &[(0, "", Status::Running, 0), (1, "", Status::Running, 0)],
        word: Some(0),
        overheld: &[],
    };
    &WANTED
}

/// Whether two threads without a step leave all as it was.
fn makes_no_step<R: Threads + Wait + Sync>(rt: &R, alloc: Global) -> bool {
    runs_as(rt, alloc, prints(), 2, 0, &Never, sums_at_rest()) == Ok(true)
}

fn in_its_commit() -> &'static Wanted<'static> {
    static WANTED: Wanted<'static> = Wanted {
        ended: None,
        threads: &[(0, "1", Status::Running, 4)],
        word: None,
        overheld: &[],
    };
    &WANTED
}

/// Whether a thread that is cut in the middle of its commit has the lock, and has printed.
fn keeps_the_lock<R: Threads + Wait + Sync>(rt: &R, alloc: Global) -> bool {
    runs_as(rt, alloc, prints(), 1, 9, &Never, in_its_commit()) == Ok(true)
}

#[test]
fn a_run_is_cut_by_its_budget(rt: HostRuntime) {
    let none = makes_no_step(&rt, rt.alloc());
    let kept = keeps_the_lock(&rt, rt.alloc());
    assert_all(&rt, &[("no step", none), ("the lock kept", kept)]);
}

fn one_trapped() -> &'static Wanted<'static> {
    static WANTED: Wanted<'static> = Wanted {
        ended: None,
        threads: &[
            (0, "", Status::Trapped(Trap::ZeroDivisor), 0),
            (1, "", Status::Ended, 4),
        ],
        word: Some(1),
        overheld: &[],
    };
    &WANTED
}

/// Whether a run of so many threads, of which the first traps, is reported so.
fn one_traps<R: Threads + Wait + Sync>(
    rt: &R,
    alloc: Global,
    threads: u32,
) -> Result<bool, RunFault> {
    runs_as(rt, alloc, divides(), threads, 100, &Never, one_trapped())
}

#[test]
fn one_traps_and_one_ends(rt: HostRuntime) {
    let two = one_traps(&rt, rt.alloc(), 2) == Ok(true);
    let none = one_traps(&rt, rt.alloc(), 0) == Err(RunFault::Threads);
    let more = one_traps(&rt, rt.alloc(), 65) == Err(RunFault::Threads);
    assert_all(&rt, &[("two", two), ("none", none), ("65", more)]);
}
