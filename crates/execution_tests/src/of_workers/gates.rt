//! Gates that hold threads back.

use crate::asserted::{assert_all, assert_that};
use crate::of_workers::programs::{adds, looks, nothing};
use crate::of_workers::reports::{Wanted, runs_as};
use std::alloc::Global;
use std::sync::Wait;
use std::sync::atomic::{AtomicBool, Ordering};
use std::thread;
use std::thread::Threads;
use syntax::thread_end::Status;
use workers::Gate;

/// Whether a flag is set within so many looks, between which other threads run.
fn sees(flag: &AtomicBool, looks: u64) -> bool {
    for _ in 0..looks {
        if flag.load(Ordering::SeqCst) {
            return true;
        }
        thread::yield_now();
    }
    false
}

/// Holds a thread at so many accesses until another one has ended, and that one at its beginning until the first has
/// come there. Each question looks up to 1,000 times.
#[derive(Drop)]
struct Until {
    thread: u32,
    accesses: u64,
    other: u32,
    there: AtomicBool,
    over: AtomicBool,
}

impl Gate for Until {
    fn hold(&self, thread: u32, accesses: u64) -> bool {
        if thread == self.other {
            return accesses == 0 && !sees(&self.there, 1000);
        }
        if accesses != self.accesses {
            return false;
        }
        self.there.store(true, Ordering::SeqCst);
        !sees(&self.over, 1000)
    }

    fn ended(&self, thread: u32) {
        if thread == self.other {
            self.over.store(true, Ordering::SeqCst);
        }
    }
}

fn made_until(thread: u32, accesses: u64, other: u32) -> Until {
    Until {
        thread,
        accesses,
        other,
        there: AtomicBool::new(false),
        over: AtomicBool::new(false),
    }
}

/// One thread has read x when the other one adds one: it is held until that one has ended, and has to begin anew: its
/// accesses show that.
fn adds_late<R: Threads + Wait + Sync>(rt: &R, alloc: Global, held: u32, other: u32) -> bool {
    let threads = [(held, "", Status::Ended, 12), (other, "", Status::Ended, 6)];
    let wanted = Wanted {
        ended: Some(2),
        threads: &threads,
        word: Some(2),
        overheld: &[],
    };
    let gate = made_until(held, 3, other);
    runs_as(rt, alloc, adds(), 2, 1000, &gate, &wanted) == Ok(true)
}

#[test]
fn one_is_held_while_the_other_adds(rt: HostRuntime) {
    let first = adds_late(&rt, rt.alloc(), 0, 1);
    let second = adds_late(&rt, rt.alloc(), 1, 0);
    assert_all(&rt, &[("the first", first), ("the second", second)]);
}

fn read_late() -> &'static Wanted<'static> {
    static WANTED: Wanted<'static> = Wanted {
        ended: Some(2),
        threads: &[(1, "2\n", Status::Ended, 3)],
        word: Some(2),
        overheld: &[],
    };
    &WANTED
}

/// Thread 1 is held at its beginning until thread 0 has ended, and reads what that one wrote.
fn reads_late<R: Threads + Wait + Sync>(rt: &R, alloc: Global) -> bool {
    let gate = made_until(1, 0, 0);
    runs_as(rt, alloc, looks(), 2, 1000, &gate, read_late()) == Ok(true)
}

#[test]
fn what_one_wrote_the_next_reads(rt: HostRuntime) {
    assert_that(&rt, reads_late(&rt, rt.alloc()));
}

/// Always holds.
#[derive(Drop)]
struct Always;

impl Gate for Always {
    fn hold(&self, thread: u32, accesses: u64) -> bool {
        let _ = thread;
        let _ = accesses;
        true
    }

    fn ended(&self, thread: u32) {
        let _ = thread;
    }
}

fn held_to_the_end() -> &'static Wanted<'static> {
    static WANTED: Wanted<'static> = Wanted {
        ended: Some(1),
        threads: &[],
        word: Some(0),
        overheld: &[0],
    };
    &WANTED
}

/// Whether thread 0 is held to the end of the gate's patience, and then ends.
fn is_overheld<R: Threads + Wait + Sync>(rt: &R, alloc: Global) -> bool {
    runs_as(rt, alloc, nothing(), 1, 1000, &Always, held_to_the_end()) == Ok(true)
}

#[test]
fn a_gate_that_always_holds_is_left_behind(rt: HostRuntime) {
    assert_that(&rt, is_overheld(&rt, rt.alloc()));
}

/// Two threads look at their first questions for each other's.
#[derive(Drop)]
struct Meeting {
    first: AtomicBool,
    second: AtomicBool,
    first_saw: AtomicBool,
    second_saw: AtomicBool,
}

/// The first question of a thread: it shows itself, and looks for the other one.
fn shows_and_looks(mine: &AtomicBool, theirs: &AtomicBool, saw: &AtomicBool) {
    if !mine.load(Ordering::SeqCst) {
        mine.store(true, Ordering::SeqCst);
        saw.store(sees(theirs, 1_000_000_000), Ordering::SeqCst);
    }
}

impl Gate for Meeting {
    fn hold(&self, thread: u32, accesses: u64) -> bool {
        let _ = accesses;
        if thread == 0 {
            shows_and_looks(&self.first, &self.second, &self.first_saw);
        } else {
            shows_and_looks(&self.second, &self.first, &self.second_saw);
        }
        false
    }

    fn ended(&self, thread: u32) {
        let _ = thread;
    }
}

fn both_added() -> &'static Wanted<'static> {
    static WANTED: Wanted<'static> = Wanted {
        ended: Some(2),
        threads: &[],
        word: Some(2),
        overheld: &[],
    };
    &WANTED
}

/// Whether two threads add, and both saw each other at their first questions.
fn meet_concurrently<R: Threads + Wait + Sync>(rt: &R, alloc: Global) -> bool {
    let gate = Meeting {
        first: AtomicBool::new(false),
        second: AtomicBool::new(false),
        first_saw: AtomicBool::new(false),
        second_saw: AtomicBool::new(false),
    };
    let right = runs_as(rt, alloc, adds(), 2, 1000, &gate, both_added()) == Ok(true);
    let first = gate.first_saw.load(Ordering::SeqCst);
    let second = gate.second_saw.load(Ordering::SeqCst);
    right && first && second
}

#[test]
fn two_threads_run_at_one_time(rt: HostRuntime) {
    assert_that(&rt, meet_concurrently(&rt, rt.alloc()));
}
