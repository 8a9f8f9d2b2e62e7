//! Runs on real threads, and what their reports are to say.

use crate::of_workers::programs::{Program, code_of};
use bytecode::Code;
use std::alloc::Global;
use std::sync::Wait;
use std::thread::Threads;
use syntax::thread_end::Status;
use workers::{Gate, RunFault, RunMemory, RunReport, run_all};

/// A thread's number, what it has printed, how it is, and how many accesses it has made.
pub type Shown<'a> = (u32, &'a str, Status, u64);

/// What is to be found in a report.
#[derive(Clone, Copy)]
pub struct Wanted<'a> {
    /// How many threads there are, where all of them have ended by themselves.
    pub ended: Option<usize>,
    /// Some of the threads.
    pub threads: &'a [Shown<'a>],
    /// The word of `x`; none where thread 0 has the lock.
    pub word: Option<u64>,
    /// The threads that the gate held to the end.
    pub overheld: &'a [u32],
}

/// Whether so many threads ended, each by itself.
fn all_ended(report: &RunReport, threads: usize) -> bool {
    for thread in &report.threads {
        if thread.status() != Status::Ended {
            return false;
        }
    }
    for end in &report.ends {
        if end.stopped.is_some() {
            return false;
        }
    }
    report.threads.len() == threads && report.ends.len() == threads
}

/// Whether memory is this one word, or thread 0 has the lock.
fn leaves(memory: &RunMemory, word: Option<u64>) -> bool {
    match (memory, word) {
        (RunMemory::Words(words), Some(word)) => words.as_slice() == [word].as_slice(),
        (RunMemory::LockHeld(holder), None) => *holder == 0,
        _ => false,
    }
}

/// Whether a thread is found so.
fn is_shown(report: &RunReport, shown: &Shown) -> bool {
    for thread in &report.threads {
        if thread.thread() == shown.0 {
            let ran = thread.status() == shown.2 && thread.accesses() == shown.3;
            return ran && thread.output() == shown.1;
        }
    }
    false
}

/// Whether each of these threads is found so.
fn are_shown(report: &RunReport, threads: &[Shown]) -> bool {
    for shown in threads {
        if !is_shown(report, shown) {
            return false;
        }
    }
    true
}

/// Whether a report is as wanted.
fn is_as(report: &RunReport, wanted: &Wanted) -> bool {
    let ended = match wanted.ended {
        Some(threads) => all_ended(report, threads),
        None => true,
    };
    ended
        && leaves(&report.memory, wanted.word)
        && report.overheld.as_slice() == wanted.overheld
        && are_shown(report, wanted.threads)
}

/// Whether the report of so many threads of a code, each of which makes so many steps at most, is as wanted.
fn reports<R: Threads + Wait + Sync, G: Gate + Sync>(
    rt: &R,
    alloc: Global,
    code: &Code,
    threads: u32,
    budget: u64,
    gate: &G,
    wanted: &Wanted,
) -> Result<bool, RunFault> {
    match run_all(rt, alloc, code, threads, budget, gate) {
        Ok(report) => Ok(is_as(&report, wanted)),
        Err(fault) => Err(fault),
    }
}

/// Whether the report of so many threads of a program, each of which makes so many steps at most, is as wanted.
pub fn runs_as<R: Threads + Wait + Sync, G: Gate + Sync>(
    rt: &R,
    alloc: Global,
    program: Program,
    threads: u32,
    budget: u64,
    gate: &G,
    wanted: &Wanted,
) -> Result<bool, RunFault> {
    match code_of(alloc, program) {
        Some(code) => reports(rt, alloc, &code, threads, budget, gate, wanted),
        None => Err(RunFault::OutOfMemory),
    }
}
