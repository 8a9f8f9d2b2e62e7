//! Replays of worked schedules.

use crate::asserted::{assert_all, assert_that};
use crate::wanted::{Wanted, is_as};
use bytecode::{Code, Instr};
use lex::token::Scalar;
use machine::{Event, StepShown};
use norec_core::{Access, Answer};
use replay::{Line, read_schedule, replay, seeded, timeline};
use std::alloc::Global;
use syntax::thread_end::{Status, Trap};
use syntax::tree::BinaryOp;
use test_codes::{code_of, over_x, traps};
use world::{StopReason, WorldEnd};

/// Adds 1 to x.
fn adds_one() -> &'static [Instr] {
    static CODE: [Instr; 7] = [
        Instr::Begin(6),
        Instr::Read(0, 0),
        Instr::Constant(1, 1),
        Instr::Compute(BinaryOp::Add, Scalar::Int, 0, 0, 1),
        Instr::Write(0, 0),
        Instr::Commit,
        Instr::Return,
    ];
    &CODE
}

/// Whether the report of these lines is as wanted.
fn replays(alloc: Global, code: &Code, threads: u32, lines: &[Line], wanted: &Wanted) -> bool {
    match replay(alloc, code, threads, lines) {
        Ok(report) => is_as(&report, wanted),
        Err(_) => false,
    }
}

/// Whether the report of a schedule's text is as wanted.
fn replays_text(alloc: Global, code: &Code, threads: u32, text: &str, wanted: &Wanted) -> bool {
    match read_schedule(alloc, text) {
        Ok(lines) => replays(alloc, code, threads, lines.as_slice(), wanted),
        Err(_) => false,
    }
}

/// Whether the report of a worker of these instructions by a schedule's text is as wanted.
fn gives(alloc: Global, instrs: &[Instr], threads: u32, text: &str, wanted: &Wanted) -> bool {
    match code_of(alloc, &over_x(instrs)) {
        Some(code) => replays_text(alloc, &code, threads, text, wanted),
        None => false,
    }
}

/// Two threads add one, and one of them is dropped once.
fn dropped_once() -> &'static Wanted<'static> {
    static WANTED: Wanted<'static> = Wanted {
        events: &[
            (11, 0, Event::Commit),
            (13, 1, Event::Abort),
            (19, 1, Event::Commit),
        ],
        threads: &[(WorldEnd::Ended, ""), (WorldEnd::Ended, "")],
        words: &[2],
        holder: None,
        stop: None,
    };
    &WANTED
}

#[test]
fn a_transaction_is_dropped_and_made_again(rt: HostRuntime) {
    let schedule = "0 a1\n1 a1\n0 a1\n1 a1\n0 a1\n1 a1\n0 a1\n1 a1\n0 a1\n1 a1\n0 a2\n1 a9";
    let holds = gives(rt.alloc(), adds_one(), 2, schedule, dropped_once());
    assert_that(&rt, holds);
}

/// One of two threads adds one, and then a third is named.
fn met_a_stranger() -> &'static Wanted<'static> {
    static WANTED: Wanted<'static> = Wanted {
        events: &[(6, 0, Event::Commit)],
        threads: &[(WorldEnd::Ended, ""), (WorldEnd::Running, "")],
        words: &[1],
        holder: None,
        stop: Some((1000, StopReason::Stranger)),
    };
    &WANTED
}

#[test]
fn a_stranger_ends_a_replay(rt: HostRuntime) {
    let schedule = "0 1000\n7 1\n1 100";
    let holds = gives(rt.alloc(), adds_one(), 2, schedule, met_a_stranger());
    assert_that(&rt, holds);
}

/// The one thread traps behind its print.
fn trap_replay() -> &'static Wanted<'static> {
    static WANTED: Wanted<'static> = Wanted {
        events: &[(3, 0, Event::Trap(Trap::ZeroDivisor))],
        threads: &[(WorldEnd::Trapped(Trap::ZeroDivisor), "2")],
        words: &[0],
        holder: None,
        stop: None,
    };
    &WANTED
}

#[test]
fn a_trap_gives_the_lock_back(rt: HostRuntime) {
    let holds = gives(rt.alloc(), traps(), 1, "0 a10", trap_replay());
    assert_that(&rt, holds);
}

/// Adds 1 to x, and takes back what two inner transactions do, as one: its place and registers are those of the outer
/// of these.
fn takes_back() -> &'static [Instr] {
    static CODE: [Instr; 14] = [
        Instr::Begin(13),
        Instr::Read(0, 0),
        Instr::Constant(1, 1),
        Instr::Compute(BinaryOp::Add, Scalar::Int, 0, 0, 1),
        Instr::Write(0, 0),
        Instr::Begin(11),
        Instr::Constant(0, 9),
        Instr::Write(0, 0),
        Instr::Begin(10),
        Instr::CancelOuter(2),
        Instr::Commit,
        Instr::Commit,
        Instr::PrintSigned(0),
        Instr::Return,
    ];
    &CODE
}

fn taken_back() -> &'static Wanted<'static> {
    static WANTED: Wanted<'static> = Wanted {
        events: &[(3, 0, Event::Cancel), (6, 0, Event::Commit)],
        threads: &[(WorldEnd::Ended, "1")],
        words: &[1],
        holder: None,
        stop: None,
    };
    &WANTED
}

#[test]
fn a_cancel_of_two_levels_goes_back_to_the_outer_one(rt: HostRuntime) {
    let holds = gives(rt.alloc(), takes_back(), 1, "0 a20", taken_back());
    assert_that(&rt, holds);
}

/// Reads x in the inner one of two transactions, takes back both, and stores 5.
fn reads_and_takes_back() -> &'static [Instr] {
    static CODE: [Instr; 10] = [
        Instr::Begin(9),
        Instr::Begin(6),
        Instr::Begin(5),
        Instr::Read(0, 0),
        Instr::CancelOuter(2),
        Instr::Commit,
        Instr::Constant(0, 5),
        Instr::Write(0, 0),
        Instr::Commit,
        Instr::Return,
    ];
    &CODE
}

/// What thread 1 has read in transactions that it takes back is validated all the same, once thread 0 has stored.
fn validation_replay() -> &'static Wanted<'static> {
    static WANTED: Wanted<'static> = Wanted {
        events: &[
            (6, 0, Event::Cancel),
            (9, 0, Event::Commit),
            (9, 1, Event::Cancel),
            (12, 1, Event::Abort),
            (15, 1, Event::Cancel),
            (18, 1, Event::Commit),
        ],
        threads: &[(WorldEnd::Ended, ""), (WorldEnd::Ended, "")],
        words: &[5],
        holder: None,
        stop: None,
    };
    &WANTED
}

#[test]
fn what_cancelled_levels_have_read_is_validated(rt: HostRuntime) {
    let schedule = "1 a3\n0 a9\n1 a20";
    let holds = gives(
        rt.alloc(),
        reads_and_takes_back(),
        2,
        schedule,
        validation_replay(),
    );
    assert_that(&rt, holds);
}

/// A thread that prints has the lock before its print.
fn lock_held_replay() -> &'static Wanted<'static> {
    static WANTED: Wanted<'static> = Wanted {
        events: &[],
        threads: &[(WorldEnd::Running, "")],
        words: &[0],
        holder: Some(0),
        stop: None,
    };
    &WANTED
}

#[test]
fn a_replay_ends_with_the_lock_held(rt: HostRuntime) {
    let holds = gives(rt.alloc(), traps(), 1, "0 a2", lock_held_replay());
    assert_that(&rt, holds);
}

/// Whether four threads that add one each leave 4 by these lines.
fn adds_up_by(alloc: Global, code: &Code, lines: &[Line]) -> bool {
    match replay(alloc, code, 4, lines) {
        Ok(report) => report.holder.is_none() && report.words.as_slice() == [4u64].as_slice(),
        Err(_) => false,
    }
}

/// Whether four threads that add one each leave 4 by the steps of a seed.
fn adds_up(alloc: Global, code: &Code, seed: u64) -> bool {
    match seeded(alloc, seed, 4, 400) {
        Ok(lines) => adds_up_by(alloc, code, lines.as_slice()),
        Err(_) => false,
    }
}

/// Whether four threads that add one each leave 4 by the steps of the seeds 1 to 19.
fn all_add_up(alloc: Global, code: &Code) -> bool {
    for seed in 1..20u64 {
        if !adds_up(alloc, code, seed) {
            return false;
        }
    }
    true
}

/// Whether the code of threads that add one each leaves 4 by the steps of the seeds 1 to 19.
fn seeds_add_up(alloc: Global) -> bool {
    match code_of(alloc, &over_x(adds_one())) {
        Some(code) => all_add_up(alloc, &code),
        None => false,
    }
}

#[test]
fn a_seed_adds_all(rt: HostRuntime) {
    assert_that(&rt, seeds_add_up(rt.alloc()));
}

/// A quiet step of a thread that runs.
fn quiet(place: u32, access: Access, answer: Answer) -> StepShown {
    StepShown {
        status: Status::Running,
        place,
        access,
        answer,
        event: Event::Quiet,
    }
}

/// Whether this is shown of steps of two threads.
fn are_shown(alloc: Global, code: &Code, steps: &[u32], wanted: &[(u64, u32, StepShown)]) -> bool {
    match timeline(alloc, code, 2, steps) {
        Some(shown) => shown.as_slice() == wanted,
        None => wanted.is_empty(),
    }
}

/// Whether this is shown of steps of two threads of these instructions.
fn shows(alloc: Global, instrs: &[Instr], steps: &[u32], wanted: &[(u64, u32, StepShown)]) -> bool {
    match code_of(alloc, &over_x(instrs)) {
        Some(code) => are_shown(alloc, &code, steps, wanted),
        None => false,
    }
}

/// What is shown of the first steps of both threads.
fn first_steps() -> [(u64, u32, StepShown); 5] {
    let lock = quiet(0, Access::LoadLock, Answer::Value(0));
    [
        (1, 0, lock),
        (2, 0, quiet(1, Access::LoadWord(0), Answer::Value(0))),
        (3, 1, lock),
        (4, 0, quiet(1, Access::LoadLock, Answer::Value(0))),
        (4, 0, quiet(2, Access::Local, Answer::Done)),
    ]
}

#[test]
fn each_step_is_shown(rt: HostRuntime) {
    let both = shows(rt.alloc(), adds_one(), &[0, 0, 1, 0, 0], &first_steps());
    // nothing is shown with a step of a thread that there is not
    let stranger = shows(rt.alloc(), adds_one(), &[0, 2], &[]);
    assert_all(&rt, &[("both", both), ("a stranger", stranger)]);
}

/// Takes back two transactions, which are all that are open.
fn takes_all_back() -> &'static [Instr] {
    static CODE: [Instr; 4] = [
        Instr::Begin(3),
        Instr::Begin(3),
        Instr::CancelOuter(2),
        Instr::Return,
    ];
    &CODE
}

#[test]
fn a_cancel_of_two_levels_is_one_step(rt: HostRuntime) {
    let cancels = StepShown {
        event: Event::Cancel,
        ..quiet(2, Access::Local, Answer::Done)
    };
    let wanted = [
        (1, 0, quiet(0, Access::LoadLock, Answer::Value(0))),
        (1, 0, quiet(1, Access::Local, Answer::Done)),
        (1, 0, cancels),
        (1, 0, quiet(3, Access::Local, Answer::Done)),
    ];
    let holds = shows(rt.alloc(), takes_all_back(), &[0, 0, 0, 0], &wanted);
    assert_that(&rt, holds);
}
