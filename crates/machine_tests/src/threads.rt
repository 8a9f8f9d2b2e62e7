//! Threads: played steps, the last values of the lock, each growth refused, and that `told` takes no memory.

ghost use Rattle.norec_core.specs.Accesses.{IsAnswerTo};
ghost use Rattle.std.specs.Prelude.{◌≡◌, ◌+◌, ◌<◌, ◌≤◌, ◌^◌, true, IfSome, slice_index};
ghost use Rattle.bytecode.specs.Code.{bounds_of};
ghost use Rattle.machine.specs.Standing.{IsThreadOf};
ghost use Rattle.machine.specs.States.{IsWordOf};

use crate::asserted::{assert_all, assert_that};
use crate::built::code_of_two;
use crate::rows::{Row, dropped_once, trap_rows};
use bytecode::{Code, Instr};
use frames::Doing;
use machine::{Event, Loads, Thread};
use norec_core::{Access, Answer, Stop};
use std::alloc::{Allocator, Global};
use syntax::thread_end::{Status, Trap};
use test_codes::{adds_five, code_of, over_x, traps};
use test_memory::{Refusing, growths};

/// The most accesses of a thread here.
const MOST: u64 = 1_000_000;

/// The last even value of the lock.
const LAST: u64 = u64::MAX - 1;

/// Whether this is a cell of the code's first global.
fn is_in_first<A: Allocator>(code: &Code<A>, cell: u32) -> bool
    ensures { result ≡ true → 2 ^ 32 ≤ slice_index (bounds_of code.now) cell }
{
    match code.globals().first() {
        Some(global) => (cell as usize) < global.cell_count(),
        None => false,
    }
}

/// The answer of an access that finds this lock, or this word, where it names a cell of the code's first global.
fn answer_to<A: Allocator>(code: &Code<A>, access: Access, lock: u64, word: u32) -> Option<Answer>
    ensures fits { IfSome result (λ y. IsAnswerTo access y) }
    ensures word { IfSome result (λ y. IsWordOf code.now access y) }
{
    match access {
        Access::LoadLock => Some(Answer::Value(lock)),
        Access::LoadWord(cell) => {
            if is_in_first(code, cell) {
                Some(Answer::Value(u64::from(word)))
            } else {
                None
            }
        }
        Access::Swap(from) => {
            if from == lock {
                Some(Answer::Won)
            } else {
                Some(Answer::Lost(lock))
            }
        }
        _ => Some(Answer::Done),
    }
}

/// A thread at its beginning.
fn fresh_thread<A: Allocator + Copy>(alloc: A, code: &Code<A>) -> Option<Thread<A>>
    ensures { IfSome result (λ t. IsThreadOf code.now t.thread) }
{
    match Thread::new(alloc, code, 0) {
        Ok(thread) => Some(thread),
        Err(_) => None,
    }
}

/// One step, of a thread that has made few.
fn step<A: Allocator + Copy>(
    thread: &mut Thread<A>,
    code: &Code<A>,
    lock: u64,
    word: u32,
) -> Option<Result<(Access, Event), Stop>>
    requires { IsThreadOf code.now thread.old.thread }
    ensures { IsThreadOf code.now thread.new.thread }
{
    if thread.accesses() > MOST {
        return None;
    }
    match thread.prepare(code) {
        Ok(access) => match answer_to(code, access, lock, word) {
            Some(answer) => Some(Ok((access, thread.told(code, answer)))),
            None => None,
        },
        Err(why) => Some(Err(why)),
    }
}

/// Whether a step that was not refused room is this one.
fn is_made(step: Option<Result<(Access, Event), Stop>>, wanted: Option<(Access, Event)>) -> bool {
    match step {
        Some(Ok(made)) => wanted == Some(made),
        Some(Err(Stop::SequenceUsedUp)) => wanted.is_none(),
        _ => false,
    }
}

/// Whether the next step is this one. Where it was refused room it is made again, and counted.
fn is_next<A: Allocator + Copy>(
    thread: &mut Thread<A>,
    code: &Code<A>,
    row: Row,
    refused: &mut u64,
) -> bool
    requires { IsThreadOf code.now thread.old.thread }
    ensures { IsThreadOf code.now thread.new.thread }
{
    let (lock, word, wanted) = row;
    let first = step(thread, code, lock, word);
    if first != Some(Err(Stop::OutOfMemory)) {
        return is_made(first, wanted);
    }
    *refused = refused.saturating_add(1);
    is_made(step(thread, code, lock, word), wanted)
}

/// Whether these are the next steps, and how many of them were refused room first.
fn plays<A: Allocator + Copy>(thread: &mut Thread<A>, code: &Code<A>, rows: &[Row]) -> Option<u64>
    requires { IsThreadOf code.now thread.old.thread }
    ensures { IsThreadOf code.now thread.new.thread }
{
    let mut refused = 0u64;
    'rows: for row in rows {
        if !is_next(thread, code, *row, &mut refused) {
            return None;
        }
    }
    Some(refused)
}

/// How a thread is, what it has printed, and how many accesses it has made. It has not got the lock.
type Found<'a> = (Status, &'a str, u64);

fn is_found<A: Allocator + Copy>(thread: &Thread<A>, found: Found) -> bool {
    let (status, output, accesses) = found;
    thread.status() == status
        && thread.output() == output
        && thread.accesses() == accesses
        && !thread.has_lock()
}

/// How many steps were refused room, if these are the next steps and the thread is then found so.
fn goes<A: Allocator + Copy>(
    thread: &mut Thread<A>,
    code: &Code<A>,
    rows: &[Row],
    found: Found,
) -> Option<u64>
    requires { IsThreadOf code.now thread.old.thread }
{
    let refused = plays(thread, code, rows);
    if is_found(thread, found) {
        refused
    } else {
        None
    }
}

/// How many steps of a new thread of this code were refused room, if these are its steps and it is then found so.
/// Growth `nth` is refused, or none.
fn begins<A: Allocator + Copy, B: Allocator>(
    alloc: A,
    refusing: &Refusing<B>,
    code: &Code<A>,
    nth: u64,
    rows: &[Row],
    found: Found,
) -> Option<u64> {
    match fresh_thread(alloc, code) {
        Some(mut thread) => {
            refusing.refuse(nth);
            goes(&mut thread, code, rows, found)
        }
        None => None,
    }
}

/// How many steps of a thread of these instructions were refused room, if these are its steps and it is then found so.
/// Growth `nth` is refused, or none.
fn makes<A: Allocator + Copy, B: Allocator>(
    alloc: A,
    refusing: &Refusing<B>,
    nth: u64,
    instructions: &[Instr],
    rows: &[Row],
    found: Found,
) -> Option<u64> {
    match code_of(alloc, &over_x(instructions)) {
        Some(code) => begins(alloc, refusing, &code, nth, rows, found),
        None => None,
    }
}

/// How many steps of a thread of these instructions were refused room by a new allocator, which refuses growth `nth`,
/// or none, if these are its steps and it is then found so.
fn steps(
    inner: Global,
    nth: u64,
    instructions: &[Instr],
    rows: &[Row],
    found: Found,
) -> Option<u64> {
    let alloc = Refusing::new(inner, 0);
    makes(&alloc, &alloc, nth, instructions, rows, found)
}

/// Whether these are the next steps of these instructions, and the thread is then found so, where no growth is refused.
fn go(inner: Global, instructions: &[Instr], rows: &[Row], found: Found) -> bool {
    steps(inner, 0, instructions, rows, found) == Some(0)
}

#[test]
fn a_dropped_attempt_begins_again(rt: HostRuntime) {
    let found = (Status::Ended, "13", 13);
    assert_that(&rt, go(rt.alloc(), adds_five(), dropped_once(), found));
}

#[test]
fn a_trap_gives_the_lock_back_and_is_the_end(rt: HostRuntime) {
    let found = (Status::Trapped(Trap::ZeroDivisor), "2", 3);
    assert_that(&rt, go(rt.alloc(), traps(), trap_rows(), found));
}

/// Reads, in a transaction.
fn reader() -> &'static [Instr] {
    static CODE: [Instr; 4] = [
        Instr::Begin(3),
        Instr::Read(0, 0),
        Instr::Commit,
        Instr::Return,
    ];
    &CODE
}

/// The steps of `reader` at the last value of the lock.
fn read_last() -> &'static [Row] {
    static ROWS: [Row; 4] = [
        (LAST, 7, Some((Access::LoadLock, Event::Quiet))),
        (LAST, 7, Some((Access::LoadWord(0), Event::Quiet))),
        (LAST, 7, Some((Access::LoadLock, Event::Quiet))),
        (LAST, 7, Some((Access::Local, Event::Commit))),
    ];
    &ROWS
}

/// Writes, in a transaction.
fn writer() -> &'static [Instr] {
    static CODE: [Instr; 4] = [
        Instr::Begin(3),
        Instr::Write(0, 0),
        Instr::Commit,
        Instr::Return,
    ];
    &CODE
}

/// The steps of `writer`, which bring the lock to its last value.
fn written_last() -> &'static [Row] {
    static ROWS: [Row; 5] = [
        (LAST - 2, 7, Some((Access::LoadLock, Event::Quiet))),
        (LAST - 2, 7, Some((Access::Local, Event::Quiet))),
        (LAST - 2, 7, Some((Access::Swap(LAST - 2), Event::Quiet))),
        (LAST - 1, 7, Some((Access::StoreWord(0, 0), Event::Quiet))),
        (LAST - 1, 0, Some((Access::StoreLock(LAST), Event::Commit))),
    ];
    &ROWS
}

#[test]
fn a_reader_and_a_last_writer_commit(rt: HostRuntime) {
    let read = (Status::Running, "", 3);
    let written = (Status::Running, "", 4);
    let reads = go(rt.alloc(), reader(), read_last(), read);
    let writes = go(rt.alloc(), writer(), written_last(), written);
    assert_all(&rt, &[("a reader", reads), ("a last writer", writes)]);
}

/// This word in each cell, and the lock at this value.
#[derive(Drop)]
struct Uniform {
    word: u32,
    lock: u64,
}

impl Loads for Uniform {
    ghost leads = { λ code s from n t at. at.accesses ≤ from.accesses + n };

    ghost can_step = { λ code s from m. from.accesses + m < 2 ^ 64 };

    fn load(&mut self, cell: u32) -> (u64, u64) {
        // Any cell.
        let _cell = cell;
        (u64::from(self.word), self.lock)
    }

    fn stays(&self) {}

    fn goes_on(&self) {}
}

/// What stands at a thread's place after a begin at the lock value 2, and as many steps as go on from there, where 7
/// and this lock are found; and how many these are.
fn reads_on<A: Allocator + Copy>(
    thread: &mut Thread<A>,
    code: &Code<A>,
    lock: u64,
) -> Option<(u64, Option<Doing>)>
    requires { IsThreadOf code.now thread.old.thread }
{
    let begins = step(thread, code, 2, 0);
    if begins.is_none() || thread.accesses() > MOST {
        return None;
    }
    let mut found = Uniform { word: 7, lock };
    Some(thread.advance(code, &mut found, MOST))
}

/// What stands at a new thread's place after a begin at the lock value 2, and as many steps as go on from there, where
/// 7 and this lock are found; and how many these are.
fn reads_first<A: Allocator + Copy>(
    alloc: A,
    code: &Code<A>,
    lock: u64,
) -> Option<(u64, Option<Doing>)> {
    match fresh_thread(alloc, code) {
        Some(mut thread) => reads_on(&mut thread, code, lock),
        None => None,
    }
}

/// What stands at the place of a thread of these instructions after a begin at the lock value 2, and as many steps as
/// go on from there, where 7 and this lock are found; and how many these are.
fn reads_of(inner: Global, instructions: &[Instr], lock: u64) -> Option<(u64, Option<Doing>)> {
    match code_of(inner, &over_x(instructions)) {
        Some(code) => reads_first(inner, &code, lock),
        None => None,
    }
}

/// Reads into another register.
fn reads_aside() -> &'static [Instr] {
    static CODE: [Instr; 4] = [
        Instr::Begin(3),
        Instr::Read(1, 0),
        Instr::Commit,
        Instr::Return,
    ];
    &CODE
}

/// Writes what it has read.
fn writes_back() -> &'static [Instr] {
    static CODE: [Instr; 5] = [
        Instr::Begin(4),
        Instr::Read(1, 0),
        Instr::Write(1, 0),
        Instr::Commit,
        Instr::Return,
    ];
    &CODE
}

#[test]
fn a_read_is_made_whole_and_what_follows_is_local(rt: HostRuntime) {
    let aside = reads_of(rt.alloc(), reads_aside(), 2);
    let back = reads_of(rt.alloc(), writes_back(), 2);
    assert_all(
        &rt,
        &[
            ("aside", aside == Some((3, Some(Doing::End)))),
            ("written back", back == Some((3, Some(Doing::Commit)))),
        ],
    );
}

#[test]
fn a_read_that_finds_another_lock_stands_there_still(rt: HostRuntime) {
    let found = reads_of(rt.alloc(), reads_aside(), 4);
    assert_that(&rt, found == Some((2, Some(Doing::Read(1, 0)))));
}

/// Takes the lock to print, in a transaction.
fn printer() -> &'static [Instr] {
    static CODE: [Instr; 6] = [
        Instr::Begin(5),
        Instr::Constant(1, 7),
        Instr::Irrevocable,
        Instr::PrintSigned(1),
        Instr::Commit,
        Instr::Return,
    ];
    &CODE
}

/// The steps of `writer` and of `printer` up to the lock, at its last value.
fn used_up() -> &'static [Row] {
    static ROWS: [Row; 4] = [
        (LAST, 7, Some((Access::LoadLock, Event::Quiet))),
        (LAST, 7, Some((Access::Local, Event::Quiet))),
        (LAST, 7, None),
        (LAST, 7, None),
    ];
    &ROWS
}

#[test]
fn nobody_takes_the_lock_at_its_last_value(rt: HostRuntime) {
    let stopped = (Status::Running, "", 1);
    let writes = go(rt.alloc(), writer(), used_up(), stopped);
    let prints = go(rt.alloc(), printer(), used_up(), stopped);
    assert_all(&rt, &[("a writer", writes), ("a printer", prints)]);
}

/// Whether a thread goes on where one step is refused room, if growth `nth` is met, and none else.
fn goes_on_at(alloc: &Refusing<Global>, nth: u64) -> bool {
    let found = (Status::Ended, "13", 13);
    match makes(alloc, alloc, nth, adds_five(), dropped_once(), found) {
        Some(refused) => refused == 0 && alloc.is_waiting() || refused == 1 && !alloc.is_waiting(),
        None => false,
    }
}

#[test]
fn a_step_that_was_refused_room_is_made_again(rt: HostRuntime) {
    assert_that(&rt, growths(rt.alloc(), 20, goes_on_at).ok() > Some(2));
}

/// Whether the next step is this one, and takes no memory from when it is told its answer on.
fn is_told_in_place<A: Allocator + Copy, B: Allocator>(
    thread: &mut Thread<A>,
    code: &Code<A>,
    refusing: &Refusing<B>,
    row: Row,
) -> bool
    requires { IsThreadOf code.now thread.old.thread }
    ensures { IsThreadOf code.now thread.new.thread }
{
    let (lock, word, wanted) = row;
    if thread.accesses() > MOST {
        return false;
    }
    refusing.refuse(0);
    match thread.prepare(code) {
        Ok(access) => match answer_to(code, access, lock, word) {
            Some(answer) => {
                refusing.refuse(1);
                let event = thread.told(code, answer);
                refusing.is_waiting() && wanted == Some((access, event))
            }
            None => false,
        },
        Err(_) => false,
    }
}

/// Whether these are the next steps, and take no memory from when they are told their answers on.
fn are_told_in_place<A: Allocator + Copy, B: Allocator>(
    thread: &mut Thread<A>,
    code: &Code<A>,
    refusing: &Refusing<B>,
    rows: &[Row],
) -> bool
    requires { IsThreadOf code.now thread.old.thread }
    ensures { IsThreadOf code.now thread.new.thread }
{
    'rows: for row in rows {
        if !is_told_in_place(thread, code, refusing, *row) {
            return false;
        }
    }
    true
}

/// Whether these are the first steps of a thread of this code, each told so, and the thread is then found so.
fn tells_in_place<A: Allocator + Copy, B: Allocator>(
    alloc: A,
    refusing: &Refusing<B>,
    code: &Code<A>,
    rows: &[Row],
    found: Found,
) -> bool {
    match fresh_thread(alloc, code) {
        Some(mut thread) => {
            are_told_in_place(&mut thread, code, refusing, rows) && is_found(&thread, found)
        }
        None => false,
    }
}

/// Calls and writes in an inner transaction that is cancelled, and then cancels two at once. `f` writes its parameter
/// and gives it back.
fn calls_and_cancels() -> &'static [Instr] {
    static CODE: [Instr; 13] = [
        Instr::Begin(9),
        Instr::Write(0, 0),
        Instr::Begin(6),
        Instr::Call(1, 1, 1, 0),
        Instr::Write(1, 0),
        Instr::Cancel,
        Instr::Begin(8),
        Instr::CancelOuter(2),
        Instr::Commit,
        Instr::PrintText(0),
        Instr::Return,
        Instr::Write(0, 0),
        Instr::ReturnValue(0),
    ];
    &CODE
}

/// The steps of `calls_and_cancels`.
fn cancel_rows() -> &'static [Row] {
    static ROWS: [Row; 12] = [
        (2, 7, Some((Access::LoadLock, Event::Quiet))),
        (2, 7, Some((Access::Local, Event::Quiet))),
        (2, 7, Some((Access::Local, Event::Quiet))),
        (2, 7, Some((Access::Local, Event::Quiet))),
        (2, 7, Some((Access::Local, Event::Quiet))),
        (2, 7, Some((Access::Local, Event::Quiet))),
        (2, 7, Some((Access::Local, Event::Quiet))),
        (2, 7, Some((Access::Local, Event::Cancel))),
        (2, 7, Some((Access::Local, Event::Quiet))),
        (2, 7, Some((Access::Local, Event::Cancel))),
        (2, 7, Some((Access::Local, Event::Quiet))),
        (2, 7, Some((Access::Local, Event::Quiet))),
    ];
    &ROWS
}

/// Whether a thread of these instructions takes no memory where it is told its answers.
fn is_told_all(inner: Global, instructions: &[Instr], rows: &[Row], found: Found) -> bool {
    let alloc = Refusing::new(inner, 0);
    match code_of(&alloc, &over_x(instructions)) {
        Some(code) => tells_in_place(&alloc, &alloc, &code, rows, found),
        None => false,
    }
}

/// Whether a thread that calls and cancels takes no memory where it is told its answers.
fn is_told_cancels(inner: Global) -> bool {
    let alloc = Refusing::new(inner, 0);
    match code_of_two(&alloc, calls_and_cancels(), 11, (2, 1)) {
        Some(code) => {
            let found = (Status::Ended, "\"\t\"", 1);
            tells_in_place(&alloc, &alloc, &code, cancel_rows(), found)
        }
        None => false,
    }
}

#[test]
fn told_takes_no_memory(rt: HostRuntime) {
    let drops = (Status::Ended, "13", 13);
    let ends = (Status::Trapped(Trap::ZeroDivisor), "2", 3);
    let dropped = is_told_all(rt.alloc(), adds_five(), dropped_once(), drops);
    let trapping = is_told_all(rt.alloc(), traps(), trap_rows(), ends);
    let cancelling = is_told_cancels(rt.alloc());
    assert_all(
        &rt,
        &[
            ("a dropped attempt", dropped),
            ("a trap with the lock kept", trapping),
            ("a call and cancels", cancelling),
        ],
    );
}
