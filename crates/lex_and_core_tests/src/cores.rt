//! Cores: played steps, each growth refused, and that `request_of_words` takes no memory.

ghost use Rattle.norec_core.specs.Accesses.{IsAnswerTo};

use crate::asserted::{assert_growths, assert_that};
use norec_core::{Access, Answer, Core, Op, OpOutcome, ReadStep, Saved, Stop};
use std::alloc::{Allocator, Global};
use test_memory::{Refusing, growths};

/// The answer of an access that finds this value in the lock or the word.
pub(crate) fn answer_to(access: Access, found: u64) -> Answer
    ensures { IsAnswerTo access result }
{
    match access {
        Access::LoadLock => Answer::Value(found),
        Access::LoadWord(_) => Answer::Value(found),
        Access::Swap(from) if from == found => Answer::Won,
        Access::Swap(_) => Answer::Lost(found),
        _ => Answer::Done,
    }
}

/// One step of an operation, whose access finds this value.
pub(crate) fn step<A: Allocator + Copy>(
    core: &mut Core<A>,
    op: Op,
    found: u64,
) -> Result<(Access, OpOutcome), Stop> {
    let access = core.prepare(op, &[3, 4], 2, 7)?;
    Ok((access, core.told(answer_to(access, found))))
}

/// An operation, what its access finds, the access, and what comes of the operation.
pub(crate) type Row = (Op, u64, Access, OpOutcome);

/// Whether each of these steps is played so. The rows stand in functions, so that no proof but theirs looks at them.
pub(crate) fn plays<A: Allocator + Copy>(core: &mut Core<A>, rows: &[Row]) -> bool {
    for row in rows {
        if step(core, row.0, row.1) != Ok((row.2, row.3)) {
            return false;
        }
    }
    true
}

/// A read that meets a later commit, reads anew and is written back.
fn read_again() -> &'static [Row] {
    static ROWS: [Row; 12] = [
        (Op::Begin, 1, Access::LoadLock, OpOutcome::Going),
        (Op::Begin, 2, Access::LoadLock, OpOutcome::Done),
        (Op::Read(5), 7, Access::LoadWord(5), OpOutcome::Going),
        (Op::Read(5), 4, Access::LoadLock, OpOutcome::Going),
        (Op::Read(5), 4, Access::LoadLock, OpOutcome::Going),
        (Op::Read(5), 4, Access::LoadLock, OpOutcome::Going),
        (Op::Read(5), 8, Access::LoadWord(5), OpOutcome::Going),
        (Op::Read(5), 4, Access::LoadLock, OpOutcome::Read(8)),
        (Op::Write(5, 9), 0, Access::Local, OpOutcome::Done),
        (Op::Commit, 4, Access::Swap(4), OpOutcome::Going),
        (Op::Commit, 0, Access::StoreWord(5, 9), OpOutcome::Going),
        (Op::Commit, 0, Access::StoreLock(6), OpOutcome::Done),
    ];
    &ROWS
}

/// A cancelled inner transaction, with a committed one in it, has written to cells written before it and to others.
fn nested_rows() -> &'static [Row] {
    static ROWS: [Row; 16] = [
        (Op::Begin, 2, Access::LoadLock, OpOutcome::Done),
        (Op::Write(3, 1), 0, Access::Local, OpOutcome::Done),
        (Op::Begin, 0, Access::Local, OpOutcome::Done),
        (Op::Write(3, 9), 0, Access::Local, OpOutcome::Done),
        (Op::Write(7, 4), 0, Access::Local, OpOutcome::Done),
        (Op::Begin, 0, Access::Local, OpOutcome::Done),
        (Op::Write(3, 10), 0, Access::Local, OpOutcome::Done),
        (Op::Commit, 0, Access::Local, OpOutcome::Done),
        (Op::Read(3), 0, Access::Local, OpOutcome::Read(10)),
        (Op::Cancel, 0, Access::Local, OpOutcome::Done),
        (Op::Read(3), 0, Access::Local, OpOutcome::Read(1)),
        (Op::Write(7, 6), 0, Access::Local, OpOutcome::Done),
        (Op::Commit, 2, Access::Swap(2), OpOutcome::Going),
        (Op::Commit, 0, Access::StoreWord(3, 1), OpOutcome::Going),
        (Op::Commit, 0, Access::StoreWord(7, 6), OpOutcome::Going),
        (Op::Commit, 0, Access::StoreLock(4), OpOutcome::Done),
    ];
    &ROWS
}

/// Validation finds another word in a cell that was read, and the attempt is dropped.
fn changed_word_rows() -> &'static [Row] {
    static ROWS: [Row; 7] = [
        (Op::Begin, 2, Access::LoadLock, OpOutcome::Done),
        (Op::Read(5), 7, Access::LoadWord(5), OpOutcome::Going),
        (Op::Read(5), 2, Access::LoadLock, OpOutcome::Read(7)),
        (Op::Read(6), 1, Access::LoadWord(6), OpOutcome::Going),
        (Op::Read(6), 4, Access::LoadLock, OpOutcome::Going),
        (Op::Read(6), 4, Access::LoadLock, OpOutcome::Going),
        (Op::Read(6), 8, Access::LoadWord(5), OpOutcome::Aborted),
    ];
    &ROWS
}

/// The lock is taken at its last value but one, and released at its last even one.
fn last_release() -> &'static [Row] {
    static ROWS: [Row; 5] = [
        (Op::Begin, u64::MAX - 3, Access::LoadLock, OpOutcome::Done),
        (Op::Write(5, 9), 0, Access::Local, OpOutcome::Done),
        (
            Op::Commit,
            u64::MAX - 3,
            Access::Swap(u64::MAX - 3),
            OpOutcome::Going,
        ),
        (Op::Commit, 0, Access::StoreWord(5, 9), OpOutcome::Going),
        (
            Op::Commit,
            0,
            Access::StoreLock(u64::MAX - 1),
            OpOutcome::Done,
        ),
    ];
    &ROWS
}

/// A transaction that has read at the last lock value commits there.
fn last_read() -> &'static [Row] {
    static ROWS: [Row; 4] = [
        (Op::Begin, u64::MAX - 1, Access::LoadLock, OpOutcome::Done),
        (Op::Read(5), 7, Access::LoadWord(5), OpOutcome::Going),
        (
            Op::Read(5),
            u64::MAX - 1,
            Access::LoadLock,
            OpOutcome::Read(7),
        ),
        (Op::Commit, 0, Access::Local, OpOutcome::Done),
    ];
    &ROWS
}

/// An attempt that has written cannot take the lock at its last value.
fn last_write() -> &'static [Row] {
    static ROWS: [Row; 2] = [
        (Op::Begin, u64::MAX - 1, Access::LoadLock, OpOutcome::Done),
        (Op::Write(5, 9), 0, Access::Local, OpOutcome::Done),
    ];
    &ROWS
}

/// The lock is taken early, read under without a check, and released by a trap.
fn early_lock_rows() -> &'static [Row] {
    static ROWS: [Row; 5] = [
        (Op::Begin, 2, Access::LoadLock, OpOutcome::Done),
        (Op::Irrevocable, 2, Access::Swap(2), OpOutcome::Done),
        (Op::Read(5), 7, Access::LoadWord(5), OpOutcome::Read(7)),
        (Op::Write(5, 9), 0, Access::Local, OpOutcome::Done),
        (Op::Release, 0, Access::StoreLock(4), OpOutcome::Done),
    ];
    &ROWS
}

/// Whether one core plays `read_again`, `nested_rows`, `last_release`, `last_read` and `early_lock_rows` in turn.
fn plays_each<A: Allocator + Copy>(core: &mut Core<A>) -> bool {
    plays(core, read_again())
        && plays(core, nested_rows())
        && plays(core, last_release())
        && plays(core, last_read())
        && plays(core, early_lock_rows())
}

/// Whether this is what was saved where the attempt that was aborted began.
fn is_first<A: Allocator + Copy>(saved: &Saved<A>) -> bool {
    saved.registers() == [3, 4].as_slice() && saved.frames() == 2 && saved.place() == 7
}

/// Whether a core whose validation fails goes back to that, and there is no attempt.
fn goes_back<A: Allocator + Copy>(core: &mut Core<A>) -> bool {
    plays(core, changed_word_rows()) && !core.has_attempt() && is_first(core.saved())
}

/// Whether an operation is not prepared, since the sequence is used up.
fn is_used_up<A: Allocator + Copy>(core: &mut Core<A>, op: Op) -> bool {
    core.prepare(op, &[], 0, 0) == Err(Stop::SequenceUsedUp)
}

/// A read of what was written, which is in the log.
fn read_in_place() -> &'static [Row] {
    static ROWS: [Row; 1] = [(Op::Read(5), 0, Access::Local, OpOutcome::Read(9))];
    &ROWS
}

/// Whether the lock is not taken at its last value, and the attempt goes on.
fn stops_at_the_last<A: Allocator + Copy>(core: &mut Core<A>) -> bool {
    plays(core, last_write())
        && is_used_up(core, Op::Commit)
        && is_used_up(core, Op::Irrevocable)
        && core.has_attempt()
        && !core.is_kept()
        && plays(core, read_in_place())
}

/// Makes these steps, each prepared again where it is refused, and says how many were; `None` where one is not made.
fn insist<A: Allocator + Copy>(core: &mut Core<A>, rows: &[Row]) -> Option<u64> {
    let mut refused = 0u64;
    for row in rows {
        if core.prepare(row.0, &[3, 4], 2, 7) == Err(Stop::OutOfMemory) {
            refused = refused.saturating_add(1);
        }
        if step(core, row.0, row.1).is_err() {
            return None;
        }
    }
    Some(refused)
}

/// How many steps of one of two transactions were refused, if all of both are made: the most.
fn insist_twice<A: Allocator + Copy>(core: &mut Core<A>) -> Option<u64> {
    match (insist(core, nested_rows()), insist(core, read_again())) {
        (Some(first), Some(second)) => Some(first.max(second)),
        _ => None,
    }
}

/// Whether steps are made where a growth may be refused: then one is, unless it is still to come, and a transaction
/// follows.
fn insists<A: Allocator + Copy, B: Allocator>(core: &mut Core<A>, refusing: &Refusing<B>) -> bool {
    let refused = insist_twice(core);
    if refusing.is_waiting() {
        return refused == Some(0);
    }
    refused == Some(1) && plays(core, nested_rows())
}

/// Whether a step is told its answer without a growth.
fn is_told_in_place<A: Allocator + Copy, B: Allocator>(
    core: &mut Core<A>,
    refusing: &Refusing<B>,
    row: &Row,
) -> bool {
    refusing.refuse(0);
    let Ok(access) = core.prepare(row.0, &[3, 4], 2, 7) else {
        return false;
    };
    refusing.refuse(1);
    core.told(answer_to(access, row.1));
    refusing.is_waiting()
}

/// Whether each of these steps is told its answer without a growth.
fn are_told_in_place<A: Allocator + Copy, B: Allocator>(
    core: &mut Core<A>,
    refusing: &Refusing<B>,
    rows: &[Row],
) -> bool {
    for row in rows {
        if !is_told_in_place(core, refusing, row) {
            return false;
        }
    }
    true
}

/// Whether a core takes no memory where it is told an answer.
fn tells_in_place<A: Allocator + Copy, B: Allocator>(
    core: &mut Core<A>,
    refusing: &Refusing<B>,
) -> bool {
    are_told_in_place(core, refusing, nested_rows())
        && are_told_in_place(core, refusing, changed_word_rows())
        && !core.has_attempt()
        && are_told_in_place(core, refusing, early_lock_rows())
}

/// Whether transactions are played in a core, and in the third round without a growth.
fn stays_roomy<A: Allocator + Copy, B: Allocator>(
    core: &mut Core<A>,
    refusing: &Refusing<B>,
) -> bool {
    for nth in [0, 0, 1] {
        refusing.refuse(nth);
        if !plays(core, read_again()) || !plays(core, nested_rows()) {
            return false;
        }
    }
    refusing.is_waiting()
}

/// Whether an operation whose access finds this value is made.
fn makes<A: Allocator + Copy>(core: &mut Core<A>, op: Op, found: u64) -> bool {
    step(core, op, found).is_ok()
}

/// Whether each of 1000 words is read and written.
fn writes_many<A: Allocator + Copy>(core: &mut Core<A>) -> bool {
    for cell in 0..1000u32 {
        let read = makes(core, Op::Read(cell), 5) && makes(core, Op::Read(cell), 2);
        if !read || !makes(core, Op::Write(cell, 6), 0) {
            return false;
        }
    }
    true
}

/// Whether a commit stores each of 1000 words.
fn stores_many<A: Allocator + Copy>(core: &mut Core<A>) -> bool {
    for cell in 0..1000u32 {
        let wanted = (Access::StoreWord(cell, 6), OpOutcome::Going);
        if step(core, Op::Commit, 0) != Ok(wanted) {
            return false;
        }
    }
    true
}

/// The lock is released after that.
fn release_rows() -> &'static [Row] {
    static ROWS: [Row; 1] = [(Op::Commit, 0, Access::StoreLock(4), OpOutcome::Done)];
    &ROWS
}

/// Whether a transaction that reads and writes each of 1000 words commits.
fn commits_many<A: Allocator + Copy>(core: &mut Core<A>) -> bool {
    makes(core, Op::Begin, 2)
        && writes_many(core)
        && makes(core, Op::Commit, 2)
        && stores_many(core)
        && plays(core, release_rows())
}

/// What comes of a read that is made whole, if it is: it finds this word, and then this lock.
fn reads<A: Allocator + Copy>(
    core: &mut Core<A>,
    cell: u32,
    word: u64,
    lock: u64,
) -> Option<OpOutcome> {
    match core.read(cell) {
        ReadStep::Loads => Some(core.take_read(cell, word, lock)),
        ReadStep::Written(_) | ReadStep::Other => None,
    }
}

/// Whether a read is made whole where nothing disturbs it, leaves validation where the lock has moved, and is not made
/// there.
fn reads_up_to_validation<A: Allocator + Copy>(core: &mut Core<A>) -> bool {
    reads(core, 5, 7, 2) == Some(OpOutcome::Read(7))
        && reads(core, 6, 7, 4) == Some(OpOutcome::Going)
        && reads(core, 6, 7, 4).is_none()
}

/// Whether reads are made whole in an attempt, where room is there.
fn reads_whole<A: Allocator + Copy, B: Allocator>(
    core: &mut Core<A>,
    refusing: &Refusing<B>,
) -> bool {
    let outside = reads(core, 5, 7, 2);
    let begun = makes(core, Op::Begin, 2);
    refusing.refuse(1);
    let refused = reads(core, 5, 7, 2);
    begun && outside.is_none() && refused.is_none() && reads_up_to_validation(core)
}

/// Validation after that.
fn validates() -> &'static [Row] {
    static ROWS: [Row; 2] = [
        (Op::Read(6), 4, Access::LoadLock, OpOutcome::Going),
        (Op::Read(6), 8, Access::LoadWord(5), OpOutcome::Aborted),
    ];
    &ROWS
}

/// Whether a core makes reads whole, and then validates.
fn makes_reads_whole<A: Allocator + Copy, B: Allocator>(
    core: &mut Core<A>,
    refusing: &Refusing<B>,
) -> bool {
    reads_whole(core, refusing) && plays(core, validates())
}

/// Whether a commit of nothing is made at once, and neither it nor a write is made outside.
fn commits_locally<A: Allocator + Copy>(core: &mut Core<A>) -> bool {
    let outside = core.write(5, 9) || core.commit();
    let begun = makes(core, Op::Begin, 2);
    !outside && begun && core.commit() && !core.has_attempt()
}

/// Whether a read of this cell is made at once, with this word.
fn reads_locally<A: Allocator + Copy>(core: &mut Core<A>, cell: u32, word: u64) -> bool {
    core.read(cell) == ReadStep::Written(word)
}

/// Whether what is written next is read at once, and a cell beside it is loaded.
fn reads_what_it_wrote<A: Allocator + Copy>(core: &mut Core<A>) -> bool {
    core.write(5, 8)
        && core.write(6, 7)
        && core.write(5, 9)
        && reads_locally(core, 5, 9)
        && reads_locally(core, 6, 7)
        && core.read(7) == ReadStep::Loads
}

/// Whether a write is made at once, and then reads of what was written, but no commit, which takes the lock.
fn writes_locally<A: Allocator + Copy>(core: &mut Core<A>) -> bool {
    let outside = core.read(5) == ReadStep::Other;
    let begun = makes(core, Op::Begin, 2);
    let written = reads_what_it_wrote(core);
    outside && begun && written && !core.commit() && plays(core, read_in_place())
}

/// Whether a commit of nothing and a write are both made at once.
fn does_both_locally<A: Allocator + Copy>(core: &mut Core<A>) -> bool {
    commits_locally(core) && writes_locally(core)
}

/// What a new core plays.
#[derive(Clone, Copy)]
enum Play {
    Steps,
    Abort,
    LastValues,
    Refused,
    Told,
    Rounds,
    LargeLogs,
    WholeReads,
    Locally,
}

/// Whether a core plays this.
fn plays_this<A: Allocator + Copy, B: Allocator>(
    core: &mut Core<A>,
    refusing: &Refusing<B>,
    play: Play,
) -> bool {
    match play {
        Play::Steps => plays_each(core),
        Play::Abort => goes_back(core),
        Play::LastValues => stops_at_the_last(core),
        Play::Refused => insists(core, refusing),
        Play::Told => tells_in_place(core, refusing),
        Play::Rounds => stays_roomy(core, refusing),
        Play::LargeLogs => commits_many(core),
        Play::WholeReads => makes_reads_whole(core, refusing),
        Play::Locally => does_both_locally(core),
    }
}

/// Whether a new core plays this.
fn new_plays<A: Allocator + Copy, B: Allocator>(
    alloc: A,
    refusing: &Refusing<B>,
    play: Play,
) -> bool {
    let mut core = Core::new(alloc);
    plays_this(&mut core, refusing, play)
}

/// Whether a new core plays this where growth `nth` is refused.
fn is_played_at(alloc: &Refusing<Global>, nth: u64, play: Play) -> bool {
    alloc.refuse(nth);
    new_plays(alloc, alloc, play)
}

/// Whether a new core plays this where no growth is refused.
fn is_played(inner: Global, play: Play) -> bool {
    is_played_at(&Refusing::new(inner, 0), 0, play)
}

#[test]
fn steps_are_played(rt: HostRuntime) {
    assert_that(&rt, is_played(rt.alloc(), Play::Steps));
}

#[test]
fn an_abort_goes_back_to_what_was_saved(rt: HostRuntime) {
    assert_that(&rt, is_played(rt.alloc(), Play::Abort));
}

#[test]
fn the_sequence_is_used_up(rt: HostRuntime) {
    assert_that(&rt, is_played(rt.alloc(), Play::LastValues));
}

#[test]
fn each_growth_is_refused_in_turn(rt: HostRuntime) {
    let met = growths(rt.alloc(), 100, |alloc, nth| {
        is_played_at(alloc, nth, Play::Refused)
    });
    assert_growths(&rt, met, 6);
}

#[test]
fn told_takes_no_memory(rt: HostRuntime) {
    assert_that(&rt, is_played(rt.alloc(), Play::Told));
}

/// After its first transactions a thread that runs more of the same kind takes no more memory.
#[test]
fn room_stays(rt: HostRuntime) {
    assert_that(&rt, is_played(rt.alloc(), Play::Rounds));
}

#[test]
fn large_logs_are_stored(rt: HostRuntime) {
    assert_that(&rt, is_played(rt.alloc(), Play::LargeLogs));
}

#[test]
fn reads_are_made_whole(rt: HostRuntime) {
    assert_that(&rt, is_played(rt.alloc(), Play::WholeReads));
}

#[test]
fn writes_and_commits_are_made_locally(rt: HostRuntime) {
    assert_that(&rt, is_played(rt.alloc(), Play::Locally));
}
