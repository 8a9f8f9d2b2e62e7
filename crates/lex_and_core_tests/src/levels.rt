//! Cancels of several levels, in a core: of 2 to 16 levels and of more than are open, with the lock kept and without.

use crate::asserted::assert_that;
use crate::cores::{Row, answer_to, plays, step};
use norec_core::{Access, Core, Op, OpOutcome, Saved, Stop};
use std::alloc::{Allocator, Global};
use test_memory::Refusing;

/// What a step comes to: its access, and what comes of the operation.
type Made = Result<(Access, OpOutcome), Stop>;

/// A local step after which the operation is done, or goes on.
const DONE: Made = Ok((Access::Local, OpOutcome::Done));

const GOING: Made = Ok((Access::Local, OpOutcome::Going));

/// How many levels are open, how many of them are cancelled, and whether the lock is kept.
#[derive(Clone, Copy)]
struct Cancel {
    depth: u32,
    levels: u32,
    kept: bool,
}

/// Whether the begin of this level is made, counted from 1 for the outermost one. It saves its number.
fn begins<A: Allocator + Copy>(core: &mut Core<A>, level: u32) -> bool {
    match core.prepare(Op::Begin, &[u64::from(level)], 2, level) {
        Ok(access) => core.told(answer_to(access, 2)) == OpOutcome::Done,
        Err(_) => false,
    }
}

/// Whether a word is written.
fn writes<A: Allocator + Copy>(core: &mut Core<A>, cell: u32, word: u32) -> bool {
    step(core, Op::Write(cell, u64::from(word)), 0) == DONE
}

/// Whether a level begins and writes its number to a cell of its own and to one that all levels write.
fn opens<A: Allocator + Copy>(core: &mut Core<A>, level: u32) -> bool {
    begins(core, level) && writes(core, level, level) && writes(core, 0, level)
}

/// Whether so many levels begin, and each writes its number to a cell of its own and to one that all levels write.
fn opens_each<A: Allocator + Copy>(core: &mut Core<A>, depth: u32) -> bool {
    for level in 1..depth.saturating_add(1) {
        if !opens(core, level) {
            return false;
        }
    }
    true
}

/// Whether all levels begin, with the lock kept where it is to be.
fn stands<A: Allocator + Copy>(core: &mut Core<A>, cancel: Cancel) -> bool {
    let keeps = Ok((Access::Swap(2), OpOutcome::Done));
    opens_each(core, cancel.depth) && (!cancel.kept || step(core, Op::Irrevocable, 2) == keeps)
}

/// Whether a read of a cell is of what was written.
fn is_written<A: Allocator + Copy>(core: &mut Core<A>, cell: u32) -> bool {
    core.prepare(Op::Read(cell), &[], 0, 0) == Ok(Access::Local)
}

/// Whether the words of so many levels are there, and of no more.
fn has_words_of<A: Allocator + Copy>(core: &mut Core<A>, levels: u32) -> bool {
    for level in 1..18u32 {
        if is_written(core, level) != (level <= levels) {
            return false;
        }
    }
    let last = Ok((Access::Local, OpOutcome::Read(u64::from(levels))));
    step(core, Op::Read(0), 0) == last
}

/// Whether just so many levels are open: those inside the outermost one are committed in turn, and then it.
fn closes_each<A: Allocator + Copy>(core: &mut Core<A>, levels: u32, kept: bool) -> bool {
    for _ in 1..levels {
        if step(core, Op::Commit, 0) != DONE {
            return false;
        }
    }
    let wanted = if kept {
        Access::StoreWord(1, 1)
    } else {
        Access::Swap(2)
    };
    core.prepare(Op::Commit, &[], 0, 0) == Ok(wanted)
}

/// Whether this is what the begin of that level saved.
fn is_of<A: Allocator + Copy>(saved: &Saved<A>, level: u32) -> bool {
    let registers = [u64::from(level)];
    saved.registers() == registers.as_slice() && saved.frames() == 2 && saved.place() == level
}

/// Whether the transaction goes on at the begin inside these levels, which are left.
fn goes_on<A: Allocator + Copy>(core: &mut Core<A>, left: u32, kept: bool) -> bool {
    is_of(core.saved(), left.saturating_add(1))
        && core.is_kept() == kept
        && has_words_of(core, left)
        && closes_each(core, left, kept)
}

/// Whether the transaction stands still, with the lock kept and all levels open.
fn stands_still<A: Allocator + Copy>(core: &mut Core<A>, depth: u32) -> bool {
    core.is_kept() && has_words_of(core, depth) && closes_each(core, depth, true)
}

/// Whether the transaction is over, and gone back to its begin.
fn is_over<A: Allocator + Copy>(core: &mut Core<A>) -> bool {
    !core.has_attempt() && is_of(core.saved(), 1)
}

/// Whether the step of a cancel comes to this, and leaves what it should.
fn leaves<A: Allocator + Copy>(core: &mut Core<A>, cancel: Cancel, made: Made) -> bool {
    if cancel.levels < cancel.depth {
        made == DONE && goes_on(core, cancel.depth - cancel.levels, cancel.kept)
    } else if cancel.kept {
        made == GOING && stands_still(core, cancel.depth)
    } else {
        made == DONE && is_over(core)
    }
}

/// Whether a cancel is made without a growth.
fn cancels<A: Allocator + Copy, B: Allocator>(
    core: &mut Core<A>,
    refusing: &Refusing<B>,
    cancel: Cancel,
) -> bool {
    if !stands(core, cancel) {
        return false;
    }
    refusing.refuse(1);
    let made = step(core, Op::CancelOuter(cancel.levels), 0);
    let waits = refusing.is_waiting();
    refusing.refuse(0);
    waits && leaves(core, cancel, made)
}

/// Whether a cancel in a new core is made without a growth, and leaves what it should.
fn a_new_one_cancels(inner: Global, cancel: Cancel) -> bool {
    let alloc = Refusing::new(inner, 0);
    let mut core = Core::new(&alloc);
    cancels(&mut core, &alloc, cancel)
}

/// Whether a cancel of so many levels is made with the lock kept and without.
fn cancels_both(inner: Global, depth: u32, levels: u32) -> bool {
    let free = Cancel {
        depth,
        levels,
        kept: false,
    };
    a_new_one_cancels(inner, free) && a_new_one_cancels(inner, Cancel { kept: true, ..free })
}

/// The first depth at which a cancel of 2 to 17 levels leaves something else.
fn left_otherwise(inner: Global) -> Option<u32> {
    for depth in 1..17u32 {
        for levels in 2..18u32 {
            if !cancels_both(inner, depth, levels) {
                return Some(depth);
            }
        }
    }
    None
}

#[test]
fn several_levels_are_cancelled(rt: HostRuntime) {
    assert_that(&rt, left_otherwise(rt.alloc()).is_none());
}

/// A read in the innermost of three levels, which two are then cancelled, is compared later.
fn reads_stay() -> &'static [Row] {
    static ROWS: [Row; 9] = [
        (Op::Begin, 2, Access::LoadLock, OpOutcome::Done),
        (Op::Begin, 0, Access::Local, OpOutcome::Done),
        (Op::Begin, 0, Access::Local, OpOutcome::Done),
        (Op::Read(5), 7, Access::LoadWord(5), OpOutcome::Going),
        (Op::Read(5), 2, Access::LoadLock, OpOutcome::Read(7)),
        (Op::CancelOuter(2), 0, Access::Local, OpOutcome::Done),
        (Op::Read(6), 1, Access::LoadWord(6), OpOutcome::Going),
        (Op::Read(6), 4, Access::LoadLock, OpOutcome::Going),
        (Op::Read(6), 4, Access::LoadLock, OpOutcome::Going),
    ];
    &ROWS
}

/// Whether an entry of a cancelled level whose cell has another word by then drops the attempt.
fn compares_what_was_read(inner: Global) -> bool {
    let mut core = Core::new(inner);
    let dropped = Ok((Access::LoadWord(5), OpOutcome::Aborted));
    plays(&mut core, reads_stay()) && step(&mut core, Op::Read(6), 8) == dropped
}

#[test]
fn what_was_read_in_cancelled_levels_is_compared(rt: HostRuntime) {
    assert_that(&rt, compares_what_was_read(rt.alloc()));
}
