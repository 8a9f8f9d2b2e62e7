//! Cancels of several levels: of 2 to 16, into a level that is left and out of the outermost one, with the lock kept
//! and without.

ghost use Rattle.atomic_code.specs.Threads.{IsAtomicThreadOf};

use crate::asserted::assert_that;
use crate::of_atomic_code::driven::{begin, go};
use atomic_code::{AtomicEnd, AtomicThread};
use bytecode::Code;
use std::alloc::{AllocError, Allocator, Global};
use test_codes::{Levels, NUMBERS, cancels_levels, code_of, over_x};
use test_memory::Refusing;

/// What a call comes to: how many instructions it makes, the word that it leaves, and how the thread is over.
type Came = Option<(u64, Option<u64>, Option<AtomicEnd>)>;

/// What the cancel comes to, whose transaction has found 9; where the outermost one was among the levels and the lock
/// is kept it stands still.
fn cancel_result(levels: Levels) -> Came {
    if levels.levels_left() == 0 && !levels.kept {
        Some((1, Some(9), None))
    } else {
        Some((1, None, None))
    }
}

/// What the commits of the levels that are left come to.
fn commit_result(levels: Levels) -> Came {
    let left = u64::from(levels.levels_left());
    if left > 0 {
        Some((left, Some(left), None))
    } else if levels.kept {
        Some((100, None, None))
    } else {
        Some((2, None, Some(AtomicEnd::Ended)))
    }
}

/// What a thread prints behind its commits: register 1, as it was at the begin of the outermost level that was
/// cancelled.
fn text_printed(levels: Levels) -> Option<&'static str> {
    if levels.levels_left() == 0 && levels.kept {
        Some("")
    } else {
        NUMBERS.get(levels.levels_left() as usize).copied()
    }
}

/// Whether a thread that stands at the cancel makes it without a growth.
fn cancels_in_place<A: Allocator + Copy, B: Allocator>(
    thread: &mut AtomicThread<A>,
    code: &Code<A>,
    refusing: &Refusing<B>,
    levels: Levels,
) -> bool
    requires { IsAtomicThreadOf code.now thread.old.thread }
    ensures { IsAtomicThreadOf code.now thread.new.thread }
{
    refusing.refuse(1);
    let made = go(thread, code, 9, 1);
    let waits = refusing.is_waiting();
    refusing.refuse(0);
    waits && made == cancel_result(levels)
}

/// Whether a thread comes to what it should behind the cancel.
fn goes_on<A: Allocator + Copy>(
    thread: &mut AtomicThread<A>,
    code: &Code<A>,
    levels: Levels,
) -> bool
    requires { IsAtomicThreadOf code.now thread.old.thread }
    ensures { IsAtomicThreadOf code.now thread.new.thread }
{
    let made = go(thread, code, 9, 100);
    let _rest = go(thread, code, 9, 100);
    made == commit_result(levels) && Some(thread.output()) == text_printed(levels)
}

/// Whether a thread opens its levels, makes the cancel without a growth, and comes to what it should.
fn does_both<A: Allocator + Copy, B: Allocator>(
    thread: &mut AtomicThread<A>,
    code: &Code<A>,
    refusing: &Refusing<B>,
    levels: Levels,
) -> bool
    requires { IsAtomicThreadOf code.now thread.old.thread }
{
    let opened = go(thread, code, 9, levels.opening());
    if opened != Some((u64::from(levels.opening()), None, None)) {
        return false;
    }
    let cancels = cancels_in_place(thread, code, refusing, levels);
    cancels && goes_on(thread, code, levels)
}

/// Whether thread 5 of a code does what it should with its levels.
fn a_thread_does<A: Allocator + Copy, B: Allocator>(
    alloc: A,
    code: &Code<A>,
    refusing: &Refusing<B>,
    levels: Levels,
) -> bool {
    match begin(alloc, code, 5) {
        None => false,
        Some(mut thread) => does_both(&mut thread, code, refusing, levels),
    }
}

/// Whether the code that cancels so many levels does what it should.
fn a_code_does<A: Allocator + Copy, B: Allocator>(
    alloc: A,
    refusing: &Refusing<B>,
    levels: Levels,
) -> Result<bool, AllocError> {
    let instructions = cancels_levels(alloc, levels)?;
    match code_of(alloc, &over_x(instructions.as_slice())) {
        None => Ok(false),
        Some(code) => Ok(a_thread_does(alloc, &code, refusing, levels)),
    }
}

/// Whether the code that cancels so many levels does what it should over a new allocator.
fn is_done(inner: Global, levels: Levels) -> bool {
    let alloc = Refusing::new(inner, 0);
    a_code_does(&alloc, &alloc, levels) == Ok(true)
}

/// Whether so many levels of that depth are cancelled as they should be, with the lock kept and without.
fn are_done(inner: Global, depth: u32, cancelled: u32) -> bool {
    let free = Levels {
        depth,
        cancelled,
        kept: false,
    };
    is_done(inner, free) && is_done(inner, Levels { kept: true, ..free })
}

/// The first depth at which a cancel comes to something else.
fn done_otherwise(inner: Global) -> Option<u32> {
    for depth in 2..17u32 {
        for cancelled in 2..depth.saturating_add(1) {
            if !are_done(inner, depth, cancelled) {
                return Some(depth);
            }
        }
    }
    None
}

#[test]
fn several_levels_are_cancelled(rt: HostRuntime) {
    assert_that(&rt, done_otherwise(rt.alloc()).is_none());
}
