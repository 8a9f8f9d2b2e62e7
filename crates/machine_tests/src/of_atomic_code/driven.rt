//! Threads carried on, and what they come to, as plain values.

ghost use Rattle.std.specs.Prelude.{IfSome};
ghost use Rattle.atomic_code.specs.Threads.{IsAtomicThreadOf};

use crate::of_atomic_code::built::code_of;
use atomic_code::{AtomicEnd, AtomicThread, Ran, is_memory};
use bytecode::{Code, Instr};
use std::alloc::Allocator;
use syntax::thread_end::Status;

/// A thread at its beginning, if memory is there.
pub fn begin<A: Allocator + Copy>(alloc: A, code: &Code<A>, number: u32) -> Option<AtomicThread<A>>
    ensures { IfSome result (λ t. IsAtomicThreadOf code.now t.thread) }
{
    match AtomicThread::new(alloc, code, number) {
        Ok(thread) => Some(thread),
        Err(_) => None,
    }
}

/// The word of the first cell in the memory that was left.
fn first_word<A: Allocator>(ran: &Ran<A>) -> Option<u64> {
    match &ran.left {
        None => None,
        Some(memory) => memory.as_slice().first().copied(),
    }
}

/// Carries a thread on, over one cell that holds `word` where a transaction begins: how many instructions it made, the
/// word that it left, and how it is over. None where memory is refused.
pub fn go<A: Allocator + Copy>(
    thread: &mut AtomicThread<A>,
    code: &Code<A>,
    word: u64,
    steps: u32,
) -> Option<(u64, Option<u64>, Option<AtomicEnd>)>
    requires { IsAtomicThreadOf code.now thread.old.thread }
    ensures { IsAtomicThreadOf code.now thread.new.thread }
{
    if thread.steps() > 1_000_000_000_000 {
        return None;
    }
    if !is_memory(code, &[word]) {
        return None;
    }
    match thread.go(code, &[word], u64::from(steps)) {
        Ok(ran) => Some((ran.steps, first_word(&ran), ran.end)),
        Err(_) => None,
    }
}

/// Carries a thread on by so many calls, each of so many instructions and with another word to find: the word that was
/// left last.
pub fn in_pieces<A: Allocator + Copy>(
    thread: &mut AtomicThread<A>,
    code: &Code<A>,
    calls: u32,
    each: u32,
) -> Option<u64>
    requires { IsAtomicThreadOf code.now thread.old.thread }
    ensures { IsAtomicThreadOf code.now thread.new.thread }
{
    let mut word = None;
    'calls: for call in 0..calls {
        if let Some((_, Some(left), _)) = go(thread, code, u64::from(call), each) {
            word = Some(left);
        }
    }
    word
}

/// Carries a thread on by so many calls, each of which finds what the one before left: the word that was left last.
pub fn in_turns<A: Allocator + Copy>(
    thread: &mut AtomicThread<A>,
    code: &Code<A>,
    calls: u32,
    first: u64,
) -> u64
    requires { IsAtomicThreadOf code.now thread.old.thread }
    ensures { IsAtomicThreadOf code.now thread.new.thread }
{
    let mut word = first;
    'calls: for _ in 0..calls {
        if let Some((_, Some(left), _)) = go(thread, code, word, 1000) {
            word = left;
        }
    }
    word
}

/// How many instructions a thread has made, the word that it left in the cell, how it is over, and whether it has
/// printed what it should.
pub type Came = (u64, Option<u64>, Option<AtomicEnd>, bool);

/// What thread 5 comes to by one call of so many instructions, over a cell that holds 9, where it should print this.
fn comes_to<A: Allocator + Copy>(alloc: A, code: &Code<A>, most: u32, text: &str) -> Option<Came> {
    match begin(alloc, code, 5) {
        None => None,
        Some(mut thread) => match go(&mut thread, code, 9, most) {
            None => None,
            Some((steps, left, end)) => Some((steps, left, end, thread.output() == text)),
        },
    }
}

/// What thread 5 of a worker of these instructions, and of a function behind it where it is said where that begins,
/// comes to by one call of so many instructions, over a cell that holds 9, where it should print this.
pub fn code_comes_to<A: Allocator + Copy>(
    alloc: A,
    instructions: &[Instr],
    second: Option<u32>,
    most: u32,
    text: &str,
) -> Option<Came> {
    match code_of(alloc, instructions, second) {
        None => None,
        Some(code) => comes_to(alloc, &code, most, text),
    }
}

/// What thread 5 comes to by so many calls, each of so many instructions: the word left last, how many instructions it
/// made, and how it is.
pub fn pieces<A: Allocator + Copy>(
    alloc: A,
    code: &Code<A>,
    calls: u32,
    each: u32,
) -> Option<(Option<u64>, u64, Status)> {
    match begin(alloc, code, 5) {
        None => None,
        Some(mut thread) => {
            let word = in_pieces(&mut thread, code, calls, each);
            Some((word, thread.steps(), thread.status()))
        }
    }
}

/// What a thread comes to by so many calls, each of which finds what the one before left, and the first one this word:
/// the word that is left last, how many instructions it made, and how it is.
fn turns<A: Allocator + Copy>(
    alloc: A,
    code: &Code<A>,
    number: u32,
    calls: u32,
    first: u64,
) -> Option<(u64, u64, Status)> {
    match begin(alloc, code, number) {
        None => None,
        Some(mut thread) => {
            let word = in_turns(&mut thread, code, calls, first);
            Some((word, thread.steps(), thread.status()))
        }
    }
}

/// What a thread of a worker of these instructions, and of a function behind it where it is said where that begins,
/// comes to by so many calls, each of which finds what the one before left, and the first one this word: the word
/// that is left last, how many instructions it made, and how it is.
pub fn code_turns<A: Allocator + Copy>(
    alloc: A,
    instructions: &[Instr],
    second: Option<u32>,
    number: u32,
    calls: u32,
    first: u64,
) -> Option<(u64, u64, Status)> {
    match code_of(alloc, instructions, second) {
        None => None,
        Some(code) => turns(alloc, &code, number, calls, first),
    }
}
