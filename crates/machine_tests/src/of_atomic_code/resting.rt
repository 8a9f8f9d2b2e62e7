//! Threads at rest: how they come there, what their turns leave, copies, and words that tell them apart.

ghost use Rattle.std.specs.Prelude.{◌≡◌, IfOk, IfSome, IsSome, None};
ghost use Rattle.atomic_code.specs.Threads.{IsAtomicThreadOf};

use crate::asserted::{assert_all, assert_no_row, assert_none, assert_that};
use crate::of_atomic_code::built::code_of;
use atomic_code::{AtomicThread, is_memory};
use bytecode::{Code, Instr};
use lex::token::Scalar;
use std::alloc::{AllocError, Allocator, Global};
use syntax::thread_end::{Status, Trap};
use syntax::tree::BinaryOp;
use test_memory::{Refusing, growths};

/// Instructions of a worker, and where a function behind it begins, if there is one.
type Written = (&'static [Instr], Option<u32>);

/// Thread 5 of a code, carried on from its beginning by at most so many instructions until it rests. None where it does
/// not then.
fn at_rest<A: Allocator + Copy>(
    alloc: A,
    code: &Code<A>,
    steps: u32,
) -> Result<Option<AtomicThread<A>>, AllocError>
    ensures of { IfOk result (λ r. IfSome r (λ t. IsAtomicThreadOf code.now t.thread)) }
    ensures outside { IfOk result (λ r. IfSome r (λ t. t.thread.open_in ≡ None)) }
{
    let mut thread = AtomicThread::new(alloc, code, 5)?;
    if thread.rest(code, u64::from(steps))? {
        Ok(Some(thread))
    } else {
        Ok(None)
    }
}

/// A turn of a thread at rest over one cell that holds this word: the word that it leaves. None where the turn takes
/// more than so many instructions.
fn turn<A: Allocator + Copy>(
    thread: &mut AtomicThread<A>,
    code: &Code<A>,
    word: u64,
    steps: u32,
) -> Result<Option<u64>, AllocError>
    requires of { IsAtomicThreadOf code.now thread.old.thread }
    requires outside { thread.old.thread.open_in ≡ None }
    ensures of { IsAtomicThreadOf code.now thread.new.thread }
    ensures outside { IfOk result (λ r. IsSome r → thread.new.thread.open_in ≡ None) }
{
    if thread.steps() > 1_000_000_000_000 {
        return Ok(None);
    }
    if !is_memory(code, &[word]) {
        return Ok(None);
    }
    match thread.turn(code, &[word], u64::from(steps))? {
        Some(left) => Ok(left.as_slice().first().copied()),
        None => Ok(None),
    }
}

/// The words of a thread at rest.
fn words_of<A: Allocator + Copy>(
    alloc: A,
    thread: &AtomicThread<A>,
) -> Result<Vec<u64, A>, AllocError> {
    let mut words = Vec::new(alloc);
    thread.push_words(&mut words)?;
    Ok(words)
}

/// Whether these are the same words.
fn are_same<A: Allocator>(words: &Vec<u64, A>, others: &Vec<u64, A>) -> bool {
    words.as_slice() == others.as_slice()
}

/// What is written, for how many instructions at most a thread goes on from its beginning, how it rests then, if it
/// does, and what it has printed.
type Rest = (Written, u32, Option<Status>, &'static str);

/// Whether a thread of a code comes to rest so.
fn rests_so<A: Allocator + Copy>(alloc: A, code: &Code<A>, row: &Rest) -> bool {
    let (_, steps, status, text) = *row;
    match at_rest(alloc, code, steps) {
        Err(_) => false,
        Ok(None) => status.is_none(),
        Ok(Some(thread)) => {
            status == Some(thread.status()) && thread.output() == text && thread.steps() == 0
        }
    }
}

/// Whether threads come to rest as these rows say.
fn all_rest_so<A: Allocator + Copy>(alloc: A, rows: &[Rest]) -> bool {
    for row in rows {
        let ((instructions, second), ..) = *row;
        let so = match code_of(alloc, instructions, second) {
            Some(code) => rests_so(alloc, &code, row),
            None => false,
        };
        if !so {
            return false;
        }
    }
    true
}

fn wanting() -> &'static [Rest] {
    static ROWS: [Rest; 5] = [
        (
            (&[Instr::Begin(1), Instr::Commit, Instr::Return], None),
            0,
            None,
            "",
        ),
        (
            (&[Instr::Begin(1), Instr::Commit, Instr::Return], None),
            1,
            Some(Status::Running),
            "",
        ),
        (
            (
                &[
                    Instr::PrintText(0),
                    Instr::Begin(2),
                    Instr::Commit,
                    Instr::Return,
                ],
                None,
            ),
            1,
            None,
            "",
        ),
        (
            (
                &[
                    Instr::PrintText(0),
                    Instr::Begin(2),
                    Instr::Commit,
                    Instr::Return,
                ],
                None,
            ),
            2,
            Some(Status::Running),
            "\"\t\"",
        ),
        // a begin in a function that was called
        (
            (
                &[
                    Instr::Call(1, 1, 1, 0),
                    Instr::Return,
                    Instr::PrintSigned(0),
                    Instr::Begin(4),
                    Instr::Commit,
                    Instr::Return,
                ],
                Some(2),
            ),
            100,
            Some(Status::Running),
            "5",
        ),
    ];
    &ROWS
}

fn ended() -> &'static [Rest] {
    static ROWS: [Rest; 3] = [
        ((&[Instr::PrintSigned(0), Instr::Return], None), 1, None, ""),
        (
            (&[Instr::PrintSigned(0), Instr::Return], None),
            2,
            Some(Status::Ended),
            "5",
        ),
        (
            (&[Instr::PrintSigned(0), Instr::Return], None),
            100,
            Some(Status::Ended),
            "5",
        ),
    ];
    &ROWS
}

fn trapped() -> &'static [Rest] {
    static ROWS: [Rest; 5] = [
        (
            (
                &[
                    Instr::Constant(1, 2_147_483_647),
                    Instr::Compute(BinaryOp::Add, Scalar::Int, 1, 1, 0),
                    Instr::Return,
                ],
                None,
            ),
            2,
            Some(Status::Trapped(Trap::OutOfRange)),
            "",
        ),
        (
            (
                &[
                    Instr::Compute(BinaryOp::Divide, Scalar::Int, 1, 0, 1),
                    Instr::Return,
                ],
                None,
            ),
            1,
            Some(Status::Trapped(Trap::ZeroDivisor)),
            "",
        ),
        (
            (&[Instr::Check(0, 5), Instr::Return], None),
            1,
            Some(Status::Trapped(Trap::Index)),
            "",
        ),
        (
            (
                &[
                    Instr::Call(1, 1, 1, 0),
                    Instr::Return,
                    Instr::Call(0, 1, 1, 0),
                    Instr::Return,
                ],
                Some(2),
            ),
            64,
            Some(Status::Trapped(Trap::Frames)),
            "",
        ),
        (
            (
                &[
                    Instr::Constant(1, 32),
                    Instr::Compute(BinaryOp::ShiftLeft, Scalar::Unsigned, 1, 0, 1),
                    Instr::Return,
                ],
                None,
            ),
            2,
            Some(Status::Trapped(Trap::ShiftCount)),
            "",
        ),
    ];
    &ROWS
}

fn going_on() -> &'static [Rest] {
    static ROWS: [Rest; 2] = [
        ((&[Instr::Jump(0), Instr::Return], None), 1000, None, ""),
        // a shared access outside transactions stands still
        ((&[Instr::Read(1, 0), Instr::Return], None), 1000, None, ""),
    ];
    &ROWS
}

#[test]
fn threads_come_to_rest(rt: HostRuntime) {
    let wanting = all_rest_so(rt.alloc(), wanting());
    let ended = all_rest_so(rt.alloc(), ended());
    let trapped = all_rest_so(rt.alloc(), trapped());
    let going_on = all_rest_so(rt.alloc(), going_on());
    assert_all(
        &rt,
        &[
            ("wants a memory", wanting),
            ("ended", ended),
            ("trapped", trapped),
            ("goes on", going_on),
        ],
    );
}

/// What two turns of a thread leave in the one cell, how it rests then, and whether it has printed this.
type Turned = (u64, u64, Status, bool);

/// What two turns of a thread leave, each of at most so many instructions, where it should print this.
fn turn_twice<A: Allocator + Copy>(
    thread: &mut AtomicThread<A>,
    code: &Code<A>,
    words: (u64, u64),
    steps: u32,
    text: &str,
) -> Result<Option<Turned>, AllocError>
    requires of { IsAtomicThreadOf code.now thread.old.thread }
    requires outside { thread.old.thread.open_in ≡ None }
{
    match turn(thread, code, words.0, steps)? {
        None => Ok(None),
        Some(first) => match turn(thread, code, words.1, steps)? {
            None => Ok(None),
            Some(second) => Ok(Some((first, second, thread.status(), thread.output() == text))),
        },
    }
}

/// What two turns leave of thread 5 of a code, where it should print this.
fn comes_to<A: Allocator + Copy>(
    alloc: A,
    code: &Code<A>,
    words: (u64, u64),
    steps: u32,
    text: &str,
) -> Result<Option<Turned>, AllocError> {
    match at_rest(alloc, code, 100)? {
        None => Ok(None),
        Some(mut thread) => turn_twice(&mut thread, code, words, steps, text),
    }
}

/// Instructions of a worker, the words that its thread 5 finds in the one cell, of how many instructions each turn has
/// at most, what the turns leave and how the thread rests then, if they are done, and what it has printed.
type Turns = (
    &'static [Instr],
    (u64, u64),
    u32,
    Option<(u64, u64, Status)>,
    &'static str,
);

/// Whether two turns come to what a row says.
fn turns_so<A: Allocator + Copy>(alloc: A, row: &Turns) -> bool {
    let (instructions, words, steps, wanted, text) = *row;
    let came = match code_of(alloc, instructions, None) {
        None => return false,
        Some(code) => comes_to(alloc, &code, words, steps, text),
    };
    match (came, wanted) {
        (Ok(None), None) => true,
        (Ok(Some((first, second, status, printed))), Some(so)) => {
            printed && (first, second, status) == so
        }
        _ => false,
    }
}

/// The number of the first row of which two turns come to something else.
fn wrong_turn<A: Allocator + Copy>(alloc: A, rows: &[Turns]) -> Option<usize> {
    for (number, row) in rows.iter().enumerate() {
        if !turns_so(alloc, row) {
            return Some(number);
        }
    }
    None
}

fn done() -> &'static [Turns] {
    static ROWS: [Turns; 3] = [
        // adds, prints the sum, writes its number and ends
        (
            &[
                Instr::Begin(4),
                Instr::Read(1, 0),
                Instr::Compute(BinaryOp::Add, Scalar::Int, 1, 1, 0),
                Instr::Write(1, 0),
                Instr::Commit,
                Instr::PrintSigned(1),
                Instr::Begin(8),
                Instr::Write(0, 0),
                Instr::Commit,
                Instr::Return,
            ],
            (9, 7),
            100,
            Some((14, 5, Status::Ended)),
            "14",
        ),
        // what a cancel leaves is what was found
        (
            &[
                Instr::Begin(3),
                Instr::Write(0, 0),
                Instr::Cancel,
                Instr::Jump(0),
            ],
            (9, 7),
            100,
            Some((9, 7, Status::Running)),
            "",
        ),
        // traps where the cell holds 0
        (
            &[
                Instr::Begin(4),
                Instr::Read(1, 0),
                Instr::Compute(BinaryOp::Divide, Scalar::Int, 1, 0, 1),
                Instr::Write(1, 0),
                Instr::Commit,
                Instr::Jump(0),
            ],
            (2, 0),
            100,
            Some((2, 0, Status::Trapped(Trap::ZeroDivisor))),
            "",
        ),
    ];
    &ROWS
}

fn too_long() -> &'static [Turns] {
    static ROWS: [Turns; 6] = [
        // within the transaction
        (
            &[
                Instr::Begin(2),
                Instr::Jump(1),
                Instr::Commit,
                Instr::Return,
            ],
            (9, 7),
            1000,
            None,
            "",
        ),
        // behind it
        (
            &[
                Instr::Begin(1),
                Instr::Commit,
                Instr::Jump(2),
                Instr::Return,
            ],
            (9, 7),
            1000,
            None,
            "",
        ),
        // a transaction of three instructions
        (
            &[
                Instr::Begin(2),
                Instr::Write(0, 0),
                Instr::Commit,
                Instr::Jump(0),
            ],
            (9, 7),
            2,
            None,
            "",
        ),
        (
            &[
                Instr::Begin(2),
                Instr::Write(0, 0),
                Instr::Commit,
                Instr::Jump(0),
            ],
            (9, 7),
            3,
            Some((5, 5, Status::Running)),
            "",
        ),
        // three instructions behind the transaction, the last a begin
        (
            &[
                Instr::Begin(1),
                Instr::Commit,
                Instr::Constant(1, 3),
                Instr::Jump(0),
            ],
            (9, 7),
            2,
            None,
            "",
        ),
        (
            &[
                Instr::Begin(1),
                Instr::Commit,
                Instr::Constant(1, 3),
                Instr::Jump(0),
            ],
            (9, 7),
            3,
            Some((9, 7, Status::Running)),
            "",
        ),
    ];
    &ROWS
}

#[test]
fn turns_leave_what_transactions_do(rt: HostRuntime) {
    assert_no_row(&rt, wrong_turn(rt.alloc(), done()));
}

#[test]
fn a_turn_that_is_too_long_is_none(rt: HostRuntime) {
    assert_no_row(&rt, wrong_turn(rt.alloc(), too_long()));
}

/// Whether a copy of a thread at rest has its words, and goes on as it does, each over a cell that holds this word, and
/// by itself.
fn copy_goes_on_alike<A: Allocator + Copy>(
    alloc: A,
    thread: &mut AtomicThread<A>,
    code: &Code<A>,
    word: u64,
) -> Result<bool, AllocError>
    requires of { IsAtomicThreadOf code.now thread.old.thread }
    requires outside { thread.old.thread.open_in ≡ None }
{
    let mut copy = thread.copied()?;
    let words = words_of(alloc, thread)?;
    let begins_alike = are_same(&words, &words_of(alloc, &copy)?);
    let left_by_copy = turn(&mut copy, code, word, 100)?;
    let stays = are_same(&words, &words_of(alloc, thread)?);
    let left = turn(thread, code, word, 100)?;
    let words = words_of(alloc, thread)?;
    let goes_on_alike = are_same(&words, &words_of(alloc, &copy)?);
    let has_turned = left.is_some() && left == left_by_copy;
    Ok(begins_alike && stays && has_turned && goes_on_alike && copy.output() == thread.output())
}

/// Whether copies of thread 5 of a code at rest go on as it does.
fn copies_go_on_alike<A: Allocator + Copy>(
    alloc: A,
    code: &Code<A>,
    word: u64,
) -> Result<bool, AllocError> {
    match at_rest(alloc, code, 100)? {
        None => Ok(false),
        Some(mut thread) => copy_goes_on_alike(alloc, &mut thread, code, word),
    }
}

/// f adds its parameter to the cell and gives the sum, which is printed.
fn adds_in_a_call() -> Written {
    static CODE: [Instr; 11] = [
        Instr::PrintText(0),
        Instr::Constant(2, 7),
        Instr::Call(1, 1, 1, 0),
        Instr::PrintSigned(1),
        Instr::Return,
        Instr::Begin(9),
        Instr::Read(1, 0),
        Instr::Compute(BinaryOp::Add, Scalar::Int, 1, 1, 0),
        Instr::Write(1, 0),
        Instr::Commit,
        Instr::ReturnValue(1),
    ];
    (&CODE, Some(5))
}

#[test]
fn a_copy_goes_on_alike_and_by_itself(rt: HostRuntime) {
    let (instructions, second) = adds_in_a_call();
    let alike = match code_of(rt.alloc(), instructions, second) {
        Some(code) => copies_go_on_alike(rt.alloc(), &code, 9),
        None => Ok(false),
    };
    assert_that(&rt, alike == Ok(true));
}

/// The words of thread 5 of a code at rest.
fn words_at_rest<A: Allocator + Copy>(alloc: A, code: &Code<A>) -> Option<Vec<u64, A>> {
    match at_rest(alloc, code, 100) {
        Ok(Some(thread)) => words_of(alloc, &thread).ok(),
        _ => None,
    }
}

/// The words of thread 5 at rest of what is written.
fn words_of_written<A: Allocator + Copy>(alloc: A, written: Written) -> Option<Vec<u64, A>> {
    let (instructions, second) = written;
    match code_of(alloc, instructions, second) {
        Some(code) => words_at_rest(alloc, &code),
        None => None,
    }
}

/// What is told apart, two codes, and whether their threads have the same words.
type Pair = (&'static str, Written, Written, bool);

/// Whether the threads of a pair have the same words, or others, as it says.
fn told_so<A: Allocator + Copy>(alloc: A, pair: &Pair) -> bool {
    let (_, one, other, same) = *pair;
    match (words_of_written(alloc, one), words_of_written(alloc, other)) {
        (Some(words), Some(others)) => are_same(&words, &others) == same,
        _ => false,
    }
}

/// The first pair that is told otherwise.
fn told_otherwise<A: Allocator + Copy>(alloc: A, pairs: &[Pair]) -> Option<&'static str> {
    for pair in pairs {
        if !told_so(alloc, pair) {
            return Some(pair.0);
        }
    }
    None
}

fn running() -> &'static [Pair] {
    static ROWS: [Pair; 5] = [
        (
            "one code",
            (
                &[
                    Instr::PrintText(0),
                    Instr::Begin(2),
                    Instr::Commit,
                    Instr::Return,
                ],
                None,
            ),
            (
                &[
                    Instr::PrintText(0),
                    Instr::Begin(2),
                    Instr::Commit,
                    Instr::Return,
                ],
                None,
            ),
            true,
        ),
        (
            "text",
            (
                &[
                    Instr::PrintText(0),
                    Instr::Begin(2),
                    Instr::Commit,
                    Instr::Return,
                ],
                None,
            ),
            (
                &[
                    Instr::PrintText(1),
                    Instr::Begin(2),
                    Instr::Commit,
                    Instr::Return,
                ],
                None,
            ),
            false,
        ),
        (
            "place",
            (&[Instr::Begin(1), Instr::Commit, Instr::Return], None),
            (
                &[
                    Instr::Jump(1),
                    Instr::Begin(2),
                    Instr::Commit,
                    Instr::Return,
                ],
                None,
            ),
            false,
        ),
        (
            "registers",
            (
                &[
                    Instr::Constant(1, 3),
                    Instr::Begin(2),
                    Instr::Commit,
                    Instr::Return,
                ],
                None,
            ),
            (
                &[
                    Instr::Constant(1, 4),
                    Instr::Begin(2),
                    Instr::Commit,
                    Instr::Return,
                ],
                None,
            ),
            false,
        ),
        (
            "registers of a caller",
            (
                &[
                    Instr::Constant(1, 3),
                    Instr::Call(2, 1, 1, 0),
                    Instr::Return,
                    Instr::Begin(4),
                    Instr::Commit,
                    Instr::Return,
                ],
                Some(3),
            ),
            (
                &[
                    Instr::Constant(1, 4),
                    Instr::Call(2, 1, 1, 0),
                    Instr::Return,
                    Instr::Begin(4),
                    Instr::Commit,
                    Instr::Return,
                ],
                Some(3),
            ),
            false,
        ),
    ];
    &ROWS
}

fn being_over() -> &'static [Pair] {
    static ROWS: [Pair; 5] = [
        (
            "where an ended one stands",
            (&[Instr::Return], None),
            (&[Instr::Constant(1, 3), Instr::Return], None),
            true,
        ),
        (
            "where a trapped one stands",
            (&[Instr::Check(0, 5), Instr::Return], None),
            (
                &[Instr::Constant(1, 3), Instr::Check(1, 2), Instr::Return],
                None,
            ),
            true,
        ),
        (
            "status",
            (&[Instr::Return], None),
            (&[Instr::Check(0, 5), Instr::Return], None),
            false,
        ),
        (
            "cause",
            (
                &[
                    Instr::Compute(BinaryOp::Divide, Scalar::Int, 1, 0, 1),
                    Instr::Return,
                ],
                None,
            ),
            (&[Instr::Check(0, 5), Instr::Return], None),
            false,
        ),
        (
            "text of one that is over",
            (&[Instr::PrintText(0), Instr::Return], None),
            (&[Instr::PrintText(1), Instr::Return], None),
            false,
        ),
    ];
    &ROWS
}

#[test]
fn words_tell_threads_apart(rt: HostRuntime) {
    assert_none(&rt, told_otherwise(rt.alloc(), running()));
    assert_none(&rt, told_otherwise(rt.alloc(), being_over()));
}

/// Whether a copy of a thread of a code goes on alike where growth `nth` behind its code's is not met, and else that is
/// told.
fn tells_in<A: Allocator + Copy, B: Allocator>(alloc: A, refusing: &Refusing<B>, nth: u64) -> bool {
    let (instructions, second) = adds_in_a_call();
    match code_of(alloc, instructions, second) {
        Some(code) => {
            refusing.refuse(nth);
            match copies_go_on_alike(alloc, &code, 9) {
                Ok(alike) => alike && refusing.is_waiting(),
                Err(_) => !refusing.is_waiting(),
            }
        }
        None => false,
    }
}

/// Whether growth `nth` of this allocator, counted behind its code's, is told where it is met.
fn tells(refusing: &Refusing<Global>, nth: u64) -> bool {
    tells_in(refusing, refusing, nth)
}

#[test]
fn each_growth_may_be_refused_at_rest(rt: HostRuntime) {
    // a thread, its text and a call; a copy; words; a memory and a text in each turn
    assert_that(&rt, growths(rt.alloc(), 100, tells).ok() >= Some(12));
}
