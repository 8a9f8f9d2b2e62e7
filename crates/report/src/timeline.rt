//! The text of a timeline.

ghost use Rattle.std.specs.Prelude.{◌≡◌, ◌++◌, OnOk, IfOk, decimal};
ghost use Rattle.report.specs.Timeline.{access_words, answer_words, happened_words, place_words, shown_words};
ghost use Rattle.report.specs.Timeline.{step_line, step_words};
ghost use Rattle.report.specs.Timeline as spec;

use crate::printed::End;
use crate::push::{push_bytes, push_end, push_happened, push_number, push_time_and_thread};
use bytecode::{Code, instruction_text};
use machine::{Event, StepShown};
use norec_core::{Access, Answer};
use std::alloc::{AllocError, Allocator};
use syntax::thread_end::Status;

/// Adds a thread's program counter, and the instruction there.
fn push_instruction<A: Allocator + Copy>(
    alloc: A,
    report: &mut Vec<u8, A>,
    code: &Code<A>,
    place: u32,
) -> Result<(), AllocError>
    ensures { OnOk result (report.new.items ≡ report.old.items ++ place_words code.now Status.Running place) }
{
    push_number(report, u64::from(place))?;
    push_bytes(report, b" ")?;
    let text = instruction_text(alloc, code, place)?;
    push_bytes(report, text.as_str().as_bytes())
}

/// Adds a thread's program counter and instruction, or its end.
fn push_place<A: Allocator + Copy>(
    alloc: A,
    report: &mut Vec<u8, A>,
    code: &Code<A>,
    status: Status,
    place: u32,
) -> Result<(), AllocError>
    ensures { OnOk result (report.new.items ≡ report.old.items ++ place_words code.now status place) }
{
    match status {
        Status::Running => push_instruction(alloc, report, code, place),
        Status::Ended => push_end(report, End::Ended),
        Status::Trapped(cause) => push_end(report, End::Trapped(cause)),
    }
}

/// Adds words and a number after them.
fn push_numbered<A: Allocator>(
    report: &mut Vec<u8, A>,
    words: &[u8],
    number: u64,
) -> Result<(), AllocError>
    ensures { OnOk result (report.new.items ≡ report.old.items ++ (words.now ++ decimal number)) }
{
    push_bytes(report, words)?;
    push_number(report, number)
}

/// Adds an access.
fn push_access<A: Allocator>(report: &mut Vec<u8, A>, access: Access) -> Result<(), AllocError>
    ensures { OnOk result (report.new.items ≡ report.old.items ++ access_words access) }
{
    match access {
        Access::Local => Ok(()),
        Access::LoadLock => push_bytes(report, b"; load lock"),
        Access::LoadWord(cell) => push_numbered(report, b"; load @", u64::from(cell)),
        Access::Swap(from) => push_numbered(report, b"; swap lock ", from),
        Access::StoreWord(cell, word) => {
            push_numbered(report, b"; store @", u64::from(cell))?;
            push_numbered(report, b" = ", word)
        }
        Access::StoreLock(value) => push_numbered(report, b"; store lock = ", value),
    }
}

/// Adds an answer.
fn push_answer<A: Allocator>(report: &mut Vec<u8, A>, answer: Answer) -> Result<(), AllocError>
    ensures { OnOk result (report.new.items ≡ report.old.items ++ answer_words answer) }
{
    match answer {
        Answer::Done => Ok(()),
        Answer::Value(value) => push_numbered(report, b" = ", value),
        Answer::Won => push_bytes(report, b": won"),
        Answer::Lost(value) => push_numbered(report, b": lost, ", value),
    }
}

/// Adds the event, if it is shown.
fn push_event_words<A: Allocator>(report: &mut Vec<u8, A>, event: Event) -> Result<(), AllocError>
    ensures { OnOk result (report.new.items ≡ report.old.items ++ happened_words event) }
{
    if event == Event::Quiet {
        return Ok(());
    }
    push_bytes(report, b"; ")?;
    push_happened(report, event)
}

/// Adds the content of a step's line.
fn push_shown<A: Allocator + Copy>(
    alloc: A,
    report: &mut Vec<u8, A>,
    code: &Code<A>,
    shown: &StepShown,
) -> Result<(), AllocError>
    ensures { OnOk result (report.new.items ≡ report.old.items ++ shown_words code.now shown.now) }
{
    push_place(alloc, report, code, shown.status, shown.place)?;
    push_access(report, shown.access)?;
    push_answer(report, shown.answer)?;
    push_event_words(report, shown.event)
}

/// Adds the line of a step, without the LF.
fn push_step<A: Allocator + Copy>(
    alloc: A,
    report: &mut Vec<u8, A>,
    code: &Code<A>,
    accesses: u64,
    thread: u32,
    shown: &StepShown,
) -> Result<(), AllocError>
    ensures { OnOk result (report.new.items ≡ report.old.items ++ step_words code.now (accesses, thread, shown.now)) }
{
    push_time_and_thread(report, accesses, thread)?;
    push_shown(alloc, report, code, shown)
}

/// Adds the line of a step.
fn push_line<A: Allocator + Copy>(
    alloc: A,
    report: &mut Vec<u8, A>,
    code: &Code<A>,
    accesses: u64,
    thread: u32,
    shown: &StepShown,
) -> Result<(), AllocError>
    ensures { OnOk result (report.new.items ≡ report.old.items ++ step_line code.now (accesses, thread, shown.now)) }
{
    push_step(alloc, report, code, accesses, thread, shown)?;
    push_bytes(report, b"\n")
}

/// The line of a step in a timeline, without the LF: the accesses to the lock or the words that all threads had made
/// with it, its thread, the thread's program counter and instruction, the step's access with its answer, and the event.
pub fn step_text<A: Allocator + Copy>(
    alloc: A,
    code: &Code<A>,
    accesses: u64,
    thread: u32,
    shown: &StepShown,
) -> Result<Vec<u8, A>, AllocError>
    ensures { IfOk result (λ r. r.items ≡ step_words code.now (accesses, thread, shown.now)) }
{
    let mut line = Vec::new(alloc);
    push_step(alloc, &mut line, code, accesses, thread, shown)?;
    Ok(line)
}

/// The text of a timeline: a line for each step.
pub fn timeline_text<A: Allocator + Copy>(
    alloc: A,
    code: &Code<A>,
    steps: &[(u64, u32, StepShown)],
) -> Result<Vec<u8, A>, AllocError>
    ensures { IfOk result (λ r. r.items ≡ spec.timeline_text code.now steps.now) }
{
    let mut report = Vec::new(alloc);
    push_bytes(&mut report, b"== timeline\n")?;
    'steps: for (accesses, thread, shown) in steps {
        push_line(alloc, &mut report, code, *accesses, *thread, shown)?;
    }
    Ok(report)
}
