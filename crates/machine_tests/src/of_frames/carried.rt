//! A thread carried on by itself, over a memory that no other thread sees.

ghost use Rattle.std.specs.Prelude.{◌<◌, ◌^◌, IfOk};
ghost use Rattle.frames.specs.Open.{IsConfigurationOf};
ghost use Rattle.frames.specs.Doings.{IsDoingAt};

use bytecode::Code;
use frames::{Doing, Frames, push_piece};
use local_steps::NoAccess;
use std::alloc::{AllocError, Allocator};

/// The word of a cell.
fn word_at(memory: &[u64], cell: u32) -> u64
    ensures { result < 2 ^ 64 }
{
    match memory.get(cell as usize) {
        Some(word) => *word,
        None => 0,
    }
}

/// Carries out what stands at a thread's place, and says whether it goes on: a thread that cancels, ends or traps stays
/// there.
fn carry_out<A: Allocator + Copy>(
    frames: &mut Frames<A>,
    code: &Code<A>,
    doing: Doing,
    memory: &mut [u64],
    text: &mut String<A>,
) -> Result<bool, AllocError>
    requires of { IsConfigurationOf code.now frames.old.configuration }
    requires told { IsDoingAt code.now frames.old.configuration doing }
    ensures { IsConfigurationOf code.now frames.new.configuration }
{
    // The prover learns here that the code is valid.
    code.note_valid();
    match doing {
        Doing::Local => frames.step(code),
        Doing::Read(d, cell) => {
            let word = word_at(memory, cell);
            frames.set(code, d, word);
        }
        Doing::Write(cell, word) => {
            let at = cell as usize;
            if at < memory.len() {
                memory[at] = word;
            }
            frames.go_on(code);
        }
        Doing::Begin(_) => frames.go_on(code),
        Doing::Commit => frames.go_on(code),
        Doing::Irrevocable => frames.go_on(code),
        Doing::Call => {
            frames.prepare_call(code)?;
            frames.call(code);
        }
        Doing::Return(word) => frames.give_back(code, word),
        Doing::PrintText(_) => {
            push_piece(text, code, doing)?;
            frames.go_on(code);
        }
        Doing::PrintNumber(_) => {
            push_piece(text, code, doing)?;
            frames.go_on(code);
        }
        Doing::Cancel => return Ok(false),
        Doing::CancelOuter(_) => return Ok(false),
        Doing::End => return Ok(false),
        Doing::Traps(_) => return Ok(false),
    }
    Ok(true)
}

/// Makes the call or the return that stands here, if one does: whether it did. There may be no room for a call.
fn pass<A: Allocator + Copy>(frames: &mut Frames<A>, code: &Code<A>, doing: Doing) -> bool
    requires of { IsConfigurationOf code.now frames.old.configuration }
    requires told { IsDoingAt code.now frames.old.configuration doing }
    ensures { IsConfigurationOf code.now frames.new.configuration }
{
    // The prover learns here that the code is valid.
    code.note_valid();
    match doing {
        Doing::Call => frames.enter(code),
        Doing::Return(word) => {
            frames.give_back(code, word);
            true
        }
        _ => false,
    }
}

/// Local steps, at most 1,000, and the call or the return that stands there then: how many they were, and whether there
/// was one.
fn go_once<A: Allocator + Copy>(frames: &mut Frames<A>, code: &Code<A>) -> (u64, bool)
    requires { IsConfigurationOf code.now frames.old.configuration }
    ensures { IsConfigurationOf code.now frames.new.configuration }
{
    // The prover learns here that the code is valid.
    code.note_valid();
    let (made, paused) = frames.advance(code, &mut NoAccess, 1000);
    match paused {
        Some(pause) => {
            let doing = frames.doing_at_pause(code, pause);
            (made, pass(frames, code, doing))
        }
        None => (made, false),
    }
}

/// Steps in the frames, as far as they go: how many they were.
fn go_far<A: Allocator + Copy>(frames: &mut Frames<A>, code: &Code<A>) -> u64
    requires { IsConfigurationOf code.now frames.old.configuration }
    ensures { IsConfigurationOf code.now frames.new.configuration }
{
    let mut made: u64 = 0;
    'passes: for _ in 0..1000u64 {
        let (local, passed) = go_once(frames, code);
        made = made.saturating_add(local);
        if !passed {
            return made;
        }
        made = made.saturating_add(1);
    }
    made
}

/// A thread at its beginning.
pub fn first<A: Allocator + Copy>(
    alloc: A,
    code: &Code<A>,
    thread: u32,
) -> Result<Frames<A>, AllocError>
    ensures { IfOk result (λ f. IsConfigurationOf code.now f.configuration) }
{
    // The prover learns here that the code is valid.
    code.note_valid();
    Frames::new(alloc, code, thread)
}

/// Carries a thread on for at most so many turns, each of steps in the frames and one other instruction: what it comes
/// to, and how many steps it made in the frames.
pub fn carry_on<A: Allocator + Copy>(
    frames: &mut Frames<A>,
    code: &Code<A>,
    turns: u64,
    memory: &mut [u64],
    text: &mut String<A>,
) -> Result<(Doing, u64), AllocError>
    requires of { IsConfigurationOf code.now frames.old.configuration }
    ensures { IsConfigurationOf code.now frames.new.configuration }
{
    let mut made: u64 = 0;
    'turns: for _ in 0..turns {
        made = made.saturating_add(go_far(frames, code));
        let doing = frames.doing(code);
        if !carry_out(frames, code, doing, memory, text)? {
            return Ok((doing, made));
        }
    }
    Ok((frames.doing(code), made))
}

/// A thread of a code from its beginning on: what it comes to, the steps that it made in the frames, and its registers
/// there.
pub fn run<A: Allocator + Copy>(
    alloc: A,
    code: &Code<A>,
    thread: u32,
    memory: &mut [u64],
    text: &mut String<A>,
) -> Result<(Doing, u64, Vec<u64, A>), AllocError> {
    let mut frames = first(alloc, code, thread)?;
    let (doing, made) = carry_on(&mut frames, code, 1000, memory, text)?;
    Ok((doing, made, Vec::from_slice(alloc, frames.registers())?))
}
