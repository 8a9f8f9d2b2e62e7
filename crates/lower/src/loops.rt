//! The constants with which a function's loops compute.

ghost use Rattle.std.specs.Prelude.{◌≡◌, [], OnOk, IfOk};
ghost use Rattle.bytecode.specs.Views.{instr_of};
ghost use Rattle.selection.specs.Loops as loops;
ghost use Rattle.lower.specs.inner.Looped.{looped_in};

use bytecode::Instr;
use std::alloc::{AllocError, Allocator};

/// The most constants that are preloaded in a function.
const MOST_READY: usize = 16;

/// Of instructions, from the last one to some place: the lowest place that one of them jumps to, or else the place
/// behind them; the registers that the first of them computes with; and the constants of loops.
#[derive(Drop)]
struct Looped<A: Allocator> {
    lowest: u32,
    operands: Option<(u16, u16)>,
    constants: Vec<u64, A>,
}

/// The registers that an operator of two takes.
fn operands_of(instr: Instr) -> Option<(u16, u16)>
    ensures { result ≡ loops.operands_of (instr_of [] instr) }
{
    match instr.operator() {
        Some((_, _, _, a, b)) => Some((a, b)),
        None => None,
    }
}

fn is_operand(operands: Option<(u16, u16)>, r: u16) -> bool
    ensures { result ≡ loops.is_operand operands r }
{
    match operands {
        Some((a, b)) => a == r || b == r,
        None => false,
    }
}

fn has_word(words: &[u64], word: u64) -> bool
    ensures { result ≡ loops.has_word words.now word }
{
    'each: for one in words {
        if *one == word {
            return true;
        }
    }
    false
}

/// A constant in a register, at a place in front of others.
fn add_constant<A: Allocator>(
    looped: &mut Looped<A>,
    at: u32,
    register: u16,
    word: u64,
) -> Result<(), AllocError>
    ensures { OnOk result (looped_in looped.new ≡ loops.one_more at register word (looped_in looped.old)) }
{
    let is_more = is_operand(looped.operands, register)
        && looped.lowest <= at
        && looped.constants.len() < MOST_READY
        && !has_word(looped.constants.as_slice(), word);
    if !is_more {
        return Ok(());
    }
    match looped.constants.push(word) {
        Ok(()) => Ok(()),
        Err(_) => Err(AllocError),
    }
}

/// A jump in front of others.
fn lead_back<A: Allocator>(looped: &mut Looped<A>, to: u32)
    ensures { looped_in looped.new ≡ loops.with_jump_to to (looped_in looped.old) }
{
    if to < looped.lowest {
        looped.lowest = to;
    }
}

/// One more instruction in front of others.
fn add<A: Allocator>(looped: &mut Looped<A>, at: u32, instr: Instr) -> Result<(), AllocError>
    ensures { OnOk result (looped_in looped.new ≡ loops.looped_by instr at (looped_in looped.old)) }
{
    match instr {
        Instr::Constant(register, word) => add_constant(looped, at, register, word),
        Instr::Jump(to) | Instr::JumpZero(_, to) | Instr::JumpNonzero(_, to) => {
            lead_back(looped, to);
            Ok(())
        }
        _ => Ok(()),
    }
}

/// The constants of the loops among these instructions, which stand from this place on. No memory holds a code with a
/// place that is no `u32`.
pub(crate) fn in_loops<A: Allocator>(
    alloc: A,
    code: &[Instr],
    from: u32,
) -> Result<Vec<u64, A>, AllocError>
    ensures { IfOk result (λ v. v.items ≡ loops.in_loops from code.now) }
{
    let mut left = code.len();
    if left > (u32::MAX - from) as usize {
        return Err(AllocError);
    }
    let mut at = from + left as u32;
    let mut looped = Looped {
        lowest: at,
        operands: None,
        constants: Vec::new(alloc),
    };
    'each: while left > 0 {
        left -= 1;
        at -= 1;
        add(&mut looped, at, code[left])?;
        looped.operands = operands_of(code[left]);
    }
    Ok(looped.constants)
}
