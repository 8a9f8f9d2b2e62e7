//! The instructions of conditions as they are made: jumps whose places are not yet known among them.

ghost use Rattle.std.specs.Prelude.{◌≡◌, ◌++◌, ◌∷◌, [], ◌+◌, map, not, OnOk, IfOk};
ghost use Rattle.bytecode.specs.declared.instr.Instr.TheVariants as instr;
ghost use Rattle.selection.specs.declared.draft.Draft.TheVariants as draft;
ghost use Rattle.selection.specs.Conditions as conditions;

use crate::put::{after, put};
use bytecode::Instr;
use selection::draft::Draft;
use selection::locations::ConditionRegister;
use std::alloc::{AllocError, Allocator};
use syntax::tree::LogicalOp;

/// The jump that is taken where a register is 0, or else where it is not.
pub(crate) fn jump_if(at_zero: bool, register: u16, to: u32) -> Instr
    ensures { result ≡ conditions.jump_if at_zero register to }
{
    if at_zero {
        Instr::JumpZero(register, to)
    } else {
        Instr::JumpNonzero(register, to)
    }
}

/// The jump that is taken where a register is not 0, or else where it is.
pub(crate) fn jump_if_not(at_zero: bool, register: u16, to: u32) -> Instr
    ensures { result ≡ conditions.jump_if_not at_zero register to }
{
    if at_zero {
        Instr::JumpNonzero(register, to)
    } else {
        Instr::JumpZero(register, to)
    }
}

fn complete_one(one: Draft, true_exit: u32, false_exit: u32) -> Instr
    ensures { result ≡ conditions.instruction_of_draft true_exit false_exit one }
{
    match one {
        Draft::Whole(i) => i,
        Draft::ToTrueExit(at_zero, r) => jump_if(at_zero, r, true_exit),
        Draft::ToFalseExit(at_zero, r) => jump_if(at_zero, r, false_exit),
    }
}

fn opposite(one: Draft) -> Draft
    ensures { result ≡ conditions.opposite_draft one }
{
    match one {
        Draft::Whole(i) => Draft::Whole(i),
        Draft::ToTrueExit(at_zero, r) => Draft::ToFalseExit(at_zero, r),
        Draft::ToFalseExit(at_zero, r) => Draft::ToTrueExit(at_zero, r),
    }
}

fn with_second_at(op: LogicalOp, next: u32, one: Draft) -> Draft
    ensures { result ≡ conditions.with_second_at op next one }
{
    match op {
        LogicalOp::AndThen => match one {
            Draft::Whole(i) => Draft::Whole(i),
            Draft::ToTrueExit(at_zero, r) => Draft::Whole(jump_if(at_zero, r, next)),
            Draft::ToFalseExit(at_zero, r) => Draft::ToFalseExit(at_zero, r),
        },
        LogicalOp::OrElse => match one {
            Draft::Whole(i) => Draft::Whole(i),
            Draft::ToTrueExit(at_zero, r) => Draft::ToTrueExit(at_zero, r),
            Draft::ToFalseExit(at_zero, r) => Draft::Whole(jump_if(at_zero, r, next)),
        },
    }
}

/// The jump past the second condition of `&&` and `||`.
fn short_jump(op: LogicalOp, t: ConditionRegister) -> Draft
    ensures { result ≡ conditions.short_jump op t }
{
    match op {
        LogicalOp::AndThen => Draft::ToFalseExit(!t.at_zero, t.register),
        LogicalOp::OrElse => Draft::ToTrueExit(t.at_zero, t.register),
    }
}

fn push<A: Allocator>(drafts: &mut Vec<Draft, A>, one: Draft) -> Result<(), AllocError>
    ensures { OnOk result (drafts.new.items ≡ drafts.old.items ++ one ∷ []) }
{
    match drafts.push(one) {
        Ok(()) => Ok(()),
        Err(_) => Err(AllocError),
    }
}

/// Instructions as they are.
pub(crate) fn keep<A: Allocator>(
    drafts: &mut Vec<Draft, A>,
    code: &[Instr],
) -> Result<(), AllocError>
    ensures { OnOk result (drafts.new.items ≡ drafts.old.items ++ map draft.Whole code.now) }
{
    'each: for one in code {
        push(drafts, Draft::Whole(*one))?;
    }
    Ok(())
}

/// The instructions of the opposite condition.
pub(crate) fn turn<A: Allocator>(
    drafts: &mut Vec<Draft, A>,
    first: &[Draft],
) -> Result<(), AllocError>
    ensures { OnOk result (drafts.new.items ≡ drafts.old.items ++ map conditions.opposite_draft first.now) }
{
    'each: for one in first {
        push(drafts, opposite(*one))?;
    }
    Ok(())
}

fn lead_on<A: Allocator>(
    drafts: &mut Vec<Draft, A>,
    first: &[Draft],
    op: LogicalOp,
    next: u32,
) -> Result<(), AllocError>
    ensures { OnOk result (drafts.new.items ≡ drafts.old.items ++ map (conditions.with_second_at op next) first.now) }
{
    'each: for one in first {
        push(drafts, with_second_at(op, next, *one))?;
    }
    Ok(())
}

fn complete<A: Allocator>(
    code: &mut Vec<Instr, A>,
    drafts: &[Draft],
    true_exit: u32,
    false_exit: u32,
) -> Result<(), AllocError>
    ensures { OnOk result
        (code.new.items ≡ code.old.items ++ map (conditions.instruction_of_draft true_exit false_exit) drafts.now) }
{
    'each: for one in drafts {
        put(code, complete_one(*one, true_exit, false_exit))?;
    }
    Ok(())
}

/// The first condition of `&&` and `||` and its jump; the place behind.
pub(crate) fn put_first<A: Allocator>(
    drafts: &mut Vec<Draft, A>,
    first: &[Draft],
    op: LogicalOp,
    t: ConditionRegister,
) -> Result<u32, AllocError>
    ensures code { OnOk result (drafts.new.items ≡ drafts.old.items
        ++ (map (conditions.with_second_at op (t.to + 1)) first.now ++ conditions.short_jump op t ∷ [])) }
    ensures place { IfOk result (λ p. p ≡ t.to + 1) }
{
    let next = after(t.to, 1)?;
    lead_on(drafts, first, op, next)?;
    push(drafts, short_jump(op, t))?;
    Ok(next)
}

/// A condition with its jump: behind it stands what is done where it holds.
pub fn put_test<A: Allocator>(
    code: &mut Vec<Instr, A>,
    drafts: &[Draft],
    t: ConditionRegister,
    false_exit: u32,
) -> Result<(), AllocError>
    ensures { OnOk result (code.new.items ≡ code.old.items ++ conditions.going_on drafts.now t false_exit) }
{
    let true_exit = after(t.to, 1)?;
    complete(code, drafts, true_exit, false_exit)?;
    put(code, jump_if_not(t.at_zero, t.register, false_exit))
}

/// A condition with a jump that is taken where it holds; the place behind.
pub fn put_back<A: Allocator>(
    code: &mut Vec<Instr, A>,
    drafts: &[Draft],
    t: ConditionRegister,
    true_exit: u32,
) -> Result<u32, AllocError>
    ensures code { OnOk result (code.new.items ≡ code.old.items ++ conditions.going_back drafts.now t true_exit) }
    ensures place { IfOk result (λ p. p ≡ t.to + 1) }
{
    let false_exit = after(t.to, 1)?;
    complete(code, drafts, true_exit, false_exit)?;
    put(code, jump_if(t.at_zero, t.register, true_exit))?;
    Ok(false_exit)
}
