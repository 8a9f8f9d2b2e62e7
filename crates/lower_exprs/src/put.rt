//! Single instructions: how one is put behind the others.

ghost use Rattle.std.specs.Prelude.{◌≡◌, [], ◌∷◌, ◌++◌, ◌<◌, ◌≤◌, ◌+◌, OnOk, IfOk, IfErr};
ghost use Rattle.selection.specs.Lists.{Lists as Plain, with_register};
ghost use Rattle.selection.specs.Expressions as expressions;
ghost use Rattle.lower_exprs.specs.Limits.{NeedsMore};
ghost use Rattle.lower_exprs.specs.Lists.{lists_of};
ghost use Rattle.lower_exprs.specs.Fragments.{Adds, AddsValue, of_value};
ghost use Rattle.lower_exprs.specs.inner.Stretches.{in_place, standing, test_in_place};

use crate::draft::put_test;
use crate::fault::LowerFailure;
use crate::lists::Lists;
use bytecode::{Instr, MOST_REGISTERS};
use lex::token::Scalar;
use selection::draft::Draft;
use selection::locations::{ConditionRegister, ValueRegister};
use std::alloc::{AllocError, Allocator};
use syntax::tree::BinaryOp;
use syntax::types::result_type;

/// One more instruction.
pub fn put<A: Allocator>(code: &mut Vec<Instr, A>, instr: Instr) -> Result<(), AllocError>
    ensures { OnOk result (code.new.items ≡ code.old.items ++ instr ∷ []) }
{
    match code.push(instr) {
        Ok(()) => Ok(()),
        Err(_) => Err(AllocError),
    }
}

/// The instructions of a list behind those of another.
pub fn append<A: Allocator>(
    code: &mut Vec<Instr, A>,
    more: &mut Vec<Instr, A>,
) -> Result<(), AllocError>
    ensures { OnOk result (code.new.items ≡ code.old.items ++ more.old.items) }
{
    match code.append(more) {
        Ok(()) => Ok(()),
        Err(_) => Err(AllocError),
    }
}

/// The place so many places further. No memory holds a code with a place that is no `u32`.
pub fn after(place: u32, count: u32) -> Result<u32, AllocError>
    requires { count ≤ 4 }
    ensures { IfOk result (λ n. n ≡ place + count) }
{
    if place > u32::MAX - count {
        return Err(AllocError);
    }
    Ok(place + count)
}

/// A register that is used.
pub(crate) fn take<A: Allocator>(lists: &mut Lists<A>, r: usize) -> Result<u16, LowerFailure>
    ensures lists { OnOk result (lists_of lists.new ≡ with_register r (lists_of lists.old)) }
    ensures register { IfOk result (λ n. n ≡ r) }
    ensures fails { IfErr result (λ why. NeedsMore why (with_register r (lists_of lists.old)).registers) }
{
    if r >= MOST_REGISTERS as usize {
        return Err(LowerFailure::Registers);
    }
    if lists.registers <= r as u32 {
        lists.registers = r as u32 + 1;
    }
    Ok(r as u16)
}

/// One more instruction, which puts a value of this type into this register; the code goes on at `from`.
pub(crate) fn put_one<A: Allocator>(
    code: &mut Vec<Instr, A>,
    instr: Instr,
    from: u32,
    register: u16,
    ty: Scalar,
) -> Result<ValueRegister, AllocError>
    ensures value { IfOk result (λ value. (value.register ≡ register) × (value.ty ≡ ty) × (value.to ≡ from + 1)) }
    ensures code { OnOk result (code.new.items ≡ code.old.items ++ instr ∷ []) }
{
    put(code, instr)?;
    let to = after(from, 1)?;
    Ok(ValueRegister { register, ty, to })
}

/// The first free register above a value's.
pub(crate) fn above(free: usize, r: u16) -> usize
    ensures { result ≡ expressions.above free r }
{
    let next = r as usize + 1;
    if free < next { next } else { free }
}

/// A constant in a register.
pub(crate) fn put_constant<A: Allocator>(
    lists: &mut Lists<A>,
    code: &mut Vec<Instr, A>,
    value: u64,
    ty: Scalar,
    from: u32,
    into: usize,
) -> Result<ValueRegister, LowerFailure>
    ensures { AddsValue (expressions.constant value ty from into (lists_of lists.old))
        code.old code.new lists.new result }
{
    let register = take(lists, into)?;
    Ok(put_one(code, Instr::Constant(register, value), from, register, ty)?)
}

/// A value in this very register.
pub(crate) fn put_into<A: Allocator>(
    lists: &mut Lists<A>,
    code: &mut Vec<Instr, A>,
    location: ValueRegister,
    r: usize,
) -> Result<ValueRegister, LowerFailure>
    ensures code { AddsValue (expressions.value_into r (in_place location (lists_of lists.old)))
        code.old code.new lists.new result }
    ensures register { IfOk result (λ now. now.register ≡ r) }
{
    if location.register as usize == r {
        return Ok(location);
    }
    let register = take(lists, r)?;
    Ok(put_one(
        code,
        Instr::Move(register, location.register),
        location.to,
        register,
        location.ty,
    )?)
}

/// An operator on two values, whose instructions stand there; it computes in this type.
pub(crate) fn put_both<A: Allocator>(
    lists: &mut Lists<A>,
    code: &mut Vec<Instr, A>,
    op: BinaryOp,
    ty: Scalar,
    a: ValueRegister,
    b: ValueRegister,
    into: usize,
) -> Result<ValueRegister, LowerFailure>
    ensures { AddsValue (expressions.both op ty (in_place a (lists_of lists.old)) (in_place b (lists_of lists.old))
        into) code.old code.new lists.new result }
{
    let register = take(lists, into)?;
    let instr = Instr::Compute(op, ty, register, a.register, b.register);
    Ok(put_one(code, instr, b.to, register, result_type(op, ty))?)
}

fn negating(ty: Scalar, d: u16, a: u16) -> Instr
    ensures { result ≡ expressions.negating ty d a }
{
    match ty {
        Scalar::Int => Instr::NegateSigned(d, a),
        Scalar::Unsigned => Instr::NegateUnsigned(d, a),
        Scalar::LongLong => Instr::NegateLong(d, a),
    }
}

fn complementing(ty: Scalar, d: u16, a: u16) -> Instr
    ensures { result ≡ expressions.complementing ty d a }
{
    match ty {
        Scalar::Int | Scalar::Unsigned => Instr::Complement(d, a),
        Scalar::LongLong => Instr::ComplementLong(d, a),
    }
}

/// The negated value.
pub(crate) fn put_negated<A: Allocator>(
    lists: &mut Lists<A>,
    code: &mut Vec<Instr, A>,
    a: ValueRegister,
    into: usize,
) -> Result<ValueRegister, LowerFailure>
    ensures { AddsValue (expressions.negation (in_place a (lists_of lists.old)) into)
        code.old code.new lists.new result }
{
    let register = take(lists, into)?;
    Ok(put_one(
        code,
        negating(a.ty, register, a.register),
        a.to,
        register,
        a.ty,
    )?)
}

/// The value with each bit turned round.
pub(crate) fn put_complemented<A: Allocator>(
    lists: &mut Lists<A>,
    code: &mut Vec<Instr, A>,
    a: ValueRegister,
    into: usize,
) -> Result<ValueRegister, LowerFailure>
    ensures { AddsValue (expressions.complement (in_place a (lists_of lists.old)) into)
        code.old code.new lists.new result }
{
    let register = take(lists, into)?;
    Ok(put_one(
        code,
        complementing(a.ty, register, a.register),
        a.to,
        register,
        a.ty,
    )?)
}

/// Whether a value is 0.
pub(crate) fn put_compared<A: Allocator>(
    lists: &mut Lists<A>,
    code: &mut Vec<Instr, A>,
    a: ValueRegister,
    into: usize,
    free: usize,
) -> Result<ValueRegister, LowerFailure>
    ensures { AddsValue (expressions.logical_negation (in_place a (lists_of lists.old)) into free)
        code.old code.new lists.new result }
{
    let zero_in = take(lists, above(free, a.register))?;
    put(code, Instr::Constant(zero_in, 0))?;
    let register = take(lists, into)?;
    let instr = Instr::Compute(
        BinaryOp::Equal,
        Scalar::Unsigned,
        register,
        a.register,
        zero_in,
    );
    put(code, instr)?;
    let to = after(a.to, 2)?;
    Ok(ValueRegister {
        register,
        ty: Scalar::Int,
        to,
    })
}

/// A condition, and behind it the answers: 1 where it holds, and 0 where it does not.
pub(crate) fn put_answers<A: Allocator>(
    lists: &mut Lists<A>,
    code: &mut Vec<Instr, A>,
    test: &[Draft],
    t: ConditionRegister,
    into: usize,
) -> Result<ValueRegister, LowerFailure>
    ensures { AddsValue (expressions.condition_value (test_in_place test.now t (lists_of lists.old)) into)
        code.old code.new lists.new result }
{
    let false_exit = after(t.to, 3)?;
    let to = after(t.to, 4)?;
    let register = take(lists, into)?;
    put_test(code, test, t, false_exit)?;
    put(code, Instr::Constant(register, 1))?;
    put(code, Instr::Jump(to))?;
    put(code, Instr::Constant(register, 0))?;
    Ok(ValueRegister {
        register,
        ty: Scalar::Int,
        to,
    })
}

/// A condition, and behind it two values of this type in one register.
pub(crate) fn put_chosen<A: Allocator>(
    code: &mut Vec<Instr, A>,
    ty: Scalar,
    test: &[Draft],
    t: ConditionRegister,
    first: &mut Vec<Instr, A>,
    a: ValueRegister,
    second: &mut Vec<Instr, A>,
    b: ValueRegister,
) -> Result<ValueRegister, LowerFailure>
    ensures { (l : Plain) → Adds (of_value (expressions.conditional_value ty (test_in_place test.now t l)
        (standing first.old.items a l) (standing second.old.items b l) b.register)) code.old.items code.new.items l
        result }
{
    let other = after(a.to, 1)?;
    put_test(code, test, t, other)?;
    append(code, first)?;
    put(code, Instr::Jump(b.to))?;
    append(code, second)?;
    Ok(ValueRegister {
        register: b.register,
        ty,
        to: b.to,
    })
}

/// The instructions of a value between the begin and the commit of a transaction of its own.
pub(crate) fn put_in_transaction<A: Allocator>(
    code: &mut Vec<Instr, A>,
    operand: &mut Vec<Instr, A>,
    location: ValueRegister,
) -> Result<ValueRegister, LowerFailure>
    ensures { (l : Plain) → Adds (of_value (expressions.in_own_transaction (standing operand.old.items location l)))
        code.old.items code.new.items l result }
{
    let to = after(location.to, 1)?;
    put(code, Instr::Begin(to))?;
    append(code, operand)?;
    put(code, Instr::Commit)?;
    Ok(ValueRegister {
        register: location.register,
        ty: location.ty,
        to,
    })
}
