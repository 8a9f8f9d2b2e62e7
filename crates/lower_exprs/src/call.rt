//! Calls behind the values of their arguments.

ghost use Rattle.std.specs.Prelude.{◌≡◌, [], ◌∷◌, ◌++◌, length, map, OnOk, IfOk, IfErr};
ghost use Rattle.syntax.specs.Views.{parameter_of};
ghost use Rattle.lower_spec.specs.Expressions.{argument_order, named_ones, nameless_ones};
ghost use Rattle.selection.specs.Lists.{Lists as Plain, with_registers};
ghost use Rattle.selection.specs.Expressions.{call_code};
ghost use Rattle.lower_exprs.specs.Limits.{NeedsMore};
ghost use Rattle.lower_exprs.specs.Lists.{lists_of};
ghost use Rattle.lower_exprs.specs.Fragments.{AddsValue};
ghost use Rattle.lower_exprs.specs.inner.Stretches.{all_in_place};
ghost use Rattle.lower_exprs.specs.inner.Callees.{callee_in};

use crate::fault::LowerFailure;
use crate::lists::Lists;
use crate::names::Callee;
use crate::put::{put_one, take};
use bytecode::{Instr, MOST_REGISTERS};
use selection::locations::ValueRegister;
use std::alloc::{AllocError, Allocator};
use syntax::tree::Parameter;

fn push<A: Allocator>(all: &mut Vec<u16, A>, r: u16) -> Result<(), AllocError>
    ensures { OnOk result (all.new.items ≡ all.old.items ++ r ∷ []) }
{
    match all.push(r) {
        Ok(()) => Ok(()),
        Err(_) => Err(AllocError),
    }
}

/// The registers of arguments for the parameters that have names.
fn push_named<A: Allocator>(
    all: &mut Vec<u16, A>,
    parameters: &[Parameter<A>],
    registers: &[u16],
) -> Result<(), AllocError>
    ensures { OnOk result (all.new.items ≡ all.old.items ++ named_ones (map parameter_of parameters.now)
        registers.now) }
{
    'each: for i in 0..parameters.len() {
        if i >= registers.len() {
            return Ok(());
        }
        if parameters[i].name.is_some() {
            push(all, registers[i])?;
        }
    }
    Ok(())
}

/// The registers of arguments for the parameters that have no names.
fn push_nameless<A: Allocator>(
    all: &mut Vec<u16, A>,
    parameters: &[Parameter<A>],
    registers: &[u16],
) -> Result<(), AllocError>
    ensures { OnOk result (all.new.items ≡ all.old.items ++ nameless_ones (map parameter_of parameters.now)
        registers.now) }
{
    'each: for i in 0..parameters.len() {
        if i >= registers.len() {
            return Ok(());
        }
        if parameters[i].name.is_some() {} else {
            push(all, registers[i])?;
        }
    }
    Ok(())
}

/// The registers of a call's arguments, as the called function numbers them; how many they are.
fn push_arranged<A: Allocator>(
    all: &mut Vec<u16, A>,
    parameters: &[Parameter<A>],
    registers: &[u16],
) -> Result<usize, AllocError>
    ensures items { OnOk result (all.new.items ≡ all.old.items ++ argument_order (map parameter_of parameters.now)
        registers.now) }
    ensures count { IfOk result (λ n. n ≡ length (argument_order (map parameter_of parameters.now) registers.now)) }
{
    let first = all.len();
    push_named(all, parameters, registers)?;
    push_nameless(all, parameters, registers)?;
    Ok(all.len() - first)
}

/// Notes that so many registers are used.
fn with_registers<A: Allocator>(lists: &mut Lists<A>, count: usize) -> Result<u16, LowerFailure>
    ensures lists { OnOk result (lists_of lists.new ≡ with_registers count (lists_of lists.old)) }
    ensures count { IfOk result (λ n. n ≡ count) }
    ensures fails { IfErr result (λ why. NeedsMore why (with_registers count (lists_of lists.old)).registers) }
{
    if count > MOST_REGISTERS as usize {
        return Err(LowerFailure::Registers);
    }
    if lists.registers < count as u32 {
        lists.registers = count as u32;
    }
    Ok(count as u16)
}

/// Hands over the registers of a call's arguments: their index in the list of arguments, and their number.
fn hand_over<A: Allocator>(
    lists: &mut Lists<A>,
    parameters: &[Parameter<A>],
    registers: &[u16],
) -> Result<(u32, u16), LowerFailure>
    ensures lists { let in_order = argument_order (map parameter_of parameters.now) registers.now in
        let arguments = lists.old.arguments.items ++ in_order in
        OnOk result (lists_of lists.new
        ≡ with_registers (length in_order) (record (lists_of lists.old) { arguments = arguments })) }
    ensures first { IfOk result (λ r. r.0 ≡ length lists.old.arguments.items) }
    ensures count { IfOk result (λ r. r.1 ≡ length (argument_order (map parameter_of parameters.now) registers.now)) }
    ensures fails { let n = length (argument_order (map parameter_of parameters.now) registers.now) in
        IfErr result (λ why. NeedsMore why (with_registers n (lists_of lists.old)).registers) }
{
    let first = lists.arguments.len();
    if first > u32::MAX as usize {
        return Err(LowerFailure::OutOfMemory);
    }
    let count = push_arranged(&mut lists.arguments, parameters, registers)?;
    let count = with_registers(lists, count)?;
    Ok((first as u32, count))
}

/// A call whose arguments are values.
pub(crate) fn put_call<A: Allocator + Copy>(
    lists: &mut Lists<A>,
    code: &mut Vec<Instr, A>,
    f: Callee<'_, A>,
    registers: &[u16],
    from: u32,
    into: usize,
) -> Result<ValueRegister, LowerFailure>
    ensures { AddsValue
        (call_code (Some (callee_in f.entry)) (all_in_place registers.now from (lists_of lists.old)) from
        into (lists_of lists.old)) code.old code.new lists.new result }
{
    if f.number > u32::MAX as usize {
        return Err(LowerFailure::OutOfMemory);
    }
    let (first, count) = hand_over(lists, f.parameters, registers)?;
    let register = take(lists, into)?;
    Ok(put_one(
        code,
        Instr::Call(register, count, f.number as u32, first),
        from,
        register,
        f.ty,
    )?)
}
