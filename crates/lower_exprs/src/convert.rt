//! Conversions: which of them are instructions, and how one is put behind the others.

ghost use Rattle.std.specs.Prelude.{◌≡◌, pos, is_some};
ghost use Rattle.lower_spec.specs.Expressions as Lowered;
ghost use Rattle.bytecode.specs.declared.instr.Instr.TheVariants as instr;
ghost use Rattle.selection.specs.Expressions.{then_one, converting, converted_by};
ghost use Rattle.selection.specs.Simples.{widening};
ghost use Rattle.lower_exprs.specs.Lists.{lists_of};
ghost use Rattle.lower_exprs.specs.Fragments.{AddsValue};
ghost use Rattle.lower_exprs.specs.inner.Stretches.{in_place};

use crate::fault::LowerFailure;
use crate::lists::Lists;
use crate::preloaded::constant_word;
use crate::put::{put_one, take};
use bytecode::Instr;
use lex::token::Scalar;
use selection::locations::ValueRegister;
use std::alloc::Allocator;
use syntax::number::{number, word_of};

/// The word of a constant of a type `own` in another type.
pub(crate) fn constant_in(ty: Scalar, own: Scalar, value: u64) -> u64
    ensures { result ≡ Lowered.constant_in ty own value }
{
    word_of(ty, i128::from(number(own, constant_word(own, value))))
}

/// Whether a conversion is an instruction.
pub(crate) fn converts(own: Scalar, ty: Scalar) -> bool
    ensures { result ≡ is_some (converting own ty) }
{
    match own {
        Scalar::Int => match ty {
            Scalar::LongLong => true,
            Scalar::Int | Scalar::Unsigned => false,
        },
        Scalar::Unsigned => false,
        Scalar::LongLong => match ty {
            Scalar::LongLong => false,
            Scalar::Int | Scalar::Unsigned => true,
        },
    }
}

/// An `int` as a `long long`.
fn put_extended<A: Allocator>(
    lists: &mut Lists<A>,
    code: &mut Vec<Instr, A>,
    a: ValueRegister,
    into: usize,
) -> Result<ValueRegister, LowerFailure>
    ensures { AddsValue (then_one (in_place a (lists_of lists.old)) (instr.Extend into a.register) into
        (Scalar.LongLong)) code.old code.new lists.new result }
{
    let register = take(lists, into)?;
    Ok(put_one(
        code,
        Instr::Extend(register, a.register),
        a.to,
        register,
        Scalar::LongLong,
    )?)
}

/// The lower half of a `long long` as a value of this type.
fn put_low<A: Allocator>(
    lists: &mut Lists<A>,
    code: &mut Vec<Instr, A>,
    a: ValueRegister,
    ty: Scalar,
    into: usize,
) -> Result<ValueRegister, LowerFailure>
    ensures { AddsValue (then_one (in_place a (lists_of lists.old)) (instr.Low into a.register) into ty)
        code.old code.new lists.new result }
{
    let register = take(lists, into)?;
    Ok(put_one(code, Instr::Low(register, a.register), a.to, register, ty)?)
}

/// A value of a type `own` in another type.
pub(crate) fn put_converted<A: Allocator>(
    lists: &mut Lists<A>,
    code: &mut Vec<Instr, A>,
    a: ValueRegister,
    own: Scalar,
    ty: Scalar,
    into: usize,
) -> Result<ValueRegister, LowerFailure>
    ensures { AddsValue (converted_by (converting own ty) ty (in_place a (lists_of lists.old)) into)
        code.old code.new lists.new result }
{
    let as_it_lies = ValueRegister {
        register: a.register,
        ty,
        to: a.to,
    };
    match own {
        Scalar::Int => match ty {
            Scalar::LongLong => put_extended(lists, code, a, into),
            Scalar::Int | Scalar::Unsigned => Ok(as_it_lies),
        },
        Scalar::Unsigned => Ok(as_it_lies),
        Scalar::LongLong => match ty {
            Scalar::LongLong => Ok(as_it_lies),
            Scalar::Int | Scalar::Unsigned => put_low(lists, code, a, ty, into),
        },
    }
}

/// Converts a value on its way to a cell, which takes the lower half by itself.
pub(crate) fn put_widened<A: Allocator>(
    lists: &mut Lists<A>,
    code: &mut Vec<Instr, A>,
    a: ValueRegister,
    own: Scalar,
    ty: Scalar,
    into: usize,
) -> Result<ValueRegister, LowerFailure>
    ensures { AddsValue (converted_by (widening own ty) ty (in_place a (lists_of lists.old)) into)
        code.old code.new lists.new result }
{
    match ty {
        Scalar::LongLong => put_converted(lists, code, a, own, ty, into),
        Scalar::Int | Scalar::Unsigned => Ok(ValueRegister {
            register: a.register,
            ty,
            to: a.to,
        }),
    }
}
