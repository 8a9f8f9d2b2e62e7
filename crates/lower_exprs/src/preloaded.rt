//! Constants that are preloaded in registers.

ghost use Rattle.std.specs.Prelude.{◌≡◌, ◌++◌, ◌+◌, ◌≤◌, length, pos, OnOk};
ghost use Rattle.syntax.specs.Numbers.{word_of};
ghost use Rattle.syntax.specs.Views.{expr_of};
ghost use Rattle.selection.specs.Expressions as expressions;
ghost use Rattle.selection.specs.inner.Parts as parts;
ghost use Rattle.selection.specs.Programs as programs;
ghost use Rattle.lower_exprs.specs.Lists.{lists_of};

use crate::convert::constant_in;
use crate::lists::Lists;
use crate::put::put;
use bytecode::{Instr, MOST_REGISTERS};
use lex::token::Scalar;
use selection::locations::ValueRegister;
use std::alloc::{AllocError, Allocator};
use syntax::number::word_of;
use syntax::tree::Expr;

/// A word that is preloaded: its value, which no instruction gives.
pub(crate) fn preloaded<A: Allocator>(
    lists: &Lists<A>,
    word: u64,
    ty: Scalar,
    from: u32,
) -> Option<ValueRegister>
    ensures { result ≡ expressions.preloaded (lists_of lists.now).layout word ty from }
{
    let mut register = lists.writable;
    'each: for constant in lists.constants.as_slice() {
        if *constant == word {
            return Some(ValueRegister {
                register,
                ty,
                to: from,
            });
        }
        if u32::from(register) == MOST_REGISTERS {
            return None;
        }
        register += 1;
    }
    None
}

/// The word of a constant.
pub(crate) fn constant_word(ty: Scalar, value: u64) -> u64
    ensures { result ≡ word_of ty (pos value) }
{
    word_of(ty, i128::from(value))
}

/// The value and the type of a constant.
pub(crate) fn constant_of<A: Allocator>(e: &Expr<A>) -> Option<(u64, Scalar)>
    ensures { result ≡ parts.constant_of (expr_of e.now) }
{
    match e {
        Expr::Constant(value, own, _) => Some((*value, *own)),
        _ => None,
    }
}

/// A constant that is preloaded in this type, as the right side of an operator.
pub(crate) fn preloaded_constant<A: Allocator>(
    lists: &Lists<A>,
    ty: Scalar,
    e: &Expr<A>,
    from: u32,
) -> Option<ValueRegister>
    ensures { result ≡ expressions.preloaded_constant (lists_of lists.now).layout ty (expr_of e.now) from }
{
    match e {
        Expr::Constant(value, own, _) => preloaded(lists, constant_in(ty, *own, *value), ty, from),
        _ => None,
    }
}

/// Sets these words in registers from one on.
pub fn set_all<A: Allocator>(
    code: &mut Vec<Instr, A>,
    first: u16,
    words: &[u64],
) -> Result<(), AllocError>
    requires { first + length words.now ≤ 65535 }
    ensures { OnOk result (code.new.items ≡ code.old.items ++ programs.all_set first words.now) }
{
    let mut register = first;
    'each: for word in words {
        put(code, Instr::Constant(register, *word))?;
        register += 1;
    }
    Ok(())
}
