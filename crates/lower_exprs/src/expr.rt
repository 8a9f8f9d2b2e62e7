//! The instructions of expressions and conditions.

ghost use Rattle.std.specs.Prelude.{◌≡◌, [], ◌∷◌, ◌++◌, ◌+◌, ◌≤◌, map, drop, pos, OnOk, IfOk};
ghost use Rattle.syntax.specs.declared.tree.Expr as tree;
ghost use Rattle.syntax.specs.Names as Names;
ghost use Rattle.syntax.specs.Numbers.{word_of, operand_type as due_type};
ghost use Rattle.syntax.specs.Views.{expr_of, exprs_of, global_of, parameter_of};
ghost use Rattle.bytecode.specs.declared.instr.Instr.TheVariants as instr;
ghost use Rattle.selection.specs.Conditions as conditions;
ghost use Rattle.selection.specs.Expressions.{one, constant, variable, element, value_into, condition_value, call_code};
ghost use Rattle.selection.specs.Expressions.{in_own_transaction, condition_of, taken_types, emit, as_type};
ghost use Rattle.selection.specs.inner.Parts.{argument_value};
ghost use Rattle.selection.specs.Expressions.{operand};
ghost use Rattle.selection.specs.Expressions.{condition, emitted_type, types_of, emit_all};
ghost use Rattle.selection.specs.inner.Parts.{both_conditions, conditional};
ghost use Rattle.lower_exprs.specs.Lists.{lists_of};
ghost use Rattle.lower_exprs.specs.Fragments.{AddsValue, AddsTest, AddsValues};
ghost use Rattle.lower_exprs.specs.inner.Stretches.{in_place, AddsFirst};
ghost use Rattle.program_tables.specs.Entries.{shared_in};
ghost use Rattle.lower_exprs.specs.inner.Callees.{callee_in};
ghost use Rattle.lower_exprs.specs.Views.{scope_in};
ghost use Rattle.program_tables.specs.Views.{program_in};
ghost use Rattle.syntax.specs.declared.limits.TheConstants.{MOST_CELLS};

use crate::call::put_call;
use crate::cond::{opposite, zero_test};
use crate::convert::{constant_in, converts, put_converted};
use crate::draft::{keep, put_first, turn};
use crate::fault::LowerFailure;
use crate::lists::Lists;
use crate::names::{Callee, callee_of};
use crate::origins::note;
use crate::preloaded::{constant_of, constant_word, preloaded_constant};
use crate::put::{
    above, after, put_answers, put_both, put_chosen, put_compared, put_complemented, put_constant,
    put_in_transaction, put_into, put_negated, put_one, take,
};
use crate::scope::LocalRegisters;
use crate::value_type::value_type;
use bytecode::Instr;
use lex::token::{Scalar, Span};
use program_tables::{ProgramTables, Shared};
use selection::draft::Draft;
use selection::locations::{ConditionRegister, ValueRegister};
use smallvec::SmallVec;
use std::alloc::{AllocError, Allocator};
use syntax::spans::span_of;
use syntax::tree::{BinaryOp, Expr, LogicalOp, Parameter, UnaryOp};
use syntax::types::{common_type, operand_type};

/// A constant of the program.
fn put_number<A: Allocator>(
    lists: &mut Lists<A>,
    code: &mut Vec<Instr, A>,
    value: u64,
    ty: Scalar,
    from: u32,
    into: usize,
) -> Result<ValueRegister, LowerFailure>
    ensures { AddsValue (constant (word_of ty (pos value)) ty from into (lists_of lists.old))
        code.old code.new lists.new result }
{
    put_constant(lists, code, constant_word(ty, value), ty, from, into)
}

/// The value of a global.
fn put_read<A: Allocator + Copy>(
    lists: &mut Lists<A>,
    code: &mut Vec<Instr, A>,
    g: Shared<'_, A>,
    from: u32,
    into: usize,
) -> Result<ValueRegister, LowerFailure>
    requires { g.cell ≤ MOST_CELLS }
    ensures { AddsValue (one (instr.Read into g.entry.cell) from into g.entry.global.now.ty (lists_of lists.old))
        code.old code.new lists.new result }
{
    let register = take(lists, into)?;
    Ok(put_one(
        code,
        Instr::Read(register, g.cell as u32),
        from,
        register,
        g.global.ty,
    )?)
}

/// A variable's value.
fn lower_variable<A: Allocator + Copy>(
    names: &ProgramTables<'_, A>,
    scope: &LocalRegisters<'_, A>,
    lists: &mut Lists<A>,
    code: &mut Vec<Instr, A>,
    x: &str,
    from: u32,
    into: usize,
) -> Result<ValueRegister, LowerFailure>
    ensures { AddsValue (variable (Names.newest (scope_in scope.now) x.now)
        (Names.global_of (program_in names.now) x.now) from into (lists_of lists.old))
        code.old code.new lists.new result }
{
    match scope.newest(x) {
        Some((i, ty)) => {
            let register = take(lists, i)?;
            Ok(ValueRegister {
                register,
                ty,
                to: from,
            })
        }
        None => match names.global(x) {
            Some(g) => put_read(lists, code, g, from, into),
            None => put_constant(lists, code, 0, Scalar::Int, from, into),
        },
    }
}

/// An element of an array, whose index is a value.
fn put_read_at<A: Allocator + Copy>(
    lists: &mut Lists<A>,
    code: &mut Vec<Instr, A>,
    g: Shared<'_, A>,
    index: ValueRegister,
    into: usize,
) -> Result<ValueRegister, LowerFailure>
    requires { g.cell + Names.cells (global_of g.global.now) ≤ MOST_CELLS }
    ensures { AddsValue (element (Some (shared_in g.entry)) (in_place index (lists_of lists.old)) index.to into
        (lists_of lists.old)) code.old code.new lists.new result }
{
    let register = take(lists, into)?;
    let length = g.global.cell_count() as u32;
    let instr = Instr::ReadAt(register, index.register, g.cell as u32, length);
    Ok(put_one(code, instr, index.to, register, g.global.ty)?)
}

/// One register more of a call's arguments. A list of at most four takes no memory.
fn add_operand<A: Allocator>(
    registers: &mut SmallVec<u16, 4, &A>,
    register: u16,
) -> Result<(), AllocError>
    ensures { OnOk result (registers.new.items ≡ registers.old.items ++ register ∷ []) }
{
    match registers.push(register) {
        Ok(()) => Ok(()),
        Err(_) => Err(AllocError),
    }
}

/// An expression's value. A result that is computed comes into the register `into`; registers from `free` on may be
/// written. It is noted of its own instructions where it stands.
#[cycle(lower_expr)]
pub fn lower_expr<A: Allocator + Copy>(
    names: &ProgramTables<'_, A>,
    scope: &LocalRegisters<'_, A>,
    lists: &mut Lists<A>,
    code: &mut Vec<Instr, A>,
    e: &Expr<A>,
    from: u32,
    into: usize,
    free: usize,
) -> Result<ValueRegister, LowerFailure>
    ensures { AddsValue (emit (program_in names.now) (scope_in scope.now) (expr_of e.now) from into free
        (lists_of lists.old)) code.old code.new lists.new result }
{
    let location = lower_node(names, scope, lists, code, e, from, into, free)?;
    note(lists, location.to, span_of(e))?;
    Ok(location)
}

/// `lower_expr`, of whose instructions only those are noted that its parts put.
#[cycle(lower_expr)]
fn lower_node<A: Allocator + Copy>(
    names: &ProgramTables<'_, A>,
    scope: &LocalRegisters<'_, A>,
    lists: &mut Lists<A>,
    code: &mut Vec<Instr, A>,
    e: &Expr<A>,
    from: u32,
    into: usize,
    free: usize,
) -> Result<ValueRegister, LowerFailure>
    ensures { AddsValue (emit (program_in names.now) (scope_in scope.now) (expr_of e.now) from into free
        (lists_of lists.old)) code.old code.new lists.new result }
{
    match e {
        Expr::Variable(x) => lower_variable(names, scope, lists, code, x.text.as_str(), from, into),
        Expr::Constant(value, ty, _) => put_number(lists, code, *value, *ty, from, into),
        Expr::Element(x, index, _) => match names.global(x.text.as_str()) {
            Some(g) => {
                let i = lower_expr(names, scope, lists, code, index.get(), from, free, free)?;
                put_read_at(lists, code, g, i, into)
            }
            None => put_constant(lists, code, 0, Scalar::Int, from, into),
        },
        Expr::Call(f, args, _) => match callee_of(names, f.text.as_str()) {
            Some(f) => {
                let mut registers = SmallVec::<u16, 4, &A>::new(&names.alloc);
                let all = args.as_slice();
                lower_call(
                    names,
                    scope,
                    lists,
                    code,
                    &mut registers,
                    f,
                    all,
                    from,
                    into,
                    free,
                )
            }
            None => put_constant(lists, code, 0, Scalar::Int, from, into),
        },
        Expr::Parenthesized(e, _) => {
            lower_expr(names, scope, lists, code, e.get(), from, into, free)
        }
        Expr::Cast(ty, e, _) => {
            lower_as(names, scope, lists, code, e.get(), *ty, from, into, free)
        }
        Expr::Unary(op, e, _) => match op {
            UnaryOp::Keep => lower_expr(names, scope, lists, code, e.get(), from, into, free),
            UnaryOp::Negate => {
                let a = lower_expr(names, scope, lists, code, e.get(), from, free, free)?;
                put_negated(lists, code, a, into)
            }
            UnaryOp::Not => {
                let a = lower_expr(names, scope, lists, code, e.get(), from, free, free)?;
                put_compared(lists, code, a, into, free)
            }
            UnaryOp::Complement => {
                let a = lower_expr(names, scope, lists, code, e.get(), from, free, free)?;
                put_complemented(lists, code, a, into)
            }
        },
        Expr::Binary(op, left, right, _) => {
            let other = value_type(names, scope, right.get());
            let a = lower_left(
                names,
                scope,
                lists,
                code,
                *op,
                left.get(),
                other,
                from,
                free,
            )?;
            let due = operand_type(*op, other, a.ty);
            let later = above(free, a.register);
            let b = lower_operand(names, scope, lists, code, right.get(), due, a.to, later)?;
            put_both(lists, code, *op, a.ty, a, b, into)
        }
        Expr::Logical(op, left, right, at) => {
            let mut test = Vec::new(names.alloc);
            lower_logical(
                names,
                scope,
                lists,
                code,
                &mut test,
                e,
                *op,
                left.get(),
                right.get(),
                *at,
                from,
                into,
                free,
            )
        }
        Expr::Conditional(c, left, right, at) => {
            let mut test = Vec::new(names.alloc);
            let mut first = Vec::new(names.alloc);
            let mut second = Vec::new(names.alloc);
            lower_conditional(
                names,
                scope,
                lists,
                code,
                &mut test,
                &mut first,
                &mut second,
                e,
                c.get(),
                left.get(),
                right.get(),
                *at,
                from,
                into,
                free,
            )
        }
        Expr::InTransaction(_, keyword, e, _) => lower_in_transaction(
            names,
            scope,
            lists,
            code,
            e.get(),
            *keyword,
            from,
            into,
            free,
        ),
    }
}

/// An expression's value in the type that is due: it is converted, and a constant is set as what it is converted to.
#[cycle(lower_expr)]
pub fn lower_as<A: Allocator + Copy>(
    names: &ProgramTables<'_, A>,
    scope: &LocalRegisters<'_, A>,
    lists: &mut Lists<A>,
    code: &mut Vec<Instr, A>,
    e: &Expr<A>,
    ty: Scalar,
    from: u32,
    into: usize,
    free: usize,
) -> Result<ValueRegister, LowerFailure>
    ensures { AddsValue (as_type (program_in names.now) (scope_in scope.now) ty (expr_of e.now) from into free
        (lists_of lists.old)) code.old code.new lists.new result }
{
    match constant_of(e) {
        Some((value, own)) => {
            put_constant(lists, code, constant_in(ty, own, value), ty, from, into)
        }
        None => {
            let a = lower_expr(names, scope, lists, code, e, from, into, free)?;
            put_converted(lists, code, a, a.ty, ty, into)
        }
    }
}

/// The left side of an operator in the type that is due beside a right side of type `other`. Its own type its register
/// tells, so that a long sum is not walked again at each of its operators.
#[cycle(lower_expr)]
fn lower_left<A: Allocator + Copy>(
    names: &ProgramTables<'_, A>,
    scope: &LocalRegisters<'_, A>,
    lists: &mut Lists<A>,
    code: &mut Vec<Instr, A>,
    op: BinaryOp,
    e: &Expr<A>,
    other: Scalar,
    from: u32,
    free: usize,
) -> Result<ValueRegister, LowerFailure>
    ensures { let own = emitted_type (program_in names.now) (scope_in scope.now) (expr_of e.now) in
        AddsValue (as_type (program_in names.now) (scope_in scope.now) (due_type op own other) (expr_of e.now) from free
        free (lists_of lists.old)) code.old code.new lists.new result }
{
    match constant_of(e) {
        Some((value, own)) => {
            let due = operand_type(op, own, other);
            put_constant(lists, code, constant_in(due, own, value), due, from, free)
        }
        None => {
            let a = lower_expr(names, scope, lists, code, e, from, free, free)?;
            let ty = operand_type(op, a.ty, other);
            put_converted(lists, code, a, a.ty, ty, free)
        }
    }
}

/// The right side of an operator in the type that is due: it is computed, or it is a constant that is preloaded.
#[cycle(lower_expr)]
pub(crate) fn lower_operand<A: Allocator + Copy>(
    names: &ProgramTables<'_, A>,
    scope: &LocalRegisters<'_, A>,
    lists: &mut Lists<A>,
    code: &mut Vec<Instr, A>,
    e: &Expr<A>,
    ty: Scalar,
    from: u32,
    free: usize,
) -> Result<ValueRegister, LowerFailure>
    ensures { AddsValue (operand (program_in names.now) (scope_in scope.now) ty (expr_of e.now) from free
        (lists_of lists.old)) code.old code.new lists.new result }
{
    match preloaded_constant(lists, ty, e, from) {
        Some(location) => Ok(location),
        None => lower_as(names, scope, lists, code, e, ty, from, free, free),
    }
}

/// A call; its arguments' registers are gathered in `registers`.
#[cycle(lower_expr)]
fn lower_call<A: Allocator + Copy>(
    names: &ProgramTables<'_, A>,
    scope: &LocalRegisters<'_, A>,
    lists: &mut Lists<A>,
    code: &mut Vec<Instr, A>,
    registers: &mut SmallVec<u16, 4, &A>,
    f: Callee<'_, A>,
    all: &[Expr<A>],
    from: u32,
    into: usize,
    free: usize,
) -> Result<ValueRegister, LowerFailure>
    requires { registers.old.items ≡ [] }
    ensures { AddsValue (call_code (Some (callee_in f.entry))
        (emit_all (program_in names.now) (scope_in scope.now) (taken_types (Some (callee_in f.entry)))
        (exprs_of all.now) from free (lists_of lists.old))
        from into (lists_of lists.old)) code.old code.new lists.new result }
{
    let to = lower_all(
        names,
        scope,
        lists,
        code,
        registers,
        f.parameters,
        all,
        from,
        free,
    )?;
    put_call(lists, code, f, registers.as_slice(), to, into)
}

/// `&&` and `||` as a value; both conditions are gathered in `test`. The prover needs `e` and `at`: the parts are
/// smaller than `e`.
#[cycle(lower_expr)]
fn lower_logical<A: Allocator + Copy>(
    names: &ProgramTables<'_, A>,
    scope: &LocalRegisters<'_, A>,
    lists: &mut Lists<A>,
    code: &mut Vec<Instr, A>,
    test: &mut Vec<Draft, A>,
    e: &Expr<A>,
    op: LogicalOp,
    left: &Expr<A>,
    right: &Expr<A>,
    at: Span,
    from: u32,
    into: usize,
    free: usize,
) -> Result<ValueRegister, LowerFailure>
    requires test { test.old.items ≡ [] }
    requires parts { e.now ≡ tree.Logical op left.now right.now at }
    ensures { AddsValue (condition_value
        (both_conditions (program_in names.now) (scope_in scope.now) op (expr_of left.now) (expr_of right.now)
        from free (lists_of lists.old))
        into) code.old code.new lists.new result }
{
    let _whole = e;
    let _at = at;
    let next = lower_first(names, scope, lists, test, op, left, from, free)?;
    let t = lower_condition(names, scope, lists, test, right, next, free)?;
    put_answers(lists, code, test.as_slice(), t, into)
}

/// One of two values by a condition; the three parts are gathered in `test`, `first` and `second`. The prover needs `e`
/// and `at`: the parts are smaller than `e`.
#[cycle(lower_expr)]
fn lower_conditional<A: Allocator + Copy>(
    names: &ProgramTables<'_, A>,
    scope: &LocalRegisters<'_, A>,
    lists: &mut Lists<A>,
    code: &mut Vec<Instr, A>,
    test: &mut Vec<Draft, A>,
    first: &mut Vec<Instr, A>,
    second: &mut Vec<Instr, A>,
    e: &Expr<A>,
    c: &Expr<A>,
    left: &Expr<A>,
    right: &Expr<A>,
    at: Span,
    from: u32,
    into: usize,
    free: usize,
) -> Result<ValueRegister, LowerFailure>
    requires test { test.old.items ≡ [] }
    requires first { first.old.items ≡ [] }
    requires second { second.old.items ≡ [] }
    requires parts { e.now ≡ tree.Conditional c.now left.now right.now at }
    ensures { AddsValue (conditional (program_in names.now) (scope_in scope.now) (expr_of c.now) (expr_of left.now)
        (expr_of right.now) from into free (lists_of lists.old)) code.old code.new lists.new result }
{
    let _whole = e;
    let _at = at;
    let own = value_type(names, scope, left);
    let another = value_type(names, scope, right);
    let ty = common_type(own, another);
    let t = lower_condition(names, scope, lists, test, c, from, free)?;
    let next = after(t.to, 1)?;
    let a = lower_into(names, scope, lists, first, left, ty, next, into, free)?;
    let other = after(a.to, 1)?;
    let b = lower_into(names, scope, lists, second, right, ty, other, into, free)?;
    put_chosen(code, ty, test.as_slice(), t, first, a, second, b)
}

/// An expression's value in this type and in this very register.
#[cycle(lower_expr)]
fn lower_into<A: Allocator + Copy>(
    names: &ProgramTables<'_, A>,
    scope: &LocalRegisters<'_, A>,
    lists: &mut Lists<A>,
    code: &mut Vec<Instr, A>,
    e: &Expr<A>,
    ty: Scalar,
    from: u32,
    into: usize,
    free: usize,
) -> Result<ValueRegister, LowerFailure>
    ensures code { AddsValue (value_into into
        (as_type (program_in names.now) (scope_in scope.now) ty (expr_of e.now) from into free (lists_of lists.old)))
        code.old code.new lists.new result }
    ensures register { IfOk result (λ location. location.register ≡ into) }
{
    let location = lower_as(names, scope, lists, code, e, ty, from, into, free)?;
    put_into(lists, code, location, into)
}

/// A value that is computed in a transaction of its own, which begins with this keyword.
#[cycle(lower_expr)]
fn lower_in_transaction<A: Allocator + Copy>(
    names: &ProgramTables<'_, A>,
    scope: &LocalRegisters<'_, A>,
    lists: &mut Lists<A>,
    code: &mut Vec<Instr, A>,
    e: &Expr<A>,
    keyword: Span,
    from: u32,
    into: usize,
    free: usize,
) -> Result<ValueRegister, LowerFailure>
    ensures { AddsValue (in_own_transaction
        (emit (program_in names.now) (scope_in scope.now) (expr_of e.now) (from + 1) into free
        (lists_of lists.old)))
        code.old code.new lists.new result }
{
    let next = after(from, 1)?;
    note(lists, next, keyword)?;
    let mut operand = Vec::new(names.alloc);
    let location = lower_expr(names, scope, lists, &mut operand, e, next, into, free)?;
    put_in_transaction(code, &mut operand, location)
}

/// A condition that is tested by its value.
#[cycle(lower_expr)]
fn lower_value<A: Allocator + Copy>(
    names: &ProgramTables<'_, A>,
    scope: &LocalRegisters<'_, A>,
    lists: &mut Lists<A>,
    drafts: &mut Vec<Draft, A>,
    e: &Expr<A>,
    from: u32,
    free: usize,
) -> Result<ConditionRegister, LowerFailure>
    ensures { AddsTest (condition_of None
        (emit (program_in names.now) (scope_in scope.now) (expr_of e.now) from free free (lists_of lists.old)))
        drafts.old drafts.new lists.new result }
{
    let mut code = Vec::new(names.alloc);
    let location = lower_expr(names, scope, lists, &mut code, e, from, free, free)?;
    keep(drafts, code.as_slice())?;
    Ok(ConditionRegister {
        register: location.register,
        at_zero: false,
        to: location.to,
    })
}

/// The opposite of a condition.
#[cycle(lower_expr)]
fn lower_opposite<A: Allocator + Copy>(
    names: &ProgramTables<'_, A>,
    scope: &LocalRegisters<'_, A>,
    lists: &mut Lists<A>,
    drafts: &mut Vec<Draft, A>,
    e: &Expr<A>,
    from: u32,
    free: usize,
) -> Result<ConditionRegister, LowerFailure>
    ensures { AddsTest (conditions.opposite
        (condition (program_in names.now) (scope_in scope.now) (expr_of e.now) from free (lists_of lists.old)))
        drafts.old drafts.new lists.new result }
{
    let mut first = Vec::new(names.alloc);
    let t = lower_condition(names, scope, lists, &mut first, e, from, free)?;
    turn(drafts, first.as_slice())?;
    Ok(opposite(t))
}

/// The first condition of `&&` and `||` and its jump; the place behind.
#[cycle(lower_expr)]
fn lower_first<A: Allocator + Copy>(
    names: &ProgramTables<'_, A>,
    scope: &LocalRegisters<'_, A>,
    lists: &mut Lists<A>,
    drafts: &mut Vec<Draft, A>,
    op: LogicalOp,
    e: &Expr<A>,
    from: u32,
    free: usize,
) -> Result<u32, LowerFailure>
    ensures { AddsFirst op
        (condition (program_in names.now) (scope_in scope.now) (expr_of e.now) from free (lists_of lists.old))
        drafts.old drafts.new lists.new result }
{
    let mut first = Vec::new(names.alloc);
    let t = lower_condition(names, scope, lists, &mut first, e, from, free)?;
    Ok(put_first(drafts, first.as_slice(), op, t)?)
}

/// A condition, up to the jump that it ends in.
#[cycle(lower_expr)]
pub fn lower_condition<A: Allocator + Copy>(
    names: &ProgramTables<'_, A>,
    scope: &LocalRegisters<'_, A>,
    lists: &mut Lists<A>,
    drafts: &mut Vec<Draft, A>,
    e: &Expr<A>,
    from: u32,
    free: usize,
) -> Result<ConditionRegister, LowerFailure>
    ensures { AddsTest (condition (program_in names.now) (scope_in scope.now) (expr_of e.now) from free
        (lists_of lists.old)) drafts.old drafts.new lists.new result }
{
    match e {
        Expr::Parenthesized(e, _) => {
            lower_condition(names, scope, lists, drafts, e.get(), from, free)
        }
        Expr::Cast(ty, a, _) => {
            let own = value_type(names, scope, a.get());
            if converts(own, *ty) {
                lower_value(names, scope, lists, drafts, e, from, free)
            } else {
                lower_condition(names, scope, lists, drafts, a.get(), from, free)
            }
        }
        Expr::Unary(op, a, _) => match op {
            UnaryOp::Keep => lower_condition(names, scope, lists, drafts, a.get(), from, free),
            UnaryOp::Not => lower_opposite(names, scope, lists, drafts, a.get(), from, free),
            UnaryOp::Negate => lower_value(names, scope, lists, drafts, e, from, free),
            UnaryOp::Complement => lower_value(names, scope, lists, drafts, e, from, free),
        },
        Expr::Binary(op, a, b, _) => match zero_test(*op, b.get()) {
            Some(true) => lower_opposite(names, scope, lists, drafts, a.get(), from, free),
            Some(false) => lower_condition(names, scope, lists, drafts, a.get(), from, free),
            None => lower_value(names, scope, lists, drafts, e, from, free),
        },
        Expr::Logical(op, a, b, _) => {
            let next = lower_first(names, scope, lists, drafts, *op, a.get(), from, free)?;
            lower_condition(names, scope, lists, drafts, b.get(), next, free)
        }
        Expr::Variable(_) => lower_value(names, scope, lists, drafts, e, from, free),
        Expr::Constant(_, _, _) => lower_value(names, scope, lists, drafts, e, from, free),
        Expr::Element(_, _, _) => lower_value(names, scope, lists, drafts, e, from, free),
        Expr::Call(_, _, _) => lower_value(names, scope, lists, drafts, e, from, free),
        Expr::Conditional(_, _, _, _) => lower_value(names, scope, lists, drafts, e, from, free),
        Expr::InTransaction(_, _, _, _) => lower_value(names, scope, lists, drafts, e, from, free),
    }
}

/// One of several values, in the type of the parameter of its number, if there is one.
#[cycle(lower_expr)]
fn lower_argument<A: Allocator + Copy>(
    names: &ProgramTables<'_, A>,
    scope: &LocalRegisters<'_, A>,
    lists: &mut Lists<A>,
    code: &mut Vec<Instr, A>,
    parameters: &[Parameter<A>],
    number: usize,
    e: &Expr<A>,
    from: u32,
    free: usize,
) -> Result<ValueRegister, LowerFailure>
    ensures { AddsValue (argument_value (program_in names.now) (scope_in scope.now)
        (drop number (types_of (map parameter_of parameters.now))) (expr_of e.now) from free (lists_of lists.old))
        code.old code.new lists.new result }
{
    if number < parameters.len() {
        let ty = parameters[number].ty;
        lower_as(names, scope, lists, code, e, ty, from, free, free)
    } else {
        lower_expr(names, scope, lists, code, e, from, free, free)
    }
}

/// Values from left to right in the types of these parameters, each in a register of its own, which is added to
/// `registers`; the place behind them.
#[cycle(lower_expr)]
pub fn lower_all<A: Allocator + Copy>(
    names: &ProgramTables<'_, A>,
    scope: &LocalRegisters<'_, A>,
    lists: &mut Lists<A>,
    code: &mut Vec<Instr, A>,
    registers: &mut SmallVec<u16, 4, &A>,
    parameters: &[Parameter<A>],
    all: &[Expr<A>],
    from: u32,
    free: usize,
) -> Result<u32, LowerFailure>
    ensures registers { OnOk result (registers.new.items ≡ registers.old.items
        ++ (emit_all (program_in names.now) (scope_in scope.now) (types_of (map parameter_of parameters.now))
        (exprs_of all.now) from free (lists_of lists.old)).registers) }
    ensures code { AddsValues (emit_all (program_in names.now) (scope_in scope.now)
        (types_of (map parameter_of parameters.now)) (exprs_of all.now) from free (lists_of lists.old))
        code.old code.new lists.new result }
{
    let mut to = from;
    let mut later = free;
    let mut number = 0;
    'each: for one in all {
        let location = lower_argument(
            names, scope, lists, code, parameters, number, one, to, later,
        )?;
        add_operand(registers, location.register)?;
        later = above(later, location.register);
        to = location.to;
        number += 1;
    }
    Ok(to)
}
