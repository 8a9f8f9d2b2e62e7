//! The instructions of assignments and declarations.

ghost use Rattle.std.specs.Prelude.{◌≡◌, ◌+◌, ◌≤◌, List, map, option_map, OnOk};
ghost use Rattle.std.specs.Option.{option_copied};
ghost use Rattle.syntax.specs.Names as Names;
ghost use Rattle.syntax.specs.Views.{expr_of, simple_of, declarator_of, global_of, start_of};
ghost use Rattle.bytecode.specs.declared.instr.Instr.{Instr};
ghost use Rattle.lower_spec.specs.Statements.{with_local, with_declared, locals_of_start};
ghost use Rattle.selection.specs.Lists.{Lists as Plain};
ghost use Rattle.selection.specs.Simples as simples;
ghost use Rattle.selection.specs.Simples.{emitted_one, value_or_one, target_code, variable_target, element_target};
ghost use Rattle.selection.specs.Simples.{target_value};
ghost use Rattle.selection.specs.Simples.{target_store, assignment_code, compound_value, compound_code, simple_written};
ghost use Rattle.selection.specs.Simples.{first_written};
ghost use Rattle.selection.specs.Simples.{declarator_written, declared_written, start_written};
ghost use Rattle.lower_exprs.specs.Lists.{lists_of};
ghost use Rattle.lower_exprs.specs.Fragments.{Adds, AddsValue, AddsWritten, of_written};
ghost use Rattle.lower_exprs.specs.inner.Stretches.{in_place, of_aim, Aims};
ghost use Rattle.program_tables.specs.Entries.{shared_in};
ghost use Rattle.lower_exprs.specs.Views.{scope_in};
ghost use Rattle.program_tables.specs.Views.{program_in};
ghost use Rattle.syntax.specs.declared.limits.TheConstants.{MOST_CELLS};

use crate::aim::Aim;
use crate::convert::{constant_in, put_converted, put_widened};
use crate::expr::{lower_expr, lower_operand};
use crate::fault::LowerFailure;
use crate::lists::Lists;
use crate::origins::note;
use crate::preloaded::{constant_of, preloaded};
use crate::put::{above, after, put, put_both, put_constant, put_one, take};
use crate::scope::LocalRegisters;
use crate::value_type::value_type;
use bytecode::Instr;
use lex::token::{Scalar, Span};
use program_tables::{ProgramTables, Shared};
use selection::locations::{AssignmentTarget, ValueRegister};
use std::alloc::Allocator;
use syntax::spans::{span_of, span_of_simple};
use syntax::tree::{BinaryOp, Declarator, Expr, Simple, Start};
use syntax::types::{operand_type, result_type};

fn aim_at(target: AssignmentTarget, to: u32) -> Aim
    ensures { result ≡ record { target = target; to = to } }
{
    Aim { target, to }
}

/// Where an assignment to a variable goes.
fn aim_variable<A: Allocator + Copy>(
    names: &ProgramTables<'_, A>,
    scope: &LocalRegisters<'_, A>,
    lists: &mut Lists<A>,
    x: &str,
    from: u32,
) -> Result<Aim, LowerFailure>
    ensures { (code : List Instr) → Adds (of_aim (variable_target (Names.newest (scope_in scope.now) x.now)
        (Names.global_of (program_in names.now) x.now) from (lists_of lists.old)))
        code code (lists_of lists.new) result }
{
    match scope.newest(x) {
        Some((i, ty)) => {
            let register = take(lists, i)?;
            Ok(aim_at(AssignmentTarget::Local(register, ty), from))
        }
        None => match names.global(x) {
            Some(g) => Ok(aim_at(AssignmentTarget::Cell(g.cell as u32, g.global.ty), from)),
            None => Ok(aim_at(AssignmentTarget::Nowhere, from)),
        },
    }
}

/// Where an assignment to an element goes, with the test of its index or without it.
fn put_check<A: Allocator + Copy>(
    code: &mut Vec<Instr, A>,
    check: bool,
    g: Shared<'_, A>,
    index: ValueRegister,
) -> Result<Aim, LowerFailure>
    requires { g.cell + Names.cells (global_of g.global.now) ≤ MOST_CELLS }
    ensures { (l : Plain) → Adds (of_aim (element_target check (Some (shared_in g.entry)) (in_place index l) index.to
        l)) code.old.items code.new.items l result }
{
    let length = g.global.cell_count() as u32;
    let target = AssignmentTarget::Element(index.register, g.cell as u32, length, g.global.ty);
    if check {
        put(code, Instr::Check(index.register, length))?;
        let to = after(index.to, 1)?;
        return Ok(aim_at(target, to));
    }
    Ok(aim_at(target, index.to))
}

/// Where an assignment goes, and it is noted of the test of an index where the element stands.
fn aim<A: Allocator + Copy>(
    names: &ProgramTables<'_, A>,
    scope: &LocalRegisters<'_, A>,
    lists: &mut Lists<A>,
    code: &mut Vec<Instr, A>,
    check: bool,
    e: &Expr<A>,
    from: u32,
    free: usize,
) -> Result<Aim, LowerFailure>
    ensures { Aims (target_code (program_in names.now) (scope_in scope.now) check (expr_of e.now) from free
        (lists_of lists.old)) code.old code.new lists.new result }
{
    let aim = find_aim(names, scope, lists, code, check, e, from, free)?;
    note(lists, aim.to, span_of(e))?;
    Ok(aim)
}

/// Where an assignment goes.
fn find_aim<A: Allocator + Copy>(
    names: &ProgramTables<'_, A>,
    scope: &LocalRegisters<'_, A>,
    lists: &mut Lists<A>,
    code: &mut Vec<Instr, A>,
    check: bool,
    e: &Expr<A>,
    from: u32,
    free: usize,
) -> Result<Aim, LowerFailure>
    ensures { Aims (target_code (program_in names.now) (scope_in scope.now) check (expr_of e.now) from free
        (lists_of lists.old)) code.old code.new lists.new result }
{
    match e {
        Expr::Variable(x) => aim_variable(names, scope, lists, x.text.as_str(), from),
        Expr::Element(x, index, _) => match names.global(x.text.as_str()) {
            Some(g) => {
                let i = lower_expr(names, scope, lists, code, index.get(), from, free, free)?;
                put_check(code, check, g, i)
            }
            None => Ok(aim_at(AssignmentTarget::Nowhere, from)),
        },
        _ => Ok(aim_at(AssignmentTarget::Nowhere, from)),
    }
}

/// The first register that a target leaves.
fn above_target(target: AssignmentTarget, free: usize) -> usize
    ensures { result ≡ simples.above_target target free }
{
    match target {
        AssignmentTarget::Element(i, _, _, _) => above(free, i),
        _ => free,
    }
}

/// The register that the value takes.
fn home_or(target: AssignmentTarget, free: usize) -> usize
    ensures { result ≡ simples.home_or target free }
{
    match target {
        AssignmentTarget::Local(i, _) => i as usize,
        _ => free,
    }
}

/// The old value, and it is noted where the target stands.
fn fetch<A: Allocator>(
    lists: &mut Lists<A>,
    code: &mut Vec<Instr, A>,
    target: AssignmentTarget,
    at: Span,
    from: u32,
    free: usize,
) -> Result<ValueRegister, LowerFailure>
    ensures { AddsValue (target_value target from free (lists_of lists.old)) code.old code.new lists.new result }
{
    let old = put_old(lists, code, target, from, free)?;
    note(lists, old.to, at)?;
    Ok(old)
}

/// The old value.
fn put_old<A: Allocator>(
    lists: &mut Lists<A>,
    code: &mut Vec<Instr, A>,
    target: AssignmentTarget,
    from: u32,
    free: usize,
) -> Result<ValueRegister, LowerFailure>
    ensures { AddsValue (target_value target from free (lists_of lists.old)) code.old code.new lists.new result }
{
    match target {
        AssignmentTarget::Local(i, ty) => {
            let register = take(lists, i as usize)?;
            Ok(ValueRegister {
                register,
                ty,
                to: from,
            })
        }
        AssignmentTarget::Cell(cell, ty) => {
            let register = take(lists, free)?;
            Ok(put_one(code, Instr::Read(register, cell), from, register, ty)?)
        }
        AssignmentTarget::Element(i, cell, length, ty) => {
            let register = take(lists, free)?;
            let instr = Instr::ReadAt(register, i, cell, length);
            Ok(put_one(code, instr, from, register, ty)?)
        }
        AssignmentTarget::Nowhere => put_constant(lists, code, 0, Scalar::Int, from, free),
    }
}

/// A value goes to its target, where it does not lie there already; the place behind.
fn store<A: Allocator>(
    code: &mut Vec<Instr, A>,
    target: AssignmentTarget,
    a: u16,
    from: u32,
) -> Result<u32, LowerFailure>
    ensures { (l : Plain) → Adds (of_written (target_store target a from l)) code.old.items code.new.items l result }
{
    let instr = match target {
        AssignmentTarget::Local(i, _) => {
            if a == i {
                return Ok(from);
            }
            Instr::Move(i, a)
        }
        AssignmentTarget::Cell(cell, _) => Instr::Write(a, cell),
        AssignmentTarget::Element(i, cell, length, _) => Instr::WriteAt(i, a, cell, length),
        AssignmentTarget::Nowhere => return Ok(from),
    };
    put(code, instr)?;
    Ok(after(from, 1)?)
}

/// The type of what lies at a target.
fn type_at(target: AssignmentTarget) -> Scalar
    ensures { result ≡ simples.type_at target }
{
    match target {
        AssignmentTarget::Local(_, ty)
        | AssignmentTarget::Cell(_, ty)
        | AssignmentTarget::Element(_, _, _, ty) => ty,
        AssignmentTarget::Nowhere => Scalar::Int,
    }
}

/// A value of a type `own` on its way to a target.
fn put_fitting<A: Allocator>(
    lists: &mut Lists<A>,
    code: &mut Vec<Instr, A>,
    target: AssignmentTarget,
    own: Scalar,
    a: ValueRegister,
    into: usize,
) -> Result<ValueRegister, LowerFailure>
    ensures { AddsValue (simples.fitting target own (in_place a (lists_of lists.old)) into)
        code.old code.new lists.new result }
{
    match target {
        AssignmentTarget::Local(_, ty) => put_converted(lists, code, a, own, ty, into),
        AssignmentTarget::Cell(_, ty) | AssignmentTarget::Element(_, _, _, ty) => {
            put_widened(lists, code, a, own, ty, into)
        }
        AssignmentTarget::Nowhere => Ok(ValueRegister {
            register: a.register,
            ty: Scalar::Int,
            to: a.to,
        }),
    }
}

/// An expression's value on its way to a target.
fn lower_fitting<A: Allocator + Copy>(
    names: &ProgramTables<'_, A>,
    scope: &LocalRegisters<'_, A>,
    lists: &mut Lists<A>,
    code: &mut Vec<Instr, A>,
    target: AssignmentTarget,
    e: &Expr<A>,
    from: u32,
    home: usize,
    free: usize,
) -> Result<ValueRegister, LowerFailure>
    ensures { AddsValue (simples.stored_value (program_in names.now) (scope_in scope.now) target
        (expr_of e.now) from home
        free (lists_of lists.old)) code.old code.new lists.new result }
{
    match constant_of(e) {
        Some((value, own)) => {
            let ty = type_at(target);
            put_constant(lists, code, constant_in(ty, own, value), ty, from, home)
        }
        None => {
            let a = lower_expr(names, scope, lists, code, e, from, home, free)?;
            put_fitting(lists, code, target, a.ty, a, home)
        }
    }
}

/// `to = value`
fn lower_assign<A: Allocator + Copy>(
    names: &ProgramTables<'_, A>,
    scope: &LocalRegisters<'_, A>,
    lists: &mut Lists<A>,
    code: &mut Vec<Instr, A>,
    to: &Expr<A>,
    value: &Expr<A>,
    from: u32,
    free: usize,
) -> Result<u32, LowerFailure>
    ensures { AddsWritten (assignment_code (program_in names.now) (scope_in scope.now) (expr_of to.now)
        (expr_of value.now) from
        free (lists_of lists.old)) code.old code.new lists.new result }
{
    let aim = aim(names, scope, lists, code, true, to, from, free)?;
    let later = above_target(aim.target, free);
    let home = home_or(aim.target, later);
    let location = lower_fitting(
        names, scope, lists, code, aim.target, value, aim.to, home, later,
    )?;
    store(code, aim.target, location.register, location.to)
}

/// The 1 that is added or subtracted, in this type.
fn lower_one<A: Allocator>(
    lists: &mut Lists<A>,
    code: &mut Vec<Instr, A>,
    ty: Scalar,
    from: u32,
    free: usize,
) -> Result<ValueRegister, LowerFailure>
    ensures { AddsValue (emitted_one ty from free (lists_of lists.old)) code.old code.new lists.new result }
{
    match preloaded(lists, 1, ty, from) {
        Some(location) => Ok(location),
        None => put_constant(lists, code, 1, ty, from, free),
    }
}

/// The type of the right side of an operator.
fn type_or_int<A: Allocator + Copy>(
    names: &ProgramTables<'_, A>,
    scope: &LocalRegisters<'_, A>,
    by: Option<&Expr<A>>,
) -> Scalar
    ensures { result ≡ simples.type_or_int (program_in names.now) (scope_in scope.now)
        (option_map expr_of (option_copied by.entry)) }
{
    match by {
        Some(e) => value_type(names, scope, e),
        None => Scalar::Int,
    }
}

/// The right side of an operator in this type: a value, or else the 1 that is added or subtracted.
fn lower_by<A: Allocator + Copy>(
    names: &ProgramTables<'_, A>,
    scope: &LocalRegisters<'_, A>,
    lists: &mut Lists<A>,
    code: &mut Vec<Instr, A>,
    ty: Scalar,
    by: Option<&Expr<A>>,
    from: u32,
    free: usize,
) -> Result<ValueRegister, LowerFailure>
    ensures { AddsValue (value_or_one (program_in names.now) (scope_in scope.now) ty
        (option_map expr_of (option_copied by.entry)) from free (lists_of lists.old))
        code.old code.new lists.new result }
{
    match by {
        Some(e) => lower_operand(names, scope, lists, code, e, ty, from, free),
        None => lower_one(lists, code, ty, from, free),
    }
}

/// The old value, another one, and the operator on both, as it goes to the target, which stands there in the source.
fn lower_changed<'e, A: Allocator + Copy>(
    names: &ProgramTables<'_, A>,
    scope: &LocalRegisters<'_, A>,
    lists: &mut Lists<A>,
    code: &mut Vec<Instr, A>,
    op: BinaryOp,
    by: Option<&'e Expr<A>>,
    target: AssignmentTarget,
    at: Span,
    from: u32,
    free: usize,
) -> Result<ValueRegister, LowerFailure>
    ensures { AddsValue (compound_value (program_in names.now) (scope_in scope.now) op
        (option_map expr_of (option_copied by.entry)) target from free (lists_of lists.old))
        code.old code.new lists.new result }
{
    let own = type_at(target);
    let other = type_or_int(names, scope, by);
    let ty = operand_type(op, own, other);
    let due = operand_type(op, other, own);
    let first = fetch(lists, code, target, at, from, free)?;
    let old = put_converted(lists, code, first, own, ty, free)?;
    let behind = above(free, old.register);
    let right = lower_by(names, scope, lists, code, due, by, old.to, behind)?;
    let home = home_or(target, free);
    let location = put_both(lists, code, op, ty, old, right, home)?;
    put_fitting(lists, code, target, result_type(op, ty), location, home)
}

/// `to op= by`; with no `by`, `to++` or `to--`
fn lower_adjust<'e, A: Allocator + Copy>(
    names: &ProgramTables<'_, A>,
    scope: &LocalRegisters<'_, A>,
    lists: &mut Lists<A>,
    code: &mut Vec<Instr, A>,
    op: BinaryOp,
    to: &'e Expr<A>,
    by: Option<&'e Expr<A>>,
    from: u32,
    free: usize,
) -> Result<u32, LowerFailure>
    ensures { AddsWritten (compound_code (program_in names.now) (scope_in scope.now) op (expr_of to.now)
        (option_map expr_of (option_copied by.entry)) from free (lists_of lists.old))
        code.old code.new lists.new result }
{
    let aim = aim(names, scope, lists, code, false, to, from, free)?;
    let later = above_target(aim.target, free);
    let at = span_of(to);
    let location = lower_changed(
        names, scope, lists, code, op, by, aim.target, at, aim.to, later,
    )?;
    store(code, aim.target, location.register, location.to)
}

/// An expression that stands as a statement, or an assignment. It is noted of its own instructions where it stands.
pub fn lower_simple<A: Allocator + Copy>(
    names: &ProgramTables<'_, A>,
    scope: &LocalRegisters<'_, A>,
    lists: &mut Lists<A>,
    code: &mut Vec<Instr, A>,
    s: &Simple<A>,
    from: u32,
    free: usize,
) -> Result<u32, LowerFailure>
    ensures { AddsWritten (simple_written (program_in names.now) (scope_in scope.now) (simple_of s.now) from free
        (lists_of lists.old)) code.old code.new lists.new result }
{
    let to = lower_effect(names, scope, lists, code, s, from, free)?;
    note(lists, to, span_of_simple(s))?;
    Ok(to)
}

/// `lower_simple`, of whose instructions only those are noted that its parts put.
fn lower_effect<A: Allocator + Copy>(
    names: &ProgramTables<'_, A>,
    scope: &LocalRegisters<'_, A>,
    lists: &mut Lists<A>,
    code: &mut Vec<Instr, A>,
    s: &Simple<A>,
    from: u32,
    free: usize,
) -> Result<u32, LowerFailure>
    ensures { AddsWritten (simple_written (program_in names.now) (scope_in scope.now) (simple_of s.now) from free
        (lists_of lists.old)) code.old code.new lists.new result }
{
    match s {
        Simple::Evaluate(e) => {
            let location = lower_expr(names, scope, lists, code, e, from, free, free)?;
            Ok(location.to)
        }
        Simple::Assign(to, op, value) => match op {
            None => lower_assign(names, scope, lists, code, to, value, from, free),
            Some(op) => {
                lower_adjust(names, scope, lists, code, *op, to, Some(value), from, free)
            }
        },
        Simple::Adjust(to, by) => {
            lower_adjust(
                names,
                scope,
                lists,
                code,
                by.operator(),
                to,
                None,
                from,
                free,
            )
        }
    }
}

/// The first value of the local in this register.
fn lower_first<A: Allocator + Copy>(
    names: &ProgramTables<'_, A>,
    scope: &LocalRegisters<'_, A>,
    lists: &mut Lists<A>,
    code: &mut Vec<Instr, A>,
    register: u16,
    ty: Scalar,
    first: &Option<Expr<A>>,
    from: u32,
) -> Result<u32, LowerFailure>
    ensures { AddsWritten (first_written (program_in names.now) (scope_in scope.now) register ty
        (option_map expr_of first.now) from (lists_of lists.old)) code.old code.new lists.new result }
{
    match first {
        Some(e) => {
            let i = register as usize;
            let target = AssignmentTarget::Local(register, ty);
            let location = lower_fitting(names, scope, lists, code, target, e, from, i, i + 1)?;
            store(code, target, location.register, location.to)
        }
        None => Ok(from),
    }
}

/// A declared local is 0 and then has its first value. It is noted of its own instructions where its name stands.
fn lower_declarator<'p, A: Allocator + Copy>(
    names: &ProgramTables<'p, A>,
    scope: &mut LocalRegisters<'p, A>,
    lists: &mut Lists<A>,
    code: &mut Vec<Instr, A>,
    ty: Scalar,
    d: &'p Declarator<A>,
    from: u32,
) -> Result<u32, LowerFailure>
    ensures scope { OnOk result (scope_in scope.new ≡ with_local (scope_in scope.old) d.now.name.text ty) }
    ensures code { AddsWritten
        (declarator_written (program_in names.now) ty (declarator_of d.now) (scope_in scope.old) from
        (lists_of lists.old)) code.old code.new lists.new result }
{
    let to = lower_local(names, scope, lists, code, ty, d, from)?;
    note(lists, to, d.name.span)?;
    Ok(to)
}

/// `lower_declarator`, of whose instructions only those are noted that its first value puts.
fn lower_local<'p, A: Allocator + Copy>(
    names: &ProgramTables<'p, A>,
    scope: &mut LocalRegisters<'p, A>,
    lists: &mut Lists<A>,
    code: &mut Vec<Instr, A>,
    ty: Scalar,
    d: &'p Declarator<A>,
    from: u32,
) -> Result<u32, LowerFailure>
    ensures scope { OnOk result (scope_in scope.new ≡ with_local (scope_in scope.old) d.now.name.text ty) }
    ensures code { AddsWritten
        (declarator_written (program_in names.now) ty (declarator_of d.now) (scope_in scope.old) from
        (lists_of lists.old)) code.old code.new lists.new result }
{
    let register = take(lists, scope.len())?;
    put(code, Instr::Constant(register, 0))?;
    let next = after(from, 1)?;
    scope.declare(d.name.text.as_str(), ty)?;
    lower_first(names, scope, lists, code, register, ty, &d.first, next)
}

/// The locals of one declaration, in order.
pub fn lower_declarators<'p, A: Allocator + Copy>(
    names: &ProgramTables<'p, A>,
    scope: &mut LocalRegisters<'p, A>,
    lists: &mut Lists<A>,
    code: &mut Vec<Instr, A>,
    ty: Scalar,
    all: &'p [Declarator<A>],
    from: u32,
) -> Result<u32, LowerFailure>
    ensures scope { OnOk result (scope_in scope.new ≡ with_declared ty (map declarator_of all.now)
        (scope_in scope.old)) }
    ensures code { AddsWritten
        (declared_written (program_in names.now) ty (map declarator_of all.now) (scope_in scope.old)
        from (lists_of lists.old)) code.old code.new lists.new result }
{
    let mut to = from;
    'each: for one in all {
        to = lower_declarator(names, scope, lists, code, ty, one, to)?;
    }
    Ok(to)
}

/// What the head of a `for` begins with.
pub fn lower_start<'p, A: Allocator + Copy>(
    names: &ProgramTables<'p, A>,
    scope: &mut LocalRegisters<'p, A>,
    lists: &mut Lists<A>,
    code: &mut Vec<Instr, A>,
    start: &'p Start<A>,
    from: u32,
) -> Result<u32, LowerFailure>
    ensures scope { OnOk result (scope_in scope.new ≡ locals_of_start (start_of start.now) (scope_in scope.old)) }
    ensures code { AddsWritten (start_written (program_in names.now) (start_of start.now) (scope_in scope.old) from
        (lists_of lists.old)) code.old code.new lists.new result }
{
    match start {
        Start::Nothing => Ok(from),
        Start::Declare(d) => {
            lower_declarators(
                names,
                scope,
                lists,
                code,
                d.ty,
                d.declarators.as_slice(),
                from,
            )
        }
        Start::Do(s) => {
            let free = scope.len();
            lower_simple(names, scope, lists, code, s, from, free)
        }
    }
}
