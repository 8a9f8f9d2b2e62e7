//! The instructions of statements. A loop is tested at its bottom; in front of it stand jumps, which have places that
//! are known before the body is made, from which a break and a continue go on.

ghost use Rattle.std.specs.Prelude.{◌≡◌, ◌++◌, ◌∷◌, [], ◌+◌, ◌≤◌, option_map, Some, length, take, OnOk, IfOk};
ghost use Rattle.syntax.specs.Tree as Tree;
ghost use Rattle.syntax.specs.declared.tree.Stmt as tree;
ghost use Rattle.syntax.specs.Views.{expr_of, exprs_of, simple_of, start_of, stmt_of, stmts_of};
ghost use Rattle.syntax.specs.Formats.{pieces};
ghost use Rattle.bytecode.specs.declared.instr.Instr.TheVariants as instr;
ghost use Rattle.lower_spec.specs.Statements.{locals_after};
ghost use Rattle.lower_spec.specs.inner.Locals.{locals_at_end};
ghost use Rattle.selection.specs.Lists.{Lists as Plain};
ghost use Rattle.selection.specs.Expressions.{emit_all, condition};
ghost use Rattle.selection.specs.Conditions as conditions;
ghost use Rattle.selection.specs.Statements as statements;
ghost use Rattle.selection.specs.Simples.{simple_written};
ghost use Rattle.selection.specs.Statements.{print_written, tested_back, for_test, for_step};
ghost use Rattle.selection.specs.Statements.{return_written, transaction_code, stmt_code, stmts_code};
ghost use Rattle.lower_exprs.specs.Lists.{lists_of};
ghost use Rattle.lower_exprs.specs.Fragments.{Adds, AddsTest, AddsWritten, of_written};
ghost use Rattle.lower_exprs.specs.Views.{scope_in};
ghost use Rattle.program_tables.specs.Views.{program_in};

use crate::origins::{note_first, note_stmt};
use crate::print::put_pieces;
use bytecode::Instr;
use lower_exprs::draft::{put_back, put_test};
use lower_exprs::expr::{lower_all, lower_as, lower_condition};
use lower_exprs::fault::LowerFailure;
use lower_exprs::lists::Lists;
use lower_exprs::origins::note;
use lower_exprs::put::{after, append, put};
use lower_exprs::scope::LocalRegisters;
use lower_exprs::simple::{lower_declarators, lower_simple, lower_start};
use program_tables::ProgramTables;
use selection::draft::Draft;
use selection::locations::{ConditionRegister, Exits};
use smallvec::SmallVec;
use std::alloc::{AllocError, Allocator};
use syntax::spans::span_of;
use syntax::tree::{Expr, ForHead, Parameter, Simple, Stmt, TransactionKind};

/// Writes so many commits and then an instruction, and gives the place behind them.
fn leave<A: Allocator>(
    code: &mut Vec<Instr, A>,
    commits: u32,
    last: Instr,
    from: u32,
) -> Result<u32, LowerFailure>
    ensures { (l : Plain) → Adds (of_written (statements.left_by commits last from l)) code.old.items code.new.items l
        result }
{
    let mut to = from;
    'each: for made in 0..commits {
        put(code, Instr::Commit)?;
        to = after(to, 1)?;
    }
    put(code, last)?;
    Ok(after(to, 1)?)
}

/// How many transactions are open from the innermost outer one on, inside one more of this kind.
fn level_in(kind: TransactionKind, levels: u32) -> Result<u32, AllocError>
    ensures { IfOk result (λ n. n ≡ statements.level_in kind levels) }
{
    match kind {
        TransactionKind::Outer => Ok(1),
        TransactionKind::Plain(_) if levels == 0 => Ok(0),
        TransactionKind::Plain(_) => after(levels, 1),
    }
}

/// The instruction that cancels so many transactions as one.
fn cancelling(levels: u32) -> Instr
    ensures { result ≡ statements.cancelling levels }
{
    if levels == 1 {
        Instr::Cancel
    } else {
        Instr::CancelOuter(levels)
    }
}

/// One transaction more. No count is as large as the number of instructions, which memory bounds.
fn enter_transaction(kind: TransactionKind, exits: Exits) -> Result<Exits, AllocError>
    ensures { IfOk result (λ x. x ≡ statements.in_transaction kind exits) }
{
    if exits.in_function == u32::MAX || exits.in_loop == u32::MAX {
        return Err(AllocError);
    }
    Ok(Exits {
        break_to: exits.break_to,
        continue_to: exits.continue_to,
        in_loop: exits.in_loop + 1,
        in_function: exits.in_function + 1,
        to_outer: level_in(kind, exits.to_outer)?,
        gives: exits.gives,
    })
}

fn looping(exits: Exits, break_to: u32, continue_to: u32) -> Exits
    ensures { result ≡ statements.looping exits break_to continue_to }
{
    Exits {
        break_to,
        continue_to,
        in_loop: 0,
        in_function: exits.in_function,
        to_outer: exits.to_outer,
        gives: exits.gives,
    }
}

/// A condition behind the locals. It is noted where it stands, of its own instructions and of the jump behind it.
fn lower_head<A: Allocator + Copy>(
    names: &ProgramTables<'_, A>,
    scope: &LocalRegisters<'_, A>,
    lists: &mut Lists<A>,
    drafts: &mut Vec<Draft, A>,
    c: &Expr<A>,
    from: u32,
) -> Result<ConditionRegister, LowerFailure>
    ensures { AddsTest (condition (program_in names.now) (scope_in scope.now) (expr_of c.now) from
        (length (scope_in scope.now)) (lists_of lists.old)) drafts.old drafts.new lists.new result }
{
    let free = scope.len();
    let t = lower_condition(names, scope, lists, drafts, c, from, free)?;
    let jumped = after(t.to, 1)?;
    note(lists, jumped, span_of(c))?;
    Ok(t)
}

/// A condition, and a jump back where it holds.
fn lower_back<A: Allocator + Copy>(
    names: &ProgramTables<'_, A>,
    scope: &LocalRegisters<'_, A>,
    lists: &mut Lists<A>,
    code: &mut Vec<Instr, A>,
    c: &Expr<A>,
    from: u32,
    back: u32,
) -> Result<u32, LowerFailure>
    ensures { AddsWritten (tested_back
        (condition (program_in names.now) (scope_in scope.now) (expr_of c.now) from (length (scope_in scope.now))
        (lists_of lists.old))
        back) code.old code.new lists.new result }
{
    let mut drafts = Vec::new(names.alloc);
    let t = lower_head(names, scope, lists, &mut drafts, c, from)?;
    Ok(put_back(code, drafts.as_slice(), t, back)?)
}

/// An assignment or an expression behind the locals.
fn lower_do<A: Allocator + Copy>(
    names: &ProgramTables<'_, A>,
    scope: &LocalRegisters<'_, A>,
    lists: &mut Lists<A>,
    code: &mut Vec<Instr, A>,
    s: &Simple<A>,
    from: u32,
) -> Result<u32, LowerFailure>
    ensures { AddsWritten (simple_written (program_in names.now) (scope_in scope.now) (simple_of s.now) from
        (length (scope_in scope.now)) (lists_of lists.old)) code.old code.new lists.new result }
{
    let free = scope.len();
    lower_simple(names, scope, lists, code, s, from, free)
}

/// The test of a `for`; a missing condition always holds.
fn lower_test<A: Allocator + Copy>(
    names: &ProgramTables<'_, A>,
    scope: &LocalRegisters<'_, A>,
    lists: &mut Lists<A>,
    code: &mut Vec<Instr, A>,
    c: &Option<Expr<A>>,
    back: u32,
    from: u32,
) -> Result<u32, LowerFailure>
    ensures { AddsWritten (for_test (program_in names.now) (scope_in scope.now) (option_map expr_of c.now) back from
        (lists_of lists.old)) code.old code.new lists.new result }
{
    match c {
        Some(c) => lower_back(names, scope, lists, code, c, from, back),
        None => {
            put(code, Instr::Jump(back))?;
            Ok(after(from, 1)?)
        }
    }
}

/// The step of a `for`.
fn lower_step<A: Allocator + Copy>(
    names: &ProgramTables<'_, A>,
    scope: &LocalRegisters<'_, A>,
    lists: &mut Lists<A>,
    code: &mut Vec<Instr, A>,
    step: &Option<Simple<A>>,
    from: u32,
) -> Result<u32, LowerFailure>
    ensures { AddsWritten (for_step (program_in names.now) (scope_in scope.now) (option_map simple_of step.now) from
        (lists_of lists.old)) code.old code.new lists.new result }
{
    match step {
        Some(s) => lower_do(names, scope, lists, code, s, from),
        None => Ok(from),
    }
}

/// A condition, and a branch that is taken where it holds.
fn put_branch<A: Allocator>(
    code: &mut Vec<Instr, A>,
    test: &[Draft],
    t: ConditionRegister,
    branch: &mut Vec<Instr, A>,
    to: u32,
) -> Result<(), AllocError>
    ensures { OnOk result (code.new.items ≡ code.old.items ++ (conditions.going_on test.now t to ++ branch.old.items)) }
{
    put_test(code, test, t, to)?;
    append(code, branch)
}

/// A condition, a branch that is taken where it holds, a jump over the other branch, which begins at `other_at`, and
/// that one.
fn put_branches<A: Allocator>(
    code: &mut Vec<Instr, A>,
    test: &[Draft],
    t: ConditionRegister,
    first: &mut Vec<Instr, A>,
    other_at: u32,
    second: &mut Vec<Instr, A>,
    to: u32,
) -> Result<(), AllocError>
    ensures { OnOk result (code.new.items ≡ code.old.items ++ (conditions.going_on test.now t other_at
        ++ first.old.items ++ instr.Jump to ∷ second.old.items)) }
{
    put_branch(code, test, t, first, other_at)?;
    put(code, Instr::Jump(to))?;
    append(code, second)
}

/// A loop that is tested first: a jump to its test, one for breaks, and the rest.
fn put_while<A: Allocator>(
    code: &mut Vec<Instr, A>,
    test_at: u32,
    to: u32,
    rest: &mut Vec<Instr, A>,
) -> Result<(), AllocError>
    ensures { OnOk result (code.new.items ≡ code.old.items ++ instr.Jump test_at ∷ instr.Jump to ∷ rest.old.items) }
{
    put(code, Instr::Jump(test_at))?;
    put(code, Instr::Jump(to))?;
    append(code, rest)
}

/// A loop with a jump for continues: a jump to where it begins, jumps for breaks and continues, and the rest.
fn put_loop<A: Allocator>(
    code: &mut Vec<Instr, A>,
    begin: u32,
    to: u32,
    next: u32,
    rest: &mut Vec<Instr, A>,
) -> Result<(), AllocError>
    ensures { OnOk result (code.new.items
        ≡ code.old.items ++ instr.Jump begin ∷ instr.Jump to ∷ instr.Jump next ∷ rest.old.items) }
{
    put(code, Instr::Jump(begin))?;
    put_while(code, to, next, rest)
}

/// A transaction; a cancel goes on behind it.
fn put_transaction<A: Allocator>(
    code: &mut Vec<Instr, A>,
    to: u32,
    inner: &mut Vec<Instr, A>,
) -> Result<(), AllocError>
    ensures { OnOk result (code.new.items ≡ code.old.items ++ instr.Begin to ∷ inner.old.items ++ instr.Commit ∷ []) }
{
    put(code, Instr::Begin(to))?;
    append(code, inner)?;
    put(code, Instr::Commit)
}

/// A print.
fn lower_print<A: Allocator + Copy>(
    names: &ProgramTables<'_, A>,
    scope: &LocalRegisters<'_, A>,
    lists: &mut Lists<A>,
    code: &mut Vec<Instr, A>,
    format: &str,
    args: &[Expr<A>],
    from: u32,
) -> Result<u32, LowerFailure>
    ensures { AddsWritten (print_written
        (emit_all (program_in names.now) (scope_in scope.now) [] (exprs_of args.now) (from + 1)
        (length (scope_in scope.now)) (lists_of lists.old))
        (pieces format.now)) code.old code.new lists.new result }
{
    put(code, Instr::Irrevocable)?;
    let next = after(from, 1)?;
    let mut registers = SmallVec::<u16, 4, &A>::new(&names.alloc);
    let parameters: [Parameter<A>; 0] = [];
    let free = scope.len();
    let to = lower_all(
        names,
        scope,
        lists,
        code,
        &mut registers,
        &parameters,
        args,
        next,
        free,
    )?;
    put_pieces(
        names.alloc,
        lists,
        code,
        format.as_bytes(),
        registers.as_slice(),
        to,
    )
}

/// A return.
fn lower_return<A: Allocator + Copy>(
    names: &ProgramTables<'_, A>,
    scope: &LocalRegisters<'_, A>,
    lists: &mut Lists<A>,
    code: &mut Vec<Instr, A>,
    e: &Option<Expr<A>>,
    exits: Exits,
    from: u32,
) -> Result<u32, LowerFailure>
    ensures { AddsWritten (return_written (program_in names.now) (scope_in scope.now)
        (option_map expr_of e.now) exits from
        (lists_of lists.old)) code.old code.new lists.new result }
{
    match e {
        Some(e) => {
            let free = scope.len();
            let location = lower_as(names, scope, lists, code, e, exits.gives, from, free, free)?;
            let instr = Instr::ReturnValue(location.register);
            leave(code, exits.in_function, instr, location.to)
        }
        None => leave(code, exits.in_function, Instr::Return, from),
    }
}

/// A statement's instructions; the place behind them. It is noted of its own instructions where it stands.
#[cycle(lower_stmt)]
pub(crate) fn lower_stmt<'p, A: Allocator + Copy>(
    names: &ProgramTables<'p, A>,
    scope: &mut LocalRegisters<'p, A>,
    lists: &mut Lists<A>,
    code: &mut Vec<Instr, A>,
    s: &'p Stmt<A>,
    exits: Exits,
    from: u32,
) -> Result<u32, LowerFailure>
    ensures scope { OnOk result (scope_in scope.new ≡ locals_after (stmt_of s.now) (scope_in scope.old)) }
    ensures code { AddsWritten (stmt_code (program_in names.now) (stmt_of s.now) exits (scope_in scope.old) from
        (lists_of lists.old)) code.old code.new lists.new result }
{
    note_first(lists, from, s)?;
    let to = lower_kind(names, scope, lists, code, s, exits, from)?;
    note_stmt(lists, to, s)?;
    Ok(to)
}

/// `lower_stmt`, by the statement's kind; what is noted is left to it.
#[cycle(lower_stmt)]
fn lower_kind<'p, A: Allocator + Copy>(
    names: &ProgramTables<'p, A>,
    scope: &mut LocalRegisters<'p, A>,
    lists: &mut Lists<A>,
    code: &mut Vec<Instr, A>,
    s: &'p Stmt<A>,
    exits: Exits,
    from: u32,
) -> Result<u32, LowerFailure>
    ensures scope { OnOk result (scope_in scope.new ≡ locals_after (stmt_of s.now) (scope_in scope.old)) }
    ensures code { AddsWritten (stmt_code (program_in names.now) (stmt_of s.now) exits (scope_in scope.old) from
        (lists_of lists.old)) code.old code.new lists.new result }
{
    match s {
        Stmt::Empty => Ok(from),
        Stmt::Declare(d) => {
            lower_declarators(
                names,
                scope,
                lists,
                code,
                d.ty,
                d.declarators.as_slice(),
                from,
            )
        }
        Stmt::Do(s) => lower_do(names, scope, lists, code, s, from),
        Stmt::Block(body) => lower_block(names, scope, lists, code, body.as_slice(), exits, from),
        Stmt::Print(_, format, _, args) => {
            lower_print(
                names,
                scope,
                lists,
                code,
                format.as_str(),
                args.as_slice(),
                from,
            )
        }
        Stmt::If(c, then, other) => match other {
            None => {
                let mut test = Vec::new(names.alloc);
                let mut branch = Vec::new(names.alloc);
                lower_if(
                    names,
                    scope,
                    lists,
                    code,
                    &mut test,
                    &mut branch,
                    then.get(),
                    c,
                    exits,
                    from,
                )
            }
            Some(other) => {
                let mut test = Vec::new(names.alloc);
                let mut first = Vec::new(names.alloc);
                let mut second = Vec::new(names.alloc);
                lower_if_else(
                    names,
                    scope,
                    lists,
                    code,
                    &mut test,
                    &mut first,
                    &mut second,
                    s,
                    c,
                    then.get(),
                    other.get(),
                    exits,
                    from,
                )
            }
        },
        Stmt::While(c, body) => {
            let mut inner = Vec::new(names.alloc);
            lower_while(
                names,
                scope,
                lists,
                code,
                &mut inner,
                body.get(),
                c,
                exits,
                from,
            )
        }
        Stmt::DoWhile(body, c) => {
            let mut inner = Vec::new(names.alloc);
            lower_do_while(
                names,
                scope,
                lists,
                code,
                &mut inner,
                body.get(),
                c,
                exits,
                from,
            )
        }
        Stmt::For(head, body) => {
            let mut inner = Vec::new(names.alloc);
            lower_for(
                names,
                scope,
                lists,
                code,
                &mut inner,
                head.get(),
                body.get(),
                exits,
                from,
            )
        }
        Stmt::Break(_) => leave(code, exits.in_loop, Instr::Jump(exits.break_to), from),
        Stmt::Continue(_) => leave(code, exits.in_loop, Instr::Jump(exits.continue_to), from),
        Stmt::Return(e, _) => { lower_return(names, scope, lists, code, e, exits, from) }
        Stmt::Transaction(kind, body, _) => {
            let mut inner = Vec::new(names.alloc);
            let all = body.as_slice();
            lower_transaction(
                names, scope, lists, code, &mut inner, all, *kind, exits, from,
            )
        }
        Stmt::Cancel(_) => {
            put(code, Instr::Cancel)?;
            Ok(after(from, 1)?)
        }
        Stmt::CancelOuter(_) => {
            put(code, cancelling(exits.to_outer))?;
            Ok(after(from, 1)?)
        }
    }
}

/// An `if` without `else`; its condition is gathered in `test`, and its branch in `branch`.
#[cycle(lower_stmt)]
fn lower_if<'p, A: Allocator + Copy>(
    names: &ProgramTables<'p, A>,
    scope: &mut LocalRegisters<'p, A>,
    lists: &mut Lists<A>,
    code: &mut Vec<Instr, A>,
    test: &mut Vec<Draft, A>,
    branch: &mut Vec<Instr, A>,
    then: &'p Stmt<A>,
    c: &Expr<A>,
    exits: Exits,
    from: u32,
) -> Result<u32, LowerFailure>
    requires test { test.old.items ≡ [] }
    requires branch { branch.old.items ≡ [] }
    ensures scope { OnOk result (scope_in scope.new ≡ scope_in scope.old) }
    ensures code { AddsWritten (stmt_code (program_in names.now) (Tree.If (expr_of c.now) (stmt_of then.now)) exits
        (scope_in scope.old) from (lists_of lists.old)) code.old code.new lists.new result }
{
    let t = lower_head(names, scope, lists, test, c, from)?;
    let next = after(t.to, 1)?;
    let to = lower_scoped(names, scope, lists, branch, then, exits, next)?;
    put_branch(code, test.as_slice(), t, branch, to)?;
    Ok(to)
}

/// An `if` with `else`; the three parts are gathered in `test`, `first` and `second`. The prover needs `s`: both
/// branches are smaller than it.
#[cycle(lower_stmt)]
fn lower_if_else<'p, A: Allocator + Copy>(
    names: &ProgramTables<'p, A>,
    scope: &mut LocalRegisters<'p, A>,
    lists: &mut Lists<A>,
    code: &mut Vec<Instr, A>,
    test: &mut Vec<Draft, A>,
    first: &mut Vec<Instr, A>,
    second: &mut Vec<Instr, A>,
    s: &'p Stmt<A>,
    c: &Expr<A>,
    then: &'p Stmt<A>,
    other: &'p Stmt<A>,
    exits: Exits,
    from: u32,
) -> Result<u32, LowerFailure>
    requires test { test.old.items ≡ [] }
    requires first { first.old.items ≡ [] }
    requires second { second.old.items ≡ [] }
    requires parts { s.now ≡ tree.If c.now then.now (Some other.now) }
    ensures scope { OnOk result (scope_in scope.new ≡ scope_in scope.old) }
    ensures code { AddsWritten (stmt_code (program_in names.now) (Tree.IfElse (expr_of c.now) (stmt_of then.now)
        (stmt_of other.now)) exits (scope_in scope.old) from (lists_of lists.old)) code.old code.new lists.new result }
{
    let _whole = s;
    let t = lower_head(names, scope, lists, test, c, from)?;
    let next = after(t.to, 1)?;
    let last = lower_scoped(names, scope, lists, first, then, exits, next)?;
    let other_at = after(last, 1)?;
    let to = lower_scoped(names, scope, lists, second, other, exits, other_at)?;
    put_branches(code, test.as_slice(), t, first, other_at, second, to)?;
    Ok(to)
}

/// A `while`; its body and its test are gathered in `inner`.
#[cycle(lower_stmt)]
fn lower_while<'p, A: Allocator + Copy>(
    names: &ProgramTables<'p, A>,
    scope: &mut LocalRegisters<'p, A>,
    lists: &mut Lists<A>,
    code: &mut Vec<Instr, A>,
    inner: &mut Vec<Instr, A>,
    body: &'p Stmt<A>,
    c: &Expr<A>,
    exits: Exits,
    from: u32,
) -> Result<u32, LowerFailure>
    requires { inner.old.items ≡ [] }
    ensures scope { OnOk result (scope_in scope.new ≡ scope_in scope.old) }
    ensures code { AddsWritten (stmt_code (program_in names.now) (Tree.While (expr_of c.now) (stmt_of body.now)) exits
        (scope_in scope.old) from (lists_of lists.old)) code.old code.new lists.new result }
{
    let break_at = after(from, 1)?;
    let start = after(from, 2)?;
    let exits = looping(exits, break_at, from);
    let test_at = lower_scoped(names, scope, lists, inner, body, exits, start)?;
    let to = lower_back(names, scope, lists, inner, c, test_at, start)?;
    put_while(code, test_at, to, inner)?;
    Ok(to)
}

/// A `do`; its body and its test are gathered in `inner`.
#[cycle(lower_stmt)]
fn lower_do_while<'p, A: Allocator + Copy>(
    names: &ProgramTables<'p, A>,
    scope: &mut LocalRegisters<'p, A>,
    lists: &mut Lists<A>,
    code: &mut Vec<Instr, A>,
    inner: &mut Vec<Instr, A>,
    body: &'p Stmt<A>,
    c: &Expr<A>,
    exits: Exits,
    from: u32,
) -> Result<u32, LowerFailure>
    requires { inner.old.items ≡ [] }
    ensures scope { OnOk result (scope_in scope.new ≡ scope_in scope.old) }
    ensures code { AddsWritten (stmt_code (program_in names.now) (Tree.DoWhile (stmt_of body.now) (expr_of c.now)) exits
        (scope_in scope.old) from (lists_of lists.old)) code.old code.new lists.new result }
{
    let break_at = after(from, 1)?;
    let continue_at = after(from, 2)?;
    let start = after(from, 3)?;
    let exits = looping(exits, break_at, continue_at);
    let test_at = lower_scoped(names, scope, lists, inner, body, exits, start)?;
    let to = lower_back(names, scope, lists, inner, c, test_at, start)?;
    put_loop(code, start, to, test_at, inner)?;
    Ok(to)
}

/// A transaction; its statements are gathered in `inner`.
#[cycle(lower_stmt)]
fn lower_transaction<'p, A: Allocator + Copy>(
    names: &ProgramTables<'p, A>,
    scope: &mut LocalRegisters<'p, A>,
    lists: &mut Lists<A>,
    code: &mut Vec<Instr, A>,
    inner: &mut Vec<Instr, A>,
    body: &'p [Stmt<A>],
    kind: TransactionKind,
    exits: Exits,
    from: u32,
) -> Result<u32, LowerFailure>
    requires { inner.old.items ≡ [] }
    ensures scope { OnOk result (scope_in scope.new ≡ scope_in scope.old) }
    ensures code { AddsWritten (transaction_code
        (stmts_code (program_in names.now) (stmts_of body.now) (statements.in_transaction kind exits)
        (scope_in scope.old) (from + 1) (lists_of lists.old)))
        code.old code.new lists.new result }
{
    let exits = enter_transaction(kind, exits)?;
    let start = after(from, 1)?;
    let last = lower_block(names, scope, lists, inner, body, exits, start)?;
    let to = after(last, 1)?;
    put_transaction(code, to, inner)?;
    Ok(to)
}

/// A `for`: its start, jumps, and its body, its step and its test, which are gathered in `inner`.
#[cycle(lower_stmt)]
fn lower_for<'p, A: Allocator + Copy>(
    names: &ProgramTables<'p, A>,
    scope: &mut LocalRegisters<'p, A>,
    lists: &mut Lists<A>,
    code: &mut Vec<Instr, A>,
    inner: &mut Vec<Instr, A>,
    head: &'p ForHead<A>,
    body: &'p Stmt<A>,
    exits: Exits,
    from: u32,
) -> Result<u32, LowerFailure>
    requires { inner.old.items ≡ [] }
    ensures scope { OnOk result (scope_in scope.new ≡ scope_in scope.old) }
    ensures code { AddsWritten (stmt_code (program_in names.now)
        (Tree.For (start_of head.now.start) (option_map expr_of head.now.condition)
        (option_map simple_of head.now.step) (stmt_of body.now))
        exits (scope_in scope.old) from (lists_of lists.old)) code.old code.new lists.new result }
{
    let outer = scope.len();
    let jumps_at = lower_start(names, scope, lists, code, &head.start, from)?;
    let break_at = after(jumps_at, 1)?;
    let continue_at = after(jumps_at, 2)?;
    let start = after(jumps_at, 3)?;
    let exits = looping(exits, break_at, continue_at);
    let step_at = lower_scoped(names, scope, lists, inner, body, exits, start)?;
    let test_at = lower_step(names, scope, lists, inner, &head.step, step_at)?;
    let to = lower_test(names, scope, lists, inner, &head.condition, start, test_at)?;
    scope.leave(outer);
    put_loop(code, test_at, to, step_at, inner)?;
    Ok(to)
}

/// A statement whose locals are forgotten behind it.
#[cycle(lower_stmt)]
fn lower_scoped<'p, A: Allocator + Copy>(
    names: &ProgramTables<'p, A>,
    scope: &mut LocalRegisters<'p, A>,
    lists: &mut Lists<A>,
    code: &mut Vec<Instr, A>,
    s: &'p Stmt<A>,
    exits: Exits,
    from: u32,
) -> Result<u32, LowerFailure>
    ensures scope { OnOk result (scope_in scope.new ≡ scope_in scope.old) }
    ensures code { AddsWritten (stmt_code (program_in names.now) (stmt_of s.now) exits (scope_in scope.old) from
        (lists_of lists.old)) code.old code.new lists.new result }
{
    let outer = scope.len();
    let to = lower_stmt(names, scope, lists, code, s, exits, from)?;
    scope.leave(outer);
    Ok(to)
}

/// Statements whose locals are forgotten behind them.
#[cycle(lower_stmt)]
fn lower_block<'p, A: Allocator + Copy>(
    names: &ProgramTables<'p, A>,
    scope: &mut LocalRegisters<'p, A>,
    lists: &mut Lists<A>,
    code: &mut Vec<Instr, A>,
    body: &'p [Stmt<A>],
    exits: Exits,
    from: u32,
) -> Result<u32, LowerFailure>
    ensures scope { OnOk result (scope_in scope.new ≡ scope_in scope.old) }
    ensures code { AddsWritten (stmts_code (program_in names.now) (stmts_of body.now) exits (scope_in scope.old) from
        (lists_of lists.old)) code.old code.new lists.new result }
{
    let outer = scope.len();
    let to = lower_stmts(names, scope, lists, code, body, exits, from)?;
    scope.leave(outer);
    Ok(to)
}

/// Statements one after another.
#[cycle(lower_stmt)]
pub(crate) fn lower_stmts<'p, A: Allocator + Copy>(
    names: &ProgramTables<'p, A>,
    scope: &mut LocalRegisters<'p, A>,
    lists: &mut Lists<A>,
    code: &mut Vec<Instr, A>,
    body: &'p [Stmt<A>],
    exits: Exits,
    from: u32,
) -> Result<u32, LowerFailure>
    ensures scope { OnOk result (scope_in scope.new ≡ locals_at_end (stmts_of body.now) (scope_in scope.old)) }
    ensures code { AddsWritten (stmts_code (program_in names.now) (stmts_of body.now) exits (scope_in scope.old) from
        (lists_of lists.old)) code.old code.new lists.new result }
{
    let mut to = from;
    'body: for s in body {
        to = lower_stmt(names, scope, lists, code, s, exits, to)?;
    }
    Ok(to)
}
