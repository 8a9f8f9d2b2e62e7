//! The code of functions.

ghost use Rattle.std.specs.Prelude.{◌≡◌, ◌++◌, ◌∷◌, [], ◌+◌, ◌≤◌, not, ◌&&◌, ◌==◌, nat_le, map, length, take, drop};
ghost use Rattle.std.specs.Prelude.{unwrap_or, OnOk, IfOk, IfErr};
ghost use Rattle.syntax.specs.Views.{function_of, stmts_of, parameter_of};
ghost use Rattle.lower_spec.specs.Programs.{parameter_locals};
ghost use Rattle.selection.specs.Loops as loops;
ghost use Rattle.selection.specs.Programs.{body_preloaded, body_with, body_written, nothing_preloaded};
ghost use Rattle.lower_exprs.specs.Limits.{NeedsMore};
ghost use Rattle.lower_exprs.specs.Lists.{lists_of};
ghost use Rattle.lower_exprs.specs.Fragments.{AddsWritten};
ghost use Rattle.lower_exprs.specs.Views.{scope_in};
ghost use Rattle.program_tables.specs.Views.{program_in};

use crate::loops::in_loops;
use crate::stmt::lower_stmts;
use bytecode::{Instr, MOST_REGISTERS};
use lex::token::Scalar;
use lower_exprs::fault::LowerFailure;
use lower_exprs::lists::Lists;
use lower_exprs::origins::note;
use lower_exprs::preloaded::set_all;
use lower_exprs::put::{after, put};
use lower_exprs::scope::LocalRegisters;
use program_tables::ProgramTables;
use selection::locations::Exits;
use std::alloc::{AllocError, Allocator};
use syntax::tree::{Function, Parameter, Stmt};

/// Declares a parameter, where it has a name.
fn declare_parameter<'p, A: Allocator + Copy>(
    scope: &mut LocalRegisters<'p, A>,
    parameter: &'p Parameter<A>,
) -> Result<(), AllocError>
    ensures { OnOk result (scope_in scope.new ≡ scope_in scope.old ++ parameter_locals
        (parameter_of parameter.now ∷ [])) }
{
    match &parameter.name {
        Some(x) => scope.declare(x.text.as_str(), parameter.ty),
        None => Ok(()),
    }
}

/// The locals that a function begins with: its parameters, where they have names.
fn parameter_locals<'p, A: Allocator + Copy>(
    names: &ProgramTables<'p, A>,
    parameters: &'p [Parameter<A>],
) -> Result<LocalRegisters<'p, A>, AllocError>
    ensures { IfOk result (λ s. scope_in s ≡ parameter_locals (map parameter_of parameters.now)) }
{
    let mut scope = LocalRegisters::new(names);
    'each: for parameter in parameters {
        declare_parameter(&mut scope, parameter)?;
    }
    Ok(scope)
}

/// The type of what a function returns, or that of the 0 that a call of it is worth.
fn given_type(given: Option<Scalar>) -> Scalar
    ensures { result ≡ unwrap_or given (Scalar.Int) }
{
    match given {
        Some(ty) => ty,
        None => Scalar::Int,
    }
}

/// A function's body with the constants that are preloaded, and a return where that runs off its end; the place behind
/// them.
fn lower_body<'p, A: Allocator + Copy>(
    names: &ProgramTables<'p, A>,
    lists: &mut Lists<A>,
    code: &mut Vec<Instr, A>,
    f: &'p Function<A>,
    body: &'p [Stmt<A>],
    from: u32,
) -> Result<u32, LowerFailure>
    requires { length f.now.parameters ≤ 65535 }
    ensures { AddsWritten (body_with (lists_of lists.old).layout (program_in names.now) (function_of f.now)
        (stmts_of body.now) from (lists_of lists.old)) code.old code.new lists.new result }
{
    let parameters = f.parameters.as_slice();
    lists.registers = parameters.len() as u32;
    let mut scope = parameter_locals(names, parameters)?;
    let exits = Exits {
        break_to: 0,
        continue_to: 0,
        in_loop: 0,
        in_function: 0,
        to_outer: 0,
        gives: given_type(f.result),
    };
    let last = lower_stmts(names, &mut scope, lists, code, body, exits, from)?;
    put(code, Instr::Return)?;
    let to = after(last, 1)?;
    note(lists, to, f.name.span)?;
    Ok(to)
}

/// The lengths of a code's lists.
#[derive(Clone, Copy)]
struct Lengths {
    code: usize,
    arguments: usize,
    texts: usize,
    origins: usize,
}

/// Cuts lists to these lengths.
fn cut_to<A: Allocator>(lists: &mut Lists<A>, code: &mut Vec<Instr, A>, lengths: Lengths)
    requires { (lengths.code ≤ length code.old.items) × (lengths.arguments ≤ length lists.old.arguments.items)
        × (lengths.texts ≤ length lists.old.texts.items) }
    ensures code { code.new.items ≡ take lengths.code code.old.items }
    ensures lists { lists_of lists.new ≡ record (lists_of lists.old) {
      arguments = take lengths.arguments lists.old.arguments.items;
      texts = take lengths.texts lists.old.texts.items;
    } }
{
    code.truncate(lengths.code);
    lists.arguments.truncate(lengths.arguments);
    lists.texts.truncate(lengths.texts);
    lists.origins.truncate(lengths.origins);
}

/// A function's body as it stands; the place behind it.
fn lower_plain<'p, A: Allocator + Copy>(
    names: &ProgramTables<'p, A>,
    lists: &mut Lists<A>,
    code: &mut Vec<Instr, A>,
    f: &'p Function<A>,
    body: &'p [Stmt<A>],
    from: u32,
) -> Result<u32, LowerFailure>
    requires { length f.now.parameters ≤ 65535 }
    ensures { AddsWritten (body_with nothing_preloaded (program_in names.now) (function_of f.now)
        (stmts_of body.now) from
        (lists_of lists.old)) code.old code.new lists.new result }
{
    lists.writable = 0;
    lists.constants.clear();
    lower_body(names, lists, code, f, body, from)
}

/// A function's body that finds these constants preloaded, and in front of it the instructions that set them in
/// registers from this one on; the place behind it.
fn lower_preloaded<'p, A: Allocator + Copy>(
    names: &ProgramTables<'p, A>,
    lists: &mut Lists<A>,
    code: &mut Vec<Instr, A>,
    f: &'p Function<A>,
    body: &'p [Stmt<A>],
    from: u32,
    writable: u16,
    constants: Vec<u64, A>,
) -> Result<u32, LowerFailure>
    requires parameters { length f.now.parameters ≤ 65535 }
    requires room { writable + length constants.items ≤ 65535 }
    ensures code { OnOk result
        (AddsWritten (body_preloaded (record { writable = writable; constants = constants.items })
        (program_in names.now) (function_of f.now) (stmts_of body.now) from (lists_of lists.old))
        code.old code.new lists.new result) }
    ensures fails { IfErr result (λ why. NeedsMore why
        (body_with (record { writable = writable; constants = constants.items }) (program_in names.now)
        (function_of f.now) (stmts_of body.now) (from + length constants.items) (lists_of lists.old)).lists.registers) }
{
    let count = constants.len() as u32;
    if from > u32::MAX - count {
        return Err(LowerFailure::OutOfMemory);
    }
    set_all(code, writable, constants.as_slice())?;
    note(lists, from + count, f.name.span)?;
    lists.writable = writable;
    lists.constants = constants;
    let to = lower_body(names, lists, code, f, body, from + count)?;
    lists.registers = u32::from(writable) + count;
    Ok(to)
}

/// The constants of the loops among instructions that stand behind so many others, from this place on.
fn in_loops_behind<A: Allocator>(
    alloc: A,
    code: &[Instr],
    others: usize,
    from: u32,
) -> Result<Vec<u64, A>, AllocError>
    requires { others ≤ length code.now }
    ensures { IfOk result (λ v. v.items ≡ loops.in_loops from (drop others code.now)) }
{
    in_loops(alloc, &code[others..], from)
}

/// Whether a body that needs so many registers is made once more with these constants preloaded: there are some, and a
/// function may have so many registers.
fn is_better(registers: u32, constants: &[u64]) -> bool
    ensures { result ≡ (not (length constants.now == 0) && nat_le (registers + length constants.now) 65535) }
{
    !constants.is_empty() && registers as usize + constants.len() <= MOST_REGISTERS as usize
}

/// A function's instructions; the place behind them. Its body is made as it stands, and where its loops compute with
/// constants once more, with these in registers behind its own, where they are set once.
pub(crate) fn lower_function<'p, A: Allocator + Copy>(
    names: &ProgramTables<'p, A>,
    lists: &mut Lists<A>,
    code: &mut Vec<Instr, A>,
    f: &'p Function<A>,
    body: &'p [Stmt<A>],
    from: u32,
) -> Result<u32, LowerFailure>
    requires { length f.now.parameters ≤ 65535 }
    ensures { AddsWritten (body_written (program_in names.now) (function_of f.now) (stmts_of body.now) from
        (lists_of lists.old)) code.old code.new lists.new result }
{
    let lengths = Lengths {
        code: code.len(),
        arguments: lists.arguments.len(),
        texts: lists.texts.len(),
        origins: lists.origins.len(),
    };
    let to = lower_plain(names, lists, code, f, body, from)?;
    let constants = in_loops_behind(names.alloc, code.as_slice(), lengths.code, from)?;
    if !is_better(lists.registers, constants.as_slice()) {
        return Ok(to);
    }
    let writable = lists.registers as u16;
    cut_to(lists, code, lengths);
    lower_preloaded(names, lists, code, f, body, from, writable, constants)
}
