//! The code of a program.

ghost use Rattle.std.specs.Prelude.{◌≡◌, ◌++◌, ◌∷◌, [], ◌≤◌, map, length, IfOk, IfErr, OnOk};
ghost use Rattle.std.specs.List.{AllByRecursion};
ghost use Rattle.syntax.specs.Names as Names;
ghost use Rattle.syntax.specs.Views.{program_of, item_of, function_of, global_of, stmts_of};
ghost use Rattle.bytecode.specs.Valid.{HasWorker};
ghost use Rattle.bytecode.specs.Views.{code_of, function_of as code_function};
ghost use Rattle.lower_spec.specs.Means.{MeansItsProgram};
ghost use Rattle.selection.specs.Programs.{body_written, all_made, picked_code};
ghost use Rattle.lower.specs.Nested.{nested_too_deep};
ghost use Rattle.lower.specs.Faults.{IsLowerFaultOf};
ghost use Rattle.lower_exprs.specs.Lists.{lists_of};
ghost use Rattle.lower.specs.inner.Parts.{made_in, made_behind, made_once};
ghost use Rattle.lower.specs.inner.Parts.{IsOfDefinition, IsOfItem, IsOfCode};
ghost use Rattle.program_tables.specs.Views.{program_in};

use crate::deep::first_too_deep;
use crate::fault::LowerFault;
use crate::function::lower_function;
use bytecode::{Code, FunctionCode, Instr, MOST_INSTRUCTIONS, MOST_REGISTERS, Origin, Parts};
use containers::{Copied, Items};
use lower_exprs::fault::LowerFailure;
use lower_exprs::lists::Lists;
use lower_spec::laws::lowered_code_means;
use program_tables::{ProgramTables, tables};
use selection::laws::{picked_code_is_valid, picked_code_stands};
use separation::Accepted;
use separation::laws::never_astray;
use std::alloc::{AllocError, Allocator};
use syntax::tree::{Function, Global, Item, Stmt};

/// The most transactions that may lie in one another.
const MOST_NESTED: u32 = 16;

/// What is made of a program so far.
#[derive(Drop)]
struct Making<A: Allocator> {
    functions: Vec<FunctionCode<A>, A>,
    code: Vec<Instr, A>,
    lists: Lists<A>,
    globals: Vec<Global<A>, A>,
    to: u32,
}

/// One definition more.
fn lower_definition<'p, A: Allocator + Copy>(
    names: &ProgramTables<'p, A>,
    making: &mut Making<A>,
    f: &'p Function<A>,
    body: &'p [Stmt<A>],
) -> Result<(), LowerFault>
    ensures made { let w = body_written (program_in names.now) (function_of f.now) (stmts_of body.now) making.old.to
        (lists_of making.old.lists) in
        OnOk result (made_in making.new
        ≡ made_behind (made_in making.old) (made_once (function_of f.now) making.old.to w)) }
    ensures globals { OnOk result (making.new.globals.items ≡ making.old.globals.items) }
    ensures registers { let w = body_written (program_in names.now) (function_of f.now) (stmts_of body.now)
        making.old.to (lists_of making.old.lists) in OnOk result (w.lists.registers ≤ 65535) }
    ensures instructions { OnOk result (length making.new.code.items ≤ 1048576) }
    ensures fault { let w = body_written (program_in names.now) (function_of f.now) (stmts_of body.now) making.old.to
        (lists_of making.old.lists) in
        IfErr result (IsOfDefinition (function_of f.now) w.lists.registers
        (length (making.old.code.items ++ w.code))) }
{
    if f.parameters.len() > MOST_REGISTERS as usize {
        return Err(LowerFault::TooManyRegisters(f.name.span));
    }
    let from = making.to;
    let to = match lower_function(names, &mut making.lists, &mut making.code, f, body, from) {
        Ok(to) => to,
        Err(LowerFailure::OutOfMemory) => return Err(LowerFault::OutOfMemory),
        Err(LowerFailure::Registers) => return Err(LowerFault::TooManyRegisters(f.name.span)),
    };
    if making.lists.registers > MOST_REGISTERS {
        return Err(LowerFault::TooManyRegisters(f.name.span));
    }
    if making.code.len() > MOST_INSTRUCTIONS {
        return Err(LowerFault::TooMuchCode(f.name.span));
    }
    let name = match f.name.text.copy(names.alloc) {
        Ok(name) => name,
        Err(_) => return Err(LowerFault::OutOfMemory),
    };
    let function = FunctionCode {
        name,
        first: from,
        registers: making.lists.registers,
        parameters: f.parameters.len() as u32,
    };
    match making.functions.push(function) {
        Ok(()) => {}
        Err(_) => return Err(LowerFault::OutOfMemory),
    }
    making.to = to;
    Ok(())
}

/// Copies of globals behind others.
fn copy_globals<A: Allocator + Copy>(
    alloc: A,
    all: &mut Vec<Global<A>, A>,
    gs: &[Global<A>],
) -> Result<(), AllocError>
    ensures { OnOk result (all.new.items ≡ all.old.items ++ gs.now) }
{
    'each: for g in gs {
        match all.push(g.copy(alloc)?) {
            Ok(()) => {}
            Err(_) => return Err(AllocError),
        }
    }
    Ok(())
}

/// One item more: a definition's code, or copies of globals. A prototype has none.
fn lower_item<'p, A: Allocator + Copy>(
    names: &ProgramTables<'p, A>,
    making: &mut Making<A>,
    item: &'p Item<A>,
) -> Result<(), LowerFault>
    requires few { AllByRecursion (λ f. f.registers ≤ 65535) (map code_function making.old.functions.items) }
    requires short { length making.old.code.items ≤ 1048576 }
    ensures made { OnOk result (made_in making.new ≡ made_behind (made_in making.old)
        (all_made (program_in names.now) (item_of item.now ∷ []) making.old.to (lists_of making.old.lists))) }
    ensures globals { OnOk result (map global_of making.new.globals.items
        ≡ map global_of making.old.globals.items ++ Names.shared_by (item_of item.now)) }
    ensures few { OnOk result (AllByRecursion (λ f. f.registers ≤ 65535)
        (map code_function making.new.functions.items)) }
    ensures short { OnOk result (length making.new.code.items ≤ 1048576) }
    ensures fault { let made = all_made (program_in names.now) (item_of item.now ∷ []) making.old.to
        (lists_of making.old.lists) in
        IfErr result (IsOfItem (item_of item.now) made.functions (length (making.old.code.items ++ made.code))) }
{
    match item {
        Item::Function(f) => match &f.body {
            Some(body) => {
                lower_definition(names, making, f, body.as_slice())?;
                Ok(())
            }
            None => Ok(()),
        },
        Item::Globals(gs) => {
            match copy_globals(names.alloc, &mut making.globals, gs.as_slice()) {
                Ok(()) => Ok(()),
                Err(_) => Err(LowerFault::OutOfMemory),
            }
        }
    }
}

/// The parts of a program's code. Where its instructions come from is put into a list of its own.
fn lower_parts<'p, A: Allocator + Copy>(
    names: &ProgramTables<'p, A>,
    origins: &mut Vec<Origin, A>,
) -> Result<Parts<A>, LowerFault>
    ensures code { IfOk result (λ parts. code_of parts ≡ picked_code (program_in names.now)) }
    ensures few { IfOk result (λ parts. AllByRecursion (λ f. f.registers ≤ 65535) (map code_function parts.functions)) }
    ensures short { IfOk result (λ parts. length parts.instructions ≤ 1048576) }
    ensures fault { IfErr result (IsOfCode (program_in names.now)) }
{
    let mut making = Making {
        functions: Vec::new(names.alloc),
        code: Vec::new(names.alloc),
        lists: Lists {
            arguments: Vec::new(names.alloc),
            texts: Vec::new(names.alloc),
            registers: 0,
            writable: 0,
            constants: Vec::new(names.alloc),
            origins: Vec::new(names.alloc),
        },
        globals: Vec::new(names.alloc),
        to: 0,
    };
    'items: for item in names.unit.items.as_slice() {
        lower_item(names, &mut making, item)?;
    }
    let lists = making.lists;
    *origins = lists.origins;
    Ok(Parts {
        functions: Items::from_vec(making.functions),
        instructions: Items::from_vec(making.code),
        arguments: Items::from_vec(lists.arguments),
        texts: Items::from_vec(lists.texts),
        globals: Items::from_vec(making.globals),
    })
}

/// The code of a program: its functions in file order, each with its instructions, and where these come from in the
/// text, which no contract speaks of. Takes memory for the code, once more for its words, for where they come from, for
/// the code of the statements that lie round the one that is made, and for tables of the program's names; and time for
/// the program's size, but for each instruction that of the loops, branches and transactions round it.
pub fn lower<A: Allocator + Copy>(alloc: A, accepted: &Accepted<A>) -> Result<Code<A>, LowerFault>
    ensures means { IfOk result (MeansItsProgram (program_of accepted.now.safe.typed.unit)) }
    ensures globals { IfOk result (λ code. code.globals ≡ Names.globals (program_of accepted.now.safe.typed.unit)) }
    ensures worker { IfOk result HasWorker }
    ensures shallow { IfOk result (λ code. nested_too_deep (program_of accepted.now.safe.typed.unit) ≡ None) }
    ensures fault { IfErr result (IsLowerFaultOf (program_of accepted.now.safe.typed.unit)) }
{
    picked_code_stands();
    picked_code_is_valid();
    lowered_code_means();
    never_astray();
    let typed = accepted.safe().typed();
    match first_too_deep(typed.unit().items.as_slice(), MOST_NESTED) {
        Some(at) => return Err(LowerFault::NestedTooDeep(at)),
        None => {}
    }
    let names = match tables(alloc, typed) {
        Ok(names) => names,
        Err(_) => return Err(LowerFault::OutOfMemory),
    };
    let mut origins = Vec::new(alloc);
    let parts = lower_parts(&names, &mut origins)?;
    match Code::from_valid(alloc, parts) {
        Ok(code) => Ok(code.with_origins(origins)),
        Err(_) => Err(LowerFault::OutOfMemory),
    }
}
