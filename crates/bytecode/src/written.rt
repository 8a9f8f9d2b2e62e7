//! Whether everything that an instruction names exists.

ghost use Rattle.std.specs.Prelude.{◌≡◌, ◌<◌, ◌≤◌, ◌+◌, IsTrue, ◌↔◌, length, slice_get, map, Some};
ghost use Rattle.std.specs.List.{AllByRecursion};
ghost use Rattle.bytecode.specs.Valid.{cells_of, Takes, IsWritten};
ghost use Rattle.bytecode.specs.Views.{code_of, function_of, instr_of};

use crate::code::{FunctionCode, Parts};
use crate::cut::cut;
use crate::instr::Instr;
use std::alloc::Allocator;

fn has<A: Allocator>(f: &FunctionCode<A>, r: u16) -> bool
    ensures { IsTrue result ↔ (r < f.now.registers) }
{
    u32::from(r) < f.registers
}

fn has_two<A: Allocator>(f: &FunctionCode<A>, a: u16, b: u16) -> bool
    ensures { IsTrue result ↔ ((a < f.now.registers) × (b < f.now.registers)) }
{
    has(f, a) && has(f, b)
}

fn has_three<A: Allocator>(f: &FunctionCode<A>, a: u16, b: u16, c: u16) -> bool
    ensures { IsTrue result ↔ ((a < f.now.registers) × (b < f.now.registers) × (c < f.now.registers)) }
{
    has(f, a) && has(f, b) && has(f, c)
}

fn lies<A: Allocator>(f: &FunctionCode<A>, end: usize, to: u32) -> bool
    ensures { IsTrue result ↔ ((f.now.first ≤ to) × (to < end)) }
{
    f.first <= to && (to as usize) < end
}

fn reach(cells: usize, cell: u32, n: u32) -> bool
    ensures { IsTrue result ↔ (cell + n ≤ cells) }
{
    cell as usize + n as usize <= cells
}

fn has_all<A: Allocator>(f: &FunctionCode<A>, args: &[u16]) -> bool
    ensures { IsTrue result ↔ AllByRecursion (λ r. r < f.now.registers) args.now }
{
    'each: for arg in args {
        if !has(f, *arg) {
            return false;
        }
    }
    true
}

fn takes<A: Allocator>(parts: &Parts<A>, g: u32, count: usize) -> bool
    ensures { IsTrue result ↔ Takes (code_of parts.now) g count }
{
    match parts.functions.as_slice().get(g as usize) {
        Some(callee) => count == callee.parameters as usize,
        None => false,
    }
}

/// Whether everything that an instruction of a function names exists.
pub(crate) fn is_written<A: Allocator>(
    parts: &Parts<A>,
    f: &FunctionCode<A>,
    end: usize,
    cells: usize,
    instr: &Instr,
) -> bool
    requires { cells ≡ cells_of (code_of parts.now) }
    ensures { IsTrue result ↔ IsWritten (code_of parts.now) (function_of f.now) end
        (instr_of parts.now.arguments instr.now) }
{
    match instr {
        Instr::Constant(d, value) => {
            // The prover learns here that the number is below 2^64.
            let _value = *value;
            has(f, *d)
        }
        Instr::Move(d, a) => has_two(f, *d, *a),
        Instr::NegateSigned(d, a) => has_two(f, *d, *a),
        Instr::NegateUnsigned(d, a) => has_two(f, *d, *a),
        Instr::NegateLong(d, a) => has_two(f, *d, *a),
        Instr::Complement(d, a) => has_two(f, *d, *a),
        Instr::ComplementLong(d, a) => has_two(f, *d, *a),
        Instr::Extend(d, a) => has_two(f, *d, *a),
        Instr::Low(d, a) => has_two(f, *d, *a),
        Instr::Jump(to) => lies(f, end, *to),
        Instr::JumpZero(a, to) => has(f, *a) && lies(f, end, *to),
        Instr::JumpNonzero(a, to) => has(f, *a) && lies(f, end, *to),
        Instr::Check(i, _) => has(f, *i),
        Instr::Read(d, cell) => has(f, *d) && reach(cells, *cell, 1),
        Instr::ReadAt(d, i, cell, cells_there) => has_two(f, *d, *i)
            && reach(cells, *cell, *cells_there),
        Instr::Write(a, cell) => has(f, *a) && reach(cells, *cell, 1),
        Instr::WriteAt(i, a, cell, cells_there) => has_two(f, *i, *a)
            && reach(cells, *cell, *cells_there),
        Instr::Begin(cancelled) => lies(f, end, *cancelled),
        Instr::Commit => true,
        Instr::Cancel => true,
        Instr::CancelOuter(levels) => *levels >= 2,
        Instr::Irrevocable => true,
        Instr::Call(d, count, callee, from) => {
            let args = cut(parts.arguments.as_slice(), *from as usize, *count as usize);
            has(f, *d) && has_all(f, args) && takes(parts, *callee, args.len())
        }
        Instr::Return => true,
        Instr::ReturnValue(a) => has(f, *a),
        Instr::PrintText(text) => (*text as usize) < parts.texts.len(),
        Instr::PrintSigned(a) => has(f, *a),
        Instr::PrintUnsigned(a) => has(f, *a),
        Instr::PrintLong(a) => has(f, *a),
        _ => match instr.operator() {
            Some((_, _, d, a, b)) => has_three(f, d, a, b),
            None => false,
        },
    }
}
