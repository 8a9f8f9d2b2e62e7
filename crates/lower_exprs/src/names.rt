//! What a function's name stands for in code.

ghost use Rattle.std.specs.Prelude.{◌≡◌, option_map};
ghost use Rattle.syntax.specs.Views.{function_of};
ghost use Rattle.selection.specs.Names as Named;
ghost use Rattle.program_tables.specs.Views.{program_in};
ghost use Rattle.lower_exprs.specs.inner.Callees.{callee_in};

use lex::token::Scalar;
use program_tables::ProgramTables;
use std::alloc::Allocator;
use syntax::tree::{Function, Parameter};

/// A function that may be called: its number among the code's functions, the type of its value, and its parameters.
#[derive(Clone, Copy)]
pub(crate) struct Callee<'p, A: Allocator> {
    pub(crate) number: usize,
    pub(crate) ty: Scalar,
    pub(crate) parameters: &'p [Parameter<A>],
}

/// A function with this number.
fn callee_at<'p, A: Allocator + Copy>(number: usize, f: &'p Function<A>) -> Callee<'p, A>
    ensures { callee_in result ≡ Named.callee_at number (function_of f.now) }
{
    let ty = match f.result {
        Some(ty) => ty,
        None => Scalar::Int,
    };
    Callee {
        number,
        ty,
        parameters: f.parameters.as_slice(),
    }
}

/// A function that is defined in the file.
pub(crate) fn callee_of<'p, A: Allocator + Copy>(
    names: &ProgramTables<'p, A>,
    name: &str,
) -> Option<Callee<'p, A>>
    ensures { option_map callee_in result ≡ Named.callee_of (program_in names.now) name.now }
{
    match names.function(name) {
        Some(f) => Some(callee_at(f.number, f.function)),
        None => None,
    }
}
