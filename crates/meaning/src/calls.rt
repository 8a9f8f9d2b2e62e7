//! Calls (C11 6.5.2.2): their arguments, how they begin, and what they give.

ghost use Rattle.std.specs.Prelude.{◌≡◌, ◌≤◌, map, option_map, unwrap_or, IfOk};
ghost use Rattle.syntax.specs.Meaning as meaning;
ghost use Rattle.syntax.specs.Views.{exprs_of, name_of, parameter_of, stmts_of};
ghost use Rattle.syntax.specs.Depth.{block_depth, program_depth};
ghost use Rattle.meaning.specs.inner.Calls.{begin_call, begun_in};
ghost use Rattle.syntax.specs.Tree as tree;
ghost use Rattle.syntax.specs.Tree.{Int};
ghost use Rattle.meaning.specs.inner.Does.{caller_in};
ghost use Rattle.meaning.specs.inner.SourceThread.{completion_of, MeansAs, MeansWord, MeansWords, items_in};
ghost use Rattle.program_tables.specs.Views.{program_in};
ghost use Rattle.meaning.specs.inner.SourceThread.{state_in};

use crate::arithmetic::convert;
use crate::expr::eval;
use crate::outcome::TrapCause;
use crate::places::note;
use crate::source_thread::{Halted, Local, SourceThread, StmtCompletion, tick, trap};
use crate::stmt::stmts;
use crate::word::{Word, convert_word, flag, unpack};
use lex::token::{Scalar, Span};
use program_tables::ProgramTables;
use std::alloc::{AllocError, Allocator};
use std::mem;
use syntax::thread_end::{Halt, Trap};
use syntax::tree::{Expr, Name, Parameter, Stmt};
use syntax::value::Value;

/// The locals that a call begins with, where each parameter has its argument.
fn locals_of<'p, A: Allocator + Copy>(
    alloc: A,
    parameters: &'p [Parameter<A>],
    values: &[Value],
) -> Result<Option<Vec<Local<'p>, A>>, AllocError>
    ensures { IfOk result (λ o. option_map items_in o ≡ meaning.call_locals
        (map parameter_of parameters.now) values.now) }
{
    if parameters.len() != values.len() {
        return Ok(None);
    }
    let mut mine = Vec::new(alloc);
    'parameters: for i in 0..parameters.len() {
        let q = &parameters[i];
        let v = values[i];
        let Some(x) = &q.name else {
            continue;
        };
        mine.push(Local {
            name: x.text.as_str(),
            ty: q.ty,
            word: convert(q.ty, v).word,
        })?;
    }
    Ok(Some(mine))
}

/// The type of a function's value, or `int` where it gives none.
fn type_or_int(ty: Option<Scalar>) -> Scalar
    ensures { result ≡ unwrap_or ty Int }
{
    match ty {
        Some(ty) => ty,
        None => Scalar::Int,
    }
}

/// The value of a call, of the function's own type.
pub(crate) fn result_of<A: Allocator>(
    m: &mut SourceThread<A>,
    ty: Option<Scalar>,
    end: StmtCompletion,
) -> Result<Word, Halted>
    ensures { MeansWord result (meaning.result_of ty (completion_of end) (state_in m.old)) m.new }
{
    match end {
        StmtCompletion::Next => Ok(convert_word(type_or_int(ty), flag(false))),
        StmtCompletion::Returns(w) => Ok(convert_word(type_or_int(ty), w)),
        _ => {
            m.why = Some(Halt::Astray);
            Err(Halted {})
        }
    }
}

/// A call that begins: the type of its value, its body and its locals.
#[derive(Drop)]
pub(crate) struct Begun<'p, A: Allocator> {
    pub ty: Option<Scalar>,
    pub body: &'p [Stmt<A>],
    pub mine: Vec<Local<'p>, A>,
}

/// The call of a function by its name: its definition is looked up, and its parameters get the arguments.
pub(crate) fn begin<'p, A: Allocator + Copy>(
    source: &ProgramTables<'p, A>,
    f: &str,
    values: &[Value],
    m: &mut SourceThread<'p, '_, A>,
) -> Result<Begun<'p, A>, Halted>
    ensures value { MeansAs begun_in result (begin_call (program_in source.now) f.now values.now (state_in m.old))
        m.new }
    ensures deep { IfOk result (λ b. block_depth (stmts_of b.body.now) ≤ program_depth (program_in source.now)) }
{
    let Some(d) = source.function(f) else {
        m.why = Some(Halt::Astray);
        return Err(Halted {});
    };
    let Ok(bound) = locals_of(source.alloc, d.function.parameters.as_slice(), values) else {
        m.why = None;
        return Err(Halted {});
    };
    let Some(mine) = bound else {
        m.why = Some(Halt::Astray);
        return Err(Halted {});
    };
    Ok(Begun {
        ty: d.function.result,
        body: d.body,
        mine,
    })
}

/// The arguments of a call that stands there, its tick, and then the function.
#[cycle(run)]
pub(crate) fn call<'p, A: Allocator + Copy>(
    source: &ProgramTables<'p, A>,
    frames: u64,
    f: &Name<A>,
    args: &'p [Expr<A>],
    span: Span,
    m: &mut SourceThread<'p, '_, A>,
) -> Result<Word, Halted>
    ensures { (at : Span)
        → MeansWord result (meaning.expr (program_in source.now) (caller_in source.now frames)
        (tree.Call (name_of f.now) (exprs_of args.now) at) (state_in m.old)) m.new }
{
    let values = values(source, frames, args, m)?;
    note(&mut m.at, span, Some(TrapCause::Call));
    tick(m)?; // the call's
    enter_function(source, frames, f.text.as_str(), values.as_slice(), m)
}

/// The values of arguments, in their order.
#[cycle(run)]
pub(crate) fn values<'p, A: Allocator + Copy>(
    source: &ProgramTables<'p, A>,
    frames: u64,
    args: &'p [Expr<A>],
    m: &mut SourceThread<'p, '_, A>,
) -> Result<Vec<Value, A>, Halted>
    ensures { MeansWords result
        (meaning.exprs (program_in source.now) (caller_in source.now frames) (exprs_of args.now) (state_in m.old))
        m.new }
{
    let mut values = Vec::new(source.alloc);
    'arguments: for e in args {
        let v = eval(source, frames, e, m)?;
        if values.push(unpack(v)).is_err() {
            m.why = None;
            return Err(Halted {});
        }
    }
    Ok(values)
}

/// A function's body, with locals of its own, where a frame may come to live.
#[cycle(run)]
pub(crate) fn enter_function<'p, A: Allocator + Copy>(
    source: &ProgramTables<'p, A>,
    frames: u64,
    f: &str,
    values: &[Value],
    m: &mut SourceThread<'p, '_, A>,
) -> Result<Word, Halted>
    ensures { MeansWord result (caller_in source.now frames f.now values.now (state_in m.old)) m.new }
{
    if frames == 0 {
        return trap(m, Trap::Frames);
    }
    let Begun { ty, body, mine } = begin(source, f, values, m)?;
    let outer = mem::replace(&mut m.locals, mine);
    let end = stmts(source, frames - 1, body, m)?;
    m.locals = outer;
    result_of(m, ty, end)
}
