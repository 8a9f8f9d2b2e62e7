//! A thread of the source, as it runs.

ghost use Rattle.std.specs.Prelude.{◌≡◌, map};
ghost use Rattle.syntax.specs.Names.{newest as newest_local, with_word};
ghost use Rattle.syntax.specs.Actions.{tick as tick_due, trap as trap_due, or_trap as or_trap_due};
ghost use Rattle.syntax.specs.Meaning as meaning;
ghost use Rattle.syntax.specs.Numbers.{binary, unary, value_in_type};
ghost use Rattle.syntax.specs.declared.value.Value.{Value};
ghost use Rattle.meaning.specs.inner.Word.{value_of};
ghost use Rattle.meaning.specs.inner.SourceThread.{Means, MeansLvalue, MeansWord, state_in, local_in, lvalue_of};

use crate::arithmetic::{apply, apply_unary, convert};
use crate::outcome::{HaltPlace, TrapCause};
use crate::places::{note_trap, operator_cause};
use crate::word::{Word, pack, pack_value, unpack};
use lex::token::{Scalar, Span};
use std::alloc::Allocator;
use syntax::thread_end::{Halt, Trap};
use syntax::tree::{BinaryOp, Mode, UnaryOp};

/// A local variable, by its name in the tree.
#[derive(Drop)]
pub(crate) struct Local<'p> {
    pub name: &'p str,
    pub ty: Scalar,
    pub word: u64,
}

/// Outside transactions, with the memories still to be found and those left so far; or inside one: how the innermost
/// one runs, and the memory as its transaction sees it.
#[derive(Drop)]
pub(crate) enum Context<'f, A: Allocator> {
    Outside(&'f [Vec<u64, A>], Vec<Vec<u64, A>, A>),
    Inside(Mode, Vec<u64, A>),
}

/// A thread's ticks, locals, context and text; and where it goes no further, why: the meaning's halt, or none where
/// memory has run out.
#[derive(Drop)]
pub(crate) struct SourceThread<'p, 'f, A: Allocator> {
    pub ticks: u64,
    pub why: Option<Halt>,

    /// Where in the source it is, as far as that is noted.
    pub at: Option<HaltPlace>,

    pub locals: Vec<Local<'p>, A>,
    pub context: Context<'f, A>,
    pub text: Vec<u8, A>,
}

/// A thread goes no further here: why stands in it.
#[derive(Clone, Copy)]
pub(crate) struct Halted {}

/// How a statement ends.
#[derive(Clone, Copy)]
pub(crate) enum StmtCompletion {
    Next,
    Breaks,
    Continues,
    Returns(Word),
    Cancels,
    CancelsOuter,
}

/// Where a value stands.
#[derive(Clone, Copy)]
pub(crate) enum Lvalue {
    InLocal(usize, Scalar),
    InCell(usize, Scalar),
}

/// One tick goes, where one is left.
#[inline(always)]
pub(crate) fn tick<A: Allocator>(m: &mut SourceThread<A>) -> Result<(), Halted>
    ensures { Means result (tick_due (state_in m.old)) m.new }
{
    if m.ticks == 0 {
        m.why = Some(Halt::Spent);
        return Err(Halted {});
    }
    m.ticks -= 1;
    Ok(())
}

/// A trap takes a tick of its own.
#[cold]
#[inline(never)]
pub(crate) fn trap<A: Allocator>(m: &mut SourceThread<A>, why: Trap) -> Result<Word, Halted>
    ensures { MeansWord result (trap_due {A = Value} why (state_in m.old)) m.new }
{
    tick(m)?;
    m.why = Some(Halt::Trapped(why));
    Err(Halted {})
}

/// A trap where an lvalue is due.
#[cold]
#[inline(never)]
pub(crate) fn lvalue_trap<A: Allocator>(
    m: &mut SourceThread<A>,
    why: Trap,
) -> Result<Lvalue, Halted>
    ensures { MeansLvalue result (trap_due {A = meaning.Lvalue} why (state_in m.old)) m.new }
{
    tick(m)?;
    m.why = Some(Halt::Trapped(why));
    Err(Halted {})
}

/// What an operator on two values gives that stands there, or its trap.
pub(crate) fn operate<A: Allocator>(
    m: &mut SourceThread<A>,
    op: BinaryOp,
    x: Word,
    y: Word,
    at: Span,
) -> Result<Word, Halted>
    ensures { MeansWord result (or_trap_due (binary op (value_of x) (value_of y)) (state_in m.old)) m.new }
{
    match apply(op, unpack(x), unpack(y)) {
        Ok(v) => Ok(pack_value(v)),
        Err(why) => {
            note_trap(&mut m.at, at, operator_cause(op, unpack(x), unpack(y)));
            trap(m, why)
        }
    }
}

/// What an operator on one value gives that stands there, or its trap.
pub(crate) fn operate_unary<A: Allocator>(
    m: &mut SourceThread<A>,
    op: UnaryOp,
    x: Word,
    at: Span,
) -> Result<Word, Halted>
    ensures { MeansWord result (or_trap_due (unary op (value_of x)) (state_in m.old)) m.new }
{
    match apply_unary(op, unpack(x)) {
        Ok(v) => Ok(pack_value(v)),
        Err(why) => {
            let v = unpack(x);
            note_trap(&mut m.at, at, TrapCause::Negation(v.ty, v.word));
            trap(m, why)
        }
    }
}

/// The index of the newest local of a name, and its type.
pub(crate) fn newest(locals: &[Local], name: &str) -> Option<(usize, Scalar)>
    ensures { result ≡ newest_local (map local_in locals.now) name.now }
{
    let mut i = locals.len();
    'locals: while i > 0 {
        i -= 1;
        let l = &locals[i];
        if l.name == name {
            return Some((i, l.ty));
        }
    }
    None
}

/// Reads what stands there.
pub(crate) fn fetch<A: Allocator>(m: &mut SourceThread<A>, at: Lvalue) -> Result<Word, Halted>
    ensures { MeansWord result (meaning.fetch (lvalue_of at) (state_in m.old)) m.new }
{
    match at {
        Lvalue::InLocal(i, ty) => match m.locals.get(i) {
            Some(l) => Ok(pack(ty, l.word)),
            None => Ok(pack(ty, 0)),
        },
        Lvalue::InCell(c, ty) => match &m.context {
            Context::Inside(_, memory) => match memory.get(c) {
                Some(word) => Ok(pack(ty, *word)),
                None => Ok(pack(ty, 0)),
            },
            Context::Outside(_, _) => {
                m.why = Some(Halt::Astray);
                Err(Halted {})
            }
        },
    }
}

/// The word of a value that is converted.
#[inline(always)]
fn word_as(ty: Scalar, w: Word) -> u64
    ensures { result ≡ (value_in_type ty (value_of w)).word }
{
    convert(ty, unpack(w)).word
}

/// Writes a word into a local.
fn assign_local(locals: &mut [Local], i: usize, word: u64)
    ensures { map local_in locals.new ≡ with_word (map local_in locals.old) i word }
{
    if i < locals.len() {
        let l = &mut locals[i];
        l.word = word;
    }
}

/// Writes a value to a local variable or a cell, converted to its type.
pub(crate) fn assign<A: Allocator>(
    m: &mut SourceThread<A>,
    at: Lvalue,
    w: Word,
) -> Result<(), Halted>
    ensures { Means result (meaning.assign (lvalue_of at) (value_of w) (state_in m.old)) m.new }
{
    match at {
        Lvalue::InLocal(i, ty) => {
            assign_local(m.locals.as_mut_slice(), i, word_as(ty, w));
            Ok(())
        }
        Lvalue::InCell(c, ty) => match &mut m.context {
            Context::Inside(_, memory) => {
                if c < memory.len() {
                    memory[c] = word_as(ty, w);
                }
                Ok(())
            }
            Context::Outside(_, _) => {
                m.why = Some(Halt::Astray);
                Err(Halted {})
            }
        },
    }
}
