//! Where the values of names stand.

ghost use Rattle.std.specs.Prelude.{map};
ghost use Rattle.syntax.specs.Actions as act;
ghost use Rattle.syntax.specs.Meaning as meaning;
ghost use Rattle.syntax.specs.Tree as tree;
ghost use Rattle.syntax.specs.Types.{common_of, type_of as type_due, running_scope};
ghost use Rattle.syntax.specs.Numbers.{value_in_type};
ghost use Rattle.syntax.specs.Views.{expr_of, name_of};
ghost use Rattle.meaning.specs.inner.SourceThread.{MeansLvalue, MeansWord, state_in};
ghost use Rattle.program_tables.specs.Views.{program_in};
ghost use Rattle.meaning.specs.inner.Does.{caller_in};
ghost use Rattle.meaning.specs.inner.Word.{value_of};

use crate::names::type_of;
use crate::outcome::TrapCause;
use crate::places::note_trap;
use crate::source_thread::{Halted, Lvalue, SourceThread, fetch, lvalue_trap, newest};
use crate::word::{Word, convert_word, unpack};
use lex::token::Span;
use program_tables::ProgramTables;
use std::alloc::Allocator;
use syntax::thread_end::{Halt, Trap};
use syntax::tree::{Expr, Name};
use syntax::types::common_of;

/// Where the value of a name stands.
pub(crate) fn name_lvalue<'p, A: Allocator + Copy>(
    source: &ProgramTables<'p, A>,
    x: &Name<A>,
    m: &mut SourceThread<'p, '_, A>,
) -> Result<Lvalue, Halted>
    ensures { MeansLvalue result
        (meaning.lvalue_of_name (program_in source.now) (caller_in source.now 0) x.now.text (state_in m.old))
        m.new }
{
    if let Some((i, ty)) = newest(m.locals.as_slice(), x.text.as_str()) {
        return Ok(Lvalue::InLocal(i, ty));
    }
    match source.global(x.text.as_str()) {
        Some(g) => Ok(Lvalue::InCell(g.cell, g.global.ty)),
        None => {
            m.why = Some(Halt::Astray);
            Err(Halted {})
        }
    }
}

/// What a variable holds.
pub(crate) fn variable<'p, A: Allocator + Copy>(
    source: &ProgramTables<'p, A>,
    x: &Name<A>,
    m: &mut SourceThread<'p, '_, A>,
) -> Result<Word, Halted>
    ensures { MeansWord result
        (meaning.expr (program_in source.now) (caller_in source.now 0) (tree.Variable (name_of x.now)) (state_in m.old))
        m.new }
{
    let at = name_lvalue(source, x, m)?;
    fetch(m, at)
}

/// The cell of an element that stands there by its index, which is tested.
pub(crate) fn element_cell<'p, A: Allocator + Copy>(
    source: &ProgramTables<'p, A>,
    x: &Name<A>,
    index: Word,
    at: Span,
    m: &mut SourceThread<'p, '_, A>,
) -> Result<Lvalue, Halted>
    ensures { MeansLvalue result
        (meaning.element (program_in source.now) (caller_in source.now 0) x.now.text (value_of index) (state_in m.old))
        m.new }
{
    let Some(g) = source.global(x.text.as_str()) else {
        m.why = Some(Halt::Astray);
        return Err(Halted {});
    };
    let k = unpack(index).word as usize;
    if k < g.global.cell_count() {
        Ok(Lvalue::InCell(g.cell + k, g.global.ty))
    } else {
        let cause = TrapCause::Index(unpack(index).word, g.global.cell_count());
        note_trap(&mut m.at, at, cause);
        lvalue_trap(m, Trap::Index)
    }
}

/// A value of the type to which two branches are converted.
pub(crate) fn common_value<'p, A: Allocator + Copy>(
    source: &ProgramTables<'p, A>,
    a: &Expr<A>,
    b: &Expr<A>,
    w: Word,
    m: &mut SourceThread<'p, '_, A>,
) -> Result<Word, Halted>
    ensures { MeansWord result
        (act.go_on
        (act.or_astray
        (common_of (type_due (running_scope (program_in source.now) (state_in m.old).locals) (expr_of a.now))
        (type_due (running_scope (program_in source.now) (state_in m.old).locals) (expr_of b.now))) (state_in m.old))
        (λ t. act.pure (value_in_type t (value_of w))))
        m.new }
{
    let ty = type_of(source, m.locals.as_slice(), a);
    let other = type_of(source, m.locals.as_slice(), b);
    match common_of(ty, other) {
        Some(ty) => Ok(convert_word(ty, w)),
        None => {
            m.why = Some(Halt::Astray);
            Err(Halted {})
        }
    }
}
