//! What a `printf` prints (C11 7.21.6.1), piece by piece.

ghost use Rattle.std.specs.Fmt.{signed_decimal};
ghost use Rattle.std.specs.Prelude.{drop};
ghost use Rattle.syntax.specs.Actions as act;
ghost use Rattle.syntax.specs.Formats.{pieces};
ghost use Rattle.syntax.specs.Meaning as meaning;
ghost use Rattle.syntax.specs.Numbers as numbers;
ghost use Rattle.meaning.specs.inner.SourceThread.{Means, state_in};
ghost use Rattle.meaning.specs.inner.Printing.{push_byte, specifier};

use crate::source_thread::{Context, Halted, SourceThread, tick};
use itoa::Buffer;
use lex::token::Scalar;
use std::alloc::Allocator;
use syntax::format::{FormatDirective, directive_at};
use syntax::number::number;
use syntax::thread_end::Halt;
use syntax::tree::Mode;
use syntax::value::Value;

/// Inside an atomic transaction nothing is printed.
pub(crate) fn may_print<A: Allocator>(m: &mut SourceThread<A>) -> Result<(), Halted>
    ensures { Means result (act.may_print (state_in m.old)) m.new }
{
    match &m.context {
        Context::Outside(_, _) => Ok(()),
        Context::Inside(mode, _) => match mode {
            Mode::Atomic => {
                m.why = Some(Halt::Astray);
                Err(Halted {})
            }
            Mode::Relaxed => Ok(()),
        },
    }
}

/// One byte of a literal piece: the piece's tick goes before its first byte.
fn put_byte<A: Allocator>(m: &mut SourceThread<A>, begun: bool, c: u8) -> Result<(), Halted>
    ensures { Means result (push_byte begun c (state_in m.old)) m.new }
{
    if !begun {
        tick(m)?;
    }
    if m.text.push(c).is_err() {
        m.why = None;
        return Err(Halted {});
    }
    Ok(())
}

/// The number that a specifier prints, as a piece of its own.
fn put_number<A: Allocator>(m: &mut SourceThread<A>, ty: Scalar, v: Value) -> Result<(), Halted>
    ensures { Means result (act.print_piece (signed_decimal (numbers.number ty v.word)) (state_in m.old)) m.new }
{
    tick(m)?;
    let mut buffer = Buffer::new();
    let text = buffer.format(number(ty, v.word));
    if m.text.extend_from_slice(text.as_bytes()).is_err() {
        m.why = None;
        return Err(Halted {});
    }
    Ok(())
}

/// The next value of a specifier.
fn put_specifier<A: Allocator>(
    m: &mut SourceThread<A>,
    ty: Scalar,
    values: &[Value],
    k: usize,
) -> Result<(), Halted>
    ensures { Means result (specifier ty (drop k values.now) (state_in m.old)) m.new }
{
    match values.get(k) {
        Some(v) => put_number(m, ty, *v),
        None => {
            m.why = Some(Halt::Astray);
            Err(Halted {})
        }
    }
}

/// The pieces of a format, with these values for its specifiers.
pub(crate) fn print_pieces<A: Allocator>(
    m: &mut SourceThread<A>,
    format: &[u8],
    values: &[Value],
) -> Result<(), Halted>
    ensures { Means result (meaning.print_pieces (pieces format.now) values.now (state_in m.old)) m.new }
{
    let mut begun = false;
    let mut k = 0;
    let mut i = 0;
    'bytes: while i < format.len() {
        match directive_at(format, i) {
            FormatDirective::Byte(c, next) => {
                put_byte(m, begun, c)?;
                begun = true;
                i = next;
                continue;
            }
            FormatDirective::Specifier(ty, next) => {
                put_specifier(m, ty, values, k)?;
                begun = false;
                k += 1;
                i = next;
            }
        }
    }
    Ok(())
}
