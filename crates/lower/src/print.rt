//! The instructions of a print's pieces.

ghost use Rattle.std.specs.Prelude.{◌≡◌, ◌++◌, ◌∷◌, [], length, OnOk, IfOk};
ghost use Rattle.syntax.specs.Formats.{pieces};
ghost use Rattle.selection.specs.Statements as statements;
ghost use Rattle.selection.specs.Statements.{pieces_written};
ghost use Rattle.lower_exprs.specs.Lists.{lists_of};
ghost use Rattle.lower_exprs.specs.Fragments.{AddsWritten};
ghost use Rattle.lower.specs.inner.Formats.{text_written, specifier_written};

use bytecode::Instr;
use containers::Text;
use lex::token::Scalar;
use lower_exprs::fault::LowerFailure;
use lower_exprs::lists::Lists;
use lower_exprs::put::{after, put};
use std::alloc::{AllocError, Allocator};
use syntax::format::{FormatDirective, directive_at};

/// The instruction that prints a number.
fn printing(ty: Scalar, r: u16) -> Instr
    ensures { result ≡ statements.printing ty r }
{
    match ty {
        Scalar::Int => Instr::PrintSigned(r),
        Scalar::Unsigned => Instr::PrintUnsigned(r),
        Scalar::LongLong => Instr::PrintLong(r),
    }
}

/// One more text, and its number.
fn add_text<A: Allocator>(lists: &mut Lists<A>, text: Text<A>) -> Result<u32, AllocError>
    ensures lists { OnOk result (lists_of lists.new
        ≡ record (lists_of lists.old) { texts = lists.old.texts.items ++ text ∷ [] }) }
    ensures number { IfOk result (λ n. n ≡ length lists.old.texts.items) }
{
    let number = lists.texts.len();
    if number > u32::MAX as usize {
        return Err(AllocError);
    }
    match lists.texts.push(text) {
        Ok(()) => Ok(number as u32),
        Err(_) => Err(AllocError),
    }
}

/// A text of these bytes. Bytes that are no text are refused as memory is: none between two specifiers of a format are.
fn text_from<A: Allocator>(bytes: Vec<u8, A>) -> Result<Text<A>, AllocError>
    ensures { IfOk result (λ text. text ≡ bytes.items) }
{
    match String::from_utf8(bytes) {
        Ok(text) => Ok(Text::from_string(text)),
        Err(_) => Err(AllocError),
    }
}

/// A literal text, where there is any; the place behind.
fn put_text<A: Allocator>(
    lists: &mut Lists<A>,
    code: &mut Vec<Instr, A>,
    bytes: Vec<u8, A>,
    from: u32,
) -> Result<u32, LowerFailure>
    ensures { AddsWritten (text_written bytes.items from (lists_of lists.old)) code.old code.new lists.new result }
{
    if bytes.len() == 0 {
        return Ok(from);
    }
    let text = text_from(bytes)?;
    let number = add_text(lists, text)?;
    put(code, Instr::PrintText(number))?;
    Ok(after(from, 1)?)
}

/// A literal text, where there is any, and a number behind it; the place behind.
fn put_specifier<A: Allocator>(
    lists: &mut Lists<A>,
    code: &mut Vec<Instr, A>,
    bytes: Vec<u8, A>,
    ty: Scalar,
    r: u16,
    from: u32,
) -> Result<u32, LowerFailure>
    ensures { AddsWritten (specifier_written bytes.items ty r from (lists_of lists.old)) code.old code.new lists.new
        result }
{
    let to = put_text(lists, code, bytes, from)?;
    put(code, printing(ty, r))?;
    Ok(after(to, 1)?)
}

/// One more byte.
fn add_byte<A: Allocator>(bytes: &mut Vec<u8, A>, byte: u8) -> Result<(), AllocError>
    ensures { OnOk result (bytes.new.items ≡ bytes.old.items ++ byte ∷ []) }
{
    match bytes.push(byte) {
        Ok(()) => Ok(()),
        Err(_) => Err(AllocError),
    }
}

/// The pieces of a format, with these registers for its specifiers; the place behind.
pub(crate) fn put_pieces<A: Allocator + Copy>(
    alloc: A,
    lists: &mut Lists<A>,
    code: &mut Vec<Instr, A>,
    format: &[u8],
    registers: &[u16],
    from: u32,
) -> Result<u32, LowerFailure>
    ensures { AddsWritten (pieces_written (pieces format.now) registers.now from (lists_of lists.old))
        code.old code.new lists.new result }
{
    let mut bytes = Vec::new(alloc);
    let mut to = from;
    let mut k = 0;
    let mut i = 0;
    'directives: while i < format.len() {
        match directive_at(format, i) {
            FormatDirective::Byte(c, next) => {
                add_byte(&mut bytes, c)?;
                i = next;
                continue;
            }
            FormatDirective::Specifier(ty, next) => {
                if k >= registers.len() {
                    return put_text(lists, code, bytes, to);
                }
                to = put_specifier(lists, code, bytes, ty, registers[k], to)?;
                bytes = Vec::new(alloc);
                k += 1;
                i = next;
            }
        }
    }
    put_text(lists, code, bytes, to)
}
