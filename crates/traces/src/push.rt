//! Pieces of a trace, each added at its end.

ghost use Rattle.std.specs.Prelude.{◌≡◌, ◌++◌, OnOk, decimal, flat_map, replicate};
ghost use Rattle.syntax.specs.Numbers.{trap_number};
ghost use Rattle.traces.specs.Columns.{value_text};
ghost use Rattle.std.specs.List.{list_all};
ghost use Rattle.traces.specs.Trace.{are_blanks, cancelled_words, column_text, first_columns, line_text};
ghost use Rattle.traces.specs.Trace.{printed_words, quoted_byte, to_left, to_right, trimmed};

use itoa::Buffer;
use lex::token::Scalar;
use std::alloc::{AllocError, Allocator};
use syntax::number::number;

/// Adds bytes.
pub(crate) fn push_bytes<A: Allocator>(
    text: &mut Vec<u8, A>,
    bytes: &[u8],
) -> Result<(), AllocError>
    ensures { OnOk result (text.new.items ≡ text.old.items ++ bytes.now) }
{
    text.extend_from_slice(bytes)
}

/// Adds a number.
pub fn push_number<A: Allocator>(text: &mut Vec<u8, A>, number: u64) -> Result<(), AllocError>
    ensures { OnOk result (text.new.items ≡ text.old.items ++ decimal number) }
{
    push_bytes(text, Buffer::new().format(number).as_bytes())
}

/// Adds the number that a word denotes.
pub fn push_value<A: Allocator>(
    text: &mut Vec<u8, A>,
    ty: Scalar,
    word: u64,
) -> Result<(), AllocError>
    ensures { OnOk result (text.new.items ≡ text.old.items ++ value_text ty word) }
{
    push_bytes(text, Buffer::new().format(number(ty, word)).as_bytes())
}

/// Whether a text consists of blanks.
fn are_blanks(bytes: &[u8]) -> bool
    ensures { result ≡ are_blanks bytes.now }
{
    bytes.iter().all(|byte| *byte == b' ')
}

/// Adds a text without the blanks at its end.
fn push_trimmed<A: Allocator>(text: &mut Vec<u8, A>, bytes: &[u8]) -> Result<(), AllocError>
    ensures { OnOk result (text.new.items ≡ text.old.items ++ trimmed bytes.now) }
{
    'bytes: for at in 0..bytes.len() {
        if are_blanks(&bytes[at..]) {
            return Ok(());
        }
        text.push(bytes[at])?;
    }
    Ok(())
}

/// Adds a text as a line, without the blanks at its end.
pub(crate) fn push_line<A: Allocator>(text: &mut Vec<u8, A>, bytes: &[u8]) -> Result<(), AllocError>
    ensures { OnOk result (text.new.items ≡ text.old.items ++ line_text bytes.now) }
{
    push_trimmed(text, bytes)?;
    push_bytes(text, b"\n")
}

/// Adds so many blanks.
fn push_blanks<A: Allocator>(text: &mut Vec<u8, A>, count: usize) -> Result<(), AllocError>
    ensures { OnOk result (text.new.items ≡ text.old.items ++ replicate count 32) }
{
    'blanks: for _ in 0..count {
        text.push(b' ')?;
    }
    Ok(())
}

/// Adds a text to the right in a column of this width.
pub(crate) fn push_right<A: Allocator>(
    text: &mut Vec<u8, A>,
    width: usize,
    bytes: &[u8],
) -> Result<(), AllocError>
    ensures { OnOk result (text.new.items ≡ text.old.items ++ to_right width bytes.now) }
{
    push_blanks(text, width.saturating_sub(bytes.len()))?;
    push_bytes(text, bytes)
}

/// Adds a text to the left in a column of this width.
fn push_left<A: Allocator>(
    text: &mut Vec<u8, A>,
    width: usize,
    bytes: &[u8],
) -> Result<(), AllocError>
    ensures { OnOk result (text.new.items ≡ text.old.items ++ to_left width bytes.now) }
{
    push_bytes(text, bytes)?;
    push_blanks(text, width.saturating_sub(bytes.len()))
}

/// Adds a column of a line.
pub(crate) fn push_column<A: Allocator>(
    text: &mut Vec<u8, A>,
    width: usize,
    bytes: &[u8],
) -> Result<(), AllocError>
    ensures { OnOk result (text.new.items ≡ text.old.items ++ column_text width bytes.now) }
{
    push_bytes(text, b" ")?;
    push_right(text, width, bytes)
}

/// Adds the first columns of a line.
pub(crate) fn push_first_columns<A: Allocator>(
    text: &mut Vec<u8, A>,
    turn: &[u8],
    thread: &[u8],
    at: &[u8],
) -> Result<(), AllocError>
    ensures { OnOk result (text.new.items ≡ text.old.items ++ first_columns turn.now thread.now at.now) }
{
    push_right(text, 4, turn)?;
    push_bytes(text, b" ")?;
    push_right(text, 6, thread)?;
    push_bytes(text, b" ")?;
    push_left(text, 6, at)
}

/// Adds a byte of a text in quotes.
fn push_quoted_byte<A: Allocator>(text: &mut Vec<u8, A>, byte: u8) -> Result<(), AllocError>
    ensures { OnOk result (text.new.items ≡ text.old.items ++ quoted_byte byte) }
{
    if byte == 10 {
        push_bytes(text, b"\\n")
    } else if byte == 34 {
        push_bytes(text, b"\\\"")
    } else if byte == 92 {
        push_bytes(text, b"\\\\")
    } else {
        text.push(byte)?;
        Ok(())
    }
}

/// Adds the bytes of a text in quotes.
pub fn push_quoted<A: Allocator>(text: &mut Vec<u8, A>, bytes: &[u8]) -> Result<(), AllocError>
    ensures { OnOk result (text.new.items ≡ text.old.items ++ flat_map quoted_byte bytes.now) }
{
    'bytes: for byte in bytes {
        push_quoted_byte(text, *byte)?;
    }
    Ok(())
}

/// Adds whether a turn's transaction was cancelled, if so.
pub(crate) fn push_cancelled<A: Allocator>(
    text: &mut Vec<u8, A>,
    is_cancelled: bool,
) -> Result<(), AllocError>
    ensures { OnOk result (text.new.items ≡ text.old.items ++ cancelled_words is_cancelled) }
{
    if is_cancelled {
        push_bytes(text, b"  cancelled")
    } else {
        Ok(())
    }
}

/// Adds what a turn prints.
pub(crate) fn push_printed<A: Allocator>(
    text: &mut Vec<u8, A>,
    printed: &[u8],
) -> Result<(), AllocError>
    ensures { OnOk result (text.new.items ≡ text.old.items ++ printed_words printed.now) }
{
    let [_, ..] = printed else {
        return Ok(());
    };
    push_bytes(text, b"  printed \"")?;
    push_quoted(text, printed)?;
    push_bytes(text, b"\"")
}
