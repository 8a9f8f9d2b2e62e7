//! What stands at a thread's place to be done.

ghost use Rattle.std.specs.Prelude.{◌≡◌, ◌+◌, ◌≤◌, ◌<◌, ◌^◌, ◌++◌, OnOk, OnErr, length, string_bytes, string_len};
ghost use Rattle.std.specs.Prelude.{string_capacity};
ghost use Rattle.frames.specs.Doings.{piece_of};

use bytecode::Code;
use itoa::Buffer;
use std::alloc::{AllocError, Allocator};
use syntax::thread_end::Trap;

/// What stands at a thread's place to be done. Indices of arrays have been tested, and values of registers are given
/// with it.
#[derive(Clone, Copy, PartialEq, Eq)]
pub enum Doing {
    /// A local step, which does not trap.
    Local,

    /// Reads a cell into a register, as `(register, cell)`.
    Read(u32, u32),

    /// Writes a word of the cell's type into a cell, as `(cell, word)`.
    Write(u32, u64),

    /// Begins a transaction, a cancel of which goes on at this place.
    Begin(u32),

    /// Ends the innermost transaction.
    Commit,

    /// Cancels the innermost transaction.
    Cancel,

    /// Cancels so many transactions, the innermost ones, as one.
    CancelOuter(u32),

    /// Makes the transaction irrevocable.
    Irrevocable,

    /// Calls a function. There are fewer than 64 frames.
    Call,

    /// Returns this word to the innermost caller.
    Return(u64),

    /// Ends the thread: there is no caller to return to.
    End,

    /// Prints the code's text of this number.
    PrintText(u32),

    /// Prints this number.
    PrintNumber(i64),

    /// Traps: an operator's result, an index, or a 65th frame.
    Traps(Trap),
}

/// The piece that a print shows, and nothing where none does. The digits of a number stand in the buffer.
fn piece<'a, A: Allocator>(code: &'a Code<A>, doing: Doing, digits: &'a mut Buffer) -> &'a str
    ensures { result.now ≡ piece_of code.entry.now doing }
{
    match doing {
        Doing::PrintText(k) => match code.texts().get(k as usize) {
            Some(text) => text.as_str(),
            None => "",
        },
        Doing::PrintNumber(z) => digits.format(z),
        _ => "",
    }
}

/// Makes room for the piece that a print shows. The error comes only where there is none and the allocator refuses it.
pub fn prepare_piece<A: Allocator, B: Allocator>(
    text: &mut String<A>,
    code: &Code<B>,
    doing: Doing,
) -> Result<(), AllocError>
    ensures bytes { string_bytes text.new ≡ string_bytes text.old }
    ensures room { OnOk result (string_len text.new + length (piece_of code.now doing) ≤ string_capacity text.new) }
    ensures more { string_capacity text.old ≤ string_capacity text.new }
    ensures full { OnErr result (string_capacity text.old < string_len text.old + length (piece_of code.now doing)) }
{
    let mut digits = Buffer::new();
    text.reserve(piece(code, doing, &mut digits).len())
}

/// Appends the piece that a print shows. The error comes only where there is no room and the allocator refuses it; the
/// text is then as it was.
pub fn push_piece<A: Allocator, B: Allocator>(
    text: &mut String<A>,
    code: &Code<B>,
    doing: Doing,
) -> Result<(), AllocError>
    ensures bytes { OnOk result (string_bytes text.new ≡ string_bytes text.old ++ piece_of code.now doing) }
    ensures err { OnErr result (string_bytes text.new ≡ string_bytes text.old) }
    ensures full { OnErr result (string_capacity text.old < string_len text.old + length (piece_of code.now doing)) }
{
    let mut digits = Buffer::new();
    text.push_str(piece(code, doing, &mut digits))
}
