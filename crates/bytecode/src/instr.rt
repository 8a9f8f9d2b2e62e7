//! Instructions: one variant per instruction, its small operands first. An instruction takes 16 bytes.
//!
//! Registers are numbers within a frame, cells numbers within the shared memory, places numbers within the code. In a
//! listing's line `rN` is a register, `@C` a cell, `#N` a number, `>P` a place.

ghost use Rattle.std.specs.Prelude.{◌≡◌, []};
ghost use Rattle.bytecode.specs.Code.{operator_of};
ghost use Rattle.bytecode.specs.Views.{instr_of};

use crate::kinds::computing;
use lex::token::Scalar;
use syntax::tree::BinaryOp;

/// An instruction: its line in a listing, and its effect. Trap 1 is a result out of range, 2 a division
/// by zero, 3 an index, 4 a frame too many, 5 a shift count.
#[derive(Clone, Copy)]
pub enum Instr {
    /// `const rD #K`: rD = K.
    Constant(u16, u64),

    /// `move rD rA`: rD = rA.
    Move(u16, u16),

    /// An operator of two registers on words of a type, `rD rA rB`, as in a program. Its name is followed by `.s`
    /// for `int`, `.u` for `unsigned int`, `.l` for `long long`; `and`, `or`, `xor`, `eq` and `ne` depend on the
    /// words alone, and `>` and `>=` are `lt` and `le` with swapped operands.
    ///
    /// - `add`, `sub`, `mul`: rD = rA + rB, rA - rB, rA * rB; trap 1 out of the range of `.s` and `.l`, modulo 2^32 for
    ///   `.u`.
    /// - `div`, `rem`: rD = rA / rB, truncated towards zero, and the remainder; trap 2 if rB is 0, trap 1 if the
    ///   quotient is out of range.
    /// - `shl`: rD = rA * 2^rB, out of range as a product; `shr`: rD = rA / 2^rB, rounded down; trap 5 if rB is not 0
    ///   to 31, or 63 for `.l`.
    /// - `and`, `or`, `xor`: rD = rA & rB, rA | rB, rA ^ rB, bit by bit.
    /// - `eq`, `ne`, `lt`, `le`: rD = 1 if rA = rB, and so on, else 0.
    Compute(BinaryOp, Scalar, u16, u16, u16),

    /// `neg.s rD rA`: rD = -rA as `int`; trap 1 out of its range.
    NegateSigned(u16, u16),

    /// `neg.u rD rA`: rD = -rA modulo 2^32.
    NegateUnsigned(u16, u16),

    /// `neg.l rD rA`: rD = -rA as `long long`; trap 1 out of its range.
    NegateLong(u16, u16),

    /// `not rD rA`: rD = ~rA, in 32 bits.
    Complement(u16, u16),

    /// `not.l rD rA`: rD = ~rA, in 64 bits.
    ComplementLong(u16, u16),

    /// `ext rD rA`: rD = the `int` in rA, sign-extended to 64 bits.
    Extend(u16, u16),

    /// `low rD rA`: rD = the lower 32 bits of rA.
    Low(u16, u16),

    /// `jump >P`: continues at P.
    Jump(u32),

    /// `jz rA >P`: continues at P if rA is 0.
    JumpZero(u16, u32),

    /// `jnz rA >P`: continues at P if rA is not 0.
    JumpNonzero(u16, u32),

    /// `check rI #LEN`: trap 3 if rI is not below LEN.
    Check(u16, u32),

    /// `rd rD @C`: rD = cell C.
    Read(u16, u32),

    /// `rdx rD @C #LEN rI`, as `(d, i, cell, length)`: rD = cell C + rI; trap 3 if rI is not below LEN.
    ReadAt(u16, u16, u32, u32),

    /// `wr @C rA`, as `(a, cell)`: cell C = rA, modulo the cell's type.
    Write(u16, u32),

    /// `wrx @C #LEN rI rA`, as `(i, a, cell, length)`: cell C + rI = rA, modulo the cell's type; trap 3 if rI is not
    /// below LEN.
    WriteAt(u16, u16, u32, u32),

    /// `begin >P`: begins a transaction, a cancel of which continues at P.
    Begin(u32),

    /// `commit`: ends the innermost transaction.
    Commit,

    /// `cancel`: undoes the innermost transaction, and continues where its `begin` says.
    Cancel,

    /// `cancelx #K`: cancels the innermost K transactions, and continues where a cancel of the outermost of these does.
    CancelOuter(u32),

    /// `irrevocable`: takes the lock, so that a print can follow.
    Irrevocable,

    /// `call NAME rD rA ..`, as `(d, count, f, first)`: calls function f with `count` arguments, whose registers are
    /// in the code's list of arguments from `first` on; rD = its result. Trap 4 if it would be the 65th frame.
    Call(u16, u16, u32, u32),

    /// `ret`: returns 0.
    Return,

    /// `ret rA`: returns rA.
    ReturnValue(u16),

    /// `print.t #K`: prints the code's text with this number.
    PrintText(u32),

    /// `print.s rA`: prints rA as `int`, in decimal.
    PrintSigned(u16),

    /// `print.u rA`: prints rA as `unsigned`, in decimal.
    PrintUnsigned(u16),

    /// `print.l rA`: prints rA as `long long`, in decimal.
    PrintLong(u16),
}

impl Instr {
    /// The instruction's operator of two registers as a listing shows it, its type, the register that takes the
    /// result, and these two; none for any other instruction.
    pub fn operator(&self) -> Option<(BinaryOp, Scalar, u16, u16, u16)>
        ensures { result ≡ operator_of (instr_of [] self.now) }
    {
        match *self {
            Instr::Compute(op, ty, d, a, b) => Some(computing(op, ty, d, a, b)),
            Instr::Constant(_, _) => None,
            Instr::Move(_, _) => None,
            Instr::NegateSigned(_, _) => None,
            Instr::NegateUnsigned(_, _) => None,
            Instr::NegateLong(_, _) => None,
            Instr::Complement(_, _) => None,
            Instr::ComplementLong(_, _) => None,
            Instr::Extend(_, _) => None,
            Instr::Low(_, _) => None,
            Instr::Jump(_) => None,
            Instr::JumpZero(_, _) => None,
            Instr::JumpNonzero(_, _) => None,
            Instr::Check(_, _) => None,
            Instr::Read(_, _) => None,
            Instr::ReadAt(_, _, _, _) => None,
            Instr::Write(_, _) => None,
            Instr::WriteAt(_, _, _, _) => None,
            Instr::Begin(_) => None,
            Instr::Commit => None,
            Instr::Cancel => None,
            Instr::CancelOuter(_) => None,
            Instr::Irrevocable => None,
            Instr::Call(_, _, _, _) => None,
            Instr::Return => None,
            Instr::ReturnValue(_) => None,
            Instr::PrintText(_) => None,
            Instr::PrintSigned(_) => None,
            Instr::PrintUnsigned(_) => None,
            Instr::PrintLong(_) => None,
        }
    }
}
