//! Codes whose words need 64 bits, or in whose registers stands more than an instruction looks at: each of a `worker`
//! with four registers over a variable `x` of type `int` and a variable `y` of type `long long`.

use crate::built::code_of;
use crate::written::{WrittenCode, X, Y, second, worker};
use bytecode::{Code, Instr};
use lex::token::Scalar;
use std::alloc::Allocator;
use syntax::thread_end::Trap;
use syntax::tree::BinaryOp;

/// Two words, an operator of registers 2 and 3, which hold them, into register 1, and how the word that it gives is
/// printed as a `long long`, or why it traps.
pub type WideOperator = (u64, u64, Instr, Result<&'static str, Trap>);

/// What a row is called; instructions, and where the function `f` among them begins if there is one; what a thread of
/// them prints, or why it traps; and the words that it leaves in `x` and `y`, which were 0.
pub type WideRow = (
    &'static str,
    &'static [Instr],
    Option<u32>,
    Result<&'static str, Trap>,
    [u64; 2],
);

/// The instructions of a worker that computes this and prints it.
pub fn shown_operator(row: &WideOperator) -> [Instr; 5] {
    let (first, second, operator, _) = *row;
    [
        Instr::Constant(2, first),
        Instr::Constant(3, second),
        operator,
        Instr::PrintLong(1),
        Instr::Return,
    ]
}

/// The code of these instructions of `worker`, and of `f` where it is said where that begins, over `x` and `y`, if it
/// is valid and memory is there.
pub fn code_over_both<A: Allocator + Copy>(
    alloc: A,
    instructions: &[Instr],
    begin: Option<u32>,
) -> Option<Code<A>> {
    match begin {
        Some(first) => {
            let written = WrittenCode {
                functions: &[worker(4), second(first, 1)],
                instructions,
                arguments: &[0],
                texts: &[],
                variables: &[X, Y],
            };
            code_of(alloc, &written)
        }
        None => {
            let written = WrittenCode {
                functions: &[worker(4)],
                instructions,
                arguments: &[],
                texts: &[],
                variables: &[X, Y],
            };
            code_of(alloc, &written)
        }
    }
}

/// Instructions of narrow types see what lies in a register modulo 2^32, but a shift's count whole.
const SEEN_NARROW: [WideOperator; 30] = [
    (
        4294967301,
        1,
        Instr::Compute(BinaryOp::Add, Scalar::Int, 1, 2, 3),
        Ok("6"),
    ),
    (
        4294967296,
        1,
        Instr::Compute(BinaryOp::Subtract, Scalar::Unsigned, 1, 2, 3),
        Ok("4294967295"),
    ),
    (
        7,
        4294967296,
        Instr::Compute(BinaryOp::Divide, Scalar::Int, 1, 2, 3),
        Err(Trap::ZeroDivisor),
    ),
    (
        4294967303,
        8589934596,
        Instr::Compute(BinaryOp::Remainder, Scalar::Unsigned, 1, 2, 3),
        Ok("3"),
    ),
    (
        1,
        4294967297,
        Instr::Compute(BinaryOp::ShiftLeft, Scalar::Int, 1, 2, 3),
        Err(Trap::ShiftCount),
    ),
    (
        4294967296,
        1,
        Instr::Compute(BinaryOp::Less, Scalar::Unsigned, 1, 2, 3),
        Ok("1"),
    ),
    (
        6442450944,
        0,
        Instr::NegateSigned(1, 2),
        Err(Trap::OutOfRange),
    ),
    (1099511627776, 0, Instr::Complement(1, 2), Ok("4294967295")),
    (6442450944, 0, Instr::Extend(1, 2), Ok("-2147483648")),
    (6442450944, 0, Instr::Low(1, 2), Ok("2147483648")),
    (
        6442450943,
        1,
        Instr::Compute(BinaryOp::Add, Scalar::Int, 1, 2, 3),
        Err(Trap::OutOfRange),
    ),
    (
        8589934591,
        1,
        Instr::Compute(BinaryOp::Add, Scalar::Unsigned, 1, 2, 3),
        Ok("0"),
    ),
    (
        4294967301,
        8589934599,
        Instr::Compute(BinaryOp::Subtract, Scalar::Int, 1, 2, 3),
        Ok("4294967294"),
    ),
    (
        4294967299,
        8589934591,
        Instr::Compute(BinaryOp::Multiply, Scalar::Int, 1, 2, 3),
        Ok("4294967293"),
    ),
    (
        4295032832,
        8590000129,
        Instr::Compute(BinaryOp::Multiply, Scalar::Unsigned, 1, 2, 3),
        Ok("65536"),
    ),
    (
        1101659111424,
        8589934591,
        Instr::Compute(BinaryOp::Divide, Scalar::Int, 1, 2, 3),
        Err(Trap::OutOfRange),
    ),
    (
        4294967303,
        8589934594,
        Instr::Compute(BinaryOp::Divide, Scalar::Unsigned, 1, 2, 3),
        Ok("3"),
    ),
    (
        8589934585,
        8589934594,
        Instr::Compute(BinaryOp::Remainder, Scalar::Int, 1, 2, 3),
        Ok("4294967295"),
    ),
    (
        4294967297,
        31,
        Instr::Compute(BinaryOp::ShiftLeft, Scalar::Unsigned, 1, 2, 3),
        Ok("2147483648"),
    ),
    (
        4294967297,
        4294967296,
        Instr::Compute(BinaryOp::ShiftLeft, Scalar::Unsigned, 1, 2, 3),
        Err(Trap::ShiftCount),
    ),
    (
        6442450944,
        31,
        Instr::Compute(BinaryOp::ShiftRight, Scalar::Int, 1, 2, 3),
        Ok("4294967295"),
    ),
    (
        6442450944,
        4294967296,
        Instr::Compute(BinaryOp::ShiftRight, Scalar::Int, 1, 2, 3),
        Err(Trap::ShiftCount),
    ),
    (
        6442450944,
        31,
        Instr::Compute(BinaryOp::ShiftRight, Scalar::Unsigned, 1, 2, 3),
        Ok("1"),
    ),
    (
        1,
        4294967327,
        Instr::Compute(BinaryOp::ShiftRight, Scalar::Unsigned, 1, 2, 3),
        Err(Trap::ShiftCount),
    ),
    (
        6442450944,
        0,
        Instr::Compute(BinaryOp::Less, Scalar::Int, 1, 2, 3),
        Ok("1"),
    ),
    (
        4294967297,
        1,
        Instr::Compute(BinaryOp::LessEqual, Scalar::Int, 1, 2, 3),
        Ok("1"),
    ),
    (
        4294967296,
        0,
        Instr::Compute(BinaryOp::LessEqual, Scalar::Unsigned, 1, 2, 3),
        Ok("1"),
    ),
    (
        4294967297,
        0,
        Instr::Compute(BinaryOp::LessEqual, Scalar::Unsigned, 1, 2, 3),
        Ok("0"),
    ),
    (4294967297, 0, Instr::NegateSigned(1, 2), Ok("4294967295")),
    (4294967297, 0, Instr::NegateUnsigned(1, 2), Ok("4294967295")),
];

/// Instructions that see all bits of a register, whatever its type.
const SEEN_WHOLE: [WideOperator; 6] = [
    (
        1,
        4294967297,
        Instr::Compute(BinaryOp::Equal, Scalar::Unsigned, 1, 2, 3),
        Ok("0"),
    ),
    (
        1,
        4294967297,
        Instr::Compute(BinaryOp::NotEqual, Scalar::Unsigned, 1, 2, 3),
        Ok("1"),
    ),
    (
        4294967297,
        4294967296,
        Instr::Compute(BinaryOp::And, Scalar::Unsigned, 1, 2, 3),
        Ok("4294967296"),
    ),
    (
        1099511627776,
        1,
        Instr::Compute(BinaryOp::Or, Scalar::Unsigned, 1, 2, 3),
        Ok("1099511627777"),
    ),
    (
        1099511627777,
        1,
        Instr::Compute(BinaryOp::Xor, Scalar::Unsigned, 1, 2, 3),
        Ok("1099511627776"),
    ),
    (18446744073709551615, 0, Instr::Move(1, 2), Ok("-1")),
];

const SUMS: [WideOperator; 8] = [
    (
        9223372036854775806,
        1,
        Instr::Compute(BinaryOp::Add, Scalar::LongLong, 1, 2, 3),
        Ok("9223372036854775807"),
    ),
    (
        9223372036854775807,
        1,
        Instr::Compute(BinaryOp::Add, Scalar::LongLong, 1, 2, 3),
        Err(Trap::OutOfRange),
    ),
    (
        9223372036854775808,
        18446744073709551615,
        Instr::Compute(BinaryOp::Add, Scalar::LongLong, 1, 2, 3),
        Err(Trap::OutOfRange),
    ),
    (
        18446744073709551615,
        1,
        Instr::Compute(BinaryOp::Add, Scalar::LongLong, 1, 2, 3),
        Ok("0"),
    ),
    (
        4294967295,
        1,
        Instr::Compute(BinaryOp::Add, Scalar::LongLong, 1, 2, 3),
        Ok("4294967296"),
    ),
    (
        18446744073709551615,
        9223372036854775807,
        Instr::Compute(BinaryOp::Subtract, Scalar::LongLong, 1, 2, 3),
        Ok("-9223372036854775808"),
    ),
    (
        9223372036854775808,
        1,
        Instr::Compute(BinaryOp::Subtract, Scalar::LongLong, 1, 2, 3),
        Err(Trap::OutOfRange),
    ),
    (
        0,
        9223372036854775808,
        Instr::Compute(BinaryOp::Subtract, Scalar::LongLong, 1, 2, 3),
        Err(Trap::OutOfRange),
    ),
];

const PRODUCTS: [WideOperator; 5] = [
    (
        18446744069414584320,
        2147483648,
        Instr::Compute(BinaryOp::Multiply, Scalar::LongLong, 1, 2, 3),
        Ok("-9223372036854775808"),
    ),
    (
        4294967296,
        2147483648,
        Instr::Compute(BinaryOp::Multiply, Scalar::LongLong, 1, 2, 3),
        Err(Trap::OutOfRange),
    ),
    (
        9223372036854775808,
        18446744073709551615,
        Instr::Compute(BinaryOp::Multiply, Scalar::LongLong, 1, 2, 3),
        Err(Trap::OutOfRange),
    ),
    (
        3037000500,
        3037000500,
        Instr::Compute(BinaryOp::Multiply, Scalar::LongLong, 1, 2, 3),
        Err(Trap::OutOfRange),
    ),
    (
        3037000499,
        3037000499,
        Instr::Compute(BinaryOp::Multiply, Scalar::LongLong, 1, 2, 3),
        Ok("9223372030926249001"),
    ),
];

const QUOTIENTS: [WideOperator; 9] = [
    (
        9223372036854775808,
        1,
        Instr::Compute(BinaryOp::Divide, Scalar::LongLong, 1, 2, 3),
        Ok("-9223372036854775808"),
    ),
    (
        9223372036854775808,
        18446744073709551615,
        Instr::Compute(BinaryOp::Divide, Scalar::LongLong, 1, 2, 3),
        Err(Trap::OutOfRange),
    ),
    (
        1,
        4294967296,
        Instr::Compute(BinaryOp::Divide, Scalar::LongLong, 1, 2, 3),
        Ok("0"),
    ),
    (
        18446744073709551609,
        2,
        Instr::Compute(BinaryOp::Divide, Scalar::LongLong, 1, 2, 3),
        Ok("-3"),
    ),
    (
        1,
        0,
        Instr::Compute(BinaryOp::Divide, Scalar::LongLong, 1, 2, 3),
        Err(Trap::ZeroDivisor),
    ),
    (
        9223372036854775808,
        18446744073709551615,
        Instr::Compute(BinaryOp::Remainder, Scalar::LongLong, 1, 2, 3),
        Err(Trap::OutOfRange),
    ),
    (
        18446744073709551609,
        2,
        Instr::Compute(BinaryOp::Remainder, Scalar::LongLong, 1, 2, 3),
        Ok("-1"),
    ),
    (
        4294967297,
        4294967296,
        Instr::Compute(BinaryOp::Remainder, Scalar::LongLong, 1, 2, 3),
        Ok("1"),
    ),
    (
        1,
        0,
        Instr::Compute(BinaryOp::Remainder, Scalar::LongLong, 1, 2, 3),
        Err(Trap::ZeroDivisor),
    ),
];

const SHIFTS: [WideOperator; 9] = [
    (
        1,
        62,
        Instr::Compute(BinaryOp::ShiftLeft, Scalar::LongLong, 1, 2, 3),
        Ok("4611686018427387904"),
    ),
    (
        1,
        63,
        Instr::Compute(BinaryOp::ShiftLeft, Scalar::LongLong, 1, 2, 3),
        Err(Trap::OutOfRange),
    ),
    (
        18446744073709551615,
        63,
        Instr::Compute(BinaryOp::ShiftLeft, Scalar::LongLong, 1, 2, 3),
        Ok("-9223372036854775808"),
    ),
    (
        0,
        64,
        Instr::Compute(BinaryOp::ShiftLeft, Scalar::LongLong, 1, 2, 3),
        Err(Trap::ShiftCount),
    ),
    (
        0,
        4294967296,
        Instr::Compute(BinaryOp::ShiftLeft, Scalar::LongLong, 1, 2, 3),
        Err(Trap::ShiftCount),
    ),
    (
        9223372036854775808,
        63,
        Instr::Compute(BinaryOp::ShiftRight, Scalar::LongLong, 1, 2, 3),
        Ok("-1"),
    ),
    (
        9223372036854775807,
        62,
        Instr::Compute(BinaryOp::ShiftRight, Scalar::LongLong, 1, 2, 3),
        Ok("1"),
    ),
    (
        18446744073709551615,
        1,
        Instr::Compute(BinaryOp::ShiftRight, Scalar::LongLong, 1, 2, 3),
        Ok("-1"),
    ),
    (
        0,
        64,
        Instr::Compute(BinaryOp::ShiftRight, Scalar::LongLong, 1, 2, 3),
        Err(Trap::ShiftCount),
    ),
];

const COMPARISONS: [WideOperator; 6] = [
    (
        18446744073709551615,
        1,
        Instr::Compute(BinaryOp::Less, Scalar::LongLong, 1, 2, 3),
        Ok("1"),
    ),
    (
        4294967296,
        1,
        Instr::Compute(BinaryOp::Less, Scalar::LongLong, 1, 2, 3),
        Ok("0"),
    ),
    (
        9223372036854775808,
        9223372036854775807,
        Instr::Compute(BinaryOp::Less, Scalar::LongLong, 1, 2, 3),
        Ok("1"),
    ),
    (
        9223372036854775808,
        9223372036854775808,
        Instr::Compute(BinaryOp::LessEqual, Scalar::LongLong, 1, 2, 3),
        Ok("1"),
    ),
    (
        9223372036854775807,
        9223372036854775808,
        Instr::Compute(BinaryOp::LessEqual, Scalar::LongLong, 1, 2, 3),
        Ok("0"),
    ),
    (
        4294967296,
        1,
        Instr::Compute(BinaryOp::LessEqual, Scalar::LongLong, 1, 2, 3),
        Ok("0"),
    ),
];

const OF_ONE: [WideOperator; 7] = [
    (
        9223372036854775808,
        0,
        Instr::NegateLong(1, 2),
        Err(Trap::OutOfRange),
    ),
    (
        9223372036854775807,
        0,
        Instr::NegateLong(1, 2),
        Ok("-9223372036854775807"),
    ),
    (18446744073709551611, 0, Instr::NegateLong(1, 2), Ok("5")),
    (5, 0, Instr::ComplementLong(1, 2), Ok("-6")),
    (
        18446744073709551615,
        0,
        Instr::ComplementLong(1, 2),
        Ok("0"),
    ),
    (4294967295, 0, Instr::Extend(1, 2), Ok("-1")),
    (18446744073709551615, 0, Instr::Low(1, 2), Ok("4294967295")),
];

/// Operators on words of 64 bits, by what they are called.
pub fn wide_operators() -> &'static [(&'static str, &'static [WideOperator])] {
    static GROUPS: [(&'static str, &'static [WideOperator]); 8] = [
        ("what narrow types see", &SEEN_NARROW),
        ("what is seen whole", &SEEN_WHOLE),
        ("sums and differences", &SUMS),
        ("products", &PRODUCTS),
        ("quotients and rests", &QUOTIENTS),
        ("shifts", &SHIFTS),
        ("comparisons", &COMPARISONS),
        ("operators of one word", &OF_ONE),
    ];
    &GROUPS
}

/// Jumps, checks, prints and a call whose registers hold more than 32 bits.
pub fn wide_steps() -> &'static [WideRow] {
    static ROWS: [WideRow; 8] = [
        (
            "jz",
            &[
                Instr::Constant(1, 4294967296),
                Instr::JumpZero(1, 3),
                Instr::PrintLong(1),
                Instr::Return,
            ],
            None,
            Ok("4294967296"),
            [0, 0],
        ),
        (
            "jnz",
            &[
                Instr::Constant(1, 4294967296),
                Instr::JumpNonzero(1, 3),
                Instr::PrintLong(1),
                Instr::Return,
            ],
            None,
            Ok(""),
            [0, 0],
        ),
        (
            "check",
            &[
                Instr::Constant(1, 4294967296),
                Instr::Check(1, 5),
                Instr::Return,
            ],
            None,
            Err(Trap::Index),
            [0, 0],
        ),
        (
            "print.u",
            &[
                Instr::Constant(1, 4294967297),
                Instr::PrintUnsigned(1),
                Instr::Return,
            ],
            None,
            Ok("1"),
            [0, 0],
        ),
        (
            "print.s",
            &[
                Instr::Constant(1, 6442450944),
                Instr::PrintSigned(1),
                Instr::Return,
            ],
            None,
            Ok("-2147483648"),
            [0, 0],
        ),
        (
            "print.l of the least number",
            &[
                Instr::Constant(1, 9223372036854775808),
                Instr::PrintLong(1),
                Instr::Return,
            ],
            None,
            Ok("-9223372036854775808"),
            [0, 0],
        ),
        (
            "print.l of the greatest number",
            &[
                Instr::Constant(1, 9223372036854775807),
                Instr::PrintLong(1),
                Instr::Return,
            ],
            None,
            Ok("9223372036854775807"),
            [0, 0],
        ),
        (
            "a call and its return",
            &[
                Instr::Constant(0, 1099511627776),
                Instr::Call(1, 1, 1, 0),
                Instr::PrintLong(1),
                Instr::Return,
                Instr::ReturnValue(0),
            ],
            Some(4),
            Ok("1099511627776"),
            [0, 0],
        ),
    ];
    &ROWS
}

/// Reads and writes of cells of 32 bits and of 64, one by one and by an index.
pub fn wide_cells() -> &'static [WideRow] {
    static ROWS: [WideRow; 7] = [
        (
            "a write to each",
            &[
                Instr::Begin(5),
                Instr::Constant(1, 4294967303),
                Instr::Write(1, 0),
                Instr::Write(1, 1),
                Instr::Commit,
                Instr::Return,
            ],
            None,
            Ok(""),
            [7, 4294967303],
        ),
        (
            "a write at the index of x in both",
            &[
                Instr::Begin(4),
                Instr::Constant(1, 4294967303),
                Instr::WriteAt(2, 1, 0, 2),
                Instr::Commit,
                Instr::Return,
            ],
            None,
            Ok(""),
            [7, 0],
        ),
        (
            "a write at the index of y in both",
            &[
                Instr::Begin(5),
                Instr::Constant(1, 4294967303),
                Instr::Constant(2, 1),
                Instr::WriteAt(2, 1, 0, 2),
                Instr::Commit,
                Instr::Return,
            ],
            None,
            Ok(""),
            [0, 4294967303],
        ),
        (
            "a write at an index in each alone",
            &[
                Instr::Begin(5),
                Instr::Constant(1, 18446744073709551615),
                Instr::WriteAt(2, 1, 0, 1),
                Instr::WriteAt(2, 1, 1, 1),
                Instr::Commit,
                Instr::Return,
            ],
            None,
            Ok(""),
            [4294967295, 18446744073709551615],
        ),
        (
            "a write at an index of 2^32",
            &[
                Instr::Begin(5),
                Instr::Write(2, 0),
                Instr::Constant(2, 4294967296),
                Instr::WriteAt(2, 1, 0, 2),
                Instr::Commit,
                Instr::Return,
            ],
            None,
            Err(Trap::Index),
            [0, 0],
        ),
        (
            "a read at an index of 2^32 + 1",
            &[
                Instr::Begin(4),
                Instr::Constant(2, 4294967297),
                Instr::ReadAt(1, 2, 0, 2),
                Instr::Commit,
                Instr::Return,
            ],
            None,
            Err(Trap::Index),
            [0, 0],
        ),
        (
            "reads of what was written",
            &[
                Instr::Begin(8),
                Instr::Constant(1, 18446744073709551614),
                Instr::Write(1, 0),
                Instr::Write(1, 1),
                Instr::Read(3, 0),
                Instr::Constant(2, 1),
                Instr::ReadAt(1, 2, 0, 2),
                Instr::Commit,
                Instr::PrintLong(3),
                Instr::PrintLong(1),
                Instr::Return,
            ],
            None,
            Ok("4294967294-2"),
            [4294967294, 18446744073709551614],
        ),
    ];
    &ROWS
}
