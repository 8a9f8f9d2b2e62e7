//! Listings.

use crate::asserted::{assert_none, assert_that};
use crate::of_bytecode::built::{Function, WORKER, code_of_parts};
use bytecode::{Code, Instr, listing};
use lex::token::Scalar;
use std::alloc::Global;
use syntax::tree::BinaryOp;
use test_codes::TEXTS;

/// Whether this is a code's listing, and memory is there.
fn is_listed(alloc: Global, code: &Code, wanted: &str) -> bool {
    match listing(alloc, code) {
        Ok(text) => text.as_str() == wanted,
        Err(_) => false,
    }
}

/// How many functions, instructions, texts and globals a code has.
type Counts = (usize, usize, usize, usize);

/// The counts of a code.
fn counts(code: &Code) -> Counts {
    (
        code.functions().len(),
        code.len(),
        code.texts().len(),
        code.globals().len(),
    )
}

/// The counts of a code with this listing.
fn counts_of(alloc: Global, code: &Code, wanted: &str) -> Option<Counts> {
    if is_listed(alloc, code, wanted) {
        Some(counts(code))
    } else {
        None
    }
}

/// The counts of a code's copy with this listing.
fn counts_of_copy(alloc: Global, code: &Code, wanted: &str) -> Option<Counts> {
    match code.copy(alloc) {
        Err(_) => None,
        Ok(copy) => counts_of(alloc, &copy, wanted),
    }
}

/// The counts of a code's copy where both have this listing.
fn listed_twice(alloc: Global, code: &Code, wanted: &str) -> Option<Counts> {
    if is_listed(alloc, code, wanted) {
        counts_of_copy(alloc, code, wanted)
    } else {
        None
    }
}

/// The counts of a copy of these functions' code, where both have this listing.
fn counts_of_both(
    alloc: Global,
    functions: &[Function],
    instructions: &[Instr],
    texts: &[&str],
    wanted: &str,
) -> Option<Counts> {
    match code_of_parts(alloc, functions, &[1, 0], instructions, texts) {
        None => None,
        Some(code) => listed_twice(alloc, &code, wanted),
    }
}

/// Functions, instructions and texts, their listing, and the counts of their copy.
type Row = (
    &'static [Function<'static>],
    &'static [Instr],
    &'static [&'static str],
    &'static str,
    Counts,
);

/// Whether the listing and the counts are those of a row.
fn is_told(alloc: Global, row: &Row) -> bool {
    let (functions, instructions, texts, wanted, counts) = *row;
    counts_of_both(alloc, functions, instructions, texts, wanted) == Some(counts)
}

const TRANSACTION: &str =
    "function worker registers 2\n0 begin >4\n1 rd r1 @0\n2 wr @0 r1\n3 commit\n4 ret\n";

/// The rows stand in functions, so that no proof but theirs looks at them.
fn transaction() -> &'static Row {
    static ROW: Row = (
        &[WORKER],
        &[
            Instr::Begin(4),
            Instr::Read(1, 0),
            Instr::Write(1, 0),
            Instr::Commit,
            Instr::Return,
        ],
        &[],
        TRANSACTION,
        (1, 5, 0, 1),
    );
    &ROW
}

#[test]
fn a_transaction_is_listed(rt: HostRuntime) {
    assert_that(&rt, is_told(rt.alloc(), transaction()));
}

/// Instructions that compute.
pub const COMPUTES: [Instr; 18] = [
    Instr::Constant(1, 4294967295),
    Instr::Move(1, 0),
    Instr::Compute(BinaryOp::Add, Scalar::Int, 1, 0, 1),
    Instr::Compute(BinaryOp::Add, Scalar::Unsigned, 1, 0, 1),
    Instr::Compute(BinaryOp::Subtract, Scalar::Int, 1, 0, 1),
    Instr::Compute(BinaryOp::Subtract, Scalar::Unsigned, 1, 0, 1),
    Instr::Compute(BinaryOp::Multiply, Scalar::Int, 1, 0, 1),
    Instr::Compute(BinaryOp::Multiply, Scalar::Unsigned, 1, 0, 1),
    Instr::Compute(BinaryOp::Divide, Scalar::Int, 1, 0, 1),
    Instr::Compute(BinaryOp::Divide, Scalar::Unsigned, 1, 0, 1),
    Instr::Compute(BinaryOp::Remainder, Scalar::Int, 1, 0, 1),
    Instr::Compute(BinaryOp::Remainder, Scalar::Unsigned, 1, 0, 1),
    Instr::NegateSigned(1, 0),
    Instr::NegateUnsigned(1, 0),
    Instr::Complement(1, 0),
    Instr::Constant(1, 4294967296),
    Instr::Constant(1, 18446744073709551614),
    Instr::ReturnValue(1),
];

const COMPUTES_LISTED: &str = "function worker registers 2
0 const r1 #4294967295
1 move r1 r0
2 add.s r1 r0 r1
3 add.u r1 r0 r1
4 sub.s r1 r0 r1
5 sub.u r1 r0 r1
6 mul.s r1 r0 r1
7 mul.u r1 r0 r1
8 div.s r1 r0 r1
9 div.u r1 r0 r1
10 rem.s r1 r0 r1
11 rem.u r1 r0 r1
12 neg.s r1 r0
13 neg.u r1 r0
14 not r1 r0
15 const r1 #4294967296
16 const r1 #18446744073709551614
17 ret r1
";

/// Instructions on bits, and comparisons.
pub const BITS: [Instr; 14] = [
    Instr::Compute(BinaryOp::ShiftLeft, Scalar::Int, 1, 0, 1),
    Instr::Compute(BinaryOp::ShiftLeft, Scalar::Unsigned, 1, 0, 1),
    Instr::Compute(BinaryOp::ShiftRight, Scalar::Int, 1, 0, 1),
    Instr::Compute(BinaryOp::ShiftRight, Scalar::Unsigned, 1, 0, 1),
    Instr::Compute(BinaryOp::And, Scalar::Unsigned, 1, 0, 1),
    Instr::Compute(BinaryOp::Or, Scalar::Unsigned, 1, 0, 1),
    Instr::Compute(BinaryOp::Xor, Scalar::Unsigned, 1, 0, 1),
    Instr::Compute(BinaryOp::Equal, Scalar::Unsigned, 1, 0, 1),
    Instr::Compute(BinaryOp::NotEqual, Scalar::Unsigned, 1, 0, 1),
    Instr::Compute(BinaryOp::Less, Scalar::Int, 1, 0, 1),
    Instr::Compute(BinaryOp::Less, Scalar::Unsigned, 1, 0, 1),
    Instr::Compute(BinaryOp::LessEqual, Scalar::Int, 1, 0, 1),
    Instr::Compute(BinaryOp::LessEqual, Scalar::Unsigned, 1, 0, 1),
    Instr::Return,
];

const BITS_LISTED: &str = "function worker registers 2
0 shl.s r1 r0 r1
1 shl.u r1 r0 r1
2 shr.s r1 r0 r1
3 shr.u r1 r0 r1
4 and r1 r0 r1
5 or r1 r0 r1
6 xor r1 r0 r1
7 eq r1 r0 r1
8 ne r1 r0 r1
9 lt.s r1 r0 r1
10 lt.u r1 r0 r1
11 le.s r1 r0 r1
12 le.u r1 r0 r1
13 ret
";

/// Instructions of `long long`, and what makes one type's words of the other's.
pub const LONGS: [Instr; 15] = [
    Instr::Compute(BinaryOp::Add, Scalar::LongLong, 1, 0, 1),
    Instr::Compute(BinaryOp::Subtract, Scalar::LongLong, 1, 0, 1),
    Instr::Compute(BinaryOp::Multiply, Scalar::LongLong, 1, 0, 1),
    Instr::Compute(BinaryOp::Divide, Scalar::LongLong, 1, 0, 1),
    Instr::Compute(BinaryOp::Remainder, Scalar::LongLong, 1, 0, 1),
    Instr::Compute(BinaryOp::ShiftLeft, Scalar::LongLong, 1, 0, 1),
    Instr::Compute(BinaryOp::ShiftRight, Scalar::LongLong, 1, 0, 1),
    Instr::Compute(BinaryOp::Less, Scalar::LongLong, 1, 0, 1),
    Instr::Compute(BinaryOp::LessEqual, Scalar::LongLong, 1, 0, 1),
    Instr::NegateLong(1, 0),
    Instr::ComplementLong(1, 0),
    Instr::Extend(1, 0),
    Instr::Low(1, 0),
    Instr::PrintLong(1),
    Instr::Return,
];

const LONGS_LISTED: &str = "function worker registers 2
0 add.l r1 r0 r1
1 sub.l r1 r0 r1
2 mul.l r1 r0 r1
3 div.l r1 r0 r1
4 rem.l r1 r0 r1
5 shl.l r1 r0 r1
6 shr.l r1 r0 r1
7 lt.l r1 r0 r1
8 le.l r1 r0 r1
9 neg.l r1 r0
10 not.l r1 r0
11 ext r1 r0
12 low r1 r0
13 print.l r1
14 ret
";

/// Instructions that lead elsewhere, that access cells, and that print.
pub const LEADS: [Instr; 20] = [
    Instr::Jump(1),
    Instr::JumpZero(0, 2),
    Instr::JumpNonzero(0, 3),
    Instr::Check(0, 7),
    Instr::Begin(13),
    Instr::Begin(12),
    Instr::Read(1, 0),
    Instr::ReadAt(1, 0, 0, 1),
    Instr::Write(1, 0),
    Instr::WriteAt(0, 1, 0, 1),
    Instr::Cancel,
    Instr::CancelOuter(2),
    Instr::Commit,
    Instr::Irrevocable,
    Instr::PrintText(1),
    Instr::PrintSigned(0),
    Instr::PrintUnsigned(1),
    Instr::Call(1, 1, 1, 1),
    Instr::Return,
    Instr::ReturnValue(0),
];

const LEADS_LISTED: &str = "function worker registers 2
0 jump >1
1 jz r0 >2
2 jnz r0 >3
3 check r0 #7
4 begin >13
5 begin >12
6 rd r1 @0
7 rdx r1 @0 #1 r0
8 wr @0 r1
9 wrx @0 #1 r0 r1
10 cancel
11 cancelx #2
12 commit
13 irrevocable
14 print.t #1
15 print.s r0
16 print.u r1
17 call f r1 r0
18 ret
function f registers 1
19 ret r0
text 0 \"\\\"\\t\\\"\"
text 1 \"\\\\\\n\"
";

fn instructions() -> &'static [Row] {
    static ROWS: [Row; 4] = [
        (&[WORKER], &COMPUTES, &[], COMPUTES_LISTED, (1, 18, 0, 1)),
        (&[WORKER], &BITS, &[], BITS_LISTED, (1, 14, 0, 1)),
        (&[WORKER], &LONGS, &[], LONGS_LISTED, (1, 15, 0, 1)),
        (
            &[WORKER, ("f", 19, 1, 1)],
            &LEADS,
            &TEXTS,
            LEADS_LISTED,
            (2, 20, 2, 1),
        ),
    ];
    &ROWS
}

/// The first listing of a row that is not told.
fn told_otherwise(alloc: Global, rows: &[Row]) -> Option<&'static str> {
    for row in rows {
        if !is_told(alloc, row) {
            return Some(row.3);
        }
    }
    None
}

#[test]
fn every_instruction_is_listed(rt: HostRuntime) {
    assert_none(&rt, told_otherwise(rt.alloc(), instructions()));
}

/// `worker` with the registers of a loop.
pub const LOOPING: Function<'static> = ("worker", 0, 5, 1);

/// The end of a loop's turn.
pub const TURN: [Instr; 4] = [
    Instr::Compute(BinaryOp::Add, Scalar::Int, 1, 1, 2),
    Instr::Compute(BinaryOp::Less, Scalar::Int, 3, 1, 4),
    Instr::JumpNonzero(3, 0),
    Instr::Return,
];

const TURN_LISTED: &str = "function worker registers 5
0 add.s r1 r1 r2
1 lt.s r3 r1 r4
2 jnz r3 >0
3 ret
";

/// The end of a loop's turn with a sum before it.
pub const SUMMED: [Instr; 5] = [
    Instr::Compute(BinaryOp::Add, Scalar::Int, 0, 0, 3),
    Instr::Compute(BinaryOp::Add, Scalar::Int, 1, 1, 2),
    Instr::Compute(BinaryOp::Less, Scalar::Int, 3, 1, 4),
    Instr::JumpNonzero(3, 0),
    Instr::Return,
];

const SUMMED_LISTED: &str = "function worker registers 5
0 add.s r0 r0 r3
1 add.s r1 r1 r2
2 lt.s r3 r1 r4
3 jnz r3 >0
4 ret
";

/// Sums behind which no loop's turn ends.
pub const OTHER_SUMS: [Instr; 5] = [
    Instr::Compute(BinaryOp::Add, Scalar::Int, 1, 1, 2),
    Instr::Compute(BinaryOp::Less, Scalar::Int, 3, 1, 4),
    Instr::Compute(BinaryOp::Add, Scalar::Int, 0, 0, 3),
    Instr::Compute(BinaryOp::Add, Scalar::Int, 7, 7, 2),
    Instr::Return,
];

const OTHER_SUMS_LISTED: &str = "function worker registers 8
0 add.s r1 r1 r2
1 lt.s r3 r1 r4
2 add.s r0 r0 r3
3 add.s r7 r7 r2
4 ret
";

fn loop_ends() -> &'static [Row] {
    static ROWS: [Row; 3] = [
        (&[LOOPING], &TURN, &[], TURN_LISTED, (1, 4, 0, 1)),
        (&[LOOPING], &SUMMED, &[], SUMMED_LISTED, (1, 5, 0, 1)),
        (
            &[("worker", 0, 8, 1)],
            &OTHER_SUMS,
            &[],
            OTHER_SUMS_LISTED,
            (1, 5, 0, 1),
        ),
    ];
    &ROWS
}

#[test]
fn sums_at_loop_ends_are_listed_as_sums(rt: HostRuntime) {
    assert_none(&rt, told_otherwise(rt.alloc(), loop_ends()));
}
