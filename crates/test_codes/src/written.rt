//! What a code is written as.

use bytecode::Instr;
use lex::token::Scalar;

/// A function of a code. It ends where the next function begins, the last one with the last instruction.
#[derive(Clone, Copy)]
pub struct WrittenFunction<'a> {
    pub name: &'a str,

    /// The place of the function's first instruction.
    pub first: u32,

    /// The number of the function's registers.
    pub registers: u32,

    /// The number of the function's parameters, which are the first registers.
    pub parameters: u32,
}

/// A variable.
#[derive(Clone, Copy)]
pub struct WrittenVariable<'a> {
    pub ty: Scalar,
    pub name: &'a str,

    /// What the variable is said to begin with; where nothing is said, it begins with 0.
    pub value: Option<u32>,
}

/// A code: its functions, their instructions one after another, the registers that calls hand over, each call's
/// together, the texts that are printed, and the variables.
#[derive(Clone, Copy)]
pub struct WrittenCode<'a> {
    pub functions: &'a [WrittenFunction<'a>],
    pub instructions: &'a [Instr],
    pub arguments: &'a [u16],
    pub texts: &'a [&'a str],
    pub variables: &'a [WrittenVariable<'a>],
}

/// The variable `x` of type `int`, with nothing said of what it begins with.
pub const X: WrittenVariable<'static> = WrittenVariable {
    ty: Scalar::Int,
    name: "x",
    value: None,
};

/// The variable `y` of type `long long`, with nothing said of what it begins with.
pub const Y: WrittenVariable<'static> = WrittenVariable {
    ty: Scalar::LongLong,
    name: "y",
    value: None,
};

/// Two texts to print: `"\t"` and `\`.
pub const TEXTS: [&str; 2] = ["\"\t\"", "\\\n"];

/// The function `worker` of one parameter, the first of a code, which has so many registers.
pub fn worker(registers: u32) -> WrittenFunction<'static> {
    WrittenFunction {
        name: "worker",
        first: 0,
        registers,
        parameters: 1,
    }
}

/// A function `f` of one parameter, the second of a code, which begins at `first` and has so many registers.
pub fn second(first: u32, registers: u32) -> WrittenFunction<'static> {
    WrittenFunction {
        name: "f",
        first,
        registers,
        parameters: 1,
    }
}

/// `worker` alone, with two registers and these instructions, over the variable `x`.
pub fn over_x(instructions: &[Instr]) -> WrittenCode {
    static FUNCTIONS: [WrittenFunction<'static>; 1] = [WrittenFunction {
        name: "worker",
        first: 0,
        registers: 2,
        parameters: 1,
    }];
    static VARIABLES: [WrittenVariable<'static>; 1] = [X];
    WrittenCode {
        functions: &FUNCTIONS,
        instructions,
        arguments: &[],
        texts: &[],
        variables: &VARIABLES,
    }
}
