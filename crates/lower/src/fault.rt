//! Why no code is made.

ghost use Rattle.std.specs.Prelude.{◌≡◌};
ghost use Rattle.lower.specs.Answers.{number_of, span_of};

use lex::token::Span;
use std::alloc::AllocError;
use thiserror::Error;

/// Why no code is given.
#[derive(Clone, Copy, PartialEq, Eq, Debug, Error)]
pub enum LowerFault {
    /// A growth was refused. It says nothing of the program.
    #[error("out of memory")]
    OutOfMemory,

    /// A function needs more than 65,535 registers: its name.
    #[error("too many registers")]
    TooManyRegisters(Span),

    /// The code has more than 1,048,576 instructions: the name of the function in which that number is passed.
    #[error("too much code")]
    TooMuchCode(Span),

    /// Transactions lie in one another more than 16 deep in a function's text: the keyword of the 17th.
    #[error("transactions nested too deep")]
    NestedTooDeep(Span),
}

impl LowerFault {
    /// The fault's number: 0, or 60 to 62.
    pub fn number(&self) -> u32
        ensures { result ≡ number_of self.now }
    {
        match self {
            LowerFault::OutOfMemory => 0,
            LowerFault::TooManyRegisters(_) => 60,
            LowerFault::TooMuchCode(_) => 61,
            LowerFault::NestedTooDeep(_) => 62,
        }
    }

    /// Where the fault stands in the text. Want of memory stands nowhere.
    pub fn span(&self) -> Option<Span>
        ensures { result ≡ span_of self.now }
    {
        match self {
            LowerFault::OutOfMemory => None,
            LowerFault::TooManyRegisters(at) => Some(*at),
            LowerFault::TooMuchCode(at) => Some(*at),
            LowerFault::NestedTooDeep(at) => Some(*at),
        }
    }
}

impl From<AllocError> for LowerFault {
    fn from(_error: AllocError) -> LowerFault {
        LowerFault::OutOfMemory
    }
}
