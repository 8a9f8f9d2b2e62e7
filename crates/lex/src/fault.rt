//! Why a text has no tokens.

ghost use Rattle.std.specs.Prelude.{◌≡◌};
ghost use Rattle.lex.specs.declared.fault.LexFault.TheVariants.{OutOfMemory};
ghost use Rattle.lex.specs.Faults.{number_of, span_of};

use crate::token::Span;
use std::alloc::{AllocError, AllocFailed};
use thiserror::Error;

/// Why a text has no tokens: its first fault, in the order of the text.
#[derive(Clone, Copy, Debug, Error)]
pub enum LexFault {
    /// An allocation failure for the list of tokens, which says nothing of the text.
    #[error("out of memory")]
    OutOfMemory,
    /// A character that no token begins with, a `#` that is not first on its line, or a letter, a digit, `_` or
    /// `.` that directly follows a constant. The span is the character.
    #[error("bad character")]
    BadCharacter(Span),
    /// The constant has no type that can hold it.
    #[error("constant too large")]
    ConstantTooLarge(Span),
    /// An unterminated comment. The span goes from `/*` to the text's end.
    #[error("open comment")]
    OpenComment(Span),
    /// A string that is not closed on its line, or that contains an invalid character or escape. The span is
    /// its opening quote.
    #[error("bad string")]
    BadString(Span),
    /// The text has more than 1,048,576 bytes. The span is empty, at 0.
    #[error("file too long")]
    FileTooLong,
    /// A directive other than `#include`. The span is the `#`.
    #[error("directive")]
    Directive(Span),
}

impl LexFault {
    /// The fault's number, from 0 to 6.
    pub fn number(&self) -> u32
        ensures { result ≡ number_of self.now }
    {
        match self {
            LexFault::OutOfMemory => 0,
            LexFault::BadCharacter(_) => 1,
            LexFault::ConstantTooLarge(_) => 2,
            LexFault::OpenComment(_) => 3,
            LexFault::BadString(_) => 4,
            LexFault::FileTooLong => 5,
            LexFault::Directive(_) => 6,
        }
    }

    /// The span of the fault in the text. An allocation failure has none.
    pub fn span(&self) -> Option<Span>
        ensures { result ≡ span_of self.now }
    {
        match self {
            LexFault::OutOfMemory => None,
            LexFault::BadCharacter(span)
            | LexFault::ConstantTooLarge(span)
            | LexFault::OpenComment(span)
            | LexFault::BadString(span)
            | LexFault::Directive(span) => Some(*span),
            LexFault::FileTooLong => Some(Span { start: 0, end: 0 }),
        }
    }
}

impl From<AllocError> for LexFault {
    ghost from_gives = { λ _ e. e ≡ OutOfMemory };

    fn from(_error: AllocError) -> LexFault {
        LexFault::OutOfMemory
    }
}

impl<T: Drop> From<AllocFailed<T>> for LexFault {
    ghost from_gives = { λ _ e. e ≡ OutOfMemory };

    fn from(_error: AllocFailed<T>) -> LexFault {
        LexFault::OutOfMemory
    }
}
