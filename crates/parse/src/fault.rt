//! Why a list of tokens is no program, and what stops the parser in the middle of one.

ghost use Rattle.std.specs.Prelude.{◌≡◌};
ghost use Rattle.parse.specs.declared.fault.ParseFailure.TheVariants.{Memory};
ghost use Rattle.parse.specs.Faults.{number_of, span_of};

use lex::token::{Span, Token};
use std::alloc::{AllocError, AllocFailed};
use thiserror::Error;

/// Why a list of tokens is no program.
#[derive(Clone, Copy, Debug, Error)]
pub enum ParseFault {
    /// A growth of the tree was refused. It says nothing of the tokens.
    #[error("out of memory")]
    OutOfMemory,
    /// The first token with which no program begins any more: the tokens before it begin one.
    #[error("unexpected token")]
    Unexpected(Span),
    /// Programs begin with the tokens up to this one, and each that does is deeper than 100. It need not be the first
    /// such token.
    #[error("nested too deep")]
    TooDeep(Span),
    /// The tokens begin a program, and are none. The span is empty, where the last token ends, or at 0 where there is
    /// none.
    #[error("unexpected end")]
    Unfinished(Span),
}

impl ParseFault {
    /// The fault's number: 0, or 10 to 12.
    pub fn number(&self) -> u32
        ensures { result ≡ number_of self.now }
    {
        match self {
            ParseFault::OutOfMemory => 0,
            ParseFault::Unexpected(_) => 10,
            ParseFault::TooDeep(_) => 11,
            ParseFault::Unfinished(_) => 12,
        }
    }

    /// Where the fault stands in the text. Want of memory stands nowhere.
    pub fn span(&self) -> Option<Span>
        ensures { result ≡ span_of self.now }
    {
        match self {
            ParseFault::OutOfMemory => None,
            ParseFault::Unexpected(span)
            | ParseFault::TooDeep(span)
            | ParseFault::Unfinished(span) => { Some(*span) }
        }
    }
}

/// What stops a descent, with the tokens from the place where it stops.
#[derive(Drop)]
pub enum ParseFailure<'t, 'a> {
    Memory,
    Wrong(&'t [Token<'a>]),
    Deep(&'t [Token<'a>]),
}

impl<'t, 'a> From<AllocError> for ParseFailure<'t, 'a> {
    ghost from_gives = { λ _ e. e ≡ Memory };

    fn from(_e: AllocError) -> ParseFailure<'t, 'a> {
        ParseFailure::Memory
    }
}

impl<'t, 'a, T: Drop> From<AllocFailed<T>> for ParseFailure<'t, 'a> {
    ghost from_gives = { λ _ e. e ≡ Memory };

    fn from(_e: AllocFailed<T>) -> ParseFailure<'t, 'a> {
        ParseFailure::Memory
    }
}
