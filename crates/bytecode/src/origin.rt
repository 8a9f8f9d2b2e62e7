//! The source range of an instruction.

use lex::token::Span;

/// The source bytes from which an instruction was generated. An offset above 4294967295 is stored as that.
#[derive(Clone, Copy, PartialEq, Eq)]
pub struct Origin {
    start: u32,
    end: u32,
}

/// An offset in 32 bits.
fn narrow(offset: usize) -> u32 {
    if offset > u32::MAX as usize {
        u32::MAX
    } else {
        offset as u32
    }
}

impl Origin {
    /// The origin with these bytes.
    pub fn new(at: Span) -> Origin {
        Origin {
            start: narrow(at.start),
            end: narrow(at.end),
        }
    }

    /// The bytes.
    pub fn span(self) -> Span {
        Span {
            start: self.start as usize,
            end: self.end as usize,
        }
    }
}
