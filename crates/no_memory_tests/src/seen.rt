//! What the calls of a way give, as text: a line for each, behind its name.

use lex::token::Token;
use std::alloc::{AllocError, Global};

/// The lines so far. They lie in memory of their own, which is never refused.
#[derive(Drop)]
pub struct Seen {
    alloc: Global,
    text: String,
}

/// Adds a line.
fn add(seen: &mut Seen, line: &str) -> Result<(), AllocError> {
    seen.text.push_str(line)?;
    seen.text.push_str("\n")?;
    Ok(())
}

/// The line of these bytes.
fn line_of_bytes(alloc: Global, call: &str, bytes: &[u8]) -> Result<String, AllocError> {
    format!(in alloc; "{call} {bytes:?}")
}

/// The line of these words.
fn line_of_words(alloc: Global, call: &str, words: &[u64]) -> Result<String, AllocError> {
    format!(in alloc; "{call} {words:?}")
}

/// A number that stands for where these tokens begin and end.
fn digest(tokens: &[Token<'_>]) -> u64 {
    let mut digest = 0u64;
    for token in tokens {
        let start = digest
            .wrapping_mul(31)
            .wrapping_add(token.span.start as u64);
        digest = start.wrapping_mul(31).wrapping_add(token.span.end as u64);
    }
    digest
}

impl Seen {
    /// No lines.
    pub fn new(alloc: Global) -> Seen {
        Seen {
            alloc,
            text: String::new(alloc),
        }
    }

    /// The lines.
    pub fn text(&self) -> &str {
        self.text.as_str()
    }

    /// Adds a line. `None` where there is no memory for it, which ends the way.
    pub fn line(&mut self, line: &str) -> Option<()> {
        add(self, line).ok()
    }

    /// Adds a line of bytes.
    pub fn bytes(&mut self, call: &str, bytes: &[u8]) -> Option<()> {
        match line_of_bytes(self.alloc, call, bytes) {
            Ok(line) => self.line(line.as_str()),
            Err(_) => None,
        }
    }

    /// Adds a line of words.
    pub fn words(&mut self, call: &str, words: &[u64]) -> Option<()> {
        match line_of_words(self.alloc, call, words) {
            Ok(line) => self.line(line.as_str()),
            Err(_) => None,
        }
    }

    /// Adds a line of tokens: how many they are, and a number for their places.
    pub fn tokens(&mut self, call: &str, tokens: &[Token<'_>]) -> Option<()> {
        self.words(call, &[tokens.len() as u64, digest(tokens)])
    }
}
