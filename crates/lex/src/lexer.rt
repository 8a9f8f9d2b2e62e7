//! The loop over the pieces of a text.

ghost use Rattle.std.specs.Prelude.{◌≡◌, ◌+◌, ◌<◌, ◌≤◌, ◌^◌, false, length, slice_index, IfOk, IfErr};
ghost use Rattle.lex.specs.Tokens.{toks};
ghost use Rattle.lex.specs.Bytes.{is_letter, is_digit, is_white};
ghost use Rattle.lex.specs.Faults.{IsFault};
ghost use Rattle.lex.specs.Pieces.{IsLexed};
ghost use Rattle.lex.specs.inner.Answers.{AnswersPiece};

use crate::bytes::{character_len, is_digit, is_letter, is_white};
use crate::comment::{comment, directive, line_comment};
use crate::constant::constant;
use crate::fault::LexFault;
use crate::punctuator::punctuator;
use crate::string::string;
use crate::token::{Kind, Span, Token};
use crate::word::word;
use std::alloc::Allocator;

/// The maximum number of bytes of a text.
pub const MOST_BYTES: usize = 1_048_576;

/// A comment or a punctuator that begins with a slash.
fn slash<'a>(text: &'a str, at: usize) -> Result<(Option<Kind<'a>>, usize), LexFault>
    requires within { at < length text.now }
    requires fits { length text.now < 2 ^ 62 }
    requires begins { slice_index text.now at ≡ 47 }
    ensures { AnswersPiece text.now at result }
{
    let bytes = text.as_bytes();
    if at + 1 < bytes.len() && bytes[at + 1] == b'*' {
        return comment(text, at);
    }
    if at + 1 < bytes.len() && bytes[at + 1] == b'/' {
        return line_comment(text, at);
    }
    punctuator(text, at)
}

/// The piece at the offset: a token's kind, or none for what separates tokens, and its length.
fn next<'a>(text: &'a str, at: usize) -> Result<(Option<Kind<'a>>, usize), LexFault>
    requires within { at < length text.now }
    requires fits { length text.now < 2 ^ 62 }
    ensures { AnswersPiece text.now at result }
{
    let first = text.as_bytes()[at];
    if is_white(first) {
        return Ok((None, 1));
    }
    if is_letter(first) {
        return word(text, at);
    }
    if is_digit(first) {
        return constant(text, at);
    }
    match first {
        b'"' => string(text, at),
        b'#' => directive(text, at),
        b'/' => slash(text, at),
        _ => punctuator(text, at),
    }
}

/// The tokens of a text in their order, without white space, comments and lines of `#include`; or its first fault, in
/// the order of the text. A text of more than 1,048,576 bytes is refused before anything else is checked.
pub fn lex<'a, A: Allocator + Copy>(alloc: A, text: &'a str) -> Result<Vec<Token<'a>, A>, LexFault>
    ensures ok { IfOk result (λ v. IsLexed text.now (toks v.items)) }
    ensures err { IfErr result (λ f. IsFault text.now f) }
{
    if text.len() > MOST_BYTES {
        return Err(LexFault::FileTooLong);
    }
    let mut tokens = Vec::new(alloc);
    let mut at = 0;
    'pieces: while at < text.len() {
        let (kind, len) = next(text, at)?;
        let end = at + len;
        if let Some(kind) = kind {
            tokens.push(Token {
                kind,
                span: Span { start: at, end },
            })?;
        }
        at = end;
    }
    Ok(tokens)
}
