//! Transactions in a source: where each begins, and its first words.

use lex::place;
use lex::token::{Kind, Punctuator, Span, Token};
use std::alloc::{AllocError, Allocator};
use traces::push_number;

/// The most bytes of a transaction's first words.
const MOST_SHOWN: usize = 40;

/// The text of a source, and its tokens.
#[derive(Clone, Copy)]
pub struct Source<'a> {
    pub text: &'a str,
    pub tokens: &'a [Token<'a>],
}

/// Adds the line and the column of an offset, with a colon between them.
pub fn push_place<A: Allocator>(
    to: &mut Vec<u8, A>,
    text: &str,
    offset: usize,
) -> Result<(), AllocError> {
    let (line, column) = place(text, offset.min(text.len()));
    push_number(to, line as u64)?;
    to.extend_from_slice(b":")?;
    push_number(to, column as u64)
}

/// Whether a token opens a bracket.
pub(crate) fn opens(kind: Kind<'_>) -> bool {
    matches!(
        kind,
        Kind::Punctuator(Punctuator::OpenBrace | Punctuator::OpenParen | Punctuator::OpenBracket)
    )
}

/// Whether a token closes a bracket.
pub(crate) fn closes(kind: Kind<'_>) -> bool {
    matches!(
        kind,
        Kind::Punctuator(Punctuator::CloseBrace | Punctuator::CloseParen | Punctuator::CloseBracket)
    )
}

/// Whether a token after a transaction's keyword opens its body: a brace does, and a parenthesis directly after the
/// keyword.
fn opens_body(kind: Kind<'_>, is_next: bool) -> bool {
    match kind {
        Kind::Punctuator(Punctuator::OpenBrace) => true,
        Kind::Punctuator(Punctuator::OpenParen) => is_next,
        _ => false,
    }
}

/// The tokens after the one that begins at an offset.
pub(crate) fn tokens_after<'a>(tokens: &'a [Token<'a>], offset: usize) -> &'a [Token<'a>] {
    'tokens: for number in 0..tokens.len() {
        if tokens[number].span.start == offset {
            return tokens.get(number + 1..tokens.len()).unwrap_or(&[]);
        }
    }
    &[]
}

/// The tokens from a transaction's body on, among those after its keyword.
pub(crate) fn body_on<'a>(tokens: &'a [Token<'a>]) -> &'a [Token<'a>] {
    'tokens: for number in 0..tokens.len() {
        if opens_body(tokens[number].kind, number == 0) {
            return tokens.get(number + 1..tokens.len()).unwrap_or(&[]);
        }
    }
    &[]
}

/// The bytes of a token.
fn bytes_at(text: &str, span: Span) -> &[u8] {
    text.as_bytes().get(span.start..span.end).unwrap_or(b"")
}

/// Adds the bytes of a token, after a blank if something is between it and the one before.
fn push_token<A: Allocator>(
    to: &mut Vec<u8, A>,
    bytes: &[u8],
    is_apart: bool,
) -> Result<(), AllocError> {
    if is_apart {
        to.extend_from_slice(b" ")?;
    }
    to.extend_from_slice(bytes)
}

/// Whether a token ends a body of which so many inner brackets are open.
pub(crate) fn ends_body(kind: Kind<'_>, depth: usize) -> bool {
    depth == 0 && closes(kind)
}

/// Whether a token is the last semicolon of a body of which so many inner brackets are open.
fn is_last_semicolon(kind: Kind<'_>, next: Option<&Token<'_>>, depth: usize) -> bool {
    if !matches!(kind, Kind::Punctuator(Punctuator::Semicolon)) {
        return false;
    }
    match next {
        Some(next) => ends_body(next.kind, depth),
        None => true,
    }
}

/// Adds the first words of a body, with a blank for whatever is between them, and ` ..` if there are more. A first word
/// that is too long is cut.
fn push_body<A: Allocator>(
    to: &mut Vec<u8, A>,
    text: &str,
    tokens: &[Token<'_>],
) -> Result<(), AllocError> {
    let mut room = MOST_SHOWN;
    let mut depth = 0usize;
    let mut end = None;
    'tokens: for number in 0..tokens.len() {
        let token = tokens[number];
        let next = tokens.get(number.saturating_add(1));
        if ends_body(token.kind, depth) || is_last_semicolon(token.kind, next, depth) {
            return Ok(());
        }
        if opens(token.kind) {
            depth = depth.saturating_add(1);
        } else if closes(token.kind) {
            depth = depth.saturating_sub(1);
        }
        let bytes = bytes_at(text, token.span);
        let is_apart = end.is_some() && end != Some(token.span.start);
        if bytes.len() >= room {
            if end.is_none() {
                to.extend_from_slice(bytes.get(0..room).unwrap_or(bytes))?;
            }
            return to.extend_from_slice(b" ..");
        }
        push_token(to, bytes, is_apart)?;
        room = room.saturating_sub(bytes.len().saturating_add(usize::from(is_apart)));
        end = Some(token.span.end);
    }
    Ok(())
}

/// Adds the first words of the transaction whose keyword begins at an offset.
pub fn push_passage<A: Allocator>(
    to: &mut Vec<u8, A>,
    source: Source<'_>,
    offset: usize,
) -> Result<(), AllocError> {
    push_body(
        to,
        source.text,
        body_on(tokens_after(source.tokens, offset)),
    )
}
