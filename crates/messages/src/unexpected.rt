//! Hints for an unexpected token, and for an unexpected end.

use crate::expected::{expected_tokens, push_expected};
use crate::foreign::of_beginning;
use crate::lines::{Line, push_line};
use crate::meant::{called_before, of_token};
use crate::near::is_near;
use crate::tokens::{kind_at, kind_before, next_declaration, number_at, offset_at, open_bracket};
use lex::token::{Kind, Punctuator, Span, Token};
use std::alloc::{AllocError, Allocator};

/// The most bytes of a source before a place for which the tokens that could follow are computed.
const MOST_BEFORE: usize = 65536;

/// Keywords that may be misspelt.
fn written_words() -> &'static [&'static str] {
    static ROWS: [&str; 14] = [
        "__transaction_atomic",
        "__transaction_relaxed",
        "__transaction_cancel",
        "break",
        "continue",
        "return",
        "while",
        "else",
        "printf",
        "unsigned",
        "signed",
        "void",
        "int",
        "long",
    ];
    &ROWS
}

/// The keyword that a token may be a misspelling of, if it is an undeclared name.
pub(crate) fn near_word<A: Allocator + Copy>(
    alloc: A,
    tokens: &[Token<'_>],
    kind: Option<Kind<'_>>,
) -> Result<Option<Line<'static>>, AllocError> {
    let Some(Kind::Name(name)) = kind else {
        return Ok(None);
    };
    if next_declaration(tokens, name, 0).is_some() {
        return Ok(None);
    }
    'words: for word in written_words() {
        if is_near(alloc, name, word)? {
            return Ok(Some(Line::Named("a similar keyword is ", word)));
        }
    }
    Ok(None)
}

/// The hint for the token before one by the prefix of its name. If that one is a name and begins a line, a `;`
/// may be missing between them, and there is no hint.
fn of_one_before(text: &str, tokens: &[Token<'_>], number: usize) -> Option<&'static str> {
    if let Some(Kind::Name(_)) = kind_at(tokens, number) {
        let before = tokens.get(..number).unwrap_or(&[]);
        if missing_semicolon(text, before, offset_at(tokens, number)).is_some() {
            return None;
        }
    }
    of_beginning(tokens, kind_before(tokens, number))
}

/// The keyword that an unexpected token, or one before it, may be a misspelling of.
fn near_words<A: Allocator + Copy>(
    alloc: A,
    text: &str,
    tokens: &[Token<'_>],
    number: usize,
) -> Result<Option<Line<'static>>, AllocError> {
    let names = [
        kind_before(tokens, number),
        kind_at(tokens, number),
        called_before(tokens, number),
    ];
    'names: for name in names {
        let told = near_word(alloc, tokens, name)?;
        if told.is_some() {
            return Ok(told);
        }
    }
    Ok(match of_one_before(text, tokens, number) {
        Some(words) => Some(Line::Words(words)),
        None => None,
    })
}

/// What was probably meant by an unexpected token.
fn meant<A: Allocator + Copy>(
    alloc: A,
    text: &str,
    tokens: &[Token<'_>],
    number: usize,
) -> Result<Option<Line<'static>>, AllocError> {
    match of_token(text, tokens, number) {
        Some(words) => Ok(Some(Line::Words(words))),
        None => near_words(alloc, text, tokens, number),
    }
}

/// Whether a word is among some.
fn is_among(words: &[&str], wanted: &str) -> bool {
    'words: for word in words {
        if *word == wanted {
            return true;
        }
    }
    false
}

/// Where a `;` may be missing: at the end of the last line before an offset.
fn missing_semicolon(text: &str, before: &[Token<'_>], offset: usize) -> Option<Line<'static>> {
    let end = before.last()?.span.end;
    let between = text.as_bytes().get(end..offset).unwrap_or(b"");
    if between.contains(&b'\n') {
        Some(Line::Placed("a ';' may be missing at ", end))
    } else {
        None
    }
}

/// The bracket that is open after tokens, if the one that closes it is expected; a brace only at the end.
fn open_since(before: &[Token<'_>], expected: &[&str], is_end: bool) -> Option<Line<'static>> {
    let open = open_bracket(before, before.len())?;
    let (closing, words) = match kind_at(before, open)? {
        Kind::Punctuator(Punctuator::OpenParen) => ("')'", "unclosed '(' at "),
        Kind::Punctuator(Punctuator::OpenBracket) => ("']'", "unclosed '[' at "),
        _ if is_end => ("'}'", "unclosed '{' at "),
        _ => return None,
    };
    if is_among(expected, closing) {
        Some(Line::Placed(words, offset_at(before, open)))
    } else {
        None
    }
}

/// What may be missing after tokens, if some words are expected.
fn missing(
    text: &str,
    before: &[Token<'_>],
    expected: &[&str],
    offset: usize,
    is_end: bool,
) -> Option<Line<'static>> {
    if is_among(expected, "';'") {
        let told = missing_semicolon(text, before, offset);
        if told.is_some() {
            return told;
        }
    }
    open_since(before, expected, is_end)
}

/// Leaves those tokens that end up to an offset.
fn cut<A: Allocator>(tokens: &mut Vec<Token<'_>, A>, offset: usize) {
    let mut count = 0usize;
    'tokens: for token in tokens.iter() {
        if token.span.end <= offset {
            count = count.saturating_add(1);
        }
    }
    tokens.truncate(count);
}

/// Adds what could follow tokens, and returns what may be missing there.
fn push_missing<A: Allocator + Copy>(
    alloc: A,
    to: &mut String<A>,
    text: &str,
    before: &mut Vec<Token<'_>, A>,
    offset: usize,
    is_end: bool,
) -> Result<Option<Line<'static>>, AllocError> {
    let expected = expected_tokens(alloc, before)?;
    push_expected(to, expected.as_slice())?;
    Ok(missing(text, before.as_slice(), expected.as_slice(), offset, is_end))
}

/// Adds what was probably meant by an unexpected token or end at a span, what could be there, and what may be
/// missing.
pub(crate) fn push_unexpected<A: Allocator + Copy>(
    alloc: A,
    to: &mut String<A>,
    text: &str,
    tokens: &mut Vec<Token<'_>, A>,
    span: Span,
) -> Result<(), AllocError> {
    let number = number_at(tokens.as_slice(), span.start);
    let told = match number {
        Some(number) => meant(alloc, text, tokens.as_slice(), number)?,
        None => None,
    };
    push_line(alloc, to, text, told)?;
    if span.start > MOST_BEFORE {
        return Ok(());
    }
    cut(tokens, span.start);
    let missing = push_missing(alloc, to, text, tokens, span.start, number.is_none())?;
    push_line(alloc, to, text, if told.is_some() { None } else { missing })
}
