//! The functions of a source, by its tokens.

use crate::passage::{Source, closes, opens};
use lex::token::{Kind, Punctuator, Token};

/// Whether a token is this punctuator.
pub(crate) fn is_punctuator(token: Option<&Token<'_>>, wanted: Punctuator) -> bool {
    match token {
        Some(
            Token {
                kind: Kind::Punctuator(found),
                ..
            },
        ) => *found == wanted,
        _ => false,
    }
}

/// The name that a token is, if a parenthesis follows it.
pub(crate) fn called_at<'a>(tokens: &[Token<'a>], number: usize) -> Option<&'a str> {
    match tokens.get(number) {
        Some(
            Token {
                kind: Kind::Name(name),
                ..
            },
        ) => {
            let next = tokens.get(number.saturating_add(1));
            if is_punctuator(next, Punctuator::OpenParen) {
                Some(*name)
            } else {
                None
            }
        }
        _ => None,
    }
}

/// How many brackets are open after a token.
pub(crate) fn depth_after(token: &Token<'_>, depth: usize) -> usize {
    if opens(token.kind) {
        depth.saturating_add(1)
    } else if closes(token.kind) {
        depth.saturating_sub(1)
    } else {
        depth
    }
}

/// The function in which an offset is.
pub(crate) fn function_at<'a>(source: Source<'a>, offset: usize) -> &'a str {
    let mut depth = 0;
    let mut found = "";
    'tokens: for number in 0..source.tokens.len() {
        let token = &source.tokens[number];
        if token.span.start > offset {
            return found;
        }
        if depth == 0 {
            if let Some(name) = called_at(source.tokens, number) {
                found = name;
            }
        }
        depth = depth_after(token, depth);
    }
    found
}

/// The number of the first token in the body of a function of this name, if it has one.
fn body_start(tokens: &[Token<'_>], name: &str) -> Option<usize> {
    let mut depth = 0;
    let mut is_named = false;
    'tokens: for number in 0..tokens.len() {
        let token = &tokens[number];
        if depth == 0 {
            if let Some(found) = called_at(tokens, number) {
                is_named = found == name;
            }
            if is_punctuator(Some(token), Punctuator::Semicolon) {
                is_named = false;
            }
            if is_named && is_punctuator(Some(token), Punctuator::OpenBrace) {
                return Some(number);
            }
        }
        depth = depth_after(token, depth);
    }
    None
}

/// How many of these tokens there are up to the end of the brackets that the first one opens.
fn count_enclosed(tokens: &[Token<'_>]) -> usize {
    let mut depth = 0;
    'tokens: for number in 0..tokens.len() {
        depth = depth_after(&tokens[number], depth);
        if depth == 0 {
            return number;
        }
    }
    tokens.len()
}

/// The tokens of the body of a function.
pub(crate) fn body_of<'a>(tokens: &'a [Token<'a>], name: &str) -> &'a [Token<'a>] {
    match body_start(tokens, name) {
        Some(start) => {
            let rest = tokens.get(start..tokens.len()).unwrap_or(&[]);
            rest.get(0..count_enclosed(rest)).unwrap_or(&[])
        }
        None => &[],
    }
}
