//! By which calls a function reaches something unsafe, or shared data.

use crate::lines::push_place;
use crate::tokens::{
    behind_brackets, declared, declares, is_punctuator, kind_at, kind_behind, next_declaration,
    offset_at, open_bracket,
};
use lex::token::{Keyword, Kind, Punctuator, Token};
use std::alloc::{AllocError, Allocator};

/// The most functions that are searched.
const MOST_FUNCTIONS: usize = 64;

/// The most bytes of a source that is searched for calls.
const MOST_BYTES: usize = 32768;

/// What to search for in functions.
#[derive(Clone, Copy, PartialEq, Eq)]
pub(crate) enum Aim {
    Unsafe,
    Shared,
}

/// A function to search, with the token that calls it and the index of its caller in the list of these functions.
#[derive(Clone, Copy)]
struct Called<'t> {
    name: &'t str,
    token: usize,
    caller: usize,
}

/// A find in a function: words, a name that belongs to them, and its token.
#[derive(Clone, Copy)]
struct Reason<'t> {
    words: &'static str,
    name: &'t str,
    token: Option<usize>,
}

/// The number of the brace that begins the body of a function, whose parameters' bracket is the token of a number.
fn body_brace(tokens: &[Token<'_>], parameters: usize) -> Option<usize> {
    let mut next = behind_brackets(tokens, parameters)?;
    'tokens: for _ in 0..tokens.len() {
        match kind_at(tokens, next)? {
            Kind::Punctuator(Punctuator::OpenBrace) => return Some(next),
            Kind::Punctuator(Punctuator::Semicolon) => return None,
            _ => next = behind_brackets(tokens, next)?,
        }
    }
    None
}

/// The index of the first token of a function, its name, and of the one after its body.
fn function(tokens: &[Token<'_>], name: &str) -> Option<(usize, usize)> {
    let mut from = 0usize;
    'declarations: for _ in 0..tokens.len() {
        let number = next_declaration(tokens, name, from)?;
        from = number.saturating_add(1);
        if is_punctuator(kind_at(tokens, from), Punctuator::OpenParen) {
            if let Some(brace) = body_brace(tokens, from) {
                return Some((number, behind_brackets(tokens, brace)?));
            }
        }
    }
    None
}

/// Whether a declaration of a function marks it as unsafe.
fn is_marked(tokens: &[Token<'_>], name: &str) -> bool {
    let mut is_marked = false;
    let mut is_declared = false;
    'tokens: for (number, token) in tokens.iter().enumerate() {
        match token.kind {
            Kind::Punctuator(
                Punctuator::Semicolon | Punctuator::OpenBrace | Punctuator::CloseBrace,
            ) => {
                if is_marked && is_declared {
                    return true;
                }
                is_marked = false;
                is_declared = false;
            }
            Kind::Name("transaction_unsafe") => is_marked = true,
            _ => is_declared = is_declared || declares(tokens, number, name),
        }
    }
    false
}

/// Whether the token of a number is the name of a variable outside of functions.
fn is_shared(tokens: &[Token<'_>], name: &str, number: usize) -> bool {
    match declared(tokens, name, number) {
        Some(first) => {
            open_bracket(tokens, first).is_none()
                && !is_punctuator(kind_behind(tokens, first), Punctuator::OpenParen)
        }
        None => false,
    }
}

/// The index of the token after a transaction, whose keyword is the token at an index.
fn behind_transaction(tokens: &[Token<'_>], word: usize) -> Option<usize> {
    let next = word.saturating_add(1);
    let body = match kind_at(tokens, next)? {
        Kind::Keyword(Keyword::Attribute) => behind_brackets(tokens, next.saturating_add(1))?,
        Kind::Punctuator(Punctuator::OpenBracket) => behind_brackets(tokens, next)?,
        _ => next,
    };
    behind_brackets(tokens, body)
}

/// Words of a reason, that of the token of a number.
fn found(words: &'static str, number: usize) -> Option<Reason<'static>> {
    Some(Reason {
        words,
        name: "",
        token: Some(number),
    })
}

/// The reason that the token at an index gives, if any.
fn reason_at<'t>(tokens: &[Token<'t>], aim: Aim, number: usize) -> Option<Reason<'t>> {
    match (aim, kind_at(tokens, number)?) {
        (Aim::Unsafe, Kind::Keyword(Keyword::Printf)) => found("prints", number),
        (Aim::Unsafe, Kind::Keyword(Keyword::Relaxed)) => {
            found("begins a relaxed transaction", number)
        }
        (Aim::Shared, Kind::Name(name)) if is_shared(tokens, name, number) => Some(Reason {
            words: "uses ",
            name,
            token: Some(number),
        }),
        _ => None,
    }
}

/// Whether a function is in the list of functions to search.
fn is_looked_at(looked: &[Called<'_>], name: &str) -> bool {
    'looked: for called in looked {
        if called.name == name {
            return true;
        }
    }
    false
}

/// Adds the function that a token calls to the functions to search.
fn add_call<'t, A: Allocator>(
    tokens: &[Token<'t>],
    looked: &mut Vec<Called<'t>, A>,
    caller: usize,
    number: usize,
) -> Result<(), AllocError> {
    if let Some(Kind::Name(name)) = kind_at(tokens, number) {
        let is_call = is_punctuator(kind_behind(tokens, number), Punctuator::OpenParen);
        if is_call && !is_looked_at(looked.as_slice(), name) {
            looked.push(Called {
                name,
                token: number,
                caller,
            })?;
        }
    }
    Ok(())
}

/// Whether a token begins a transaction.
fn begins_transaction(kind: Kind<'_>) -> bool {
    matches!(kind, Kind::Keyword(Keyword::Atomic | Keyword::Relaxed))
}

/// Searches the tokens from one up to another: returns what it finds, or adds the called functions to those
/// to search.
fn look_between<'t, A: Allocator>(
    tokens: &[Token<'t>],
    aim: Aim,
    looked: &mut Vec<Called<'t>, A>,
    caller: usize,
    between: (usize, usize),
) -> Result<Option<Reason<'t>>, AllocError> {
    let (from, to) = between;
    let mut next = from;
    'tokens: for number in from..to.min(tokens.len()) {
        if number < next {
            continue;
        }
        if aim == Aim::Shared && begins_transaction(tokens[number].kind) {
            next = behind_transaction(tokens, number).unwrap_or(to);
            continue;
        }
        let found = reason_at(tokens, aim, number);
        if found.is_some() {
            return Ok(found);
        }
        add_call(tokens, looked, caller, number)?;
    }
    Ok(None)
}

/// Searches a function: returns what it finds, or adds the functions that it calls to those to search.
fn look_into<'t, A: Allocator>(
    tokens: &[Token<'t>],
    aim: Aim,
    looked: &mut Vec<Called<'t>, A>,
    caller: usize,
    name: &str,
) -> Result<Option<Reason<'t>>, AllocError> {
    if aim == Aim::Unsafe && is_marked(tokens, name) {
        return Ok(Some(Reason {
            words: "is marked unsafe",
            name: "",
            token: None,
        }));
    }
    match function(tokens, name) {
        Some((first, end)) => {
            let between = (first.saturating_add(1), end);
            look_between(tokens, aim, looked, caller, between)
        }
        None => Ok(None),
    }
}

/// Adds ` at ` and the place of a token.
fn push_at<A: Allocator + Copy>(
    alloc: A,
    to: &mut String<A>,
    text: &str,
    tokens: &[Token<'_>],
    number: usize,
) -> Result<(), AllocError> {
    to.push_str(" at ")?;
    push_place(alloc, to, text, offset_at(tokens, number))
}

/// Adds the call of a function, after its caller.
fn push_call<A: Allocator + Copy>(
    alloc: A,
    to: &mut String<A>,
    text: &str,
    tokens: &[Token<'_>],
    called: Called<'_>,
) -> Result<(), AllocError> {
    to.push_str(" calls ")?;
    to.push_str(called.name)?;
    push_at(alloc, to, text, tokens, called.token)?;
    to.push_str(", which")
}

/// The number of the caller of one of these functions, so many calls up.
fn caller_up(looked: &[Called<'_>], last: usize, by: usize) -> usize {
    let mut at = last;
    'callers: for _ in 0..by {
        at = looked.get(at).map_or(0, |it| it.caller);
    }
    at
}

/// By how many calls the first of these functions reaches the one at an index.
fn depth(looked: &[Called<'_>], last: usize) -> usize {
    'callers: for by in 0..MOST_FUNCTIONS {
        if caller_up(looked, last, by) == 0 {
            return by;
        }
    }
    MOST_FUNCTIONS
}

/// Adds the calls by which the first of these functions reaches the last one.
fn push_calls<A: Allocator + Copy>(
    alloc: A,
    to: &mut String<A>,
    text: &str,
    tokens: &[Token<'_>],
    looked: &[Called<'_>],
    last: usize,
) -> Result<(), AllocError> {
    'calls: for by in (0..depth(looked, last)).rev() {
        if let Some(called) = looked.get(caller_up(looked, last, by)) {
            push_call(alloc, to, text, tokens, *called)?;
        }
    }
    Ok(())
}

/// Adds what is found in a function, as the end of a line.
fn push_reason<A: Allocator + Copy>(
    alloc: A,
    to: &mut String<A>,
    text: &str,
    tokens: &[Token<'_>],
    reason: Reason<'_>,
) -> Result<(), AllocError> {
    to.push(' ')?;
    to.push_str(reason.words)?;
    to.push_str(reason.name)?;
    if let Some(number) = reason.token {
        push_at(alloc, to, text, tokens, number)?;
    }
    to.push('\n')
}

/// Searches functions, and those that they call, and returns the first find with its function's index.
fn look<'t, A: Allocator>(
    tokens: &[Token<'t>],
    aim: Aim,
    looked: &mut Vec<Called<'t>, A>,
) -> Result<Option<(usize, Reason<'t>)>, AllocError> {
    'functions: for at in 0..MOST_FUNCTIONS {
        let Some(function) = looked.get(at).copied() else {
            return Ok(None);
        };
        if let Some(reason) = look_into(tokens, aim, looked, at, function.name)? {
            return Ok(Some((at, reason)));
        }
    }
    Ok(None)
}

/// Adds the calls by which a function reaches what is searched for, and returns whether it was found.
pub(crate) fn push_path<'t, A: Allocator + Copy>(
    alloc: A,
    to: &mut String<A>,
    text: &str,
    tokens: &[Token<'t>],
    aim: Aim,
    name: &'t str,
) -> Result<bool, AllocError> {
    if text.len() > MOST_BYTES {
        return Ok(false);
    }
    let mut looked = Vec::new(alloc);
    looked.push(Called {
        name,
        token: 0,
        caller: 0,
    })?;
    match look(tokens, aim, &mut looked)? {
        Some((last, reason)) => {
            to.push_str(name)?;
            push_calls(alloc, to, text, tokens, looked.as_slice(), last)?;
            push_reason(alloc, to, text, tokens, reason)?;
            Ok(true)
        }
        None => Ok(false),
    }
}
