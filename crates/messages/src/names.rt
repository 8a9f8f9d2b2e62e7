//! Hints for names: unknown ones, those declared twice or with another type, calls, and the worker.

use crate::foreign::{of_beginning, of_unknown};
use crate::lines::Line;
use crate::near::is_near;
use crate::tokens::{
    declared, is_punctuator, is_type, kind_at, kind_before, kind_behind, last_declaration,
    next_declaration, offset_at, parts,
};
use crate::unexpected::near_word;
use lex::token::{Keyword, Kind, Punctuator, Token};
use std::alloc::{AllocError, Allocator};

/// A name of the source that is similar to this one.
fn near_name<'t, A: Allocator + Copy>(
    alloc: A,
    tokens: &[Token<'t>],
    unknown: &str,
) -> Result<Option<Line<'t>>, AllocError> {
    'tokens: for (number, token) in tokens.iter().enumerate() {
        if let Kind::Name(name) = token.kind {
            let before = kind_before(tokens, number);
            let may_declare = is_type(before) || is_punctuator(before, Punctuator::Comma);
            if may_declare && is_near(alloc, unknown, name)? {
                return Ok(Some(Line::Named("a similar name is ", name)));
            }
        }
    }
    Ok(None)
}

/// The hint for an unknown name: a similar name or keyword, or that there is none.
fn near<'t, A: Allocator + Copy>(
    alloc: A,
    tokens: &[Token<'t>],
    unknown: &str,
    number: usize,
) -> Result<Line<'t>, AllocError> {
    let kind = kind_at(tokens, number);
    let near = match near_name(alloc, tokens, unknown)? {
        Some(line) => Some(line),
        None => near_word(alloc, tokens, kind)?,
    };
    Ok(match (near, of_beginning(tokens, kind)) {
        (Some(line), _) => line,
        (None, Some(words)) => Line::Words(words),
        (None, None) => Line::Words("it is not declared anywhere"),
    })
}

/// The hint for an unknown name that is declared elsewhere.
fn declared_elsewhere(tokens: &[Token<'_>], unknown: &str, number: usize) -> Option<Line<'static>> {
    if next_declaration(tokens, unknown, number).is_some() {
        return Some(Line::Words(
            "it is declared further down: a name must be declared before it is used",
        ));
    }
    let last = last_declaration(tokens, unknown, number)?;
    Some(Line::Placed(
        "it is declared in a block that has ended, at ",
        offset_at(tokens, last),
    ))
}

/// The hint for an unknown name: which one was probably meant.
pub(crate) fn of_name<'t, A: Allocator + Copy>(
    alloc: A,
    tokens: &[Token<'t>],
    unknown: &str,
    number: usize,
) -> Result<Line<'t>, AllocError> {
    if let Some(words) = of_unknown(unknown) {
        return Ok(Line::Words(words));
    }
    match declared_elsewhere(tokens, unknown, number) {
        Some(line) => Ok(line),
        None => near(alloc, tokens, unknown, number),
    }
}

/// These words and the place where a name is declared.
pub(crate) fn of_declared(
    tokens: &[Token<'_>],
    name: &str,
    number: usize,
    words: &'static str,
) -> Option<Line<'static>> {
    let first = declared(tokens, name, number)?;
    Some(Line::Placed(words, offset_at(tokens, first)))
}

/// The hint for a call: how many parameters its function has and how many arguments are given.
pub(crate) fn of_call(tokens: &[Token<'_>], name: &str, number: usize) -> Option<Line<'static>> {
    let first = declared(tokens, name, number)?;
    let wanted = parts(tokens, first.saturating_add(1))?;
    let given = parts(tokens, number.saturating_add(1))?;
    Some(Line::Counted((wanted, "parameter"), (given, "argument")))
}

/// The form in which a name is declared or used, by what follows it.
#[derive(Clone, Copy)]
enum Form {
    /// A function, a call.
    Function,
    /// An array, an element of it.
    Array,
    /// Anything else.
    Plain,
}

/// The form in which a name, the token at an index, is declared or used.
fn form_at(tokens: &[Token<'_>], number: usize) -> Form {
    match kind_behind(tokens, number) {
        Some(Kind::Punctuator(Punctuator::OpenParen)) => Form::Function,
        Some(Kind::Punctuator(Punctuator::OpenBracket)) => Form::Array,
        _ => Form::Plain,
    }
}

/// The hint for a name that is declared as one thing, and used as another.
fn of_forms(declared: Form, used: Form) -> Option<&'static str> {
    match (declared, used) {
        (Form::Function, Form::Plain) => Some("it is a function: its name is not a value"),
        (Form::Function | Form::Plain, Form::Array) => Some("it is not an array"),
        (Form::Array | Form::Plain, Form::Function) => Some("it is not a function"),
        (Form::Array, _) => Some("it is an array: write an index after its name"),
        _ => None,
    }
}

/// The hint for a name of a wrong type: what it is.
fn of_typed_name(tokens: &[Token<'_>], name: &str, number: usize) -> Option<Line<'static>> {
    if is_type(kind_before(tokens, number)) {
        let words = "it is declared with different types at ";
        return of_declared(tokens, name, number, words);
    }
    let first = declared(tokens, name, number)?;
    let (declared, used) = (form_at(tokens, first), form_at(tokens, number));
    match (of_forms(declared, used), kind_before(tokens, first)) {
        (Some(words), _) => Some(Line::Words(words)),
        (None, Some(Kind::Keyword(Keyword::Void))) => Some(Line::Words(
            "it is a void function and returns no value",
        )),
        (None, _) => None,
    }
}

/// The hint for something of a wrong type, by its first token.
pub(crate) fn of_type(tokens: &[Token<'_>], number: usize) -> Option<Line<'static>> {
    let is_bare = is_punctuator(kind_behind(tokens, number), Punctuator::Semicolon);
    match kind_at(tokens, number)? {
        Kind::Keyword(Keyword::Return) if is_bare => Some(Line::Words(
            "the function returns a value: write it after return",
        )),
        Kind::Keyword(Keyword::Return) => Some(Line::Words(
            "a void function returns no value: write return;",
        )),
        Kind::Name(name) => of_typed_name(tokens, name, number),
        _ => None,
    }
}

/// The hint for a function that was probably meant to be the worker.
pub(crate) fn near_worker<A: Allocator + Copy>(
    alloc: A,
    tokens: &[Token<'_>],
) -> Result<Option<Line<'static>>, AllocError> {
    'tokens: for (number, token) in tokens.iter().enumerate() {
        if let Kind::Name(name) = token.kind {
            let is_function = is_type(kind_before(tokens, number))
                && is_punctuator(kind_behind(tokens, number), Punctuator::OpenParen);
            if is_function && name == "worker" {
                let words = "worker has a different type at ";
                return Ok(Some(Line::Placed(words, token.span.start)));
            }
            if is_function && is_near(alloc, name, "worker")? {
                let words = "worker may be misspelt at ";
                return Ok(Some(Line::Placed(words, token.span.start)));
            }
        }
    }
    Ok(None)
}

/// The hint for a program without a worker.
pub(crate) fn of_worker(tokens: &[Token<'_>]) -> &'static str {
    match next_declaration(tokens, "main", 0) {
        Some(_) => "there is no main: thread T runs worker(T), defined as void worker(int self)",
        None => "thread T runs worker(T), defined as void worker(int self)",
    }
}
