//! The stages that a text goes through until its program is accepted, and its first fault in each of them.

use lex::lex;
use lex::token::{Span, Token};
use parse::parse;
use safety::checked::Safe;
use safety::safe;
use separation::accept;
use std::alloc::Global;
use syntax::tree::Unit;
use test_programs::{safe_of, typed_of, unit_of};
use types::{Typed, check};

/// A stage that finds faults.
#[derive(Clone, Copy)]
pub enum Stage {
    Parse,
    Types,
    Safety,
    Separation,
}

/// A fault's number and place.
pub type Fault = (u32, Option<Span>);

/// The fault of tokens.
fn parse_fault_in(alloc: Global, tokens: &[Token]) -> Option<Fault> {
    match parse(alloc, tokens) {
        Ok(_) => None,
        Err(fault) => Some((fault.number(), fault.span())),
    }
}

/// The parser's fault of a text. One that has no tokens has the number 1.
fn parse_fault_of(alloc: Global, text: &str) -> Option<Fault> {
    match lex(alloc, text) {
        Err(_) => Some((1, None)),
        Ok(tokens) => parse_fault_in(alloc, tokens.as_slice()),
    }
}

/// The fault of a tree.
fn type_fault_in(alloc: Global, unit: Unit) -> Option<Fault> {
    match check(alloc, unit) {
        Ok(_) => None,
        Err(fault) => Some((fault.number(), fault.span())),
    }
}

/// A text's fault of names and types. One that is no program has the number 1.
fn type_fault_of(alloc: Global, text: &str) -> Option<Fault> {
    match unit_of(alloc, text) {
        None => Some((1, None)),
        Some(unit) => type_fault_in(alloc, unit),
    }
}

/// The fault of a typed program.
fn safety_fault_in(alloc: Global, typed: Typed) -> Option<Fault> {
    match safe(alloc, typed) {
        Ok(_) => None,
        Err(fault) => Some((fault.number(), fault.span())),
    }
}

/// A text's fault of safety. One that is no typed program has the number 1.
fn safety_fault_of(alloc: Global, text: &str) -> Option<Fault> {
    match typed_of(alloc, text) {
        None => Some((1, None)),
        Some(typed) => safety_fault_in(alloc, typed),
    }
}

/// The fault of a safe program.
fn separation_fault_in(alloc: Global, safe: Safe) -> Option<Fault> {
    match accept(alloc, safe) {
        Ok(_) => None,
        Err(fault) => Some((fault.number(), fault.span())),
    }
}

/// A text's fault of separation. One that is no safe program has the number 1.
fn separation_fault_of(alloc: Global, text: &str) -> Option<Fault> {
    match safe_of(alloc, text) {
        None => Some((1, None)),
        Some(safe) => separation_fault_in(alloc, safe),
    }
}

/// The number and the place of a text's fault in a stage. One that does not come so far has the number 1.
pub fn fault_of(alloc: Global, stage: Stage, text: &str) -> Option<Fault> {
    match stage {
        Stage::Parse => parse_fault_of(alloc, text),
        Stage::Types => type_fault_of(alloc, text),
        Stage::Safety => safety_fault_of(alloc, text),
        Stage::Separation => separation_fault_of(alloc, text),
    }
}

/// A source, its fault's number, and the bytes that it names.
pub type Row = (&'static str, u32, usize, usize);

/// The first source that has another fault in a stage than its row tells, or none.
pub fn has_another(alloc: Global, stage: Stage, rows: &[Row]) -> Option<&'static str> {
    for row in rows {
        let (text, number, start, end) = *row;
        if fault_of(alloc, stage, text) != Some((number, Some(Span { start, end }))) {
            return Some(text);
        }
    }
    None
}

/// The first of these sources that has a fault in a stage.
pub fn faulty(alloc: Global, stage: Stage, texts: &[&'static str]) -> Option<&'static str> {
    for text in texts {
        if fault_of(alloc, stage, text).is_some() {
            return Some(*text);
        }
    }
    None
}
