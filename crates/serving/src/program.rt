//! From a source's text to its accepted program and to the code of that; why a source is refused.

ghost use Rattle.std.specs.Prelude.{◌≡◌, IfOk, IfErr};
ghost use Rattle.parse.specs.Faults.{source_of};
ghost use Rattle.serving.specs.Checks.{IsSourceOf};
ghost use Rattle.serving.specs.Refusals.{IsFaultOfSource, number_of_source, span_of_source};
ghost use Rattle.syntax.specs.Views.{program_of};
ghost use Rattle.serving.specs.Codes.{IsCodeOf};
ghost use Rattle.serving.specs.Limits.{IsFaultOfText};

use bytecode::Code;
use lex::token::Span;
use lex::{LexFault, lex};
use lower::{LowerFault, lower};
use parse::{ParseFault, parse};
use safety::checked::Safe;
use safety::safe;
use separation::{Accepted, accept};
use std::alloc::{Allocator, Global};
use syntax::tree::Unit;
use syntax::violation::{Refused, Violation};
use thiserror::Error;
use types::{Typed, check};

/// Why a source is refused.
#[derive(Clone, Copy, Debug, Error)]
pub enum SourceFault {
    /// An allocation failed. This says nothing about the source.
    #[error("out of memory")]
    OutOfMemory,
    #[error("{0}")]
    Lex(LexFault),
    #[error("{0}")]
    Parse(ParseFault),
    /// A rule of names and types, of safety or of separation.
    #[error("{0}")]
    Broken(Violation),
    #[error("{0}")]
    NoCode(LowerFault),
}

impl SourceFault {
    /// The fault's number: 0 after an allocation failure, and otherwise that of the phase that found it.
    pub fn number(&self) -> u32
        ensures { result ≡ number_of_source self.now }
    {
        match self {
            SourceFault::OutOfMemory => 0,
            SourceFault::Lex(fault) => fault.number(),
            SourceFault::Parse(fault) => fault.number(),
            SourceFault::Broken(violation) => violation.rule.number(),
            SourceFault::NoCode(fault) => fault.number(),
        }
    }

    /// Where the fault is in the text. An allocation failure has no place.
    pub fn span(&self) -> Option<Span>
        ensures { result ≡ span_of_source self.now }
    {
        match self {
            SourceFault::OutOfMemory => None,
            SourceFault::Lex(fault) => fault.span(),
            SourceFault::Parse(fault) => fault.span(),
            SourceFault::Broken(violation) => Some(violation.at),
            SourceFault::NoCode(fault) => fault.span(),
        }
    }
}

/// The program that a text spells.
fn read<A: Allocator + Copy>(alloc: A, text: &str) -> Result<Unit<A>, SourceFault>
    ensures ok { IfOk result (λ u. IsSourceOf text.now (source_of u)) }
    ensures err { IfErr result (λ f. IsFaultOfSource text.now f) }
{
    match lex(alloc, text) {
        Ok(tokens) => match parse(alloc, tokens.as_slice()) {
            Ok(unit) => Ok(unit),
            Err(fault) => Err(SourceFault::Parse(fault)),
        },
        Err(fault) => Err(SourceFault::Lex(fault)),
    }
}

/// The typed program that a text spells.
fn read_typed<A: Allocator + Copy>(alloc: A, text: &str) -> Result<Typed<A>, SourceFault>
    ensures ok { IfOk result (λ t. IsSourceOf text.now (source_of t.unit)) }
    ensures err { IfErr result (λ f. IsFaultOfSource text.now f) }
{
    match check(alloc, read(alloc, text)?) {
        Ok(typed) => Ok(typed),
        Err(Refused::OutOfMemory(_)) => Err(SourceFault::OutOfMemory),
        Err(Refused::Broken(_, violation)) => Err(SourceFault::Broken(violation)),
    }
}

/// The safe program that a text spells.
fn read_safe<A: Allocator + Copy>(alloc: A, text: &str) -> Result<Safe<A>, SourceFault>
    ensures ok { IfOk result (λ s. IsSourceOf text.now (source_of s.typed.unit)) }
    ensures err { IfErr result (λ f. IsFaultOfSource text.now f) }
{
    match safe(alloc, read_typed(alloc, text)?) {
        Ok(safe) => Ok(safe),
        Err(Refused::OutOfMemory(_)) => Err(SourceFault::OutOfMemory),
        Err(Refused::Broken(_, violation)) => Err(SourceFault::Broken(violation)),
    }
}

/// The accepted program that a text spells.
pub(crate) fn read_accepted<A: Allocator + Copy>(
    alloc: A,
    text: &str,
) -> Result<Accepted<A>, SourceFault>
    ensures ok { IfOk result (λ a. IsSourceOf text.now (source_of a.safe.typed.unit)) }
    ensures err { IfErr result (λ f. IsFaultOfSource text.now f) }
{
    match accept(alloc, read_safe(alloc, text)?) {
        Ok(accepted) => Ok(accepted),
        Err(Refused::OutOfMemory(_)) => Err(SourceFault::OutOfMemory),
        Err(Refused::Broken(_, violation)) => Err(SourceFault::Broken(violation)),
    }
}

/// An accepted program and its code.
#[derive(Drop)]
pub struct Compiled<A: Allocator = Global> {
    pub accepted: Accepted<A>,
    pub code: Code<A>,
}

/// The accepted program that a text spells, with its code.
pub fn compile<A: Allocator + Copy>(alloc: A, text: &str) -> Result<Compiled<A>, SourceFault>
    ensures source { IfOk result (λ c. IsSourceOf text.now (source_of c.accepted.safe.typed.unit)) }
    ensures code { IfOk result (λ c. IsCodeOf (program_of c.accepted.safe.typed.unit) c.code) }
    ensures err { IfErr result (λ f. IsFaultOfText text.now f) }
{
    let accepted = read_accepted(alloc, text)?;
    match lower(alloc, &accepted) {
        Ok(code) => Ok(Compiled { accepted, code }),
        Err(fault) => Err(SourceFault::NoCode(fault)),
    }
}

/// The tree of an accepted program.
pub(crate) fn unit_of<A: Allocator>(accepted: &Accepted<A>) -> &Unit<A>
    ensures { result.now ≡ accepted.now.safe.typed.unit }
{
    accepted.safe().typed().unit()
}
