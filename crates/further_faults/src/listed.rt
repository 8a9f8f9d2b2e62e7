//! The faults of a source.

use crate::fault::Fault;
use crate::left_out::LeftOut;
use crate::units::unit_without;
use lex::lex;
use parse::parse;
use safety::checked::Safe;
use safety::safe;
use separation::accept;
use std::alloc::{AllocError, Allocator};
use syntax::tree::Unit;
use syntax::violation::Refused;
use types::{Typed, check};

/// The most faults that are told of a source.
pub const MOST_FAULTS: usize = 20;

/// The most bytes of a source of which more than its first fault is told.
const MOST_BYTES: usize = 65536;

/// What is told of a program that a check refuses.
fn fault_of<T: Drop>(refused: Refused<T>) -> Result<Option<Fault>, AllocError> {
    match refused {
        Refused::OutOfMemory(_) => Err(AllocError),
        Refused::Broken(_, violation) => Ok(Some(Fault {
            number: violation.rule.number(),
            span: violation.at,
        })),
    }
}

/// The fault of a safe program, if it has one.
fn fault_of_safe<A: Allocator + Copy>(
    alloc: A,
    safe: Safe<A>,
) -> Result<Option<Fault>, AllocError> {
    match accept(alloc, safe) {
        Ok(_) => Ok(None),
        Err(refused) => fault_of(refused),
    }
}

/// The first fault of a typed program, if it has one.
fn fault_of_typed<A: Allocator + Copy>(
    alloc: A,
    typed: Typed<A>,
) -> Result<Option<Fault>, AllocError> {
    match safe(alloc, typed) {
        Ok(safe) => fault_of_safe(alloc, safe),
        Err(refused) => fault_of(refused),
    }
}

/// The first fault of a program, if it has one.
fn fault_of_unit<A: Allocator + Copy>(
    alloc: A,
    unit: Unit<A>,
) -> Result<Option<Fault>, AllocError> {
    match check(alloc, unit) {
        Ok(typed) => fault_of_typed(alloc, typed),
        Err(refused) => fault_of(refused),
    }
}

/// Adds the faults of a program one by one, each found without what the ones before it stand in.
fn add_faults<'t, A: Allocator + Copy>(
    alloc: A,
    left: &mut LeftOut<'t, A>,
    unit: &'t Unit<A>,
) -> Result<(), AllocError> {
    'faults: for _ in 0..MOST_FAULTS {
        match fault_of_unit(alloc, unit_without(alloc, left, unit)?)? {
            Some(fault) if !left.has(fault.number, fault.span.start) => left.add(unit, fault)?,
            _ => return Ok(()),
        }
    }
    Ok(())
}

/// The faults of a text's program, in the order of the text.
fn faults_of_unit<A: Allocator + Copy>(
    alloc: A,
    text: &str,
    unit: &Unit<A>,
) -> Result<Vec<Fault, A>, AllocError> {
    let mut left = LeftOut::new(alloc, text);
    add_faults(alloc, &mut left, unit)?;
    let mut found = Vec::new(alloc);
    found.extend_from_slice(left.faults())?;
    found.sort_by_key(|it| it.span.start)?;
    Ok(found)
}

/// The faults of a source that can be told independently of one another, in the order of the text, the first one of the
/// checks among them: at most `MOST_FAULTS`. Of a source that is no program by its grammar, or has more than 65,536
/// bytes, none is told. Takes memory for a copy of the program at a time.
pub fn further_faults<A: Allocator + Copy>(
    alloc: A,
    text: &str,
) -> Result<Vec<Fault, A>, AllocError> {
    if text.len() > MOST_BYTES {
        return Ok(Vec::new(alloc));
    }
    match lex(alloc, text) {
        Ok(tokens) => match parse(alloc, tokens.as_slice()) {
            Ok(unit) => faults_of_unit(alloc, text, &unit),
            Err(_) => Ok(Vec::new(alloc)),
        },
        Err(_) => Ok(Vec::new(alloc)),
    }
}
