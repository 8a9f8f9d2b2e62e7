//! Codes of what is written.

use crate::written::{WrittenCode, WrittenFunction, WrittenVariable};
use bytecode::{Code, FunctionCode, Parts, validate};
use containers::{Items, Text};
use lex::token::{Scalar, Span};
use std::alloc::{AllocError, Allocator};
use syntax::tree::{Global, Initialiser, Name};

/// Parts with nothing in them.
pub fn no_parts<A: Allocator + Copy>(alloc: A) -> Parts<A> {
    Parts {
        functions: Items::new(alloc),
        instructions: Items::new(alloc),
        arguments: Items::new(alloc),
        texts: Items::new(alloc),
        globals: Items::new(alloc),
    }
}

/// Appends a function.
fn push_function<A: Allocator + Copy>(
    alloc: A,
    to: &mut Items<FunctionCode<A>, A>,
    function: &WrittenFunction,
) -> Result<(), AllocError> {
    let name = Text::from_str(alloc, function.name)?;
    to.push(FunctionCode {
        name,
        first: function.first,
        registers: function.registers,
        parameters: function.parameters,
    })
}

/// Appends functions.
fn push_functions<A: Allocator + Copy>(
    alloc: A,
    to: &mut Items<FunctionCode<A>, A>,
    functions: &[WrittenFunction],
) -> Result<(), AllocError> {
    for function in functions {
        push_function(alloc, to, function)?;
    }
    Ok(())
}

/// Appends instructions, or the registers that calls hand over.
pub fn push_each<T: Copy, A: Allocator>(
    to: &mut Items<T, A>,
    each: &[T],
) -> Result<(), AllocError> {
    for item in each {
        to.push(*item)?;
    }
    Ok(())
}

/// Appends a text.
fn push_text<A: Allocator + Copy>(
    alloc: A,
    to: &mut Items<Text<A>, A>,
    text: &str,
) -> Result<(), AllocError> {
    to.push(Text::from_str(alloc, text)?)
}

/// Appends texts.
pub fn push_texts<A: Allocator + Copy>(
    alloc: A,
    to: &mut Items<Text<A>, A>,
    texts: &[&str],
) -> Result<(), AllocError> {
    for text in texts {
        push_text(alloc, to, text)?;
    }
    Ok(())
}

/// What a variable begins with, where that is said.
fn beginning<A: Allocator + Copy>(
    alloc: A,
    value: Option<u32>,
) -> Result<Items<Initialiser, A>, AllocError> {
    let mut all = Items::new(alloc);
    if let Some(value) = value {
        all.push(Initialiser {
            negative: false,
            value: u64::from(value),
            ty: Scalar::Int,
            span: Span { start: 0, end: 0 },
        })?;
    }
    Ok(all)
}

/// Appends a variable.
fn push_variable<A: Allocator + Copy>(
    alloc: A,
    to: &mut Items<Global<A>, A>,
    variable: &WrittenVariable,
) -> Result<(), AllocError> {
    let first = beginning(alloc, variable.value)?;
    let text = Text::from_str(alloc, variable.name)?;
    to.push(Global {
        ty: variable.ty,
        name: Name {
            text,
            span: Span { start: 0, end: 0 },
        },
        length: None,
        first,
    })
}

/// Appends variables.
fn push_variables<A: Allocator + Copy>(
    alloc: A,
    to: &mut Items<Global<A>, A>,
    variables: &[WrittenVariable],
) -> Result<(), AllocError> {
    for variable in variables {
        push_variable(alloc, to, variable)?;
    }
    Ok(())
}

/// Appends what has a name and what is printed.
fn push_names<A: Allocator + Copy>(
    alloc: A,
    parts: &mut Parts<A>,
    written: &WrittenCode,
) -> Result<(), AllocError> {
    push_functions(alloc, &mut parts.functions, written.functions)?;
    push_texts(alloc, &mut parts.texts, written.texts)?;
    push_variables(alloc, &mut parts.globals, written.variables)
}

/// Appends the instructions, and the registers that calls hand over.
fn push_instructions<A: Allocator>(
    parts: &mut Parts<A>,
    written: &WrittenCode,
) -> Result<(), AllocError> {
    push_each(&mut parts.instructions, written.instructions)?;
    push_each(&mut parts.arguments, written.arguments)
}

/// Appends all.
fn fill<A: Allocator + Copy>(
    alloc: A,
    parts: &mut Parts<A>,
    written: &WrittenCode,
) -> Result<(), AllocError> {
    push_names(alloc, parts, written)?;
    push_instructions(parts, written)
}

/// The parts of a code.
fn parts_of<A: Allocator + Copy>(alloc: A, written: &WrittenCode) -> Option<Parts<A>> {
    let mut parts = no_parts(alloc);
    match fill(alloc, &mut parts, written) {
        Ok(()) => Some(parts),
        Err(_) => None,
    }
}

/// The code that is written so, if it is valid and memory is there.
pub fn code_of<A: Allocator + Copy>(alloc: A, written: &WrittenCode) -> Option<Code<A>> {
    match parts_of(alloc, written) {
        Some(parts) => match validate(alloc, parts) {
            Ok(found) => found,
            Err(_) => None,
        },
        None => None,
    }
}
