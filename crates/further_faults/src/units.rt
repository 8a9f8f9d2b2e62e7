//! Programs without what is left out.

use crate::left_out::{DECLARED_TWICE, LeftOut};
use crate::statements::stmts_without;
use containers::{Copied, Items, Text};
use lex::token::{Scalar, Span};
use std::alloc::{AllocError, Allocator};
use syntax::tree::{Attribute, Function, Global, Item, Name, Parameter, Stmt, Unit};

/// The fault of a function that is not defined.
const NOT_DEFINED: u32 = 29;

/// The fault of a function that is declared safe, and is not.
const NOT_SAFE: u32 = 43;

/// The globals of one declaration, but for those that are left out.
fn globals_without<A: Allocator + Copy>(
    alloc: A,
    left: &LeftOut<'_, A>,
    all: &[Global<A>],
) -> Result<Items<Global<A>, A>, AllocError> {
    let mut kept = Items::new(alloc);
    'each: for one in all {
        if !left.has_global(one) {
            kept.push(one.copy(alloc)?)?;
        }
    }
    Ok(kept)
}

/// Whether a function is left out as a whole.
fn is_function_out<A: Allocator + Copy>(left: &LeftOut<'_, A>, f: &Function<A>) -> bool {
    let is_worker = f.name.text.as_str() == "worker";
    let is_undefined = f.body.is_none() && left.is_unknown(f.name.text.as_str().as_bytes());
    left.has_function(f) || is_undefined || is_worker && left.has_no_worker()
}

/// A parameter, without its name where that is declared twice.
fn parameter_without<A: Allocator + Copy>(
    alloc: A,
    left: &LeftOut<'_, A>,
    one: &Parameter<A>,
) -> Result<Parameter<A>, AllocError> {
    match &one.name {
        Some(name) if left.has(DECLARED_TWICE, name.span.start) => Ok(Parameter {
            ty: one.ty,
            name: None,
        }),
        _ => one.copy(alloc),
    }
}

/// Parameters in their order.
fn parameters_without<A: Allocator + Copy>(
    alloc: A,
    left: &LeftOut<'_, A>,
    all: &[Parameter<A>],
) -> Result<Items<Parameter<A>, A>, AllocError> {
    let mut kept = Items::new(alloc);
    'each: for one in all {
        kept.push(parameter_without(alloc, left, one)?)?;
    }
    Ok(kept)
}

/// What is said of a function's safety; nothing where it is not so.
fn attributes_without<A: Allocator + Copy>(
    alloc: A,
    left: &LeftOut<'_, A>,
    f: &Function<A>,
) -> Result<Items<Attribute, A>, AllocError> {
    if left.is_named(NOT_SAFE, f.name.text.as_str()) {
        Ok(Items::new(alloc))
    } else {
        f.attributes.copy(alloc)
    }
}

/// A function's body: no statement where it is not defined.
fn body_without<A: Allocator + Copy>(
    alloc: A,
    left: &LeftOut<'_, A>,
    f: &Function<A>,
) -> Result<Option<Items<Stmt<A>, A>>, AllocError> {
    match &f.body {
        Some(body) => Ok(Some(stmts_without(alloc, left, body.as_slice())?)),
        None if left.has(NOT_DEFINED, f.name.span.start) => Ok(Some(Items::new(alloc))),
        None => Ok(None),
    }
}

/// A function.
fn function_without<A: Allocator + Copy>(
    alloc: A,
    left: &LeftOut<'_, A>,
    f: &Function<A>,
) -> Result<Function<A>, AllocError> {
    let attributes = attributes_without(alloc, left, f)?;
    let name = f.name.copy(alloc)?;
    let parameters = parameters_without(alloc, left, f.parameters.as_slice())?;
    let body = body_without(alloc, left, f)?;
    Ok(Function {
        attributes,
        result: f.result,
        name,
        parameters,
        body,
    })
}

/// A `worker` that does nothing.
fn idle_worker<A: Allocator + Copy>(alloc: A) -> Result<Function<A>, AllocError> {
    let mut parameters = Items::new(alloc);
    parameters.push(Parameter {
        ty: Scalar::Int,
        name: None,
    })?;
    let text = Text::from_str(alloc, "worker")?;
    let span = Span { start: 0, end: 0 };
    Ok(Function {
        attributes: Items::new(alloc),
        result: None,
        name: Name { text, span },
        parameters,
        body: Some(Items::new(alloc)),
    })
}

/// Adds an item, where it is not left out.
fn add_item<A: Allocator + Copy>(
    alloc: A,
    left: &LeftOut<'_, A>,
    kept: &mut Items<Item<A>, A>,
    item: &Item<A>,
) -> Result<(), AllocError> {
    match item {
        Item::Function(f) if is_function_out(left, f) => Ok(()),
        Item::Function(f) => kept.push(Item::Function(function_without(alloc, left, f)?)),
        Item::Globals(all) => {
            kept.push(Item::Globals(globals_without(alloc, left, all.as_slice())?))
        }
    }
}

/// A program.
pub(crate) fn unit_without<A: Allocator + Copy>(
    alloc: A,
    left: &LeftOut<'_, A>,
    unit: &Unit<A>,
) -> Result<Unit<A>, AllocError> {
    let mut items = Items::new(alloc);
    'each: for item in &unit.items {
        add_item(alloc, left, &mut items, item)?;
    }
    if left.has_no_worker() {
        items.push(Item::Function(idle_worker(alloc)?))?;
    }
    Ok(Unit {
        items,
        end: unit.end,
        key: unit.key,
    })
}
