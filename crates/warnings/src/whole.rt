//! The facts about a whole program.

use crate::action::{Action, Part};
use crate::body::{add_parameters, add_part};
use crate::codes::{Code, Codes};
use crate::contexts::{Context, contexts_of};
use crate::effects::{Effect, effects_of};
use crate::facts::Given;
use crate::flow::all_complete;
use crate::globals::{Held, held_by};
use crate::known::{Body, FileNames, file_names};
use crate::returned::{Returned, returned_by};
use crate::warning::{Warning, WarningKind};
use containers::Items;
use safety::{Construct, FunctionSet, Link, Site, body_sites, least};
use std::alloc::{AllocError, Allocator};
use syntax::tree::{Function, Item, Stmt, Unit};

/// A program: what its functions do, and what follows from their calls. Lists are by the number of a function, or of a
/// name of the file.
#[derive(Drop)]
pub(crate) struct Whole<'a, A: Allocator + Copy> {
    pub(crate) file: FileNames<'a, A>,
    pub(crate) codes: Codes<'a, A>,
    pub(crate) effects: Vec<Effect<A>, A>,
    pub(crate) held: Vec<Held, A>,
    pub(crate) returned: Vec<Returned<'a>, A>,
    pub(crate) contexts: Vec<Context<A>, A>,
    /// The functions that may run outside of transactions: `worker`, and each that one of them calls in no transaction.
    pub(crate) outside: FunctionSet<'a, A>,
    /// The functions that a thread may run.
    pub(crate) reached: FunctionSet<'a, A>,
}

impl<'a, A: Allocator + Copy> Whole<'a, A> {
    /// What a global can hold.
    pub(crate) fn held_of(&self, global: &str) -> Option<Held> {
        match self.file.index_of(global) {
            Some(number) => self.held.get(number).copied(),
            None => None,
        }
    }

    /// Which parameters of a function are the thread's own number.
    pub(crate) fn own_of(&self, number: usize) -> &[bool] {
        match self.contexts.get(number) {
            Some(context) => context.own.as_slice(),
            None => &[],
        }
    }
}

/// Links by which a function is in a set with its caller.
#[derive(Drop)]
struct Links<'a, A: Allocator> {
    outside: Items<Link<'a>, A>,
    reached: Items<Link<'a>, A>,
}

/// Adds the links of the functions that are called at these sites of a function.
fn add_links<'a, A: Allocator + Copy>(
    links: &mut Links<'a, A>,
    caller: &'a str,
    sites: &[Site<'a>],
) -> Result<(), AllocError> {
    'sites: for site in sites {
        if let Construct::Calls(called) = site.construct {
            links.reached.push(Link::call(called, caller))?;
            if !site.in_any {
                links.outside.push(Link::call(called, caller))?;
            }
        }
    }
    Ok(())
}

/// The links of a program's functions, of which `worker` is in each set.
fn links_of<'a, A: Allocator + Copy>(
    alloc: A,
    key: u64,
    items: &'a [Item<A>],
) -> Result<Links<'a, A>, AllocError> {
    let mut links = Links {
        outside: Items::new(alloc),
        reached: Items::new(alloc),
    };
    links.outside.push(Link::member("worker"))?;
    links.reached.push(Link::member("worker"))?;
    'items: for item in items {
        if let Item::Function(f) = item {
            let sites = body_sites(alloc, key, f)?;
            add_links(&mut links, f.name.text.as_str(), sites.as_slice())?;
        }
    }
    Ok(links)
}

/// The actions of a function. Adds the warnings about its text.
fn code_of<'a, A: Allocator + Copy>(
    alloc: A,
    key: u64,
    file: &FileNames<'a, A>,
    found: &mut Vec<Warning, A>,
    f: &'a Function<A>,
    stmts: &'a [Stmt<A>],
) -> Result<Code<'a, A>, AllocError> {
    let mut body = Body::new(alloc, key);
    add_parameters(&mut body, f.parameters.as_slice())?;
    add_part(file, &mut body, Part::Block, stmts)?;
    if f.result.is_some() && all_complete(stmts) {
        found.push(Warning::at(WarningKind::MissingReturn, f.name.span))?;
        body.add(Action::Returns(Given::Zero))?;
    }
    found.extend_from_slice(body.found.as_slice())?;
    let Body {
        locals: _,
        actions,
        found: _,
    } = body;
    Ok(Code {
        name: f.name.text.as_str(),
        parameters: f.parameters.len(),
        actions,
    })
}

/// The actions of a program's functions. Adds the warnings about their text.
fn codes_of<'a, A: Allocator + Copy>(
    alloc: A,
    key: u64,
    file: &FileNames<'a, A>,
    found: &mut Vec<Warning, A>,
    items: &'a [Item<A>],
) -> Result<Codes<'a, A>, AllocError> {
    let mut codes = Codes::new(alloc, key);
    'items: for item in items {
        if let Item::Function(f) = item {
            if let Some(stmts) = &f.body {
                let code = code_of(alloc, key, file, found, f, stmts.as_slice())?;
                codes.add(code)?;
            }
        }
    }
    codes.set_order(alloc)?;
    Ok(codes)
}

/// The facts about a whole program. Adds the warnings about the text of its functions. Takes memory for the actions of
/// all of them.
pub(crate) fn whole_of<'a, A: Allocator + Copy>(
    alloc: A,
    unit: &'a Unit<A>,
    found: &mut Vec<Warning, A>,
) -> Result<Whole<'a, A>, AllocError> {
    let items = unit.items.as_slice();
    let file = file_names(alloc, unit.key, items)?;
    let codes = codes_of(alloc, unit.key, &file, found, items)?;
    let effects = effects_of(alloc, &file, &codes)?;
    let contexts = contexts_of(alloc, &codes)?;
    let held = held_by(alloc, &file, items, &codes, contexts.as_slice())?;
    let returned = returned_by(alloc, &codes)?;
    let links = links_of(alloc, unit.key, items)?;
    let outside = least(alloc, unit.key, links.outside.as_slice())?;
    let reached = least(alloc, unit.key, links.reached.as_slice())?;
    Ok(Whole {
        file,
        codes,
        effects,
        held,
        returned,
        contexts,
        outside,
        reached,
    })
}
