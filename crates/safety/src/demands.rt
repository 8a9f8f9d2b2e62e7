//! The demands of safety, in the order of the text.

ghost use Rattle.std.specs.Prelude.{◌≡◌, ◌++◌, ◌||◌, not, map, IfOk};
ghost use Rattle.std.specs.List.{flat_map};
ghost use Rattle.syntax.specs.Tree.{Program};
ghost use Rattle.syntax.specs.Views.{function_of, item_of};
ghost use Rattle.syntax.specs.Typing.{demand, first_unmet};
ghost use Rattle.syntax.specs.Violations.{unmet_in};
ghost use Rattle.safety.specs.Views.{site_of, sites_of_own};
ghost use Rattle.safety.specs.Sets.{set_of};
ghost use Rattle.safety.specs.Faults.{demands_at, function_demands, item_demands};
ghost use Rattle.safety.specs.inner.Unmet.{Judges};
ghost use Rattle.safety.specs.inner.Rest.{rest_of, Claims};

use crate::closure::least;
use crate::links::links_by;
use crate::rules::{OuterFunctions, UnsafeFunctions, safe_links};
use crate::set::FunctionSet;
use crate::site::{Construct, Site};
use crate::stmt::body_sites;
use lex::token::Span;
use std::alloc::{AllocError, Allocator};
use syntax::tree::{Function, Item};
use syntax::violation::{Rule, Violation, unless_met};

/// The rule that a call of a function breaks, inside an atomic transaction or not.
fn fault_of_call<'a, A: Allocator + Copy>(
    not_safe: &FunctionSet<'a, A>,
    outer: &FunctionSet<'a, A>,
    atomic: bool,
    f: &'a str,
    span: Span,
) -> Option<Violation>
    ensures { unmet_in result
        ≡ first_unmet (demand 40 span (not atomic || rest_of (set_of not_safe.now) f.now)
        ++ demand 44 span (not atomic || not (set_of outer.now f.now))) }
{
    let unsafe_call = not_safe.contains(f);
    let opens = outer.contains(f);
    let found = unless_met(!atomic || !unsafe_call, Rule::UnsafeInAtomic, span);
    if found.is_some() {
        return found;
    }
    unless_met(!atomic || !opens, Rule::OuterInAtomic, span)
}

/// The rule that a site breaks, where these functions are not safe, and these lead to an outer transaction.
fn fault_at<'a, A: Allocator + Copy>(
    not_safe: &FunctionSet<'a, A>,
    outer: &FunctionSet<'a, A>,
    site: Site<'a>,
) -> Option<Violation>
    ensures { unmet_in result
        ≡ first_unmet
        (demands_at (rest_of (set_of not_safe.now)) (set_of outer.now) (site_of site.entry)
        (site_of site.entry).construct) }
{
    match site.construct {
        Construct::Prints => unless_met(!site.atomic, Rule::UnsafeInAtomic, site.span),
        Construct::Relaxes => unless_met(!site.atomic, Rule::RelaxedInAtomic, site.span),
        Construct::OpensOuter => unless_met(!site.atomic, Rule::OuterInAtomic, site.span),
        Construct::Cancels => unless_met(site.atomic, Rule::CancelOutsideAtomic, site.span),
        Construct::CancelsOuter => unless_met(site.outer, Rule::CancelOutsideOuter, site.span),
        Construct::Calls(f) => fault_of_call(not_safe, outer, site.atomic, f, site.span),
        Construct::Uses(_) => None,
    }
}

/// The first rule that a site of a body breaks.
fn fault_among<'a, A: Allocator + Copy>(
    not_safe: &FunctionSet<'a, A>,
    outer: &FunctionSet<'a, A>,
    sites: &[Site<'a>],
) -> Option<Violation>
    ensures { unmet_in result
        ≡ first_unmet
        (flat_map (λ s. demands_at (rest_of (set_of not_safe.now)) (set_of outer.now) s s.construct)
        (sites_of_own sites.now)) }
{
    'each: for site in sites {
        let found = fault_at(not_safe, outer, *site);
        if found.is_some() {
            return found;
        }
    }
    None
}

/// The first rule that a declaration of a function breaks, where these functions are declared safe.
fn fault_of_function<'a, A: Allocator + Copy>(
    alloc: A,
    key: u64,
    not_safe: &FunctionSet<'a, A>,
    outer: &FunctionSet<'a, A>,
    claims: &FunctionSet<'a, A>,
    f: &'a Function<A>,
) -> Result<Option<Violation>, AllocError>
    ensures { (p : Program) → Claims p (set_of claims.now) →
        IfOk result
        (λ found. unmet_in found
        ≡ first_unmet (function_demands p (rest_of (set_of not_safe.now)) (set_of outer.now) (function_of f.now))) }
{
    let name = f.name.text.as_str();
    let claimed = claims.contains(name);
    let not_safe_itself = not_safe.contains(name);
    let is_obeyed = f.body.is_none() || !claimed || !not_safe_itself;
    if !is_obeyed {
        return Ok(Some(Violation {
            rule: Rule::NotSafe,
            at: f.name.span,
        }));
    }
    let sites = body_sites(alloc, key, f)?;
    Ok(fault_among(not_safe, outer, sites.as_slice()))
}

/// The first rule that an item breaks.
fn fault_of_item<'a, A: Allocator + Copy>(
    alloc: A,
    key: u64,
    not_safe: &FunctionSet<'a, A>,
    outer: &FunctionSet<'a, A>,
    claims: &FunctionSet<'a, A>,
    item: &'a Item<A>,
) -> Result<Option<Violation>, AllocError>
    ensures { (p : Program) → Claims p (set_of claims.now) →
        IfOk result
        (λ found. unmet_in found
        ≡ first_unmet (item_demands p (rest_of (set_of not_safe.now)) (set_of outer.now) (item_of item.now))) }
{
    match item {
        Item::Function(f) => {
            let found = fault_of_function(alloc, key, not_safe, outer, claims, f)?;
            Ok(found)
        }
        Item::Globals(_) => Ok(None),
    }
}

/// The first rule that one of these items breaks.
fn fault_of_items<'a, A: Allocator + Copy>(
    alloc: A,
    key: u64,
    not_safe: &FunctionSet<'a, A>,
    outer: &FunctionSet<'a, A>,
    claims: &FunctionSet<'a, A>,
    items: &'a [Item<A>],
) -> Result<Option<Violation>, AllocError>
    ensures { (p : Program) → Claims p (set_of claims.now) →
        IfOk result
        (λ found. unmet_in found
        ≡ first_unmet
        (flat_map (item_demands p (rest_of (set_of not_safe.now)) (set_of outer.now)) (map item_of items.now))) }
{
    'each: for item in items {
        let found = fault_of_item(alloc, key, not_safe, outer, claims, item)?;
        if found.is_some() {
            return Ok(found);
        }
    }
    Ok(None)
}

/// The first rule that a program breaks, the hashes of whose names are by this key.
pub(crate) fn fault_of<'a, A: Allocator + Copy>(
    alloc: A,
    key: u64,
    items: &'a [Item<A>],
) -> Result<Option<Violation>, AllocError>
    ensures { IfOk result (λ found. Judges (map item_of items.now) found) }
{
    let links = links_by(alloc, key, &UnsafeFunctions, items)?;
    let not_safe = least(alloc, key, links.as_slice())?;
    let openings = links_by(alloc, key, &OuterFunctions, items)?;
    let outer = least(alloc, key, openings.as_slice())?;
    let declared = safe_links(alloc, items)?;
    let claims = least(alloc, key, declared.as_slice())?;
    let found = fault_of_items(alloc, key, &not_safe, &outer, &claims, items)?;
    Ok(found)
}
