//! The demands of separation, in the order of the text.

ghost use Rattle.std.specs.Prelude.{◌≡◌, codes, map, IfOk};
ghost use Rattle.syntax.specs.Views.{item_of};
ghost use Rattle.syntax.specs.Typing.{first_unmet};
ghost use Rattle.syntax.specs.Violations.{unmet_in};
ghost use Rattle.safety.specs.Sites.{sites_of};
ghost use Rattle.safety.specs.Views.{site_of, sites_of_own};
ghost use Rattle.safety.specs.Sets.{set_of};
ghost use Rattle.separation.specs.Touching.{demands_at, separation_demands};
ghost use Rattle.separation.specs.inner.Unmet.{Judges};
ghost use Rattle.separation.specs.inner.OwnSites.{own_sites};

use crate::links::TouchingFunctions;
use safety::{Construct, FunctionSet, Site, body_sites, least, links_by};
use std::alloc::{AllocError, Allocator};
use syntax::tree::Item;
use syntax::violation::{Rule, Violation, unless_met};

/// The rule that a site breaks, where these functions touch.
fn fault_at<'a, A: Allocator + Copy>(
    touching: &FunctionSet<'a, A>,
    site: Site<'a>,
) -> Option<Violation>
    ensures { unmet_in result
        ≡ first_unmet (demands_at (set_of touching.now) (site_of site.entry) (site_of site.entry).construct) }
{
    match site.construct {
        Construct::Uses(_) => unless_met(site.in_any, Rule::BareAccess, site.span),
        Construct::Calls(f) => {
            let touches = touching.contains(f);
            unless_met(site.in_any || !touches, Rule::BareCall, site.span)
        }
        Construct::Prints
        | Construct::Relaxes
        | Construct::OpensOuter
        | Construct::Cancels
        | Construct::CancelsOuter => None,
    }
}

/// The first rule that one of these sites breaks.
fn fault_among<'a, A: Allocator + Copy>(
    touching: &FunctionSet<'a, A>,
    sites: &[Site<'a>],
) -> Option<Violation>
    ensures { unmet_in result ≡ first_unmet (separation_demands (set_of touching.now) (sites_of_own sites.now)) }
{
    'each: for site in sites {
        let found = fault_at(touching, *site);
        if found.is_some() {
            return found;
        }
    }
    None
}

/// The first rule that an item breaks, where it declares `worker`.
fn fault_of_item<'a, A: Allocator + Copy>(
    alloc: A,
    key: u64,
    touching: &FunctionSet<'a, A>,
    item: &'a Item<A>,
) -> Result<Option<Violation>, AllocError>
    ensures { IfOk result
        (λ found. unmet_in found
        ≡ first_unmet (separation_demands (set_of touching.now) (own_sites (item_of item.now) (codes "worker")))) }
{
    match item {
        Item::Function(f) => {
            if f.name.text.as_str() != "worker" {
                return Ok(None);
            }
            let sites = body_sites(alloc, key, f)?;
            Ok(fault_among(touching, sites.as_slice()))
        }
        Item::Globals(_) => Ok(None),
    }
}

/// The first rule that one of these items breaks.
fn fault_of_items<'a, A: Allocator + Copy>(
    alloc: A,
    key: u64,
    touching: &FunctionSet<'a, A>,
    items: &'a [Item<A>],
) -> Result<Option<Violation>, AllocError>
    ensures { IfOk result
        (λ found. unmet_in found
        ≡ first_unmet (separation_demands (set_of touching.now) (sites_of (map item_of items.now) (codes "worker")))) }
{
    'each: for item in items {
        let found = fault_of_item(alloc, key, touching, item)?;
        if found.is_some() {
            return Ok(found);
        }
    }
    Ok(None)
}

/// The first rule that a program breaks, the hashes of whose names are by this key.
pub(crate) fn fault_of<'a, A: Allocator + Copy>(
    alloc: A,
    key: u64,
    items: &'a [Item<A>],
) -> Result<Option<Violation>, AllocError>
    ensures { IfOk result (λ found. Judges (map item_of items.now) found) }
{
    let links = links_by(alloc, key, &TouchingFunctions, items)?;
    let touching = least(alloc, key, links.as_slice())?;
    let found = fault_of_items(alloc, key, &touching, items)?;
    Ok(found)
}
