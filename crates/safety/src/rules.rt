//! The rules by which functions are unsafe, and lead to an outer transaction; and the functions that are declared safe.

ghost use Rattle.std.specs.Prelude.{◌≡◌, ◌++◌, map, OnOk, IfOk};
ghost use Rattle.syntax.specs.Views.{item_of};
ghost use Rattle.safety.specs.Faults.{says_safe};
ghost use Rattle.safety.specs.Sets.{links_of};
ghost use Rattle.safety.specs.inner.UnsafeLinks.{says_unsafe, unsafe_at, safe_links_of, safe_links};
ghost use Rattle.safety.specs.inner.OuterLinks.{opening_at};
ghost use Rattle.safety.specs.inner.SiteLinks.{no_attribute};

use crate::links::{LinkRule, add_if};
use crate::set::Link;
use crate::site::{Construct, Site};
use containers::Items;
use std::alloc::{AllocError, Allocator};
use syntax::tree::{Attribute, Item};

fn says_unsafe(all: &[Attribute]) -> bool
    ensures { result ≡ says_unsafe all.now }
{
    'each: for one in all {
        match one {
            Attribute::Unsafe => return true,
            Attribute::Safe => {}
            Attribute::Callable => {}
        }
    }
    false
}

fn says_safe(all: &[Attribute]) -> bool
    ensures { result ≡ says_safe all.now }
{
    'each: for one in all {
        match one {
            Attribute::Safe => return true,
            Attribute::Unsafe => {}
            Attribute::Callable => {}
        }
    }
    false
}

/// Unsafe functions: those that are declared so, that print or hold a relaxed transaction, and that call one.
#[derive(Drop)]
pub(crate) struct UnsafeFunctions;

impl LinkRule for UnsafeFunctions {
    ghost declares = { says_unsafe };

    ghost links_at = { unsafe_at };

    fn is_declared(&self, attributes: &[Attribute]) -> bool {
        says_unsafe(attributes)
    }

    fn link<'a>(&self, caller: &'a str, site: Site<'a>) -> Option<Link<'a>> {
        match site.construct {
            Construct::Prints | Construct::Relaxes => Some(Link::member(caller)),
            Construct::Calls(callee) => Some(Link::call(caller, callee)),
            Construct::OpensOuter
            | Construct::Cancels
            | Construct::CancelsOuter
            | Construct::Uses(_) => None,
        }
    }
}

/// Functions that lead to an outer transaction: those that hold one, and that call one.
#[derive(Drop)]
pub(crate) struct OuterFunctions;

impl LinkRule for OuterFunctions {
    ghost declares = { no_attribute };

    ghost links_at = { opening_at };

    fn is_declared(&self, _attributes: &[Attribute]) -> bool {
        false
    }

    fn link<'a>(&self, caller: &'a str, site: Site<'a>) -> Option<Link<'a>> {
        match site.construct {
            Construct::OpensOuter => Some(Link::member(caller)),
            Construct::Calls(callee) => Some(Link::call(caller, callee)),
            Construct::Prints
            | Construct::Relaxes
            | Construct::Cancels
            | Construct::CancelsOuter
            | Construct::Uses(_) => None,
        }
    }
}

fn add_safe<'a, A: Allocator + Copy>(
    links: &mut Items<Link<'a>, A>,
    item: &'a Item<A>,
) -> Result<(), AllocError>
    ensures { OnOk result (links_of links.new ≡ links_of links.old ++ safe_links_of (item_of item.now)) }
{
    match item {
        Item::Function(f) => {
            add_if(
                links,
                says_safe(f.attributes.as_slice()),
                f.name.text.as_str(),
            )?;
            Ok(())
        }
        Item::Globals(_) => Ok(()),
    }
}

/// The links of the functions that are declared safe.
pub(crate) fn safe_links<'a, A: Allocator + Copy>(
    alloc: A,
    items: &'a [Item<A>],
) -> Result<Items<Link<'a>, A>, AllocError>
    ensures { IfOk result (λ links. links_of links ≡ safe_links (map item_of items.now)) }
{
    let mut links = Items::new(alloc);
    'each: for item in items {
        add_safe(&mut links, item)?;
    }
    Ok(links)
}
