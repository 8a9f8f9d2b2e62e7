//! The links to which functions keep that are in a set by a rule.

ghost use Rattle.std.specs.Prelude.{◌≡◌, ◌++◌, List, ℕ, Bool, map, OnOk, IfOk};
ghost use Rattle.std.specs.List.{flat_map};
ghost use Rattle.syntax.specs.declared.tree.Attribute as Declared;
ghost use Rattle.syntax.specs.Views.{item_of};
ghost use Rattle.safety.specs.Sites as Sites;
ghost use Rattle.safety.specs.Links as Links;
ghost use Rattle.safety.specs.Views.{site_of, sites_of_own};
ghost use Rattle.safety.specs.Sets.{links_of, link_if_any};
ghost use Rattle.safety.specs.SiteLinks.{link_if, item_links, links_by};

use crate::set::Link;
use crate::site::Site;
use crate::stmt::body_sites;
use containers::Items;
use std::alloc::{AllocError, Allocator};
use syntax::tree::{Attribute, Item};

/// A rule by which functions are in a set: what the attributes of a declaration say, and what the sites of a body.
pub trait LinkRule {
    /// Whether a declaration with these attributes puts its function into the set.
    ghost declares: { List Declared.Attribute → Bool };

    /// The links that a site in a function of this name gives.
    ghost links_at: { List ℕ → Sites.Site → List Links.Link };

    /// Whether a declaration with these attributes puts its function into the set.
    fn is_declared(&self, attributes: &[Attribute]) -> bool
        ensures { result ≡ declares attributes.now };

    /// The link that a site in a function of this name gives, where it gives one.
    fn link<'a>(&self, caller: &'a str, site: Site<'a>) -> Option<Link<'a>>
        ensures { link_if_any result ≡ links_at caller.now (site_of site.entry) };
}

/// That a function is in the set, if this holds.
pub(crate) fn add_if<'a, A: Allocator + Copy>(
    links: &mut Items<Link<'a>, A>,
    holds: bool,
    caller: &'a str,
) -> Result<(), AllocError>
    ensures { OnOk result (links_of links.new ≡ links_of links.old ++ link_if holds caller.now) }
{
    if holds {
        links.push(Link::member(caller))?;
    }
    Ok(())
}

fn add_if_any<'a, A: Allocator + Copy>(
    links: &mut Items<Link<'a>, A>,
    link: Option<Link<'a>>,
) -> Result<(), AllocError>
    ensures { OnOk result (links_of links.new ≡ links_of links.old ++ link_if_any link.entry) }
{
    match link {
        Some(link) => {
            links.push(link)?;
            Ok(())
        }
        None => Ok(()),
    }
}

fn add_sites<'a, R: LinkRule, A: Allocator + Copy>(
    rule: &R,
    links: &mut Items<Link<'a>, A>,
    caller: &'a str,
    sites: &[Site<'a>],
) -> Result<(), AllocError>
    ensures { OnOk result
        (links_of links.new ≡ links_of links.old ++ flat_map (R.links_at caller.now) (sites_of_own sites.now)) }
{
    'each: for site in sites {
        let link = rule.link(caller, *site);
        add_if_any(links, link)?;
    }
    Ok(())
}

fn add_item<'a, R: LinkRule, A: Allocator + Copy>(
    alloc: A,
    key: u64,
    rule: &R,
    links: &mut Items<Link<'a>, A>,
    item: &'a Item<A>,
) -> Result<(), AllocError>
    ensures { OnOk result
        (links_of links.new ≡ links_of links.old ++ item_links R.declares R.links_at (item_of item.now)) }
{
    match item {
        Item::Function(f) => {
            let name = f.name.text.as_str();
            add_if(links, rule.is_declared(f.attributes.as_slice()), name)?;
            let sites = body_sites(alloc, key, f)?;
            add_sites(rule, links, name, sites.as_slice())?;
            Ok(())
        }
        Item::Globals(_) => Ok(()),
    }
}

/// The links of the functions of a program by a rule; the key is that of the hash of names. Takes memory for them, and
/// for the sites of one body at a time.
pub fn links_by<'a, R: LinkRule, A: Allocator + Copy>(
    alloc: A,
    key: u64,
    rule: &R,
    items: &'a [Item<A>],
) -> Result<Items<Link<'a>, A>, AllocError>
    ensures { IfOk result (λ links. links_of links ≡ links_by R.declares R.links_at (map item_of items.now)) }
{
    let mut links = Items::new(alloc);
    'each: for item in items {
        add_item(alloc, key, rule, &mut links, item)?;
    }
    Ok(links)
}
