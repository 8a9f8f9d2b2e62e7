//! The rule by which functions touch.

ghost use Rattle.safety.specs.inner.SiteLinks.{no_attribute};
ghost use Rattle.separation.specs.inner.TouchingLinks.{links_at};

use safety::{Construct, Link, LinkRule, Site};
use syntax::tree::Attribute;

/// Touching functions: those with a bare access, and those with a bare call of one.
#[derive(Drop)]
pub(crate) struct TouchingFunctions;

impl LinkRule for TouchingFunctions {
    ghost declares = { no_attribute };

    ghost links_at = { links_at };

    fn is_declared(&self, _attributes: &[Attribute]) -> bool {
        false
    }

    fn link<'a>(&self, caller: &'a str, site: Site<'a>) -> Option<Link<'a>> {
        if site.in_any {
            return None;
        }
        match site.construct {
            Construct::Uses(_) => Some(Link::member(caller)),
            Construct::Calls(callee) => Some(Link::call(caller, callee)),
            Construct::Prints
            | Construct::Relaxes
            | Construct::OpensOuter
            | Construct::Cancels
            | Construct::CancelsOuter => None,
        }
    }
}
