//! Functions by number, with the numbers of their callers.

ghost use Rattle.std.specs.Prelude.{◌≡◌, ◌<◌, ◌++◌, ◌∷◌, [], List, length, option_map, slice_set, OnOk, IfOk};
ghost use Rattle.name_tables.specs.Named.{first};
ghost use Rattle.name_tables.specs.Known.{entries_in};
ghost use Rattle.safety.specs.Links as Links;
ghost use Rattle.safety.specs.Sets.{link_of, links_of};
ghost use Rattle.safety.specs.inner.Graphs.{IsNumbered, HasLinks, ExtendsMap, IsNumber, callers_at};

use crate::set::Link;
use containers::Items;
use name_tables::Table;
use std::alloc::{AllocError, Allocator};

/// The numbers of names, and the numbers of the callers of each. Number 0 is no name's: its callers are in the set
/// anyhow.
#[derive(Drop)]
pub(crate) struct Graph<'a, A: Allocator> {
    pub(crate) numbers: Table<'a, usize, A>,
    pub(crate) callers: Vec<Items<usize, A>, A>,
}

/// One caller more.
fn add_caller<A: Allocator + Copy>(
    callers: &mut [Items<usize, A>],
    callee: usize,
    caller: usize,
) -> Result<(), AllocError>
    requires { callee < length callers.old }
    ensures { OnOk result (callers.new ≡ slice_set callers.old callee (callers_at callers.old callee ++ caller ∷ [])) }
{
    let list = &mut callers[callee];
    list.push(caller)?;
    Ok(())
}

/// The number of a name, which is a new one where it had none.
fn number<'a, A: Allocator + Copy>(
    alloc: A,
    graph: &mut Graph<'a, A>,
    name: &'a str,
) -> Result<usize, AllocError>
    requires { IsNumbered (first (entries_in graph.old.numbers)) graph.old.callers.items }
    ensures numbered { OnOk result (IsNumbered (first (entries_in graph.new.numbers)) graph.new.callers.items) }
    ensures number { IfOk result (λ k. first (entries_in graph.new.numbers) name.now ≡ Some k) }
    ensures extends { OnOk result
        (ExtendsMap (first (entries_in graph.old.numbers)) (first (entries_in graph.new.numbers))) }
    ensures links { (links : List Links.Link) →
        HasLinks links (first (entries_in graph.old.numbers)) graph.old.callers.items →
        OnOk result (HasLinks links (first (entries_in graph.new.numbers)) graph.new.callers.items) }
{
    match graph.numbers.get(name) {
        Some(number) => Ok(*number),
        None => {
            let number = graph.callers.len();
            graph.callers.push(Items::new(alloc))?;
            graph.numbers.declare(name, number)?;
            Ok(number)
        }
    }
}

/// The number of a callee, or 0.
fn number_of_callee<'a, A: Allocator + Copy>(
    alloc: A,
    graph: &mut Graph<'a, A>,
    callee: Option<&'a str>,
) -> Result<usize, AllocError>
    requires { IsNumbered (first (entries_in graph.old.numbers)) graph.old.callers.items }
    ensures numbered { OnOk result (IsNumbered (first (entries_in graph.new.numbers)) graph.new.callers.items) }
    ensures number { IfOk result
        (λ k. IsNumber (first (entries_in graph.new.numbers)) (option_map (λ f. f.now) callee.entry) k) }
    ensures extends { OnOk result
        (ExtendsMap (first (entries_in graph.old.numbers)) (first (entries_in graph.new.numbers))) }
    ensures links { (links : List Links.Link) →
        HasLinks links (first (entries_in graph.old.numbers)) graph.old.callers.items →
        OnOk result (HasLinks links (first (entries_in graph.new.numbers)) graph.new.callers.items) }
{
    match callee {
        Some(name) => {
            let number = number(alloc, graph, name)?;
            Ok(number)
        }
        None => Ok(0),
    }
}

/// One link more.
fn add_link<'a, A: Allocator + Copy>(
    alloc: A,
    graph: &mut Graph<'a, A>,
    link: Link<'a>,
) -> Result<(), AllocError>
    requires { IsNumbered (first (entries_in graph.old.numbers)) graph.old.callers.items }
    ensures numbered { OnOk result (IsNumbered (first (entries_in graph.new.numbers)) graph.new.callers.items) }
    ensures links { (links : List Links.Link) →
        HasLinks links (first (entries_in graph.old.numbers)) graph.old.callers.items →
        OnOk result
        (HasLinks (links ++ link_of link.entry ∷ []) (first (entries_in graph.new.numbers)) graph.new.callers.items) }
{
    let callee = number_of_callee(alloc, graph, link.callee)?;
    let caller = number(alloc, graph, link.caller)?;
    add_caller(graph.callers.as_mut_slice(), callee, caller)?;
    Ok(())
}

/// The graph of links, the hashes of whose names are by this key.
pub(crate) fn graph_of<'a, A: Allocator + Copy>(
    alloc: A,
    key: u64,
    links: &[Link<'a>],
) -> Result<Graph<'a, A>, AllocError>
    ensures numbered { IfOk result (λ graph. IsNumbered (first (entries_in graph.numbers)) graph.callers.items) }
    ensures links { IfOk result
        (λ graph. HasLinks (links_of links.now) (first (entries_in graph.numbers)) graph.callers.items) }
{
    let mut graph = Graph {
        numbers: Table::new(alloc, key),
        callers: Vec::new(alloc),
    };
    graph.callers.push(Items::new(alloc))?;
    'each: for link in links {
        add_link(alloc, &mut graph, *link)?;
    }
    Ok(graph)
}
