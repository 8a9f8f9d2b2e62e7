//! Reports on standard error where a search for nodes stopped, and which global has the most values in the memories of
//! the first nodes.

use crate::reasons::distinct;
use coverings::Covering;
use messages::write_shown;
use std::alloc::{AllocError, Allocator};
use std::io::Write;
use syntax::tree::{Item, Unit};

/// The most memories whose values are counted.
const MOST_MEMORIES: usize = 1000;

/// A global, and a lower bound on its number of values.
#[derive(Clone, Copy)]
struct Growing<'u> {
    name: &'u str,
    values: usize,
}

/// The number of values of a cell in the first memories.
fn values_of<A: Allocator + Copy>(
    alloc: A,
    covering: &Covering<A>,
    cell: usize,
) -> Result<usize, AllocError> {
    let mut values = Vec::new(alloc);
    'memories: for number in 0..covering.memories().min(MOST_MEMORIES) {
        if let Some(word) = covering.memory(number).get(cell) {
            values.push(*word)?;
        }
    }
    values.sort()?;
    Ok(distinct(values.as_slice()))
}

/// The largest number of values of these cells.
fn most_values<A: Allocator + Copy>(
    alloc: A,
    covering: &Covering<A>,
    from: usize,
    to: usize,
) -> Result<usize, AllocError> {
    let mut most = 0;
    'cells: for cell in from..to {
        most = most.max(values_of(alloc, covering, cell)?);
    }
    Ok(most)
}

/// The global that has the most values, if there is one.
fn widest_global<'u, A: Allocator + Copy>(
    alloc: A,
    unit: &'u Unit<A>,
    covering: &Covering<A>,
) -> Result<Option<Growing<'u>>, AllocError> {
    let mut found: Option<Growing<'u>> = None;
    let mut from: usize = 0;
    'items: for item in unit.items.as_slice() {
        if let Item::Globals(globals) = item {
            'globals: for global in globals.as_slice() {
                let to = from.saturating_add(global.cell_count());
                let values = most_values(alloc, covering, from, to)?;
                let most = match found {
                    Some(before) => before.values,
                    None => 0,
                };
                if most < values {
                    found = Some(Growing {
                        name: global.name.text.as_str(),
                        values,
                    });
                }
                from = to;
            }
        }
    }
    Ok(found)
}

/// The limit that stopped a search for nodes.
fn stop_words<A: Allocator + Copy>(covering: &Covering<A>) -> &'static str {
    if covering.is_full() {
        "memory"
    } else if covering.is_long() {
        "steps"
    } else {
        "limit"
    }
}

/// Reports where a search for nodes stopped, and which global has the most values in the nodes' memories.
pub(crate) fn tell_growth<A: Allocator + Copy, E: Write>(
    alloc: A,
    unit: &Unit<A>,
    covering: &Covering<A>,
    err: &mut E,
) {
    let (nodes, stop) = (covering.nodes(), stop_words(covering));
    let _ = write!(err, "txc: nodes {nodes}, stopped at the {stop}");
    if let Ok(Some(widest)) = widest_global(alloc, unit, covering) {
        let values = widest.values;
        let _ = write!(err, "; ");
        let _ = write_shown(widest.name, "", err);
        let _ = write!(err, " has at least {values} values");
    }
    let _ = writeln!(err);
}
