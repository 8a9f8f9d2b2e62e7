//! The least set that keeps to given links.

ghost use Rattle.std.specs.Prelude.{◌≡◌, ◌<◌, [], length, replicate, false, OnOk, IfOk};
ghost use Rattle.safety.specs.Links.{IsLeast};
ghost use Rattle.safety.specs.Sets.{links_of, set_of};
ghost use Rattle.safety.specs.inner.Graphs.{enqueue, all_visited};
ghost use Rattle.safety.specs.inner.Closing.{IsWithin, IsClosing, IsClosed};

use crate::graph::{Graph, graph_of};
use crate::set::{FunctionSet, Link};
use containers::Items;
use std::alloc::{AllocError, Allocator};

/// Puts a number into the set and the queue, where it was no member yet.
fn visit<A: Allocator + Copy>(
    members: &mut [bool],
    queue: &mut Items<usize, A>,
    number: usize,
) -> Result<(), AllocError>
    ensures { OnOk result
        (record { members = members.new; queue = queue.new }
        ≡ enqueue (record { members = members.old; queue = queue.old }) number) }
{
    if number < members.len() && !members[number] {
        queue.push(number)?;
        members[number] = true;
    }
    Ok(())
}

/// Visits numbers in order.
fn visit_all<A: Allocator + Copy>(
    members: &mut [bool],
    queue: &mut Items<usize, A>,
    all: &[usize],
) -> Result<(), AllocError>
    ensures { OnOk result
        (record { members = members.new; queue = queue.new }
        ≡ all_visited (record { members = members.old; queue = queue.old }) all.now) }
{
    'each: for one in all {
        visit(members, queue, *one)?;
    }
    Ok(())
}

/// Visits the callers of each number of the queue, of which there are at most as many as numbers.
fn close<A: Allocator + Copy>(
    members: &mut [bool],
    queue: &mut Items<usize, A>,
    callers: &[Items<usize, A>],
) -> Result<(), AllocError>
    requires within { IsWithin callers.now }
    requires begun { IsClosing callers.now 0 (record { members = members.old; queue = queue.old }) }
    ensures { OnOk result (IsClosed callers.now members.new) }
{
    'each: for at in 0..callers.len() {
        if at >= queue.len() {
            return Ok(());
        }
        let next = queue.as_slice()[at];
        visit_all(members, queue, callers[next].as_slice())?;
    }
    Ok(())
}

/// Puts the numbers into the set to which a way leads from 0, where there is no member yet.
fn close_all<A: Allocator + Copy>(
    members: &mut [bool],
    queue: &mut Items<usize, A>,
    callers: &[Items<usize, A>],
) -> Result<(), AllocError>
    requires within { IsWithin callers.now }
    requires begun { 0 < length callers.now }
    requires no_members { members.old ≡ replicate (length callers.now) false }
    requires none { queue.old ≡ [] }
    ensures { OnOk result (IsClosed callers.now members.new) }
{
    visit(members, queue, 0)?;
    close(members, queue, callers)?;
    Ok(())
}

/// Which numbers a way leads to from 0.
fn reachable_from<A: Allocator + Copy>(
    alloc: A,
    callers: &[Items<usize, A>],
) -> Result<Vec<bool, A>, AllocError>
    requires within { IsWithin callers.now }
    requires begun { 0 < length callers.now }
    ensures { IfOk result (λ members. IsClosed callers.now members.items) }
{
    let mut members = vec![in alloc; false; callers.len()]?;
    let mut queue = Items::new(alloc);
    close_all(members.as_mut_slice(), &mut queue, callers)?;
    Ok(members)
}

/// The least set that keeps to these links; the key is that of the hash of names. Takes memory for a number of each
/// name, its callers and whether it is a member; the time is that of finding each name of each link once.
pub fn least<'a, A: Allocator + Copy>(
    alloc: A,
    key: u64,
    links: &[Link<'a>],
) -> Result<FunctionSet<'a, A>, AllocError>
    ensures { IfOk result (λ set. IsLeast (links_of links.now) (set_of set)) }
{
    let Graph { numbers, callers } = graph_of(alloc, key, links)?;
    let members = reachable_from(alloc, callers.as_slice())?;
    Ok(FunctionSet { numbers, members })
}
