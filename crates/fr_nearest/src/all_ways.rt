//! The ways of all nodes, listed in one pass over the nodes in order of distance.

ghost use Rattle.std.specs.Prelude.{◌≡◌, ℕ, ◌<◌, ◌≤◌, ◌+◌, List, IfOk, length, slice_index, slice_range};
ghost use Rattle.fr_nearest.specs.Distances.{IsMeasureOf};
ghost use Rattle.fr_nearest.specs.Order.{AreRooms, HoldWays, IsListing, degree};

use crate::distances::Distances;
use crate::order::{append_if, nodes_in_order};
use crate::ways::points_away;
use fr_graph::Net;
use std::alloc::{AllocError, Global};

/// The ways of each node of a network, nearest first, as [`Distances::all_ways`] lists them.
#[derive(Debug, Drop)]
pub struct AllWays {
    /// Where the ways of each node begin in `list`. There is room for all its neighbours.
    pub starts: Vec<usize>,
    /// Where the ways of each node end.
    pub ends: Vec<usize>,
    /// The ways of the nodes, each list in its room.
    pub list: Vec<u32>,
}

impl AllWays {
    /// The ways of node `x`, which must be in the network. O(1).
    pub fn row(&self, x: u32) -> &[u32]
        requires start { x < length self.now.starts.items }
        requires end { x < length self.now.ends.items }
        requires rise { slice_index self.now.starts.items x ≤ slice_index self.now.ends.items x }
        requires room { slice_index self.now.ends.items x ≤ length self.now.list.items }
        // The part of `list` from its start to its end.
        ensures { result.now ≡ slice_range self.now.list.items (slice_index self.now.starts.items x)
            (slice_index self.now.ends.items x) }
    {
        &self.list[self.starts[x as usize]..self.ends[x as usize]]
    }
}

/// Where the room of each node begins, if each has room for all its neighbours, and how much room there is in all.
fn neighbour_rooms(alloc: Global, net: &Net) -> Result<(Vec<usize>, usize), AllocError>
    ensures { IfOk result (λ made. AreRooms (degree net.now) net.now.nodes made.0.items made.1) }
{
    let mut starts = Vec::with_capacity(alloc, net.nodes() as usize)?;
    let mut room = 0;
    for x in 0..net.nodes() {
        starts.push(room)?;
        room += net.degree(x) as usize;
    }
    Ok((starts, room))
}

/// Appends the node at the place `at` of the order to the list of each node with a link to it.
fn append_to_neighbours(net: &Net, order: &[u32], at: usize, ends: &mut [usize], list: &mut [u32])
    requires left { at < length order.now }
    requires listing { (table starts : List ℕ) × IsListing net.now table order.now starts ends.old list.old at }
    ensures listing { (table starts : List ℕ) → IsListing net.now table order.now starts ends.old list.old at
        → IsListing net.now table order.now starts ends.new list.new (at + 1) }
{
    net.network_law();
    let w = order[at];
    let row = net.row(w);
    for (y, first) in row {
        let is_way = !points_away(*first);
        append_if(ends, list, *y as usize, w, is_way);
    }
}

impl Distances {
    /// Lists the ways of all nodes of the network that these are the distances of, each list as [`ways`](Self::ways)
    /// lists it. Goes through the nodes in order of distance, and appends each of them to the lists of the nodes with a
    /// link to it. So each list is in order, and need not be sorted.
    ///
    /// Fails with `AllocError` if an allocation is refused. O(n + m).
    pub fn all_ways(&self, alloc: Global, net: &Net) -> Result<AllWays, AllocError>
        requires measured { IsMeasureOf net.now self.now }
        // Each node has exactly its ways, nearest first.
        ensures { IfOk result (HoldWays net.now self.now.dest) }
    {
        net.network_law();
        let order = nodes_in_order(alloc, self.numbers())?;
        let (starts, room) = neighbour_rooms(alloc, net)?;
        let mut ends = starts.to_vec(alloc)?;
        let mut list = vec![in alloc; 0; room]?;
        for at in 0..order.len() {
            append_to_neighbours(net, &order, at, &mut ends, &mut list);
        }
        Ok(AllWays { starts, ends, list })
    }
}
