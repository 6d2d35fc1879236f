//! The search for all distances. It starts from the destination and goes against the links, breadth first.

ghost use Rattle.std.specs.Prelude.{◌≡◌, ℕ, ◌<◌, ◌≤◌, ◌+◌, length, vec_capacity};
ghost use Rattle.fr_nearest.specs.Distances.{AreDistances};
ghost use Rattle.fr_nearest.specs.Local.{IsSmall};
ghost use Rattle.fr_nearest.specs.Search.{IsSearch};

use crate::distances::NONE;
use fr_graph::{First, Net};

/// Measures the distance of each node. `list` needs room for all nodes.
pub(crate) fn measure_all(net: &Net, dest: u32, distances: &mut [u16], list: &mut Vec<u16>)
    requires node { dest < net.now.nodes }
    requires one_each { length distances.old ≡ net.now.nodes }
    requires room { net.now.nodes ≤ vec_capacity list.old }
    ensures distances { AreDistances net.now.nodes net.now.links dest distances.new }
    ensures small { IsSmall net.now.nodes distances.new }
    ensures room { vec_capacity list.new ≡ vec_capacity list.old }
{
    net.network_law();
    distances.fill(NONE);
    list.clear();
    distances[dest as usize] = 0;
    list.push_reserved(dest as u16);
    let mut read = 0;
    while read < list.len() {
        reach_from(net, read, distances, list);
        read += 1;
    }
}

/// Reads the row of the node at the place `read` of the list: reaches each node with a link to it that has no distance
/// yet, and appends it to the list.
fn reach_from(net: &Net, read: usize, distances: &mut [u16], list: &mut Vec<u16>)
    requires search { (d : ℕ) × IsSearch net.now d distances.old list.old.items read }
    requires left { read < length list.old.items }
    requires room { net.now.nodes ≤ vec_capacity list.old }
    ensures one_each { length distances.new ≡ length distances.old }
    ensures search { (d : ℕ) → IsSearch net.now d distances.old list.old.items read
        → IsSearch net.now d distances.new list.new.items (read + 1) }
    ensures room { vec_capacity list.new ≡ vec_capacity list.old }
{
    net.network_law();
    let x = list[read] as u32;
    let next = distances[x as usize] + 1;
    let row = net.row(x);
    for (y, first) in row {
        if *first == First::Inward && distances[*y as usize] == NONE {
            distances[*y as usize] = next;
            list.push_reserved(*y);
        }
    }
}
