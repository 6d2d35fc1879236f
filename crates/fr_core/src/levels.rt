//! The settled counts, found by a search level by level.

ghost use Rattle.std.specs.Prelude.{◌≡◌, ℕ, ◌+◌, ◌<◌, ◌≤◌, length, All, slice_index};
ghost use Rattle.fr_graph.specs.Links.{IsNet};
ghost use Rattle.fr_graph.specs.Rows.{row};
ghost use Rattle.fr_core.specs.LevelSearch.{IsLevelSearch};
ghost use Rattle.fr_core.specs.NodeCounts.{IsMostCount};
ghost use Rattle.fr_core.specs.Reaching.{IsNeighbour, IsReached, ReachesOnly, unreached_count};
ghost use Rattle.fr_core.specs.Settled.{AreSettled};

use crate::counts::most_count;
use crate::queue::{ALL_NODES, Queue};
use fr_graph::{First, Net};

/// A level of the search: the count of its nodes, and the first direction of the links along which the search reaches
/// it.
#[derive(Drop, Clone, Copy)]
struct Level {
    count: u64,
    wanted: First,
}

/// Reaches the neighbour of a row entry, if its link first points in the wanted direction and the search has not
/// reached it yet: it gets the count of this level and a place in the queue.
fn reach_neighbour(
    net: &Net,
    entry: (u16, First),
    level: Level,
    counts: &mut [u64],
    queue: &mut Queue<ALL_NODES>,
)
    requires one_each { length counts.old ≡ net.now.nodes }
    requires node { entry.0 < net.now.nodes }
    requires few { length queue.old + unreached_count net.now.nodes counts.old ≤ net.now.nodes }
    requires low { level.count ≤ length queue.old }
    ensures only { ReachesOnly net.now.nodes (λ (x : ℕ). (x ≡ entry.0) × (entry.1 ≡ level.wanted)) level.count
        counts.old queue.old counts.new queue.new }
    ensures reached { IsReached net.now.nodes counts.new level.wanted entry }
{
    let (node, first) = entry;
    if counts[node as usize] != net.nodes() as u64 || first != level.wanted {
        return;
    }
    counts[node as usize] = level.count;
    queue.push(node as u32);
}

/// Reaches the neighbours of node `x` that belong to this level.
fn reach_neighbours(
    net: &Net,
    x: u32,
    level: Level,
    counts: &mut [u64],
    queue: &mut Queue<ALL_NODES>,
)
    requires one_each { length counts.old ≡ net.now.nodes }
    requires node { x < net.now.nodes }
    requires few { length queue.old + unreached_count net.now.nodes counts.old ≤ net.now.nodes }
    requires low { level.count ≤ length queue.old }
    ensures only { ReachesOnly net.now.nodes (IsNeighbour (row net.now.nodes net.now.links x) level.wanted) level.count
        counts.old queue.old counts.new queue.new }
    ensures reached { All (IsReached net.now.nodes counts.new level.wanted) (row net.now.nodes net.now.links x) }
{
    for entry in net.row(x) {
        reach_neighbour(net, *entry, level, counts, queue);
    }
}

/// Follows links from head to tail, which costs no turn, from the nodes of the level and from those that are added to
/// it. The level begins at place `start` of the queue. The search began at the first node of the queue.
fn complete_level(
    net: &Net,
    count: u64,
    counts: &mut [u64],
    queue: &mut Queue<ALL_NODES>,
    start: usize,
)
    requires net { IsNet net.now.nodes net.now.links }
    requires one_each { length counts.old ≡ net.now.nodes }
    requires search { IsLevelSearch net.now.nodes (slice_index queue.old 0) net.now.links
        counts.old queue.old start start start count }
    ensures search { IsLevelSearch net.now.nodes (slice_index queue.old 0) net.now.links
        counts.new queue.new (length queue.new) start start count }
    ensures longer { length queue.old ≤ length queue.new }
{
    let level = Level {
        count,
        wanted: First::Inward,
    };
    let mut at = start;
    while at < queue.len() {
        reach_neighbours(net, queue.node(at), level, counts, queue);
        at += 1;
    }
}

/// Follows links from tail to head, which costs a turn, from the nodes of the previous level, which begins at place
/// `start` of the queue. The nodes that this reaches are the first ones of the new level.
fn start_next_level(
    net: &Net,
    count: u64,
    counts: &mut [u64],
    queue: &mut Queue<ALL_NODES>,
    start: usize,
)
    requires net { IsNet net.now.nodes net.now.links }
    requires one_each { length counts.old ≡ net.now.nodes }
    requires search { IsLevelSearch net.now.nodes (slice_index queue.old 0) net.now.links
        counts.old queue.old (length queue.old) start (length queue.old) count }
    ensures search { IsLevelSearch net.now.nodes (slice_index queue.old 0) net.now.links
        counts.new queue.new (length queue.old) (length queue.old) (length queue.old) count }
    ensures longer { length queue.old ≤ length queue.new }
{
    let level = Level {
        count,
        wanted: First::Outward,
    };
    for at in start..queue.len() {
        reach_neighbours(net, queue.node(at), level, counts, queue);
    }
}

/// Gives each node the greatest count that it can have. For a node with links, this count means that the search has not
/// reached it.
fn set_greatest_counts(net: &Net, counts: &mut [u64])
    requires { length counts.old ≡ net.now.nodes }
    ensures { (x : ℕ) → x < net.now.nodes → IsMostCount net.now.nodes net.now.links x (slice_index counts.new x) }
{
    for x in 0..net.nodes() {
        counts[x as usize] = most_count(net, x);
    }
}

/// Writes the settled counts, level by level. A level has the nodes with one count, and the search reaches the next
/// level from it. It does not allocate, and reads each row twice.
pub(crate) fn settle(net: &Net, dest: u32, counts: &mut [u64])
    requires net { IsNet net.now.nodes net.now.links }
    requires one_each { length counts.old ≡ net.now.nodes }
    requires node { dest < net.now.nodes }
    ensures { AreSettled net.now.nodes dest net.now.links counts.new }
{
    set_greatest_counts(net, counts);
    counts[dest as usize] = 0;
    let mut queue = Queue::new();
    queue.push(dest);
    let mut start = 0;
    let mut count = 0;
    while start < queue.len() {
        complete_level(net, count, counts, &mut queue, start);
        let end = queue.len();
        count += 1;
        start_next_level(net, count, counts, &mut queue, start);
        start = end;
    }
}
