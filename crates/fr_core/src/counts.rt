//! What the counts of a network determine: the direction of each link, whether the counts are lawful, which nodes are
//! sinks, and whether one of them can turn.

ghost use Rattle.std.specs.Prelude.{◌≡◌, ℕ, ◌<◌, ◌↔◌, IsTrue, length, All};
ghost use Rattle.fr_graph.specs.Counts.{AreLawful, IsKept, links_at};
ghost use Rattle.fr_graph.specs.Links.{Points};
ghost use Rattle.fr_graph.specs.Turn.{IsSink};
ghost use Rattle.fr_core.specs.History.{moment_of};
ghost use Rattle.fr_core.specs.Legal.{CanTurn};
ghost use Rattle.fr_core.specs.NodeCounts.{IsLawfulCount, IsMostCount};
ghost use Rattle.fr_core.specs.Senses.{sense_of};
ghost use Rattle.fr_core.specs.Settled.{AreSettled};

use crate::directions::Sense;
use fr_graph::{First, Net};

/// The current direction of the link between nodes `x` and `w`, seen from `x`. `first` is its first direction seen from
/// `x`; `cx` and `cw` are how often `x` and `w` have turned. `None` if these counts give the link no direction. O(1).
pub fn sense(first: First, cx: u64, cw: u64) -> Option<Sense>
    ensures { result ≡ sense_of first cx cw }
{
    match first {
        First::Outward => match cw.checked_sub(cx) {
            Some(0) => Some(Sense::Outward),
            Some(1) => Some(Sense::Inward),
            _ => None,
        },
        First::Inward => match cx.checked_sub(cw) {
            Some(0) => Some(Sense::Inward),
            Some(1) => Some(Sense::Outward),
            _ => None,
        },
    }
}

/// The greatest count that node `x` can have: 0 if it has no link, otherwise the number of nodes.
pub(crate) fn most_count(net: &Net, x: u32) -> u64
    requires { x < net.now.nodes }
    ensures { IsMostCount net.now.nodes net.now.links x result }
{
    let nodes = net.nodes();
    if net.degree(x) == 0 { 0 } else { nodes as u64 }
}

/// Whether each node's count is at most the greatest that it can have.
fn has_counts_in_range(net: &Net, counts: &[u64]) -> bool
    requires { length counts.now ≡ net.now.nodes }
    ensures { IsTrue result ↔ ((x : ℕ) → x < net.now.nodes → IsLawfulCount net.now.nodes net.now.links counts.now x) }
{
    for x in 0..net.nodes() {
        if counts[x as usize] > most_count(net, x) {
            return false;
        }
    }
    true
}

/// Whether the counts give a direction to each link whose tail is node `x`.
fn has_directions_in_row(net: &Net, counts: &[u64], x: u32) -> bool
    requires one_each { length counts.now ≡ net.now.nodes }
    requires node { x < net.now.nodes }
    ensures { IsTrue result ↔ ((w : ℕ) → Points net.now.links x w → IsKept counts.now (x, w)) }
{
    // By this law, the row has each link of `x`.
    net.network_law();
    let row = net.row(x);
    for (w, first) in row {
        // A link whose head is `x` is tested in the row of its tail.
        if *first == First::Outward
            && sense(First::Outward, counts[x as usize], counts[*w as usize]).is_none()
        {
            return false;
        }
    }
    true
}

/// Whether the counts give each link of the network a direction.
fn has_all_directions(net: &Net, counts: &[u64]) -> bool
    requires { length counts.now ≡ net.now.nodes }
    ensures { IsTrue result ↔ All (IsKept counts.now) net.now.links }
{
    for x in 0..net.nodes() {
        if !has_directions_in_row(net, counts, x) {
            return false;
        }
    }
    true
}

/// Whether the counts are lawful: one for each node, 0 at `dest` and at nodes without a link, at most the number of
/// nodes, and each link has a direction. By the clauses `all` and `reached` of [`run_law`](crate::laws::run_law), these
/// are exactly the counts to which turns of nodes other than `dest` lead from the counts 0. `dest` must be a node. O(n
/// + m).
pub fn lawful(net: &Net, dest: u32, counts: &[u64]) -> bool
    requires { dest < net.now.nodes }
    ensures { IsTrue result ↔ AreLawful net.now.nodes dest net.now.links counts.now }
{
    if counts.len() != net.nodes() as usize || counts[dest as usize] != 0 {
        return false;
    }
    has_counts_in_range(net, counts) && has_all_directions(net, counts)
}

/// Whether node `x` is a sink of the links that the counts give: it has a link, and all its links point to it. There
/// must be a count for each node, and the counts must give each link a direction, as lawful counts do. O(d).
pub fn is_sink(net: &Net, counts: &[u64], x: u32) -> bool
    requires one_each { length counts.now ≡ net.now.nodes }
    requires kept { All (IsKept counts.now) net.now.links }
    requires node { x < net.now.nodes }
    ensures { IsTrue result ↔ IsSink (links_at net.now.links counts.now) x }
{
    // By this law, the row has each link of `x`.
    net.network_law();
    let row = net.row(x);
    for (w, first) in row {
        match sense(*first, counts[x as usize], counts[*w as usize]) {
            Some(Sense::Inward) => {}
            Some(Sense::Outward) | None => return false,
        }
    }
    !row.is_empty()
}

/// Whether node `x` can turn at these counts, which must be lawful: it is a sink, it is not the destination, and its
/// count is below the cap. O(d).
pub fn can_turn(net: &Net, dest: u32, counts: &[u64], x: u32) -> bool
    requires lawful { AreLawful net.now.nodes dest net.now.links counts.now }
    requires node { x < net.now.nodes }
    ensures { IsTrue result ↔ CanTurn net.now.nodes dest (moment_of net.now.links counts.now) x }
{
    x != dest && counts[x as usize] < u64::from(net.nodes()) && is_sink(net, counts, x)
}

/// Whether lawful counts are the settled ones: no node can turn any more. The call looks at nodes until it finds one
/// that can turn. O(n + m).
pub fn are_settled(net: &Net, dest: u32, counts: &[u64]) -> bool
    requires node { dest < net.now.nodes }
    requires lawful { AreLawful net.now.nodes dest net.now.links counts.now }
    ensures { IsTrue result ↔ AreSettled net.now.nodes dest net.now.links counts.now }
{
    // By this law, lawful counts are settled if no node can turn.
    net.network_law();
    for x in 0..net.nodes() {
        if can_turn(net, dest, counts, x) {
            return false;
        }
    }
    true
}
