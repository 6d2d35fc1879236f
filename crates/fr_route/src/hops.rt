//! The next hop of each node.

ghost use Rattle.std.specs.Prelude.{◌≡◌, ℕ, ◌<◌, ◌≤◌, ◌↔◌, ◌++◌, ◌-◌, All, Contains};
ghost use Rattle.std.specs.Prelude.{IsTrue, length, replicate, take, IfOk, MatchOption};
ghost use Rattle.fr_graph.specs.Links.{Points};
ghost use Rattle.fr_route.specs.Routes.{IsNextHop, IsHop, AreHops};
ghost use Rattle.fr_route.specs.Outcomes.{AreRenewed, HoldsMoved, IsStale, NotesMore, SendsTo, state_after};
ghost use Rattle.fr_route.specs.States.{IsAfterRound};
ghost use Rattle.fr_tables.specs.declared.hop.Hop.TheVariants.{CutOff};

use crate::changed_nodes::ChangedNodes;
use fr_graph::{First, Net, Turns};
use fr_tables::Hop;
use std::alloc::{AllocError, Global};

/// The route from a node to the destination.
#[derive(Debug, Drop, PartialEq, Eq)]
pub enum Walked {
    /// The nodes of the route, from the first to the destination.
    Route(Vec<u32>),
    /// No path of links joins the node with the destination, so the node has no route.
    CutOff,
}

/// A network after a round: its links in their current directions, its destination, and how often each node has turned.
#[derive(Clone, Copy)]
pub(crate) struct AfterRound<'a> {
    pub(crate) net: &'a Net,
    pub(crate) dest: u32,
    pub(crate) turns: &'a Turns,
}

/// The node with the lowest number to which a link from node `x` points.
pub(crate) fn lowest_outward_neighbour(net: &Net, x: u32) -> Option<u32>
    requires { x < net.now.nodes }
    ensures { MatchOption result ((w : ℕ) → ¬ Points net.now.links x w) (IsNextHop net.now.links x) }
{
    net.network_law();
    let row = net.row(x);
    for (w, first) in row {
        if *first == First::Outward {
            return Some(*w as u32);
        }
    }
    None
}

/// The next hop of node `x`, from its settled count and the settled links.
fn hop_of(round: &AfterRound<'_>, x: u32) -> Hop
    requires round { IsAfterRound (state_after round.now) }
    requires node { x < round.now.net.now.nodes }
    ensures { IsHop (state_after round.now) x result }
{
    if x == round.dest {
        return Hop::Here;
    }
    if round.turns.counts()[x as usize] == u64::from(round.net.nodes()) {
        return Hop::CutOff;
    }
    match lowest_outward_neighbour(round.net, x) {
        Some(next) => Hop::To(next),
        // The node has no link. With a link, it would have turned until a link points away from it.
        None => Hop::CutOff,
    }
}

/// The next hop of each node.
pub(crate) fn hop_table(alloc: Global, round: &AfterRound<'_>) -> Result<Vec<Hop>, AllocError>
    requires { IsAfterRound (state_after round.now) }
    ensures { IfOk result (λ hops. AreHops (state_after round.now) round.now.net.now.nodes hops.items) }
{
    let mut hops = vec![in alloc; Hop::CutOff; round.net.nodes() as usize]?;
    renew_all(&mut hops, round);
    Ok(hops)
}

/// Updates the hops of the moved nodes, and the hops that turns have made stale. All other hops stay right. Each node
/// whose hop changes is noted once, if the caller asks for the rerouted nodes. The same holds for the functions that
/// this one calls.
pub(crate) fn renew_hops(
    hops: &mut [Hop],
    round: &AfterRound<'_>,
    moved: &[u32],
    told: &mut ChangedNodes,
)
    requires round { IsAfterRound (state_after round.now) }
    requires one_each { length hops.old ≡ round.now.net.now.nodes }
    requires moved { HoldsMoved (state_after round.now) hops.old moved.now }
    ensures hops { AreHops (state_after round.now) round.now.net.now.nodes hops.new }
    ensures noted { NotesMore (state_after round.now) hops.old told.old hops.new told.new }
{
    renew_turned(hops, round, told);
    renew_listed(hops, round, moved, told);
}

/// Updates the hop of each node that has turned, and of each neighbour that sends on to such a node. The links of all
/// other nodes have not changed.
fn renew_turned(hops: &mut [Hop], round: &AfterRound<'_>, told: &mut ChangedNodes)
    requires round { IsAfterRound (state_after round.now) }
    requires one_each { length hops.old ≡ round.now.net.now.nodes }
    ensures renewed { AreRenewed (state_after round.now) hops.old hops.new
        (λ x hop. ¬ IsStale (state_after round.now) x hop) }
    ensures noted { NotesMore (state_after round.now) hops.old told.old hops.new told.new }
{
    for x in round.turns.nodes() {
        renew_node_and_senders(hops, round, *x, told);
    }
}

/// Updates the hop of node `x`, and of each neighbour that sends on to it.
fn renew_node_and_senders(hops: &mut [Hop], round: &AfterRound<'_>, x: u32, told: &mut ChangedNodes)
    requires round { IsAfterRound (state_after round.now) }
    requires one_each { length hops.old ≡ round.now.net.now.nodes }
    requires node { x < round.now.net.now.nodes }
    ensures renewed { AreRenewed (state_after round.now) hops.old hops.new
        (λ y hop. ¬ SendsTo round.now.net.now.links x y hop) }
    ensures noted { NotesMore (state_after round.now) hops.old told.old hops.new told.new }
{
    // By this law, the row has each link of `x`.
    round.net.network_law();
    renew_hop(hops, round, x, told);
    let row = round.net.row(x);
    for (w, _) in row {
        renew_sender(hops, round, *w as u32, x, told);
    }
}

/// Updates the hop of node `w`, if it sends on to node `x`.
fn renew_sender(hops: &mut [Hop], round: &AfterRound<'_>, w: u32, x: u32, told: &mut ChangedNodes)
    requires round { IsAfterRound (state_after round.now) }
    requires one_each { length hops.old ≡ round.now.net.now.nodes }
    requires node { w < round.now.net.now.nodes }
    ensures renewed { AreRenewed (state_after round.now) hops.old hops.new (λ y hop. y ≡ w → ¬ (hop ≡ Hop.To x)) }
    ensures noted { NotesMore (state_after round.now) hops.old told.old hops.new told.new }
{
    if hops[w as usize] == Hop::To(x) {
        renew_hop(hops, round, w, told);
    }
}

/// Updates the hops of these nodes.
fn renew_listed(hops: &mut [Hop], round: &AfterRound<'_>, moved: &[u32], told: &mut ChangedNodes)
    requires round { IsAfterRound (state_after round.now) }
    requires one_each { length hops.old ≡ round.now.net.now.nodes }
    requires nodes { All (λ (x : ℕ). x < round.now.net.now.nodes) moved.now }
    ensures renewed { AreRenewed (state_after round.now) hops.old hops.new (λ x _. ¬ Contains moved.now x) }
    ensures noted { NotesMore (state_after round.now) hops.old told.old hops.new told.new }
{
    for x in moved {
        renew_hop(hops, round, *x, told);
    }
}

/// Updates the hop of node `x`, and notes the node if the hop changes.
fn renew_hop(hops: &mut [Hop], round: &AfterRound<'_>, x: u32, told: &mut ChangedNodes)
    requires round { IsAfterRound (state_after round.now) }
    requires one_each { length hops.old ≡ round.now.net.now.nodes }
    requires node { x < round.now.net.now.nodes }
    ensures renewed { AreRenewed (state_after round.now) hops.old hops.new (λ y _. ¬ (y ≡ x)) }
    ensures noted { NotesMore (state_after round.now) hops.old told.old hops.new told.new }
{
    let hop = hop_of(round, x);
    if is_same_hop(hops[x as usize], hop) {
        return;
    }
    hops[x as usize] = hop;
    told.note(x);
}

/// Whether two hops are equal.
fn is_same_hop(some: Hop, other: Hop) -> bool
    ensures { IsTrue result ↔ (some ≡ other) }
{
    some == other
}

/// A copy of a table with `count` hops: nodes past the end of the table are cut off.
pub(crate) fn resized_hops(alloc: Global, table: &[Hop], count: u32) -> Result<Vec<Hop>, AllocError>
    ensures { IfOk result (λ hops. hops.items ≡ take count table.now ++ replicate (count - length table.now) CutOff) }
{
    let mut hops = Vec::with_capacity(alloc, count as usize)?;
    hops.extend_from_slice(table)?;
    hops.resize(count as usize, Hop::CutOff)?;
    Ok(hops)
}

/// Updates the hop of each node.
fn renew_all(hops: &mut [Hop], round: &AfterRound<'_>)
    requires round { IsAfterRound (state_after round.now) }
    requires one_each { length hops.old ≡ round.now.net.now.nodes }
    ensures { AreHops (state_after round.now) round.now.net.now.nodes hops.new }
{
    for x in 0..round.net.nodes() {
        hops[x as usize] = hop_of(round, x);
    }
}
