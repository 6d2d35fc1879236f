//! The outcome of a round on a network, computed before any of it is put in place.

ghost use Rattle.std.specs.Prelude.{◌≡◌, ℕ, ◌<◌, ◌==◌, ◌↔◌, List, [], ◌∷◌, ◌++◌, All, Any};
ghost use Rattle.std.specs.Prelude.{IsTrue, count_by, length, slice_index, sum, IfOk, OnOk};
ghost use Rattle.std.specs.List.{filter, range_with_len};
ghost use Rattle.fr_core.specs.History.{moment_of};
ghost use Rattle.fr_core.specs.Legal.{CanTurn};
ghost use Rattle.fr_crew.specs.Settlements.{IsCounted};
ghost use Rattle.fr_graph.specs.Counts.{AreLawful, links_at};
ghost use Rattle.fr_graph.specs.Network.{net_of};
ghost use Rattle.fr_route.specs.Ends.{ends_of};
ghost use Rattle.fr_route.specs.Outcomes.{HoldsMoved, ListsOthers, lone_count, settled_state};
ghost use Rattle.fr_route.specs.Routes.{AreHops};
ghost use Rattle.fr_route.specs.States.{IsReport};

use crate::change::Report;
use crate::changed_nodes::ChangedNodes;
use crate::hops::{AfterRound, renew_hops};
use fr_core::can_turn;
use fr_graph::{Edit, Net, Turns};
use fr_tables::Hop;
use std::alloc::{AllocError, Global};

/// The outcome of a round on a network.
#[derive(Drop)]
pub(crate) struct Outcome {
    /// The destination.
    pub(crate) dest: u32,
    /// How often each node turns.
    pub(crate) turns: Turns,
    /// What the round reports.
    pub(crate) report: Report,
}

/// Whether one of these nodes can turn.
pub(crate) fn any_can_turn(net: &Net, dest: u32, counts: &[u64], among: &[u32]) -> bool
    requires lawful { AreLawful net.now.nodes dest net.now.links counts.now }
    requires nodes { All (λ (x : ℕ). x < net.now.nodes) among.now }
    ensures { IsTrue result ↔ Any (CanTurn net.now.nodes dest (moment_of net.now.links counts.now)) among.now }
{
    for x in among {
        if can_turn(net, dest, counts, *x) {
            return true;
        }
    }
    false
}

/// The report of a round with these settled counts. The nodes that are cut off are those without a link, and those that
/// have turned as often as there are nodes.
pub(crate) fn report_of(net: &Net, dest: u32, turns: &Turns) -> Report
    requires { IsCounted net.now.nodes dest net.now.links turns.now }
    ensures { IsReport (settled_state net.now dest turns.now) result.turned result.cut }
{
    net.network_law();
    let turned = turns.total();
    Report {
        turned,
        cut: count_isolated_nodes(net, dest)
            + count_capped_nodes(net.nodes(), turns.counts(), turned),
    }
}

/// How many nodes other than the destination have no link.
pub(crate) fn count_isolated_nodes(net: &Net, dest: u32) -> u64
    requires { dest < net.now.nodes }
    ensures { result ≡ lone_count net.now.nodes net.now.links dest }
{
    let alone = u64::from(net.isolated_count());
    if net.degree(dest) == 0 {
        alone - 1
    } else {
        alone
    }
}

/// How many nodes have turned as often as there are nodes. There is none if there are fewer turns than nodes.
fn count_capped_nodes(nodes: u32, counts: &[u64], turned: u64) -> u64
    requires one_each { length counts.now ≡ nodes }
    requires turned { turned ≡ sum counts.now }
    ensures { result ≡ count_by (λ count. count == nodes) counts.now }
{
    let cap = u64::from(nodes);
    if turned < cap {
        return 0;
    }
    counts.iter().filter(|count| **count == cap).count() as u64
}

/// Puts a round in place: turns the links, and updates the hops of the moved nodes and those that turns have made
/// stale. Lists the nodes whose hop has changed, if the caller asks for them.
pub(crate) fn apply_outcome(
    net: &mut Net,
    hops: &mut [Hop],
    outcome: &Outcome,
    moved: &[u32],
    told: &mut ChangedNodes,
)
    requires counted { IsCounted net.old.nodes outcome.now.dest net.old.links outcome.now.turns }
    requires one_each { length hops.old ≡ net.old.nodes }
    requires moved { HoldsMoved (settled_state net.old outcome.now.dest outcome.now.turns) hops.old moved.now }
    ensures net { net.new ≡ net_of net.old.nodes (links_at net.old.links outcome.now.turns) }
    ensures hops { AreHops (settled_state net.old outcome.now.dest outcome.now.turns) net.old.nodes hops.new }
    ensures told { ListsOthers hops.old hops.new told.old told.new }
{
    net.network_law();
    net.turn(&outcome.turns);
    told.clear();
    let round = AfterRound {
        net,
        dest: outcome.dest,
        turns: &outcome.turns,
    };
    renew_hops(hops, &round, moved, told);
}

/// The nodes that edits and a new destination touch: the old and the new destination, and the ends of the links that
/// are removed or added.
pub(crate) fn touched_nodes(
    alloc: Global,
    dest: u32,
    next_dest: u32,
    edits: &[Edit],
) -> Result<Vec<u32>, AllocError>
    ensures { IfOk result (λ nodes. nodes.items ≡ dest ∷ (next_dest ∷ ends_of edits.now)) }
{
    let room = edits.len().saturating_mul(2).saturating_add(2);
    let mut nodes = Vec::with_capacity(alloc, room)?;
    nodes.push(dest)?;
    nodes.push(next_dest)?;
    push_ends(&mut nodes, edits)?;
    Ok(nodes)
}

/// Appends the ends of the links that edits remove or add.
pub(crate) fn push_ends(nodes: &mut Vec<u32>, edits: &[Edit]) -> Result<(), AllocError>
    ensures { OnOk result (nodes.new.items ≡ nodes.old.items ++ ends_of edits.now) }
{
    for edit in edits {
        let (u, v) = ends_of_edit(*edit);
        nodes.push(u)?;
        nodes.push(v)?;
    }
    Ok(())
}

/// Appends the nodes that have turned as often as there are nodes, in ascending order.
pub(crate) fn push_capped_nodes(
    capped: &mut Vec<u32>,
    nodes: u32,
    counts: &[u64],
) -> Result<(), AllocError>
    requires { length counts.now ≡ nodes }
    ensures { OnOk result
        (capped.new.items ≡ capped.old.items
        ++ filter (λ x. slice_index counts.now x == nodes) (range_with_len 0 nodes)) }
{
    let cap = u64::from(nodes);
    for x in 0..nodes {
        if counts[x as usize] == cap {
            capped.push(x)?;
        }
    }
    Ok(())
}

/// The ends of the link that an edit removes or adds.
pub(crate) fn ends_of_edit(edit: Edit) -> (u32, u32)
    ensures { ends_of (edit ∷ []) ≡ result.0 ∷ (result.1 ∷ []) }
{
    match edit {
        Edit::Cut { u, v } | Edit::Add { u, v } | Edit::Join { u, v } => (u, v),
    }
}
